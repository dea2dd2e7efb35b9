//! What is found of items that viewers stumble over, one item after the other.
ghost use Rattle.std.specs.Prelude.{◌≡◌, ◌+◌, ◌^◌, ◌<◌, ◌≤◌, List, [], ◌∷◌, ◌++◌, length, None, IfOk, IfErr, OnOk, OnErr};
ghost use Rattle.std.specs.Option.{option_copied, option_to_list};
ghost use Rattle.mvt_base.specs.Related.{Extends};
ghost use Rattle.mvt_base.specs.Reports.{Reports};
ghost use Rattle.mvt_attrs.specs.Values.{Value};
ghost use Rattle.mvt_feature.specs.Faults.{fault_of};
ghost use Rattle.mvt_message.specs.declared.item.Item.{Item as AnItem};
ghost use Rattle.mvt_message.specs.declared.item.Layer.{Layer as ALayer};
ghost use Rattle.mvt_message.specs.ItemRules.{item_fault};
ghost use Rattle.mvt_message.specs.Items.{IsItem, names_in};
ghost use Rattle.mvt_message.specs.ValidItems.{ValidItem};
ghost use Rattle.mvt_tile_value.specs.declared.tile.Tile.{Tile};
ghost use Rattle.mvt_tile_value.specs.Lint.{findings_of, layer_findings};
ghost use Rattle.mvt_tile_value.specs.Linting.{AreLinted, AreLintedItems};

use crate::finding::Finding;
use crate::layer_linting::LayerFindings;
use crate::linting::push_if;
use mvt_base::LIMIT;
use mvt_message::{MessageError, Visited, extent_in, visit_version_2};
use std::alloc::{AllocError, Global};

/// What is found of the items so far that viewers stumble over. No value of an item is made.
#[derive(Drop)]
pub struct LintBuilder {
    findings: Vec<Finding>,
}

impl LintBuilder {
    /// Of no items, without memory.
    pub fn new(alloc: Global) -> Self
        ensures { AreLintedItems result [] }
    {
        LintBuilder {
            findings: Vec::new(alloc),
        }
    }

    /// Adds what is found of the item of a payload, after so many others, and answers the name of
    /// the layer. Layers of other versions are passed over.
    ///
    /// # Errors
    ///
    /// As [`read_item`](mvt_message::read_item). What was found before stays; of the layer that
    /// brought the error there may be some findings too.
    pub fn add<'b>(
        &mut self,
        alloc: Global,
        index: usize,
        payload: &'b [u8],
        payload_at: u64,
        tag_at: u64,
    ) -> Result<Option<&'b str>, MessageError>
        requires small { length payload.now ≤ LIMIT }
        requires fits { payload_at + length payload.now < 2 ^ 64 }
        ensures ok { OnOk result (item_fault payload.now payload_at tag_at ≡ None) }
        ensures found { (items : List AnItem) → AreLintedItems self.old items → length items ≡ index
            → IfOk result (λ name. (item : AnItem) × IsItem payload.now item × ValidItem item
            × (option_to_list (option_copied name) ≡ names_in item)
            × AreLintedItems self.new (items ++ item ∷ [])) }
        ensures fault { IfErr result (λ error. Reports (fault_of error)
            (item_fault payload.now payload_at tag_at)) }
        ensures left { OnErr result (Extends self.old.findings.items self.new.findings.items) }
    {
        let extent = extent_in(payload);
        let mut linted = LayerFindings::new(alloc, index, extent);
        match visit_version_2(alloc, &mut linted, payload, payload_at, tag_at) {
            Ok(Visited::Layer { name, .. }) => {
                self.add_layer(index, extent, &linted)?;
                Ok(Some(name))
            }
            Ok(Visited::Foreign { .. }) => Ok(None),
            Err(error) => Err(error),
        }
    }

    /// Adds what was found of a layer of this extent.
    fn add_layer(
        &mut self,
        index: usize,
        extent: u32,
        linted: &LayerFindings,
    ) -> Result<(), AllocError>
        ensures added { (values : List Value) (layer : ALayer) → layer.extent ≡ extent
            → AreLinted index extent values linted.now layer.features
            → OnOk result (self.new.findings.items
            ≡ self.old.findings.items ++ layer_findings index layer) }
        ensures left { OnErr result (Extends self.old.findings.items self.new.findings.items) }
    {
        push_if(&mut self.findings, extent == 0, Finding::ZeroExtent(index))?;
        self.findings.extend_from_slice(&linted.findings)?;
        Ok(())
    }

    /// The findings of the tile of these items.
    #[tactic(auto, unfolding(crate::specs::Lint::findings_of))]
    pub fn into_findings(self) -> Vec<Finding>
        ensures { (tile : Tile) → AreLintedItems self tile.items
            → result.items ≡ findings_of tile }
    {
        let LintBuilder { findings } = self;
        findings
    }
}
