//! What is found of items, one after another.
ghost use Rattle.std.specs.Prelude.{◌≡◌, ℕ, ◌+◌, ◌*◌, ◌^◌, ◌<◌, ◌≤◌, List, [], ◌∷◌, ◌++◌, length, bytes_eq, None, IfOk, IfErr, OnOk};
ghost use Rattle.std.specs.Option.{option_copied, option_to_list};
ghost use Rattle.mvt_base.specs.Reports.{Reports};
ghost use Rattle.mvt_wire.specs.Spelling.{spelled};
ghost use Rattle.mvt_feature.specs.declared.feature.Feature.{Feature};
ghost use Rattle.mvt_feature.specs.Faults.{fault_of};
ghost use Rattle.mvt_message.specs.declared.item.Layer.{Layer as ALayer};
ghost use Rattle.mvt_message.specs.declared.item.Item.TheVariants as an_item;
ghost use Rattle.mvt_message.specs.CanonicalItems.{canonical_item, head_fields};
ghost use Rattle.mvt_message.specs.ItemRules.{item_fault};
ghost use Rattle.mvt_message.specs.Items.{IsItem, names_in};
ghost use Rattle.mvt_message.specs.Rewriting.{tail_of};
ghost use Rattle.mvt_message.specs.ValidItems.{ValidItem};
ghost use Rattle.mvt_tile_value.specs.declared.tile.Tile.{Tile};
ghost use Rattle.mvt_tile_value.specs.CanonicalTiles.{canonical};
ghost use Rattle.mvt_tile_value.specs.Beginning.{IsNoLayer};
ghost use Rattle.mvt_tile_value.specs.Comparing.{IsAfter};
ghost use Rattle.mvt_tile_value.specs.Findings.{AreFound, AreNotedSoFar, IsNotedLayer};
ghost use Rattle.mvt_tile_value.specs.Notes.{layer_notes};
ghost use Rattle.mvt_tile_value.specs.Survey.{feature_count as the_feature_count, survey_of};

use crate::beginning::may_be_layer;
use crate::comparing::after_item;
use crate::layer_noting::LayerNotes;
use crate::note::Note;
use crate::noting::note_if;
use crate::survey::Survey;
use mvt_base::{Items, LIMIT};
use mvt_message::{
    Item, LayerRewriter, MessageError, Rewritten, RewrittenLayer, Unsure, Visited, judge_item,
    visit_canonical, visit_version_2,
};
use std::alloc::{AllocError, Global};

/// What was found of the items of an input so far. Each is compared with the input where it stands,
/// so that none has to be kept.
#[derive(Drop)]
pub struct SurveyBuilder<'a> {
    features: u128,
    /// What stands after their canonical bytes; `None` if the input doesn't begin with these.
    left: Option<&'a [u8]>,
    notes: Vec<Note>,
}

impl<'a> SurveyBuilder<'a> {
    /// For no items yet. Takes no memory.
    pub fn new(alloc: Global, input: &'a [u8]) -> Self
        requires { length input.now ≤ LIMIT }
        ensures { AreFound LIMIT input.now result [] }
    {
        SurveyBuilder {
            features: 0,
            left: Some(input),
            notes: Vec::new(alloc),
        }
    }

    /// Adds what is found of an item, given by its payload and its index, and answers the name of
    /// the layer. No value is made of it, and nothing is written for a layer that is canonical as
    /// it stands, or that can't be canonical there. For another layer it holds the keys, the values
    /// and the canonical fields of the features.
    ///
    /// # Errors
    ///
    /// As [`read_item`](mvt_message::read_item).
    pub fn add<'b>(
        &mut self,
        alloc: Global,
        index: usize,
        payload: &'b [u8],
        payload_at: u64,
        tag_at: u64,
    ) -> Result<Option<&'b str>, MessageError>
        requires small { length payload.now ≤ LIMIT }
        requires fits { payload_at + length payload.now < 2 ^ 64 }
        requires few { index ≤ LIMIT }
        requires found { (input : List ℕ) × (items : List Item)
            × AreFound LIMIT input self.old items × (length items ≡ index) }
        ensures ok { OnOk result (item_fault payload.now payload_at tag_at ≡ None) }
        ensures found { (input : List ℕ) (items : List Item) → AreFound LIMIT input self.old items
            → length items ≡ index
            → IfOk result (λ name. (item : Item) × IsItem payload.now item × ValidItem item
            × (option_to_list (option_copied name) ≡ names_in item)
            × AreFound LIMIT input self.new (items ++ item ∷ [])) }
        ensures fault { IfErr result (λ error. Reports (fault_of error)
            (item_fault payload.now payload_at tag_at)) }
    {
        if !may_be_layer(self.left) {
            return self.add_other(alloc, index, payload, payload_at, tag_at);
        }
        match canonical_notes(alloc, index, payload) {
            Ok((name, noted)) => {
                self.add_canonical(alloc, index, payload, &noted)?;
                Ok(Some(name))
            }
            Err(Unsure::Memory) => Err(MessageError::Memory),
            Err(Unsure::SeemsBroken) => {
                // Judging tells the fault in less time than rewriting up to it.
                judge_item(alloc, payload, payload_at, tag_at)?;
                self.add_rewritten(alloc, index, payload, payload_at, tag_at)
            }
            Err(Unsure::Undecided) => {
                self.add_rewritten(alloc, index, payload, payload_at, tag_at)
            }
        }
    }

    /// The same for any item, by its canonical bytes.
    fn add_rewritten<'b>(
        &mut self,
        alloc: Global,
        index: usize,
        payload: &'b [u8],
        payload_at: u64,
        tag_at: u64,
    ) -> Result<Option<&'b str>, MessageError>
        requires small { length payload.now ≤ LIMIT }
        requires fits { payload_at + length payload.now < 2 ^ 64 }
        requires few { index ≤ LIMIT }
        requires found { (input : List ℕ) × (items : List Item)
            × AreFound LIMIT input self.old items × (length items ≡ index) }
        ensures ok { OnOk result (item_fault payload.now payload_at tag_at ≡ None) }
        ensures found { (input : List ℕ) (items : List Item) → AreFound LIMIT input self.old items
            → length items ≡ index
            → IfOk result (λ name. (item : Item) × IsItem payload.now item × ValidItem item
            × (option_to_list (option_copied name) ≡ names_in item)
            × AreFound LIMIT input self.new (items ++ item ∷ [])) }
        ensures fault { IfErr result (λ error. Reports (fault_of error)
            (item_fault payload.now payload_at tag_at)) }
    {
        let noted = LayerNotes::new(alloc, index);
        let mut rewriter = LayerRewriter::new(alloc, noted, payload.len())?;
        let visited = visit_version_2(alloc, &mut rewriter, payload, payload_at, tag_at)?;
        match rewriter.finish(visited) {
            Rewritten::Layer(layer) => {
                self.add_layer(alloc, index, &layer)?;
                Ok(Some(layer.name))
            }
            Rewritten::Foreign(version) => {
                self.add_foreign(alloc, index, version, payload)?;
                Ok(None)
            }
        }
    }

    /// The same for an item that is no canonical layer where it stands: nothing is written for it.
    fn add_other<'b>(
        &mut self,
        alloc: Global,
        index: usize,
        payload: &'b [u8],
        payload_at: u64,
        tag_at: u64,
    ) -> Result<Option<&'b str>, MessageError>
        requires small { length payload.now ≤ LIMIT }
        requires fits { payload_at + length payload.now < 2 ^ 64 }
        requires few { index ≤ LIMIT }
        requires found { (input : List ℕ) × (items : List Item)
            × AreFound LIMIT input self.old items × (length items ≡ index) }
        requires other { IsNoLayer self.old.left }
        ensures ok { OnOk result (item_fault payload.now payload_at tag_at ≡ None) }
        ensures found { (input : List ℕ) (items : List Item) → AreFound LIMIT input self.old items
            → length items ≡ index
            → IfOk result (λ name. (item : Item) × IsItem payload.now item × ValidItem item
            × (option_to_list (option_copied name) ≡ names_in item)
            × AreFound LIMIT input self.new (items ++ item ∷ [])) }
        ensures fault { IfErr result (λ error. Reports (fault_of error)
            (item_fault payload.now payload_at tag_at)) }
    {
        let mut noted = LayerNotes::new(alloc, index);
        match visit_version_2(alloc, &mut noted, payload, payload_at, tag_at) {
            Ok(Visited::Layer { name, .. }) => {
                self.left = None;
                self.add_notes(index, &noted)?;
                Ok(Some(name))
            }
            Ok(Visited::Foreign { version }) => {
                self.add_foreign(alloc, index, version, payload)?;
                Ok(None)
            }
            Err(error) => Err(error),
        }
    }

    /// Adds what was found of a layer whose payload is canonical as it stands.
    fn add_canonical(
        &mut self,
        alloc: Global,
        index: usize,
        payload: &[u8],
        noted: &LayerNotes,
    ) -> Result<(), AllocError>
        requires few { index ≤ LIMIT }
        requires found { (input : List ℕ) × (items : List Item)
            × AreFound LIMIT input self.old items × (length items ≡ index) }
        ensures { (input : List ℕ) (items : List Item) (l : ALayer)
            → AreFound LIMIT input self.old items → length items ≡ index
            → AreNotedSoFar index noted.now l.features
            → canonical_item (an_item.Layer l) ≡ payload.now
            → OnOk result (AreFound LIMIT input self.new (items ++ an_item.Layer l ∷ [])) }
    {
        self.left = after_item(alloc, &[], payload, &[], self.left)?;
        self.add_notes(index, noted)
    }

    /// Adds what was found of a layer that was made canonical.
    fn add_layer(
        &mut self,
        alloc: Global,
        index: usize,
        layer: &RewrittenLayer<'_, LayerNotes>,
    ) -> Result<(), AllocError>
        requires few { index ≤ LIMIT }
        requires found { (input : List ℕ) × (items : List Item)
            × AreFound LIMIT input self.old items × (length items ≡ index) }
        ensures { (input : List ℕ) (items : List Item) (l : ALayer)
            → AreFound LIMIT input self.old items → length items ≡ index
            → AreNotedSoFar index layer.now.visitor l.features
            → canonical_item (an_item.Layer l) ≡ spelled (head_fields layer.now.name.now)
            ++ (layer.now.writer.features.items
            ++ tail_of layer.now.writer.uses layer.now.extent)
            → OnOk result (AreFound LIMIT input self.new (items ++ an_item.Layer l ∷ [])) }
    {
        let mut head = Vec::new(alloc);
        layer.append_head(&mut head)?;
        let mut tail = Vec::new(alloc);
        layer.append_tail(&mut tail)?;
        self.left = after_item(alloc, &head, layer.features(), &tail, self.left)?;
        self.add_notes(index, &layer.visitor)
    }

    /// Adds the notes of a layer's features and their number.
    fn add_notes(&mut self, index: usize, noted: &LayerNotes) -> Result<(), AllocError>
        requires few { index ≤ LIMIT }
        requires found { self.old.features ≤ index * 18446744073709551615 }
        ensures notes { (features : List Feature) → AreNotedSoFar index noted.now features
            → OnOk result (self.new.notes.items
            ≡ self.old.notes.items ++ layer_notes index features) }
        ensures count { OnOk result (self.new.features ≡ self.old.features + noted.now.count) }
        ensures few { noted.now.count < 2 ^ 64 }
        ensures left { self.new.left ≡ self.old.left }
    {
        let count = noted.count as u128;
        noted.append_to(index, &mut self.notes)?;
        self.features += count;
        Ok(())
    }

    /// Adds what is found of a layer of another version.
    fn add_foreign(
        &mut self,
        alloc: Global,
        index: usize,
        version: u32,
        payload: &[u8],
    ) -> Result<(), AllocError>
        ensures { (input : List ℕ) (items : List Item) → AreFound LIMIT input self.old items
            → length items ≡ index
            → OnOk result (AreFound LIMIT input self.new
            (items ++ an_item.Foreign version payload.now ∷ [])) }
    {
        self.left = after_item(alloc, &[], payload, &[], self.left)?;
        note_if(&mut self.notes, true, Note::Foreign(index, version))
    }

    /// The survey of a tile with this many layers.
    ///
    /// # Errors
    ///
    /// When memory runs out.
    pub fn into_survey(self, layers: u32) -> Result<Survey, AllocError>
        ensures { (input : List ℕ) (tile : Tile) → AreFound LIMIT input self.entry tile.items
            → length tile.items ≡ layers
            → IfOk result (λ survey. survey ≡ survey_of tile (bytes_eq input (canonical tile))) }
    {
        let SurveyBuilder {
            features,
            left,
            mut notes,
        } = self;
        note_if(&mut notes, layers == 0, Note::NoLayers)?;
        Ok(Survey {
            layers: layers as usize,
            features,
            is_canonical: is_end(left),
            notes: Items::new(notes),
        })
    }
}

/// The name of a layer whose payload is canonical as it stands, and the notes of its features.
fn canonical_notes<'b>(
    alloc: Global,
    index: usize,
    payload: &'b [u8],
) -> Result<(&'b str, LayerNotes), Unsure>
    requires { length payload.now ≤ LIMIT }
    ensures { (items : List Item) → length items ≡ index
        → IfOk result (λ found. IsNotedLayer index payload.now found.0.now found.1) }
{
    let mut notes = LayerNotes::new(alloc, index);
    let name = visit_canonical(alloc, &mut notes, payload)?;
    Ok((name, notes))
}

/// How many features a layer of version 2 has; 0 for a layer of another version.
pub fn feature_count(item: &Item) -> usize
    ensures { result ≡ the_feature_count item.now }
{
    match item {
        Item::Layer(layer) => layer.features.as_slice().len(),
        Item::Foreign { .. } => 0,
    }
}

/// Whether nothing stands after the bytes that an input begins with.
fn is_end(left: Option<&[u8]>) -> bool
    ensures { (input front : List ℕ) → IsAfter input front left.entry
        → result ≡ bytes_eq input front }
{
    match left {
        Some(rest) => rest.is_empty(),
        None => false,
    }
}
