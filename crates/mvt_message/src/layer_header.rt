//! The fields of a layer besides the contents of its values and features (Mapbox Vector Tile
//! Specification 2.1, 4.1).
ghost use Rattle.std.specs.Prelude.{◌≡◌, ◌^◌, ◌<◌, [], ◌∷◌, ◌++◌, None, IfErr, OnOk};
ghost use Rattle.std.specs.Option.{option_map, option_copied};
ghost use Rattle.mvt_base.specs.Reports.{Reports};
ghost use Rattle.mvt_base.specs.Rules.{first};
ghost use Rattle.mvt_attrs.specs.FirstUses.{lent};
ghost use Rattle.mvt_wire.specs.Field.{content_of};
ghost use Rattle.mvt_feature.specs.Faults.{fault_of, fault_at as the_fault_at};
ghost use Rattle.mvt_feature.specs.Forms.{number_rules};
ghost use Rattle.mvt_message.specs.Inner.{header_forms, version_after, name_after, extent_after, keys_at, features_after};

use crate::numbers::{DEFAULT_EXTENT, layer};
use crate::payload::{check_bytes, text_of, uint32_of};
use mvt_feature::MessageError;
use mvt_wire::Field;
use std::alloc::{AllocError, Global};

/// How many keys there is room for once there is one.
const FIRST_KEYS: usize = 16;

/// What the fields so far say.
#[derive(Drop)]
pub(crate) struct LayerHeader<'a> {
    pub(crate) version: Option<u32>,
    pub(crate) name: Option<&'a str>,
    pub(crate) extent: u32,
    pub(crate) keys: Vec<&'a str>,
    /// How many features there are.
    pub(crate) features: usize,
}

impl<'a> LayerHeader<'a> {
    pub(crate) fn new(alloc: Global) -> Self
        ensures version { result.version ≡ None }
        ensures name { option_copied result.name ≡ None }
        ensures extent { result.extent ≡ 4096 }
        ensures keys { lent result.keys.items ≡ [] }
        ensures features { result.features ≡ 0 }
    {
        LayerHeader {
            version: None,
            name: None,
            extent: DEFAULT_EXTENT,
            keys: Vec::new(alloc),
            features: 0,
        }
    }

    /// Takes one more field, which is told to stand at this place.
    #[inline(always)]
    pub(crate) fn take(&mut self, field: &Field<'a>, at: u64) -> Result<(), MessageError>
        requires few { self.old.features < 2 ^ 32 }
        ensures ok { OnOk result (first
            (number_rules header_forms field.now.number (content_of field.now.payload)) ≡ None) }
        ensures version { OnOk result (self.new.version
            ≡ version_after self.old.version field.now.number (content_of field.now.payload)) }
        ensures name { OnOk result (option_copied self.new.name
            ≡ name_after (option_copied self.old.name) field.now.number
            (content_of field.now.payload)) }
        ensures extent { OnOk result (self.new.extent
            ≡ extent_after self.old.extent field.now.number (content_of field.now.payload)) }
        ensures keys { OnOk result (lent self.new.keys.items
            ≡ lent self.old.keys.items ++ keys_at field.now.number (content_of field.now.payload)) }
        ensures features { OnOk result (self.new.features
            ≡ features_after self.old.features field.now.number) }
        ensures err { IfErr result (λ error. Reports (fault_of error)
            (option_map (the_fault_at at) (first
            (number_rules header_forms field.now.number (content_of field.now.payload))))) }
    {
        let payload = &field.payload;
        match field.number {
            layer::NAME => self.name = Some(text_of(payload, at)?),
            layer::FEATURES => {
                check_bytes(payload, at)?;
                self.features += 1;
            }
            layer::KEYS => add_key(&mut self.keys, text_of(payload, at)?)?,
            layer::VALUES => check_bytes(payload, at)?,
            layer::EXTENT => self.extent = uint32_of(payload, at)?,
            layer::VERSION => self.version = Some(uint32_of(payload, at)?),
            _ => {}
        }
        Ok(())
    }
}

/// Adds a key; the first takes room for those of a small layer.
#[inline(always)]
fn add_key<'a>(keys: &mut Vec<&'a str>, key: &'a str) -> Result<(), AllocError>
    ensures { OnOk result (lent keys.new.items ≡ lent keys.old.items ++ key.now ∷ []) }
{
    keys.reserve(if keys.is_empty() { FIRST_KEYS } else { 1 })?;
    keys.push_reserved(key);
    Ok(())
}
