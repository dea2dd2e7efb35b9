//! The names of the layers among the items so far.
ghost use Rattle.std.specs.Prelude.{◌≡◌, ◌∷◌, ◌++◌, ◌||◌, ℕ, ◌≤◌, List, [], false, length, map, not, bytes_eq, string_bytes, IfOk, IfErr, OnErr, OnOk, IsTrue};
ghost use Rattle.std.specs.Bool.{OnFalse};
ghost use Rattle.std.specs.List.{flat_map, list_any};
ghost use Rattle.std.specs.Option.{option_copied, option_to_list};
ghost use Rattle.mvt_message.specs.Items.{names_in};
ghost use Rattle.mvt_tile.specs.Inner.Judging.{AreNamed, name_fault};
ghost use Rattle.mvt_tile.specs.Inner.Wanting.{IsSetOf};
ghost use Rattle.mvt_tile.specs.Streams.{ReportsEarly};
ghost use Rattle.mvt_tile.specs.TileRules.{repeats};

use crate::fault::DecodeError;
use crate::name_set::NameSet;
use crate::walking::repeated_name;
use mvt_base::{LIMIT, Text};
use mvt_message::Item;
use std::alloc::{AllocError, Global};
use std::collections::BTreeSet;

/// How many items there are, and the names of the layers among them.
#[derive(Drop)]
pub(crate) struct Names {
    pub(crate) count: u32,
    pub(crate) names: NameSet,
}

impl Names {
    /// No names yet. Takes no memory.
    pub(crate) fn new(alloc: Global) -> Self
        ensures { AreNamed result.count result.names [] }
    {
        Names {
            count: 0,
            names: NameSet::new(alloc),
        }
    }

    /// Adds one item more, with its name if it has one. A name that is there is a fault.
    pub(crate) fn add(&mut self, name: Option<Text>, tag_at: u64) -> Result<(), DecodeError>
        requires { self.old.count ≤ LIMIT }
        ensures added { OnOk result ((items : List Item) (item : Item)
            → AreNamed self.old.count self.old.names items
            → names_in item ≡ option_to_list name
            → AreNamed self.new.count self.new.names (items ++ item ∷ [])
            × (repeats (flat_map names_in items) (names_in item) ≡ false)) }
        ensures fault { IfErr result (λ error. (items : List Item)
            → AreNamed self.old.count self.old.names items
            → ReportsEarly error (name_fault (length items) (flat_map names_in items)
            (option_to_list name) tag_at)) }
        ensures same { OnErr result ((self.new.count ≡ self.old.count)
            × (self.new.names ≡ self.old.names)) }
    {
        if !self.names.add(name)? {
            return Err(repeated_name(self.count, tag_at));
        }
        self.count += 1;
        Ok(())
    }
}

/// The name of a layer. A foreign item has none.
pub(crate) fn name_of(alloc: Global, item: &Item) -> Result<Option<Text>, AllocError>
    ensures { IfOk result (λ name. option_to_list name ≡ names_in item.now) }
{
    match item {
        Item::Foreign { .. } => Ok(None),
        Item::Layer(layer) => Ok(Some(layer.name.copy(alloc)?)),
    }
}

/// A name as a text of its own.
pub(crate) fn text_of(alloc: Global, name: Option<&str>) -> Result<Option<Text>, AllocError>
    ensures { IfOk result (λ text. text ≡ option_copied name.entry) }
{
    match name {
        Some(name) => Ok(Some(Text::from_str(alloc, name)?)),
        None => Ok(None),
    }
}

/// Adds the name of an item to the names of those before it, if it has one, and answers whether it
/// is new.
pub(crate) fn add_name(names: &mut BTreeSet<Text>, name: Option<Text>) -> Result<bool, AllocError>
    ensures new { IfOk result (λ new. new ≡ not (repeats names.old.keys (option_to_list name))) }
    ensures named { IfOk result (λ new. IsTrue new → (n : List ℕ)
        → list_any (bytes_eq n) names.new.keys
        ≡ (list_any (bytes_eq n) names.old.keys || list_any (bytes_eq n) (option_to_list name))) }
    ensures same { IfOk result (λ new. OnFalse new (names.new.keys ≡ names.old.keys)) }
    ensures err { OnErr result (names.new.keys ≡ names.old.keys) }
{
    match name {
        Some(name) => Ok(names.insert(name)?),
        None => Ok(true),
    }
}

/// Whether a set holds a name.
pub(crate) fn holds_name(names: &BTreeSet<Text>, name: &Text) -> bool
    ensures { result ≡ list_any (bytes_eq name.now) names.now.keys }
{
    names.contains(name)
}

/// The set of some names.
pub(crate) fn set_of(alloc: Global, names: &[String]) -> Result<BTreeSet<Text>, AllocError>
    ensures { IfOk result (λ set. IsSetOf set.keys (map string_bytes names.now)) }
{
    let mut set = BTreeSet::new(alloc);
    for name in names {
        let _ = add_name(&mut set, Some(Text::from_str(alloc, name.as_str())?))?;
    }
    Ok(set)
}
