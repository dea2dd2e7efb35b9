//! The names of the layers of a tile, of which most tiles have one (Mapbox Vector Tile
//! Specification 2.1, 4.1).
ghost use Rattle.std.specs.Prelude.{◌≡◌, ◌∷◌, ◌||◌, ℕ, List, [], not, bytes_eq, IfOk, OnErr, IsTrue};
ghost use Rattle.std.specs.Bool.{OnFalse};
ghost use Rattle.std.specs.List.{list_any};
ghost use Rattle.std.specs.Option.{option_to_list};
ghost use Rattle.mvt_tile.specs.TileRules.{repeats};

use crate::names::{add_name, holds_name};
use mvt_base::Text;
use std::alloc::{AllocError, Global};
use std::collections::BTreeSet;
use std::marker::Model;

/// Names, each of them once. The first lies in the value itself; with the second an ordered set of
/// the others begins, which takes memory.
#[derive(Drop)]
pub struct NameSet {
    first: Option<Text>,
    others: BTreeSet<Text>,
}

impl Model for NameSet {
    ghost use Rattle.std.specs.Prelude.{◌≡◌, ◌++◌, ℕ, List, [], IfNone};
    ghost use Rattle.std.specs.Option.{option_to_list};

    ghost Value = { List (List ℕ) };

    ghost view = { λ s. option_to_list s.first ++ s.others.keys };

    ghost invariant = { λ s. IfNone s.first (s.others.keys ≡ []) };
}

impl NameSet {
    /// No names yet. Takes no memory.
    pub fn new(alloc: Global) -> Self
        ensures { result ≡ [] }
    {
        NameSet {
            first: None,
            others: BTreeSet::new(alloc),
        }
    }

    /// Whether a name is there.
    pub fn contains(&self, name: &Text) -> bool
        ensures { result ≡ list_any (bytes_eq name.now) self.now }
    {
        match &self.first {
            Some(first) => first == name || holds_name(&self.others, name),
            None => false,
        }
    }

    /// Adds the name of an item, if it has one, and answers whether it is new.
    ///
    /// # Errors
    ///
    /// When memory runs out; the names are then unchanged.
    pub fn add(&mut self, name: Option<Text>) -> Result<bool, AllocError>
        ensures new { IfOk result (λ new. new ≡ not (repeats self.old (option_to_list name))) }
        ensures named { IfOk result (λ new. IsTrue new → (n : List ℕ)
            → list_any (bytes_eq n) self.new
            ≡ (list_any (bytes_eq n) self.old || list_any (bytes_eq n) (option_to_list name))) }
        ensures same { IfOk result (λ new. OnFalse new (self.new ≡ self.old)) }
        ensures err { OnErr result (self.new ≡ self.old) }
    {
        match name {
            Some(name) => self.insert(name),
            None => Ok(true),
        }
    }

    /// Adds a name, and answers whether it is new.
    fn insert(&mut self, name: Text) -> Result<bool, AllocError>
        ensures new { IfOk result (λ new. new ≡ not (repeats self.old (name ∷ []))) }
        ensures named { IfOk result (λ new. IsTrue new → (n : List ℕ)
            → list_any (bytes_eq n) self.new
            ≡ (list_any (bytes_eq n) self.old || list_any (bytes_eq n) (name ∷ []))) }
        ensures same { IfOk result (λ new. OnFalse new (self.new ≡ self.old)) }
        ensures err { OnErr result (self.new ≡ self.old) }
    {
        let Some(first) = &self.first else {
            self.first = Some(name);
            return Ok(true);
        };
        if *first == name {
            return Ok(false);
        }
        add_name(&mut self.others, Some(name))
    }
}
