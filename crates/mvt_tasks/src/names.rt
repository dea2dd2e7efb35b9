//! The names of layers on the command line.
ghost use Rattle.std.specs.Prelude.{◌≡◌, ◌≢◌, [], true, false, map, string_bytes};

use std::marker::Model;

/// Texts, which contracts see as their bytes.
#[derive(Debug, Drop)]
pub struct Names {
    strings: Vec<String>,
}

impl Model for Names {
    ghost use Rattle.std.specs.Prelude.{List, ℕ, map, string_bytes};

    ghost Value = { List (List ℕ) };

    ghost view = { λ n. map string_bytes n.strings.items };
}

impl Names {
    /// These names, in this order.
    pub fn new(strings: Vec<String>) -> Self
        ensures { result ≡ map string_bytes strings.items }
    {
        Names { strings }
    }

    /// Whether there is no name.
    pub fn is_empty(&self) -> bool
        ensures none { result ≡ true → self.now ≡ [] }
        ensures some { result ≡ false → self.now ≢ [] }
    {
        self.strings.is_empty()
    }

    /// The names.
    pub fn as_slice(&self) -> &[String]
        ensures { map string_bytes result.now ≡ self.now }
    {
        self.strings.as_slice()
    }
}
