//! What the program does with a tile.

use crate::names::Names;

/// What is done with an input.
#[derive(Debug, Drop)]
pub enum Task {
    /// The top-level fields of the input, a line each.
    Fields,
    /// The tile as JSON.
    Show,
    /// The tile as a picture.
    Draw,
    /// Whether the tile is accepted, and what is noted of it.
    Check,
    /// The same, and why a tile is refused: where, and what it means.
    Explain,
    /// What viewers stumble over in a tile that is accepted.
    Lint,
    /// The tile in canonical form.
    Rewrite,
    /// The tile in canonical form, where two rules that it breaks are mended.
    Mend,
    /// The named layers in canonical form.
    Extract(Names),
    /// The program's name and version; no input is read.
    Version,
}
