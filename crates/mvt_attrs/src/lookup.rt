//! Where an entry stands in a pool, or can be noted.

/// What a look-up finds.
pub(crate) enum Lookup {
    /// The place of the entry.
    Found(usize),
    /// The entry is new. If it has slots, the first of them that is free.
    New { slot: Option<usize> },
}
