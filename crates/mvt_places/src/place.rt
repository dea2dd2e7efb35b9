//! The place of a fault.

/// Where a fault stands in the bytes of a refused tile.
#[derive(Clone, Copy, Debug, PartialEq, Eq)]
pub struct Place<'a> {
    /// The name of the fault's layer, which may not be UTF-8: the last one that can be read.
    pub layer_name: Option<&'a [u8]>,
    /// The id of the fault's feature: the last one that can be read.
    pub feature_id: Option<u64>,
    /// Where the bytes begin that the fault is about.
    pub start: u64,
    /// Where these bytes end; `start` if there are none.
    pub end: u64,
}
