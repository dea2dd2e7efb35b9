//! Where the rows of a layer, or those of a feature, begin.

/// How many entries the lists have that a layer or a feature names.
#[derive(Clone, Copy, Debug)]
pub(crate) struct Places {
    pub(crate) features: usize,
    pub(crate) keys: usize,
    pub(crate) values: usize,
    pub(crate) parts: usize,
    pub(crate) integers: usize,
    pub(crate) texts: usize,
}
