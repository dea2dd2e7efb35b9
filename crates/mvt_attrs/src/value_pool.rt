//! The values of a layer, each once, in order of first use.
ghost use Rattle.std.specs.Prelude.{◌≡◌, slice_get, option_copied};

use crate::pool::Pool;
use crate::value::ValueRef;

/// The values of a layer, lent, each once: a value's tag is its place here.
///
/// ```ignore
/// let mut values = ValuePool::new(alloc);
/// values.place(&ValueRef::Int(5))?;  // 0
/// values.place(&ValueRef::Uint(5))?; // 1: another kind is another value
/// values.place(&ValueRef::Int(5))?;  // 0, without memory
/// ```
pub type ValuePool<'a> = Pool<ValueRef<'a>>;

impl<'a> Pool<ValueRef<'a>> {
    /// The value of a tag.
    pub fn get(&self, index: u32) -> Option<&ValueRef<'a>>
        ensures { option_copied result ≡ slice_get self.now index }
    {
        self.entry(index)
    }
}
