//! The keys of a layer, each once, in order of first use.
ghost use Rattle.std.specs.Prelude.{◌≡◌, slice_get, option_copied};

use crate::pool::Pool;
use crate::text_ref::TextRef;

/// The keys of a layer, lent, each once: a key's tag is its place here.
///
/// ```ignore
/// let (name, kind) = (TextRef::of("name"), TextRef::of("kind"));
/// let mut keys = KeyPool::new(alloc);
/// keys.place(&name)?; // 0
/// keys.place(&kind)?; // 1
/// keys.place(&name)?; // 0, without memory
/// keys.get(1);        // Some("kind")
/// ```
pub type KeyPool<'a> = Pool<TextRef<'a>>;

impl<'a> Pool<TextRef<'a>> {
    /// The key of a tag.
    pub fn get(&self, index: u32) -> Option<&'a str>
        ensures { option_copied result ≡ slice_get self.now index }
    {
        let key = self.entry(index)?;
        Some(key.as_str())
    }
}
