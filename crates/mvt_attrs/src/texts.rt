//! Texts that are lent, and texts with memory of their own.
ghost use Rattle.std.specs.Prelude.{◌≡◌, length, IfOk};
ghost use Rattle.mvt_attrs.specs.FirstUses.{lent};

use mvt_base::Text;
use std::alloc::{AllocError, Global};

/// Copies of texts that are lent.
///
/// # Errors
///
/// When memory runs out.
pub(crate) fn texts_of(alloc: Global, strs: &[&str]) -> Result<Vec<Text>, AllocError>
    ensures { IfOk result (λ texts. texts.items ≡ lent strs.now) }
{
    let mut texts = Vec::with_capacity(alloc, strs.len())?;
    for text in strs {
        texts.push(Text::from_str(alloc, text)?)?;
    }
    Ok(texts)
}

/// Texts, lent.
///
/// # Errors
///
/// When memory runs out.
pub fn lend_texts(alloc: Global, texts: &[Text]) -> Result<Vec<&str>, AllocError>
    ensures { IfOk result (λ lent_texts. lent lent_texts.items ≡ texts.now) }
{
    let mut lent = Vec::with_capacity(alloc, texts.len())?;
    for text in texts {
        lent.push(text.as_str())?;
    }
    Ok(lent)
}

/// How many texts are lent.
#[inline(always)]
pub(crate) fn count_of(texts: &[&str]) -> usize
    ensures { result ≡ length (lent texts.now) }
{
    texts.len()
}
