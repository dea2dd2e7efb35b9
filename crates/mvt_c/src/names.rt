//! Names of layers, as C gives them.
ghost use Rattle.std.specs.Prelude.{◌≡◌, map, string_bytes, IfOk, IfErr};
ghost use Rattle.mvt_c.specs.Names.{HoldsNoText, texts_of};

use crate::lent::Bytes;
use crate::refusal::Refusal;
use std::alloc::Global;
use std::str;

/// The names as texts.
///
/// # Errors
///
/// A name that isn't UTF-8; out of memory.
pub(crate) fn read_names(alloc: Global, names: &[Bytes]) -> Result<Vec<String>, Refusal>
    ensures texts { IfOk result (λ read. map string_bytes read.items ≡ texts_of names.now) }
    ensures bad { IfErr result (HoldsNoText names.now) }
{
    let mut read = Vec::with_capacity(alloc, names.len())?;
    for name in names {
        let Ok(text) = str::from_utf8(name.bytes) else {
            return Err(Refusal::BadName);
        };
        read.push(String::from_str(alloc, text)?)?;
    }
    Ok(read)
}
