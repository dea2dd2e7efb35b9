//! Whether tags name the entries of a layer in order of first use (4.4).
ghost use Rattle.std.specs.Prelude.{IfSome};
ghost use Rattle.mvt_attrs.specs.FirstUses.{IsUseOf};

use crate::packed_tags::TagVisitor;
use std::alloc::AllocError;

/// How many keys and values of a layer are used so far, where each new one is the next in order. It
/// doesn't go on where one isn't; that costs speed alone.
#[derive(Debug, Drop)]
pub struct UseOrder {
    pub keys: usize,
    pub values: usize,
}

impl TagVisitor for UseOrder {
    ghost use Rattle.std.proofs.Common.{refl};
    ghost use Rattle.mvt_attrs.specs.FirstUses.{AreInOrder};

    ghost has_tags = { λ start tags now.
        AreInOrder (start.keys, start.values) tags (now.keys, now.values) };

    ghost may_stop = { Unit {0} };

    ghost begins = { λ _. refl };

    #[inline(always)]
    fn visit_pair(&mut self, key: u32, value: u32) -> Result<bool, AllocError> {
        let Some(keys) = with_use(self.keys, key) else {
            return Ok(false);
        };
        let Some(values) = with_use(self.values, value) else {
            return Ok(false);
        };
        self.keys = keys;
        self.values = values;
        Ok(true)
    }
}

/// How many entries are used after one more use, of the entry of this index.
#[inline(always)]
fn with_use(used: usize, index: u32) -> Option<usize>
    ensures { IfSome result (IsUseOf used index) }
{
    let index = index as usize;
    if index < used {
        return Some(used);
    }
    if index == used {
        return Some(index + 1);
    }
    None
}
