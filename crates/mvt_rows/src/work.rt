//! How much of rows may be gone over.
ghost use Rattle.std.specs.Prelude.{◌≡◌, ◌+◌, ◌<◌, OnErr, OnOk};
ghost use Rattle.mvt_base.specs.declared.TheConstants.{LIMIT as the_limit};
ghost use Rattle.mvt_rows.specs.Lent.{table_of};
ghost use Rattle.mvt_rows.specs.Writing.{entry_count};

use crate::rows::Rows;
use mvt_base::LIMIT;
use std::alloc::AllocError;

/// How many entries of the lists may still be gone over: at first as many as the limit and all
/// lists have.
///
/// Spans that don't overlap name no entry twice, and stay within the lists' lengths. Where they
/// overlap, each time counts: so rows of a few megabytes can't ask for more work than they and the
/// limit stand for.
#[derive(Debug, Drop)]
pub(crate) struct Work {
    left: u128,
}

impl Work {
    pub(crate) fn of(rows: &Rows<'_>) -> Self
        ensures { result.left ≡ the_limit + entry_count (table_of rows.now) }
    {
        let entries = rows.layers.len() as u128
            + rows.features.len() as u128
            + rows.keys.len() as u128
            + rows.values.len() as u128
            + rows.tags.len() as u128
            + rows.parts.len() as u128
            + rows.points.len() as u128
            + rows.integers.len() as u128
            + rows.texts.len() as u128;
        Work {
            left: LIMIT as u128 + entries,
        }
    }

    /// Counts entries that are gone over.
    ///
    /// # Errors
    ///
    /// More than are left.
    pub(crate) fn spend(&mut self, entries: u64) -> Result<(), AllocError>
        ensures counted { OnOk result (self.new.left + entries ≡ self.old.left) }
        ensures past { OnErr result (self.old.left < entries) }
    {
        match self.left.checked_sub(entries as u128) {
            Some(left) => {
                self.left = left;
                Ok(())
            }
            None => Err(AllocError),
        }
    }
}
