//! The fields of a slice, one after another.
ghost use Rattle.std.specs.Prelude.{◌≡◌, ◌+◌, length, slice_get, Some, IfOk, IfNone, IfSome, OnSome};
ghost use Rattle.mvt_wire.specs.Fields.{GivesField};
ghost use Rattle.mvt_wire.specs.Split.{split};

use crate::fault::WireFault;
use crate::field::{Field, next_field};
use std::marker::Model;

/// The fields of a slice in order. After a fault it ends.
///
/// ```ignore
/// for field in Fields::new(payload) {
///     let field = field?;
///     println!(rt; "{} at {}", field.number, field.at)?;
/// }
/// ```
///
/// Contracts see the slice, and the split that is still to come: the fields, then the rest and its
/// place.
#[derive(Debug, Drop)]
pub struct Fields<'a> {
    source: &'a [u8],
    at: usize,
}

impl<'a> Model for Fields<'a> {
    ghost use Rattle.std.specs.Prelude.{◌≤◌, length, drop};
    ghost use Rattle.mvt_wire.specs.Fields.{Ahead};
    ghost use Rattle.mvt_wire.specs.Split.{split_from};

    ghost Value = { Ahead };

    ghost view = { λ s. record {
      source = s.source;
      to_come = split_from s.at (drop s.at s.source.now);
    } };

    ghost invariant = { λ s. s.at ≤ length s.source.now };
}

impl<'a> Fields<'a> {
    /// The fields from the front on.
    #[inline(always)]
    pub fn new(source: &'a [u8]) -> Self
        ensures source { result.source ≡ source.entry }
        ensures fields { result.to_come ≡ split source.now }
        ensures place { result.to_come.rest_at + length result.to_come.rest ≡ length source.now }
    {
        Fields { source, at: 0 }
    }

    /// The next field, if its tag is this byte. This is faster than `next`, since the tag says what
    /// follows. `Some` means that it is the next field; `None` costs speed alone.
    #[inline(always)]
    pub fn next_tagged(&mut self, tag: u8) -> Option<Result<Field<'a>, WireFault>>
        ensures none { IfNone result (self.new ≡ self.old) }
        ensures some { OnSome result (GivesField self.old result self.new) }
        ensures tagged { IfSome result (λ given. IfOk given (λ field.
            slice_get self.old.source.now field.at ≡ Some tag)) }
    {
        match self.source.get(self.at) {
            Some(byte) if *byte == tag => self.next(),
            _ => None,
        }
    }
}

impl<'a> Iterator for Fields<'a> {
    ghost use Rattle.mvt_wire.specs.Fields.{GivesField, fields_at_most};

    type Item = Result<Field<'a>, WireFault>;

    ghost next_gives = { GivesField };

    ghost remaining = { fields_at_most };

    #[inline(always)]
    fn next(&mut self) -> Option<Result<Field<'a>, WireFault>> {
        match next_field(self.source, self.at) {
            Ok(None) => None,
            Ok(Some((field, after))) => {
                self.at = after;
                Some(Ok(field))
            }
            Err(fault) => {
                self.at = self.source.len();
                Some(Err(fault))
            }
        }
    }
}
