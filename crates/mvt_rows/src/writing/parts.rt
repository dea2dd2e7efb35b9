//! What spans name: parts of lists, and texts.
ghost use Rattle.std.specs.Prelude.{◌≡◌, ◌+◌, Some, None, IfOk, IfErr, IsUtf8, MatchOption, OnOk};
ghost use Rattle.std.specs.List.{AllByRecursion};
ghost use Rattle.mvt_attrs.specs.FirstUses.{lent};
ghost use Rattle.mvt_rows.specs.Written.{IfNoPart};
ghost use Rattle.mvt_rows.specs.TileRows.{each, part_of, text_of};

use crate::rows::Span;
use crate::rows_error::RowPartError;
use crate::work::Work;
use std::alloc::Global;
use std::str;

/// The part of a list that a span names, where all of it is there. Its entries count.
pub(crate) fn part<'a, T>(
    list: &'a [T],
    span: Span,
    work: &mut Work,
) -> Result<&'a [T], RowPartError>
    ensures part { IfOk result (λ part. part_of list.now span ≡ Some part.now) }
    ensures none { IfErr result (IfNoPart (part_of list.now span ≡ None)) }
    ensures counted { OnOk result (work.new.left + span.len ≡ work.old.left) }
{
    match find_part(list, span) {
        Some(part) => {
            work.spend(span.len)?;
            Ok(part)
        }
        None => Err(RowPartError::NoPart),
    }
}

pub(crate) fn find_part<T>(list: &[T], span: Span) -> Option<&[T]>
    ensures { MatchOption result (part_of list.now span ≡ None)
        (λ part. part_of list.now span ≡ Some part.now) }
{
    let end = span.start.checked_add(span.len)?;
    list.get(span.start as usize..end as usize)
}

/// The text that a span names.
pub(crate) fn text<'a>(
    texts: &'a [u8],
    span: Span,
    work: &mut Work,
) -> Result<&'a str, RowPartError>
    ensures text { IfOk result (λ text. text_of texts.now span ≡ Some text.now) }
    ensures utf8 { IfOk result (λ text. IsUtf8 text.now) }
    ensures none { IfErr result (IfNoPart (text_of texts.now span ≡ None)) }
{
    match str::from_utf8(part(texts, span, work)?) {
        Ok(text) => Ok(text),
        Err(_) => Err(RowPartError::NoPart),
    }
}

/// The keys of a layer.
pub(crate) fn keys<'a>(
    alloc: Global,
    texts: &'a [u8],
    spans: &[Span],
    work: &mut Work,
) -> Result<Vec<&'a str>, RowPartError>
    ensures keys { IfOk result (λ keys. each (text_of texts.now) spans.now
        ≡ Some (lent keys.items)) }
    ensures utf8 { IfOk result (λ keys. AllByRecursion IsUtf8 (lent keys.items)) }
    ensures none { IfErr result (IfNoPart (each (text_of texts.now) spans.now ≡ None)) }
{
    let mut keys = Vec::with_capacity(alloc, spans.len())?;
    for span in spans {
        keys.push(text(texts, *span, work)?)?;
    }
    Ok(keys)
}
