//! Values of rows.
ghost use Rattle.std.specs.Prelude.{◌≡◌, Some, None, IfOk, IfErr, IfSome};
ghost use Rattle.std.specs.List.{AllByRecursion};
ghost use Rattle.mvt_feature.specs.Valid.{ValidValue};
ghost use Rattle.mvt_rows.specs.Written.{IfNoPart};
ghost use Rattle.mvt_rows.specs.TileRows.{each, float_of, number_of, truth_of, value_of};

use super::parts::text;
use crate::rows::ValueRow;
use crate::rows_error::RowPartError;
use crate::work::Work;
use mvt_attrs::{TextRef, ValueRef};
use std::alloc::Global;

/// 0 or 1.
pub(crate) fn truth(number: u64) -> Option<bool>
    ensures { result ≡ truth_of number }
{
    match number {
        0 => Some(false),
        1 => Some(true),
        _ => None,
    }
}

/// A float's bits.
fn float(bits: u64) -> Option<u32>
    ensures { result ≡ float_of bits }
{
    u32::try_from(bits).ok()
}

/// A value that is no text.
fn number<'a>(kind: u32, bits: u64) -> Option<ValueRef<'a>>
    ensures number { result ≡ number_of kind bits }
    ensures valid { IfSome result ValidValue }
{
    match kind {
        2 => Some(ValueRef::Float(float(bits)?)),
        3 => Some(ValueRef::Double(bits)),
        4 => Some(ValueRef::Int(bits.cast_signed())),
        5 => Some(ValueRef::Uint(bits)),
        6 => Some(ValueRef::Sint(bits.cast_signed())),
        7 => Some(ValueRef::Bool(truth(bits)?)),
        _ => None,
    }
}

fn value<'a>(texts: &'a [u8], row: &ValueRow, work: &mut Work) -> Result<ValueRef<'a>, RowPartError>
    ensures value { IfOk result (λ value. value_of texts.now row.now ≡ Some value) }
    ensures valid { IfOk result ValidValue }
    ensures none { IfErr result (IfNoPart (value_of texts.now row.now ≡ None)) }
{
    if row.kind == 1 {
        let text = text(texts, row.text, work)?;
        return Ok(ValueRef::Text(TextRef::of(text)));
    }
    match number(row.kind, row.bits) {
        Some(value) => Ok(value),
        None => Err(RowPartError::NoPart),
    }
}

/// The values of a layer, lent.
pub(crate) fn values<'a>(
    alloc: Global,
    texts: &'a [u8],
    rows: &[ValueRow],
    work: &mut Work,
) -> Result<Vec<ValueRef<'a>>, RowPartError>
    ensures values { IfOk result (λ values. each (value_of texts.now) rows.now
        ≡ Some values.items) }
    ensures valid { IfOk result (λ values. AllByRecursion ValidValue values.items) }
    ensures none { IfErr result (IfNoPart (each (value_of texts.now) rows.now ≡ None)) }
{
    let mut values = Vec::with_capacity(alloc, rows.len())?;
    for row in rows {
        values.push(value(texts, row, work)?)?;
    }
    Ok(values)
}
