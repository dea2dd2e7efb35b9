//! Any number of values, of which some are used.
use crate::codec::uses::are_equal;
use crate::expect::{expect, expect_eq};
use mvt_attrs::*;
use std::alloc::{AllocError, Global};
use std::process::Abort;

// So many values, of which the last is this number and the others rise from 1.
fn values_of<'a>(alloc: Global, count: u32, last: u64) -> Result<Vec<ValueRef<'a>>, AllocError> {
    let mut values = Vec::new(alloc);
    for number in 1..count {
        values.push(ValueRef::Uint(u64::from(number)))?;
    }
    values.push(ValueRef::Uint(last))?;
    Ok(values)
}

// The uses of such values, which are added as they stand or taken.
fn uses_of<'a>(
    alloc: Global,
    count: u32,
    last: u64,
    is_taken: bool,
) -> Result<LayerEntries<'a>, AllocError> {
    let values = values_of(alloc, count, last)?;
    let mut uses = LayerEntries::new(alloc);
    uses.keys.add(&TextRef::of("key"))?;
    if is_taken {
        uses.values.take_all(values)?;
    } else {
        uses.values.add_all(&values)?;
    }
    Ok(uses)
}

// Of so many values, of which the last is the first again, the last, the first and the second are
// used: two values.
fn expect_two_used(rt: &(impl Abort + AllocGlobal), count: u32, is_taken: bool) {
    let mut uses = uses_of(rt.alloc(), count, 1, is_taken).expect(rt, "uses");
    let mut tags = Vec::new(rt.alloc());
    let done = uses.append_used(&[0, count.saturating_sub(1), 0, 0, 0, 1], &mut tags);
    expect!(rt; done.is_ok());
    expect_eq!(rt; tags.as_slice(), [0, 0, 0, 0, 0, 1].as_slice());
    expect_eq!(rt; uses.values.len(), count as usize);
    let used = [ValueRef::Uint(1), ValueRef::Uint(2)];
    expect!(rt; are_equal(uses.values.used(), &used));
    drop(tags);
    drop(uses);
}

// Of as many that differ: three values.
fn expect_three_used(rt: &(impl Abort + AllocGlobal), count: u32, is_taken: bool) {
    let last = u64::from(count);
    let mut uses = uses_of(rt.alloc(), count, last, is_taken).expect(rt, "uses");
    let mut tags = Vec::new(rt.alloc());
    let done = uses.append_used(&[0, count.saturating_sub(1), 0, 0, 0, 1], &mut tags);
    expect!(rt; done.is_ok());
    expect_eq!(rt; tags.as_slice(), [0, 0, 0, 1, 0, 2].as_slice());
    expect_eq!(rt; uses.values.len(), count as usize);
    let used = [ValueRef::Uint(last), ValueRef::Uint(1), ValueRef::Uint(2)];
    expect!(rt; are_equal(uses.values.used(), &used));
    drop(tags);
    drop(uses);
}

// Around the numbers up to which values are compared one by one, hashed, and found apart at once.
#[test]
fn uses_any_number_of_values(rt: HostRuntime) {
    for count in [8, 9, 32, 33, 65_536, 65_537] {
        expect_two_used(&rt, count, false);
        expect_two_used(&rt, count, true);
        expect_three_used(&rt, count, false);
        expect_three_used(&rt, count, true);
    }
}
