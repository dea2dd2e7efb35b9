//! Tags over any number of keys.
use crate::codec::attrs::{fault, numbered_keys, text};
use crate::expect::{expect, expect_eq};
use mvt_attrs::*;
use std::process::Abort;

// So many keys, of which the last is the first again: a feature may name one of these.
fn expect_last_is_first(rt: &(impl Abort + AllocGlobal), count: u32) {
    let last = count.saturating_sub(1);
    let mut keys = numbered_keys(rt.alloc(), last).expect(rt, "keys");
    keys.push(text(rt, "0")).expect(rt, "keys");
    let lent = lend_texts(rt.alloc(), &keys).expect(rt, "memory");
    let mut layer = LayerKeys::new(rt.alloc(), &lent);
    expect!(rt; judge_tags(rt.alloc(), &mut layer, 1, &[1, 0, last, 0]).is_ok());
    let twice = judge_tags(rt.alloc(), &mut layer, 1, &[0, 0, last, 0]).err();
    expect_eq!(rt; twice, fault(2, TagCause::RepeatedKey));
    drop(layer);
    drop(lent);
    drop(keys);
}

// So many keys that differ: a feature may name the first and the last, each once.
fn expect_all_differ(rt: &(impl Abort + AllocGlobal), count: u32) {
    let last = count.saturating_sub(1);
    let keys = numbered_keys(rt.alloc(), count).expect(rt, "keys");
    let lent = lend_texts(rt.alloc(), &keys).expect(rt, "memory");
    let mut layer = LayerKeys::new(rt.alloc(), &lent);
    expect!(rt; judge_tags(rt.alloc(), &mut layer, 1, &[0, 0, last, 0]).is_ok());
    let twice = judge_tags(rt.alloc(), &mut layer, 1, &[0, 0, last, 0, last, 0]).err();
    expect_eq!(rt; twice, fault(4, TagCause::RepeatedKey));
    drop(layer);
    drop(lent);
    drop(keys);
}

// Around the numbers up to which keys are compared one by one, and grouped by slots.
#[test]
fn resolves_any_number_of_keys(rt: HostRuntime) {
    for count in [8, 9, 32, 33, 65_536, 65_537] {
        expect_last_is_first(&rt, count);
        expect_all_differ(&rt, count);
    }
}
