//! What there is round a fault.
use crate::expect::{expect, expect_eq};
use mvt_places::{Around, Bounds, FieldRow, Integer, Role, Step, look_around};
use mvt_tile::{Cause, Fault};
use std::alloc::AllocError;
use std::process::Abort;

/// A layer with two names, and a line in two pieces whose second step goes nowhere.
const TWO_PIECES: &[u8] = b"\x1A\x16\x78\x02\x0A\x01\x61\x0A\x01\x62\x12\x0C\x18\x02\
    \x22\x03\x09\x04\x04\x22\x03\x0A\x00\x00";

/// A feature with a tag in each of two fields, the second spelled in two bytes; a key and a value.
const UNPACKED: &[u8] = b"\x1A\x13\x78\x02\x0A\x01\x61\x12\x05\x10\x00\x10\x80\x01\
    \x1A\x01\x6B\x22\x02\x28\x05";

/// A layer of extent 16, and a polygon that begins with LineTo and goes on behind a position out of
/// range, with fields of all wire types.
const BEYOND: &[u8] = b"\x1A\x24\x28\x10\x12\x20\x08\x09\x18\x03\
    \x22\x0C\x0A\x02\x04\x0F\x09\xFE\xFF\xFF\xFF\x0F\x01\x09\
    \x51\x01\x02\x03\x04\x05\x06\x07\x08\x55\x01\x02\x03\x04";

/// An integer of more than 32 bits.
const LARGE: &[u8] = b"\x1A\x0B\x12\x09\x22\x07\x09\x80\x80\x80\x80\x10\x02";

/// An integer that is no command.
const NO_COMMAND: &[u8] = b"\x1A\x04\x12\x02\x20\x0D";

fn fault(layer: u32, feature: Option<u32>, at: u64, cause: Cause) -> Fault {
    Fault {
        layer: Some(layer),
        feature,
        at,
        cause,
    }
}

fn bounds(start: u64, body: u64, end: u64) -> Bounds {
    Bounds { start, body, end }
}

fn field(number: u32, wire_type: u32, start: u64, body: u64, end: u64) -> FieldRow {
    FieldRow {
        number,
        wire_type,
        bounds: bounds(start, body, end),
    }
}

fn integer(value: u64, start: u64, end: u64) -> Integer {
    Integer { value, start, end }
}

fn step(role: Role, left: u32, x: i64, y: i64) -> Step {
    Step { role, left, x, y }
}

fn around(rt: &(impl Abort + AllocGlobal), input: &[u8], fault: &Fault) -> Around {
    look_around(rt.alloc(), input, fault).expect(rt, "what is round it")
}

#[test]
fn tells_integers_of_a_geometry(rt: HostRuntime) {
    let zero = fault(0, Some(0), 4, Cause::ZeroSegment);
    let found = around(&rt, TWO_PIECES, &zero);
    expect_eq!(rt; found.layer, Some(bounds(0, 2, 24)));
    expect_eq!(rt; found.feature, Some(bounds(10, 12, 24)));
    expect_eq!(rt; found.list, Some(4));
    let integers = [
        integer(9, 16, 17),
        integer(4, 17, 18),
        integer(4, 18, 19),
        integer(10, 21, 22),
        integer(0, 22, 23),
        integer(0, 23, 24),
    ];
    expect!(rt; found.geometry.as_slice() == integers.as_slice());
    let steps = [
        step(Role::MoveTo, 2, 0, 0),
        step(Role::MoveX, 1, 2, 0),
        step(Role::MoveY, 0, 2, 2),
        step(Role::LineTo, 2, 2, 2),
        step(Role::LineX, 1, 2, 2),
        step(Role::LineY, 0, 2, 2),
    ];
    expect!(rt; found.steps.as_slice() == steps.as_slice());
    drop(found);
}

#[test]
fn tells_integers_of_tags(rt: HostRuntime) {
    let value = fault(0, Some(0), 1, Cause::ValueIndex);
    let found = around(&rt, UNPACKED, &value);
    expect_eq!(rt; found.extent, None);
    expect_eq!(rt; found.kind, None);
    expect_eq!(rt; found.list, Some(2));
    expect!(rt; found.tags.as_slice() == [integer(0, 10, 11), integer(128, 12, 14)].as_slice());
    expect!(rt; found.geometry.is_empty());
    expect!(rt; found.keys.as_slice() == [bounds(14, 16, 17)].as_slice());
    expect_eq!(rt; found.message, bounds(7, 9, 14));
    let fields = [field(2, 0, 9, 10, 11), field(2, 0, 11, 12, 14)];
    expect!(rt; found.fields.as_slice() == fields.as_slice());
    drop(found);
}

#[test]
fn draws_up_to_a_position_out_of_range(rt: HostRuntime) {
    let found = around(&rt, BEYOND, &fault(0, Some(0), 0, Cause::Command));
    expect_eq!(rt; found.extent, Some(16));
    expect_eq!(rt; found.kind, Some(3));
    let steps = [
        step(Role::LineTo, 2, 0, 0),
        step(Role::LineX, 1, 1, 0),
        step(Role::LineY, 0, 1, 2),
        step(Role::ClosePath, 0, 1, 2),
        step(Role::MoveTo, 2, 1, 2),
        step(Role::MoveX, 1, 2_147_483_648, 2),
        step(Role::MoveY, 0, 2_147_483_648, 1),
        step(Role::Nothing, 0, 2_147_483_648, 1),
    ];
    expect!(rt; found.steps.as_slice() == steps.as_slice());
    let fields = [
        field(1, 0, 6, 7, 8),
        field(3, 0, 8, 9, 10),
        field(4, 2, 10, 12, 24),
        field(10, 1, 24, 25, 33),
        field(10, 5, 33, 34, 38),
    ];
    expect!(rt; found.fields.as_slice() == fields.as_slice());
    drop(found);
}

#[test]
fn draws_nothing(rt: HostRuntime) {
    let found = around(&rt, LARGE, &fault(0, Some(0), 1, Cause::Command));
    let integers = [
        integer(9, 6, 7),
        integer(1 << 32, 7, 12),
        integer(2, 12, 13),
    ];
    expect!(rt; found.geometry.as_slice() == integers.as_slice());
    let steps = [
        step(Role::MoveTo, 2, 0, 0),
        step(Role::Nothing, 0, 0, 0),
        step(Role::Nothing, 0, 0, 0),
    ];
    expect!(rt; found.steps.as_slice() == steps.as_slice());
    drop(found);
    let found = around(&rt, NO_COMMAND, &fault(0, Some(0), 0, Cause::Command));
    expect!(rt; found.geometry.as_slice() == [integer(13, 5, 6)].as_slice());
    expect!(rt; found.steps.as_slice() == [step(Role::Nothing, 0, 0, 0)].as_slice());
    drop(found);
}

#[test]
fn tells_the_message_of_a_field(rt: HostRuntime) {
    let found = around(&rt, UNPACKED, &fault(0, None, 19, Cause::WrongType));
    expect_eq!(rt; found.layer, Some(bounds(0, 2, 21)));
    expect_eq!(rt; found.feature, None);
    expect_eq!(rt; found.list, None);
    expect_eq!(rt; found.message, bounds(17, 19, 21));
    expect!(rt; found.fields.as_slice() == [field(5, 0, 19, 20, 21)].as_slice());
    expect!(rt; found.tags.is_empty());
    drop(found);
    let found = around(&rt, UNPACKED, &fault(0, None, 0, Cause::RepeatedName));
    expect_eq!(rt; found.message, bounds(0, 2, 21));
    expect_eq!(rt; found.fields.len(), 5);
    drop(found);
}

#[test]
fn tells_what_is_there(rt: HostRuntime) {
    let found = around(&rt, UNPACKED, &fault(7, Some(0), 0, Cause::Command));
    expect_eq!(rt; found.layer, None);
    expect!(rt; found.keys.is_empty());
    expect_eq!(rt; found.message, bounds(0, 0, 21));
    expect!(rt; found.fields.as_slice() == [field(3, 2, 0, 2, 21)].as_slice());
    drop(found);
    let cut = Fault {
        layer: None,
        feature: None,
        at: 0,
        cause: Cause::Truncated,
    };
    let found = around(&rt, &UNPACKED[..20], &cut);
    expect_eq!(rt; found.message, bounds(0, 0, 20));
    expect!(rt; found.fields.is_empty());
    drop(found);
}

#[test]
fn roles_have_numbers(rt: HostRuntime) {
    expect_eq!(rt; Role::Nothing.number(), 0);
    expect_eq!(rt; Role::MoveX.number(), 3);
    expect_eq!(rt; Role::ClosePath.number(), 7);
}

fn is_refused(rt: &(impl Abort + AllocGlobal)) -> bool {
    let zero = fault(0, Some(0), 4, Cause::ZeroSegment);
    match look_around(rt.alloc(), TWO_PIECES, &zero) {
        Ok(found) => {
            expect_eq!(rt; found.geometry.len(), 6);
            drop(found);
            false
        }
        Err(AllocError) => true,
    }
}

#[test]
fn around_refused_memory(rt: HostRuntime) {
    let mut wanted: u32 = 0;
    for _ in 0..2 {
        wanted = wanted.saturating_add(u32::from(is_refused(&rt)));
    }
    expect!(rt; wanted <= 1);
}
