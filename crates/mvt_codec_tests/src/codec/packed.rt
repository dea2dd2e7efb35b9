//! Geometries told from packed bytes, beside the same told from a list of their integers.
use super::geometry::Told;
use crate::expect::{expect, expect_eq};
use mvt_geometry::{Kind, draw_geometry, draw_packed};
use mvt_wire::{PackedNumbers, read_packed};
use std::process::Abort;

/// Bytes draw a geometry where their numbers, read into a list, do, and the same is told of both.
pub(crate) fn expect_same(rt: &(impl Abort + AllocGlobal), kind: Kind, bytes: &[u8]) {
    let mut told = Told::new(rt.alloc());
    let is_drawn = draw_packed(&mut told, kind, bytes).expect(rt, "memory");
    let mut listed = Told::new(rt.alloc());
    let is_listed = match read_packed(rt.alloc(), bytes) {
        Ok(integers) => draw_geometry(&mut listed, kind, &integers).is_ok(),
        Err(_) => false,
    };
    expect_eq!(*rt; is_drawn, is_listed);
    if is_drawn {
        expect!(*rt; told.points.as_slice() == listed.points.as_slice());
        expect!(*rt; told.ends.as_slice() == listed.ends.as_slice());
    }
    drop(told);
    drop(listed);
}

/// Whether integers draw a line, which bytes and a list of them say alike.
fn is_line(rt: &(impl Abort + AllocGlobal), integers: &[u32]) -> bool {
    let mut numbers = PackedNumbers::new(rt.alloc());
    for integer in integers {
        numbers.push(*integer).expect(rt, "a number");
    }
    expect_same(rt, Kind::LineString, numbers.as_bytes());
    let mut told = Told::new(rt.alloc());
    let drawn = draw_packed(&mut told, Kind::LineString, numbers.as_bytes());
    drop(told);
    drop(numbers);
    drawn.expect(rt, "memory")
}

/// From y = 35,000 a step of 2,147,448,647 ends at 2,147,483,647, the last position there is.
#[test]
fn steps_end_within_the_range(rt: HostRuntime) {
    expect!(rt; is_line(&rt, &[9, 200, 70_000, 10, 0, 4_294_897_294]));
    expect!(rt; !is_line(&rt, &[9, 200, 70_000, 10, 0, 4_294_897_296]));
}

/// The largest counts, 2^29 - 1, of MoveTo and of LineTo, and one less, with nothing behind them.
#[test]
fn large_counts_without_parameters_draw_nothing(rt: HostRuntime) {
    expect!(rt; !is_line(&rt, &[4_294_967_289]));
    expect!(rt; !is_line(&rt, &[9, 0, 0, 4_294_967_290]));
    expect!(rt; !is_line(&rt, &[9, 0, 0, 4_294_967_282]));
    expect!(rt; !is_line(&rt, &[9, 0, 0, 4_294_967_290, 2, 2]));
}

#[test]
fn packed_bytes_of_unknown_type_are_not_told(rt: HostRuntime) {
    let mut told = Told::new(rt.alloc());
    expect_eq!(rt; draw_packed(&mut told, Kind::Unknown, &[9, 2, 2]), Ok(false));
    expect!(rt; told.points.is_empty());
    drop(told);
}
