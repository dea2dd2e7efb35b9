//! Faults of whole inputs, and of inputs that are cut.
use super::rows::*;
use super::support::{expect_fault, expect_tile, in_layer, outer, tile_of};
use mvt_message::Cause;
use mvt_tile::{DecodeError, Fault};
use std::process::Abort;

#[test]
fn reports_faults(rt: HostRuntime) {
    for (input, at, cause) in OUTER {
        expect_fault(&rt, input, outer(at, cause));
    }
    for (input, at, cause) in IN_LAYER {
        expect_fault(&rt, input, in_layer(0, at, cause));
    }
    for (input, at, cause) in IN_FEATURE {
        let fault = Fault {
            layer: Some(0),
            feature: Some(0),
            at,
            cause,
        };
        expect_fault(&rt, input, DecodeError::Fault(fault));
    }
    expect_fault(&rt, POINT_TWICE, in_layer(1, 19, Cause::RepeatedName));
}

// The front of an input, which isn't the whole of it: its canonical bytes, or its fault.
fn answer_of_front(input: &[u8], front: &[u8]) -> Result<&'static [u8], DecodeError> {
    let len = front.len();
    if input == NUMBER_ZERO || (input == LARGE_TAG && len == 5) {
        return Err(outer(0, Cause::FieldNumber));
    }
    if input == GZIP {
        return Err(outer(0, Cause::WireType));
    }
    if input == POINT_TWICE && len == 19 {
        return Ok(ONE_POINT);
    }
    if input == POINT_TWICE && len > 19 {
        return Err(outer(19, Cause::Truncated));
    }
    if input == UNKNOWN_FIRST && len == 2 {
        return Ok(b"");
    }
    if input == UNKNOWN_FIRST && len > 2 {
        return Err(outer(2, Cause::Truncated));
    }
    Err(outer(0, Cause::Truncated))
}

// What such a front is, or is refused for.
fn expect_front(rt: &(impl Abort + AllocGlobal), input: &[u8], front: &[u8]) {
    match answer_of_front(input, front) {
        Ok(canonical) => {
            let tile = tile_of(rt, canonical);
            expect_tile(rt, front, &tile, canonical);
            drop(tile);
        }
        Err(error) => expect_fault(rt, front, error),
    }
}

// Each front of an input but the empty and the whole one.
fn expect_fronts(rt: &(impl Abort + AllocGlobal), input: &[u8]) {
    for len in 1..input.len() {
        expect_front(rt, input, &input[..len]);
    }
}

#[test]
fn reports_cuts(rt: HostRuntime) {
    for rows in [OUTER.as_slice(), &IN_LAYER, &IN_FEATURE] {
        for (input, _, _) in rows {
            expect_fronts(&rt, input);
        }
    }
    for input in ALSO_PLAIN {
        expect_fronts(&rt, input);
    }
    for input in BARE {
        expect_fronts(&rt, input);
    }
    for input in [PLAIN, FOREIGN, NUMBERED_ONE, POINT_TWICE, EMPTY_NAME] {
        expect_fronts(&rt, input);
    }
}
