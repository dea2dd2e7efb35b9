//! Refused growths: each test passes too where one allocation, whichever, is refused. Each call has
//! two turns, of which one at most may want memory; the other answers as ever.
use super::rows::*;
use super::support::{KEYS, feed_bytes, joined, keyed, named, names};
use crate::expect::{expect, expect_eq};
use mvt_io::{MemorySink, MemorySource};
use mvt_tile::{
    DecodeError, ExtractError, PutError, Tile, TileDecoder, WriteError, decode, encode, extract,
    is_valid, judge, notes, read_tile, rewrite, survey_tile, validate, write_tile,
};
use std::alloc::{AllocError, Global};
use std::process::Abort;

// Canonical bytes of tiles that need memory in many ways.
const TILES: [&[u8]; 5] = [RINGS, ONCE_A_KEY, LONG_TEXTS, KINDS_CANONICAL, FOREIGN];

// Whether an answer wants memory; if not, it is a tile.
fn is_refused(rt: &impl Abort, answer: Result<Tile, DecodeError>) -> bool {
    match answer {
        Ok(tile) => {
            expect!(rt; tile.items.as_slice().len() == 1 && is_valid(&tile));
            drop(tile);
            false
        }
        Err(error) => {
            expect_eq!(rt; error, DecodeError::Memory);
            true
        }
    }
}

// The input byte by byte. After a want of memory that is the answer for good.
fn is_feed_refused(rt: &(impl Abort + AllocGlobal), input: &[u8]) -> bool {
    let mut decoder = TileDecoder::new(rt.alloc());
    if let Err(error) = feed_bytes(&mut decoder, input) {
        expect_eq!(rt; error, DecodeError::Memory);
        expect_eq!(rt; decoder.feed(input), Err(DecodeError::Memory));
        expect_eq!(rt; decoder.held(), 0);
    }
    is_refused(rt, decoder.finish())
}

fn is_read_refused(rt: &(impl Abort + AllocGlobal), input: &[u8]) -> bool {
    let Ok(bytes) = Vec::from_slice(rt.alloc(), input) else {
        return true;
    };
    let mut reader = MemorySource::new(bytes, 7, u64::MAX);
    let answer = read_tile(rt.alloc(), &mut reader);
    drop(reader);
    is_refused(rt, answer)
}

fn is_judge_refused(rt: &(impl Abort + AllocGlobal), input: &[u8]) -> bool {
    let answer = judge(rt.alloc(), input);
    expect!(rt; answer == Ok(()) || answer == Err(DecodeError::Memory));
    answer.is_err()
}

fn is_survey_refused(rt: &(impl Abort + AllocGlobal), input: &[u8]) -> bool {
    match survey_tile(rt.alloc(), input) {
        Ok(survey) => {
            expect!(rt; survey.layers == 1 && survey.is_canonical);
            drop(survey);
            false
        }
        Err(error) => {
            expect_eq!(rt; error, DecodeError::Memory);
            true
        }
    }
}

fn is_rewrite_refused(rt: &(impl Abort + AllocGlobal), canonical: &[u8]) -> bool {
    match rewrite(rt.alloc(), canonical) {
        Ok(made) => {
            expect_eq!(rt; made.as_deref(), Some(canonical));
            drop(made);
            false
        }
        Err(error) => {
            expect_eq!(rt; error, DecodeError::Memory);
            true
        }
    }
}

#[test]
fn refused_reads(rt: HostRuntime) {
    let mut refused = 0u32;
    for input in TILES {
        for _turn in 0..2 {
            let answers = [
                is_refused(&rt, decode(rt.alloc(), input)),
                is_feed_refused(&rt, input),
                is_read_refused(&rt, input),
                is_judge_refused(&rt, input),
                is_survey_refused(&rt, input),
                is_rewrite_refused(&rt, input),
            ];
            for is_refused in answers {
                refused = refused.saturating_add(u32::from(is_refused));
            }
        }
    }
    expect!(rt; refused < 2);
}

// Whether a tile that was made can be written.
fn is_validate_refused(
    rt: &(impl Abort + AllocGlobal),
    made: Result<Tile, AllocError>,
    answer: bool,
) -> bool {
    let Ok(tile) = made else {
        return true;
    };
    let found = validate(rt.alloc(), &tile);
    drop(tile);
    expect!(rt; found == Ok(answer) || found == Err(AllocError));
    found.is_err()
}

#[test]
fn refused_validations(rt: HostRuntime) {
    let alloc = rt.alloc();
    let mut repeated = KEYS;
    repeated[19] = "a";
    let mut refused = 0u32;
    for _turn in 0..2 {
        let answers = [
            is_validate_refused(&rt, keyed(alloc, &KEYS), true),
            is_validate_refused(&rt, keyed(alloc, &repeated), false),
            is_validate_refused(&rt, named(alloc, &["b", "a"]), true),
            is_validate_refused(&rt, named(alloc, &["b", "a", "b"]), false),
        ];
        for is_refused in answers {
            refused = refused.saturating_add(u32::from(is_refused));
        }
    }
    expect!(rt; refused < 2);
}

// Inputs, and whether they are what their tiles are written as.
const COMPARED: [(&[u8], bool); 9] = [
    (ONE_POINT, true),
    (NO_EXTENT, false),
    (ONCE_A_KEY, true),
    (TWICE_A_KEY, false),
    (KINDS_CANONICAL, true),
    (KINDS, false),
    (FOREIGN, true),
    (LONG_FOREIGN, false),
    (LONG_TEXTS, true),
];

fn is_comparison_refused(
    rt: &(impl Abort + AllocGlobal),
    input: &[u8],
    is_canonical: bool,
) -> bool {
    match survey_tile(rt.alloc(), input) {
        Ok(survey) => {
            expect_eq!(rt; survey.is_canonical, is_canonical, "of {input:?}");
            drop(survey);
            false
        }
        Err(error) => {
            expect_eq!(rt; error, DecodeError::Memory);
            true
        }
    }
}

#[test]
fn refused_comparisons(rt: HostRuntime) {
    let mut refused = 0u32;
    for (input, is_canonical) in COMPARED {
        for _turn in 0..2 {
            let is_refused = is_comparison_refused(&rt, input, is_canonical);
            refused = refused.saturating_add(u32::from(is_refused));
        }
    }
    expect!(rt; refused < 2);
}

fn is_encode_refused(rt: &(impl Abort + AllocGlobal), canonical: &[u8]) -> bool {
    let Ok(tile) = decode(rt.alloc(), canonical) else {
        return true;
    };
    expect!(rt; is_valid(&tile));
    let encoded = encode(rt.alloc(), &tile);
    drop(tile);
    match encoded {
        Ok(bytes) => {
            expect_eq!(rt; bytes.as_slice(), canonical);
            drop(bytes);
            false
        }
        Err(error) => {
            expect_eq!(rt; error, PutError::Memory);
            true
        }
    }
}

#[test]
fn refused_encodes(rt: HostRuntime) {
    let mut refused = 0u32;
    for canonical in TILES {
        for _turn in 0..2 {
            let is_refused = is_encode_refused(&rt, canonical);
            refused = refused.saturating_add(u32::from(is_refused));
        }
    }
    expect!(rt; refused < 2);
}

// What came of writing a tile of two items.
#[derive(Clone, Copy, Drop, PartialEq, Eq)]
enum Written {
    Whole,
    First,
    Nothing,
}

// What a writer took of both items, which a run ended with this answer. Where memory is wanted, it
// took whole items only.
fn what_was_taken(
    rt: &impl Abort,
    answer: Result<(), WriteError>,
    writer: &MemorySink,
    both: &[u8],
) -> Written {
    let taken = writer.taken();
    if answer.is_ok() {
        expect_eq!(rt; taken, both);
        return Written::Whole;
    }
    expect_eq!(rt; answer, Err(WriteError::Memory));
    if taken.is_empty() {
        return Written::Nothing;
    }
    expect_eq!(rt; taken, ONE_POINT);
    Written::First
}

fn write_both(rt: &(impl Abort + AllocGlobal), both: &[u8]) -> Written {
    let Ok(mut writer) = MemorySink::new(rt.alloc(), 38, 7, u64::MAX, false) else {
        return Written::Nothing;
    };
    let Ok(tile) = decode(rt.alloc(), both) else {
        return Written::Nothing;
    };
    expect!(rt; is_valid(&tile));
    let answer = write_tile(rt.alloc(), &tile, &mut writer);
    drop(tile);
    let what = what_was_taken(rt, answer, &writer, both);
    drop(writer);
    what
}

// The sweep sees that some run prints the line: then the first item was written before the second
// was made, so items are made one after the other.
#[test]
fn refused_writes(rt: HostRuntime) {
    let mut refused = 0u32;
    for _turn in 0..2 {
        let written = match joined(rt.alloc(), ONE_POINT, ONE_POINT_B) {
            Ok(both) => write_both(&rt, &both),
            Err(AllocError) => Written::Nothing,
        };
        if written == Written::First {
            let _ = println!(rt; "the first item alone");
        }
        refused = refused.saturating_add(u32::from(written != Written::Whole));
    }
    expect!(rt; refused < 2);
}

fn is_extract_refused(rt: &impl Abort, alloc: Global, tile: &Tile, texts: &[&str]) -> bool {
    let Ok(names) = names(alloc, texts) else {
        return true;
    };
    let picked = extract(alloc, tile, &names);
    drop(names);
    match picked {
        Ok(picked) => {
            expect!(rt; picked == *tile);
            drop(picked);
            false
        }
        Err(error) => {
            expect_eq!(rt; error, ExtractError::Memory);
            true
        }
    }
}

fn are_notes_refused(rt: &impl Abort, alloc: Global, tile: &Tile, count: usize) -> bool {
    match notes(alloc, tile) {
        Ok(found) => {
            expect_eq!(rt; found.len(), count);
            drop(found);
            false
        }
        Err(AllocError) => true,
    }
}

fn are_views_refused(rt: &(impl Abort + AllocGlobal), input: &[u8], count: usize) -> bool {
    let alloc = rt.alloc();
    match decode(alloc, input) {
        Ok(tile) => {
            let is_refused = is_extract_refused(rt, alloc, &tile, &["a"])
                || are_notes_refused(rt, alloc, &tile, count);
            drop(tile);
            is_refused
        }
        Err(error) => {
            expect_eq!(rt; error, DecodeError::Memory);
            true
        }
    }
}

#[test]
fn refused_views(rt: HostRuntime) {
    let mut refused = 0u32;
    for (input, count) in [(RINGS, 1), (SAME_ID, 1), (PLAIN, 1), (KINDS, 0)] {
        for _turn in 0..2 {
            let is_refused = are_views_refused(&rt, input, count);
            refused = refused.saturating_add(u32::from(is_refused));
        }
    }
    expect!(rt; refused < 2);
}
