//! Extraction, notes and surveys.
use super::rows::*;
use super::support::{both_of, expect_survey, names, tile_of};
use crate::expect::{expect, expect_eq};
use mvt_tile::{ExtractError, Note, Tile, encode, extract, is_valid, notes};
use std::process::Abort;

// The layers of these names are this tile.
fn expect_extract(rt: &(impl Abort + AllocGlobal), tile: &Tile, texts: &[&str], expected: &Tile) {
    let names = names(rt.alloc(), texts).expect(rt, "names");
    let picked = extract(rt.alloc(), tile, &names).expect(rt, "layers");
    drop(names);
    expect!(rt; picked == *expected);
    drop(picked);
}

// No layer has the name of this index, and those before it are there.
fn expect_missing(rt: &(impl Abort + AllocGlobal), tile: &Tile, texts: &[&str], index: usize) {
    let names = names(rt.alloc(), texts).expect(rt, "names");
    let error = extract(rt.alloc(), tile, &names).err();
    drop(names);
    expect_eq!(rt; error, Some(ExtractError::MissingLayer(index)));
}

fn joined_of(rt: &(impl Abort + AllocGlobal), front: &[u8], back: &[u8]) -> Tile {
    let input = both_of(rt, front, back);
    let tile = tile_of(rt, &input);
    drop(input);
    tile
}

#[test]
fn extracts(rt: HostRuntime) {
    let tile = joined_of(&rt, ONE_POINT, ONE_POINT_B);
    let b = tile_of(&rt, ONE_POINT_B);
    expect_extract(&rt, &tile, &["b", "b"], &b);
    drop(b);
    expect_extract(&rt, &tile, &["b", "a"], &tile);
    expect_missing(&rt, &tile, &["b", "c"], 1);
    drop(tile);
}

#[test]
fn extracts_no_foreign_items(rt: HostRuntime) {
    let mixed = joined_of(&rt, FOREIGN, ONE_POINT);
    let a = tile_of(&rt, ONE_POINT);
    expect_extract(&rt, &mixed, &["a"], &a);
    drop(a);
    drop(mixed);
    let foreign = tile_of(&rt, FOREIGN);
    expect_missing(&rt, &foreign, &["a"], 0);
    drop(foreign);
}

fn expect_notes(rt: &(impl Abort + AllocGlobal), input: &[u8], expected: &[Note]) {
    let tile = tile_of(rt, input);
    let found = notes(rt.alloc(), &tile).expect(rt, "notes");
    drop(tile);
    expect_eq!(rt; found.as_slice(), expected);
    drop(found);
}

#[test]
fn reports_notes(rt: HostRuntime) {
    let rows: [(&[u8], &[Note]); 8] = [
        (b"", &[Note::NoLayers]),
        (ONE_POINT, &[]),
        (PLAIN, &[Note::NoFeatures(0)]),
        (FOREIGN, &[Note::Foreign(0, 1)]),
        (SAME_ID, &[Note::RepeatedId(0, 1, 0)]),
        (RINGS, &[Note::FlatRing(0, 0, 2)]),
        (CLOSED_TWICE, &[Note::ClosedTwice(0, 0, 0)]),
        (
            FLAT_AND_CLOSED,
            &[Note::FlatRing(0, 0, 0), Note::ClosedTwice(0, 0, 0)],
        ),
    ];
    for (input, expected) in rows {
        expect_notes(&rt, input, expected);
    }
}

fn canonical_of(rt: &(impl Abort + AllocGlobal), input: &[u8]) -> Vec<u8> {
    let tile = tile_of(rt, input);
    expect!(rt; is_valid(&tile));
    let canonical = encode(rt.alloc(), &tile).expect(rt, "bytes");
    drop(tile);
    canonical
}

#[test]
fn surveys(rt: HostRuntime) {
    expect_survey(&rt, b"", (0, 0), true, &[Note::NoLayers]);
    let flat = [Note::FlatRing(0, 0, 2)];
    expect_survey(&rt, RINGS, (1, 1), true, &flat);
    let longer = both_of(&rt, RINGS, b"\x20\x05");
    expect_survey(&rt, &longer, (1, 1), false, &flat);
    drop(longer);
    let both = both_of(&rt, FOREIGN, SAME_ID);
    let canonical = canonical_of(&rt, &both);
    drop(both);
    let notes = [Note::Foreign(0, 1), Note::RepeatedId(1, 1, 0)];
    expect_survey(&rt, &canonical, (2, 2), true, &notes);
    drop(canonical);
}

// The one layer of an input that begins with its version, with the version last.
fn turned_of(rt: &(impl Abort + AllocGlobal), input: &[u8]) -> Vec<u8> {
    let (head, layer) = input.split_at(input.len().min(2));
    let (version, fields) = layer.split_at(layer.len().min(2));
    let front = both_of(rt, head, fields);
    let turned = both_of(rt, &front, version);
    drop(front);
    turned
}

fn expect_turned(rt: &(impl Abort + AllocGlobal), input: &[u8], features: u128, expected: &[Note]) {
    let turned = turned_of(rt, input);
    expect_notes(rt, &turned, expected);
    expect_survey(rt, &turned, (1, features), false, expected);
    drop(turned);
}

// As most programs write tiles.
#[test]
fn surveys_layers_with_the_version_last(rt: HostRuntime) {
    let rows: [(&[u8], u128, &[Note]); 7] = [
        (PLAIN, 0, &[Note::NoFeatures(0)]),
        (ONE_POINT, 1, &[]),
        (CLOSED_LINE, 1, &[]),
        (SAME_ID, 2, &[Note::RepeatedId(0, 1, 0)]),
        (RINGS, 1, &[Note::FlatRing(0, 0, 2)]),
        (CLOSED_TWICE, 1, &[Note::ClosedTwice(0, 0, 0)]),
        (
            FLAT_AND_CLOSED,
            1,
            &[Note::FlatRing(0, 0, 0), Note::ClosedTwice(0, 0, 0)],
        ),
    ];
    for (input, features, expected) in rows {
        expect_turned(&rt, input, features, expected);
    }
}

#[test]
fn surveys_layers_with_the_extent_behind_the_name(rt: HostRuntime) {
    expect_survey(&rt, EXTENT_FIRST, (1, 1), false, &[]);
    expect_survey(&rt, PLAIN, (1, 0), true, &[Note::NoFeatures(0)]);
}

// Canonical up to a layer, and behind one that isn't.
#[test]
fn surveys_behind_a_difference(rt: HostRuntime) {
    let turned = turned_of(&rt, RINGS);
    let behind = both_of(&rt, ONE_POINT_B, &turned);
    let before = both_of(&rt, &turned, ONE_POINT_B);
    drop(turned);
    expect_survey(&rt, &behind, (2, 2), false, &[Note::FlatRing(1, 0, 2)]);
    drop(behind);
    expect_survey(&rt, &before, (2, 2), false, &[Note::FlatRing(0, 0, 2)]);
    drop(before);
}
