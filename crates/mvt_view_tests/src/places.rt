//! The places of faults and what is said of them.
use crate::expect::{expect, expect_eq};
use mvt_places::{Lookalike, explanation_text, locate, looks_like, sentence};
use mvt_tile::{Cause, Fault};
use mvt_view::ViewError;
use std::process::Abort;

/// A layer with two names, and a line in two pieces whose second step goes nowhere.
const TWO_PIECES: &[u8] = b"\x1A\x16\x78\x02\x0A\x01\x61\x0A\x01\x62\x12\x0C\x18\x02\
    \x22\x03\x09\x04\x04\x22\x03\x0A\x00\x00";

const TWO_PIECES_EXPLAINED: &str = "layer 0 \"b\", feature 0\n\
    byte 22, integer 4 of the geometry: 0\n\
    A line goes nowhere: this LineTo moves by (0, 0).\n\
    18  04 22 03 0a [00] 00\n";

/// A feature with a tag in each of two fields, the second spelled in two bytes.
const UNPACKED: &[u8] = b"\x1A\x13\x78\x02\x0A\x01\x61\x12\x05\x10\x00\x10\x80\x01\
    \x1A\x01\x6B\x22\x02\x28\x05";

/// A point of id 9 without a geometry.
const NO_GEOMETRY: &[u8] = b"\x1A\x0B\x78\x02\x0A\x01\x61\x12\x04\x08\x09\x18\x01";

fn fault(layer: Option<u32>, feature: Option<u32>, at: u64, cause: Cause) -> Fault {
    Fault {
        layer,
        feature,
        at,
        cause,
    }
}

fn in_first(at: u64, cause: Cause) -> Fault {
    fault(Some(0), Some(0), at, cause)
}

fn expect_place(
    rt: &impl Abort,
    input: &[u8],
    fault: &Fault,
    name: Option<&[u8]>,
    id: Option<u64>,
    span: (u64, u64),
) {
    let place = locate(input, fault);
    let (start, end) = span;
    expect!(rt; place.layer_name.unwrap_or(b"-") == name.unwrap_or(b"-"));
    expect_eq!(rt; place.feature_id, id);
    expect_eq!(rt; place.start, start);
    expect_eq!(rt; place.end, end);
}

#[test]
fn locates_numbers(rt: HostRuntime) {
    let a: Option<&[u8]> = Some(b"a");
    let b: Option<&[u8]> = Some(b"b");
    let zero = in_first(4, Cause::ZeroSegment);
    expect_place(&rt, TWO_PIECES, &zero, b, None, (22, 23));
    let value = in_first(1, Cause::ValueIndex);
    expect_place(&rt, UNPACKED, &value, a, None, (12, 14));
    let odd = in_first(2, Cause::OddTags);
    expect_place(&rt, UNPACKED, &odd, a, None, (12, 14));
    let early = in_first(6, Cause::EndsEarly);
    expect_place(&rt, TWO_PIECES, &early, b, None, (24, 24));
    let empty = in_first(0, Cause::EndsEarly);
    expect_place(&rt, NO_GEOMETRY, &empty, a, Some(9), (7, 13));
}

#[test]
fn locates_fields(rt: HostRuntime) {
    let a: Option<&[u8]> = Some(b"a");
    let geom_type = in_first(11, Cause::GeomType);
    expect_place(&rt, NO_GEOMETRY, &geom_type, a, Some(9), (11, 13));
    let kind = fault(Some(0), None, 17, Cause::ValueKind);
    expect_place(&rt, UNPACKED, &kind, a, None, (17, 21));
    let form = fault(Some(0), None, 19, Cause::WrongType);
    expect_place(&rt, UNPACKED, &form, a, None, (19, 21));
    let version = fault(Some(0), None, 0, Cause::NoVersion);
    expect_place(&rt, UNPACKED, &version, a, None, (0, 21));
    let name = fault(Some(0), None, 0, Cause::RepeatedName);
    expect_place(&rt, UNPACKED, &name, a, None, (4, 7));
    let cut = fault(None, None, 0, Cause::Truncated);
    expect_place(&rt, &UNPACKED[..20], &cut, None, None, (0, 20));
    let large = fault(None, None, 5, Cause::TooLarge);
    expect_place(&rt, UNPACKED, &large, None, None, (5, 21));
}

#[test]
fn locates_nothing(rt: HostRuntime) {
    let layer = fault(Some(7), Some(0), 0, Cause::Command);
    expect_place(&rt, UNPACKED, &layer, None, None, (21, 21));
    let a: Option<&[u8]> = Some(b"a");
    let feature = fault(Some(0), Some(1), 0, Cause::Command);
    expect_place(&rt, UNPACKED, &feature, a, None, (21, 21));
    let beyond = fault(None, None, 99, Cause::Truncated);
    expect_place(&rt, UNPACKED, &beyond, None, None, (21, 21));
}

#[test]
fn tells_what_is_no_tile(rt: HostRuntime) {
    expect_eq!(rt; looks_like(b"\x1F\x8B\x08"), Some(Lookalike::Gzip));
    expect_eq!(rt; looks_like(b"\x78\x9C"), Some(Lookalike::Zlib));
    expect_eq!(rt; looks_like(TWO_PIECES), None);
    expect_eq!(rt; looks_like(b"\x1A\x03\x0A\x09ax\x02"), None);
    let text = "This isn't a tile, but looks like JSON.";
    expect!(rt; sentence(b"{}", Cause::WireType) == text);
}

#[test]
fn tells_marks(rt: HostRuntime) {
    expect_eq!(rt; looks_like(b"\x89PNG\r\n\x1A\n"), Some(Lookalike::Png));
    expect_eq!(rt; looks_like(b"\xFF\xD8\xFF\xE0"), Some(Lookalike::Jpeg));
    expect_eq!(rt; looks_like(b"GIF89a"), Some(Lookalike::Gif));
    expect_eq!(rt; looks_like(b"RIFF\0\0\0\0WEBPVP8 "), Some(Lookalike::Webp));
    expect_eq!(rt; looks_like(b"RIFF\0\0\0\0WAVEfmt "), None);
    expect_eq!(rt; looks_like(b"PMTiles\x03"), Some(Lookalike::Pmtiles));
    expect_eq!(rt; looks_like(b"fgb\x03fgb\x01"), Some(Lookalike::FlatGeobuf));
    expect_eq!(rt; looks_like(b"\x28\xB5\x2F\xFD\x04"), Some(Lookalike::Zstd));
    expect_eq!(rt; looks_like(b"\xFD7zXZ\0"), Some(Lookalike::Xz));
    expect_eq!(rt; looks_like(b"BZh91AY&SY"), Some(Lookalike::Bzip2));
    expect_eq!(rt; looks_like(b"PK\x03\x04"), Some(Lookalike::Zip));
    expect_eq!(rt; looks_like(b"%PDF-1.7\n"), Some(Lookalike::Pdf));
    expect_eq!(rt; looks_like(b"\0\0\0\x0D\n\tOSMHeader"), Some(Lookalike::OsmPbf));
}

#[test]
fn tells_texts(rt: HostRuntime) {
    expect_eq!(rt; looks_like(b"404 page not found"), Some(Lookalike::PlainText));
    expect_eq!(rt; looks_like(b"abc"), None);
    expect_eq!(rt; looks_like(b"12.5;a7\n"), None);
    expect_eq!(rt; looks_like(b"not found\0"), None);
    expect_eq!(rt; looks_like(b"\xEF\xBB\xBFname;id\r\n"), Some(Lookalike::PlainText));
    expect_eq!(rt; looks_like(b"\n<!DOCTYPE html><html>"), Some(Lookalike::Html));
    expect_eq!(rt; looks_like(b"<?xml version=\"1.0\"?><Error>"), Some(Lookalike::Html));
    expect_eq!(rt; looks_like(b"\xEF\xBB\xBF<?xml version=\"1.0\"?>"), Some(Lookalike::Xml));
    expect_eq!(rt; looks_like(b"{\"layers\":[]}"), Some(Lookalike::Json));
    expect_eq!(rt; looks_like(b"\xEF\xBB\xBF \r\n\t{\"layers\":[]}"), Some(Lookalike::Json));
    expect_eq!(rt; looks_like(b" [true]"), Some(Lookalike::Json));
}

#[test]
fn tells_stores(rt: HostRuntime) {
    expect_eq!(rt; looks_like(b"SQLite format 3\0"), Some(Lookalike::Sqlite));
    let store = b"SQLite format 3\0\x10CREATE TABLE tiles (zoom_level, tile_column)";
    expect_eq!(rt; looks_like(store), Some(Lookalike::Mbtiles));
}

// In 0x1B are a window of 22 bits, a last block that isn't empty, and its length in four digits,
// less one, which follow (RFC 7932, 9.1 and 9.2).
#[test]
fn tells_brotli(rt: HostRuntime) {
    let block = Some(Lookalike::Brotli);
    expect_eq!(rt; looks_like(b"\x1B\x14\0\0\x9C0123456789ABCDE"), block);
    expect_eq!(rt; looks_like(b"\x1B\x9E\x0F\0\x9C0123456789ABCDE"), block);
    // As long as the file, 200 times as long, and of a file that is too short.
    expect_eq!(rt; looks_like(b"\x1B\x13\0\0\x9C0123456789ABCDE"), None);
    expect_eq!(rt; looks_like(b"\x1B\x9F\x0F\0\x9C0123456789ABCDE"), None);
    expect_eq!(rt; looks_like(b"\x1B\x14\0\0\x9C0123456789ABCD"), None);
    // Not the last block, which is compressed, and one that isn't.
    expect_eq!(rt; looks_like(b"\x0B\x6D\x07\0\x9C0123456789ABCDE"), block);
    expect_eq!(rt; looks_like(b"\x0B\x6D\x87\0\x9C0123456789ABCDE"), None);
    // An empty last block, no such number of digits, and a highest digit of 0.
    expect_eq!(rt; looks_like(b"\x3B\x6D\x07\0\x9C0123456789ABCDE"), None);
    expect_eq!(rt; looks_like(b"\xDB\x6D\x07\0\x9C0123456789ABCDE"), None);
    expect_eq!(rt; looks_like(b"\x2B\x32\0\0\x9C0123456789ABCDE"), None);
    // Windows of one bit and of seven, and the one that isn't allowed.
    expect_eq!(rt; looks_like(b"\x82\x0C\0\0\x9C0123456789ABCDE"), block);
    expect_eq!(rt; looks_like(b"\x81\x20\x03\0\x9C0123456789ABCDE"), block);
    expect_eq!(rt; looks_like(b"\x91\x20\x03\0\x9C0123456789ABCDE"), None);
}

fn is_explanation_refused(rt: &(impl Abort + AllocGlobal)) -> bool {
    let zero = in_first(4, Cause::ZeroSegment);
    match explanation_text(rt.alloc(), TWO_PIECES, &zero) {
        Ok(text) => {
            expect!(rt; text.as_str() == TWO_PIECES_EXPLAINED);
            drop(text);
            false
        }
        Err(ViewError::Memory) => true,
    }
}

#[test]
fn explanation_refused_memory(rt: HostRuntime) {
    let mut wanted: u32 = 0;
    for _ in 0..2 {
        wanted = wanted.saturating_add(u32::from(is_explanation_refused(&rt)));
    }
    expect!(rt; wanted <= 1);
}
