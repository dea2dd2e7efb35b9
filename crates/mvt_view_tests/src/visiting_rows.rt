//! The rows that a visitor has after a fault, or after memory ran out.
use crate::expect::{expect, expect_eq};
use crate::rows::{NONE, READ, READ_BYTES};
use mvt_message::MessageError;
use mvt_rows::{Rows, RowsVisitor};
use mvt_tile::TileVisitor;
use std::process::Abort;

// The rows that a visitor has behind the fault of its first layer.
fn rows_behind_a_fault(rt: &(impl Abort + AllocGlobal), bytes: &[u8; 67]) -> Rows<'static> {
    let mut visitor = RowsVisitor::new(rt.alloc(), u64::MAX);
    let done = visitor.visit_item(rt.alloc(), &bytes[2..63], 2, 0);
    expect!(rt; matches!(done, Err(MessageError::Fault { .. })));
    drop(done);
    visitor.into_table().leak()
}

// The ring is closed twice, the tags of the first feature name a fourth key.
#[test]
fn keeps_no_part_of_a_broken_feature(rt: HostRuntime) {
    let mut bytes = READ_BYTES;
    bytes[38] = 0x17;
    let rows = rows_behind_a_fault(&rt, &bytes);
    expect_eq!(rt; rows.features, &READ.features[..1]);
    expect_eq!(rt; rows.parts, &READ.parts[..1]);
    expect_eq!(rt; rows.points, &READ.points[..1]);
    bytes[13] = 3;
    let rows = rows_behind_a_fault(&rt, &bytes);
    expect_eq!(rt; rows.parts, NONE.parts);
    expect_eq!(rt; rows.points, NONE.points);
}

// Each part of the rows is one feature's, and the points end with the last part.
fn are_parts_of_features(rows: &Rows) -> bool {
    let end = match rows.parts.last() {
        Some(part) => part.points.start.checked_add(part.points.len),
        None => Some(0),
    };
    rows.parts.len() == rows.features.len() && end == Some(rows.points.len() as u64)
}

fn is_visiting_refused(rt: &(impl Abort + AllocGlobal)) -> bool {
    let mut visitor = RowsVisitor::new(rt.alloc(), u64::MAX);
    let done = visitor.visit_item(rt.alloc(), &READ_BYTES[2..63], 2, 0);
    let rows = visitor.into_table().leak();
    expect!(rt; are_parts_of_features(&rows));
    match done {
        Ok(name) => {
            expect_eq!(rt; rows.points, READ.points);
            drop(name);
            false
        }
        Err(error) => {
            expect_eq!(rt; error, MessageError::Memory);
            true
        }
    }
}

#[test]
fn visiting_rows_refused_memory(rt: HostRuntime) {
    let mut refused: u32 = 0;
    for _ in 0..2 {
        refused = refused.saturating_add(u32::from(is_visiting_refused(&rt)));
    }
    expect!(rt; refused <= 1);
}
