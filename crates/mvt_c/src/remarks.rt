//! What is noted and found of a tile that is accepted, as rows; and what causes, notes and findings
//! mean.
ghost use Rattle.std.specs.Prelude.{◌≡◌, ◌≢◌, ◌≤◌, ◌-◌, ◌^◌, map, min, None, IfOk, IfErr};
ghost use Rattle.mvt_feature.specs.declared.cause.Cause.{Cause};
ghost use Rattle.mvt_feature.specs.Causes.{cause_number};
ghost use Rattle.mvt_tile_value.specs.declared.finding.Finding.{Finding as AFinding};
ghost use Rattle.mvt_tile_value.specs.declared.note.Note.{Note as ANote};
ghost use Rattle.mvt_view.specs.declared.kinds.FindingKind.{FindingKind as AFindingKind};
ghost use Rattle.mvt_view.specs.declared.kinds.NoteKind.{NoteKind as ANoteKind};
ghost use Rattle.mvt_view.specs.Kinds.{finding_number, note_number};
ghost use Rattle.mvt_c.specs.Calls.{IsReported, NotShown};
ghost use Rattle.mvt_c.specs.Remarks.{AreFindingsOf, IsCauseText, IsFindingText, IsNoteText, IsSummary, IsSurveyed};
ghost use Rattle.mvt_c.specs.Remarks.{finding_at, finding_of_row, note_at, note_of_row, row_of_finding, row_of_note};

use crate::fault::Fault;
use crate::lent::Bytes;
use crate::places::cause_given;
use crate::refusal::{Refusal, report};
use mvt_places::cause_with_zero;
use mvt_tile::{Finding, Note, Survey, lint_bytes, survey_tile};
use mvt_view::{FindingKind, NoteKind};
use std::alloc::{AllocError, Global};

/// A note. What its kind doesn't speak of is 0.
#[repr(C)]
#[derive(Clone, Copy, Debug)]
pub struct NoteRow {
    pub kind: u32,
    pub version: u32,
    pub layer: u64,
    pub feature: u64,
    pub ring: u64,
    pub earlier: u64,
}

/// How many layers and features there are, 1 if the bytes are canonical, and the notes, which last
/// until C frees them.
#[repr(C)]
#[derive(Clone, Copy, Debug)]
pub struct Summary {
    pub layers: u64,
    pub features: u64,
    pub is_canonical: u32,
    pub notes: &'static [NoteRow],
}

/// A finding. What its kind doesn't speak of is 0.
#[repr(C)]
#[derive(Clone, Copy, Debug)]
pub struct FindingRow {
    pub kind: u32,
    pub has_feature: u32,
    pub layer: u64,
    pub feature: u64,
    pub attribute: u64,
    pub x: i32,
    pub y: i32,
}

/// Findings, which last until C frees them.
#[repr(C)]
#[derive(Clone, Copy, Debug)]
pub struct Findings {
    pub rows: &'static [FindingRow],
}

/// What `mvt check` says of a tile, as values (`mvt_survey`).
#[unsafe(no_mangle)]
pub extern "C" fn mvt_survey(
    alloc: Global,
    bytes: &[u8],
    out: &mut Summary,
    fault: &mut Fault,
) -> u32
    ensures done { result ≡ 0 → IsSurveyed bytes.now out.new }
    ensures refused { result ≡ 1 → IsReported bytes.now fault.new }
    ensures few { result ≤ 2 }
    ensures out_kept { result ≢ 0 → out.new ≡ out.old }
    ensures fault_kept { result ≢ 1 → fault.new ≡ fault.old }

    // A row tells its note, so the rows say what the lines of `mvt check` say.
    ensures told { (note : ANote) → note_of_row (row_of_note note) ≡ note }
{
    match surveyed(alloc, bytes) {
        Ok(summary) => {
            *out = summary;
            0
        }
        Err(refusal) => report(refusal, fault),
    }
}

fn surveyed(alloc: Global, bytes: &[u8]) -> Result<Summary, Refusal>
    ensures done { IfOk result (IsSurveyed bytes.now) }
    ensures refused { IfErr result (NotShown bytes.now) }
{
    let survey = survey_tile(alloc, bytes)?;
    Ok(summary_of(alloc, &survey)?)
}

fn summary_of(alloc: Global, survey: &Survey) -> Result<Summary, AllocError>
    ensures { IfOk result (IsSummary survey.now) }
{
    let notes = note_rows(alloc, survey.notes.as_slice())?;
    Ok(Summary {
        layers: survey.layers as u64,
        features: u64::try_from(survey.features).unwrap_or(u64::MAX),
        is_canonical: u32::from(survey.is_canonical),
        notes: notes.leak(),
    })
}

fn note_rows(alloc: Global, notes: &[Note]) -> Result<Vec<NoteRow>, AllocError>
    ensures { IfOk result (λ rows. rows.items ≡ map row_of_note notes.now) }
{
    let mut rows = Vec::with_capacity(alloc, notes.len())?;
    for note in notes {
        rows.push(note_row(*note))?;
    }
    Ok(rows)
}

fn note_row(note: Note) -> NoteRow
    ensures { result ≡ row_of_note note }
{
    match note {
        Note::NoLayers => note_at(note, 0, 0),
        Note::Foreign(layer, version) => NoteRow {
            version,
            ..note_at(note, layer, 0)
        },
        Note::NoFeatures(layer) => note_at(note, layer, 0),
        Note::RepeatedId(layer, feature, earlier) => NoteRow {
            earlier: earlier as u64,
            ..note_at(note, layer, feature)
        },
        Note::FlatRing(layer, feature, ring) | Note::ClosedTwice(layer, feature, ring) => NoteRow {
            ring: ring as u64,
            ..note_at(note, layer, feature)
        },
    }
}

fn note_at(note: Note, layer: usize, feature: usize) -> NoteRow
    ensures { result ≡ note_at note layer feature }
{
    NoteRow {
        kind: NoteKind::of(note).number(),
        version: 0,
        layer: layer as u64,
        feature: feature as u64,
        ring: 0,
        earlier: 0,
    }
}

/// What `mvt lint` says of a tile, as rows (`mvt_lint_rows`).
#[unsafe(no_mangle)]
pub extern "C" fn mvt_lint_rows(
    alloc: Global,
    bytes: &[u8],
    out: &mut Findings,
    fault: &mut Fault,
) -> u32
    ensures done { result ≡ 0 → AreFindingsOf bytes.now out.new.rows.now }
    ensures refused { result ≡ 1 → IsReported bytes.now fault.new }
    ensures few { result ≤ 2 }
    ensures out_kept { result ≢ 0 → out.new ≡ out.old }
    ensures fault_kept { result ≢ 1 → fault.new ≡ fault.old }

    // A row tells its finding, so the rows say what the lines of `mvt lint` say.
    ensures told { (finding : AFinding) → finding_of_row (row_of_finding finding) ≡ finding }
{
    match linted(alloc, bytes) {
        Ok(rows) => {
            *out = Findings { rows: rows.leak() };
            0
        }
        Err(refusal) => report(refusal, fault),
    }
}

fn linted(alloc: Global, bytes: &[u8]) -> Result<Vec<FindingRow>, Refusal>
    ensures done { IfOk result (λ rows. AreFindingsOf bytes.now rows.items) }
    ensures refused { IfErr result (NotShown bytes.now) }
{
    let found = lint_bytes(alloc, bytes)?;
    Ok(finding_rows(alloc, found.as_slice())?)
}

fn finding_rows(alloc: Global, findings: &[Finding]) -> Result<Vec<FindingRow>, AllocError>
    ensures { IfOk result (λ rows. rows.items ≡ map row_of_finding findings.now) }
{
    let mut rows = Vec::with_capacity(alloc, findings.len())?;
    for finding in findings {
        rows.push(finding_row(*finding))?;
    }
    Ok(rows)
}

fn finding_row(finding: Finding) -> FindingRow
    ensures { result ≡ row_of_finding finding }
{
    match finding {
        Finding::ZeroExtent(layer) => FindingRow {
            has_feature: 0,
            ..finding_at(finding, layer, 0)
        },
        Finding::NoGeometry(layer, feature)
        | Finding::UnknownGeometry(layer, feature)
        | Finding::LargeId(layer, feature) => finding_at(finding, layer, feature),
        Finding::FarPoint(layer, feature, x, y) => FindingRow {
            x,
            y,
            ..finding_at(finding, layer, feature)
        },
        Finding::LargeNumber(layer, feature, attribute) => FindingRow {
            attribute: attribute as u64,
            ..finding_at(finding, layer, feature)
        },
    }
}

fn finding_at(finding: Finding, layer: usize, feature: usize) -> FindingRow
    ensures { result ≡ finding_at finding layer feature }
{
    FindingRow {
        kind: FindingKind::of(finding).number(),
        has_feature: 1,
        layer: layer as u64,
        feature: feature as u64,
        attribute: 0,
        x: 0,
        y: 0,
    }
}

/// Hands out the text of a cause (`mvt_cause_text`), with a zero at the end; it is never freed.
/// Answers 1, or 0 where no cause has the number.
#[unsafe(no_mangle)]
pub extern "C" fn mvt_held_cause_text(cause: u32, out: &mut Bytes) -> u32
    ensures said { result ≡ 1 → IsCauseText cause out.new.bytes.now }
    ensures unknown { result ≡ 0 → (known : Cause) → cause_number known ≡ cause → ⊥ }
    ensures few { result ≤ 1 }
    ensures out_kept { result ≡ 0 → out.new ≡ out.old }
{
    match cause_given(cause) {
        Some(known) => said(cause_with_zero(known), out),
        None => 0,
    }
}

/// The same of a note (`mvt_note_text`).
#[unsafe(no_mangle)]
pub extern "C" fn mvt_held_note_text(note: u32, out: &mut Bytes) -> u32
    ensures said { result ≡ 1 → IsNoteText note out.new.bytes.now }
    ensures unknown { result ≡ 0 → (known : ANoteKind) → note_number known ≡ note → ⊥ }
    ensures few { result ≤ 1 }
    ensures out_kept { result ≡ 0 → out.new ≡ out.old }
{
    match NoteKind::of_number(note) {
        Some(known) => said(known.sentence_with_zero(), out),
        None => 0,
    }
}

/// The same of a finding (`mvt_finding_text`).
#[unsafe(no_mangle)]
pub extern "C" fn mvt_held_finding_text(finding: u32, out: &mut Bytes) -> u32
    ensures said { result ≡ 1 → IsFindingText finding out.new.bytes.now }
    ensures unknown { result ≡ 0 → (known : AFindingKind) → finding_number known ≡ finding → ⊥ }
    ensures few { result ≤ 1 }
    ensures out_kept { result ≡ 0 → out.new ≡ out.old }
{
    match FindingKind::of_number(finding) {
        Some(known) => said(known.sentence_with_zero(), out),
        None => 0,
    }
}

fn said(text: &'static str, out: &mut Bytes) -> u32
    ensures answer { result ≡ 1 }
    ensures text { out.new.bytes.now ≡ text.now }
{
    *out = Bytes {
        bytes: text.as_bytes(),
    };
    1
}
