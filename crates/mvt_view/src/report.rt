//! The report on a tile that was accepted.
ghost use Rattle.std.specs.Prelude.{◌≡◌, ◌++◌, OnOk, IfOk, string_bytes};
ghost use Rattle.std.specs.List.{flat_map, sum_by};
ghost use Rattle.mvt_tile_value.specs.Survey.{feature_count as the_feature_count};
ghost use Rattle.mvt_view.specs.Reports.{head_line, note_line, report_lines, survey_lines};

use crate::view_error::ViewError;
use mvt_tile::{Items, Note, Survey, Tile, feature_count, notes};
use std::alloc::{AllocError, Global};
use std::fmt::Write;

/// A line with the numbers of layers and features and whether the tile's bytes were canonical, and
/// then a line for each note. Each ends with a line feed.
///
/// Layers of every version are counted, but only features of version 2.
///
/// # Errors
///
/// When memory runs out.
pub fn report_text(alloc: Global, tile: &Tile, canonical: bool) -> Result<String, ViewError>
    ensures { IfOk result (λ text. string_bytes text ≡ report_lines tile.now canonical) }
{
    let survey = Survey {
        layers: tile.items.as_slice().len(),
        features: all_features(tile),
        is_canonical: canonical,
        notes: Items::new(notes(alloc, tile)?),
    };
    survey_text(alloc, &survey)
}

/// The same for a tile that was surveyed.
///
/// # Errors
///
/// When memory runs out.
pub fn survey_text(alloc: Global, survey: &Survey) -> Result<String, ViewError>
    ensures { IfOk result (λ text. string_bytes text ≡ survey_lines survey.now) }
{
    let mut text = String::new(alloc);
    push_head(&mut text, survey)?;
    push_notes(&mut text, survey.notes.as_slice())?;
    Ok(text)
}

#[tactic(auto, unfolding(crate::specs::Reports::head_line))]
fn push_head(text: &mut String, survey: &Survey) -> Result<(), AllocError>
    ensures { OnOk result (string_bytes text.new ≡ string_bytes text.old ++ head_line survey.now) }
{
    let layers = survey.layers;
    let features = survey.features;
    let answer = if survey.is_canonical { "yes" } else { "no" };
    writeln!(
        text,
        "ok layers {layers} features {features} canonical {answer}"
    )
}

// The sum of so many lengths fits 128 bits; nothing bounds it by 64.
fn all_features(tile: &Tile) -> u128
    ensures { result ≡ sum_by the_feature_count tile.now.items }
{
    let items = tile.items.as_slice();
    let mut count: u128 = 0;
    for item in items {
        count += feature_count(item) as u128;
    }
    count
}

fn push_notes(text: &mut String, notes: &[Note]) -> Result<(), AllocError>
    ensures { OnOk result (string_bytes text.new
        ≡ string_bytes text.old ++ flat_map note_line notes.now) }
{
    for note in notes {
        push_note(text, *note)?;
    }
    Ok(())
}

#[tactic(auto, unfolding(crate::specs::Reports::note_line))]
fn push_note(text: &mut String, note: Note) -> Result<(), AllocError>
    ensures { OnOk result (string_bytes text.new ≡ string_bytes text.old ++ note_line note) }
{
    match note {
        Note::NoLayers => writeln!(text, "note NoLayers"),
        Note::Foreign(layer, version) => {
            writeln!(text, "note Foreign layer {layer} version {version}")
        }
        Note::NoFeatures(layer) => writeln!(text, "note NoFeatures layer {layer}"),
        Note::RepeatedId(layer, feature, earlier) => writeln!(
            text,
            "note RepeatedId layer {layer} feature {feature} earlier {earlier}"
        ),
        Note::FlatRing(layer, feature, ring) => {
            writeln!(
                text,
                "note FlatRing layer {layer} feature {feature} ring {ring}"
            )
        }
        Note::ClosedTwice(layer, feature, ring) => writeln!(
            text,
            "note ClosedTwice layer {layer} feature {feature} ring {ring}"
        ),
    }
}
