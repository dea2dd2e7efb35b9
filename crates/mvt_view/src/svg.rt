//! A picture of a tile as SVG.
//!
//! The picture is one square, in which each layer of version 2 is an `svg` of its own with the
//! layer's extent, its name as the title, and a `path` for each feature, whose title is the
//! feature's attributes and id as JSON.
ghost use Rattle.std.specs.Prelude.{◌≡◌, ◌++◌, ◌%◌, IfOk, OnOk, string_bytes};
ghost use Rattle.std.specs.List.{flat_map};
ghost use Rattle.serde_json.specs.Written.{compact_text};
ghost use Rattle.mvt_view.specs.Svg.{class_of, colour_of, feature_svg, item_svg, items_svg, layer_svg, square_svg, svg, title_json, title_svg};

use crate::json_part::JsonPart;
use crate::paths::push_geometry;
use crate::view_error::ViewError;
use crate::xml::push_escaped;
use mvt_geometry::Geometry;
use mvt_message::{Feature, Item, Layer};
use mvt_tile::Tile;
use std::alloc::{AllocError, Global};
use std::fmt::Write;

/// The picture of a tile as an SVG document, without a line end after it.
///
/// Points are dots, lines are strokes, and polygons are filled by the even-odd rule. Each layer has
/// the colour of its index in the tile. Unknown geometry and layers of other versions aren't drawn.
///
/// # Errors
///
/// When memory runs out.
#[tactic(auto, unfolding(crate::specs::Svg::svg, crate::specs::Svg::head_svg))]
pub fn svg_text(alloc: Global, tile: &Tile) -> Result<String, ViewError>
    ensures { IfOk result (λ text. string_bytes text ≡ svg tile.now) }
{
    let mut text = String::from_str(
        alloc,
        "<svg xmlns=\"http://www.w3.org/2000/svg\" viewBox=\"0 0 1 1\">\n\
        <style>path{fill:none;stroke:currentColor;stroke-width:.2%;\
        stroke-linecap:round;stroke-linejoin:round}.points{stroke-width:1%}\
        .polygons{fill:currentColor;fill-opacity:.2;fill-rule:evenodd}</style>\n",
    )?;
    let mut room = String::new(alloc);
    push_items(alloc, &mut text, &mut room, tile.items.as_slice())?;
    text.push_str("</svg>")?;
    Ok(text)
}

/// Appends the pictures of items. The room is for the title of a feature, here and below.
fn push_items(
    alloc: Global,
    text: &mut String,
    room: &mut String,
    items: &[Item],
) -> Result<(), ViewError>
    ensures { OnOk result (string_bytes text.new ≡ string_bytes text.old ++ items_svg 0 items.now) }
{
    for (index, item) in items.iter().enumerate() {
        push_item(alloc, text, room, index, item)?;
    }
    Ok(())
}

fn push_item(
    alloc: Global,
    text: &mut String,
    room: &mut String,
    index: usize,
    item: &Item,
) -> Result<(), ViewError>
    ensures { OnOk result (string_bytes text.new
        ≡ string_bytes text.old ++ item_svg index item.now) }
{
    match item {
        Item::Layer(layer) => push_layer(alloc, text, room, index, layer),
        Item::Foreign { .. } => Ok(()),
    }
}

#[tactic(auto, unfolding(crate::specs::Svg::layer_svg))]
fn push_layer(
    alloc: Global,
    text: &mut String,
    room: &mut String,
    index: usize,
    layer: &Layer,
) -> Result<(), ViewError>
    ensures { OnOk result (string_bytes text.new
        ≡ string_bytes text.old ++ layer_svg index layer.now) }
{
    push_square(text, index, layer.extent)?;
    push_title(text, layer.name.as_str())?;
    text.push_str("\n")?;
    push_features(alloc, text, room, layer.features.as_slice())?;
    text.push_str("</svg>\n")?;
    Ok(())
}

/// Appends the tag of a square of this many units.
#[tactic(auto, unfolding(crate::specs::Svg::square_svg))]
fn push_square(text: &mut String, index: usize, extent: u32) -> Result<(), AllocError>
    ensures { OnOk result (string_bytes text.new
        ≡ string_bytes text.old ++ square_svg index extent) }
{
    let colour = colour(index % 8);
    write!(
        text,
        "<svg color=\"{colour}\" viewBox=\"0 0 {extent} {extent}\">"
    )
}

/// The colour of the layer at an index modulo eight.
#[tactic(auto, unfolding(crate::specs::Svg::colour_of))]
fn colour(index: usize) -> &'static str
    ensures { result.now ≡ colour_of index }
{
    match index {
        0 => "#0072b2",
        1 => "#d55e00",
        2 => "#009e73",
        3 => "#cc79a7",
        4 => "#e69f00",
        5 => "#56b4e9",
        6 => "#000000",
        _ => "#f0e442",
    }
}

fn push_features(
    alloc: Global,
    text: &mut String,
    room: &mut String,
    features: &[Feature],
) -> Result<(), ViewError>
    ensures { OnOk result (string_bytes text.new
        ≡ string_bytes text.old ++ flat_map feature_svg features.now) }
{
    for feature in features {
        push_feature(alloc, text, room, feature)?;
    }
    Ok(())
}

#[tactic(auto, unfolding(crate::specs::Svg::feature_svg))]
fn push_feature(
    alloc: Global,
    text: &mut String,
    room: &mut String,
    feature: &Feature,
) -> Result<(), ViewError>
    ensures { OnOk result (string_bytes text.new
        ≡ string_bytes text.old ++ feature_svg feature.now) }
{
    text.push_str("<path class=\"")?;
    text.push_str(class(&feature.geometry))?;
    text.push_str("\" d=\"")?;
    push_geometry(text, &feature.geometry)?;
    text.push_str("\">")?;
    room.clear();
    push_titled(alloc, room, feature)?;
    push_title(text, room.as_str())?;
    text.push_str("</path>\n")?;
    Ok(())
}

/// The class by which a geometry's shapes are styled.
fn class(geometry: &Geometry) -> &'static str
    ensures { result.now ≡ class_of geometry.now }
{
    match geometry {
        Geometry::Unknown(_) => "unknown",
        Geometry::Points(_) => "points",
        Geometry::Lines(_) => "lines",
        Geometry::Polygons(_) => "polygons",
    }
}

#[tactic(auto, unfolding(crate::specs::Svg::title_svg))]
fn push_title(text: &mut String, title: &str) -> Result<(), AllocError>
    ensures { OnOk result (string_bytes text.new ≡ string_bytes text.old ++ title_svg title.now) }
{
    text.push_str("<title>")?;
    push_escaped(text, title)?;
    text.push_str("</title>")
}

/// Appends a feature's attributes and its id as one line of JSON.
fn push_titled(alloc: Global, text: &mut String, feature: &Feature) -> Result<(), ViewError>
    ensures { OnOk result (string_bytes text.new
        ≡ string_bytes text.old ++ compact_text (title_json feature.now)) }
{
    text.push_str("{\"attributes\":")?;
    feature.attributes.push(alloc, text)?;
    text.push_str(",\"id\":")?;
    feature.id.push(alloc, text)?;
    Ok(text.push_str("}")?)
}
