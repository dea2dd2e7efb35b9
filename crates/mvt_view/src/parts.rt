//! The JSON of a tile's parts.
ghost use Rattle.mvt_view.specs.JsonForms.{attribute_json, feature_json, foreign_json, geometry_json, item_json, json, layer_json, point_json, polygon_json, value_json};

use crate::json_part::{JsonPart, alone, push_alone};
use crate::numbers::push_pair;
use crate::view_error::ViewError;
use mvt_attrs::{Attribute, Value};
use mvt_geometry::{Geometry, Point, Polygon};
use mvt_message::{Feature, Item, Layer};
use mvt_tile::Tile;
use serde_json::{Value as Json, json};
use std::alloc::{AllocError, Global};

impl JsonPart for Value {
    ghost form = { value_json };

    fn to_json(&self, alloc: Global) -> Result<Json, AllocError> {
        match self {
            Value::Text(text) => alone(alloc, "string", text.to_json(alloc)?),
            Value::Float(bits) => alone(alloc, "float_bits", bits.to_json(alloc)?),
            Value::Double(bits) => alone(alloc, "double_bits", bits.to_json(alloc)?),
            Value::Int(number) => alone(alloc, "int", number.to_json(alloc)?),
            Value::Uint(number) => alone(alloc, "uint", number.to_json(alloc)?),
            Value::Sint(number) => alone(alloc, "sint", number.to_json(alloc)?),
            Value::Bool(truth) => alone(alloc, "bool", truth.to_json(alloc)?),
        }
    }

    fn push(&self, alloc: Global, text: &mut String) -> Result<(), ViewError> {
        match self {
            Value::Text(string) => push_alone(alloc, text, "{\"string\":", string),
            Value::Float(bits) => push_alone(alloc, text, "{\"float_bits\":", bits),
            Value::Double(bits) => push_alone(alloc, text, "{\"double_bits\":", bits),
            Value::Int(number) => push_alone(alloc, text, "{\"int\":", number),
            Value::Uint(number) => push_alone(alloc, text, "{\"uint\":", number),
            Value::Sint(number) => push_alone(alloc, text, "{\"sint\":", number),
            Value::Bool(truth) => push_alone(alloc, text, "{\"bool\":", truth),
        }
    }
}

impl JsonPart for Attribute {
    ghost form = { attribute_json };

    fn to_json(&self, alloc: Global) -> Result<Json, AllocError> {
        let key = self.key.to_json(alloc)?;
        let value = self.value.to_json(alloc)?;
        json!(in alloc; [key, value])
    }

    fn push(&self, alloc: Global, text: &mut String) -> Result<(), ViewError> {
        text.push_str("[")?;
        self.key.push(alloc, text)?;
        text.push_str(",")?;
        self.value.push(alloc, text)?;
        Ok(text.push_str("]")?)
    }
}

impl JsonPart for Point {
    ghost form = { point_json };

    fn to_json(&self, alloc: Global) -> Result<Json, AllocError> {
        json!(in alloc; [self.x, self.y])
    }

    #[tactic(auto, using(crate::proofs::JsonTexts::point_text))]
    fn push(&self, _alloc: Global, text: &mut String) -> Result<(), ViewError> {
        push_pair(text, b'[', self.x, b',', self.y)?;
        Ok(text.push_str("]")?)
    }
}

impl JsonPart for Polygon {
    ghost form = { polygon_json };

    fn to_json(&self, alloc: Global) -> Result<Json, AllocError> {
        let outer = self.outer.to_json(alloc)?;
        let rest = self.rest.to_json(alloc)?;
        json!(in alloc; {"outer": outer, "rest": rest})
    }

    fn push(&self, alloc: Global, text: &mut String) -> Result<(), ViewError> {
        text.push_str("{\"outer\":")?;
        self.outer.push(alloc, text)?;
        text.push_str(",\"rest\":")?;
        self.rest.push(alloc, text)?;
        Ok(text.push_str("}")?)
    }
}

impl JsonPart for Geometry {
    ghost form = { geometry_json };

    fn to_json(&self, alloc: Global) -> Result<Json, AllocError> {
        match self {
            Geometry::Unknown(integers) => alone(alloc, "unknown", integers.to_json(alloc)?),
            Geometry::Points(points) => alone(alloc, "points", points.to_json(alloc)?),
            Geometry::Lines(lines) => alone(alloc, "lines", lines.to_json(alloc)?),
            Geometry::Polygons(polygons) => alone(alloc, "polygons", polygons.to_json(alloc)?),
        }
    }

    fn push(&self, alloc: Global, text: &mut String) -> Result<(), ViewError> {
        match self {
            Geometry::Unknown(integers) => push_alone(alloc, text, "{\"unknown\":", integers),
            Geometry::Points(points) => push_alone(alloc, text, "{\"points\":", points),
            Geometry::Lines(lines) => push_alone(alloc, text, "{\"lines\":", lines),
            Geometry::Polygons(polygons) => push_alone(alloc, text, "{\"polygons\":", polygons),
        }
    }
}

impl JsonPart for Feature {
    ghost form = { feature_json };

    fn to_json(&self, alloc: Global) -> Result<Json, AllocError> {
        let attributes = self.attributes.to_json(alloc)?;
        let geometry = self.geometry.to_json(alloc)?;
        let id = self.id.to_json(alloc)?;
        json!(in alloc; {"attributes": attributes, "geometry": geometry, "id": id})
    }

    fn push(&self, alloc: Global, text: &mut String) -> Result<(), ViewError> {
        text.push_str("{\"attributes\":")?;
        self.attributes.push(alloc, text)?;
        text.push_str(",\"geometry\":")?;
        self.geometry.push(alloc, text)?;
        text.push_str(",\"id\":")?;
        self.id.push(alloc, text)?;
        Ok(text.push_str("}")?)
    }
}

impl JsonPart for Layer {
    ghost form = { layer_json };

    fn to_json(&self, alloc: Global) -> Result<Json, AllocError> {
        let extent = self.extent.to_json(alloc)?;
        let features = self.features.to_json(alloc)?;
        let name = self.name.to_json(alloc)?;
        json!(in alloc; {"extent": extent, "features": features, "name": name})
    }

    fn push(&self, alloc: Global, text: &mut String) -> Result<(), ViewError> {
        text.push_str("{\"extent\":")?;
        self.extent.push(alloc, text)?;
        text.push_str(",\"features\":")?;
        self.features.push(alloc, text)?;
        text.push_str(",\"name\":")?;
        self.name.push(alloc, text)?;
        Ok(text.push_str("}")?)
    }
}

/// What is shown of a layer of another version.
#[derive(Clone, Copy)]
struct Foreign {
    version: u32,
    length: u64,
}

impl JsonPart for Foreign {
    ghost form = { λ f. foreign_json f.version f.length };

    fn to_json(&self, alloc: Global) -> Result<Json, AllocError> {
        json!(in alloc; {"length": self.length, "version": self.version})
    }

    fn push(&self, alloc: Global, text: &mut String) -> Result<(), ViewError> {
        text.push_str("{\"length\":")?;
        self.length.push(alloc, text)?;
        text.push_str(",\"version\":")?;
        self.version.push(alloc, text)?;
        Ok(text.push_str("}")?)
    }
}

impl JsonPart for Item {
    ghost form = { item_json };

    fn to_json(&self, alloc: Global) -> Result<Json, AllocError> {
        match self {
            Item::Layer(layer) => layer.to_json(alloc),
            Item::Foreign { version, bytes } => {
                let foreign = Foreign {
                    version: *version,
                    length: bytes.as_slice().len() as u64,
                };
                alone(alloc, "foreign", foreign.to_json(alloc)?)
            }
        }
    }

    fn push(&self, alloc: Global, text: &mut String) -> Result<(), ViewError> {
        match self {
            Item::Layer(layer) => layer.push(alloc, text),
            Item::Foreign { version, bytes } => {
                let foreign = Foreign {
                    version: *version,
                    length: bytes.as_slice().len() as u64,
                };
                push_alone(alloc, text, "{\"foreign\":", &foreign)
            }
        }
    }
}

impl JsonPart for Tile {
    ghost form = { json };

    fn to_json(&self, alloc: Global) -> Result<Json, AllocError> {
        alone(alloc, "layers", self.items.to_json(alloc)?)
    }

    fn push(&self, alloc: Global, text: &mut String) -> Result<(), ViewError> {
        push_alone(alloc, text, "{\"layers\":", &self.items)
    }
}
