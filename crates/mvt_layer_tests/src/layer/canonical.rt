//! Layers that are canonical as they stand, beside the same made canonical field by field.
use super::copying::{FEW_VALUES, MANY_VALUES, changed};
use crate::expect::expect;
use mvt_feature::FeatureFields;
use mvt_geometry::{GeometryVisitor, Kind, Point, Ring};
use mvt_message::*;
use std::alloc::{AllocError, Global};
use std::process::Abort;

// What was told of features: the id and the type of each, the points of all, how many points each
// part has, and of a ring whether it begins a polygon, twice its area and whether it is closed.
#[derive(Drop)]
struct Told {
    ids: Vec<Option<u64>>,
    kinds: Vec<Kind>,
    points: Vec<Point>,
    counts: Vec<usize>,
    rings: Vec<Option<(bool, i128, bool)>>,
    // How many points and parts the features have that ended.
    points_before: usize,
    parts_before: usize,
}

impl Told {
    fn new(alloc: Global) -> Self {
        Told {
            ids: Vec::new(alloc),
            kinds: Vec::new(alloc),
            points: Vec::new(alloc),
            counts: Vec::new(alloc),
            rings: Vec::new(alloc),
            points_before: 0,
            parts_before: 0,
        }
    }

    fn is(&self, other: &Told) -> bool {
        self.ids.as_slice() == other.ids.as_slice()
            && self.kinds.as_slice() == other.kinds.as_slice()
            && self.points.as_slice() == other.points.as_slice()
            && self.counts.as_slice() == other.counts.as_slice()
            && self.rings.as_slice() == other.rings.as_slice()
    }
}

impl GeometryVisitor for Told {
    ghost has_parts = { λ _ _ _ _. Unit {0} };

    ghost has_integers = { λ _ _ _. Unit {0} };

    ghost begins = { λ _. tt };

    fn visit_point(&mut self, point: Point) -> Result<(), AllocError> {
        self.points.push(point)?;
        Ok(())
    }

    fn end_part(&mut self, points: usize, ring: Option<Ring>) -> Result<(), AllocError> {
        self.counts.push(points)?;
        self.rings
            .push(ring.map(|r| (r.exterior, r.twice_area, r.is_closed)))?;
        Ok(())
    }

    fn visit_integers(&mut self, _: &[u32]) -> Result<(), AllocError> {
        Ok(())
    }
}

impl FeatureVisitor for Told {
    ghost has_features = { λ _ _ _. Unit {0} };

    fn begin_feature(&mut self) {
        self.points.truncate(self.points_before);
        self.counts.truncate(self.parts_before);
        self.rings.truncate(self.parts_before);
    }

    fn end_feature(&mut self, _: Global, known: &FeatureFields) -> Result<(), AllocError> {
        self.ids.push(known.id)?;
        self.kinds.push(known.kind)?;
        self.points_before = self.points.len();
        self.parts_before = self.counts.len();
        Ok(())
    }
}

// A short payload made canonical.
fn rewritten(alloc: Global, payload: &[u8]) -> Result<Rewritten<'_, Told>, MessageError> {
    if payload.len() > 1000 {
        return Err(MessageError::Memory);
    }
    let mut rewriter = LayerRewriter::new(alloc, Told::new(alloc), payload.len())?;
    let visited = visit_version_2(alloc, &mut rewriter, payload, 2, 0)?;
    Ok(rewriter.finish(visited))
}

// Whether a short payload is made canonical as it stands, by features that are told so.
fn is_rewritten_as(alloc: Global, payload: &[u8], told: &Told) -> bool {
    let mut out = Vec::new(alloc);
    match rewritten(alloc, payload) {
        Ok(Rewritten::Layer(layer)) => {
            layer.append_head(&mut out).is_ok()
                && out.extend_from_slice(layer.features()).is_ok()
                && layer.append_tail(&mut out).is_ok()
                && out.as_slice() == payload
                && layer.visitor.is(told)
        }
        Ok(Rewritten::Foreign(_)) => false,
        Err(_) => false,
    }
}

// The name of a layer that is canonical as it stands, and what was told of its features.
fn told_of<'a>(alloc: Global, payload: &'a [u8]) -> (Result<&'a str, Unsure>, Told) {
    let mut told = Told::new(alloc);
    if payload.len() > 1000 {
        return (Err(Unsure::Undecided), told);
    }
    let name = visit_canonical(alloc, &mut told, payload);
    (name, told)
}

// A payload that is said to be canonical is made so as it stands.
fn expect_said_rightly(rt: &(impl Abort + AllocGlobal), payload: &[u8]) {
    let (name, told) = told_of(rt.alloc(), payload);
    let is_right = name.is_err() || is_rewritten_as(rt.alloc(), payload, &told);
    drop(told);
    expect!(rt; is_right);
}

// The payload with the version, which stands last, in front.
fn turned(alloc: Global, payload: &[u8]) -> Result<Vec<u8>, AllocError> {
    let mut bytes = Vec::new(alloc);
    let (fields, version) = payload.split_at(payload.len().saturating_sub(2));
    bytes.extend_from_slice(version)?;
    bytes.extend_from_slice(fields)?;
    Ok(bytes)
}

// Whether a layer of this name was told to be canonical.
fn is_told(alloc: Global, payload: &[u8], name: &str) -> bool {
    let (found, told) = told_of(alloc, payload);
    match found {
        Ok(found) => found == name && is_rewritten_as(alloc, payload, &told),
        Err(_) => false,
    }
}

// Whether a payload isn't known to be canonical, though no rule is broken.
fn is_left_alone(alloc: Global, payload: &[u8]) -> bool {
    let (found, _) = told_of(alloc, payload);
    match found {
        Err(Unsure::Undecided) => true,
        _ => false,
    }
}

fn expect_canonical(rt: &(impl Abort + AllocGlobal), payload: &[u8], name: &str) {
    let is_other = is_left_alone(rt.alloc(), payload);
    expect!(rt; is_other);
    let bytes = turned(rt.alloc(), payload).expect(rt, "a payload");
    let is_right = is_told(rt.alloc(), &bytes, name);
    expect!(rt; is_right);
    for at in 0..bytes.len() {
        for way in 0..4u8 {
            let other = changed(rt.alloc(), &bytes, at, way).expect(rt, "a payload");
            expect_said_rightly(rt, &other);
            drop(other);
        }
    }
    drop(bytes);
}

#[test]
fn tells_canonical_layers_of_many_values(rt: HostRuntime) {
    expect_canonical(&rt, &MANY_VALUES, "roads");
}

#[test]
fn tells_canonical_layers_of_few_values(rt: HostRuntime) {
    expect_canonical(&rt, &FEW_VALUES, "b");
}
