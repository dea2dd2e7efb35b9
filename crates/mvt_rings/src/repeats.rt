//! Points that repeat the one before them (section 4.3.3.2), and last points that repeat the first.
ghost use Rattle.std.specs.Prelude.{◌≡◌, true, length, take, reverse, IfOk};
ghost use Rattle.mvt_rings.specs.Repeats.{is_long as has_as_many, is_same as are_at_one_place, without_repeats as apart, past, opened as the_opened};

use mvt_base::Items;
use mvt_geometry::Point;
use std::alloc::{AllocError, Global};

/// Whether two points are at one place.
#[inline]
pub(crate) fn is_same(p: Point, q: Point) -> bool
    ensures { result ≡ are_at_one_place p q }
{
    p.x == q.x && p.y == q.y
}

/// A part without the points that equal the one before them.
pub(crate) fn without_repeats(alloc: Global, points: &[Point]) -> Result<Items<Point>, AllocError>
    ensures { IfOk result (λ r. r ≡ apart points.now) }
{
    if are_apart(points) {
        return Ok(Items::new(Vec::from_slice(alloc, points)?));
    }
    let mut kept = Vec::with_capacity(alloc, points.len())?;
    let [first, others @ ..] = points else {
        return Ok(Items::new(kept));
    };
    kept.push(*first)?;
    let mut before = *first;
    for point in others {
        if !is_same(before, *point) {
            kept.push(*point)?;
            before = *point;
        }
    }
    Ok(Items::new(kept))
}

/// Whether no point equals the one before it.
fn are_apart(points: &[Point]) -> bool
    ensures { result ≡ true → apart points.now ≡ points.now }
{
    let [first, others @ ..] = points else {
        return true;
    };
    let mut before = *first;
    for point in others {
        if is_same(before, *point) {
            return false;
        }
        before = *point;
    }
    true
}

/// Whether a part has so many points without those that equal the one before them.
pub(crate) fn is_long(least: usize, points: &[Point]) -> bool
    ensures { result ≡ has_as_many least (apart points.now) }
{
    let [first, others @ ..] = points else {
        return least == 0;
    };
    let mut count = 1usize;
    let mut before = *first;
    for point in others {
        if count >= least {
            return true;
        }
        if !is_same(before, *point) {
            count += 1;
            before = *point;
        }
    }
    count >= least
}

/// The points without those at the end that are at one place with the first.
pub(crate) fn open_end(first: Point, points: &[Point]) -> &[Point]
    ensures past { reverse result.now ≡ past first (reverse points.now) }
    ensures front { result.now ≡ take (length result.now) points.now }
{
    let mut open = points;
    while !open.is_empty() {
        let end = open.len() - 1;
        if !is_same(first, open[end]) {
            break;
        }
        open = &open[..end];
    }
    open
}

/// A ring without last points that equal its first.
pub(crate) fn opened(ring: Vec<Point>) -> Items<Point>
    ensures { result ≡ the_opened ring.items }
{
    let mut points = ring;
    points.truncate(open_len(points.as_slice()));
    Items::new(points)
}

/// How many points it has then.
fn open_len(ring: &[Point]) -> usize
    ensures { take result ring.now ≡ the_opened ring.now }
{
    match ring {
        [first, others @ ..] => 1 + open_end(*first, others).len(),
        [] => 0,
    }
}
