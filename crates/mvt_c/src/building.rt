//! A builder that lives across calls: C keeps a handle, hands it to each call and takes it back.
//! `library/c/mvt.c` makes the handle at the first call.
ghost use Rattle.std.specs.Prelude.{◌≡◌, ◌≢◌, ◌==◌, ◌⊎◌, ℕ, not, Some, IfSome, bytes_eq, false, true};
ghost use Rattle.mvt_attrs.specs.TagPlaces.{place_in};
ghost use Rattle.mvt_rows.specs.declared.builder.FinishError.{FinishError};
ghost use Rattle.mvt_rows.specs.Building.{HasTold};
ghost use Rattle.mvt_rows.specs.Lent.{table_of};
ghost use Rattle.mvt_rows.specs.Tables.{Table};
ghost use Rattle.mvt_rows.specs.Told.{given_of, same_given};
ghost use Rattle.mvt_rows.specs.Told as spec;
ghost use Rattle.mvt_rows.specs.ToldRows.{told_rows};
ghost use Rattle.mvt_rows.specs.Written.{IsNoTile, IsTooLargeOfRows, IsWritten};
ghost use Rattle.mvt_c.specs.Building.{IsAnsweredBy, id_given, status_of_call, status_of_finish, status_of_made};
ghost use Rattle.mvt_c.specs.Faults.{IsRowsFault};

mod held;

use crate::lent::Bytes;
use crate::writing::{RowsFaultRow, row_of};
use held::{HeldBuilder, Making};
use mvt_rows::{AnyValue, BuildError, Builder, FinishError, PartRow, PointRow, Rows, RowsError};
use std::alloc::Global;
use std::mem;

/// Puts a handle where C keeps it, over one that it has just given away.
fn keep(making: Box<Making>, out: &mut HeldBuilder)
    ensures { out.new.making ≡ making.value }
{
    mem::forget(mem::replace(out, HeldBuilder::of_box(making)));
}

/// The status of a call.
fn status<T: Drop>(made: Result<T, BuildError>) -> u32
    ensures { result ≡ status_of_made made }
{
    match made {
        Ok(_) => 0,
        Err(failure) => status_of(failure),
    }
}

fn status_of(failure: BuildError) -> u32
    ensures { result ≡ status_of_call failure }
{
    match failure {
        BuildError::Memory => 2,
        BuildError::OutOfTurn => 8,
    }
}

/// A builder that was told nothing. What stands in `out` is neither looked at nor dropped.
#[unsafe(no_mangle)]
pub extern "C" fn mvt_making_new(alloc: Global, out: &mut HeldBuilder) -> u32
    ensures made { result ≡ 0 → HasTold out.new.making.inner spec.nothing_told }
    ensures known { result ≢ 0 → result ≡ 2 }
    ensures out_kept { result ≢ 0 → out.new ≡ out.old }
{
    let making = Making {
        inner: Builder::new(alloc),
    };
    match HeldBuilder::new(alloc, making) {
        Ok(held) => {
            mem::forget(mem::replace(out, held));
            0
        }
        Err(_) => 2,
    }
}

/// Begins a layer (`mvt_builder_layer`).
#[unsafe(no_mangle)]
pub extern "C" fn mvt_making_layer(
    alloc: Global,
    held: HeldBuilder,
    name: &[u8],
    extent: u32,
    again: &mut HeldBuilder,
) -> u32
    ensures { IsAnsweredBy (Unit {0}) held.making.inner again.new.making.inner result
        (spec.begin_layer name.now extent) }
{
    let mut making = held.into_box();
    let made = making.inner.layer(alloc, name, extent);
    keep(making, again);
    status(made)
}

/// Adds a layer of another version (`mvt_builder_foreign`).
#[unsafe(no_mangle)]
pub extern "C" fn mvt_making_foreign(
    held: HeldBuilder,
    version: u32,
    bytes: &[u8],
    again: &mut HeldBuilder,
) -> u32
    ensures { IsAnsweredBy (Unit {0}) held.making.inner again.new.making.inner result
        (spec.add_foreign version bytes.now) }
{
    let mut making = held.into_box();
    let made = making.inner.foreign(version, bytes);
    keep(making, again);
    status(made)
}

/// Begins a feature (`mvt_builder_feature`).
#[unsafe(no_mangle)]
pub extern "C" fn mvt_making_feature(held: HeldBuilder, kind: u32, again: &mut HeldBuilder) -> u32
    ensures { IsAnsweredBy (Unit {0}) held.making.inner again.new.making.inner result
        (spec.begin_feature kind) }
{
    let mut making = held.into_box();
    let made = making.inner.feature(kind);
    keep(making, again);
    status(made)
}

/// Gives the feature its id (`mvt_builder_id`).
#[unsafe(no_mangle)]
pub extern "C" fn mvt_making_id(held: HeldBuilder, id: u64, again: &mut HeldBuilder) -> u32
    ensures { IsAnsweredBy (Unit {0}) held.making.inner again.new.making.inner result
        (spec.add_id id) }
{
    let mut making = held.into_box();
    let made = making.inner.id(id);
    keep(making, again);
    status(made)
}

/// Adds an attribute (`mvt_builder_tag`).
#[unsafe(no_mangle)]
pub extern "C" fn mvt_making_tag(
    held: HeldBuilder,
    key: &[u8],
    value: &AnyValue<'_>,
    again: &mut HeldBuilder,
) -> u32
    ensures { IsAnsweredBy (Unit {0}) held.making.inner again.new.making.inner result
        (spec.add_tag key.now (given_of value.now)) }
{
    let mut making = held.into_box();
    let made = making.inner.tag(key, value);
    keep(making, again);
    status(made)
}

/// Adds an attribute by indices (`mvt_builder_tag_at`).
#[unsafe(no_mangle)]
pub extern "C" fn mvt_making_tag_at(
    held: HeldBuilder,
    key: u32,
    value: u32,
    again: &mut HeldBuilder,
) -> u32
    ensures { IsAnsweredBy (Unit {0}) held.making.inner again.new.making.inner result
        (spec.add_tag_at key value) }
{
    let mut making = held.into_box();
    let made = making.inner.tag_at(key, value);
    keep(making, again);
    status(made)
}

/// Begins a line (`mvt_builder_line`).
#[unsafe(no_mangle)]
pub extern "C" fn mvt_making_line(held: HeldBuilder, again: &mut HeldBuilder) -> u32
    ensures { IsAnsweredBy (Unit {0}) held.making.inner again.new.making.inner result
        (spec.begin_part 2 false) }
{
    let mut making = held.into_box();
    let made = making.inner.line();
    keep(making, again);
    status(made)
}

/// Begins a ring, an exterior one where the number isn't 0 (`mvt_builder_ring`).
#[unsafe(no_mangle)]
pub extern "C" fn mvt_making_ring(held: HeldBuilder, exterior: u32, again: &mut HeldBuilder) -> u32
    ensures { IsAnsweredBy (Unit {0}) held.making.inner again.new.making.inner result
        (spec.begin_part 3 (not (exterior == 0))) }
{
    let mut making = held.into_box();
    let made = making.inner.ring(exterior != 0);
    keep(making, again);
    status(made)
}

/// Adds points (`mvt_builder_points`).
#[unsafe(no_mangle)]
pub extern "C" fn mvt_making_points(
    held: HeldBuilder,
    points: &[PointRow],
    again: &mut HeldBuilder,
) -> u32
    ensures { IsAnsweredBy (Unit {0}) held.making.inner again.new.making.inner result
        (spec.add_points points.now) }
{
    let mut making = held.into_box();
    let made = making.inner.points(points);
    keep(making, again);
    status(made)
}

/// Adds integers (`mvt_builder_integers`).
#[unsafe(no_mangle)]
pub extern "C" fn mvt_making_integers(
    held: HeldBuilder,
    integers: &[u32],
    again: &mut HeldBuilder,
) -> u32
    ensures { IsAnsweredBy (Unit {0}) held.making.inner again.new.making.inner result
        (spec.add_integers integers.now) }
{
    let mut making = held.into_box();
    let made = making.inner.integers(integers);
    keep(making, again);
    status(made)
}

/// Adds a whole feature, with an id where the number isn't 0 (`mvt_builder_add`).
#[unsafe(no_mangle)]
pub extern "C" fn mvt_making_add(
    held: HeldBuilder,
    kind: u32,
    has_id: u32,
    id: u64,
    tags: &[u32],
    parts: &[PartRow],
    points: &[PointRow],
    again: &mut HeldBuilder,
) -> u32
    ensures { IsAnsweredBy (Unit {0}) held.making.inner again.new.making.inner result
        (spec.add_feature kind (id_given has_id id) tags.now
        (spec.told_parts kind points.now parts.now)) }
{
    let mut making = held.into_box();
    let made = making
        .inner
        .add(kind, id_given(has_id, id), tags, parts, points);
    keep(making, again);
    status(made)
}

fn id_given(has_id: u32, id: u64) -> Option<u64>
    ensures { result ≡ id_given has_id id }
{
    if has_id == 0 { None } else { Some(id) }
}

/// Takes the feature back (`mvt_builder_drop`).
#[unsafe(no_mangle)]
pub extern "C" fn mvt_making_drop(held: HeldBuilder, again: &mut HeldBuilder) -> u32
    ensures { IsAnsweredBy (Unit {0}) held.making.inner again.new.making.inner result
        (spec.drop_feature) }
{
    let mut making = held.into_box();
    let made = making.inner.drop_feature();
    keep(making, again);
    status(made)
}

/// The index of a key, which is added where it isn't there (`mvt_builder_key`).
#[unsafe(no_mangle)]
pub extern "C" fn mvt_making_key(
    held: HeldBuilder,
    key: &[u8],
    again: &mut HeldBuilder,
    index: &mut u32,
) -> u32
    ensures called { IsAnsweredBy ℕ held.making.inner again.new.making.inner result
        (spec.add_key key.now) }
    ensures index { result ≡ 0 → (told : spec.Told) → HasTold held.making.inner told
        → IfSome (spec.layer_in told.begun)
        (λ l. index.new ≡ place_in bytes_eq l.keys key.now) }
    ensures index_kept { result ≢ 0 → index.new ≡ index.old }
{
    let mut making = held.into_box();
    let made = making.inner.key(key);
    keep(making, again);
    if let Ok(found) = made {
        *index = found;
    }
    status(made)
}

/// The index of a value, which is added where it isn't there (`mvt_builder_value`).
#[unsafe(no_mangle)]
pub extern "C" fn mvt_making_value(
    held: HeldBuilder,
    value: &AnyValue<'_>,
    again: &mut HeldBuilder,
    index: &mut u32,
) -> u32
    ensures called { IsAnsweredBy ℕ held.making.inner again.new.making.inner result
        (spec.add_value (given_of value.now)) }
    ensures index { result ≡ 0 → (told : spec.Told) → HasTold held.making.inner told
        → IfSome (spec.layer_in told.begun)
        (λ l. index.new ≡ place_in same_given l.values (given_of value.now)) }
    ensures index_kept { result ≢ 0 → index.new ≡ index.old }
{
    let mut making = held.into_box();
    let made = making.inner.value(value);
    keep(making, again);
    if let Ok(found) = made {
        *index = found;
    }
    status(made)
}

/// Ends the layer, and copies the rows of the tile so far (`mvt_builder_rows`).
#[unsafe(no_mangle)]
pub extern "C" fn mvt_making_rows(
    alloc: Global,
    held: HeldBuilder,
    again: &mut HeldBuilder,
    out: &mut Rows<'static>,
) -> u32
    ensures called { IsAnsweredBy Table held.making.inner again.new.making.inner result
        (λ told. Some (spec.ended told)) }
    ensures rows { result ≡ 0 → (told : spec.Told) → HasTold held.making.inner told
        → table_of out.new ≡ told_rows told }
    ensures out_kept { result ≢ 0 → out.new ≡ out.old }
{
    let mut making = held.into_box();
    let made = making.inner.rows(alloc);
    keep(making, again);
    match made {
        Ok(table) => {
            *out = table.leak();
            0
        }
        Err(failure) => status_of(failure),
    }
}

/// The canonical bytes of the tile, or the first thing that is wrong with it
/// (`mvt_builder_finish`). The builder is given back.
#[unsafe(no_mangle)]
pub extern "C" fn mvt_making_finish(
    alloc: Global,
    held: HeldBuilder,
    out: &mut Bytes,
    fault: &mut RowsFaultRow,
) -> u32
    ensures done { result ≡ 0 → (told : spec.Told) → HasTold held.making.inner told
        → IsWritten (told_rows told) out.new.bytes.now }
    ensures too_large { result ≡ 3 → (told : spec.Told) → HasTold held.making.inner told
        → IsTooLargeOfRows (told_rows told) }
    ensures no_tile { result ≡ 6 → (told : spec.Told) → HasTold held.making.inner told
        → IsNoTile (told_rows told) }
    ensures fault { result ≡ 6 → (told : spec.Told) → HasTold held.making.inner told
        → IsRowsFault (told_rows told) fault.new }
    ensures out_of_turn { result ≡ 8 → (told : spec.Told) → HasTold held.making.inner told → ⊥ }
    ensures kept { IfSome held.making.inner.failure (λ failure. result ≡ status_of_call failure) }
    ensures known { (result ≡ 0) ⊎ ((error : FinishError) × (result ≡ status_of_finish error)) }
    ensures out_kept { result ≢ 0 → out.new ≡ out.old }
    ensures fault_kept { result ≢ 6 → fault.new ≡ fault.old }
{
    let Making { inner } = Box::into_inner(held.into_box());
    match inner.finish(alloc) {
        Ok(bytes) => {
            *out = Bytes {
                bytes: bytes.leak(),
            };
            0
        }
        Err(FinishError::Call(failure)) => status_of(failure),
        Err(FinishError::Rows(RowsError::Memory)) => 2,
        Err(FinishError::Rows(RowsError::TooLarge)) => 3,
        Err(FinishError::Rows(RowsError::NoTile(found))) => {
            *fault = row_of(found);
            6
        }
    }
}

/// Gives a builder back (`mvt_builder_free`).
#[unsafe(no_mangle)]
pub extern "C" fn mvt_making_free(held: HeldBuilder) {
    drop(held);
}
