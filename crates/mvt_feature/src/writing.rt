//! Values and features in their canonical spelling.
ghost use Rattle.std.specs.Prelude.{◌≡◌, ◌⊎◌, ◌<◌, [], ◌∷◌, ◌++◌, ℕ, length, OnOk, OnErr, IsErrOf};
ghost use Rattle.mvt_base.specs.Related.{Extends};
ghost use Rattle.mvt_attrs.specs.Pools.{key_pool, value_pool};
ghost use Rattle.mvt_attrs.specs.Using.{AreToldUpTo, AreUsedUpTo, HasNoneAdded, IsUsedUpAt, used_of};
ghost use Rattle.mvt_geometry.specs.Valid.{IsValid};
ghost use Rattle.mvt_wire.specs.Field.{bytes as in_bytes};
ghost use Rattle.mvt_wire.specs.Spelling.{spelled};
ghost use Rattle.mvt_feature.specs.declared.numbers.feature.TheConstants.{GEOMETRY};
ghost use Rattle.mvt_feature.specs.Canonical.{plain, value_fields, id_fields, tags_fields, type_fields, drawing_fields, type_number as the_type_number};
ghost use Rattle.mvt_feature.specs.Copying.{packed_tags, parts_fields};
ghost use Rattle.mvt_feature.specs.Rewriting.{IsRewritten};

use crate::canonical_feature::Parts;
use crate::feature::Feature;
use crate::numbers::{feature, value};
use crate::scratch::Scratch;
use mvt_attrs::{LayerEntries, PoolError, ValueRef};
use mvt_base::LIMIT;
use mvt_geometry::{Kind, append_geometry, kind_of};
use mvt_wire::{PackedNumbers, Payload, field_len, put_field, put_packed, varint_len, zigzag64};
use std::alloc::AllocError;
use std::mem::swap;

/// Appends the payload of a value.
///
/// # Errors
///
/// When memory runs out; the list is then unchanged.
pub fn append_value(out: &mut Vec<u8>, value: &ValueRef<'_>) -> Result<(), AllocError>
    ensures ok { OnOk result (out.new.items ≡ out.old.items ++ spelled (value_fields value.now)) }
    ensures err { OnErr result (out.new.items ≡ out.old.items) }
{
    match value {
        ValueRef::Text(text) => put_field(
            out,
            value::STRING,
            &Payload::Len(text.as_str().as_bytes()),
        ),
        ValueRef::Float(bits) => put_field(out, value::FLOAT, &Payload::I32(*bits)),
        ValueRef::Double(bits) => put_field(out, value::DOUBLE, &Payload::I64(*bits)),
        ValueRef::Int(number) => put_field(
            out,
            value::INT,
            &Payload::Varint(number.cast_unsigned()),
        ),
        ValueRef::Uint(number) => put_field(out, value::UINT, &Payload::Varint(*number)),
        ValueRef::Sint(number) => put_field(out, value::SINT, &Payload::Varint(zigzag64(*number))),
        ValueRef::Bool(truth) => put_field(out, value::BOOL, &Payload::Varint(u64::from(*truth))),
    }
}

/// How long the payload of a value is.
pub fn value_len(value: &ValueRef<'_>) -> u64
    ensures { result ≡ length (spelled (value_fields value.now)) }
{
    match value {
        ValueRef::Text(text) => field_len(value::STRING, text.as_str().len() as u64),
        ValueRef::Float(_) => 5,
        ValueRef::Double(_) => 9,
        ValueRef::Int(number) => 1 + varint_len(number.cast_unsigned()) as u64,
        ValueRef::Uint(number) => 1 + varint_len(*number) as u64,
        ValueRef::Sint(number) => 1 + varint_len(zigzag64(*number)) as u64,
        ValueRef::Bool(_) => 2,
    }
}

/// Appends the canonical payload of a feature, in a layer of these uses to which no key and no
/// value was added. Those that are new are used last; a tag stays what it is while others follow.
///
/// # Errors
///
/// When memory runs out, or more keys or values are used than a pool may hold. The keys and values
/// of the attributes up to some place are then used, and the list is unchanged or longer.
pub fn append_feature<'a>(
    feature: &'a Feature,
    uses: &mut LayerEntries<'a>,
    scratch: &mut Scratch,
    out: &mut Vec<u8>,
) -> Result<(), PoolError>
    requires { IsValid feature.now.geometry }
    ensures feature { HasNoneAdded uses.old → OnOk result
        (IsRewritten feature.now uses.old uses.new out.old.items out.new.items) }
    ensures uses { HasNoneAdded uses.old → HasNoneAdded uses.new }
    ensures kept { HasNoneAdded uses.old
        → OnErr result ((n : ℕ) × AreUsedUpTo n feature.now.attributes uses.old uses.new) }
    ensures left { OnErr result (Extends out.old.items out.new.items) }

    // `Full` says that an entry was new where as many are used as may be, `Memory` that none was.
    ensures full { HasNoneAdded uses.old → IsErrOf result PoolError.Full
        → (length (used_of uses.new.keys) ≡ LIMIT) ⊎ (length (used_of uses.new.values) ≡ LIMIT) }
    ensures too_many { HasNoneAdded uses.old → IsErrOf result PoolError.Full →
        (LIMIT < length (key_pool (used_of uses.old.keys) feature.now.attributes))
        ⊎ (LIMIT < length (value_pool (used_of uses.old.values) feature.now.attributes)) }
    ensures memory { HasNoneAdded uses.old → IsErrOf result PoolError.Memory → (n : ℕ)
        × AreToldUpTo n feature.now.attributes uses.old uses.new
        × ¬ (IsUsedUpAt n feature.now.attributes uses.new) }
{
    swap(&mut scratch.tags, &mut scratch.written_tags);
    scratch.tags.clear();
    scratch.written_integers.clear();
    uses.append_attributes(
        feature.attributes.as_slice(),
        &scratch.written_tags,
        &mut scratch.tags,
    )?;
    append_geometry(&feature.geometry, &mut scratch.written_integers)?;
    append_fields(
        out,
        feature.id,
        &scratch.tags,
        kind_of(&feature.geometry),
        &scratch.written_integers,
    )?;
    Ok(())
}

/// Appends the fields of a feature with this id, these tags and this geometry.
pub(crate) fn append_fields(
    out: &mut Vec<u8>,
    id: Option<u64>,
    tags: &[u32],
    kind: Kind,
    integers: &PackedNumbers,
) -> Result<(), AllocError>
    ensures ok { OnOk result (out.new.items ≡ out.old.items
        ++ spelled (id_fields id ++ (tags_fields tags.now ++ drawing_fields kind integers.now))) }
    ensures left { OnErr result (Extends out.old.items out.new.items) }
{
    append_packed(out, id, tags, kind, integers.as_bytes())
}

/// The same for a geometry of this type, whose integers are packed in these bytes.
pub(crate) fn append_packed(
    out: &mut Vec<u8>,
    id: Option<u64>,
    tags: &[u32],
    kind: Kind,
    integers: &[u8],
) -> Result<(), AllocError>
    ensures ok { OnOk result (out.new.items ≡ out.old.items
        ++ spelled (id_fields id ++ (tags_fields tags.now ++ (type_fields kind
        ++ plain GEOMETRY (in_bytes integers.now) ∷ [])))) }
    ensures left { OnErr result (Extends out.old.items out.new.items) }
{
    append_front(out, id, tags, kind)?;
    put_field(out, feature::GEOMETRY, &Payload::Len(integers))
}

/// The same of a feature's parts, as they stand.
pub(crate) fn append_parts(out: &mut Vec<u8>, parts: &Parts<'_>) -> Result<(), AllocError>
    ensures ok { OnOk result (out.new.items ≡ out.old.items ++ spelled (parts_fields parts.now)) }
    ensures left { OnErr result (Extends out.old.items out.new.items) }
{
    append_id(out, parts.id)?;
    append_packed_tags(out, parts.tags)?;
    append_kind(out, parts.kind)?;
    put_field(out, feature::GEOMETRY, &Payload::Len(parts.integers))
}

fn append_packed_tags(out: &mut Vec<u8>, packed: &[u8]) -> Result<(), AllocError>
    ensures ok { OnOk result (out.new.items ≡ out.old.items ++ spelled (packed_tags packed.now)) }
    ensures err { OnErr result (out.new.items ≡ out.old.items) }
{
    if packed.is_empty() {
        return Ok(());
    }
    put_field(out, feature::TAGS, &Payload::Len(packed))
}

/// Appends what stands before the integers of a feature: its id, its tags and its type.
pub(crate) fn append_front(
    out: &mut Vec<u8>,
    id: Option<u64>,
    tags: &[u32],
    kind: Kind,
) -> Result<(), AllocError>
    ensures ok { OnOk result (out.new.items ≡ out.old.items
        ++ spelled (id_fields id ++ (tags_fields tags.now ++ type_fields kind))) }
    ensures left { OnErr result (Extends out.old.items out.new.items) }
{
    append_id(out, id)?;
    append_tags_field(out, tags)?;
    append_kind(out, kind)
}

fn append_id(out: &mut Vec<u8>, id: Option<u64>) -> Result<(), AllocError>
    ensures ok { OnOk result (out.new.items ≡ out.old.items ++ spelled (id_fields id)) }
    ensures err { OnErr result (out.new.items ≡ out.old.items) }
{
    match id {
        Some(id) => put_field(out, feature::ID, &Payload::Varint(id)),
        None => Ok(()),
    }
}

fn append_tags_field(out: &mut Vec<u8>, tags: &[u32]) -> Result<(), AllocError>
    ensures ok { OnOk result (out.new.items ≡ out.old.items ++ spelled (tags_fields tags.now)) }
    ensures err { OnErr result (out.new.items ≡ out.old.items) }
{
    if tags.is_empty() {
        return Ok(());
    }
    put_packed(out, feature::TAGS, tags)
}

fn append_kind(out: &mut Vec<u8>, kind: Kind) -> Result<(), AllocError>
    ensures ok { OnOk result (out.new.items ≡ out.old.items ++ spelled (type_fields kind)) }
    ensures err { OnErr result (out.new.items ≡ out.old.items) }
{
    put_field(out, feature::TYPE, &Payload::Varint(type_number(kind)))
}

fn type_number(kind: Kind) -> u64
    ensures { result ≡ the_type_number kind }
{
    match kind {
        Kind::Unknown => 0,
        Kind::Point => 1,
        Kind::LineString => 2,
        Kind::Polygon => 3,
    }
}
