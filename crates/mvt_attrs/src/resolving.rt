//! Tags resolved to the attributes that they name.
ghost use Rattle.std.specs.Prelude.{◌≡◌, length, None, IfOk, IfErr, OnOk};
ghost use Rattle.mvt_base.specs.Reports.{Reports};
ghost use Rattle.mvt_attrs.specs.Tags.{Resolved};
ghost use Rattle.mvt_attrs.specs.TagRules.{tag_fault, fault_of};

use crate::judging::judge_tags;
use crate::layer_keys::LayerKeys;
use crate::texts::{lend_texts, texts_of};
use crate::value::{Attribute, Value};
use mvt_base::Text;
use std::alloc::{AllocError, Global};
use std::error::Error;
use std::fmt;

/// The rule that a feature's tags break (4.4).
#[derive(Debug, Clone, Copy, PartialEq, Eq)]
pub enum TagCause {
    /// The number of tags is odd.
    OddTags,
    /// No key has this index.
    KeyIndex,
    /// No value has this index.
    ValueIndex,
    /// An earlier pair has this key, or one of the same text.
    RepeatedKey,
}

/// Why tags name no attributes.
#[derive(Debug, Drop, PartialEq, Eq)]
pub enum TagError {
    /// A growth was refused memory.
    Memory,
    /// The first broken rule, at an index into the tags; for `OddTags` their number.
    Fault { index: usize, cause: TagCause },
}

impl From<AllocError> for TagError {
    ghost use Rattle.std.specs.Prelude.{◌≡◌};
    ghost use Rattle.mvt_attrs.specs.declared.resolving.TagError.TheVariants.{Memory};

    ghost from_gives = { λ _ error. error ≡ Memory };

    fn from(_: AllocError) -> Self {
        TagError::Memory
    }
}

impl fmt::Display for TagCause {
    ghost use Rattle.std.specs.Prelude.{Some};
    ghost use Rattle.mvt_attrs.specs.Texts.{cause_name};

    ghost output = { λ cause. Some (cause_name cause) };

    fn fmt<W: fmt::Write>(&self, f: &mut fmt::Formatter<W>) -> fmt::Result {
        f.write_str(match self {
            TagCause::OddTags => "OddTags",
            TagCause::KeyIndex => "KeyIndex",
            TagCause::ValueIndex => "ValueIndex",
            TagCause::RepeatedKey => "RepeatedKey",
        })
    }
}

impl fmt::Display for TagError {
    ghost use Rattle.std.specs.Prelude.{Some};
    ghost use Rattle.mvt_attrs.specs.Texts.{tag_error_text};

    ghost output = { λ error. Some (tag_error_text error) };

    fn fmt<W: fmt::Write>(&self, f: &mut fmt::Formatter<W>) -> fmt::Result {
        match self {
            TagError::Memory => f.write_str("out of memory"),
            TagError::Fault { index, cause } => write!(f, "{cause} at {index}"),
        }
    }
}

impl Error for TagError {}

/// The attributes that a feature's tags name, in order (4.4).
///
/// For many features of one layer use `resolve_in`, which groups the keys once.
///
/// # Errors
///
/// The first broken rule, with its index into the tags; or memory runs out, perhaps before a fault
/// is found.
pub fn resolve(
    alloc: Global,
    keys: &[Text],
    values: &[Value],
    tags: &[u32],
) -> Result<Vec<Attribute>, TagError>
    ensures attributes { IfOk result (λ found. Resolved keys.now values.now tags.now found.items) }
    ensures ok { OnOk result (tag_fault keys.now values.now tags.now ≡ None) }
    ensures err { IfErr result (λ error. Reports (fault_of error)
        (tag_fault keys.now values.now tags.now)) }
{
    let lent = lend_texts(alloc, keys)?;
    judge_tags(alloc, &mut LayerKeys::new(alloc, &lent), values.len(), tags)?;
    Ok(attributes_of(alloc, keys, values, tags)?)
}

/// The attributes that tags name, with keys that are grouped once a layer.
///
/// Its cost then grows with the number of tags alone. All tags are judged before anything is built.
///
/// # Errors
///
/// As `resolve`.
pub fn resolve_in(
    alloc: Global,
    keys: &mut LayerKeys<'_>,
    values: &[Value],
    tags: &[u32],
) -> Result<Vec<Attribute>, TagError>
    ensures attributes { IfOk result (λ found. Resolved keys.old values.now tags.now found.items) }
    ensures ok { OnOk result (tag_fault keys.old values.now tags.now ≡ None) }
    ensures err { IfErr result (λ error. Reports (fault_of error)
        (tag_fault keys.old values.now tags.now)) }
    ensures same { keys.new ≡ keys.old }
{
    judge_tags(alloc, keys, values.len(), tags)?;
    if !keys.is_kept {
        keys.kept = texts_of(alloc, keys.texts)?;
        keys.is_kept = true;
    }
    Ok(attributes_of(alloc, &keys.kept, values, tags)?)
}

/// The attributes that tags name which keep all rules.
fn attributes_of(
    alloc: Global,
    texts: &[Text],
    values: &[Value],
    tags: &[u32],
) -> Result<Vec<Attribute>, AllocError>
    requires { tag_fault texts.now values.now tags.now ≡ None }
    ensures { IfOk result (λ found. Resolved texts.now values.now tags.now found.items) }
{
    let mut attributes = Vec::with_capacity(alloc, tags.len() / 2)?;
    let mut rest = tags;
    while let [key, value, others @ ..] = rest {
        attributes.push(Attribute {
            key: texts[*key as usize].copy(alloc)?,
            value: values[*value as usize].copy(alloc)?,
        })?;
        rest = others;
    }
    Ok(attributes)
}
