//! What has a form in JSON, as a value and as a text.
ghost use Rattle.std.specs.Prelude.{◌≡◌, ◌∷◌, ◌++◌, IfOk, OnOk, codes, string_bytes};
ghost use Rattle.std.specs.List.{flat_map};
ghost use Rattle.serde_json.specs.Data.{Data};
ghost use Rattle.serde_json.specs.View.{view};
ghost use Rattle.serde_json.specs.Written.{compact_text};
ghost use Rattle.mvt_view.specs.JsonForms.{alone as alone_json, each, id_json};

use crate::quoted::push_quoted;
use crate::view_error::ViewError;
use itoa::Buffer;
use mvt_base::{Items, Text};
use serde_json::{Value as Json, json};
use std::alloc::{AllocError, Global};

/// A part of a tile that has a form in JSON.
pub(crate) trait JsonPart {
    ghost form: { Self → Data };

    fn to_json(&self, alloc: Global) -> Result<Json, AllocError>
        ensures { IfOk result (λ v. view v ≡ form self.now) };

    /// Appends the text of that form, with no space in it.
    fn push(&self, alloc: Global, text: &mut String) -> Result<(), ViewError>
        ensures { OnOk result (string_bytes text.new
            ≡ string_bytes text.old ++ compact_text (form self.now)) };
}

/// An object of one member.
pub(crate) fn alone(alloc: Global, key: &str, value: Json) -> Result<Json, AllocError>
    ensures { IfOk result (λ v. view v ≡ alone_json key.now (view value)) }
{
    json!(in alloc; {key: value})
}

/// Appends the text of an object of one member, which begins with this.
pub(crate) fn push_alone<T: JsonPart>(
    alloc: Global,
    text: &mut String,
    opening: &str,
    value: &T,
) -> Result<(), ViewError>
    ensures { OnOk result (string_bytes text.new ≡ string_bytes text.old
        ++ (opening.now ++ (compact_text (T.form value.now) ++ codes "}"))) }
{
    text.push_str(opening)?;
    value.push(alloc, text)?;
    Ok(text.push_str("}")?)
}

/// Appends the texts of entries, each after a comma.
fn push_more<T: JsonPart>(alloc: Global, text: &mut String, entries: &[T]) -> Result<(), ViewError>
    ensures { OnOk result (string_bytes text.new ≡ string_bytes text.old
        ++ flat_map (λ x. 44 ∷ compact_text (T.form x)) entries.now) }
{
    for entry in entries {
        text.push_str(",")?;
        entry.push(alloc, text)?;
    }
    Ok(())
}

impl<T: JsonPart> JsonPart for Items<T> {
    ghost form = { each T.form };

    fn to_json(&self, alloc: Global) -> Result<Json, AllocError> {
        let entries = self.as_slice();
        let mut list = Vec::with_capacity(alloc, entries.len())?;
        for entry in entries {
            list.push(entry.to_json(alloc)?)?;
        }
        Ok(Json::Array(list))
    }

    fn push(&self, alloc: Global, text: &mut String) -> Result<(), ViewError> {
        match self.as_slice() {
            [] => Ok(text.push_str("[]")?),
            [first, rest @ ..] => {
                text.push_str("[")?;
                first.push(alloc, text)?;
                push_more(alloc, text, rest)?;
                Ok(text.push_str("]")?)
            }
        }
    }
}

impl JsonPart for Text {
    ghost use Rattle.serde_json.specs.Data.{string};

    ghost form = { string };

    fn to_json(&self, alloc: Global) -> Result<Json, AllocError> {
        Json::try_from_str(alloc, self.as_str())
    }

    fn push(&self, _alloc: Global, text: &mut String) -> Result<(), ViewError> {
        Ok(push_quoted(text, self.as_str())?)
    }
}

impl JsonPart for bool {
    ghost use Rattle.serde_json.specs.Data.{boolean};

    ghost form = { boolean };

    fn to_json(&self, _alloc: Global) -> Result<Json, AllocError> {
        Ok(Json::Bool(*self))
    }

    fn push(&self, _alloc: Global, text: &mut String) -> Result<(), ViewError> {
        Ok(text.push_str(if *self { "true" } else { "false" })?)
    }
}

impl JsonPart for u32 {
    ghost use Rattle.mvt_view.specs.JsonForms.{number_json};

    ghost form = { number_json };

    fn to_json(&self, _alloc: Global) -> Result<Json, AllocError> {
        Ok(Json::from(*self))
    }

    fn push(&self, _alloc: Global, text: &mut String) -> Result<(), ViewError> {
        Ok(text.push_str(Buffer::new().format(*self))?)
    }
}

impl JsonPart for u64 {
    ghost use Rattle.mvt_view.specs.JsonForms.{number_json};

    ghost form = { number_json };

    fn to_json(&self, _alloc: Global) -> Result<Json, AllocError> {
        Ok(Json::from(*self))
    }

    fn push(&self, _alloc: Global, text: &mut String) -> Result<(), ViewError> {
        Ok(text.push_str(Buffer::new().format(*self))?)
    }
}

impl JsonPart for i32 {
    ghost use Rattle.serde_json.specs.Data.{number};
    ghost use Rattle.serde_json.specs.Find.{of_integer};

    ghost form = { λ z. number (of_integer z) };

    fn to_json(&self, _alloc: Global) -> Result<Json, AllocError> {
        Ok(Json::from(*self))
    }

    #[tactic(auto, using(crate::proofs::JsonTexts::integer_text))]
    fn push(&self, _alloc: Global, text: &mut String) -> Result<(), ViewError> {
        Ok(text.push_str(Buffer::new().format(*self))?)
    }
}

impl JsonPart for i64 {
    ghost use Rattle.serde_json.specs.Data.{number};
    ghost use Rattle.serde_json.specs.Find.{of_integer};

    ghost form = { λ z. number (of_integer z) };

    fn to_json(&self, _alloc: Global) -> Result<Json, AllocError> {
        Ok(Json::from(*self))
    }

    #[tactic(auto, using(crate::proofs::JsonTexts::integer_text))]
    fn push(&self, _alloc: Global, text: &mut String) -> Result<(), ViewError> {
        Ok(text.push_str(Buffer::new().format(*self))?)
    }
}

impl JsonPart for Option<u64> {
    ghost form = { id_json };

    fn to_json(&self, alloc: Global) -> Result<Json, AllocError> {
        match self {
            Some(id) => id.to_json(alloc),
            None => Ok(Json::Null),
        }
    }

    fn push(&self, alloc: Global, text: &mut String) -> Result<(), ViewError> {
        match self {
            Some(id) => id.push(alloc, text),
            None => Ok(text.push_str("null")?),
        }
    }
}
