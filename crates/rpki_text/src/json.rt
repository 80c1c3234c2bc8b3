//! JSON texts, and those that are one string.

ghost use Rattle.std.specs.Prelude.{◌≡◌, ◌<◌, Some, None, IfOk, IsErrOf, length, string_bytes};
ghost use Rattle.serde_json.specs.Data.{string};
ghost use Rattle.serde_json.specs.Read.{read};
ghost use Rattle.serde_json.specs.View.{view};
ghost use Rattle.serde_json.specs.Written.{compact_text};
ghost use Rattle.rpki_text.specs.Json.{IsCauseOf, string_of_json};
ghost use Rattle.rpki_text.specs.declared.json.JsonError.TheVariants as variant;

use rpki_common::OutOfMemory;
use serde_json::Value;
use std::alloc::{AllocError, AllocFailed, Global};
use thiserror::Error;

/// Why a JSON text was not read.
#[derive(Clone, Copy, Debug, PartialEq, Eq, Error)]
pub enum JsonError {
    /// The text is no JSON, it is not of the right kind, or what it holds is no value of the type.
    #[error("malformed JSON")]
    Malformed,
    /// Memory ran out.
    #[error("out of memory")]
    OutOfMemory,
}

impl From<AllocError> for JsonError {
    ghost from_gives = { λ _ e. e ≡ variant.OutOfMemory };

    fn from(_: AllocError) -> JsonError {
        JsonError::OutOfMemory
    }
}

impl From<OutOfMemory> for JsonError {
    ghost from_gives = { λ _ e. e ≡ variant.OutOfMemory };

    fn from(_: OutOfMemory) -> JsonError {
        JsonError::OutOfMemory
    }
}

impl<T: Drop> From<AllocFailed<T>> for JsonError {
    ghost from_gives = { λ _ e. e ≡ variant.OutOfMemory };

    fn from(_: AllocFailed<T>) -> JsonError {
        JsonError::OutOfMemory
    }
}

impl From<serde_json::Error> for JsonError {
    ghost from_gives = { IsCauseOf };

    fn from(error: serde_json::Error) -> JsonError {
        if error.is_memory() {
            JsonError::OutOfMemory
        } else {
            JsonError::Malformed
        }
    }
}

/// The value of a JSON text (RFC 8259), in which arrays and objects nest up to 127 deep. Of members
/// of one name the last counts. Malformed exactly where the text is none, a number in it is larger than a
/// float can hold, or a surrogate stands alone in it. The empty text takes no memory.
pub fn read_value(alloc: Global, text: &str) -> Result<Value, JsonError>
    ensures ok { IfOk result (λ v. read text.now ≡ Some (view v)) }
    ensures malformed { IsErrOf result JsonError.Malformed → read text.now ≡ None }
    ensures memory { IsErrOf result JsonError.OutOfMemory → 0 < length text.now }
{
    Ok(Value::from_str(alloc, text)?)
}

/// The string that a JSON text is. Malformed exactly where it is none, or a surrogate stands alone in it.
pub fn read_string(alloc: Global, text: &str) -> Result<String, JsonError>
    ensures ok { IfOk result (λ s. string_of_json text.now ≡ Some (string_bytes s)) }
    ensures malformed { IsErrOf result JsonError.Malformed → string_of_json text.now ≡ None }
{
    let value = read_value(alloc, text)?;
    match value.as_str() {
        Some(found) => Ok(String::from_str(alloc, found)?),
        None => Err(JsonError::Malformed),
    }
}

/// The JSON text of a string, which is read as that string.
pub fn write_string(alloc: Global, text: &str) -> Result<String, OutOfMemory>
    ensures exact { IfOk result (λ s. string_bytes s ≡ compact_text (string text.now)) }
    ensures again { IfOk result (λ s. string_of_json (string_bytes s) ≡ Some text.now) }
{
    let value = Value::try_from_str(alloc, text)?;
    Ok(value.to_string(alloc)?)
}
