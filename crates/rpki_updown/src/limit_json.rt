//! Limits as JSON objects.

ghost use Rattle.std.specs.Prelude.{◌≡◌, ◌↔◌, Some, None, IfOk, IsErrOf, IsTrue, string_bytes};
ghost use Rattle.std.specs.BTreeMap.{keys};
ghost use Rattle.std.specs.List.{All};
ghost use Rattle.std.specs.Option.{option_map};
ghost use Rattle.serde_json.specs.Find.{as_object};
ghost use Rattle.serde_json.specs.View.{view};
ghost use Rattle.rpki_sets.specs.Kinds.{blocks_of};
ghost use Rattle.rpki_updown.specs.LimitJson.{stated_in as states, stated as states_by, is_limit_name as tells_name, are_limit_names, limit_stated as states_limit, limit_of_value as limit_of, limit_of_json};

use crate::request_resource_limit::RequestResourceLimit;
use rpki_sets::{Blocks, BlocksError, Numbers};
use rpki_text::{JsonError, read_value};
use serde_json::{Map, Value};
use std::alloc::Global;

/// # JSON
impl RequestResourceLimit {
    /// The limit that a JSON text states: an object with no other members than `asn`, `ipv4` or `v4`, and `ipv6` or `v6`. Each is a
    /// string: `none` for no limit, or the text of a set; where it is absent nothing is limited.
    ///
    /// Malformed exactly where the text is no JSON or no such object, or where both names of a kind are there. Of members of one name
    /// the last counts.
    pub fn from_json(alloc: Global, text: &str) -> Result<RequestResourceLimit, JsonError>
        ensures value { IfOk result (λ l. limit_of_json text.now ≡ Some l) }
        ensures malformed { IsErrOf result JsonError.Malformed → limit_of_json text.now ≡ None }
    {
        let value = read_value(alloc, text)?;
        limit_of_value(alloc, &value)
    }
}

// The limit that a value states.
fn limit_of_value(alloc: Global, value: &Value) -> Result<RequestResourceLimit, JsonError>
    ensures value { IfOk result (λ l. limit_of (view value.now) ≡ Some l) }
    ensures malformed { IsErrOf result JsonError.Malformed → limit_of (view value.now) ≡ None }
{
    if is_limit(value) {
        limit_stated(alloc, value)
    } else {
        Err(JsonError::Malformed)
    }
}

// Whether a value is an object with no other members.
fn is_limit(value: &Value) -> bool
    ensures { result ≡ are_limit_names (as_object (view value.now)) }
{
    match value.as_object() {
        Some(members) => have_limit_names(members),
        None => false,
    }
}

// Whether each member has a name that a limit's members have.
fn have_limit_names(members: &Map<String, Value>) -> bool
    ensures { IsTrue result ↔ All (λ name. IsTrue (tells_name (string_bytes name)))
        (keys members.now) }
{
    members.keys().all(|name| is_limit_name(name.as_str()))
}

// Whether a limit's members have this name.
fn is_limit_name(name: &str) -> bool
    ensures { result ≡ tells_name name.now }
{
    name == "asn" || name == "ipv4" || name == "v4" || name == "ipv6" || name == "v6"
}

// What an object states of the three kinds.
fn limit_stated(alloc: Global, value: &Value) -> Result<RequestResourceLimit, JsonError>
    ensures value { IfOk result (λ l. states_limit (view value.now) ≡ Some l) }
    ensures malformed { IsErrOf result JsonError.Malformed → states_limit (view value.now) ≡ None }
{
    let asn = stated(alloc, value.get("asn"), None)?;
    let ipv4 = stated(alloc, value.get("ipv4"), value.get("v4"))?;
    let ipv6 = stated(alloc, value.get("ipv6"), value.get("v6"))?;
    Ok(RequestResourceLimit::from_parts(asn, ipv4, ipv6))
}

// What the member of a kind states, which is given under either of its names.
fn stated<N: Numbers>(
    alloc: Global,
    value: Option<&Value>,
    other: Option<&Value>,
) -> Result<Option<Blocks<N>>, JsonError>
    ensures value { IfOk result (λ b. states_by (blocks_of N.kind)
        (option_map (λ v. view v.now) value.entry) (option_map (λ v. view v.now) other.entry)
        ≡ Some b) }
    ensures malformed { IsErrOf result JsonError.Malformed → states_by (blocks_of N.kind)
        (option_map (λ v. view v.now) value.entry) (option_map (λ v. view v.now) other.entry)
        ≡ None }
{
    match (value, other) {
        (None, None) => Ok(None),
        (Some(value), None) => stated_in(alloc, value),
        (None, Some(value)) => stated_in(alloc, value),
        (Some(_), Some(_)) => Err(JsonError::Malformed),
    }
}

// What a value states of a kind.
fn stated_in<N: Numbers>(alloc: Global, value: &Value) -> Result<Option<Blocks<N>>, JsonError>
    ensures value { IfOk result (λ b. states (blocks_of N.kind) (view value.now) ≡ Some b) }
    ensures malformed { IsErrOf result JsonError.Malformed
        → states (blocks_of N.kind) (view value.now) ≡ None }
{
    let Some(text) = value.as_str() else {
        return Err(JsonError::Malformed);
    };
    if text == "none" {
        return Ok(None);
    }
    match Blocks::from_str(alloc, text) {
        Ok(set) => Ok(Some(set)),
        Err(BlocksError::Malformed) => Err(JsonError::Malformed),
        Err(BlocksError::OutOfMemory) => Err(JsonError::OutOfMemory),
    }
}
