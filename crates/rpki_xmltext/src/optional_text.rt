//! Texts that may be absent, as tags.

ghost use Rattle.std.specs.Prelude.{◌≡◌, IfOk};
ghost use Rattle.std.specs.Option.{option_copied, option_map};
ghost use Rattle.std.specs.Rc.{rc_str_bytes};

use rpki_common::{OutOfMemory, Text};
use std::alloc::Global;
use std::rc::RcStr;

/// The text, lent, where there is one.
pub fn lent(text: &Option<Text>) -> Option<&str>
    ensures { option_copied result ≡ text.now }
{
    match text {
        None => None,
        Some(text) => Some(text.as_str()),
    }
}

/// The shared text, lent, where there is one.
pub fn shared(text: &Option<Text>) -> Option<&RcStr>
    ensures { option_map (λ t. rc_str_bytes t.now) result ≡ text.now }
{
    match text {
        None => None,
        Some(text) => Some(text.as_rc_str()),
    }
}

/// The shared text, handed out, where there is one.
pub fn handed_out(text: Option<Text>) -> Option<RcStr>
    ensures { option_map rc_str_bytes result ≡ text }
{
    match text {
        None => None,
        Some(text) => Some(text.into_rc_str()),
    }
}

/// A shared text, taken in, where there is one. It takes no memory.
pub fn taken_in(text: Option<RcStr>) -> Option<Text>
    ensures { result ≡ option_map rc_str_bytes text }
{
    match text {
        None => None,
        Some(text) => Some(Text::new(text)),
    }
}

/// An equal text that shares its octets with this one, where there is one.
pub fn cloned(alloc: Global, text: &Option<Text>) -> Result<Option<Text>, OutOfMemory>
    ensures { IfOk result (λ t. t ≡ text.now) }
{
    match text {
        None => Ok(None),
        Some(text) => Ok(Some(text.clone(alloc)?)),
    }
}
