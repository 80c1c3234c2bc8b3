//! Messages that stand in the lines of an input.

ghost use Rattle.std.specs.Prelude.{IfOk, IfSome, IsNone, map};
ghost use Rattle.rpki_ca.specs.Sent.{AreNotSent, AreSent};

use crate::lines::{Lines, spelled_octets};
use rpki_common::OutOfMemory;
use std::alloc::Global;

/// The octets that the lines spell, two hexadecimal digits of either case an octet. None exactly where
/// some line is no even number of digits.
pub fn messages_in(alloc: Global, lines: Lines<'_>) -> Result<Option<Vec<Vec<u8>>>, OutOfMemory>
    ensures some { IfOk result (λ o. IfSome o (λ messages.
        AreSent lines.entry (map (λ m. m.items) messages.items))) }
    ensures none { IfOk result (λ o. IsNone o → AreNotSent lines.entry) }
{
    let mut messages = Vec::new(alloc);
    for line in lines {
        match spelled_octets(alloc, line)? {
            Some(octets) => messages.push(octets)?,
            None => return Ok(None),
        }
    }
    Ok(Some(messages))
}
