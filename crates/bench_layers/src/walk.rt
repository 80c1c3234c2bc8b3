//! A cursor goes through a value, level by level.

ghost use Rattle.std.specs.Prelude.{◌≡◌, ◌≤◌, List, ℕ, length, true, false, IfOk, OnOk, Ok, Err};
ghost use Rattle.rpki_der.specs.declared.mode.Mode.TheVariants.{Ber};
ghost use Rattle.rpki_der.specs.Value.{Value, Begins};
ghost use Rattle.rpki_der.specs.Part.{NoValue};
ghost use Rattle.bench_layers.specs.Onward.{GoesOn};

use rpki_der::{Cursor, DecodeError, Mode, Tag};
use std::alloc::Global;

// Goes into the constructed value with this tag that stands next. The answer is whether one stands there.
fn enters(cursor: &mut Cursor<'_>, tag: Tag) -> Result<bool, DecodeError>
    ensures gone { result ≡ Ok true → GoesOn cursor.old cursor.new }
    ensures kept { result ≡ Ok false → cursor.new ≡ cursor.old }
    ensures memory { result ≡ Err DecodeError.Malformed → ⊥ }
{
    match cursor.enter(tag) {
        Ok(()) => Ok(true),
        Err(DecodeError::Malformed) => Ok(false),
        Err(DecodeError::OutOfMemory) => Err(DecodeError::OutOfMemory),
    }
}

// Goes into the SEQUENCE or the constructed OCTET STRING that stands next, or takes another value whole.
fn go_on(cursor: &mut Cursor<'_>) -> Result<(), DecodeError>
    ensures ok { OnOk result (GoesOn cursor.old cursor.new) }
    ensures malformed { result ≡ Err DecodeError.Malformed
        → NoValue cursor.old.mode cursor.old.here }
{
    if enters(cursor, Tag::SEQUENCE)? || enters(cursor, Tag::OCTET_STRING)? {
        return Ok(());
    }
    match cursor.next_value() {
        Ok(Some(_)) => Ok(()),
        Ok(None) => Err(DecodeError::Malformed),
        Err(error) => Err(error),
    }
}

/// How many values a walk meets in the value at the beginning of `octets`, in BER: each that it enters or takes whole. It
/// enters each SEQUENCE and each constructed OCTET STRING, and leaves it at its end. Malformed exactly where no value begins
/// the octets.
pub fn values_met(alloc: Global, octets: &[u8]) -> Result<usize, DecodeError>
    ensures ok { IfOk result (λ count. (v : Value) × (rest : List ℕ) × Begins Ber octets.now v rest
        × (1 ≤ count) × (count ≤ length octets.now)) }
    ensures malformed { result ≡ Err DecodeError.Malformed → NoValue Ber octets.now }
{
    let mut cursor = Cursor::new(alloc, Mode::Ber, octets);
    go_on(&mut cursor)?;
    let mut count = 1;
    'levels: while cursor.depth() > 0 {
        if cursor.end() {
            cursor.leave()?;
        } else {
            go_on(&mut cursor)?;
            count += 1;
        }
    }
    Ok(count)
}
