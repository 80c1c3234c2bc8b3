//! Hexadecimal.

ghost use Rattle.std.specs.Prelude.{◌≡◌, ◌≢◌, ◌∷◌, ◌++◌, [], Decides, IfOk, IfErr, IfSome, IsNone, Some, None};
ghost use Rattle.std.specs.Result.{result_ok};
ghost use Rattle.hex.specs.Hex.{decode_of, encode_lower};
ghost use Rattle.rpki_ca.specs.Hexadecimal.{digits_of, hexadecimal};

use crate::refusals::Refusal;
use hex::FromHexError;
use rpki_common::OutOfMemory;
use std::alloc::Global;

fn is_memory(error: FromHexError) -> bool
    ensures { Decides result (error ≡ FromHexError.OutOfMemory) }
{
    match error {
        FromHexError::OutOfMemory => true,
        _ => false,
    }
}

/// The octets that the digits spell, two digits of either case an octet; None where they are no
/// even number of digits.
pub(crate) fn octets_of(alloc: Global, digits: &[u8]) -> Result<Option<Vec<u8>>, OutOfMemory>
    ensures some { IfOk result (λ o.
        IfSome o (λ v. result_ok (decode_of digits.now) ≡ Some v.items)) }
    ensures none { IfOk result (λ o. IsNone o → result_ok (decode_of digits.now) ≡ None) }
{
    match hex::decode(alloc, digits) {
        Ok(octets) => Ok(Some(octets)),
        Err(error) => {
            if is_memory(error) {
                return Err(OutOfMemory);
            }
            Ok(None)
        }
    }
}

// The input without a line feed at its end.
fn digits(input: &[u8]) -> &[u8]
    ensures { result.now ≡ digits_of input.now }
{
    match input {
        [digits @ .., b'\n'] => digits,
        _ => input,
    }
}

/// The octets that an input spells, two hexadecimal digits of either case an octet, and a line feed
/// behind them or none. Hex exactly where it is no such input. The input is gone then.
pub fn input_octets(alloc: Global, input: Vec<u8>) -> Result<Vec<u8>, Refusal>
    ensures ok { IfOk result (λ v. hexadecimal input.items ≡ Some v.items) }
    ensures err { IfErr result (λ e. e ≢ Refusal.OutOfMemory
        → (e ≡ Refusal.Hex) × (hexadecimal input.items ≡ None)) }
{
    match octets_of(alloc, digits(&input))? {
        Some(octets) => Ok(octets),
        None => Err(Refusal::Hex),
    }
}

/// The line that spells the octets: two hexadecimal digits of lower case an octet, and a line feed.
pub fn hexadecimal_line(alloc: Global, octets: &[u8]) -> Result<Vec<u8>, OutOfMemory>
    ensures { IfOk result (λ line. line.items ≡ encode_lower octets.now ++ 10 ∷ []) }
{
    let mut line = hex::encode(alloc, octets)?.into_bytes();
    line.push(b'\n')?;
    Ok(line)
}
