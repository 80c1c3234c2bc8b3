//! Serial numbers that a signer draws.

ghost use Rattle.std.specs.Prelude.{MatchResult, IsErrOf};
ghost use Rattle.rpki_signer.specs.Signer.{Stays, CallFails, AreDistinct};
ghost use Rattle.rpki_signer.specs.Serials.{IsSerialDrawn};

use crate::errors::CallError;
use crate::signer::Signer;
use rpki_base::{Scheme, Serial};

/// A serial number of twenty random octets, of which the first bit is cleared. It takes no memory.
pub fn random_serial<P: Scheme, S: Signer<P>>(signer: &mut S) -> Result<Serial, CallError<S::Error>>
    ensures serial { MatchResult result
        (IsSerialDrawn (S.state signer.old) (S.state signer.new))
        (λ e. Stays (S.state signer.old) (S.state signer.new)
        × CallFails (S.state signer.old) (S.state signer.new) e) }
    ensures no_memory { IsErrOf result CallError.OutOfMemory → ⊥ }
    ensures distinct { AreDistinct (S.state signer.new).keyring }
{
    let mut octets = [0u8; 20];
    signer.rand(&mut octets)?;
    octets[0] &= 0x7F;
    Ok(Serial::from(octets))
}
