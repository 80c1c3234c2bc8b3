//! Octets of the answers.

ghost use Rattle.std.specs.Prelude.{◌≡◌, IfOk};
ghost use Rattle.rpki_base.specs.PublicKey.{spelled_key};

use rpki_base::PublicKey;
use rpki_common::OutOfMemory;
use rpki_der::Writer;
use std::alloc::Global;

/// Equal octets.
pub(crate) fn copied(alloc: Global, octets: &[u8]) -> Result<Vec<u8>, OutOfMemory>
    ensures { IfOk result (λ v. v.items ≡ octets.now) }
{
    Ok(Vec::from_slice(alloc, octets)?)
}

/// The key in DER.
pub(crate) fn key_octets(alloc: Global, key: &PublicKey) -> Result<Vec<u8>, OutOfMemory>
    ensures { IfOk result (λ octets. octets.items ≡ spelled_key key.now) }
{
    let mut out = Writer::new(alloc);
    key.encode_ref(&mut out)?;
    copied(alloc, out.as_slice())
}
