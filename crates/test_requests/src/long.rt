//! Requests whose signature has any length, as the signer of such signatures makes them.

use crate::making::{shown, uri_of};
use rpki_base::PublicKeyFormat;
use rpki_cert::construct_rpki_ca;
use rpki_der::DecodeError;
use rpki_signer::{AnyScheme, LongSigner, Signer};
use rpki_text::uri::Rsync;
use std::alloc::Global;
use test_stored::Fields;

// The parts of an argument `COUNT REPOSITORY`: how many octets a signature has, and where the objects are to be.
fn asked_of(argument: &[u8]) -> Option<(usize, &str)> {
    let (count, repository) = std::str::from_utf8(argument).ok()?.split_once(' ')?;
    Some((count.parse::<usize>().ok()?, repository))
}

// A signer of seed 1, whose first call makes an RSA key.
fn signer_of(alloc: Global, count: usize) -> Result<LongSigner, DecodeError> {
    let mut signer = LongSigner::new(alloc, 1, count)?;
    match Signer::<AnyScheme>::create_key(&mut signer, alloc, PublicKeyFormat::Rsa) {
        Ok(_) => Ok(signer),
        Err(_) => Err(DecodeError::OutOfMemory),
    }
}

/// What that signer makes or why it makes nothing, and how many of its signatures were too long.
pub fn made(alloc: Global, argument: &[u8]) -> Result<Fields, DecodeError> {
    let Some((count, repository)) = asked_of(argument) else {
        return Err(DecodeError::Malformed);
    };
    let repository: Rsync = uri_of(alloc, repository)?;
    let manifest: Rsync = uri_of(alloc, "rsync://localhost/repo/ca.mft")?;
    let mut signer = signer_of(alloc, count)?;
    let answer = construct_rpki_ca::<AnyScheme, LongSigner>(
        alloc,
        &mut signer,
        &0,
        &repository,
        &manifest,
        None,
    );
    let mut fields = shown(alloc, answer)?;
    fields.print(alloc, signer.overlong())?;
    Ok(fields)
}
