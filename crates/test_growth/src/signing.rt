//! The signer of the cases, and what a refusal of memory has to leave of it.

use crate::ended::{Ended, refused};
use rpki_base::PublicKeyFormat;
use rpki_signer::{Signer, ToyScheme, ToySigner};
use std::alloc::Global;

/// The identifier of the signer's key.
pub const KEY: u64 = 0;

/// The toy signer of seed 1, whose first call makes a key.
pub fn signer_of(alloc: Global) -> Result<ToySigner, Ended> {
    let mut signer = ToySigner::new(alloc, 1, &[])?;
    let _ = Signer::<ToyScheme>::create_key(&mut signer, alloc, PublicKeyFormat::Rsa)?;
    Ok(signer)
}

// Whether the signer holds its key, and has counted nothing.
fn is_as_before(alloc: Global, signer: &mut ToySigner) -> Result<bool, Ended> {
    let held = Signer::<ToyScheme>::get_key_info(signer, alloc, &KEY)?;
    let key = ToyScheme::key(alloc, 1, KEY)?;
    Ok(held == key && signer.faults() == 0 && signer.reused() == 0)
}

/// How a case ends where a call of the signer's or one over it was refused.
pub fn after_refusal(alloc: Global, ended: Ended, signer: &mut ToySigner) -> Ended {
    match is_as_before(alloc, signer) {
        Ok(is_as_before) => refused(is_as_before && ended == Ended::OutOfMemory),
        Err(ended) => ended,
    }
}
