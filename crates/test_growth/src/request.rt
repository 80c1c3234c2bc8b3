//! An authority's request, constructed and decoded.

use crate::ended::{Ended, told};
use crate::signing::{KEY, after_refusal, signer_of};
use rpki_cert::{RpkiCaCsr, construct_rpki_ca};
use rpki_der::Captured;
use rpki_signer::{ToyScheme, ToySigner, ToyVerifier};
use rpki_text::uri::{Https, Rsync};
use std::alloc::Global;

struct Places {
    repository: Rsync,
    manifest: Rsync,
    notify: Https,
}

impl Drop for Places {
    fn drop(self) {
        let Places {
            repository,
            manifest,
            notify,
        } = self;
    }
}

fn places_of(alloc: Global) -> Result<Places, Ended> {
    let repository = Rsync::from_str(alloc, "rsync://localhost/repo/x")?;
    let manifest = Rsync::from_str(alloc, "rsync://localhost/repo/ca.mft")?;
    let notify = Https::from_str(alloc, "https://localhost/repo/notify.xml")?;
    Ok(Places {
        repository,
        manifest,
        notify,
    })
}

fn constructed(alloc: Global, places: &Places, signer: &mut ToySigner) -> Result<Captured, Ended> {
    match construct_rpki_ca::<ToyScheme, ToySigner>(
        alloc,
        signer,
        &KEY,
        &places.repository,
        &places.manifest,
        Some(&places.notify),
    ) {
        Ok(captured) => Ok(captured),
        Err(error) => Err(after_refusal(alloc, Ended::from(error), signer)),
    }
}

// Whether the request is signed with its key, and names these places.
fn is_for(request: &RpkiCaCsr, slashed: &Rsync, places: &Places) -> bool {
    let verified = request.verify_signature::<ToyScheme, ToyVerifier>(&ToyVerifier::new());
    verified.is_ok()
        && request.ca_repository() == Some(slashed)
        && request.rpki_manifest() == Some(&places.manifest)
        && request.rpki_notify() == Some(&places.notify)
}

fn octets_for(alloc: Global, places: &Places) -> Result<Captured, Ended> {
    let mut signer = signer_of(alloc)?;
    constructed(alloc, places, &mut signer)
}

// Lets a value go, whose parts are not spelled out where this is called.
fn let_go<T: Drop>(_: T) {}

// Whether the octets are decoded to a request for these places.
fn is_decoded(alloc: Global, octets: &[u8], places: &Places) -> Result<bool, Ended> {
    let slashed = Rsync::from_str(alloc, "rsync://localhost/repo/x/")?;
    let decoded = RpkiCaCsr::decode(alloc, octets);
    let answer = match &decoded {
        Ok(request) => Ok(is_for(request, &slashed, places)),
        Err(error) => Err(Ended::from(*error)),
    };
    let_go(decoded);
    answer
}

/// Constructs the request and decodes it.
pub fn exchanged(alloc: Global) -> Result<(), Ended> {
    let places = places_of(alloc)?;
    let captured = octets_for(alloc, &places)?;
    told(is_decoded(alloc, captured.as_slice(), &places))
}
