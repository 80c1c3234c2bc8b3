//! The issuer with which the program begins.

ghost use Rattle.std.specs.Prelude.{◌≡◌, ◌≢◌, IfErr, IfOk};
ghost use Rattle.rpki_der.specs.declared.mode.Mode.TheVariants.{Der};
ghost use Rattle.rpki_der.specs.Takes.{BeginsAs};
ghost use Rattle.rpki_base.specs.RpkiSignatureAlgorithm.{spelled_x509};
ghost use Rattle.rpki_base.specs.SignedData.{spelled_data};
ghost use Rattle.rpki_cert.specs.Cert.{certificate};
ghost use Rattle.rpki_idcert.specs.Making.{IsAnchorMade, IsReadAgain};
ghost use Rattle.rpki_signer.specs.Toy.{ToyChecks};
ghost use Rattle.rpki_signer.specs.ToySigner.{ToyState, state_of};
ghost use Rattle.rpki_ca.specs.declared.refusals.Refusal.TheVariants as refusals;
ghost use Rattle.rpki_upserver.specs.ProgramIssuer.{IsProgramIssuer, StopsAnchor, always, signing_url};

use crate::lawful::rsync_uri;
use crate::toy_issuer::{ToyIssuer, made_certificate};
use rpki_base::{Time, Validity};
use rpki_ca::Refusal;
use rpki_common::OutOfMemory;
use rpki_idcert::IdCert;
use rpki_sigmsg::CreateError;
use rpki_signer::{ToyScheme, ToySigner};
use rpki_updown::SigningCert;
use std::alloc::Global;

// The certificate of the signer's key of this number, under this key itself, always valid.
fn anchor(alloc: Global, signer: &mut ToySigner, key: u64) -> Result<IdCert, Refusal>
    ensures made { IfOk result (IsAnchorMade ToyChecks key always (state_of signer.old)
        (state_of signer.new)) }
    ensures again { IfOk result (IsReadAgain Der) }
    ensures err { IfErr result (StopsAnchor key signer.old signer.new) }
{
    let first = Time::new(0).unwrap();
    let last = Time::new(253_402_300_799).unwrap();
    let validity = Validity::new(first, last);
    match IdCert::new_ta::<ToyScheme, ToySigner>(alloc, validity, &key, signer) {
        Ok(anchor) => Ok(anchor),
        Err(error) => Err(Refusal::from(CreateError::from(error))),
    }
}

// The anchor as a resource certificate, at its URI.
fn published(alloc: Global, anchor: &IdCert) -> Result<SigningCert, OutOfMemory>
    requires { IsReadAgain Der anchor.now }
    ensures url { IfOk result (λ signing. signing.url ≡ signing_url) }
    ensures cert { IfOk result (λ signing. BeginsAs (certificate Der) Der
        (spelled_data spelled_x509 anchor.now.signed) signing.cert) }
{
    let url = rsync_uri(alloc, "rsync://localhost/repo/ta.cer")?;
    let cert = made_certificate(alloc, anchor)?;
    Ok(SigningCert::new(url, cert))
}

/// The issuer that signs with the signer's key of this number, and whose certificates are valid from the start of 1970; and the
/// certificate of this key, which the signer makes with the key itself, valid to the end of 9999, and which is published at
/// `rsync://localhost/repo/ta.cer`.
///
/// The refusals are those of the signer, by their names, TooLong where it gives more than 2^16 octets, and OutOfMemory.
pub fn program_issuer(
    alloc: Global,
    signer: ToySigner,
    key: u64,
) -> Result<(ToyIssuer, SigningCert), Refusal>
    ensures issuer { IfOk result (λ r. IsProgramIssuer signer key r.0 r.1) }
    ensures err { IfErr result (λ e. e ≢ refusals.OutOfMemory
        → (after : ToyState) × StopsAnchor key signer after e) }
{
    let mut signer = signer;
    let anchor = anchor(alloc, &mut signer, key)?;
    let signing = published(alloc, &anchor)?;
    let from = Time::new(0).unwrap();
    Ok((ToyIssuer::new(alloc, signer, key, from), signing))
}
