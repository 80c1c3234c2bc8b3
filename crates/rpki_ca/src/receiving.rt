//! What a receiver accepts.

ghost use Rattle.std.specs.Prelude.{◌≡◌, ◌+◌, ◌*◌, ◌≤◌, ◌<◌, ◌∷◌, [], ℕ, List, length};
ghost use Rattle.rpki_common.specs.Limits.{most_keys};
ghost use Rattle.rpki_der.specs.declared.mode.Mode.TheVariants.{Ber};
ghost use Rattle.rpki_der.specs.Ticks.{nodes};
ghost use Rattle.rpki_der.specs.Value.{Value, Begins};
ghost use Rattle.rpki_ca.specs.Acceptance.{IsReceived, IsReceivedUnder, FindsSigned, without_place};
ghost use Rattle.rpki_ca.specs.Acceptance.{of_publication, of_provisioning};
ghost use Rattle.rpki_ca.specs.Errors.{receive_text};
ghost use Rattle.rpki_ca.specs.declared.receiving.ReceiveError.TheVariants as variant;

use rpki_base::{PublicKey, Scheme, Time, Verifier};
use rpki_common::OutOfMemory;
use rpki_der::Steps;
use rpki_idcert::ValidationError;
use rpki_provisioning as provisioning;
use rpki_provisioning::ProvisioningCms;
use rpki_publication as publication;
use rpki_publication::PublicationCms;
use rpki_updown as updown;
use std::alloc::Global;
use std::error::Error;
use std::marker::Brand;
use std::sync::ledger::{Blank, Ledger};
use std::{array, fmt};

/// The protocol that a message belongs to.
#[derive(Clone, Copy, Debug, PartialEq, Eq)]
pub enum Kind {
    /// The publication protocol (RFC 8181).
    Publication,
    /// The provisioning protocol (RFC 6492).
    Provisioning,
}

/// A message that was received.
#[derive(Drop)]
pub enum Received {
    /// A message of the publication protocol.
    Publication(publication::Message),
    /// A message of the provisioning protocol.
    Provisioning(provisioning::Message),
}

/// Why nothing was received.
#[derive(Clone, Copy, Debug, PartialEq, Eq)]
pub enum ReceiveError {
    /// The octets begin with no signed message.
    CmsDecode,
    /// The content has not the form of a message of the kind.
    XmlError,
    /// The content has the form of one, and the octets of the certificate request in it begin with none.
    InvalidCsrSyntax,
    /// The content has the form of one, and the octets of a certificate in it begin with none.
    CertSyntax,
    /// A check of the signed message failed.
    Validation(ValidationError),
    /// Memory ran out.
    OutOfMemory,
}

impl fmt::Display for ReceiveError {
    ghost output = { receive_text };

    fn fmt<W: fmt::Write>(&self, f: &mut fmt::Formatter<W>) -> fmt::Result {
        match self {
            ReceiveError::CmsDecode => f.write_str("Could not decode CMS"),
            ReceiveError::XmlError => f.write_str("malformed XML"),
            ReceiveError::InvalidCsrSyntax => f.write_str("Could not decode CSR"),
            ReceiveError::CertSyntax => f.write_str("Could not decode certificate"),
            ReceiveError::Validation(error) => {
                f.write_str("CMS is not valid: ")?;
                error.fmt(f)
            }
            ReceiveError::OutOfMemory => f.write_str("out of memory"),
        }
    }
}

impl Error for ReceiveError {}

impl From<publication::Error> for ReceiveError {
    ghost from_gives = { λ error e. e ≡ of_publication error };

    fn from(error: publication::Error) -> ReceiveError {
        match error {
            publication::Error::CmsDecode => ReceiveError::CmsDecode,
            publication::Error::Validation(error) => ReceiveError::Validation(error),
            publication::Error::OutOfMemory => ReceiveError::OutOfMemory,
            _ => ReceiveError::XmlError,
        }
    }
}

// How an error of the provisioning protocol is passed on.
fn of_provisioning(error: &updown::Error) -> ReceiveError
    ensures { result ≡ of_provisioning error.now }
{
    match error {
        updown::Error::CmsDecode => ReceiveError::CmsDecode,
        updown::Error::CertSyntax => ReceiveError::CertSyntax,
        updown::Error::InvalidCsrSyntax => ReceiveError::InvalidCsrSyntax,
        updown::Error::Validation(error) => ReceiveError::Validation(*error),
        updown::Error::OutOfMemory => ReceiveError::OutOfMemory,
        _ => ReceiveError::XmlError,
    }
}

impl From<updown::Error> for ReceiveError {
    ghost from_gives = { λ error e. e ≡ of_provisioning error };

    fn from(error: updown::Error) -> ReceiveError {
        of_provisioning(&error)
    }
}

impl From<ValidationError> for ReceiveError {
    ghost from_gives = { λ error e. e ≡ variant.Validation error };

    fn from(error: ValidationError) -> ReceiveError {
        ReceiveError::Validation(error)
    }
}

impl From<OutOfMemory> for ReceiveError {
    ghost from_gives = { λ error e. e ≡ variant.OutOfMemory };

    fn from(error: OutOfMemory) -> ReceiveError {
        ReceiveError::OutOfMemory
    }
}

/// The message of this kind that is signed at the beginning of the octets, in BER, where one of the
/// one to eight keys issued its certificate for the moment, and the place of the first such key,
/// from 0; what stands behind isn't read.
///
/// The first of these decides: CmsDecode where no beginning of the octets is a signed message,
/// XmlError where its content has not the form of a message of the kind, CertSyntax and
/// InvalidCsrSyntax where a certificate or the request in it is none, Validation where one of the
/// fourteen checks fails under each key: the greatest of the first that fail, as
/// [`rpki_sigmsg::SignedMessage::validate_any_at`] answers.
pub fn receive_any<P: Scheme, V: Verifier<P>>(
    alloc: Global,
    kind: Kind,
    octets: &[u8],
    keys: &[PublicKey],
    when: Time,
    verifier: &V,
) -> Result<(Received, usize), ReceiveError>
    requires some { 1 ≤ length keys.now }
    requires few { length keys.now ≤ most_keys }
    ensures { IsReceivedUnder P.checks kind octets.now keys.now when result }
{
    receive_any_within::<P, V, Brand>(alloc, kind, octets, keys, when, verifier, Blank::new(1))
}

fn receive_any_within<P: Scheme, V: Verifier<P>, L: Ledger>(
    alloc: Global,
    kind: Kind,
    octets: &[u8],
    keys: &[PublicKey],
    when: Time,
    verifier: &V,
    blank: Blank,
) -> Result<(Received, usize), ReceiveError>
    requires name { blank.name ≡ L.name }
    requires parts { blank.parts ≡ L.parts }
    requires here { 0 < blank.parts }
    requires some { 1 ≤ length keys.now }
    requires few { length keys.now ≤ most_keys }
    ensures { IsReceivedUnder P.checks kind octets.now keys.now when result }
{
    let mut steps = Steps::<L>::new(blank);
    receive_any_counted(alloc, kind, octets, keys, when, verifier, &mut steps)
}

/// As [`receive_any`], under one to eight keys. It ticks for the headers and end marks that it reads, in
/// the signed message, and in the certificates and the request in its content, as often however many
/// keys there are.
pub fn receive_any_counted<P: Scheme, V: Verifier<P>, L: Ledger>(
    alloc: Global,
    kind: Kind,
    octets: &[u8],
    keys: &[PublicKey],
    when: Time,
    verifier: &V,
    steps: &mut Steps<L>,
) -> Result<(Received, usize), ReceiveError>
    requires some { 1 ≤ length keys.now }
    requires few { length keys.now ≤ most_keys }
    ensures answer { IsReceivedUnder P.checks kind octets.now keys.now when result }
    ensures most { steps.new ≤ steps.old + 5 * length octets.now + 8 }

    // In a content of the publication protocol there are no headers.
    ensures publication { kind ≡ Kind.Publication
        → steps.new ≤ steps.old + 3 * length octets.now + 8 }

    // Where a signed message was found, each value in it ticked.
    ensures least { FindsSigned result → (v : Value) (rest : List ℕ)
        → Begins Ber octets.now v rest → steps.old + nodes v ≤ steps.new }
{
    match kind {
        Kind::Publication => receive_publication(alloc, octets, keys, when, verifier, steps),
        Kind::Provisioning => receive_provisioning(alloc, octets, keys, when, verifier, steps),
    }
}

fn receive_publication<P: Scheme, V: Verifier<P>, L: Ledger>(
    alloc: Global,
    octets: &[u8],
    keys: &[PublicKey],
    when: Time,
    verifier: &V,
    steps: &mut Steps<L>,
) -> Result<(Received, usize), ReceiveError>
    requires some { 1 ≤ length keys.now }
    requires few { length keys.now ≤ most_keys }
    ensures answer { IsReceivedUnder P.checks Kind.Publication octets.now keys.now when result }
    ensures most { steps.new ≤ steps.old + 3 * length octets.now + 8 }
    ensures least { FindsSigned result → (v : Value) (rest : List ℕ)
        → Begins Ber octets.now v rest → steps.old + nodes v ≤ steps.new }
{
    let cms = PublicationCms::decode_counted(alloc, octets, steps)?;
    let place = cms.signed_message().validate_any_at(verifier, keys, when)?;
    Ok((Received::Publication(cms.into_message()), place))
}

fn receive_provisioning<P: Scheme, V: Verifier<P>, L: Ledger>(
    alloc: Global,
    octets: &[u8],
    keys: &[PublicKey],
    when: Time,
    verifier: &V,
    steps: &mut Steps<L>,
) -> Result<(Received, usize), ReceiveError>
    requires some { 1 ≤ length keys.now }
    requires few { length keys.now ≤ most_keys }
    ensures answer { IsReceivedUnder P.checks Kind.Provisioning octets.now keys.now when result }
    ensures most { steps.new ≤ steps.old + 5 * length octets.now + 8 }
    ensures least { FindsSigned result → (v : Value) (rest : List ℕ)
        → Begins Ber octets.now v rest → steps.old + nodes v ≤ steps.new }
{
    let cms = ProvisioningCms::decode_counted(alloc, octets, steps)?;
    let place = cms.signed_message().validate_any_at(verifier, keys, when)?;
    Ok((Received::Provisioning(cms.into_message()), place))
}

// The answer without the place of the key.
fn without_place(answer: Result<(Received, usize), ReceiveError>) -> Result<Received, ReceiveError>
    ensures { result ≡ without_place answer }
{
    match answer {
        Ok((message, _)) => Ok(message),
        Err(error) => Err(error),
    }
}

/// As [`receive_any`] for one key, without the place.
pub fn receive<P: Scheme, V: Verifier<P>>(
    alloc: Global,
    kind: Kind,
    octets: &[u8],
    key: &PublicKey,
    when: Time,
    verifier: &V,
) -> Result<Received, ReceiveError>
    ensures { IsReceived P.checks kind octets.now (key.now ∷ []) when result }
{
    let keys = array::from_ref(key);
    without_place(receive_any(alloc, kind, octets, keys, when, verifier))
}

/// As [`receive`]. It ticks for the headers and end marks that it reads, in the signed message, and in
/// the certificates and the request in its content.
pub fn receive_counted<P: Scheme, V: Verifier<P>, L: Ledger>(
    alloc: Global,
    kind: Kind,
    octets: &[u8],
    key: &PublicKey,
    when: Time,
    verifier: &V,
    steps: &mut Steps<L>,
) -> Result<Received, ReceiveError>
    ensures answer { IsReceived P.checks kind octets.now (key.now ∷ []) when result }
    ensures most { steps.new ≤ steps.old + 5 * length octets.now + 8 }

    // In a content of the publication protocol there are no headers.
    ensures publication { kind ≡ Kind.Publication
        → steps.new ≤ steps.old + 3 * length octets.now + 8 }

    // Where a signed message was found, each value in it ticked.
    ensures least { FindsSigned result → (v : Value) (rest : List ℕ)
        → Begins Ber octets.now v rest → steps.old + nodes v ≤ steps.new }
{
    let keys = array::from_ref(key);
    without_place(receive_any_counted(alloc, kind, octets, keys, when, verifier, steps))
}
