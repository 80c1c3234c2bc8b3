//! Who issues certificates.

ghost use Rattle.std.specs.Prelude.{◌≡◌, MatchResult};
ghost use Rattle.rpki_upserver.specs.Issuer.{IsCertificateIssued, IsRevoked, IssuerFails, IssuerState};
ghost use Rattle.rpki_upserver.specs.declared.issuer.IssuerError.TheVariants as errors;

use rpki_base::{KeyIdentifier, Time};
use rpki_cert::{Cert, RpkiCaCsr};
use rpki_common::OutOfMemory;
use rpki_sets::ResourceSet;
use rpki_updown::ResourceClassName;
use std::alloc::Global;

/// Why an issuer did nothing.
#[derive(Clone, Copy, Debug, PartialEq, Eq)]
pub enum IssuerError {
    /// The issuer failed, and its count of faults rose.
    Failed,
    /// Memory ran out.
    OutOfMemory,
}

impl From<OutOfMemory> for IssuerError {
    ghost from_gives = { λ _ e. e ≡ errors.OutOfMemory };

    fn from(_: OutOfMemory) -> IssuerError {
        IssuerError::OutOfMemory
    }
}

/// Issues certificates in resource classes, and revokes them. One value that no code holds gives it its meaning: `state`, what it
/// issued and revoked, and how often it failed.
pub trait Issuer {
    /// What it issued and revoked.
    ghost state: { Self → IssuerState };

    /// A certificate for the key of the request in this class (RFC 6487, 4). The state notes it with these
    /// resources and until this time; it is up to the issuer that the certificate itself says so. Failed only where its count rose;
    /// whatever the error, nothing was issued. With any other answer the count is as it was.
    fn issue(
        &mut self,
        alloc: Global,
        class_name: &ResourceClassName,
        csr: &RpkiCaCsr,
        set: &ResourceSet,
        not_after: Time,
    ) -> Result<Cert, IssuerError>
        ensures { MatchResult result
            (IsCertificateIssued class_name.now csr.now set.now not_after (state self.old)
            (state self.new))
            (IssuerFails (state self.old) (state self.new)) };

    /// Revokes the certificates of the key with this identifier in this class. Failed only where its count rose; whatever the error,
    /// nothing was revoked. With any other answer the count is as it was.
    fn revoke(
        &mut self,
        class_name: &ResourceClassName,
        key: KeyIdentifier,
    ) -> Result<(), IssuerError>
        ensures { MatchResult result
            (λ _. IsRevoked class_name.now key (state self.old) (state self.new))
            (IssuerFails (state self.old) (state self.new)) };
}
