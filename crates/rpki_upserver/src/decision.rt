//! What a parent decides.

ghost use Rattle.std.specs.Prelude.{◌≡◌, IfOk};
ghost use Rattle.rpki_updown.specs.NotPerformedResponse.{reason as words_of};
ghost use Rattle.rpki_upserver.specs.Decision.{status_of};

use rpki_common::OutOfMemory;
use rpki_updown::{NotPerformedResponse, RevocationRequest};
use std::alloc::Global;

/// Why something isn't done that was asked for (RFC 6492, 3.6).
#[derive(Clone, Copy, Debug, PartialEq, Eq)]
pub(crate) enum Reason {
    /// The message asks for nothing that a parent does.
    UnknownType,
    /// There is no class in which a certificate is asked for.
    NoClass,
    /// The child has no such resources in the class.
    NoResources,
    /// The request isn't signed under its own key.
    BadRequest,
    /// The key was revoked, or is certified in another class.
    UsedKey,
    /// There is no class in which a key is to be revoked.
    NoClassToRevoke,
    /// The key isn't certified in it.
    NoKeyToRevoke,
    /// The parties are others, or the issuer failed.
    ServerError,
}

impl Reason {
    /// The answer with the reason's status, and with what the standard says of that.
    pub(crate) fn response(self, alloc: Global) -> Result<NotPerformedResponse, OutOfMemory>
        ensures { IfOk result (λ r. r
            ≡ record { status = status_of self; description = words_of (status_of self) }) }
    {
        match self {
            Reason::UnknownType => NotPerformedResponse::err_1103(alloc),
            Reason::NoClass => NotPerformedResponse::err_1201(alloc),
            Reason::NoResources => NotPerformedResponse::err_1202(alloc),
            Reason::BadRequest => NotPerformedResponse::err_1203(alloc),
            Reason::UsedKey => NotPerformedResponse::err_1204(alloc),
            Reason::NoClassToRevoke => NotPerformedResponse::err_1301(alloc),
            Reason::NoKeyToRevoke => NotPerformedResponse::err_1302(alloc),
            Reason::ServerError => NotPerformedResponse::err_2001(alloc),
        }
    }
}

/// What comes of a message, in few words: what is said of it stands in the table behind it.
#[derive(Drop)]
pub(crate) enum Decision {
    /// Nothing is done.
    NotPerformed(Reason),
    /// The classes are told.
    Listed,
    /// A certificate was issued: the place of its class, and its place among the certificates of that.
    Issued {
        /// The place of the class.
        class: usize,
        /// The place of the certificate.
        place: usize,
    },
    /// The certificate of a key was revoked, as this asked for.
    Revoked(RevocationRequest),
}
