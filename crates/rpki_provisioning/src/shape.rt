//! Shapes of messages: what the table of elements gives, with octets in the place of certificates and requests, which are unread.

use rpki_base::Time;
use rpki_common::Sequence;
use rpki_sets::ResourceSet;
use rpki_text::{Base64, RecipientHandle, SenderHandle, uri};
use rpki_updown::{
    NotPerformedResponse, RequestResourceLimit, ResourceClassName, RevocationRequest,
    RevocationResponse,
};
use std::marker::Model;

/// A certificate that was issued, unread.
#[derive(Drop)]
pub(crate) struct IssuedShape {
    pub(crate) uri: uri::Rsync,
    pub(crate) req_limit: RequestResourceLimit,
    pub(crate) octets: Base64,
}

impl Model for IssuedShape {
    ghost use Rattle.std.specs.Prelude.{ℕ, List};
    ghost use Rattle.rpki_updown.specs.Entitlements.{IssuedOf};

    ghost Value = { IssuedOf (List ℕ) };

    ghost view = { λ c. record { uri = c.uri; req_limit = c.req_limit; cert = c.octets } };
}

/// The certificate of the issuing key, unread.
#[derive(Drop)]
pub(crate) struct SigningShape {
    pub(crate) url: uri::Rsync,
    pub(crate) octets: Base64,
}

impl Model for SigningShape {
    ghost use Rattle.std.specs.Prelude.{ℕ, List};
    ghost use Rattle.rpki_updown.specs.Entitlements.{SigningOf};

    ghost Value = { SigningOf (List ℕ) };

    ghost view = { λ c. record { url = c.url; cert = c.octets } };
}

/// A class whose certificates are unread.
#[derive(Drop)]
pub(crate) struct ClassShape {
    pub(crate) class_name: ResourceClassName,
    pub(crate) resource_set: ResourceSet,
    pub(crate) not_after: Time,
    pub(crate) issued_certs: Sequence<IssuedShape>,
    pub(crate) signing_cert: SigningShape,
}

impl Model for ClassShape {
    ghost use Rattle.std.specs.Prelude.{ℕ, List};
    ghost use Rattle.rpki_updown.specs.Entitlements.{ClassOf};

    ghost Value = { ClassOf (List ℕ) };

    ghost view = { λ c. record {
      class_name = c.class_name;
      resource_set = c.resource_set;
      not_after = c.not_after;
      issued_certs = c.issued_certs;
      signing_cert = c.signing_cert;
    } };
}

/// A class with one certificate, unread.
#[derive(Drop)]
pub(crate) struct IssuanceShape {
    pub(crate) class_name: ResourceClassName,
    pub(crate) resource_set: ResourceSet,
    pub(crate) not_after: Time,
    pub(crate) issued_cert: IssuedShape,
    pub(crate) signing_cert: SigningShape,
}

impl Model for IssuanceShape {
    ghost use Rattle.std.specs.Prelude.{ℕ, List};
    ghost use Rattle.rpki_updown.specs.Entitlements.{IssuanceOf};

    ghost Value = { IssuanceOf (List ℕ) };

    ghost view = { λ c. record {
      class_name = c.class_name;
      resource_set = c.resource_set;
      not_after = c.not_after;
      issued_cert = c.issued_cert;
      signing_cert = c.signing_cert;
    } };
}

/// What is asked for, with the request for a certificate unread.
#[derive(Drop)]
pub(crate) struct RequestShape {
    pub(crate) class_name: ResourceClassName,
    pub(crate) limit: RequestResourceLimit,
    pub(crate) octets: Base64,
}

impl Model for RequestShape {
    ghost use Rattle.std.specs.Prelude.{ℕ, List};
    ghost use Rattle.rpki_updown.specs.Entitlements.{AskedOf};

    ghost Value = { AskedOf (List ℕ) };

    ghost view = { λ a. record {
      class_name = a.class_name;
      limit = a.limit;
      csr = a.octets;
    } };
}

/// What a message says, with certificates and requests unread.
#[derive(Drop)]
pub(crate) enum PayloadShape {
    List,
    ListResponse(Sequence<ClassShape>),
    Issue(RequestShape),
    IssueResponse(IssuanceShape),
    Revoke(RevocationRequest),
    RevokeResponse(RevocationResponse),
    ErrorResponse(NotPerformedResponse),
}

/// A message with certificates and requests unread.
#[derive(Drop)]
pub(crate) struct MessageShape {
    pub(crate) sender: SenderHandle,
    pub(crate) recipient: RecipientHandle,
    pub(crate) payload: PayloadShape,
}

impl Model for MessageShape {
    ghost use Rattle.rpki_provisioning.specs.Shape.{MessageShape as Fields};

    ghost Value = { Fields };

    ghost view = { λ m. record {
      sender = m.sender;
      recipient = m.recipient;
      payload = m.payload;
    } };
}
