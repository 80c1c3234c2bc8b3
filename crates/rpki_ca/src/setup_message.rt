//! The setup messages that the program looks at.

ghost use Rattle.std.specs.Prelude.{◌≡◌, ◌≢◌, IfOk, IfErr};
ghost use Rattle.rpki_ca.specs.Setup.{ReadsSetup, IsNoSetup, certificate_octets, setup_text, refusal_of_setup};

use crate::refusals::Refusal;
use rpki_common::OutOfMemory;
use rpki_setup::{ChildRequest, Error, ParentResponse, PublisherRequest, RepositoryResponse};
use rpki_text::Base64;
use std::alloc::Global;

/// One of the four setup messages (RFC 8183, 5.2).
#[derive(Clone, Copy, Debug, PartialEq, Eq)]
pub enum SetupKind {
    /// From a child to its parent (RFC 8183, 5.2.1).
    ChildRequest,
    /// From a parent to its child (RFC 8183, 5.2.2).
    ParentResponse,
    /// From a publisher to a repository (RFC 8183, 5.2.3).
    PublisherRequest,
    /// From a repository to a publisher (RFC 8183, 5.2.4).
    RepositoryResponse,
}

/// A setup message.
#[derive(Debug, Drop)]
pub enum SetupMessage {
    /// From a child to its parent.
    ChildRequest(ChildRequest),
    /// From a parent to its child.
    ParentResponse(ParentResponse),
    /// From a publisher to a repository.
    PublisherRequest(PublisherRequest),
    /// From a repository to a publisher.
    RepositoryResponse(RepositoryResponse),
}

impl From<Error> for Refusal {
    ghost from_gives = { λ error e. e ≡ refusal_of_setup error };

    fn from(error: Error) -> Refusal {
        match error {
            Error::InvalidTaCertEncoding => Refusal::InvalidTaCertEncoding,
            Error::InvalidTaCert => Refusal::InvalidTaCert,
            Error::OutOfMemory => Refusal::OutOfMemory,
            _ => Refusal::XmlError,
        }
    }
}

impl SetupMessage {
    /// The message of this kind that the input reads as; XmlError where it is none.
    pub fn parse(alloc: Global, kind: SetupKind, input: &[u8]) -> Result<SetupMessage, Refusal>
        ensures ok { IfOk result (λ m. ReadsSetup kind input.now m) }
        ensures err { IfErr result (λ e. e ≢ Refusal.OutOfMemory
            → (e ≡ Refusal.XmlError) × IsNoSetup kind input.now) }
    {
        match kind {
            SetupKind::ChildRequest => {
                Ok(SetupMessage::ChildRequest(ChildRequest::parse_slice(alloc, input)?))
            }
            SetupKind::ParentResponse => {
                Ok(SetupMessage::ParentResponse(ParentResponse::parse_slice(alloc, input)?))
            }
            SetupKind::PublisherRequest => {
                Ok(SetupMessage::PublisherRequest(PublisherRequest::parse_slice(alloc, input)?))
            }
            SetupKind::RepositoryResponse => {
                Ok(SetupMessage::RepositoryResponse(RepositoryResponse::parse_slice(alloc, input)?))
            }
        }
    }

    /// The octets that stand for the certificate of its sender's trust anchor.
    pub fn id_cert(&self) -> &Base64
        ensures { result.now ≡ certificate_octets self.now }
    {
        match self {
            SetupMessage::ChildRequest(message) => message.id_cert(),
            SetupMessage::ParentResponse(message) => message.id_cert(),
            SetupMessage::PublisherRequest(message) => message.id_cert(),
            SetupMessage::RepositoryResponse(message) => message.id_cert(),
        }
    }

    /// The octets of its text, a document of XML.
    pub fn to_xml_vec(&self, alloc: Global) -> Result<Vec<u8>, OutOfMemory>
        ensures { IfOk result (λ octets. octets.items ≡ setup_text self.now) }
    {
        match self {
            SetupMessage::ChildRequest(message) => message.to_xml_vec(alloc),
            SetupMessage::ParentResponse(message) => message.to_xml_vec(alloc),
            SetupMessage::PublisherRequest(message) => message.to_xml_vec(alloc),
            SetupMessage::RepositoryResponse(message) => message.to_xml_vec(alloc),
        }
    }
}
