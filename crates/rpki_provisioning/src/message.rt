//! Messages.

ghost use Rattle.std.specs.Prelude.{◌≡◌, ◌↔◌, ◌≤◌, ◌+◌, ◌*◌, ◌<◌, length, IfOk, IfErr, OnOk, IsTrue, MatchResult, string_bytes};
ghost use Rattle.rpki_common.specs.Limits.{most_content};
ghost use Rattle.rpki_xmltext.specs.Answers.{Parses, WritesText};
ghost use Rattle.rpki_provisioning.specs.Answers.{RefusesMessage, RefusesText};
ghost use Rattle.rpki_provisioning.specs.Message.{Reads, text_of};
ghost use Rattle.rpki_provisioning.specs.Shape.{payload_type_of, shape_of};
ghost use Rattle.rpki_provisioning.specs.Writable.{IsWritable};
ghost use Rattle.rpki_provisioning.specs.declared.payload.Payload.TheVariants as payloads;
ghost use Rattle.rpki_updown.specs.Answers.{cause_of};
ghost use Rattle.rpki_updown.specs.declared.payload_type.PayloadType.TheVariants as kinds;

use crate::filling::message_of_shape;
use crate::payload::Payload;
use crate::reading::shape_in;
use crate::writing::message_text;
use bytes::Bytes;
use rpki_common::OutOfMemory;
use rpki_der::Steps;
use rpki_text::{RecipientHandle, SenderHandle, Sink, Source, read_all};
use rpki_updown::{
    Error, IssuanceRequest, IssuanceResponse, NotPerformedResponse, ResourceClassListResponse,
    RevocationRequest, RevocationResponse,
};
use rpki_xml::read_document;
use rpki_xmltext::{MOST_OCTETS, write_octets};
use std::alloc::Global;
use std::marker::{Brand, Model};
use std::sync::ledger::{Blank, Ledger};

/// The media type of messages that are sent over HTTP (RFC 6492, 3).
pub const CONTENT_TYPE: &'static str = "application/rpki-updown";

/// A message of the provisioning protocol (RFC 6492, 3.2): who sends it to whom, and what it says. In a clause it is the record of the
/// three.
pub struct Message {
    sender: SenderHandle,
    recipient: RecipientHandle,
    payload: Payload,
}

// By hand, so that whoever lets a message go calls this: the parts of all its payloads are not spelled out there.
impl Drop for Message {
    fn drop(self) {
        let Message {
            sender,
            recipient,
            payload,
        } = self;
    }
}

impl Model for Message {
    ghost use Rattle.rpki_provisioning.specs.Shape.{MessageFields};

    ghost Value = { MessageFields };

    ghost view = { λ m. record {
      sender = m.sender;
      recipient = m.recipient;
      payload = m.payload;
    } };

    ghost inverse = { λ m. record {
      sender = m.sender;
      recipient = m.recipient;
      payload = m.payload;
    } };
}

/// # Making
impl Message {
    /// The message of these parts.
    pub(crate) fn of(sender: SenderHandle, recipient: RecipientHandle, payload: Payload) -> Message
        ensures { result ≡ record { sender = sender; recipient = recipient; payload = payload } }
    {
        Message {
            sender,
            recipient,
            payload,
        }
    }

    /// The list request (RFC 6492, 3.3.1).
    pub fn list(sender: SenderHandle, recipient: RecipientHandle) -> Message
        ensures { result
            ≡ record { sender = sender; recipient = recipient; payload = payloads.List } }
    {
        Message::of(sender, recipient, Payload::List)
    }

    /// The response with the resource classes (RFC 6492, 3.3.2).
    pub fn list_response(
        sender: SenderHandle,
        recipient: RecipientHandle,
        response: ResourceClassListResponse,
    ) -> Message
        ensures { result ≡ record {
          sender = sender;
          recipient = recipient;
          payload = payloads.ListResponse response;
        } }
    {
        Message::of(sender, recipient, Payload::ListResponse(response))
    }

    /// The certificate request (RFC 6492, 3.4.1).
    pub fn issue(
        sender: SenderHandle,
        recipient: RecipientHandle,
        request: IssuanceRequest,
    ) -> Message
        ensures { result ≡ record {
          sender = sender;
          recipient = recipient;
          payload = payloads.Issue request;
        } }
    {
        Message::of(sender, recipient, Payload::Issue(request))
    }

    /// The response with a certificate (RFC 6492, 3.4.2).
    pub fn issue_response(
        sender: SenderHandle,
        recipient: RecipientHandle,
        response: IssuanceResponse,
    ) -> Message
        ensures { result ≡ record {
          sender = sender;
          recipient = recipient;
          payload = payloads.IssueResponse response;
        } }
    {
        Message::of(sender, recipient, Payload::IssueResponse(response))
    }

    /// The request to revoke the certificates of a key (RFC 6492, 3.5.1).
    pub fn revoke(
        sender: SenderHandle,
        recipient: RecipientHandle,
        request: RevocationRequest,
    ) -> Message
        ensures { result ≡ record {
          sender = sender;
          recipient = recipient;
          payload = payloads.Revoke request;
        } }
    {
        Message::of(sender, recipient, Payload::Revoke(request))
    }

    /// The response that the certificates of a key were revoked (RFC 6492, 3.5.2).
    pub fn revoke_response(
        sender: SenderHandle,
        recipient: RecipientHandle,
        response: RevocationResponse,
    ) -> Message
        ensures { result ≡ record {
          sender = sender;
          recipient = recipient;
          payload = payloads.RevokeResponse response;
        } }
    {
        Message::of(sender, recipient, Payload::RevokeResponse(response))
    }

    /// The response that a request was not performed (RFC 6492, 3.6).
    pub fn not_performed_response(
        sender: SenderHandle,
        recipient: RecipientHandle,
        response: NotPerformedResponse,
    ) -> Message
        ensures { result ≡ record {
          sender = sender;
          recipient = recipient;
          payload = payloads.ErrorResponse response;
        } }
    {
        Message::of(sender, recipient, Payload::ErrorResponse(response))
    }
}

/// # Data access
impl Message {
    /// Sender, recipient and payload.
    pub fn unpack(self) -> (SenderHandle, RecipientHandle, Payload)
        ensures sender { result.0 ≡ self.sender }
        ensures recipient { result.1 ≡ self.recipient }
        ensures payload { result.2 ≡ self.payload }
    {
        let Message {
            sender,
            recipient,
            payload,
        } = self;
        (sender, recipient, payload)
    }

    /// Who sends it.
    pub fn sender(&self) -> &SenderHandle
        ensures { result.now ≡ self.now.sender }
    {
        &self.sender
    }

    /// Whom it is sent to.
    pub fn recipient(&self) -> &RecipientHandle
        ensures { result.now ≡ self.now.recipient }
    {
        &self.recipient
    }

    /// What it says.
    pub fn payload(&self) -> &Payload
        ensures { result.now ≡ self.now.payload }
    {
        &self.payload
    }

    /// What it says, handed out.
    pub fn into_payload(self) -> Payload
        ensures { result ≡ self.payload }
    {
        let Message {
            sender: _,
            recipient: _,
            payload,
        } = self;
        payload
    }

    /// Whether it is the response with the resource classes.
    pub fn is_list_response(&self) -> bool
        ensures { IsTrue result ↔ (payload_type_of self.now.payload ≡ kinds.ListResponse) }
    {
        matches!(self.payload, Payload::ListResponse(_))
    }

    /// Whether all parts are the same: certificates by their octets, a request by the octets that are written of it.
    pub fn equals(&self, alloc: Global, other: &Message) -> Result<bool, OutOfMemory>
        ensures { IfOk result (λ b. IsTrue b ↔ (shape_of self.now ≡ shape_of other.now)) }
    {
        let alike = self.payload.equals(alloc, &other.payload)?;
        Ok(alike && self.is_between_the_same(other))
    }

    // Whether sender and recipient are the same.
    fn is_between_the_same(&self, other: &Message) -> bool
        ensures { IsTrue result ↔ ((self.now.sender ≡ other.now.sender)
            × (self.now.recipient ≡ other.now.recipient)) }
    {
        self.sender == other.sender && self.recipient == other.recipient
    }

    /// Whether it can be written so that it is read again: the handles have the pattern, names of classes and a description consist of
    /// octets that a document may have, and a description has no outer white space. It takes no memory.
    pub fn is_writable(&self) -> bool
        ensures { IsTrue result ↔ IsWritable self.now }
    {
        self.sender.has_pattern() && self.recipient.has_pattern() && self.payload.is_writable()
    }

    /// An equal message, which shares its octets with this one.
    pub fn clone(&self, alloc: Global) -> Result<Message, OutOfMemory>
        ensures { IfOk result (λ m. m ≡ self.now) }
    {
        let sender = self.sender.clone(alloc)?;
        let recipient = self.recipient.clone(alloc)?;
        let payload = self.payload.clone(alloc)?;
        Ok(Message::of(sender, recipient, payload))
    }
}

/// # Reading and writing
impl Message {
    /// The message that all that a source has to give is: a document of XML of at most 2^31 octets. XmlError exactly where it has not the
    /// form of one, CertSyntax and InvalidCsrSyntax exactly where it has, and a certificate or the request in it is none; TooLong where
    /// it is longer, Read only where the source failed.
    pub fn decode<I: Source>(alloc: Global, source: &mut I) -> Result<Message, Error>
        ensures { Parses cause_of Reads RefusesMessage (I.rest source.old) (I.rest source.new)
            (I.faults source.old) (I.faults source.new) result }
    {
        let octets = read_all(alloc, source, MOST_OCTETS)?;
        Message::decode_slice(alloc, &octets)
    }

    /// The message that the octets are, a document of XML. XmlError exactly where they have not the form of one, CertSyntax and
    /// InvalidCsrSyntax exactly where they have, and a certificate or the request in it is none.
    pub fn decode_slice(alloc: Global, octets: &[u8]) -> Result<Message, Error>
        ensures { MatchResult result (Reads octets.now) (RefusesMessage octets.now) }
    {
        Message::decode_within::<Brand>(alloc, octets, Blank::new(1))
    }

    fn decode_within<L: Ledger>(
        alloc: Global,
        octets: &[u8],
        blank: Blank,
    ) -> Result<Message, Error>
        requires name { blank.name ≡ L.name }
        requires parts { blank.parts ≡ L.parts }
        requires some { 0 < blank.parts }
        ensures { MatchResult result (Reads octets.now) (RefusesMessage octets.now) }
    {
        let mut steps = Steps::<L>::new(blank);
        Message::decode_slice_counted(alloc, octets, &mut steps)
    }

    /// As [`Message::decode_slice`]. It ticks each time it looks at a header in certificates and requests, and for each end mark, but not
    /// where it reads an algorithm, a kept identifier or a location again from its octets: at most twice for each octet that it was
    /// given, and 8 times more.
    pub fn decode_slice_counted<L: Ledger>(
        alloc: Global,
        octets: &[u8],
        steps: &mut Steps<L>,
    ) -> Result<Message, Error>
        ensures message { MatchResult result (Reads octets.now) (RefusesMessage octets.now) }
        ensures most { steps.new ≤ steps.old + 2 * length octets.now + 8 }
        ensures least { steps.old ≤ steps.new }
    {
        let document = read_document(alloc, octets)?;
        let shape = shape_in(alloc, &document.as_ref())?;
        message_of_shape(alloc, shape, steps)
    }

    /// Writes the message as a document of XML. TooLong exactly where that has more than 2^31 octets, Write only where the sink failed;
    /// want of memory comes before the first write.
    pub fn write_xml<O: Sink>(&self, alloc: Global, sink: &mut O) -> Result<(), Error>
        ensures { WritesText cause_of (text_of self.now) (O.written sink.old)
            (O.written sink.new) (O.faults sink.old) (O.faults sink.new) result }
    {
        let text = message_text(alloc, self)?;
        Ok(write_octets(sink, text.as_bytes())?)
    }

    /// The text of the message, a document of XML without added white space (RFC 6492, 3.2). TooLong exactly where it has more than 2^31
    /// octets.
    pub fn to_xml_string(&self, alloc: Global) -> Result<String, Error>
        ensures text { IfOk result (λ text. string_bytes text ≡ text_of self.now) }
        ensures short { OnOk result (length (text_of self.now) ≤ most_content) }
        ensures refused { IfErr result (RefusesText (text_of self.now)) }
    {
        let text = message_text(alloc, self)?;
        if text.len() as u64 > MOST_OCTETS {
            return Err(Error::TooLong);
        }
        Ok(text)
    }

    /// The octets of the message. TooLong exactly where there are more than 2^31.
    pub fn to_xml_bytes(&self, alloc: Global) -> Result<Bytes, Error>
        ensures octets { IfOk result (λ octets. octets ≡ text_of self.now) }
        ensures short { OnOk result (length (text_of self.now) ≤ most_content) }
        ensures refused { IfErr result (RefusesText (text_of self.now)) }
    {
        let text = self.to_xml_string(alloc)?;
        Ok(Bytes::from_vec(text.into_bytes())?)
    }

    /// The octets of the message's text, however long it is (RFC 6492, 3.2), to be shared.
    pub fn text_bytes(&self, alloc: Global) -> Result<Bytes, OutOfMemory>
        ensures { IfOk result (λ octets. octets ≡ text_of self.now) }
    {
        Ok(Bytes::from_vec(self.text_vec(alloc)?)?)
    }

    /// The octets of the message's text, however long it is (RFC 6492, 3.2).
    pub fn text_vec(&self, alloc: Global) -> Result<Vec<u8>, OutOfMemory>
        ensures { IfOk result (λ octets. octets.items ≡ text_of self.now) }
    {
        Ok(message_text(alloc, self)?.into_bytes())
    }
}
