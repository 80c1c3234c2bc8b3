//! Messages.

ghost use Rattle.std.specs.Prelude.{◌≡◌, ◌↔◌, ◌≤◌, ◌^◌, length, Some, IfOk, IfErr, IsTrue, OnOk, MatchResult, string_bytes};
ghost use Rattle.rpki_common.specs.Limits.{most_content};
ghost use Rattle.rpki_xmltext.specs.Answers.{Parses, WritesText};
ghost use Rattle.rpki_publication.specs.Answers.{cause_of, RefusesMessage, RefusesText, IsQueryResult, IsReplyResult};
ghost use Rattle.rpki_publication.specs.Message.{Reads, text_of, IsWritable};
ghost use Rattle.rpki_publication.specs.declared.message.Message.TheVariants as message;
ghost use Rattle.rpki_publication.specs.declared.query.Query.TheVariants as query;
ghost use Rattle.rpki_publication.specs.declared.reply.Reply.TheVariants as replies;

use crate::error::Error;
use crate::error_reply::ErrorReply;
use crate::list_reply::ListReply;
use crate::publish_delta::PublishDelta;
use crate::query::Query;
use crate::reading::message_in;
use crate::reply::Reply;
use crate::writing::write_message;
use bytes::Bytes;
use rpki_common::OutOfMemory;
use rpki_text::{Sink, Source, read_all};
use rpki_xml::read_document;
use rpki_xmltext::{MOST_OCTETS, write_octets};
use std::alloc::Global;
use std::fmt;

/// The media type of messages that are sent over HTTP (RFC 8181, 2).
pub const CONTENT_TYPE: &'static str = "application/rpki-publication";

/// A message of the publication protocol: a query of a client, or a reply of a server (RFC 8181, 2.1).
#[derive(Debug, Drop, PartialEq, Eq)]
pub enum Message {
    /// A query.
    Query(Query),
    /// A reply.
    Reply(Reply),
}

/// # Making
impl Message {
    /// The query for the list of what is published (RFC 8181, 2.3).
    pub fn list_query() -> Message
        ensures { result ≡ message.Query query.List }
    {
        Message::Query(Query::List)
    }

    /// The query for changes (RFC 8181, 2.2).
    pub fn delta(delta: PublishDelta) -> Message
        ensures { result ≡ message.Query (query.Delta delta) }
    {
        Message::Query(Query::Delta(delta))
    }

    /// The reply with what is published (RFC 8181, 2.3).
    pub fn list_reply(reply: ListReply) -> Message
        ensures { result ≡ message.Reply (replies.List reply) }
    {
        Message::Reply(Reply::List(reply))
    }

    /// The reply that all changes were made (RFC 8181, 2.2).
    pub fn success() -> Message
        ensures { result ≡ message.Reply replies.Success }
    {
        Message::Reply(Reply::Success)
    }

    /// The reply with errors (RFC 8181, 2.4).
    pub fn error(error: ErrorReply) -> Message
        ensures { result ≡ message.Reply (replies.ErrorReply error) }
    {
        Message::Reply(Reply::ErrorReply(error))
    }
}

/// # Data access
impl Message {
    /// The reply that it is. NotReply exactly where it is a query.
    pub fn as_reply(self) -> Result<Reply, Error>
        ensures { IsReplyResult self result }
    {
        match self {
            Message::Query(_) => Err(Error::NotReply),
            Message::Reply(reply) => Ok(reply),
        }
    }

    /// The query that it is. NotQuery exactly where it is a reply.
    pub fn as_query(self) -> Result<Query, Error>
        ensures { IsQueryResult self result }
    {
        match self {
            Message::Query(query) => Ok(query),
            Message::Reply(_) => Err(Error::NotQuery),
        }
    }

    /// Whether it can be written so that it is read again: tags and texts consist of octets that a document may have, no text of an error
    /// has outer white space, and an error reply has an error. It takes no memory.
    pub fn is_writable(&self) -> bool
        ensures { IsTrue result ↔ IsWritable self.now }
    {
        match self {
            Message::Query(query) => query.is_writable(),
            Message::Reply(reply) => reply.is_writable(),
        }
    }

    /// An equal message, whose texts are shared with this one.
    pub fn clone(&self, alloc: Global) -> Result<Message, OutOfMemory>
        ensures { IfOk result (λ m. m ≡ self.now) }
    {
        match self {
            Message::Query(query) => Ok(Message::Query(query.clone(alloc)?)),
            Message::Reply(reply) => Ok(Message::Reply(reply.clone(alloc)?)),
        }
    }
}

/// # Reading and writing
impl Message {
    /// The message that all that a source has to give is, a document of XML. TooLong where there are more than 2^31 octets, and
    /// otherwise XmlError exactly where they are no message; Read only where the source failed.
    pub fn decode<I: Source>(alloc: Global, source: &mut I) -> Result<Message, Error>
        ensures { Parses cause_of Reads RefusesMessage (I.rest source.old) (I.rest source.new)
            (I.faults source.old) (I.faults source.new) result }
    {
        let octets = read_all(alloc, source, MOST_OCTETS)?;
        Message::decode_slice(alloc, &octets)
    }

    /// The message that the octets are, a document of XML. XmlError exactly where they are none.
    pub fn decode_slice(alloc: Global, octets: &[u8]) -> Result<Message, Error>
        ensures { MatchResult result (Reads octets.now) (RefusesMessage octets.now) }
    {
        let document = read_document(alloc, octets)?;
        Ok(message_in(alloc, &document.as_ref())?)
    }

    /// Writes the message as a document of XML. TooLong exactly where that has more than 2^31 octets, Write only where the sink failed;
    /// want of memory comes before the first write.
    pub fn write_xml<O: Sink>(&self, alloc: Global, sink: &mut O) -> Result<(), Error>
        ensures { WritesText cause_of (text_of self.now) (O.written sink.old)
            (O.written sink.new) (O.faults sink.old) (O.faults sink.new) result }
    {
        let text = self.text(alloc)?;
        Ok(write_octets(sink, text.as_bytes())?)
    }

    /// The text of the message, a document of XML without added white space (RFC 8181, 2.1). TooLong exactly where it has more than 2^31
    /// octets.
    pub fn to_xml_string(&self, alloc: Global) -> Result<String, Error>
        ensures text { IfOk result (λ text. string_bytes text ≡ text_of self.now) }
        ensures short { OnOk result (length (text_of self.now) ≤ most_content) }
        ensures refused { IfErr result (RefusesText (text_of self.now)) }
    {
        let text = self.text(alloc)?;
        if text.len() as u64 > MOST_OCTETS {
            return Err(Error::TooLong);
        }
        Ok(text)
    }

    /// The octets of the message. TooLong exactly where there are more than 2^31.
    pub fn to_xml_bytes(&self, alloc: Global) -> Result<Bytes, Error>
        ensures octets { IfOk result (λ octets. octets ≡ text_of self.now) }
        ensures short { OnOk result (length (text_of self.now) ≤ most_content) }
        ensures refused { IfErr result (RefusesText (text_of self.now)) }
    {
        let text = self.to_xml_string(alloc)?;
        Ok(Bytes::from_vec(text.into_bytes())?)
    }

    /// The octets of the message's text, however long it is (RFC 8181, 2.1), to be shared.
    pub fn text_bytes(&self, alloc: Global) -> Result<Bytes, OutOfMemory>
        ensures { IfOk result (λ octets. octets ≡ text_of self.now) }
    {
        Ok(Bytes::from_vec(self.text_vec(alloc)?)?)
    }

    /// The octets of the message's text, however long it is (RFC 8181, 2.1).
    pub fn text_vec(&self, alloc: Global) -> Result<Vec<u8>, OutOfMemory>
        ensures { IfOk result (λ octets. octets.items ≡ text_of self.now) }
    {
        Ok(self.text(alloc)?.into_bytes())
    }

    // The text, however long it is.
    fn text(&self, alloc: Global) -> Result<String, OutOfMemory>
        ensures { IfOk result (λ text. string_bytes text ≡ text_of self.now) }
    {
        Ok(Written { message: self }.to_string(alloc)?)
    }
}

// A message that is printed as its text.
#[derive(Drop)]
struct Written<'a> {
    message: &'a Message,
}

impl<'a> fmt::Display for Written<'a> {
    ghost output = { λ w. Some (text_of w.message.now) };

    fn fmt<W: fmt::Write>(&self, f: &mut fmt::Formatter<W>) -> fmt::Result {
        write_message(f, self.message)
    }
}
