//! The request of a child.

ghost use Rattle.std.specs.Prelude.{◌≡◌, ◌↔◌, None, Some, IfOk, IsTrue, MatchResult, string_bytes};
ghost use Rattle.std.specs.Option.{option_map};
ghost use Rattle.std.specs.Rc.{rc_str_bytes};
ghost use Rattle.rpki_xml.specs.Answers.{Gives};
ghost use Rattle.rpki_xmltext.specs.Answers.{Parses, WritesText, RefusesMessage};
ghost use Rattle.rpki_setup.specs.Answers.{cause_of, IsBelievedIn, RefusesCertificate};
ghost use Rattle.rpki_setup.specs.ChildRequest.{child_request_in, child_request_text, IsWritableChildRequest};
ghost use Rattle.rpki_xmltext.specs.Reading.{ReadsAs};

use crate::error::Error;
use crate::reading::{handle_in, one_certificate_in, root_in};
use crate::transfer::write_octets;
use crate::validation::validate_idcert_at;
use crate::writing::{write_inside, write_start};
use rpki_base::{Scheme, Time, Verifier};
use rpki_common::{OutOfMemory, Text};
use rpki_idcert::IdCert;
use rpki_text::{Base64, ChildHandle, Sink, Source, read_all};
use rpki_xml::{ElementRef, XmlError, read_document};
use rpki_xmltext::{
    MOST_OCTETS, cloned, handed_out, is_plain_or_absent, lent, shared, tag_in, write_attribute,
    write_optional,
};
use std::alloc::Global;
use std::fmt;
use std::marker::Model;
use std::rc::RcStr;

/// What a child sends to its parent (RFC 8183, 5.2.1): its BPKI trust anchor, the handle by which it wants to be known, and a tag that
/// the sender may choose. In a clause it is the record of its fields, and the certificate the list of its octets.
#[derive(Debug, PartialEq, Eq)]
pub struct ChildRequest {
    id_cert: Base64,
    child_handle: ChildHandle,
    tag: Option<Text>,
}

impl Drop for ChildRequest {
    fn drop(self) {
        let ChildRequest {
            id_cert,
            child_handle,
            tag,
        } = self;
    }
}

impl Model for ChildRequest {
    ghost use Rattle.rpki_setup.specs.ChildRequest.{ChildRequestFields};

    ghost Value = { ChildRequestFields };

    ghost view = { λ m. record {
      id_cert = m.id_cert;
      child_handle = m.child_handle;
      tag = m.tag;
    } };

    ghost inverse = { λ m. record {
      id_cert = m.id_cert;
      child_handle = m.child_handle;
      tag = m.tag;
    } };
}

/// # Data access
impl ChildRequest {
    /// A request without a tag.
    pub fn new(id_cert: Base64, child_handle: ChildHandle) -> ChildRequest
        ensures { result ≡ record { id_cert = id_cert; child_handle = child_handle; tag = None } }
    {
        ChildRequest {
            id_cert,
            child_handle,
            tag: None,
        }
    }

    /// The certificate, the handle and the tag.
    pub fn unpack(self) -> (Base64, ChildHandle, Option<RcStr>)
        ensures id_cert { result.0 ≡ self.id_cert }
        ensures child_handle { result.1 ≡ self.child_handle }
        ensures tag { option_map rc_str_bytes result.2 ≡ self.tag }
    {
        let ChildRequest {
            id_cert,
            child_handle,
            tag,
        } = self;
        (id_cert, child_handle, handed_out(tag))
    }

    /// The child's BPKI trust anchor.
    pub fn id_cert(&self) -> &Base64
        ensures { result.now ≡ self.now.id_cert }
    {
        &self.id_cert
    }

    /// The handle by which the child wants to be known.
    pub fn child_handle(&self) -> &ChildHandle
        ensures { result.now ≡ self.now.child_handle }
    {
        &self.child_handle
    }

    /// The tag, where there is one.
    pub fn tag(&self) -> Option<&RcStr>
        ensures { option_map (λ t. rc_str_bytes t.now) result ≡ self.now.tag }
    {
        shared(&self.tag)
    }

    /// Whether it can be written so that it is read again: the handle has the pattern, and the tag consists of octets that a document may
    /// have. It takes no memory.
    pub fn is_writable(&self) -> bool
        ensures { IsTrue result ↔ IsWritableChildRequest self.now }
    {
        // For the proof: octets are octets.
        let _id_cert = self.id_cert.as_str();
        self.child_handle.has_pattern() && is_plain_or_absent(&self.tag)
    }

    /// An equal request, whose texts are shared with this one.
    pub fn clone(&self, alloc: Global) -> Result<ChildRequest, OutOfMemory>
        ensures { IfOk result (λ m. m ≡ self.now) }
    {
        let id_cert = self.id_cert.clone(alloc)?;
        let child_handle = self.child_handle.clone(alloc)?;
        let tag = cloned(alloc, &self.tag)?;
        Ok(ChildRequest {
            id_cert,
            child_handle,
            tag,
        })
    }
}

/// # Reading and writing
impl ChildRequest {
    // The request that an element is read as.
    fn of_element(alloc: Global, root: &ElementRef<'_>) -> Result<ChildRequest, XmlError>
        ensures { Gives (child_request_in root.now) (λ m. m) result }
    {
        root_in("child_request", root)?;
        root.only(&["version", "child_handle", "tag"])?;
        let child_handle = handle_in(alloc, "child_handle", root)?;
        let tag = tag_in(alloc, root)?;
        let id_cert = one_certificate_in(alloc, "child_bpki_ta", root.children())?;
        Ok(ChildRequest {
            id_cert,
            child_handle,
            tag,
        })
    }

    /// The request that all that a source has to give is, a document of XML. TooLong where there are more than 2^31 octets, and
    /// otherwise InvalidXml exactly where they are no request; Read only where the source failed.
    pub fn parse<I: Source>(alloc: Global, source: &mut I) -> Result<ChildRequest, Error>
        ensures { Parses cause_of (ReadsAs child_request_in)
            (RefusesMessage cause_of child_request_in) (I.rest source.old) (I.rest source.new)
            (I.faults source.old) (I.faults source.new) result }
    {
        let octets = read_all(alloc, source, MOST_OCTETS)?;
        ChildRequest::parse_slice(alloc, &octets)
    }

    /// The request that the octets are, a document of XML. InvalidXml exactly where they are none.
    pub fn parse_slice(alloc: Global, octets: &[u8]) -> Result<ChildRequest, Error>
        ensures { MatchResult result (ReadsAs child_request_in octets.now)
            (RefusesMessage cause_of child_request_in octets.now) }
    {
        let document = read_document(alloc, octets)?;
        Ok(ChildRequest::of_element(alloc, &document.as_ref())?)
    }

    /// Writes the request as a document of XML. TooLong exactly where that has more than 2^31 octets, Write only where the sink failed;
    /// want of memory comes before the first write.
    pub fn write_xml<O: Sink>(&self, alloc: Global, sink: &mut O) -> Result<(), Error>
        ensures { WritesText cause_of (child_request_text self.now) (O.written sink.old)
            (O.written sink.new) (O.faults sink.old) (O.faults sink.new) result }
    {
        let text = self.to_xml_vec(alloc)?;
        write_octets(sink, &text)
    }

    /// The octets of the request, a document of XML without added white space.
    pub fn to_xml_vec(&self, alloc: Global) -> Result<Vec<u8>, OutOfMemory>
        ensures { IfOk result (λ octets. octets.items ≡ child_request_text self.now) }
    {
        Ok(self.to_xml_string(alloc)?.into_bytes())
    }

    /// The text of the request, a document of XML without added white space.
    pub fn to_xml_string(&self, alloc: Global) -> Result<String, OutOfMemory>
        ensures { IfOk result (λ text. string_bytes text ≡ child_request_text self.now) }
    {
        Ok(self.to_string(alloc)?)
    }
}

impl fmt::Display for ChildRequest {
    ghost output = { λ m. Some (child_request_text m) };

    fn fmt<W: fmt::Write>(&self, f: &mut fmt::Formatter<W>) -> fmt::Result {
        write_start(f, "child_request")?;
        write_attribute(f, "child_handle", self.child_handle.as_str())?;
        write_optional(f, "tag", lent(&self.tag))?;
        write_inside(f, "child_request", "child_bpki_ta", &self.id_cert)
    }
}

/// # Validation
impl ChildRequest {
    /// The child's BPKI trust anchor, believed at the moment, in seconds since 1970. InvalidTaCertEncoding exactly where the octets
    /// begin with no identity certificate, InvalidTaCert exactly where a check of a trust anchor fails.
    pub fn validate_at<P: Scheme, V: Verifier<P>>(
        &self,
        alloc: Global,
        verifier: &V,
        when: Time,
    ) -> Result<IdCert, Error>
        ensures { MatchResult result (IsBelievedIn P.checks self.now.id_cert when)
            (RefusesCertificate P.checks self.now.id_cert when) }
    {
        validate_idcert_at(alloc, &self.id_cert, verifier, when)
    }
}
