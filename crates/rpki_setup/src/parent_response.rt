//! The response of a parent.

ghost use Rattle.std.specs.Prelude.{◌≡◌, ◌↔◌, Some, IfOk, IsTrue, MatchResult, string_bytes};
ghost use Rattle.std.specs.Option.{option_map};
ghost use Rattle.std.specs.Rc.{rc_str_bytes};
ghost use Rattle.rpki_xml.specs.Answers.{Gives};
ghost use Rattle.rpki_xmltext.specs.Answers.{Parses, WritesText, RefusesMessage};
ghost use Rattle.rpki_setup.specs.Answers.{cause_of, IsBelievedIn, RefusesCertificate};
ghost use Rattle.rpki_setup.specs.ParentResponse.{parent_response_in, parent_response_text, IsWritableParentResponse};
ghost use Rattle.rpki_xmltext.specs.Reading.{ReadsAs};

use crate::error::Error;
use crate::reading::{handle_in, last_certificate_in, root_in, service_uri_in};
use crate::service_uri::ServiceUri;
use crate::transfer::write_octets;
use crate::validation::validate_idcert_at;
use crate::writing::{write_inside, write_start};
use rpki_base::{Scheme, Time, Verifier};
use rpki_common::{OutOfMemory, Text};
use rpki_idcert::IdCert;
use rpki_text::{Base64, ChildHandle, ParentHandle, Sink, Source, read_all};
use rpki_xml::{ElementRef, XmlError, read_document};
use rpki_xmltext::{
    MOST_OCTETS, cloned, is_plain_or_absent, lent, shared, tag_in, taken_in, write_attribute,
    write_optional,
};
use std::alloc::Global;
use std::fmt;
use std::marker::Model;
use std::rc::RcStr;

/// What a parent answers its child (RFC 8183, 5.2.2): its BPKI trust anchor, the handles by which the two are known, where its service
/// is reached, and the tag of the request, if it had one. In a clause it is the record of its fields, and the certificate the list of
/// its octets.
#[derive(Debug, PartialEq, Eq)]
pub struct ParentResponse {
    id_cert: Base64,
    parent_handle: ParentHandle,
    child_handle: ChildHandle,
    service_uri: ServiceUri,
    tag: Option<Text>,
}

impl Drop for ParentResponse {
    fn drop(self) {
        let ParentResponse {
            id_cert,
            parent_handle,
            child_handle,
            service_uri,
            tag,
        } = self;
    }
}

impl Model for ParentResponse {
    ghost use Rattle.rpki_setup.specs.ParentResponse.{ParentResponseFields};

    ghost Value = { ParentResponseFields };

    ghost view = { λ m. record {
      id_cert = m.id_cert;
      parent_handle = m.parent_handle;
      child_handle = m.child_handle;
      service_uri = m.service_uri;
      tag = m.tag;
    } };

    ghost inverse = { λ m. record {
      id_cert = m.id_cert;
      parent_handle = m.parent_handle;
      child_handle = m.child_handle;
      service_uri = m.service_uri;
      tag = m.tag;
    } };
}

/// # Data access
impl ParentResponse {
    /// A response of these parts.
    pub fn new(
        id_cert: Base64,
        parent_handle: ParentHandle,
        child_handle: ChildHandle,
        service_uri: ServiceUri,
        tag: Option<RcStr>,
    ) -> ParentResponse
        ensures { result ≡ record {
          id_cert = id_cert;
          parent_handle = parent_handle;
          child_handle = child_handle;
          service_uri = service_uri;
          tag = option_map rc_str_bytes tag;
        } }
    {
        ParentResponse {
            id_cert,
            parent_handle,
            child_handle,
            service_uri,
            tag: taken_in(tag),
        }
    }

    /// The parent's BPKI trust anchor.
    pub fn id_cert(&self) -> &Base64
        ensures { result.now ≡ self.now.id_cert }
    {
        &self.id_cert
    }

    /// The handle by which the child knows the parent.
    pub fn parent_handle(&self) -> &ParentHandle
        ensures { result.now ≡ self.now.parent_handle }
    {
        &self.parent_handle
    }

    /// The handle by which the parent knows the child.
    pub fn child_handle(&self) -> &ChildHandle
        ensures { result.now ≡ self.now.child_handle }
    {
        &self.child_handle
    }

    /// Where the parent's service is reached.
    pub fn service_uri(&self) -> &ServiceUri
        ensures { result.now ≡ self.now.service_uri }
    {
        &self.service_uri
    }

    /// The tag, where there is one.
    pub fn tag(&self) -> Option<&RcStr>
        ensures { option_map (λ t. rc_str_bytes t.now) result ≡ self.now.tag }
    {
        shared(&self.tag)
    }

    /// Whether it can be written so that it is read again: the handles have the pattern, the service URI can be, and the tag consists of
    /// octets that a document may have. It takes no memory.
    pub fn is_writable(&self) -> bool
        ensures { IsTrue result ↔ IsWritableParentResponse self.now }
    {
        // For the proof: octets are octets.
        let _id_cert = self.id_cert.as_str();
        self.parent_handle.has_pattern()
            && self.child_handle.has_pattern()
            && self.service_uri.is_writable()
            && is_plain_or_absent(&self.tag)
    }

    /// An equal response, whose texts are shared with this one.
    pub fn clone(&self, alloc: Global) -> Result<ParentResponse, OutOfMemory>
        ensures { IfOk result (λ m. m ≡ self.now) }
    {
        let id_cert = self.id_cert.clone(alloc)?;
        let parent_handle = self.parent_handle.clone(alloc)?;
        let child_handle = self.child_handle.clone(alloc)?;
        let service_uri = self.service_uri.clone(alloc)?;
        let tag = cloned(alloc, &self.tag)?;
        Ok(ParentResponse {
            id_cert,
            parent_handle,
            child_handle,
            service_uri,
            tag,
        })
    }
}

/// # Reading and writing
impl ParentResponse {
    // The response that an element is read as.
    fn of_element(alloc: Global, root: &ElementRef<'_>) -> Result<ParentResponse, XmlError>
        ensures { Gives (parent_response_in root.now) (λ m. m) result }
    {
        root_in("parent_response", root)?;
        let parent_handle = handle_in(alloc, "parent_handle", root)?;
        let child_handle = handle_in(alloc, "child_handle", root)?;
        let service_uri = service_uri_in(alloc, root)?;
        let tag = tag_in(alloc, root)?;
        let id_cert = last_certificate_in(alloc, root.children())?;
        Ok(ParentResponse {
            id_cert,
            parent_handle,
            child_handle,
            service_uri,
            tag,
        })
    }

    /// The response that all that a source has to give is, a document of XML. TooLong where there are more than 2^31 octets, and
    /// otherwise InvalidXml exactly where they are no response; Read only where the source failed.
    pub fn parse<I: Source>(alloc: Global, source: &mut I) -> Result<ParentResponse, Error>
        ensures { Parses cause_of (ReadsAs parent_response_in)
            (RefusesMessage cause_of parent_response_in) (I.rest source.old) (I.rest source.new)
            (I.faults source.old) (I.faults source.new) result }
    {
        let octets = read_all(alloc, source, MOST_OCTETS)?;
        ParentResponse::parse_slice(alloc, &octets)
    }

    /// The response that the octets are, a document of XML. InvalidXml exactly where they are none.
    pub fn parse_slice(alloc: Global, octets: &[u8]) -> Result<ParentResponse, Error>
        ensures { MatchResult result (ReadsAs parent_response_in octets.now)
            (RefusesMessage cause_of parent_response_in octets.now) }
    {
        let document = read_document(alloc, octets)?;
        Ok(ParentResponse::of_element(alloc, &document.as_ref())?)
    }

    /// Writes the response as a document of XML. TooLong exactly where that has more than 2^31 octets, Write only where the sink failed;
    /// want of memory comes before the first write.
    pub fn write_xml<O: Sink>(&self, alloc: Global, sink: &mut O) -> Result<(), Error>
        ensures { WritesText cause_of (parent_response_text self.now) (O.written sink.old)
            (O.written sink.new) (O.faults sink.old) (O.faults sink.new) result }
    {
        let text = self.to_xml_vec(alloc)?;
        write_octets(sink, &text)
    }

    /// The octets of the response, a document of XML without added white space.
    pub fn to_xml_vec(&self, alloc: Global) -> Result<Vec<u8>, OutOfMemory>
        ensures { IfOk result (λ octets. octets.items ≡ parent_response_text self.now) }
    {
        Ok(self.to_xml_string(alloc)?.into_bytes())
    }

    /// The text of the response, a document of XML without added white space.
    pub fn to_xml_string(&self, alloc: Global) -> Result<String, OutOfMemory>
        ensures { IfOk result (λ text. string_bytes text ≡ parent_response_text self.now) }
    {
        Ok(self.to_string(alloc)?)
    }
}

impl fmt::Display for ParentResponse {
    ghost output = { λ m. Some (parent_response_text m) };

    fn fmt<W: fmt::Write>(&self, f: &mut fmt::Formatter<W>) -> fmt::Result {
        write_start(f, "parent_response")?;
        write_attribute(f, "parent_handle", self.parent_handle.as_str())?;
        write_attribute(f, "child_handle", self.child_handle.as_str())?;
        write_attribute(f, "service_uri", self.service_uri.as_str())?;
        write_optional(f, "tag", lent(&self.tag))?;
        write_inside(f, "parent_response", "parent_bpki_ta", &self.id_cert)
    }
}

/// # Validation
impl ParentResponse {
    /// The parent's BPKI trust anchor, believed at the moment, in seconds since 1970. InvalidTaCertEncoding exactly where the octets
    /// begin with no identity certificate, InvalidTaCert exactly where a check of a trust anchor fails.
    pub fn validate_at<P: Scheme, V: Verifier<P>>(
        &self,
        alloc: Global,
        verifier: &V,
        when: Time,
    ) -> Result<IdCert, Error>
        ensures { MatchResult result (IsBelievedIn P.checks self.now.id_cert when)
            (RefusesCertificate P.checks self.now.id_cert when) }
    {
        validate_idcert_at(alloc, &self.id_cert, verifier, when)
    }
}
