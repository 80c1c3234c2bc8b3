//! The response of a repository.

ghost use Rattle.std.specs.Prelude.{◌≡◌, ◌↔◌, Some, IfOk, IsTrue, MatchResult, string_bytes};
ghost use Rattle.std.specs.Option.{option_map};
ghost use Rattle.std.specs.Rc.{rc_str_bytes};
ghost use Rattle.rpki_xml.specs.Answers.{Gives};
ghost use Rattle.rpki_xmltext.specs.Answers.{Parses, WritesText, RefusesMessage};
ghost use Rattle.rpki_setup.specs.Answers.{cause_of, IsBelievedIn, RefusesCertificate};
ghost use Rattle.rpki_setup.specs.RepositoryResponse.{repository_response_in, repository_response_text, IsWritableRepositoryResponse};
ghost use Rattle.rpki_xmltext.specs.Reading.{ReadsAs};

use crate::error::Error;
use crate::reading::{handle_in, one_certificate_in, repo_info_in, root_in, service_uri_in};
use crate::repo_info::RepoInfo;
use crate::service_uri::ServiceUri;
use crate::transfer::write_octets;
use crate::validation::validate_idcert_at;
use crate::writing::{write_inside, write_repo_info, write_start};
use rpki_base::{Scheme, Time, Verifier};
use rpki_common::{OutOfMemory, Text};
use rpki_idcert::IdCert;
use rpki_text::{Base64, PublisherHandle, Sink, Source, read_all, uri};
use rpki_xml::{ElementRef, XmlError, read_document};
use rpki_xmltext::{
    MOST_OCTETS, cloned, is_plain_or_absent, lent, shared, tag_in, taken_in, write_attribute,
    write_optional,
};
use std::alloc::Global;
use std::fmt;
use std::marker::Model;
use std::rc::RcStr;

/// What a repository answers a publisher (RFC 8183, 5.2.4): its BPKI trust anchor, the handle by which it knows the publisher, where its
/// service is reached and its objects are found, and the tag of the request, if it had one. In a clause it is the record of its fields,
/// and the certificate the list of its octets.
#[derive(Debug, PartialEq, Eq)]
pub struct RepositoryResponse {
    id_cert: Base64,
    publisher_handle: PublisherHandle,
    service_uri: ServiceUri,
    repo_info: RepoInfo,
    tag: Option<Text>,
}

impl Drop for RepositoryResponse {
    fn drop(self) {
        let RepositoryResponse {
            id_cert,
            publisher_handle,
            service_uri,
            repo_info,
            tag,
        } = self;
    }
}

impl Model for RepositoryResponse {
    ghost use Rattle.rpki_setup.specs.RepositoryResponse.{RepositoryResponseFields};

    ghost Value = { RepositoryResponseFields };

    ghost view = { λ m. record {
      id_cert = m.id_cert;
      publisher_handle = m.publisher_handle;
      service_uri = m.service_uri;
      repo_info = m.repo_info;
      tag = m.tag;
    } };

    ghost inverse = { λ m. record {
      id_cert = m.id_cert;
      publisher_handle = m.publisher_handle;
      service_uri = m.service_uri;
      repo_info = m.repo_info;
      tag = m.tag;
    } };
}

/// # Data access
impl RepositoryResponse {
    /// A response of these parts.
    pub fn new(
        id_cert: Base64,
        publisher_handle: PublisherHandle,
        service_uri: ServiceUri,
        sia_base: uri::Rsync,
        rrdp_notification_uri: Option<uri::Https>,
        tag: Option<RcStr>,
    ) -> RepositoryResponse
        ensures { result ≡ record {
          id_cert = id_cert;
          publisher_handle = publisher_handle;
          service_uri = service_uri;
          repo_info = record {
            sia_base = sia_base;
            rrdp_notification_uri = rrdp_notification_uri;
          };
          tag = option_map rc_str_bytes tag;
        } }
    {
        RepositoryResponse {
            id_cert,
            publisher_handle,
            service_uri,
            repo_info: RepoInfo::new(sia_base, rrdp_notification_uri),
            tag: taken_in(tag),
        }
    }

    /// The repository's BPKI trust anchor.
    pub fn id_cert(&self) -> &Base64
        ensures { result.now ≡ self.now.id_cert }
    {
        &self.id_cert
    }

    /// The handle by which the repository knows the publisher.
    pub fn publisher_handle(&self) -> &PublisherHandle
        ensures { result.now ≡ self.now.publisher_handle }
    {
        &self.publisher_handle
    }

    /// Where the repository's service is reached.
    pub fn service_uri(&self) -> &ServiceUri
        ensures { result.now ≡ self.now.service_uri }
    {
        &self.service_uri
    }

    /// Where the repository's objects are found.
    pub fn repo_info(&self) -> &RepoInfo
        ensures { result.now ≡ self.now.repo_info }
    {
        &self.repo_info
    }

    /// The base, below which the publisher's objects stand.
    pub fn sia_base(&self) -> &uri::Rsync
        ensures { result.now ≡ self.now.repo_info.sia_base }
    {
        self.repo_info.base_uri()
    }

    /// Where changes are notified (RFC 8182), if they are.
    pub fn rrdp_notification_uri(&self) -> Option<&uri::Https>
        ensures { option_map (λ u. u.now) result ≡ self.now.repo_info.rrdp_notification_uri }
    {
        self.repo_info.rpki_notify()
    }

    /// The tag, where there is one.
    pub fn tag(&self) -> Option<&RcStr>
        ensures { option_map (λ t. rc_str_bytes t.now) result ≡ self.now.tag }
    {
        shared(&self.tag)
    }

    /// Whether it can be written so that it is read again: the handle has the pattern, the service URI can be, and the tag consists of
    /// octets that a document may have. It takes no memory.
    pub fn is_writable(&self) -> bool
        ensures { IsTrue result ↔ IsWritableRepositoryResponse self.now }
    {
        // For the proof: octets are octets, and the URIs of the repository are lawful.
        let _id_cert = self.id_cert.as_str();
        let _base = self.repo_info.base_uri();
        self.publisher_handle.has_pattern()
            && self.service_uri.is_writable()
            && is_plain_or_absent(&self.tag)
    }

    /// An equal response, whose texts are shared with this one.
    pub fn clone(&self, alloc: Global) -> Result<RepositoryResponse, OutOfMemory>
        ensures { IfOk result (λ m. m ≡ self.now) }
    {
        let id_cert = self.id_cert.clone(alloc)?;
        let publisher_handle = self.publisher_handle.clone(alloc)?;
        let service_uri = self.service_uri.clone(alloc)?;
        let repo_info = self.repo_info.clone(alloc)?;
        let tag = cloned(alloc, &self.tag)?;
        Ok(RepositoryResponse {
            id_cert,
            publisher_handle,
            service_uri,
            repo_info,
            tag,
        })
    }
}

/// # Reading and writing
impl RepositoryResponse {
    // The response that an element is read as.
    fn of_element(alloc: Global, root: &ElementRef<'_>) -> Result<RepositoryResponse, XmlError>
        ensures { Gives (repository_response_in root.now) (λ m. m) result }
    {
        root_in("repository_response", root)?;
        let publisher_handle = handle_in(alloc, "publisher_handle", root)?;
        let service_uri = service_uri_in(alloc, root)?;
        let repo_info = repo_info_in(alloc, root)?;
        let tag = tag_in(alloc, root)?;
        let id_cert = one_certificate_in(alloc, "repository_bpki_ta", root.children())?;
        Ok(RepositoryResponse {
            id_cert,
            publisher_handle,
            service_uri,
            repo_info,
            tag,
        })
    }

    /// The response that all that a source has to give is, a document of XML. TooLong where there are more than 2^31 octets, and
    /// otherwise InvalidXml exactly where they are no response; Read only where the source failed.
    pub fn parse<I: Source>(alloc: Global, source: &mut I) -> Result<RepositoryResponse, Error>
        ensures { Parses cause_of (ReadsAs repository_response_in)
            (RefusesMessage cause_of repository_response_in) (I.rest source.old) (I.rest source.new)
            (I.faults source.old) (I.faults source.new) result }
    {
        let octets = read_all(alloc, source, MOST_OCTETS)?;
        RepositoryResponse::parse_slice(alloc, &octets)
    }

    /// The response that the octets are, a document of XML. InvalidXml exactly where they are none.
    pub fn parse_slice(alloc: Global, octets: &[u8]) -> Result<RepositoryResponse, Error>
        ensures { MatchResult result (ReadsAs repository_response_in octets.now)
            (RefusesMessage cause_of repository_response_in octets.now) }
    {
        let document = read_document(alloc, octets)?;
        Ok(RepositoryResponse::of_element(alloc, &document.as_ref())?)
    }

    /// Writes the response as a document of XML. TooLong exactly where that has more than 2^31 octets, Write only where the sink failed;
    /// want of memory comes before the first write.
    pub fn write_xml<O: Sink>(&self, alloc: Global, sink: &mut O) -> Result<(), Error>
        ensures { WritesText cause_of (repository_response_text self.now) (O.written sink.old)
            (O.written sink.new) (O.faults sink.old) (O.faults sink.new) result }
    {
        let text = self.to_xml_vec(alloc)?;
        write_octets(sink, &text)
    }

    /// The octets of the response, a document of XML without added white space.
    pub fn to_xml_vec(&self, alloc: Global) -> Result<Vec<u8>, OutOfMemory>
        ensures { IfOk result (λ octets. octets.items ≡ repository_response_text self.now) }
    {
        Ok(self.to_xml_string(alloc)?.into_bytes())
    }

    /// The text of the response, a document of XML without added white space.
    pub fn to_xml_string(&self, alloc: Global) -> Result<String, OutOfMemory>
        ensures { IfOk result (λ text. string_bytes text ≡ repository_response_text self.now) }
    {
        Ok(self.to_string(alloc)?)
    }
}

impl fmt::Display for RepositoryResponse {
    ghost output = { λ m. Some (repository_response_text m) };

    fn fmt<W: fmt::Write>(&self, f: &mut fmt::Formatter<W>) -> fmt::Result {
        write_start(f, "repository_response")?;
        write_attribute(f, "publisher_handle", self.publisher_handle.as_str())?;
        write_attribute(f, "service_uri", self.service_uri.as_str())?;
        write_repo_info(f, &self.repo_info)?;
        write_optional(f, "tag", lent(&self.tag))?;
        write_inside(
            f,
            "repository_response",
            "repository_bpki_ta",
            &self.id_cert,
        )
    }
}

/// # Validation
impl RepositoryResponse {
    /// The repository's BPKI trust anchor, believed at the moment, in seconds since 1970. InvalidTaCertEncoding exactly where the octets
    /// begin with no identity certificate, InvalidTaCert exactly where a check of a trust anchor fails.
    pub fn validate_at<P: Scheme, V: Verifier<P>>(
        &self,
        alloc: Global,
        verifier: &V,
        when: Time,
    ) -> Result<IdCert, Error>
        ensures { MatchResult result (IsBelievedIn P.checks self.now.id_cert when)
            (RefusesCertificate P.checks self.now.id_cert when) }
    {
        validate_idcert_at(alloc, &self.id_cert, verifier, when)
    }
}
