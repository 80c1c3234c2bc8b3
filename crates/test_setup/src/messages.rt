//! The four messages, as what they have in common.

use rpki_base::Time;
use rpki_idcert::IdCert;
use rpki_setup::{
    ChildRequest, Error, OutOfMemory, ParentResponse, PublisherRequest, RepositoryResponse,
};
use rpki_signer::ToyVerifier;
use rpki_text::{MemorySink, MemorySource};
use std::alloc::Global;
use std::rc::RcStr;

/// The calls of a setup message.
pub trait SetupMessage: Drop {
    fn read(alloc: Global, source: &mut MemorySource) -> Result<Self, Error>;

    fn read_slice(alloc: Global, octets: &[u8]) -> Result<Self, Error>;

    fn copy(&self, alloc: Global) -> Result<Self, OutOfMemory>;

    fn is_same(&self, other: &Self) -> bool;

    fn text(&self, alloc: Global) -> Result<String, OutOfMemory>;

    fn octets(&self, alloc: Global) -> Result<Vec<u8>, OutOfMemory>;

    fn printed(&self, alloc: Global) -> Result<String, OutOfMemory>;

    fn sink(&self, alloc: Global, sink: &mut MemorySink) -> Result<(), Error>;

    fn own_tag(&self) -> Option<&RcStr>;

    fn believed(&self, alloc: Global, when: Time) -> Result<IdCert, Error>;
}

impl SetupMessage for ChildRequest {
    fn read(alloc: Global, source: &mut MemorySource) -> Result<ChildRequest, Error> {
        ChildRequest::parse(alloc, source)
    }

    fn read_slice(alloc: Global, octets: &[u8]) -> Result<ChildRequest, Error> {
        ChildRequest::parse_slice(alloc, octets)
    }

    fn copy(&self, alloc: Global) -> Result<ChildRequest, OutOfMemory> {
        self.clone(alloc)
    }

    fn is_same(&self, other: &ChildRequest) -> bool {
        self == other
    }

    fn text(&self, alloc: Global) -> Result<String, OutOfMemory> {
        self.to_xml_string(alloc)
    }

    fn octets(&self, alloc: Global) -> Result<Vec<u8>, OutOfMemory> {
        self.to_xml_vec(alloc)
    }

    fn printed(&self, alloc: Global) -> Result<String, OutOfMemory> {
        Ok(format!(in alloc; "{self}")?)
    }

    fn sink(&self, alloc: Global, sink: &mut MemorySink) -> Result<(), Error> {
        self.write_xml(alloc, sink)
    }

    fn own_tag(&self) -> Option<&RcStr> {
        self.tag()
    }

    fn believed(&self, alloc: Global, when: Time) -> Result<IdCert, Error> {
        self.validate_at(alloc, &ToyVerifier::new(), when)
    }
}

impl SetupMessage for ParentResponse {
    fn read(alloc: Global, source: &mut MemorySource) -> Result<ParentResponse, Error> {
        ParentResponse::parse(alloc, source)
    }

    fn read_slice(alloc: Global, octets: &[u8]) -> Result<ParentResponse, Error> {
        ParentResponse::parse_slice(alloc, octets)
    }

    fn copy(&self, alloc: Global) -> Result<ParentResponse, OutOfMemory> {
        self.clone(alloc)
    }

    fn is_same(&self, other: &ParentResponse) -> bool {
        self == other
    }

    fn text(&self, alloc: Global) -> Result<String, OutOfMemory> {
        self.to_xml_string(alloc)
    }

    fn octets(&self, alloc: Global) -> Result<Vec<u8>, OutOfMemory> {
        self.to_xml_vec(alloc)
    }

    fn printed(&self, alloc: Global) -> Result<String, OutOfMemory> {
        Ok(format!(in alloc; "{self}")?)
    }

    fn sink(&self, alloc: Global, sink: &mut MemorySink) -> Result<(), Error> {
        self.write_xml(alloc, sink)
    }

    fn own_tag(&self) -> Option<&RcStr> {
        self.tag()
    }

    fn believed(&self, alloc: Global, when: Time) -> Result<IdCert, Error> {
        self.validate_at(alloc, &ToyVerifier::new(), when)
    }
}

impl SetupMessage for PublisherRequest {
    fn read(alloc: Global, source: &mut MemorySource) -> Result<PublisherRequest, Error> {
        PublisherRequest::parse(alloc, source)
    }

    fn read_slice(alloc: Global, octets: &[u8]) -> Result<PublisherRequest, Error> {
        PublisherRequest::parse_slice(alloc, octets)
    }

    fn copy(&self, alloc: Global) -> Result<PublisherRequest, OutOfMemory> {
        self.clone(alloc)
    }

    fn is_same(&self, other: &PublisherRequest) -> bool {
        self == other
    }

    fn text(&self, alloc: Global) -> Result<String, OutOfMemory> {
        self.to_xml_string(alloc)
    }

    fn octets(&self, alloc: Global) -> Result<Vec<u8>, OutOfMemory> {
        self.to_xml_vec(alloc)
    }

    fn printed(&self, alloc: Global) -> Result<String, OutOfMemory> {
        Ok(format!(in alloc; "{self}")?)
    }

    fn sink(&self, alloc: Global, sink: &mut MemorySink) -> Result<(), Error> {
        self.write_xml(alloc, sink)
    }

    fn own_tag(&self) -> Option<&RcStr> {
        self.tag()
    }

    fn believed(&self, alloc: Global, when: Time) -> Result<IdCert, Error> {
        self.validate_at(alloc, &ToyVerifier::new(), when)
    }
}

impl SetupMessage for RepositoryResponse {
    fn read(alloc: Global, source: &mut MemorySource) -> Result<RepositoryResponse, Error> {
        RepositoryResponse::parse(alloc, source)
    }

    fn read_slice(alloc: Global, octets: &[u8]) -> Result<RepositoryResponse, Error> {
        RepositoryResponse::parse_slice(alloc, octets)
    }

    fn copy(&self, alloc: Global) -> Result<RepositoryResponse, OutOfMemory> {
        self.clone(alloc)
    }

    fn is_same(&self, other: &RepositoryResponse) -> bool {
        self == other
    }

    fn text(&self, alloc: Global) -> Result<String, OutOfMemory> {
        self.to_xml_string(alloc)
    }

    fn octets(&self, alloc: Global) -> Result<Vec<u8>, OutOfMemory> {
        self.to_xml_vec(alloc)
    }

    fn printed(&self, alloc: Global) -> Result<String, OutOfMemory> {
        Ok(format!(in alloc; "{self}")?)
    }

    fn sink(&self, alloc: Global, sink: &mut MemorySink) -> Result<(), Error> {
        self.write_xml(alloc, sink)
    }

    fn own_tag(&self) -> Option<&RcStr> {
        self.tag()
    }

    fn believed(&self, alloc: Global, when: Time) -> Result<IdCert, Error> {
        self.validate_at(alloc, &ToyVerifier::new(), when)
    }
}
