//! The layers, and what each says of octets.

ghost use Rattle.std.specs.Prelude.{◌≡◌};
ghost use Rattle.bench_layers.specs.Outcome.{layer_named, Says, SaysOfDocument, SaysOfTree};

use crate::walk::values_met;
use rpki_der::{DecodeError, Mode, read_tree};
use rpki_xml::{XmlError, read_document};
use std::alloc::Global;

/// A layer that is run alone.
#[derive(Clone, Copy, Debug, PartialEq, Eq)]
pub enum Layer {
    /// Documents are read.
    Document,
    /// A value is read with all that is in it.
    Tree,
    /// A cursor goes through a value.
    Walk,
}

/// What a layer says of octets.
#[derive(Clone, Copy, Debug, PartialEq, Eq)]
pub enum Outcome {
    /// The octets are a document.
    Read,
    /// A value of so many octets stands at their beginning.
    Octets(usize),
    /// A value stands at their beginning, in which so many values were met.
    Values(usize),
    /// The layer refuses them.
    Malformed,
    /// Memory ran out.
    OutOfMemory,
}

impl Layer {
    /// The layer with this name.
    pub fn named(name: &str) -> Option<Layer>
        ensures { result ≡ layer_named name.now }
    {
        match name {
            "document" => Some(Layer::Document),
            "tree" => Some(Layer::Tree),
            "walk" => Some(Layer::Walk),
            _ => None,
        }
    }

    /// What the layer says of octets.
    pub fn outcome(self, alloc: Global, octets: &[u8]) -> Outcome
        ensures { Says self result octets.now }
    {
        match self {
            Layer::Document => outcome_of_document(alloc, octets),
            Layer::Tree => outcome_of_tree(alloc, octets),
            Layer::Walk => match values_met(alloc, octets) {
                Ok(count) => Outcome::Values(count),
                Err(DecodeError::Malformed) => Outcome::Malformed,
                Err(DecodeError::OutOfMemory) => Outcome::OutOfMemory,
            },
        }
    }
}

fn outcome_of_document(alloc: Global, octets: &[u8]) -> Outcome
    ensures { SaysOfDocument result octets.now }
{
    match read_document(alloc, octets) {
        Ok(_) => Outcome::Read,
        Err(XmlError::Malformed) => Outcome::Malformed,
        Err(XmlError::OutOfMemory) => Outcome::OutOfMemory,
    }
}

fn outcome_of_tree(alloc: Global, octets: &[u8]) -> Outcome
    ensures { SaysOfTree result octets.now }
{
    match read_tree(alloc, Mode::Ber, octets) {
        Ok((_, count)) => Outcome::Octets(count),
        Err(DecodeError::Malformed) => Outcome::Malformed,
        Err(DecodeError::OutOfMemory) => Outcome::OutOfMemory,
    }
}
