//! Laws about documents, and about what is written.

ghost use Rattle.std.specs.Prelude.{◌≡◌, ◌↔◌, ◌++◌, ℕ, List, Bool, true, false, Some};
ghost use Rattle.rpki_xml.specs.AttributeSpelling.{IsAttributeSpelling};
ghost use Rattle.rpki_xml.specs.Content.{Piece};
ghost use Rattle.rpki_xml.specs.Draft.{Draft, empty_draft, with_attributes, with_element, with_elements, written};
ghost use Rattle.rpki_xml.specs.Element.{Attribute, Element, Elements, alone, joined_elements};
ghost use Rattle.rpki_xml.specs.Lettered.{AreLettered};
ghost use Rattle.rpki_xml.specs.Lexing.{IsDocument, attribute_at, character_at, ends_at, no_attribute, piece_at, until};
ghost use Rattle.rpki_xml.specs.PieceSpelling.{BeginsWithAttribute, BeginsWithPiece, IsDocumentSpelling};
ghost use Rattle.rpki_xml.specs.PlainElement.{ArePlain};
ghost use Rattle.rpki_xml.specs.Runs.{RunsTo};
ghost use Rattle.rpki_xml.specs.Spelling.{spelled};
ghost use Rattle.rpki_xml.specs.Trimmed.{AreTrimmed};
ghost use Rattle.rpki_xml.specs.declared.error.XmlError.{XmlError};

use crate::error::XmlError;

/// Octets are at most one element's document.
pub fn at_most_one()
    ensures { (b : List ℕ) (x y : Element) → IsDocument b x → IsDocument b y → x ≡ y }
{}

/// The element of a document consists of octets that a document may have.
pub fn documents_are_lettered()
    ensures { (b : List ℕ) (x : Element) → IsDocument b x → AreLettered (alone x) }
{}

/// The spelling of a plain element is a document, and its element is that element.
pub fn spelled_is_read()
    ensures { (e : Element) → ArePlain (alone e) → IsDocument (spelled e) e }
{}

/// The calls for an element leave its spelling inside the innermost open element: `element`, `attr` for its namespace and for
/// each attribute, `text`, the calls for its children, and `close`.
pub fn calls_spell()
    ensures { (e : Element) (d : Draft) → written e d ≡ with_element e d }
{}

/// The calls for elements one after the other leave what the elements are spelled as together.
pub fn calls_follow()
    ensures { (front back : Elements) (d : Draft)
        → with_elements back (with_elements front d)
        ≡ with_elements (joined_elements front back) d }
{}

/// What was written once the calls for one element are over is its spelling.
pub fn done_is_spelled()
    ensures { (e : Element) → (with_element e empty_draft).octets ≡ spelled e }
{}

/// The texts that are read have no outer white space.
pub fn texts_are_trimmed()
    ensures { (b : List ℕ) (x : Element) → IsDocument b x → AreTrimmed (alone x) }
{}

/// Attributes that are written list by list leave what their joined list leaves. So a value that may be absent, whose list has one
/// attribute or none, is an attribute of the element where it is there, and nothing where it is not.
pub fn optional_attributes_follow()
    ensures { (front back : List Attribute) (d : Draft)
        → with_attributes back (with_attributes front d) ≡ with_attributes (front ++ back) d }
{}

/// Reading until it stops is reading again and again, each time where it has not stopped yet, to the place where it stops:
/// characters of a text or a value, and attributes of a start.
pub fn runs_are_repetitions()
    ensures characters { (at_end : Bool) (stop : ℕ) (b : List ℕ) (text rest : List ℕ)
        → (until (ends_at at_end stop) character_at b ≡ Some (text, rest))
        ↔ RunsTo (ends_at at_end stop) character_at b text rest }
    ensures attributes { (b : List ℕ) (attributes : List Attribute) (rest : List ℕ)
        → (until no_attribute attribute_at b ≡ Some (attributes, rest))
        ↔ RunsTo no_attribute attribute_at b attributes rest }
{}

/// Every lawful spelling of an attribute is read as that attribute, whatever follows it: in either quote, with white space round
/// the `=`, and each character as itself or as an entity. And where an attribute stands, what is read as one was so spelled.
pub fn spelled_attributes_are_read()
    ensures stands { (s : List ℕ) (a : Attribute) (rest : List ℕ)
        → IsAttributeSpelling s a → no_attribute (s ++ rest) ≡ false }
    ensures read { (s : List ℕ) (a : Attribute) (rest : List ℕ)
        → IsAttributeSpelling s a → attribute_at (s ++ rest) ≡ Some (a, rest) }
    ensures both_ways { (b : List ℕ) (a : Attribute) (rest : List ℕ)
        → ((no_attribute b ≡ false) × (attribute_at b ≡ Some (a, rest)))
        ↔ BeginsWithAttribute b a rest }
{}

/// What is read as a piece at the front of octets is what is spelled there: start tags, end tags and empty-element tags, comments,
/// processing instructions and text runs, each with every spelling that it may have, and with none besides.
pub fn pieces_are_read_as_spelled()
    ensures { (b : List ℕ) (p : Piece) (rest : List ℕ)
        → (piece_at b ≡ Some (p, rest)) ↔ BeginsWithPiece b p rest }
{}

/// A document is what is spelled as one: octets that a document may have, which are spellings of pieces one after the other.
pub fn documents_are_read_as_spelled()
    ensures { (b : List ℕ) (x : Element) → IsDocument b x ↔ IsDocumentSpelling b x }
{}

/// `==` holds exactly between errors that are the same.
pub fn equal_errors_are_the_same()
    ensures same { (a b : XmlError) → ⟦<XmlError as PartialEq>⟧.eq a b ≡ true → a ≡ b }
    ensures equal { (a b : XmlError) → a ≡ b → ⟦<XmlError as PartialEq>⟧.eq a b ≡ true }
{}
