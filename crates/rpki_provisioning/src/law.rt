//! Laws about messages and their octets.

ghost use Rattle.std.specs.Prelude.{◌≡◌, ◌≤◌, ◌+◌, ◌*◌, ℕ, List, codes, length};
ghost use Rattle.rpki_provisioning.specs.Answers.{HoldsNoCertificate, HoldsNoRequest};
ghost use Rattle.rpki_provisioning.specs.Message.{HasShape, HasNoShape, Reads, text_of};
ghost use Rattle.rpki_provisioning.specs.Shape.{MessageFields, MessageShape};
ghost use Rattle.rpki_provisioning.specs.Writable.{IsWritable};

use crate::message::CONTENT_TYPE;

/// What is written of a writable message is read as that message.
pub fn written_is_read()
    ensures { (m : MessageFields) → IsWritable m → Reads (text_of m) m }
{}

/// Every message that is read is writable.
pub fn read_is_writable()
    ensures { (octets : List ℕ) (m : MessageFields) → Reads octets m → IsWritable m }
{}

/// The text of a message that was read has at most 40 octets for each octet that was read, and 1024 more. So it is never too long
/// where fewer than 2^25 were read.
pub fn read_texts_are_short()
    ensures { (octets : List ℕ) (m : MessageFields) → Reads octets m
        → length (text_of m) ≤ 40 * length octets + 1024 }
{}

/// The media type is that of the protocol (RFC 6492, 3).
pub fn content_type_is()
    ensures { CONTENT_TYPE.now ≡ codes "application/rpki-updown" }
{}

/// Octets have at most one shape, and are at most one message.
pub fn at_most_one()
    ensures shape { (octets : List ℕ) (s t : MessageShape) → HasShape octets s → HasShape octets t
        → s ≡ t }
    ensures message { (octets : List ℕ) (m n : MessageFields) → Reads octets m → Reads octets n
        → m ≡ n }
{}

/// No octets have two of these answers: a message, that they have no shape, that a certificate in them is none, or that a request in
/// them is none.
pub fn answers_exclude_each_other()
    ensures message { (octets : List ℕ) (m : MessageFields) → Reads octets m → HasNoShape octets
        → ⊥ }
    ensures form { (octets : List ℕ) (s : MessageShape) → HasShape octets s → HasNoShape octets
        → ⊥ }
    ensures certificate { (octets : List ℕ) (m : MessageFields) → Reads octets m
        → HoldsNoCertificate octets → ⊥ }
    ensures request { (octets : List ℕ) (m : MessageFields) → Reads octets m
        → HoldsNoRequest octets → ⊥ }
    ensures faults { (octets : List ℕ) → HoldsNoCertificate octets → HoldsNoRequest octets → ⊥ }
{}
