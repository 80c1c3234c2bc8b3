//! What holds of every message.

ghost use Rattle.std.specs.Prelude.{◌≡◌, ◌++◌, List, ℕ, Some, None};
ghost use Rattle.rpki_der.specs.declared.mode.Mode.{Mode};
ghost use Rattle.rpki_der.specs.declared.mode.Mode.TheVariants.{Ber, Der};
ghost use Rattle.rpki_der.specs.Takes.{BeginsAs};
ghost use Rattle.rpki_der.specs.Value.{Value, spelling, IsValue};
ghost use Rattle.rpki_sigmsg.specs.Message.{MessageFields, ViewFields, signed_message, viewed_message};
ghost use Rattle.rpki_sigmsg.specs.Spelling.{rewritten, CanSpellMessage};
ghost use Rattle.rpki_sigmsg.specs.Places.{StandInTurn, parts_of};

/// What is a message in DER is the same message in BER, and so is a view of one: what strict decoding accepts, loose decoding
/// accepts with the same fields (X.690, 10).
pub fn strict_messages_are_loose()
    ensures message { (octets : List ℕ) (m : MessageFields)
        → BeginsAs (signed_message Der) Der octets m → BeginsAs (signed_message Ber) Ber octets m }
    ensures view { (octets : List ℕ) (w : ViewFields) → BeginsAs (viewed_message Der) Der octets w
        → BeginsAs (viewed_message Ber) Ber octets w }
{}

/// A value is a message exactly where there is a view of it, which has that message.
pub fn views_are_of_messages()
    ensures seen { (mode : Mode) (v : Value) (w : ViewFields) → viewed_message mode v ≡ Some w
        → signed_message mode v ≡ Some w.message }
    ensures none { (mode : Mode) (v : Value) → viewed_message mode v ≡ None
        → signed_message mode v ≡ None }
{}

/// The parts of a view, five with one CRL and six with two, stand in the octets of its message, in the order in which they are read:
/// each is a piece of these octets, between what stands before it and what stands behind it.
pub fn parts_stand_in_turn()
    ensures { (mode : Mode) (v : Value) (w : ViewFields) →
        viewed_message mode v ≡ Some w → StandInTurn (parts_of w) (spelling v) }
{}

/// What is written of a message that was read is read as that message again, whatever stands behind it: by the rules by which it was
/// read, and in BER.
pub fn rewritten_messages_are_read()
    ensures again { (mode : Mode) (v : Value) (m : MessageFields) (rest : List ℕ) →
        IsValue mode v → signed_message mode v ≡ Some m → CanSpellMessage m →
        BeginsAs (signed_message mode) mode (rewritten m ++ rest) m }
    ensures loosely { (mode : Mode) (v : Value) (m : MessageFields) (rest : List ℕ) →
        IsValue mode v → signed_message mode v ≡ Some m → CanSpellMessage m →
        BeginsAs (signed_message Ber) Ber (rewritten m ++ rest) m }
{}
