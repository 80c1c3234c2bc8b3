//! How much is handed out of a message.

ghost use Rattle.std.specs.Prelude.{Ok, ◌*◌, ◌+◌, ◌≤◌, ℕ, List, length};
ghost use Rattle.rpki_base.specs.PublicKey.{KeyFields};
ghost use Rattle.rpki_external.specs.Lengths.{handed_out, key_lines_length, keys_length};
ghost use Rattle.rpki_external.specs.Question.{QuestionsFields};
ghost use Rattle.rpki_external.specs.Receiving.{AreAskedOf};
ghost use Rattle.rpki_external.specs.Running.{IsQuestionsAnswer};
ghost use Rattle.rpki_external.specs.Spelling.{questions_text};

/// Of octets that begin with a message, whoever made it, at most twice as many are handed out, and the keys: each signed part, signature
/// and key once, under any number of keys. The text of its questions has at most four times as many, its words among them, and the lines of
/// the keys. So has what `questions message` writes, the line of the digest among it.
pub fn questions_are_short()
    ensures octets { (octets : List ℕ) (keys : List KeyFields) (q : QuestionsFields)
        → AreAskedOf octets keys q
        → handed_out q ≤ 2 * length octets + keys_length keys }
    ensures text { (octets : List ℕ) (keys : List KeyFields) (q : QuestionsFields)
        → AreAskedOf octets keys q
        → length (questions_text q) ≤ 4 * length octets + key_lines_length keys }
    ensures written { (octets : List ℕ) (keys : List KeyFields) (output : List ℕ)
        → IsQuestionsAnswer octets keys (Ok output)
        → length output ≤ 4 * length octets + key_lines_length keys }
{}
