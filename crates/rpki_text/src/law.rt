//! What holds of all errors.

ghost use Rattle.std.specs.Prelude.{◌≡◌, ◌↔◌, true};
ghost use Rattle.rpki_text.specs.declared.base64_text.Base64Error.{Base64Error};
ghost use Rattle.rpki_text.specs.declared.handles.InvalidHandle.{InvalidHandle};
ghost use Rattle.rpki_text.specs.declared.json.JsonError.{JsonError};
ghost use Rattle.rpki_text.specs.declared.reading.ReadAllError.{ReadAllError};
ghost use Rattle.rpki_text.specs.declared.traits.Failed.{Failed};
ghost use Rattle.rpki_text.specs.declared.uri.Error.{Error};

use crate::base64_text::Base64Error;
use crate::handles::InvalidHandle;
use crate::json::JsonError;
use crate::reading::ReadAllError;
use crate::traits::Failed;
use crate::uri::Error;

/// `==` holds exactly between errors that are the same.
pub fn equal_errors_are_the_same()
    ensures uri { (a b : Error) → (⟦<Error as PartialEq>⟧.eq a b ≡ true) ↔ (a ≡ b) }
    ensures base64 { (a b : Base64Error)
        → (⟦<Base64Error as PartialEq>⟧.eq a b ≡ true) ↔ (a ≡ b) }
    ensures handle { (a b : InvalidHandle)
        → (⟦<InvalidHandle as PartialEq>⟧.eq a b ≡ true) ↔ (a ≡ b) }
    ensures json { (a b : JsonError) → (⟦<JsonError as PartialEq>⟧.eq a b ≡ true) ↔ (a ≡ b) }
    ensures reading { (a b : ReadAllError)
        → (⟦<ReadAllError as PartialEq>⟧.eq a b ≡ true) ↔ (a ≡ b) }
    ensures failed { (a b : Failed) → (⟦<Failed as PartialEq>⟧.eq a b ≡ true) ↔ (a ≡ b) }
{}
