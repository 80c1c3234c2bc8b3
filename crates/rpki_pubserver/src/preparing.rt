//! What the program's words ask for.

ghost use Rattle.std.specs.Prelude.{◌≡◌, IfOk, IfSome, IsNone, List, Some, slice_get, ℕ};
ghost use Rattle.rpki_pubserver.specs.Running.{AreNoServerWords, AreServerWords, IsBase};

use rpki_base::{PublicKey, Time};
use rpki_ca::Words;
use rpki_common::OutOfMemory;
use rpki_text::uri;
use std::alloc::Global;

/// The moment, the base and the publisher's key.
pub(crate) struct Terms {
    pub(crate) when: Time,
    pub(crate) base: uri::Rsync,
    pub(crate) publisher: PublicKey,
}

// The base that the word at `index` names, if it is a URI of a directory.
fn base_at(alloc: Global, words: &Words, index: usize) -> Result<Option<uri::Rsync>, OutOfMemory>
    ensures some { IfOk result (λ o. IfSome o (λ base.
        (slice_get words.now index ≡ Some base) × IsBase base)) }
    ensures none { IfOk result (λ o. IsNone o → (base : List ℕ) →
        slice_get words.now index ≡ Some base → IsBase base → ⊥) }
{
    let Some(word) = words.get(index) else {
        return Ok(None);
    };
    match uri::Rsync::from_str(alloc, word) {
        Ok(base) => {
            if base.path_is_dir() {
                Ok(Some(base))
            } else {
                Ok(None)
            }
        }
        Err(uri::Error::OutOfMemory) => Err(OutOfMemory),
        Err(_) => Ok(None),
    }
}

/// What the three words ask for; None exactly where they aren't of the form.
pub(crate) fn terms_of(alloc: Global, words: &Words) -> Result<Option<Terms>, OutOfMemory>
    ensures some { IfOk result (λ o. IfSome o (λ terms.
        AreServerWords words.now terms.when terms.base terms.publisher)) }
    ensures none { IfOk result (λ o. IsNone o → AreNoServerWords words.now) }
{
    if words.len() != 3 {
        return Ok(None);
    }
    let Some(when) = words.moment(0) else {
        return Ok(None);
    };
    let Some(base) = base_at(alloc, words, 1)? else {
        return Ok(None);
    };
    let Some(publisher) = words.key(alloc, 2)? else {
        return Ok(None);
    };
    Ok(Some(Terms {
        when,
        base,
        publisher,
    }))
}
