//! What a limit leaves of the child's resources.

ghost use Rattle.std.specs.Prelude.{◌≡◌, ◌≢◌, IfOk, IfSome, IsNone, OnOk, OnErr};
ghost use Rattle.rpki_updown.specs.RequestResourceLimit.{IsContained, limited_set};
ghost use Rattle.rpki_updown.specs.declared.error.Error.TheVariants as errors;

use rpki_common::OutOfMemory;
use rpki_sets::ResourceSet;
use rpki_updown::{Error, RequestResourceLimit};
use std::alloc::Global;

// Passes on want of memory.
fn unless_memory(error: Error) -> Result<(), OutOfMemory>
    ensures ok { OnOk result (error ≢ errors.OutOfMemory) }
    ensures err { OnErr result (error ≡ errors.OutOfMemory) }
{
    match error {
        Error::OutOfMemory => Err(OutOfMemory),
        _ => Ok(()),
    }
}

/// What the limit leaves of the set; None where something is stated that the set does not have.
pub(crate) fn limited(
    alloc: Global,
    limit: &RequestResourceLimit,
    set: &ResourceSet,
) -> Result<Option<ResourceSet>, OutOfMemory>
    ensures some { IfOk result (λ o. IfSome o (λ left. left ≡ limited_set limit.now set.now)) }
    ensures contained { IfOk result (λ o. IfSome o (λ _. IsContained limit.now set.now)) }
    ensures none { IfOk result (λ o. IsNone o → ¬ (IsContained limit.now set.now)) }
{
    match limit.apply_to(alloc, set) {
        Ok(left) => Ok(Some(left)),
        Err(error) => {
            unless_memory(error)?;
            Ok(None)
        }
    }
}
