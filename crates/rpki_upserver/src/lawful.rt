//! Values of texts that are lawful, so that memory alone may be wanting.

ghost use Rattle.std.specs.Prelude.{◌≡◌, IfOk, None};
ghost use Rattle.rpki_text.specs.Handle.{IsHandle};
ghost use Rattle.rpki_text.specs.Uri.{fault_of, joined, rsync};

use rpki_common::OutOfMemory;
use rpki_text::uri::{Error, Rsync};
use rpki_text::{Handle, InvalidHandle};
use std::alloc::Global;

/// The URI that a text is.
pub(crate) fn rsync_uri(alloc: Global, text: &str) -> Result<Rsync, OutOfMemory>
    requires { fault_of rsync text.now ≡ None }
    ensures { IfOk result (λ uri. uri ≡ text.now) }
{
    match Rsync::from_str(alloc, text) {
        Ok(uri) => Ok(uri),
        Err(Error::OutOfMemory) => Err(OutOfMemory),
        Err(_) => unreachable!(),
    }
}

/// The URI with a path behind it.
pub(crate) fn join(alloc: Global, base: &Rsync, path: &[u8]) -> Result<Rsync, OutOfMemory>
    requires { fault_of rsync (joined base.now path.now) ≡ None }
    ensures { IfOk result (λ uri. uri ≡ joined base.now path.now) }
{
    match base.join(alloc, path) {
        Ok(uri) => Ok(uri),
        Err(Error::OutOfMemory) => Err(OutOfMemory),
        Err(_) => unreachable!(),
    }
}

/// The handle that a text is.
pub(crate) fn handle<T>(alloc: Global, text: &str) -> Result<Handle<T>, OutOfMemory>
    requires { IsHandle text.now }
    ensures { IfOk result (λ handle. handle ≡ text.now) }
{
    match Handle::from_str(alloc, text) {
        Ok(handle) => Ok(handle),
        Err(InvalidHandle::OutOfMemory) => Err(OutOfMemory),
        Err(InvalidHandle::Pattern) => unreachable!(),
    }
}
