//! How a case ends where it doesn't come to its end.

use rpki_base::ToyFault;
use rpki_ca::ReceiveError;
use rpki_cert::CsrError;
use rpki_common::OutOfMemory;
use rpki_der::DecodeError;
use rpki_sets::BlocksError;
use rpki_sigmsg::CreateError;
use rpki_signer::{CallError, KeyError, MakeError, SigningError};
use rpki_text::{InvalidHandle, uri};
use std::alloc::{AllocError, AllocFailed};

/// Why a case ends early.
#[derive(Clone, Copy, Debug, PartialEq, Eq)]
pub enum Ended {
    /// Memory was refused: the answer was want of memory, and what was lent is as before.
    OutOfMemory,
    /// The answer was another one, or what was lent has changed.
    Wrong,
}

/// How a case ends after a refusal of memory: as it has to, if what was lent is as before.
pub fn refused(is_as_before: bool) -> Ended {
    if is_as_before {
        Ended::OutOfMemory
    } else {
        Ended::Wrong
    }
}

/// How a case ends by an answer that says whether all is as it has to be.
pub fn told(answer: Result<bool, Ended>) -> Result<(), Ended> {
    match answer {
        Ok(true) => Ok(()),
        Ok(false) => Err(Ended::Wrong),
        Err(ended) => Err(ended),
    }
}

/// The answer, or how a case ends where it comes with what was given: that has to equal this copy.
pub fn given_back<T: Drop, E: PartialEq + Drop>(answer: Result<T, E>, copy: E) -> Result<T, Ended> {
    match answer {
        Ok(value) => Ok(value),
        Err(back) => Err(refused(back == copy)),
    }
}

/// How a call ends that adds to a list: where the item comes back, it has to equal this copy, and the list what it was before.
pub fn added<L: PartialEq + Drop, T: PartialEq + Drop>(
    answer: Result<(), T>,
    copy: T,
    list: &L,
    before: L,
) -> Result<(), Ended> {
    match answer {
        Ok(()) => Ok(()),
        Err(back) => Err(refused(back == copy && *list == before)),
    }
}

impl From<AllocError> for Ended {
    fn from(_: AllocError) -> Ended {
        Ended::OutOfMemory
    }
}

impl<T: Drop> From<AllocFailed<T>> for Ended {
    fn from(_: AllocFailed<T>) -> Ended {
        Ended::OutOfMemory
    }
}

impl From<OutOfMemory> for Ended {
    fn from(_: OutOfMemory) -> Ended {
        Ended::OutOfMemory
    }
}

impl From<DecodeError> for Ended {
    fn from(error: DecodeError) -> Ended {
        refused(error == DecodeError::OutOfMemory)
    }
}

impl From<BlocksError> for Ended {
    fn from(error: BlocksError) -> Ended {
        refused(matches!(error, BlocksError::OutOfMemory))
    }
}

impl From<uri::Error> for Ended {
    fn from(error: uri::Error) -> Ended {
        refused(matches!(error, uri::Error::OutOfMemory))
    }
}

impl From<InvalidHandle> for Ended {
    fn from(error: InvalidHandle) -> Ended {
        refused(matches!(error, InvalidHandle::OutOfMemory))
    }
}

impl From<ReceiveError> for Ended {
    fn from(error: ReceiveError) -> Ended {
        refused(matches!(error, ReceiveError::OutOfMemory))
    }
}

impl From<rpki_updown::Error> for Ended {
    fn from(error: rpki_updown::Error) -> Ended {
        refused(matches!(error, rpki_updown::Error::OutOfMemory))
    }
}

impl From<CallError<ToyFault>> for Ended {
    fn from(error: CallError<ToyFault>) -> Ended {
        refused(matches!(error, CallError::OutOfMemory))
    }
}

impl From<KeyError<ToyFault>> for Ended {
    fn from(error: KeyError<ToyFault>) -> Ended {
        refused(matches!(error, KeyError::OutOfMemory))
    }
}

fn is_unsigned_for_memory(error: &SigningError<ToyFault>) -> bool {
    matches!(error, SigningError::OutOfMemory)
}

impl From<CreateError<ToyFault>> for Ended {
    fn from(error: CreateError<ToyFault>) -> Ended {
        match error {
            CreateError::OutOfMemory => Ended::OutOfMemory,
            CreateError::Signing(error) => refused(is_unsigned_for_memory(&error)),
            _ => Ended::Wrong,
        }
    }
}

impl From<MakeError<ToyFault>> for Ended {
    fn from(error: MakeError<ToyFault>) -> Ended {
        match error {
            MakeError::OutOfMemory => Ended::OutOfMemory,
            MakeError::Signing(error) => refused(is_unsigned_for_memory(&error)),
            MakeError::TooLong => Ended::Wrong,
        }
    }
}

impl From<CsrError<ToyFault>> for Ended {
    fn from(error: CsrError<ToyFault>) -> Ended {
        match error {
            CsrError::OutOfMemory => Ended::OutOfMemory,
            CsrError::Uri(error) => Ended::from(error),
            CsrError::Signing(error) => refused(is_unsigned_for_memory(&error)),
            CsrError::TooLong => Ended::Wrong,
        }
    }
}
