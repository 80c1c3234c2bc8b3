//! What signed messages of the publication protocol show, as the fields of an answer.

use rpki_base::Time;
use rpki_der::DecodeError;
use rpki_publication::{Error, Message, PublicationCms};
use rpki_sigmsg::SignedMessage;
use rpki_signer::{ToyScheme, ToyVerifier};
use std::alloc::Global;
use test_stored::Fields;

/// A refusal, as what is printed.
pub fn refused(alloc: Global, error: Error) -> Result<Fields, DecodeError> {
    match error {
        Error::OutOfMemory => Err(DecodeError::OutOfMemory),
        _ => {
            let mut fields = Fields::one(alloc, b"refused")?;
            fields.print(alloc, error)?;
            Ok(fields)
        }
    }
}

/// A message as it is written.
pub fn written(alloc: Global, message: &Message) -> Result<Fields, DecodeError> {
    Ok(Fields::one(alloc, &message.text_vec(alloc)?)?)
}

/// A message that was read, as it is written; or why none was read.
pub fn read_shown(alloc: Global, read: Result<Message, Error>) -> Result<Fields, DecodeError> {
    match read {
        Ok(message) => written(alloc, &message),
        Err(error) => refused(alloc, error),
    }
}

fn whole_fields(alloc: Global, cms: &PublicationCms) -> Result<Fields, DecodeError> {
    let mut fields = Fields::one(alloc, cms.signed_message().content().as_slice())?;
    fields.octets(cms.message().text_bytes(alloc)?.as_slice())?;
    Ok(fields)
}

/// The content, and the message as it is written.
pub fn whole_shown(
    alloc: Global,
    decoded: Result<PublicationCms, Error>,
) -> Result<Fields, DecodeError> {
    match decoded {
        Ok(cms) => whole_fields(alloc, &cms),
        Err(error) => refused(alloc, error),
    }
}

fn signed_fields(
    alloc: Global,
    signed: &SignedMessage,
    message: &Message,
) -> Result<Fields, DecodeError> {
    let mut fields = Fields::one(alloc, signed.digest())?;
    fields.octets(&[u8::from(signed.digest_holds())])?;
    fields.octets(message.text_bytes(alloc)?.as_slice())?;
    Ok(fields)
}

/// The digest and whether it holds, and the message as it is written, by the call that gives both away.
pub fn signed_shown(
    alloc: Global,
    decoded: Result<PublicationCms, Error>,
) -> Result<Fields, DecodeError> {
    match decoded {
        Ok(cms) => {
            let (signed, message) = cms.unpack();
            signed_fields(alloc, &signed, &message)
        }
        Err(error) => refused(alloc, error),
    }
}

/// The message as it is written, by the call that gives it away.
pub fn message_shown(
    alloc: Global,
    decoded: Result<PublicationCms, Error>,
) -> Result<Fields, DecodeError> {
    match decoded {
        Ok(cms) => written(alloc, &cms.into_message()),
        Err(error) => refused(alloc, error),
    }
}

/// The signed message, written again.
pub fn rewritten(
    alloc: Global,
    decoded: Result<PublicationCms, Error>,
) -> Result<Fields, DecodeError> {
    match decoded {
        Ok(cms) => Ok(Fields::one(alloc, cms.to_bytes(alloc)?.as_slice())?),
        Err(error) => refused(alloc, error),
    }
}

fn moment_of(argument: &[u8]) -> Option<Time> {
    Time::new(std::str::from_utf8(argument).ok()?.parse::<i64>().ok()?)
}

fn validated(alloc: Global, cms: &PublicationCms, argument: &[u8]) -> Result<Fields, DecodeError> {
    let Some(when) = moment_of(argument) else {
        return Err(DecodeError::Malformed);
    };
    let key = ToyScheme::key(alloc, 1, 0)?;
    match cms.validate_at(&ToyVerifier::new(), &key, when) {
        Ok(()) => Ok(Fields::done(alloc)?),
        Err(error) => refused(alloc, error),
    }
}

/// What the checks answer under key 0 of seed 1 at the moment of the argument.
pub fn checked(
    alloc: Global,
    decoded: Result<PublicationCms, Error>,
    argument: &[u8],
) -> Result<Fields, DecodeError> {
    match decoded {
        Ok(cms) => validated(alloc, &cms, argument),
        Err(error) => refused(alloc, error),
    }
}
