//! What a message is made of.

use crate::error::BuildError;
use rpki_base::{PublicKey, Time};
use rpki_signer::ToyScheme;
use std::alloc::Global;

/// What a message is made of.
#[derive(Drop)]
pub struct Parts {
    /// The octets of the content.
    pub content: Vec<u8>,
    /// The signing time, in seconds since 1970. Certificate and CRL hold from 300 seconds before to 300 seconds behind it.
    pub moment: i64,
    /// The seed of the toy keys: key 0 issues, key 1 signs the message.
    pub seed: u64,
    /// The serial numbers that the CRL lists, in this order. The message's own certificate has the serial number 1.
    pub revoked: Vec<u64>,
}

// How many seconds certificate and CRL hold to each side of the moment.
const MARGIN: i64 = 300;

/// Who signs, and when.
#[derive(Drop)]
pub(crate) struct Setting {
    /// The key that signs certificate and CRL.
    pub(crate) issuer: PublicKey,
    /// The key that signs the message.
    pub(crate) subject: PublicKey,
    /// The first second of certificate and CRL.
    pub(crate) first: Time,
    /// The signing time.
    pub(crate) moment: Time,
    /// The last second of certificate and CRL.
    pub(crate) last: Time,
}

// The time so many seconds behind the moment.
fn shifted(moment: i64, seconds: i64) -> Option<Time> {
    Time::new(moment.checked_add(seconds)?)
}

// The first second, the signing time, and the last second.
fn times(moment: i64) -> Option<(Time, Time, Time)> {
    let first = shifted(moment, -MARGIN)?;
    let last = shifted(moment, MARGIN)?;
    Some((first, Time::new(moment)?, last))
}

impl Setting {
    /// The setting of these parts.
    pub(crate) fn new(alloc: Global, parts: &Parts) -> Result<Setting, BuildError> {
        let Some((first, moment, last)) = times(parts.moment) else {
            return Err(BuildError::Moment);
        };
        let issuer = ToyScheme::key(alloc, parts.seed, 0)?;
        let subject = ToyScheme::key(alloc, parts.seed, 1)?;
        Ok(Setting {
            issuer,
            subject,
            first,
            moment,
            last,
        })
    }
}
