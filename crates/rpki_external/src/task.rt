//! What the words of a command line ask for.

use crate::answers::Answers;
use crate::preparing::{Plan, Signatures};
use crate::preparing_requests::RequestPlan;
use bytes::Bytes;
use rpki_base::{PublicKey, Time, Validity};
use rpki_ca::{Kind, SetupKind};
use rpki_common::Sequence;

/// What the words of a command line ask for.
#[derive(Drop)]
pub enum Task {
    /// The questions of this.
    Ask(Asked),
    /// This, by answers.
    Verify {
        /// What is verified.
        what: Verified,
        /// The answers to its questions.
        answers: Answers,
    },
    /// What is in a signed message.
    Inspect,
    /// What is to be signed of this.
    Prepare(Prepared),
    /// This with its signatures.
    Finish(Finished),
}

/// What has questions.
#[derive(Drop)]
pub enum Asked {
    /// A signed message.
    Message {
        /// One to eight keys, under which it is asked.
        keys: Sequence<PublicKey>,
    },
    /// The certificate in a setup message.
    Setup {
        /// Which of the four.
        kind: SetupKind,
    },
    /// A certificate request.
    Request,
    /// The certificate request in an issue request of the provisioning protocol.
    Issue,
}

/// What is verified by answers.
#[derive(Drop)]
pub enum Verified {
    /// The message that a signed message is, which is received.
    Message {
        /// The protocol.
        kind: Kind,
        /// The moment for which it is validated.
        when: Time,
        /// The last time that was admitted, where the message is to be signed later.
        last: Option<Time>,
        /// One to eight keys.
        keys: Sequence<PublicKey>,
    },
    /// Each of the checks of a signed message.
    Checks {
        /// The moment for which they are made.
        when: Time,
        /// The key under which they are made.
        key: PublicKey,
    },
    /// A setup message, for its certificate.
    Setup {
        /// Which of the four.
        kind: SetupKind,
        /// The moment for which its certificate is validated.
        when: Time,
    },
    /// A certificate request.
    Request,
    /// The certificate request in an issue request of the provisioning protocol.
    Issue,
}

/// What is prepared.
#[derive(Drop)]
pub enum Prepared {
    /// A signed message, of the message that the input is.
    Message {
        /// The protocol.
        kind: Kind,
        /// When it is made, and with which keys.
        plan: Plan,
    },
    /// A key's own certificate.
    Anchor {
        /// When it is valid.
        validity: Validity,
        /// The key.
        key: PublicKey,
    },
    /// A certificate request.
    Request {
        /// Its key and its places.
        plan: RequestPlan,
    },
}

/// What is finished with signatures of what is prepared of it.
#[derive(Drop)]
pub enum Finished {
    /// A signed message, of the message that the input is.
    Message {
        /// The protocol.
        kind: Kind,
        /// When it is made, and with which keys.
        plan: Plan,
        /// The signatures.
        signatures: Signatures,
    },
    /// A key's own certificate.
    Anchor {
        /// When it is valid.
        validity: Validity,
        /// The key.
        key: PublicKey,
        /// The signature.
        signature: Bytes,
    },
    /// A certificate request.
    Request {
        /// Its key and its places.
        plan: RequestPlan,
        /// The signature.
        signature: Bytes,
    },
}
