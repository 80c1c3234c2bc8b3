//! Messages that are signed.

ghost use Rattle.std.specs.Prelude.{◌≢◌, IfErr, IfOk};
ghost use Rattle.rpki_signer.specs.Limits.{Keeps};
ghost use Rattle.rpki_publication.specs.Message.{IsWritable};
ghost use Rattle.rpki_ca.specs.Seen.{seen_signer};
ghost use Rattle.rpki_ca.specs.Sending.{FailsToSign};
ghost use Rattle.rpki_ca.specs.declared.receiving.Received.TheVariants as received;
ghost use Rattle.rpki_sigmsg.specs.declared.create_error.CreateError.TheVariants as create;
ghost use Rattle.rpki_pubserver.specs.Server.{IsSignedReply};

use rpki_base::{Scheme, Time};
use rpki_publication::{Message, PublicationCms};
use rpki_sigmsg::CreateError;
use rpki_signer::Signer;
use std::alloc::Global;

/// The message, signed at the moment.
pub(crate) fn signed<P: Scheme, S: Signer<P>>(
    alloc: Global,
    message: Message,
    when: Time,
    key: &S::KeyId,
    signer: &mut S,
) -> Result<PublicationCms, CreateError<S::Error>>
    requires { IsWritable message }
    ensures ok { IfOk result (IsSignedReply P.checks when
        (seen_signer key.now (S.state signer.old) (S.state signer.new)) message) }
    ensures err { IfErr result (λ e. e ≢ create.OutOfMemory → FailsToSign P.checks when
        (seen_signer key.now (S.state signer.old) (S.state signer.new))
        (received.Publication message) e) }
    ensures keeps { Keeps (S.state signer.old) (S.state signer.new) }
{
    PublicationCms::create(alloc, message, when, key, signer)
}
