//! Messages that are signed.

ghost use Rattle.std.specs.Prelude.{◌≡◌, ◌≢◌, IfErr, IfOk, OnOk};
ghost use Rattle.rpki_signer.specs.Limits.{Keeps};
ghost use Rattle.rpki_sigmsg.specs.declared.create_error.CreateError.TheVariants as create;
ghost use Rattle.rpki_provisioning.specs.Writable.{IsWritable};
ghost use Rattle.rpki_ca.specs.Seen.{seen_signer};
ghost use Rattle.rpki_ca.specs.Sending.{FailsToSign};
ghost use Rattle.rpki_ca.specs.declared.receiving.Received.TheVariants as received;
ghost use Rattle.rpki_upserver.specs.Answering.{IsSignedResponse};

use rpki_base::{Scheme, Time};
use rpki_provisioning::{Message, ProvisioningCms};
use rpki_sigmsg::CreateError;
use rpki_signer::Signer;
use std::alloc::Global;

/// The message, signed at the moment.
pub(crate) fn signed<P: Scheme, S: Signer<P>>(
    alloc: Global,
    message: Message,
    when: Time,
    key: &S::KeyId,
    signer: &mut S,
) -> Result<ProvisioningCms, CreateError<S::Error>>
    requires { IsWritable message }
    ensures ok { IfOk result (IsSignedResponse P.checks when
        (seen_signer key.now (S.state signer.old) (S.state signer.new)) message) }
    ensures err { IfErr result (λ e. e ≢ create.OutOfMemory → FailsToSign P.checks when
        (seen_signer key.now (S.state signer.old) (S.state signer.new))
        (received.Provisioning message) e) }
    ensures keeps { Keeps (S.state signer.old) (S.state signer.new) }
    ensures kept { OnOk result
        ((S.state signer.new).faults ≡ (S.state signer.old).faults) }
{
    ProvisioningCms::create(alloc, message, when, key, signer)
}
