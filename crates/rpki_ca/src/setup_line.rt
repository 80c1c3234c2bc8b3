//! The command `setup`.

ghost use Rattle.std.specs.Prelude.{◌≡◌, ◌≢◌, Ok, Err, IfOk, IfErr, OnOk};
ghost use Rattle.rpki_ca.specs.Answer.{IsLineOf};
ghost use Rattle.rpki_ca.specs.Setup.{IsSetupAnswer, ReadsSetup, IsAnchored, RefusesAnchor, certificate_octets};

use crate::line::line_of;
use crate::refusals::Refusal;
use crate::setup_message::{SetupKind, SetupMessage};
use rpki_base::{Scheme, Time, Verifier};
use rpki_setup::validate_idcert_at;
use std::alloc::Global;

// Whether the message's certificate is accepted as a trust anchor's certificate at the moment.
fn check_anchor<P: Scheme, V: Verifier<P>>(
    alloc: Global,
    message: &SetupMessage,
    when: Time,
    verifier: &V,
) -> Result<(), Refusal>
    ensures ok { OnOk result (IsAnchored P.checks (certificate_octets message.now) when) }
    ensures err { IfErr result (λ e. e ≢ Refusal.OutOfMemory
        → RefusesAnchor P.checks (certificate_octets message.now) when e) }
{
    validate_idcert_at(alloc, message.id_cert(), verifier, when)?;
    Ok(())
}

// The line with the message's text, if its certificate is believed.
fn setup_line_of<P: Scheme, V: Verifier<P>>(
    alloc: Global,
    kind: SetupKind,
    input: &[u8],
    message: &SetupMessage,
    when: Time,
    verifier: &V,
) -> Result<Vec<u8>, Refusal>
    requires { ReadsSetup kind input.now message.now }
    ensures ok { IfOk result (λ line.
        IsLineOf (IsSetupAnswer P.checks kind input.now when) line.items) }
    ensures err { IfErr result (λ e. e ≢ Refusal.OutOfMemory
        → IsSetupAnswer P.checks kind input.now when (Err e)) }
{
    check_anchor(alloc, message, when, verifier)?;
    let text = message.to_xml_vec(alloc)?;
    Ok(line_of(text)?)
}

/// The text of the setup message of this kind that the input is, if its certificate is believed as a
/// trust anchor's at the moment, and a line feed.
pub(crate) fn setup_line<P: Scheme, V: Verifier<P>>(
    alloc: Global,
    kind: SetupKind,
    input: &[u8],
    when: Time,
    verifier: &V,
) -> Result<Vec<u8>, Refusal>
    ensures ok { IfOk result (λ line.
        IsLineOf (IsSetupAnswer P.checks kind input.now when) line.items) }
    ensures err { IfErr result (λ e. e ≢ Refusal.OutOfMemory
        → IsSetupAnswer P.checks kind input.now when (Err e)) }
{
    let message = SetupMessage::parse(alloc, kind, input)?;
    setup_line_of(alloc, kind, input, &message, when, verifier)
}
