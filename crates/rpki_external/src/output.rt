//! What is written: questions, receipts, checks, and octets that are to be signed.

ghost use Rattle.std.specs.Prelude.{◌≡◌, ◌++◌, ◌∷◌, [], IfOk, map, string_bytes};
ghost use Rattle.hex.specs.Hex.{encode_lower};
ghost use Rattle.rpki_ca.specs.Acceptance.{accepted_text};
ghost use Rattle.rpki_ca.specs.Lines.{answer_lines, digit_of};
ghost use Rattle.rpki_external.specs.Running as spec;

use crate::question_list::Questions;
use crate::receiving::Receipt;
use rpki_base::Time;
use rpki_common::OutOfMemory;
use rpki_sigmsg::UnsignedMessage;
use std::alloc::Global;

// A name, and octets in hexadecimal digits, on a line.
pub(crate) fn named_line(alloc: Global, name: &str, octets: &[u8]) -> Result<Vec<u8>, OutOfMemory>
    ensures { IfOk result (λ line. line.items ≡ spec.named_on_line name.now octets.now) }
{
    let digits = hex::encode(alloc, octets)?;
    Ok(format!(in alloc; "{name} {digits}\n")?.into_bytes())
}

/// The lines of questions, and the line of their digest.
pub(crate) fn asked_lines(alloc: Global, questions: &Questions) -> Result<Vec<u8>, OutOfMemory>
    ensures { IfOk result (λ text. text.items ≡ spec.asked_lines questions.now) }
{
    let mut text = questions.to_text(alloc)?;
    let digest = questions.digest(alloc)?;
    let line = named_line(alloc, "digest", digest.as_slice())?;
    text.extend_from_slice(&line)?;
    Ok(text)
}

// The line of a receipt.
fn receipt_line(alloc: Global, place: usize, time: Option<Time>) -> Result<String, OutOfMemory>
    ensures { IfOk result (λ line. string_bytes line ≡ spec.on_line (spec.placed_line place time)) }
{
    match time {
        Some(time) => Ok(format!(in alloc; "{place} {}\n", time.seconds())?),
        None => Ok(format!(in alloc; "{place} -\n")?),
    }
}

/// The line of a receipt, and the text of its message on a line.
pub(crate) fn receipt_lines(alloc: Global, receipt: &Receipt) -> Result<Vec<u8>, OutOfMemory>
    ensures { IfOk result (λ text. text.items ≡ answer_lines
        (spec.receipt_line receipt.now ∷ accepted_text receipt.now.message ∷ [])) }
{
    let line = receipt_line(alloc, receipt.place, receipt.signing_time)?;
    let mut text = line.into_bytes();
    let message = receipt.message.to_xml_vec(alloc)?;
    text.extend_from_slice(&message)?;
    text.push(b'\n')?;
    Ok(text)
}

/// A digit for each truth value, on a line.
pub(crate) fn digits_line(alloc: Global, values: &[bool]) -> Result<Vec<u8>, OutOfMemory>
    ensures { IfOk result (λ line. line.items ≡ spec.on_line (map digit_of values.now)) }
{
    let mut line = Vec::new(alloc);
    for value in values {
        line.push(if *value { b'1' } else { b'0' })?;
    }
    line.push(b'\n')?;
    Ok(line)
}

/// The lines of what is to be signed of a message: attributes, CRL, certificate.
pub(crate) fn lines_to_sign(
    alloc: Global,
    unsigned: &UnsignedMessage,
) -> Result<Vec<u8>, OutOfMemory>
    ensures { IfOk result (λ text. text.items ≡ spec.lines_of unsigned.now) }
{
    let mut text = named_line(alloc, "attributes", unsigned.attributes())?;
    let crl = named_line(alloc, "crl", unsigned.crl())?;
    text.extend_from_slice(&crl)?;
    let certificate = named_line(alloc, "certificate", unsigned.certificate())?;
    text.extend_from_slice(&certificate)?;
    Ok(text)
}
