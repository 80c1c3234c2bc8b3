//! Writing BIT STRINGs, and other values whose contents may be too long to be written.

ghost use Rattle.std.specs.Prelude.{◌≡◌, ◌↔◌, ◌++◌, ◌+◌, ◌^◌, ◌<◌, length, IsTrue, OnOk, OnErr};
ghost use Rattle.rpki_der.specs.Writing.{der_primitive, der_constructed};
ghost use Rattle.rpki_base.specs.Bits.{spelled_bits};

use rpki_common::OutOfMemory;
use rpki_der::{Tag, Writer};

/// Whether length octets can say this number of octets: four of them hold it (X.690, 8.1.3).
pub fn can_be_spelled(count: usize) -> bool
    ensures { IsTrue result ↔ (count < 2 ^ 32) }
{
    count < 1 << 32
}

/// Appends the BIT STRING of these octets, in DER and with no unused bits. After a refusal nothing is appended; what is longer
/// than length octets can say is refused as want of memory.
pub(crate) fn write_bits(octets: &[u8], out: &mut Writer) -> Result<(), OutOfMemory>
    ensures ok { OnOk result (out.new ≡ out.old ++ spelled_bits octets.now) }
    ensures short { OnOk result (length octets.now + 1 < 2 ^ 32) }
    ensures err { OnErr result (out.new ≡ out.old) }
{
    if !can_be_spelled(octets.len() + 1) {
        return Err(OutOfMemory);
    }
    let mut content = out.inner();
    content.raw(&[0])?;
    content.raw(octets)?;
    out.primitive(Tag::BIT_STRING, content.as_slice())
}

/// Appends the primitive value with this tag and these contents, in DER. After a refusal nothing is appended; contents of 2^32
/// octets or more, which length octets can't say, are refused as want of memory.
pub fn write_primitive(tag: Tag, content: &[u8], out: &mut Writer) -> Result<(), OutOfMemory>
    ensures ok { OnOk result (out.new ≡ out.old ++ der_primitive tag content.now) }
    ensures short { OnOk result (length content.now < 2 ^ 32) }
    ensures err { OnErr result (out.new ≡ out.old) }
{
    if !can_be_spelled(content.len()) {
        return Err(OutOfMemory);
    }
    out.primitive(tag, content)
}

/// Appends the constructed value with this tag and these contents, in DER. After a refusal nothing is appended; contents of 2^32
/// octets or more, which length octets can't say, are refused as want of memory.
pub fn write_constructed(tag: Tag, content: &Writer, out: &mut Writer) -> Result<(), OutOfMemory>
    ensures ok { OnOk result (out.new ≡ out.old ++ der_constructed tag content.now) }
    ensures short { OnOk result (length content.now < 2 ^ 32) }
    ensures err { OnErr result (out.new ≡ out.old) }
{
    if !can_be_spelled(content.as_slice().len()) {
        return Err(OutOfMemory);
    }
    out.constructed(tag, content)
}
