//! The two writers: what stands in them where memory is refused.

use crate::ended::{Ended, refused};
use rpki_common::OutOfMemory;
use rpki_der::{Tag, Writer};
use rpki_xml::ElementWriter;
use std::alloc::Global;

const CONTENT: [u8; 40] = [7; 40];

// ---- values

fn primitive(alloc: Global, writer: &mut Writer) -> Result<(), Ended> {
    let before = writer.as_slice().to_vec(alloc)?;
    match writer.primitive(Tag::OCTET_STRING, &CONTENT) {
        Ok(()) => Ok(()),
        Err(_) => Err(refused(writer.as_slice() == before.as_slice())),
    }
}

fn raw(alloc: Global, writer: &mut Writer) -> Result<(), Ended> {
    let before = writer.as_slice().to_vec(alloc)?;
    match writer.raw(&CONTENT) {
        Ok(()) => Ok(()),
        Err(_) => Err(refused(writer.as_slice() == before.as_slice())),
    }
}

/// A SEQUENCE of a few values, so many times inside one another.
pub fn nested(alloc: Global, levels: u64) -> Result<Writer, Ended> {
    let mut writer = Writer::new(alloc);
    primitive(alloc, &mut writer)?;
    for _ in 0..levels {
        let mut outer = writer.inner();
        constructed(alloc, &mut outer, &writer)?;
        writer = outer;
    }
    Ok(writer)
}

fn constructed(alloc: Global, writer: &mut Writer, inner: &Writer) -> Result<(), Ended> {
    let before = writer.as_slice().to_vec(alloc)?;
    if inner.as_slice().len() >= 1 << 32 {
        return Err(Ended::Wrong);
    }
    match writer.constructed(Tag::SEQUENCE, inner) {
        Ok(()) => Ok(()),
        Err(_) => Err(refused(writer.as_slice() == before.as_slice())),
    }
}

// Writes a value of each form.
fn write_values(alloc: Global, writer: &mut Writer, inner: &Writer) -> Result<(), Ended> {
    primitive(alloc, writer)?;
    raw(alloc, writer)?;
    constructed(alloc, writer, inner)
}

fn written(alloc: Global, inner: &Writer) -> Result<Writer, Ended> {
    let mut writer = Writer::new(alloc);
    for _ in 0..6 {
        write_values(alloc, &mut writer, inner)?;
    }
    Ok(writer)
}

/// Writes values of each form.
pub fn values(alloc: Global) -> Result<(), Ended> {
    let inner = nested(alloc, 3)?;
    let writer = written(alloc, &inner)?;
    // 42 octets of a value, 40 as they are, and 50 of four levels.
    if writer.into_captured()?.as_slice().len() == 6 * 132 {
        return Ok(());
    }
    Err(Ended::Wrong)
}

// ---- elements

const WRITTEN: &[u8] = b"<a b=\"&quot;\" c=\"1\">x &lt; y<d/></a>";

// Each call that is refused is made again.
#[derive(Drop)]
struct Persistent {
    writer: ElementWriter,
    is_refused: bool,
}

impl Persistent {
    fn element(&mut self, name: &str) -> Result<(), OutOfMemory> {
        if self.writer.element(name).is_ok() {
            return Ok(());
        }
        self.is_refused = true;
        self.writer.element(name)
    }

    fn attr(&mut self, name: &str, value: &str) -> Result<(), OutOfMemory> {
        if self.writer.attr(name, value).is_ok() {
            return Ok(());
        }
        self.is_refused = true;
        self.writer.attr(name, value)
    }

    fn attr_opt(&mut self, name: &str, value: Option<&str>) -> Result<(), OutOfMemory> {
        if self.writer.attr_opt(name, value).is_ok() {
            return Ok(());
        }
        self.is_refused = true;
        self.writer.attr_opt(name, value)
    }

    fn text(&mut self, text: &str) -> Result<(), OutOfMemory> {
        if self.writer.text(text).is_ok() {
            return Ok(());
        }
        self.is_refused = true;
        self.writer.text(text)
    }

    fn close(&mut self) -> Result<(), OutOfMemory> {
        if self.writer.close().is_ok() {
            return Ok(());
        }
        self.is_refused = true;
        self.writer.close()
    }
}

// The start of the outer element.
fn start(writer: &mut Persistent) -> Result<(), OutOfMemory> {
    writer.element("a")?;
    writer.attr("b", "\"")?;
    writer.attr_opt("c", Some("1"))?;
    writer.attr_opt("d", None)
}

fn write(writer: &mut Persistent) -> Result<(), OutOfMemory> {
    start(writer)?;
    writer.text("x < y")?;
    writer.element("d")?;
    writer.close()?;
    writer.close()
}

/// Writes elements by each call. A writer that is as before a refusal writes the same as one that was not refused.
pub fn elements(alloc: Global) -> Result<(), Ended> {
    let mut writer = Persistent {
        writer: ElementWriter::new(alloc),
        is_refused: false,
    };
    write(&mut writer)?;
    let Persistent { writer, is_refused } = writer;
    let written = writer.done()?;
    if written.as_slice() != WRITTEN {
        return Err(Ended::Wrong);
    }
    if is_refused {
        return Err(Ended::OutOfMemory);
    }
    Ok(())
}
