//! An empty text and an empty content, which the elements of a message share.

ghost use Rattle.std.specs.Prelude.{◌≡◌, IfOk};
ghost use Rattle.rpki_text.specs.Base64.{base64_content};
ghost use Rattle.rpki_xml.specs.Answers.{Gives};

use rpki_common::{OutOfMemory, Text};
use rpki_text::Base64;
use rpki_xml::XmlError;
use rpki_xmltext::base64_of;
use std::alloc::Global;

/// An empty text and an empty content. Each element that has such a one shares its octets, so that it takes no memory of its own.
#[derive(Drop)]
pub(crate) struct EmptyValues {
    text: Text,
    content: Base64,
}

impl EmptyValues {
    /// Both, made once for a message.
    pub(crate) fn new(alloc: Global) -> Result<EmptyValues, OutOfMemory> {
        Ok(EmptyValues {
            text: Text::from_str(alloc, "")?,
            content: Base64::from_content(alloc, &[])?,
        })
    }

    /// A text, the shared one where it is empty.
    pub(crate) fn text_of(&self, alloc: Global, text: &str) -> Result<Text, OutOfMemory>
        ensures { IfOk result (λ t. t ≡ text.now) }
    {
        if text == self.text.as_str() {
            return self.text.clone(alloc);
        }
        Text::from_str(alloc, text)
    }

    /// The octets of a base64 text, the shared ones where it is empty.
    pub(crate) fn content_of(&self, alloc: Global, text: &str) -> Result<Base64, XmlError>
        ensures { Gives (base64_content text.now) (λ b. b) result }
    {
        if text == self.content.as_str() {
            return Ok(self.content.clone(alloc)?);
        }
        base64_of(alloc, text)
    }
}
