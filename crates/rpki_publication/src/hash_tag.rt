//! Tags of the elements that change objects.

ghost use Rattle.std.specs.Prelude.{◌≡◌, IfOk};
ghost use Rattle.hex.specs.Hex.{encode_lower};
ghost use Rattle.rpki_publication.specs.Publish.{tag_text};

use rpki_common::{OutOfMemory, Text};
use rpki_text::Hash;
use std::alloc::Global;

/// The text of a digest, as a tag.
pub(crate) fn hash_tag(alloc: Global, hash: &Hash) -> Result<Text, OutOfMemory>
    ensures { IfOk result (λ t. t ≡ encode_lower hash.now) }
{
    let text = hash.to_string(alloc)?;
    Text::from_str(alloc, text.as_str())
}

/// The tag that is written: empty where there is none.
pub(crate) fn tag_text(tag: &Option<Text>) -> &str
    ensures { result.now ≡ tag_text tag.now }
{
    match tag {
        None => "",
        Some(tag) => tag.as_str(),
    }
}
