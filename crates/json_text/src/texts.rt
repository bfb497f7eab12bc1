//! Texts of any length to trees.

ghost use Rattle.json_text.specs.Fault.{GivesBy, IsBy};
ghost use Rattle.json_text.specs.Texts.{utf8_of, text_tree};
ghost use Rattle.json_text.specs.Trees.{view};

use crate::fault::JsonFault;
use crate::lines::utf8_tree;
use crate::trees::Tree;
use json::Scratch;
use simdutf8::basic::from_utf8;
use std::alloc::Global;

fn utf8_of(text: &[u8]) -> Result<&str, JsonFault>
    ensures { IsBy (λ s. s.now) result (utf8_of text.now) }
{
    match from_utf8(text) {
        Ok(text) => Ok(text),
        Err(_) => Err(JsonFault::Syntax),
    }
}

/// The JSON tree of a text of any length, as that of a line: each number is a text there, as written, behind U+0001.
///
/// Refused as [`line_tree`](crate::line_tree) refuses, but for the length; `scratch` as there.
#[tactic(auto, unfolding(crate::specs::Texts::text_tree))]
pub fn text_tree<'a>(
    alloc: Global,
    scratch: &'a mut Scratch,
    text: &'a [u8],
) -> Result<Tree<'a>, JsonFault>
    ensures { GivesBy view result (text_tree text.now) }
{
    let text = utf8_of(text)?;
    utf8_tree(alloc, scratch, text)
}
