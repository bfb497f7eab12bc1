//! Lines of bytes to trees.

ghost use Rattle.std.specs.Prelude.{◌≡◌, None, Err};
ghost use Rattle.json_text.specs.declared.fault.JsonFault.TheVariants.{Syntax};
ghost use Rattle.json_text.specs.Fault.{GivesBy, IsBy};
ghost use Rattle.json_text.specs.Line.{IsNoText, text_of, tree_of, tree_at};
ghost use Rattle.json_text.specs.Tagged.{tagged_tree, tree_in};
ghost use Rattle.json_text.specs.Trees.{view};
ghost use Rattle.serde_json.specs.View.{view as value_view};

use crate::fault::JsonFault;
use crate::names::has_number_name;
use crate::one_pass::{Stop, tree_of_text};
use crate::quote::quote_numbers;
use crate::trees::Tree;
use json::Scratch;
use serde_json::Value;
use simdutf8::basic::from_utf8;
use std::alloc::Global;

/// The bytes of the longest line.
const MAX_LINE: usize = 1_048_576;

#[tactic(auto, unfolding(crate::specs::Line::text_of))]
fn text_of(line: &[u8]) -> Result<&str, JsonFault>
    ensures { IsBy (λ s. s.now) result (text_of line.now) }
{
    if line.len() > MAX_LINE {
        return Err(JsonFault::Syntax);
    }
    match from_utf8(line) {
        Ok(text) => Ok(text),
        Err(_) => Err(JsonFault::Syntax),
    }
}

/// The tree of a text whose numbers are quoted.
#[tactic(auto, unfolding(crate::specs::Line::tree_of))]
fn tree_of(alloc: Global, quoted: &str) -> Result<Value, JsonFault>
    ensures { GivesBy value_view result (tree_of quoted.now) }
{
    if has_number_name(alloc, quoted)? {
        return Err(JsonFault::Syntax);
    }
    match Value::from_str(alloc, quoted) {
        Ok(value) => Ok(value),
        Err(e) if e.is_memory() => Err(JsonFault::Memory),
        Err(_) => Err(JsonFault::Syntax),
    }
}

/// The refusal of a text that has no tree in one pass: its numbers are quoted, and the quoted text is read.
#[cold]
#[inline(never)]
fn refused_by_quoting<'a>(alloc: Global, text: &str) -> Result<Tree<'a>, JsonFault>
    requires { tagged_tree text.now ≡ None }
    ensures { GivesBy view result (tree_in text.now) }
{
    let quoted = quote_numbers(alloc, text)?;
    match tree_of(alloc, &quoted) {
        Ok(_) => unreachable!(),
        Err(fault) => Err(fault),
    }
}

/// The tree of a text of any length, or its first refusal.
pub fn utf8_tree<'a>(
    alloc: Global,
    scratch: &'a mut Scratch,
    text: &'a str,
) -> Result<Tree<'a>, JsonFault>
    ensures { GivesBy view result (tree_in text.now) }
{
    match tree_of_text(alloc, scratch, text) {
        Ok(tree) => Ok(tree),
        Err(Stop::Memory) => Err(JsonFault::Memory),
        Err(Stop::Declined) => refused_by_quoting(alloc, text),
    }
}

/// The JSON tree of a line. Each number is a text there, as written, behind U+0001, so none is
/// read as floating point. `scratch` is memory for reading, whatever it holds: one is kept and lent to each line.
///
/// Refused, in this order: a line of more than 1,048,576 bytes or that is no UTF-8 (`Syntax`);
/// what [`quote_numbers`] refuses; a text that is no JSON, that nests deeper than 127 arrays and
/// objects, or in which a name of an object is a number (`Syntax`). Only the first needs no memory.
#[tactic(auto, unfolding(crate::specs::Line::tree_at))]
pub fn line_tree<'a>(
    alloc: Global,
    scratch: &'a mut Scratch,
    line: &'a [u8],
) -> Result<Tree<'a>, JsonFault>
    ensures exact { GivesBy view result (tree_at line.now) }
    // No memory is taken to refuse a line that is too long or no UTF-8.
    ensures unread { IsNoText line.now → result ≡ Err Syntax }
{
    let text = text_of(line)?;
    utf8_tree(alloc, scratch, text)
}
