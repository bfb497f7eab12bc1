//! The first line of `node`: the setup, and the number from which the lines behind it are counted on.

ghost use Rattle.std.specs.Prelude.{◌≡◌, IfOk, Some};
ghost use Rattle.json_text.specs.Fault.{Gives};
ghost use Rattle.json_text.specs.Trees.{view};
ghost use Rattle.node_runs.specs.SetupLines.{IsBase, as_base, base_at, base_in, base_of_line, numbered_setup_in};

use json_text::fields::{as_record, is_absent, whole_in};
use json_text::{JsonFault, Scratch, Tree, line_tree};
use ocpi_json::read_setup;
use ocpi_text::Whole;
use ocpi_types::{Field, Setup};
use std::alloc::Global;

/// The greatest number from which lines may be counted on.
const MAX_BASE: u64 = 900_000_000_000_000_000;

/// A number from which lines may be counted on.
fn as_base(number: Whole) -> Result<Option<Whole>, JsonFault>
    ensures value { result ≡ as_base (Some number) }
    ensures least { IfOk result IsBase }
{
    if number.value() >= 1 && number.value() <= MAX_BASE {
        Ok(Some(number))
    } else {
        Err(JsonFault::WrongForm(Field::Line))
    }
}

/// The member `line` of a setup, which may be absent.
#[tactic(auto, unfolding(crate::specs::SetupLines::base_at, json_text::specs::Fields::optional))]
fn base_of(object: &Tree<'_>) -> Result<Option<Whole>, JsonFault>
    ensures value { result ≡ base_at (view object.now) }
    ensures least { IfOk result IsBase }
{
    if is_absent(object, Field::Line) {
        return Ok(None);
    }
    as_base(whole_in(object, Field::Line)?)
}

#[tactic(auto, unfolding(crate::specs::SetupLines::base_of_line))]
fn base_of_line(tree: &Tree<'_>) -> Result<Option<Whole>, JsonFault>
    ensures value { result ≡ base_of_line (view tree.now) }
    ensures least { IfOk result IsBase }
{
    base_of(as_record(tree, Field::Line)?)
}

/// The number that a setup line tells, which is read once more for it.
#[tactic(auto, unfolding(crate::specs::SetupLines::base_in))]
fn base_in(alloc: Global, scratch: &mut Scratch, line: &[u8]) -> Result<Option<Whole>, JsonFault>
    ensures value { Gives result (base_in line.now) }
    ensures least { IfOk result IsBase }
{
    let tree = line_tree(alloc, scratch, line)?;
    base_of_line(&tree)
}

/// The setup that a line spells, without its line feed, with the number in its member `line`: a whole number from 1 to
/// 900,000,000,000,000,000, which may be absent or null. What is wrong with the setup is told first.
#[tactic(auto, unfolding(crate::specs::SetupLines::numbered_setup_in))]
pub fn read_numbered_setup(
    alloc: Global,
    scratch: &mut Scratch,
    line: &[u8],
) -> Result<(Setup, Option<Whole>), JsonFault>
    ensures value { Gives result (numbered_setup_in line.now) }
    ensures least { IfOk result (λ numbered. IsBase numbered.1) }
{
    let setup = match read_setup(alloc, scratch, line) {
        Ok(setup) => setup,
        Err(fault) => return Err(fault),
    };
    match base_in(alloc, scratch, line) {
        Ok(base) => Ok((setup, base)),
        Err(fault) => {
            drop(setup);
            Err(fault)
        }
    }
}
