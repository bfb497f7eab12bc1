//! Lists, element by element.

ghost use Rattle.std.specs.Prelude.{◌≡◌, ◌≤◌, [], length, IfOk, Ok};
ghost use Rattle.json_text.specs.Trees.{view, items_view};
ghost use Rattle.json_text.specs.Fault.{Gives, GivesBy, IsBy};
ghost use Rattle.json_text.specs.Fields.{each_after, non_empty_in};
ghost use Rattle.json_text.specs.Lists.{counted_in};

use crate::fault::JsonFault;
use crate::fields::list_in;
use crate::trees::Tree;
use ocpi_types::Field;
use std::alloc::Global;

/// How an element of a list is read.
pub trait ElementReader<T> {
    ghost use Rattle.std.specs.Prelude.{List};
    ghost use Rattle.serde_json.specs.Data.{Data};
    ghost use Rattle.json_text.specs.Fault.{Read};

    /// What an element is read as, beside those before it.
    ghost at: { Self → List T → Data → Read T };

    /// One element, beside those before it.
    fn element(&self, alloc: Global, before: &[T], value: &Tree<'_>) -> Result<T, JsonFault>
        ensures { Gives result (Self.at self.now before.now (view value.now)) };
}

/// Each element in turn.
pub fn elements<T: Drop, R: ElementReader<T>>(
    alloc: Global,
    reader: &R,
    values: &[Tree<'_>],
) -> Result<Vec<T>, JsonFault>
    ensures { GivesBy (λ v. v.items) result (each_after (R.at reader.now) [] (items_view values.now)) }
{
    let mut out = Vec::new(alloc);
    for value in values {
        let element = reader.element(alloc, out.as_slice(), value)?;
        out.push(element)?;
    }
    Ok(out)
}

/// The elements of a list of `least` to `most` elements. Another number is `WrongForm` of the list's name.
#[tactic(auto, unfolding(crate::specs::Lists::counted_in))]
pub fn counted_in<'t, 'a>(
    object: &'t Tree<'a>,
    field: Field,
    least: usize,
    most: usize,
) -> Result<&'t [Tree<'a>], JsonFault>
    ensures exact { IsBy (λ v. items_view v.now) result (counted_in least most field (view object.now)) }
    ensures count { IfOk result (λ v. (least ≤ length v.now) × (length v.now ≤ most)) }
{
    let items = list_in(object, field)?;
    if least <= items.len() && items.len() <= most {
        Ok(items)
    } else {
        Err(JsonFault::WrongForm(field))
    }
}

/// The elements of a list of one or more. An empty one is `WrongForm` of the list's name.
#[tactic(auto, using(crate::proofs::Listing::is_some_list, crate::proofs::Listing::is_empty_list), unfolding(crate::specs::Fields::non_empty_in))]
pub fn non_empty_in<'t, 'a>(object: &'t Tree<'a>, field: Field) -> Result<&'t [Tree<'a>], JsonFault>
    ensures { IsBy (λ v. items_view v.now) result (non_empty_in field (view object.now)) }
{
    let items = list_in(object, field)?;
    if items.is_empty() {
        Err(JsonFault::WrongForm(field))
    } else {
        Ok(items)
    }
}
