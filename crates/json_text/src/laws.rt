//! Laws of the definitions, for all values: each function's contract is one, and its body does nothing.

ghost use Rattle.std.specs.Prelude.{◌≡◌, ◌≤◌, ◌<◌, ℕ, List, false, Ok, Err, Some, option_and_then};
ghost use Rattle.json.specs.Json.{Json, Members, object};
ghost use Rattle.serde_json.specs.Data.{Data};
ghost use Rattle.serde_json.specs.Find.{get};
ghost use Rattle.serde_json.specs.Read.{of_json};
ghost use Rattle.json_text.specs.declared.fault.JsonFault.TheVariants.{Syntax};
ghost use Rattle.json_text.specs.Line.{text_of, tree_at};
ghost use Rattle.json_text.specs.Names.{has_number_name};
ghost use Rattle.json_text.specs.Nesting.{HasJson, nesting, max_nesting, last_of};
ghost use Rattle.json_text.specs.Quote.{quote};

/// A line in which more than 127 arrays and objects stand within one another is refused as `Syntax`. One of fewer is
/// read as its tree, where no name is a number; and what is read is such a line.
pub fn lines_nest_no_deeper_than_127()
    ensures deeper { (line quoted : List ℕ) (j : Json) → text_of line ≡ Ok line → quote line ≡ Ok quoted → HasJson quoted j → max_nesting < nesting j → tree_at line ≡ Err Syntax }
    ensures others { (line quoted : List ℕ) (j : Json) (d : Data) → text_of line ≡ Ok line → quote line ≡ Ok quoted → has_number_name quoted ≡ false → HasJson quoted j → nesting j ≤ max_nesting → of_json j ≡ Some d → tree_at line ≡ Ok d }
    ensures found { (line : List ℕ) (d : Data) → tree_at line ≡ Ok d → (quoted : List ℕ) × (j : Json) × (quote line ≡ Ok quoted) × HasJson quoted j × (nesting j ≤ max_nesting) × (of_json j ≡ Some d) }
{}

/// Where several members of an object have one name, its tree has the last of them.
pub fn the_last_of_a_repeated_name_counts()
    ensures { (ms : Members) (d : Data) (name : List ℕ) → of_json (object ms) ≡ Some d → get name d ≡ option_and_then of_json (last_of name ms) }
{}
