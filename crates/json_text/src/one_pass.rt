//! The tree of a text in one pass over its tokens, its numbers as texts behind U+0001.

ghost use Rattle.std.specs.Prelude.{◌≡◌, ◌<◌, ◌∷◌, ◌++◌, [], Some, None, Err, length, IfOk, OnOk};
ghost use Rattle.json.specs.Json.{value, items, members};
ghost use Rattle.serde_json.specs.Data.{no_members};
ghost use Rattle.serde_json.specs.Read.{converted};
ghost use Rattle.json_text.specs.Trees.{view, items_view, members_view};
ghost use Rattle.json_text.specs.Tagged.{tagged, tagged_items, tagged_members, tagged_tree, tree_in};
ghost use Rattle.json_text.specs.declared.one_pass.Stop.TheVariants.{Declined, Memory};

use crate::tag::is_tagged;
use crate::trees::Tree;
use json::{Invalid, Reader, Scratch, Token};
use std::alloc::{AllocError, AllocFailed, Global};

/// How many arrays and objects may stand within one another.
const MAX_DEPTH: usize = 127;

/// How many members an object has room for once it has one: as many as OCPI's longest common records have.
const FIRST_MEMBERS: usize = 10;

/// Why one pass gave no tree.
#[derive(Clone, Copy)]
pub(crate) enum Stop {
    /// The text is no JSON, nests too deep, or has a text or a name that begins with U+0001.
    Declined,
    /// Memory ran out.
    Memory,
}

impl From<Invalid> for Stop {
    ghost from_gives = { λ _ e. e ≡ Declined };

    fn from(_e: Invalid) -> Stop {
        Stop::Declined
    }
}

impl From<AllocError> for Stop {
    ghost from_gives = { λ _ e. e ≡ Memory };

    fn from(_e: AllocError) -> Stop {
        Stop::Memory
    }
}

impl<T: Drop> From<AllocFailed<T>> for Stop {
    ghost from_gives = { λ _ e. e ≡ Memory };

    fn from(_e: AllocFailed<T>) -> Stop {
        Stop::Memory
    }
}

/// Puts a member behind the others.
#[inline(always)]
fn push_member<'a>(
    members: &mut Vec<(&'a str, Tree<'a>)>,
    member: (&'a str, Tree<'a>),
) -> Result<(), AllocError>
    ensures { OnOk result (members.new.items ≡ members.old.items ++ member.entry ∷ []) }
{
    if members.is_empty() {
        members.reserve(FIRST_MEMBERS)?;
    }
    members.push(member)?;
    Ok(())
}

#[cycle(read)]
#[inline(always)]
fn read<'a>(alloc: Global, reader: &mut Reader<'a>, depth: usize) -> Result<Tree<'a>, Stop>
    ensures ok { IfOk result
        (λ v. converted tagged (value depth reader.old) ≡ Some (view v, reader.new)) }
    ensures shorter { OnOk result (length reader.new < length reader.old) }
    ensures declined { result ≡ Err Declined → converted tagged (value depth reader.old) ≡ None }
{
    let token = reader.next().ok_or(Stop::Declined)?;
    match token {
        Token::String(text) => {
            if is_tagged(text) {
                return Err(Stop::Declined);
            }
            Ok(Tree::Text(text))
        }
        Token::Number(text) => Ok(Tree::Number(text)),
        Token::Bool(b) => Ok(Tree::Truth(b)),
        Token::Null => Ok(Tree::Null),
        Token::EndObject | Token::EndArray | Token::Key(_) | Token::Bad => Err(Stop::Declined),
        Token::BeginArray => {
            if depth == 0 {
                return Err(Stop::Declined);
            }
            Ok(Tree::Array(read_items(alloc, reader, depth - 1)?))
        }
        Token::BeginObject => {
            if depth == 0 {
                return Err(Stop::Declined);
            }
            Ok(Tree::Object(read_members(alloc, reader, depth - 1)?))
        }
    }
}

#[cycle(read)]
#[inline(never)]
fn read_items<'a>(
    alloc: Global,
    reader: &mut Reader<'a>,
    depth: usize,
) -> Result<Vec<Tree<'a>>, Stop>
    ensures ok { IfOk result
        (λ v. converted tagged_items (items (value depth) (length reader.old) reader.old)
        ≡ Some (items_view v.items, reader.new)) }
    ensures shorter { OnOk result (length reader.new < length reader.old) }
    ensures declined { result ≡ Err Declined
        → converted tagged_items (items (value depth) (length reader.old) reader.old) ≡ None }
{
    let mut found = Vec::new(alloc);
    'items: while !reader.take_end_array() {
        let item = read(alloc, reader, depth)?;
        found.push(item)?;
    }
    Ok(found)
}

#[cycle(read)]
#[inline(never)]
fn read_members<'a>(
    alloc: Global,
    reader: &mut Reader<'a>,
    depth: usize,
) -> Result<Vec<(&'a str, Tree<'a>)>, Stop>
    ensures ok { IfOk result
        (λ m. converted (λ ms. tagged_members ms no_members)
        (members (value depth) (length reader.old) reader.old)
        ≡ Some (members_view m.items, reader.new)) }
    ensures shorter { OnOk result (length reader.new < length reader.old) }
    ensures declined { result ≡ Err Declined
        → converted (λ ms. tagged_members ms no_members)
        (members (value depth) (length reader.old) reader.old) ≡ None }
{
    let mut found = Vec::new(alloc);
    'members: while let Some(name) = reader.next_key()? {
        if is_tagged(name) {
            return Err(Stop::Declined);
        }
        let member = read(alloc, reader, depth)?;
        push_member(&mut found, (name, member))?;
    }
    Ok(found)
}

/// The tree of a text of JSON that nests no deeper than 127 arrays and objects, and in which no text and no name begins
/// with U+0001. Any other is declined: its refusal is told by quoting its numbers and reading what that gives.
pub(crate) fn tree_of_text<'a>(
    alloc: Global,
    scratch: &'a mut Scratch,
    text: &'a str,
) -> Result<Tree<'a>, Stop>
    ensures ok { IfOk result (λ v. tagged_tree text.now ≡ Some (view v)) }
    ensures declined { result ≡ Err Declined → tagged_tree text.now ≡ None }
    // It is the tree of the text whose numbers are quoted.
    ensures tree { IfOk result (λ v. tree_in text.now ≡ Ok (view v)) }
{
    let mut reader = Reader::new(text, scratch)?;
    let tree = read(alloc, &mut reader, MAX_DEPTH)?;
    if reader.next().is_some() {
        return Err(Stop::Declined);
    }
    Ok(tree)
}
