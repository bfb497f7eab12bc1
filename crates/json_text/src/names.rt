//! Numbers that stand where an object's name has to stand.

ghost use Rattle.std.specs.Prelude.{◌≡◌, IfOk};
ghost use Rattle.json.specs.Reads.{token_of};
ghost use Rattle.json_text.specs.Names.{is_number_name, has_number_name};

use crate::tag::is_tagged;
use json::{Reader, Scratch, Token};
use std::alloc::{AllocError, Global};

fn is_number_name(token: &Token<'_>) -> bool
    ensures { result ≡ is_number_name (token_of token.now) }
{
    match token {
        Token::Key(name) => is_tagged(name),
        _ => false,
    }
}

/// Whether the name of a member, also of one that is repeated, was a number before it was quoted.
/// JSON (RFC 8259, section 4) has strings alone as names.
#[tactic(auto, unfolding(crate::specs::Names::has_number_name))]
pub(crate) fn has_number_name(alloc: Global, quoted: &str) -> Result<bool, AllocError>
    ensures { IfOk result (λ found. found ≡ has_number_name quoted.now) }
{
    let mut scratch = Scratch::new(alloc);
    let mut reader = Reader::new(quoted, &mut scratch)?;
    while let Some(token) = reader.next() {
        if is_number_name(&token) {
            return Ok(true);
        }
    }
    Ok(false)
}
