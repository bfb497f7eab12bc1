//! Tagged strings as number tokens.

ghost use Rattle.std.specs.Prelude.{◌≡◌, ◌≤◌, ℕ, List, length, Ok, IfOk, string_bytes};
ghost use Rattle.json_text.specs.Quote.{quote};
ghost use Rattle.json_text.specs.Unquote.{way_in, way_opened, next_way, opening_at, end_at, skipped, in_token, unquote};

use crate::quote::{plain_len, tag_char};
use std::alloc::{AllocError, Global};

/// Where a text stands.
#[derive(Clone, Copy)]
enum Way {
    /// Outside strings.
    Outside,
    /// In a string that began with so many characters of the tag.
    Opened(u8),
    Within,
    Skipped,
    /// In a number.
    Token,
}

fn way_in(c: u8) -> Way
    ensures { result ≡ way_in c }
{
    match c {
        b'"' => Way::Outside,
        b'\\' => Way::Skipped,
        _ => Way::Within,
    }
}

fn way_opened(k: u8, c: u8) -> Way
    ensures { result ≡ way_opened k c }
{
    if c == tag_char(k) {
        return if k >= 5 {
            Way::Token
        } else {
            Way::Opened(k + 1)
        };
    }
    if k == 1 { Way::Within } else { way_in(c) }
}

impl Way {
    #[tactic(auto, unfolding(crate::specs::Unquote::next_way))]
    fn next(self, c: u8) -> Way
        ensures { result ≡ next_way self c }
    {
        match self {
            Way::Outside if c == b'"' => Way::Opened(0),
            Way::Outside => Way::Outside,
            Way::Opened(k) => way_opened(k, c),
            Way::Within => way_in(c),
            Way::Skipped => Way::Within,
            Way::Token if c == b'"' => Way::Outside,
            Way::Token => Way::Token,
        }
    }

    /// Where the string at hand begins, where the one before it began at `opening`.
    fn opening(self, i: usize, opening: usize) -> usize
        ensures { result ≡ opening_at self i opening }
    {
        match self {
            Way::Outside => i,
            _ => opening,
        }
    }

    /// How far the text stays as it is: a string that may yet be a number is left out.
    fn end(self, i: usize, opening: usize) -> usize
        ensures { result ≡ end_at self i opening }
    {
        match self {
            Way::Opened(_) => opening,
            _ => i,
        }
    }

    /// How many bytes leave this as it is, and are copied.
    fn skipped(self, rest: &[u8]) -> usize
        ensures value { result ≡ skipped self rest.now }
        ensures bound { result ≤ length rest.now }
    {
        match self {
            Way::Outside | Way::Within | Way::Token => plain_len(rest),
            _ => 0,
        }
    }

    fn in_token(self) -> bool
        ensures { result ≡ in_token self }
    {
        matches!(self, Way::Token)
    }
}

/// The text with each string that begins with U+0001, written `\u0001`, as the number that it stands
/// for: what [`crate::quote_numbers`] quoted is given back.
pub fn unquote_numbers(alloc: Global, text: &str) -> Result<String, AllocError>
    ensures { IfOk result (λ s. string_bytes s ≡ unquote text.now) }
{
    let bytes = text.as_bytes();
    let mut out = String::with_capacity(alloc, text.len())?;
    let mut way = Way::Outside;
    // Up to here the text is in `out`.
    let mut start = 0;
    // Where the string at hand begins.
    let mut opening = 0;
    let mut i = 0;
    while i < bytes.len() {
        let next = way.next(bytes[i]);
        opening = way.opening(i, opening);
        if way.in_token() != next.in_token() {
            out.push_str(&text[start..way.end(i, opening)])?;
            start = i + 1;
        }
        way = next;
        i = i + 1 + next.skipped(&bytes[i + 1..]);
    }
    out.push_str(&text[start..])?;
    Ok(out)
}

/// What was quoted is given back by unquoting.
pub fn unquoting_undoes_quoting()
    ensures { (text quoted : List ℕ) → quote text ≡ Ok quoted → unquote quoted ≡ text }
{}
