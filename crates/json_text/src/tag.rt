//! U+0001, the tag of a number that stands as a text.

ghost use Rattle.std.specs.Prelude.{◌≡◌, drop, IsTrue};
ghost use Rattle.json_text.specs.Tag.{is_tagged};

/// Whether the text is a number token, behind its tag.
pub(crate) fn is_tagged(text: &str) -> bool
    ensures { result ≡ is_tagged text.now }
{
    match text.as_bytes() {
        [first, ..] => *first == 1,
        [] => false,
    }
}

/// The token behind the tag.
pub(crate) fn behind_tag(text: &str) -> &str
    requires { IsTrue (is_tagged text.now) }
    ensures { result.now ≡ drop 1 text.now }
{
    &text[1..]
}
