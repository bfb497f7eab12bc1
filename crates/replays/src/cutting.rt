//! A file, cut at its empty lines: what stands between is the text of one run.

ghost use Rattle.std.specs.Prelude.{◌≡◌, ◌≢◌, ◌≤◌, ◌+◌, ◌^◌, ◌↔◌, ◌++◌, ◌∷◌, All, IfNone, IfSome, IsTrue, List, false, true, length, ℕ};
ghost use Rattle.replays.specs.Cutting.{BeginsAnew, EndsRun, GoesFurther, GoesPast, feeds};
ghost use Rattle.replays.specs.Fronts.{feeds_of};
ghost use Rattle.replays.specs.CutRuns.{HasNumbers, IsNextRun};

use memchr::memchr;

/// An echoed line of a file.
#[derive(Clone, Copy)]
pub struct EchoedLine<'a> {
    /// Its number in the file, from 1, empty lines counted.
    pub number: usize,
    /// The line as it came, without its line feed.
    pub bytes: &'a [u8],
}

/// What one run printed behind its two line feeds.
#[derive(Clone, Copy)]
pub(crate) struct RunText<'a> {
    /// Without a line feed at its end.
    pub bytes: &'a [u8],
    /// The number of its first line in the file.
    pub number: usize,
    /// Whether a line feed more may have stood at its end.
    pub is_ended: bool,
}

/// What is left of a file.
#[derive(Clone, Copy)]
pub(crate) struct Runs<'a> {
    rest: &'a [u8],
    /// The number of the line that begins there.
    number: usize,
}

/// What stands before the first line feed of a text, and what stands behind it.
pub(crate) fn split_feed(text: &[u8]) -> Option<(&[u8], &[u8])>
    ensures is { IfSome result (λ x. text.now ≡ x.0.now ++ 10 ∷ x.1.now) }
    ensures plain { IfSome result (λ x. All (λ b. b ≢ 10) x.0.now) }
    ensures none { IfNone result (All (λ b. b ≢ 10) text.now) }
{
    let end = memchr(b'\n', text)?;
    let (front, rest) = text.split_at(end);
    let (_, behind) = rest.split_first()?;
    Some((front, behind))
}

/// How many line feeds a text begins with, and what stands behind them.
#[tactic(auto, using(crate::proofs::CutLemmas::other_first, crate::proofs::CutLemmas::none_left))]
fn behind_feeds(text: &[u8]) -> (usize, &[u8])
    ensures is { text.now ≡ feeds result.0 ++ result.1.now }
    ensures anew { BeginsAnew result.1.now }
{
    let mut count: usize = 0;
    let mut rest = text;
    while let Some((first, behind)) = rest.split_first() {
        if *first != b'\n' {
            return (count, rest);
        }
        rest = behind;
        count += 1;
    }
    (count, rest)
}

/// How many line feeds a text has.
#[tactic(auto, using(crate::proofs::CutLemmas::feed_counts, crate::proofs::CutLemmas::other_counts, crate::proofs::CutLemmas::none_counts))]
pub(crate) fn feeds_in(text: &[u8]) -> usize
    ensures is { result ≡ feeds_of text.now }
    ensures few { result ≤ length text.now }
{
    let mut count: usize = 0;
    let mut rest = text;
    while let Some((first, behind)) = rest.split_first() {
        if *first == b'\n' {
            count += 1;
        }
        rest = behind;
    }
    count
}

/// Whether a text begins with a line feed, or has nothing.
#[tactic(auto, using(crate::proofs::CutLemmas::feed_ends, crate::proofs::CutLemmas::end_ends))]
fn ends_there(text: &[u8]) -> bool
    ensures yes { result ≡ true → EndsRun (10 ∷ text.now) }
    ensures not { result ≡ false → (c : ℕ) × ((more : List ℕ) × (text.now ≡ c ∷ more) × (c ≢ 10)) }
{
    match text.split_first() {
        Some((first, _)) => {
            if *first == b'\n' {
                return true;
            }
            false
        }
        None => true,
    }
}

/// Whether a run ends in front of a text: where nothing stands there, or an empty line, or one line feed.
#[tactic(auto, using(crate::proofs::CutLemmas::none_end, crate::proofs::CutLemmas::there_ends))]
fn ends_run(text: &[u8]) -> bool
    ensures yes { result ≡ true → EndsRun text.now }
    ensures not { result ≡ false → GoesPast text.now }
{
    match text.split_first() {
        Some((first, behind)) => {
            if *first == b'\n' {
                return ends_there(behind);
            }
            false
        }
        None => true,
    }
}

/// What stands in front of the first empty line of a text, or where there is none, of a line feed at its end; and what
/// stands behind that.
#[tactic(auto, using(crate::proofs::CutLemmas::not_far, crate::proofs::CutLemmas::none_end, crate::proofs::CutLemmas::further))]
fn split_run(text: &[u8]) -> (&[u8], &[u8])
    ensures is { text.now ≡ result.0.now ++ result.1.now }
    ensures further { GoesFurther result.0.now result.1.now }
    ensures ends { EndsRun result.1.now }
{
    let mut length: usize = 0;
    let mut rest = text;
    while let Some((_, behind)) = rest.split_first() {
        if ends_run(rest) {
            return text.split_at(length);
        }
        rest = behind;
        length += 1;
    }
    (text, rest)
}

impl<'a> Runs<'a> {
    /// A whole file.
    pub(crate) fn new(text: &'a [u8]) -> Runs<'a>
        ensures rest { result.rest.now ≡ text.now }
        ensures number { result.number ≡ 1 }
    {
        Runs {
            rest: text,
            number: 1,
        }
    }

    /// A whole file has no more lines than can be numbered. It does nothing.
    pub(crate) fn is_numbered(self)
        requires { self.number ≡ 1 }
        ensures { HasNumbers self.entry.number self.entry.rest.now }
    {}

    /// The text of the next run that has some.
    pub(crate) fn next(&mut self) -> Option<RunText<'a>>
        requires { HasNumbers self.old.number self.old.rest.now }
        ensures some { IfSome result (λ r. IsNextRun self.old r self.new) }
        ensures none { IfNone result ((count : ℕ) × (self.old.rest.now ≡ feeds count)) }
        ensures numbers { HasNumbers self.new.number self.new.rest.now }
    {
        let (front, text) = behind_feeds(self.rest);
        if text.is_empty() {
            return None;
        }
        let (bytes, behind) = split_run(text);
        let (after, _) = behind_feeds(behind);
        let number = self.number + front;
        self.rest = behind;
        self.number = number + feeds_in(bytes);
        Some(RunText {
            bytes,
            number,
            is_ended: after >= 3,
        })
    }
}
