//! Which part of a run is written next.

ghost use Rattle.std.specs.Prelude.{◌≡◌};
ghost use Rattle.std.specs.Io.BufRead.{ends_with_byte};
ghost use Rattle.transcript_files.specs.Parts.{is_told, part_after, part_flushed};

/// What the next bytes belong to.
#[derive(Clone, Copy, Debug, PartialEq, Eq)]
pub enum Part {
    /// What a run begins with.
    Beginning,
    /// The echo of a line.
    Line,
    /// An echo that ended, and was not flushed.
    Echoed,
    /// The answer to a line.
    Answer,
}

impl Part {
    /// Whether the output gets these bytes too.
    pub(crate) fn is_told(self, bytes: &[u8]) -> bool
        ensures { result ≡ is_told self bytes.now }
    {
        match self {
            Part::Beginning | Part::Echoed => false,
            Part::Line => bytes.len() > 1 && ends_line(bytes),
            Part::Answer => true,
        }
    }

    /// What is written behind these bytes.
    pub(crate) fn after(self, bytes: &[u8]) -> Part
        ensures { result ≡ part_after self bytes.now }
    {
        match self {
            Part::Line => {
                if !ends_line(bytes) {
                    Part::Line
                } else if bytes.len() > 1 {
                    Part::Answer
                } else {
                    Part::Echoed
                }
            }
            Part::Beginning | Part::Echoed | Part::Answer => self,
        }
    }

    /// What is written behind a flush.
    pub(crate) fn flushed(self) -> Part
        ensures { result ≡ part_flushed self }
    {
        match self {
            Part::Echoed => Part::Answer,
            Part::Beginning | Part::Line | Part::Answer => Part::Line,
        }
    }
}

/// Whether the last byte is a line feed.
fn ends_line(bytes: &[u8]) -> bool
    ensures { result ≡ ends_with_byte 10 bytes.now }
{
    bytes.last() == Some(&b'\n')
}
