//! Runs over a reader and a writer that fail.

use line_runs::{AnswerLines, LineReader, Ran, RunFault, Turn, run_whole};
use std::alloc::{AllocError, Global};
use std::cell::Cell;
use std::io::{self, BufReader, ErrorKind, Read, Write};

/// Answers each line by one byte.
#[derive(Clone, Copy)]
struct Answers;

impl AnswerLines for Answers {
    ghost use Rattle.std.specs.Prelude.{⊤};

    ghost line_gives = { λ s line turn out t. ⊤ };

    ghost end_gives = { λ s ran out. ⊤ };

    fn answer_line(&mut self, _line: &[u8], output: &mut String) -> Result<Turn, AllocError> {
        output.push('y')?;
        Ok(Turn::Taken)
    }

    fn answer_end(&self, _output: &mut String) -> Result<Ran, AllocError> {
        Ok(Ran::Whole)
    }

    ghost cut_alike = { λ s t line turn out h. tt };
}

/// Shows so many lines, each by a read of its own, and then a read fails. Where what was written is not flushed, the
/// input ends.
#[derive(Clone, Copy)]
struct BreaksOff<'a> {
    lines: u8,
    is_flushed: &'a Cell<bool>,
}

impl Read for BreaksOff<'_> {
    fn read(&mut self, buf: &mut [u8]) -> io::Result<usize> {
        if !self.is_flushed.get() {
            return Ok(0);
        }
        if self.lines == 0 {
            return Err(io::Error::from(ErrorKind::ConnectionReset));
        }
        self.lines -= 1;
        let mut line = b"a\n".as_slice();
        line.read(buf)
    }
}

/// Takes so many bytes, and flushes but for the flush of that number, from 0 on.
#[derive(Clone, Copy)]
struct Takes<'a> {
    bytes: usize,
    flushes_until_one_fails: usize,
    is_flushed: &'a Cell<bool>,
}

impl Write for Takes<'_> {
    fn write(&mut self, buf: &[u8]) -> io::Result<usize> {
        if self.bytes == 0 {
            return Err(io::Error::from(ErrorKind::StorageFull));
        }
        let taken = self.bytes.min(buf.len());
        self.bytes -= taken;
        self.is_flushed.set(false);
        Ok(taken)
    }

    fn flush(&mut self) -> io::Result<()> {
        self.is_flushed.set(true);
        match self.flushes_until_one_fails {
            0 => {
                self.flushes_until_one_fails = usize::MAX;
                Err(io::Error::from(ErrorKind::StorageFull))
            }
            left => {
                self.flushes_until_one_fails = left - 1;
                Ok(())
            }
        }
    }
}

/// Of an input of two lines whose third read fails: how the run ends over a writer that takes so many bytes, and whose
/// flush of that number fails.
fn run(alloc: Global, bytes: usize, failing_flush: usize) -> Result<Ran, RunFault> {
    let is_flushed = Cell::new(false);
    let source = BreaksOff {
        lines: 2,
        is_flushed: &is_flushed,
    };
    let mut writer = Takes {
        bytes,
        flushes_until_one_fails: failing_flush,
        is_flushed: &is_flushed,
    };
    let Ok(reader) = BufReader::with_capacity(alloc, 8, source) else {
        return Err(RunFault::TooManyReads);
    };
    run_whole(
        alloc,
        &mut Answers,
        &mut LineReader::new(reader),
        &mut writer,
    )
}

/// The run flushes before each of the three reads, and at the end.
#[test]
fn runs_end_with_what_failed(rt: HostRuntime) {
    for (bytes, failing_flush, fault) in [
        (2, 4, RunFault::ReadFailed),
        (1, 4, RunFault::WriteFailed),
        (2, 0, RunFault::WriteFailed),
        (2, 3, RunFault::WriteFailed),
    ] {
        assert_eq!(rt; run(rt.alloc(), bytes, failing_flush), Err(fault));
    }
}
