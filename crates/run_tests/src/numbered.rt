//! Runs that count their lines: what they echo, in which order they read, write and flush, and how they end where
//! reading or writing fails.

use line_runs::{AnswerNumbered, LineReader, Ran, RunFault, Turn, run_numbered};
use std::alloc::{AllocError, Global};
use std::cell::Cell;
use std::io::{self, BufReader, ErrorKind, Read, Write};

/// The most bytes that a line may have.
const LIMIT: usize = 1_048_576;

/// The most bytes of a line that are handed on.
const HANDED: usize = LIMIT + 1;

/// What happened, from the first on: 8 times what happened before, and one of these.
const WROTE: u64 = 1;

const FLUSHED: u64 = 2;

const ANSWERED: u64 = 3;

const READ: u64 = 4;

/// Notes what happens.
fn note(events: &Cell<u64>, event: u64) {
    events.set(events.get().wrapping_mul(8).wrapping_add(event));
}

/// Answers each line by its number, of one digit, and by a plus where the line has more bytes than it may. Notes that
/// it answers.
#[derive(Clone, Copy)]
struct Numbers<'a> {
    events: &'a Cell<u64>,
    answered: u64,
}

impl AnswerNumbered for Numbers<'_> {
    ghost use Rattle.std.specs.Prelude.{⊤};

    ghost line_gives = { λ s number line turn out t. ⊤ };

    ghost end_gives = { λ s ran out. ⊤ };

    fn answer_line(
        &mut self,
        number: u64,
        line: &[u8],
        output: &mut String,
    ) -> Result<Turn, AllocError> {
        note(self.events, ANSWERED);
        self.answered = self.answered.wrapping_add(1);
        output.push(digit(number))?;
        if line.len() == HANDED {
            output.push('+')?;
        }
        Ok(Turn::Taken)
    }

    fn answer_end(&self, _output: &mut String) -> Result<Ran, AllocError> {
        Ok(Ran::Whole)
    }

    ghost cut_alike = { λ s t number line turn out h. tt };
}

/// The digit of a number below ten, and else a question mark.
fn digit(number: u64) -> char {
    match u32::try_from(number) {
        Ok(small) => match char::from_digit(small, 10) {
            Some(digit) => digit,
            None => '?',
        },
        Err(_) => '?',
    }
}

/// Shows so many bytes `a`, and then the others, of those at most so many by each read.
#[derive(Clone, Copy)]
struct Shows {
    count: usize,
    others: &'static [u8],
    most: usize,
}

impl Read for Shows {
    fn read(&mut self, buf: &mut [u8]) -> io::Result<usize> {
        if self.count == 0 {
            let most = self.most.min(buf.len());
            return self.others.read(&mut buf[..most]);
        }
        let shown = self.count.min(buf.len());
        buf[..shown].fill(b'a');
        self.count -= shown;
        Ok(shown)
    }
}

/// A sum of all bytes that were written, and of their order.
#[derive(Clone, Copy, Debug, PartialEq, Eq)]
struct Sum(u64);

impl Write for Sum {
    fn write(&mut self, buf: &[u8]) -> io::Result<usize> {
        for byte in buf {
            self.0 = self.0.wrapping_mul(31).wrapping_add(u64::from(*byte));
        }
        Ok(buf.len())
    }

    fn flush(&mut self) -> io::Result<()> {
        Ok(())
    }
}

/// An input, and what it gives with an echo and without. The input and its echo begin with so many bytes `a`.
#[derive(Clone, Copy)]
struct Case {
    count: usize,
    input: &'static [u8],
    echoed: &'static [u8],
    plain: &'static [u8],
}

/// The sum of what a run writes that is shown at most so many bytes behind the first by each read.
fn written(alloc: Global, case: Case, most: usize, echo: bool) -> Option<Sum> {
    let events = Cell::new(0);
    let mut machine = Numbers {
        events: &events,
        answered: 0,
    };
    let mut writer = Sum(1);
    let shows = Shows {
        count: case.count,
        others: case.input,
        most,
    };
    let Ok(reader) = BufReader::with_capacity(alloc, 8192, shows) else {
        return None;
    };
    let mut input = LineReader::new(reader);
    match run_numbered(alloc, &mut machine, &mut input, &mut writer, echo) {
        Ok(Ran::Whole) => Some(writer),
        _ => None,
    }
}

/// The sum of what is to be written.
fn wanted(case: Case, echo: bool) -> Option<Sum> {
    let mut sum = Sum(1);
    if !echo {
        let _ = sum.write(case.plain);
        return Some(sum);
    }
    for _ in 0..case.count {
        let _ = sum.write(b"a");
    }
    let _ = sum.write(case.echoed);
    Some(sum)
}

/// Empty lines are counted and not echoed. All of a long line is echoed, of which the machine gets the first bytes. A
/// carriage return before a line feed is not echoed, also where a read ended between the two, and others are.
#[test]
fn lines_are_numbered_and_echoed(rt: HostRuntime) {
    for case in [
        Case {
            count: 0,
            input: b"\n\na\r\n\r\nbc\n\nd",
            echoed: b"a\n3bc\n5d\n7",
            plain: b"357",
        },
        Case {
            count: 0,
            input: b"a\n\r",
            echoed: b"a\n1\r\n2",
            plain: b"12",
        },
        Case {
            count: 0,
            input: b"a\r\rb\r\r\n\r\r\n",
            echoed: b"a\r\rb\r\n1\r\n2",
            plain: b"12",
        },
        Case {
            count: LIMIT,
            input: b"\r\nb\n",
            echoed: b"\n1b\n2",
            plain: b"12",
        },
        Case {
            count: HANDED,
            input: b"\r\n",
            echoed: b"\n1+",
            plain: b"1+",
        },
        Case {
            count: HANDED,
            input: b"a\rb\r\r\nc",
            echoed: b"a\rb\r\n1+c\n2",
            plain: b"1+2",
        },
        Case {
            count: HANDED,
            input: b"b\r",
            echoed: b"b\r\n1+",
            plain: b"1+",
        },
    ] {
        for most in [1, 2, 3, 8192] {
            for echo in [false, true] {
                assert_eq!(rt; written(rt.alloc(), case, most, echo), wanted(case, echo));
            }
        }
    }
}

/// What a reader does behind its lines.
#[derive(Clone, Copy)]
enum Behind {
    /// It is at its end.
    End,
    /// It shows the first byte of a further line, and then a read fails.
    Part,
    /// A read fails.
    Fault,
}

/// Shows so many lines of one byte, each by a read of its own. Notes each read.
#[derive(Clone, Copy)]
struct Lines<'a> {
    lines: u8,
    behind: Behind,
    events: &'a Cell<u64>,
}

impl Read for Lines<'_> {
    fn read(&mut self, buf: &mut [u8]) -> io::Result<usize> {
        note(self.events, READ);
        if self.lines > 0 {
            self.lines -= 1;
            return b"a\n".as_slice().read(buf);
        }
        match self.behind {
            Behind::End => Ok(0),
            Behind::Part => {
                self.behind = Behind::Fault;
                b"b".as_slice().read(buf)
            }
            Behind::Fault => Err(io::Error::from(ErrorKind::ConnectionReset)),
        }
    }
}

/// Takes so many bytes, and notes each write and each flush.
#[derive(Clone, Copy)]
struct Takes<'a> {
    bytes: usize,
    events: &'a Cell<u64>,
}

impl Write for Takes<'_> {
    fn write(&mut self, buf: &[u8]) -> io::Result<usize> {
        note(self.events, WROTE);
        if self.bytes == 0 {
            return Err(io::Error::from(ErrorKind::StorageFull));
        }
        let taken = self.bytes.min(buf.len());
        self.bytes -= taken;
        Ok(taken)
    }

    fn flush(&mut self) -> io::Result<()> {
        note(self.events, FLUSHED);
        Ok(())
    }
}

/// How a run ends, how many lines it answered, how many bytes the writer would still take, and what happened.
#[derive(Clone, Copy, Debug, PartialEq, Eq)]
struct Ending {
    result: Result<Ran, RunFault>,
    answered: u64,
    left: usize,
    events: u64,
}

/// Runs over so many lines and what comes behind them, and a writer that takes so many bytes.
fn run(alloc: Global, lines: u8, behind: Behind, bytes: usize, echo: bool) -> Option<Ending> {
    let events = Cell::new(0);
    let mut machine = Numbers {
        events: &events,
        answered: 0,
    };
    let source = Lines {
        lines,
        behind,
        events: &events,
    };
    let mut writer = Takes {
        bytes,
        events: &events,
    };
    let Ok(reader) = BufReader::with_capacity(alloc, 8, source) else {
        return None;
    };
    let mut input = LineReader::new(reader);
    let result = run_numbered(alloc, &mut machine, &mut input, &mut writer, echo);
    Some(Ending {
        result,
        answered: machine.answered,
        left: writer.bytes,
        events: events.get(),
    })
}

/// The echo is written and flushed before its line is answered, and the answer before the next read.
#[test]
fn what_is_written_is_flushed(rt: HostRuntime) {
    for (echo, events) in [
        (true, 0o24_112_312_24_112_312_24_2),
        (false, 0o24_312_24_312_24_2),
    ] {
        let left = if echo { 94 } else { 98 };
        let ending = Ending {
            result: Ok(Ran::Whole),
            answered: 2,
            left,
            events,
        };
        assert_eq!(rt; run(rt.alloc(), 2, Behind::End, 100, echo), Some(ending));
    }
}

/// A line is answered once its echo was written whole. Of a line that was not read whole the bytes that were read are
/// echoed.
#[test]
fn numbered_runs_end_with_what_failed(rt: HostRuntime) {
    let unwritten = Err(RunFault::WriteFailed);
    for (behind, bytes, result, answered, left) in [
        (Behind::End, 0, unwritten, 0, 0),
        (Behind::End, 1, unwritten, 0, 0),
        (Behind::End, 2, unwritten, 1, 0),
        (Behind::End, 3, Ok(Ran::Whole), 1, 0),
        (Behind::Part, 3, unwritten, 1, 0),
        (Behind::Part, 5, Err(RunFault::ReadFailed), 1, 1),
    ] {
        match run(rt.alloc(), 1, behind, bytes, true) {
            Some(ending) => {
                assert_eq!(rt; ending.result, result);
                assert_eq!(rt; ending.answered, answered);
                assert_eq!(rt; ending.left, left);
            }
            None => assert!(rt; false),
        }
    }
}
