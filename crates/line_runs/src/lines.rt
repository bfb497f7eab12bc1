//! Lines of any reader, for a writer that answers them.
ghost use Rattle.std.specs.Prelude.{
  ◌≡◌,
  ◌≢◌,
  ℕ,
  ◌+◌,
  ◌-◌,
  ◌<◌,
  ◌≤◌,
  ◌++◌,
  List,
  [],
  All,
  Ok,
  Err,
  true,
  false,
  length,
  take,
  min,
  IfOk,
  OnOk,
  OnErr,
  IfErr,
  IfSome,
};
ghost use Rattle.std.specs.Io.BufRead.{DropsThrough, ends_with_byte, strip_last, take_through};
ghost use Rattle.std.specs.Io.KnownBytes.{Keeps};
ghost use Rattle.line_runs.specs.Lines.{IsInLine, ReadsLineOf, TakesPart};
ghost use Rattle.line_runs.specs.Echo.{BeginsLine, CutsLine, CutsPart, EchoesLine, EchoesPart};

use crate::echo::echo_part;
use crate::outcome::RunFault;
use crate::writing::flush;
use memchr::memchr;
use std::io::{self, BufRead, ErrorKind, Write};

/// The most bytes of a line that are looked at: one more than a line may have, so that a longer one shows.
pub const KEPT_BYTES: usize = 1_048_577;

/// Room for those and a carriage return or a line feed.
const ROOM: usize = KEPT_BYTES + 1;

/// Reads lines, and remembers whether a read failed.
///
/// Before each read that may wait, that is, where nothing is left of what the last one showed, the writer is flushed.
#[derive(Drop)]
pub struct LineReader<R> {
    /// What is left to read.
    pub reader: R,
    /// Nothing is left of what the last read showed.
    drained: bool,
    /// A read failed, or memory ran out for its line.
    pub failed: bool,
}

impl<R: BufRead> LineReader<R> {
    /// Of a reader of which nothing is read yet.
    pub fn new(reader: R) -> LineReader<R>
        ensures reader { result.reader ≡ reader }
        ensures failed { result.failed ≡ false }
    {
        LineReader {
            reader,
            drained: true,
            failed: false,
        }
    }

    /// Reads the next line into `line`, in place of what that holds, and answers whether there was one.
    ///
    /// A line ends at its line feed, which is dropped, and so is a carriage return before it. The last line may lack
    /// its line feed, and then keeps a carriage return. Of a longer line just the first `KEPT_BYTES` bytes are kept,
    /// and the others take no memory.
    ///
    /// A refusal comes where a read failed, where memory ran out for the line, or where the flush before a read
    /// failed. Then at most a part of a line was read.
    pub fn next_line<W: Write>(
        &mut self,
        line: &mut Vec<u8>,
        writer: &mut W,
    ) -> Result<bool, RunFault>
        ensures ok { IfOk result (λ some. ReadsLineOf KEPT_BYTES (R.Read.remaining self.old.reader) some line.new.items (R.Read.remaining self.new.reader)) }
        ensures err { IfErr result (λ fault. (fault ≢ RunFault.TooManyReads) × IsInLine (R.Read.remaining self.old.reader) (R.Read.remaining self.new.reader)) }
        ensures failed { result ≡ Err RunFault.ReadFailed → self.new.failed ≡ true }
        ensures writer { Keeps (W.contents writer.old) (W.contents writer.new) }
    {
        self.next_echoed(line, false, writer)
    }

    /// The same, and where `echo` says so the line is written as it is read: all of its bytes, also those that are not
    /// kept, but not what ends it.
    ///
    /// A carriage return is written once the byte behind it is known. After a refusal a part of the line is written.
    pub fn next_echoed<W: Write>(
        &mut self,
        line: &mut Vec<u8>,
        echo: bool,
        writer: &mut W,
    ) -> Result<bool, RunFault>
        ensures ok { IfOk result (λ some. ReadsLineOf KEPT_BYTES (R.Read.remaining self.old.reader) some line.new.items (R.Read.remaining self.new.reader)) }
        ensures echoed { OnOk result (EchoesLine echo (R.Read.remaining self.old.reader) (W.contents writer.old) (W.contents writer.new)) }
        ensures err { IfErr result (λ fault. (fault ≢ RunFault.TooManyReads) × CutsLine echo fault (R.Read.remaining self.old.reader) (R.Read.remaining self.new.reader)
            (W.contents writer.old) (W.contents writer.new)) }
        ensures begun { OnErr result (BeginsLine echo (R.Read.remaining self.old.reader) (W.contents writer.old) (W.contents writer.new)) }
        ensures failed { result ≡ Err RunFault.ReadFailed → self.new.failed ≡ true }
    {
        line.clear();
        match self.read_piece(line, echo, writer) {
            Ok(()) => {}
            Err(fault) => return Err(fault),
        }
        if line.is_empty() {
            return Ok(false);
        }
        if drop_last(line, b'\n') {
            drop_last(line, b'\r');
        }
        line.truncate(KEPT_BYTES);
        Ok(true)
    }

    /// Whether the input has ended. Nothing is taken from it. A refusal comes as from `next_line`.
    pub fn has_ended<W: Write>(&mut self, writer: &mut W) -> Result<bool, RunFault>
        ensures ended { result ≡ Ok true → IfSome (R.Read.remaining self.old.reader) (λ text. text ≡ []) }
        ensures more { result ≡ Ok false → IfSome (R.Read.remaining self.old.reader) (λ text. text ≢ []) }
        ensures err { IfErr result (λ fault. fault ≢ RunFault.TooManyReads) }
        ensures failed { result ≡ Err RunFault.ReadFailed → self.new.failed ≡ true }
        ensures reader { Keeps (R.Read.remaining self.old.reader) (R.Read.remaining self.new.reader) }
        ensures writer { Keeps (W.contents writer.old) (W.contents writer.new) }
    {
        match self.flush_if_drained(writer) {
            Ok(()) => {}
            Err(fault) => return Err(fault),
        }
        match is_at_end(&mut self.reader) {
            Ok(ended) => Ok(ended),
            Err(_) => {
                self.failed = true;
                Err(RunFault::ReadFailed)
            }
        }
    }

    /// Reads on through the next line feed, or to the end of the input, and echoes what it reads. Only the first `ROOM`
    /// bytes are kept.
    fn read_piece<W: Write>(
        &mut self,
        line: &mut Vec<u8>,
        echo: bool,
        writer: &mut W,
    ) -> Result<(), RunFault>
        requires { line.old.items ≡ [] }
        ensures kept { OnOk result (IfSome (R.Read.remaining self.old.reader) (λ text. line.new.items ≡ take ROOM (take_through 10 text))) }
        ensures rest { OnOk result (DropsThrough (R.Read.remaining self.old.reader) (R.Read.remaining self.new.reader) 10) }
        ensures echoed { OnOk result (EchoesLine echo (R.Read.remaining self.old.reader) (W.contents writer.old) (W.contents writer.new)) }
        ensures err { IfErr result (λ fault. (fault ≢ RunFault.TooManyReads) × CutsLine echo fault (R.Read.remaining self.old.reader) (R.Read.remaining self.new.reader)
            (W.contents writer.old) (W.contents writer.new)) }
        ensures begun { OnErr result (BeginsLine echo (R.Read.remaining self.old.reader) (W.contents writer.old) (W.contents writer.new)) }
        ensures failed { result ≡ Err RunFault.ReadFailed → self.new.failed ≡ true }
    {
        let mut held = false;
        for _turn in 0..u64::MAX {
            match self.next_part(line, echo, &mut held, writer) {
                Ok(true) => return Ok(()),
                Ok(false) => {}
                Err(fault) => return Err(fault),
            }
        }
        self.failed = true;
        Err(RunFault::ReadFailed)
    }

    /// Takes what is at hand of a line, or what the next read shows, and answers whether the line is done.
    fn next_part<W: Write>(
        &mut self,
        line: &mut Vec<u8>,
        echo: bool,
        held: &mut bool,
        writer: &mut W,
    ) -> Result<bool, RunFault>
        requires { length line.old.items ≤ ROOM }
        ensures ok { IfOk result (λ done. (bytes : List ℕ) × TakesPart (R.Read.remaining self.old.reader) done bytes (R.Read.remaining self.new.reader)
            × (line.new.items ≡ line.old.items ++ take (ROOM - length line.old.items) bytes)
            × EchoesPart echo done held.old bytes held.new (W.contents writer.old) (W.contents writer.new)) }
        ensures err { IfErr result (λ fault. (fault ≢ RunFault.TooManyReads) × Keeps (R.Read.remaining self.old.reader) (R.Read.remaining self.new.reader)
            × CutsPart echo fault held.old (R.Read.remaining self.old.reader) (W.contents writer.old) (W.contents writer.new)) }
        ensures failed { result ≡ Err RunFault.ReadFailed → self.new.failed ≡ true }
    {
        match self.flush_if_drained(writer) {
            Ok(()) => {}
            Err(fault) => return Err(fault),
        }
        match take_part(&mut self.reader, line, echo, held, writer) {
            Ok(part) => {
                self.drained = part.drained;
                Ok(part.done)
            }
            Err(RunFault::WriteFailed) => Err(RunFault::WriteFailed),
            Err(fault) => {
                self.failed = true;
                Err(fault)
            }
        }
    }

    /// Flushes the writer where the next look at the reader reads.
    fn flush_if_drained<W: Write>(&self, writer: &mut W) -> Result<(), RunFault>
        ensures err { IfErr result (λ fault. fault ≡ RunFault.WriteFailed) }
        ensures writer { Keeps (W.contents writer.old) (W.contents writer.new) }
    {
        if self.drained {
            return flush(writer);
        }
        Ok(())
    }
}

/// What one look at a reader took.
#[derive(Clone, Copy)]
struct Part {
    /// The line has ended.
    done: bool,
    /// Nothing is left of what the reader showed.
    drained: bool,
}

/// Takes what the reader has at hand of a line, and echoes it. A refusal takes nothing.
fn take_part<R: BufRead, W: Write>(
    reader: &mut R,
    line: &mut Vec<u8>,
    echo: bool,
    held: &mut bool,
    writer: &mut W,
) -> Result<Part, RunFault>
    requires { length line.old.items ≤ ROOM }
    ensures ok { IfOk result (λ part. (bytes : List ℕ) × TakesPart (R.Read.remaining reader.old) part.done bytes (R.Read.remaining reader.new)
        × (line.new.items ≡ line.old.items ++ take (ROOM - length line.old.items) bytes)
        × EchoesPart echo part.done held.old bytes held.new (W.contents writer.old) (W.contents writer.new)) }
    ensures err { IfErr result (λ fault. (fault ≢ RunFault.TooManyReads) × Keeps (R.Read.remaining reader.old) (R.Read.remaining reader.new)
        × CutsPart echo fault held.old (R.Read.remaining reader.old) (W.contents writer.old) (W.contents writer.new)) }
{
    let shown = match reader.fill_buf() {
        Ok(shown) => shown,
        Err(error) => {
            return if error.kind() == ErrorKind::Interrupted {
                Ok(Part {
                    done: false,
                    drained: true,
                })
            } else {
                Err(RunFault::ReadFailed)
            };
        }
    };
    let end = len_through(shown);
    let kept = end.min(ROOM - line.len());
    match line.extend_from_slice(&shown[..kept]) {
        Ok(()) => {}
        Err(_) => return Err(RunFault::ReadFailed),
    }
    let done = end == 0 || shown[end - 1] == b'\n';
    match echo_part(echo, done, &shown[..end], held, writer) {
        Ok(()) => {}
        Err(fault) => return Err(fault),
    }
    let drained = end == shown.len();
    reader.consume(end);
    Ok(Part { done, drained })
}

/// Whether the input has ended.
fn is_at_end<R: BufRead>(reader: &mut R) -> io::Result<bool>
    ensures ended { result ≡ Ok true → IfSome (R.Read.remaining reader.old) (λ text. text ≡ []) }
    ensures more { result ≡ Ok false → IfSome (R.Read.remaining reader.old) (λ text. text ≢ []) }
    ensures reader { Keeps (R.Read.remaining reader.old) (R.Read.remaining reader.new) }
{
    for _turn in 0..u64::MAX {
        match reader.fill_buf() {
            Ok(shown) => return Ok(shown.is_empty()),
            Err(error) => {
                if error.kind() != ErrorKind::Interrupted {
                    return Err(error);
                }
            }
        }
    }
    Err(io::Error::from(ErrorKind::Interrupted))
}

/// The length up to and including the first line feed, or the whole length.
fn len_through(bytes: &[u8]) -> usize
    ensures bound { result ≤ length bytes.now }
    ensures some { 0 < length bytes.now → 0 < result }
    ensures before { All (λ b. b ≢ 10) (take (result - 1) bytes.now) }
{
    match memchr(b'\n', bytes) {
        Some(at) => at + 1,
        None => bytes.len(),
    }
}

/// Takes the last byte away if it is `byte`, and answers whether it was.
fn drop_last(line: &mut Vec<u8>, byte: u8) -> bool
    ensures was { result ≡ ends_with_byte byte line.old.items }
    ensures left { line.new.items ≡ strip_last byte line.old.items }
{
    if line.last() == Some(&byte) {
        line.pop();
        return true;
    }
    false
}
