//! What is written goes to the file, and to the output what is an answer.

ghost use Rattle.std.specs.Prelude.{◌≡◌, ◌≢◌, ℕ, ◌<◌, None, Some, true, false, take, IfErr, IfOk, IsErr, OnErr, OnOk};
ghost use Rattle.std.specs.IoError.{error_kind};
ghost use Rattle.std.specs.Io.{WritesAtMost};
ghost use Rattle.std.specs.Io.KnownBytes.{Keeps, WriteAppends};
ghost use Rattle.transcript_files.specs.Parts.{Tells, is_told, part_after, part_flushed};
ghost use Rattle.transcript_files.specs.declared.part.Part.TheVariants.{Beginning, Echoed};

use crate::part::Part;
use crate::synced::SyncedWrite;
use line_runs::write_whole;
use std::io::{self, ErrorKind, Write};

/// A writer that holds what its file holds. Its output gets the answers alone.
#[derive(Drop)]
pub struct TranscriptWriter<F, W> {
    file: F,
    output: W,
    part: Part,
    /// Why the file was not written or synced.
    fault: Option<ErrorKind>,
    /// The output did not take all of an answer.
    is_cut: bool,
}

impl<F, W> TranscriptWriter<F, W> {
    /// Of a run that has written nothing yet.
    pub fn new(file: F, output: W) -> TranscriptWriter<F, W>
        ensures file { result.file ≡ file }
        ensures output { result.output ≡ output }
        ensures part { result.part ≡ Beginning }
        ensures whole { result.is_cut ≡ false }
        ensures written { result.fault ≡ None }
    {
        TranscriptWriter {
            file,
            output,
            part: Part::Beginning,
            fault: None,
            is_cut: false,
        }
    }

    /// Why the file was not written or synced, where it was not.
    pub fn unwritten(&self) -> Option<ErrorKind>
        ensures { result ≡ self.now.fault }
    {
        self.fault
    }

    /// Notes why the file was not written, unless that is to be tried again.
    fn note(&mut self, kind: ErrorKind)
        ensures file { self.new.file ≡ self.old.file }
        ensures output { self.new.output ≡ self.old.output }
        ensures part { self.new.part ≡ self.old.part }
        ensures cut { self.new.is_cut ≡ self.old.is_cut }
        ensures noted { kind ≢ ErrorKind.Interrupted → self.new.fault ≡ Some kind }
    {
        if kind != ErrorKind::Interrupted {
            self.fault = Some(kind);
        }
    }
}

/// That the output takes no more.
fn cut() -> io::Error {
    io::Error::from(ErrorKind::BrokenPipe)
}

impl<F: SyncedWrite, W: Write> TranscriptWriter<F, W> {
    /// Writes some of these bytes to the file.
    fn write_file(&mut self, bytes: &[u8]) -> io::Result<usize>
        ensures bound { WritesAtMost result bytes.now }
        ensures bytes { WriteAppends (F.contents self.old.file) (F.contents self.new.file) result bytes.now }
        ensures output { self.new.output ≡ self.old.output }
        ensures part { self.new.part ≡ self.old.part }
        ensures cut { self.new.is_cut ≡ self.old.is_cut }
        ensures written { IfOk result (λ n. 0 < n → self.new.fault ≡ self.old.fault) }
        ensures unwritten { IfErr result (λ e. error_kind e ≢ ErrorKind.Interrupted → self.new.fault ≡ Some (error_kind e)) }
    {
        match self.file.write(bytes) {
            Ok(count) => {
                if count == 0 {
                    self.note(ErrorKind::WriteZero);
                }
                Ok(count)
            }
            Err(error) => {
                self.note(error.kind());
                Err(error)
            }
        }
    }

    /// Writes these bytes to the output, and notes where that does not take them all.
    fn tell(&mut self, bytes: &[u8])
        requires { self.old.is_cut ≡ false }
        ensures file { self.new.file ≡ self.old.file }
        ensures told { Tells self.new.is_cut (W.contents self.old.output) (W.contents self.new.output) bytes.now }
        ensures part { self.new.part ≡ self.old.part }
        ensures fault { self.new.fault ≡ self.old.fault }
    {
        match write_whole(&mut self.output, bytes) {
            Ok(()) => {}
            Err(_) => self.is_cut = true,
        }
    }

    /// Syncs the file.
    fn sync_file(&mut self) -> io::Result<()>
        ensures bytes { Keeps (F.contents self.old.file) (F.contents self.new.file) }
        ensures synced { OnOk result (F.synced self.new.file ≡ F.contents self.new.file) }
        ensures output { self.new.output ≡ self.old.output }
        ensures part { self.new.part ≡ self.old.part }
        ensures cut { self.new.is_cut ≡ self.old.is_cut }
        ensures written { OnOk result (self.new.fault ≡ self.old.fault) }
        ensures unsynced { IfErr result (λ e. self.new.fault ≡ Some (error_kind e)) }
    {
        match self.file.sync() {
            Ok(()) => Ok(()),
            Err(error) => {
                self.fault = Some(error.kind());
                Err(error)
            }
        }
    }
}

impl<F: SyncedWrite, W: Write> Write for TranscriptWriter<F, W> {
    ghost contents = { λ t. F.contents t.file };

    /// Writes some of these bytes to the file, and those to the output too where they are of an answer. That the output
    /// did not take all of them is told by the next call.
    fn write(&mut self, buf: &[u8]) -> io::Result<usize>
        ensures bound { WritesAtMost result buf.now }
        ensures bytes { WriteAppends (F.contents self.old.file) (F.contents self.new.file) result buf.now }
        ensures told { IfOk result (λ n. is_told self.old.part buf.now ≡ true
            → Tells self.new.is_cut (W.contents self.old.output) (W.contents self.new.output) (take n buf.now)) }
        ensures untold { is_told self.old.part buf.now ≡ false → self.new.output ≡ self.old.output }
        ensures part { IfOk result (λ n. 0 < n → self.new.part ≡ part_after self.old.part buf.now) }
        ensures refused { OnErr result ((self.new.output ≡ self.old.output) × (self.new.part ≡ self.old.part)) }
        ensures stopped { self.old.is_cut ≡ true → IsErr result × (self.new ≡ self.old) }
        ensures written { IfOk result (λ n. 0 < n → self.new.fault ≡ self.old.fault) }
        ensures unwritten { IfErr result (λ e. self.old.is_cut ≡ false → error_kind e ≢ ErrorKind.Interrupted → self.new.fault ≡ Some (error_kind e)) }
    {
        if self.is_cut {
            return Err(cut());
        }
        let count = match self.write_file(buf) {
            Ok(count) => count,
            Err(error) => return Err(error),
        };
        if self.part.is_told(buf) {
            self.tell(&buf[..count]);
        }
        if count > 0 {
            self.part = self.part.after(buf);
        }
        Ok(count)
    }

    /// Syncs the file where an echo ends here, and else has the output pass on what it got.
    fn flush(&mut self) -> io::Result<()>
        ensures bytes { Keeps (F.contents self.old.file) (F.contents self.new.file) }
        ensures output { Keeps (W.contents self.old.output) (W.contents self.new.output) }
        ensures synced { OnOk result (self.old.part ≡ Echoed → F.synced self.new.file ≡ F.contents self.new.file) }
        ensures part { OnOk result (self.new.part ≡ part_flushed self.old.part) }
        ensures refused { OnErr result (self.new.part ≡ self.old.part) }
        ensures stopped { self.old.is_cut ≡ true → IsErr result × (self.new ≡ self.old) }
        ensures written { OnOk result (self.new.fault ≡ self.old.fault) }
        ensures unsynced { IfErr result (λ e. self.old.is_cut ≡ false → self.old.part ≡ Echoed → self.new.fault ≡ Some (error_kind e)) }
        ensures unflushed { OnErr result (self.old.part ≢ Echoed → self.new.fault ≡ self.old.fault) }
    {
        if self.is_cut {
            return Err(cut());
        }
        let flushed = match self.part {
            Part::Echoed => self.sync_file(),
            Part::Beginning | Part::Line | Part::Answer => self.output.flush(),
        };
        match flushed {
            Ok(()) => {
                self.part = self.part.flushed();
                Ok(())
            }
            Err(error) => Err(error),
        }
    }
}
