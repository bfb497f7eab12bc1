//! A reader and a writer that pass all on, and show it to a watch.

ghost use Rattle.std.specs.Prelude.{◌≡◌};

use crate::watch::Watch;
use std::cell::RefCell;
use std::io::{self, BufRead, Read, Write};

/// A reader whose lines are watched, where there is a watch. It gives what the reader within gives.
#[derive(Drop)]
pub struct WatchedReader<'w, 'p, R, E> {
    reader: R,
    watch: Option<&'w RefCell<Watch<'p, E>>>,
}

impl<'w, 'p, R, E> WatchedReader<'w, 'p, R, E> {
    /// Of a reader, and what watches it.
    pub fn new(reader: R, watch: Option<&'w RefCell<Watch<'p, E>>>) -> WatchedReader<'w, 'p, R, E>
        ensures { result.reader ≡ reader }
    {
        WatchedReader { reader, watch }
    }
}

impl<R: Read, E> Read for WatchedReader<'_, '_, R, E> {
    ghost remaining = { λ w. R.remaining w.reader };

    fn read(&mut self, buf: &mut [u8]) -> io::Result<usize> {
        self.reader.read(buf)
    }
}

impl<R: BufRead, E: Write> BufRead for WatchedReader<'_, '_, R, E> {
    ghost consumable_len = { λ w. R.consumable_len w.reader };

    fn fill_buf(&mut self) -> io::Result<&[u8]> {
        let watch = self.watch;
        let shown = self.reader.fill_buf()?;
        show(watch, shown);
        Ok(shown)
    }

    fn consume(&mut self, amount: usize) {
        take(self.watch, amount);
        self.reader.consume(amount);
    }
}

/// A writer whose lines are watched, where there is a watch. It holds what the writer within holds.
#[derive(Drop)]
pub struct WatchedWriter<'w, 'p, W, E> {
    writer: W,
    watch: Option<&'w RefCell<Watch<'p, E>>>,
}

impl<'w, 'p, W, E> WatchedWriter<'w, 'p, W, E> {
    /// Of a writer, and what watches it.
    pub fn new(writer: W, watch: Option<&'w RefCell<Watch<'p, E>>>) -> WatchedWriter<'w, 'p, W, E>
        ensures { result.writer ≡ writer }
    {
        WatchedWriter { writer, watch }
    }
}

impl<W: Write, E: Write> Write for WatchedWriter<'_, '_, W, E> {
    ghost contents = { λ w. W.contents w.writer };

    fn write(&mut self, buf: &[u8]) -> io::Result<usize> {
        let count = self.writer.write(buf)?;
        wrote(self.watch, &buf[..count]);
        Ok(count)
    }

    fn flush(&mut self) -> io::Result<()> {
        self.writer.flush()
    }
}

fn show<E: Write>(watch: Option<&RefCell<Watch<'_, E>>>, shown: &[u8]) {
    if let Some(watch) = watch {
        if let Ok(mut watch) = watch.try_borrow_mut() {
            watch.show(shown);
        }
    }
}

fn take<E: Write>(watch: Option<&RefCell<Watch<'_, E>>>, amount: usize) {
    if let Some(watch) = watch {
        if let Ok(mut watch) = watch.try_borrow_mut() {
            watch.take(amount);
        }
    }
}

fn wrote<E: Write>(watch: Option<&RefCell<Watch<'_, E>>>, bytes: &[u8]) {
    if let Some(watch) = watch {
        if let Ok(mut watch) = watch.try_borrow_mut() {
            watch.wrote(bytes);
        }
    }
}
