//! Sinks over writers.

ghost use Rattle.std.specs.Prelude.{◌≡◌, ◌<◌, ◌-◌, ◌^◌};
ghost use Rattle.std.specs.Fn.{FnOnceReturnsAtMut};
ghost use Rattle.arrow_sink.specs.Answers.{CountsError, ReportsAnswer};
ghost use Rattle.arrow_sink.specs.Sinks.{CountsPut};

use crate::sink::{Sink, SinkFault};
use std::io;
use std::io::Write;

/// A sink over any writer, which counts the failures.
///
/// Every error of the writer counts, an interrupted write too.
#[derive(Drop)]
pub struct Counted<W: Write> {
    writer: W,
    count: u64,
}

impl<W: Write> Counted<W> {
    /// A sink over this writer, which has not failed yet. It allocates nothing.
    pub fn new(writer: W) -> Counted<W>
        ensures writer { result.writer ≡ writer }
        ensures count { result.count ≡ 0 }
    {
        Counted { writer, count: 0 }
    }

    /// The writer. It allocates nothing.
    pub fn into_inner(self) -> W
        ensures { result ≡ self.writer }
    {
        let Counted { writer, count: _ } = self;
        writer
    }

    /// Makes this call of the writer, and returns its result: its value, or an error, which counts.
    fn ask<T, F: FnOnce(&mut W) -> io::Result<T>>(&mut self, call: F) -> Result<T, SinkFault>
        requires callable { F.IsAlwaysCallable call }
        requires room { self.old.count < 2 ^ 64 - 1 }
        ensures reported { (answer : _)
            × FnOnceReturnsAtMut F.FnOnce call self.old.writer answer self.new.writer
            × ReportsAnswer answer result }
        ensures count { CountsError self.old.count self.new.count result }
    {
        match call(&mut self.writer) {
            Ok(value) => Ok(value),
            Err(_) => {
                self.count += 1;
                Err(SinkFault)
            }
        }
    }

    /// Offers a piece of length `len` by this call, and returns the writer's result: how many bytes
    /// it took, or an error. Taking no byte of a piece that has bytes counts too.
    fn offer<F: FnOnce(&mut W) -> io::Result<usize>>(
        &mut self,
        call: F,
        len: usize,
    ) -> Result<usize, SinkFault>
        requires callable { F.IsAlwaysCallable call }
        requires room { self.old.count < 2 ^ 64 - 1 }
        ensures reported { (answer : _)
            × FnOnceReturnsAtMut F.FnOnce call self.old.writer answer self.new.writer
            × ReportsAnswer answer result }
        ensures count { CountsPut self.old.count self.new.count result len }
    {
        let taken = self.ask(call)?;
        if taken == 0 && len != 0 {
            self.count += 1;
        }
        Ok(taken)
    }
}

impl<W: Write> Sink for Counted<W> {
    ghost contents = { λ s. W.contents s.writer };

    ghost failed = { λ s. s.count };

    fn put(&mut self, piece: &[u8]) -> Result<usize, SinkFault> {
        self.offer(|writer| writer.write(piece), piece.len())
    }

    fn flush(&mut self) -> Result<(), SinkFault> {
        self.ask(|writer| writer.flush())
    }

    fn failures(&self) -> u64 {
        self.count
    }
}
