//! An input that reports on a terminal how far it has been read.

ghost use Rattle.std.specs.Prelude.{◌≤◌};

use std::io;
use std::io::Read;
use std::time::{Clock, Duration, Instant};

/// The number of bytes in a MiB.
const MEBIBYTE: u64 = 1_048_576;

/// An input, and how far it has been read if that is reported. Its bytes are those of the input.
#[derive(Drop)]
pub(crate) struct ProgressReader<'a, R: Clock + Eprint, I: Read + Drop> {
    input: I,
    progress: Option<ProgressLine<'a, R>>,
}

impl<'a, R: Clock + Eprint, I: Read + Drop> ProgressReader<'a, R, I> {
    /// The input, of which nothing has been read.
    pub(crate) fn new(input: I, progress: Option<ProgressLine<'a, R>>) -> ProgressReader<'a, R, I> {
        ProgressReader { input, progress }
    }

    /// Clears the report, to make room for the lines that follow.
    pub(crate) fn clear(&self) {
        if let Some(progress) = &self.progress {
            progress.clear();
        }
    }
}

impl<'a, R: Clock + Eprint, I: Read + Drop> Read for ProgressReader<'a, R, I> {
    ghost remaining = { λ w. I.remaining w.input };

    fn read(&mut self, piece: &mut [u8]) -> io::Result<usize> {
        let count = self.input.read(piece)?;
        if let Some(progress) = &mut self.progress {
            progress.pass(count);
        }
        Ok(count)
    }
}

/// How far an input has been read, reported on a line of standard error that is overwritten.
#[derive(Drop)]
pub(crate) struct ProgressLine<'a, R: Clock + Eprint> {
    rt: &'a R,
    command: &'a str,
    size: Option<u64>,
    read: u64,
    /// When the input was opened.
    start: Instant,
    /// When it was last reported, or the input was opened.
    last: Instant,
    is_reported: bool,
}

impl<'a, R: Clock + Eprint> ProgressLine<'a, R> {
    /// The progress of a command with this name, whose input has this many bytes if that is known.
    /// `None` if there is no clock.
    pub(crate) fn new(
        rt: &'a R,
        command: &'a str,
        size: Option<u64>,
    ) -> Option<ProgressLine<'a, R>> {
        match Instant::now(rt) {
            Ok(start) => Some(ProgressLine {
                rt,
                command,
                size,
                read: 0,
                start,
                last: start,
                is_reported: false,
            }),
            Err(_) => None,
        }
    }

    /// Counts bytes that were read, and reports the total at most once a second.
    fn pass(&mut self, count: usize) {
        self.read = self.read.saturating_add(count as u64);
        let Ok(now) = Instant::now(self.rt) else {
            return;
        };
        if now.duration_since(self.last) >= Duration::from_secs(1) {
            self.last = now;
            self.is_reported = true;
            self.report();
        }
    }

    /// Reports how many bytes were read, of how many, how many in a second, and how many seconds
    /// are left. A line that cannot be written is left out.
    fn report(&self) {
        let command = self.command;
        let read = self.read / MEBIBYTE;
        let rate = self.rate();
        let speed = rate / MEBIBYTE;
        let _ = match self.size {
            Some(size) => {
                let left = size.saturating_sub(self.read) / rate;
                let size = size / MEBIBYTE;
                eprint!(self.rt;
                    "\r{command}: {read} MiB of {size} MiB, {speed} MiB/s, {left} s left "
                )
            }
            None => eprint!(self.rt; "\r{command}: {read} MiB, {speed} MiB/s "),
        };
    }

    /// How many bytes were read in a second, at least 1.
    fn rate(&self) -> u64
        ensures { 1 ≤ result }
    {
        let seconds = self.last.duration_since(self.start).as_secs().max(1);
        (self.read / seconds).max(1)
    }

    /// Writes spaces over the report.
    fn clear(&self) {
        if self.is_reported {
            let _ = eprint!(self.rt; "\r{:70}\r", "");
        }
    }
}
