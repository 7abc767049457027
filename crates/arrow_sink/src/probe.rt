//! A sink that takes little and an input that gives little, each up to the point where it fails: to
//! test how a program handles it.

ghost use Rattle.std.specs.Prelude.{◌≡◌, ◌≤◌, ◌++◌, ◌+◌, ◌-◌, Some, [], length, take, drop, min};

use crate::sink::{Sink, SinkFault};
use std::alloc::Global;
use std::io;
use std::io::Read;

/// How a sink fails.
#[derive(Clone, Copy, Debug, PartialEq, Eq)]
pub enum Failing {
    /// It returns an error for a piece that it has no room for.
    ByError,
    /// It takes nothing of a piece that it has no room for.
    ByNothing,
    /// It takes nothing of a piece that it has no room for, and returns an error for each flush.
    AtFlush,
}

/// A sink in memory that takes at most a given number of bytes of a piece, and a given number in
/// all.
///
/// Once it has no room it fails at each piece that has bytes. If an allocation fails it fails in
/// the same way.
#[derive(Drop)]
pub struct Narrow {
    taken: Vec<u8>,
    at_once: usize,
    left: usize,
    failing: Failing,
    flushes: u64,
    count: u64,
}

impl Narrow {
    /// A sink that has taken nothing yet. It allocates nothing.
    pub fn new(alloc: Global, at_once: usize, in_all: usize, failing: Failing) -> Narrow
        ensures taken { result.taken.items ≡ [] }
        ensures once { result.at_once ≡ at_once }
        ensures left { result.left ≡ in_all }
        ensures failing { result.failing ≡ failing }
        ensures flushes { result.flushes ≡ 0 }
        ensures count { result.count ≡ 0 }
    {
        Narrow {
            taken: Vec::new(alloc),
            at_once,
            left: in_all,
            failing,
            flushes: 0,
            count: 0,
        }
    }

    /// The bytes taken so far. It allocates nothing.
    pub fn taken(&self) -> &[u8]
        ensures { result.now ≡ self.now.taken.items }
    {
        &self.taken
    }

    /// The number of calls of `flush`, at most 2^64 - 1. It allocates nothing.
    pub fn flushes(&self) -> u64
        ensures { result ≡ self.now.flushes }
    {
        self.flushes
    }

    /// How many bytes it would take of a piece of this length. It allocates nothing.
    pub fn room(&self, len: usize) -> usize
        ensures { result ≡ min len (min self.now.at_once self.now.left) }
    {
        len.min(self.at_once.min(self.left))
    }

    /// Keeps what it has room for of the piece, nothing if an allocation fails.
    fn keep(&mut self, piece: &[u8]) -> usize
        ensures bound { result ≤ length piece.now }
        ensures taken { self.new.taken.items ≡ self.old.taken.items ++ take result piece.now }
        ensures left { self.new.left ≡ self.old.left - result }
        ensures count { self.new.count ≡ self.old.count }
    {
        let n = self.room(piece.len());
        if self.taken.extend_from_slice(&piece[..n]).is_err() {
            return 0;
        }
        self.left -= n;
        n
    }
}

impl Sink for Narrow {
    ghost contents = { λ s. Some s.taken.items };

    ghost failed = { λ s. s.count };

    fn put(&mut self, piece: &[u8]) -> Result<usize, SinkFault> {
        let n = self.keep(piece);
        if n == 0 && !piece.is_empty() {
            self.count += 1;
            if self.failing == Failing::ByError {
                return Err(SinkFault);
            }
        }
        Ok(n)
    }

    fn flush(&mut self) -> Result<(), SinkFault> {
        self.flushes = self.flushes.saturating_add(1);
        if self.failing == Failing::AtFlush {
            self.count += 1;
            return Err(SinkFault);
        }
        Ok(())
    }

    fn failures(&self) -> u64 {
        self.count
    }
}

/// An input over bytes that gives at most a given number of them per read, and may fail at an
/// offset.
///
/// For a read it gives as much as it can: up to the end, the offset, the bound (0 counts as 1) and
/// the room of the read. From the offset on it fails at each read, by an error of one kind.
#[derive(Drop)]
pub struct Trickle<'a> {
    rest: &'a [u8],
    at_once: usize,
    given: usize,
    fails: Option<(usize, io::ErrorKind)>,
}

impl<'a> Trickle<'a> {
    /// An input at its first byte. It allocates nothing.
    pub fn new(
        bytes: &'a [u8],
        at_once: usize,
        fails: Option<(usize, io::ErrorKind)>,
    ) -> Trickle<'a>
        ensures rest { result.rest.now ≡ bytes.now }
        ensures once { result.at_once ≡ at_once }
        ensures given { result.given ≡ 0 }
        ensures fails { result.fails ≡ fails }
    {
        Trickle {
            rest: bytes,
            at_once,
            given: 0,
            fails,
        }
    }

    /// How many bytes it gave so far. It allocates nothing.
    pub fn given(&self) -> usize
        ensures { result ≡ self.now.given }
    {
        self.given
    }
}

impl<'a> Read for Trickle<'a> {
    ghost remaining = { λ s. Some s.rest.now };

    fn read(&mut self, buf: &mut [u8]) -> io::Result<usize> {
        let mut n = self.rest.len().min(self.at_once.max(1)).min(buf.len());
        if let Some((place, kind)) = self.fails {
            if self.given >= place {
                return Err(io::Error::from(kind));
            }
            n = n.min(place - self.given);
        }
        let (piece, rest) = self.rest.split_at(n);
        buf[..n].copy_from_slice(piece);
        self.rest = rest;
        self.given = self.given.saturating_add(n);
        Ok(n)
    }
}
