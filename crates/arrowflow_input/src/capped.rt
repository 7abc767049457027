//! An input of which at most a given number of bytes is read.

ghost use Rattle.std.specs.Prelude.{◌≡◌, ◌⊎◌, None, OnErr, true};
ghost use Rattle.std.specs.Io.KnownBytes.{prepend_known};
ghost use Rattle.arrowflow_input.specs.Capped.{LooksOn, is_longer_by, waiting};

use arrow_stream_reader::{Input, ReadFailed};

/// An input that fails after a given number of bytes, if it has more. The byte after them, which
/// shows that it has more, waits.
#[derive(Drop)]
pub(crate) struct Capped<R: Input> {
    input: R,
    /// How many bytes may still be read, or all.
    left: Option<u64>,
    /// The byte after them.
    next: Option<u8>,
}

impl<R: Input> Capped<R> {
    /// An input of which nothing was read.
    pub(crate) fn new(input: R, left: Option<u64>) -> Capped<R>
        ensures input { result.input ≡ input }
        ensures next { result.next ≡ None }
    {
        Capped {
            input,
            left,
            next: None,
        }
    }

    /// Whether it has more bytes than may be read.
    pub(crate) fn is_longer(&self) -> bool
        ensures { result ≡ is_longer_by self.now.next }
    {
        self.next.is_some()
    }

    /// The input.
    pub(crate) fn into_inner(self) -> R
        ensures { result ≡ self.input }
    {
        let Capped {
            input,
            left: _,
            next: _,
        } = self;
        input
    }

    /// Reads for a byte after the last that may be read: returns 0 if there is none, and fails if
    /// there is one.
    fn look_on(&mut self) -> Result<usize, ReadFailed>
        requires { self.old.next ≡ None }
        ensures looks { LooksOn (R.remaining self.old.input)
            (prepend_known (waiting self.new.next) (R.remaining self.new.input)) result }
        ensures failed { OnErr result
            ((is_longer_by self.new.next ≡ true) ⊎ R.has_failed self.new.input) }
    {
        let mut room = [0u8; 1];
        if self.input.read_piece(&mut room)? == 0 {
            return Ok(0);
        }
        self.next = Some(room[0]);
        Err(ReadFailed::new())
    }
}

impl<R: Input> Input for Capped<R> {
    ghost use Rattle.std.specs.Prelude.{◌≡◌, ◌⊎◌, true};
    ghost use Rattle.std.specs.Io.KnownBytes.{prepend_known};
    ghost use Rattle.arrowflow_input.specs.Capped.{is_longer_by, waiting};

    ghost remaining = { λ c. prepend_known (waiting c.next) (R.remaining c.input) };

    ghost has_failed = { λ c. (is_longer_by c.next ≡ true) ⊎ R.has_failed c.input };

    fn read_piece(&mut self, room: &mut [u8]) -> Result<usize, ReadFailed> {
        if self.next.is_some() {
            return Err(ReadFailed::new());
        }
        match self.left {
            None => self.input.read_piece(room),
            Some(0) => self.look_on(),
            Some(left) => {
                let size = left.min(room.len() as u64) as usize;
                let count = self.input.read_piece(&mut room[..size])?;
                self.left = Some(left - count as u64);
                Ok(count)
            }
        }
    }
}
