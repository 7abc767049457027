//! An input whose stream has bounds.

ghost use Rattle.std.specs.Prelude.{◌≡◌, None, Some, true};
ghost use Rattle.arrowflow_input.specs.Bounds.{IsLongerSo};
ghost use Rattle.arrowflow_input.specs.Capped.{is_longer_by};
ghost use Rattle.arrowflow_input.specs.declared.bounds.Excess.{Excess};

use crate::bounds::{Excess, Measure, WholeLimits};
use crate::capped::Capped;
use crate::tool_fault::ToolFault;
use arrow_stream_reader::{Input, StreamReader};

/// An input whose stream has bounds, for the calls that take one, such as
/// [`check_within`](crate::check_within): each such input is for one call.
///
/// A call over it does the same as a call over the input, as long as the stream keeps the bounds. A
/// message with which it passes one is not passed on, nor is anything after it; and at most one
/// byte of the input is read after the bound of bytes. Then the call returns `Input(0)`, as if a
/// read had failed before that message, and [`Bounded::excess`] has the bound and the offset.
#[derive(Drop)]
pub struct Bounded<R: Input> {
    pub(crate) capped: Capped<R>,
    pub(crate) whole: WholeLimits,
    pub(crate) excess: Option<Excess>,
}

impl<R: Input> Bounded<R> {
    /// An input of which nothing was read, and the bounds of its stream. It allocates nothing.
    pub fn new(input: R, whole: WholeLimits) -> Bounded<R>
        ensures input { result.capped.input ≡ input }
        ensures next { result.capped.next ≡ None }
        ensures whole { result.whole ≡ whole }
        ensures excess { result.excess ≡ None }
    {
        Bounded {
            capped: Capped::new(input, whole.bytes),
            whole,
            excess: None,
        }
    }

    /// The bound that its stream passed, if it did. It allocates nothing.
    pub fn excess(&self) -> Option<Excess>
        ensures { result ≡ self.now.excess }
    {
        self.excess
    }

    /// The input. It allocates nothing.
    pub fn into_inner(self) -> R
        ensures { result ≡ self.capped.input }
    {
        let Bounded {
            capped,
            whole: _,
            excess: _,
        } = self;
        capped.into_inner()
    }

    /// The bound of bytes that its stream passes, if a call ended because of it.
    pub(crate) fn longer(
        &self,
        reader: &StreamReader,
        answer: &Result<(), ToolFault>,
    ) -> Option<Excess>
        ensures { (excess : Excess) → result ≡ Some excess
            → IsLongerSo self.now.whole.bytes excess reader.now.at answer.now
            × (is_longer_by self.now.capped.next ≡ true) }
    {
        let (Some(limit), Err(ToolFault::Input(_))) = (self.whole.bytes, answer) else {
            return None;
        };
        let place = reader.place();
        let read = place.checked_add(reader.held())?;
        if !self.capped.is_longer() || read < limit {
            return None;
        }
        Some(Excess {
            place,
            measure: Measure::Bytes,
            limit,
        })
    }
}
