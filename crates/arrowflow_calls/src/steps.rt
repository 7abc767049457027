//! What the calls of a reader return.

ghost use Rattle.std.specs.Prelude.{◌≡◌};
ghost use Rattle.arrowflow_calls.specs.Steps.{bare_step, end_reported, fault_step, step_reported};

use arrow_stream_reader::{Fault, Item};

/// What a reader reports of a piece.
#[repr(C)]
#[derive(Clone, Copy)]
pub struct StepC {
    /// 0, or the kind of the fault, as in a report; 21 if there is no reader.
    pub kind: u32,
    /// What was complete: 0 nothing, 1 the schema, 2 a dictionary, 3 a batch, 4 the end marker.
    pub what: u32,
    /// How many bytes of the piece were taken.
    pub taken: u64,
    /// The place of the message at fault, in bytes from the stream's beginning.
    pub place: u64,
    /// The dictionary's id.
    pub id: i64,
    /// The batch's columns.
    pub columns: u64,
    /// The batch's rows.
    pub rows: u64,
}

impl StepC {
    /// This was complete, and that many bytes were taken.
    fn of(what: u32, taken: usize) -> StepC
        ensures { result ≡ bare_step what taken }
    {
        StepC {
            kind: 0,
            what,
            taken: taken as u64,
            place: 0,
            id: 0,
            columns: 0,
            rows: 0,
        }
    }

    /// A fault of this kind at this place.
    pub fn fault(kind: u32, place: u64) -> StepC
        ensures { result ≡ fault_step kind place }
    {
        StepC {
            kind,
            place,
            ..StepC::of(0, 0)
        }
    }

    /// What is reported of a reader's result.
    pub(crate) fn stated(answer: &Result<(usize, Option<Item>), Fault>) -> StepC
        ensures { result ≡ step_reported answer.now }
    {
        match answer {
            Ok((taken, None)) => StepC::of(0, *taken),
            Ok((taken, Some(Item::Schema))) => StepC::of(1, *taken),
            Ok((taken, Some(Item::Dictionary(id)))) => StepC {
                id: *id,
                ..StepC::of(2, *taken)
            },
            Ok((taken, Some(Item::Batch(batch)))) => StepC {
                columns: batch.columns().len() as u64,
                rows: batch.rows() as u64,
                ..StepC::of(3, *taken)
            },
            Ok((taken, Some(Item::End))) => StepC::of(4, *taken),
            Err(fault) => StepC::fault(fault.kind.number() as u32, fault.place),
        }
    }
}

/// The result of a stream that ends.
#[repr(C)]
#[derive(Clone, Copy)]
pub struct FaultC {
    /// 0, or the kind of the fault, as in a report; 21 if there is no reader.
    pub kind: u32,
    /// The place of the message at fault, in bytes from the stream's beginning.
    pub place: u64,
}

impl FaultC {
    /// What is reported of a reader's result when its stream ends.
    pub(crate) fn stated(answer: Result<(), Fault>) -> FaultC
        ensures { result ≡ end_reported answer }
    {
        match answer {
            Ok(()) => FaultC { kind: 0, place: 0 },
            Err(fault) => FaultC {
                kind: fault.kind.number() as u32,
                place: fault.place,
            },
        }
    }
}
