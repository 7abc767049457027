//! A consumer whose stream is counted, and must not pass its bounds.

ghost use Rattle.std.specs.Prelude.{◌≡◌, ◌+◌, ◌++◌, ◌∷◌, ℕ, List, [], MatchResult, None};
ghost use Rattle.arrow_stream_reader.specs.Front.{Entry};
ghost use Rattle.arrow_stream_reader.specs.Views.{given};
ghost use Rattle.arrowflow_input.specs.Bounds.{IsPassed, Pass, messages_by, rows_by};
ghost use Rattle.arrowflow_input.specs.Counted.{AreCounted, HasCounted};

use crate::bounds::{Excess, Measure, WholeLimits};
use crate::consumer::Consumer;
use crate::tool_fault::ToolFault;
use arrow_stream_reader::{Item, StreamReader};
use std::ops::ControlFlow;

/// The bounds of a stream, and how many rows and messages of it came. Quantities without a bound
/// are not counted.
#[derive(Clone, Copy)]
pub(crate) struct Counts {
    whole: WholeLimits,
    rows: u64,
    messages: u64,
}

impl Counts {
    /// The counts with one more message, which the reader has just read and which begins at this
    /// offset.
    fn with(self, reader: &StreamReader, place: u64, item: &Item) -> Result<Counts, Excess>
        ensures { (entries : List Entry) → AreCounted self.whole self entries
            → (x : Entry) → x.given ≡ given item.now → x.end ≡ reader.now.at.place
            → MatchResult result (λ new. AreCounted self.whole new (entries ++ x ∷ []))
            (λ excess. (excess.place ≡ place)
            × Pass self.whole excess.measure excess.limit (entries ++ x ∷ [])) }
    {
        let whole = self.whole;
        let messages = match counted(whole.messages, self.messages, messages_of(item)) {
            Ok(messages) => messages,
            Err(limit) => return Err(Excess {
                place,
                measure: Measure::Messages,
                limit,
            }),
        };
        let rows = match counted(whole.rows, self.rows, rows_of(item)) {
            Ok(rows) => rows,
            Err(limit) => return Err(Excess {
                place,
                measure: Measure::Rows,
                limit,
            }),
        };
        match counted(whole.bytes, 0, reader.place()) {
            Ok(_) => Ok(Counts {
                whole,
                rows,
                messages,
            }),
            Err(limit) => Err(Excess {
                place,
                measure: Measure::Bytes,
                limit,
            }),
        }
    }
}

/// The count with this many more, under a bound, or the bound that it passes.
fn counted(bound: Option<u64>, before: u64, more: u64) -> Result<u64, u64>
    ensures { (n : ℕ) → HasCounted bound before n → MatchResult result
        (λ after. HasCounted bound after (n + more)) (λ limit. IsPassed bound limit (n + more)) }
{
    let Some(limit) = bound else {
        return Ok(before);
    };
    match before.checked_add(more) {
        Some(sum) if sum <= limit => Ok(sum),
        Some(_) | None => Err(limit),
    }
}

/// As how many messages an item counts.
fn messages_of(item: &Item) -> u64
    ensures { result ≡ messages_by (given item.now) }
{
    match item {
        Item::Schema | Item::Dictionary(_) | Item::Batch(_) => 1,
        Item::End => 0,
    }
}

/// How many rows an item has.
fn rows_of(item: &Item) -> u64
    ensures { result ≡ rows_by (given item.now) }
{
    match item {
        Item::Batch(batch) => batch.rows() as u64,
        Item::Schema | Item::Dictionary(_) | Item::End => 0,
    }
}

/// A consumer, the counts of its stream, and where the stream passes a bound. The message with
/// which it does is not passed to the consumer, nor is anything after it.
#[derive(Drop)]
pub(crate) struct Counting<C: Consumer> {
    consumer: C,
    counts: Counts,
    excess: Option<Excess>,
}

impl<C: Consumer> Counting<C> {
    /// A consumer to which nothing was given.
    pub(crate) fn new(consumer: C, whole: WholeLimits) -> Counting<C>
        ensures consumer { result.consumer ≡ consumer }
        ensures counted { AreCounted whole result.counts [] }
        ensures none { result.excess ≡ None }
    {
        let counts = Counts {
            whole,
            rows: 0,
            messages: 0,
        };
        Counting {
            consumer,
            counts,
            excess: None,
        }
    }

    /// The consumer, and where the stream passes a bound.
    pub(crate) fn into_parts(self) -> (C, Option<Excess>)
        ensures consumer { result.0 ≡ self.consumer }
        ensures excess { result.1 ≡ self.excess }
    {
        let Counting {
            consumer,
            counts: _,
            excess,
        } = self;
        (consumer, excess)
    }
}

impl<C: Consumer> Consumer for Counting<C> {
    ghost use Rattle.arrowflow_input.specs.Counted.{CountingBegan, HasCountedOn, IsCounting};

    ghost Start = { CountingBegan C.Start };

    ghost is_ready = { λ c. C.is_ready c.consumer };

    ghost keeps = { λ began c. IsCounting began.whole c.counts c.excess
        (C.keeps began.start c.consumer) };

    ghost answers = { λ began c. HasCountedOn began.whole c.excess
        (C.keeps began.start c.consumer) (C.answers began.start c.consumer) };

    fn item(
        self,
        reader: &StreamReader,
        place: u64,
        item: Item,
    ) -> (Self, Result<ControlFlow<()>, ToolFault>) {
        let Counting {
            consumer,
            counts,
            excess,
        } = self;
        match counts.with(reader, place, &item) {
            Ok(counts) => {
                let (consumer, answer) = consumer.item(reader, place, item);
                let counting = Counting {
                    consumer,
                    counts,
                    excess,
                };
                (counting, answer)
            }
            Err(passed) => {
                let counting = Counting {
                    consumer,
                    counts,
                    excess: Some(passed),
                };
                (counting, Ok(ControlFlow::Break(())))
            }
        }
    }

    fn end(self, reader: &StreamReader, marked: bool) -> (Self, Result<(), ToolFault>) {
        let Counting {
            consumer,
            counts,
            excess,
        } = self;
        let (consumer, answer) = consumer.end(reader, marked);
        let counting = Counting {
            consumer,
            counts,
            excess,
        };
        (counting, answer)
    }
}
