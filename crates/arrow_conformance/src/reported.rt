//! The content of a vector's text, message by message.

use std::alloc::{AllocError, Global};
use std::collections::BTreeMap;

/// A stream of more bytes than this is cut at few offsets.
const LONG: u64 = 8192;

/// How a stream ends if its input fails.
const FAILED: &str = "failed";

/// How an input breaks off.
#[derive(Clone, Copy, PartialEq, Eq)]
pub(crate) enum Break {
    /// It has no more bytes.
    Ends,
    /// It fails.
    Fails,
}

/// What a message is.
#[derive(Clone, Copy, PartialEq, Eq)]
pub(crate) enum Form {
    Schema,
    Dictionary,
    Batch,
    End,
}

/// A complete message, or the end marker.
#[derive(Drop)]
pub(crate) struct Message<'a> {
    /// Where it begins, and how long it is.
    pub(crate) place: u64,
    pub(crate) size: u64,
    /// What it is, also in the words of the text.
    pub(crate) form: Form,
    pub(crate) words: &'a str,
    /// The lines below it: columns, values or rows.
    pub(crate) below: Vec<&'a str>,
}

impl<'a> Message<'a> {
    /// Where it ends.
    pub(crate) fn end(&self) -> u64 {
        self.place.saturating_add(self.size)
    }

    /// The id of a dictionary.
    pub(crate) fn id(&self) -> i64 {
        self.numbers().0.parse::<i64>().unwrap_or(0)
    }

    /// How many values or rows there are, as written in the text.
    pub(crate) fn count(&self) -> &'a str {
        self.numbers().1
    }

    /// The words before and after ` of `: `dictionary ID of COUNT`, `batch of COUNT`.
    fn numbers(&self) -> (&'a str, &'a str) {
        let words = self.words.strip_prefix("dictionary ").unwrap_or(self.words);
        words.split_once(" of ").unwrap_or(("", ""))
    }

    /// Appends the message with the lines below it.
    pub(crate) fn push_to(&self, text: &mut String) -> Result<(), AllocError> {
        write!(text, "{}\n", self.words)?;
        for line in &self.below {
            write!(text, "{line}\n")?;
        }
        Ok(())
    }
}

/// What a text says of a stream.
#[derive(Drop)]
pub(crate) struct Reported<'a> {
    /// The complete messages, in their order.
    pub(crate) messages: Vec<Message<'a>>,
    /// How the stream ends: `clean`, or `KIND at P`.
    pub(crate) end: &'a str,
}

impl<'a> Reported<'a> {
    /// What these lines say.
    pub(crate) fn of(alloc: Global, lines: &'a str) -> Result<Reported<'a>, AllocError> {
        let mut reported = Reported {
            messages: Vec::new(alloc),
            end: "",
        };
        for line in lines.split('\n') {
            reported.add(alloc, line)?;
        }
        Ok(reported)
    }

    fn add(&mut self, alloc: Global, line: &'a str) -> Result<(), AllocError> {
        if let Some(end) = line.strip_prefix("end ") {
            self.end = end;
        } else if let Some((size, words)) = message_in(line) {
            let (place, size) = (self.place(), size.parse::<u64>().unwrap_or(0));
            let (form, below) = (form_of(words), Vec::new(alloc));
            self.messages.push(Message {
                place,
                size,
                form,
                words,
                below,
            })?;
        } else if line.starts_with("  ") {
            if let Some(last) = self.messages.last_mut() {
                last.below.push(line)?;
            }
        }
        Ok(())
    }

    /// Where the last message ends.
    pub(crate) fn place(&self) -> u64 {
        self.messages.last().map_or(0, |last| last.end())
    }

    /// Where the last message ends that is complete before this offset, 0 if there is none.
    pub(crate) fn last_end_before(&self, place: u64) -> u64 {
        let mut before = 0;
        for message in &self.messages {
            if message.end() <= place {
                before = message.end();
            }
        }
        before
    }

    /// Whether pieces or a connection are to end at an offset of a stream of this size: from one
    /// byte before the end of a message to eight after it, or exactly there in a long stream, at
    /// every 32nd offset, and at 16 offsets of a larger stream.
    pub(crate) fn is_chosen(&self, place: u64, size: u64) -> bool {
        let (before, after) = if size <= LONG { (1, 8) } else { (0, 0) };
        let mut ends = self.messages.iter().map(|message| message.end());
        place % (size / 16).max(32) == 0
            || ends.any(|end| {
                place <= end.saturating_add(after) && end <= place.saturating_add(before)
            })
    }

    /// Whether a message ends at an offset, or one byte before or after it.
    pub(crate) fn is_next_to_an_end(&self, place: u64) -> bool {
        let mut ends = self.messages.iter().map(|message| message.end());
        ends.any(|end| end.abs_diff(place) <= 1)
    }

    /// Whether the stream ends well.
    pub(crate) fn is_clean(&self) -> bool {
        self.end == "clean"
    }

    /// Whether an end marker came.
    pub(crate) fn is_ended(&self) -> bool {
        self.messages
            .last()
            .is_some_and(|last| last.form == Form::End)
    }

    /// The schema's message.
    pub(crate) fn schema(&self) -> Option<&Message<'a>> {
        self.messages
            .first()
            .filter(|first| first.form == Form::Schema)
    }

    /// How many rows the batches have that end at or before this offset.
    pub(crate) fn rows_before(&self, place: u64) -> u64 {
        let mut rows = 0u64;
        for message in &self.messages {
            if message.form == Form::Batch && message.end() <= place {
                rows = rows.saturating_add(message.count().parse::<u64>().unwrap_or(0));
            }
        }
        rows
    }

    /// Where the last of the first `count` batches ends, or the schema if there are none.
    pub(crate) fn end_of_batches(&self, count: usize) -> u64 {
        let mut end = self.schema().map_or(0, |schema| schema.end());
        let mut left = count;
        for message in &self.messages {
            if message.form == Form::Batch && left > 0 {
                end = message.end();
                left = left.saturating_sub(1);
            }
        }
        end
    }

    /// How many batches end at or before this offset.
    pub(crate) fn batches_before(&self, place: u64) -> usize {
        let batches = self.messages.iter().filter(|it| it.form == Form::Batch);
        batches.filter(|it| it.end() <= place).count()
    }

    /// By id, the message that gave each dictionary the state that it has after this offset.
    pub(crate) fn dictionaries_at(
        &self,
        alloc: Global,
        place: u64,
    ) -> Result<BTreeMap<i64, &Message<'a>>, AllocError> {
        let mut found = BTreeMap::new(alloc);
        for message in &self.messages {
            if message.form == Form::Dictionary && message.end() <= place {
                found.insert(message.id(), message)?;
            }
        }
        Ok(found)
    }

    /// Appends the line of the fault, as the program prints it, with its status before it; nothing
    /// if the stream ends well.
    pub(crate) fn push_fault(&self, text: &mut String) -> Result<(), AllocError> {
        if self.end == FAILED {
            return text.push_str("2 cannot read in\n");
        }
        match self.end.split_once(" at ") {
            Some((kind, place)) => write!(text, "1 fault at byte {place}: {kind}\n"),
            None => Ok(()),
        }
    }
}

/// For a stream that ends well: the lines of the messages that are complete if its input breaks off
/// at an offset, and how it ends there.
pub(crate) fn lines_before(
    alloc: Global,
    lines: &str,
    place: u64,
    breaks: Break,
) -> Result<String, AllocError> {
    let mut text = String::new(alloc);
    let (mut end, mut is_ended) = (0u64, false);
    for line in lines.split('\n') {
        if let Some((size, words)) = message_in(line) {
            let next = end.saturating_add(size.parse::<u64>().unwrap_or(0));
            if next > place {
                break;
            }
            end = next;
            is_ended = words == "end";
            write!(text, "{line}\n")?;
        } else if line.starts_with("  ") {
            write!(text, "{line}\n")?;
        }
    }
    if is_ended {
        text.push_str("end clean\n")?;
    } else if breaks == Break::Fails {
        write!(text, "end {FAILED}\n")?;
    } else {
        text.push_str("end ")?;
        push_ending(&mut text, end, place)?;
    }
    Ok(text)
}

/// Appends how a stream ends that is cut off at an offset, if its last complete message ends at
/// `end`.
pub(crate) fn push_ending(text: &mut String, end: u64, place: u64) -> Result<(), AllocError> {
    if end == 0 {
        return text.push_str("NoSchema at 0\n");
    }
    if end == place {
        return text.push_str("clean\n");
    }
    write!(text, "Truncated at {end}\n")
}

/// The size and the words of a message's line.
fn message_in(line: &str) -> Option<(&str, &str)> {
    let (size, words) = line.strip_prefix("take ")?.split_once(' ')?;
    if words == "nothing" {
        None
    } else {
        Some((size, words))
    }
}

fn form_of(words: &str) -> Form {
    if words == "schema" {
        Form::Schema
    } else if words == "end" {
        Form::End
    } else if words.starts_with("batch ") {
        Form::Batch
    } else {
        Form::Dictionary
    }
}

/// A column's line: its level, from 0, and the text after the word.
pub(crate) fn column_in(line: &str) -> Option<(u32, &str)> {
    let mut rest = line.strip_prefix("  ")?;
    for level in 0..64 {
        if let Some(column) = rest.strip_prefix("column ") {
            return Some((level, column));
        }
        rest = rest.strip_prefix("  ")?;
    }
    None
}
