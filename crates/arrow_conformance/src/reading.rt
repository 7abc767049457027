//! The results of a reader, call by call.

use crate::columns::push_schema;
use crate::findings::Findings;
use crate::given::limits_of;
use crate::pack::Vector;
use crate::reported::Reported;
use crate::values::{push_batch, push_dictionary};
use arrow_data::Batch;
use arrow_stream_reader::{Fault, Item, StreamReader};
use arrow_types::TypeSet;
use std::alloc::{AllocError, Global};

/// A stream of up to this many bytes is cut at each offset.
const SMALL: usize = 200;

/// A vector of the core of up to this many bytes is cut at each offset too.
const LONGER: usize = 1424;

/// The vectors of such sizes that are not, since a few of their bytes are read as many fields or
/// pairs.
static SLOW: [&str; 3] = [
    "pairs_over_the_limit",
    "shared_fields_17_deep",
    "shared_fields_8_deep",
];

/// Compares the results of a reader for the stream in one piece.
pub(crate) fn run_whole(
    alloc: Global,
    found: &mut Findings,
    vector: &Vector<'_>,
) -> Result<(), AllocError> {
    let mut reader = StreamReader::new(alloc, vector.limits());
    let answers = answers_of(alloc, &mut reader, vector.stream)?;
    found.count_end(vector, reader.end());
    found.compare(("read in pieces:", 1), &answers, vector.lines())
}

/// Compares the results of a reader for the stream byte by byte, and cut in two at each offset that
/// is chosen.
pub(crate) fn run_in_pieces(
    alloc: Global,
    found: &mut Findings,
    vector: &Vector<'_>,
    reported: &Reported<'_>,
) -> Result<(), AllocError> {
    let (wanted, stream) = (vector.lines(), vector.stream);
    let mut reader = StreamReader::new(alloc, vector.limits());
    let mut answers = Answers::new(alloc);
    for byte in stream.chunks(1) {
        answers.give(&mut reader, byte)?;
    }
    answers.finish(&reader)?;
    found.compare(("read in pieces:", stream.len()), &answers.text, wanted)?;
    let is_cut_everywhere = is_cut_everywhere(vector);
    for cut in 0..stream.len().saturating_add(1) {
        if is_cut_everywhere || reported.is_chosen(cut as u64, stream.len() as u64) {
            let answers = answers_when_cut(alloc, &mut reader, stream, cut)?;
            found.compare(("read, cut at", cut), &answers, wanted)?;
        }
    }
    Ok(())
}

/// Whether the stream is cut in two at each of its offsets.
fn is_cut_everywhere(vector: &Vector<'_>) -> bool {
    let (size, name) = (vector.stream.len(), vector.name);
    let is_longer = size <= LONGER && vector.is_of_core() && !SLOW.iter().any(|it| *it == name);
    size <= SMALL || is_longer
}

/// The results of a reader of these types for a stream in one piece, in the form of a vector's
/// text.
pub(crate) fn answers_to(
    alloc: Global,
    stream: &[u8],
    types: TypeSet,
) -> Result<String, AllocError> {
    let mut reader = StreamReader::new(alloc, limits_of(types));
    answers_of(alloc, &mut reader, stream)
}

/// The results of a reader, which has read nothing, for a stream in one piece.
fn answers_of(
    alloc: Global,
    reader: &mut StreamReader,
    stream: &[u8],
) -> Result<String, AllocError> {
    let mut answers = Answers::new(alloc);
    answers.give(reader, stream)?;
    answers.finish(reader)?;
    Ok(answers.text)
}

/// The results of a reader, which is restarted, for a stream in two pieces.
fn answers_when_cut(
    alloc: Global,
    reader: &mut StreamReader,
    stream: &[u8],
    cut: usize,
) -> Result<String, AllocError> {
    reader.restart();
    let (front, back) = stream.split_at(cut.min(stream.len()));
    let mut answers = Answers::new(alloc);
    answers.give(reader, front)?;
    answers.give(reader, back)?;
    answers.finish(reader)?;
    Ok(answers.text)
}

/// The results of a reader so far.
#[derive(Drop)]
struct Answers {
    alloc: Global,
    text: String,
    /// The batches, and their rows when they were returned.
    batches: Vec<Batch>,
    rows: String,
    /// How many bytes were taken since the last item, and before it.
    taken: u64,
    before: u64,
    refused: Option<Fault>,
    is_done: bool,
}

impl Answers {
    fn new(alloc: Global) -> Answers {
        Answers {
            alloc,
            text: String::new(alloc),
            batches: Vec::new(alloc),
            rows: String::new(alloc),
            taken: 0,
            before: 0,
            refused: None,
            is_done: false,
        }
    }

    /// Gives a reader a piece, and then again the bytes of it that the reader left.
    fn give(&mut self, reader: &mut StreamReader, piece: &[u8]) -> Result<(), AllocError> {
        let mut rest = piece;
        for _ in 0..piece.len().saturating_add(1) {
            match reader.read(rest) {
                Ok((count, Some(item))) => {
                    self.take(count);
                    self.push_item(reader, item)?;
                    rest = &rest[count..];
                }
                Ok((count, None)) => {
                    self.take(count);
                    return self.check_rest(rest.len(), count);
                }
                Err(fault) => return self.push_fault(fault),
            }
        }
        self.text.push_str("items without bytes\n")
    }

    fn take(&mut self, count: usize) {
        self.taken = self.taken.saturating_add(count as u64);
    }

    /// If no item comes, all remaining bytes are taken, and after an end marker none of them.
    fn check_rest(&mut self, len: usize, count: usize) -> Result<(), AllocError> {
        if self.is_done && count > 0 || !self.is_done && count != len {
            return write!(self.text, "{count} of {len} bytes taken\n");
        }
        Ok(())
    }

    fn push_item(&mut self, reader: &StreamReader, item: Item) -> Result<(), AllocError> {
        write!(self.text, "take {} ", self.taken)?;
        self.before = self.before.saturating_add(self.taken);
        self.taken = 0;
        match item {
            Item::Schema => self.push_schema(reader)?,
            Item::Dictionary(id) => match reader.dictionaries().get(id) {
                Some(dictionary) => push_dictionary(&mut self.text, id, dictionary)?,
                None => write!(self.text, "dictionary {id}, which is not there\n")?,
            },
            Item::Batch(batch) => {
                push_batch(&mut self.text, &batch)?;
                push_batch(&mut self.rows, &batch)?;
                self.batches.push(batch)?;
            }
            Item::End => {
                self.is_done = true;
                self.text.push_str("end\n")?;
            }
        }
        self.check_place(reader)
    }

    fn push_schema(&mut self, reader: &StreamReader) -> Result<(), AllocError> {
        match reader.schema() {
            Some(schema) => push_schema(self.alloc, &mut self.text, schema),
            None => self.text.push_str("a schema that is not there\n"),
        }
    }

    /// After an item the reader is at the end of the bytes that it took, and holds none.
    fn check_place(&mut self, reader: &StreamReader) -> Result<(), AllocError> {
        let (place, held) = (reader.place(), reader.held());
        if place != self.before || held != 0 {
            return write!(self.text, "at {place}, where {held} bytes are held\n");
        }
        Ok(())
    }

    /// An error is the same each time.
    fn push_fault(&mut self, fault: Fault) -> Result<(), AllocError> {
        if self.refused == Some(fault) {
            return Ok(());
        }
        self.refused = Some(fault);
        write!(self.text, "refuse {} at {}\n", fault.kind, fault.place)
    }

    /// Checks the reader when nothing more comes, and the batches again.
    fn finish(&mut self, reader: &StreamReader) -> Result<(), AllocError> {
        if self.refused.is_none() {
            write!(self.text, "take {} nothing\n", self.taken)?;
        }
        let held = reader.held();
        let is_open = self.refused.is_none() && !self.is_done;
        if is_open || held > 0 {
            write!(self.text, "hold {held}\n")?;
        }
        match reader.end() {
            Ok(()) => self.text.push_str("end clean\n")?,
            Err(fault) => write!(self.text, "end {} at {}\n", fault.kind, fault.place)?,
        }
        self.look_again()
    }

    /// The batches have the rows that they had when they were returned.
    fn look_again(&mut self) -> Result<(), AllocError> {
        let mut rows = String::new(self.alloc);
        for batch in &self.batches {
            push_batch(&mut rows, batch)?;
        }
        if rows != self.rows {
            return write!(self.text, "later the batches are\n{rows}");
        }
        Ok(())
    }
}
