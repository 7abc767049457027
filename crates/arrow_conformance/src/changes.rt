//! Changes of a stream, and the results of a reader for each, in numbers: for the changed stream in
//! one piece, and in small ones.

use crate::findings::Findings;
use crate::pack::Vector;
use arrow_stream_reader::{Item, StreamReader};
use std::alloc::{AllocError, Global};

/// A stream of up to this many bytes is also delivered byte by byte, a longer one in pieces of
/// `PIECE` bytes.
const SHORT: usize = 400;

/// How many bytes the pieces of a longer stream have.
const PIECE: usize = 7;

/// A file of changes.
#[derive(Clone, Copy)]
pub(crate) struct Family<'a> {
    /// The file.
    pub(crate) vector: &'a Vector<'a>,
    /// The stream that it changes.
    pub(crate) base: &'a [u8],
    /// Whether the streams are only read in one piece, and of the values of one byte only the first
    /// and the last are set.
    pub(crate) are_whole: bool,
}

/// Compares the results of a reader for each change of a stream that a file lists.
pub(crate) fn run(
    alloc: Global,
    found: &mut Findings,
    family: Family<'_>,
) -> Result<(), AllocError> {
    let mut reader = StreamReader::new(alloc, family.vector.limits());
    for (number, line) in family.vector.text.split('\n').enumerate().skip(2) {
        if let Some((change, wanted)) = line.split_once(" -> ") {
            let mut tried = Tried {
                alloc,
                reader: &mut reader,
                found,
                family,
                line: number.saturating_add(1),
                wanted,
            };
            tried.change(change)?;
        }
    }
    Ok(())
}

/// The name of the stream that a file changes, which is in its second line.
pub(crate) fn base_of(text: &str) -> Option<&str> {
    text.split('\n').nth(1)?.strip_prefix("base ")
}

/// How many streams a file lists.
pub(crate) fn count(text: &str) -> usize {
    let mut count = 0usize;
    for line in text.split('\n').skip(2) {
        if let Some((change, _)) = line.split_once(" -> ") {
            count = count.saturating_add(count_of(change));
        }
    }
    count
}

/// How many streams a change describes.
fn count_of(change: &str) -> usize {
    let (first, last) = match length_of(change) {
        Some(lengths) => lengths,
        None => bytes_of(change).unwrap_or((1, 1)),
    };
    last.saturating_sub(first).saturating_add(1)
}

/// The first and the last length of the prefixes that a change describes.
fn length_of(change: &str) -> Option<(usize, usize)> {
    let lengths = change.strip_prefix("length ")?;
    let (first, last) = lengths.split_once("..").unwrap_or((lengths, lengths));
    Some((first.parse::<usize>().ok()?, last.parse::<usize>().ok()?))
}

/// The first and the last value of the byte that a change sets one by one.
fn bytes_of(change: &str) -> Option<(usize, usize)> {
    let (_, values) = change.split_once(" := ")?;
    let (first, last) = values.split_once("..")?;
    let (first, last) = (
        u8::from_str_radix(first, 16).ok()?,
        u8::from_str_radix(last, 16).ok()?,
    );
    Some((first as usize, last as usize))
}

/// The offset from which a change sets bytes.
fn place_of(setting: &str) -> Option<usize> {
    let (place, _) = setting.split_once(" := ")?;
    place.rsplit_once(" at ")?.1.parse::<usize>().ok()
}

/// A change that is tried.
#[derive(Drop)]
struct Tried<'a> {
    alloc: Global,
    reader: &'a mut StreamReader,
    found: &'a mut Findings,
    family: Family<'a>,
    line: usize,
    wanted: &'a str,
}

impl Tried<'_> {
    /// Tries the streams that a change describes.
    fn change(&mut self, change: &str) -> Result<(), AllocError> {
        let base = self.family.base;
        if let Some((first, last)) = length_of(change) {
            for length in first..last.saturating_add(1) {
                self.stream(base.get(..length).unwrap_or(base))?;
            }
            return Ok(());
        }
        let mut stream = base.to_vec(self.alloc)?;
        if let (Some((first, last)), Some(place)) = (bytes_of(change), place_of(change)) {
            for value in first..last.saturating_add(1) {
                if !self.family.are_whole || value == first || value == last {
                    set(&mut stream, place, u8::try_from(value).unwrap_or(u8::MAX));
                    self.stream(&stream)?;
                }
            }
            return Ok(());
        }
        for setting in change.split(", ") {
            set_all(&mut stream, setting);
        }
        self.stream(&stream)
    }

    /// Compares the results for one stream, in one piece and in small ones.
    fn stream(&mut self, stream: &[u8]) -> Result<(), AllocError> {
        self.delivered("change in line", stream, stream.len())?;
        self.found.count_end(self.family.vector, self.reader.end());
        if self.family.are_whole {
            return Ok(());
        }
        let size = if stream.len() <= SHORT { 1 } else { PIECE };
        self.delivered("change, in pieces, in line", stream, size)
    }

    /// Compares the results of the reader, which is restarted, for one stream in pieces of this
    /// size. The words say which change it is, in front of its line.
    fn delivered(&mut self, words: &str, stream: &[u8], size: usize) -> Result<(), AllocError> {
        self.reader.restart();
        let Counts { batches, rows } = read_all(self.reader, stream, size);
        let mut text = format!(in self.alloc; "batches {batches} rows {rows} end ")?;
        match self.reader.end() {
            Ok(()) => text.push_str("clean")?,
            Err(fault) => write!(text, "{} at {}", fault.kind, fault.place)?,
        }
        self.found.compare((words, self.line), &text, self.wanted)
    }
}

fn set(stream: &mut [u8], place: usize, value: u8) {
    if let Some(byte) = stream.get_mut(place) {
        *byte = value;
    }
}

/// Sets the bytes of a setting, which are given in hexadecimal.
fn set_all(stream: &mut [u8], setting: &str) {
    let (Some(place), Some((_, digits))) = (place_of(setting), setting.split_once(" := ")) else {
        return;
    };
    for (number, pair) in digits.as_bytes().chunks(2).enumerate() {
        let value = str::from_utf8(pair).map_or(
            0,
            |pair| u8::from_str_radix(pair, 16).unwrap_or(0),
        );
        set(stream, place.saturating_add(number), value);
    }
}

/// What a reader returned from a stream.
#[derive(Clone, Copy)]
struct Counts {
    batches: u64,
    rows: u64,
}

impl Counts {
    /// Gives a reader a piece, and counts what it returns. Returns whether the reader accepted it.
    fn give(&mut self, reader: &mut StreamReader, piece: &[u8]) -> bool {
        let mut rest = piece;
        for _ in 0..piece.len().saturating_add(1) {
            match reader.read(rest) {
                Ok((count, Some(item))) => {
                    rest = &rest[count..];
                    self.add(&item);
                }
                Ok((_, None)) => return true,
                Err(_) => return false,
            }
        }
        false
    }

    fn add(&mut self, item: &Item) {
        if let Item::Batch(batch) = item {
            self.batches = self.batches.saturating_add(1);
            self.rows = self.rows.saturating_add(batch.rows() as u64);
        }
    }
}

/// How many batches and rows a reader returns from a stream in pieces of this size.
fn read_all(reader: &mut StreamReader, stream: &[u8], size: usize) -> Counts {
    let mut counts = Counts {
        batches: 0,
        rows: 0,
    };
    let mut rest = stream;
    for _ in 0..stream.len().saturating_add(1) {
        let (piece, after) = rest.split_at(size.min(rest.len()));
        if !counts.give(reader, piece) || after.is_empty() {
            break;
        }
        rest = after;
    }
    counts
}
