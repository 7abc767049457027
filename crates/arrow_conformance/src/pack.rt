//! The file of vectors: a stream of three columns, `name`, `text` and `stream`, with a row for
//! each. A file of changes is stored like a vector without a stream. What is written of a vector in
//! one of the ways is stored like one without a text, with the name `NAME.copyWAY`. A vector whose
//! name begins with `all/` is read with all types, any other one with the core.

use crate::given::{Given, limits_of};
use arrow_data::Batch;
use arrow_stream_reader::StreamReader;
use arrow_types::{Limits, TypeSet};
use arrowflow_input::session::{Received, receive};
use std::alloc::{AllocError, Global};

/// The prefix of the name of a vector that is read with all types.
const OF_ALL: &str = "all/";

/// The prefix of the name of a row of `vectors/scripts/ROWS`.
const OF_ROWS: &str = "ROWS.";

/// A vector.
#[derive(Clone, Copy)]
pub(crate) struct Vector<'a> {
    /// Its name.
    pub(crate) name: &'a str,
    /// Its subject, what it binds, and the lines.
    pub(crate) text: &'a str,
    /// The bytes.
    pub(crate) stream: &'a [u8],
}

impl<'a> Vector<'a> {
    /// Whether it is the copy that is written of a vector.
    pub(crate) fn is_a_copy(&self) -> bool {
        self.text.is_empty()
    }

    /// Whether it is a file of changes.
    pub(crate) fn is_of_changes(&self) -> bool {
        self.name.ends_with(".changes")
    }

    /// Whether it is a vector or a family of the folders of the core: no row of `ROWS`, and none of
    /// all types.
    pub(crate) fn is_of_core(&self) -> bool {
        self.name.split_once('/').is_none() && !self.name.starts_with(OF_ROWS)
    }

    /// The limits with which it is read.
    pub(crate) fn limits(&self) -> Limits {
        limits_of(self.types())
    }

    /// The types of these limits.
    pub(crate) fn types(&self) -> TypeSet {
        if self.name.starts_with(OF_ALL) {
            TypeSet::All
        } else {
            TypeSet::Core
        }
    }

    /// Its bytes as an input that delivers as much as possible at once.
    pub(crate) fn given(&self) -> Given<'a> {
        Given::whole(self.stream, self.types())
    }

    /// The lines with the results of a reader: those after the first two.
    pub(crate) fn lines(&self) -> &'a str {
        match self.text.split_once('\n') {
            Some((_, rest)) => rest.split_once('\n').map_or("", |parts| parts.1),
            None => "",
        }
    }
}

/// The stream of the vector of this name.
pub(crate) fn stream_of<'a>(vectors: &[Vector<'a>], name: &str) -> Option<&'a [u8]> {
    vectors
        .iter()
        .find(|it| it.name == name)
        .map(|it| it.stream)
}

/// The batches of the file.
pub(crate) fn batches_in(alloc: Global, bytes: &[u8]) -> Result<Vec<Batch>, AllocError> {
    let mut reader = StreamReader::new(alloc, Limits::standard());
    let Received { handed, .. } = receive(alloc, &mut reader, bytes, &[])?;
    Ok(handed)
}

/// The vectors of the file, in its order.
pub(crate) fn vectors_in(alloc: Global, batches: &[Batch]) -> Result<Vec<Vector<'_>>, AllocError> {
    let mut vectors = Vec::new(alloc);
    for batch in batches {
        for row in 0..batch.rows() {
            if let Some(vector) = vector_at(batch, row) {
                vectors.push(vector)?;
            }
        }
    }
    Ok(vectors)
}

/// The vector in a row, if there is one.
fn vector_at(batch: &Batch, row: usize) -> Option<Vector<'_>> {
    let [name, text, stream] = batch.columns() else {
        return None;
    };
    if name.len() <= row || text.len() <= row || stream.len() <= row {
        return None;
    }
    Some(Vector {
        name: name.text_at(row)?,
        text: text.text_at(row)?,
        stream: stream.bytes_at(row)?,
    })
}
