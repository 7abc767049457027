//! Batches: columns of equal lengths, with the types of a schema's fields.

ghost use Rattle.std.specs.Prelude.{◌≡◌, ◌↔◌, ◌<◌, length, IsTrue, slice_get, Some};
ghost use Rattle.arrow_types.specs.View.{fields_view, type_view};
ghost use Rattle.arrow_data.specs.Batch.{Judges, HaveRows, IsTable, number_of};
ghost use Rattle.arrow_data.specs.Column.{AreOf};

use crate::array::Array;
use arrow_types::{Field, Schema};
use std::error::Error;
use std::fmt;
use std::marker::Model;
use std::rc::Rc;

/// Why columns make no batch, in the order of the faults' numbers.
#[derive(Clone, Copy, Debug, PartialEq, Eq)]
pub enum BatchFault {
    /// There are more or fewer columns than fields.
    ColumnCount,
    /// A column has another type or another encoding than its field.
    ColumnType,
    /// A column has more or fewer slots than the batch has rows.
    ColumnLength,
    /// An index has no value in its dictionary. This never occurs, since no array is made with such
    /// an index.
    IndexRange,
    /// An allocation failed. This never occurs, since nothing is allocated.
    Memory,
}

impl BatchFault {
    /// The fault's number, from 1.
    pub fn number(self) -> u8
        ensures { result ≡ number_of self }
    {
        match self {
            BatchFault::ColumnCount => 1,
            BatchFault::ColumnType => 2,
            BatchFault::ColumnLength => 3,
            BatchFault::IndexRange => 4,
            BatchFault::Memory => 5,
        }
    }
}

impl fmt::Display for BatchFault {
    ghost use Rattle.std.specs.Prelude.{Some};
    ghost use Rattle.arrow_data.specs.Batch.{words_of};

    ghost output = { λ f. Some (words_of f) };

    fn fmt<W: fmt::Write>(&self, f: &mut fmt::Formatter<W>) -> fmt::Result {
        match self {
            BatchFault::ColumnCount => f.write_str("not one column for each field"),
            BatchFault::ColumnType => f.write_str("a column of another type than its field"),
            BatchFault::ColumnLength => f.write_str(
                "a column with another number of slots than rows",
            ),
            BatchFault::IndexRange => f.write_str("an index without a value"),
            BatchFault::Memory => f.write_str("out of memory"),
        }
    }
}

impl Error for BatchFault {}

/// Rows of a schema, stored as a column for each of its fields (`Message.fbs`, table
/// `RecordBatch`).
///
/// Each column has the type and the encoding of its field and a slot for each row. Code that holds
/// a batch never has to test that again. Batches share their schema.
#[derive(Drop)]
pub struct Batch {
    schema: Rc<Schema>,
    columns: Vec<Array>,
    rows: usize,
}

impl Model for Batch {
    ghost use Rattle.arrow_data.specs.Batch.{Table, table_code, IsTable};

    ghost Value = { Table };

    ghost coded = { table_code };

    ghost view = { λ b.
        record { schema = b.schema.value; columns = b.columns.items; rows = b.rows } };

    ghost invariant = { λ b. IsTable
        (record { schema = b.schema.value; columns = b.columns.items; rows = b.rows }) };
}

impl Batch {
    /// The batch of these columns, or the fault with the least number of those that apply.
    ///
    /// Columns have no names of their own: the types, the encodings and the lengths are compared. A
    /// batch without columns has `rows` rows all the same. Nothing is allocated.
    #[tactic(auto, using(crate::proofs::Batches::batches))]
    pub fn new(schema: Rc<Schema>, columns: Vec<Array>, rows: usize) -> Result<Batch, BatchFault>
        ensures { Judges result schema.value columns.items rows }
    {
        let fields = schema.fields();
        if columns.len() != fields.len() {
            return Err(BatchFault::ColumnCount);
        }
        if !are_of(fields, &columns) {
            return Err(BatchFault::ColumnType);
        }
        if !have_rows(&columns, rows) {
            return Err(BatchFault::ColumnLength);
        }
        Ok(Batch {
            schema,
            columns,
            rows,
        })
    }

    /// The batch of these columns. The caller knows that they are those of the schema and have
    /// `rows` slots each, as the columns of a checked body are and do. Nothing is compared.
    pub fn new_unchecked(schema: Rc<Schema>, columns: Vec<Array>, rows: usize) -> Batch
        requires typed { AreOf schema.value.fields columns.items }
        requires long { HaveRows rows columns.items }
        ensures { result
            ≡ record { schema = schema.value; columns = columns.items; rows = rows } }
    {
        // Called for its guarantee about every schema.
        schema.fields();
        Batch {
            schema,
            columns,
            rows,
        }
    }

    /// The schema in the memory that holds it; a clone of it allocates nothing.
    pub fn shared_schema(&self) -> &Rc<Schema>
        ensures { result.now.value ≡ self.now.schema }
    {
        &self.schema
    }

    /// The schema.
    pub fn schema(&self) -> &Schema
        ensures same { result.now ≡ self.now.schema }
        ensures known { IsTable self.now }
    {
        &*self.schema
    }

    /// How many rows there are.
    pub fn rows(&self) -> usize
        ensures { result ≡ self.now.rows }
    {
        self.rows
    }

    /// The column of field `k`.
    pub fn column(&self, k: usize) -> &Array
        requires { k < length self.now.columns }
        ensures { slice_get self.now.columns k ≡ Some result.now }
    {
        &self.columns[k]
    }

    /// The columns, one for each field, in the order of the fields.
    pub fn columns(&self) -> &[Array]
        ensures same { result.now ≡ self.now.columns }
        ensures long { HaveRows self.now.rows result.now }
    {
        &self.columns
    }
}

/// Whether the columns have the types and encodings of the fields; there are as many columns as
/// fields.
pub(crate) fn are_of(fields: &[Field], columns: &[Array]) -> bool
    requires { length columns.now ≡ length fields.now }
    ensures { IsTrue result ↔ AreOf (fields_view fields.now) columns.now }
{
    for i in 0..fields.len() {
        if !is_of(&fields[i], &columns[i]) {
            return false;
        }
    }
    true
}

/// Whether the column has the type and the encoding of the field.
pub(crate) fn is_of(field: &Field, column: &Array) -> bool
    ensures { IsTrue result ↔ (column.now.data_type ≡ type_view field.now.data_type)
        × (column.now.encoding ≡ field.now.dictionary) }
{
    if field.data_type.same(column.data_type()) {
        match (&field.dictionary, column.encoding()) {
            (Some(encoding), Some(other)) => *encoding == *other,
            (None, None) => true,
            (Some(_), None) | (None, Some(_)) => false,
        }
    } else {
        false
    }
}

/// Whether each column has `rows` slots.
fn have_rows(columns: &[Array], rows: usize) -> bool
    ensures { IsTrue result ↔ HaveRows rows columns.now }
{
    for column in columns {
        if column.len() != rows {
            return false;
        }
    }
    true
}
