//! The records of a schema and of the rows of batches.

ghost use Rattle.std.specs.Prelude.{◌≡◌, ◌≤◌, ◌<◌, ◌-◌, ◌++◌, [], codes, IfOk, IfSome, OnErr, OnOk};
ghost use Rattle.std.specs.Prelude.{length, map};
ghost use Rattle.std.specs.Fmt.{decimal};
ghost use Rattle.arrow_layout.specs.PlainValue.{value_at};
ghost use Rattle.arrow_data.specs.Same.{HaveSlot};
ghost use Rattle.arrow_csv.specs.Texts.{Appends, IsSomeField};
ghost use Rattle.csv.specs.Records.{fields_of, partial_of};
ghost use Rattle.arrow_types.specs.Field.{none};
ghost use Rattle.arrow_types.specs.View.{fields_view};
ghost use Rattle.arrow_csv.specs.Named.{HaveSlots, choice_by, chosen, chosen_shape, fields_named};
ghost use Rattle.arrow_csv.specs.Named.{with_field};
ghost use Rattle.arrow_csv.specs.Layouts.{first_field, form_by, null_by, usual_form};
ghost use Rattle.arrow_csv.specs.Records.{AreBatchRows, AreFieldsAfter, AreFieldsJoined, AreRows};
ghost use Rattle.arrow_csv.specs.Records.{IsBareRow, IsHead, IsRowAfter, IsRowPast, first_of};
ghost use Rattle.arrow_csv.specs.Records.{header_record, names};

use crate::column_text::ColumnText;
use crate::layout::Layout;
use crate::named::{columns_named, place_of};
use arrow_data::{Array, Batch, SlotValue};
use arrow_types::{Field, Schema};
use csv::{ByteRecord, WriterBuilder};
use itoa::Buffer;
use std::alloc::{AllocError, Global};
use std::marker::Model;
use std::ops::Range;

/// The first record: the word `batch` and the names of the columns.
pub fn header(alloc: Global, schema: &Schema) -> Result<Vec<u8>, AllocError>
    ensures { IfOk result (λ text. text.items ≡ header_record usual_form schema.now.fields) }
{
    header_of(alloc, schema, Layout::usual())
}

/// The first record of a layout: the word `batch`, if records have numbers, and the names of the
/// columns that it has. A record with no fields is written with one empty field: `""`.
pub fn header_of(alloc: Global, schema: &Schema, layout: Layout<'_>) -> Result<Vec<u8>, AllocError>
    ensures { IfOk result (λ text. text.items ≡ header_record (form_by layout.entry)
        (chosen_shape (choice_by layout.entry.columns) schema.now).fields) }
{
    let mut record = ByteRecord::new(alloc);
    push_word(&mut record, layout.numbers)?;
    match layout.columns {
        None => push_names(&mut record, schema.fields())?,
        Some(names) => push_named(&mut record, schema.fields(), names)?,
    }
    let mut writer = WriterBuilder::new().from_writer(Vec::new(alloc));
    let Ok(()) = writer.write_byte_record(&record) else {
        return Err(AllocError);
    };
    writer.into_inner().map_err(|_| AllocError)
}

/// Appends the word `batch`, if records have numbers.
fn push_word(line: &mut ByteRecord, numbers: bool) -> Result<(), AllocError>
    requires whole { partial_of line.old ≡ [] }
    requires empty { fields_of line.old ≡ [] }
    ensures word { OnOk result (fields_of line.new ≡ first_field numbers (codes "batch")) }
    ensures whole { OnOk result (partial_of line.new ≡ []) }
{
    if numbers {
        line.push_field(b"batch")
    } else {
        Ok(())
    }
}

/// Appends the names of fields.
fn push_names(line: &mut ByteRecord, fields: &[Field]) -> Result<(), AllocError>
    requires { partial_of line.old ≡ [] }
    ensures names { OnOk result
        (fields_of line.new ≡ fields_of line.old ++ names (fields_view fields.now)) }
    ensures whole { OnOk result (partial_of line.new ≡ []) }
{
    for field in fields {
        line.push_field(field.name.as_bytes())?;
    }
    Ok(())
}

/// Appends those of these names that a field has.
fn push_named(line: &mut ByteRecord, fields: &[Field], wanted: &[&str]) -> Result<(), AllocError>
    requires { partial_of line.old ≡ [] }
    ensures names { OnOk result (fields_of line.new ≡ fields_of line.old
        ++ names (fields_named (map (λ name. name.now) wanted.now) (fields_view fields.now))) }
    ensures whole { OnOk result (partial_of line.new ≡ []) }
{
    for name in wanted {
        push_name(line, fields, place_of(fields, name))?;
    }
    Ok(())
}

/// Appends the name of the field at an index, if there is one.
fn push_name(
    line: &mut ByteRecord,
    fields: &[Field],
    place: Option<usize>,
) -> Result<(), AllocError>
    requires whole { partial_of line.old ≡ [] }
    requires inside { IfSome place (λ place. place < length fields.now) }
    ensures name { OnOk result (fields_of line.new ≡ fields_of line.old
        ++ names (with_field place (fields_view fields.now) none)) }
    ensures whole { OnOk result (partial_of line.new ≡ []) }
{
    match place {
        Some(place) => line.push_field(fields[place].name.as_bytes()),
        None => Ok(()),
    }
}

/// The records of these rows of the batch that has this number.
pub fn rows(
    alloc: Global,
    number: u64,
    batch: &Batch,
    rows: Range<usize>,
) -> Result<Vec<u8>, AllocError>
    requires order { rows.start ≤ rows.end }
    requires inside { rows.end ≤ batch.now.rows }
    ensures { IfOk result
        (λ text. AreBatchRows usual_form number batch.now rows.start rows.end text.items) }
{
    let mut out = Vec::new(alloc);
    BatchRows::new(alloc, number, batch)?.push(&mut out, rows)?;
    Ok(out)
}

/// The rows of a numbered batch, as a layout writes them, while they are being written as text.
///
/// What is the same for all rows is looked up or made once, when it is created: where the values of
/// each column and of a list's items lie; if there are not too few rows, where the values of a
/// struct's fields lie and the text before each of them; and, if a dictionary has few values
/// compared with the rows, the field of each value.
#[derive(Drop)]
pub struct BatchRows<'a> {
    number: u64,
    batch: &'a Batch,
    layout: Layout<'a>,
    columns: Vec<ColumnText<'a>>,
}

impl<'a> Model for BatchRows<'a> {
    ghost use Rattle.std.specs.Prelude.{◌≡◌};
    ghost use Rattle.arrow_csv.specs.Layouts.{form_by};
    ghost use Rattle.arrow_csv.specs.Named.{choice_by, chosen};
    ghost use Rattle.arrow_csv.specs.Records.{NumberedBatch, numbered_code};

    ghost Value = { NumberedBatch };

    ghost coded = { numbered_code };

    ghost view = { λ r. record {
      form = form_by r.layout;
      number = r.number;
      batch = chosen (choice_by r.layout.columns) r.batch.now;
    } };

    ghost invariant = { λ r.
        r.columns.items ≡ (chosen (choice_by r.layout.columns) r.batch.now).columns };
}

impl<'a> BatchRows<'a> {
    /// The rows of the batch that has this number.
    pub fn new(alloc: Global, number: u64, batch: &'a Batch) -> Result<BatchRows<'a>, AllocError>
        ensures { IfOk result (λ rows. rows
            ≡ record { form = usual_form; number = number; batch = batch.now }) }
    {
        BatchRows::of(alloc, number, batch, Layout::usual())
    }

    /// The same as a layout writes them, after the record of [`header_of`].
    pub fn of(
        alloc: Global,
        number: u64,
        batch: &'a Batch,
        layout: Layout<'a>,
    ) -> Result<BatchRows<'a>, AllocError>
        ensures { IfOk result (λ rows. rows ≡ record {
          form = form_by layout.entry;
          number = number;
          batch = chosen (choice_by layout.entry.columns) batch.now;
        }) }
    {
        let columns = match layout.columns {
            None => all_columns(alloc, batch)?,
            Some(names) => columns_named(alloc, batch, names)?,
        };
        Ok(BatchRows {
            number,
            batch,
            layout,
            columns,
        })
    }

    /// Appends the records of these rows. If an allocation fails, the text is as it was.
    ///
    /// A record of no field, or of one that is empty, is written as `""`. If the text is empty
    /// before, the records are made in place; else they are made separately, and copied once.
    pub fn push(&self, out: &mut Vec<u8>, rows: Range<usize>) -> Result<(), AllocError>
        requires order { rows.start ≤ rows.end }
        requires inside { rows.end ≤ self.now.batch.rows }
        ensures ok { OnOk result (Appends
            (AreBatchRows self.now.form self.now.number self.now.batch rows.start rows.end)
            out.old.items out.new.items) }
        ensures err { OnErr result (out.new.items ≡ out.old.items) }
    {
        if out.is_empty() {
            return self.push_first(out, rows);
        }
        let mut records = Vec::new(*out.allocator());
        self.push_first(&mut records, rows)?;
        out.extend_from_slice(&records)
    }

    /// The same if no text comes before the records.
    fn push_first(&self, out: &mut Vec<u8>, rows: Range<usize>) -> Result<(), AllocError>
        requires order { rows.start ≤ rows.end }
        requires inside { rows.end ≤ self.now.batch.rows }
        requires empty { out.old.items ≡ [] }
        ensures ok { OnOk result (AreBatchRows self.now.form self.now.number self.now.batch
            rows.start rows.end out.new.items) }
        ensures err { OnErr result (out.new.items ≡ []) }
    {
        // Called for its postcondition, which holds of every batch.
        self.batch.schema();
        let columns = Columns {
            texts: &self.columns,
            null: self.layout.null,
        };
        let number = shown(self.layout.numbers, self.number);
        let Ok(()) = push_records(out, number, columns, rows) else {
            out.clear();
            return Err(AllocError);
        };
        Ok(())
    }
}

/// The texts of all columns.
fn all_columns<'a>(alloc: Global, batch: &'a Batch) -> Result<Vec<ColumnText<'a>>, AllocError>
    ensures { IfOk result (λ columns. columns.items ≡ batch.now.columns) }
{
    let mut columns = Vec::with_capacity(alloc, batch.columns().len())?;
    for column in batch.columns() {
        columns.push(ColumnText::new(alloc, column)?)?;
    }
    Ok(columns)
}

/// The number that records begin with, if they have one.
fn shown(numbers: bool, number: u64) -> Option<u64>
    ensures { first_of result ≡ first_field numbers (decimal number) }
{
    if numbers { Some(number) } else { None }
}

/// The columns of records, and the text of a null among their values.
#[derive(Clone, Copy)]
struct Columns<'r, 'a> {
    texts: &'r [ColumnText<'a>],
    null: Option<&'r str>,
}

/// Appends the records of these rows of these columns, each after the number of their batch, if it
/// is shown.
fn push_records(
    out: &mut Vec<u8>,
    number: Option<u64>,
    columns: Columns<'_, '_>,
    rows: Range<usize>,
) -> Result<(), AllocError>
    requires order { rows.start ≤ rows.end }
    requires inside { HaveSlots rows.end columns.texts.now }
    ensures { OnOk result (Appends (AreRows (first_of number) (null_by columns.entry.null)
        columns.entry.texts.now rows.start (rows.end - rows.start))
        out.old.items out.new.items) }
{
    let mut buffer = Buffer::new();
    let head = head_of(&mut buffer, number);
    for i in rows.start..rows.end {
        push_row(out, head, columns, i)?;
    }
    Ok(())
}

/// The text of the number that is shown, if one is.
fn head_of(buffer: &mut Buffer, number: Option<u64>) -> Option<&[u8]>
    ensures { IsHead number result }
{
    match number {
        Some(number) => Some(buffer.format(number).as_bytes()),
        None => None,
    }
}

/// Appends a record: its first field, which has this text, if it has one, and the values of a row.
#[inline(always)]
fn push_row(
    out: &mut Vec<u8>,
    head: Option<&[u8]>,
    columns: Columns<'_, '_>,
    i: usize,
) -> Result<(), AllocError>
    requires { HaveSlot i columns.texts.now }
    ensures { OnOk result (Appends
        (IsRowAfter head.entry (null_by columns.entry.null) columns.entry.texts.now i)
        out.old.items out.new.items) }
{
    match head {
        Some(head) => push_numbered(out, head, columns, i),
        None => push_bare(out, columns, i),
    }
}

/// Appends a record whose first field has this text.
fn push_numbered(
    out: &mut Vec<u8>,
    head: &[u8],
    columns: Columns<'_, '_>,
    i: usize,
) -> Result<(), AllocError>
    requires { HaveSlot i columns.texts.now }
    ensures { OnOk result (Appends
        (IsRowPast head.now (null_by columns.entry.null) columns.entry.texts.now i)
        out.old.items out.new.items) }
{
    out.extend_from_slice(head)?;
    push_fields(out, columns, i)?;
    out.push(b'\n')?;
    Ok(())
}

/// Appends a record of only the columns' fields: if it would have no byte, two quotes.
fn push_bare(out: &mut Vec<u8>, columns: Columns<'_, '_>, i: usize) -> Result<(), AllocError>
    requires { HaveSlot i columns.texts.now }
    ensures { OnOk result (Appends
        (IsBareRow (null_by columns.entry.null) columns.entry.texts.now i)
        out.old.items out.new.items) }
{
    let place = out.len();
    push_joined(out, columns, i)?;
    if out.len() == place {
        return out.extend_from_slice(b"\"\"\n");
    }
    out.push(b'\n')?;
    Ok(())
}

/// Appends the fields of a row with commas between them.
fn push_joined(out: &mut Vec<u8>, columns: Columns<'_, '_>, i: usize) -> Result<(), AllocError>
    requires { HaveSlot i columns.texts.now }
    ensures { OnOk result (Appends
        (AreFieldsJoined (null_by columns.entry.null) columns.entry.texts.now i)
        out.old.items out.new.items) }
{
    let Some((first, others)) = columns.texts.split_first() else {
        return Ok(());
    };
    first.push(out, i, columns.null)?;
    let rest = Columns {
        texts: others,
        null: columns.null,
    };
    push_fields(out, rest, i)
}

/// Appends the fields of a row, each after a comma.
#[inline(always)]
#[tactic(auto, unfolding(csv::specs::Writing::fields_text))]
fn push_fields(out: &mut Vec<u8>, columns: Columns<'_, '_>, i: usize) -> Result<(), AllocError>
    requires { HaveSlot i columns.texts.now }
    ensures { OnOk result (Appends
        (AreFieldsAfter (null_by columns.entry.null) columns.entry.texts.now i)
        out.old.items out.new.items) }
{
    for column in columns.texts {
        out.push(b',')?;
        column.push(out, i, columns.null)?;
    }
    Ok(())
}
