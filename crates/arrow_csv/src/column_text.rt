//! A column that is being written as text: what is the same for its slots is looked up, or made,
//! once.

ghost use Rattle.std.specs.Prelude.{◌≡◌, ◌<◌, IfOk, IfSome, OnOk, length};
ghost use Rattle.arrow_layout.specs.PlainValue.{value_at};
ghost use Rattle.arrow_csv.specs.Layouts.{null_by};
ghost use Rattle.arrow_data.specs.Shown.{HoldsValue};
ghost use Rattle.arrow_data.specs.declared.array.SlotValue.TheVariants.{Null};
ghost use Rattle.arrow_csv.specs.Made.{AreFieldsOf, IsPreparedBy, IsPreparedFor};
ghost use Rattle.arrow_csv.specs.Texts.{Appends, IsFieldOf, IsSomeField};

use crate::fields::{push_field_text, push_null, quote_from};
use crate::floats::push_int;
use crate::intervals::push_binary;
use crate::list_text::ListText;
use crate::struct_text::StructText;
use crate::texts::{push_items, push_parts};
use arrow_data::{Array, Dictionary, SlotValue, Slots};
use std::alloc::{AllocError, Global};
use std::marker::Model;

/// The most bytes that the fields of a dictionary's values may have if they are made before the
/// rows.
const MOST_BYTES: usize = 65_536;

/// With fewer rows than this, the texts before the values of structs would be used too seldom to be
/// made before.
const FEW_ROWS: usize = 16;

/// The fields of the values of a dictionary, one after another.
#[derive(Drop)]
pub(crate) struct DictionaryTexts {
    bytes: Vec<u8>,
    /// Where each field begins, and where the last one ends.
    places: Vec<usize>,
}

impl DictionaryTexts {
    /// The fields of the values; `None` if they are too long to keep, or a value is a null.
    fn of(alloc: Global, dictionary: &Dictionary) -> Result<Option<DictionaryTexts>, AllocError>
        ensures { IfOk result (λ made. IfSome made (λ fields. AreFieldsOf dictionary.now fields)) }
    {
        // Called for its postcondition, which holds of every dictionary.
        dictionary.data_type();
        let mut bytes = Vec::new(alloc);
        let mut places = Vec::with_capacity(alloc, dictionary.len() + 1)?;
        places.push(0)?;
        for n in 0..dictionary.len() {
            let (values, place) = dictionary.value(n);
            // Called for its postcondition, which holds of every array.
            values.len();
            match values.slot(place) {
                SlotValue::Null => return Ok(None),
                value => push_field(&mut bytes, values, place, value)?,
            }
            if bytes.len() > MOST_BYTES {
                return Ok(None);
            }
            places.push(bytes.len())?;
        }
        Ok(Some(DictionaryTexts { bytes, places }))
    }
}

/// What is looked up or made once for the values of a column, before the rows. It is boxed, so that
/// it takes no place in the columns that need none of it.
#[derive(Drop)]
pub(crate) enum Prepared<'a> {
    /// Nothing: each value is read and written on its own.
    Nothing,
    /// The field of each value of the dictionary, to be copied for each row that refers to it.
    Entries(Box<DictionaryTexts>),
    /// Where the items of the lists lie.
    Items(Box<ListText<'a>>),
    /// The text before each field's value, and where the values lie.
    Parts(Box<StructText<'a>>),
}

impl<'a> Prepared<'a> {
    /// What is looked up or made for this column. Most columns need nothing; what others need is
    /// made apart, so that these take no steps for it.
    #[inline(always)]
    fn of(alloc: Global, column: &'a Array) -> Result<Prepared<'a>, AllocError>
        ensures { IfOk result (λ made. IsPreparedFor column.now made) }
    {
        if column.dictionary().is_none() && column.items().is_none() && column.fields().is_none() {
            return Ok(Prepared::Nothing);
        }
        Prepared::made(alloc, column)
    }

    /// The same for columns that may need something.
    #[inline(never)]
    fn made(alloc: Global, column: &'a Array) -> Result<Prepared<'a>, AllocError>
        ensures { IfOk result (λ made. IsPreparedFor column.now made) }
    {
        if let Some(dictionary) = column.dictionary() {
            return Prepared::of_entries(alloc, dictionary, column.len());
        }
        if let Some(list) = ListText::of(column) {
            return Ok(Prepared::Items(Box::new(alloc, list)?));
        }
        if column.len() < FEW_ROWS {
            return Ok(Prepared::Nothing);
        }
        match StructText::of(alloc, column)? {
            Some(parts) => Ok(Prepared::Parts(Box::new(alloc, parts)?)),
            None => Ok(Prepared::Nothing),
        }
    }

    /// The fields of a dictionary's values, if there are few values compared with this many rows.
    fn of_entries(
        alloc: Global,
        dictionary: &Dictionary,
        rows: usize,
    ) -> Result<Prepared<'a>, AllocError>
        ensures { IfOk result (λ made. IsPreparedBy dictionary.now made) }
    {
        if dictionary.len() > rows / 2 {
            return Ok(Prepared::Nothing);
        }
        match DictionaryTexts::of(alloc, dictionary)? {
            Some(entries) => Ok(Prepared::Entries(Box::new(alloc, entries)?)),
            None => Ok(Prepared::Nothing),
        }
    }
}

/// A column whose slots become fields of records.
#[derive(Drop)]
pub(crate) struct ColumnText<'a> {
    slots: Slots<'a>,
    prepared: Prepared<'a>,
}

impl<'a> Model for ColumnText<'a> {
    ghost use Rattle.arrow_data.specs.Column.{Column, column_code};

    ghost Value = { Column };

    ghost coded = { column_code };

    ghost use Rattle.arrow_csv.specs.Made.{IsPreparedFor};

    ghost view = { λ t. t.slots };

    ghost invariant = { λ t. IsPreparedFor t.slots t.prepared };
}

impl<'a> ColumnText<'a> {
    /// The text of a column, which it borrows.
    pub(crate) fn new(alloc: Global, column: &'a Array) -> Result<ColumnText<'a>, AllocError>
        ensures { IfOk result (λ text. text ≡ column.now) }
    {
        let prepared = Prepared::of(alloc, column)?;
        Ok(ColumnText {
            slots: column.slots(),
            prepared,
        })
    }

    /// Appends the field of slot `i`; if it is a null, the field of this text.
    #[inline(always)]
    pub(crate) fn push(
        &self,
        out: &mut Vec<u8>,
        i: usize,
        null: Option<&str>,
    ) -> Result<(), AllocError>
        requires { i < length self.now.raw }
        ensures { OnOk result (Appends (IsFieldOf (null_by null.entry) self.now.data_type
            (value_at self.now.resolved i)) out.old.items out.new.items) }
    {
        match &self.prepared {
            Prepared::Nothing => match self.slots.slot(i) {
                SlotValue::Null => push_null(out, null),
                value => push_field(out, self.slots.array(), i, value),
            },
            Prepared::Entries(fields) => match self.slots.entry(i) {
                Some(n) => {
                    let field = &fields.bytes[fields.places[n]..fields.places[n + 1]];
                    out.extend_from_slice(field)
                }
                None => push_null(out, null),
            },
            Prepared::Items(lists) => lists.push(out, i, null),
            Prepared::Parts(structs) => structs.push(out, i, null),
        }
    }
}

/// Appends the text of the value in slot `i`, passed as `value`, which is not a null, between
/// quotes if it needs them; no truth value, number or byte string does.
#[inline(always)]
fn push_field(
    out: &mut Vec<u8>,
    column: &Array,
    i: usize,
    value: SlotValue<'_>,
) -> Result<(), AllocError>
    requires inside { i < length column.now.raw }
    requires holds { HoldsValue column.now i value }
    requires some { value ≡ Null → ⊥ }
    ensures { OnOk result (Appends
        (IsSomeField column.now.data_type (value_at column.now.resolved i))
        out.old.items out.new.items) }
{
    match value {
        SlotValue::Null => Ok(()),
        SlotValue::Bool(true) => out.extend_from_slice(b"true"),
        SlotValue::Bool(false) => out.extend_from_slice(b"false"),
        SlotValue::Int(number) => push_int(out, column.data_type(), number),
        SlotValue::Bytes(bytes) => push_binary(out, column.data_type(), bytes),
        SlotValue::Text(text) => push_field_text(out, text.as_bytes()),
        SlotValue::List(start, end, items) => {
            let place = out.len();
            push_items(out, items, start, end)?;
            quote_from(out, place)
        }
        SlotValue::Struct(children, place) => {
            let from = out.len();
            push_parts(out, column.data_type().children(), children, place)?;
            quote_from(out, from)
        }
    }
}
