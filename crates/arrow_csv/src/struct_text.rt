//! A column of structs that is being written as text.

ghost use Rattle.std.specs.Prelude.{◌≡◌, ◌<◌, IfOk, IfSome, OnOk, length};
ghost use Rattle.arrow_types.specs.View.{field_view, fields_view};
ghost use Rattle.arrow_data.specs.Column.{AreOf};
ghost use Rattle.arrow_data.specs.Same.{HaveSlot};
ghost use Rattle.arrow_layout.specs.PlainValue.{value_at};
ghost use Rattle.arrow_csv.specs.Layouts.{null_by};
ghost use Rattle.arrow_csv.specs.Made.{AreHeads, AreHeadedTexts, columns_of, head_of};
ghost use Rattle.arrow_csv.specs.Texts.{Appends, IsFieldOf};

use crate::fields::{push_null, quote_from};
use crate::texts::push_value;
use arrow_data::{Array, Buffers, Slots};
use arrow_layout::slot::is_valid;
use arrow_types::Field;
use std::alloc::{AllocError, Global};
use std::marker::Model;

/// A field of a struct: the text before each of its values, and the values.
#[derive(Drop)]
pub(crate) struct FieldText<'a> {
    /// The name and `=`, after a semicolon if another field comes before.
    head: Vec<u8>,
    slots: Slots<'a>,
}

impl<'a> FieldText<'a> {
    /// The text of field `k` of a struct, whose values are in this array.
    fn new(
        alloc: Global,
        k: usize,
        field: &Field,
        values: &'a Array,
    ) -> Result<FieldText<'a>, AllocError>
        ensures head { IfOk result
            (λ text. text.head.items ≡ head_of k (field_view field.now).head.name) }
        ensures values { IfOk result (λ text. text.slots ≡ values.now) }
    {
        let mut head = Vec::new(alloc);
        if k > 0 {
            head.push(b';')?;
        }
        head.extend_from_slice(field.name.as_bytes())?;
        head.push(b'=')?;
        Ok(FieldText {
            head,
            slots: values.slots(),
        })
    }
}

/// The texts of all fields of a struct.
fn field_texts<'a>(
    alloc: Global,
    fields: &[Field],
    children: &'a [Array],
) -> Result<Vec<FieldText<'a>>, AllocError>
    requires { AreOf (fields_view fields.now) children.now }
    ensures heads { IfOk result (λ texts. AreHeads 0 (fields_view fields.now) texts.items) }
    ensures columns { IfOk result (λ texts. columns_of texts.items ≡ children.now) }
{
    let mut texts = Vec::with_capacity(alloc, children.len())?;
    for k in 0..children.len() {
        texts.push(FieldText::new(alloc, k, &fields[k], &children[k])?)?;
    }
    Ok(texts)
}

/// A column of structs whose slots become fields of records. The text before each value is made
/// once, and where the values lie is looked up once.
#[derive(Drop)]
pub(crate) struct StructText<'a> {
    array: &'a Array,
    validity: &'a [u8],
    fields: Vec<FieldText<'a>>,
}

impl<'a> Model for StructText<'a> {
    ghost use Rattle.arrow_data.specs.Column.{Column, column_code};

    ghost Value = { Column };

    ghost coded = { column_code };

    ghost use Rattle.arrow_csv.specs.Made.{HasFieldTexts};

    ghost view = { λ t. t.array.now };

    ghost invariant = { λ t. HasFieldTexts t.array.now t.validity.now t.fields.items };
}

impl<'a> StructText<'a> {
    /// The text of a column, which it borrows; `None` if its slots do not hold structs.
    pub(crate) fn of(alloc: Global, column: &'a Array) -> Result<Option<StructText<'a>>, AllocError>
        ensures { IfOk result (λ made. IfSome made (λ text. text ≡ column.now)) }
    {
        // Most columns have no fields, and need not look up their buffers.
        if column.fields().is_none() {
            return Ok(None);
        }
        let Buffers::Structs { validity, children } = column.buffers() else {
            return Ok(None);
        };
        let fields = field_texts(alloc, column.data_type().children(), children)?;
        Ok(Some(StructText {
            array: column,
            validity,
            fields,
        }))
    }

    /// Appends the field of slot `i`; if it is a null, the field of this text.
    #[inline(never)]
    pub(crate) fn push(
        &self,
        out: &mut Vec<u8>,
        i: usize,
        null: Option<&str>,
    ) -> Result<(), AllocError>
        requires { i < length self.now.raw }
        ensures { OnOk result (Appends (IsFieldOf (null_by null.entry) self.now.data_type
            (value_at self.now.resolved i)) out.old.items out.new.items) }
    {
        if !is_valid(self.validity, i) {
            return push_null(out, null);
        }
        let place = out.len();
        out.push(b'{')?;
        push_fields(out, &self.fields, i)?;
        out.push(b'}')?;
        quote_from(out, place)
    }
}

/// Appends the texts of the fields' values in slot `i`, each after its head.
#[inline(always)]
fn push_fields(out: &mut Vec<u8>, fields: &[FieldText<'_>], i: usize) -> Result<(), AllocError>
    requires { HaveSlot i (columns_of fields.now) }
    ensures { OnOk result (Appends (AreHeadedTexts fields.now i) out.old.items out.new.items) }
{
    for field in fields {
        out.extend_from_slice(&field.head)?;
        push_value(out, field.slots.array(), i, field.slots.slot(i))?;
    }
    Ok(())
}
