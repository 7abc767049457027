//! The fields of a record, with quotes if they need them (RFC 4180).

ghost use Rattle.std.specs.Prelude.{◌≡◌, ◌≤◌, ◌++◌, OnOk, drop, take, length};
ghost use Rattle.csv.specs.Writing.{default_writer, field_text, quoted};
ghost use Rattle.arrow_csv.specs.Layouts.{null_by};

use crate::chunks::{calls_for_quotes, quote_place};
use std::alloc::AllocError;

/// Appends a field between quotes, with each double quote in it written twice.
#[tactic(auto, unfolding(csv::specs::Writing::escaped))]
fn push_quoted(out: &mut Vec<u8>, field: &[u8]) -> Result<(), AllocError>
    ensures { OnOk result (out.new.items ≡ out.old.items ++ quoted default_writer field.now) }
{
    out.push(b'"')?;
    let mut from = 0;
    while from < field.len() {
        let end = quote_place(field, from);
        out.extend_from_slice(&field[from..end])?;
        from = end;
        if end < field.len() {
            out.extend_from_slice(b"\"\"")?;
            from = end + 1;
        }
    }
    out.push(b'"')?;
    Ok(())
}

/// Appends a field, between quotes if it needs them.
pub(crate) fn push_field_text(out: &mut Vec<u8>, field: &[u8]) -> Result<(), AllocError>
    ensures { OnOk result (out.new.items ≡ out.old.items ++ field_text default_writer field.now) }
{
    if calls_for_quotes(field) {
        push_quoted(out, field)
    } else {
        out.extend_from_slice(field)
    }
}

/// Appends the field of a null with the given text: nothing, if none is given.
#[inline(always)]
pub(crate) fn push_null(out: &mut Vec<u8>, null: Option<&str>) -> Result<(), AllocError>
    ensures { OnOk result (out.new.items
        ≡ out.old.items ++ field_text default_writer (null_by null.entry)) }
{
    match null {
        None => Ok(()),
        Some(text) => push_field_text(out, text.as_bytes()),
    }
}

/// Puts quotes around the field that begins at index `place` and ends with the text, if it needs
/// them.
pub(crate) fn quote_from(out: &mut Vec<u8>, place: usize) -> Result<(), AllocError>
    requires { place ≤ length out.old.items }
    ensures { OnOk result (out.new.items
        ≡ take place out.old.items ++ field_text default_writer (drop place out.old.items)) }
{
    if !calls_for_quotes(&out[place..]) {
        return Ok(());
    }
    let field = Vec::from_slice(*out.allocator(), &out[place..])?;
    out.truncate(place);
    push_quoted(out, &field)
}
