//! Columns chosen by their names.

ghost use Rattle.std.specs.Prelude.{◌≡◌, ◌<◌, ◌++◌, IfOk, IfSome, OnOk, length, map, [], MatchOption, None, Some};
ghost use Rattle.arrow_types.specs.View.{fields_view};
ghost use Rattle.arrow_csv.specs.Named.{column_at, columns_named, lacking, place_named};

use crate::column_text::ColumnText;
use arrow_data::Batch;
use arrow_types::{Field, Schema};
use std::alloc::{AllocError, Global};

/// The index, among these names, of the first one that no column of the schema has; `None` if all
/// have one. Names are compared byte for byte.
pub fn lacking(schema: &Schema, names: &[&str]) -> Option<usize>
    ensures { result ≡ lacking (map (λ name. name.now) names.now) schema.now.fields }
{
    let fields = schema.fields();
    for k in 0..names.len() {
        if place_of(fields, names[k]).is_none() {
            return Some(k);
        }
    }
    None
}

/// The index of the first field of this name.
pub(crate) fn place_of(fields: &[Field], name: &str) -> Option<usize>
    ensures place { result ≡ place_named name.now (fields_view fields.now) }
    ensures inside { IfSome result (λ place. place < length fields.now) }
{
    for place in 0..fields.len() {
        if fields[place].name.as_str() == name {
            return Some(place);
        }
    }
    None
}

/// The texts of the first column of each name; none for a name that no column has.
pub(crate) fn columns_named<'a>(
    alloc: Global,
    batch: &'a Batch,
    names: &[&str],
) -> Result<Vec<ColumnText<'a>>, AllocError>
    ensures { IfOk result (λ columns. columns.items ≡ columns_named
        (map (λ name. name.now) names.now) batch.now.schema.fields batch.now.columns) }
{
    let fields = batch.schema().fields();
    let mut columns = Vec::with_capacity(alloc, names.len())?;
    for name in names {
        push_column(alloc, &mut columns, batch, place_of(fields, name))?;
    }
    Ok(columns)
}

/// Appends the text of the column at an index, if there is one.
fn push_column<'a>(
    alloc: Global,
    columns: &mut Vec<ColumnText<'a>>,
    batch: &'a Batch,
    place: Option<usize>,
) -> Result<(), AllocError>
    ensures { OnOk result (columns.new.items
        ≡ columns.old.items ++ column_at place batch.now.columns) }
{
    let Some(place) = place else {
        return Ok(());
    };
    match batch.columns().get(place) {
        Some(column) => {
            columns.push(ColumnText::new(alloc, column)?)?;
            Ok(())
        }
        None => Ok(()),
    }
}
