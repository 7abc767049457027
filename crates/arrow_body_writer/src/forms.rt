//! The number of nodes of a column.

ghost use Rattle.std.specs.Prelude.{◌≡◌, ◌<◌, ◌↔◌, ℕ, [], ◌∷◌, IsTrue};
ghost use Rattle.std.specs.List.{AllByRecursion};
ghost use Rattle.arrow_types.specs.View.{fields_view, type_view};
ghost use Rattle.arrow_data.specs.Column.{Column};
ghost use Rattle.arrow_layout.specs.Form.{HasFieldsOf, form_of};
ghost use Rattle.arrow_body_reader.specs.Taken.{IfFlattened, taken_nodes};
ghost use Rattle.arrow_body_laws.specs.Formed.{AreFormed};
ghost use Rattle.arrow_body_laws.specs.Laws.{raws_of};
ghost use Rattle.arrow_body_laws.specs.Raws.{AreRaws};
ghost use Rattle.arrow_body_laws.specs.Stored.{fields_of_columns};
ghost use Rattle.arrow_body_writer.specs.Sent.{nodes_of_column, nodes_of_type};
ghost use Rattle.arrow_body_writer.specs.Source.{rest_of};
ghost use Rattle.arrow_body_slots.specs.Tally.{capped};

use arrow_data::{Array, Dictionary};
use arrow_layout::form::{Form, form_of};
use arrow_types::{DataType, Encoding, Field};

/// The number of nodes of the fields, or the greatest number if there are more. Each type has the
/// child fields that it needs.
#[cycle(counted)]
pub(crate) fn count_nodes(fields: &[Field]) -> usize
    ensures count { result ≡ capped (taken_nodes (fields_view fields.now)) }
    ensures formed { AreFormed (fields_view fields.now) }
{
    let mut count: usize = 0;
    for field in fields {
        let below = match field.dictionary {
            Some(_) => 0,
            None => count_below(&field.data_type),
        };
        count = count.saturating_add(below).saturating_add(1);
    }
    count
}

/// The number of nodes below a type: those of the child fields that it needs.
#[cycle(counted)]
pub(crate) fn count_below(data_type: &DataType) -> usize
    ensures count { result ≡ capped (taken_nodes (type_view data_type.now).children) }
    ensures own { HasFieldsOf (form_of (type_view data_type.now).tag)
        (type_view data_type.now).children }
    ensures formed { AreFormed (type_view data_type.now).children }
{
    match form_of(data_type) {
        Form::Lists(_) | Form::Structs => count_nodes(data_type.children()),
        _ => 0,
    }
}

/// The number of nodes of a column of the type and the encoding, or the greatest number if there are
/// more. Each type has the child fields that it needs.
fn count_column(data_type: &DataType, encoding: Option<Encoding>) -> usize
    ensures count { result ≡ capped (nodes_of_type (type_view data_type.now) encoding) }
    ensures formed { IfFlattened encoding (HasFieldsOf (form_of (type_view data_type.now).tag)
        (type_view data_type.now).children × AreFormed (type_view data_type.now).children) }
{
    match encoding {
        Some(_) => 1,
        None => count_below(data_type).saturating_add(1),
    }
}

/// The number of nodes of the array's column, or the greatest number if there are more. Its raw
/// values can be stored.
pub(crate) fn nodes_in(array: &Array) -> usize
    ensures count { result ≡ capped (nodes_of_column array.now) }
    ensures raws { AreRaws (fields_of_columns (array.now ∷ [])) (raws_of (array.now ∷ [])) }
{
    // Calls a function whose contract gives the invariant of every array, so that the proof has it.
    let _slots = array.len();
    count_column(array.data_type(), array.encoding().copied())
}

/// The same for a column of values of the dictionary.
pub(crate) fn nodes_in_rest(dictionary: &Dictionary) -> usize
    ensures count { (from : ℕ) → result ≡ capped (nodes_of_column (rest_of dictionary.now from)) }
    ensures raws { (from : ℕ) → AreRaws (fields_of_columns (rest_of dictionary.now from ∷ []))
        (raws_of (rest_of dictionary.now from ∷ [])) }
{
    count_column(dictionary.data_type(), None)
}

/// The number of nodes of the columns of the arrays, or the greatest number if there are more. Their
/// raw values can be stored.
pub(crate) fn nodes_in_all(arrays: &[Array]) -> usize
    ensures count { result ≡ capped (taken_nodes (fields_of_columns arrays.now)) }
    ensures raws { AreRaws (fields_of_columns arrays.now) (raws_of arrays.now) }
{
    let mut count: usize = 0;
    for array in arrays {
        count = count.saturating_add(nodes_in(array));
    }
    count
}

/// Whether each of the columns has fewer nodes than the greatest number.
pub(crate) fn are_countable(arrays: &[Array]) -> bool
    ensures { IsTrue result
        ↔ AllByRecursion (λ (c : Column). nodes_of_column c < 18446744073709551615) arrays.now }
{
    for array in arrays {
        if nodes_in(array) == usize::MAX {
            return false;
        }
    }
    true
}
