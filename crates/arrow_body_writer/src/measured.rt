//! The length of a body, before it is written.

ghost use Rattle.std.specs.Prelude.{◌≡◌, ◌≤◌, ◌<◌, ◌^◌, [], ◌∷◌, IfSome, MatchOption};
ghost use Rattle.std.specs.List.{AllByRecursion, sum_by};
ghost use Rattle.arrow_data.specs.Column.{Column};
ghost use Rattle.arrow_body_laws.specs.Laws.{raws_of};
ghost use Rattle.arrow_body_laws.specs.Raws.{AreRaws, IsSmall};
ghost use Rattle.arrow_body_laws.specs.Size.{own_sizes};
ghost use Rattle.arrow_body_laws.specs.Stored.{fields_of_columns, rounded};
ghost use Rattle.arrow_body_writer.specs.Align.{alignment_of};
ghost use Rattle.arrow_body_writer.specs.Sent.{form_of_column, nodes_of_column, visible_children};
ghost use Rattle.arrow_body_writer.specs.Source.{IsSource, column_in, rest_of};
ghost use Rattle.arrow_body_writer.specs.Storable.{AreRepresentable, CanBeStored, columns_size};
ghost use Rattle.arrow_body_slots.specs.Tally.{capped};

use crate::align::Align;
use crate::counts::count_sent;
use crate::forms::{nodes_in, nodes_in_rest};
use crate::sizes::{is_small, node_size};
use crate::source::ColumnSource;
use arrow_data::{Array, Dictionary};

/// The size in bytes of the buffers of the column's own node, each padded; None if the node is not
/// representable.
fn own_size(align: Align, source: &ColumnSource) -> Option<u64>
    requires { IsSource source.now }
    ensures { MatchOption result
        (IsSmall (form_of_column (column_in source.now)) (column_in source.now).raw → ⊥)
        (λ size. IsSmall (form_of_column (column_in source.now)) (column_in source.now).raw
        × (size ≡ sum_by (rounded (alignment_of align))
        (own_sizes (form_of_column (column_in source.now)) (column_in source.now).raw))) }
{
    let form = source.form();
    let tally = count_sent(form, source);
    if is_small(form, tally) {
        Some(node_size(align, form, tally))
    } else {
        None
    }
}

/// The size in bytes of the column in a body, or the greatest number if it is greater; None if its
/// nodes, which are not too many, are not representable. It is the size of its own node and of the
/// columns that are sent below it.
#[cycle(size)]
fn column_size(align: Align, source: &ColumnSource) -> Option<u64>
    requires source { IsSource source.now }
    requires counted { nodes_of_column (column_in source.now) < 18446744073709551615 }
    requires raws { AreRaws (fields_of_columns (column_in source.now ∷ [])) (raws_of (column_in source.now ∷ [])) }
    ensures { MatchOption result (AreRepresentable (column_in source.now ∷ []) → ⊥) (λ size.
        AreRepresentable (column_in source.now ∷ [])
        × (size ≡ capped (columns_size (alignment_of align) (column_in source.now ∷ [])))) }
{
    let own = own_size(align, source)?;
    let below = match source.whole_below() {
        Some(children) => whole_size(align, children)?,
        None => size_below(align, source)?,
    };
    Some(own.saturating_add(below))
}

/// The same for the columns of arrays.
#[cycle(size)]
fn whole_size(align: Align, arrays: &[Array]) -> Option<u64>
    requires counted { AllByRecursion (λ (c : Column). nodes_of_column c < 18446744073709551615) arrays.now }
    requires raws { AreRaws (fields_of_columns arrays.now) (raws_of arrays.now) }
    ensures { MatchOption result (AreRepresentable arrays.now → ⊥) (λ size.
        AreRepresentable arrays.now × (size ≡ capped (columns_size (alignment_of align) arrays.now))) }
{
    let mut size: u64 = 0;
    for array in arrays {
        size = size.saturating_add(column_size(align, &ColumnSource::Slots(array))?);
    }
    Some(size)
}

/// The same for the columns that are sent below a column's own node.
#[cycle(size)]
fn size_below(align: Align, source: &ColumnSource) -> Option<u64>
    requires source { IsSource source.now }
    requires counted { nodes_of_column (column_in source.now) < 18446744073709551615 }
    requires raws { AreRaws (fields_of_columns (column_in source.now ∷ [])) (raws_of (column_in source.now ∷ [])) }
    ensures { MatchOption result (AreRepresentable (visible_children (column_in source.now)) → ⊥) (λ size.
        AreRepresentable (visible_children (column_in source.now))
        × (size ≡ capped (columns_size (alignment_of align) (visible_children (column_in source.now))))) }
{
    let mut size: u64 = 0;
    for k in 0..source.width() {
        size = size.saturating_add(column_size(align, &source.below(k))?);
    }
    Some(size)
}

/// The size if a body may have that length, None if it is more than 2^62 bytes.
fn allowed(size: u64) -> Option<u64>
    ensures { MatchOption result (2 ^ 62 < size) (λ len. (len ≡ size) × (len ≤ 2 ^ 62)) }
{
    if size <= 4_611_686_018_427_387_904 {
        Some(size)
    } else {
        None
    }
}

/// The size in bytes of the body of the columns: each buffer padded to the alignment (Columnar
/// Format, "Buffer Alignment and Padding"). None if a node would have more than 2,147,483,647
/// slots, if an offset could not be represented by a number of its width, if the body would have
/// more than 2^62 bytes, or if a column has 2^64 - 1 nodes or more, which do not fit into memory.
/// The raw values of arrays can always be stored. Does not allocate.
pub fn body_size(arrays: &[Array], align: Align) -> Option<u64>
    ensures size { MatchOption result (CanBeStored (alignment_of align) arrays.now → ⊥) (λ size.
        CanBeStored (alignment_of align) arrays.now
        × (size ≡ columns_size (alignment_of align) arrays.now)) }
    ensures raws { IfSome result (λ size.
        AreRaws (fields_of_columns arrays.now) (raws_of arrays.now)) }
{
    let mut size: u64 = 0;
    for array in arrays {
        if nodes_in(array) == usize::MAX {
            return None;
        }
        let column = column_size(align, &ColumnSource::Slots(array))?;
        size = size.saturating_add(column);
    }
    allowed(size)
}

/// The size in bytes of the body of one column without an encoding whose slots hold the values of
/// the dictionary from value `from` on (`Message.fbs`, table `DictionaryBatch`): each buffer padded
/// to the alignment. From an index after the last value on there are none. None if `body_size`
/// would be None: if a node would have more than 2,147,483,647 slots, for example because there are
/// more values than an array can have; if an offset could not be represented by a number of its
/// width; if the body would have more than 2^62 bytes; or if the column has 2^64 - 1 nodes or more.
/// Does not allocate.
pub fn rest_size(dictionary: &Dictionary, from: usize, align: Align) -> Option<u64>
    ensures size { MatchOption result
        (CanBeStored (alignment_of align) (rest_of dictionary.now from ∷ []) → ⊥) (λ size.
        CanBeStored (alignment_of align) (rest_of dictionary.now from ∷ [])
        × (size ≡ columns_size (alignment_of align) (rest_of dictionary.now from ∷ []))) }
    ensures raws { IfSome result (λ size.
        AreRaws (fields_of_columns (rest_of dictionary.now from ∷ []))
        (raws_of (rest_of dictionary.now from ∷ []))) }
{
    if nodes_in_rest(dictionary) == usize::MAX {
        return None;
    }
    let size = column_size(align, &ColumnSource::Rest(dictionary, from))?;
    allowed(size)
}
