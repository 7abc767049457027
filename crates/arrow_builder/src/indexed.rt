//! Whether indices have their values.

ghost use Rattle.std.specs.Prelude.{◌≡◌, ◌≤◌, ◌↔◌, IsTrue, length, take};
ghost use Rattle.std.specs.List.{AllByRecursion};
ghost use Rattle.arrow_data.specs.Listed.{values_by};
ghost use Rattle.arrow_builder.specs.Built.{HaveSlots, cut_to};
ghost use Rattle.arrow_builder.specs.Finished.{AreIndexed, IsIndexed};

use crate::node::Node;
use arrow_data::DictionaryMap;
use arrow_layout::NumberBuffers;
use arrow_layout::form::int_width;
use arrow_layout::layout::are_indices;
use arrow_types::Encoding;

/// Whether each index in the first `len` slots, and in what these cover of the columns below, has
/// its value in the dictionary that is listed for its id. Allocates nothing.
#[cycle(indexed)]
pub(crate) fn are_indexed(node: &Node, len: usize, dictionaries: DictionaryMap<'_>) -> bool
    requires { len ≤ length node.now.raw }
    ensures { IsTrue result ↔ AreIndexed dictionaries.entry.entries.now (cut_to len node.now) }
{
    is_indexed(node, len, dictionaries)
        && all_indexed(&node.children, node.shown(len), dictionaries)
}

/// The same for some columns.
#[cycle(indexed)]
fn all_indexed(nodes: &[Node], len: usize, dictionaries: DictionaryMap<'_>) -> bool
    requires { HaveSlots len nodes.now }
    ensures { IsTrue result
        ↔ AllByRecursion (λ b. AreIndexed dictionaries.entry.entries.now (cut_to len b)) nodes.now }
{
    for node in nodes {
        if !are_indexed(node, len, dictionaries) {
            return false;
        }
    }
    true
}

/// The same for only the column itself.
fn is_indexed(node: &Node, len: usize, dictionaries: DictionaryMap<'_>) -> bool
    requires { len ≤ length node.now.raw }
    ensures { IsTrue result
        ↔ IsIndexed dictionaries.entry.entries.now node.now.field.head (take len node.now.raw) }
{
    let Some(encoding) = node.field.dictionary else {
        return true;
    };
    are_indices(
        len,
        NumberBuffers {
            width: int_width(encoding.index.bits),
            signed: encoding.index.signed,
            validity: &node.buffers.validity,
            values: &node.buffers.values,
        },
        count_for(encoding, dictionaries),
    )
}

/// How many values are listed for a field with this encoding.
fn count_for(encoding: Encoding, dictionaries: DictionaryMap<'_>) -> usize
    ensures { result ≡ length (values_by dictionaries.entry.entries.now encoding.id) }
{
    match dictionaries.find(encoding.id) {
        Some(dictionary) => dictionary.len(),
        None => 0,
    }
}
