//! Whether the indices of a body have their values.

ghost use Rattle.std.specs.Prelude.{◌≤◌, ◌↔◌, IsTrue, Some, length};
ghost use Rattle.std.specs.List.{AllByRecursion};
ghost use Rattle.arrow_layout.specs.Layout.{HasFixed, buffer};
ghost use Rattle.arrow_layout.specs.ByteRanges.{IsInside};
ghost use Rattle.arrow_data.specs.Parts.{values_in};
ghost use Rattle.arrow_layout.specs.Slots.{AreIndices, index_width};
ghost use Rattle.arrow_data.specs.Listed.{dictionary_for};
ghost use Rattle.arrow_body_reader.specs.Place.{buffers_in};

use crate::held::BufferRanges;
use arrow_data::DictionaryMap;
use arrow_layout::NumberBuffers;
use arrow_layout::form::int_width;
use arrow_layout::layout::are_indices;
use arrow_types::Encoding;

/// Whether the valid slots of a node with this encoding have their values; without a dictionary
/// there are none.
pub(crate) fn have_values(
    encoding: Encoding,
    len: usize,
    held: BufferRanges<'_>,
    dictionaries: DictionaryMap<'_>,
) -> bool
    requires count { 2 ≤ length held.ranges.now }
    requires inside { AllByRecursion (IsInside held.body.now) held.ranges.now }
    requires laid { HasFixed len (index_width encoding.index)
        (buffer (buffers_in held) 0) (buffer (buffers_in held) 1) }
    ensures { IsTrue result
        ↔ AreIndices len (index_width encoding.index) encoding.index.signed
        (buffer (buffers_in held.entry) 0) (buffer (buffers_in held.entry) 1)
        (length (values_in (dictionary_for dictionaries.entry.entries.now (Some encoding)))) }
{
    let count = match dictionaries.find(encoding.id) {
        Some(dictionary) => dictionary.len(),
        None => 0,
    };
    are_indices(
        len,
        NumberBuffers {
            width: int_width(encoding.index.bits),
            signed: encoding.index.signed,
            validity: held.bytes(0),
            values: held.bytes(1),
        },
        count,
    )
}
