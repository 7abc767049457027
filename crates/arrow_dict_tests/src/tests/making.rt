//! Columns, and dictionaries of their values, from texts: `[1 2]` are numbers of 8 bits, `[1][2 3]`
//! are such numbers in two segments, and `nulls 7` is that number of nulls.

ghost use Rattle.std.specs.Prelude.{◌≡◌, ◌≤◌, ℕ, IsTrue, List, None, Some};
ghost use Rattle.arrow_types.specs.Field.{none};
ghost use Rattle.arrow_types.specs.View.{type_view};
ghost use Rattle.arrow_data.specs.Column.{ValueList};
ghost use Rattle.arrow_layout.specs.Layout.{IsText, buffer_count};
ghost use Rattle.arrow_data.specs.Listed.{listed};

use arrow_data::{Array, ChildData, Dictionary};
use arrow_dict::{Store, StoreFault};
use arrow_layout::layout::is_laid;
use arrow_layout::{ByteRange, NodeBuffers, SharedBody};
use arrow_types::{BitWidth, DataType, Field};
use bytes::Bytes;
use std::alloc::Global;
use std::process::Abort;

/// Signed numbers of 8 bits.
const INT8: DataType = DataType::Int {
    bits: BitWidth::Eight,
    signed: true,
};

/// A nullable field without a name and an encoding.
fn field(alloc: Global, data_type: DataType) -> Field
    ensures { (result.dictionary ≡ None) × (type_view result.data_type ≡ type_view data_type) }
{
    Field::new(alloc, String::new(alloc), data_type, true)
}

/// Whether the type is one of integers or the null type.
fn is_simple(data_type: &DataType) -> bool
    ensures childless { IsTrue result → (type_view data_type.now).children ≡ none }
    ensures texts { IsTrue result → (len : ℕ) (b : List (List ℕ)) → IsText (type_view data_type.now).tag None len b }
    ensures buffers { IsTrue result → buffer_count (type_view data_type.now).tag None ≤ 2 }
{
    matches!(data_type, DataType::Null | DataType::Int { .. })
}

/// A column of `len` slots without nulls.
fn column(rt: &impl Abort, alloc: Global, data_type: DataType, len: usize, bytes: &[u8]) -> Array {
    let field = field(alloc, data_type);
    let copy = Bytes::copy_from_slice(alloc, bytes).expect(rt, "memory");
    let body = SharedBody::new(alloc, copy).expect(rt, "memory");
    let range = ByteRange {
        start: 0,
        end: bytes.len(),
    };
    let buffers = [ByteRange::EMPTY, range];
    assert!(rt; len <= 2147483647);
    assert!(rt; is_simple(&field.data_type));
    let node = NodeBuffers {
        len,
        body: &body,
        ranges: &buffers,
    };
    assert!(rt; is_laid(&field.data_type, None, node, &[]));
    let below = ChildData {
        children: Vec::new(alloc),
        dictionary: None,
    };
    Array::from_parts(alloc, &field, node, below).expect(rt, "memory")
}

/// The column of a text: numbers between brackets, or nulls, which take no bytes of a body.
pub(super) fn values(rt: &impl Abort, alloc: Global, text: &str) -> Array {
    if let Some(count) = text.strip_prefix("nulls ") {
        let len = count.parse::<usize>().ok().expect(rt, "a count");
        return column(rt, alloc, DataType::Null, len, &[]);
    }
    let mut numbers = Vec::new(alloc);
    for word in text.trim_matches(['[', ']']).split_whitespace() {
        let number = word.parse::<u8>().ok().expect(rt, "a number");
        numbers.push(number).expect(rt, "memory");
    }
    column(rt, alloc, INT8, numbers.len(), &numbers)
}

/// The dictionary of a text, with a second segment if there is one.
pub(super) fn dictionary(rt: &impl Abort, alloc: Global, text: &str) -> Dictionary {
    let (first, second) = text.split_once("][").unwrap_or((text, ""));
    let values = values(rt, alloc, first);
    assert!(rt; values.encoding().is_none());
    assert!(rt; !values.data_type().has_encoding_below());
    let mut dictionary = Dictionary::from_array(alloc, values).expect(rt, "memory");
    if !second.is_empty() {
        append(rt, alloc, &mut dictionary, second);
    }
    dictionary
}

fn append(rt: &impl Abort, alloc: Global, dictionary: &mut Dictionary, text: &str) {
    let values = values(rt, alloc, text);
    assert!(rt; values.encoding().is_none());
    assert!(rt; values.data_type().same(dictionary.data_type()));
    assert!(rt; dictionary.len() <= 1 << 20 && values.len() <= 1 << 20);
    dictionary.append(alloc, values).expect(rt, "memory");
}

/// Whether values may be appended to what the id has.
fn may_append(store: &Store, id: i64, values: &Array) -> bool
    ensures plain { IsTrue result → values.now.encoding ≡ None }
    ensures typed { IsTrue result
        → (d : ValueList) → listed store.now id ≡ Some d → values.now.data_type ≡ d.data_type }
{
    values.encoding().is_none()
        && match store.get(id) {
            Some(dictionary) => *values.data_type() == *dictionary.data_type(),
            None => true,
        }
}

/// The fault when values are appended, if there is one.
pub(super) fn appended(
    rt: &impl Abort,
    alloc: Global,
    store: &mut Store,
    id: i64,
    values: Array,
) -> Option<StoreFault> {
    assert!(rt; may_append(store, id, &values));
    store.append(alloc, id, values).err()
}

/// The number that value `i` is.
pub(super) fn number(dictionary: &Dictionary, i: usize) -> Option<i128> {
    if i >= dictionary.len() {
        return None;
    }
    let (values, place) = dictionary.value(i);
    values.int_at(place)
}
