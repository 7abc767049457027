//! What columns and dictionaries show, as text.

ghost use Rattle.std.specs.Prelude.{◌<◌, length};

use arrow_data::{Array, Dictionary, SlotValue};
use std::process::Abort;

const MEMORY: &str = "memory";

/// Asserts that the text that a row shows is this.
pub(super) fn is_text(rt: &impl Abort, name: &str, got: &str, expected: &str) {
    assert_eq!(rt; got, expected, "{name}");
}

/// Asserts that a column shows this, or is none: `4: 'a', null, 1=null, 0..2 [7 8]` are four slots,
/// one of which is null and one of which has an index of a null; `{3}` is a struct by its index in
/// the fields. After them come the children or the dictionary.
pub(super) fn shows(
    rt: &(impl Abort + AllocGlobal),
    name: &str,
    column: &Option<Array>,
    expected: &str,
) {
    match column {
        Some(column) => all_show(rt, name, column, expected),
        None => is_text(rt, name, "no column", expected),
    }
}

/// Asserts that it shows this by `slot`, and that the slots alone show the same by the calls for
/// each type and by `slots`.
fn all_show(rt: &(impl Abort + AllocGlobal), name: &str, column: &Array, expected: &str) {
    let mut text = by_slot(rt, column);
    is_text(rt, name, &by_type(rt, column), &text);
    is_text(rt, name, &together(rt, column), &text);
    push_below(rt, &mut text, column);
    is_text(rt, name, &text, expected);
}

/// Appends what the children show, or how many values the dictionary has.
fn push_below(rt: &(impl Abort + AllocGlobal), text: &mut String, column: &Array) {
    if let Some(items) = column.items() {
        write!(text, " | items {}", by_slot(rt, items)).expect(rt, MEMORY);
    }
    if let Some(fields) = column.fields() {
        write!(text, " | {} fields", fields.len()).expect(rt, MEMORY);
    }
    for k in 0..2 {
        if let Some(values) = column.field(k) {
            write!(text, " | field {k} {}", by_slot(rt, values)).expect(rt, MEMORY);
        }
    }
    if let (Some(encoding), Some(dictionary)) = (column.encoding(), column.dictionary()) {
        let word = if dictionary.data_type().same(column.data_type()) {
            "values"
        } else {
            "others"
        };
        write!(text, " | {} {word} of {}", dictionary.len(), encoding.id).expect(rt, MEMORY);
    }
}

fn begun(rt: &(impl Abort + AllocGlobal), len: usize) -> String {
    format!(in rt.alloc(); "{len}:").expect(rt, MEMORY)
}

fn push_comma(rt: &impl Abort, text: &mut String, place: usize) {
    text.push_str(if place == 0 { " " } else { ", " })
        .expect(rt, MEMORY);
}

/// What the slots show: for a slot with an index, the index too.
fn by_slot(rt: &(impl Abort + AllocGlobal), column: &Array) -> String {
    let mut text = begun(rt, column.len());
    for j in 0..column.len() {
        push_comma(rt, &mut text, j);
        if let (Some(index), true) = (column.int_at(j), column.encoding().is_some()) {
            write!(text, "{index}=").expect(rt, MEMORY);
        }
        push_value(rt, &mut text, column.slot(j));
    }
    text
}

/// The same, for slots whose form was looked up once.
fn together(rt: &(impl Abort + AllocGlobal), column: &Array) -> String {
    let slots = column.slots();
    let mut text = begun(rt, slots.array().len());
    for j in 0..slots.array().len() {
        push_comma(rt, &mut text, j);
        if let Some(index) = slots.entry(j) {
            write!(text, "{index}=").expect(rt, MEMORY);
        }
        push_value(rt, &mut text, slots.slot(j));
    }
    text
}

/// The same, by the calls for each type.
fn by_type(rt: &(impl Abort + AllocGlobal), column: &Array) -> String {
    let mut text = begun(rt, column.len());
    for j in 0..column.len() {
        push_comma(rt, &mut text, j);
        push_value(rt, &mut text, of_type(column, j));
        if let Some((values, place)) = column.resolved(j) {
            text.push_str("=").expect(rt, MEMORY);
            assert!(rt; place < values.len());
            push_value(rt, &mut text, of_type(values, place));
        }
    }
    text
}

/// The value in the slot itself.
fn of_type(column: &Array, j: usize) -> SlotValue<'_>
    requires { j < length column.now.raw }
{
    if column.is_null(j) {
        SlotValue::Null
    } else if let Some(truth) = column.bool_at(j) {
        SlotValue::Bool(truth)
    } else if let Some(number) = column.int_at(j) {
        SlotValue::Int(number)
    } else if let Some(bytes) = column.bytes_at(j) {
        SlotValue::Bytes(bytes)
    } else if let Some(letters) = column.text_at(j) {
        SlotValue::Text(letters)
    } else if let Some((start, end, items)) = column.list_at(j) {
        SlotValue::List(start, end, items)
    } else {
        SlotValue::Struct(column.fields().unwrap_or(&[]), j)
    }
}

fn push_value(rt: &impl Abort, text: &mut String, value: SlotValue<'_>) {
    match value {
        SlotValue::Null => text.push_str("null").expect(rt, MEMORY),
        SlotValue::Bool(truth) => write!(text, "{truth}").expect(rt, MEMORY),
        SlotValue::Int(number) => write!(text, "{number}").expect(rt, MEMORY),
        SlotValue::Bytes(bytes) => write!(text, "{bytes:?}").expect(rt, MEMORY),
        SlotValue::Text(letters) => write!(text, "'{letters}'").expect(rt, MEMORY),
        SlotValue::List(start, end, items) => push_items(rt, text, (start, end), items),
        SlotValue::Struct(_, place) => write!(text, "{{{place}}}").expect(rt, MEMORY),
    }
}

/// Appends the range of a list's items, and those items that are numbers.
fn push_items(rt: &impl Abort, text: &mut String, span: (usize, usize), items: &Array) {
    write!(text, "{}..{} [", span.0, span.1).expect(rt, MEMORY);
    for k in span.0..span.1.min(items.len()) {
        if k > span.0 {
            text.push_str(" ").expect(rt, MEMORY);
        }
        match items.int_at(k) {
            Some(number) => write!(text, "{number}").expect(rt, MEMORY),
            None => text.push_str("null").expect(rt, MEMORY),
        }
    }
    text.push_str("]").expect(rt, MEMORY);
}

/// Asserts that all values of a dictionary are these: how many there are, and for each its index and
/// the number of values in its segment.
pub(super) fn has_values(rt: &(impl Abort + AllocGlobal), dictionary: &Dictionary, expected: &str) {
    let mut text = begun(rt, dictionary.len());
    if dictionary.is_empty() {
        text.push_str(" none").expect(rt, MEMORY);
    }
    for i in 0..dictionary.len() {
        push_comma(rt, &mut text, i);
        push_entry(rt, &mut text, dictionary, i);
    }
    is_text(rt, "all values", &text, expected);
}

/// Asserts that value `i` of a dictionary is this.
pub(super) fn has_value(
    rt: &(impl Abort + AllocGlobal),
    dictionary: &Dictionary,
    i: usize,
    expected: &str,
) {
    assert!(rt; i < dictionary.len());
    let mut text = String::new(rt.alloc());
    push_entry(rt, &mut text, dictionary, i);
    is_text(rt, "a value", &text, expected);
}

fn push_entry(rt: &impl Abort, text: &mut String, dictionary: &Dictionary, i: usize)
    requires { i < length dictionary.now.values }
{
    let (values, place) = dictionary.value(i);
    write!(text, "{place}/{} ", values.len()).expect(rt, MEMORY);
    assert!(rt; place < values.len());
    push_value(rt, text, values.slot(place));
}

/// Asserts that slots of two columns are equal if the text says so: a word for each slot of the
/// first, with a character for each slot of the other.
pub(super) fn has_same(
    rt: &(impl Abort + AllocGlobal),
    column: &Array,
    other: &Array,
    expected: &str,
) {
    let mut text = String::new(rt.alloc());
    for j in 0..column.len() {
        text.push_str(if j == 0 { "" } else { " " })
            .expect(rt, MEMORY);
        push_same(rt, &mut text, column, j, other);
    }
    is_text(rt, "equal slots", &text, expected);
}

fn push_same(rt: &impl Abort, text: &mut String, column: &Array, j: usize, other: &Array)
    requires { j < length column.now.raw }
{
    for k in 0..other.len() {
        let is_same = column.same_slot(j, other, k);
        text.push_str(if is_same { "=" } else { "-" })
            .expect(rt, MEMORY);
    }
}
