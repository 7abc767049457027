//! The buffers that columns return, by their layouts.

use super::making::{column, dictionary, halves, listed, plain};
use super::reported::is_text;
use arrow_data::{Array, Buffers};
use arrow_layout::form::{ListForm, OffsetWidth};
use arrow_layout::{NumberBuffers, StringBuffers};
use std::process::Abort;

const MEMORY: &str = "memory";

/// Columns, and their buffers; for children only their own.
static COLUMNS: [&str; 25] = [
    "null; 4 => nulls",
    "bool; 4; 251 / 249 => truths [251] [249]",
    "int32; 2; / i 1 2 => 4 signed bytes [] [1, 0, 0, 0, 2, 0, 0, 0]",
    "uint16; 2; 1 / 2 1 4 3 => 2 bytes [1] [2, 1, 4, 3]",
    "halffloat; 2; 1 / 2 1 4 3 => 2 bytes [1] [2, 1, 4, 3]",
    "double; 1; / l -2 => 8 bytes [] [254, 255, 255, 255, 255, 255, 255, 255]",
    "timestamp[s]; 1; / l -2 => 8 signed bytes [] [254, 255, 255, 255, 255, 255, 255, 255]",
    "decimal[32:9:2]; 1; / i -2 => 4 signed bytes [] [254, 255, 255, 255]",
    "decimal[64:18:2]; 1; 1 / l 3 => 8 signed bytes [1] [3, 0, 0, 0, 0, 0, 0, 0]",
    "decimal[128:38:2]; 1; / l -2 3 => 16 signed bytes [] \
     [254, 255, 255, 255, 255, 255, 255, 255, 3, 0, 0, 0, 0, 0, 0, 0]",
    "decimal[256:76:2]; 1; 1 / l 1 2 3 4 => strings of 32 [1] \
     [1, 0, 0, 0, 0, 0, 0, 0, 2, 0, 0, 0, 0, 0, 0, 0, \
     3, 0, 0, 0, 0, 0, 0, 0, 4, 0, 0, 0, 0, 0, 0, 0]",
    "utf8; 3; 5 / i 0 1 1 3 / 'abc??' => \
     small texts [5] [0, 0, 0, 0, 1, 0, 0, 0, 1, 0, 0, 0, 3, 0, 0, 0] [97, 98, 99, 63, 63]",
    "large_utf8; 1; / l 0 2 / 'ab' => \
     large texts [] [0, 0, 0, 0, 0, 0, 0, 0, 2, 0, 0, 0, 0, 0, 0, 0] [97, 98]",
    "binary; 1; / i 1 2 / 255 254 => small strings [] [1, 0, 0, 0, 2, 0, 0, 0] [255, 254]",
    "fixed_size_binary[2]; 2; 1 / 1 2 3 4 => strings of 2 [1] [1, 2, 3, 4]",
    "fixed_size_binary[0]; 2; / => strings of 0 [] []",
    "int32; 0; / => 4 signed bytes [] []",
    "utf8; 0; / / => small texts [] [] []",
    "large_binary; 0; / l 0 / => large strings [] [0, 0, 0, 0, 0, 0, 0, 0] []",
    "list int32; 3 2; 5 / i 0 2 2 2 / / i 1 2 => \
     small lists [5] [0, 0, 0, 0, 2, 0, 0, 0, 2, 0, 0, 0, 2, 0, 0, 0], \
     2 of 4 signed bytes [] [1, 0, 0, 0, 2, 0, 0, 0]",
    "large_list int32; 1 1; / l 0 1 / 1 / i 7 => \
     large lists [] [0, 0, 0, 0, 0, 0, 0, 0, 1, 0, 0, 0, 0, 0, 0, 0], \
     1 of 4 signed bytes [1] [7, 0, 0, 0]",
    "list int32; 0 1; / / / i 7 => small lists [] [], 1 of 4 signed bytes [] [7, 0, 0, 0]",
    "fixed_size_list[2] int32; 2 5; 1 / / i 1 2 3 4 5 => \
     lists of 2 [1] [], 5 of 4 signed bytes [] \
     [1, 0, 0, 0, 2, 0, 0, 0, 3, 0, 0, 0, 4, 0, 0, 0, 5, 0, 0, 0]",
    "fixed_size_list[0] bool; 3 0; / / => lists of 0 [] [], 0 of truths [] []",
    "struct[1] int32; 2 2; 1 / 3 / i 5 6 => \
     structs [1], 2 of 4 signed bytes [3] [5, 0, 0, 0, 6, 0, 0, 0]",
];

#[test]
fn buffers_of_columns(rt: HostRuntime) {
    for row in &COLUMNS {
        let (text, expected) = halves(&rt, row);
        are_reported(&rt, &plain(&rt, text), expected);
    }
}

#[test]
fn buffers_of_indices(rt: HostRuntime) {
    let listed = listed(&rt, dictionary(&rt, &["utf8; 3; 5 / i 0 1 1 3 / 'abc'"]));
    let column = column(&rt, "by:0:int8 utf8; 3; 3 / 2 0 9", &listed);
    let expected = "1 signed bytes [3] [2, 0, 9] into 3 values";
    are_reported(&rt, &column.expect(&rt, "a column"), expected);
}

/// Asserts that the buffers of the column are these.
fn are_reported(rt: &(impl Abort + AllocGlobal), column: &Array, expected: &str) {
    let mut text = String::new(rt.alloc());
    push_own(rt, &mut text, column.buffers());
    if let Buffers::Lists { child, .. } = column.buffers() {
        push_child(rt, &mut text, child);
    }
    if let Buffers::Structs { children, .. } = column.buffers() {
        for child in children {
            push_child(rt, &mut text, child);
        }
    }
    is_text(rt, expected, &text, expected);
}

fn push_child(rt: &impl Abort, text: &mut String, child: &Array) {
    write!(text, ", {} of ", child.len()).expect(rt, MEMORY);
    push_own(rt, text, child.buffers());
}

fn push_own(rt: &impl Abort, text: &mut String, buffers: Buffers<'_>) {
    match buffers {
        Buffers::Nulls => text.push_str("nulls").expect(rt, MEMORY),
        Buffers::Bools { validity, values } => {
            write!(text, "truths {validity:?} {values:?}").expect(rt, MEMORY)
        }
        Buffers::Numbers(of) => push_numbers(rt, text, of),
        Buffers::Binaries(of) => push_strings(rt, text, "strings", of),
        Buffers::Texts(of) => push_strings(rt, text, "texts", of),
        Buffers::FixedBytes {
            width,
            validity,
            values,
        } => write!(text, "strings of {width} {validity:?} {values:?}").expect(rt, MEMORY),
        Buffers::Indices(of, dictionary) => {
            push_numbers(rt, text, of);
            write!(text, " into {} values", dictionary.len()).expect(rt, MEMORY);
        }
        Buffers::Lists {
            form: ListForm::Offsets(width),
            validity,
            offsets,
            ..
        } => {
            let word = word_of(width);
            write!(text, "{word} lists {validity:?} {offsets:?}").expect(rt, MEMORY);
        }
        Buffers::Lists {
            form: ListForm::Fixed(size),
            validity,
            offsets,
            ..
        } => write!(text, "lists of {size} {validity:?} {offsets:?}").expect(rt, MEMORY),
        Buffers::Structs { validity, .. } => {
            write!(text, "structs {validity:?}").expect(rt, MEMORY);
        }
    }
}

fn push_numbers(rt: &impl Abort, text: &mut String, of: NumberBuffers<'_>) {
    let NumberBuffers {
        width,
        signed,
        validity,
        values,
    } = of;
    let word = if signed { "signed bytes" } else { "bytes" };
    write!(text, "{width} {word} {validity:?} {values:?}").expect(rt, MEMORY);
}

fn push_strings(rt: &impl Abort, text: &mut String, word: &str, of: StringBuffers<'_>) {
    let StringBuffers {
        width,
        validity,
        offsets,
        bytes,
    } = of;
    let size = word_of(width);
    write!(text, "{size} {word} {validity:?} {offsets:?} {bytes:?}").expect(rt, MEMORY);
}

fn word_of(width: OffsetWidth) -> &'static str {
    match width {
        OffsetWidth::Small => "small",
        OffsetWidth::Large => "large",
    }
}
