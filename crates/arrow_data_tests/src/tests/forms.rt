//! The forms of types, and the properties of each form.

use arrow_layout::form::{Form, ListForm, NumberForm, OffsetWidth, form_of, int_width, node_form};
use arrow_test_fields::fields_of;
use arrow_types::BitWidth::{self, Eight, Sixteen, SixtyFour, ThirtyTwo};
use arrow_types::{Field, IndexType};
use std::process::Abort;

const SIGNED_32: Form = Form::Numbers(NumberForm::Int {
    bits: ThirtyTwo,
    signed: true,
});

const SIGNED_64: Form = Form::Numbers(NumberForm::Int {
    bits: SixtyFour,
    signed: true,
});

const UNSIGNED_16: Form = Form::Numbers(NumberForm::Int {
    bits: Sixteen,
    signed: false,
});

/// Types, the form of their values, how many buffers that has, and whether no child is below it.
static FORMS: [(&str, Form, usize, bool); 14] = [
    ("decimal[32:9:2]", SIGNED_32, 2, true),
    ("decimal[64:18:0]", SIGNED_64, 2, true),
    (
        "decimal[128:38:-2]",
        Form::Numbers(NumberForm::Int128),
        2,
        true,
    ),
    ("decimal[256:76:76]", Form::FixedBytes(32), 2, true),
    ("int32", SIGNED_32, 2, true),
    ("timestamp[s]", SIGNED_64, 2, true),
    ("halffloat", UNSIGNED_16, 2, true),
    ("interval[year_month]", SIGNED_32, 2, true),
    ("interval[month_day_nano]", Form::FixedBytes(16), 2, true),
    ("large_utf8", Form::Texts(OffsetWidth::Large), 3, true),
    (
        "list decimal[128:38:2]",
        Form::Lists(ListForm::Offsets(OffsetWidth::Small)),
        2,
        false,
    ),
    (
        "large_list utf8",
        Form::Lists(ListForm::Offsets(OffsetWidth::Large)),
        2,
        false,
    ),
    (
        "fixed_size_list[3] utf8",
        Form::Lists(ListForm::Fixed(3)),
        1,
        false,
    ),
    ("struct[1] decimal[256:76:2]", Form::Structs, 1, false),
];

/// Asserts that the values of a field have this form.
fn is_formed(rt: &impl Abort, field: &Field, form: Form, name: &str) {
    assert_eq!(rt; form_of(&field.data_type), form, "{name}");
    assert_eq!(rt;
        node_form(&field.data_type, field.dictionary),
        form,
        "{name}"
    );
}

#[test]
fn types_have_their_forms(rt: HostRuntime) {
    for (words, form, buffers, is_leaf) in &FORMS {
        let fields = fields_of(rt.alloc(), words).expect(&rt, "fields");
        is_formed(&rt, fields.first().expect(&rt, "a field"), *form, words);
        assert!(rt;
            form.buffers() == *buffers && form.is_leaf() == *is_leaf,
            "{words}"
        );
    }
}

/// Encoded fields, the form of their values, and that of their indices.
static ENCODED: [(&str, Form, Form); 3] = [
    (
        "by:0:int32 decimal[256:76:2]",
        Form::FixedBytes(32),
        SIGNED_32,
    ),
    (
        "by:0:uint16 decimal[128:38:2]",
        Form::Numbers(NumberForm::Int128),
        UNSIGNED_16,
    ),
    ("by:0:uint16 decimal[64:18:2]", SIGNED_64, UNSIGNED_16),
];

/// Asserts that the values of a field have the first form, and its indices the second.
fn is_encoded(rt: &impl Abort, field: &Field, forms: (Form, Form), name: &str) {
    assert_eq!(rt; form_of(&field.data_type), forms.0, "{name}");
    assert_eq!(rt;
        node_form(&field.data_type, field.dictionary),
        forms.1,
        "{name}"
    );
}

#[test]
fn indices_have_the_forms_of_numbers(rt: HostRuntime) {
    for (words, values, indices) in &ENCODED {
        let fields = fields_of(rt.alloc(), words).expect(&rt, "fields");
        let field = fields.first().expect(&rt, "a field");
        is_encoded(&rt, field, (*values, *indices), words);
    }
}

/// Widths of numbers in bits, and in bytes.
static WIDTHS: [(BitWidth, usize); 4] = [(Eight, 1), (Sixteen, 2), (ThirtyTwo, 4), (SixtyFour, 8)];

#[test]
fn numbers_have_their_widths(rt: HostRuntime) {
    for &(bits, bytes) in &WIDTHS {
        assert_eq!(rt; int_width(bits), bytes);
        for signed in [false, true] {
            let form = NumberForm::Int { bits, signed };
            assert!(rt;
                form.width() == bytes && form.is_signed() == signed,
                "{form:?}"
            );
            assert_eq!(rt; NumberForm::of_index(IndexType { bits, signed }), form);
        }
    }
    assert!(rt; NumberForm::Int128.width() == 16 && NumberForm::Int128.is_signed());
}
