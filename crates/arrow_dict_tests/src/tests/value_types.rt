//! The fields of values that a schema names.

use arrow_dict::ValueFields;
use arrow_test_fields::fields_of;
use arrow_types::{Field, Schema};
use std::process::Abort;

/// A column of texts of id 5, a list of structs of numbers of id -2 and of texts of id 5, lists of id
/// 9, and truths.
const COLUMNS: &str =
    "by:5:uint16:ordered utf8! list struct[2] by:-2:uint16 int8! by:5:uint16 utf8! \
    by:9:uint16 list int8 bool";

/// The fields of these words; the first field has a name.
fn columns(rt: &(impl Abort + AllocGlobal), words: &str) -> Vec<Field> {
    let mut columns = fields_of(rt.alloc(), words).expect(rt, "fields");
    let name = String::from_str(rt.alloc(), "k").expect(rt, "memory");
    columns.first_mut().expect(rt, "a field").name = name;
    columns
}

/// The fields of the values of these columns' dictionaries.
fn value_fields(rt: &(impl Abort + AllocGlobal), words: &str) -> ValueFields {
    let schema = Schema::new(rt.alloc(), columns(rt, words)).expect(rt, "a schema");
    ValueFields::of(rt.alloc(), &schema).expect(rt, "memory")
}

/// Asserts that the values of an id have a field of this type, which has no name and no encoding,
/// and take this number of nodes.
fn is_of(
    rt: &(impl Abort + AllocGlobal),
    fields: &ValueFields,
    (id, nodes): (i64, usize),
    of: &str,
) {
    let found = fields.get(id).expect(rt, "a field of the id");
    let expected = fields_of(rt.alloc(), of).expect(rt, "fields");
    assert_eq!(rt;
        (found.types().len(), found.fields().len()),
        (nodes, 1),
        "of {id}"
    );
    assert!(rt; found.fields().first() == expected.first(), "of {id}");
}

#[test]
fn types_on_every_level(rt: HostRuntime) {
    let fields = value_fields(&rt, COLUMNS);
    is_of(&rt, &fields, (5, 1), "utf8");
    is_of(&rt, &fields, (-2, 1), "int8");
    is_of(&rt, &fields, (9, 2), "list int8");
    for id in [0, 2, -5, i64::MIN, i64::MAX] {
        assert!(rt; fields.get(id).is_none(), "of {id}");
    }
}

#[test]
fn a_schema_without_dictionaries(rt: HostRuntime) {
    assert!(rt; value_fields(&rt, "utf8").get(0).is_none());
}
