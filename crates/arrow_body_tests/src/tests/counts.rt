//! The number of nodes that fields take, and the number of slots that they have.

use super::bodies::nodes_in;
use arrow_body_reader::{check_row_count, nodes_of};
use arrow_test_fields::fields_of;
use std::process::Abort;

/// A list of numbers and indices: two nodes and one.
const TWO: &str = "list int32 by:0:int32 utf8";

/// The same, and a struct of a struct of booleans: three nodes.
const THREE: &str = "list int32 by:0:int32 utf8 struct[1] struct[1] bool";

/// The nodes of these fields, and two more.
const NODES: &str = "3/0 8/0 3/0 3/0 4/0 5/0 9/0 9/0";

/// Fields, the nodes that are there, and the nodes that they take.
static TAKEN: [(&str, &str, &str); 6] = [
    (THREE, NODES, "3/0 8/0 3/0 3/0 4/0 5/0"),
    ("list int32", NODES, "3/0 8/0"),
    ("by:0:int32 utf8", NODES, "3/0"),
    (THREE, "3/0 8/0 3/0 3/0", "3/0 8/0 3/0 3/0"),
    (THREE, "", ""),
    ("", NODES, ""),
];

#[test]
fn the_nodes_that_fields_take(rt: HostRuntime) {
    for (of, nodes, expected) in &TAKEN {
        let (nodes, expected) = (nodes_in(&rt, nodes), nodes_in(&rt, expected));
        assert_eq!(rt;
            nodes_of(&fields_of(rt.alloc(), of).expect(&rt, "fields"), &nodes),
            expected.as_slice(),
            "{of}"
        );
    }
}

/// Fields, their nodes, a number of rows, and whether the fields have that number.
static LENGTHS: [(&str, &str, usize, bool); 11] = [
    // Only the fields' own nodes count, not those of the fields below.
    (THREE, NODES, 3, true),
    (THREE, NODES, 2, false),
    (THREE, "3/0 8/0 3/0 3/0", 3, true),
    (THREE, "3/0 8/0 3/0", 3, false),
    (TWO, "3/0 8/0 3/0", 3, true),
    (THREE, "3/0 8/0 3/0 4/0 4/0 5/0", 3, false),
    (TWO, "3/0 8/0 3/0 4/0 4/0 5/0", 3, true),
    // A missing node and one with a negative length count as having no slots.
    (THREE, "", 0, true),
    (THREE, "", 1, false),
    (THREE, "-3/0", 0, true),
    ("", "", 7, true),
];

fn has_length(rt: &(impl Abort + AllocGlobal), of: &str, nodes: &str, rows: usize) -> bool {
    check_row_count(
        &fields_of(rt.alloc(), of).expect(rt, "fields"),
        &nodes_in(rt, nodes),
        rows,
    )
}

#[test]
fn columns_of_one_length(rt: HostRuntime) {
    for (of, nodes, rows, expected) in &LENGTHS {
        assert_eq!(rt;
            has_length(&rt, of, nodes, *rows),
            *expected,
            "{nodes} {rows}"
        );
    }
}
