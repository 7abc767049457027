//! The schema of a stream as lines of JSON. Python's `json` reads their content from them.

use super::columns::{MEMORY, field, schema_of};
use arrow_sink::probe::{Failing, Narrow};
use arrow_sink::{Counted, Sink};
use arrow_test_streams::streams::{GROWING, ONE_BATCH};
use arrow_types::{BitWidth, DataType, DecimalWidth, Encoding, Field, IndexType, Limits, TimeUnit};
use arrowflow_input::ToolFault;
use arrowflow_json::{schema_json, schema_json_lines};
use std::alloc::Global;
use std::process::Abort;

/// The column of one batch.
const NUMBER: &str = "{\"name\":\"n\",\"type\":\"int32\",\"format\":\"i\",\"nullable\":true,\
    \"dictionary\":null,\"metadata\":[],\"children\":[]}\n";

/// The column of the growing dictionary.
const LETTERS: &str = "{\"name\":\"k\",\"type\":\"utf8\",\"format\":\"u\",\"nullable\":true,\
    \"dictionary\":{\"id\":0,\"index\":\"int32\",\"ordered\":false},\"metadata\":[],\
    \"children\":[]}\n";

/// The output for the schema of an input, and after it the line of the fault.
fn shown(rt: &impl Abort, alloc: Global, bytes: &[u8], file: Option<&str>) -> String {
    let mut input = bytes;
    let output = Counted::new(Vec::new(alloc));
    let limits = Limits::standard();
    let (output, answer) = schema_json(alloc, &mut input, output, &limits, file);
    let taken = output.into_inner();
    let taken = str::from_utf8(&taken).expect(rt, "the lines are UTF-8");
    let mut text = String::from_str(alloc, taken).expect(rt, "memory");
    if let Err(fault) = answer {
        let line = fault.line(alloc, "in", "out").expect(rt, "memory");
        text.push_str(&line).expect(rt, "memory");
    }
    text
}

#[test]
fn schemas_of_streams(rt: HostRuntime) {
    let alloc = rt.alloc();
    assert_eq!(&rt; shown(&rt, alloc, &ONE_BATCH, None).as_str(), NUMBER);
    assert_eq!(&rt; shown(&rt, alloc, &ONE_BATCH[..152], None).as_str(), NUMBER);
    assert_eq!(&rt; shown(&rt, alloc, &GROWING, None).as_str(), LETTERS);
    let expected =
        "{\"file\":\"a \\\"b\\\".arrows\",\"name\":\"n\",\"type\":\"int32\",\"format\":\"i\",\
        \"nullable\":true,\"dictionary\":null,\"metadata\":[],\"children\":[]}\n";
    let found = shown(&rt, alloc, &ONE_BATCH, Some("a \"b\".arrows"));
    assert_eq!(&rt; found.as_str(), expected);
    let found = shown(&rt, alloc, &ONE_BATCH[..151], None);
    assert_eq!(&rt; found.as_str(), "fault at byte 0: NoSchema");
    let found = shown(&rt, alloc, b"no stream", Some("x"));
    assert_eq!(&rt; found.as_str(), "fault at byte 0: Continuation");
}

#[test]
fn outputs_that_fail(rt: HostRuntime) {
    let alloc = rt.alloc();
    for room in [0, 1, 50, NUMBER.len() - 1] {
        let output = Narrow::new(alloc, 7, room, Failing::ByError);
        let mut input = ONE_BATCH.as_slice();
        let limits = Limits::standard();
        let (output, answer) = schema_json(alloc, &mut input, output, &limits, None);
        assert!(&rt; matches!(answer, Err(ToolFault::Output)));
        assert!(&rt; output.failures() == 1);
        assert_eq!(&rt; output.taken(), &NUMBER.as_bytes()[..room]);
    }
}

/// That the lines of a schema of this field are this text.
fn is_line(rt: &(impl Abort + AllocGlobal), field: Field, expected: &str) {
    let fields = vec![in rt.alloc(); field].expect(rt, MEMORY);
    let schema = schema_of(rt, fields);
    let found = schema_json_lines(rt.alloc(), &schema, None).expect(rt, MEMORY);
    assert_eq!(rt; str::from_utf8(&found).expect(rt, "UTF-8"), expected);
}

#[test]
fn types_with_numbers(rt: HostRuntime) {
    let decimal = DataType::Decimal {
        width: DecimalWidth::ThirtyTwo,
        precision: 5,
        scale: -2,
    };
    let expected = "{\"name\":\"d\",\"type\":\"decimal32(5, -2)\",\"format\":\"d:5,-2,32\",\
        \"nullable\":true,\"dictionary\":null,\"metadata\":[],\"children\":[]}\n";
    is_line(&rt, field(&rt, "d", decimal), expected);
    let expected = "{\"name\":\"b\",\"type\":\"fixed_size_binary[16]\",\"format\":\"w:16\",\
        \"nullable\":true,\"dictionary\":null,\"metadata\":[],\"children\":[]}\n";
    is_line(
        &rt,
        field(&rt, "b", DataType::FixedSizeBinary(16)),
        expected,
    );
    let zone = String::from_str(rt.alloc(), "\u{e9}\\\t").expect(&rt, MEMORY);
    let instants = DataType::Timestamp(TimeUnit::Microsecond, Some(zone));
    let expected = "{\"name\":\"t\",\"type\":\"timestamp[us, \u{e9}\\\\x5c\\\\x09]\",\
        \"format\":\"tsu:\u{e9}\\\\\\t\",\"nullable\":true,\"dictionary\":null,\"metadata\":[],\
        \"children\":[]}\n";
    is_line(&rt, field(&rt, "t", instants), expected);
}

#[test]
fn nested_fields(rt: HostRuntime) {
    let alloc = rt.alloc();
    let mut inner = field(&rt, "item", DataType::Utf8);
    inner.nullable = false;
    let encoding = Encoding {
        id: -3,
        index: IndexType {
            bits: BitWidth::Eight,
            signed: false,
        },
        ordered: true,
    };
    let inner = inner.with_dictionary(encoding);
    let sized = DataType::FixedSizeList(Box::new(alloc, inner).expect(&rt, MEMORY), 2);
    let mut outer = field(&rt, "a\nb", sized);
    for (key, value) in [
        (b"k".as_slice(), b"1".as_slice()),
        (b"k", b"\xff\x00"),
        (b"", b""),
    ] {
        let key = Vec::from_slice(alloc, key).expect(&rt, MEMORY);
        let value = Vec::from_slice(alloc, value).expect(&rt, MEMORY);
        outer.metadata.push((key, value)).expect(&rt, MEMORY);
    }
    let expected = "{\"name\":\"a\\nb\",\"type\":\"fixed_size_list[2]\",\"format\":\"+w:2\",\
        \"nullable\":true,\"dictionary\":null,\"metadata\":[{\"key\":\"k\",\"value\":\"1\"},\
        {\"key\":\"k\",\"value\":{\"hex\":\"ff00\"}},{\"key\":\"\",\"value\":\"\"}],\
        \"children\":[{\"name\":\"item\",\"type\":\"utf8\",\"format\":\"u\",\"nullable\":false,\
        \"dictionary\":{\"id\":-3,\"index\":\"uint8\",\"ordered\":true},\"metadata\":[],\
        \"children\":[]}]}\n";
    is_line(&rt, outer, expected);
}
