//! Values from a text, with a blank between all words: `null true -5 'abc' x0,255 [ 1 2 ] { 1 'a' }`
//! are a null, a truth value, a number, a text, two bytes, a list and a struct.

use arrow_layout::Value;
use std::process::Abort;

const MEMORY: &str = "memory";

/// The one value of a text, in which `#` is this number.
pub(super) fn value(rt: &(impl Abort + AllocGlobal), text: &str, number: usize) -> Value {
    values(rt, text, number).pop().expect(rt, "a value")
}

/// All values of a text.
pub(super) fn values(rt: &(impl Abort + AllocGlobal), text: &str, number: usize) -> Vec<Value> {
    let mut pile = Vec::new(rt.alloc());
    let mut marks = Vec::new(rt.alloc());
    for word in text.split_ascii_whitespace() {
        let value = match word {
            "[" | "{" => {
                marks.push(pile.len()).expect(rt, MEMORY);
                continue;
            }
            "]" => Value::List(taken(rt, &mut pile, marks.pop())),
            "}" => Value::Struct(taken(rt, &mut pile, marks.pop())),
            _ => leaf(rt, word, number),
        };
        pile.push(value).expect(rt, MEMORY);
    }
    pile
}

/// The values of the pile from a mark on, in their order.
fn taken(
    rt: &(impl Abort + AllocGlobal),
    pile: &mut Vec<Value>,
    mark: Option<usize>,
) -> Vec<Value> {
    let mut values = Vec::new(rt.alloc());
    for _ in mark.expect(rt, "a bracket")..pile.len() {
        let value = pile.pop().expect(rt, "a value on the pile");
        values.push(value).expect(rt, MEMORY);
    }
    values.reverse();
    values
}

fn leaf(rt: &(impl Abort + AllocGlobal), word: &str, number: usize) -> Value {
    match word {
        "null" => Value::Null,
        "true" => Value::Bool(true),
        "false" => Value::Bool(false),
        "#" => Value::Int(number as i128),
        _ => string(rt, word, number),
    }
}

fn string(rt: &(impl Abort + AllocGlobal), word: &str, number: usize) -> Value {
    if let Some(rest) = word.strip_prefix('\'') {
        let letters = rest.strip_suffix('\'').expect(rt, "a quote at the end");
        return Value::Text(String::from_str(rt.alloc(), letters).expect(rt, MEMORY));
    }
    match word.strip_prefix('x') {
        Some(words) => Value::Bytes(bytes(rt, words, number)),
        None => Value::Int(word.parse::<i128>().ok().expect(rt, "a number")),
    }
}

fn bytes(rt: &(impl Abort + AllocGlobal), words: &str, number: usize) -> Vec<u8> {
    let mut bytes = Vec::new(rt.alloc());
    for word in words.split(',') {
        if !word.is_empty() {
            let byte = word.parse::<u8>().unwrap_or((number % 256) as u8);
            bytes.push(byte).expect(rt, MEMORY);
        }
    }
    bytes
}
