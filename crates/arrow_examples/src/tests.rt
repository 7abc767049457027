//! The callers do what their documentation says.

mod outside;

use crate::reading::{ReadError, longest};
use crate::summing::sum;
use crate::writing::write_numbers;
use outside::{DOUBLES, NUMBERS, WORDS};
use std::process::Abort;

#[test]
fn the_longest_word(rt: HostRuntime) {
    let found = longest(rt.alloc(), &WORDS);
    assert!(rt; matches!(found, Ok(3)));
}

#[test]
fn the_sum_of_a_column(rt: HostRuntime) {
    let found = sum(rt.alloc(), &DOUBLES);
    assert!(rt; matches!(found, Ok(total) if total == -6.25));
}

#[test]
fn a_stream_cut_off(rt: HostRuntime) {
    let found = longest(rt.alloc(), &WORDS[..WORDS.len() - 9]);
    assert!(rt; matches!(found, Err(ReadError::Stream(_))));
}

#[test]
fn numbers_written(rt: HostRuntime) {
    let written = write_numbers(rt.alloc(), &[Some(5), None, Some(-1)]);
    let written = written.expect(&rt, "written");
    assert_eq!(rt; written.as_slice(), NUMBERS.as_slice());
}
