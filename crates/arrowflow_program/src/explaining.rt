//! The command `explain`: why a stream is rejected, or what it has.

use crate::coloured::{coloured, has_colours};
use crate::ends::open_watched;
use crate::host::Host;
use crate::{REFUSED, named_or_standard, out_of_memory, print_text, report};
use arrow_types::Limits;
use arrowflow_explain::{Explanation, explain};

/// Says why the stream in the file with this name, or on standard input, is rejected, or what it
/// has.
pub(crate) fn explain_file<R: Host>(rt: &R, name: &Option<String>, limits: &Limits) -> u8 {
    let name = match named_or_standard(rt, name.as_ref().map(|name| name.as_str())) {
        Ok(name) => name,
        Err(status) => return status,
    };
    let mut input = match open_watched(rt, "explain", name, false) {
        Ok(input) => input,
        Err(fault) => return report(rt, &fault, name, "-"),
    };
    let answer = explain(rt.alloc(), &mut input, limits);
    input.clear();
    let explanation = match answer {
        Ok(explanation) => explanation,
        Err(fault) => return report(rt, &fault, name, "-"),
    };
    let Ok(text) = explanation.text(rt.alloc()) else {
        return out_of_memory(rt);
    };
    match explanation {
        Explanation::Sound(_) => print_text(rt, &text),
        Explanation::Rejected(_) => print_refusal(rt, &text).max(REFUSED),
    }
}

/// Prints why a stream is rejected, and returns the exit status of the printing.
fn print_refusal<R: Host>(rt: &R, text: &str) -> u8 {
    if !has_colours(rt) {
        return print_text(rt, text);
    }
    match coloured(rt.alloc(), text) {
        Ok(text) => print_text(rt, &text),
        Err(_) => out_of_memory(rt),
    }
}
