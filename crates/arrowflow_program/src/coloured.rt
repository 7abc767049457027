//! Explanations with colours, for a terminal.

use crate::host::Host;
use std::alloc::{AllocError, Global};
use std::env;
use std::env::VarError;

/// The escape sequence that makes a terminal print in bold.
const BOLD: &str = "\u{1b}[1m";

/// The one that makes it print in red.
const RED: &str = "\u{1b}[31m";

/// The one that makes it print as before.
const PLAIN: &str = "\u{1b}[0m";

/// Whether output is to have colours: on a terminal, unless the environment has a variable
/// `NO_COLOR` with a value.
pub(crate) fn has_colours<R: Host>(rt: &R) -> bool {
    if !rt.prints_on_terminal() {
        return false;
    }
    match env::var(rt, "NO_COLOR") {
        Ok(value) => value.is_empty(),
        Err(VarError::NotPresent) => true,
        Err(_) => false,
    }
}

/// The explanation of an error with its first line, the fault, in bold, and with the carets under
/// the bytes at fault in red.
pub(crate) fn coloured(alloc: Global, text: &str) -> Result<String, AllocError> {
    let mut result = String::new(alloc);
    for (number, line) in text.lines().enumerate() {
        push_styled(&mut result, style_of(number, line), line)?;
        result.push_str("\n")?;
    }
    Ok(result)
}

/// The style of the line of this number.
fn style_of(number: usize, line: &str) -> &'static str {
    if number == 0 {
        BOLD
    } else if is_carets(line) {
        RED
    } else {
        ""
    }
}

/// Appends a line in this style, as it is if the style is empty.
fn push_styled(text: &mut String, style: &str, line: &str) -> Result<(), AllocError> {
    if style.is_empty() {
        return text.push_str(line);
    }
    text.push_str(style)?;
    text.push_str(line)?;
    text.push_str(PLAIN)
}

/// Whether a line has carets, and otherwise only spaces.
fn is_carets(line: &str) -> bool {
    line.contains('^') && line.bytes().all(|byte| byte == b' ' || byte == b'^')
}
