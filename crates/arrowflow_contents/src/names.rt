//! Names of fields, as text.

use std::alloc::AllocError;

/// The number of characters of a name that are shown.
const NAME: usize = 30;

/// Appends a name in quotes: its first characters, and a dot for each that cannot be shown.
pub fn push_quoted(text: &mut String, name: &str) -> Result<(), AllocError> {
    text.push_str(" \"")?;
    for (index, ch) in name.chars().enumerate() {
        if index == NAME {
            text.push_str("..")?;
            break;
        }
        text.push(if ch < ' ' || ch == '\u{7f}' { '.' } else { ch })?;
    }
    text.push_str("\"")
}
