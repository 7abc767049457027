//! Rows of a text as records of comma-separated values.

use crate::reported::column_in;
use std::alloc::{AllocError, Global};

/// Appends the record of the columns' names.
pub(crate) fn push_header(
    alloc: Global,
    text: &mut String,
    lines: &[&str],
) -> Result<(), AllocError> {
    text.push_str("batch")?;
    for line in lines {
        if let Some((0, column)) = column_in(line) {
            let name = column.rsplit_once(": ").map_or("", |parts| parts.0);
            push_field(text, &shown(alloc, name)?)?;
        }
    }
    text.push('\n')
}

/// The name that a line gives with some characters as numbers: `\x` and two digits.
fn shown(alloc: Global, name: &str) -> Result<String, AllocError> {
    let mut text = String::new(alloc);
    for (number, part) in name.split("\\x").enumerate() {
        match (number, part.split_at_checked(2)) {
            (1.., Some((digits, rest))) => {
                let number = u8::from_str_radix(digits, 16).unwrap_or(b'?');
                text.push(number as char)?;
                text.push_str(rest)?;
            }
            _ => text.push_str(part)?,
        }
    }
    Ok(text)
}

/// Appends the record of a row, after the number of its batch.
pub(crate) fn push_record(
    alloc: Global,
    text: &mut String,
    number: usize,
    row: &str,
) -> Result<(), AllocError> {
    write!(text, "{number}")?;
    if let Some(values) = row.strip_prefix("  row ") {
        let mut values_read = Values::new(alloc);
        for ch in values.chars() {
            values_read.take(text, ch)?;
        }
        values_read.push_to(text)?;
    }
    text.push('\n')
}

/// Appends a comma and a field, in quotes if it needs them.
fn push_field(text: &mut String, field: &str) -> Result<(), AllocError> {
    text.push(',')?;
    if !field.contains(|ch| matches!(ch, ',' | '"' | '\n' | '\r')) {
        return text.push_str(field);
    }
    text.push('"')?;
    for ch in field.chars() {
        if ch == '"' {
            text.push('"')?;
        }
        text.push(ch)?;
    }
    text.push('"')
}

/// The state of reading a row.
#[derive(Clone, Copy, PartialEq, Eq)]
enum Mode {
    /// Between texts.
    Plain,
    /// Inside a text's quotes.
    Text,
    /// After a backslash there.
    Escape,
    /// After `\u`: how many digits of the number are still to come, and the number so far.
    Number(u32, u32),
}

/// A row's values, read one character after the other.
#[derive(Drop)]
struct Values {
    mode: Mode,
    /// How many lists and structs are open.
    depth: u32,
    /// What was read of the field, up to the current value.
    field: String,
    value: String,
    is_quoted: bool,
}

impl Values {
    fn new(alloc: Global) -> Values {
        Values {
            mode: Mode::Plain,
            depth: 0,
            field: String::new(alloc),
            value: String::new(alloc),
            is_quoted: false,
        }
    }

    fn take(&mut self, text: &mut String, ch: char) -> Result<(), AllocError> {
        match self.mode {
            Mode::Plain => self.take_plain(text, ch),
            Mode::Text => self.take_in_text(ch),
            Mode::Escape => self.take_escaped(ch),
            Mode::Number(left, number) => self.take_digit(ch, left, number),
        }
    }

    fn take_plain(&mut self, text: &mut String, ch: char) -> Result<(), AllocError> {
        match ch {
            ' ' | 'x' => Ok(()),
            '"' => {
                self.mode = Mode::Text;
                self.is_quoted = true;
                Ok(())
            }
            '[' | '{' => {
                self.depth = self.depth.saturating_add(1);
                self.close_value(Some(ch))
            }
            ']' | '}' => {
                self.depth = self.depth.saturating_sub(1);
                self.close_value(Some(ch))
            }
            ',' if self.depth == 0 => self.push_to(text),
            ',' => self.close_value(Some(';')),
            ':' => self.close_value(Some('=')),
            // what was read is an index, and its value follows, or bits, and their text follows
            '>' | '=' => {
                self.value.clear();
                Ok(())
            }
            _ => self.value.push(ch),
        }
    }

    fn take_in_text(&mut self, ch: char) -> Result<(), AllocError> {
        match ch {
            '"' => self.mode = Mode::Plain,
            '\\' => self.mode = Mode::Escape,
            _ => return self.value.push(ch),
        }
        Ok(())
    }

    fn take_escaped(&mut self, ch: char) -> Result<(), AllocError> {
        self.mode = Mode::Text;
        match ch {
            'n' => self.value.push('\n'),
            'r' => self.value.push('\r'),
            't' => self.value.push('\t'),
            'b' => self.value.push('\u{8}'),
            'f' => self.value.push('\u{c}'),
            'u' => {
                self.mode = Mode::Number(4, 0);
                Ok(())
            }
            _ => self.value.push(ch),
        }
    }

    fn take_digit(&mut self, ch: char, left: u32, number: u32) -> Result<(), AllocError> {
        let digit = ch.to_digit(16).unwrap_or(0);
        let number = number.saturating_mul(16).saturating_add(digit);
        if left > 1 {
            self.mode = Mode::Number(left - 1, number);
            return Ok(());
        }
        self.mode = Mode::Text;
        self.value.push(char::from_u32(number).unwrap_or('?'))
    }

    /// Appends the value to the field, and after it a mark.
    fn close_value(&mut self, mark: Option<char>) -> Result<(), AllocError> {
        self.field.push_str(&self.value)?;
        self.value.clear();
        self.is_quoted = false;
        match mark {
            Some(mark) => self.field.push(mark),
            None => Ok(()),
        }
    }

    /// Appends the field: a null is one without text.
    fn push_to(&mut self, text: &mut String) -> Result<(), AllocError> {
        if self.depth == 0 && !self.is_quoted && self.value.as_str() == "null" {
            self.value.clear();
        }
        self.close_value(None)?;
        push_field(text, &self.field)?;
        self.field.clear();
        Ok(())
    }
}
