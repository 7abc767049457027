//! Lines that begin with the name of the file that they are about.

use std::io;
use std::io::Write;

/// A writer of lines, each after the file's name and a colon if there is a label.
#[derive(Drop)]
pub(crate) struct Labelled<'a, W: Write + Drop> {
    writer: W,
    label: Option<&'a str>,
    /// Whether the next byte is the first of a line.
    is_at_start: bool,
}

impl<'a, W: Write + Drop> Labelled<'a, W> {
    pub(crate) fn new(writer: W, label: Option<&'a str>) -> Labelled<'a, W> {
        Labelled {
            writer,
            label,
            is_at_start: true,
        }
    }
}

impl<W: Write + Drop> Write for Labelled<'_, W> {
    /// Writes the bytes up to the end of a line, all of them if there is no label.
    fn write(&mut self, bytes: &[u8]) -> io::Result<usize> {
        let Some(label) = self.label else {
            return self.writer.write(bytes);
        };
        if bytes.is_empty() {
            return Ok(0);
        }
        if self.is_at_start {
            self.writer.write_all(label.as_bytes())?;
            self.writer.write_all(b":")?;
            self.is_at_start = false;
        }
        match bytes.iter().position(|byte| *byte == b'\n') {
            Some(place) => {
                self.writer.write_all(&bytes[..=place])?;
                self.is_at_start = true;
                Ok(place + 1)
            }
            None => {
                self.writer.write_all(bytes)?;
                Ok(bytes.len())
            }
        }
    }

    fn flush(&mut self) -> io::Result<()> {
        self.writer.flush()
    }
}
