//! A row that is being written as text.

ghost use Rattle.std.specs.Prelude.{◌≡◌, OnOk, IsUtf8};
ghost use Rattle.json.specs.Json.{number, string};
ghost use Rattle.json.specs.Print.{IsNumber};
ghost use Rattle.arrow_json.specs.Written.{Adds};

use json::Writer;
use std::alloc::AllocError;

/// A row that is being written as text: its tokens so far, and the scratch buffer in which the
/// texts of decimals, of intervals and of bytes are made, one after another.
#[derive(Drop)]
pub(crate) struct Pen {
    pub(crate) writer: Writer,
    pub(crate) room: Vec<u8>,
}

impl Pen {
    /// Writes the contents of the scratch buffer as a number.
    pub(crate) fn number(&mut self) -> Result<(), AllocError>
        requires number { IsNumber self.old.room.items }
        requires text { IsUtf8 self.old.room.items }
        ensures { OnOk result (Adds (λ json. json ≡ number self.old.room.items)
            self.old.writer self.new.writer) }
    {
        let Ok(text) = str::from_utf8(&self.room) else {
            unreachable!()
        };
        self.writer.number(text)
    }

    /// Writes the contents of the scratch buffer as a string.
    pub(crate) fn string(&mut self) -> Result<(), AllocError>
        requires { IsUtf8 self.old.room.items }
        ensures { OnOk result (Adds (λ json. json ≡ string self.old.room.items)
            self.old.writer self.new.writer) }
    {
        let Ok(text) = str::from_utf8(&self.room) else {
            unreachable!()
        };
        self.writer.string(text)
    }
}
