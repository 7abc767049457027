//! Tables, texts and vectors appended to bytes, front to back.
//!
//! An appended object begins at the first free position, after zero bytes up to where it is
//! aligned. An offset is written before what it names, so a caller computes the positions first
//! (the functions of `layout`), and nothing that was written is changed. The only error is
//! `AllocError`: an allocation failed, and the bytes are the same as before. A writer with room for
//! all that is appended does not allocate any more.
ghost use Rattle.std.specs.Prelude.{◌≡◌, ◌≤◌, ◌<◌, ◌+◌, ◌*◌, ◌-◌, ◌^◌, ◌++◌, ℕ, List, [], ◌∷◌};
ghost use Rattle.std.specs.Prelude.{length, take, IsErr, OnOk, OnErr};
ghost use Rattle.byteorder.specs.Endian.{little_bytes};
ghost use Rattle.arrow_flatbuf.specs.Layout.{width, gap, zeros, vtable_size, slot_end, slots_end};
ghost use Rattle.arrow_flatbuf.specs.Layout.{entries, slot_bytes, slots_bytes, table_end};
ghost use Rattle.arrow_flatbuf.specs.Layout.{table_bytes};
ghost use Rattle.arrow_flatbuf.specs.Placed.{SlotsFit, SlotFits};
ghost use Rattle.arrow_flatbuf.specs.Nodes.{text_bytes, count_bytes, pairs_head, pair_bytes};

use crate::layout::{FieldValue, Width, entry_of, gap, slot_end, slots_end};
use std::alloc::AllocError;
use std::marker::Model;

/// Bytes that grow at their end. Contracts see it as their list.
#[derive(Drop)]
pub struct TableWriter {
    bytes: Vec<u8>,
}

impl Model for TableWriter {
    ghost use Rattle.std.specs.Prelude.{List, ℕ};

    ghost Value = { List ℕ };

    ghost view = { λ a. a.bytes.items };
}

impl TableWriter {
    /// A writer of no bytes, which writes into the room of a list. The contents of the list are
    /// dropped.
    pub fn in_room(room: Vec<u8>) -> Self
        ensures { result ≡ [] }
    {
        let mut bytes = room;
        bytes.clear();
        TableWriter { bytes }
    }

    /// The first free position: the number of bytes so far.
    pub fn place(&self) -> usize
        ensures { result ≡ length self.now }
    {
        self.bytes.len()
    }

    /// The bytes so far.
    pub fn as_slice(&self) -> &[u8]
        ensures { result.now ≡ self.now }
    {
        self.bytes.as_slice()
    }

    /// The bytes.
    pub fn into_bytes(self) -> Vec<u8>
        ensures { result.items ≡ self }
    {
        let TableWriter { bytes } = self;
        bytes
    }

    /// Appends an offset to content that will be at `target` (FlatBuffers internals, "Offsets"):
    /// the number, in four bytes, of bytes from here to there.
    pub fn offset(&mut self, target: usize) -> Result<(), AllocError>
        requires { length self.old ≤ target }
        ensures ok { OnOk result (self.new ≡ self.old ++ little_bytes 4 (target - length self.old)) }
        ensures err { OnErr result (self.new ≡ self.old) }
    {
        let here = self.place();
        self.number(Width::Four, (target - here) as u64)
    }

    /// Appends a table after its vtable (FlatBuffers internals, "Tables"). Its fields come in the
    /// order of their numbers, each at the first free multiple of its size; the vtable has an entry
    /// for each of them, and the size that it gives for the table is the end of the last of them.
    ///
    /// Condition: each number fits its width, and each offset leads past the end of the table, to a
    /// position that four bytes can represent.
    pub fn table(&mut self, slots: &[FieldValue]) -> Result<(), AllocError>
        requires few { length slots.now ≤ 1000 }
        requires fits { SlotsFit (table_end (length self.old) slots.now) slots.now }
        ensures ok { OnOk result (self.new ≡ self.old ++ table_bytes (length self.old) slots.now) }
        ensures err { OnErr result (self.new ≡ self.old) }
    {
        let before = self.place();
        match self.table_parts(slots) {
            Ok(()) => Ok(()),
            Err(fault) => self.cut_back(before, fault),
        }
    }

    /// Appends a text (FlatBuffers internals, "Strings"): the count of its bytes at a multiple of
    /// 4, its bytes, and a 0 byte.
    pub fn text(&mut self, text: &str) -> Result<(), AllocError>
        ensures ok { OnOk result (self.new ≡ self.old ++ text_bytes (length self.old) text.now) }
        ensures err { OnErr result (self.new ≡ self.old) }
    {
        self.bytes(text.as_bytes())
    }

    /// Appends a string of any bytes, as [`TableWriter::text`] does for those of a text.
    pub fn bytes(&mut self, bytes: &[u8]) -> Result<(), AllocError>
        ensures ok { OnOk result (self.new ≡ self.old ++ text_bytes (length self.old) bytes.now) }
        ensures err { OnErr result (self.new ≡ self.old) }
    {
        let before = self.place();
        match self.string(bytes) {
            Ok(()) => Ok(()),
            Err(fault) => self.cut_back(before, fault),
        }
    }

    /// Appends the count of a vector of offsets, at a multiple of 4. The offsets follow it.
    pub fn count(&mut self, count: usize) -> Result<(), AllocError>
        ensures ok { OnOk result (self.new ≡ self.old ++ count_bytes (length self.old) count) }
        ensures err { OnErr result (self.new ≡ self.old) }
    {
        let before = self.place();
        self.pad(Width::Four)?;
        match self.number(Width::Four, count as u64) {
            Ok(()) => Ok(()),
            Err(fault) => self.cut_back(before, fault),
        }
    }

    /// Appends the count of a vector of pairs of numbers of eight bytes, which follow it at a
    /// multiple of 8.
    #[tactic(auto, using(crate::proofs::Writing::pairs_begun))]
    pub fn count_pairs(&mut self, pairs: usize) -> Result<(), AllocError>
        requires { length self.old < 2 ^ 32 }
        ensures ok { OnOk result (self.new ≡ self.old ++ pairs_head (length self.old) pairs) }
        ensures err { OnErr result (self.new ≡ self.old) }
    {
        let before = self.place();
        self.zeros(gap(Width::Eight, before + 4))?;
        match self.number(Width::Four, pairs as u64) {
            Ok(()) => Ok(()),
            Err(fault) => self.cut_back(before, fault),
        }
    }

    /// Appends a pair of numbers of eight bytes.
    pub fn pair(&mut self, first: u64, second: u64) -> Result<(), AllocError>
        ensures ok { OnOk result (self.new ≡ self.old ++ pair_bytes ((first, second) ∷ [])) }
        ensures err { OnErr result (self.new ≡ self.old) }
    {
        self.append(&pair_of(first, second))
    }

    /// Appends zero bytes up to the next multiple of a width.
    pub fn pad(&mut self, size: Width) -> Result<(), AllocError>
        ensures ok { OnOk result (self.new ≡ self.old ++ zeros (gap (width size) (length self.old))) }
        ensures err { OnErr result (self.new ≡ self.old) }
    {
        let missing = gap(size, self.place());
        self.zeros(missing)
    }

    /// Truncates the bytes to the first `before`, and returns the error.
    fn cut_back(&mut self, before: usize, fault: AllocError) -> Result<(), AllocError>
        ensures bytes { self.new ≡ take before self.old }
        ensures fault { IsErr result }
    {
        self.bytes.truncate(before);
        Err(fault)
    }

    /// Appends a table and its vtable, part by part.
    #[tactic(auto, using(crate::proofs::Writing::table_done, crate::proofs::Heads::slots_short))]
    fn table_parts(&mut self, slots: &[FieldValue]) -> Result<(), AllocError>
        requires few { length slots.now ≤ 1000 }
        requires fits { SlotsFit (table_end (length self.old) slots.now) slots.now }
        ensures ok { OnOk result (self.new ≡ self.old ++ table_bytes (length self.old) slots.now) }
        ensures err { OnErr result (take (length self.old) self.new ≡ self.old) }
    {
        self.pad(Width::Two)?;
        let vtable = self.place();
        self.number(Width::Two, 4 + 2 * slots.len() as u64)?;
        self.number(Width::Two, slots_end(4, slots) as u64)?;
        self.entries(slots)?;
        self.pad(Width::Eight)?;
        let table = self.place();
        self.number(Width::Four, (table - vtable) as u64)?;
        self.fields(table, slots)
    }

    /// Appends a string, part by part.
    #[tactic(auto, using(crate::proofs::Writing::text_done))]
    fn string(&mut self, bytes: &[u8]) -> Result<(), AllocError>
        ensures ok { OnOk result (self.new ≡ self.old ++ text_bytes (length self.old) bytes.now) }
        ensures err { OnErr result (take (length self.old) self.new ≡ self.old) }
    {
        self.pad(Width::Four)?;
        self.number(Width::Four, bytes.len() as u64)?;
        self.append(bytes)?;
        self.append(&[0])
    }

    /// Appends the vtable's entries for the fields.
    #[tactic(auto, using(crate::proofs::Heads::slots_grow))]
    fn entries(&mut self, slots: &[FieldValue]) -> Result<(), AllocError>
        requires { slots_end 4 slots.now < 2 ^ 16 }
        ensures ok { OnOk result (self.new ≡ self.old ++ entries 4 slots.now) }
        ensures err { OnErr result (take (length self.old) self.new ≡ self.old) }
    {
        let mut end = 4;
        for slot in slots {
            self.number(Width::Two, entry_of(end, *slot) as u64)?;
            end = slot_end(end, *slot);
        }
        Ok(())
    }

    /// Appends the fields of a table that begins four bytes before.
    #[tactic(auto, using(crate::proofs::Heads::slots_grow))]
    fn fields(&mut self, table: usize, slots: &[FieldValue]) -> Result<(), AllocError>
        requires place { length self.old ≡ table + 4 }
        requires low { slots_end 4 slots.now < 2 ^ 16 }
        requires fits { SlotsFit (table + slots_end 4 slots.now) slots.now }
        ensures ok { OnOk result (self.new ≡ self.old ++ slots_bytes table 4 slots.now) }
        ensures err { OnErr result (take (length self.old) self.new ≡ self.old) }
    {
        let mut end = 4;
        for slot in slots {
            self.field(table, end, *slot)?;
            end = slot_end(end, *slot);
        }
        Ok(())
    }

    /// Appends a field of the table at `table`, in which `end` is the first free position.
    fn field(&mut self, table: usize, end: usize, slot: FieldValue) -> Result<(), AllocError>
        requires place { length self.old ≡ table + end }
        requires low { end < 2 ^ 16 }
        requires fits { SlotFits (table + slot_end end slot) slot }
        ensures ok { OnOk result (self.new ≡ self.old ++ slot_bytes table end slot) }
        ensures err { OnErr result (take (length self.old) self.new ≡ self.old) }
    {
        match slot {
            FieldValue::Absent => Ok(()),
            FieldValue::Scalar(size, number) => {
                self.zeros(gap(size, end))?;
                self.number(size, number)
            }
            FieldValue::Target(target) => {
                let missing = gap(Width::Four, end);
                self.zeros(missing)?;
                self.number(Width::Four, (target - (table + (end + missing))) as u64)
            }
        }
    }

    /// Appends a number, lowest byte first.
    #[tactic(auto, using(crate::proofs::Writing::number_part))]
    fn number(&mut self, size: Width, number: u64) -> Result<(), AllocError>
        ensures ok { OnOk result (self.new ≡ self.old ++ little_bytes (width size) number) }
        ensures err { OnErr result (self.new ≡ self.old) }
    {
        let bytes = number.to_le_bytes();
        match size {
            Width::One => self.append(&bytes[..1]),
            Width::Two => self.append(&bytes[..2]),
            Width::Four => self.append(&bytes[..4]),
            Width::Eight => self.append(&bytes),
        }
    }

    /// Appends zero bytes.
    #[tactic(auto, using(crate::proofs::Writing::zeros_part))]
    fn zeros(&mut self, count: usize) -> Result<(), AllocError>
        requires { count ≤ 8 }
        ensures ok { OnOk result (self.new ≡ self.old ++ zeros count) }
        ensures err { OnErr result (self.new ≡ self.old) }
    {
        if count == 0 {
            return Ok(());
        }
        self.append(&[0; 8][..count])
    }

    /// Appends bytes.
    fn append(&mut self, bytes: &[u8]) -> Result<(), AllocError>
        ensures ok { OnOk result (self.new ≡ self.old ++ bytes.now) }
        ensures err { OnErr result (self.new ≡ self.old) }
    {
        self.bytes.extend_from_slice(bytes)
    }
}

/// Two numbers of eight bytes, lowest byte first, one after the other.
fn pair_of(first: u64, second: u64) -> [u8; 16]
    ensures { result ≡ pair_bytes ((first, second) ∷ []) }
{
    let a = first.to_le_bytes();
    let b = second.to_le_bytes();
    [
        a[0], a[1], a[2], a[3], a[4], a[5], a[6], a[7], b[0], b[1], b[2], b[3], b[4], b[5], b[6],
        b[7],
    ]
}
