//! The positions at which the parts of a FlatBuffer are laid out, front to back, without
//! allocating.
//!
//! All positions count in bytes from the first byte of the buffer, those of a table's fields from
//! the table's position. Each function takes the first free position and returns the first free
//! position after the object in its name, or the position of that object (FlatBuffers internals,
//! "Tables", "Strings", "Vectors"): a vtable is at an even position, a table at a multiple of 8, a
//! field at a multiple of its own size, a text at a multiple of 4. No function returns an error,
//! since positions are far below the greatest number.
ghost use Rattle.std.specs.Prelude.{◌≡◌, ◌≤◌, ◌<◌, ◌+◌, ◌^◌, length};
ghost use Rattle.arrow_flatbuf.specs.Layout.{width, gap, up, table_place};
ghost use Rattle.arrow_flatbuf.specs.Layout.{slot_end, slots_end, entry_of, table_end};

/// The number of bytes of a number.
#[derive(Clone, Copy, Debug, Drop)]
pub enum Width {
    One,
    Two,
    Four,
    Eight,
}

/// A field of a table that is written.
#[derive(Clone, Copy, Debug, Drop)]
pub enum FieldValue {
    /// The vtable has the entry 0 for it.
    Absent,
    /// A number. A signed one comes as its bits.
    Scalar(Width, u64),
    /// An offset to the content at a position.
    Target(usize),
}

/// The first multiple of a width that is not below a position.
pub fn aligned(place: usize, size: Width) -> usize
    requires { place < 2 ^ 32 }
    ensures value { result ≡ up (width size) place }
    ensures near { result < place + 8 }
{
    place + gap(size, place)
}

/// The position of a table of `count` fields that is laid out from `place` on. Its vtable, which
/// has an entry for each of them, comes before it.
pub fn table_place(place: usize, count: usize) -> usize
    requires place { place < 2 ^ 31 }
    requires few { count ≤ 1000 }
    ensures value { result ≡ table_place place count }
    ensures near { result < place + 4096 }
{
    aligned(aligned(place, Width::Two) + 4 + 2 * count, Width::Eight)
}

/// The first position after a table of these fields that is laid out from `place` on. What its
/// offsets name is not counted.
#[tactic(auto, using(crate::proofs::Heads::slots_short))]
pub fn table_end(place: usize, slots: &[FieldValue]) -> usize
    requires place { place < 2 ^ 31 }
    requires few { length slots.now ≤ 1000 }
    ensures { result ≡ table_end place slots.now }
{
    table_place(place, slots.len()) + slots_end(4, slots)
}

/// The first position after a string of these bytes that is laid out from `place` on: after the 0
/// byte that follows its bytes.
pub fn bytes_end(place: usize, bytes: &[u8]) -> usize
    requires { place < 2 ^ 32 }
    ensures { result ≡ up 4 place + 4 + length bytes.now + 1 }
{
    aligned(place, Width::Four) + 4 + bytes.len() + 1
}

/// The first position after a text that is laid out from `place` on: after the 0 byte that follows
/// its bytes.
pub fn text_end(place: usize, text: &str) -> usize
    requires { place < 2 ^ 32 }
    ensures { result ≡ up 4 place + 4 + length text.now + 1 }
{
    aligned(place, Width::Four) + 4 + text.len() + 1
}

/// The number of bytes of a number.
pub(crate) fn byte_count(size: Width) -> usize
    ensures value { result ≡ width size }
    ensures low { 1 ≤ result }
    ensures high { result ≤ 8 }
{
    match size {
        Width::One => 1,
        Width::Two => 2,
        Width::Four => 4,
        Width::Eight => 8,
    }
}

/// The number of bytes from a position to the next multiple of a width. Each width is a constant
/// divisor, for which a processor uses a mask.
#[tactic(auto, unfolding(crate::specs::Layout::gap))]
pub(crate) fn gap(size: Width, place: usize) -> usize
    ensures value { result ≡ gap (width size) place }
    ensures small { result < width size }
{
    match size {
        Width::One => 0,
        Width::Two => (2 - place % 2) % 2,
        Width::Four => (4 - place % 4) % 4,
        Width::Eight => (8 - place % 8) % 8,
    }
}

/// The end of a table's fields, the first of which is laid out from `place` on.
#[tactic(auto, using(crate::proofs::Heads::slots_grow, crate::proofs::Writing::slots_step))]
pub(crate) fn slots_end(place: usize, slots: &[FieldValue]) -> usize
    requires { slots_end place slots.now < 2 ^ 16 }
    ensures { result ≡ slots_end place slots.now }
{
    let mut end = place;
    for slot in slots {
        end = slot_end(end, *slot);
    }
    end
}

/// The end of a field.
pub(crate) fn slot_end(place: usize, slot: FieldValue) -> usize
    requires { place < 2 ^ 32 }
    ensures { result ≡ slot_end place slot }
{
    match slot {
        FieldValue::Absent => place,
        FieldValue::Scalar(size, _) => place + gap(size, place) + byte_count(size),
        FieldValue::Target(_) => place + gap(Width::Four, place) + 4,
    }
}

/// The vtable's entry for a field: its position, or 0 if it is absent.
pub(crate) fn entry_of(place: usize, slot: FieldValue) -> usize
    requires { place < 2 ^ 32 }
    ensures { result ≡ entry_of place slot }
{
    match slot {
        FieldValue::Absent => 0,
        FieldValue::Scalar(size, _) => place + gap(size, place),
        FieldValue::Target(_) => place + gap(Width::Four, place),
    }
}
