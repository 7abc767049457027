//! The offsets of the numbers of a message's metadata. `arrow_flatbuf` gives the number in a field,
//! and not its offset, which a dump marks.

ghost use Rattle.std.specs.Prelude.{◌≡◌, ◌≤◌, ◌<◌, ◌+◌, ◌*◌, ◌^◌, ◌-ℤ◌, pos, drop, length, option_map};
ghost use Rattle.std.specs.Prelude.{IfNone, IfSome, Some};
ghost use Rattle.arrow_flatbuf.specs.Place.{past, number_at, target_at};
ghost use Rattle.arrow_flatbuf.specs.Table.{TableAt, field_place, table_at};
ghost use Rattle.arrow_flatbuf.specs.Vector.{vector_at};
ghost use Rattle.arrow_flatbuf.specs.Vtable.{entry, natural, vtable_at};
ghost use Rattle.arrowflow_diagnosis.specs.Places.{element, element_count, field_number, field_table};

use byteorder::{ByteOrder, LittleEndian};
use std::marker::Model;

/// A table of a message's metadata and where it lies: the metadata's bytes, and the table's offset
/// in them.
#[derive(Drop)]
pub struct Spot<'a> {
    bytes: &'a [u8],
    place: usize,
}

/// Where a vtable lies, and its number of bytes.
#[derive(Clone, Copy)]
struct VtableSpot {
    place: usize,
    size: usize,
}

impl<'a> Model for Spot<'a> {
    ghost use Rattle.arrow_flatbuf.specs.Table.{TableAt};

    ghost Value = { TableAt };

    ghost view = { λ a. record { bytes = a.bytes.now; place = a.place } };
}

impl<'a> Spot<'a> {
    /// The table to which the offset stored at `place` refers.
    #[tactic(auto, unfolding(arrow_flatbuf::specs::Place::past, arrow_flatbuf::specs::Table::table_at))]
    pub(crate) fn at_target(bytes: &'a [u8], place: usize) -> Option<Spot<'a>>
        ensures { result ≡ past table_at bytes.now place }
    {
        let place = target_at(bytes, place)?;
        vtable_of(bytes, place)?;
        Some(Spot { bytes, place })
    }

    /// The offset of a field, if the field is not absent.
    #[tactic(auto, unfolding(arrow_flatbuf::specs::Table::field_place))]
    pub fn field(&self, field: u16) -> Option<usize>
        ensures { result ≡ field_place self.now field }
    {
        let vtable = vtable_of(self.bytes, self.place)?;
        let offset = entry_of(self.bytes, vtable, field)?;
        if offset == 0 {
            None
        } else {
            Some(self.place + offset as usize)
        }
    }

    /// The number of `width` bytes in a field, the default if the field is absent.
    pub(crate) fn number(&self, field: u16, width: usize, default: u64) -> Option<u64>
        requires low { 1 ≤ width }
        requires high { width ≤ 8 }
        ensures { result ≡ field_number width default self.now field }
    {
        match self.field(field) {
            None => Some(default),
            Some(place) => number_at(self.bytes, width, place),
        }
    }

    /// The table that a field refers to.
    pub fn table(&self, field: u16) -> Option<Spot<'a>>
        ensures { result ≡ field_table self.now field }
    {
        Spot::at_target(self.bytes, self.field(field)?)
    }

    /// The table that the element with this index refers to, in the vector of offsets in a field.
    pub(crate) fn element(&self, field: u16, index: u32) -> Option<Spot<'a>>
        ensures { result ≡ element self.now field index }
    {
        let elements = elements_at_target(self.bytes, self.field(field)?)?;
        if index as usize >= elements.count {
            return None;
        }
        Spot::at_target(self.bytes, elements.place + index as usize * 4)
    }

    /// The number of elements of the vector of offsets in a field.
    pub(crate) fn count(&self, field: u16) -> Option<usize>
        ensures { result ≡ element_count self.now field }
    {
        Some(elements_at_target(self.bytes, self.field(field)?)?.count)
    }

    /// The bytes of the string that a field refers to.
    pub fn text(&self, field: u16) -> Option<&'a [u8]> {
        let place = target_at(self.bytes, self.field(field)?)?;
        let count = u32_at(self.bytes, place)? as usize;
        self.bytes.get(place + 4..)?.get(..count)
    }
}

/// Where the elements of a vector lie: the offset of the first, and their number.
#[derive(Clone, Copy)]
struct Elements {
    place: usize,
    count: usize,
}

/// The vector of offsets to which the offset stored at `place` refers.
#[tactic(auto, unfolding(arrow_flatbuf::specs::Place::past, arrow_flatbuf::specs::Vector::vector_at))]
fn elements_at_target(bytes: &[u8], place: usize) -> Option<Elements>
    ensures value { option_map
        (λ e. record { bytes = bytes.now; place = e.place; count = e.count; size = 4 }) result
        ≡ past (vector_at 4) bytes.now place }
    ensures inside { IfSome result (λ e. e.place + e.count * 4 ≤ length bytes.now) }
{
    let place = target_at(bytes, place)?;
    let count = u32_at(bytes, place)? as usize;
    let start = place + 4;
    if bytes.len() - start < count * 4 {
        return None;
    }
    Some(Elements {
        place: start,
        count,
    })
}

/// The number of `width` bytes at an offset.
#[tactic(auto, unfolding(arrow_flatbuf::specs::Place::number_at))]
pub fn number_at(bytes: &[u8], width: usize, place: usize) -> Option<u64>
    requires low { 1 ≤ width }
    requires high { width ≤ 8 }
    ensures value { result ≡ number_at width bytes.now place }
    ensures inside { IfSome result (λ _. place + width ≤ length bytes.now) }
{
    Some(LittleEndian::read_uint(rest_at(bytes, place, width)?, width))
}

/// The number of two bytes at an offset.
#[tactic(auto, unfolding(arrow_flatbuf::specs::Place::number_at))]
fn u16_at(bytes: &[u8], place: usize) -> Option<u16>
    ensures value { result ≡ number_at 2 bytes.now place }
    ensures inside { IfSome result (λ _. place + 2 ≤ length bytes.now) }
{
    Some(LittleEndian::read_u16(rest_at(bytes, place, 2)?))
}

/// The number of four bytes at an offset.
#[tactic(auto, unfolding(arrow_flatbuf::specs::Place::number_at))]
fn u32_at(bytes: &[u8], place: usize) -> Option<u32>
    ensures value { result ≡ number_at 4 bytes.now place }
    ensures inside { IfSome result (λ _. place + 4 ≤ length bytes.now) }
{
    Some(LittleEndian::read_u32(rest_at(bytes, place, 4)?))
}

/// The position to which the offset stored at `place` refers. A stored offset of 0 refers to none.
#[tactic(auto, unfolding(arrow_flatbuf::specs::Place::target_at))]
fn target_at(bytes: &[u8], place: usize) -> Option<usize>
    ensures target { result ≡ target_at bytes.now place }
{
    let offset = u32_at(bytes, place)? as usize;
    if offset == 0 {
        None
    } else {
        Some(place + offset)
    }
}

/// The bytes from an offset on, if there are `count` or more.
fn rest_at(bytes: &[u8], place: usize, count: usize) -> Option<&[u8]>
    ensures rest { IfSome result (λ rest. rest.now ≡ drop place bytes.now) }
    ensures inside { IfSome result (λ _. place + count ≤ length bytes.now) }
    ensures outside { IfNone result (length bytes.now < place + count) }
{
    let rest = bytes.get(place..)?;
    if rest.len() < count { None } else { Some(rest) }
}

/// The vtable of the table at an offset.
#[tactic(auto, unfolding(arrow_flatbuf::specs::Vtable::vtable_at))]
fn vtable_of(bytes: &[u8], place: usize) -> Option<VtableSpot>
    ensures value { option_map (λ v. record { place = v.place; size = v.size }) result
        ≡ vtable_at bytes.now place }
    ensures table { IfSome result (λ _. place + 4 ≤ length bytes.now) }
    ensures inside { IfSome result (λ v. v.place + v.size ≤ length bytes.now) }
{
    let back = u32_at(bytes, place)?.cast_signed();
    let start = place_before(place, back)?;
    let size = u16_at(bytes, start)? as usize;
    if size < 4 || bytes.len() - start < size {
        return None;
    }
    Some(VtableSpot { place: start, size })
}

/// The vtable's entry for a field, if it lies inside the vtable.
#[tactic(auto, unfolding(arrow_flatbuf::specs::Vtable::entry))]
fn entry_of(bytes: &[u8], vtable: VtableSpot, field: u16) -> Option<u16>
    requires { vtable.place + vtable.size ≤ length bytes.now }
    ensures entry { result
        ≡ entry bytes.now (record { place = vtable.place; size = vtable.size }) field }
{
    let at = 4 + 2 * field as usize;
    if at + 2 > vtable.size {
        return None;
    }
    u16_at(bytes, vtable.place + at)
}

/// The offset `distance` bytes before `place`, after it if the distance is negative.
#[tactic(auto, unfolding(arrow_flatbuf::specs::Vtable::natural))]
fn place_before(place: usize, distance: i32) -> Option<usize>
    requires { place < 2 ^ 63 }
    ensures before { result ≡ natural (pos place -ℤ distance) }
{
    place.checked_sub_signed(distance as isize)
}
