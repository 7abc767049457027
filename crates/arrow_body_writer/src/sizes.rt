//! The sizes in bytes of the buffers of a node.

ghost use Rattle.std.specs.Prelude.{◌≡◌, ◌≤◌, ◌↔◌, IsTrue, List};
ghost use Rattle.std.specs.List.{sum_by};
ghost use Rattle.std.specs.Int.{div_ceil};
ghost use Rattle.arrow_layout.specs.PlainValue.{PlainValue};
ghost use Rattle.arrow_body_laws.specs.Raws.{IsSmall, offset_limit};
ghost use Rattle.arrow_body_laws.specs.Stored.{rounded};
ghost use Rattle.arrow_body_writer.specs.Align.{alignment_of};
ghost use Rattle.arrow_body_slots.specs.Tally.{IsTally, sizes_represented};

use crate::align::Align;
use arrow_body_slots::ByteTally;
use arrow_layout::MOST_SLOTS;
use arrow_layout::form::{Form, ListForm};

/// The greatest offset that a node of the form can represent.
fn offset_limit(form: Form) -> u64
    ensures { result ≡ offset_limit form }
{
    match form {
        Form::Bytes(width) | Form::Texts(width) | Form::Lists(ListForm::Offsets(width)) => {
            width.greatest()
        }
        _ => 0,
    }
}

/// Whether the counted slots are no more than a node can have, and their offsets are representable.
pub(crate) fn is_small(form: Form, tally: ByteTally) -> bool
    ensures small { (vs : List PlainValue) → IsTally form vs tally
        → IsTrue result ↔ IsSmall form vs }
    ensures few { IsTrue result → tally.slots ≤ 2147483647 }
    ensures near { IsTrue result → tally.end ≤ 9223372036854775807 }
{
    tally.slots <= MOST_SLOTS as u64 && tally.end <= offset_limit(form)
}

/// The size in bytes of a bitmap of `slots` slots.
fn bitmap_size(slots: u64) -> u64
    requires { slots ≤ 2147483647 }
    ensures same { result ≡ div_ceil slots 8 }
    ensures near { result ≤ slots }
{
    slots / 8 + u64::from(slots % 8 > 0)
}

/// The size in bytes of the buffers of a node of the form, each padded; the node has the counted
/// slots.
pub(crate) fn node_size(align: Align, form: Form, tally: ByteTally) -> u64
    requires few { tally.slots ≤ 2147483647 }
    requires near { tally.end ≤ 9223372036854775807 }
    ensures { result ≡ sum_by (rounded (alignment_of align))
        (sizes_represented form tally.slots tally.nulls tally.end) }
{
    let validity = if tally.nulls == 0 {
        0
    } else {
        align.round_up(bitmap_size(tally.slots))
    };
    match form {
        Form::Nulls => 0,
        Form::Bits => validity + align.round_up(bitmap_size(tally.slots)),
        Form::Numbers(form) => validity + align.round_up(form.width() as u64 * tally.slots),
        Form::Bytes(width) | Form::Texts(width) => {
            let offsets = align.round_up(width.bytes() as u64 * (tally.slots + 1));
            validity + offsets + align.round_up(tally.end)
        }
        Form::FixedBytes(width) => validity + align.round_up(u64::from(width) * tally.slots),
        Form::Lists(ListForm::Offsets(width)) => {
            validity + align.round_up(width.bytes() as u64 * (tally.slots + 1))
        }
        Form::Lists(ListForm::Fixed(_)) | Form::Structs => validity,
    }
}
