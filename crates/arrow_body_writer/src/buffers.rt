//! The buffers of a node, one after another.

ghost use Rattle.std.specs.Prelude.{◌≡◌, ◌≤◌, ◌-◌, ◌++◌, IfOk, OnOk, length, replicate};
ghost use Rattle.std.specs.List.{AllByRecursion};
ghost use Rattle.arrow_body_laws.specs.Stored.{padded, rounded};
ghost use Rattle.arrow_body_writer.specs.Align.{alignment_of};
ghost use Rattle.arrow_body_writer.specs.Counts.{IsCounted, sent_at};
ghost use Rattle.arrow_body_slots.specs.Part.{HasRoom, IsRepresentable, chunk_of, part_bytes};
ghost use Rattle.arrow_body_slots.specs.Slice.{IsSlice, values_in};

use crate::align::Align;
use crate::counts::NodeCounts;
use crate::steps::ChildPath;
use crate::visitor::SlotVisitor;
use arrow_bits::put_zeros;
use arrow_body_slots::{BitRange, BufferKind, ColumnSlice, Writing};
use arrow_data::Array;
use std::alloc::AllocError;

/// A visitor that adds slots to this buffer of a node.
#[derive(Drop)]
struct BufferWriter {
    part: BufferKind,
    writing: Writing,
}

impl SlotVisitor for BufferWriter {
    ghost use Rattle.std.proofs.Common.{refl, subst, sym, ◌∙◌};
    ghost use Rattle.arrow_body_slots.proofs.Adding.{puts_more, puts_none};
    ghost use Rattle.arrow_body_slots.specs.Part.{Puts};

    type Fault = AllocError;

    ghost takes = { λ old new vs. (new.part ≡ old.part) × Puts old.part vs old.writing new.writing };

    ghost has_room = { λ writer v. HasRoom writer.part v };

    ghost nothing = { λ v. (refl, puts_none v.part v.writing) };

    ghost more = { λ a b c vs ws one other. (
      other.0 ∙ one.0,
      puts_more a.part a.writing b.writing
          c.writing vs ws one.1 (subst (λ p. Puts p ws b.writing c.writing) one.0 other.1),
    ) };

    ghost keeps = { λ a b vs v taken room. subst (λ p. HasRoom p v) (sym taken.0) room };

    fn take_slots(&mut self, slice: ColumnSlice<'_>) -> Result<(), AllocError> {
        self.writing.put_slots(self.part, slice)
    }

    fn take_null(&mut self) -> Result<(), AllocError> {
        self.writing.put_null(self.part)
    }

    fn take_masked(&mut self, array: &Array, bits: BitRange<'_>) -> Result<bool, AllocError> {
        self.writing.put_masked(self.part, array, bits)
    }
}

/// Appends the contents of a buffer for the slots.
fn put_slice(out: Vec<u8>, part: BufferKind, slice: ColumnSlice<'_>) -> Result<Vec<u8>, AllocError>
    requires slots { IsSlice slice }
    requires room { AllByRecursion (HasRoom part) (values_in slice) }
    requires represented { IsRepresentable part (values_in slice) }
    ensures { IfOk result (λ written.
        written.items ≡ out.items ++ part_bytes part (values_in slice.entry)) }
{
    let mut writing = Writing::begin(out, part)?;
    writing.put_slots(part, slice)?;
    writing.finish(part)
}

/// Appends the contents of a buffer of the node, for the slots that are sent to it.
fn put_part(out: Vec<u8>, part: BufferKind, node: &NodeCounts) -> Result<Vec<u8>, AllocError>
    requires counted { IsCounted node.now }
    requires room { AllByRecursion (HasRoom part) (sent_at node.now) }
    requires represented { IsRepresentable part (sent_at node.now) }
    ensures { IfOk result (λ written.
        written.items ≡ out.items ++ part_bytes part (sent_at node.now)) }
{
    if let Some(slice) = node.source.own_slots() {
        return put_slice(out, part, slice);
    }
    let mut writer = BufferWriter {
        part,
        writing: Writing::begin(out, part)?,
    };
    node.source.send(&mut writer, &ChildPath::Here)?;
    writer.writing.finish(part)
}

/// Appends zero bytes after a buffer of this length, up to a multiple of the alignment.
fn put_padding(out: &mut Vec<u8>, align: Align, len: usize) -> Result<(), AllocError>
    requires { len ≤ 9223372036854775807 }
    ensures { OnOk result (out.new.items
        ≡ out.old.items ++ replicate (rounded (alignment_of align) len - len) 0) }
{
    let zeros = align.round_up(len as u64) - len as u64;
    put_zeros(out, zeros as usize)
}

/// Appends the bytes of a buffer, padded.
pub(crate) fn put_padded(out: &mut Vec<u8>, align: Align, bytes: &[u8]) -> Result<(), AllocError>
    ensures { OnOk result (out.new.items
        ≡ out.old.items ++ padded (alignment_of align) bytes.now) }
{
    out.extend_from_slice(bytes)?;
    put_padding(out, align, bytes.len())
}

/// Appends a buffer of the node, padded, and returns its length without the padding. No validity is
/// sent if no slot is null (Columnar Format, "Validity bitmaps").
pub(crate) fn put_buffer(
    out: Vec<u8>,
    align: Align,
    part: BufferKind,
    node: &NodeCounts,
) -> Result<(Vec<u8>, usize), AllocError>
    requires counted { IsCounted node.now }
    requires room { AllByRecursion (HasRoom part) (sent_at node.now) }
    requires represented { IsRepresentable part (sent_at node.now) }
    ensures { IfOk result (λ written.
        (written.0.items
        ≡ out.items ++ padded (alignment_of align) (chunk_of part (sent_at node.now)))
        × (written.1 ≡ length (chunk_of part (sent_at node.now)))) }
{
    let tally = node.tally;
    if tally.nulls == 0 && matches!(part, BufferKind::Validity) {
        return Ok((out, 0));
    }
    let start = out.len();
    let mut written = put_part(out, part, node)?;
    let len = written.len() - start;
    put_padding(&mut written, align, len)?;
    Ok((written, len))
}
