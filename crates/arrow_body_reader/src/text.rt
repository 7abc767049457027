//! Whether the texts of a body are UTF-8.

ghost use Rattle.std.specs.Prelude.{◌≤◌, ◌↔◌, IsTrue, length, [], ◌∷◌};
ghost use Rattle.std.specs.List.{AllByRecursion};
ghost use Rattle.arrow_layout.specs.Layout.{HoldsSlots, HoldsTexts};
ghost use Rattle.arrow_layout.specs.ByteRanges.{IsInside};
ghost use Rattle.arrow_layout.specs.declared.form.Form.TheVariants as forms;
ghost use Rattle.arrow_body_reader.specs.Place.{buffers_in};

use crate::held::BufferRanges;
use arrow_layout::StringBuffers;
use arrow_layout::form::OffsetWidth;
use arrow_layout::layout::are_texts;

/// Whether the valid slots of a node of texts are UTF-8.
pub(crate) fn are_texts_in(width: OffsetWidth, len: usize, held: BufferRanges<'_>) -> bool
    requires count { 3 ≤ length held.ranges.now }
    requires inside { AllByRecursion (IsInside held.body.now) held.ranges.now }
    requires laid { HoldsSlots (forms.Texts width) len (buffers_in held) [] }
    ensures { IsTrue result ↔ HoldsTexts (forms.Texts width) len (buffers_in held.entry) }
{
    are_texts(
        len,
        StringBuffers {
            width,
            validity: held.bytes(0),
            offsets: held.bytes(1),
            bytes: held.bytes(2),
        },
    )
}
