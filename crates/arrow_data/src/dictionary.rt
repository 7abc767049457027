//! Dictionaries: values of one type that columns refer to by number.

ghost use Rattle.std.specs.Prelude.{◌≡◌, ◌≤◌, ◌<◌, ◌+◌, ◌^◌, ◌++◌, ◌↔◌, length, IfOk, IsTrue, None};
ghost use Rattle.std.specs.Prelude.{false, get_or, map, OnOk, OnErr, []};
ghost use Rattle.std.specs.List.{AllByRecursion};
ghost use Rattle.std.specs.Rc.{rc_value};
ghost use Rattle.arrow_types.specs.Schema.{has_encoding};
ghost use Rattle.arrow_types.specs.View.{type_view};
ghost use Rattle.arrow_data.specs.Column.{HasValue, IsValueList};
ghost use Rattle.arrow_data.specs.Same.{Begins};
ghost use Rattle.arrow_data.specs.Segments.{AreSame, Between, HaveStarts, IsBlock, IsPartWith};
ghost use Rattle.arrow_data.specs.Segments.{block_segments, block_starts, columns_of, joined};
ghost use Rattle.arrow_data.specs.Segments.{starts_of};

use crate::array::{Array, Block, Dictionary, Segment};
use crate::same::{Items, same_items};
use arrow_types::DataType;
use std::alloc::{AllocError, Global};
use std::rc::Rc;

/// How many segments a block has.
const BLOCK: usize = 64;

#[tactic(auto, using(crate::proofs::Segments::segments))]
impl Dictionary {
    /// The dictionary without values, for values of this type, which has no encoding on any level.
    pub(crate) fn empty(alloc: Global, data_type: DataType) -> Dictionary
        requires { has_encoding (type_view data_type).children ≡ false }
        ensures { result ≡ record { data_type = type_view data_type; values = [] } }
    {
        Dictionary {
            data_type,
            older: Vec::new(alloc),
            segments: Vec::new(alloc),
            len: 0,
        }
    }

    /// The dictionary of the values of an array, which has no encoding on any level. No value is
    /// copied.
    pub fn from_array(alloc: Global, values: Array) -> Result<Dictionary, AllocError>
        requires plain { values.encoding ≡ None }
        requires flat { has_encoding values.data_type.children ≡ false }
        ensures { IfOk result
            (λ d. d ≡ record { data_type = values.data_type; values = values.raw }) }
    {
        let len = values.len();
        let data_type = values.data_type().copy(alloc)?;
        let mut segments = Vec::with_capacity(alloc, 1)?;
        segments.push(Segment {
            start: 0,
            array: Rc::new(alloc, values)?,
        })?;
        Ok(Dictionary {
            data_type,
            older: Vec::new(alloc),
            segments,
            len,
        })
    }

    /// The type of the values.
    pub fn data_type(&self) -> &DataType
        ensures same { type_view result.now ≡ self.now.data_type }
        ensures known { IsValueList self.now }
    {
        &self.data_type
    }

    /// How many values there are: at most 2^62.
    pub fn len(&self) -> usize
        ensures { result ≡ length self.now.values }
    {
        self.len
    }

    /// Whether there are no values.
    pub fn is_empty(&self) -> bool
        ensures { IsTrue result ↔ (self.now.values ≡ []) }
    {
        self.len == 0
    }

    /// The array and the index in it that hold value `i`; later values follow in the same array, up
    /// to its end. The array is found by binary search.
    pub fn value(&self, i: usize) -> (&Array, usize)
        requires { i < length self.now.values }
        ensures { HasValue self.now i result.0.now result.1 }
    {
        let segments = part_with(&self.older, &self.segments, i);
        let segment = &segments[segment_before(segments, i)];
        (&segment.array, i - segment.start)
    }

    /// Appends the values of the array to those that are there. No value is copied. If an
    /// allocation fails, nothing changes.
    pub fn append(&mut self, alloc: Global, values: Array) -> Result<(), AllocError>
        requires typed { values.data_type ≡ self.now.data_type }
        requires plain { values.encoding ≡ None }
        requires few { length self.now.values + length values.raw ≤ 2 ^ 62 }
        ensures ok { OnOk result
            (self.new ≡ record self.old { values = self.old.values ++ values.raw }) }
        ensures err { OnErr result (self.new ≡ self.old) }
    {
        let len = self.len + values.len();
        let segment = Segment {
            start: self.len,
            array: Rc::new(alloc, values)?,
        };
        close_full(alloc, &mut self.older, &mut self.segments)?;
        self.segments.push(segment)?;
        self.len = len;
        Ok(())
    }

    /// Whether the values of this dictionary are the first ones of another. The segments of both
    /// are walked in parallel: one search for each run of values that lies in one segment of both.
    /// Nothing is allocated.
    pub fn begins(&self, other: &Dictionary) -> bool
        ensures { IsTrue result ↔ Begins self.now.values other.now.values }
    {
        if other.len() < self.len() {
            return false;
        }
        let mut i = 0;
        while i < self.len() {
            let (values, place) = self.value(i);
            let (others, from) = other.value(i);
            let count = (values.len() - place).min(others.len() - from);
            let run = Items {
                array: values,
                start: place,
                end: place + count,
            };
            let other_run = Items {
                array: others,
                start: from,
                end: from + count,
            };
            if !same_items(run, other_run) {
                return false;
            }
            i += count;
        }
        true
    }

    /// An equal dictionary of the same type, which shares the values, or `AllocError` if an
    /// allocation failed.
    pub fn copy(&self, alloc: Global) -> Result<Dictionary, AllocError>
        ensures { IfOk result (λ d. d ≡ self.now) }
    {
        Ok(Dictionary {
            data_type: self.data_type.copy(alloc)?,
            older: shared_blocks(alloc, &self.older)?,
            segments: shared(alloc, &self.segments)?,
            len: self.len,
        })
    }
}

/// Dictionaries are equal if their values are, one by one, whatever their types and segments.
/// Nothing is allocated.
impl PartialEq for Dictionary {
    ghost use Rattle.arrow_data.specs.Same.{same_values, same_values_laws};

    ghost eq = { same_values };

    ghost laws = { same_values_laws };

    fn eq(&self, other: &Dictionary) -> bool
        ensures gives { result ≡ same_values self.now other.now }
        ensures same { IsTrue result ↔ (self.now.values ≡ other.now.values) }
    {
        have_same_values(self, other)
    }
}

/// Whether the values are equal, one by one.
fn have_same_values(one: &Dictionary, other: &Dictionary) -> bool
    ensures { IsTrue result ↔ (one.now.values ≡ other.now.values) }
{
    one.len() == other.len() && one.begins(other)
}

/// The segments of a block, or the last ones, that contain value `i`.
fn part_with<'a>(older: &'a [Rc<Block>], last: &'a [Segment], i: usize) -> &'a [Segment]
    requires inside { i < length (joined (columns_of
        (block_segments (map rc_value older.now) ++ last.now))) }
    requires starts { HaveStarts (block_segments (map rc_value older.now) ++ last.now) }
    requires blocks { AllByRecursion IsBlock (map rc_value older.now) }
    ensures { IsPartWith (map rc_value older.now) last.now i result.now }
{
    if begin_before(last, i) {
        return last;
    }
    let block = &older[block_before(older, i)];
    &block.segments
}

/// Whether there are segments and the first of them begins at or before value `i`.
fn begin_before(segments: &[Segment], i: usize) -> bool
    ensures { IsTrue result ↔ ((0 < length segments.now)
        × (get_or (starts_of segments.now) 0 0 ≤ i)) }
{
    match segments.first() {
        Some(first) => first.start <= i,
        None => false,
    }
}

/// The last segment that begins at or before value `i`.
fn segment_before(segments: &[Segment], i: usize) -> usize
    requires { Between (starts_of segments.now) 0 (length segments.now) i }
    ensures { Between (starts_of segments.now) result (result + 1) i }
{
    let mut low = 0;
    let mut high = segments.len();
    while low + 1 < high {
        let middle = low + (high - low) / 2;
        if segments[middle].start <= i {
            low = middle;
        } else {
            high = middle;
        }
    }
    low
}

/// The last block that begins at or before value `i`.
fn block_before(blocks: &[Rc<Block>], i: usize) -> usize
    requires { Between (block_starts (map rc_value blocks.now)) 0 (length blocks.now) i }
    ensures { Between (block_starts (map rc_value blocks.now)) result (result + 1) i }
{
    let mut low = 0;
    let mut high = blocks.len();
    while low + 1 < high {
        let middle = low + (high - low) / 2;
        if blocks[middle].start <= i {
            low = middle;
        } else {
            high = middle;
        }
    }
    low
}

/// Makes a block of the last segments if there are enough to fill one. If an allocation fails,
/// nothing changes.
fn close_full(
    alloc: Global,
    older: &mut Vec<Rc<Block>>,
    segments: &mut Vec<Segment>,
) -> Result<(), AllocError>
    requires { AllByRecursion IsBlock (map rc_value older.old.items) }
    ensures same { OnOk result (AreSame
        (block_segments (map rc_value older.new.items) ++ segments.new.items)
        (block_segments (map rc_value older.old.items) ++ segments.old.items)) }
    ensures blocks { OnOk result (AllByRecursion IsBlock (map rc_value older.new.items)) }
    ensures err { OnErr result ((older.new.items ≡ older.old.items)
        × (segments.new.items ≡ segments.old.items)) }
{
    if segments.len() < BLOCK {
        Ok(())
    } else {
        close(alloc, older, segments)
    }
}

/// Makes a block of the last segments, after the older ones. If an allocation fails, nothing
/// changes.
fn close(
    alloc: Global,
    older: &mut Vec<Rc<Block>>,
    segments: &mut Vec<Segment>,
) -> Result<(), AllocError>
    requires some { 0 < length segments.old.items }
    requires blocks { AllByRecursion IsBlock (map rc_value older.old.items) }
    ensures last { OnOk result (segments.new.items ≡ []) }
    ensures same { OnOk result (AreSame (block_segments (map rc_value older.new.items))
        (block_segments (map rc_value older.old.items) ++ segments.old.items)) }
    ensures blocks { OnOk result (AllByRecursion IsBlock (map rc_value older.new.items)) }
    ensures err { OnErr result ((older.new.items ≡ older.old.items)
        × (segments.new.items ≡ segments.old.items)) }
{
    let block = Rc::new(
        alloc,
        Block {
            start: segments[0].start,
            segments: shared(alloc, segments)?,
        },
    )?;
    older.push(block)?;
    segments.clear();
    Ok(())
}

/// A copy of the list, which shares the blocks.
fn shared_blocks(alloc: Global, blocks: &[Rc<Block>]) -> Result<Vec<Rc<Block>>, AllocError>
    ensures { IfOk result (λ v. map rc_value v.items ≡ map rc_value blocks.now) }
{
    let mut copies = Vec::with_capacity(alloc, blocks.len())?;
    for block in blocks {
        copies.push(block.clone()?)?;
    }
    Ok(copies)
}

/// A copy of the segments, which shares the arrays.
fn shared(alloc: Global, segments: &[Segment]) -> Result<Vec<Segment>, AllocError>
    ensures arrays { IfOk result (λ v. columns_of v.items ≡ columns_of segments.now) }
    ensures starts { IfOk result (λ v. starts_of v.items ≡ starts_of segments.now) }
{
    let mut copies = Vec::with_capacity(alloc, segments.len())?;
    for segment in segments {
        copies.push(Segment {
            start: segment.start,
            array: segment.array.clone()?,
        })?;
    }
    Ok(copies)
}
