//! The types of arrays and dictionaries, which refer to each other, and of the content of a slot.

use crate::buffers::{Bools, Fixed, Ints, Strings};
use arrow_layout::form::ListForm;
use arrow_layout::{ByteRange, SharedBody};
use arrow_types::{DataType, Encoding};
use std::marker::Model;
use std::rc::Rc;

/// Where the buffers of a node lie in the body, and the arrays of its children or its dictionary.
#[cycle(arrays)]
#[derive(Drop)]
pub(crate) enum Ranges {
    Nulls,
    Bools(Bools),
    Ints(Ints),
    Binaries(Strings),
    Texts(Strings),
    FixedBytes(Fixed),
    Lists {
        form: ListForm,
        validity: ByteRange,
        offsets: ByteRange,
        child: Box<Array>,
    },
    Structs {
        validity: ByteRange,
        children: Vec<Array>,
    },
    Indices(Ints, Box<Dictionary>),
}

/// A column: its type, and a value in each slot (Columnar Format, "Physical Memory Layout").
///
/// The values stay in the body of the message that contained them, which arrays share. Slots count
/// from 0. In a dictionary-encoded column a slot holds an index, and its value is the one with that
/// number in the column's dictionary.
#[cycle(arrays)]
#[derive(Drop)]
pub struct Array {
    pub(crate) data_type: Rc<DataType>,
    pub(crate) encoding: Option<Encoding>,
    pub(crate) len: usize,
    pub(crate) body: SharedBody,
    pub(crate) ranges: Ranges,
}

impl Model for Array {
    ghost use Rattle.arrow_data.specs.Column.{Column, column_code, column_size};

    ghost Value = { Column };

    ghost coded = { column_code };

    ghost use Rattle.arrow_data.specs.Node.{column_of, IsArray};

    ghost view = { column_of };

    ghost invariant = { IsArray };

    ghost size = { column_size };

    ghost use Rattle.arrow_types.specs.View.{type_view};
    ghost use Rattle.arrow_data.specs.Falls.{depth_le-levels};

    ghost size_decreases = { λ a h.
        depth_le-levels a.len (type_view a.data_type.value) a.encoding a.body a.ranges h.1 };
}

/// Values that were added together, and the number of the first of them in the dictionary.
#[cycle(arrays)]
#[derive(Drop)]
pub(crate) struct Segment {
    pub(crate) start: usize,
    pub(crate) array: Rc<Array>,
}

/// Segments that no longer change, and the number of the first value of the first of them.
#[cycle(arrays)]
#[derive(Drop)]
pub(crate) struct Block {
    pub(crate) start: usize,
    pub(crate) segments: Vec<Segment>,
}

/// A list of values of one type (Columnar Format, "Dictionary-encoded Layout"). A value may be
/// null.
///
/// It is stored as the arrays that contain its values, one after another. Copies share these
/// arrays, so copying or extending a dictionary costs nothing for the values that are there. They
/// also share the lists of the arrays, 64 at a time: a copy takes a step for every 64 arrays, and
/// one for each of the last ones.
#[cycle(arrays)]
#[derive(Drop)]
pub struct Dictionary {
    pub(crate) data_type: DataType,
    pub(crate) older: Vec<Rc<Block>>,
    pub(crate) segments: Vec<Segment>,
    pub(crate) len: usize,
}

impl Model for Dictionary {
    ghost use Rattle.arrow_data.specs.Column.{ValueList, value_list_code, value_list_size};

    ghost Value = { ValueList };

    ghost coded = { value_list_code };

    ghost use Rattle.arrow_data.specs.Segments.{value_list_of, IsDictionary};

    ghost view = { value_list_of };

    ghost invariant = { IsDictionary };

    ghost size = { value_list_size };

    ghost use Rattle.std.proofs.Common.{arith};
    ghost use Rattle.std.specs.Rc.{rc_value};
    ghost use Rattle.arrow_types.specs.View.{type_view};
    ghost use Rattle.arrow_data.specs.Falls.{all_fall};

    ghost size_decreases = { λ d h. let fall = all_fall rc_value (type_view d.data_type)
        d.older.items d.segments.items h.typed in omega (arith, fall.0, fall.1) };
}

/// The content of a slot, as `seen` reads it from the ranges.
#[derive(Clone, Copy)]
pub(crate) enum SlotRef<'a> {
    Nothing,
    Truth(bool),
    Number(i128),
    Binary(&'a [u8]),
    Text(&'a str),
    Items(usize, usize, &'a Array),
    Parts(&'a [Array]),
}

/// The value of a slot. An index is looked up: the slot has the value that it refers to.
#[derive(Clone, Copy)]
pub enum SlotValue<'a> {
    /// No value.
    Null,
    /// A truth value.
    Bool(bool),
    /// A number; for a date, a time, a timestamp or a duration the number of its units.
    Int(i128),
    /// A byte string.
    Bytes(&'a [u8]),
    /// A text.
    Text(&'a str),
    /// A list: the first and the end of the slots that contain its items, and the array that has
    /// these slots.
    List(usize, usize, &'a Array),
    /// A struct: the arrays of its fields, and the slot in which each of them has its value.
    Struct(&'a [Array], usize),
}
