//! The tree of a message: the content of its metadata, before any of it is judged.
use crate::kinds::TableKind;
use std::marker::Model;

/// The content of a field that holds no table.
#[derive(Debug, Drop)]
pub enum Leaf {
    /// The field is absent, or no code opens its table.
    Absent,
    /// A number of one to eight bytes, not signed.
    Number(u64),
    /// A name or a time zone.
    Text(String),
    /// A key or a value of a pair of metadata.
    Bytes(Vec<u8>),
    /// Field nodes or buffers, each as two numbers whose sign is not interpreted yet.
    Pairs(Vec<(u64, u64)>),
    /// The field is present, and nothing more of it is read.
    Present,
}

/// The value of a field or an element, with all that belongs to it.
#[derive(Debug, Drop)]
pub enum Tree {
    /// A field that holds no table.
    Leaf(Leaf),
    /// A table, with a tree for each of its fields that are read, in order of their numbers.
    Table(TableKind, Vec<Tree>),
    /// The tables of a vector.
    Tables(Vec<Tree>),
}

/// The tree of a message, which has at most 32 levels of fields, 65,536 fields and 65,536 pairs of
/// metadata, each visit counted.
///
/// [`crate::tree`] reads one from the bytes of a metadata, and `arrow_meta_reader` determines its
/// meaning. A clause sees the plain tree.
#[derive(Debug, Drop)]
pub struct MessageTree {
    pub(crate) root: Tree,
}

impl Model for MessageTree {
    ghost use Rattle.arrow_meta_tree.specs.Trees.{Tree};
    ghost use Rattle.arrow_meta_tree.specs.Stored.{tree_code};
    ghost use Rattle.arrow_meta_tree.specs.Within.{IsShallow};
    ghost use Rattle.arrow_meta_tree.specs.Views.{plain};

    ghost Value = { Tree };

    ghost coded = { tree_code };

    ghost view = { λ t. plain t.root };

    ghost invariant = { λ t. IsShallow (plain t.root) };
}

impl MessageTree {
    ghost use Rattle.std.specs.Prelude.{◌≡◌};
    ghost use Rattle.arrow_meta_tree.specs.Views.{plain};
    ghost use Rattle.arrow_meta_tree.specs.Within.{IsShallow};

    /// The Message table, with all that belongs to it.
    pub fn into_root(self) -> Tree
        ensures root { plain result ≡ self }
        ensures shallow { IsShallow (plain result) }
    {
        self.root
    }
}
