//! Laws of the definitions, without code.
//!
//! Each is the contract of a function that does nothing. In a law a number is any number.
ghost use Rattle.std.specs.Prelude.{◌≡◌, ◌≤◌, ◌↔◌, ◌++◌, ℕ, List, length, Some, Result};
ghost use Rattle.arrow_flatbuf.specs.Nodes.{NodePlaced, start};
ghost use Rattle.arrow_meta_tree.specs.declared.fault.MetaFault.{MetaFault};
ghost use Rattle.arrow_meta_reader.specs.declared.message.Message.{Message};
ghost use Rattle.arrow_meta_reader.specs.Judges.{MetadataMeans, Decodes};
ghost use Rattle.arrow_meta_tree.specs.Kinds.{Spot};
ghost use Rattle.arrow_meta_tree.specs.Lies.{LiesAtRoot, Placed};
ghost use Rattle.arrow_meta_reader.specs.Means.{PlainMessage};
ghost use Rattle.arrow_meta_tree.specs.Trees.{Tree};
ghost use Rattle.arrow_meta_tree.specs.Within.{text_bytes};
ghost use Rattle.arrow_meta_writer.specs.Again.{IsAgain};
ghost use Rattle.arrow_meta_writer.specs.Aligned.{PlacedAligned, LiesAligned};
ghost use Rattle.arrow_meta_writer.specs.Layouts.{message_node};
ghost use Rattle.arrow_meta_writer.specs.Metadata.{metadata, metadata_size, size_of};
ghost use Rattle.arrow_meta_writer.specs.Writable.{IsHeader, Allows};
ghost use Rattle.arrow_meta_writer.specs.Written.{message_tree};
ghost use Rattle.arrow_types.specs.Limits.{LimitNumbers};
ghost use Rattle.arrow_types.specs.declared.type_set.TypeSet.{TypeSet};

/// The written bytes of a message, with any bytes after them: they match the message's tree,
/// whatever set of types a reader has, with every number at a multiple of its size and a 0 byte
/// after every text, and they mean the message for exactly the readers whose limits it keeps to.
/// They contain everything that was laid out, including what no reader reads: the tables of types
/// that have no fields, and vtables at even positions. Their number is the message's size.
/// `PlacedAligned` implies `Placed`, and the names, zones, keys and values of a message are no
/// longer than its metadata.
pub fn written()
    ensures lies { (types : TypeSet) (m : PlainMessage) (n : ℕ) (past : List ℕ)
        → IsHeader m.header → size_of m ≡ Some n
        → LiesAtRoot types (message_tree types m) (metadata m ++ past) }
    ensures aligned { (types : TypeSet) (m : PlainMessage) (n : ℕ) (past : List ℕ)
        → IsHeader m.header → size_of m ≡ Some n
        → LiesAligned types (message_tree types m) (metadata m ++ past) }
    ensures means { (m : PlainMessage) (n : ℕ) (past : List ℕ)
        → IsHeader m.header → size_of m ≡ Some n
        → (limits : LimitNumbers)
        → MetadataMeans limits (metadata m ++ past) m ↔ Allows limits m }
    ensures laid { (m : PlainMessage) (n : ℕ) (past : List ℕ)
        → IsHeader m.header → size_of m ≡ Some n
        → NodePlaced (metadata m ++ past) (start 4 (message_node m)) (message_node m) }
    ensures size { (m : PlainMessage) (n : ℕ) → size_of m ≡ Some n → length (metadata m) ≡ n }
    ensures placed { (b : List ℕ) (s : Spot) (x : Tree) → PlacedAligned b s x → Placed b s x }
    ensures text { (types : TypeSet) (m : PlainMessage)
        → text_bytes (message_tree types m) ≤ metadata_size m }
{}

/// The written bytes of a message are read as that message, with any bytes after them: by a reader
/// whose limits it keeps to, if no allocation fails; and no reader reads another message.
pub fn read_again()
    ensures again { (m : PlainMessage) (n : ℕ) (past : List ℕ)
        → IsHeader m.header → size_of m ≡ Some n
        → (limits : LimitNumbers) (answer : Result Message MetaFault) → Allows limits m
        → Decodes answer limits (metadata m ++ past) → IsAgain answer m }
    ensures alone { (m : PlainMessage) (n : ℕ) (past : List ℕ)
        → IsHeader m.header → size_of m ≡ Some n
        → (limits : LimitNumbers) (k : PlainMessage)
        → MetadataMeans limits (metadata m ++ past) k → k ≡ m }
{}
