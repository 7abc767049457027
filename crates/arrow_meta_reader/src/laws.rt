//! Laws of the definitions, which have no code.
//!
//! Each is the contract of a function that does nothing. In a law a number is any number.
ghost use Rattle.std.specs.Prelude.{◌≡◌, ℕ, List};
ghost use Rattle.arrow_meta_tree.specs.declared.fault.MetaFault.{MetaFault};
ghost use Rattle.arrow_meta_tree.specs.declared.fault.MetaFault.TheVariants.{Memory};
ghost use Rattle.arrow_meta_tree.specs.declared.kinds.TableKind.{TableKind};
ghost use Rattle.arrow_meta_tree.specs.declared.decode_cost.DecodeCost.{DecodeCost};
ghost use Rattle.arrow_meta_reader.specs.Judges.{CountsFailed, MetadataMeans, MetadataFails};
ghost use Rattle.arrow_meta_tree.specs.Lies.{Lies};
ghost use Rattle.arrow_meta_reader.specs.Means.{PlainMessage, Means};
ghost use Rattle.arrow_meta_tree.specs.Trees.{Tree};
ghost use Rattle.arrow_types.specs.Limits.{LimitNumbers};

/// Two trees of one kind at one offset of the same bytes are equal, and so are two messages that
/// one tree means.
pub fn one_meaning()
    ensures tree { (kind : TableKind) (bytes : List ℕ) (p : ℕ) (x y : Tree)
        → Lies kind x bytes p → Lies kind y bytes p → x ≡ y }
    ensures message { (max_body : ℕ) (x : Tree) (m n : PlainMessage)
        → Means max_body x m → Means max_body x n → m ≡ n }
{}

/// The bytes of a metadata mean at most one message, or have at most one fault, and never both.
/// With a fault other than `Memory` there is only one possible count of the work.
pub fn one_answer()
    ensures message { (limits : LimitNumbers) (bytes : List ℕ) (m n : PlainMessage)
        → MetadataMeans limits bytes m → MetadataMeans limits bytes n → m ≡ n }
    ensures fault { (limits : LimitNumbers) (bytes : List ℕ) (f g : MetaFault)
        → MetadataFails limits bytes f → MetadataFails limits bytes g → f ≡ g }
    ensures apart { (limits : LimitNumbers) (bytes : List ℕ) (m : PlainMessage) (f : MetaFault)
        → MetadataMeans limits bytes m → MetadataFails limits bytes f → ⊥ }
    ensures work { (limits : LimitNumbers) (bytes : List ℕ) (e : MetaFault) (v w : DecodeCost)
        → (e ≡ Memory → ⊥) → CountsFailed limits bytes e v → CountsFailed limits bytes e w
        → v ≡ w }
{}
