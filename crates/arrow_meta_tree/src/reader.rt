//! Reading of the tree that lies in the bytes of a metadata, within limits.
ghost use Rattle.std.specs.Prelude.{◌≡◌, ◌<◌, ◌≤◌, ◌+◌, ◌*◌, ℕ, Bool, false, true, Some, length};
ghost use Rattle.std.specs.Prelude.{MatchResult, IfOk, IfErr};
ghost use Rattle.arrow_flatbuf.specs.Table.{field_place};
ghost use Rattle.arrow_meta_tree.specs.Grows.{GrowsAtRoot, root};
ghost use Rattle.arrow_meta_tree.specs.Kinds.{Spot, code_at, spot, spots_of, opened};
ghost use Rattle.arrow_meta_tree.specs.Views.{plain, plain_all};
ghost use Rattle.arrow_meta_tree.specs.Lies.{LiesAtRoot, elements, layer, table_layer};
ghost use Rattle.arrow_meta_tree.specs.Lies.{number_layer, layer_at, pairs_from};
ghost use Rattle.arrow_meta_tree.specs.Trees.{Tree as PlainTree, table};
ghost use Rattle.arrow_meta_tree.specs.Costs.{Counts, EndsAtRoot, IsWorkWithin};
ghost use Rattle.arrow_meta_tree.specs.Within.{IsWithin, Spends, entry, visit};
ghost use Rattle.arrow_meta_tree.specs.declared.kinds.FieldForm.{FieldForm as Form};
ghost use Rattle.arrow_meta_tree.specs.declared.kinds.FieldForm.TheVariants as forms;
ghost use Rattle.arrow_meta_tree.specs.Reads.{Ends, RowEnds};
ghost use Rattle.arrow_meta_tree.specs.Reads.{ReadsTree, ReadsRow, LacksRoom, room, Faulty};

use crate::counter::Counter;
use crate::decode_cost::DecodeCost;
use crate::fault::MetaFault;
use crate::forms;
use crate::kinds::{FieldForm, OFFSET, PAIR, TableKind};
use crate::message_tree::{Leaf, MessageTree, Tree};
use arrow_flatbuf::{Root, Table, Vector};
use arrow_types::{Limits, TypeSet};
use std::alloc::{AllocError, Global};

/// The most levels of fields, where a column is level 1.
const MAX_LEVELS: u64 = 32;

/// The most Field tables, each visit counted.
const MAX_FIELDS: u64 = 65_536;

/// The most KeyValue tables, each visit counted.
const MAX_PAIRS: u64 = 65_536;

/// The tree of the message with these bytes as its metadata (Columnar Format, "Encapsulated message
/// format"): the one that lies at the root, if it keeps to the limits.
///
/// `Metadata` if something that is read is not readable, or if there are more than 32 levels of
/// fields, more than 65,536 fields, more than 65,536 pairs of metadata, or names, zones, keys and
/// values of more than `max_metadata` bytes together, each visit counted. `Memory` if an allocation
/// failed, so only if the root's table is readable with its first field, since no memory is
/// allocated before. The caller decides how long the bytes may be.
pub fn tree(alloc: Global, bytes: &[u8], limits: &Limits) -> Result<MessageTree, MetaFault>
    ensures found { IfOk result (λ t. LiesAtRoot limits.now.types t bytes.now
        × IsWithin limits.now.max_metadata t) }
    ensures none { IfErr result (λ e. Faulty e
        ((x : PlainTree) → LiesAtRoot limits.now.types x bytes.now
        → ¬ (IsWithin limits.now.max_metadata x))
        (GrowsAtRoot limits.now bytes.now)) }
{
    let mut work = DecodeCost::NONE;
    tree_counted(alloc, bytes, limits, &mut work)
}

/// The same, with the work that it took. The work is first set to 0, whatever it was, and then
/// counts each Field table and each KeyValue table before it is opened, and each byte of a name, a
/// zone, a key or a value before it is copied. It keeps to the limits whatever is returned. If
/// there is a tree, the work counts exactly what the tree has; after a fault exactly what was read
/// before the point where reading ended with it, and the table or copy at which it ended, if there
/// was room for that.
pub fn tree_counted(
    alloc: Global,
    bytes: &[u8],
    limits: &Limits,
    work: &mut DecodeCost,
) -> Result<MessageTree, MetaFault>
    ensures found { IfOk result (λ t. LiesAtRoot limits.now.types t bytes.now
        × IsWithin limits.now.max_metadata t) }
    ensures none { IfErr result (λ e. Faulty e
        ((x : PlainTree) → LiesAtRoot limits.now.types x bytes.now
        → ¬ (IsWithin limits.now.max_metadata x))
        (GrowsAtRoot limits.now bytes.now)) }
    ensures within { IsWorkWithin limits.now work.new }
    ensures counted { IfOk result (λ t. Counts work.new t) }
    ensures ends { IfErr result (λ e. EndsAtRoot limits.now bytes.now e work.new) }
{
    let mut reader = Reader {
        alloc,
        counter: Counter {
            max_bytes: limits.max_metadata(),
            work: DecodeCost::NONE,
        },
    };
    let found = reader.root(limits.types(), bytes);
    *work = reader.counter.work;
    Ok(MessageTree { root: found? })
}

/// Reads trees, and counts what it reads. However the bytes share their tables and texts, no more
/// is read than was counted.
#[derive(Drop)]
struct Reader {
    alloc: Global,
    counter: Counter,
}

impl Reader {
    /// Reads the tree of the message with these bytes as its metadata.
    fn root(&mut self, types: TypeSet, bytes: &[u8]) -> Result<Tree, MetaFault>
        ensures read { ReadsTree plain result bytes.now (root types) 32 (room self.old)
            (room self.new) }
        ensures ends { IfErr result (λ e. Ends bytes.now false e (root types) 32 (room self.old)
            (room self.new)) }
        ensures max { self.new.counter.max_bytes ≡ self.old.counter.max_bytes }
    {
        match Root::open(bytes) {
            None => Err(MetaFault::Metadata),
            Some(table) => self.table(TableKind::Message(types), &table, MAX_LEVELS),
        }
    }

    /// Pays for a table, and returns how many levels may be below it. Field tables and KeyValue
    /// tables are only in vectors, and are opened only after this call.
    fn enter(&mut self, kind: TableKind, levels: u64) -> Result<u64, MetaFault>
        ensures paid { MatchResult result
            (λ below. (below + visit kind ≡ levels)
            × Spends (room self.old) (room self.new) (visit kind) (entry kind) 0)
            (λ e. (e ≡ MetaFault.Metadata) × LacksRoom (room self.old) kind levels) }
        ensures unpaid { IfErr result (λ _. room self.new ≡ room self.old) }
        ensures max { self.new.counter.max_bytes ≡ self.old.counter.max_bytes }
    {
        match kind {
            TableKind::Field(_) => {
                if levels == 0 || self.counter.work.fields == MAX_FIELDS {
                    return Err(MetaFault::Metadata);
                }
                self.counter.work.fields += 1;
                Ok(levels - 1)
            }
            TableKind::KeyValue => {
                if self.counter.work.pairs == MAX_PAIRS {
                    return Err(MetaFault::Metadata);
                }
                self.counter.work.pairs += 1;
                Ok(levels)
            }
            _ => Ok(levels),
        }
    }

    /// Reads the table, which is not an element of a vector, with all that belongs to it.
    #[cycle(trees)]
    fn table(&mut self, kind: TableKind, table: &Table, levels: u64) -> Result<Tree, MetaFault>
        ensures read { (s : Spot)
            → layer table.now.bytes s ≡ Some (table_layer kind (spots_of kind table.now))
            → ReadsTree plain result table.now.bytes s levels (room self.old) (room self.new) }
        ensures ends { IfErr result (λ e. (v : Bool) (s : Spot) (p : ℕ)
            → s ≡ record { form = forms.Table kind; place = Some p }
            → layer table.now.bytes s ≡ Some (table_layer kind (spots_of kind table.now))
            → Ends table.now.bytes v e s levels (room self.old) (room self.new)) }
        ensures max { self.new.counter.max_bytes ≡ self.old.counter.max_bytes }
    {
        let below = self.enter(kind, levels)?;
        let fields = self.fields(kind, table, below)?;
        Ok(joined(kind, fields))
    }

    /// Reads the fields of a table.
    #[cycle(trees)]
    fn fields(
        &mut self,
        kind: TableKind,
        table: &Table,
        levels: u64,
    ) -> Result<Vec<Tree>, MetaFault>
        ensures read { ReadsRow (λ v. plain_all v.items) result table.now.bytes
            (spots_of kind table.now) levels (room self.old) (room self.new) }
        ensures ends { IfErr result (λ e. RowEnds table.now.bytes false e
            (spots_of kind table.now) levels (room self.old) (room self.new)) }
        ensures max { self.new.counter.max_bytes ≡ self.old.counter.max_bytes }
    {
        let forms = forms::forms(kind);
        let mut trees = Vec::new(self.alloc);
        for field in 0..forms.len() as u16 {
            let tree = self.field(table, field, forms[field as usize], levels)?;
            trees.push(tree)?;
        }
        Ok(trees)
    }

    /// Reads the content of a field of this form.
    #[cycle(trees)]
    fn field(
        &mut self,
        table: &Table,
        field: u16,
        form: FieldForm,
        levels: u64,
    ) -> Result<Tree, MetaFault>
        ensures read { ReadsTree plain result table.now.bytes (spot form table.now field)
            levels (room self.old) (room self.new) }
        ensures ends { IfErr result (λ e. Ends table.now.bytes false e
            (spot form table.now field) levels (room self.old) (room self.new)) }
        ensures max { self.new.counter.max_bytes ≡ self.old.counter.max_bytes }
    {
        match form {
            FieldForm::Byte => self.number(table, field, 1),
            FieldForm::Short => self.number(table, field, 2),
            FieldForm::Int => self.number(table, field, 4),
            FieldForm::Long => self.number(table, field, 8),
            FieldForm::Text => self.text(table, field),
            FieldForm::Bytes => self.byte_string(table, field),
            FieldForm::Pairs => self.pairs(table, field),
            FieldForm::Presence => self.presence(table, field),
            FieldForm::Table(kind) => self.child(Some(kind), table, field, levels),
            FieldForm::Tables(kind) => self.children(kind, table, field, levels),
            FieldForm::Header(types) => {
                let kind = forms::header_table(types, code_at(table, field.saturating_sub(1)));
                self.child(kind, table, field, levels)
            }
            FieldForm::Type(types) => {
                let kind = forms::type_table(types, code_at(table, field.saturating_sub(1)));
                self.child(kind, table, field, levels)
            }
        }
    }

    /// Reads the table in a field, if something opens one.
    #[cycle(trees)]
    #[tactic(auto, unfolding(crate::specs::Lies::layer))]
    fn child(
        &mut self,
        kind: Option<TableKind>,
        table: &Table,
        field: u16,
        levels: u64,
    ) -> Result<Tree, MetaFault>
        ensures read { ReadsTree plain result table.now.bytes
            (opened kind (field_place table.now field)) levels (room self.old) (room self.new) }
        ensures ends { IfErr result (λ e. Ends table.now.bytes false e
            (opened kind (field_place table.now field)) levels (room self.old) (room self.new)) }
        ensures max { self.new.counter.max_bytes ≡ self.old.counter.max_bytes }
    {
        match kind {
            None => Ok(Tree::Leaf(Leaf::Absent)),
            Some(opened) => match table.table(field)? {
                None => Ok(Tree::Leaf(Leaf::Absent)),
                Some(child) => self.table(opened, &child, levels),
            },
        }
    }

    /// Reads the vector of tables in a field.
    #[cycle(trees)]
    #[tactic(auto, unfolding(crate::specs::Lies::layer))]
    fn children(
        &mut self,
        kind: TableKind,
        table: &Table,
        field: u16,
        levels: u64,
    ) -> Result<Tree, MetaFault>
        ensures read { ReadsTree plain result table.now.bytes
            (record { form = forms.Tables kind; place = field_place table.now field })
            levels (room self.old) (room self.new) }
        ensures ends { IfErr result (λ e. Ends table.now.bytes false e
            (record { form = forms.Tables kind; place = field_place table.now field })
            levels (room self.old) (room self.new)) }
        ensures max { self.new.counter.max_bytes ≡ self.old.counter.max_bytes }
    {
        match table.vector(field, OFFSET)? {
            None => Ok(Tree::Leaf(Leaf::Absent)),
            Some(vector) => Ok(Tree::Tables(self.elements(kind, &vector, levels)?)),
        }
    }

    /// Reads the tables of a vector, one after the other.
    #[cycle(trees)]
    fn elements(
        &mut self,
        kind: TableKind,
        vector: &Vector,
        levels: u64,
    ) -> Result<Vec<Tree>, MetaFault>
        requires offsets { vector.now.size ≡ 4 }
        ensures read { ReadsRow (λ v. plain_all v.items) result vector.now.bytes
            (elements kind vector.now.place vector.now.count)
            levels (room self.old) (room self.new) }
        ensures ends { IfErr result (λ e. RowEnds vector.now.bytes true e
            (elements kind vector.now.place vector.now.count)
            levels (room self.old) (room self.new)) }
        ensures max { self.new.counter.max_bytes ≡ self.old.counter.max_bytes }
    {
        let mut trees = Vec::new(self.alloc);
        for index in 0..vector.len() {
            let tree = self.element(kind, vector, index, levels)?;
            trees.push(tree)?;
        }
        Ok(trees)
    }

    /// Reads the table at `index` of a vector. It is paid for before it is opened.
    #[cycle(trees)]
    fn element(
        &mut self,
        kind: TableKind,
        vector: &Vector,
        index: usize,
        levels: u64,
    ) -> Result<Tree, MetaFault>
        requires offsets { vector.now.size ≡ 4 }
        requires inside { index < vector.now.count }
        ensures read { ReadsTree plain result vector.now.bytes
            (record { form = forms.Table kind; place = Some (vector.now.place + index * 4) })
            levels (room self.old) (room self.new) }
        ensures ends { IfErr result (λ e. Ends vector.now.bytes true e
            (record { form = forms.Table kind; place = Some (vector.now.place + index * 4) })
            levels (room self.old) (room self.new)) }
        ensures max { self.new.counter.max_bytes ≡ self.old.counter.max_bytes }
    {
        let below = self.enter(kind, levels)?;
        let table = vector.table(index)?;
        let fields = self.fields(kind, &table, below)?;
        Ok(joined(kind, fields))
    }

    /// Reads the number of `width` bytes in a field.
    #[tactic(auto, unfolding(crate::specs::Lies::layer))]
    fn number(&mut self, table: &Table, field: u16, width: usize) -> Result<Tree, MetaFault>
        requires low { 1 ≤ width }
        requires high { width ≤ 8 }
        ensures read { (form : Form) (most : ℕ)
            → ((p : ℕ) → layer_at table.now.bytes form p ≡ number_layer width table.now.bytes p)
            → ReadsTree plain result table.now.bytes
            (record { form = form; place = field_place table.now field })
            most (room self.old) (room self.new) }
        ensures ends { IfErr result (λ e. (form : Form) (most : ℕ)
            → ((p : ℕ) → layer_at table.now.bytes form p ≡ number_layer width table.now.bytes p)
            → Ends table.now.bytes false e
            (record { form = form; place = field_place table.now field })
            most (room self.old) (room self.new)) }
        ensures max { self.new.counter.max_bytes ≡ self.old.counter.max_bytes }
    {
        match table.scalar(field, width)? {
            None => Ok(Tree::Leaf(Leaf::Absent)),
            Some(number) => Ok(Tree::Leaf(Leaf::Number(number))),
        }
    }

    /// Reads the text in a field.
    #[tactic(auto, unfolding(crate::specs::Lies::layer))]
    fn text(&mut self, table: &Table, field: u16) -> Result<Tree, MetaFault>
        ensures read { (most : ℕ) → ReadsTree plain result table.now.bytes
            (record { form = forms.Text; place = field_place table.now field })
            most (room self.old) (room self.new) }
        ensures ends { IfErr result (λ e. (most : ℕ) → Ends table.now.bytes false e
            (record { form = forms.Text; place = field_place table.now field })
            most (room self.old) (room self.new)) }
        ensures max { self.new.counter.max_bytes ≡ self.old.counter.max_bytes }
    {
        match table.text(field)? {
            None => Ok(Tree::Leaf(Leaf::Absent)),
            Some(text) => {
                let copy = self.copied(text.as_bytes())?;
                Ok(Tree::Leaf(Leaf::Text(unsafe { String::from_utf8_unchecked(copy) })))
            }
        }
    }

    /// Reads the string of any bytes in a field.
    #[tactic(auto, unfolding(crate::specs::Lies::layer))]
    fn byte_string(&mut self, table: &Table, field: u16) -> Result<Tree, MetaFault>
        ensures read { (most : ℕ) → ReadsTree plain result table.now.bytes
            (record { form = forms.Bytes; place = field_place table.now field })
            most (room self.old) (room self.new) }
        ensures ends { IfErr result (λ e. (most : ℕ) → Ends table.now.bytes false e
            (record { form = forms.Bytes; place = field_place table.now field })
            most (room self.old) (room self.new)) }
        ensures max { self.new.counter.max_bytes ≡ self.old.counter.max_bytes }
    {
        match table.bytes(field)? {
            None => Ok(Tree::Leaf(Leaf::Absent)),
            Some(bytes) => Ok(Tree::Leaf(Leaf::Bytes(self.copied(bytes)?))),
        }
    }

    /// Copies a name, a zone, a key or a value. They are copied only here, and counted first.
    fn copied(&mut self, bytes: &[u8]) -> Result<Vec<u8>, MetaFault>
        ensures copied { MatchResult result
            (λ v. (v.items ≡ bytes.now)
            × Spends (room self.old) (room self.new) 0 0 (length bytes.now))
            (λ e. Faulty e ((room self.old).text < length bytes.now)
            (length bytes.now ≤ (room self.old).text)) }
        ensures ends { IfErr result (λ e. Faulty e (room self.new ≡ room self.old)
            (Spends (room self.old) (room self.new) 0 0 (length bytes.now))) }
        ensures max { self.new.counter.max_bytes ≡ self.old.counter.max_bytes }
    {
        let length = bytes.len() as u64;
        if self.counter.max_bytes - self.counter.work.bytes < length {
            return Err(MetaFault::Metadata);
        }
        self.counter.work.bytes += length;
        Ok(Vec::from_slice(self.alloc, bytes)?)
    }

    /// Reads the pairs of numbers in a field.
    #[tactic(auto, unfolding(crate::specs::Lies::layer))]
    fn pairs(&mut self, table: &Table, field: u16) -> Result<Tree, MetaFault>
        ensures read { (most : ℕ) → ReadsTree plain result table.now.bytes
            (record { form = forms.Pairs; place = field_place table.now field })
            most (room self.old) (room self.new) }
        ensures ends { IfErr result (λ e. (most : ℕ) → Ends table.now.bytes false e
            (record { form = forms.Pairs; place = field_place table.now field })
            most (room self.old) (room self.new)) }
        ensures max { self.new.counter.max_bytes ≡ self.old.counter.max_bytes }
    {
        match table.vector(field, PAIR)? {
            None => Ok(Tree::Leaf(Leaf::Absent)),
            Some(vector) => Ok(Tree::Leaf(Leaf::Pairs(pairs_of(self.alloc, &vector)?))),
        }
    }

    /// Reads whether a field is present.
    #[tactic(auto, unfolding(crate::specs::Lies::layer))]
    fn presence(&mut self, table: &Table, field: u16) -> Result<Tree, MetaFault>
        ensures read { (most : ℕ) → ReadsTree plain result table.now.bytes
            (record { form = forms.Presence; place = field_place table.now field })
            most (room self.old) (room self.new) }
        ensures ends { IfErr result (λ e. (most : ℕ) → Ends table.now.bytes false e
            (record { form = forms.Presence; place = field_place table.now field })
            most (room self.old) (room self.new)) }
        ensures max { self.new.counter.max_bytes ≡ self.old.counter.max_bytes }
    {
        if table.has(field) {
            Ok(Tree::Leaf(Leaf::Present))
        } else {
            Ok(Tree::Leaf(Leaf::Absent))
        }
    }
}

fn joined(kind: TableKind, fields: Vec<Tree>) -> Tree
    ensures table { plain result ≡ table kind (plain_all fields.items) }
{
    Tree::Table(kind, fields)
}

/// The code in a field, 0 if it is absent. An unreadable one is found when the field itself is
/// read.
fn code_at(table: &Table, field: u16) -> u64
    ensures code { result ≡ code_at table.now field }
{
    match table.scalar(field, 1) {
        Ok(Some(code)) => code,
        Ok(None) => 0,
        Err(_) => 0,
    }
}

/// The pairs of numbers of a vector. Without pairs no memory is allocated.
fn pairs_of(alloc: Global, vector: &Vector) -> Result<Vec<(u64, u64)>, AllocError>
    requires pairs { vector.now.size ≡ 16 }
    ensures pairs { IfOk result
        (λ v. v.items ≡ pairs_from vector.now.bytes vector.now.place vector.now.count) }
    ensures some { IfErr result (λ _. 0 < vector.now.count) }
{
    let mut pairs = Vec::new(alloc);
    for index in 0..vector.len() {
        pairs.push(vector.pair(index))?;
    }
    Ok(pairs)
}
