//! Where a body is at fault. `arrow_body_reader` checks one field after another to find it. The
//! statements about the node, its buffers and the body's bytes are proved; which field has that
//! node is tested and not proved.

ghost use Rattle.std.specs.Prelude.{◌≡◌, IfSome, Some, slice_get};
ghost use Rattle.arrow_meta_reader.specs.Means.{batch_view};
ghost use Rattle.arrowflow_contents.specs.Bodies.{FindingHolds, SpotHolds};
ghost use Rattle.arrowflow_diagnosis.specs.Rejection.{situation_of};

use crate::cursor::{Cursor, START, after, children_of, inside};
use crate::finding::{Content, Finding, Need};
use crate::names::push_quoted;
use arrow_body_reader::{BodyFault, check};
use arrow_data::Dictionary;
use arrow_dict::ValueFields;
use arrow_layout::form::{Form, ListForm, OffsetWidth, node_form};
use arrow_meta_reader::Header;
use arrow_stream_reader::Kind;
use arrow_types::{Field, FieldNode};
use arrowflow_diagnosis::{Rejected, batch_of, body_of, header_of};
use std::alloc::{AllocError, Global};
use std::fmt::Write;
use std::slice;

/// The most levels of fields.
const LEVELS: u32 = 32;

/// A field with its index among the fields of its level.
#[derive(Clone, Copy)]
struct Located<'f> {
    index: usize,
    field: &'f Field,
    cursor: Cursor,
}

/// Where a body is at fault.
#[derive(Debug, Drop)]
pub struct BodySpot {
    /// The field: the index of its column, and then of a child on each level below, with the names.
    pub field: String,
    /// The index of the field's node.
    pub node: usize,
    /// What was found.
    pub finding: Finding,
}

/// A batch whose body is at fault.
#[derive(Clone, Copy)]
struct LoadedBatch<'a> {
    alloc: Global,
    content: Content<'a>,
    /// The id of the dictionary whose values the batch holds, in a dictionary batch.
    id: Option<i64>,
    dictionaries: &'a [(i64, Dictionary)],
    fault: BodyFault,
}

/// Where the body of a message is at fault, if the kind is one of a body and the fault is found.
/// `None` also if an allocation failed.
pub fn spot_of(alloc: Global, kind: Kind, rejected: &Rejected) -> Option<BodySpot>
    ensures { IfSome result (λ spot. SpotHolds spot (situation_of rejected.now)) }
{
    let body = body_of(rejected.message)?;
    let header = header_of(alloc, rejected)?;
    let batch = LoadedBatch {
        alloc,
        content: Content {
            batch: batch_of(&header)?,
            body,
        },
        id: id_of(&header),
        dictionaries: rejected.reader.dictionaries().entries(),
        fault: fault_of(kind)?,
    };
    let schema = rejected.reader.schema()?;
    match batch.id {
        Some(id) => {
            let values = ValueFields::of(alloc, schema).ok()?;
            batch.spot(values.get(id)?.fields())
        }
        None => batch.spot(schema.fields()),
    }
}

/// The id of a dictionary batch.
fn id_of(header: &Header) -> Option<i64> {
    match header {
        Header::Dictionary(id, _, _) => Some(*id),
        Header::Schema(_) | Header::Batch(_) => None,
    }
}

/// The body fault of a kind, if it is one.
fn fault_of(kind: Kind) -> Option<BodyFault> {
    match kind {
        Kind::Layout => Some(BodyFault::Layout),
        Kind::Text => Some(BodyFault::Text),
        Kind::Index => Some(BodyFault::Index),
        _ => None,
    }
}

impl<'a> LoadedBatch<'a> {
    /// Where the body is at fault, by the fields of the batch.
    fn spot(&self, fields: &[Field]) -> Option<BodySpot>
        ensures { IfSome result (λ spot. FindingHolds spot.finding spot.node
            (batch_view self.now.content.batch.now) self.now.content.body.now) }
    {
        let mut text = String::new(self.alloc);
        let Some(mut found) = self.first_bad(fields, START) else {
            return self.other_length(text, fields);
        };
        self.push_column(&mut text, found).ok()?;
        for _ in 0..LEVELS {
            let below = inside(found.field, found.cursor);
            let Some(child) = self.first_bad(children_of(found.field), below) else {
                break;
            };
            push_field(&mut text, " > child ", child).ok()?;
            found = child;
        }
        Some(BodySpot {
            field: text,
            node: found.cursor.node,
            finding: self.finding(found)?,
        })
    }

    /// The first of the fields that itself has the fault.
    fn first_bad<'f>(&self, fields: &'f [Field], start: Cursor) -> Option<Located<'f>> {
        let located = self.located(fields, start)?;
        located
            .into_iter()
            .find(|at| self.has_fault(at.field, at.cursor))
    }

    /// The fields, each with the place of its nodes and buffers.
    fn located<'f>(&self, fields: &'f [Field], start: Cursor) -> Option<Vec<Located<'f>>> {
        let mut located = Vec::new(self.alloc);
        let mut cursor = start;
        for (index, field) in fields.iter().enumerate() {
            located
                .push(Located {
                    index,
                    field,
                    cursor,
                })
                .ok()?;
            cursor = after(self.alloc, field, cursor)?;
        }
        Some(located)
    }

    /// Whether a field itself has the fault.
    fn has_fault(&self, field: &Field, cursor: Cursor) -> bool {
        let batch = self.content.batch;
        let checked = check(
            slice::from_ref(field),
            batch.nodes.get(cursor.node..).unwrap_or(&[]),
            batch.buffers.get(cursor.buffer..).unwrap_or(&[]),
            self.content.body,
            self.dictionaries,
        );
        checked.is_err_and(|fault| fault == self.fault)
    }

    /// The first column whose number of slots differs from the batch's number of rows.
    fn other_length(&self, mut text: String, fields: &[Field]) -> Option<BodySpot>
        ensures { IfSome result (λ spot. FindingHolds spot.finding spot.node
            (batch_view self.now.content.batch.now) self.now.content.body.now) }
    {
        let rows = self.content.batch.length;
        for found in self.located(fields, START)? {
            let slots = self.node(found.cursor.node)?.length;
            if slots != rows {
                self.push_column(&mut text, found).ok()?;
                return Some(BodySpot {
                    field: text,
                    node: found.cursor.node,
                    finding: Finding::RowCount { slots, rows },
                });
            }
        }
        None
    }

    /// Appends which column it is, or the dictionary whose values they are.
    fn push_column(&self, text: &mut String, found: Located) -> Result<(), AllocError> {
        match self.id {
            Some(id) => write!(text, "values of dictionary {id}"),
            None => push_field(text, "column ", found),
        }
    }

    /// The node with this index.
    fn node(&self, index: usize) -> Option<FieldNode>
        ensures { IfSome result (λ node. slice_get self.now.content.batch.now.nodes.items index
            ≡ Some node) }
    {
        Some(*self.content.batch.nodes.get(index)?)
    }

    /// The fault in a field that has the fault while no field below it does.
    fn finding(&self, found: Located) -> Option<Finding>
        ensures { IfSome result (λ finding. FindingHolds finding found.entry.cursor.node
            (batch_view self.now.content.batch.now) self.now.content.body.now) }
    {
        match self.fault {
            BodyFault::Text => self.text_finding(found.field, found.cursor),
            BodyFault::Index => self.index_finding(found.field, found.cursor),
            BodyFault::Layout | BodyFault::Memory => {
                self.layout_finding(found.field, found.cursor)
            }
        }
    }

    /// The fault in the texts of a field.
    fn text_finding(&self, field: &Field, cursor: Cursor) -> Option<Finding>
        ensures { IfSome result (λ finding. FindingHolds finding cursor.node
            (batch_view self.now.content.batch.now) self.now.content.body.now) }
    {
        match node_form(&field.data_type, field.dictionary) {
            Form::Texts(width) => self.content.bad_text(cursor, width),
            _ => None,
        }
    }

    /// The fault in the indices of a field.
    fn index_finding(&self, field: &Field, cursor: Cursor) -> Option<Finding>
        ensures { IfSome result (λ finding. FindingHolds finding cursor.node
            (batch_view self.now.content.batch.now) self.now.content.body.now) }
    {
        let encoding = field.dictionary?;
        let values = self.values_of(encoding.id);
        self.content.bad_index(cursor, encoding.index, values)
    }

    /// The number of values of the dictionary with this id.
    fn values_of(&self, id: i64) -> usize {
        let mut entries = self.dictionaries.iter();
        entries
            .find(|entry| entry.0 == id)
            .map_or(0, |entry| entry.1.len())
    }

    /// The fault in the layout of a field.
    fn layout_finding(&self, field: &Field, cursor: Cursor) -> Option<Finding>
        ensures { IfSome result (λ finding. FindingHolds finding cursor.node
            (batch_view self.now.content.batch.now) self.now.content.body.now) }
    {
        let Some(node) = self.node(cursor.node) else {
            return self.content.node_missing(cursor.node);
        };
        for index in cursor.buffer..inside(field, cursor).buffer {
            if self.content.batch.buffers.len() <= index {
                return Some(Finding::BufferMissing {
                    buffers: self.content.batch.buffers.len(),
                });
            }
            if let Some(finding) = self.content.outside(index) {
                return Some(finding);
            }
        }
        let form = node_form(&field.data_type, field.dictionary);
        let unfit = Finding::Unfit { slots: node.length };
        Some(self.buffer_finding(form, cursor).unwrap_or(unfit))
    }

    /// The fault in the buffers of a node of this layout.
    fn buffer_finding(&self, form: Form, cursor: Cursor) -> Option<Finding>
        ensures { IfSome result (λ finding. FindingHolds finding cursor.node
            (batch_view self.now.content.batch.now) self.now.content.body.now) }
    {
        if self.content.count(cursor.buffer) > 0
            && let Some(finding) = self.content.too_few(cursor.node, cursor.buffer, Need::Bits)
        {
            return Some(finding);
        }
        let second = cursor.buffer.checked_add(1)?;
        let need = need_of(form)?;
        if let Some(finding) = self.content.too_few(cursor.node, second, need) {
            return Some(finding);
        }
        let (width, top) = self.offsets_of(form, cursor)?;
        self.content.bad_offset(cursor, width, top)
    }

    /// The width and the greatest value of the offsets of a node of this layout, if it has any.
    fn offsets_of(&self, form: Form, cursor: Cursor) -> Option<(OffsetWidth, u64)> {
        match form {
            Form::Bytes(width) | Form::Texts(width) => {
                Some((
                    width,
                    self.content.count(cursor.buffer.checked_add(2)?) as u64,
                ))
            }
            Form::Lists(ListForm::Offsets(width)) => {
                let items = self.node(cursor.node.checked_add(1)?)?.length;
                Some((width, u64::try_from(items).ok()?))
            }
            Form::Nulls | Form::Bits | Form::Numbers(_) | Form::FixedBytes(_) => None,
            Form::Lists(ListForm::Fixed(_)) | Form::Structs => None,
        }
    }
}

/// What the second buffer of a node of this layout holds for its slots, if there is one.
fn need_of(form: Form) -> Option<Need> {
    match form {
        Form::Bits => Some(Need::Bits),
        Form::Numbers(number) => Some(Need::Bytes(number.width() as u32)),
        Form::FixedBytes(width) => Some(Need::Bytes(width)),
        Form::Bytes(width) | Form::Texts(width) | Form::Lists(ListForm::Offsets(width)) => {
            Some(Need::Offsets(width.bytes() as u32))
        }
        Form::Lists(ListForm::Fixed(_)) | Form::Nulls | Form::Structs => None,
    }
}

/// Appends the index of a field among those of its level, and its name.
fn push_field(text: &mut String, word: &str, found: Located) -> Result<(), AllocError> {
    write!(text, "{word}{}", found.index)?;
    push_quoted(text, &found.field.name)
}
