//! From nodes, buffers and a body to columns.

ghost use Rattle.std.specs.Prelude.{◌≡◌, IfOk, IfSome, MatchResult};
ghost use Rattle.arrow_types.specs.View.{fields_view};
ghost use Rattle.arrow_body_reader.specs.Sound.{AreFit, Explains, IsExplained, IsSound, columns_of};
ghost use Rattle.arrow_body_reader.specs.Sound.{number_of};
ghost use Rattle.arrow_body_reader.specs.Look.{IsReady};
ghost use Rattle.arrow_layout.specs.Shared.{node_types};

use crate::body_context::BodyContext;
use crate::build::Builder;
use crate::load_nodes::load_nodes;
use crate::taken::Left;
use arrow_data::{Array, Dictionary, DictionaryMap};
use arrow_layout::{SharedBody, SharedType, shared_types};
use arrow_types::{Buffer, Field, FieldNode};
use bytes::Bytes;
use std::alloc::{AllocError, Global};
use std::error::Error;
use std::fmt;

/// Why nodes, buffers and a body are not columns of the fields, in the order of the faults'
/// numbers.
#[derive(Clone, Copy, Debug, PartialEq, Eq)]
pub enum BodyFault {
    /// Nodes or buffers are missing, lie outside the body, are too short for their slots, or
    /// contradict one another.
    Layout,
    /// A valid slot of a column of texts is not UTF-8.
    Text,
    /// A valid slot of a dictionary-encoded column has an index without a value.
    Index,
    /// An allocation failed. None of the other faults applies.
    Memory,
}

impl BodyFault {
    /// The fault's number, from 1.
    pub fn number(self) -> u8
        ensures { result ≡ number_of self }
    {
        match self {
            BodyFault::Layout => 1,
            BodyFault::Text => 2,
            BodyFault::Index => 3,
            BodyFault::Memory => 4,
        }
    }
}

impl fmt::Display for BodyFault {
    ghost use Rattle.std.specs.Prelude.{Some};
    ghost use Rattle.arrow_body_reader.specs.Sound.{words_of};

    ghost output = { λ f. Some (words_of f) };

    fn fmt<W: fmt::Write>(&self, f: &mut fmt::Formatter<W>) -> fmt::Result {
        match self {
            BodyFault::Layout => f.write_str("nodes and buffers that do not fit the body"),
            BodyFault::Text => f.write_str("a text that is not UTF-8"),
            BodyFault::Index => f.write_str("an index without a value"),
            BodyFault::Memory => f.write_str("out of memory"),
        }
    }
}

impl Error for BodyFault {}

/// The fault with the least number of those that apply to any of the columns of the fields, `Ok` if
/// none does.
///
/// Nodes and buffers are in pre-order, depth first; those after the last that is taken are not
/// inspected. Each node is checked once, and nothing is allocated: only the texts, offsets and
/// indices are checked slot by slot, so that a length alone costs nothing. `Memory` is never
/// returned.
///
/// A dictionary-encoded column refers to the first dictionary that is listed for its id, or to the
/// empty one if none is; the caller knows that a listed dictionary has the type of the field's
/// values. They may be listed in any order; if their ids rise, each is found by binary search.
pub fn check(
    fields: &[Field],
    nodes: &[FieldNode],
    buffers: &[Buffer],
    body: &[u8],
    dictionaries: &[(i64, Dictionary)],
) -> Result<(), BodyFault>
    ensures { MatchResult result
        (λ _. IsSound body.now dictionaries.now (fields_view fields.now) nodes.now buffers.now)
        (λ fault. IsExplained fault body.now dictionaries.now
        (fields_view fields.now) nodes.now buffers.now) }
{
    let left = Left {
        nodes,
        buffers,
        types: &[],
    };
    let source = BodyContext {
        body,
        dictionaries: DictionaryMap::new(dictionaries),
    };
    walk(fields, left, source, None)?;
    Ok(())
}

/// The columns of the fields, or the fault with the least number of those that apply to any of
/// them: the fault that `check` returns, or `Memory` if it returns none and an allocation failed.
///
/// The columns share the body: nothing of it is copied, and the number of allocations does not
/// depend on how many slots there are.
pub fn load(
    alloc: Global,
    fields: &[Field],
    nodes: &[FieldNode],
    buffers: &[Buffer],
    body: &Bytes,
    dictionaries: &[(i64, Dictionary)],
) -> Result<Vec<Array>, BodyFault>
    requires { AreFit dictionaries.now (fields_view fields.now) }
    ensures { MatchResult result
        (λ arrays. IsSound body.now dictionaries.now (fields_view fields.now) nodes.now buffers.now
        × (arrays.items ≡ columns_of body.now dictionaries.now
        (fields_view fields.now) nodes.now buffers.now))
        (λ fault. Explains fault body.now dictionaries.now
        (fields_view fields.now) nodes.now buffers.now) }
{
    match shared(alloc, fields, body) {
        Ok((types, body)) => {
            load_typed(alloc, fields, &types, nodes, buffers, &body, dictionaries)
        }
        Err(_) => {
            check(fields, nodes, buffers, body.as_slice(), dictionaries)?;
            Err(BodyFault::Memory)
        }
    }
}

/// What the arrays of fields share: the types of their nodes, and the body.
fn shared(
    alloc: Global,
    fields: &[Field],
    body: &Bytes,
) -> Result<(Vec<SharedType>, SharedBody), AllocError>
    ensures types { IfOk result (λ s. s.0.items ≡ node_types (fields_view fields.now)) }
    ensures body { IfOk result (λ s. s.1 ≡ body.now) }
{
    let types = shared_types(alloc, fields)?;
    let bytes = body.clone()?;
    Ok((types, SharedBody::new(alloc, bytes)?))
}

/// As `load`, with the types of the nodes, which `shared_types` makes once for all batches of the
/// fields, and with a body that was made to be shared: the columns share both.
///
/// The nodes are walked once: each is checked, and its array is made of the ranges that the check
/// found. After an allocation has failed, or a text or an index was found to be invalid, the walk
/// goes on without making arrays, since a fault with a lower number may follow.
pub fn load_typed(
    alloc: Global,
    fields: &[Field],
    types: &[SharedType],
    nodes: &[FieldNode],
    buffers: &[Buffer],
    body: &SharedBody,
    dictionaries: &[(i64, Dictionary)],
) -> Result<Vec<Array>, BodyFault>
    requires typed { types.now ≡ node_types (fields_view fields.now) }
    requires fit { AreFit dictionaries.now (fields_view fields.now) }
    ensures { MatchResult result
        (λ arrays. IsSound body.now dictionaries.now (fields_view fields.now) nodes.now buffers.now
        × (arrays.items ≡ columns_of body.now dictionaries.now
        (fields_view fields.now) nodes.now buffers.now))
        (λ fault. Explains fault body.now dictionaries.now
        (fields_view fields.now) nodes.now buffers.now) }
{
    let left = Left {
        nodes,
        buffers,
        types,
    };
    let source = BodyContext {
        body: body.as_slice(),
        dictionaries: DictionaryMap::new(dictionaries),
    };
    let builder = Builder::new(alloc, body, fields.len());
    match walk(fields, left, source, builder)? {
        Some(builder) => Ok(builder.arrays),
        None => Err(BodyFault::Memory),
    }
}

/// One walk over all nodes: the builder with the arrays of the fields, None if none was given or an
/// allocation failed; or the fault with the least number of those that apply.
fn walk<'a>(
    fields: &[Field],
    left: Left<'a>,
    source: BodyContext<'_>,
    builder: Option<Builder<'a>>,
) -> Result<Option<Builder<'a>>, BodyFault>
    requires building { IfSome builder (IsReady (fields_view fields.now) left source) }
    ensures { MatchResult result
        (λ built. IsSound source.entry.body.now source.entry.dictionaries.entries.now
        (fields_view fields.now) left.entry.nodes.now left.entry.buffers.now
        × IfSome built (λ b. b.arrays.items
        ≡ columns_of source.entry.body.now source.entry.dictionaries.entries.now
        (fields_view fields.now) left.entry.nodes.now left.entry.buffers.now))
        (λ fault. IsExplained fault source.entry.body.now source.entry.dictionaries.entries.now
        (fields_view fields.now) left.entry.nodes.now left.entry.buffers.now) }
{
    let Some(found) = load_nodes(fields, left, source, builder) else {
        return Err(BodyFault::Layout);
    };
    if !found.seen.texts {
        return Err(BodyFault::Text);
    }
    if !found.seen.indices {
        return Err(BodyFault::Index);
    }
    Ok(found.builder)
}
