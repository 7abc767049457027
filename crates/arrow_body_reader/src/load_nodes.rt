//! Checks each node of the fields once, depth first.

ghost use Rattle.std.specs.Prelude.{◌≡◌, IfSome, MatchOption, drop};
ghost use Rattle.arrow_types.specs.View.{fields_view};
ghost use Rattle.arrow_body_reader.specs.Sound.{lengths_of};
ghost use Rattle.arrow_body_reader.specs.Least.{IsLeast};
ghost use Rattle.arrow_body_reader.specs.Look.{DoLie, HasMade, IsReady, IsSeen};
ghost use Rattle.arrow_body_reader.specs.Taken.{taken_nodes};

use crate::body_context::BodyContext;
use crate::build::{Builder, builder_below, with_node};
use crate::own_node::NodeChecks;
use crate::place::NodePlace;
use crate::taken::{Left, below, inside};
use arrow_types::Field;

/// The result of checking fields, and the nodes and buffers after theirs.
#[derive(Drop)]
pub(crate) struct Found<'a> {
    pub(crate) seen: NodeChecks,
    /// How many slots the shortest of these fields has.
    least: usize,
    pub(crate) rest: Left<'a>,
    /// Their arrays, if a builder was given, nothing is wrong and no allocation failed.
    pub(crate) builder: Option<Builder<'a>>,
}

/// Checks all nodes of the fields, on every level: None if there are fewer nodes or buffers than
/// they take, or one does not lie in the body as its type requires. As long as nothing is wrong and
/// no allocation failed, the builder makes the array of each node that was checked.
#[cycle(load_nodes)]
pub(crate) fn load_nodes<'a>(
    fields: &[Field],
    left: Left<'a>,
    source: BodyContext<'_>,
    builder: Option<Builder<'a>>,
) -> Option<Found<'a>>
    requires building { IfSome builder (IsReady (fields_view fields.now) left source) }
    ensures seen { MatchOption result (DoLie (fields_view fields.now) left.entry source.entry → ⊥)
        (IsSeen (fields_view fields.now) left.entry source.entry) }
    ensures least { IfSome result
        (λ load_nodes. IsLeast load_nodes.least (lengths_of (fields_view fields.now) left.entry.nodes.now)) }
    ensures types { IfSome result (λ load_nodes. load_nodes.rest.types.now
        ≡ drop (taken_nodes (fields_view fields.now)) left.entry.types.now) }
    ensures building { IfSome result (λ load_nodes. IfSome load_nodes.builder
        (HasMade (fields_view fields.now) left.entry source.entry)) }
{
    let mut seen = NodeChecks {
        texts: true,
        indices: true,
    };
    let mut least = usize::MAX;
    let mut rest = left;
    let mut making = builder;
    for field in fields {
        let place = NodePlace::new(field, rest, source);
        if rest.nodes.is_empty() || rest.buffers.len() < place.own {
            return None;
        }
        let under = below(field);
        let inner = load_below(
            under,
            inside(place.own, rest),
            source,
            builder_below(&making, under.len()),
        )?;
        let node = place.node(inner.least)?;
        seen = seen.and(node.seen).and(inner.seen);
        least = least.min(node.laid.len);
        making = with_node(making, inner.builder, place, &node);
        rest = inner.rest;
    }
    Some(Found {
        seen,
        least,
        rest,
        builder: making,
    })
}

/// The same for the fields below a field. Mostly there are none; then nothing is called.
#[inline(always)]
#[cycle(load_nodes)]
fn load_below<'a>(
    fields: &[Field],
    left: Left<'a>,
    source: BodyContext<'_>,
    builder: Option<Builder<'a>>,
) -> Option<Found<'a>>
    requires building { IfSome builder (IsReady (fields_view fields.now) left source) }
    ensures seen { MatchOption result (DoLie (fields_view fields.now) left.entry source.entry → ⊥)
        (IsSeen (fields_view fields.now) left.entry source.entry) }
    ensures least { IfSome result
        (λ load_nodes. IsLeast load_nodes.least (lengths_of (fields_view fields.now) left.entry.nodes.now)) }
    ensures types { IfSome result (λ load_nodes. load_nodes.rest.types.now
        ≡ drop (taken_nodes (fields_view fields.now)) left.entry.types.now) }
    ensures building { IfSome result (λ load_nodes. IfSome load_nodes.builder
        (HasMade (fields_view fields.now) left.entry source.entry)) }
{
    if fields.is_empty() {
        Some(Found {
            seen: NodeChecks {
                texts: true,
                indices: true,
            },
            least: usize::MAX,
            rest: left,
            builder,
        })
    } else {
        load_nodes(fields, left, source, builder)
    }
}
