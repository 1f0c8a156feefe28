//! The refused number with the least offset.

ghost use Rattle.std.specs.Prelude.{◌≡◌, fold};
ghost use Rattle.drawing_read.specs.Faults as faults;
ghost use Rattle.drawing_read.specs.inner.Passes as passes;

use crate::numerals::{Number, Numbers};
use crate::written::{Edge, Graph, Node};
use gml_text::NumberFault;

/// Where a refused numeral begins, and why it is refused.
#[derive(Clone, Copy, Debug)]
pub struct RefusedNumber {
    pub at: u32,
    pub cause: NumberFault,
}

/// Of the refused numbers of nodes and points the one with the least offset.
pub(crate) fn first_refused(graph: &Graph) -> Option<RefusedNumber>
    ensures { result ≡ faults.first_refused (faults.numbers_in_graph graph.now) }
{
    with_edges(
        with_nodes(None, graph.nodes.as_slice()),
        graph.edges.as_slice(),
    )
}

fn with_edges(best: Option<RefusedNumber>, edges: &[Edge]) -> Option<RefusedNumber>
    ensures { result
        ≡ fold (λ best edge. fold passes.with_numbers best edge.points) best edges.now }
{
    edges.iter().fold(best, |best, edge| with_points(best, edge.points.as_slice()))
}

fn with_nodes(best: Option<RefusedNumber>, nodes: &[Node]) -> Option<RefusedNumber>
    ensures { result ≡ fold (λ best node. passes.with_numbers best node.place) best nodes.now }
{
    nodes
        .iter()
        .fold(best, |best, node| with_numbers(best, node.place))
}

fn with_points(best: Option<RefusedNumber>, points: &[Option<Numbers>]) -> Option<RefusedNumber>
    ensures { result ≡ fold passes.with_numbers best points.now }
{
    points
        .iter()
        .fold(best, |best, numbers| with_numbers(best, *numbers))
}

fn with_numbers(best: Option<RefusedNumber>, numbers: Option<Numbers>) -> Option<RefusedNumber>
    ensures { result ≡ passes.with_numbers best numbers }
{
    match numbers {
        Some(both) => with_number(with_number(best, both.x), both.y),
        None => best,
    }
}

/// The one that stands first, of what was refused so far and of this number.
fn with_number(best: Option<RefusedNumber>, number: Number) -> Option<RefusedNumber>
    ensures { result ≡ passes.with_number best number }
{
    match (best, number.value) {
        (_, Ok(_)) => best,
        (Some(refused), Err(_)) if refused.at <= number.at => best,
        (_, Err(cause)) => Some(RefusedNumber {
            at: number.at,
            cause,
        }),
    }
}
