//! The least numbers that are tight for a flow.

ghost use Rattle.std.specs.Prelude.{◌≡◌, ℕ, ℤ, length, IfOk, MatchOption};
ghost use Rattle.diff_flow.specs.Amounts.{IsFlowOn};
ghost use Rattle.shape_graphs.specs.Flows.{number_at};
ghost use Rattle.diff_flow.specs.Tight.{AreTight, AreLeastTight};

use crate::network::Network;
use compact_types::{Flow, Items, NoMemory};
use shape_graphs::DiffGraph;
use std::alloc::Global;

/// The least numbers from zero upward that solve the graph and are tight for the flow, at every
/// node; `None` exactly where no numbers are. A flow with tight numbers is best.
pub fn least_tight(
    alloc: Global,
    graph: &DiffGraph,
    flow: &Flow,
) -> Result<Option<Items<i64>>, NoMemory>
    requires { IsFlowOn graph.now.arcs flow.now.amounts }
    ensures numbers { IfOk result (λ found. MatchOption found
        ((numbers : ℕ → ℤ) → AreTight graph.now.nodes graph.now.arcs flow.now.amounts numbers → ⊥)
        (λ numbers.
        AreLeastTight graph.now.nodes graph.now.arcs flow.now.amounts (number_at numbers))) }
    ensures nodes { IfOk result (λ found. MatchOption found
        (Unit {0}) (λ numbers. length numbers ≡ graph.now.nodes)) }
{
    match Network::of(alloc, graph)? {
        None => Ok(None),
        Some(network) => network.least_tight(alloc, flow),
    }
}
