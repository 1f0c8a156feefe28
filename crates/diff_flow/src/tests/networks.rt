//! Networks, and the flows that they make best.

ghost use Rattle.std.specs.Prelude.{◌≡◌};
ghost use Rattle.shape_graphs.specs.Flows.{Balances};
ghost use Rattle.diff_flow.specs.Amounts.{IsFlowOn};

use super::{APART, Line, PARALLEL, SPINE, case_of, graph_of};
use crate::{Network, balanced};
use compact_types::{Flow, Items, NoMemory};
use shape_graphs::DiffGraph;
use std::alloc::Global;
use std::test::Fail;

/// Whether the flow is made best with these amounts, of which these are the least tight numbers;
/// an error where the graph has a cycle or the flow does not balance.
fn is_settled(
    alloc: Global,
    nodes: u32,
    arcs: &[Line],
    amounts: &[u64],
    best: &[u64],
    numbers: &[i64],
) -> Result<bool, Fail> {
    let case = case_of(alloc, nodes, arcs, amounts)?;
    if balanced(&case.graph, &case.flow).is_err() {
        return Err(Fail::new("the flow does not balance"));
    }
    let Some(network) = Network::of(alloc, &case.graph)? else {
        return Err(Fail::new("a cycle"));
    };
    let mut flow = case.flow.copy()?;
    let found = settle(alloc, &case.graph, &network, &mut flow)?.ok_or("no numbers")?;
    Ok(flow.amounts.as_slice() == best && found.as_slice() == numbers)
}

/// Makes the flow best in the network of the graph, and finds its least tight numbers.
fn settle(
    alloc: Global,
    graph: &DiffGraph,
    network: &Network,
    flow: &mut Flow,
) -> Result<Option<Items<i64>>, NoMemory>
    requires network { network.now ≡ graph.now }
    requires flow { IsFlowOn graph.now.arcs flow.old.amounts }
    requires balances { Balances graph.now.nodes graph.now.arcs flow.old.amounts }
{
    let _what_is_known = graph.nodes;
    network.make_best(alloc, flow)?;
    network.least_tight(alloc, flow)
}

#[test]
fn flows_made_best_in_networks(rt: HostRuntime) -> Result<(), Fail> {
    let alloc = rt.alloc();
    assert!(rt; is_settled(alloc, 0, &[], &[], &[], &[])?);
    assert!(rt; is_settled(alloc, 3, &SPINE, &[1, 1, 0], &[0, 2, 1], &[0, 2, 1])?);
    assert!(rt; is_settled(alloc, 2, &PARALLEL, &[1, 2], &[0, 3], &[0, 3])?);
    assert!(rt; is_settled(alloc, 4, &APART, &[1, 1], &[1, 1], &[0, 1, 0, 2])?);
    assert!(rt; Network::of(alloc, &graph_of(alloc, 1, &[(0, 0, 1, 1)])?)?.is_none());
    assert!(rt; Network::of(alloc, &graph_of(alloc, 2, &[(0, 1, 1, 1), (1, 0, 2, 0)])?)?.is_none());
    Ok(())
}
