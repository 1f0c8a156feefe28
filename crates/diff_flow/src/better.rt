//! A best flow, found from one that is not best.

ghost use Rattle.std.specs.Prelude.{◌≡◌, ◌-◌, ◌*◌, length, IfOk, MatchOption};
ghost use Rattle.shape_graphs.specs.Flows.{Balances};
ghost use Rattle.diff_flow.specs.Amounts.{IsFlowOn};
ghost use Rattle.diff_flow.specs.Improving.{IsBestByNumbers};
ghost use Rattle.diff_flow.specs.inner.Bettering.{IsBetter};
ghost use Rattle.diff_flow.specs.inner.Routing.{AreFirst};
ghost use Rattle.diff_flow.specs.inner.Steps.{AreStepsOf};

use crate::route::{narrowed, route};
use crate::slack::slack_arc;
use crate::steps::Steps;
use compact_types::{Flow, NoMemory};
use shape_graphs::DiffGraph;
use std::alloc::Global;
use std::snapshot::Snapshot;

/// A flow that is best, if another is not.
#[derive(Drop)]
pub(crate) struct Better {
    pub(crate) flow: Flow,
    /// Numbers that are tight for it.
    pub(crate) numbers: Vec<u64>,
    /// An arc on which the other flow has an amount, and which the numbers leave slack.
    pub(crate) slack: usize,
}

/// A best flow of the graph with these steps, found from the one given, which the numbers of
/// `first` leave slack nearly nowhere; `None` exactly if that is best.
pub(crate) fn find_better(
    alloc: Global,
    graph: &Snapshot<DiffGraph>,
    steps: &Steps,
    first: &[u64],
    flow: &Flow,
) -> Result<Option<Better>, NoMemory>
    requires nodes { steps.now.nodes ≡ graph.now.value.nodes }
    requires arcs { steps.now.arcs ≡ length graph.now.value.arcs }
    requires steps { AreStepsOf graph.now.value.arcs steps.now.list.items }
    requires first { AreFirst steps.now.nodes steps.now.arcs
        ((steps.now.nodes - 1) * steps.now.reach) steps.now.list.items first.now }
    requires flow { IsFlowOn graph.now.value.arcs flow.now.amounts }
    requires balances { Balances graph.now.value.nodes graph.now.value.arcs flow.now.amounts }
    ensures { IfOk result (λ found. MatchOption found
        (IsBestByNumbers graph.now.value.nodes graph.now.value.arcs flow.now.amounts)
        (IsBetter graph.now.value steps.now flow.now.amounts)) }
{
    let _of_the_clauses = graph;
    let amounts = flow.amounts.as_slice();
    let Some(_) = slack_arc(steps, amounts, first) else {
        return Ok(None);
    };
    let mut numbers = Vec::from_slice(alloc, first)?;
    let routed = route(alloc, steps, amounts, numbers.as_mut_slice())?;
    let Some(slack) = slack_arc(steps, amounts, numbers.as_slice()) else {
        return Ok(None);
    };
    let amounts = narrowed(alloc, routed.as_slice())?;
    Ok(Some(Better {
        flow: Flow { amounts },
        numbers,
        slack,
    }))
}
