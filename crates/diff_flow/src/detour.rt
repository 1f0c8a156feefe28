//! One unit of a flow on another way: taken from an arc that is not tight, and sent along a tight
//! way between the arc's ends.

ghost use Rattle.std.specs.Prelude.{◌≡◌, ℕ, ◌<◌, ◌≤◌, ◌^◌};
ghost use Rattle.std.specs.Prelude.{length, IfOk, List};
ghost use Rattle.shape_graphs.specs.Flows.{amount_at};
ghost use Rattle.diff_flow.specs.inner.Steps.{AreMet};
ghost use Rattle.diff_flow.specs.inner.Numbers.{height};
ghost use Rattle.diff_flow.specs.inner.Routing.{IsDetour, IsSlack, net_by};

use crate::search::spread;
use crate::sending::send;
use crate::steps::{ResidualArc, Steps};
use crate::tree::{SearchTree, plant};
use compact_types::NoMemory;
use std::alloc::Global;

/// Sends one unit of the amount on arc `i` another way, which is tight where it follows arcs.
pub(crate) fn detour(
    alloc: Global,
    i: usize,
    steps: &Steps,
    amounts: &mut [u128],
    numbers: &[u64],
) -> Result<(), NoMemory>
    requires amounts { length amounts.old ≡ steps.now.arcs }
    requires few { (k : ℕ) → k < steps.now.arcs → amount_at amounts.old k ≤ 2 ^ 50 }
    requires numbers { length numbers.now ≡ steps.now.nodes }
    requires low { (v : ℕ) → v < steps.now.nodes → height numbers.now v ≤ 2 ^ 60 }
    requires slack { IsSlack steps.now.arcs steps.now.list.items amounts.old numbers.now i }
    requires best { (best : List ℕ) × ((v : ℕ) → v < steps.now.nodes →
        net_by steps.now.list.items steps.now.arcs best v
        ≡ net_by steps.now.list.items steps.now.arcs amounts.old v)
        × AreMet steps.now.list.items best (height numbers.now) }
    ensures { IfOk result (λ _. IsDetour steps.now.nodes steps.now.arcs steps.now.list.items
        numbers.now amounts.old amounts.new i) }
{
    amounts[i] -= 1;
    let step = steps.along(i);
    let mut want = vec![in alloc; 0u128; steps.nodes as usize]?;
    want[step.to as usize] = 1;
    let mut tree = SearchTree::blank(alloc, steps.nodes)?;
    plant(step.from, 1, steps.nodes, &mut tree)?;
    if !spread(steps, amounts, numbers, want.as_slice(), &mut tree)? {
        unreachable!()
    }
    send(steps, numbers, &tree, 1, amounts);
    Ok(())
}
