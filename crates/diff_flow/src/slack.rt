//! Arcs of a flow that numbers leave slack.

ghost use Rattle.std.specs.Prelude.{◌≡◌, ◌↔◌, ℕ, ◌+◌, ◌<◌, ◌≤◌, ◌^◌};
ghost use Rattle.std.specs.Prelude.{length, slice_index, IsTrue, MatchOption};
ghost use Rattle.diff_flow.specs.inner.Steps.{AreMet, along_at};
ghost use Rattle.diff_flow.specs.inner.Numbers.{height};
ghost use Rattle.diff_flow.specs.inner.Routing.{IsSlack};

use crate::steps::{ResidualArc, Steps};

/// An arc with an amount that is not tight; `None` exactly where the numbers meet all open steps,
/// so that they prove the flow best.
pub(crate) fn slack_arc(steps: &Steps, amounts: &[u64], numbers: &[u64]) -> Option<usize>
    requires amounts { length amounts.now ≡ steps.now.arcs }
    requires numbers { length numbers.now ≡ steps.now.nodes }
    requires low { (v : ℕ) → v < steps.now.nodes → height numbers.now v ≤ 2 ^ 60 }
    requires met { (k : ℕ) → k < steps.now.arcs →
        height numbers.now (along_at steps.now.list.items k).from
        + (along_at steps.now.list.items k).up
        ≤ height numbers.now (along_at steps.now.list.items k).to }
    ensures { MatchOption result
        (AreMet steps.now.list.items amounts.now (height numbers.now))
        (IsSlack steps.now.arcs steps.now.list.items amounts.now numbers.now) }
{
    for i in 0..steps.arcs {
        if is_slack(steps.along(i), amounts[i], numbers) {
            return Some(i);
        }
    }
    None
}

/// Whether the step's arc has an amount, and the numbers more than meet it.
pub(crate) fn is_slack(step: ResidualArc, amount: u64, numbers: &[u64]) -> bool
    requires from { step.from < length numbers.now }
    requires to { step.to < length numbers.now }
    requires low { slice_index numbers.now step.from ≤ 2 ^ 60 }
    requires up { step.up ≤ 1000 }
    ensures { IsTrue result ↔ ((0 < amount)
        × (height numbers.now step.from + step.up < height numbers.now step.to)) }
{
    amount > 0 && numbers[step.to as usize] > numbers[step.from as usize] + step.up as u64
}
