//! The steps and the longest walks of a graph that has got one arc more at its end, and numbers to
//! begin with there.

ghost use Rattle.std.specs.Prelude.{◌≡◌, ◌<◌, ◌≤◌, ◌-◌, ◌*◌, ℕ, pos, ◌≤ℤ◌, length, IfOk};
ghost use Rattle.std.specs.Prelude.{MatchOption, OnErr};
ghost use Rattle.shape_graphs.specs.Flows.{number_at};
ghost use Rattle.shape_graphs.specs.Paths.{HasCycle};
ghost use Rattle.diff_flow.specs.Walks.{AreLeastBefore, HasOneMoreArc};
ghost use Rattle.diff_flow.specs.inner.Networks.{AreMadeFor};
ghost use Rattle.diff_flow.specs.inner.Numbers.{height};
ghost use Rattle.diff_flow.specs.inner.Routing.{AreFirst};

use crate::lengthen::lengthen;
use crate::steps::Steps;
use compact_types::{Items, NoMemory};
use shape_graphs::DiffGraph;
use std::alloc::Global;
use std::snapshot::Snapshot;

/// Adds the steps of the last arc of the graph. Answers the longest walks with it, `None` exactly
/// if the graph has a cycle; then, and without memory, the steps stay those of the graph before.
pub(crate) fn grow(
    alloc: Global,
    before: &Snapshot<DiffGraph>,
    graph: &DiffGraph,
    steps: &mut Steps,
    walks: &[u64],
) -> Result<Option<Items<u64>>, NoMemory>
    requires more { HasOneMoreArc before.now.value graph.now }
    requires made { AreMadeFor before.now.value steps.old walks.now }
    ensures grown { IfOk result (λ found. MatchOption found
        ((HasCycle graph.now.arcs) × AreMadeFor before.now.value steps.new walks.now)
        (AreMadeFor graph.now steps.new)) }
    ensures refused { OnErr result (AreMadeFor before.now.value steps.new walks.now) }
{
    let _of_the_clauses = before;
    let arc = graph.arcs.as_slice()[steps.arcs];
    let mut longer = Vec::from_slice(alloc, walks)?;
    steps.push(arc)?;
    match lengthen(alloc, steps, arc.from, longer.as_mut_slice()) {
        Ok(fits) => {
            if fits {
                return Ok(Some(Items::from_vec(longer)));
            }
            steps.pop();
            Ok(None)
        }
        Err(refusal) => {
            steps.pop();
            Err(refusal)
        }
    }
}

/// The given numbers, which are least without the last arc, raised until they meet it too; the
/// longest walks where they would pass the limit.
pub(crate) fn first_numbers(
    alloc: Global,
    graph: &Snapshot<DiffGraph>,
    steps: &Steps,
    walks: &[u64],
    numbers: &[i64],
) -> Result<Vec<u64>, NoMemory>
    requires made { AreMadeFor graph.now.value steps.now walks.now }
    requires one_for_each { length numbers.now ≡ graph.now.value.nodes }
    requires least { AreLeastBefore graph.now.value.nodes graph.now.value.arcs
        (number_at numbers.now) }
    ensures { IfOk result (λ first. AreFirst steps.now.nodes steps.now.arcs
        ((steps.now.nodes - 1) * steps.now.reach) steps.now.list.items first.items) }
{
    let _of_the_clauses = graph;
    let mut first = unsigned(alloc, numbers)?;
    let start = steps.along(steps.arcs - 1).from;
    if lengthen(alloc, steps, start, first.as_mut_slice())? {
        return Ok(first);
    }
    Ok(Vec::from_slice(alloc, walks)?)
}

/// The same numbers without a sign.
fn unsigned(alloc: Global, numbers: &[i64]) -> Result<Vec<u64>, NoMemory>
    requires { (v : ℕ) → v < length numbers.now → pos 0 ≤ℤ number_at numbers.now v }
    ensures len { IfOk result (λ list. length list.items ≡ length numbers.now) }
    ensures each { IfOk result (λ list. (v : ℕ) → v < length numbers.now →
        pos (height list.items v) ≡ number_at numbers.now v) }
{
    let mut list = Vec::with_capacity(alloc, numbers.len())?;
    for i in 0..numbers.len() {
        list.push(numbers[i] as u64)?;
    }
    Ok(list)
}
