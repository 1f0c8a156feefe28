//! The arcs of a graph in buckets, by the number of the node at which they begin.

ghost use Rattle.std.specs.Prelude.{◌≡◌, ◌↔◌, ◌<◌, ◌≤◌, pos, length, IsTrue, IfOk};
ghost use Rattle.shape_graphs.specs.declared.graph.TheConstants.{MOST_ARCS};
ghost use Rattle.shape_graphs.specs.Arcs.{EndsAreNodes};
ghost use Rattle.shape_graphs.specs.Flows.{number_at};
ghost use Rattle.reach_rows.specs.inner.Buckets.{HaveBuckets, AreInBuckets};

use compact_types::NoMemory;
use shape_graphs::Arc;
use std::alloc::Global;

/// For each number the last arc of its bucket, and for each arc the one before it in its bucket;
/// each by its number in the graph and one more, 0 where there is none.
#[derive(Drop)]
pub(crate) struct Buckets {
    pub(crate) last: Vec<u32>,
    pub(crate) before: Vec<u32>,
}

/// Whether there is a bucket for each number, with one for each node: the numbers of least places
/// are below that of the nodes.
pub(crate) fn have_buckets(numbers: &[i64]) -> bool
    ensures { IsTrue result ↔ HaveBuckets numbers.now }
{
    let count = numbers.len() as i64;
    numbers.iter().all(|number| 0 <= *number && *number < count)
}

/// The arcs in buckets.
pub(crate) fn buckets_of(alloc: Global, arcs: &[Arc], numbers: &[i64]) -> Result<Buckets, NoMemory>
    requires ends { EndsAreNodes (length numbers.now) arcs.now }
    requires few { length arcs.now ≤ MOST_ARCS }
    requires buckets { HaveBuckets numbers.now }
    ensures { IfOk result (λ buckets.
        AreInBuckets arcs.now numbers.now buckets.last.items buckets.before.items) }
{
    let mut last = vec![in alloc; 0u32; numbers.len()]?;
    let mut before = vec![in alloc; 0u32; arcs.len()]?;
    for i in 0..arcs.len() {
        let bucket = bucket_of(arcs[i], numbers);
        before[i] = last[bucket];
        last[bucket] = i as u32 + 1;
    }
    Ok(Buckets { last, before })
}

/// The bucket of an arc: the number of the node at which it begins.
fn bucket_of(arc: Arc, numbers: &[i64]) -> usize
    requires begins { arc.from < length numbers.now }
    requires buckets { HaveBuckets numbers.now }
    ensures is { pos result ≡ number_at numbers.now arc.from }
    ensures within { result < length numbers.now }
{
    numbers[arc.from as usize] as usize
}
