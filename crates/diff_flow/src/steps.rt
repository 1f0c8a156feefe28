//! The steps that numbers on the nodes have to meet, and a search takes: for each arc one forwards
//! over it, and one backwards.

ghost use Rattle.std.specs.Prelude.{◌≡◌, ◌≤◌, ◌<◌, ◌+◌, ◌-◌, ◌*◌, ◌^◌, ◌≤ℤ◌, pos, ℕ, length};
ghost use Rattle.std.specs.Prelude.{slice_index, slice_set, take, IfOk, OnErr, OnOk};
ghost use Rattle.shape_graphs.specs.declared.graph.TheConstants.{MOST_ARCS};
ghost use Rattle.shape_graphs.specs.Arcs.{arc_at, AreArcsWithin, FitsGraph, IsArcWithin};
ghost use Rattle.diff_flow.specs.inner.Growing.{AreRowsMore};
ghost use Rattle.diff_flow.specs.inner.Steps.{
  AreOneMore,
  ArePaired,
  AreRows,
  AreStepsOf,
  AreStepsWithin,
  IsAgainstArc,
  IsAlongArc,
  IsStepWithin,
  along_at,
  step_at,
};

use compact_types::NoMemory;
use shape_graphs::{Arc, DiffGraph};
use std::alloc::Global;

/// That the number of `to` and `down` is at least that of `from` and `up`. Along an arc `up` is its
/// least, against it `down` is.
#[derive(Clone, Copy)]
pub(crate) struct ResidualArc {
    pub(crate) from: u32,
    pub(crate) to: u32,
    pub(crate) arc: u32,
    pub(crate) up: u32,
    pub(crate) down: u32,
}

/// The steps of a graph: for each arc the one along it, and then the one against it; and rows of
/// them by the node that they begin at.
#[derive(Drop)]
pub(crate) struct Steps {
    pub(crate) nodes: u32,
    pub(crate) arcs: usize,
    pub(crate) reach: u32,
    pub(crate) list: Vec<ResidualArc>,
    pub(crate) rows: Rows,
    pub(crate) ghost few: { length list.items ≤ 2_000_000_000 },
    pub(crate) ghost low: { reach ≤ 1000 },
    pub(crate) ghost short: { (nodes - 1) * reach ≤ 2 ^ 42 },
    pub(crate) ghost within: { AreStepsWithin nodes arcs reach list.items },
    pub(crate) ghost paired: { ArePaired arcs list.items },
    pub(crate) ghost by_node: { AreRows nodes (length list.items) list.items
        rows.last.items rows.before.items },
}

impl Steps {
    /// The step of this number.
    pub(crate) fn at(&self, number: usize) -> ResidualArc
        requires { number < length self.now.list.items }
        ensures is { result ≡ step_at self.now.list.items number }
        ensures within { IsStepWithin self.now.nodes self.now.arcs self.now.reach result }
    {
        self.list[number]
    }

    /// The step along the arc of this number.
    pub(crate) fn along(&self, arc: usize) -> ResidualArc
        requires { arc < self.now.arcs }
        ensures is { result ≡ along_at self.now.list.items arc }
        ensures within { IsStepWithin self.now.nodes self.now.arcs self.now.reach result }
    {
        self.list[2 * arc]
    }

    /// Adds the two steps of one arc more. Without memory the steps stay as they were.
    pub(crate) fn push(&mut self, arc: Arc) -> Result<(), NoMemory>
        requires few { self.old.arcs < MOST_ARCS }
        requires fits { FitsGraph self.old.nodes arc }
        ensures nodes { self.new.nodes ≡ self.old.nodes }
        ensures reach { self.old.reach ≤ self.new.reach }
        ensures arcs { OnOk result (self.new.arcs ≡ self.old.arcs + 1) }
        ensures list { OnOk result
            (AreOneMore arc self.old.arcs self.old.list.items self.new.list.items) }
        ensures kept_arcs { OnErr result (self.new.arcs ≡ self.old.arcs) }
        ensures kept_list { OnErr result (self.new.list.items ≡ self.old.list.items) }
    {
        let number = self.arcs as u32;
        push_steps(&mut self.list, arc, number)?;
        match self.rows.push(arc.from, arc.to) {
            Ok(()) => {
                self.reach = self.reach.max(least_of(arc));
                self.arcs += 1;
                Ok(())
            }
            Err(refusal) => {
                self.list.truncate(2 * self.arcs);
                Err(refusal)
            }
        }
    }

    /// Takes the two steps of the last arc away.
    pub(crate) fn pop(&mut self)
        requires { 0 < self.old.arcs }
        ensures nodes { self.new.nodes ≡ self.old.nodes }
        ensures reach { self.new.reach ≡ self.old.reach }
        ensures arcs { self.new.arcs + 1 ≡ self.old.arcs }
        ensures list { self.new.list.items ≡ take (2 * self.new.arcs) self.old.list.items }
    {
        let arcs = self.arcs - 1;
        let step = self.along(arcs);
        self.rows.pop(step.from, step.to);
        self.list.truncate(2 * arcs);
        self.arcs = arcs;
    }
}

/// Rows of steps: for each node the last of its steps, and for each step the next before it of the
/// same node; each as its number and one more, 0 where there is none.
#[derive(Drop)]
pub(crate) struct Rows {
    pub(crate) last: Vec<u32>,
    pub(crate) before: Vec<u32>,
}

impl Rows {
    /// Adds two steps, which begin at these nodes. Without memory the rows stay as they were.
    fn push(&mut self, from: u32, to: u32) -> Result<(), NoMemory>
        requires from { from < length self.old.last.items }
        requires to { to < length self.old.last.items }
        requires few { length self.old.before.items + 2 ≤ 2_000_000_000 }
        ensures ok { OnOk result (AreRowsMore from to self.old.last.items self.old.before.items
            self.new.last.items self.new.before.items) }
        ensures kept_last { OnErr result (self.new.last.items ≡ self.old.last.items) }
        ensures kept_before { OnErr result (self.new.before.items ≡ self.old.before.items) }
    {
        let entry = self.before.len() as u32 + 1;
        let first = self.last[from as usize];
        let second = if to == from {
            entry
        } else {
            self.last[to as usize]
        };
        self.before.push(first)?;
        if self.before.push(second).is_err() {
            self.before.pop();
            return Err(NoMemory);
        }
        self.last[from as usize] = entry;
        self.last[to as usize] = entry + 1;
        Ok(())
    }

    /// Takes the last two steps away, which begin at these nodes.
    fn pop(&mut self, from: u32, to: u32)
        requires from { from < length self.old.last.items }
        requires to { to < length self.old.last.items }
        requires some { 2 ≤ length self.old.before.items }
        ensures last { self.new.last.items ≡ slice_set
            (slice_set self.old.last.items to
            (slice_index self.old.before.items (length self.old.before.items - 1))) from
            (slice_index self.old.before.items (length self.old.before.items - 2)) }
        ensures before { self.new.before.items
            ≡ take (length self.old.before.items - 2) self.old.before.items }
    {
        let count = self.before.len() - 2;
        self.last[to as usize] = self.before[count + 1];
        self.last[from as usize] = self.before[count];
        self.before.truncate(count);
    }
}

/// The steps of the graph.
pub(crate) fn steps_of(alloc: Global, graph: &DiffGraph) -> Result<Steps, NoMemory>
    ensures steps { IfOk result (λ steps. AreStepsOf graph.now.arcs steps.list.items) }
    ensures nodes { IfOk result (λ steps. steps.nodes ≡ graph.now.nodes) }
    ensures arcs { IfOk result (λ steps. steps.arcs ≡ length graph.now.arcs) }
{
    let arcs = graph.arcs.as_slice();
    let reach = greatest_least(arcs);
    let list = list_of(alloc, arcs)?;
    let rows = rows_of(alloc, graph.nodes, &list)?;
    Ok(Steps {
        nodes: graph.nodes,
        arcs: arcs.len(),
        reach,
        list,
        rows,
    })
}

/// The greatest least of the arcs, 0 where there are none.
fn greatest_least(arcs: &[Arc]) -> u32
    requires { AreArcsWithin arcs.now }
    ensures low { result ≤ 1000 }
    ensures greatest { (i : ℕ) → i < length arcs.now → (arc_at arcs.now i).least ≤ℤ pos result }
{
    let mut greatest = 0;
    for i in 0..arcs.len() {
        greatest = greatest.max(least_of(arcs[i]));
    }
    greatest
}

/// The least of the arc.
fn least_of(arc: Arc) -> u32
    requires { IsArcWithin arc }
    ensures least { pos result ≡ arc.least }
    ensures low { result ≤ 1000 }
{
    arc.least as u32
}

/// For each arc the step along it, and then the one against it.
fn list_of(alloc: Global, arcs: &[Arc]) -> Result<Vec<ResidualArc>, NoMemory>
    requires few { length arcs.now ≤ MOST_ARCS }
    requires within { AreArcsWithin arcs.now }
    ensures { IfOk result (λ list. AreStepsOf arcs.now list.items) }
{
    let mut list = Vec::with_capacity(alloc, 2 * arcs.len())?;
    for i in 0..arcs.len() {
        push_steps(&mut list, arcs[i], i as u32)?;
    }
    Ok(list)
}

/// Adds the two steps of the arc of this number at the end. Without memory the list stays as it
/// was.
fn push_steps(list: &mut Vec<ResidualArc>, arc: Arc, number: u32) -> Result<(), NoMemory>
    requires { IsArcWithin arc }
    ensures ok { OnOk result (AreOneMore arc number list.old.items list.new.items) }
    ensures err { OnErr result (list.new.items ≡ list.old.items) }
{
    list.push(along(arc, number))?;
    if list.push(against(arc, number)).is_err() {
        list.pop();
        return Err(NoMemory);
    }
    Ok(())
}

/// The step along the arc of this number.
fn along(arc: Arc, number: u32) -> ResidualArc
    requires { IsArcWithin arc }
    ensures { IsAlongArc arc number result }
{
    ResidualArc {
        from: arc.from,
        to: arc.to,
        arc: number,
        up: least_of(arc),
        down: 0,
    }
}

/// The step against the arc of this number.
fn against(arc: Arc, number: u32) -> ResidualArc
    requires { IsArcWithin arc }
    ensures { IsAgainstArc arc number result }
{
    ResidualArc {
        from: arc.to,
        to: arc.from,
        arc: number,
        up: 0,
        down: least_of(arc),
    }
}

/// Rows of the steps by the node that they begin at.
fn rows_of(alloc: Global, nodes: u32, list: &[ResidualArc]) -> Result<Rows, NoMemory>
    requires few { length list.now ≤ 2_000_000_000 }
    requires inside { (k : ℕ) → k < length list.now → (step_at list.now k).from < nodes }
    ensures { IfOk result (λ rows.
        AreRows nodes (length list.now) list.now rows.last.items rows.before.items) }
{
    let mut last = vec![in alloc; 0u32; nodes as usize]?;
    let mut before = Vec::with_capacity(alloc, list.len())?;
    for k in 0..list.len() {
        let from = list[k].from as usize;
        let was = last[from];
        before.push(was)?;
        last[from] = k as u32 + 1;
    }
    Ok(Rows { last, before })
}
