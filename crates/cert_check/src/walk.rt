//! A walk over the entries of a certificate, in preorder, with the branch at hand.

ghost use Rattle.std.specs.Prelude.{◌≡◌, ℕ, ◌<◌, [], ◌∷◌, ◌++◌, length};
ghost use Rattle.std.specs.Prelude.{All, IfOk, MatchBool, OnOk};
ghost use Rattle.compact_types.specs.declared.limits.TheConstants.{MOST_CHOICES};
ghost use Rattle.compact_types.specs.Refusals.{IfFault};
ghost use Rattle.bars.specs.Segments.{IsPair};
ghost use Rattle.bars.specs.Solutions.{with_choice};
ghost use Rattle.shape_graphs.specs.Paths.{IsCycle};
ghost use Rattle.cert_text.specs.Accepting.{AreGood, IsGoodEntry, opened_by};
ghost use Rattle.cert_text.specs.Loads.{IsInRange};
ghost use Rattle.cert_text.specs.Trees.{IsShallow, IsWhole};
ghost use Rattle.cert_check.specs.declared.fault.CheckFault.TheVariants as faults;
ghost use Rattle.cert_check.specs.Faults.{IsEntryFault, IsFirstBreak, IsFirstIn};
ghost use Rattle.cert_check.specs.inner.Branches.{HasRoomToSplit, IsAnswer, IsAt, IsNext, arcs_on};
ghost use Rattle.cert_check.specs.inner.Branches.{later};

use crate::answer::Answer;
use crate::bounds::check_bound;
use crate::cycles::first_break;
use crate::fault::CheckFault;
use crate::sides::next_branch;
use bars::Bars;
use cert_text::CertNode;
use compact_types::{Axis, Choice, Refusal};
use shape_graphs::GrowingGraphs;
use std::alloc::Global;

/// Checks the entries one after the other, each for the choices of its branch.
pub(crate) fn walk(
    alloc: Global,
    bars: &Bars,
    answer: &Answer<'_>,
    nodes: &[CertNode],
) -> Result<(), Refusal<CheckFault>>
    requires answer { IsAnswer bars.now answer.now.places.now answer.now.length }
    requires whole { IsWhole nodes.now }
    requires in_range { All IsInRange nodes.now }
    requires shallow { IsShallow MOST_CHOICES nodes.now }
    ensures good { OnOk result (AreGood bars.now answer.now.places.now ([] ∷ []) nodes.now) }
    ensures fault { IfFault result
        (IsFirstIn bars.now answer.now.places.now 0 ([] ∷ []) nodes.now) }
{
    let mut branch = GrowingGraphs::new(alloc, bars)?;
    for entry in 0..nodes.len() {
        let number = entry as u64;
        match step(alloc, bars, answer, &mut branch, number, &nodes[entry]) {
            Ok(more) => {
                if !more {
                    return Ok(());
                }
            }
            Err(refusal) => return Err(refusal),
        }
    }
    unreachable!()
}

/// Checks the entry, and goes on to the next branch; whether there is one.
fn step(
    alloc: Global,
    bars: &Bars,
    answer: &Answer<'_>,
    branch: &mut GrowingGraphs,
    entry: u64,
    node: &CertNode,
) -> Result<bool, Refusal<CheckFault>>
    requires answer { IsAnswer bars.now answer.now.places.now answer.now.length }
    requires at { IsAt bars.now branch.old }
    requires in_range { IsInRange node.now }
    requires room { HasRoomToSplit node.now branch.old.choices }
    ensures good { IfOk result (λ _.
        IsGoodEntry bars.now branch.old.choices answer.now.places.now node.now) }
    ensures fault { IfFault result
        (IsEntryFault bars.now branch.old.choices answer.now.places.now entry node.now) }
    ensures next { IfOk result (λ more. MatchBool more
        (IsNext bars.now (opened_by node.now branch.old.choices ++ later branch.old.choices)
        branch.new)
        (opened_by node.now branch.old.choices ++ later branch.old.choices ≡ [])) }
{
    match node {
        CertNode::Split { s, t } => {
            split(bars, branch, entry, *s, *t)?;
            Ok(true)
        }
        CertNode::Bound { x, y } => {
            check_bound(
                alloc,
                bars,
                answer,
                branch,
                entry,
                x.as_slice(),
                y.as_slice(),
            )?;
            let more = next_branch(branch, bars)?;
            Ok(more)
        }
        CertNode::Cycle { axis, arcs } => {
            check_cycle(branch, entry, *axis, arcs.as_slice())?;
            let more = next_branch(branch, bars)?;
            Ok(more)
        }
    }
}

/// Checks that the two are a pair, and goes on to the branch of its first side.
fn split(
    bars: &Bars,
    branch: &mut GrowingGraphs,
    entry: u64,
    s: u32,
    t: u32,
) -> Result<(), Refusal<CheckFault>>
    requires at { IsAt bars.now branch.old }
    requires room { length branch.old.choices < MOST_CHOICES }
    ensures good { OnOk result (IsPair bars.now s t) }
    ensures fault { IfFault result (λ fault.
        (IsPair bars.now s t → ⊥) × (fault ≡ faults.BadPair entry)) }
    ensures at { OnOk result (IsAt bars.now branch.new) }
    ensures choices { OnOk result (branch.new.choices ≡ with_choice branch.old.choices s t 0) }
{
    if !bars.is_pair(s, t) {
        return Err(Refusal::Fault(CheckFault::BadPair { entry }));
    }
    branch.push(bars, Choice { s, t, side: 0 })?;
    Ok(())
}

/// Checks that the arcs are a cycle of the graph of the axis.
fn check_cycle(
    branch: &GrowingGraphs,
    entry: u64,
    axis: Axis,
    walk: &[u32],
) -> Result<(), Refusal<CheckFault>>
    ensures good { OnOk result (IsCycle (arcs_on axis branch.now) walk.now) }
    ensures fault { IfFault result (λ fault. (place : ℕ)
        × IsFirstBreak (arcs_on axis branch.now) walk.now place
        × (fault ≡ faults.NotACycle entry place)) }
{
    match first_break(branch.graph_on(axis).graph.arcs.as_slice(), walk) {
        None => Ok(()),
        Some(place) => {
            let place = place as u64;
            Err(Refusal::Fault(CheckFault::NotACycle { entry, place }))
        }
    }
}
