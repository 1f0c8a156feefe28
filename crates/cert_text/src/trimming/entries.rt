//! The entries of a certificate, branch by branch.

ghost use Rattle.std.specs.Prelude.{◌≡◌, ◌↔◌, ◌+◌, ◌^◌, ◌<◌, [], ◌∷◌, ◌++◌, IfOk, IsTrue, OnOk};
ghost use Rattle.cert_text.specs.inner.Outlines.{ComesFirst, HasFewAmounts, HasFirstKey};
ghost use Rattle.cert_text.specs.inner.Outlines.{BeginsCertificate, HasPointsOf, IsFurther};
ghost use Rattle.cert_text.specs.inner.Outlines.{closing_of};
ghost use Rattle.cert_text.specs.inner.Positives.{HaveFewAmounts};
ghost use Rattle.cert_text.specs.Trims.{bound_entry};

use crate::tree::CertNode;
use crate::trimming::loads::loads_of;
use board::{Board, Settled};
use compact_types::{Flows, Items, Key, NoMemory, compare};
use shape_graphs::Verdict;
use std::alloc::Global;
use std::cmp::Ordering;

/// Adds the entry of the branch that was last on the stack, and puts the branches that it opens on
/// the stack, in such an order that the one of side 0 is next.
pub(crate) fn enter(
    alloc: Global,
    board: &Board<Flows>,
    best: &Key,
    nodes: &mut Items<CertNode>,
    waiting: &mut Vec<u64>,
    id: u64,
) -> Result<(), NoMemory>
    requires best { best.now ≡ board.now.incumbent }
    requires begun { BeginsCertificate board.now nodes.old (waiting.old.items ++ id ∷ []) }
    ensures { OnOk result
        (IsFurther board.now nodes.new waiting.new.items (waiting.old.items ++ id ∷ [])) }
{
    let Some(verdict) = board.verdict(id) else {
        unreachable!()
    };
    if comes_first(verdict, best) {
        split(board, nodes, waiting, id)
    } else {
        nodes.push(closing_entry(alloc, verdict)?)
    }
}

/// Whether the verdict has a least key that comes before the incumbent, so that the branch was
/// split.
fn comes_first(verdict: &Verdict<Flows>, best: &Key) -> bool
    requires { HasPointsOf best.now verdict.now }
    ensures { IsTrue result ↔ ComesFirst best.now verdict.now }
{
    match verdict {
        Verdict::Least { key, .. } => matches!(compare(key, best), Ordering::Less),
        Verdict::Cyclic { .. } | Verdict::Above { .. } => false,
    }
}

/// The entry that closes a branch with this verdict.
fn closing_entry(alloc: Global, verdict: &Verdict<Flows>) -> Result<CertNode, NoMemory>
    requires { HasFewAmounts verdict.now }
    ensures { IfOk result (λ node. node ≡ closing_of verdict.now) }
{
    match verdict {
        Verdict::Cyclic { axis, cycle } => Ok(CertNode::Cycle {
            axis: *axis,
            arcs: cycle.arcs.copy()?,
        }),
        Verdict::Above { proof, .. } => bound_of(alloc, proof),
        Verdict::Least { proof, .. } => bound_of(alloc, proof),
    }
}

/// The bound of the flows.
fn bound_of(alloc: Global, flows: &Flows) -> Result<CertNode, NoMemory>
    requires { HaveFewAmounts flows.now }
    ensures { IfOk result (λ node. node ≡ bound_entry flows.now) }
{
    let x = loads_of(alloc, &flows.x)?;
    let y = loads_of(alloc, &flows.y)?;
    Ok(CertNode::Bound { x, y })
}

/// Adds the entry of a branch that was split, and puts its four branches on the stack.
fn split(
    board: &Board<Flows>,
    nodes: &mut Items<CertNode>,
    waiting: &mut Vec<u64>,
    id: u64,
) -> Result<(), NoMemory>
    requires begun { BeginsCertificate board.now nodes.old (waiting.old.items ++ id ∷ []) }
    requires first { HasFirstKey board.now id }
    ensures { OnOk result
        (IsFurther board.now nodes.new waiting.new.items (waiting.old.items ++ id ∷ [])) }
{
    let Some(what) = board.outcome(id) else {
        unreachable!()
    };
    let Settled::Split { first, s, t } = what else {
        unreachable!()
    };
    nodes.push(CertNode::Split { s, t })?;
    push_branches(waiting, first)
}

/// Puts four branches on the stack, from the number `first` on, the first of them last.
fn push_branches(waiting: &mut Vec<u64>, first: u64) -> Result<(), NoMemory>
    requires { first + 3 < 2 ^ 64 }
    ensures { OnOk result (waiting.new.items ≡ waiting.old.items
        ++ (first + 3) ∷ (first + 2) ∷ (first + 1) ∷ first ∷ []) }
{
    waiting.push(first + 3)?;
    waiting.push(first + 2)?;
    waiting.push(first + 1)?;
    waiting.push(first)?;
    Ok(())
}
