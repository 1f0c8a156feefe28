//! The verdict on choices, by a solver of each axis.

ghost use Rattle.std.specs.Prelude.{◌≡◌, ◌+ℤ◌, ◌<ℤ◌, ◌≤ℤ◌, IfOk, MatchOption, OnOk};
ghost use Rattle.compact_types.specs.declared.places.Axis.TheVariants as axis;
ghost use Rattle.compact_types.specs.Bests.Objective.{total_length};
ghost use Rattle.bars.specs.Solutions.{Fit, IsSound};
ghost use Rattle.shape_graphs.specs.declared.measure.Verdict.TheVariants as verdicts;
ghost use Rattle.shape_graphs.specs.Backings.{DoBack};
ghost use Rattle.shape_graphs.specs.Graphs.{IsGraphOf};
ghost use Rattle.shape_graphs.specs.Measures.{BacksBefore, IsAsked, IsBacked, IsRight};
ghost use Rattle.potentials.specs.inner.Solvers.{HasBestFor, IsSolverFor};

use crate::reached::Bounded;
use crate::solver::AxisSolver;
use crate::standing::places_of;
use bars::Bars;
use compact_types::{Extension, Flows, Key, NoMemory, Places};
use shape_graphs::{DiffGraph, Verdict};
use std::alloc::Global;

/// Makes sure that both solvers have a best flow.
pub(crate) fn make_both_best(
    alloc: Global,
    bars: &Bars,
    extension: &Extension,
    columns: &DiffGraph,
    rows: &DiffGraph,
    across: &mut AxisSolver,
    up: &mut AxisSolver,
    start: Option<&Flows>,
) -> Result<(), NoMemory>
    requires columns { IsGraphOf axis.X bars.now extension.now.choices columns.now }
    requires rows { IsGraphOf axis.Y bars.now extension.now.choices rows.now }
    requires across { IsSolverFor columns.now across.old }
    requires up { IsSolverFor rows.now up.old }
    requires start { MatchOption start (Unit {0}) (λ proof.
        BacksBefore (DoBack bars.now) extension.now.choices proof.now) }
    ensures across { OnOk result (HasBestFor columns.now across.new) }
    ensures up { OnOk result (HasBestFor rows.now up.new) }
    ensures across_levels { across.new.levels ≡ across.old.levels }
    ensures up_levels { up.new.levels ≡ up.old.levels }
{
    let _of_the_clauses = bars;
    let _of_the_clauses = extension;
    match start {
        None => {
            across.make_best(alloc, columns, None)?;
            up.make_best(alloc, rows, None)
        }
        Some(start) => {
            across.make_best(alloc, columns, Some(&start.x))?;
            up.make_best(alloc, rows, Some(&start.y))
        }
    }
}

/// The verdict by solvers that have best flows.
pub(crate) fn verdict_of(
    alloc: Global,
    bars: &Bars,
    extension: &Extension,
    columns: &DiffGraph,
    rows: &DiffGraph,
    across: &mut AxisSolver,
    up: &mut AxisSolver,
    stop_above: i64,
) -> Result<Verdict<Flows>, NoMemory>
    requires sound { IsSound bars.now }
    requires fit { Fit bars.now extension.now.choices }
    requires columns { IsGraphOf axis.X bars.now extension.now.choices columns.now }
    requires rows { IsGraphOf axis.Y bars.now extension.now.choices rows.now }
    requires across { HasBestFor columns.now across.old }
    requires up { HasBestFor rows.now up.old }
    ensures right { IfOk result (IsRight total_length bars.now extension.now.choices) }
    ensures asked { IfOk result (IsAsked stop_above) }
    ensures backed { IfOk result (IsBacked (DoBack bars.now extension.now.choices)) }
    ensures across { OnOk result (IsSolverFor columns.now across.new) }
    ensures up { OnOk result (IsSolverFor rows.now up.new) }
    ensures across_levels { across.new.levels ≡ across.old.levels }
    ensures up_levels { up.new.levels ≡ up.old.levels }
{
    let _of_the_clauses = extension;
    let _of_the_clauses = columns;
    let _of_the_clauses = rows;
    if let Some(verdict) = above(across.best(), up.best(), stop_above)? {
        return Ok(verdict);
    }
    across.find_numbers(alloc)?;
    up.find_numbers(alloc)?;
    let places = places_of(alloc, bars, across.numbers(), up.numbers())?;
    least(across.best(), up.best(), places)
}

/// That the bounds of the flows pass the stop; `None` if they do not.
fn above(x: &Bounded, y: &Bounded, stop_above: i64) -> Result<Option<Verdict<Flows>>, NoMemory>
    ensures { IfOk result (λ found. MatchOption found
        ((x.now.bound +ℤ y.now.bound) ≤ℤ stop_above)
        (λ verdict. (stop_above <ℤ (x.now.bound +ℤ y.now.bound))
        × (verdict ≡ verdicts.Above (x.now.bound +ℤ y.now.bound) stop_above
        (record { x = x.now.flow; y = y.now.flow })))) }
{
    let bound = x.bound + y.bound;
    if bound <= stop_above {
        return Ok(None);
    }
    let proof = both(x, y)?;
    Ok(Some(Verdict::Above {
        bound,
        stop: stop_above,
        proof,
    }))
}

/// The key of places that are tight for both flows.
fn least(x: &Bounded, y: &Bounded, places: Places) -> Result<Verdict<Flows>, NoMemory>
    ensures { IfOk result (λ verdict. verdict
        ≡ verdicts.Least (record { worth = x.now.bound +ℤ y.now.bound; places = places })
        (record { x = x.now.flow; y = y.now.flow })) }
{
    let proof = both(x, y)?;
    let worth = x.bound + y.bound;
    Ok(Verdict::Least {
        key: Key { worth, places },
        proof,
    })
}

/// Both flows once more.
fn both(x: &Bounded, y: &Bounded) -> Result<Flows, NoMemory>
    ensures { IfOk result (λ flows. flows ≡ record { x = x.now.flow; y = y.now.flow }) }
{
    let x = x.flow.copy()?;
    let y = y.flow.copy()?;
    Ok(Flows { x, y })
}
