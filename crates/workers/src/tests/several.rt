//! Searches with several workers, held up at gates and watched by measures.

ghost use Rattle.std.specs.Prelude.{◌≤◌};
ghost use Rattle.workers.specs.declared.several.TheConstants.{MOST_WORKERS};

use crate::{Gate, NoGate, search};
use bars::{Bars, bars_of_points};
use compact_types::{Extension, Flows, NoMemory, Places};
use potentials::{FlowWorkspace, TotalLength};
use shape_graphs::{Measure, Verdict};
use std::alloc::Global;
use std::sync::Wait;
use std::sync::atomic::{AtomicU64, Ordering};
use std::test::Fail;
use std::thread::Threads;

/// How often a worker looks whether it may go on: without another worker it never may.
const MOST_TURNS: u64 = 1_000_000_000;

/// The spine: a search splits it once.
const SPINE: [(i32, i32); 5] = [(0, 0), (0, 10), (20, 0), (20, 5), (10, 10)];

const SPINE_ENDS: [(u32, u32); 4] = [(0, 1), (0, 2), (2, 3), (1, 4)];

const SPINE_BEST: [(i32, i32); 5] = [(0, 0), (0, 1), (2, 0), (2, 1), (1, 1)];

/// The spine with a turn below it, which lets the lower arm lie either way.
const TURN: [(i32, i32); 7] = [
    (0, 0),
    (0, 10),
    (20, 0),
    (20, 15),
    (10, 10),
    (0, -5),
    (20, -5),
];

const TURN_ENDS: [(u32, u32); 7] = [(0, 1), (0, 2), (2, 3), (1, 4), (0, 5), (5, 6), (2, 6)];

const TURN_BEST: [(i32, i32); 7] = [(0, 1), (0, 3), (1, 1), (1, 2), (1, 3), (0, 0), (1, 0)];

/// Whether the word becomes at least this within a billion looks.
fn becomes(word: &AtomicU64, least: u64) -> bool {
    for _ in 0..MOST_TURNS {
        if word.load(Ordering::SeqCst) >= least {
            return true;
        }
    }
    false
}

/// Whether the search of least length that begins with the drawing of these points and pieces
/// finds these places.
fn finds<M: Measure, G: Gate, R: Threads + Wait + Sync>(
    rt: &R,
    alloc: Global,
    measure: &M,
    points: &[(i32, i32)],
    ends: &[(u32, u32)],
    workers: u32,
    gate: &G,
    best_points: &[(i32, i32)],
) -> Result<bool, NoMemory>
where
    M::Workspace: Send,
    requires some { 1 ≤ workers }
    requires few { workers ≤ MOST_WORKERS }
{
    let Some((bars, places)) = bars_of_points(alloc, points, ends)? else {
        return Ok(false);
    };
    let best = search(rt, alloc, measure, &bars, &places, workers, gate)?;
    let places = Places::at(alloc, best_points)?;
    Ok(best.key.places.xy.as_slice() == places.xy.as_slice())
}

/// Whether so many workers find the best places of the spine.
fn finds_spine<M: Measure, G: Gate, R: Threads + Wait + Sync>(
    rt: &R,
    alloc: Global,
    measure: &M,
    workers: u32,
    gate: &G,
) -> Result<bool, NoMemory>
where
    M::Workspace: Send,
    requires some { 1 ≤ workers }
    requires few { workers ≤ MOST_WORKERS }
{
    finds(
        rt,
        alloc,
        measure,
        &SPINE,
        &SPINE_ENDS,
        workers,
        gate,
        &SPINE_BEST,
    )
}

/// Any number of workers finds the same places.
#[test]
fn all_find_the_same(rt: HostRuntime) -> Result<(), Fail> {
    let alloc = rt.alloc();
    assert!(rt; finds_spine(&rt, alloc, &TotalLength, 1, &NoGate)?);
    assert!(rt; finds_spine(&rt, alloc, &TotalLength, 2, &NoGate)?);
    assert!(rt; finds_spine(&rt, alloc, &TotalLength, 3, &NoGate)?);
    assert!(rt; finds_spine(&rt, alloc, &TotalLength, 8, &NoGate)?);
    assert!(rt; finds_spine(&rt, alloc, &TotalLength, 64, &NoGate)?);
    Ok(())
}

/// Holds the first worker that comes with a branch above 0 until another has come with one.
#[derive(Drop)]
struct TwoAtOnce {
    first: AtomicU64,
    second: AtomicU64,
    gave_up: AtomicU64,
}

impl Gate for TwoAtOnce {
    fn at(&self, worker: u32, id: u64) {
        if id == 0 {
            return;
        }
        let worker = u64::from(worker);
        match self
            .first
            .compare_exchange(0, worker, Ordering::SeqCst, Ordering::SeqCst)
        {
            Ok(_) => {
                if !becomes(&self.second, 1) {
                    self.gave_up.store(1, Ordering::SeqCst);
                }
            }
            Err(first) => {
                if first != worker {
                    self.second.store(1, Ordering::SeqCst);
                }
            }
        }
    }
}

/// Two workers work at the same time: a search on one thread never passes the gate.
#[test]
fn two_workers_solve_at_once(rt: HostRuntime) -> Result<(), Fail> {
    let gate = TwoAtOnce {
        first: AtomicU64::new(0),
        second: AtomicU64::new(0),
        gave_up: AtomicU64::new(0),
    };
    assert!(rt;
        finds(
            &rt,
            rt.alloc(),
            &TotalLength,
            &SPINE,
            &SPINE_ENDS,
            2,
            &gate,
            &SPINE_BEST,
        )?
    );
    assert_eq!(rt; gate.second.load(Ordering::SeqCst), 1);
    assert_eq!(rt; gate.gave_up.load(Ordering::SeqCst), 0);
    Ok(())
}

/// A gate that lets two workers pass in one order, and a measure that notes the stops that its
/// solver is given after the gate was passed first.
#[derive(Drop)]
struct Watch {
    /// The number of the worker that came with branch 0.
    first: AtomicU64,
    /// How often that worker has come.
    first_came: AtomicU64,
    /// Whether the other has come.
    other_came: AtomicU64,
    gave_up: AtomicU64,
    /// The greatest stop for the choice of side 0 alone.
    stop: AtomicU64,
}

impl Watch {
    /// Notes that a worker was not let on.
    fn wait_for(&self, word: &AtomicU64, least: u64) {
        if !becomes(word, least) {
            self.gave_up.store(1, Ordering::SeqCst);
        }
    }
}

impl Gate for Watch {
    fn at(&self, worker: u32, id: u64) {
        let worker = u64::from(worker);
        if id == 0 {
            self.first.store(worker, Ordering::SeqCst);
        }
        if self.first.load(Ordering::SeqCst) == worker {
            self.first_came.fetch_add(1, Ordering::SeqCst);
            if id == 4 {
                self.wait_for(&self.other_came, 1);
            }
        } else {
            self.other_came.store(1, Ordering::SeqCst);
            if id == 1 {
                self.wait_for(&self.first_came, 3);
            }
        }
    }
}

impl Measure for Watch {
    type Proof = Flows;

    type Workspace = FlowWorkspace;

    fn worth(&self, bars: &Bars, places: &Places) -> i64 {
        TotalLength.worth(bars, places)
    }

    fn again(&self, alloc: Global, proof: &Flows) -> Result<Flows, NoMemory> {
        TotalLength.again(alloc, proof)
    }

    fn workspace(&self, alloc: Global, bars: &Bars) -> Result<FlowWorkspace, NoMemory> {
        TotalLength.workspace(alloc, bars)
    }

    fn solve_in(
        &self,
        alloc: Global,
        bars: &Bars,
        workspace: &mut FlowWorkspace,
        extension: &Extension,
        start: Option<&Flows>,
        stop_above: i64,
    ) -> Result<Verdict<Flows>, NoMemory> {
        if let [choice] = extension.choices.as_slice() {
            if choice.side == 0 && self.first_came.load(Ordering::SeqCst) > 0 {
                self.stop
                    .fetch_max(stop_above.unsigned_abs(), Ordering::SeqCst);
            }
        }
        TotalLength.solve_in(alloc, bars, workspace, extension, start, stop_above)
    }

    fn solve(
        &self,
        alloc: Global,
        bars: &Bars,
        extension: &Extension,
        start: Option<&Flows>,
        stop_above: i64,
    ) -> Result<Verdict<Flows>, NoMemory> {
        TotalLength.solve(alloc, bars, extension, start, stop_above)
    }
}

/// The first incumbent is 9 long, and side 3 of the pair gives 8. The other worker claims side 0
/// before that was found, and solves it after: it reads the word again, and may stop above 8.
#[test]
fn the_word_is_read_after_the_claim(rt: HostRuntime) -> Result<(), Fail> {
    let watch = Watch {
        first: AtomicU64::new(0),
        first_came: AtomicU64::new(0),
        other_came: AtomicU64::new(0),
        gave_up: AtomicU64::new(0),
        stop: AtomicU64::new(0),
    };
    assert!(rt;
        finds(
            &rt,
            rt.alloc(),
            &watch,
            &TURN,
            &TURN_ENDS,
            2,
            &watch,
            &TURN_BEST
        )?
    );
    assert_eq!(rt; watch.gave_up.load(Ordering::SeqCst), 0);
    assert_eq!(rt; watch.stop.load(Ordering::SeqCst), 8);
    Ok(())
}

/// A measure to whose solver memory is refused at the choice of side 1 alone.
struct Refused;

impl Measure for Refused {
    type Proof = Flows;

    type Workspace = FlowWorkspace;

    fn worth(&self, bars: &Bars, places: &Places) -> i64 {
        TotalLength.worth(bars, places)
    }

    fn again(&self, alloc: Global, proof: &Flows) -> Result<Flows, NoMemory> {
        TotalLength.again(alloc, proof)
    }

    fn workspace(&self, alloc: Global, bars: &Bars) -> Result<FlowWorkspace, NoMemory> {
        TotalLength.workspace(alloc, bars)
    }

    fn solve_in(
        &self,
        alloc: Global,
        bars: &Bars,
        workspace: &mut FlowWorkspace,
        extension: &Extension,
        start: Option<&Flows>,
        stop_above: i64,
    ) -> Result<Verdict<Flows>, NoMemory> {
        let verdict = TotalLength.solve_in(alloc, bars, workspace, extension, start, stop_above)?;
        match extension.choices.as_slice() {
            [choice] if choice.side == 1 => Err(NoMemory),
            _ => Ok(verdict),
        }
    }

    fn solve(
        &self,
        alloc: Global,
        bars: &Bars,
        extension: &Extension,
        start: Option<&Flows>,
        stop_above: i64,
    ) -> Result<Verdict<Flows>, NoMemory> {
        TotalLength.solve(alloc, bars, extension, start, stop_above)
    }
}

/// A worker to whom memory is refused stops all others, and there is no answer.
#[test]
fn want_of_memory_stops_all(rt: HostRuntime) -> Result<(), Fail> {
    let alloc = rt.alloc();
    let by_two = finds_spine(&rt, alloc, &Refused, 2, &NoGate);
    assert_eq!(rt; by_two, Err(NoMemory));
    let by_four = finds_spine(&rt, alloc, &Refused, 4, &NoGate);
    assert_eq!(rt; by_four, Err(NoMemory));
    Ok(())
}
