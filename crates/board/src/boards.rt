//! The board of a search.

ghost use Rattle.std.specs.Prelude.{◌≡◌, ◌↔◌, ◌+◌, ◌<◌, ◌^◌, ℕ};
ghost use Rattle.std.specs.Prelude.{IfOk, IsSome, IsTrue, MatchOption, MatchResult};
ghost use Rattle.std.specs.Option.{option_copied};
ghost use Rattle.board.specs.declared.entries.SettleFault.TheVariants as faults;
ghost use Rattle.board.specs.declared.entries.Settled.TheVariants as outcomes;
ghost use Rattle.board.specs.declared.standings.Standing.TheVariants as stand;
ghost use Rattle.board.specs.Boards.{BoardView, IsCaller, IsClaimAnswer, IsLatestWaiting};
ghost use Rattle.board.specs.Boards.{IsOutcome, NoneWaits, after_claim, after_settle};
ghost use Rattle.board.specs.Boards.{board_state, enlisted, opened_board, verdict_of};
ghost use Rattle.board.specs.Facts.{AreFacts, IsDrawnKey};
ghost use Rattle.board.specs.Histories.{HasNoParent, IsHeldBy, IsOutcomeOf, IsSettled, IsWaiting};
ghost use Rattle.board.specs.Histories.{branch_count, choices_of, open_count_of};
ghost use Rattle.board.specs.Verdicts.{IsPairFor, IsSoundVerdict};
ghost use Rattle.shape_graphs.specs.Measures.{BacksBefore};

mod settling;

use crate::branches::{Branches, waits};
use crate::entries::{Claim, Entry, SettleFault, Settled};
use crate::standings::Standing;
use bars::Bars;
use compact_types::{Branch, Key, NoMemory, Shape};
use shape_graphs::{Backing, Verdict};
use std::alloc::Global;
use std::marker::Model;

/// The branches of a search, the first key so far, and the history of what was done. `P` is what
/// shows that a verdict is right.
#[derive(Drop)]
pub struct Board<P: Backing> {
    shape: Shape,
    branches: Branches,
    /// The verdict of each branch by its number, once it is settled.
    verdicts: Vec<Option<Verdict<P>>>,
    /// The history, with room for what the open branches will still add.
    entries: Vec<Entry>,
    given: u32,
    incumbent: Key,
}

impl<P: Backing> Model for Board<P> {
    ghost use Rattle.board.specs.Boards.{BoardView};

    ghost Value = { BoardView P };

    ghost use Rattle.std.specs.Prelude.{◌-◌, vec_capacity, vec_len};
    ghost use Rattle.board.specs.inner.Tables.{AreBoardTables};

    ghost view = { λ board. record {
      shape = board.shape;
      entries = board.entries.items;
      given = board.given;
      incumbent = board.incumbent;
      verdicts = board.verdicts.items;
    } };

    ghost invariant = { λ board. AreBoardTables P.objective P.backs
        (record {
          shape = board.shape;
          entries = board.entries.items;
          given = board.given;
          incumbent = board.incumbent;
          verdicts = board.verdicts.items;
        })
        board.branches (vec_capacity board.entries - vec_len board.entries) };
}

impl<P: Backing> Board<P> {
    /// A new board for the shape of `bars`, on which branch 0 waits and has no choices. The key is
    /// that of a drawing from zero, and is the first so far.
    pub fn open_with(alloc: Global, bars: &Bars, key: Key) -> Result<Board<P>, NoMemory>
        requires { IsDrawnKey P.objective bars.now key }
        ensures { IfOk result (λ board. board ≡ opened_board bars.now key) }
    {
        let branches = Branches::new(alloc)?;
        let mut verdicts = Vec::new(alloc);
        verdicts.push(None)?;
        let entries = Vec::with_capacity(alloc, 2)?;
        Ok(Board {
            shape: bars.shape().copy()?,
            branches,
            verdicts,
            entries,
            given: 0,
            incumbent: key,
        })
    }

    /// The shape that is compacted. It takes no memory.
    pub fn shape(&self) -> &Shape
        ensures shape { result.now ≡ self.now.shape }
        ensures facts { AreFacts P.objective P.backs self.now }
    {
        &self.shape
    }

    /// The next caller number, counted from 1. It takes no memory.
    pub fn enlist(&mut self) -> u32
        requires { self.old.given < 4_294_967_295 }
        ensures number { result ≡ self.old.given + 1 }
        ensures board { self.new ≡ enlisted self.old }
    {
        self.given += 1;
        self.given
    }

    /// How many caller numbers were given. It takes no memory.
    pub fn given(&self) -> u32
        ensures given { result ≡ self.now.given }
        ensures facts { AreFacts P.objective P.backs self.now }
    {
        self.given
    }

    /// Claims the branch for the caller: it is a stranger where the board keeps no branch of its
    /// number or keeps other choices for it, is taken where it does not wait, and is else the
    /// caller's from now on. It takes no memory.
    pub fn claim(&mut self, who: u32, branch: &Branch) -> Claim
        requires { IsCaller self.old.given who }
        ensures { IsClaimAnswer self.old who branch.now result self.new }
    {
        if !self.branches.keeps(branch) {
            return Claim::Stranger;
        }
        if !waits(self.branches.standing_of(branch.id)) {
            return Claim::Taken;
        }
        self.hold(who, branch.id);
        Claim::Yours
    }

    /// Settles the branch that the caller holds by a verdict on its choices. A cycle or a bound
    /// closes it. A least key closes it too, unless it comes before the incumbent: then the key of
    /// a drawing becomes the incumbent, and for other places the branch is split at the pair, which
    /// is the branch pair at the key.
    pub fn settle(
        &mut self,
        who: u32,
        id: u64,
        verdict: Verdict<P>,
        pair: Option<(u32, u32)>,
    ) -> Result<Settled, SettleFault>
        requires who { IsCaller self.old.given who }
        requires verdict { id < branch_count (board_state self.old) →
            IsSoundVerdict P.objective P.backs self.old.shape
            (choices_of (board_state self.old) id) verdict }
        requires pair { id < branch_count (board_state self.old) →
            IsPairFor self.old.shape (choices_of (board_state self.old) id) self.old.incumbent
            verdict pair }
        ensures answer { MatchResult result
            (λ what. IsOutcome self.old verdict pair what
            × (self.new ≡ after_settle self.old who id verdict what))
            (λ fault. self.new ≡ self.old) }
        ensures not_yours { (result ≡ Err faults.NotYours)
            ↔ (IsHeldBy (board_state self.old) id who → ⊥) }
    {
        if !is_held_by(self.branches.standing_of(id), who) {
            return Err(SettleFault::NotYours);
        }
        let what = self.outcome_of(&verdict, pair);
        self.record(who, id, verdict, what)?;
        Ok(what)
    }

    /// How many branches are open: they wait or are held. It takes no memory.
    pub fn open_count(&self) -> u64
        ensures count { result ≡ open_count_of (board_state self.now) }
        ensures facts { AreFacts P.objective P.backs self.now }
    {
        self.branches.open_count()
    }

    /// The first key so far. It takes no memory.
    pub fn best(&self) -> &Key
        ensures key { result.now ≡ self.now.incumbent }
        ensures facts { AreFacts P.objective P.backs self.now }
    {
        &self.incumbent
    }

    /// The history: every claim and settle that changed the board, in order. It takes no memory.
    pub fn entries(&self) -> &[Entry]
        ensures entries { result.now ≡ self.now.entries }
        ensures facts { AreFacts P.objective P.backs self.now }
    {
        self.entries.as_slice()
    }

    /// The verdict that settled the branch; `None` exactly if no branch of this number is
    /// settled. It takes no memory.
    pub fn verdict(&self, id: u64) -> Option<&Verdict<P>>
        ensures verdict { option_copied result ≡ verdict_of self.now id }
        ensures settled { IsSome result ↔ IsSettled (board_state self.now) id }
        ensures facts { AreFacts P.objective P.backs self.now }
    {
        match self.verdicts.get(id as usize) {
            None => None,
            Some(verdict) => verdict.as_ref(),
        }
    }

    /// How the branch was settled; `None` exactly if no branch of this number is settled. The
    /// numbers of the four children of a split fit in a u64. It takes no memory.
    pub fn outcome(&self, id: u64) -> Option<Settled>
        ensures outcome { MatchOption result
            (IsSettled (board_state self.now) id → ⊥)
            (IsOutcomeOf (board_state self.now) id) }
        ensures children_fit { (first s t : ℕ) → result ≡ Some (outcomes.Split first s t) →
            first + 3 < 2 ^ 64 }
        ensures facts { AreFacts P.objective P.backs self.now }
    {
        self.branches.outcome(id)
    }

    /// The proof of the verdict on the branch from which this one was opened; `None` exactly for
    /// branch 0 and for a number that no branch has. It is a proof on the choices without the last,
    /// so a solver may begin with it. It takes no memory.
    pub fn proof_before(&self, id: u64) -> Option<&P>
        ensures proof { MatchOption result (HasNoParent (board_state self.now) id)
            (λ proof. BacksBefore
            (P.backs self.now.shape) (choices_of (board_state self.now) id) proof.now) }
    {
        let Some(parent) = self.branches.parent(id) else {
            return None;
        };
        match self.verdict(parent) {
            Some(Verdict::Least { proof, .. }) => Some(proof),
            Some(Verdict::Cyclic { .. }) => unreachable!(),
            Some(Verdict::Above { .. }) => unreachable!(),
            None => unreachable!(),
        }
    }

    /// A copy of the waiting branch with the greatest number; `None` exactly if no branch waits.
    pub fn latest_waiting(&self) -> Result<Option<Branch>, NoMemory>
        ensures latest { IfOk result (λ found. MatchOption found
            (NoneWaits (board_state self.now))
            (IsLatestWaiting (board_state self.now))) }
        ensures facts { AreFacts P.objective P.backs self.now }
    {
        self.branches.latest()
    }

    /// The caller holds the branch, which waits.
    fn hold(&mut self, who: u32, id: u64)
        requires caller { IsCaller self.old.given who }
        requires waits { IsWaiting (board_state self.old) id }
        ensures { self.new ≡ after_claim self.old who id }
    {
        self.branches.hold(who, id);
        self.entries.push_reserved(Entry::Claimed { who, id });
    }
}

/// Whether a branch that stands so is held by the caller.
fn is_held_by(standing: Standing, who: u32) -> bool
    ensures { IsTrue result ↔ (standing ≡ stand.Held who) }
{
    match standing {
        Standing::Held { who: holder } => holder == who,
        Standing::Waiting | Standing::Done { .. } => false,
    }
}
