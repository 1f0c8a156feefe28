//! What a settle does to a board.

ghost use Rattle.std.specs.Prelude.{◌≡◌, ◌↔◌, ◌+◌, ◌<◌, ◌≤◌, [], ◌∷◌, ◌++◌, length};
ghost use Rattle.std.specs.Prelude.{IfOk, IsTrue, OnErr, OnOk, vec_capacity, vec_len};
ghost use Rattle.compact_types.specs.declared.places.Key.{Key as AnyKey};
ghost use Rattle.compact_types.specs.Orders.{IsBefore};
ghost use Rattle.shape_graphs.specs.Measures.{MatchVerdict};
ghost use Rattle.board.specs.declared.entries.Entry.TheVariants as entry;
ghost use Rattle.board.specs.declared.entries.Settled.TheVariants as outcomes;
ghost use Rattle.board.specs.Boards.{IsOutcome, after_settle, incumbent_after};
ghost use Rattle.board.specs.inner.Tables.{HasFittingPlaces, IsSettling};

use super::Board;
use crate::entries::{Entry, Settled};
use compact_types::{Key, NoMemory, compare};
use shape_graphs::{Backing, Verdict};
use std::cmp::Ordering;

impl<P: Backing> Board<P> {
    /// The outcome of a branch with this verdict and pair.
    pub(crate) fn outcome_of(&self, verdict: &Verdict<P>, pair: Option<(u32, u32)>) -> Settled
        requires { HasFittingPlaces self.now.shape verdict.now }
        ensures { IsOutcome self.now verdict.now pair result }
    {
        let Verdict::Least { key, .. } = verdict else {
            return Settled::Closed;
        };
        if !self.improves(key) {
            return Settled::Closed;
        }
        match pair {
            None => Settled::Improved,
            Some((s, t)) => Settled::Split {
                first: self.branches.count(),
                s,
                t,
            },
        }
    }

    /// Whether the key comes before the incumbent.
    fn improves(&self, key: &Key) -> bool
        requires { length key.now.places.xy ≡ self.now.shape.plan.vertices }
        ensures { IsTrue result ↔ IsBefore key.now self.now.incumbent }
    {
        matches!(compare(key, &self.incumbent), Ordering::Less)
    }

    /// Settles the branch with this outcome.
    pub(crate) fn record(
        &mut self,
        who: u32,
        id: u64,
        verdict: Verdict<P>,
        what: Settled,
    ) -> Result<(), NoMemory>
        requires { IsSettling P.objective P.backs self.old who id verdict what }
        ensures ok { OnOk result (self.new ≡ after_settle self.old who id verdict what) }
        ensures err { OnErr result (self.new ≡ self.old) }
    {
        match what {
            Settled::Closed => {
                self.close(who, id, verdict);
                Ok(())
            }
            Settled::Improved => self.improve(who, id, verdict),
            Settled::Split { first, s, t } => self.split(who, id, verdict, first, s, t),
        }
    }

    /// Closes the branch, which opens no other and leaves the incumbent.
    fn close(&mut self, who: u32, id: u64, verdict: Verdict<P>)
        requires { IsSettling P.objective P.backs self.old who id verdict outcomes.Closed }
        ensures { self.new ≡ after_settle self.old who id verdict outcomes.Closed }
    {
        let what = Settled::Closed;
        self.branches.finish(who, id, what);
        self.verdicts[id as usize] = Some(verdict);
        push_settled(&mut self.entries, who, id, what);
    }

    /// Settles the branch, whose least key becomes the incumbent.
    fn improve(&mut self, who: u32, id: u64, verdict: Verdict<P>) -> Result<(), NoMemory>
        requires { IsSettling P.objective P.backs self.old who id verdict outcomes.Improved }
        ensures ok { OnOk result
            (self.new ≡ after_settle self.old who id verdict outcomes.Improved) }
        ensures err { OnErr result (self.new ≡ self.old) }
    {
        let what = Settled::Improved;
        let key = improving_key(&verdict)?;
        self.incumbent = key;
        self.branches.finish(who, id, what);
        self.verdicts[id as usize] = Some(verdict);
        push_settled(&mut self.entries, who, id, what);
        Ok(())
    }

    /// Splits the branch at the pair: its four children, from the number `first` on, wait.
    fn split(
        &mut self,
        who: u32,
        id: u64,
        verdict: Verdict<P>,
        first: u64,
        s: u32,
        t: u32,
    ) -> Result<(), NoMemory>
        requires { IsSettling P.objective P.backs self.old who id verdict
            (outcomes.Split first s t) }
        ensures ok { OnOk result
            (self.new ≡ after_settle self.old who id verdict (outcomes.Split first s t)) }
        ensures err { OnErr result (self.new ≡ self.old) }
    {
        let what = Settled::Split { first, s, t };
        let open = self.branches.open_count() as usize;
        let more = open.saturating_mul(2).saturating_add(8);
        self.entries.reserve(more)?;
        self.verdicts.reserve(4)?;
        self.branches.split(who, id, s, t)?;
        push_none(&mut self.verdicts);
        self.verdicts[id as usize] = Some(verdict);
        push_settled(&mut self.entries, who, id, what);
        Ok(())
    }
}

/// A copy of the key of a verdict that improves the incumbent: a least key alone does.
fn improving_key<P: Backing>(verdict: &Verdict<P>) -> Result<Key, NoMemory>
    requires { MatchVerdict verdict.now ⊥ ⊥ (Unit {0}) }
    ensures { (before : AnyKey) → IfOk result (λ key.
        key ≡ incumbent_after before verdict.now outcomes.Improved) }
{
    match verdict {
        Verdict::Least { key, .. } => key.copy(),
        Verdict::Cyclic { .. } => unreachable!(),
        Verdict::Above { .. } => unreachable!(),
    }
}

/// Adds the entry of a settle, where there is room.
fn push_settled(entries: &mut Vec<Entry>, who: u32, id: u64, what: Settled)
    requires { vec_len entries.old < vec_capacity entries.old }
    ensures items { entries.new.items ≡ entries.old.items ++ entry.Settled who id what ∷ [] }
    ensures len { vec_len entries.new ≡ vec_len entries.old + 1 }
    ensures capacity { vec_capacity entries.new ≡ vec_capacity entries.old }
{
    entries.push_reserved(Entry::Settled { who, id, what });
}

/// Adds the places for the verdicts of four branches, where there is room.
fn push_none<T>(list: &mut Vec<Option<T>>)
    requires { vec_len list.old + 4 ≤ vec_capacity list.old }
    ensures { list.new.items ≡ list.old.items ++ None ∷ None ∷ None ∷ None ∷ [] }
{
    list.push_reserved(None);
    list.push_reserved(None);
    list.push_reserved(None);
    list.push_reserved(None);
}
