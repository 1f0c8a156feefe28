//! Lanes in one thread, and between the threads of an owner and of four thieves.

ghost use Rattle.std.specs.Prelude.{◌≡◌};

use crate::{Lane, LanePass, Stolen, Thief};
use compact_types::{Branch, Choice, Extension, Items, NoMemory};
use std::alloc::Global;
use std::sync::atomic::{AtomicU64, Ordering};
use std::test::Fail;
use std::thread::{Threads, join, map_vec, yield_now};

/// How many branches the owner puts.
const BRANCHES: u64 = 10_000;

/// A branch with one choice.
fn branch(alloc: Global, id: u64) -> Result<Branch, NoMemory> {
    let mut choices = Items::new(alloc);
    choices.push(Choice {
        s: 0,
        t: 1,
        side: 3,
    })?;
    let choices = Extension { choices };
    Ok(Branch { id, choices })
}

/// Puts a branch of this id.
fn put(alloc: Global, lane: &mut Lane, id: u64) -> Result<(), NoMemory>
    ensures { lane.new.home ≡ lane.old.home }
{
    lane.put(branch(alloc, id)?).ok().ok_or(NoMemory)
}

/// The id of a branch that was got, if it has its choice.
fn id_of(got: Option<Branch>) -> Option<u64> {
    let branch = got?;
    let whole = [Choice {
        s: 0,
        t: 1,
        side: 3,
    }];
    let is_whole = branch.choices.choices.as_slice() == whole.as_slice();
    is_whole.then_some(branch.id)
}

/// Shows that a value may be moved to another thread and shared with it.
fn both<T: Send + Sync>(_value: &T) {}

fn stolen(answer: Stolen) -> Option<Branch> {
    match answer {
        Stolen::Got(branch) => Some(branch),
        Stolen::Empty | Stolen::Again => None,
    }
}

/// Puts two branches into a lane of room two. What is stolen, taken, taken and stolen then.
fn of_room_two(alloc: Global) -> Result<[Option<u64>; 4], NoMemory> {
    let (mut lane, mut pass) = Lane::new(alloc, 2)?;
    let thief = lane.thief()?;
    both(&thief);
    put(alloc, &mut lane, 8)?;
    put(alloc, &mut lane, 7)?;
    let first = stolen(thief.steal(&mut pass));
    let second = lane.take();
    let third = lane.take();
    let fourth = stolen(thief.steal(&mut pass));
    Ok([id_of(first), id_of(second), id_of(third), id_of(fourth)])
}

/// Puts three branches into a lane that was asked for no room. What two passes steal, and what is
/// taken then.
fn of_no_room(alloc: Global) -> Result<[Option<u64>; 3], NoMemory> {
    let (mut lane, mut pass) = Lane::new(alloc, 0)?;
    let mut other = lane.split(&mut pass);
    let thief = lane.thief()?;
    for id in 0..3 {
        put(alloc, &mut lane, id)?;
    }
    let first = stolen(thief.steal(&mut other));
    let second = stolen(thief.steal(&mut pass));
    let third = lane.take();
    Ok([id_of(first), id_of(second), id_of(third)])
}

#[test]
fn first_in_first_out(rt: HostRuntime) -> Result<(), Fail> {
    let got = of_room_two(rt.alloc()).ok().ok_or("no memory")?;
    assert_eq!(rt; got, [Some(8), Some(7), None, None]);
    let got = of_no_room(rt.alloc()).ok().ok_or("no memory")?;
    assert_eq!(rt; got, [Some(0), Some(1), Some(2)]);
    Ok(())
}

/// What one thread steals with.
#[derive(Drop)]
struct Robber {
    thief: Thief,
    pass: LanePass,
    ghost of_one_lane: { pass.home.deque ≡ thief },
}

/// Puts all branches and takes some of them meanwhile, whose ids it adds to `got`.
fn put_all(alloc: Global, lane: &mut Lane, got: &mut Vec<u64>) -> Result<(), NoMemory> {
    for id in 0..BRANCHES {
        lane.put(branch(alloc, id)?).ok().ok_or(NoMemory)?;
        if id % 8 == 7 {
            if let Some(branch) = lane.take() {
                got.push(branch.id)?;
            }
        }
    }
    Ok(())
}

/// Puts all branches and tells of it, then takes what is left. The ids of what it took.
fn own(alloc: Global, mut lane: Lane, all_put: &AtomicU64) -> Result<Vec<u64>, NoMemory> {
    let mut got = Vec::new(alloc);
    let put = put_all(alloc, &mut lane, &mut got);
    all_put.store(1, Ordering::SeqCst);
    for _ in 0..u64::MAX {
        let Some(branch) = lane.take() else {
            break;
        };
        got.push(branch.id)?;
    }
    put.map(|_| got)
}

/// Steals until all branches were put and none is left. The ids of what it got.
fn steal_all(
    alloc: Global,
    thief: &Thief,
    mut pass: LanePass,
    all_put: &AtomicU64,
) -> Result<Vec<u64>, NoMemory>
    requires { pass.home.deque ≡ thief.now }
{
    let mut got = Vec::new(alloc);
    for _ in 0..u64::MAX {
        let none_follows = all_put.load(Ordering::SeqCst) == 1;
        match thief.steal(&mut pass) {
            Stolen::Got(branch) => got.push(branch.id)?,
            Stolen::Empty if none_follows => break,
            Stolen::Empty | Stolen::Again => yield_now(),
        }
    }
    Ok(got)
}

fn rob(alloc: Global, robber: Robber, all_put: &AtomicU64) -> Result<Vec<u64>, NoMemory> {
    let Robber { thief, pass } = robber;
    steal_all(alloc, &thief, pass, all_put)
}

/// Four robbers of one lane.
fn band(alloc: Global, lane: &Lane, mut pass: LanePass) -> Result<Vec<Robber>, NoMemory>
    requires { pass.home ≡ lane.now.home }
{
    let mut robbers = Vec::new(alloc);
    for _ in 0..4 {
        let thief = lane.thief()?;
        let other = lane.split(&mut pass);
        robbers.push(Robber { thief, pass: other })?;
    }
    Ok(robbers)
}

/// Counts each id in `times`. Whether the ids rise.
fn count(times: &mut [u8], got: &[u64]) -> bool {
    for id in got {
        if let Some(count) = times.get_mut(*id as usize) {
            *count = count.saturating_add(1);
        }
    }
    got.windows(2).all(|pair| pair[0] < pair[1])
}

/// What an owner and four robbers got, each on a thread of its own where one can be started.
fn share_out<R: Threads + Sync>(rt: &R, alloc: Global) -> Result<Vec<Vec<u64>>, NoMemory> {
    let (lane, pass) = Lane::new(alloc, 64)?;
    let robbers = band(alloc, &lane, pass)?;
    let all_put = AtomicU64::new(0);
    let (owned, robbed) = join(
        rt,
        || own(alloc, lane, &all_put),
        || map_vec(rt, robbers, &|robber| rob(alloc, robber, &all_put)),
    );
    let mut all = Vec::new(alloc);
    all.push(owned?)?;
    for got in robbed? {
        all.push(got?)?;
    }
    Ok(all)
}

#[test]
fn each_branch_is_got_once(rt: HostRuntime) -> Result<(), Fail> {
    let alloc = rt.alloc();
    let all = share_out(&rt, alloc).ok().ok_or("no memory")?;
    let mut times = Vec::from_elem(alloc, 0u8, BRANCHES as usize)?;
    for got in &all {
        assert!(rt; count(times.as_mut_slice(), got.as_slice()));
    }
    assert!(rt; times.iter().all(|count| *count == 1));
    Ok(())
}
