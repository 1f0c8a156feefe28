//! The order of keys, in which the best drawing of a shape is the first.

ghost use Rattle.std.specs.Prelude.{◌≡◌, length, ◌⊎◌};
ghost use Rattle.std.specs.Ordering.{MatchOrdering};
ghost use Rattle.compact_types.specs.declared.places.Key.{Key as AnyKey};
ghost use Rattle.compact_types.specs.Orders as orders;
ghost use Rattle.compact_types.specs.Orders.{IsBefore, IsListBefore, IsPointBefore, SaysOrder};

use crate::places::{Key, Places, Point};
use std::cmp::Ordering;

/// The order of two keys with equally many points: that of their worths, and between equal worths
/// that of the numbers x0, y0, x1, y1, .. It takes no memory.
#[tactic(auto, using(crate::proofs::CompareLemmas::decided_keys))]
pub fn compare(a: &Key, b: &Key) -> Ordering
    requires { length a.now.places.xy ≡ length b.now.places.xy }
    ensures { SaysOrder a.now b.now result }
{
    match a.worth.cmp(&b.worth) {
        Ordering::Equal => compare_places(&a.places, &b.places),
        order => order,
    }
}

/// The order of equally many places, by the first number that differs.
fn compare_places(a: &Places, b: &Places) -> Ordering
    requires { length a.now.xy ≡ length b.now.xy }
    ensures { MatchOrdering result
        (IsListBefore (orders.numbers_of a.now.xy) (orders.numbers_of b.now.xy))
        (a.now ≡ b.now)
        (IsListBefore (orders.numbers_of b.now.xy) (orders.numbers_of a.now.xy)) }
{
    compare_lists(a.xy.as_slice(), b.xy.as_slice())
}

/// The order of two equally long lists of points, by the first that differs.
fn compare_lists(a: &[Point], b: &[Point]) -> Ordering
    requires { length a.now ≡ length b.now }
    ensures { MatchOrdering result
        (IsListBefore (orders.numbers_of a.now) (orders.numbers_of b.now))
        (a.now ≡ b.now)
        (IsListBefore (orders.numbers_of b.now) (orders.numbers_of a.now)) }
{
    for i in 0..a.len() {
        match compare_points(a[i], b[i]) {
            Ordering::Equal => {}
            order => return order,
        }
    }
    Ordering::Equal
}

/// The order of two points, by x and then y.
pub fn compare_points(a: Point, b: Point) -> Ordering
    ensures { MatchOrdering result (IsPointBefore a b) (a ≡ b) (IsPointBefore b a) }
{
    match a.x.cmp(&b.x) {
        Ordering::Equal => a.y.cmp(&b.y),
        order => order,
    }
}

/// Keys are ordered: none comes before itself, what comes before one that comes before a third
/// comes before the third, and of two different keys with equally many points one comes first.
pub fn keys_are_ordered()
    ensures irreflexive { (k : AnyKey) → IsBefore k k → ⊥ }
    ensures transitive { (k l m : AnyKey) → IsBefore k l → IsBefore l m → IsBefore k m }
    ensures total { (k l : AnyKey) → length k.places.xy ≡ length l.places.xy →
        IsBefore k l ⊎ ((k ≡ l) ⊎ IsBefore l k) }
{}
