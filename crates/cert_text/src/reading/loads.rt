//! The loads and the arcs of an entry.

ghost use Rattle.std.specs.Prelude.{◌≡◌, ◌+◌, ◌<◌, ◌≤◌, [], length};
ghost use Rattle.std.specs.Prelude.{IfOk, IfSome, MatchOption};
ghost use Rattle.cert_text.specs.declared.tree.TheConstants.{MOST_NUMBER};
ghost use Rattle.cert_text.specs.inner.Reading.{arc_of, arcs_read, load_read, loads_of};

use crate::reading::numbers::{ReadNumber, after_byte, number_at};
use crate::tree::{Load, MOST_NUMBER};
use compact_types::{Items, NoMemory};
use shape_graphs::MOST_AMOUNT;

/// The byte between the arc and the amount of a load.
const COLON: u8 = b':';

/// A load, and the text that follows it.
#[derive(Clone, Copy)]
struct LoadFound<'a> {
    load: Load,
    rest: &'a [u8],
}

/// Reads the loads at the front of the text, as long as their arcs rise, and answers what follows
/// them.
pub(crate) fn read_loads<'a>(loads: &mut Items<Load>, text: &'a [u8]) -> Result<&'a [u8], NoMemory>
    requires { loads.old ≡ [] }
    ensures { IfOk result (λ rest. loads_of text.now ≡ (loads.new, rest.now)) }
{
    let mut least = 0;
    let mut rest = text;
    while let Some(found) = load_at(rest, least) {
        loads.push(found.load)?;
        least = found.load.arc + 1;
        rest = found.rest;
    }
    Ok(rest)
}

/// The load at the front of the text, if its arc is at least `least`.
#[tactic(auto, unfolding(crate::specs::inner::Reading::load_read))]
fn load_at(text: &[u8], least: u32) -> Option<LoadFound<'_>>
    ensures load { MatchOption result
        (load_read least text.now ≡ None)
        (λ found. load_read least text.now ≡ Some (found.load, found.rest.now)) }
    ensures within { IfSome result (λ found. found.load.arc ≤ MOST_NUMBER) }
    ensures shorter { IfSome result (λ found. length found.rest.now < length text.now) }
{
    let arc = number_at(after_byte(text, b' ')?, u64::from(MOST_NUMBER))?;
    let amount = number_at(after_byte(arc.rest, COLON)?, MOST_AMOUNT)?;
    if arc.value < u64::from(least) || amount.value < 1 {
        return None;
    }
    Some(LoadFound {
        load: Load {
            arc: arc.value as u32,
            amount: amount.value,
        },
        rest: amount.rest,
    })
}

/// Reads the arcs at the front of the text, each behind a space, and answers what follows them.
pub(crate) fn read_arcs<'a>(arcs: &mut Items<u32>, text: &'a [u8]) -> Result<&'a [u8], NoMemory>
    requires { arcs.old ≡ [] }
    ensures { IfOk result (λ rest. arcs_read text.now ≡ (arcs.new, rest.now)) }
{
    let mut rest = text;
    while let Some(arc) = arc_at(rest) {
        arcs.push(arc.value as u32)?;
        rest = arc.rest;
    }
    Ok(rest)
}

/// The arc at the front of the text, behind a space.
#[tactic(auto, unfolding(crate::specs::inner::Reading::arc_of))]
fn arc_at(text: &[u8]) -> Option<ReadNumber<'_>>
    ensures arc { MatchOption result
        (arc_of 0 text.now ≡ None)
        (λ arc. arc_of 0 text.now ≡ Some (arc.value, arc.rest.now)) }
    ensures within { IfSome result (λ arc. arc.value ≤ MOST_NUMBER) }
    ensures shorter { IfSome result (λ arc. length arc.rest.now < length text.now) }
{
    number_at(after_byte(text, b' ')?, u64::from(MOST_NUMBER))
}
