//! What a search for the best drawing speaks of: choices of sides, branches and flows.

ghost use Rattle.std.specs.Prelude.{◌≡◌, IfOk};

use crate::items::Items;
use crate::refusal::NoMemory;

/// That one segment of a pair is on one side of the other, by at least one grid step: side 0
/// has `s` west of `t`, side 1 east, side 2 below and side 3 above (Klau and Mutzel's separation
/// of two segments).
#[derive(Clone, Copy, Debug, PartialEq, Eq)]
pub struct Choice {
    pub s: u32,
    pub t: u32,
    pub side: u8,
}

/// A list of choices, in the order in which they were made.
#[derive(Debug, Drop)]
pub struct Extension {
    pub choices: Items<Choice>,
}

impl Extension {
    /// An equal list, on its allocator.
    pub fn copy(&self) -> Result<Extension, NoMemory>
        ensures { IfOk result (λ copy. copy ≡ self.now) }
    {
        Ok(Extension {
            choices: self.choices.copy()?,
        })
    }
}

/// A branch of a search: its number, and the choices that its drawings have to keep.
#[derive(Debug, Drop)]
pub struct Branch {
    pub id: u64,
    pub choices: Extension,
}

impl Branch {
    /// An equal branch, on the allocator of its list.
    pub fn copy(&self) -> Result<Branch, NoMemory>
        ensures { IfOk result (λ copy. copy ≡ self.now) }
    {
        Ok(Branch {
            id: self.id,
            choices: self.choices.copy()?,
        })
    }
}

/// An amount on each arc of a constraint graph, by the arc's number.
#[derive(Debug, Drop)]
pub struct Flow {
    pub amounts: Items<u64>,
}

impl Flow {
    /// An equal flow, on the allocator of its list.
    pub fn copy(&self) -> Result<Flow, NoMemory>
        ensures { IfOk result (λ copy. copy ≡ self.now) }
    {
        Ok(Flow {
            amounts: self.amounts.copy()?,
        })
    }
}

/// A flow on the column graph and one on the row graph.
#[derive(Debug, Drop)]
pub struct Flows {
    pub x: Flow,
    pub y: Flow,
}

impl Flows {
    /// Equal flows, on the allocators of their lists.
    pub fn copy(&self) -> Result<Flows, NoMemory>
        ensures { IfOk result (λ copy. copy ≡ self.now) }
    {
        Ok(Flows {
            x: self.x.copy()?,
            y: self.y.copy()?,
        })
    }
}
