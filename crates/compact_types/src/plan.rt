//! The graph of a drawing, cut into straight pieces, and the way that each piece goes.

ghost use Rattle.std.specs.Prelude.{◌≡◌, length, IfOk, MatchOption};
ghost use Rattle.compact_types.specs.Lookups.{EndsAreVertices, pieces_between};

use crate::items::Items;
use crate::refusal::NoMemory;
use std::alloc::Global;

/// A straight piece of an edge, from one vertex to another, by their numbers.
#[derive(Clone, Copy, Debug, PartialEq, Eq)]
pub struct Piece {
    pub from: u32,
    pub to: u32,
}

impl Piece {
    /// The piece from one vertex to another.
    pub fn new(from: u32, to: u32) -> Piece
        ensures { result ≡ record { from = from; to = to } }
    {
        Piece { from, to }
    }
}

/// The graph of a drawing, cut into straight pieces. Bends are vertices too.
#[derive(Debug, Drop)]
pub struct Plan {
    /// How many vertices there are; they are numbered from 0.
    pub vertices: u32,
    pub pieces: Items<Piece>,
    pub ghost ends: { EndsAreVertices vertices pieces },
}

impl Plan {
    /// The plan with a piece for each pair of ends; `None` exactly if one of them is not a vertex.
    pub fn of_ends(
        alloc: Global,
        vertices: u32,
        ends: &[(u32, u32)],
    ) -> Result<Option<Plan>, NoMemory>
        ensures { IfOk result (λ made. MatchOption made
            (EndsAreVertices vertices (pieces_between ends.now) → ⊥)
            (λ plan. (plan.vertices ≡ vertices) × (plan.pieces ≡ pieces_between ends.now))) }
    {
        let mut pieces = Items::new(alloc);
        for &(from, to) in ends {
            if from >= vertices || to >= vertices {
                return Ok(None);
            }
            pieces.push(Piece::new(from, to))?;
        }
        Ok(Some(Plan { vertices, pieces }))
    }

    /// An equal plan, on the allocator of its list.
    pub fn copy(&self) -> Result<Plan, NoMemory>
        ensures { IfOk result (λ copy. copy ≡ self.now) }
    {
        Ok(Plan {
            vertices: self.vertices,
            pieces: self.pieces.copy()?,
        })
    }
}

/// The direction of a piece: East where x grows from its `from` to its `to`, High where y grows.
#[derive(Clone, Copy, Debug, PartialEq, Eq)]
pub enum Way {
    East,
    West,
    High,
    Low,
}

/// A plan and the direction of every piece: what compaction keeps (Klau and Mutzel's orthogonal
/// shape, bends treated as vertices).
#[derive(Debug, Drop)]
pub struct Shape {
    pub plan: Plan,
    /// The way of each piece, by its number.
    pub ways: Items<Way>,
    pub ghost one_for_each: { length ways ≡ length plan.pieces },
}

impl Shape {
    /// An equal shape, on the allocators of its lists.
    pub fn copy(&self) -> Result<Shape, NoMemory>
        ensures { IfOk result (λ copy. copy ≡ self.now) }
    {
        Ok(Shape {
            plan: self.plan.copy()?,
            ways: self.ways.copy()?,
        })
    }
}
