//! Why a call did not give a value.

ghost use Rattle.std.specs.Prelude.{◌≡◌};
ghost use Rattle.compact_types.specs.MappedRefusals.{ForFault, IsMapped};
ghost use Rattle.compact_types.specs.declared.refusal.Refusal.TheVariants as refusals;

use std::alloc::{AllocError, AllocFailed};

/// Memory was refused. Nothing else is ever reported as this.
#[derive(Clone, Copy, Debug, PartialEq, Eq)]
pub struct NoMemory;

impl From<AllocError> for NoMemory {
    fn from(_error: AllocError) -> NoMemory {
        NoMemory
    }
}

impl<T: Drop> From<AllocFailed<T>> for NoMemory {
    fn from(_error: AllocFailed<T>) -> NoMemory {
        NoMemory
    }
}

/// Why a call did not give a value: a fault of its input, or a want of memory, which says nothing
/// of the input.
#[derive(Clone, Copy, Debug, PartialEq, Eq)]
pub enum Refusal<F> {
    Fault(F),
    NoMemory,
}

impl<F> Refusal<F> {
    /// The refusal with its fault told by `tell`, mostly as one of more kinds of faults. A want of
    /// memory stays one.
    pub fn map<G, M: FnOnce(F) -> G>(self, tell: M) -> Refusal<G>
        requires { ForFault self (M.pre tell) }
        ensures { IsMapped self (M.post tell) result }
    {
        match self {
            Refusal::Fault(fault) => Refusal::Fault(tell(fault)),
            Refusal::NoMemory => Refusal::NoMemory,
        }
    }
}

impl<F> From<NoMemory> for Refusal<F> {
    ghost from_gives = { λ _ refusal. refusal ≡ refusals.NoMemory };

    fn from(_refused: NoMemory) -> Refusal<F> {
        Refusal::NoMemory
    }
}

#[cfg(test)]
mod tests;
