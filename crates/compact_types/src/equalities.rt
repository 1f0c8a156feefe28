//! Plans and shapes with the same parts are equal: what else they keep are proofs.

ghost use Rattle.std.specs.Prelude.{◌≡◌};
ghost use Rattle.compact_types.specs.declared.plan.Plan.{Plan};
ghost use Rattle.compact_types.specs.declared.plan.Shape.{Shape};

/// Two plans with the same vertices and the same pieces are equal, and so are two shapes with the
/// same plan and the same ways.
pub fn equal_by_parts()
    ensures plans { (p q : Plan) → p.vertices ≡ q.vertices → p.pieces ≡ q.pieces → p ≡ q }
    ensures shapes { (p q : Shape) → p.plan ≡ q.plan → p.ways ≡ q.ways → p ≡ q }
{}
