//! What a thread carries to steal from a lane.

use crate::views::LaneView;
use atomic_table::Seat;
use compact_types::Branch;
use crossbeam_deque::Pass;
use std::alloc::Global;
use std::marker::Model;

/// A pass to one lane, with what it was handed out by any thief of that lane. It has no bytes.
#[derive(Drop)]
pub struct LanePass {
    pub(crate) port: Pass<Branch, LaneView, Global>,
    /// Counts the splits.
    pub(crate) count: Seat<(), u64>,
}

impl Model for LanePass {
    ghost use Rattle.steal_lanes.specs.States.{PassState};

    ghost Value = { PassState };

    ghost use Rattle.std.specs.Prelude.{◌≡◌, None};
    ghost use Rattle.crossbeam_deque.specs.Handles as deques;

    ghost view = { λ pass. record {
      home = record {
        deque = (pass.port.rows, pass.port.heap);
        counts = pass.count.table_id;
      };
      view = deques.view pass.port;
      known = deques.taken pass.port;
      splits = pass.count.me.0;
    } };

    ghost invariant = { λ pass. (pass.port.me.hand ≡ None) × (pass.port.me.spare ≡ None) };
}
