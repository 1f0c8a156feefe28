//! The certificate of a finished search.

ghost use Rattle.std.specs.Prelude.{◌≡◌, [], ◌∷◌, IfOk};
ghost use Rattle.board.specs.Boards.{board_state};
ghost use Rattle.board.specs.Histories.{open_count_of};
ghost use Rattle.cert_text.specs.declared.trimming.TheConstants.{MOST_SPLITS};
ghost use Rattle.cert_text.specs.Accepting.{Accepts};
ghost use Rattle.cert_text.specs.Loads.{IsCertTree};
ghost use Rattle.cert_text.specs.Trees.{IsShallow};
ghost use Rattle.cert_text.specs.Trims.{AreEntriesOf};

mod entries;
mod loads;

use crate::tree::CertTree;
use bars::Bars;
use board::Board;
use compact_types::{Flows, Items, MOST_PAIRS, NoMemory};
use entries::enter;
use std::alloc::Global;

/// The most splits over an entry of a certificate that is made: each is on a pair of its own.
pub const MOST_SPLITS: usize = MOST_PAIRS;

/// The certificate that the board's verdicts make, for the incumbent of a search that has ended: a
/// bound and a cycle stay, and a branch whose least key is not before the incumbent becomes a
/// bound, even if it was split when the incumbent was a later one; its branches are dropped then.
/// It takes time in proportion to the branches and to what is made.
pub fn trim(alloc: Global, bars: &Bars, board: &Board<Flows>) -> Result<CertTree, NoMemory>
    requires shape { board.now.shape ≡ bars.now }
    requires none_open { open_count_of (board_state board.now) ≡ 0 }
    ensures accepted { IfOk result (λ tree.
        Accepts bars.now board.now.incumbent.places tree.nodes) }
    ensures tree { IfOk result (λ tree. IsCertTree tree.nodes) }
    ensures entries { IfOk result (λ tree. AreEntriesOf board.now (0 ∷ []) tree.nodes) }
    ensures shallow { IfOk result (λ tree. IsShallow MOST_SPLITS tree.nodes) }
{
    let best = board.best();
    let mut nodes = Items::new(alloc);
    let mut waiting = Vec::new(alloc);
    waiting.push(0)?;
    while let Some(id) = waiting.pop() {
        enter(alloc, board, best, &mut nodes, &mut waiting, id)?;
    }
    Ok(CertTree { nodes })
}
