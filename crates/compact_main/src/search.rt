//! How the best places of a drawing are found, and what shows that they are.

ghost use Rattle.std.specs.Prelude.{◌≡◌, ⊤, IfOk};
ghost use Rattle.compact_types.specs.declared.limits.TheConstants.{GREATEST_THOUSANDTHS};
ghost use Rattle.compact_types.specs.Bests.{total_length, IsBest, worth_of};
ghost use Rattle.compact_types.specs.Drawings.{IsDrawing};
ghost use Rattle.compact_types.specs.Magnitudes.{AreWithin};
ghost use Rattle.shape_graphs.specs.Backings.{DoBack};
ghost use Rattle.workers.specs.Searches.{HasEnded};
ghost use Rattle.cert_text.specs.declared.trimming.TheConstants.{MOST_SPLITS};
ghost use Rattle.cert_text.specs.Accepting.{Accepts};
ghost use Rattle.cert_text.specs.Loads.{IsCertTree};
ghost use Rattle.cert_text.specs.Trees.{IsShallow};
ghost use Rattle.compact_main.specs.inner.FoundDrawings.{IsSearched};

use bars::Bars;
use cert_text::{CertTree, trim};
use compact_types::{Flows, NoMemory, Places};
use potentials::TotalLength;
use std::alloc::Global;
use workers::{Best, search_alone};

/// What a search answers.
pub type Searched = Result<Best<Flows>, NoMemory>;

/// A search for the drawing of least total length. Every search finds the same places; their boards
/// may make different certificates.
pub trait Search {
    /// That the search may be asked, and answers as `best` says. That of a proved function is so
    /// always.
    ghost is_ready: { Self → Type 0 } = { λ search. ⊤ };

    /// The best key of the shape, in grid steps, and a finished board that shows it. The search
    /// begins with the places, which are a drawing of the shape.
    fn best(&self, alloc: Global, bars: &Bars, places: &Places) -> Searched
        requires ready { Self.is_ready self.now }
        requires drawing { IsDrawing bars.now places.now }
        requires near { AreWithin GREATEST_THOUSANDTHS places.now }
        ensures best { IfOk result (λ best. IsBest total_length bars.now best.key.places) }
        ensures worth { IfOk result (λ best.
            best.key.worth ≡ worth_of total_length bars.now best.key.places) }
        ensures board { IfOk result (λ best.
            HasEnded total_length DoBack bars.now best.key best.board) };
}

/// The search with one worker.
pub struct Alone;

impl Search for Alone {
    fn best(&self, alloc: Global, bars: &Bars, places: &Places) -> Searched {
        search_alone(alloc, &TotalLength, bars, places)
    }
}

/// The search that a closure makes. The closure brings the leave to wait for workers from the
/// function that it stands in: a method of the trait has none of its own.
#[derive(Drop)]
pub struct SearchBy<F> {
    pub(crate) find: F,
}

impl<F: Fn(Global, &Bars, &Places) -> Searched> Search for SearchBy<F> {
    ghost is_ready = { λ search. (alloc : _) (bars places : _) →
        IsDrawing bars.now places.now → AreWithin GREATEST_THOUSANDTHS places.now →
        F.pre search.find alloc bars places
        × ((answer : _) → F.post search.find alloc bars places answer →
        IsSearched bars.now answer) };

    fn best(&self, alloc: Global, bars: &Bars, places: &Places) -> Searched {
        (self.find)(alloc, bars, places)
    }
}

/// The certificate that the board of a finished search makes for its best places.
pub(crate) fn certificate_of(
    alloc: Global,
    bars: &Bars,
    best: &Best<Flows>,
) -> Result<CertTree, NoMemory>
    requires { HasEnded total_length DoBack bars.now best.now.key best.now.board }
    ensures accepted { IfOk result (λ tree. Accepts bars.now best.now.key.places tree.nodes) }
    ensures tree { IfOk result (λ tree. IsCertTree tree.nodes) }
    ensures shallow { IfOk result (λ tree. IsShallow MOST_SPLITS tree.nodes) }
{
    trim(alloc, bars, &best.board)
}
