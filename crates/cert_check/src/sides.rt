//! The walk over the branches of a certificate, each by the two graphs of its choices.

ghost use Rattle.std.specs.Prelude.{◌≡◌, ◌+◌, ◌<◌, [], IfOk, MatchBool};
ghost use Rattle.cert_check.specs.inner.Branches.{IsAt, IsNext, later};

use bars::Bars;
use compact_types::{Choice, NoMemory};
use shape_graphs::GrowingGraphs;

/// Goes on to the next branch, that of the next side of the last pair whose sides are not all done.
/// Returns whether there is one.
pub(crate) fn next_branch(branch: &mut GrowingGraphs, bars: &Bars) -> Result<bool, NoMemory>
    requires { IsAt bars.now branch.old }
    ensures { IfOk result (λ more. MatchBool more
        (IsNext bars.now (later branch.old.choices) branch.new)
        (later branch.old.choices ≡ [])) }
{
    while let Some(choice) = branch.pop() {
        if choice.side < 3 {
            branch.push(bars, with_next_side(choice))?;
            return Ok(true);
        }
    }
    Ok(false)
}

/// The same pair with its next side.
fn with_next_side(choice: Choice) -> Choice
    requires { choice.side < 3 }
    ensures { result ≡ record choice { side = choice.side + 1 } }
{
    Choice {
        s: choice.s,
        t: choice.t,
        side: choice.side + 1,
    }
}
