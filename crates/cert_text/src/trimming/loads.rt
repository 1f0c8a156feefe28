//! The loads of a flow.

ghost use Rattle.std.specs.Prelude.{◌≡◌, ◌++◌, ◌≤◌, length, IfOk, OnOk};
ghost use Rattle.shape_graphs.specs.declared.graph.TheConstants.{MOST_ARCS};
ghost use Rattle.cert_text.specs.Trims.{load_of, loads_from};

use crate::tree::Load;
use compact_types::{Flow, Items, NoMemory};
use std::alloc::Global;

/// The positive amounts of the flow, by rising arcs.
pub(crate) fn loads_of(alloc: Global, flow: &Flow) -> Result<Items<Load>, NoMemory>
    requires { length flow.now.amounts ≤ MOST_ARCS }
    ensures { IfOk result (λ loads. loads ≡ loads_from 0 flow.now.amounts) }
{
    let mut loads = Items::new(alloc);
    for (arc, amount) in flow.amounts.as_slice().iter().enumerate() {
        add_load(&mut loads, arc as u32, *amount)?;
    }
    Ok(loads)
}

/// Adds the load of the arc, if its amount is positive.
fn add_load(loads: &mut Items<Load>, arc: u32, amount: u64) -> Result<(), NoMemory>
    ensures { OnOk result (loads.new ≡ loads.old ++ load_of arc amount) }
{
    if amount > 0 {
        loads.push(Load { arc, amount })?;
    }
    Ok(())
}

#[cfg(test)]
mod tests {
    use super::*;
    use std::test::Fail;

    #[test]
    fn positive_amounts_are_loads(rt: HostRuntime) -> Result<(), Fail> {
        let amounts = Items::from_slice(rt.alloc(), &[0, 2, 0, 5])?;
        let loads = loads_of(rt.alloc(), &Flow { amounts })?;
        let expected = [Load { arc: 1, amount: 2 }, Load { arc: 3, amount: 5 }];
        assert_eq!(rt; loads.as_slice(), expected.as_slice());
        Ok(())
    }
}
