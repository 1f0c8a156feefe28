//! How a refusal is told on.

ghost use Rattle.std.specs.Prelude.{◌≡◌, IfOk};
ghost use Rattle.compact_types.specs.Refusals.{IfFault};

use super::*;

#[derive(Clone, Copy, Debug, PartialEq, Eq)]
enum Why {
    Narrow(u8),
    Other,
}

fn narrow(number: u8) -> Result<u8, Refusal<u8>>
    ensures value { IfOk result (λ value. value ≡ number) }
    ensures fault { IfFault result (λ fault. fault ≡ number) }
{
    if number < 10 {
        Ok(number)
    } else {
        Err(Refusal::Fault(number))
    }
}

/// The refusal of `narrow` as one of more kinds.
fn told(number: u8) -> Result<u8, Refusal<Why>>
    ensures value { IfOk result (λ value. value ≡ number) }
    ensures fault { IfFault result (λ why. why ≡ Why.Narrow number) }
{
    let value = narrow(number).map_err(|refusal| refusal.map(Why::Narrow))?;
    Ok(value)
}

#[test]
fn tells_a_fault(rt: HostRuntime) {
    assert_eq!(rt; told(9), Ok(9));
    assert_eq!(rt; told(10), Err(Refusal::Fault(Why::Narrow(10))));
    let refused: Refusal<u8> = Refusal::NoMemory;
    assert_eq!(rt; refused.map(Why::Narrow), Refusal::NoMemory);
}
