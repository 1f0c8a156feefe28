//! The text of a number.

ghost use Rattle.std.specs.Prelude.{◌≡◌, IfOk};
ghost use Rattle.gml_print.specs.Numbers.{number_text};

use compact_types::{Items, NoMemory};
use itoa::Buffer;
use std::alloc::Global;

/// The text of `number`, in base ten.
pub fn whole_text(alloc: Global, number: i64) -> Result<Items<u8>, NoMemory>
    ensures { IfOk result (λ word. word ≡ number_text number) }
{
    let mut buffer = Buffer::new();
    Items::from_slice(alloc, buffer.format(number).as_bytes())
}

#[cfg(test)]
mod tests {
    use super::*;
    use std::test::Fail;

    #[test]
    fn texts_of_numbers(rt: HostRuntime) -> Result<(), Fail> {
        let cases = [
            (0, b"0".as_slice()),
            (-10, b"-10".as_slice()),
            (i64::MAX, b"9223372036854775807".as_slice()),
            (i64::MIN, b"-9223372036854775808".as_slice()),
        ];
        for (number, text) in cases {
            let word = whole_text(rt.alloc(), number)?;
            assert_eq!(rt; word.as_slice(), text);
        }
        Ok(())
    }
}
