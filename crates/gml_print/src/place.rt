//! A tree with another value at a path.

ghost use Rattle.std.specs.Prelude.{◌≡◌};
ghost use Rattle.gml_print.specs.Placing as placing;

use compact_types::Items;
use gml_text::{Pair, Tree, Value};

/// Puts `value` in place of the one at the end of `path`: the places, counted from 0, that lead
/// from list to list to its pair. All else stays as it was, and a path that leads to no pair
/// changes nothing.
pub fn put_value(tree: &mut Tree, path: &[u32], value: Value)
    ensures { tree.new ≡ placing.put_value path.now value tree.old }
{
    match path {
        [] => {}
        [last] => {
            if let Some(pair) = tree.pairs.get_mut(*last as usize) {
                pair.value = value;
            }
        }
        [first, rest @ ..] => {
            if let Some(pair) = tree.pairs.get_mut(*first as usize) {
                if let Value::Inner(inner) = &mut pair.value {
                    put_value(inner, rest, value);
                }
            }
        }
    }
}
