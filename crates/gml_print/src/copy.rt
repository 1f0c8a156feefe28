//! Copies of trees.

ghost use Rattle.std.specs.Prelude.{◌≡◌, IfOk};

use compact_types::{Items, NoMemory};
use gml_text::{Pair, Tree, Value};
use std::alloc::Global;

/// A copy of `tree`, at every depth.
#[cycle(copying)]
pub(crate) fn copy_tree(alloc: Global, tree: &Tree) -> Result<Tree, NoMemory>
    ensures { IfOk result (λ copy. copy ≡ tree.now) }
{
    let mut pairs = Items::new(alloc);
    for pair in tree.pairs.as_slice() {
        pairs.push(copy_pair(alloc, pair)?)?;
    }
    Ok(Tree { pairs })
}

#[cycle(copying)]
fn copy_pair(alloc: Global, pair: &Pair) -> Result<Pair, NoMemory>
    ensures { IfOk result (λ copy. copy ≡ pair.now) }
{
    let key = pair.key.copy()?;
    let value = copy_value(alloc, &pair.value)?;
    let at = pair.at;
    Ok(Pair { key, value, at })
}

#[cycle(copying)]
fn copy_value(alloc: Global, value: &Value) -> Result<Value, NoMemory>
    ensures { IfOk result (λ copy. copy ≡ value.now) }
{
    match value {
        Value::Whole(word) => Ok(Value::Whole(word.copy()?)),
        Value::Real(word) => Ok(Value::Real(word.copy()?)),
        Value::Text(inside) => Ok(Value::Text(inside.copy()?)),
        Value::Inner(tree) => Ok(Value::Inner(copy_tree(alloc, tree)?)),
    }
}
