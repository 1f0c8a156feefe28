//! The text of a tree.

ghost use Rattle.std.specs.Prelude.{◌≡◌, ℕ, List, [], ◌∷◌, ◌++◌, IfOk, OnOk};
ghost use Rattle.gml_print.specs.Printing as printing;
ghost use Rattle.gml_print.specs.inner.Pieces.{pair_text, value_text};

use compact_types::{Items, NoMemory};
use gml_text::{CLOSING_BRACKET, LINE_FEED, OPENING_BRACKET, Pair, QUOTE, SPACE, Tree, Value};
use std::alloc::Global;

/// The text of `tree`: one line for each pair that is no list, behind two spaces for each depth.
///
/// Numerals stand as they were read and strings with their quotes. A list is a line with its key
/// and `[`, the lines of its pairs, and a line with `]`.
pub fn print_tree(alloc: Global, tree: &Tree) -> Result<Items<u8>, NoMemory>
    ensures { IfOk result (λ text. text ≡ printing.printed tree.now) }
{
    let mut indent = Items::new(alloc);
    let mut text = Items::new(alloc);
    write_tree(tree, &mut indent, &mut text)?;
    Ok(text)
}

/// Adds the lines of the pairs of `tree` to `text`; `indent` is two spaces for each list around
/// them.
#[cycle(writing)]
fn write_tree(tree: &Tree, indent: &mut Items<u8>, text: &mut Items<u8>) -> Result<(), NoMemory>
    ensures indent { OnOk result (indent.new ≡ indent.old) }
    ensures text { (depth : ℕ) → indent.old ≡ printing.indentation depth →
        OnOk result (text.new ≡ text.old ++ printing.printed_at tree.now depth) }
{
    for pair in tree.pairs.as_slice() {
        write_pair(pair, indent, text)?;
    }
    Ok(())
}

/// Adds the lines of `pair` to `text`.
#[cycle(writing)]
fn write_pair(pair: &Pair, indent: &mut Items<u8>, text: &mut Items<u8>) -> Result<(), NoMemory>
    ensures indent { OnOk result (indent.new ≡ indent.old) }
    ensures text { (depth : ℕ) → indent.old ≡ printing.indentation depth →
        OnOk result (text.new ≡ text.old ++ pair_text pair.now depth) }
{
    text.extend_from_slice(indent.as_slice())?;
    text.extend_from_slice(pair.key.as_slice())?;
    text.push(SPACE)?;
    write_value(&pair.value, indent, text)?;
    text.push(LINE_FEED)
}

/// Adds the text of `value` to `text`, where `indent` stands before its key.
#[cycle(writing)]
fn write_value(value: &Value, indent: &mut Items<u8>, text: &mut Items<u8>) -> Result<(), NoMemory>
    ensures indent { OnOk result (indent.new ≡ indent.old) }
    ensures text { (depth : ℕ) → indent.old ≡ printing.indentation depth →
        OnOk result (text.new ≡ text.old ++ value_text value.now depth) }
{
    match value {
        Value::Whole(word) | Value::Real(word) => text.extend_from_slice(word.as_slice()),
        Value::Text(inside) => write_string(inside.as_slice(), text),
        Value::Inner(tree) => {
            open_list(indent, text)?;
            write_tree(tree, indent, text)?;
            close_list(indent, text)
        }
    }
}

/// Adds a string with its quotes to `text`.
fn write_string(inside: &[u8], text: &mut Items<u8>) -> Result<(), NoMemory>
    ensures { OnOk result (text.new ≡ text.old ++ printing.quoted inside.now) }
{
    text.push(QUOTE)?;
    text.extend_from_slice(inside)?;
    text.push(QUOTE)
}

/// Ends the line of a key with `[`; the lines that follow stand one depth deeper.
fn open_list(indent: &mut Items<u8>, text: &mut Items<u8>) -> Result<(), NoMemory>
    ensures indent { OnOk result (indent.new ≡ indent.old ++ SPACE ∷ SPACE ∷ []) }
    ensures text { OnOk result (text.new ≡ text.old ++ OPENING_BRACKET ∷ LINE_FEED ∷ []) }
{
    text.extend_from_slice(&[OPENING_BRACKET, LINE_FEED])?;
    indent.extend_from_slice(&[SPACE, SPACE])
}

/// Goes back to the depth before a list, and adds `]` there.
fn close_list(indent: &mut Items<u8>, text: &mut Items<u8>) -> Result<(), NoMemory>
    ensures indent { (outer : List ℕ) → indent.old ≡ outer ++ SPACE ∷ SPACE ∷ [] →
        OnOk result (indent.new ≡ outer) }
    ensures text { (outer : List ℕ) → indent.old ≡ outer ++ SPACE ∷ SPACE ∷ [] →
        OnOk result (text.new ≡ text.old ++ outer ++ CLOSING_BRACKET ∷ []) }
{
    indent.pop();
    indent.pop();
    text.extend_from_slice(indent.as_slice())?;
    text.push(CLOSING_BRACKET)
}

#[cfg(test)]
mod tests {
    use super::*;
    use std::test::Fail;

    fn pair(alloc: Global, key: &[u8], value: Value) -> Result<Pair, NoMemory> {
        let key = Items::from_slice(alloc, key)?;
        Ok(Pair { key, value, at: 0 })
    }

    fn list(pairs: Vec<Pair>) -> Value {
        Value::Inner(Tree {
            pairs: Items::from_vec(pairs),
        })
    }

    /// A list in a list, and one with nothing in it.
    fn graph(alloc: Global) -> Result<Value, Fail> {
        let id = Value::Whole(Items::from_slice(alloc, b"-007")?);
        let node = list(vec![in alloc; pair(alloc, b"id", id)?]?);
        let edge = list(Vec::new(alloc));
        Ok(list(vec![in alloc; pair(alloc, b"node", node)?, pair(alloc, b"edge", edge)?]?))
    }

    /// All four kinds of value.
    fn file(alloc: Global) -> Result<Tree, Fail> {
        let version = Value::Whole(Items::from_slice(alloc, b"+1")?);
        let scale = Value::Real(Items::from_slice(alloc, b".5E-3")?);
        let label = Value::Text(Items::from_slice(alloc, b"# a\n\xc3\xa9 [")?);
        let pairs = vec![in alloc;
            pair(alloc, b"version", version)?,
            pair(alloc, b"graph", graph(alloc)?)?,
            pair(alloc, b"scale", scale)?,
            pair(alloc, b"label", label)?,
        ]?;
        Ok(Tree {
            pairs: Items::from_vec(pairs),
        })
    }

    /// The text of the tree that `file` gives.
    const FILE: &[u8] = b"version +1\n\
        graph [\n\
        \x20 node [\n\
        \x20   id -007\n\
        \x20 ]\n\
        \x20 edge [\n\
        \x20 ]\n\
        ]\n\
        scale .5E-3\n\
        label \"# a\n\xc3\xa9 [\"\n";

    #[test]
    fn texts_of_trees(rt: HostRuntime) -> Result<(), Fail> {
        let alloc = rt.alloc();
        let empty = Tree {
            pairs: Items::new(alloc),
        };
        for (tree, text) in [(empty, b"".as_slice()), (file(alloc)?, FILE)].iter() {
            let printed = print_tree(alloc, tree)?;
            assert_eq!(rt; printed.as_slice(), *text);
        }
        Ok(())
    }
}
