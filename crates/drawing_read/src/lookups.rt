//! Pairs by their keys. Of a repeated key the first pair counts.

ghost use Rattle.std.specs.Prelude.{◌≡◌, ◌<◌, length, IfSome, None, MatchOption};
ghost use Rattle.std.specs.Option.{option_copied};
ghost use Rattle.drawing_read.specs.Lookups as lookups;
ghost use Rattle.drawing_read.specs.inner.Legible.{IsLegiblePair, AreLegible};

use compact_types::Items;
use gml_text::{Pair, Value};

/// A list that was looked up, and the place of its pair among those around it.
#[derive(Clone, Copy, Debug)]
pub(crate) struct FoundList<'a> {
    pub place: usize,
    pub pairs: &'a [Pair],
}

/// Whether the pair has this key, byte by byte.
pub(crate) fn has_key(key: &[u8], pair: &Pair) -> bool
    ensures { result ≡ lookups.has_key key.now pair.now }
{
    pair.key.as_slice() == key
}

/// The first pair with this key, whatever kind its value has.
pub(crate) fn first_under<'a>(key: &[u8], pairs: &'a [Pair]) -> Option<&'a Pair>
    ensures pair { option_copied result ≡ lookups.first_under key.now pairs.now }
    ensures legible { AreLegible pairs.now → IfSome result (λ pair. IsLegiblePair pair.now) }
{
    pairs.iter().find(|pair| has_key(key, pair))
}

/// The list under the first pair with this key, and the place of that pair.
pub(crate) fn first_list<'a>(key: &[u8], pairs: &'a [Pair]) -> Option<FoundList<'a>>
    ensures list { MatchOption result (lookups.first_list key.now pairs.now ≡ None)
        (λ found. lookups.IsListAt key.now pairs.now found.place found.pairs.now) }
    ensures within { IfSome result (λ found. found.place < length pairs.now) }
    ensures legible { AreLegible pairs.now →
        IfSome result (λ found. AreLegible found.pairs.now) }
{
    let place = place_under(key, pairs)?;
    let list = list_of(&pairs[place])?;
    Some(FoundList {
        place,
        pairs: list.as_slice(),
    })
}

/// The list of a pair with this key.
pub(crate) fn list_under<'a>(key: &[u8], pair: &'a Pair) -> Option<&'a Items<Pair>>
    ensures list { option_copied result ≡ lookups.list_under key.now pair.now }
    ensures legible { IsLegiblePair pair.now → IfSome result (λ list. AreLegible list.now) }
{
    if has_key(key, pair) {
        list_of(pair)
    } else {
        None
    }
}

/// The list that the pair's value is.
pub(crate) fn list_of(pair: &Pair) -> Option<&Items<Pair>>
    ensures list { option_copied result ≡ lookups.list_in pair.now.value }
    ensures legible { IsLegiblePair pair.now → IfSome result (λ list. AreLegible list.now) }
{
    match &pair.value {
        Value::Inner(tree) => Some(&tree.pairs),
        _ => None,
    }
}

/// The place of the first pair with this key.
pub(crate) fn place_under(key: &[u8], pairs: &[Pair]) -> Option<usize>
    ensures place { result ≡ lookups.place_under key.now pairs.now }
    ensures within { IfSome result (λ place. place < length pairs.now) }
{
    pairs.iter().position(|pair| has_key(key, pair))
}
