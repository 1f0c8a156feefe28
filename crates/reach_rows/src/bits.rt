//! Rows of bits in one flat list of words.

ghost use Rattle.std.specs.Prelude.{◌≡◌, ◌↔◌, ◌⊎◌, ℕ, ◌+◌, ◌*◌, ◌<◌, ◌≤◌, length, slice_index};
ghost use Rattle.std.specs.Prelude.{bit_or, IsTrue};
ghost use Rattle.std.specs.Int.{bit_at};
ghost use Rattle.reach_rows.specs.Bits.{IsSet, IsTaken, HasBitsOfBoth};
ghost use Rattle.reach_rows.specs.declared.bits.TheConstants.{LANES};

use std::simd::Simd;

/// How many words are combined at once.
const LANES: usize = 4;

/// Whether bit `c` of row `a` is set.
#[tactic(auto, using(crate::proofs::WordLemmas::word_in_row))]
pub(crate) fn has_bit(bits: &[u64], words: usize, a: usize, c: u32) -> bool
    requires row { a * words + words ≤ length bits.now }
    requires inside { c < 64 * words }
    ensures { IsTrue result ↔ IsSet words bits.now a c }
{
    test_bit(bits[a * words + c as usize / 64], c % 64)
}

/// Row `into` takes all bits of row `from`, and bit `from`.
#[tactic(auto, using(crate::proofs::WordLemmas::in_row))]
pub(crate) fn take_row(bits: &mut [u64], words: usize, into: usize, from: u32)
    requires into { into * words + words ≤ length bits.old }
    requires from { from * words + words ≤ length bits.old }
    requires inside { from < 64 * words }
    ensures { IsTaken words into from bits.old bits.new }
{
    let row = into * words;
    or_words(bits, row, from as usize * words, words);
    let at = row + from as usize / 64;
    bits[at] = with_bit(bits[at], from % 64);
}

/// The words from `into` on take the bits of those from `from` on, a vector at a time, and those
/// that are left after the last whole vector word by word.
fn or_words(bits: &mut [u64], into: usize, from: usize, words: usize)
    requires into { into + words ≤ length bits.old }
    requires from { from + words ≤ length bits.old }
    requires apart { (into ≡ from) ⊎ ((into + words ≤ from) ⊎ (from + words ≤ into)) }
    ensures row { (k : ℕ) → k < words → slice_index bits.new (into + k)
        ≡ bit_or (slice_index bits.old (into + k)) (slice_index bits.old (from + k)) }
    ensures others { (i : ℕ) → (i < into) ⊎ (into + words ≤ i) →
        slice_index bits.new i ≡ slice_index bits.old i }
{
    let mut done = 0;
    while words - done >= LANES {
        or_vector(bits, into, from, done);
        done += LANES;
    }
    for k in done..words {
        bits[into + k] |= bits[from + k];
    }
}

/// One vector of the words, `done` after the first, takes the bits of that from `from` on.
#[tactic(auto, using(crate::proofs::VectorLemmas::storing))]
fn or_vector(bits: &mut [u64], into: usize, from: usize, done: usize)
    requires into { into + done + LANES ≤ length bits.old }
    requires from { from + done + LANES ≤ length bits.old }
    ensures row { (k : ℕ) → done ≤ k → k < done + LANES → slice_index bits.new (into + k)
        ≡ bit_or (slice_index bits.old (into + k)) (slice_index bits.old (from + k)) }
    ensures others { (i : ℕ) → (i < into + done) ⊎ (into + done + LANES ≤ i) →
        slice_index bits.new i ≡ slice_index bits.old i }
{
    let vector = joined(bits, into + done, from + done);
    vector.copy_to_slice(&mut bits[into + done..]);
}

/// The bits of the vectors of words at two places.
#[tactic(auto, using(crate::proofs::VectorLemmas::are_joined))]
fn joined(bits: &[u64], a: usize, b: usize) -> Simd<u64, LANES>
    requires first { a + LANES ≤ length bits.now }
    requires second { b + LANES ≤ length bits.now }
    ensures { HasBitsOfBoth bits.now a b result }
{
    Simd::from_slice(&bits[a..]) | Simd::from_slice(&bits[b..])
}

/// Whether bit `k` of the word is set.
#[tactic(auto, using(std::proofs::lemmas::Nat::Bits::shr_and_one))]
fn test_bit(word: u64, k: u32) -> bool
    requires { k < 64 }
    ensures { IsTrue result ↔ (bit_at word k ≡ 1) }
{
    (word >> k) & 1 == 1
}

/// The word with bit `k` set.
fn with_bit(word: u64, k: u32) -> u64
    requires { k < 64 }
    ensures same { bit_at result k ≡ 1 }
    ensures others { (i : ℕ) → (i ≡ k → ⊥) → bit_at result i ≡ bit_at word i }
{
    word | (1 << k)
}
