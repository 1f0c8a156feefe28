//! Sums over the numbers below a bound.

ghost use Rattle.std.specs.Prelude.{◌≡◌, ℕ, ◌+◌, ◌<◌, ℤ, ◌+ℤ◌, ◌*ℤ◌, ◌≤ℤ◌};
ghost use Rattle.compact_types.specs.Sums.{sum_to};

/// The laws of sums: a sum in two parts, of sums, of multiples, with one term changed, of sums in
/// the other order, and with no greater terms.
pub fn sums_add_up()
    ensures split { (f : ℕ → ℤ) (m n : ℕ) →
        sum_to f (m + n) ≡ sum_to f m +ℤ sum_to (λ i. f (m + i)) n }
    ensures added { (f g : ℕ → ℤ) (n : ℕ) → sum_to (λ i. f i +ℤ g i) n ≡ sum_to f n +ℤ sum_to g n }
    ensures scaled { (k : ℤ) (f : ℕ → ℤ) (n : ℕ) → sum_to (λ i. k *ℤ f i) n ≡ k *ℤ sum_to f n }
    ensures changed { (f g : ℕ → ℤ) (n i : ℕ) → i < n →
        ((j : ℕ) → j < n → (j ≡ i → ⊥) → f j ≡ g j) →
        sum_to f n +ℤ g i ≡ sum_to g n +ℤ f i }
    ensures exchanged { (f : ℕ → ℕ → ℤ) (m n : ℕ) →
        sum_to (λ i. sum_to (λ j. f i j) m) n ≡ sum_to (λ j. sum_to (λ i. f i j) n) m }
    ensures not_greater { (f g : ℕ → ℤ) (n : ℕ) →
        ((i : ℕ) → i < n → (f i) ≤ℤ (g i)) → (sum_to f n) ≤ℤ (sum_to g n) }
{}
