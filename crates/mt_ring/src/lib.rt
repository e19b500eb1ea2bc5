//! The laws of the ring of integers, the signs of products and the sizes of products, as lemmas.
//!
//! The lemmas are in `proofs/`: `Ring` (the laws, and the two sets of rules `spread` and `lin`),
//! `Signs` (products of known sign, factors that go out) and `Sizes` (bounds of sums and products,
//! and what fits a signed type). The one function here carries the laws in its contract.
#![tactic(auto)]

ghost use Rattle.std.specs.Prelude.{◌≡◌, ◌<ℤ◌, ◌≤ℤ◌, ◌*ℤ◌, ◌+ℤ◌, neg_ℤ, pos, ℤ};

/// The laws that the lemmas of this crate carry: integers form a commutative ring, the product of
/// two numbers that aren't negative isn't negative, that of two positive numbers is positive, and
/// no square is negative. It does nothing.
pub fn ring_laws()
    ensures commutes { (a b : ℤ) → a *ℤ b ≡ b *ℤ a }
    ensures associates { (a b c : ℤ) → (a *ℤ b) *ℤ c ≡ a *ℤ (b *ℤ c) }
    ensures distributes { (a b c : ℤ) → a *ℤ (b +ℤ c) ≡ a *ℤ b +ℤ a *ℤ c }
    ensures negates { (a b : ℤ) → a *ℤ neg_ℤ b ≡ neg_ℤ (a *ℤ b) }
    ensures positive { (a b : ℤ) → pos 0 <ℤ a → pos 0 <ℤ b → pos 0 <ℤ (a *ℤ b) }
    ensures never_negative { (a b : ℤ) → pos 0 ≤ℤ a → pos 0 ≤ℤ b → pos 0 ≤ℤ (a *ℤ b) }
    ensures squares { (a : ℤ) → pos 0 ≤ℤ (a *ℤ a) }
{}
