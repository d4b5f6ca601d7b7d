//! Words of 64 bits, each a set of the registers of a round.

ghost use Rattle.std.specs.Prelude.{◌≡◌, ◌<◌, ◌-◌, ◌||◌, ◌&&◌, ◌==◌, ℕ, true, not, get_or};
ghost use Rattle.std.specs.Int.{bit_at};
ghost use Rattle.gi_verify.specs.Rounds.{IsWordOf, has};

/// How many registers a round has.
pub(crate) const WIDTH: usize = 64;

/// All of them.
pub(crate) const ALL: u64 = u64::MAX;

/// The one at a place.
pub(crate) fn one(n: usize) -> u64
    requires { n < 64 }
    ensures { IsWordOf (λ q. n == q) result }
{
    1 << n
}

/// Those in either of two words.
pub(crate) fn either(a: u64, b: u64) -> u64
    ensures { IsWordOf (λ n. has a n || has b n) result }
{
    a | b
}

/// Those in both of two words.
pub(crate) fn both(a: u64, b: u64) -> u64
    ensures { IsWordOf (λ n. has a n && has b n) result }
{
    a & b
}

/// The bits that aren't set.
#[tactic(auto, using(crate::proofs::Bits::bits_turned))]
fn turned(bits: u64) -> u64
    ensures { (n : ℕ) → n < 64 → bit_at result n ≡ 1 - bit_at bits n }
{
    !bits
}

/// Those that aren't in a word.
pub(crate) fn others(word: u64) -> u64
    ensures { IsWordOf (λ n. not (has word n)) result }
{
    turned(word)
}

/// Those in one word and not in another.
pub(crate) fn without(a: u64, b: u64) -> u64
    ensures { IsWordOf (λ n. not (has b n) && has a n) result }
{
    turned(b) & a
}

/// Whether all in one word are in another.
#[tactic(auto, using(crate::proofs::Bits::all_within))]
pub(crate) fn is_within(a: u64, b: u64) -> bool
    ensures { result ≡ true → (n : ℕ) → n < 64 → has a n ≡ true → has b n ≡ true }
{
    without(a, b) == 0
}

/// The word at a place of a list, and the empty one where there is none.
pub(crate) fn word_at(words: &[u64], place: usize) -> u64
    ensures { result ≡ get_or words.now place 0 }
{
    if place < words.len() { words[place] } else { 0 }
}
