//! Sets of physical registers.

ghost use Rattle.std.specs.Prelude.{◌≡◌, ◌<◌, ◌-◌, ◌||◌, ◌&&◌, ◌==◌, ℕ, false, not};
ghost use Rattle.std.specs.Int.{bit_at};
ghost use Rattle.gi_verify.specs.Masks.{IsMaskOf, has};

/// A set of the 32 physical registers, a bit for each.
#[derive(Clone, Copy)]
pub(crate) struct Mask {
    bits: u32,
}

/// No registers.
#[tactic(auto, using(crate::proofs::Masking::none_in))]
pub(crate) fn none() -> Mask
    ensures { IsMaskOf (λ n. false) result }
{
    Mask { bits: 0 }
}

/// Whether a register is in a set.
#[tactic(auto, using(crate::proofs::Masking::bit_tested))]
pub(crate) fn has(mask: Mask, n: u8) -> bool
    requires { n < 32 }
    ensures { result ≡ has mask n }
{
    mask.bits >> n & 1 == 1
}

/// A set with one of the 32 registers.
fn with_bit(mask: Mask, n: u8) -> Mask
    requires { n < 32 }
    ensures { IsMaskOf (λ q. has mask q || (n == q)) result }
{
    Mask {
        bits: mask.bits | 1 << n,
    }
}

/// A set with a register, where that is one of the 32.
pub(crate) fn with(mask: Mask, n: u8) -> Mask
    ensures { IsMaskOf (λ q. has mask q || (n == q)) result }
{
    if n < 32 { with_bit(mask, n) } else { mask }
}

/// What is in either of two sets.
pub(crate) fn either(a: Mask, b: Mask) -> Mask
    ensures { IsMaskOf (λ n. has a n || has b n) result }
{
    Mask {
        bits: a.bits | b.bits,
    }
}

/// The bits that aren't set.
#[tactic(auto, using(crate::proofs::Masking::bits_turned))]
fn turned(bits: u32) -> u32
    ensures { (n : ℕ) → n < 32 → bit_at result n ≡ 1 - bit_at bits n }
{
    !bits
}

/// What is in a set, and not in another one.
pub(crate) fn without(b: Mask, a: Mask) -> Mask
    ensures { IsMaskOf (λ n. not (has a n) && has b n) result }
{
    Mask {
        bits: turned(a.bits) & b.bits,
    }
}

/// What is in both of two sets.
pub(crate) fn both(a: Mask, b: Mask) -> Mask
    ensures { IsMaskOf (λ n. has a n && has b n) result }
{
    Mask {
        bits: a.bits & b.bits,
    }
}
