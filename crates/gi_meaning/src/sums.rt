//! Sums, differences and products of values.

ghost use Rattle.std.specs.Prelude.{◌≡◌, ◌+◌, ◌-◌, ◌*◌, ◌^◌, ◌<◌, ◌≤◌, nat_le, nat_lt, ◌+ℤ◌, ◌-ℤ◌, ◌*ℤ◌, not, ◌==◌};
ghost use Rattle.gi_llt.specs.Bits.{signed, wrapped};
ghost use Rattle.gi_meaning.specs.Generic as generic;
ghost use Rattle.gi_meaning.specs.Given.{unless_broken};
ghost use Rattle.gi_meaning.specs.Plain.{with_sign, given_of, differ};

use crate::bits::{bits_of, greatest, is_negative, sign_bit, size};
use crate::gives::Gives;
use gi_llt::wrap;
use gi_mir::operand::Flags;

/// The value, or any where a promise about it is broken.
pub fn unless_broken(broken: bool, n: u16, value: u128) -> Gives
    ensures { given_of result ≡ unless_broken broken n value }
{
    if broken {
        Gives::LowBits {
            known: 0,
            width: n,
            value: 0,
        }
    } else {
        Gives::One(value)
    }
}

/// Whether two signs differ.
pub fn differ(left: bool, right: bool) -> bool
    ensures { result ≡ differ left right }
{
    if left { !right } else { right }
}

/// Whether the number of this sign and size is none of so many bits with a sign.
pub fn leaves_signed(n: u16, negative: bool, size: u128) -> bool
    requires positive { 0 < n }
    requires limit { n ≤ 128 }
    ensures { result ≡ generic.leaves_signed n (with_sign negative size) }
{
    if negative {
        size > sign_bit(n)
    } else {
        size >= sign_bit(n)
    }
}

/// Whether a sum leaves the values with a sign.
#[tactic(auto, using(crate::proofs::Numbers::sum_leaves))]
pub fn sum_leaves_signed(n: u16, a: u128, b: u128) -> bool
    requires positive { 0 < n }
    requires limit { n ≤ 128 }
    requires a_fits { a < 2 ^ n }
    requires b_fits { b < 2 ^ n }
    ensures { result ≡ generic.leaves_signed n (signed n a +ℤ signed n b) }
{
    let negative = is_negative(n, a);
    if differ(negative, is_negative(n, b)) {
        return false;
    }
    match size(n, a).checked_add(size(n, b)) {
        Some(sum) => leaves_signed(n, negative, sum),
        None => true,
    }
}

/// Whether a difference leaves the values with a sign.
pub fn difference_leaves_signed(n: u16, a: u128, b: u128) -> bool
    requires positive { 0 < n }
    requires limit { n ≤ 128 }
    requires a_fits { a < 2 ^ n }
    requires b_fits { b < 2 ^ n }
    ensures { result ≡ generic.leaves_signed n (signed n a -ℤ signed n b) }
{
    let negative = is_negative(n, a);
    if !differ(negative, is_negative(n, b)) {
        return false;
    }
    match size(n, a).checked_add(size(n, b)) {
        Some(sum) => leaves_signed(n, negative, sum),
        None => true,
    }
}

/// Whether the product of two numbers by their signs and sizes leaves the values with a sign.
#[tactic(auto, using(crate::proofs::Numbers::leaves_too_great))]
pub fn product_leaves_signed(n: u16, negative: bool, left: u128, right: u128) -> bool
    requires positive { 0 < n }
    requires limit { n ≤ 128 }
    ensures { result ≡ generic.leaves_signed n (with_sign negative (left * right)) }
{
    match left.checked_mul(right) {
        Some(product) => leaves_signed(n, negative, product),
        None => true,
    }
}

/// Whether the product of two values has more than so many bits.
#[tactic(auto, using(crate::proofs::Numbers::too_great))]
pub fn product_has_more_bits(n: u16, a: u128, b: u128) -> bool
    requires positive { 0 < n }
    requires limit { n ≤ 128 }
    ensures { result ≡ nat_le (2 ^ n) (a * b) }
{
    match a.checked_mul(b) {
        Some(product) => product > greatest(n),
        None => true,
    }
}

/// The low bits of a sum.
#[tactic(auto, using(crate::proofs::Numbers::wrapped_twice))]
pub fn low_sum(n: u16, a: u128, b: u128) -> u128
    requires positive { 0 < n }
    requires limit { n ≤ 128 }
    ensures { result ≡ wrapped n (a + b) }
{
    wrap(a.wrapping_add(b), n)
}

/// The low bits of a product.
#[tactic(auto, using(crate::proofs::Numbers::wrapped_twice))]
pub fn low_product(n: u16, a: u128, b: u128) -> u128
    requires positive { 0 < n }
    requires limit { n ≤ 128 }
    ensures { result ≡ wrapped n (a * b) }
{
    wrap(a.wrapping_mul(b), n)
}

/// What a difference gives, without any promise.
pub fn low_difference(n: u16, a: u128, b: u128) -> u128
    requires positive { 0 < n }
    requires limit { n ≤ 128 }
    ensures { result ≡ generic.difference_of n a b }
{
    if a < b {
        bits_of(n, true, b - a)
    } else {
        wrap(a - b, n)
    }
}

/// What `G_ADD` gives.
pub fn sum(flags: Flags, n: u16, a: u128, b: u128) -> Gives
    requires positive { 0 < n }
    requires limit { n ≤ 128 }
    requires a_fits { a < 2 ^ n }
    requires b_fits { b < 2 ^ n }
    ensures { given_of result ≡ generic.sum flags n a b }
{
    let broken = flags.nuw && a > greatest(n) - b || flags.nsw && sum_leaves_signed(n, a, b);
    unless_broken(broken, n, low_sum(n, a, b))
}

/// What `G_SUB` gives.
pub fn difference(flags: Flags, n: u16, a: u128, b: u128) -> Gives
    requires positive { 0 < n }
    requires limit { n ≤ 128 }
    requires a_fits { a < 2 ^ n }
    requires b_fits { b < 2 ^ n }
    ensures { given_of result ≡ generic.difference flags n a b }
{
    let broken = flags.nuw && a < b || flags.nsw && difference_leaves_signed(n, a, b);
    unless_broken(broken, n, low_difference(n, a, b))
}

/// Whether the product of two values with signs leaves them.
#[tactic(auto, using(crate::proofs::Numbers::signed_product))]
pub fn signed_product_leaves(n: u16, a: u128, b: u128) -> bool
    requires positive { 0 < n }
    requires limit { n ≤ 128 }
    requires a_fits { a < 2 ^ n }
    requires b_fits { b < 2 ^ n }
    ensures { result ≡ generic.leaves_signed n (signed n a *ℤ signed n b) }
{
    let negative = differ(is_negative(n, a), is_negative(n, b));
    product_leaves_signed(n, negative, size(n, a), size(n, b))
}

/// What `G_MUL` gives.
pub fn product(flags: Flags, n: u16, a: u128, b: u128) -> Gives
    requires positive { 0 < n }
    requires limit { n ≤ 128 }
    requires a_fits { a < 2 ^ n }
    requires b_fits { b < 2 ^ n }
    ensures { given_of result ≡ generic.product flags n a b }
{
    let broken = flags.nuw && product_has_more_bits(n, a, b)
        || flags.nsw && signed_product_leaves(n, a, b);
    unless_broken(broken, n, low_product(n, a, b))
}

/// One where a test holds, and else zero.
pub fn bit_of(holds: bool) -> u128
    ensures { result ≡ generic.bit_of holds }
{
    if holds { 1 } else { 0 }
}

/// Whether the sum of two values and a carry has more than so many bits.
pub fn sum_carries(n: u16, a: u128, b: u128, carry: u128) -> bool
    requires positive { 0 < n }
    requires limit { n ≤ 128 }
    requires a_fits { a < 2 ^ n }
    requires b_fits { b < 2 ^ n }
    requires bit { carry < 2 }
    ensures { result ≡ nat_le (2 ^ n) (a + b + carry) }
{
    let room = greatest(n) - b;
    a > room || a == room && carry == 1
}

/// Whether the difference of two values less a borrow is below zero.
pub fn difference_borrows(a: u128, b: u128, borrow: u128) -> bool
    requires { borrow < 2 }
    ensures { result ≡ nat_lt a (b + borrow) }
{
    a < b || a == b && borrow == 1
}

/// The low bits of the sum of two values and a carry.
#[tactic(auto, using(crate::proofs::Numbers::wrapped_whole))]
pub fn low_sum_and_carry(n: u16, a: u128, b: u128, carry: u128) -> u128
    requires positive { 0 < n }
    requires limit { n ≤ 128 }
    requires a_fits { a < 2 ^ n }
    requires b_fits { b < 2 ^ n }
    requires bit { carry < 2 }
    ensures { result ≡ wrapped n (a + b + carry) }
{
    match b.checked_add(carry) {
        Some(more) => low_sum(n, a, more),
        None => a,
    }
}

/// The low bits of the difference of two values less a borrow.
#[tactic(auto, using(crate::proofs::Numbers::difference_whole))]
pub fn low_difference_and_borrow(n: u16, a: u128, b: u128, borrow: u128) -> u128
    requires positive { 0 < n }
    requires limit { n ≤ 128 }
    requires a_fits { a < 2 ^ n }
    requires b_fits { b < 2 ^ n }
    requires bit { borrow < 2 }
    ensures { result ≡ generic.difference_of n a (b + borrow) }
{
    match b.checked_add(borrow) {
        Some(less) => low_difference(n, a, less),
        None => a,
    }
}

/// What `G_UADDE` gives: the sum of two values and a carry, and the carry out of it.
pub fn sum_with_carry(n: u16, a: u128, b: u128, carry: u128) -> Gives
    requires positive { 0 < n }
    requires limit { n ≤ 128 }
    requires a_fits { a < 2 ^ n }
    requires b_fits { b < 2 ^ n }
    requires bit { carry < 2 }
    ensures { given_of result ≡ generic.sum_with_carry n a b carry }
{
    let value = low_sum_and_carry(n, a, b, carry);
    Gives::Two(value, bit_of(sum_carries(n, a, b, carry)))
}

/// What `G_USUBE` gives: the difference of two values less a borrow, and the borrow out of it.
pub fn difference_with_borrow(n: u16, a: u128, b: u128, borrow: u128) -> Gives
    requires positive { 0 < n }
    requires limit { n ≤ 128 }
    requires a_fits { a < 2 ^ n }
    requires b_fits { b < 2 ^ n }
    requires bit { borrow < 2 }
    ensures { given_of result ≡ generic.difference_with_borrow n a b borrow }
{
    let value = low_difference_and_borrow(n, a, b, borrow);
    Gives::Two(value, bit_of(difference_borrows(a, b, borrow)))
}
