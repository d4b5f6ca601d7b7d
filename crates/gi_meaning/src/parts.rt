//! Values merged from parts and cut into parts.

ghost use Rattle.std.specs.Prelude.{◌≡◌, ◌+◌, ◌-◌, ◌*◌, ◌/◌, ◌%◌, ◌^◌, ◌<◌, ◌≤◌, length, All, IfOk};
ghost use Rattle.gi_meaning.specs.Generic.{parts_of};
ghost use Rattle.gi_meaning.specs.Plain.{merged_of};

use gi_llt::wrap;
use std::alloc::{AllocError, Global};

/// Equal parts of `w` bits put together, the first in the lowest bits.
pub fn merged_of(w: u16, values: &[u128]) -> u128
    requires positive { 0 < w }
    requires shift { w < 128 }
    requires room { w * length values.now ≤ 128 }
    requires fits { All (λ value. value < 2 ^ w) values.now }
    ensures { result ≡ merged_of w values.now }
{
    let mut total: u128 = 0;
    for done in 0..values.len() {
        let i = values.len() - 1 - done;
        total = values[i] + (total << w);
    }
    total
}

/// A value without its low bits.
#[tactic(auto, using(crate::proofs::Merging::wide_quotient))]
pub fn without_low(width: u16, value: u128) -> u128
    ensures { result ≡ value / 2 ^ width }
{
    if width < 128 { value >> width } else { 0 }
}

/// The low bits of a value, whatever their number.
#[tactic(auto, using(crate::proofs::Merging::wide_remainder, crate::proofs::Merging::no_remainder))]
pub fn cut(width: u16, value: u128) -> u128
    ensures { result ≡ value % 2 ^ width }
{
    if width == 0 {
        0
    } else if width < 128 {
        wrap(value, width)
    } else {
        value
    }
}

/// The parts of a value by their widths, the lowest bits first.
#[tactic(auto, using(crate::proofs::Merging::part_step))]
pub fn parts_of(alloc: Global, widths: &[u16], value: u128) -> Result<Vec<u128>, AllocError>
    ensures { IfOk result (λ parts. parts.items ≡ parts_of widths.now value) }
{
    let mut parts = Vec::new(alloc);
    let mut rest = value;
    for width in widths {
        parts.push(cut(*width, rest))?;
        rest = without_low(*width, rest);
    }
    Ok(parts)
}
