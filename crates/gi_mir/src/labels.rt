//! Labels, by which the instructions of one block are compared.

ghost use Rattle.std.specs.Prelude.{◌≡◌, ◌+◌, ◌<◌, ◌≤◌, ◌^◌, IfSome};

use crate::block::InstrId;

/// All labels are above 0 and below this.
pub(crate) const END: usize = 1 << 62;

/// How far a label lies from the one before it, where there is room.
const STRIDE: usize = 1 << 30;

/// Neighbours in a block: the first, the last, and how many they are.
#[derive(Clone, Copy)]
pub(crate) struct Run {
    pub(crate) first: InstrId,
    pub(crate) last: InstrId,
    pub(crate) count: usize,
}

/// Labels from one on and below another.
#[derive(Clone, Copy)]
pub(crate) struct Span {
    pub(crate) low: usize,
    pub(crate) end: usize,
}

impl Run {
    /// One instruction.
    pub(crate) fn of(id: InstrId) -> Run
        ensures first { result.first ≡ id }
        ensures last { result.last ≡ id }
        ensures count { result.count ≡ 1 }
    {
        Run {
            first: id,
            last: id,
            count: 1,
        }
    }
}

impl Span {
    /// The span of 2^bits labels that has this one and begins at a multiple of its size.
    pub(crate) fn around(label: usize, bits: u32) -> Span
        requires label { label < 2 ^ 62 }
        requires bits { bits < 62 }
        ensures begins { result.low ≤ label }
        ensures ends { label < result.end }
        ensures size { result.end ≡ result.low + 2 ^ bits }
        ensures within { result.end ≤ 2 ^ 62 }
    {
        let size = 1usize << bits;
        let low = label / size * size;
        Span {
            low,
            end: low + size,
        }
    }
}

/// A label between two others, if there is one: a stride from the lower one, or half way. A rewriting puts one
/// instruction after the other before the same place, and halving alone would soon have no label left there.
pub(crate) fn between(low: usize, high: usize) -> Option<usize>
    requires { low < high }
    ensures { IfSome result (λ label. (low < label) × (label < high)) }
{
    let half = (high - low) / 2;
    if half == 0 {
        None
    } else {
        Some(low + half.min(STRIDE))
    }
}
