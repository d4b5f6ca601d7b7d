//! What a written memory operand means.

ghost use Rattle.std.specs.Prelude.{◌≡◌};
ghost use Rattle.gi_spelling.specs.Printed.{usual_align};
ghost use Rattle.gi_spelling.specs.Resolved.{aligned, is_written_alignment, resolved_memory};

use gi_llt::Llt;
use gi_mir::operand::MemOp;
use gi_spelling::written::Memory;

/// The greatest alignment.
const GREATEST_SIZE: u128 = 1 << 63;

/// The alignment that need not be written.
fn usual_align(ty: Llt) -> u64
    ensures { result ≡ usual_align ty }
{
    match ty {
        Llt::Scalar(bits) => (u64::from(bits) + 7) / 8,
        Llt::Pointer => 0,
    }
}

/// A power of two or the size in bytes.
fn is_written_alignment(ty: Llt, align: u64) -> bool
    ensures { result ≡ is_written_alignment ty align }
{
    match ty {
        Llt::Scalar(_) => align.is_power_of_two() || align == usual_align(ty),
        Llt::Pointer => align.is_power_of_two(),
    }
}

/// A memory operand, where its alignment may be written.
fn aligned(memory: Memory) -> Option<MemOp>
    ensures { result ≡ aligned memory memory.align }
{
    let align = match memory.align {
        None => usual_align(memory.ty),
        Some(written) => {
            let align = written.min(GREATEST_SIZE) as u64;
            if !is_written_alignment(memory.ty, align) {
                return None;
            }
            align
        }
    };
    Some(MemOp {
        load: memory.load,
        ty: memory.ty,
        align,
    })
}

/// The memory operand of an instruction, if it has one.
pub(crate) fn resolved_memory(memory: Option<Memory>) -> Option<Option<MemOp>>
    ensures { result ≡ resolved_memory memory }
{
    match memory {
        None => Some(None),
        Some(memory) => match aligned(memory) {
            None => None,
            Some(access) => Some(Some(access)),
        },
    }
}
