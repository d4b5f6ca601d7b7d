//! The verifier.

ghost use Rattle.std.specs.Prelude.{◌≡◌, ◌⊎◌, OnOk, IfOk, IfErr};
ghost use Rattle.gi_valid.specs.Typing.{phase_of};
ghost use Rattle.gi_valid.specs.Valid.{IsValid};
ghost use Rattle.gi_verify.specs.Refusal.{IsRefused};
ghost use Rattle.gi_verify.specs.Sets.{IsLowestFault};

use crate::definitions::lowest_double;
use crate::noting::with_cover;
use crate::predecessors::{has_way_back, predecessors_of};
use crate::reached::reached;
use crate::settled::order_of;
use crate::site::{tell_sites, tell_successors};
use gi_llt::{Memory, Target};
use gi_mir::function::Function;
use gi_mir::stage::Stage;
use gi_valid::{Fault, Invalid};
use std::alloc::Global;

/// Why a function isn't verified: a fault on a line, or want of memory.
#[derive(Clone, Copy, Debug, PartialEq, Eq)]
pub enum VerifyError {
    Invalid { line: u32, what: Invalid },
    Memory,
}

/// The fault of the lowest line, where there is one.
fn lowest_fault(
    alloc: Global,
    function: &Function,
    target: Target,
    stage: Stage,
) -> Result<Option<Fault>, Memory>
    requires { (target.xlen ≡ 32) ⊎ (target.xlen ≡ 64) }
    ensures { IfOk result (λ lowest. IsLowestFault target.xlen (phase_of stage) function.now lowest) }
{
    let reached = reached(alloc, function)?;
    let predecessors = predecessors_of(alloc, function)?;
    let double = lowest_double(alloc, function)?;
    let again = double.is_some();
    let settled = order_of(alloc, function, reached.as_slice(), &predecessors, again)?;
    let order = with_cover(alloc, function, settled, reached.as_slice(), double)?;
    let way_back = has_way_back(function, &predecessors);
    let lowest = tell_sites(
        alloc,
        target,
        stage,
        function,
        reached.as_slice(),
        &order,
        &predecessors,
        way_back,
        double,
    )?;
    Ok(tell_successors(function, lowest))
}

/// Answers Ok exactly where a function is valid, and otherwise the fault of the lowest line: on one line in the order
/// of the kinds of faults, of one kind the first in layout.
pub fn verify(
    alloc: Global,
    function: &Function,
    target: Target,
    stage: Stage,
) -> Result<(), VerifyError>
    requires { (target.xlen ≡ 32) ⊎ (target.xlen ≡ 64) }
    ensures ok { OnOk result (IsValid target.xlen (phase_of stage) function.now) }
    ensures refused { IfErr result (λ error. IsRefused target.xlen (phase_of stage) function.now error) }
{
    match lowest_fault(alloc, function, target, stage) {
        Ok(Some(fault)) => Err(VerifyError::Invalid {
            line: fault.line,
            what: fault.what,
        }),
        Ok(None) => Ok(()),
        Err(_) => Err(VerifyError::Memory),
    }
}
