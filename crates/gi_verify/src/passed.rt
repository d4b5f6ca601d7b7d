//! What stands in front of an instruction in its block, carried from each to the next.

ghost use Rattle.std.specs.Prelude.{◌≡◌, ◌<◌, ◌+◌, ◌||◌, ◌&&◌, ◌∷◌, ◌++◌, [], length, take};
ghost use Rattle.gi_mir.specs.Row.{is_terminator_op, is_unconditional_op};
ghost use Rattle.gi_meaning.specs.Runs.{is_phi};
ghost use Rattle.gi_valid.specs.Faults as faults;
ghost use Rattle.gi_verify.specs.Passed.{IsPassed};
ghost use Rattle.gi_mir.specs.Instrs.{left};

use crate::ends::is_phi;
use gi_mir::block::Numbered;
use gi_mir::instr::Instr;
use gi_mir::instrs::Instrs;

/// What the instructions in front are.
#[derive(Clone, Copy)]
pub(crate) struct Passed {
    /// One is a terminator.
    pub(crate) terminator: bool,
    /// One is an unconditional terminator.
    pub(crate) unconditional: bool,
    /// One stands behind the terminators.
    pub(crate) late: bool,
    /// Each is a phi.
    pub(crate) phis: bool,
}

/// Of no instruction.
pub(crate) fn nothing() -> Passed
    ensures { IsPassed [] result }
{
    Passed {
        terminator: false,
        unconditional: false,
        late: false,
        phis: true,
    }
}

/// Whether an instruction stands behind the terminators.
pub(crate) fn is_late(passed: Passed, front: Instrs<'_>, instr: &Instr) -> bool
    requires passed { IsPassed (left front) passed }
    ensures { result ≡ faults.is_late (left front.entry) instr.now }
{
    let _ = front;
    passed.unconditional || passed.terminator && !instr.op.is_terminator()
}

/// Whether one is a terminator, with one more instruction.
fn any_terminator(before: bool, numbered: &Numbered) -> bool
    ensures { result ≡ (before || is_terminator_op (numbered.now).1.op) }
{
    before || numbered.instr.op.is_terminator()
}

/// Whether one is an unconditional terminator, with one more instruction.
fn any_unconditional(before: bool, numbered: &Numbered) -> bool
    ensures { result ≡ (before || is_unconditional_op (numbered.now).1.op) }
{
    before || numbered.instr.op.is_unconditional()
}

/// Whether one stands behind the terminators, with one more instruction.
fn any_late(passed: Passed, front: Instrs<'_>, numbered: &Numbered) -> bool
    requires passed { IsPassed (left front) passed }
    ensures { result ≡ (passed.late || faults.is_late (left front.entry) (numbered.now).1) }
{
    passed.late || is_late(passed, front, &numbered.instr)
}

/// Whether each is a phi, with one more instruction.
fn all_phis(before: bool, numbered: &Numbered) -> bool
    ensures { result ≡ (before && is_phi (numbered.now).1) }
{
    before && is_phi(&numbered.instr)
}

/// Of one more instruction.
pub(crate) fn passed_with(passed: Passed, front: Instrs<'_>, numbered: &Numbered) -> Passed
    requires passed { IsPassed (left front) passed }
    ensures { IsPassed ((left front.entry) ++ numbered.now ∷ []) result }
{
    let terminator = any_terminator(passed.terminator, numbered);
    let unconditional = any_unconditional(passed.unconditional, numbered);
    let late = any_late(passed, front, numbered);
    let phis = all_phis(passed.phis, numbered);
    Passed {
        terminator,
        unconditional,
        late,
        phis,
    }
}
