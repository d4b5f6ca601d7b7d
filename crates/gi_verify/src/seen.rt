//! What an instruction does with the registers of a round.

ghost use Rattle.std.specs.Prelude.{◌≡◌, ◌||◌, not};
ghost use Rattle.gi_verify.specs.Rounds.{IsSeen, IsSeenOn, IsWordOf, has, is_named, is_taken};

use crate::round::Round;
use crate::words::{either, others};
use gi_mir::block::Numbered;
use gi_mir::operand::Operand;

/// What operands define, what these definitions take away, what they use, and what isn't computed from all that they use.
#[derive(Clone, Copy)]
pub(crate) struct Seen {
    pub(crate) made: u64,
    pub(crate) taken: u64,
    pub(crate) used: u64,
    pub(crate) strange: u64,
}

/// The same with a definition.
fn with_definition(round: &Round, seen: Seen, r: u32) -> Seen
    ensures made { IsWordOf (λ n. has seen.made n || is_named round.now n r) result.made }
    ensures taken { IsWordOf (λ n. has seen.taken n || is_taken round.now n r) result.taken }
    ensures used { result.used ≡ seen.used }
    ensures strange { result.strange ≡ seen.strange }
{
    let role = round.role(r);
    Seen {
        made: either(seen.made, role.named),
        taken: either(seen.taken, role.taken),
        ..seen
    }
}

/// The same with a use.
fn with_use(round: &Round, seen: Seen, r: u32) -> Seen
    ensures made { result.made ≡ seen.made }
    ensures taken { result.taken ≡ seen.taken }
    ensures used { IsWordOf (λ n. has seen.used n || is_named round.now n r) result.used }
    ensures strange { IsWordOf (λ n. has seen.strange n || not (is_taken round.now n r)) result.strange }
{
    let role = round.role(r);
    Seen {
        used: either(seen.used, role.named),
        strange: either(seen.strange, others(role.taken)),
        ..seen
    }
}

/// The same with an operand.
#[tactic(auto, using(crate::proofs::Roles::seen_definition, crate::proofs::Roles::seen_use, crate::proofs::Roles::seen_nothing))]
fn with_operand(round: &Round, seen: Seen, operand: Operand) -> Seen
    ensures { IsSeenOn round.now seen operand result }
{
    match operand {
        Operand::Def(r, _) => with_definition(round, seen, r.0),
        Operand::Use(r) => with_use(round, seen, r.0),
        _ => seen,
    }
}

/// What operands do.
#[tactic(auto, using(crate::proofs::Roles::seen_none, crate::proofs::Roles::seen_all))]
fn seen_in(round: &Round, operands: &[Operand]) -> Seen
    ensures { IsSeen round.now operands.now result }
{
    let mut seen = Seen {
        made: 0,
        taken: 0,
        used: 0,
        strange: 0,
    };
    for operand in operands {
        seen = with_operand(round, seen, *operand);
    }
    seen
}

/// The operands of an instruction.
fn operands_of(numbered: &Numbered) -> &[Operand]
    ensures { result.now ≡ ((numbered.now).1).operands }
{
    numbered.instr.operands.as_slice()
}

/// What an instruction does.
pub(crate) fn seen_at(round: &Round, numbered: &Numbered) -> Seen
    ensures { IsSeen round.now ((numbered.now).1).operands result }
{
    seen_in(round, operands_of(numbered))
}
