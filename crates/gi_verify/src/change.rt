//! What the front of a block makes of the registers of a round.

ghost use Rattle.std.specs.Prelude.{◌≡◌, ◌++◌, ◌∷◌, ◌||◌, ◌&&◌, [], ℕ, List, true, false, not};
ghost use Rattle.gi_mir.specs.Data.{InstrData};
ghost use Rattle.gi_meaning.specs.Runs.{is_phi};
ghost use Rattle.gi_verify.specs.Rounds.{IsChange, IsSeen, IsWordOf, has};

use crate::ends::is_phi;
use crate::round::Round;
use crate::seen::Seen;
use crate::words::{ALL, both, either, without};
use gi_mir::block::Numbered;

/// The registers that are available behind the front of a block whatever comes in, and those that are where they come in.
#[derive(Clone, Copy)]
pub(crate) struct Change {
    pub(crate) phis: bool,
    pub(crate) made: u64,
    pub(crate) kept: u64,
}

/// In front of all instructions.
#[tactic(auto, using(crate::proofs::Changing::none_changed, crate::proofs::Bits::none_in, crate::proofs::Bits::all_in))]
pub(crate) fn unchanged(round: &Round) -> Change
    ensures { IsChange round.now [] result }
{
    let _ = round;
    Change {
        phis: true,
        made: 0,
        kept: ALL,
    }
}

/// One more phi among phis, where all of them are meant at once.
fn with_phi(change: Change, seen: Seen) -> Change
    ensures phis { result.phis ≡ true }
    ensures made { IsWordOf (λ n. has change.made n || has seen.made n) result.made }
    ensures kept { IsWordOf (λ n. not (has seen.taken n) && has change.kept n) result.kept }
{
    Change {
        phis: true,
        made: either(change.made, seen.made),
        kept: without(change.kept, seen.taken),
    }
}

/// One more instruction.
fn with_other(change: Change, seen: Seen) -> Change
    ensures phis { result.phis ≡ false }
    ensures made { IsWordOf (λ n. (not (has seen.taken n) && has change.made n) || has seen.made n) result.made }
    ensures kept { IsWordOf (λ n. not (has seen.taken n) && has change.kept n) result.kept }
{
    let left = without(change.made, seen.taken);
    Change {
        phis: false,
        made: either(left, seen.made),
        kept: without(change.kept, seen.taken),
    }
}

/// Behind one more instruction.
#[tactic(auto, using(crate::proofs::Changing::phi_changed, crate::proofs::Changing::other_changed))]
pub(crate) fn change_with(round: &Round, change: Change, seen: Seen, numbered: &Numbered) -> Change
    requires { IsSeen round.now ((numbered.now).1).operands seen }
    ensures { (front : List (ℕ × InstrData)) → IsChange round.now front change → IsChange round.now (front ++ numbered.now ∷ []) result }
{
    let _ = round;
    if change.phis && is_phi(&numbered.instr) {
        with_phi(change, seen)
    } else {
        with_other(change, seen)
    }
}

/// The registers that are available behind the front, where these come in.
pub(crate) fn there_with(change: Change, here: u64) -> u64
    ensures { IsWordOf (λ n. has change.made n || (has here n && has change.kept n)) result }
{
    either(change.made, both(here, change.kept))
}
