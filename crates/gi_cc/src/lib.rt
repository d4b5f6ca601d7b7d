//! The integer calling convention: in which registers the arguments of a call are passed.
#![tactic(auto)]

ghost use Rattle.std.specs.Prelude.{◌≡◌, ◌⊎◌, ◌+◌, ◌^◌, ◌<◌, ◌≤◌, IsTrue, length, sum_by, take};
ghost use Rattle.std.specs.List.{list_all};
ghost use Rattle.gi_cc.specs.Assigned.{assigned, is_passable, plan_of, words_of};

pub mod laws;

use gi_llt::{Arg, Target};

/// The registers `x10` to `x17`, in which arguments are passed.
const REGISTERS: u32 = 8;

/// The register of the first word.
const FIRST_REGISTER: u8 = 10;

/// Where the arguments of a call are passed. Of each of the first `count` it tells the first register and the number of
/// words; the further places hold 0.
#[derive(Clone, Copy, Debug, PartialEq, Eq)]
pub struct Plan {
    pub first: [u8; 8],
    pub words: [u8; 8],
    pub count: u8,
}

/// Why arguments aren't passed in registers.
#[derive(Clone, Copy, Debug, PartialEq, Eq)]
pub enum CcError {
    /// They have so many words, which are more than the registers.
    StackArgument(u32),
}

/// How many words an argument has.
fn words_of(arg: Arg, target: Target) -> u8
    ensures words { result ≡ words_of target.xlen arg }
    ensures few { result ≤ 2 }
{
    if arg.pointer || arg.bits <= target.xlen {
        1
    } else {
        2
    }
}

/// How many words the arguments have.
fn word_count(args: &[Arg], target: Target) -> u32
    requires { length args.now < 2 ^ 30 }
    ensures { result ≡ sum_by (words_of target.xlen) args.now }
{
    let mut count = 0;
    for arg in args {
        count += u32::from(words_of(*arg, target));
    }
    count
}

/// The plan for arguments that have registers enough.
fn plan_for(args: &[Arg], target: Target) -> Plan
    requires { sum_by (words_of target.xlen) args.now ≤ 8 }
    ensures { result ≡ plan_of target.xlen args.now }
{
    let mut plan = Plan {
        first: [0; 8],
        words: [0; 8],
        count: 0,
    };
    let mut next = FIRST_REGISTER;
    for (place, arg) in args.iter().enumerate() {
        let words = words_of(*arg, target);
        plan.first[place] = next;
        plan.words[place] = words;
        next += words;
    }
    plan.count = args.len() as u8;
    plan
}

/// Where these arguments are passed, or how many words they have where these are more than the registers.
pub fn assign(args: &[Arg], target: Target) -> Result<Plan, CcError>
    requires machine { (target.xlen ≡ 32) ⊎ (target.xlen ≡ 64) }
    requires few { length args.now < 2 ^ 30 }
    requires passable { IsTrue (list_all (is_passable target.xlen) args.now) }
    ensures { result ≡ assigned target.xlen args.now }
{
    let words = word_count(args, target);
    if words > REGISTERS {
        Err(CcError::StackArgument(words))
    } else {
        Ok(plan_for(args, target))
    }
}
