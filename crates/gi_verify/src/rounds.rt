//! A round: what the blocks of a function make of its registers, and whether guesses at it are right.

ghost use Rattle.std.specs.Prelude.{◌≡◌, ◌<◌, ◌++◌, ◌∷◌, [], ℕ, List, true, IfOk, IfSome, OnOk, length, get_or};
ghost use Rattle.gi_mir.specs.Data.{InstrData};
ghost use Rattle.gi_mir.specs.Edit.{block_at};
ghost use Rattle.gi_verify.specs.Rounds.{AreChanges, AreMadeInReach, AreWithin, IsApartAt, IsClosed, IsComputedAt, IsJoinedAt, IsPassedOver, IsSeen, has};
ghost use Rattle.gi_verify.specs.Sets.{AreReachedBlocks};

use crate::change::{Change, change_with, there_with, unchanged};
use crate::operands::is_pure;
use crate::round::Round;
use crate::seen::{Seen, seen_at};
use crate::words::{both, either, is_within, word_at};
use gi_llt::Memory;
use gi_mir::block::Numbered;
use gi_mir::function::Function;
use std::alloc::Global;

/// What a block makes of the registers of a round, and whether all that its pure definitions use is known to be what their
/// registers are computed from.
#[derive(Clone, Copy)]
struct Block {
    change: Change,
    is_computed: bool,
}

/// Whether two words have nothing in common.
#[tactic(auto, using(crate::proofs::Bits::none_shared))]
fn is_apart(a: u64, b: u64) -> bool
    ensures { result ≡ true → (n : ℕ) → n < 64 → has a n ≡ true → has b n ≡ true → ⊥ }
{
    both(a, b) == 0
}

/// Whether what an instruction uses is known to be what its registers are computed from, where it is pure.
#[tactic(auto, using(crate::proofs::Using::computed_at, crate::proofs::Using::never_pure))]
fn is_computed_at(round: &Round, numbered: &Numbered, seen: Seen) -> bool
    requires { IsSeen round.now ((numbered.now).1).operands seen }
    ensures { result ≡ true → IsComputedAt round.now numbered.now }
{
    let _ = round;
    is_apart(either(seen.made, seen.taken), seen.strange) || !is_pure(&numbered.instr)
}

/// Whether it is known of the instructions in front, and of one more.
fn is_computed_with(round: &Round, before: bool, numbered: &Numbered, seen: Seen) -> bool
    requires { IsSeen round.now ((numbered.now).1).operands seen }
    ensures before { result ≡ true → before ≡ true }
    ensures here { result ≡ true → IsComputedAt round.now numbered.now }
{
    before && is_computed_at(round, numbered, seen)
}

/// Behind one more instruction.
fn passed_with(round: &Round, passed: Block, numbered: &Numbered) -> Block
    ensures { (front : List (ℕ × InstrData)) → IsPassedOver round.now front passed → IsPassedOver round.now (front ++ numbered.now ∷ []) result }
{
    let seen = seen_at(round, numbered);
    let is_computed = is_computed_with(round, passed.is_computed, numbered, seen);
    Block {
        change: change_with(round, passed.change, seen, numbered),
        is_computed,
    }
}

/// What a block makes.
#[tactic(auto, using(crate::proofs::Gathering::over_none, crate::proofs::Gathering::over_all))]
fn passed_in(round: &Round, function: &Function, b: u32) -> Block
    requires { b < length function.now.blocks }
    ensures { IsPassedOver round.now (block_at function.now b).instrs result }
{
    let mut passed = Block {
        change: unchanged(round),
        is_computed: true,
    };
    for numbered in function.instrs(b) {
        passed = passed_with(round, passed, numbered);
    }
    passed
}

/// Puts what a block makes behind that of others.
fn push_change(changes: &mut Vec<Change>, change: Change) -> Result<(), Memory>
    ensures { OnOk result (changes.new.items ≡ changes.old.items ++ change ∷ []) }
{
    match changes.push(change) {
        Ok(()) => Ok(()),
        Err(_) => Err(Memory),
    }
}

/// What each block makes, and nothing where registers are computed from more than is known.
pub(crate) fn changes_of(
    alloc: Global,
    round: &Round,
    function: &Function,
) -> Result<Option<Vec<Change>>, Memory>
    ensures { IfOk result (λ found. IfSome found (λ changes. AreChanges function.now round.now changes.items)) }
{
    let mut changes = Vec::new(alloc);
    for b in 0..function.block_count() {
        let passed = passed_in(round, function, b);
        if !passed.is_computed {
            return Ok(None);
        }
        push_change(&mut changes, passed.change)?;
    }
    Ok(Some(changes))
}

/// Whether a block loses nothing that is available at the start of a successor, where it is reached.
#[tactic(auto, using(crate::proofs::Gathering::joined_at, crate::proofs::Gathering::joined_out))]
fn is_joined_at(
    function: &Function,
    reached: &[bool],
    changes: &[Change],
    starts: &[u64],
    a: u32,
) -> bool
    requires within { a < length function.now.blocks }
    requires reached { length reached.now ≡ length function.now.blocks }
    requires count { length changes.now ≡ length function.now.blocks }
    ensures { result ≡ true → IsJoinedAt function.now reached.now changes.now starts.now a }
{
    let place = a as usize;
    if !reached[place] {
        return true;
    }
    let end = there_with(changes[place], word_at(starts, place));
    are_within(starts, function.block(a).successors.as_slice(), end)
}

/// Whether all that is available at the start of these blocks is in a word.
#[tactic(auto, using(crate::proofs::Gathering::within_none, crate::proofs::Gathering::within_all))]
fn are_within(starts: &[u64], blocks: &[u32], end: u64) -> bool
    ensures { result ≡ true → AreWithin starts.now blocks.now end }
{
    for b in blocks {
        if !is_within(word_at(starts, *b as usize), end) {
            return false;
        }
    }
    true
}

/// Whether all blocks lose nothing that is available at the start of a successor, where they are reached.
fn are_joined(function: &Function, reached: &[bool], changes: &[Change], starts: &[u64]) -> bool
    requires reached { length reached.now ≡ length function.now.blocks }
    requires count { length changes.now ≡ length function.now.blocks }
    ensures { result ≡ true → (a : ℕ) → a < length function.now.blocks → IsJoinedAt function.now reached.now changes.now starts.now a }
{
    for a in 0..function.block_count() {
        if !is_joined_at(function, reached, changes, starts, a) {
            return false;
        }
    }
    true
}

/// What is made in reached blocks, with what one more block makes, where it is one.
#[tactic(auto, using(crate::proofs::Gathering::made_on))]
fn made_with(
    round: &Round,
    function: &Function,
    reached: &[bool],
    changes: &[Change],
    made: u64,
    a: u32,
) -> u64
    requires reached { length reached.now ≡ length function.now.blocks }
    requires changes { AreChanges function.now round.now changes.now }
    requires within { a < length function.now.blocks }
    requires made { AreMadeInReach function.now round.now reached.now made }
    ensures { AreMadeInReach function.now round.now reached.now result }
{
    let _ = round;
    let _ = function;
    if reached[a as usize] {
        either(made, changes[a as usize].made)
    } else {
        made
    }
}

/// What is made in reached blocks.
#[tactic(auto, using(crate::proofs::Gathering::made_none))]
fn made_in_reach(round: &Round, function: &Function, reached: &[bool], changes: &[Change]) -> u64
    requires reached { length reached.now ≡ length function.now.blocks }
    requires changes { AreChanges function.now round.now changes.now }
    ensures { AreMadeInReach function.now round.now reached.now result }
{
    let mut made = 0;
    for a in 0..function.block_count() {
        made = made_with(round, function, reached, changes, made, a);
    }
    made
}

/// Whether at the start of a block only what is made in reached ones is available, where it isn't one.
#[tactic(auto, using(crate::proofs::Gathering::apart_at, crate::proofs::Gathering::apart_in))]
fn is_apart_at(reached: &[bool], starts: &[u64], made: u64, b: u32) -> bool
    requires { b < length reached.now }
    ensures { result ≡ true → IsApartAt reached.now starts.now made b }
{
    reached[b as usize] || is_within(word_at(starts, b as usize), made)
}

/// Whether it is so of all blocks.
fn are_apart(function: &Function, reached: &[bool], starts: &[u64], made: u64) -> bool
    requires { length reached.now ≡ length function.now.blocks }
    ensures { result ≡ true → (b : ℕ) → b < length function.now.blocks → IsApartAt reached.now starts.now made b }
{
    for b in 0..function.block_count() {
        if !is_apart_at(reached, starts, made, b) {
            return false;
        }
    }
    true
}

/// Whether there is a word for each block, and nothing is available at the function's start.
fn is_begun(function: &Function, starts: &[u64]) -> bool
    ensures count { result ≡ true → length starts.now ≡ length function.now.blocks }
    ensures first { result ≡ true → get_or starts.now 0 0 ≡ 0 }
{
    starts.len() == function.block_count() as usize && word_at(starts, 0) == 0
}

/// Whether registers are available at the start of blocks where this is said of them.
pub(crate) fn is_closed(
    round: &Round,
    function: &Function,
    reached: &[bool],
    changes: &[Change],
    starts: &[u64],
) -> bool
    requires reached { AreReachedBlocks function.now reached.now }
    requires changes { AreChanges function.now round.now changes.now }
    ensures { result ≡ true → IsClosed function.now round.now starts.now }
{
    let made = made_in_reach(round, function, reached, changes);
    if !is_begun(function, starts) || !are_joined(function, reached, changes, starts) {
        return false;
    }
    are_apart(function, reached, starts, made)
}
