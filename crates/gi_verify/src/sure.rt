//! Instructions whose uses are sure: what they use of the registers of a round is available.

ghost use Rattle.std.specs.Prelude.{◌≡◌, ◌<◌, ℕ, List, Some, true, false, OnOk, IfOk, length};
ghost use Rattle.gi_mir.specs.Data.{InstrData};
ghost use Rattle.gi_meaning.specs.Runs.{is_phi};
ghost use Rattle.gi_verify.specs.Rounds.{AreChanges, AreSureEntries, AreSureIn, AreSureOf, IsChange, IsClosed, IsSeen, IsShrunk, IsSure, IsSureEntry};
ghost use Rattle.gi_verify.specs.Sets.{AreReachedBlocks, marked};

use crate::blocks::entry_of;
use crate::change::{Change, change_with, there_with, unchanged};
use crate::ends::is_phi;
use crate::round::Round;
use crate::rounds::{changes_of, is_closed};
use crate::seen::{Seen, seen_at};
use crate::spread::starts_of;
use crate::words::{is_within, word_at};
use gi_llt::Memory;
use gi_mir::block::{InstrId, Numbered};
use gi_mir::function::Function;
use gi_mir::operand::Operand;
use std::alloc::Global;

/// Takes the mark of an instruction away.
fn unmark(fine: &mut Vec<bool>, id: InstrId)
    ensures { (k : ℕ) → marked fine.new.items k ≡ true → (marked fine.old.items k ≡ true) × (k ≡ id.0 → ⊥) }
{
    if id.0 < fine.len() {
        fine[id.0] = false;
    }
}

/// Whether the register of an entry of a phi is available at the end of its block, where a round is about it.
fn is_sure_entry(
    round: &Round,
    function: &Function,
    changes: &[Change],
    starts: &[u64],
    entry: Option<(u32, u32)>,
) -> bool
    requires changes { AreChanges function.now round.now changes.now }
    requires closed { IsClosed function.now round.now starts.now }
    ensures { result ≡ true → IsSureEntry function.now round.now entry }
{
    match entry {
        Some((r, a)) => is_sure_end(round, function, changes, starts, r, a),
        None => true,
    }
}

/// Whether a register is available at the end of a block, where there is that block and a round is about the register.
fn is_sure_end(
    round: &Round,
    function: &Function,
    changes: &[Change],
    starts: &[u64],
    r: u32,
    a: u32,
) -> bool
    requires changes { AreChanges function.now round.now changes.now }
    requires closed { IsClosed function.now round.now starts.now }
    ensures { result ≡ true → IsSureEntry function.now round.now (Some (r, a)) }
{
    if a < function.block_count() {
        let end = there_with(changes[a as usize], word_at(starts, a as usize));
        is_within(round.role(r).named, end)
    } else {
        true
    }
}

/// Whether it is so of all entries of a phi.
fn are_sure_entries(
    round: &Round,
    function: &Function,
    changes: &[Change],
    starts: &[u64],
    operands: &[Operand],
) -> bool
    requires changes { AreChanges function.now round.now changes.now }
    requires closed { IsClosed function.now round.now starts.now }
    ensures { result ≡ true → AreSureEntries function.now round.now operands.now }
{
    for k in 0..operands.len() {
        if !is_sure_entry(round, function, changes, starts, entry_of(&operands[k..])) {
            return false;
        }
    }
    true
}

/// Whether what an instruction uses of the registers of a round is available.
fn is_sure(
    round: &Round,
    function: &Function,
    changes: &[Change],
    starts: &[u64],
    b: u32,
    change: Change,
    seen: Seen,
    numbered: &Numbered,
) -> bool
    requires changes { AreChanges function.now round.now changes.now }
    requires closed { IsClosed function.now round.now starts.now }
    requires within { b < length function.now.blocks }
    requires seen { IsSeen round.now ((numbered.now).1).operands seen }
    ensures { result ≡ true → (front : List (ℕ × InstrData)) → IsChange round.now front change → IsSure function.now round.now b front numbered.now }
{
    if is_phi(&numbered.instr) {
        are_sure_entries(
            round,
            function,
            changes,
            starts,
            numbered.instr.operands.as_slice(),
        )
    } else {
        is_within(seen.used, there_with(change, word_at(starts, b as usize)))
    }
}

/// Takes the mark of an instruction away, where what it uses may not be available.
fn look_at(
    round: &Round,
    function: &Function,
    changes: &[Change],
    starts: &[u64],
    b: u32,
    change: Change,
    seen: Seen,
    numbered: &Numbered,
    fine: &mut Vec<bool>,
)
    requires changes { AreChanges function.now round.now changes.now }
    requires closed { IsClosed function.now round.now starts.now }
    requires within { b < length function.now.blocks }
    requires seen { IsSeen round.now ((numbered.now).1).operands seen }
    ensures shrunk { IsShrunk fine.old.items fine.new.items }
    ensures sure { marked fine.new.items (numbered.now).0 ≡ true → (front : List (ℕ × InstrData)) → IsChange round.now front change → IsSure function.now round.now b front numbered.now }
{
    if !is_sure(round, function, changes, starts, b, change, seen, numbered) {
        unmark(fine, numbered.id);
    }
}

/// The same of all instructions of a block.
fn look_in(
    round: &Round,
    function: &Function,
    changes: &[Change],
    starts: &[u64],
    b: u32,
    fine: &mut Vec<bool>,
)
    requires changes { AreChanges function.now round.now changes.now }
    requires closed { IsClosed function.now round.now starts.now }
    requires within { b < length function.now.blocks }
    ensures shrunk { IsShrunk fine.old.items fine.new.items }
    ensures sure { AreSureIn function.now round.now fine.new.items b }
{
    let mut change = unchanged(round);
    for numbered in function.instrs(b) {
        let seen = seen_at(round, numbered);
        look_at(
            round, function, changes, starts, b, change, seen, numbered, fine,
        );
        change = change_with(round, change, seen, numbered);
    }
}

/// The same of all blocks.
fn look_through(
    round: &Round,
    function: &Function,
    changes: &[Change],
    starts: &[u64],
    fine: &mut Vec<bool>,
)
    requires changes { AreChanges function.now round.now changes.now }
    requires closed { IsClosed function.now round.now starts.now }
    ensures shrunk { IsShrunk fine.old.items fine.new.items }
    ensures sure { AreSureOf function.now round.now fine.new.items }
{
    for b in 0..function.block_count() {
        look_in(round, function, changes, starts, b, fine);
    }
}

/// Looks through a function by what its blocks make, and says whether that was done.
fn look_by(
    alloc: Global,
    round: &Round,
    function: &Function,
    reached: &[bool],
    changes: &[Change],
    fine: &mut Vec<bool>,
) -> Result<bool, Memory>
    requires reached { AreReachedBlocks function.now reached.now }
    requires changes { AreChanges function.now round.now changes.now }
    ensures shrunk { OnOk result (IsShrunk fine.old.items fine.new.items) }
    ensures sure { IfOk result (λ done. done ≡ true → AreSureOf function.now round.now fine.new.items) }
{
    let starts = starts_of(alloc, function, reached, changes)?;
    if is_closed(round, function, reached, changes, starts.as_slice()) {
        look_through(round, function, changes, starts.as_slice(), fine);
        Ok(true)
    } else {
        Ok(false)
    }
}

/// Takes the marks of instructions away of whose uses of a round's registers it isn't found that they are available, and
/// says whether that was done.
pub(crate) fn look(
    alloc: Global,
    round: &Round,
    function: &Function,
    reached: &[bool],
    fine: &mut Vec<bool>,
) -> Result<bool, Memory>
    requires reached { AreReachedBlocks function.now reached.now }
    ensures shrunk { OnOk result (IsShrunk fine.old.items fine.new.items) }
    ensures sure { IfOk result (λ done. done ≡ true → AreSureOf function.now round.now fine.new.items) }
{
    match changes_of(alloc, round, function)? {
        Some(changes) => look_by(alloc, round, function, reached, changes.as_slice(), fine),
        None => Ok(false),
    }
}
