//! The blocks that are reached.

ghost use Rattle.std.specs.Prelude.{◌≡◌, ◌<◌, ◌≤◌, ◌∷◌, ◌++◌, ◌||◌, [], ℕ, Bool, true, false, length, IfOk, OnOk, slice_set, get_or};
ghost use Rattle.gi_mir.specs.Edit.{block_at};
ghost use Rattle.gi_meaning.specs.Runs.{is_among};
ghost use Rattle.gi_valid.specs.Available.{IsReachedBlock};
ghost use Rattle.gi_verify.specs.Sets.{AreMarkedOn, AreReachedBlocks, IsMarkedMore, IsPass, marked};

use crate::dominators::preorder;
use gi_llt::Memory;
use gi_mir::function::Function;
use std::alloc::Global;

/// Marks these successors, where there are such blocks, and says whether one is new.
pub(crate) fn mark_successors(successors: &[u32], marks: &mut Vec<bool>) -> bool
    ensures { IsMarkedMore successors.now marks.old.items marks.new.items result }
{
    let mut is_new = false;
    for b in successors {
        let found = mark(*b, marks);
        is_new = either(found, is_new);
    }
    is_new
}

/// Whether one of two holds.
fn either(a: bool, b: bool) -> bool
    ensures { result ≡ (a || b) }
{
    a || b
}

/// Marks a block, where there is one, and says whether it is new.
fn mark(b: u32, marks: &mut Vec<bool>) -> bool
    ensures { IsMarkedMore (b ∷ []) marks.old.items marks.new.items result }
{
    let place = b as usize;
    if place < marks.len() && !marks[place] {
        marks[place] = true;
        true
    } else {
        false
    }
}

/// Marks the successors of a block that is marked, and says whether one is new.
fn mark_behind(function: &Function, a: u32, marks: &mut Vec<bool>) -> bool
    requires count { length marks.old.items ≡ length function.now.blocks }
    requires within { a < length function.now.blocks }
    ensures marked { marked marks.old.items a ≡ true → IsMarkedMore (block_at function.now a).successors marks.old.items marks.new.items result }
    ensures unmarked { marked marks.old.items a ≡ false → (marks.new.items ≡ marks.old.items) × (result ≡ false) }
{
    if marks[a as usize] {
        mark_successors(function.block(a).successors.as_slice(), marks)
    } else {
        false
    }
}

/// Marks the successors of a block, where there is that block and it is marked, and says whether one is new.
#[tactic(auto, using(crate::proofs::Marking::marked_on_same))]
fn mark_at(function: &Function, a: u32, marks: &mut Vec<bool>) -> bool
    requires { length marks.old.items ≡ length function.now.blocks }
    ensures { AreMarkedOn function.now marks.old.items marks.new.items }
{
    if a < function.block_count() {
        mark_behind(function, a, marks)
    } else {
        false
    }
}

/// Marks the successors of each marked block once, and says whether one is new.
fn pass(function: &Function, marks: &mut Vec<bool>) -> bool
    requires { length marks.old.items ≡ length function.now.blocks }
    ensures { IsPass function.now marks.old.items marks.new.items result }
{
    let mut is_new = false;
    for a in 0..function.block_count() {
        let found = mark_behind(function, a, marks);
        is_new = either(found, is_new);
    }
    is_new
}

/// Puts a mark at the end.
fn push(marks: &mut Vec<bool>, is_marked: bool) -> Result<(), Memory>
    ensures { OnOk result (marks.new.items ≡ marks.old.items ++ is_marked ∷ []) }
{
    match marks.push(is_marked) {
        Ok(()) => Ok(()),
        Err(_) => Err(Memory),
    }
}

/// So many marks, of which the first alone is set.
pub(crate) fn first_marked(alloc: Global, count: u32) -> Result<Vec<bool>, Memory>
    ensures count { IfOk result (λ marks. length marks.items ≡ count) }
    ensures first { IfOk result (λ marks. 0 < count → marked marks.items 0 ≡ true) }
    ensures only { IfOk result (λ marks. (b : ℕ) → marked marks.items b ≡ true → b ≡ 0) }
{
    let mut marks = Vec::new(alloc);
    for b in 0..count {
        push(&mut marks, b == 0)?;
    }
    Ok(marks)
}

/// Blocks that are reached: along a walk from the first. None is left out, which is looked at behind this.
fn first_reached(alloc: Global, function: &Function) -> Result<Vec<bool>, Memory>
    ensures count { IfOk result (λ marks. length marks.items ≡ length function.now.blocks) }
    ensures first { IfOk result (λ marks. 0 < length function.now.blocks → marked marks.items 0 ≡ true) }
    ensures sound { IfOk result (λ marks. (b : ℕ) → marked marks.items b ≡ true → IsReachedBlock function.now b) }
{
    let mut marks = first_marked(alloc, function.block_count())?;
    let order = preorder(alloc, function, marks.as_slice())?;
    for a in order.as_slice() {
        mark_at(function, *a, &mut marks);
    }
    Ok(marks)
}

/// The blocks that are reached.
pub(crate) fn reached(alloc: Global, function: &Function) -> Result<Vec<bool>, Memory>
    ensures { IfOk result (λ marks. AreReachedBlocks function.now marks.items) }
{
    let mut marks = first_reached(alloc, function)?;
    let mut is_new = true;
    while is_new {
        is_new = pass(function, &mut marks);
    }
    Ok(marks)
}
