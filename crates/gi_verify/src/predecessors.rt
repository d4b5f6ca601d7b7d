//! The predecessors of each block.

ghost use Rattle.std.specs.Prelude.{◌≡◌, ◌<◌, ◌∷◌, ◌++◌, ℕ, [], OnOk, IfOk, length, nat_lt};
ghost use Rattle.gi_meaning.specs.Runs.{is_among};
ghost use Rattle.gi_valid.specs.Available as available;
ghost use Rattle.gi_verify.specs.Named.{AreNamed, ArePredecessors, IsGrown, IsNamedNext, names};

use crate::listed::Listed;
use gi_llt::Memory;
use gi_mir::function::Function;
use std::alloc::Global;
use std::collections::BTreeMap;

/// Of each block that is named as a successor, the blocks that name it, in layout order.
#[derive(Drop)]
pub(crate) struct Predecessors {
    alloc: Global,
    lists: BTreeMap<u32, Vec<u32>>,
}

/// Puts a block at the end of a list.
fn push(blocks: &mut Vec<u32>, b: u32) -> Result<(), Memory>
    ensures { OnOk result (blocks.new.items ≡ blocks.old.items ++ b ∷ []) }
{
    match blocks.push(b) {
        Ok(()) => Ok(()),
        Err(_) => Err(Memory),
    }
}

impl Predecessors {
    /// Of no block.
    fn new(alloc: Global) -> Predecessors
        ensures { (b : ℕ) → names result b ≡ [] }
    {
        Predecessors {
            alloc,
            lists: BTreeMap::new(alloc),
        }
    }

    /// The predecessors of a block.
    pub(crate) fn of(&self, b: u32) -> &[u32]
        ensures { result.now ≡ names self.now b }
    {
        match self.lists.get(&b) {
            Some(blocks) => blocks.as_slice(),
            None => &[],
        }
    }

    /// Whether a block is a successor of another one: then that one is among its predecessors, which rise.
    pub(crate) fn is_successor(&self, function: &Function, b: u32, c: u32) -> bool
        requires within { b < length function.now.blocks }
        requires all { ArePredecessors function.now self.now }
        ensures { result ≡ is_among c (available.successors_of function.now b) }
    {
        let _ = function;
        self.of(c).binary_search(&b).is_ok()
    }

    /// The first predecessor of a block.
    fn begin(&mut self, b: u32, a: u32) -> Result<(), Memory>
        requires { names self.old b ≡ [] }
        ensures { OnOk result (IsGrown self.old self.new b a) }
    {
        let mut blocks = Vec::new(self.alloc);
        push(&mut blocks, a)?;
        match self.lists.insert(b, blocks) {
            Ok(_) => Ok(()),
            Err(_) => Err(Memory),
        }
    }

    /// One more predecessor of a block.
    fn add(&mut self, b: u32, a: u32) -> Result<(), Memory>
        ensures { OnOk result (IsGrown self.old self.new b a) }
    {
        match self.lists.get_mut(&b) {
            Some(blocks) => push(blocks, a),
            None => self.begin(b, a),
        }
    }

    /// A block that another one names, and that is put into the list of those that it named before where it isn't in it.
    #[tactic(auto, using(crate::proofs::Naming::next_again, crate::proofs::Naming::next_first))]
    fn name_one(&mut self, a: u32, front: &mut Listed, b: u32) -> Result<(), Memory>
        ensures { OnOk result (IsNamedNext self.old self.new a front.old front.new b) }
    {
        if front.has(b) {
            Ok(())
        } else {
            front.add(b)?;
            self.add(b, a)
        }
    }

    /// The blocks that another one names.
    fn name_all(&mut self, a: u32, successors: &[u32]) -> Result<(), Memory>
        ensures { OnOk result (AreNamed self.old self.new a successors.now) }
    {
        let mut front = Listed::new(self.alloc);
        for b in successors {
            self.name_one(a, &mut front, *b)?;
        }
        Ok(())
    }
}

/// The predecessors of each block of a function.
#[tactic(auto, using(crate::proofs::Naming::named_from, crate::proofs::Naming::named_below, crate::proofs::Naming::all_named))]
pub(crate) fn predecessors_of(alloc: Global, function: &Function) -> Result<Predecessors, Memory>
    ensures { IfOk result (λ all. ArePredecessors function.now all) }
{
    let mut all = Predecessors::new(alloc);
    for a in 0..function.block_count() {
        all.name_all(a, function.block(a).successors.as_slice())?;
    }
    Ok(all)
}

/// Whether the first block has a predecessor.
pub(crate) fn has_way_back(function: &Function, all: &Predecessors) -> bool
    requires { ArePredecessors function.now all.now }
    ensures { result ≡ nat_lt 0 (length (available.predecessors function.now 0)) }
{
    let _ = function;
    0 < all.of(0).len()
}
