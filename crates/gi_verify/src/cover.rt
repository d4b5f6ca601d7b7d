//! Uses of registers that aren't settled: in rounds of 64 registers it is found of which instructions what they use is
//! available.

ghost use Rattle.std.specs.Prelude.{◌≡◌, true, IfOk};
ghost use Rattle.gi_mir.specs.Data.{FunctionData};
ghost use Rattle.gi_verify.specs.Rounds.{IsCoverOf, is_before};
ghost use Rattle.gi_verify.specs.Sets.{AreReachedBlocks, marked};

use crate::listed::Listed;
use crate::marks::fresh_marks;
use crate::round::Round;
use crate::spread::{Sources, origins_of};
use crate::sure::look;
use crate::words::WIDTH;
use gi_llt::Memory;
use gi_mir::block::InstrId;
use gi_mir::function::Function;
use std::alloc::Global;
use std::marker::Model;

/// Registers in an order, how many of them were looked at, and marks of the instructions whose uses of these are available.
#[derive(Drop)]
pub(crate) struct Cover {
    keys: Listed,
    limit: usize,
    fine: Vec<bool>,
}

impl Model for Cover {
    ghost use Rattle.gi_verify.specs.Rounds.{CoverData};

    ghost Value = { CoverData };

    ghost view = { λ a. record { keys = a.keys; limit = a.limit; fine = a.fine.items } };
}

impl Cover {
    /// Before any register was looked at.
    pub(crate) fn none(alloc: Global) -> Cover
        ensures { (f : FunctionData) → IsCoverOf f result }
    {
        Cover {
            keys: Listed::new(alloc),
            limit: 0,
            fine: Vec::new(alloc),
        }
    }

    /// Whether a register was looked at.
    fn has(&self, r: u32) -> bool
        ensures { result ≡ is_before self.now.keys self.now.limit r }
    {
        match self.keys.place(r) {
            Some(place) => place < self.limit,
            None => false,
        }
    }

    /// Whether an instruction is marked, and a register was looked at.
    pub(crate) fn covers(&self, r: u32, id: InstrId) -> bool
        ensures known { result ≡ true → is_before self.now.keys self.now.limit r ≡ true }
        ensures fine { result ≡ true → marked self.now.fine id.0 ≡ true }
    {
        id.0 < self.fine.len() && self.fine[id.0] && self.has(r)
    }
}

/// Looks at the first of these registers, in rounds.
pub(crate) fn look_in_rounds(
    alloc: Global,
    function: &Function,
    reached: &[bool],
    sources: &Sources,
    keys: Listed,
    count: usize,
) -> Result<Cover, Memory>
    requires { AreReachedBlocks function.now reached.now }
    ensures { IfOk result (λ cover. IsCoverOf function.now cover) }
{
    let mut fine = fresh_marks(alloc, function)?;
    let mut round = Round {
        keys,
        first: 0,
        origins: Vec::new(alloc),
    };
    for _ in 0..count {
        if count <= round.first {
            break;
        }
        round.origins = origins_of(alloc, sources, round.keys.len(), round.first)?;
        if !look(alloc, &round, function, reached, &mut fine)? {
            break;
        }
        round.first = round.first.saturating_add(WIDTH);
    }
    Ok(Cover {
        keys: round.keys,
        limit: round.first,
        fine,
    })
}
