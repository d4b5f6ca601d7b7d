//! A round of 64 registers: a bit for each in a word.

ghost use Rattle.std.specs.Prelude.{◌<◌, ◌+◌, ◌==◌, Some, get_or};
ghost use Rattle.gi_verify.specs.Rounds.{IsWordOf, has, is_named, is_taken};

use crate::listed::Listed;
use crate::words::{WIDTH, one, word_at};
use std::marker::Model;

/// Registers in an order, the place of the first that a round is about, and for each register a word of those of the
/// round that are computed from it.
#[derive(Drop)]
pub(crate) struct Round {
    pub(crate) keys: Listed,
    pub(crate) first: usize,
    pub(crate) origins: Vec<u64>,
}

impl Model for Round {
    ghost use Rattle.gi_verify.specs.Rounds.{RoundData};

    ghost Value = { RoundData };

    ghost view = { λ a. record { keys = a.keys; first = a.first; origins = a.origins.items } };
}

/// What a register is in a round.
#[derive(Clone, Copy)]
pub(crate) struct Role {
    /// Itself, if the round is about it.
    pub(crate) named: u64,
    /// Those that are computed from it.
    pub(crate) taken: u64,
}

/// A word of one register of a round, by its place in the order.
#[tactic(auto, using(crate::proofs::Roles::no_place, crate::proofs::Roles::own_place))]
fn named_at(first: usize, place: usize) -> u64
    ensures { IsWordOf (λ n. place == first + n) result }
{
    if first <= place && place - first < WIDTH {
        one(place - first)
    } else {
        0
    }
}

impl Round {
    /// What the register at a place is.
    fn role_at(&self, place: usize) -> Role
        ensures named { IsWordOf (λ n. place == self.now.first + n) result.named }
        ensures taken { IsWordOf (λ n. has (get_or self.now.origins place 0) n) result.taken }
    {
        Role {
            named: named_at(self.first, place),
            taken: word_at(self.origins.as_slice(), place),
        }
    }

    /// What a register is.
    pub(crate) fn role(&self, r: u32) -> Role
        ensures named { IsWordOf (λ n. is_named self.now n r) result.named }
        ensures taken { IsWordOf (λ n. is_taken self.now n r) result.taken }
    {
        match self.keys.place(r) {
            Some(place) => self.role_at(place),
            None => Role { named: 0, taken: 0 },
        }
    }
}
