//! The routines of the runtime for products, quotients and remainders of two words each.

ghost use Rattle.std.specs.Prelude.{◌≡◌, ◌<◌, ◌⊎◌, Some};
ghost use Rattle.gi_mir.specs.Routines.{data_of, routine_at, stands_for};
ghost use Rattle.gi_mir.specs.Routines as routines;

use crate::opcode::Opcode;
use gi_llt::Target;
use std::marker::Model;

/// A routine of the runtime.
#[derive(Clone, Copy, Debug, PartialEq, Eq)]
pub enum Routine {
    Muldi3,
    Divdi3,
    Udivdi3,
    Moddi3,
    Umoddi3,
    Multi3,
    Divti3,
    Udivti3,
    Modti3,
    Umodti3,
}

/// Each routine once, by its place.
static ROUTINES: [Routine; 10] = [
    Routine::Muldi3,
    Routine::Divdi3,
    Routine::Udivdi3,
    Routine::Moddi3,
    Routine::Umoddi3,
    Routine::Multi3,
    Routine::Divti3,
    Routine::Udivti3,
    Routine::Modti3,
    Routine::Umodti3,
];

/// What is known of a routine: its place among the routines, its name, the opcode whose value it gives, and the
/// width of a register, on twice which it computes.
#[derive(Drop)]
pub struct Details {
    pub place: u8,
    pub name: &'static str,
    pub op: Opcode,
    pub xlen: u16,
}

impl Model for Details {
    ghost use Rattle.gi_mir.specs.Routines.{RoutineData};

    ghost Value = { RoutineData };

    ghost view = { λ d. record { place = d.place; name = d.name.now; op = d.op; x = d.xlen } };
}

fn made(place: u8, name: &'static str, op: Opcode, xlen: u16) -> Details
    ensures { result ≡ routines.made place name.now op xlen }
{
    Details {
        place,
        name,
        op,
        xlen,
    }
}

impl Routine {
    /// What is known of this routine: the table.
    pub fn details(self) -> Details
        ensures { result ≡ data_of self }
    {
        match self {
            Routine::Muldi3 => made(0, "__muldi3", Opcode::GenericMultiply, 32),
            Routine::Divdi3 => made(1, "__divdi3", Opcode::GenericSignedDivide, 32),
            Routine::Udivdi3 => made(2, "__udivdi3", Opcode::GenericUnsignedDivide, 32),
            Routine::Moddi3 => made(3, "__moddi3", Opcode::GenericSignedRemainder, 32),
            Routine::Umoddi3 => made(4, "__umoddi3", Opcode::GenericUnsignedRemainder, 32),
            Routine::Multi3 => made(5, "__multi3", Opcode::GenericMultiply, 64),
            Routine::Divti3 => made(6, "__divti3", Opcode::GenericSignedDivide, 64),
            Routine::Udivti3 => made(7, "__udivti3", Opcode::GenericUnsignedDivide, 64),
            Routine::Modti3 => made(8, "__modti3", Opcode::GenericSignedRemainder, 64),
            Routine::Umodti3 => made(9, "__umodti3", Opcode::GenericUnsignedRemainder, 64),
        }
    }

    /// The place of this routine among the routines.
    #[tactic(auto, using(crate::proofs::Words::routine_at_place, crate::proofs::Words::place_within))]
    pub fn place(self) -> u8
        ensures place { result ≡ (data_of self).place }
        ensures at { routine_at result ≡ Some self }
        ensures within { result < 10 }
    {
        self.details().place
    }

    /// The name of this routine.
    pub fn name(self) -> &'static str
        ensures { result.now ≡ (data_of self).name }
    {
        self.details().name
    }

    /// The routine at a place, where there is one.
    pub fn at(place: u8) -> Option<Routine>
        ensures { result ≡ routine_at place }
    {
        ROUTINES.get(place as usize).copied()
    }

    /// Whether this routine stands for an opcode on values of two words.
    fn stands_for(self, op: Opcode, target: Target) -> bool
        requires { (target.xlen ≡ 32) ⊎ (target.xlen ≡ 64) }
        ensures { result ≡ stands_for op target.xlen self }
    {
        let details = self.details();
        details.op.word() == op.word() && details.xlen == target.xlen
    }
}

/// The routine that stands for an opcode on values of two words, where there is one.
pub fn routine_of(op: Opcode, target: Target) -> Option<Routine>
    requires { (target.xlen ≡ 32) ⊎ (target.xlen ≡ 64) }
    ensures { result ≡ routines.routine_of op target.xlen }
{
    ROUTINES
        .iter()
        .copied()
        .find(|routine| routine.stands_for(op, target))
}
