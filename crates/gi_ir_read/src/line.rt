//! Reads a line with an instruction.

ghost use Rattle.std.specs.Prelude.{◌<◌, ◌≤◌, ◌^◌, length, ◌≡◌, ◌++◌, ◌∷◌, [], Ok, OnOk, IfOk, IfErr, take};
ghost use Rattle.gi_ir_spelling.specs.Reading.{beginning, read_from, read_line};
ghost use Rattle.gi_ir_read.specs.Stops.{IsStopOf};
ghost use Rattle.gi_ir_read.specs.declared.stop.Stop.TheVariants.{Memory};

use crate::metadata::count_before;
use crate::open::Open;
use crate::stop::Stop;
use gi_ir_spelling::place::{Fault, Placed};
use gi_ir_spelling::token::Item;
use std::alloc::Global;

/// Adds a token in its place.
fn append(placed: &mut Vec<Placed>, token: Placed) -> Result<(), Stop>
    ensures ok { OnOk result (placed.new.items ≡ placed.old.items ++ token ∷ []) }
    ensures err { IfErr result (λ stop. stop ≡ Memory) }
{
    placed.push(token).map_err(|_| Stop::Memory)
}

/// The tokens of a line without the metadata at its end, each in the place that takes it, or the first that can't stand in its
/// place.
fn read_from(alloc: Global, items: &[Item]) -> Result<Vec<Placed>, Stop>
    ensures ok { IfOk result (λ placed. read_from beginning items.now ≡ Ok placed.items) }
    ensures err { IfErr result (λ stop. IsStopOf (read_from beginning items.now) stop) }
{
    let mut open = Open::begin(alloc)?;
    let mut placed = Vec::new(alloc);
    for item in items {
        let token = open.step(*item)?;
        append(&mut placed, token)?;
    }
    if open.may_end() {
        Ok(placed)
    } else {
        Err(Stop::Fault(Fault::Syntax))
    }
}

/// The first so many tokens.
fn front(items: &[Item], count: usize) -> &[Item]
    requires { count ≤ length items.now }
    ensures { result.now ≡ take count items.now }
{
    &items[..count]
}

/// The tokens of a line, each in the place that takes it, or the first that can't stand in its place. The metadata at its end is
/// passed over.
pub fn read_line(alloc: Global, items: &[Item]) -> Result<Vec<Placed>, Stop>
    requires { length items.now < 2 ^ 63 }
    ensures ok { IfOk result (λ placed. read_line items.now ≡ Ok placed.items) }
    ensures err { IfErr result (λ stop. IsStopOf (read_line items.now) stop) }
{
    match count_before(alloc, items) {
        Ok(count) => read_from(alloc, front(items, count)),
        Err(_) => Err(Stop::Memory),
    }
}
