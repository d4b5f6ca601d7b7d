//! The fault of the lowest line.

ghost use Rattle.std.specs.Prelude.{◌≡◌, []};
ghost use Rattle.gi_valid.specs.Faults as faults;
ghost use Rattle.gi_valid.specs.Valid as valid;
ghost use Rattle.gi_verify.specs.Sets as sets;

use gi_valid::{Fault, Invalid};

/// The place of a fault among those of one line.
fn rank(what: Invalid) -> u8
    ensures { result ≡ valid.rank what }
{
    match what {
        Invalid::DoubleDefinition(_) => 0,
        Invalid::NotAvailable(_) => 1,
        Invalid::TypeMismatch(_) => 2,
        Invalid::UnknownBlock(_) => 3,
        Invalid::PhiEntries => 4,
        Invalid::PhysicalAcross(_) => 5,
        Invalid::Terminator => 6,
    }
}

/// Whether a fault is told before another one.
fn comes_before(a: Fault, b: Fault) -> bool
    ensures { result ≡ valid.comes_before a b }
{
    a.line < b.line || a.line == b.line && rank(a.what) < rank(b.what)
}

/// The first of a fault and of the lowest behind it.
fn lower(first: Fault, later: Option<Fault>) -> Fault
    ensures { result ≡ valid.lower first later }
{
    match later {
        Some(later) => {
            if comes_before(later, first) {
                later
            } else {
                first
            }
        }
        None => first,
    }
}

/// The fault of the lowest line, the first in order on it.
pub(crate) fn of_lowest_line(faults: &[Fault]) -> Option<Fault>
    ensures { result ≡ valid.of_lowest_line faults.now }
{
    let count = faults.len();
    let mut lowest = None;
    for done in 0..count {
        lowest = Some(lower(faults[count - 1 - done], lowest));
    }
    lowest
}

/// A fault on a line, where there is one.
fn on_line(line: u32, what: Option<Invalid>) -> Option<Fault>
    ensures { result ≡ valid.of_lowest_line (faults.with_fault line what []) }
{
    match what {
        Some(what) => Some(Fault { line, what }),
        None => None,
    }
}

/// The lowest of what was told and of a fault on a line, where there is one.
pub(crate) fn told_with(told: Option<Fault>, line: u32, what: Option<Invalid>) -> Option<Fault>
    ensures { result ≡ sets.lowest_of told (valid.of_lowest_line (faults.with_fault line what [])) }
{
    match told {
        Some(first) => Some(lower(first, on_line(line, what))),
        None => on_line(line, what),
    }
}

/// Whether a fault of a lower line was told.
pub(crate) fn is_told_above(told: Option<Fault>, line: u32) -> bool
    ensures { result ≡ sets.is_told_above told line }
{
    match told {
        Some(fault) => fault.line < line,
        None => false,
    }
}
