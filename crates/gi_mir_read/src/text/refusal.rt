//! How a text is refused.

ghost use Rattle.std.specs.Prelude.{◌≡◌, None, Some, IfErr, OnOk};
ghost use Rattle.gi_spelling.specs.Read.{IsRefusal};

use crate::text::wrongs::Lowest;
use gi_spelling::written::{Fault, Wrong};
use gi_text::TextError;

/// The refusal of a text for what is wrong.
fn refusal(wrong: Wrong) -> TextError
    ensures { IsRefusal (Some wrong) result }
{
    let line = wrong.line;
    match wrong.fault {
        Fault::Syntax => TextError::Syntax { line },
        Fault::Unknown { start, end } => TextError::Unknown { line, start, end },
    }
}

/// Refuses a text where something is wrong.
pub(crate) fn settle(lowest: &Lowest) -> Result<(), TextError>
    ensures right { OnOk result (lowest.now ≡ None) }
    ensures refused { IfErr result (IsRefusal lowest.now) }
{
    match lowest.found() {
        None => Ok(()),
        Some(wrong) => Err(refusal(wrong)),
    }
}
