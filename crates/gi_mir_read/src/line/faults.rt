//! What goes wrong where something isn't spelled so, and what may follow the last token.

ghost use Rattle.std.specs.Prelude.{◌≡◌};
ghost use Rattle.gi_spelling.specs.Reading.{at_end, closed};
ghost use Rattle.gi_spelling.specs.declared.written.Fault.TheVariants as fault;

use gi_spelling::token::{Item, What};
use gi_spelling::written::Fault;

/// The word is in no table that counts here.
pub(crate) fn unknown(item: Item) -> Fault
    ensures { result ≡ fault.Unknown item.start item.end }
{
    Fault::Unknown {
        start: item.start,
        end: item.end,
    }
}

/// What is read, where nothing may follow.
pub(crate) fn at_end<X: Copy>(x: X, rest: &[Item]) -> Result<X, Fault>
    ensures { result ≡ at_end x rest.now }
{
    match rest {
        [] => Ok(x),
        _ => Err(Fault::Syntax),
    }
}

/// What is read, where a closing bracket has to stand last.
pub(crate) fn closed<X: Copy>(x: X, rest: &[Item]) -> Result<X, Fault>
    ensures { result ≡ closed x rest.now }
{
    match rest {
        [] => Err(Fault::Syntax),
        [close, more @ ..] => match close.what {
            What::Close => at_end(x, more),
            _ => Err(Fault::Syntax),
        },
    }
}
