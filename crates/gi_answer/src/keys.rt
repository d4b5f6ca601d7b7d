//! The keys of functions after each pass.

ghost use Rattle.std.specs.Prelude.{◌≡◌, option_map, None, MatchOption, Some};
ghost use Rattle.std.specs.Option.{option_copied};
ghost use Rattle.gi_answer.specs.Keys.{keys_after, wrong_key, wrong_in, wrong_among};

use gi_mir::function::Function;
use gi_mir::module::Module;
use gi_observe::Pass;

/// The three keys of a function.
#[derive(Clone, Copy, Debug, PartialEq, Eq)]
pub struct Keys {
    pub legalized: bool,
    pub banked: bool,
    pub selected: bool,
}

/// The keys that a function has after a pass.
pub fn keys_after(pass: Pass) -> Keys
    ensures { result ≡ keys_after pass }
{
    let (legalized, banked, selected) = match pass {
        Pass::IrTranslator | Pass::PreCombiner => (false, false, false),
        Pass::Legalizer | Pass::PostCombiner => (true, false, false),
        Pass::RegBankSelect => (true, true, false),
        Pass::Select => (true, true, true),
    };
    Keys {
        legalized,
        banked,
        selected,
    }
}

/// The first key of a function that differs.
fn wrong_key(keys: Keys, function: &Function) -> Option<&'static str>
    ensures { option_copied result ≡ wrong_key keys function.now }
{
    let (legalized, banked, selected) = function.keys();
    if keys.legalized != legalized {
        Some("legalized")
    } else if keys.banked != banked {
        Some("regBankSelected")
    } else if keys.selected != selected {
        Some("selected")
    } else {
        None
    }
}

/// The name of the first function with a key that differs from those after a pass, and the key.
pub fn wrong_in(start: Pass, m: &Module) -> Option<(&str, &'static str)>
    ensures { option_map (λ w. record { name = w.0.now; key = w.1.now }) result ≡ wrong_in start m.now }
{
    let keys = keys_after(start);
    for function in m.functions.iter() {
        if let Some(key) = wrong_key(keys, function) {
            return Some((m.names.name(function.name_number()), key));
        }
    }
    None
}
