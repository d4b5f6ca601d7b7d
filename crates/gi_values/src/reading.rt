//! The words of a row.

use gi_llt::Llt;
use gi_meaning::gives::Gives;
use gi_mir::operand::{Flags, Pred};
use std::alloc::{AllocError, Global};

/// The flag that a word names, if it names one.
pub fn flags_of(word: &str) -> Flags {
    Flags {
        nuw: word == "nuw",
        nsw: word == "nsw",
        exact: word == "exact",
        disjoint: word == "disjoint",
        nneg: word == "nneg",
    }
}

/// The predicate that a word names, if it names one.
pub fn pred_of(word: &str) -> Option<Pred> {
    match word {
        "eq" => Some(Pred::Eq),
        "ne" => Some(Pred::Ne),
        "ugt" => Some(Pred::Ugt),
        "uge" => Some(Pred::Uge),
        "ult" => Some(Pred::Ult),
        "ule" => Some(Pred::Ule),
        "sgt" => Some(Pred::Sgt),
        "sge" => Some(Pred::Sge),
        "slt" => Some(Pred::Slt),
        "sle" => Some(Pred::Sle),
        _ => None,
    }
}

/// The types that words name: `p0`, or the width of a scalar. A word that names none gives the type s0.
pub fn types_of(alloc: Global, text: &str) -> Result<Vec<Llt>, AllocError> {
    let mut types = Vec::new(alloc);
    for word in text.split_whitespace() {
        let ty = if word == "p0" {
            Llt::Pointer
        } else {
            Llt::Scalar(word.parse::<u16>().unwrap_or(0))
        };
        types.push(ty)?;
    }
    Ok(types)
}

/// The numbers that words spell, up to the first word that spells none.
pub fn values_of(alloc: Global, text: &str) -> Result<Vec<u128>, AllocError> {
    let mut values = Vec::new(alloc);
    for word in text.split_whitespace() {
        let Ok(value) = word.parse::<u128>() else {
            break;
        };
        values.push(value)?;
    }
    Ok(values)
}

/// What an operation gives, as a table writes it.
pub fn text_of(alloc: Global, gives: Gives) -> Result<String, AllocError> {
    match gives {
        Gives::One(value) => format!(in alloc; "{value}"),
        Gives::Two(value, bit) => format!(in alloc; "{value} {bit}"),
        Gives::LowBits { known: 0, .. } => String::from_str(alloc, "free"),
        Gives::LowBits { value, .. } => format!(in alloc; "low:{value}"),
        Gives::Undefined => String::from_str(alloc, "undefined"),
    }
}

/// Numbers, as a table writes them.
pub fn text_of_all(alloc: Global, values: &[u128]) -> Result<String, AllocError> {
    let mut text = String::new(alloc);
    for (i, value) in values.iter().enumerate() {
        if 0 < i {
            text.push(' ')?;
        }
        let word = format!(in alloc; "{value}")?;
        text.push_str(word.as_str())?;
    }
    Ok(text)
}
