//! What is said of an input that is refused.

ghost use Rattle.std.specs.Prelude.{◌≡◌, ◌++◌, IfOk, codes, decimal};
ghost use Rattle.gi_answer.specs.Messages.{at_line, not_built, property};

use gi_llt::Memory;
use std::alloc::Global;

/// Why there is no text: what is said of an input that is refused, or no memory.
#[derive(Drop)]
pub enum Refused {
    Message(Vec<u8>),
    Memory,
}

/// A line spells nothing.
pub fn syntax(alloc: Global, line: u32) -> Result<Vec<u8>, Memory>
    ensures { IfOk result (λ message. message.items ≡ at_line line (codes "syntax")) }
{
    let text = format!(in alloc; "gisel: line {line}: syntax").map_err(|_| Memory)?;
    Ok(text.into_bytes())
}

/// A word of a line is unknown.
pub fn unknown(alloc: Global, line: u32, name: &[u8]) -> Result<Vec<u8>, Memory>
    ensures { IfOk result (λ message. message.items ≡ at_line line (codes "unknown " ++ name.now)) }
{
    let Ok(text) = format!(in alloc; "gisel: line {line}: unknown ") else {
        return Err(Memory);
    };
    let mut message = text.into_bytes();
    match message.extend_from_slice(name) {
        Ok(()) => Ok(message),
        Err(_) => Err(Memory),
    }
}

/// A key of a function isn't as the start asks.
pub fn property(alloc: Global, function: &str, key: &str) -> Result<Vec<u8>, Memory>
    ensures { IfOk result (λ message. message.items ≡ property function.now key.now) }
{
    let text = format!(in alloc; "gisel: function {function}: property {key}").map_err(|_| Memory)?;
    Ok(text.into_bytes())
}

/// A type is too wide, or isn't among its opcode's.
pub fn width(alloc: Global, line: u32, bits: u16) -> Result<Vec<u8>, Memory>
    ensures { IfOk result (λ message. message.items ≡ at_line line (codes "width " ++ decimal bits)) }
{
    let text = format!(in alloc; "gisel: line {line}: width {bits}").map_err(|_| Memory)?;
    Ok(text.into_bytes())
}

/// A count passes its limit.
pub fn limit(alloc: Global, line: u32, number: u64) -> Result<Vec<u8>, Memory>
    ensures { IfOk result (λ message. message.items ≡ at_line line (codes "limit " ++ decimal number)) }
{
    let text = format!(in alloc; "gisel: line {line}: limit {number}").map_err(|_| Memory)?;
    Ok(text.into_bytes())
}

/// An instruction doesn't fit its stage.
pub fn not_legal(alloc: Global, line: u32, word: &str) -> Result<Vec<u8>, Memory>
    ensures { IfOk result (λ message. message.items ≡ at_line line (codes "not legal " ++ word.now)) }
{
    let text = format!(in alloc; "gisel: line {line}: not legal {word}").map_err(|_| Memory)?;
    Ok(text.into_bytes())
}

/// What a line asks for isn't built.
pub fn not_built_at(alloc: Global, line: u32, word: &str) -> Result<Vec<u8>, Memory>
    ensures { IfOk result (λ message. message.items ≡ at_line line (codes "not built " ++ word.now)) }
{
    let text = format!(in alloc; "gisel: line {line}: not built {word}").map_err(|_| Memory)?;
    Ok(text.into_bytes())
}

/// A pass isn't built.
pub fn not_built(alloc: Global, word: &str) -> Result<Vec<u8>, Memory>
    ensures { IfOk result (λ message. message.items ≡ not_built word.now) }
{
    let text = format!(in alloc; "gisel: not built {word}").map_err(|_| Memory)?;
    Ok(text.into_bytes())
}
