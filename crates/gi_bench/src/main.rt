//! Does a kind of work of a size that is read from standard input, and prints counts alone.
//! Each line of the input is a kind of work and a number of bytes, as `tokens 65536`, or of sums, blocks or instructions, as
//! `verified-chain 65535`.
#![tactic(auto)]

mod edits;

ghost use Rattle.std.specs.Prelude.{◌≡◌, ◌<◌, ◌≤◌, IfOk, vec_len};

use edits::{Sources, replaced, rewritten};
use gi_llt::Target;
use gi_mir::module::Module;
use gi_mir::stage::Stage;
use gi_mir_print::print;
use gi_mir_read::read_mir;
use gi_text::{LineError, TextError, tokens};
use gi_verify::verify;
use std::alloc::{AllocError, Global};
use std::io;

/// The greatest line that is cut, and about the greatest text that is read.
const GREATEST: usize = 8_388_608;

/// The most sums or blocks that are read.
const LONGEST: usize = 4_194_304;

/// What a line repeats: twelve tokens in 32 bytes.
const PATTERN: &[u8] = b"%10:_(s32) = G_ADD %1, 0x1f -7  ";

/// A line of so many bytes.
fn line_of(alloc: Global, size: usize) -> Result<Vec<u8>, AllocError>
    ensures { IfOk result (λ line. vec_len line ≡ size) }
{
    let mut line = Vec::new(alloc);
    for place in 0..size {
        line.push(PATTERN[place % PATTERN.len()])?;
    }
    Ok(line)
}

/// Cuts a line of so many bytes, and tells how many tokens it has.
fn cut(alloc: Global, size: usize) -> Result<String, AllocError>
    requires { size ≤ 8388608 }
{
    let line = line_of(alloc, size)?;
    match tokens(alloc, line.as_slice(), 1, 0, size) {
        Ok(found) => {
            let count = found.len();
            format!(in alloc; "tokens {size} bytes {count} tokens")
        }
        Err(LineError::BadToken(place)) => {
            let column = place.column;
            format!(in alloc; "tokens {size} bytes: none at {column}")
        }
        Err(LineError::BadNumber(place)) => {
            let column = place.column;
            format!(in alloc; "tokens {size} bytes: too great at {column}")
        }
        Err(LineError::Memory) => Err(AllocError),
    }
}

/// What stands before the instructions of a text.
const HEAD: &str =
    "---\nname: f\nbody: |\n  bb.0:\n    liveins: $x10\n\n    %0:_(s32) = COPY $x10\n";

/// A text of about so many bytes: a function with one block of sums, each of the two sums before it.
fn text_of(alloc: Global, size: usize) -> Result<String, AllocError> {
    let mut text = String::from_str(alloc, HEAD)?;
    for last in 0..4_194_303_u32 {
        if size <= text.len() {
            break;
        }
        let number = last + 1;
        let earlier = last / 2;
        let line = format!(in alloc; "    %{number}:_(s32) = G_ADD %{last}, %{earlier}\n")?;
        text.push_str(line.as_str())?;
    }
    Ok(text)
}

/// A text of so many sums in one block, each of the register before it and itself.
fn sums_of(alloc: Global, count: u32) -> Result<String, AllocError>
    requires { count ≤ 4194304 }
{
    let mut text = String::from_str(alloc, HEAD)?;
    for last in 0..count {
        let number = last + 1;
        let line = format!(in alloc; "    %{number}:_(s32) = G_ADD %{last}, %{last}\n")?;
        text.push_str(line.as_str())?;
    }
    text.push_str("    PseudoRET\n")?;
    Ok(text)
}

/// A text of so many blocks, each of which adds to the register of the one before it and goes to the next.
fn chain_of(alloc: Global, count: u32) -> Result<String, AllocError>
    requires { count ≤ 4194304 }
{
    let mut text = String::from_str(alloc, HEAD)?;
    for last in 0..count.saturating_sub(1) {
        let number = last + 1;
        let block = format!(in alloc;
            "    G_BR %bb.{number}\n\n  bb.{number}:\n    %{number}:_(s32) = G_ADD %{last}, %{last}\n"
        )?;
        text.push_str(block.as_str())?;
    }
    text.push_str("    PseudoRET\n")?;
    Ok(text)
}

/// Whether each function of a module is valid.
fn are_valid(alloc: Global, m: &Module) -> bool {
    let target = Target {
        xlen: 32,
        zbb: false,
    };
    m.functions
        .iter()
        .all(|f| verify(alloc, f, target, Stage::Before).is_ok())
}

/// Reads a text, verifies it where that is asked for, and tells what is found.
fn checked(alloc: Global, text: &str, verified: bool) -> Result<String, AllocError> {
    let length = text.len();
    if u32::MAX as usize <= length {
        return format!(in alloc; "{length} bytes: too long");
    }
    match read_mir(alloc, text.as_bytes()) {
        Ok(m) => {
            if !verified {
                format!(in alloc; "{length} bytes read")
            } else if are_valid(alloc, &m) {
                format!(in alloc; "{length} bytes valid")
            } else {
                format!(in alloc; "{length} bytes not valid")
            }
        }
        Err(TextError::Syntax { line } | TextError::Unknown { line, .. }) => {
            format!(in alloc; "{length} bytes: wrong line {line}")
        }
        Err(TextError::Memory) => Err(AllocError),
    }
}

/// Reads a text of about so many bytes, prints it so many times, and tells how many bytes that gives.
fn read(alloc: Global, size: usize, times: u32) -> Result<String, AllocError> {
    let text = text_of(alloc, size)?;
    let length = text.len();
    if u32::MAX as usize <= length {
        return format!(in alloc; "{length} bytes: too long");
    }
    match read_mir(alloc, text.as_bytes()) {
        Ok(m) => {
            let printed = print_often(alloc, &m, times)?;
            format!(in alloc; "{length} bytes read, {printed} printed")
        }
        Err(TextError::Syntax { line } | TextError::Unknown { line, .. }) => {
            format!(in alloc; "{length} bytes: wrong line {line}")
        }
        Err(TextError::Memory) => Err(AllocError),
    }
}

/// Prints a module so many times, and tells how many bytes the last time gives.
fn print_often(alloc: Global, m: &Module, times: u32) -> Result<usize, AllocError> {
    let mut length = 0;
    for _ in 0..times {
        let mut text = Vec::new(alloc);
        if print(m, &mut text).is_err() {
            return Err(AllocError);
        }
        length = text.len();
    }
    Ok(length)
}

/// Does the work that a line asks for.
fn work(alloc: Global, request: &str) -> Result<String, AllocError> {
    let Some((kind, size)) = request.split_once(' ') else {
        return format!(in alloc; "no size in {request:?}");
    };
    let Ok(size) = size.trim().parse::<usize>() else {
        return format!(in alloc; "no size in {request:?}");
    };
    match kind {
        "tokens" => cut(alloc, size.min(GREATEST)),
        "read" => read(alloc, size.min(GREATEST), 0),
        "print" => read(alloc, size.min(GREATEST), 32),
        "sums" | "verified-sums" => {
            let text = sums_of(alloc, size.min(LONGEST) as u32)?;
            checked(alloc, text.as_str(), kind == "verified-sums")
        }
        "chain" | "verified-chain" => {
            let text = chain_of(alloc, size.min(LONGEST) as u32)?;
            checked(alloc, text.as_str(), kind == "verified-chain")
        }
        "rewritten" => rewritten(alloc, size.min(LONGEST) as u32, Sources::Before),
        "rewritten-shared" => rewritten(alloc, size.min(LONGEST) as u32, Sources::First),
        "replaced" => replaced(alloc, size.min(LONGEST) as u32),
        _ => format!(in alloc; "no work in {request:?}"),
    }
}

fn main(rt: HostRuntime) -> io::Result<()> {
    for line in rt.lines(rt.alloc()) {
        let text = work(rt.alloc(), line?.as_str())?;
        println!(rt; "{text}")?;
    }
    Ok(())
}
