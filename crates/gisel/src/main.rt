//! The program gisel: it takes the words of the command line, and hands the standard streams and files to the top call.
#![tactic(auto)]

mod help;

use gi_io::{StdInput, StdOutput};
use gi_top::{gisel, refuse_word, say, write_text};
use help::{HELP, VERSION};
use std::alloc::AllocError;
use std::env::{Env, FillError};
use std::process::ExitCode;
use std::str;

/// More bytes than Linux lets a word of a command line have.
const LONGEST_WORD: usize = 131_072;

/// The words of the command line after the program's own name, up to the first that isn't UTF-8.
#[derive(Drop)]
struct Words {
    words: Vec<String>,
    are_utf8: bool,
}

/// Reads the words of the command line. In a word that isn't UTF-8 U+FFFD stands for what isn't.
fn command_words(rt: &HostRuntime) -> Result<Words, AllocError> {
    let mut buffer = vec![in rt.alloc(); 0u8; LONGEST_WORD]?;
    let mut words = Vec::new(rt.alloc());
    let mut are_utf8 = true;
    for place in 1..usize::MAX {
        let length = match rt.arg(place, buffer.as_mut_slice()) {
            Ok(length) => length,
            Err(FillError::NotPresent) => break,
            Err(FillError::TooLong) => return Err(AllocError),
        };
        let bytes = &buffer[..length];
        words.push(String::from_utf8_lossy(rt.alloc(), bytes)?)?;
        are_utf8 = str::from_utf8(bytes).is_ok();
        if !are_utf8 {
            break;
        }
    }
    Ok(Words { words, are_utf8 })
}

/// What the program says of itself, where the words ask for that alone.
fn text_about(words: &[String]) -> Option<&'static str> {
    match words {
        [word] => match word.as_str() {
            "--help" | "-help" | "-h" => Some(HELP),
            "--version" | "-version" => Some(VERSION),
            _ => None,
        },
        _ => None,
    }
}

fn main(rt: HostRuntime) -> ExitCode {
    let mut input = StdInput::new(&rt);
    let mut out = StdOutput::new(&rt, &rt);
    let mut err = StdOutput::new(&rt, rt.stderr());
    let Ok(Words { words, are_utf8 }) = command_words(&rt) else {
        say(&mut err, b"gisel: memory");
        return ExitCode::from(3);
    };
    if !are_utf8 {
        let last = words.last().map_or("", |word| word.as_str());
        return ExitCode::from(refuse_word(rt.alloc(), words.as_slice(), last, &mut err));
    }
    if let Some(text) = text_about(words.as_slice()) {
        return ExitCode::from(write_text(&mut out, &mut err, None, text.as_bytes()));
    }
    ExitCode::from(gisel(rt.alloc(), words.as_slice(), &mut input, &mut out, &mut err))
}
