//! The lines of a text.

ghost use Rattle.std.specs.Prelude.{◌≡◌, ◌==◌, ◌+◌, ◌-◌, ◌^◌, ◌<◌, ◌≤◌, [], ◌∷◌, ◌++◌, length, drop, position, map, All, IfOk, IfSome, OnOk};
ghost use Rattle.gi_text.specs.Cutting.{slice};
ghost use Rattle.gi_spelling.specs.Lines.{lines_of, lines_in};
ghost use Rattle.gi_mir_read.specs.Texts.Placed.{IsLineIn, line_at};

use crate::list::push;
use gi_llt::Memory;
use std::alloc::Global;

/// A line of a text: its number from 1, where its bytes begin, and where they have ended.
#[derive(Clone, Copy, Debug, PartialEq, Eq)]
pub(crate) struct Line {
    pub number: u32,
    pub start: u32,
    pub end: u32,
}

impl Line {
    /// The bytes of the line.
    pub fn bytes(self, text: &[u8]) -> &[u8]
        requires { IsLineIn text.now self }
        ensures { result.now ≡ slice self.start self.end text.now }
    {
        &text[self.start as usize..self.end as usize]
    }
}

/// The place of the first line feed.
fn feed_of(bytes: &[u8]) -> Option<usize>
    ensures value { result ≡ position (λ byte. byte == 10) bytes.now }
    ensures within { IfSome result (λ place. place < length bytes.now) }
{
    bytes.iter().position(|byte| *byte == b'\n')
}

/// Where the line ends that begins at a place.
fn end_of(text: &[u8], start: usize) -> usize
    requires { start < length text.now }
    ensures ordered { start ≤ result }
    ensures within { result ≤ length text.now }
    ensures line { lines_of (drop start text.now) ≡ slice start result text.now ∷ lines_of (drop (result + 1) text.now) }
{
    let rest = &text[start..];
    match feed_of(rest) {
        Some(place) => start + place,
        None => text.len(),
    }
}

/// The lines of a text.
pub(crate) fn lines(alloc: Global, text: &[u8]) -> Result<Vec<Line>, Memory>
    requires { length text.now < 2 ^ 32 - 1 }
    ensures lines { IfOk result (λ lines. map (line_at text.now) lines.items ≡ lines_in text.now) }
    ensures within { IfOk result (λ lines. All (IsLineIn text.now) lines.items) }
{
    let mut lines = Vec::new(alloc);
    let mut number: u32 = 1;
    let mut start = 0;
    while start < text.len() {
        let end = end_of(text, start);
        let line = Line {
            number,
            start: start as u32,
            end: end as u32,
        };
        push(&mut lines, line)?;
        number += 1;
        start = end + 1;
    }
    Ok(lines)
}
