//! The lowest line at which something is wrong.

ghost use Rattle.std.specs.Prelude.{◌≡◌, ℕ, List, None, fold};
ghost use Rattle.gi_spelling.specs.Blocks.{wrong};
ghost use Rattle.gi_spelling.specs.Documents.{line_wrongs, lower, under_wrongs};
ghost use Rattle.gi_mir_read.specs.Texts.Placed.{lines_at};

use crate::text::lines::Line;
use gi_spelling::written::{Fault, Wrong};
use std::marker::Model;

/// The lowest line so far at which something is wrong, with what was noted of it first.
#[derive(Clone, Copy, Debug)]
pub(crate) struct Lowest {
    found: Option<Wrong>,
}

impl Model for Lowest {
    ghost use Rattle.std.specs.Prelude.{Option};
    ghost use Rattle.gi_spelling.specs.declared.written.Wrong.{Wrong};

    ghost Value = { Option Wrong };

    ghost view = { λ a. a.found };

    ghost inverse = { λ found. record { found = found } };
}

impl Lowest {
    /// Nothing is wrong so far.
    pub fn new() -> Lowest
        ensures { result ≡ None }
    {
        Lowest { found: None }
    }

    /// What is wrong at the lowest line.
    pub fn found(&self) -> Option<Wrong>
        ensures { result ≡ self.now }
    {
        self.found
    }

    /// Notes that something is wrong at a line.
    pub fn note(&mut self, line: u32, fault: Fault)
        ensures { self.new ≡ lower self.old (wrong line fault) }
    {
        let next = Wrong { line, fault };
        match self.found {
            Some(first) if first.line <= line => {}
            _ => self.found = Some(next),
        }
    }

    /// Notes that each of these lines spells nothing.
    pub fn note_lines(&mut self, lines: &[Line])
        ensures { (text : List ℕ) → self.new ≡ fold lower self.old (line_wrongs (lines_at text lines.now)) }
    {
        for line in lines {
            self.note(line.number, Fault::Syntax);
        }
    }

    /// Notes that nothing may stand under a line.
    pub fn note_under(&mut self, lines: &[Line])
        ensures { (text : List ℕ) → self.new ≡ fold lower self.old (under_wrongs (lines_at text lines.now)) }
    {
        match lines {
            [] => {}
            [first, ..] => self.note(first.number, Fault::Syntax),
        }
    }
}
