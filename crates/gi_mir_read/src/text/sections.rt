//! Lines in sections: a head, and the lines under it.

ghost use Rattle.std.specs.Prelude.{◌≡◌, ◌<◌, ◌≤◌, [], ◌∷◌, not, length, position, All, IfSome, MatchOption};
ghost use Rattle.gi_llt.specs.Tokens.{past_run, run_of};
ghost use Rattle.gi_mir_read.specs.Texts.Placed.{IsLineIn, lines_at};
ghost use Rattle.gi_mir_read.specs.Texts.Sectioned.{IsSectionIn, is_marked, is_marked_at, is_unmarked, section_at, sections_in};

use crate::text::line_bytes::{is_at_column_one, is_dropped, is_end, is_start};
use crate::text::lines::Line;

/// Lines at which others are cut.
#[derive(Clone, Copy, Debug, PartialEq, Eq)]
pub(crate) enum Mark {
    /// A document begins with it.
    Document,
    /// An entry of a document begins with it.
    Entry,
    /// It isn't passed over.
    Counted,
    /// A document begins or ends with it.
    BlockEnd,
    /// A document ends with it.
    End,
}

impl Mark {
    /// Whether a line is marked so.
    fn is_at(self, line: &[u8]) -> bool
        ensures { result ≡ is_marked self line.now }
    {
        match self {
            Mark::Document => is_start(line),
            Mark::Entry => is_at_column_one(line),
            Mark::Counted => !is_dropped(line),
            Mark::BlockEnd => is_end(line) || is_start(line),
            Mark::End => is_end(line),
        }
    }

    /// The place of the first line that is marked so.
    fn place(self, text: &[u8], lines: &[Line]) -> Option<usize>
        requires { All (IsLineIn text.now) lines.now }
        ensures place { result ≡ position (is_marked_at self text.now) lines.now }
        ensures within { IfSome result (λ place. place < length lines.now) }
    {
        for (place, line) in lines.iter().enumerate() {
            if self.is_at(line.bytes(text)) {
                return Some(place);
            }
        }
        None
    }

    /// The lines before the first that is marked so, and the lines from that on.
    pub fn cut<'a>(self, text: &[u8], lines: &'a [Line]) -> (&'a [Line], &'a [Line])
        requires { All (IsLineIn text.now) lines.now }
        ensures front { lines_at text.now result.0.now ≡ run_of (is_unmarked self) (lines_at text.now lines.now) }
        ensures back { lines_at text.now result.1.now ≡ past_run (is_unmarked self) (lines_at text.now lines.now) }
        ensures before { lines_at text.now result.0.now ≡ (sections_in self text.now lines.now).before }
        ensures after { (sections_in self text.now result.1.now).sections ≡ (sections_in self text.now lines.now).sections }
        ensures headed { (sections_in self text.now result.1.now).before ≡ [] }
        ensures shorter { length result.1.now ≤ length lines.now }
        ensures before_within { All (IsLineIn text.now) result.0.now }
        ensures after_within { All (IsLineIn text.now) result.1.now }
    {
        match self.place(text, lines) {
            Some(place) => lines.split_at(place),
            None => (lines, &[]),
        }
    }

    /// The first section of lines that begin with a head, where heads are marked so, and what stands behind it.
    pub fn next<'a>(self, text: &[u8], lines: &'a [Line]) -> Option<(Section<'a>, &'a [Line])>
        requires within { All (IsLineIn text.now) lines.now }
        requires headed { (sections_in self text.now lines.now).before ≡ [] }
        ensures sections { MatchOption result ((sections_in self text.now lines.now).sections ≡ [])
            (λ p. (sections_in self text.now lines.now).sections ≡ section_at text.now p.0 ∷ (sections_in self text.now p.1.now).sections) }
        ensures headed { IfSome result (λ p. (sections_in self text.now p.1.now).before ≡ []) }
        ensures shorter { IfSome result (λ p. length p.1.now < length lines.now) }
        ensures section_within { IfSome result (λ p. IsSectionIn text.now p.0) }
        ensures within { IfSome result (λ p. All (IsLineIn text.now) p.1.now) }
    {
        match lines {
            [] => None,
            [head, rest @ ..] => {
                let (under, later) = self.cut(text, rest);
                let section = Section { head: *head, under };
                Some((section, later))
            }
        }
    }
}

/// A section: its head, and the lines up to the next head.
#[derive(Clone, Copy, Debug)]
pub(crate) struct Section<'a> {
    pub head: Line,
    pub under: &'a [Line],
}
