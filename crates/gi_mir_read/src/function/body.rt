//! The lines under the head of a block.

ghost use Rattle.std.specs.Prelude.{◌≡◌, ℕ, ◌-◌, ◌<◌, ◌^◌, List, [], true, false, fold, length, None, Some, All, IfOk, OnOk, if◌then◌else◌};
ghost use Rattle.gi_spelling.specs.Blocks.{begun, no_lists, with_instr_line, with_line, with_list, with_list_line, with_liveins, with_resolved, with_successors, read_liveins, read_successors};
ghost use Rattle.gi_spelling.specs.Resolved.{resolved};
ghost use Rattle.gi_spelling.specs.Items.{kept_items};
ghost use Rattle.gi_spelling.specs.Resolved.{Tables as TablesData};
ghost use Rattle.gi_mir.specs.Formed.{is_formed};
ghost use Rattle.gi_mir_read.specs.Functions.Blocked.{IsToldIn, told_lines_at};
ghost use Rattle.gi_mir_read.specs.Functions.Noted.{with_notes};
ghost use Rattle.gi_mir_read.specs.Functions.Bodies.{Reads, with_instr};
ghost use Rattle.gi_mir_read.specs.Texts.Placed.{IsLineIn, line_at};

use crate::function::notes::Notes;
use crate::function::told::{Told, kept_of_line};
use crate::line::block::{list_kind, listed, liveins, successors};
use crate::line::instr::read_instr;
use crate::line::stop::Stop;
use crate::text::lines::Line;
use gi_llt::Memory;
use gi_mir::instr::Instr;
use gi_mir::names::Names;
use gi_resolve::resolve::resolve;
use gi_resolve::tables::Tables;
use gi_spelling::token::Item;
use gi_spelling::written::{Fault, ListKind, Written};
use std::alloc::Global;
use std::marker::Model;

/// What a block states, if it does: its successors by their numbers, and the registers that are live at its start.
#[derive(Drop)]
pub(crate) struct Lists {
    pub successors: Option<Vec<u32>>,
    pub liveins: Option<Vec<u8>>,
}

impl Model for Lists {
    ghost use Rattle.std.specs.Prelude.{option_map};
    ghost use Rattle.gi_spelling.specs.Blocks.{Lists};

    ghost Value = { Lists };

    ghost view = { λ a. record { successors = option_map (λ v. v.items) a.successors; liveins = option_map (λ v. v.items) a.liveins } };
}

impl Lists {
    /// Nothing is stated.
    fn new() -> Lists
        ensures { result ≡ no_lists }
    {
        Lists {
            successors: None,
            liveins: None,
        }
    }

    /// States the successors, unless they are stated already or these aren't spelled so.
    fn state_successors(&mut self, alloc: Global, items: &[Item]) -> Result<bool, Memory>
        ensures stated { IfOk result (λ stated. with_successors self.old (read_successors items.now) ≡ (if stated then Some self.new else None)) }
        ensures kept { IfOk result (λ stated. stated ≡ false → self.new ≡ self.old) }
    {
        match successors(alloc, items) {
            Ok(_) if self.successors.is_some() => Ok(false),
            Ok(numbers) => {
                self.successors = Some(numbers);
                Ok(true)
            }
            Err(Stop::Fault(_)) => Ok(false),
            Err(Stop::Memory) => Err(Memory),
        }
    }

    /// States the registers that are live at the start of the first block, unless they are stated already or these
    /// aren't spelled so.
    fn state_liveins(&mut self, alloc: Global, place: u32, items: &[Item]) -> Result<bool, Memory>
        ensures stated { IfOk result (λ stated. with_liveins place self.old (read_liveins items.now) ≡ (if stated then Some self.new else None)) }
        ensures kept { IfOk result (λ stated. stated ≡ false → self.new ≡ self.old) }
    {
        match liveins(alloc, items) {
            Ok(_) if place != 0 || self.liveins.is_some() => Ok(false),
            Ok(registers) => {
                self.liveins = Some(registers);
                Ok(true)
            }
            Err(Stop::Fault(_)) => Ok(false),
            Err(Stop::Memory) => Err(Memory),
        }
    }

    /// States a list, unless it is stated already, isn't spelled so or may not stand here.
    fn state(
        &mut self,
        alloc: Global,
        place: u32,
        kind: ListKind,
        items: &[Item],
    ) -> Result<bool, Memory>
        ensures stated { IfOk result (λ stated. with_list place self.old kind items.now ≡ (if stated then Some self.new else None)) }
        ensures kept { IfOk result (λ stated. stated ≡ false → self.new ≡ self.old) }
    {
        match kind {
            ListKind::Successors => self.state_successors(alloc, items),
            ListKind::Liveins => self.state_liveins(alloc, place, items),
        }
    }
}

/// Where a block stands: the text, what the lines of its function rest on, and its place in layout.
#[derive(Clone, Copy)]
pub(crate) struct Site<'a> {
    pub alloc: Global,
    pub text: &'a [u8],
    pub tables: &'a Tables,
    pub place: u32,
}

/// What is read of a block so far: its lists, its instructions, and whether one has been read.
#[derive(Drop)]
pub(crate) struct Body {
    pub lists: Lists,
    pub instrs: Vec<Instr>,
    begun: bool,
}

impl Model for Body {
    ghost use Rattle.gi_mir_read.specs.Functions.Bodies.{AreFormed, BodyData};

    ghost Value = { BodyData };

    ghost view = { λ a. record { lists = a.lists; instrs = a.instrs.items; begun = a.begun } };

    ghost invariant = { λ a. AreFormed a.instrs.items };
}

impl Body {
    /// Nothing is read so far.
    pub fn new(alloc: Global) -> Body
        ensures { result ≡ record { lists = no_lists; instrs = []; begun = false } }
    {
        Body {
            lists: Lists::new(),
            instrs: Vec::new(alloc),
            begun: false,
        }
    }

    /// A list stands before the instructions.
    fn list_line(
        &mut self,
        site: Site<'_>,
        notes: &mut Notes,
        line: Line,
        kind: ListKind,
        items: &[Item],
    ) -> Result<(), Memory>
        ensures { OnOk result ((names : List (List ℕ)) → Reads site.entry.text.now names names (λ spelled. with_list_line site.entry.place spelled (line_at site.entry.text.now line) kind items.now) self.old notes.old self.new notes.new) }
    {
        if self.begun || !self.lists.state(site.alloc, site.place, kind, items)? {
            notes.note(line.number, Fault::Syntax);
        }
        Ok(())
    }

    /// Keeps an instruction and what is to be known of it at the end.
    fn keep(
        &mut self,
        notes: &mut Notes,
        line: u32,
        written: &Written,
        instr: Instr,
    ) -> Result<(), Memory>
        requires { is_formed instr ≡ true }
        ensures instrs { OnOk result (self.new ≡ with_instr self.old instr) }
        ensures notes { OnOk result (notes.new ≡ with_notes notes.old line written.now.sources instr.operands) }
    {
        notes.keep(line, written.sources.as_slice(), instr.operands.as_slice())?;
        self.instrs.push(instr).map_err(|_| Memory)
    }

    /// Keeps what a written instruction means, unless its line spells nothing.
    fn written_line(
        &mut self,
        site: Site<'_>,
        names: &mut Names,
        notes: &mut Notes,
        line: Line,
        written: &Written,
    ) -> Result<(), Memory>
        ensures { OnOk result (Reads site.entry.text.now names.old names.new
            (λ spelled. with_resolved spelled (line_at site.entry.text.now line) written.now (resolved site.entry.tables.now written.now line.number)) self.old notes.old self.new notes.new) }
    {
        match resolve(
            site.alloc,
            site.text,
            names,
            site.tables,
            written,
            line.number,
        )? {
            Some(instr) => self.keep(notes, line.number, written, instr)?,
            None => notes.note(line.number, Fault::Syntax),
        }
        Ok(())
    }

    /// An instruction.
    fn instr_line(
        &mut self,
        site: Site<'_>,
        names: &mut Names,
        notes: &mut Notes,
        line: Line,
        items: &[Item],
    ) -> Result<(), Memory>
        ensures { OnOk result (Reads site.entry.text.now names.old names.new
            (λ spelled. with_instr_line site.entry.text.now site.entry.tables.now spelled (line_at site.entry.text.now line) (Some items.now)) self.old notes.old self.new notes.new) }
    {
        self.begun = true;
        match read_instr(site.alloc, items) {
            Ok(written) => self.written_line(site, names, notes, line, &written),
            Err(Stop::Fault(fault)) => {
                notes.note(line.number, fault);
                Ok(())
            }
            Err(Stop::Memory) => Err(Memory),
        }
    }

    /// A line by the tokens that count of it.
    fn line_of(
        &mut self,
        site: Site<'_>,
        names: &mut Names,
        notes: &mut Notes,
        line: Line,
        items: &[Item],
    ) -> Result<(), Memory>
        requires { kept_items site.text.now (line_at site.text.now line) ≡ Some items.now }
        ensures { OnOk result (Reads site.entry.text.now names.old names.new
            (λ spelled. with_line site.entry.text.now site.entry.tables.now site.entry.place spelled (line_at site.entry.text.now line)) self.old notes.old self.new notes.new) }
    {
        match list_kind(items) {
            Some(kind) => self.list_line(site, notes, line, kind, listed(items)),
            None => self.instr_line(site, names, notes, line, items),
        }
    }

    /// A line without tokens.
    fn blank_line(&mut self, notes: &mut Notes, line: Line)
        ensures { (text : List ℕ) (tables : TablesData) (names : List (List ℕ)) → Reads text names names
            (λ spelled. with_instr_line text tables spelled (line_at text line) None) self.old notes.old self.new notes.new }
    {
        self.begun = true;
        notes.note(line.number, Fault::Syntax);
    }

    /// A line.
    fn line(
        &mut self,
        site: Site<'_>,
        names: &mut Names,
        notes: &mut Notes,
        line: Line,
    ) -> Result<(), Memory>
        requires within { IsLineIn site.text.now line }
        requires short { length site.text.now < 2 ^ 32 - 1 }
        ensures { OnOk result (Reads site.entry.text.now names.old names.new
            (λ spelled. with_line site.entry.text.now site.entry.tables.now site.entry.place spelled (line_at site.entry.text.now line)) self.old notes.old self.new notes.new) }
    {
        match kept_of_line(site.alloc, site.text, line)? {
            Some(items) => self.line_of(site, names, notes, line, items.as_slice()),
            None => {
                self.blank_line(notes, line);
                Ok(())
            }
        }
    }

    /// Lines, one after the other.
    pub fn lines(
        &mut self,
        site: Site<'_>,
        names: &mut Names,
        notes: &mut Notes,
        lines: &[Told],
    ) -> Result<(), Memory>
        requires within { All (IsToldIn site.text.now) lines.now }
        requires short { length site.text.now < 2 ^ 32 - 1 }
        ensures { OnOk result (Reads site.entry.text.now names.old names.new
            (λ spelled. fold (with_line site.entry.text.now site.entry.tables.now site.entry.place) spelled (told_lines_at site.entry.text.now lines.now)) self.old notes.old self.new notes.new) }
    {
        for told in lines {
            self.line(site, names, notes, told.line)?;
        }
        Ok(())
    }
}
