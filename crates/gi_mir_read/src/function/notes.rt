//! What is kept to the end of a function, and what is wrong in it so far.

ghost use Rattle.std.specs.Prelude.{◌≡◌, [], OnOk, fold};
ghost use Rattle.gi_spelling.specs.Blocks.{first_kind, wrong};
ghost use Rattle.gi_spelling.specs.Documents.{lower};
ghost use Rattle.gi_mir_read.specs.Functions.Noted.{has_kind, with_lowest, with_notes, with_shown, with_source};

use crate::list::push;
use crate::text::wrongs::Lowest;
use gi_llt::{Llt, Memory};
use gi_mir::operand::{Kind, Operand, Reg};
use gi_mir::types::same_type;
use gi_registers::kinds::RegisterKinds;
use gi_spelling::written::{Fault, Shown, Source};
use std::alloc::Global;
use std::marker::Model;

/// Keeps the type that a use on a line shows.
fn keep_source(shown: &mut Vec<Shown>, line: u32, source: Source) -> Result<(), Memory>
    ensures { OnOk result (shown.new.items ≡ with_source line shown.old.items source) }
{
    match source {
        Source::TypedUse(reg, ty) => push(shown, Shown { line, reg, ty }),
        _ => Ok(()),
    }
}

/// Keeps the types that the uses on a line show.
fn keep_sources(shown: &mut Vec<Shown>, line: u32, sources: &[Source]) -> Result<(), Memory>
    ensures { OnOk result (shown.new.items ≡ fold (with_source line) shown.old.items sources.now) }
{
    for source in sources {
        keep_source(shown, line, *source)?;
    }
    Ok(())
}

/// Whether a type is that of a kind, unless that has none.
fn has_type(kind: Option<Kind>, ty: Llt) -> bool
    ensures { result ≡ has_kind kind ty }
{
    match kind {
        Some(Kind::Generic(own) | Kind::Banked(own)) => same_type(own, ty),
        Some(Kind::Class) | None => true,
    }
}

/// The kinds of the registers at their first definitions, the types that uses show, and the lowest line at which
/// something is wrong.
#[derive(Drop)]
pub(crate) struct Notes {
    kinds: RegisterKinds,
    shown: Vec<Shown>,
    lowest: Lowest,
}

impl Model for Notes {
    ghost use Rattle.gi_mir_read.specs.Functions.Noted.{NotesData};

    ghost Value = { NotesData };

    ghost view = { λ a. record { kinds = a.kinds; shown = a.shown.items; lowest = a.lowest } };
}

impl Notes {
    /// No registers, where this is wrong so far.
    pub fn new(alloc: Global, lowest: Lowest) -> Notes
        ensures { result ≡ record { kinds = []; shown = []; lowest = lowest } }
    {
        Notes {
            kinds: RegisterKinds::new(alloc),
            shown: Vec::new(alloc),
            lowest,
        }
    }

    /// Notes that something is wrong at a line.
    pub fn note(&mut self, line: u32, fault: Fault)
        ensures { self.new ≡ with_lowest self.old (lower self.old.lowest (wrong line fault)) }
    {
        self.lowest.note(line, fault);
    }

    /// Keeps the kinds and the types of an instruction.
    pub fn keep(
        &mut self,
        line: u32,
        sources: &[Source],
        operands: &[Operand],
    ) -> Result<(), Memory>
        ensures { OnOk result (self.new ≡ with_notes self.old line sources.now operands.now) }
    {
        self.kinds.note_operands(operands)?;
        keep_sources(&mut self.shown, line, sources)
    }

    /// The kind of a register.
    fn kind_of(&self, reg: Reg) -> Option<Kind>
        ensures { result ≡ first_kind self.now.kinds reg }
    {
        self.kinds.kind_of(reg)
    }

    /// Notes that a shown type isn't the register's.
    fn note_shown(&self, lowest: &mut Lowest, shown: Shown)
        ensures { lowest.new ≡ with_shown self.now.kinds lowest.old shown }
    {
        if !has_type(self.kind_of(shown.reg), shown.ty) {
            lowest.note(shown.line, Fault::Syntax);
        }
    }

    /// The lowest line at which something is wrong, where it is wrong to show a type that isn't the register's.
    pub fn lowest(&self) -> Lowest
        ensures { result ≡ fold (with_shown self.now.kinds) self.now.lowest self.now.shown }
    {
        let mut lowest = self.lowest;
        for shown in &self.shown {
            self.note_shown(&mut lowest, *shown);
        }
        lowest
    }
}
