//! How rewrites are written: a root on its inputs, the definitions that it looks at, what is made in order, and the places of
//! the results.

ghost use Rattle.std.specs.Prelude.{◌≡◌, [], ◌∷◌, ◌++◌, IfOk, OnOk, map};
ghost use Rattle.gi_rule_values.specs.Forms.{compare, constant, flagged, holds, in_register, number, on_one, on_two, plain, s};
ghost use Rattle.gi_rule_values.specs.Lines.{on_line};
ghost use Rattle.gi_rule_values.specs.Selecting.{with_number, with_zero};
ghost use Rattle.gi_rule_values.specs.declared.rewrite.Slot.TheVariants as slot;
ghost use Rattle.gi_mir.specs.Data.{no_flags};

use crate::rewrite::{Definition, Operation, Rewrite, Slot};
use gi_llt::{Llt, Memory};
use gi_mir::opcode::Opcode;
use gi_mir::operand::{Flags, Operand, Pred};
use smallvec::SmallVec;
use std::alloc::Global;

/// A scalar of so many bits.
pub fn s(bits: u16) -> Llt
    ensures { result ≡ s bits }
{
    Llt::Scalar(bits)
}

/// An operation of one result, all of one width.
#[derive(Clone, Copy, Debug, PartialEq, Eq)]
pub enum Line {
    /// A constant.
    Number(u128),
    /// On the value at a place.
    One(Opcode, u8),
    /// On the values at two places.
    Two(Opcode, u8, u8),
}

impl Operation {
    /// An operation with a type for each result.
    pub fn new(
        alloc: Global,
        op: Opcode,
        flags: Flags,
        slots: &[Slot],
        types: &[Llt],
    ) -> Result<Operation, Memory>
        ensures { IfOk result (λ operation. operation ≡ flagged flags op slots.now types.now) }
    {
        Ok(Operation {
            op,
            flags,
            slots: SmallVec::from_slice(alloc, slots).map_err(|_| Memory)?,
            types: SmallVec::from_slice(alloc, types).map_err(|_| Memory)?,
        })
    }
}

/// An operation of one result without flags.
pub(crate) fn plain(alloc: Global, op: Opcode, slots: &[Slot], ty: Llt) -> Result<Operation, Memory>
    ensures { IfOk result (λ operation. operation ≡ plain op slots.now ty) }
{
    Operation::new(alloc, op, Flags::default(), slots, &[ty])
}

/// An operation of so many bits.
fn on_line(alloc: Global, bits: u16, line: Line) -> Result<Operation, Memory>
    ensures { IfOk result (λ operation. operation ≡ on_line bits line) }
{
    let constant = Opcode::GenericConstant;
    match line {
        Line::Number(value) => plain(
            alloc,
            constant,
            &[Slot::Stands(Operand::Constant(bits, value))],
            s(bits),
        ),
        Line::One(op, a) => plain(alloc, op, &[Slot::At(a)], s(bits)),
        Line::Two(op, a, b) => plain(alloc, op, &[Slot::At(a), Slot::At(b)], s(bits)),
    }
}

/// Adds operations of so many bits.
pub(crate) fn push_lines(bits: u16, lines: &[Line], made: &mut Vec<Operation>) -> Result<(), Memory>
    ensures { OnOk result (made.new.items ≡ made.old.items ++ map (on_line bits) lines.now) }
{
    match lines {
        [] => Ok(()),
        [line, rest @ ..] => {
            let operation = on_line(*made.allocator(), bits, *line)?;
            made.push(operation).map_err(|_| Memory)?;
            push_lines(bits, rest, made)
        }
    }
}

impl Rewrite {
    /// A root on inputs of these types, in whose place nothing is made.
    pub fn of(inputs: &[Llt], root: Operation) -> Result<Rewrite, Memory>
        ensures { IfOk result (λ rewrite. rewrite ≡ record { inputs = inputs.now; definitions = []; root = root; made = []; results = [] }) }
    {
        let alloc = *root.slots.allocator();
        Ok(Rewrite {
            inputs: Vec::from_slice(alloc, inputs).map_err(|_| Memory)?,
            definitions: Vec::new(alloc),
            root,
            made: Vec::new(alloc),
            results: Vec::new(alloc),
        })
    }

    /// A root on nothing but this operand.
    pub fn of_none(
        alloc: Global,
        op: Opcode,
        flags: Flags,
        operand: Operand,
        ty: Llt,
    ) -> Result<Rewrite, Memory>
        ensures { IfOk result (λ rewrite. rewrite ≡ record { inputs = []; definitions = []; root = flagged flags op (slot.Stands operand ∷ []) (ty ∷ []); made = []; results = [] }) }
    {
        Rewrite::of(
            &[],
            Operation::new(alloc, op, flags, &[Slot::Stands(operand)], &[ty])?,
        )
    }

    /// A root on one value.
    pub fn of_one(
        alloc: Global,
        op: Opcode,
        flags: Flags,
        from: Llt,
        ty: Llt,
    ) -> Result<Rewrite, Memory>
        ensures { IfOk result (λ rewrite. rewrite ≡ record { inputs = from ∷ []; definitions = []; root = flagged flags op (slot.At 0 ∷ []) (ty ∷ []); made = []; results = [] }) }
    {
        Rewrite::of(
            &[from],
            Operation::new(alloc, op, flags, &[Slot::At(0)], &[ty])?,
        )
    }

    /// A root on two values.
    pub fn of_two(
        alloc: Global,
        op: Opcode,
        flags: Flags,
        first: Llt,
        second: Llt,
        ty: Llt,
    ) -> Result<Rewrite, Memory>
        ensures { IfOk result (λ rewrite. rewrite ≡ record { inputs = first ∷ second ∷ []; definitions = []; root = flagged flags op (slot.At 0 ∷ slot.At 1 ∷ []) (ty ∷ []); made = []; results = [] }) }
    {
        Rewrite::of(
            &[first, second],
            Operation::new(alloc, op, flags, &[Slot::At(0), Slot::At(1)], &[ty])?,
        )
    }

    /// A root that compares two values of one type.
    pub fn of_compare(
        alloc: Global,
        flags: Flags,
        pred: Pred,
        from: Llt,
        ty: Llt,
    ) -> Result<Rewrite, Memory>
        ensures { IfOk result (λ rewrite. rewrite ≡ record { inputs = from ∷ from ∷ []; definitions = []; root = record (compare pred 0 1 ty) { flags = flags }; made = []; results = [] }) }
    {
        Rewrite::of(
            &[from, from],
            Operation::new(
                alloc,
                Opcode::GenericCompare,
                flags,
                &[
                    Slot::Stands(Operand::Predicate(pred)),
                    Slot::At(0),
                    Slot::At(1),
                ],
                &[ty],
            )?,
        )
    }

    /// One that looks besides at the operation whose result stands at this place.
    pub fn holds(
        mut self,
        place: u8,
        op: Opcode,
        flags: Flags,
        slots: &[Slot],
        ty: Llt,
    ) -> Result<Rewrite, Memory>
        ensures { IfOk result (λ rewrite. rewrite ≡ record self { definitions = self.definitions ++ holds place (flagged flags op slots.now (ty ∷ [])) ∷ [] }) }
    {
        let alloc = *self.results.allocator();
        let operation = Operation::new(alloc, op, flags, slots, &[ty])?;
        let results = Vec::from_slice(alloc, &[place]).map_err(|_| Memory)?;
        self.definitions
            .push(Definition { operation, results })
            .map_err(|_| Memory)?;
        Ok(self)
    }

    /// One at whose place a constant of so many bits stands.
    pub fn holds_constant(
        self,
        place: u8,
        flags: Flags,
        bits: u16,
        value: u128,
    ) -> Result<Rewrite, Memory>
        ensures { IfOk result (λ rewrite. rewrite ≡ record self { definitions = self.definitions ++ holds place (constant flags bits value) ∷ [] }) }
    {
        self.holds(
            place,
            Opcode::GenericConstant,
            flags,
            &[Slot::Stands(Operand::Constant(bits, value))],
            s(bits),
        )
    }

    /// One that makes besides an operation with results of these types.
    pub fn makes_all(mut self, op: Opcode, slots: &[Slot], types: &[Llt]) -> Result<Rewrite, Memory>
        ensures { IfOk result (λ rewrite. rewrite ≡ record self { made = self.made ++ flagged no_flags op slots.now types.now ∷ [] }) }
    {
        let operation = Operation::new(
            *self.results.allocator(),
            op,
            Flags::default(),
            slots,
            types,
        )?;
        self.made.push(operation).map_err(|_| Memory)?;
        Ok(self)
    }

    /// One that makes besides an operation of one result.
    pub fn makes(self, op: Opcode, slots: &[Slot], ty: Llt) -> Result<Rewrite, Memory>
        ensures { IfOk result (λ rewrite. rewrite ≡ record self { made = self.made ++ plain op slots.now ty ∷ [] }) }
    {
        self.makes_all(op, slots, &[ty])
    }

    /// One that makes besides an operation on the value at a place.
    pub fn on_one(self, op: Opcode, a: u8, ty: Llt) -> Result<Rewrite, Memory>
        ensures { IfOk result (λ rewrite. rewrite ≡ record self { made = self.made ++ on_one op a ty ∷ [] }) }
    {
        self.makes(op, &[Slot::At(a)], ty)
    }

    /// One that makes besides an operation on the values at two places.
    pub fn on_two(self, op: Opcode, a: u8, b: u8, ty: Llt) -> Result<Rewrite, Memory>
        ensures { IfOk result (λ rewrite. rewrite ≡ record self { made = self.made ++ on_two op a b ty ∷ [] }) }
    {
        self.makes(op, &[Slot::At(a), Slot::At(b)], ty)
    }

    /// One that makes besides an operation on the value at a place and a number that stands in it.
    pub fn with_number(self, op: Opcode, a: u8, number: i128, ty: Llt) -> Result<Rewrite, Memory>
        ensures { IfOk result (λ rewrite. rewrite ≡ record self { made = self.made ++ with_number op a number ty ∷ [] }) }
    {
        self.makes(op, &[Slot::At(a), Slot::Stands(Operand::Int(number))], ty)
    }

    /// One that makes besides an operation on `$x0` and the value at a place.
    pub fn with_zero(self, op: Opcode, a: u8, ty: Llt) -> Result<Rewrite, Memory>
        ensures { IfOk result (λ rewrite. rewrite ≡ record self { made = self.made ++ with_zero op a ty ∷ [] }) }
    {
        self.makes(op, &[Slot::Stands(Operand::Phys(0)), Slot::At(a)], ty)
    }

    /// One that makes besides a number of so many bits.
    pub fn number(self, bits: u16, value: u128) -> Result<Rewrite, Memory>
        ensures { IfOk result (λ rewrite. rewrite ≡ record self { made = self.made ++ number bits value ∷ [] }) }
    {
        self.makes(
            Opcode::GenericConstant,
            &[Slot::Stands(Operand::Constant(bits, value))],
            s(bits),
        )
    }

    /// One that makes besides a comparison of the values at two places.
    pub fn compare(self, pred: Pred, a: u8, b: u8, ty: Llt) -> Result<Rewrite, Memory>
        ensures { IfOk result (λ rewrite. rewrite ≡ record self { made = self.made ++ compare pred a b ty ∷ [] }) }
    {
        self.makes(
            Opcode::GenericCompare,
            &[
                Slot::Stands(Operand::Predicate(pred)),
                Slot::At(a),
                Slot::At(b),
            ],
            ty,
        )
    }

    /// One that makes besides the low bits of the value at a place, with their sign.
    pub fn in_register(self, a: u8, from: u16, ty: Llt) -> Result<Rewrite, Memory>
        ensures { IfOk result (λ rewrite. rewrite ≡ record self { made = self.made ++ in_register a from ty ∷ [] }) }
    {
        self.makes(
            Opcode::GenericSignExtendInRegister,
            &[Slot::At(a), Slot::Stands(Operand::Int(i128::from(from)))],
            ty,
        )
    }

    /// One that makes besides all these operations of so many bits.
    pub fn makes_lines(mut self, bits: u16, lines: &[Line]) -> Result<Rewrite, Memory>
        ensures { IfOk result (λ rewrite. rewrite ≡ record self { made = self.made ++ map (on_line bits) lines.now }) }
    {
        push_lines(bits, lines, &mut self.made)?;
        Ok(self)
    }

    /// One whose root's results have their values at these places.
    pub fn gives(mut self, places: &[u8]) -> Result<Rewrite, Memory>
        ensures { IfOk result (λ rewrite. rewrite ≡ record self { results = places.now }) }
    {
        self.results = Vec::from_slice(*self.results.allocator(), places).map_err(|_| Memory)?;
        Ok(self)
    }
}
