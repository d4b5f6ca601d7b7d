//! The table of legal instructions. A row has the types of an instruction's virtual registers in the order of its
//! operands, then the type in memory.

ghost use Rattle.std.specs.Prelude.{◌≡◌, map};
ghost use Rattle.gi_rules.specs.Legal.{legal_rows};

use gi_mir::opcode::Opcode;

/// What stands in a row: a type, or a type for any number of registers.
#[derive(Clone, Copy, Debug, PartialEq, Eq)]
pub enum LegalType {
    /// A scalar of a register's width, sX.
    Register,
    /// s32 where a register has 64 bits.
    Half,
    /// p0
    Pointer,
    /// In memory: whole bytes, a power of two of them, up to a register's width.
    Bytes,
    /// In memory: the same, but fewer bits than a register has.
    FewerBytes,
    /// Any number of scalars of a register's width.
    Registers,
    /// Any number of pointers.
    Pointers,
}

use LegalType::{Bytes, FewerBytes, Half, Pointer, Pointers, Register, Registers};

/// `%d:A = COPY %s(A)`; with a physical register sX, p0
const COPY: &[&[LegalType]] = &[
    &[Register, Register],
    &[Pointer, Pointer],
    &[Half, Half],
    &[Register],
    &[Pointer],
];
/// `%d:A = G_CONSTANT iN V`
const VALUE_OR_HALF: &[&[LegalType]] = &[&[Half], &[Register], &[Pointer]];
/// `%d:p0 = G_FRAME_INDEX %stack.N`
const ADDRESS: &[&[LegalType]] = &[&[Pointer]];
/// `%d:p0 = G_PTR_ADD %p, %o(sX)`
const POINTER_SUM: &[&[LegalType]] = &[&[Pointer, Pointer, Register]];
/// `%d:sX = G_PTRTOINT %p(p0)`
const POINTER_TO_INTEGER: &[&[LegalType]] = &[&[Register, Pointer]];
/// `%d:p0 = G_INTTOPTR %s(sX)`
const INTEGER_TO_POINTER: &[&[LegalType]] = &[&[Pointer, Register]];
/// `%d:A = G_AND %a, %b`
const WHOLE: &[&[LegalType]] = &[&[Register, Register, Register]];
/// `%d:A = G_ADD %a, %b`
const WHOLE_OR_HALF: &[&[LegalType]] = &[&[Half, Half, Half], &[Register, Register, Register]];
/// `%d:sX = G_ICMP intpred(P), %a(B), %b`
const COMPARISON: &[&[LegalType]] = &[
    &[Register, Register, Register],
    &[Register, Pointer, Pointer],
];
/// `%d:A = G_SELECT %c(sX), %a, %b`
const SELECTION: &[&[LegalType]] = &[
    &[Register, Register, Register, Register],
    &[Pointer, Register, Pointer, Pointer],
];
/// `%d:A = G_PHI %a(A), %bb.N, ..`
const PHI: &[&[LegalType]] = &[&[Register, Registers], &[Pointer, Pointers]];
/// `G_BR %bb.N`
const NO_TYPE: &[&[LegalType]] = &[&[]];
/// `G_BRCOND %c(sX), %bb.N`
const CONDITION: &[&[LegalType]] = &[&[Register]];
/// `%d:s32 = G_TRUNC %s(s64)`
const TRUNCATION: &[&[LegalType]] = &[&[Half, Register]];
/// `%d:s64 = G_ZEXT %s(s32)`
const EXTENSION: &[&[LegalType]] = &[&[Register, Half]];
/// `%d:sX = G_SEXT_INREG %s, K`
const IN_REGISTER: &[&[LegalType]] = &[&[Register, Register]];
/// `%d:A = G_LOAD %p(p0) :: (load (M))`, `G_STORE %v(A), %p(p0) :: (store (M))`
const MEMORY: &[&[LegalType]] = &[&[Register, Pointer, Bytes], &[Pointer, Pointer, Pointer]];
/// `%d:sX = G_ZEXTLOAD %p(p0) :: (load (M))`
const EXTENDING_LOAD: &[&[LegalType]] = &[&[Register, Pointer, FewerBytes]];

/// The rows of an opcode.
pub fn legal_rows(op: Opcode) -> &'static [&'static [LegalType]]
    ensures { map (λ row. row.now) result.now ≡ legal_rows op }
{
    match op {
        Opcode::Copy => COPY,
        Opcode::GenericImplicitDef | Opcode::GenericConstant => VALUE_OR_HALF,
        Opcode::GenericFrameIndex | Opcode::GenericGlobalValue => ADDRESS,
        Opcode::GenericPointerAdd => POINTER_SUM,
        Opcode::GenericPointerToInteger => POINTER_TO_INTEGER,
        Opcode::GenericIntegerToPointer => INTEGER_TO_POINTER,
        Opcode::GenericAdd
        | Opcode::GenericSubtract
        | Opcode::GenericMultiply
        | Opcode::GenericUnsignedDivide
        | Opcode::GenericSignedDivide
        | Opcode::GenericUnsignedRemainder
        | Opcode::GenericSignedRemainder
        | Opcode::GenericShiftLeft
        | Opcode::GenericLogicalShiftRight
        | Opcode::GenericArithmeticShiftRight => WHOLE_OR_HALF,
        Opcode::GenericAnd
        | Opcode::GenericOr
        | Opcode::GenericXor
        | Opcode::GenericUnsignedMultiplyHigh
        | Opcode::GenericSignedMultiplyHigh => WHOLE,
        Opcode::GenericCompare => COMPARISON,
        Opcode::GenericSelect => SELECTION,
        Opcode::GenericPhi => PHI,
        Opcode::GenericBranch
        | Opcode::PseudoCall
        | Opcode::PseudoReturn
        | Opcode::AdjustCallStackDown
        | Opcode::AdjustCallStackUp => NO_TYPE,
        Opcode::GenericBranchConditional => CONDITION,
        Opcode::GenericTruncate => TRUNCATION,
        Opcode::GenericAnyExtend | Opcode::GenericZeroExtend | Opcode::GenericSignExtend =>
            EXTENSION,
        Opcode::GenericSignExtendInRegister => IN_REGISTER,
        Opcode::GenericLoad | Opcode::GenericStore => MEMORY,
        Opcode::GenericZeroExtendLoad | Opcode::GenericSignExtendLoad => EXTENDING_LOAD,
        _ => &[],
    }
}
