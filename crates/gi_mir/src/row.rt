//! The table of opcodes. All that is asked of an opcode is read from it.

ghost use Rattle.std.specs.Prelude.{◌≡◌, ◌≢◌, ◌<◌, [], bytes_eq, find, length, map, slice_index_or, option_map, IfSome, IfNone};
ghost use Rattle.gi_mir.specs.Groups.{group_at};
ghost use Rattle.gi_mir.specs.Typings.{typing_by};
ghost use Rattle.gi_mir.specs.Row.{word_of, rows_of, access_of, memory_of, role_of, standing_of, typing_of, is_commutative_op, routine_call_of, is_generic_op, is_terminator_op, is_unconditional_op, is_branch_op, is_call_op, is_phi_op, is_wide_op, opcode_of};
ghost use Rattle.gi_mir.specs.declared.opcode.Opcode.{Opcode};

use crate::entry::InMemory::{Bits, Extended, Nothing, Value};
use crate::entry::{Entry, InMemory, Role, RoutineCall, Standing};
use crate::opcode::Opcode;
use crate::typing::Class::{Any, Register, Rotatable, Scalar, Swappable};
use crate::typing::Signature::{
    CarryOut, CarryThrough, Comparison, Extension, FromPointer, Joining, Merge, NoSources, NoTypes,
    OneAlike, OneCondition, OnePointer, PointerSum, Selection, Store, ThreeAlike, ToPointer,
    Truncation, TwoAlike, Unmerge,
};
use crate::typing::Typing;

/// What may stand in a place of an instruction.
#[derive(Clone, Copy, Debug, PartialEq, Eq)]
pub enum Form {
    /// A virtual register that is defined.
    Def,
    /// A virtual register that is read, shown without its type.
    Use,
    /// A virtual register that is read, shown with its type.
    TypedUse,
    /// A physical register that is read.
    Physical,
    /// A physical register that is written.
    PhysicalDef,
    /// A virtual or a physical register that is read.
    Source,
    /// A source or a stack object.
    Address,
    /// A whole number.
    Int,
    /// A whole number or the high part of a global's address.
    High,
    /// A whole number or the low part of a global's address.
    Low,
    /// A constant of so many bits.
    Constant,
    /// A block.
    Block,
    /// The predicate of a comparison.
    Predicate,
    /// A stack object.
    Frame,
    /// A global.
    Global,
    /// A global or a routine that is called.
    Callee,
    /// The registers that a call keeps.
    SavedMask,
    /// A physical register that is read beside what the instruction shows.
    ImplicitUse,
    /// A physical register that is written beside what the instruction shows.
    ImplicitDef,
    /// Any number of virtual registers that are defined.
    Results,
    /// Any number of virtual registers that are read, shown with their types.
    Parts,
    /// Any number of pairs of a virtual register that is read, shown with its type, and a block.
    Entry,
    /// The block of such a pair, and what may follow it.
    EntryBlock,
    /// Any number of implicit operands.
    Implicits,
    /// Any number of physical registers that are read beside what the instruction shows.
    ImplicitUses,
}

/// What an instruction does with memory.
#[derive(Clone, Copy, Debug, PartialEq, Eq)]
pub enum Access {
    Neither,
    Load,
    Store,
}

/// `%d:A = G_IMPLICIT_DEF`
const DEFINED: &[&[Form]] = &[&[Form::Def]];
/// `%d:A = G_PHI %a(A), %bb.N, ..`
const PHI: &[&[Form]] = &[&[Form::Def, Form::Entry]];
/// `PseudoCALL target-flags(riscv-call) @g, csr_ilp32_lp64, implicit-def $x1, ..`
const CALL: &[&[Form]] = &[&[
    Form::Callee,
    Form::SavedMask,
    Form::ImplicitDef,
    Form::Implicits,
]];
/// `PseudoRET implicit $x10, ..`
const RETURNED: &[&[Form]] = &[&[Form::ImplicitUses]];
/// `ADJCALLSTACKDOWN 0, 0, implicit-def $x2, implicit $x2`
const ADJUSTED: &[&[Form]] = &[&[Form::Int, Form::Int, Form::ImplicitDef, Form::ImplicitUse]];
/// `%d:A = G_CONSTANT iN V`
const CONSTANT: &[&[Form]] = &[&[Form::Def, Form::Constant]];
/// `%d:A = G_FREEZE %s`
const UNARY: &[&[Form]] = &[&[Form::Def, Form::Use]];
/// `%d:p0 = G_FRAME_INDEX %stack.N`
const FRAME_INDEX: &[&[Form]] = &[&[Form::Def, Form::Frame]];
/// `%d:p0 = G_GLOBAL_VALUE @g`
const GLOBAL_VALUE: &[&[Form]] = &[&[Form::Def, Form::Global]];
/// `%d:A = G_SHL %a, %n(A)`
const SHIFT: &[&[Form]] = &[&[Form::Def, Form::Use, Form::TypedUse]];
/// `%d:A = G_TRUNC %s(B)`
const UNARY_TYPED: &[&[Form]] = &[&[Form::Def, Form::TypedUse]];
/// `%d:A = G_SEXT_INREG %s, K`
const IN_REGISTER: &[&[Form]] = &[&[Form::Def, Form::Use, Form::Int]];
/// `%d:A = G_MERGE_VALUES %a(B), %b(B), ..`
const MERGE: &[&[Form]] = &[&[Form::Def, Form::Parts]];
/// `%d:B, %e:B, .. = G_UNMERGE_VALUES %s(A)`
const UNMERGE: &[&[Form]] = &[&[Form::Results, Form::TypedUse]];
/// `%d:A = G_ADD %a, %b`
const BINARY: &[&[Form]] = &[&[Form::Def, Form::Use, Form::Use]];
/// `%d:A, %e:s1 = G_UADDO %a, %b`
const OVERFLOW: &[&[Form]] = &[&[Form::Def, Form::Def, Form::Use, Form::Use]];
/// `%d:A, %e:s1 = G_UADDE %a, %b, %c`
const CARRY: &[&[Form]] = &[&[Form::Def, Form::Def, Form::Use, Form::Use, Form::Use]];
/// `%d:A = G_ICMP intpred(P), %a(B), %b`
const COMPARE: &[&[Form]] = &[&[Form::Def, Form::Predicate, Form::TypedUse, Form::Use]];
/// `%d:A = G_SELECT %c(B), %a, %b`
const SELECT: &[&[Form]] = &[&[Form::Def, Form::TypedUse, Form::Use, Form::Use]];
/// `%d:A = G_FSHL %a, %b, %n(A)`
const FUNNEL: &[&[Form]] = &[&[Form::Def, Form::Use, Form::Use, Form::TypedUse]];
/// `G_STORE %v(A), %p(p0)`
const STORE: &[&[Form]] = &[&[Form::TypedUse, Form::TypedUse]];
/// `G_BR %bb.N`
const BRANCH: &[&[Form]] = &[&[Form::Block]];
/// `G_BRCOND %c(B), %bb.N`
const BRANCH_CONDITIONAL: &[&[Form]] = &[&[Form::TypedUse, Form::Block]];
/// `%d = ADD a, b`
const REGISTERS: &[&[Form]] = &[&[Form::Def, Form::Source, Form::Source]];
/// `%d = ADDI a, i`
const ADD_IMMEDIATE: &[&[Form]] = &[&[Form::Def, Form::Address, Form::Low]];
/// `%d = SLTI a, i`
const IMMEDIATE: &[&[Form]] = &[&[Form::Def, Form::Source, Form::Int]];
/// `%d = LUI i`
const UPPER: &[&[Form]] = &[&[Form::Def, Form::High]];
/// `%d = LB a, i`
const MACHINE_LOAD: &[&[Form]] = &[&[Form::Def, Form::Address, Form::Int]];
/// `SB v, a, i`
const MACHINE_STORE: &[&[Form]] = &[&[Form::Source, Form::Address, Form::Int]];
/// `BEQ a, b, %bb.N`
const MACHINE_BRANCH: &[&[Form]] = &[&[Form::Source, Form::Source, Form::Block]];
/// `%d:A = COPY %s(A)`, `%d:A = COPY $xN` and `$xN = COPY %s(A)`
const COPY: &[&[Form]] = &[
    &[Form::Def, Form::TypedUse],
    &[Form::Def, Form::Physical],
    &[Form::PhysicalDef, Form::TypedUse],
];

/// Each opcode once, in the group of its word. The group's number is the word's length and its last byte, added modulo 32.
static GROUPS: [&[Opcode]; 32] = [
    &[
        Opcode::GenericCountLeadingZeros,
        Opcode::GenericCountTrailingZeros,
    ],
    &[Opcode::GenericMergeValues],
    &[],
    &[Opcode::GenericUnmergeValues],
    &[
        Opcode::ShiftRightArithmetic,
        Opcode::LoadByte,
        Opcode::StoreByte,
    ],
    &[Opcode::GenericFrameIndex, Opcode::Subtract],
    &[Opcode::LoadDouble, Opcode::StoreDouble],
    &[Opcode::GenericSubtract, Opcode::Add, Opcode::And],
    &[Opcode::BranchNotEqual, Opcode::BranchGreaterEqual],
    &[Opcode::GenericAdd, Opcode::GenericAnd],
    &[
        Opcode::GenericTruncate,
        Opcode::GenericLoad,
        Opcode::LoadHalf,
        Opcode::StoreHalf,
    ],
    &[],
    &[
        Opcode::Phi,
        Opcode::GenericUnsignedAddCarry,
        Opcode::GenericUnsignedSubtractBorrow,
        Opcode::GenericStore,
        Opcode::GenericBranchConditional,
        Opcode::MultiplyHigh,
        Opcode::OrImmediate,
        Opcode::LoadUpperImmediate,
    ],
    &[
        Opcode::GenericFreeze,
        Opcode::GenericPointerAdd,
        Opcode::AddImmediate,
        Opcode::SetLessImmediate,
        Opcode::AndImmediate,
        Opcode::XorImmediate,
        Opcode::ShiftLeftLogicalImmediate,
        Opcode::ShiftRightLogicalImmediate,
        Opcode::ShiftRightArithmeticImmediate,
    ],
    &[
        Opcode::GenericZeroExtendLoad,
        Opcode::GenericSignExtendLoad,
        Opcode::GenericPhi,
    ],
    &[
        Opcode::GenericUnsignedMultiplyHigh,
        Opcode::GenericSignedMultiplyHigh,
        Opcode::ShiftLeftLogical,
        Opcode::ShiftRightLogical,
        Opcode::Multiply,
    ],
    &[Opcode::Remainder],
    &[Opcode::GenericMultiply, Opcode::GenericShiftLeft],
    &[
        Opcode::ImplicitDef,
        Opcode::GenericFunnelShiftLeft,
        Opcode::GenericRotateLeft,
    ],
    &[
        Opcode::GenericGlobalValue,
        Opcode::GenericSignExtendInRegister,
        Opcode::GenericUnsignedRemainder,
        Opcode::GenericSignedRemainder,
    ],
    &[
        Opcode::GenericImplicitDef,
        Opcode::GenericSignedMinimum,
        Opcode::GenericUnsignedMinimum,
        Opcode::Or,
        Opcode::BranchEqual,
    ],
    &[Opcode::Xor],
    &[
        Opcode::PseudoCall,
        Opcode::GenericOr,
        Opcode::GenericUnsignedAddOverflow,
        Opcode::GenericUnsignedSubtractOverflow,
        Opcode::GenericCompare,
        Opcode::GenericBranch,
    ],
    &[
        Opcode::GenericXor,
        Opcode::GenericPopulationCount,
        Opcode::GenericCountLeadingZerosNotOfZero,
        Opcode::GenericCountTrailingZerosNotOfZero,
        Opcode::GenericByteSwap,
        Opcode::SetLess,
        Opcode::BranchLess,
    ],
    &[
        Opcode::GenericLogicalShiftRight,
        Opcode::GenericArithmeticShiftRight,
        Opcode::GenericAbsolute,
        Opcode::GenericFunnelShiftRight,
        Opcode::GenericRotateRight,
        Opcode::LoadByteUnsigned,
        Opcode::LoadHalfUnsigned,
        Opcode::LoadWordUnsigned,
    ],
    &[
        Opcode::SetLessUnsigned,
        Opcode::Divide,
        Opcode::DivideUnsigned,
        Opcode::RemainderUnsigned,
        Opcode::LoadWord,
        Opcode::StoreWord,
        Opcode::BranchLessUnsigned,
        Opcode::BranchGreaterEqualUnsigned,
    ],
    &[
        Opcode::GenericZeroExtend,
        Opcode::GenericSignExtend,
        Opcode::MultiplyHighUnsigned,
        Opcode::SetLessImmediateUnsigned,
        Opcode::PseudoBranch,
    ],
    &[
        Opcode::AddWord,
        Opcode::SubtractWord,
        Opcode::MultiplyWord,
        Opcode::ShiftLeftLogicalWord,
        Opcode::ShiftRightLogicalWord,
        Opcode::ShiftRightArithmeticWord,
        Opcode::DivideWord,
        Opcode::RemainderWord,
    ],
    &[
        Opcode::GenericIntegerToPointer,
        Opcode::GenericAnyExtend,
        Opcode::GenericUnsignedDivide,
        Opcode::GenericSignedDivide,
        Opcode::GenericSelect,
        Opcode::DivideUnsignedWord,
        Opcode::RemainderUnsignedWord,
        Opcode::AddImmediateWord,
        Opcode::ShiftLeftLogicalImmediateWord,
        Opcode::ShiftRightLogicalImmediateWord,
        Opcode::ShiftRightArithmeticImmediateWord,
    ],
    &[Opcode::Copy, Opcode::PseudoReturn],
    &[
        Opcode::AdjustCallStackDown,
        Opcode::AdjustCallStackUp,
        Opcode::GenericConstant,
        Opcode::GenericPointerToInteger,
        Opcode::GenericSignedMaximum,
        Opcode::GenericUnsignedMaximum,
    ],
    &[],
];

/// An entry of the table: where an opcode stands, whether a machine of 64 bits alone has it, its word, the rows of its
/// operands, and the types of its registers; then what it does with memory and the types that a value has there, or its role,
/// or whether its operands may be exchanged and it may become a call of a routine.
macro_rules! entry {
    ($standing:ident, $wide:literal, $word:literal, $rows:ident, $signature:expr, $access:ident, $memory:expr, $role:ident, $commutative:literal, $call:ident) => {
        Entry {
            word: $word,
            rows: $rows,
            access: Access::$access,
            memory: $memory,
            role: Role::$role,
            standing: Standing::$standing,
            is_wide: $wide,
            signature: $signature,
            is_commutative: $commutative,
            routine_call: RoutineCall::$call,
        }
    };
    ($standing:ident, $wide:literal, $word:literal, $rows:ident, $signature:expr) => {
        entry!($standing, $wide, $word, $rows, $signature, Neither, Nothing, Plain, false, Never)
    };
    ($standing:ident, $wide:literal, $word:literal, $rows:ident, $signature:expr, $access:ident, $memory:expr) => {
        entry!($standing, $wide, $word, $rows, $signature, $access, $memory, Plain, false, Never)
    };
    ($standing:ident, $wide:literal, $word:literal, $rows:ident, $signature:expr, $role:ident) => {
        entry!($standing, $wide, $word, $rows, $signature, Neither, Nothing, $role, false, Never)
    };
}

/// An opcode that stands before selection.
macro_rules! generic {
    ($word:literal, $rows:ident, $signature:expr) => {
        entry!(Generic, false, $word, $rows, Some($signature))
    };
    ($word:literal, $rows:ident, $signature:expr, $role:ident) => {
        entry!(Generic, false, $word, $rows, Some($signature), $role)
    };
    ($word:literal, $rows:ident, $signature:expr, $access:ident, $memory:expr) => {
        entry!(Generic, false, $word, $rows, Some($signature), $access, $memory)
    };
}

/// The same, where its two operands may be exchanged.
macro_rules! commutative {
    ($word:literal, $rows:ident, $signature:expr) => {
        commutative!($word, $rows, $signature, Never)
    };
    ($word:literal, $rows:ident, $signature:expr, $call:ident) => {
        entry!(Generic, false, $word, $rows, Some($signature), Neither, Nothing, Plain, true, $call)
    };
}

/// An opcode that stands before selection and may become a call of a routine of the runtime.
macro_rules! dividing {
    ($word:literal, $rows:ident, $signature:expr) => {
        entry!(Generic, false, $word, $rows, Some($signature), Neither, Nothing, Plain, false, Always)
    };
}

/// An opcode that stands in every stage.
macro_rules! shared {
    ($word:literal, $rows:ident, $signature:expr) => {
        entry!(Both, false, $word, $rows, Some($signature))
    };
    ($word:literal, $rows:ident, $signature:expr, $role:ident) => {
        entry!(Both, false, $word, $rows, Some($signature), $role)
    };
    ($word:literal, $rows:ident, $signature:expr, $access:ident, $memory:expr) => {
        entry!(Both, false, $word, $rows, Some($signature), $access, $memory)
    };
}

/// An opcode that stands after selection, with types.
macro_rules! selected {
    ($word:literal, $rows:ident, $signature:expr) => {
        entry!(Target, false, $word, $rows, Some($signature))
    };
    ($word:literal, $rows:ident, $signature:expr, $role:ident) => {
        entry!(Target, false, $word, $rows, Some($signature), $role)
    };
    ($word:literal, $rows:ident, $signature:expr, $access:ident, $memory:expr) => {
        entry!(Target, false, $word, $rows, Some($signature), $access, $memory)
    };
}

/// An instruction of the machine.
macro_rules! machine {
    ($word:literal, $rows:ident) => {
        entry!(Target, false, $word, $rows, None)
    };
    ($word:literal, $rows:ident, $role:ident) => {
        entry!(Target, false, $word, $rows, None, $role)
    };
    ($word:literal, $rows:ident, $access:ident, $memory:expr) => {
        entry!(Target, false, $word, $rows, None, $access, $memory)
    };
}

/// An instruction that a machine of 64 bits alone has.
macro_rules! wide {
    ($word:literal, $rows:ident) => {
        entry!(Target, true, $word, $rows, None)
    };
    ($word:literal, $rows:ident, $role:ident) => {
        entry!(Target, true, $word, $rows, None, $role)
    };
    ($word:literal, $rows:ident, $access:ident, $memory:expr) => {
        entry!(Target, true, $word, $rows, None, $access, $memory)
    };
}

/// The table, in the order of `Opcode`.
static ENTRIES: [Entry; 124] = [
    // in every stage, and two of them after selection
    shared!("COPY", COPY, OneAlike(Any)),
    selected!("PHI", PHI, Joining, Phi),
    selected!("IMPLICIT_DEF", DEFINED, NoSources(Any)),
    shared!("PseudoCALL", CALL, NoTypes, Call),
    shared!("PseudoRET", RETURNED, NoTypes, Return),
    shared!("ADJCALLSTACKDOWN", ADJUSTED, NoTypes),
    shared!("ADJCALLSTACKUP", ADJUSTED, NoTypes),
    // generic: constants, addresses and casts
    generic!("G_IMPLICIT_DEF", DEFINED, NoSources(Any)),
    generic!("G_CONSTANT", CONSTANT, NoSources(Any)),
    generic!("G_FREEZE", UNARY, OneAlike(Any)),
    generic!("G_FRAME_INDEX", FRAME_INDEX, OnePointer),
    generic!("G_GLOBAL_VALUE", GLOBAL_VALUE, OnePointer),
    generic!("G_PTR_ADD", SHIFT, PointerSum),
    generic!("G_PTRTOINT", UNARY_TYPED, FromPointer(Scalar)),
    generic!("G_INTTOPTR", UNARY_TYPED, ToPointer(Scalar)),
    generic!("G_TRUNC", UNARY_TYPED, Truncation),
    generic!("G_ANYEXT", UNARY_TYPED, Extension),
    generic!("G_ZEXT", UNARY_TYPED, Extension),
    generic!("G_SEXT", UNARY_TYPED, Extension),
    generic!("G_SEXT_INREG", IN_REGISTER, OneAlike(Scalar)),
    generic!("G_MERGE_VALUES", MERGE, Merge),
    generic!("G_UNMERGE_VALUES", UNMERGE, Unmerge),
    // generic: arithmetic, logic and shifts
    commutative!("G_ADD", BINARY, TwoAlike(Scalar)),
    generic!("G_SUB", BINARY, TwoAlike(Scalar)),
    commutative!("G_MUL", BINARY, TwoAlike(Scalar), WhereWider),
    commutative!("G_AND", BINARY, TwoAlike(Scalar)),
    commutative!("G_OR", BINARY, TwoAlike(Scalar)),
    commutative!("G_XOR", BINARY, TwoAlike(Scalar)),
    dividing!("G_UDIV", BINARY, TwoAlike(Scalar)),
    dividing!("G_SDIV", BINARY, TwoAlike(Scalar)),
    dividing!("G_UREM", BINARY, TwoAlike(Scalar)),
    dividing!("G_SREM", BINARY, TwoAlike(Scalar)),
    generic!("G_SHL", SHIFT, TwoAlike(Scalar)),
    generic!("G_LSHR", SHIFT, TwoAlike(Scalar)),
    generic!("G_ASHR", SHIFT, TwoAlike(Scalar)),
    generic!("G_UADDO", OVERFLOW, CarryOut),
    generic!("G_USUBO", OVERFLOW, CarryOut),
    generic!("G_UADDE", CARRY, CarryThrough),
    generic!("G_USUBE", CARRY, CarryThrough),
    generic!("G_UMULH", BINARY, TwoAlike(Register)),
    generic!("G_SMULH", BINARY, TwoAlike(Register)),
    generic!("G_ICMP", COMPARE, Comparison),
    generic!("G_SELECT", SELECT, Selection),
    generic!("G_SMIN", BINARY, TwoAlike(Scalar)),
    generic!("G_SMAX", BINARY, TwoAlike(Scalar)),
    generic!("G_UMIN", BINARY, TwoAlike(Scalar)),
    generic!("G_UMAX", BINARY, TwoAlike(Scalar)),
    generic!("G_ABS", UNARY, OneAlike(Scalar)),
    generic!("G_CTLZ", UNARY_TYPED, OneAlike(Scalar)),
    generic!("G_CTTZ", UNARY_TYPED, OneAlike(Scalar)),
    generic!("G_CTPOP", UNARY_TYPED, OneAlike(Scalar)),
    generic!("G_CTLZ_ZERO_UNDEF", UNARY_TYPED, OneAlike(Scalar)),
    generic!("G_CTTZ_ZERO_UNDEF", UNARY_TYPED, OneAlike(Scalar)),
    generic!("G_BSWAP", UNARY, OneAlike(Swappable)),
    generic!("G_FSHL", FUNNEL, ThreeAlike(Rotatable)),
    generic!("G_FSHR", FUNNEL, ThreeAlike(Rotatable)),
    generic!("G_ROTL", SHIFT, TwoAlike(Rotatable)),
    generic!("G_ROTR", SHIFT, TwoAlike(Rotatable)),
    // generic: memory, phis and branches
    generic!("G_LOAD", UNARY_TYPED, FromPointer(Any), Load, Value),
    generic!(
        "G_ZEXTLOAD",
        UNARY_TYPED,
        FromPointer(Scalar),
        Load,
        Extended
    ),
    generic!(
        "G_SEXTLOAD",
        UNARY_TYPED,
        FromPointer(Scalar),
        Load,
        Extended
    ),
    generic!("G_STORE", STORE, Store, Store, Value),
    generic!("G_PHI", PHI, Joining, Phi),
    generic!("G_BR", BRANCH, NoTypes, Jump),
    generic!("G_BRCOND", BRANCH_CONDITIONAL, OneCondition, Branch),
    // target: two registers
    machine!("ADD", REGISTERS),
    machine!("SUB", REGISTERS),
    machine!("AND", REGISTERS),
    machine!("OR", REGISTERS),
    machine!("XOR", REGISTERS),
    machine!("SLT", REGISTERS),
    machine!("SLTU", REGISTERS),
    machine!("SLL", REGISTERS),
    machine!("SRL", REGISTERS),
    machine!("SRA", REGISTERS),
    machine!("MUL", REGISTERS),
    machine!("MULH", REGISTERS),
    machine!("MULHU", REGISTERS),
    machine!("DIV", REGISTERS),
    machine!("DIVU", REGISTERS),
    machine!("REM", REGISTERS),
    machine!("REMU", REGISTERS),
    // target: a register and an immediate
    machine!("ADDI", ADD_IMMEDIATE),
    machine!("SLTI", IMMEDIATE),
    machine!("SLTIU", IMMEDIATE),
    machine!("ANDI", IMMEDIATE),
    machine!("ORI", IMMEDIATE),
    machine!("XORI", IMMEDIATE),
    machine!("SLLI", IMMEDIATE),
    machine!("SRLI", IMMEDIATE),
    machine!("SRAI", IMMEDIATE),
    machine!("LUI", UPPER),
    // target, 64 bits alone: words of 32 bits
    wide!("ADDW", REGISTERS),
    wide!("SUBW", REGISTERS),
    wide!("MULW", REGISTERS),
    wide!("SLLW", REGISTERS),
    wide!("SRLW", REGISTERS),
    wide!("SRAW", REGISTERS),
    wide!("DIVW", REGISTERS),
    wide!("DIVUW", REGISTERS),
    wide!("REMW", REGISTERS),
    wide!("REMUW", REGISTERS),
    wide!("ADDIW", IMMEDIATE),
    wide!("SLLIW", IMMEDIATE),
    wide!("SRLIW", IMMEDIATE),
    wide!("SRAIW", IMMEDIATE),
    // target: loads, stores and branches
    machine!("LB", MACHINE_LOAD, Load, Bits(8)),
    machine!("LH", MACHINE_LOAD, Load, Bits(16)),
    machine!("LW", MACHINE_LOAD, Load, Bits(32)),
    machine!("LBU", MACHINE_LOAD, Load, Bits(8)),
    machine!("LHU", MACHINE_LOAD, Load, Bits(16)),
    wide!("LWU", MACHINE_LOAD, Load, Bits(32)),
    wide!("LD", MACHINE_LOAD, Load, Bits(64)),
    machine!("SB", MACHINE_STORE, Store, Bits(8)),
    machine!("SH", MACHINE_STORE, Store, Bits(16)),
    machine!("SW", MACHINE_STORE, Store, Bits(32)),
    wide!("SD", MACHINE_STORE, Store, Bits(64)),
    machine!("BEQ", MACHINE_BRANCH, Branch),
    machine!("BNE", MACHINE_BRANCH, Branch),
    machine!("BLT", MACHINE_BRANCH, Branch),
    machine!("BGE", MACHINE_BRANCH, Branch),
    machine!("BLTU", MACHINE_BRANCH, Branch),
    machine!("BGEU", MACHINE_BRANCH, Branch),
    machine!("PseudoBR", BRANCH, Jump),
];

impl Opcode {
    /// What is known of this opcode: its entry in the table.
    fn entry(self) -> &'static Entry
        ensures word { result.now.word.now ≡ word_of self }
        ensures rows { map (λ row. row.now) result.now.rows.now ≡ rows_of self }
        ensures access { result.now.access ≡ access_of self }
        ensures memory { result.now.memory ≡ memory_of self }
        ensures role { result.now.role ≡ role_of self }
        ensures standing { result.now.standing ≡ standing_of self }
        ensures is_wide { result.now.is_wide ≡ is_wide_op self }
        ensures typing { option_map typing_by result.now.signature ≡ typing_of self }
        ensures is_commutative { result.now.is_commutative ≡ is_commutative_op self }
        ensures routine_call { result.now.routine_call ≡ routine_call_of self }
    {
        &ENTRIES[self as usize]
    }

    /// The word of this opcode in a text.
    pub fn word(self) -> &'static str
        ensures { result.now ≡ word_of self }
    {
        self.entry().word
    }

    /// The opcode that has this word.
    pub fn from_word(text: &str) -> Option<Opcode>
        ensures exact { result ≡ opcode_of text.now }
        ensures found { IfSome result (λ op. word_of op ≡ text.now) }
        ensures missing { IfNone result ((op : Opcode) → word_of op ≢ text.now) }
    {
        first_with_word(text.as_bytes())
    }

    /// The opcode whose word these bytes are.
    pub fn from_bytes(word: &[u8]) -> Option<Opcode>
        ensures { result ≡ opcode_of word.now }
    {
        first_with_word(word)
    }

    /// The rows of which the operands have one.
    pub fn rows(self) -> &'static [&'static [Form]]
        ensures { map (λ row. row.now) result.now ≡ rows_of self }
    {
        self.entry().rows
    }

    /// What this opcode does with memory.
    pub fn access(self) -> Access
        ensures { result ≡ access_of self }
    {
        self.entry().access
    }

    /// The types that a value has in memory.
    pub fn memory(self) -> InMemory
        ensures { result ≡ memory_of self }
    {
        self.entry().memory
    }

    /// What this opcode does to the course of its block.
    pub fn role(self) -> Role
        ensures { result ≡ role_of self }
    {
        self.entry().role
    }

    /// Where this opcode stands.
    pub fn standing(self) -> Standing
        ensures { result ≡ standing_of self }
    {
        self.entry().standing
    }

    /// The types of this opcode's registers.
    pub fn typing(self) -> Option<Typing>
        ensures { result ≡ typing_of self }
    {
        match self.entry().signature {
            Some(signature) => Some(signature.typing()),
            None => None,
        }
    }

    /// Whether only a machine of 64 bits has this instruction.
    pub fn is_wide(self) -> bool
        ensures { result ≡ is_wide_op self }
    {
        self.entry().is_wide
    }

    /// Whether the two operands of this opcode may be exchanged.
    pub fn is_commutative(self) -> bool
        ensures { result ≡ is_commutative_op self }
    {
        self.entry().is_commutative
    }

    /// Whether this opcode may become a call of a routine of the runtime.
    pub fn routine_call(self) -> RoutineCall
        ensures { result ≡ routine_call_of self }
    {
        self.entry().routine_call
    }

    /// Whether this opcode's word begins with `G_`.
    pub fn is_generic(self) -> bool
        ensures { result ≡ is_generic_op self }
    {
        self.word().starts_with("G_")
    }

    /// Whether this opcode stands last in its block.
    pub fn is_terminator(self) -> bool
        ensures { result ≡ is_terminator_op self }
    {
        matches!(self.role(), Role::Return | Role::Jump | Role::Branch)
    }

    /// Whether nothing follows this branch or return.
    pub fn is_unconditional(self) -> bool
        ensures { result ≡ is_unconditional_op self }
    {
        matches!(self.role(), Role::Return | Role::Jump)
    }

    /// Whether this opcode goes to the blocks among its operands.
    pub fn is_branch(self) -> bool
        ensures { result ≡ is_branch_op self }
    {
        matches!(self.role(), Role::Jump | Role::Branch)
    }

    /// Whether this opcode is a call.
    pub fn is_call(self) -> bool
        ensures { result ≡ is_call_op self }
    {
        matches!(self.role(), Role::Call)
    }

    /// Whether this opcode is a phi.
    pub fn is_phi(self) -> bool
        ensures { result ≡ is_phi_op self }
    {
        matches!(self.role(), Role::Phi)
    }
}

/// The first of these opcodes that has this word.
fn first_among(ops: &[Opcode], word: &[u8]) -> Option<Opcode>
    ensures { result ≡ find (λ op. bytes_eq (word_of op) word.now) ops.now }
{
    ops.iter().copied().find(|op| op.word().as_bytes() == word)
}

/// The opcodes at a place of a table.
fn opcodes_at<'a>(table: &[&'a [Opcode]], place: usize) -> &'a [Opcode]
    requires { place < length table.now }
    ensures { result.now ≡ slice_index_or (map (λ ops. ops.now) table.now) place [] }
{
    table[place]
}

/// The opcodes of a group.
fn group(number: usize) -> &'static [Opcode]
    requires { number < 32 }
    ensures { result.now ≡ group_at number }
{
    opcodes_at(&GROUPS, number)
}

/// The opcode that has this word, which stands in the word's group.
fn first_with_word(word: &[u8]) -> Option<Opcode>
    ensures exact { result ≡ opcode_of word.now }
    ensures found { IfSome result (λ op. word_of op ≡ word.now) }
{
    let last = usize::from(*word.last()?);
    first_among(group((word.len() % 32 + last) % 32), word)
}

/// Two opcodes with one word are one opcode.
pub fn words_tell_apart(a: Opcode, b: Opcode)
    requires { word_of a ≡ word_of b }
    ensures { a ≡ b }
{
    let _ = (a, b);
}
