//! The opcodes: generic ones, those of RISC-V, and those that stand in both.

/// An opcode. Its word in a text stands beside it.
#[derive(Clone, Copy, Debug, PartialEq, Eq)]
pub enum Opcode {
    /// `COPY`
    Copy,
    /// `PHI`
    Phi,
    /// `IMPLICIT_DEF`
    ImplicitDef,
    /// `PseudoCALL`
    PseudoCall,
    /// `PseudoRET`
    PseudoReturn,
    /// `ADJCALLSTACKDOWN`
    AdjustCallStackDown,
    /// `ADJCALLSTACKUP`
    AdjustCallStackUp,
    /// `G_IMPLICIT_DEF`
    GenericImplicitDef,
    /// `G_CONSTANT`
    GenericConstant,
    /// `G_FREEZE`
    GenericFreeze,
    /// `G_FRAME_INDEX`
    GenericFrameIndex,
    /// `G_GLOBAL_VALUE`
    GenericGlobalValue,
    /// `G_PTR_ADD`
    GenericPointerAdd,
    /// `G_PTRTOINT`
    GenericPointerToInteger,
    /// `G_INTTOPTR`
    GenericIntegerToPointer,
    /// `G_TRUNC`
    GenericTruncate,
    /// `G_ANYEXT`
    GenericAnyExtend,
    /// `G_ZEXT`
    GenericZeroExtend,
    /// `G_SEXT`
    GenericSignExtend,
    /// `G_SEXT_INREG`
    GenericSignExtendInRegister,
    /// `G_MERGE_VALUES`
    GenericMergeValues,
    /// `G_UNMERGE_VALUES`
    GenericUnmergeValues,
    /// `G_ADD`
    GenericAdd,
    /// `G_SUB`
    GenericSubtract,
    /// `G_MUL`
    GenericMultiply,
    /// `G_AND`
    GenericAnd,
    /// `G_OR`
    GenericOr,
    /// `G_XOR`
    GenericXor,
    /// `G_UDIV`
    GenericUnsignedDivide,
    /// `G_SDIV`
    GenericSignedDivide,
    /// `G_UREM`
    GenericUnsignedRemainder,
    /// `G_SREM`
    GenericSignedRemainder,
    /// `G_SHL`
    GenericShiftLeft,
    /// `G_LSHR`
    GenericLogicalShiftRight,
    /// `G_ASHR`
    GenericArithmeticShiftRight,
    /// `G_UADDO`
    GenericUnsignedAddOverflow,
    /// `G_USUBO`
    GenericUnsignedSubtractOverflow,
    /// `G_UADDE`
    GenericUnsignedAddCarry,
    /// `G_USUBE`
    GenericUnsignedSubtractBorrow,
    /// `G_UMULH`
    GenericUnsignedMultiplyHigh,
    /// `G_SMULH`
    GenericSignedMultiplyHigh,
    /// `G_ICMP`
    GenericCompare,
    /// `G_SELECT`
    GenericSelect,
    /// `G_SMIN`
    GenericSignedMinimum,
    /// `G_SMAX`
    GenericSignedMaximum,
    /// `G_UMIN`
    GenericUnsignedMinimum,
    /// `G_UMAX`
    GenericUnsignedMaximum,
    /// `G_ABS`
    GenericAbsolute,
    /// `G_CTLZ`
    GenericCountLeadingZeros,
    /// `G_CTTZ`
    GenericCountTrailingZeros,
    /// `G_CTPOP`
    GenericPopulationCount,
    /// `G_CTLZ_ZERO_UNDEF`
    GenericCountLeadingZerosNotOfZero,
    /// `G_CTTZ_ZERO_UNDEF`
    GenericCountTrailingZerosNotOfZero,
    /// `G_BSWAP`
    GenericByteSwap,
    /// `G_FSHL`
    GenericFunnelShiftLeft,
    /// `G_FSHR`
    GenericFunnelShiftRight,
    /// `G_ROTL`
    GenericRotateLeft,
    /// `G_ROTR`
    GenericRotateRight,
    /// `G_LOAD`
    GenericLoad,
    /// `G_ZEXTLOAD`
    GenericZeroExtendLoad,
    /// `G_SEXTLOAD`
    GenericSignExtendLoad,
    /// `G_STORE`
    GenericStore,
    /// `G_PHI`
    GenericPhi,
    /// `G_BR`
    GenericBranch,
    /// `G_BRCOND`
    GenericBranchConditional,
    /// `ADD`
    Add,
    /// `SUB`
    Subtract,
    /// `AND`
    And,
    /// `OR`
    Or,
    /// `XOR`
    Xor,
    /// `SLT`
    SetLess,
    /// `SLTU`
    SetLessUnsigned,
    /// `SLL`
    ShiftLeftLogical,
    /// `SRL`
    ShiftRightLogical,
    /// `SRA`
    ShiftRightArithmetic,
    /// `MUL`
    Multiply,
    /// `MULH`
    MultiplyHigh,
    /// `MULHU`
    MultiplyHighUnsigned,
    /// `DIV`
    Divide,
    /// `DIVU`
    DivideUnsigned,
    /// `REM`
    Remainder,
    /// `REMU`
    RemainderUnsigned,
    /// `ADDI`
    AddImmediate,
    /// `SLTI`
    SetLessImmediate,
    /// `SLTIU`
    SetLessImmediateUnsigned,
    /// `ANDI`
    AndImmediate,
    /// `ORI`
    OrImmediate,
    /// `XORI`
    XorImmediate,
    /// `SLLI`
    ShiftLeftLogicalImmediate,
    /// `SRLI`
    ShiftRightLogicalImmediate,
    /// `SRAI`
    ShiftRightArithmeticImmediate,
    /// `LUI`
    LoadUpperImmediate,
    /// `ADDW`
    AddWord,
    /// `SUBW`
    SubtractWord,
    /// `MULW`
    MultiplyWord,
    /// `SLLW`
    ShiftLeftLogicalWord,
    /// `SRLW`
    ShiftRightLogicalWord,
    /// `SRAW`
    ShiftRightArithmeticWord,
    /// `DIVW`
    DivideWord,
    /// `DIVUW`
    DivideUnsignedWord,
    /// `REMW`
    RemainderWord,
    /// `REMUW`
    RemainderUnsignedWord,
    /// `ADDIW`
    AddImmediateWord,
    /// `SLLIW`
    ShiftLeftLogicalImmediateWord,
    /// `SRLIW`
    ShiftRightLogicalImmediateWord,
    /// `SRAIW`
    ShiftRightArithmeticImmediateWord,
    /// `LB`
    LoadByte,
    /// `LH`
    LoadHalf,
    /// `LW`
    LoadWord,
    /// `LBU`
    LoadByteUnsigned,
    /// `LHU`
    LoadHalfUnsigned,
    /// `LWU`
    LoadWordUnsigned,
    /// `LD`
    LoadDouble,
    /// `SB`
    StoreByte,
    /// `SH`
    StoreHalf,
    /// `SW`
    StoreWord,
    /// `SD`
    StoreDouble,
    /// `BEQ`
    BranchEqual,
    /// `BNE`
    BranchNotEqual,
    /// `BLT`
    BranchLess,
    /// `BGE`
    BranchGreaterEqual,
    /// `BLTU`
    BranchLessUnsigned,
    /// `BGEU`
    BranchGreaterEqualUnsigned,
    /// `PseudoBR`
    PseudoBranch,
}
