//! Examples of what is read from the table of opcodes.

use gi_llt::{Llt, Target};
use gi_mir::accepted::{
    accepts, is_constant_type, is_in_register, is_memory_type, is_result_type, is_source_type,
};
use gi_mir::opcode::Opcode;
use gi_mir::operand::Kind;
use gi_mir::routine::{Routine, routine_of};
use gi_mir::row::Access;
use gi_mir::stage::Stage;

const RV32: Target = Target {
    xlen: 32,
    zbb: false,
};

const RV64: Target = Target {
    xlen: 64,
    zbb: false,
};

const S1: Llt = Llt::Scalar(1);

const S8: Llt = Llt::Scalar(8);

const S16: Llt = Llt::Scalar(16);

const S32: Llt = Llt::Scalar(32);

const S64: Llt = Llt::Scalar(64);

const S96: Llt = Llt::Scalar(96);

const S128: Llt = Llt::Scalar(128);

const P0: Llt = Llt::Pointer;

#[test]
fn types_together(rt: HostRuntime) {
    for (op, results, sources, on_32, on_64) in [
        (
            Opcode::GenericAdd,
            &[S128][..],
            &[S128, S128][..],
            false,
            true,
        ),
        (Opcode::GenericAdd, &[S32], &[S32, S64], false, false),
        (Opcode::GenericAdd, &[P0], &[P0, P0], false, false),
        (Opcode::GenericAdd, &[S32], &[S32], false, false),
        (Opcode::GenericPointerAdd, &[P0], &[P0, S64], false, true),
        (Opcode::GenericCompare, &[S1], &[P0, P0], true, true),
        (Opcode::GenericCompare, &[S8], &[P0, P0], false, false),
        (Opcode::GenericSelect, &[P0], &[S32, P0, P0], true, false),
        (Opcode::GenericTruncate, &[S8], &[S16], true, true),
        (Opcode::GenericTruncate, &[S8], &[S8], false, false),
        (Opcode::GenericZeroExtend, &[S64], &[S16], true, true),
        (Opcode::GenericMergeValues, &[S64], &[S32, S32], true, true),
        (Opcode::GenericMergeValues, &[S64], &[S64], false, false),
        (
            Opcode::GenericMergeValues,
            &[S96],
            &[S32, S32, S32],
            false,
            true,
        ),
        (
            Opcode::GenericUnmergeValues,
            &[S16, S16],
            &[S32],
            true,
            true,
        ),
        (
            Opcode::GenericUnmergeValues,
            &[S16, S8],
            &[S32],
            false,
            false,
        ),
        (
            Opcode::GenericUnsignedAddOverflow,
            &[S8, S1],
            &[S8, S8],
            true,
            true,
        ),
        (
            Opcode::GenericUnsignedAddCarry,
            &[S8, S1],
            &[S8, S8, S8],
            false,
            false,
        ),
        (Opcode::GenericPhi, &[P0], &[P0, P0, P0], true, true),
        (Opcode::Phi, &[S32], &[S32, S64], false, false),
        (Opcode::GenericStore, &[], &[S8, P0], true, true),
        (Opcode::Add, &[S32], &[S32, S32], false, false),
    ] {
        assert!(rt; accepts(RV32, op, results, sources) == on_32);
        assert!(rt; accepts(RV64, op, results, sources) == on_64);
    }
}

#[test]
fn types_alone(rt: HostRuntime) {
    for (op, place, ty, result, source) in [
        (Opcode::GenericTruncate, 0, S64, true, true),
        (Opcode::GenericTruncate, 0, P0, false, false),
        (Opcode::GenericLoad, 0, P0, true, true),
        (Opcode::GenericLoad, 0, S32, true, false),
        (Opcode::GenericUnsignedAddCarry, 0, S1, false, false),
        (Opcode::GenericUnsignedAddCarry, 1, S1, true, false),
        (Opcode::GenericUnsignedAddCarry, 2, S1, false, true),
        (Opcode::GenericUnmergeValues, 9, S8, true, false),
        (Opcode::GenericPhi, 7, P0, false, true),
        (Opcode::Phi, 0, S96, false, false),
        (Opcode::ImplicitDef, 0, S1, true, false),
        (Opcode::AddImmediate, 0, S96, true, true),
    ] {
        assert!(rt; is_result_type(RV32, op, place, ty) == result);
        assert!(rt; is_source_type(RV32, op, place, ty) == source);
    }
}

#[test]
fn types_in_memory(rt: HostRuntime) {
    for (op, ty, on_32, on_64) in [
        (Opcode::GenericLoad, S128, false, true),
        (Opcode::GenericStore, P0, true, true),
        (Opcode::GenericLoad, S1, false, false),
        (Opcode::GenericZeroExtendLoad, S32, true, true),
        (Opcode::GenericSignExtendLoad, S64, false, true),
        (Opcode::GenericZeroExtendLoad, P0, false, false),
        (Opcode::LoadByte, S8, true, true),
        (Opcode::LoadByte, S16, false, false),
        (Opcode::LoadWord, P0, true, false),
        (Opcode::StoreDouble, P0, false, true),
        (Opcode::Add, S32, false, false),
    ] {
        assert!(rt; is_memory_type(RV32, op, ty) == on_32);
        assert!(rt; is_memory_type(RV64, op, ty) == on_64);
    }
}

#[test]
fn constants(rt: HostRuntime) {
    assert!(rt; is_constant_type(RV32, Opcode::GenericConstant, 64));
    assert!(rt; !is_constant_type(RV32, Opcode::GenericConstant, 65));
    assert!(rt; !is_constant_type(RV32, Opcode::GenericConstant, 0));
    assert!(rt; !is_constant_type(RV32, Opcode::GenericAdd, 32));
    assert!(rt; is_in_register(RV64, 64, 63));
    assert!(rt; !is_in_register(RV64, 64, 64));
    assert!(rt; !is_in_register(RV64, 64, 0));
    assert!(rt; !is_in_register(RV64, 1, 1));
    assert!(rt; !is_in_register(RV32, 65, 3));
}

#[test]
fn roles(rt: HostRuntime) {
    for (op, terminator, unconditional, branch) in [
        (Opcode::GenericBranch, true, true, true),
        (Opcode::PseudoBranch, true, true, true),
        (Opcode::BranchLess, true, false, true),
        (Opcode::GenericBranchConditional, true, false, true),
        (Opcode::PseudoReturn, true, true, false),
        (Opcode::PseudoCall, false, false, false),
        (Opcode::GenericPhi, false, false, false),
    ] {
        assert!(rt; op.is_terminator() == terminator);
        assert!(rt; op.is_unconditional() == unconditional);
        assert!(rt; op.is_branch() == branch);
    }
    assert!(rt; Opcode::PseudoCall.is_call() && !Opcode::PseudoReturn.is_call());
    assert!(rt; Opcode::Phi.is_phi() && Opcode::GenericPhi.is_phi() && !Opcode::Copy.is_phi());
    assert!(rt; Opcode::LoadDouble.is_wide() && !Opcode::LoadWord.is_wide());
    assert!(rt; Opcode::StoreWord.access() == Access::Store);
}

#[test]
fn routines(rt: HostRuntime) {
    for (op, on_32, on_64) in [
        (Opcode::GenericMultiply, Routine::Muldi3, Routine::Multi3),
        (
            Opcode::GenericSignedDivide,
            Routine::Divdi3,
            Routine::Divti3,
        ),
        (
            Opcode::GenericUnsignedDivide,
            Routine::Udivdi3,
            Routine::Udivti3,
        ),
        (
            Opcode::GenericSignedRemainder,
            Routine::Moddi3,
            Routine::Modti3,
        ),
        (
            Opcode::GenericUnsignedRemainder,
            Routine::Umoddi3,
            Routine::Umodti3,
        ),
    ] {
        assert!(rt; routine_of(op, RV32) == Some(on_32));
        assert!(rt; routine_of(op, RV64) == Some(on_64));
        assert!(rt; on_64.place() == on_32.place() + 5);
        assert!(rt; Routine::at(on_64.place()) == Some(on_64));
    }
    assert!(rt; routine_of(Opcode::GenericAdd, RV32) == None);
    assert!(rt; Routine::at(10) == None);
    assert!(rt; Routine::Umodti3.name() == "__umodti3");
}

#[test]
fn stages(rt: HostRuntime) {
    for (op, generic, selected) in [
        (Opcode::GenericAdd, true, false),
        (Opcode::Add, false, true),
        (Opcode::Phi, false, true),
        (Opcode::ImplicitDef, false, true),
        (Opcode::Copy, true, true),
        (Opcode::PseudoCall, true, true),
        (Opcode::AdjustCallStackUp, true, true),
        (Opcode::PseudoBranch, false, true),
    ] {
        for stage in [Stage::Before, Stage::Legalized, Stage::Banked] {
            assert!(rt; stage.has_opcode(op) == generic);
        }
        assert!(rt; Stage::Selected.has_opcode(op) == selected);
    }
    for (stage, generic, banked, class) in [
        (Stage::Before, true, false, false),
        (Stage::Legalized, true, false, false),
        (Stage::Banked, false, true, false),
        (Stage::Selected, false, false, true),
    ] {
        assert!(rt; stage.has_kind(Kind::Generic(S32)) == generic);
        assert!(rt; stage.has_kind(Kind::Banked(S32)) == banked);
        assert!(rt; stage.has_kind(Kind::Class) == class);
    }
}
