//! Small functions, valid and invalid: the definitions are neither empty nor too wide.

ghost use Rattle.std.specs.Prelude.{◌≡◌, ◌∷◌, [], ℕ, None, Some, false, true};
ghost use Rattle.gi_mir.specs.Data.{reg_of};
ghost use Rattle.gi_mir.specs.Formed.{is_formed};
ghost use Rattle.gi_mir.specs.declared.opcode.Opcode.TheVariants.{GenericLoad, GenericZeroExtendLoad};
ghost use Rattle.gi_mir.specs.declared.operand.Operand.TheVariants.{ImplicitUse, Use};
ghost use Rattle.gi_meaning.specs.InRow.{are_in_rows};
ghost use Rattle.gi_meaning.specs.Runs.{setting_of};
ghost use Rattle.gi_meaning.specs.State.{State};
ghost use Rattle.gi_refine.specs.Reached.{IsReached};
ghost use Rattle.gi_valid.specs.Available.{IsAvailable, IsExtent};
ghost use Rattle.gi_valid.specs.Definitions.{definition, is_pure};
ghost use Rattle.gi_valid.specs.Examples.{adds_a_byte, adds_x10, ahead_of_itself, class_copy, class_sum, defines_twice, divides_between, divides_first, extents_of_ahead, goes_nowhere, goes_on_behind, goes_round, joins_at_start, jump_with_result, jumps_with_result, loads_a_pointer, loads_all, loop_phi, loop_sum, points_to_zero, returns_nothing_there, returns_twice, widens_a_constant, world_with};
ghost use Rattle.gi_valid.specs.Facts.{IsReachedInRuns};
ghost use Rattle.gi_valid.specs.Faults.{fault_at, faults};
ghost use Rattle.gi_valid.specs.Typing.{Typed, Untyped};
ghost use Rattle.gi_valid.specs.Valid.{IsInvalid, IsValid, of_lowest_line};
ghost use Rattle.gi_valid.specs.declared.invalid.Invalid.TheVariants.{DoubleDefinition, NotAvailable, PhiEntries, PhysicalAcross, Terminator, TypeMismatch, UnknownBlock};

/// A loop with a phi is valid, a division before a word is given to a call, a constant that is a pointer, and a load of as many bits
/// as its register has.
pub fn examples_are_valid()
    ensures loop_ { IsValid 32 Typed goes_round }
    ensures division_first { IsValid 32 Typed divides_first }
    ensures pointer_ { IsValid 32 Typed points_to_zero }
    ensures load_ { IsValid 32 Typed (loads_all GenericLoad) }
{}

/// Functions for each fault, with its line.
pub fn examples_are_invalid()
    ensures twice { IsInvalid 32 Typed defines_twice (fault_at 8 (DoubleDefinition (reg_of 0))) }
    ensures not_there { IsInvalid 32 Typed returns_nothing_there (fault_at 8 (NotAvailable (ImplicitUse 10))) }
    ensures mismatch { IsInvalid 32 Typed adds_a_byte (fault_at 9 (TypeMismatch (reg_of 1))) }
    ensures width { IsInvalid 32 Typed widens_a_constant (fault_at 7 (TypeMismatch (reg_of 0))) }
    ensures room { IsInvalid 32 Typed (loads_all GenericZeroExtendLoad) (fault_at 8 (TypeMismatch (reg_of 1))) }
    ensures number { IsInvalid 32 Typed loads_a_pointer (fault_at 8 (TypeMismatch (reg_of 1))) }
    ensures nowhere { IsInvalid 32 Typed goes_nowhere (fault_at 8 (UnknownBlock 65540)) }
    ensures first_block { IsInvalid 32 Typed joins_at_start (fault_at 8 PhiEntries) }
    ensures across { IsInvalid 32 Typed divides_between (fault_at 10 (PhysicalAcross 10)) }
    ensures return_behind_return { IsInvalid 32 Typed returns_twice (fault_at 8 Terminator) }
    ensures behind_return { IsInvalid 32 Typed goes_on_behind (fault_at 9 Terminator) }
{}

/// A sum that takes a value of the round before it, where none was before the first: by sets that are contained as asked
/// it is at fault.
pub fn a_loop_is_invalid()
    ensures contained { (r : ℕ) → IsExtent ahead_of_itself r (extents_of_ahead r) }
    ensures told { of_lowest_line (faults 32 Typed ahead_of_itself extents_of_ahead) ≡ Some (fault_at 12 (NotAvailable (Use (reg_of 3)))) }
{}

/// In the loop's first round its sum is available behind it, and a run is there in which the sum holds 6, of 5 and 1.
pub fn a_loop_runs()
    ensures available { IsAvailable goes_round 1 (loop_phi ∷ loop_sum ∷ []) 4 }
    ensures reached { (state : State) × IsReached (setting_of 32 [] goes_round) (world_with 5) goes_round.blocks 1 (loop_sum ∷ []) state × (state.values 2 ≡ Some 5) × (state.values 1 ≡ Some 1) × (state.values 4 ≡ Some 6) }
{}

/// An addition that reads `$x10` is valid, but doesn't stand in its row. A run comes up to it, and there `%1`, which an addition in
/// its row defines, is available and holds 10, twice 5.
pub fn a_run_meets_a_failing_row()
    ensures valid { IsValid 32 Untyped adds_x10 }
    ensures outside { are_in_rows 32 adds_x10 ≡ false }
    ensures available { IsAvailable adds_x10 0 (class_copy ∷ class_sum ∷ []) 1 }
    ensures pure { (definition adds_x10 1 ≡ Some class_sum) × (is_pure class_sum.1 ≡ true) }
    ensures reached { (state : State) × IsReachedInRuns 32 [] adds_x10 (world_with 5) 0 (class_copy ∷ class_sum ∷ []) state × (state.values 0 ≡ Some 5) × (state.values 1 ≡ Some 10) }
{}

/// A law of pure definitions has to ask that they are formed: a branch that defines `%2` is valid and pure, a run leaves the block
/// before it, and in the next one `%2` is available and has no value.
pub fn a_terminator_that_defines_is_not_passed()
    ensures valid { IsValid 32 Typed jumps_with_result }
    ensures pure { (definition jumps_with_result 2 ≡ Some jump_with_result) × (is_pure jump_with_result.1 ≡ true) × (is_formed jump_with_result.1 ≡ false) }
    ensures available { IsAvailable jumps_with_result 1 [] 2 }
    ensures reached { (state : State) × IsReachedInRuns 32 [] jumps_with_result (world_with 5) 1 [] state × (state.values 2 ≡ None) }
{}
