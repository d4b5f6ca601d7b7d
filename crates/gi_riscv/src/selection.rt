//! For each row of selection: what the instructions make of values, the generic operation may make, whatever its flags.

ghost use Rattle.std.specs.Prelude.{◌⊎◌, List, ◌≡◌, ◌<◌, ◌≤◌, ◌^◌, ℕ, true, ℤ};
ghost use Rattle.gi_llt.specs.Bits.{signed, unsigned};
ghost use Rattle.gi_mir.specs.Data.{no_flags};
ghost use Rattle.gi_mir.specs.declared.opcode.Opcode.{Opcode};
ghost use Rattle.gi_mir.specs.declared.operand.Flags.{Flags};
ghost use Rattle.gi_mir.specs.declared.operand.Pred.{Pred};
ghost use Rattle.gi_mir.specs.declared.operand.SymbolFlag.{SymbolFlag};
ghost use Rattle.gi_meaning.specs.Argument.{Argument};
ghost use Rattle.gi_meaning.specs.Given.{Given};
ghost use Rattle.gi_meaning.specs.Meaning.{Machine, meaning_of};
ghost use Rattle.gi_meaning.specs.Machine.{is_immediate};
ghost use Rattle.gi_meaning.specs.State.{IsWorld, World};
ghost use Rattle.gi_refine.specs.Examples.{names};
ghost use Rattle.gi_refine.specs.Refinement.{RefinesUnchecked};
ghost use Rattle.gi_refine.specs.Values.{IsSound, Slot};
ghost use Rattle.gi_riscv.specs.SelectedBranches.{IsSelectedBranch, IsSelectedJump, IsSelectedTest, branch_of};
ghost use Rattle.gi_riscv.specs.SelectedFunctions.{generic_shift, on_half, word_shift};
ghost use Rattle.gi_riscv.specs.SelectionRules.{use_zero, global_address, leave_free, stack_address, choose, zero_extend, sign_extend, sign_extend_in_register, truncate, any_extend, pointer_to_integer, integer_to_pointer, freeze, divide_unsigned, divide, remainder_unsigned, remainder, divide_unsigned_half, divide_half, remainder_unsigned_half, remainder_half, shift_left, shift_right, shift_right_signed, shift_left_half, shift_right_half, shift_right_signed_half, shift_left_by, shift_right_by, shift_right_signed_by, shift_left_half_by, shift_right_half_by, shift_right_signed_half_by, compare_ult, compare_ugt, compare_slt, compare_sgt, compare_uge, compare_ule, compare_sge, compare_sle, compare_eq, compare_ne, compare_eq_zero, compare_ne_zero, compare_ult_number, compare_slt_number, multiply, multiply_half, multiply_high, multiply_high_unsigned, and_first_number, and_number, logical_and, logical_or, logical_xor, or_first_number, or_number, xor_first_number, xor_number, add, add_first_number, add_first_number_half, add_half, add_number, add_number_half, add_number_to_pointer, add_pointer, subtract, subtract_half, subtract_number, subtract_number_half};

/// The number that a constant stands for with its sign stands for the constant: a rule for a number `i` is one for the
/// constant whose signed value is `i`.
pub fn numbers_stand_for_constants()
    ensures { (n value : ℕ) → value < 2 ^ n → unsigned n (signed n value) ≡ value }
{}

/// Sums and differences, with two registers and with a short constant.
pub fn sums_are_selected()
    ensures add { (x : ℕ) (w : World) (flags : Flags) → IsSound x w (add x flags) }
    ensures add_pointer { (x : ℕ) (w : World) (flags : Flags) → IsSound x w (add_pointer x flags) }
    ensures subtract { (x : ℕ) (w : World) (flags : Flags) → IsSound x w (subtract x flags) }
    ensures add_half { (w : World) (flags : Flags) → IsSound 64 w (add_half flags) }
    ensures subtract_half { (w : World) (flags : Flags) → IsSound 64 w (subtract_half flags) }
    ensures add_number { (x : ℕ) (w : World) (flags : Flags) (i : ℤ) → is_immediate i ≡ true → IsSound x w (add_number x flags i) }
    ensures add_first_number { (x : ℕ) (w : World) (flags : Flags) (i : ℤ) → is_immediate i ≡ true → IsSound x w (add_first_number x flags i) }
    ensures add_number_to_pointer { (x : ℕ) (w : World) (flags : Flags) (i : ℤ) → is_immediate i ≡ true → IsSound x w (add_number_to_pointer x flags i) }
    ensures add_number_half { (w : World) (flags : Flags) (i : ℤ) → is_immediate i ≡ true → IsSound 64 w (add_number_half flags i) }
    ensures add_first_number_half { (w : World) (flags : Flags) (i : ℤ) → is_immediate i ≡ true → IsSound 64 w (add_first_number_half flags i) }
    ensures subtract_number { (x : ℕ) (w : World) (flags : Flags) (i : ℤ) → is_immediate i ≡ true → IsSound x w (subtract_number x flags i) }
    ensures subtract_number_half { (w : World) (flags : Flags) (i : ℤ) → is_immediate i ≡ true → IsSound 64 w (subtract_number_half flags i) }
{}

/// Logic, on registers of any width, and with a short constant.
pub fn logic_is_selected()
    ensures logical_and { (x : ℕ) (w : World) (n : ℕ) (flags : Flags) → IsSound x w (logical_and n flags) }
    ensures logical_or { (x : ℕ) (w : World) (n : ℕ) (flags : Flags) → IsSound x w (logical_or n flags) }
    ensures logical_xor { (x : ℕ) (w : World) (n : ℕ) (flags : Flags) → IsSound x w (logical_xor n flags) }
    ensures and_number { (x : ℕ) (w : World) (n : ℕ) (flags : Flags) (i : ℤ) → n ≤ x → is_immediate i ≡ true → IsSound x w (and_number n flags i) }
    ensures and_first_number { (x : ℕ) (w : World) (n : ℕ) (flags : Flags) (i : ℤ) → n ≤ x → is_immediate i ≡ true → IsSound x w (and_first_number n flags i) }
    ensures or_number { (x : ℕ) (w : World) (n : ℕ) (flags : Flags) (i : ℤ) → n ≤ x → is_immediate i ≡ true → IsSound x w (or_number n flags i) }
    ensures or_first_number { (x : ℕ) (w : World) (n : ℕ) (flags : Flags) (i : ℤ) → n ≤ x → is_immediate i ≡ true → IsSound x w (or_first_number n flags i) }
    ensures xor_number { (x : ℕ) (w : World) (n : ℕ) (flags : Flags) (i : ℤ) → n ≤ x → is_immediate i ≡ true → IsSound x w (xor_number n flags i) }
    ensures xor_first_number { (x : ℕ) (w : World) (n : ℕ) (flags : Flags) (i : ℤ) → n ≤ x → is_immediate i ≡ true → IsSound x w (xor_first_number n flags i) }
{}

/// Products, and their high halves.
pub fn products_are_selected()
    ensures multiply { (x : ℕ) (w : World) (flags : Flags) → IsSound x w (multiply x flags) }
    ensures multiply_half { (w : World) (flags : Flags) → IsSound 64 w (multiply_half flags) }
    ensures multiply_high_unsigned { (x : ℕ) (w : World) (flags : Flags) → IsSound x w (multiply_high_unsigned x flags) }
    ensures multiply_high { (x : ℕ) (w : World) (flags : Flags) → IsSound x w (multiply_high x flags) }
{}

/// Comparisons of words, with two registers, with zero and with a short constant.
pub fn comparisons_are_selected()
    ensures compare_ult { (x : ℕ) (w : World) (flags : Flags) → IsSound x w (compare_ult x flags) }
    ensures compare_ugt { (x : ℕ) (w : World) (flags : Flags) → IsSound x w (compare_ugt x flags) }
    ensures compare_slt { (x : ℕ) (w : World) (flags : Flags) → IsSound x w (compare_slt x flags) }
    ensures compare_sgt { (x : ℕ) (w : World) (flags : Flags) → IsSound x w (compare_sgt x flags) }
    ensures compare_uge { (x : ℕ) (w : World) (flags : Flags) → 0 < x → IsSound x w (compare_uge x flags) }
    ensures compare_ule { (x : ℕ) (w : World) (flags : Flags) → 0 < x → IsSound x w (compare_ule x flags) }
    ensures compare_sge { (x : ℕ) (w : World) (flags : Flags) → 0 < x → IsSound x w (compare_sge x flags) }
    ensures compare_sle { (x : ℕ) (w : World) (flags : Flags) → 0 < x → IsSound x w (compare_sle x flags) }
    ensures compare_eq { (x : ℕ) (w : World) (flags : Flags) → 0 < x → IsSound x w (compare_eq x flags) }
    ensures compare_ne { (x : ℕ) (w : World) (flags : Flags) → IsSound x w (compare_ne x flags) }
    ensures compare_eq_zero { (x : ℕ) (w : World) (flags : Flags) → 0 < x → IsSound x w (compare_eq_zero x flags) }
    ensures compare_ne_zero { (x : ℕ) (w : World) (flags : Flags) → IsSound x w (compare_ne_zero x flags) }
    ensures compare_ult_number { (x : ℕ) (w : World) (flags : Flags) (i : ℤ) → is_immediate i ≡ true → IsSound x w (compare_ult_number x flags i) }
    ensures compare_slt_number { (x : ℕ) (w : World) (flags : Flags) (i : ℤ) → is_immediate i ≡ true → IsSound x w (compare_slt_number x flags i) }
{}

/// Shifts, by a register and by a constant.
pub fn shifts_are_selected()
    ensures shift_left { (x : ℕ) (w : World) (flags : Flags) → IsSound x w (shift_left x flags) }
    ensures shift_right { (x : ℕ) (w : World) (flags : Flags) → IsSound x w (shift_right x flags) }
    ensures shift_right_signed { (x : ℕ) (w : World) (flags : Flags) → IsSound x w (shift_right_signed x flags) }
    ensures shift_left_half { (w : World) (flags : Flags) → IsSound 64 w (shift_left_half flags) }
    ensures shift_right_half { (w : World) (flags : Flags) → IsSound 64 w (shift_right_half flags) }
    ensures shift_right_signed_half { (w : World) (flags : Flags) → IsSound 64 w (shift_right_signed_half flags) }
    ensures shift_left_by { (x : ℕ) (w : World) (flags : Flags) (k : ℕ) → k < x → IsSound x w (shift_left_by x flags k) }
    ensures shift_right_by { (x : ℕ) (w : World) (flags : Flags) (k : ℕ) → k < x → IsSound x w (shift_right_by x flags k) }
    ensures shift_right_signed_by { (x : ℕ) (w : World) (flags : Flags) (k : ℕ) → k < x → IsSound x w (shift_right_signed_by x flags k) }
    ensures shift_left_half_by { (w : World) (flags : Flags) (k : ℕ) → k < 32 → IsSound 64 w (shift_left_half_by flags k) }
    ensures shift_right_half_by { (w : World) (flags : Flags) (k : ℕ) → k < 32 → IsSound 64 w (shift_right_half_by flags k) }
    ensures shift_right_signed_half_by { (w : World) (flags : Flags) (k : ℕ) → k < 32 → IsSound 64 w (shift_right_signed_half_by flags k) }
{}

/// Extensions on RV64, and copies of a low part.
pub fn casts_are_selected()
    ensures zero_extend { (w : World) (flags : Flags) → IsSound 64 w (zero_extend flags) }
    ensures sign_extend { (w : World) (flags : Flags) → IsSound 64 w (sign_extend flags) }
    ensures sign_extend_in_register { (w : World) (flags : Flags) → IsSound 64 w (sign_extend_in_register flags) }
    ensures truncate { (x : ℕ) (w : World) (flags : Flags) (m n : ℕ) → n ≤ m → IsSound x w (truncate flags m n) }
    ensures any_extend { (x : ℕ) (w : World) (flags : Flags) (m n : ℕ) → m ≤ n → IsSound x w (any_extend flags m n) }
    ensures pointer_to_integer { (x : ℕ) (w : World) (flags : Flags) (m n : ℕ) → n ≤ m → IsSound x w (pointer_to_integer flags m n) }
    ensures integer_to_pointer { (x : ℕ) (w : World) (flags : Flags) (m n : ℕ) → n ≤ m → IsSound x w (integer_to_pointer flags m n) }
    ensures freeze { (x : ℕ) (w : World) (flags : Flags) (n : ℕ) → IsSound x w (freeze flags n) }
{}

/// A value that is free, and the addresses of stack objects and of globals.
pub fn places_are_selected()
    ensures leave_free { (x : ℕ) (w : World) (n : ℕ) (flags : Flags) → IsSound x w (leave_free n flags) }
    ensures stack_address { (x : ℕ) (w : World) (flags : Flags) (address : ℕ) → address < 2 ^ x → IsSound x w (stack_address x flags address) }
    ensures global_address { (x : ℕ) (w : World) (flags : Flags) (flag : SymbolFlag) (name : List ℕ) → (x ≡ 32) ⊎ (x ≡ 64) → IsWorld x w → IsSound x w (global_address x flags flag name (w.global name)) }
{}

/// Quotients and remainders.
pub fn quotients_are_selected()
    ensures divide_unsigned { (x : ℕ) (w : World) (flags : Flags) → IsSound x w (divide_unsigned x flags) }
    ensures divide { (x : ℕ) (w : World) (flags : Flags) → IsSound x w (divide x flags) }
    ensures remainder_unsigned { (x : ℕ) (w : World) (flags : Flags) → IsSound x w (remainder_unsigned x flags) }
    ensures remainder { (x : ℕ) (w : World) (flags : Flags) → IsSound x w (remainder x flags) }
    ensures divide_unsigned_half { (w : World) (flags : Flags) → IsSound 64 w (divide_unsigned_half flags) }
    ensures divide_half { (w : World) (flags : Flags) → IsSound 64 w (divide_half flags) }
    ensures remainder_unsigned_half { (w : World) (flags : Flags) → IsSound 64 w (remainder_unsigned_half flags) }
    ensures remainder_half { (w : World) (flags : Flags) → IsSound 64 w (remainder_half flags) }
{}

/// A choice between two values, of a word or fewer bits.
pub fn choices_are_selected()
    ensures choose { (x : ℕ) (w : World) (n : ℕ) (flags : Flags) → n ≤ x → IsSound x w (choose x n flags) }
{}

/// Any instruction may take `$x0` for a register of a word or fewer bits that holds the constant zero.
pub fn zero_is_selected()
    ensures use_zero { (x : ℕ) (w : World) (n : ℕ) (inputs : List ℕ) (place : ℕ) (op : Opcode) (slots : List Slot) (m : ℕ) (gives : ℕ → List Argument → Given) → n ≤ x → meaning_of no_flags op ≡ Machine gives → IsSound x w (use_zero x n inputs place op slots m) }
{}

/// Branches on a comparison, on a word and without a condition.
pub fn branches_are_selected()
    ensures on_comparison { (x : ℕ) (w : World) (pred : Pred) → IsSelectedBranch x w pred (branch_of pred) }
    ensures on_word { (x : ℕ) (w : World) → IsSelectedTest x w }
    ensures always { (x : ℕ) (w : World) → IsSelectedJump x w }
{}

/// A rule used in a whole function of RV64: a shift of 32 bits by a constant is SLLIW.
pub fn selection_in_functions_refines()
    ensures shift { RefinesUnchecked 64 names (on_half generic_shift) (on_half word_shift) }
{}
