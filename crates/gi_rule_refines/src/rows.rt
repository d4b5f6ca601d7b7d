//! Rows of the rule tables that are good: sound, and each test of their own list is passed.

ghost use Rattle.std.specs.Prelude.{suc, ◌≡◌, ◌⊎◌, ℕ, ℤ, ◌*◌, ◌^◌, ◌≤◌, ◌<◌, List, [], ◌∷◌, true};
ghost use Rattle.gi_llt.specs.Bits.{sign_extended, wrapped};
ghost use Rattle.gi_llt.specs.Llt.{width_of};
ghost use Rattle.gi_llt.specs.declared.Llt.{Llt};
ghost use Rattle.gi_meaning.specs.Argument.{Argument, Value};
ghost use Rattle.gi_meaning.specs.Given.{Given, one};
ghost use Rattle.gi_meaning.specs.Machine.{is_immediate};
ghost use Rattle.gi_meaning.specs.Meaning.{Generic, meaning_of};
ghost use Rattle.gi_mir.specs.Types.{is_any, is_condition, is_rotatable};
ghost use Rattle.gi_mir.specs.declared.opcode.Opcode.{Opcode};
ghost use Rattle.gi_mir.specs.declared.opcode.Opcode.TheVariants as op;
ghost use Rattle.gi_mir.specs.declared.operand.Flags.{Flags};
ghost use Rattle.gi_mir.specs.declared.operand.Pred.{Pred};
ghost use Rattle.gi_mir.specs.declared.operand.Pred.TheVariants.{Sge, Sgt, Sle, Slt, Uge, Ugt, Ult};
ghost use Rattle.gi_rule_refines.specs.Stages.{IsGoodRewriteAt};
ghost use Rattle.gi_rule_refines.specs.declared.stages.RuleStage.TheVariants as at;
ghost use Rattle.gi_change_valid.specs.Numbers.{computes};
ghost use Rattle.gi_rule_values.specs.Artifacts.{anyext_of_trunc_narrower, anyext_of_trunc_same, anyext_of_trunc_wider, freeze_to_copy, sext_of_trunc_narrower, sext_of_trunc_same, sext_of_trunc_wider, trunc_of_merge, trunc_of_trunc, unmerge_of_merge, zext_of_trunc_narrower, zext_of_trunc_same, zext_of_trunc_wider};
ghost use Rattle.gi_rule_values.specs.Combining.{binop_same, binop_to_zero, constant_fold, constant_fold_cast, cut_extension, icmp_and_one, mul_to_shl, pointer_identity, right_identity, same_to_zero, select_constant, select_same, sub_to_add, udiv_to_lshr, urem_to_mask};
ghost use Rattle.gi_rule_values.specs.Forms.{s};
ghost use Rattle.gi_rule_values.specs.Lowering.{lower_abs, lower_better, lower_bswap_32, lower_bswap_64, lower_ctpop_32, lower_ctpop_64, lower_merge, lower_rotate, lower_sext_inreg, lower_uadde, lower_uaddo, lower_unmerge, lower_usube, lower_usubo, lower_zero_undef, narrow_add, narrow_anyext, narrow_bswap, narrow_constant, narrow_implicit_def, narrow_logic, narrow_select, narrow_sub, narrow_zext};
ghost use Rattle.gi_rule_values.specs.Selecting.{materialize_constant, select_above, select_addi, select_below, select_below_number, select_copy, select_eq_zero, select_icmp_eq, select_icmp_ne, select_icmp_ule, select_implicit_def, select_ne_zero, select_not_above, select_not_below, select_number, select_ptr_add, select_select, select_sext, select_sext_inreg, select_shift, select_two, select_zext};
ghost use Rattle.gi_rule_values.specs.Widening.{widen_add, widen_and, widen_ashr, widen_cast, widen_condition, widen_constant, widen_ctpop, widen_icmp, widen_icmp_result, widen_implicit_def, widen_lshr, widen_mul, widen_or, widen_sdiv, widen_select, widen_sext_inreg, widen_shl, widen_srem, widen_sub, widen_udiv, widen_urem, widen_xor};
ghost use Rattle.gi_llt.specs.declared.Llt.TheVariants.{Pointer};

/// Rules of the legaliser for casts and parts.
pub fn artifacts_are_good()
    ensures freeze_to_copy { (x : ℕ) (flags : Flags) (type : Llt) → is_any x type ≡ true → IsGoodRewriteAt x at.Before (freeze_to_copy flags type) }
    ensures trunc_of_trunc { (x : ℕ) (flags more : Flags) (m w k : ℕ) → 1 ≤ k → k ≤ m → m < w → w ≤ 2 * x → IsGoodRewriteAt x at.Before (trunc_of_trunc flags more m w k) }
    ensures anyext_of_trunc_same { (x : ℕ) (flags more : Flags) (m k : ℕ) → m < k → k ≤ 2 * x → IsGoodRewriteAt x at.Before (anyext_of_trunc_same flags more m k) }
    ensures anyext_of_trunc_narrower { (x : ℕ) (flags more : Flags) (m w k : ℕ) → m < k → k < w → w ≤ 2 * x → IsGoodRewriteAt x at.Before (anyext_of_trunc_narrower flags more m w k) }
    ensures anyext_of_trunc_wider { (x : ℕ) (flags more : Flags) (m w k : ℕ) → 1 ≤ m → m < w → w < k → k ≤ 2 * x → IsGoodRewriteAt x at.Before (anyext_of_trunc_wider flags more m w k) }
    ensures zext_of_trunc_same { (x : ℕ) (flags more : Flags) (m k : ℕ) → m < k → k ≤ 2 * x → IsGoodRewriteAt x at.Before (zext_of_trunc_same flags more m k) }
    ensures zext_of_trunc_narrower { (x : ℕ) (flags more : Flags) (m w k : ℕ) → m < k → k < w → w ≤ 2 * x → IsGoodRewriteAt x at.Before (zext_of_trunc_narrower flags more m w k) }
    ensures zext_of_trunc_wider { (x : ℕ) (flags more : Flags) (m w k : ℕ) → 1 ≤ m → m < w → w < k → k ≤ 2 * x → IsGoodRewriteAt x at.Before (zext_of_trunc_wider flags more m w k) }
    ensures sext_of_trunc_same { (x : ℕ) (flags more : Flags) (m k : ℕ) → m < k → k ≤ 2 * x → IsGoodRewriteAt x at.Before (sext_of_trunc_same flags more m k) }
    ensures sext_of_trunc_narrower { (x : ℕ) (flags more : Flags) (m w k : ℕ) → m < k → k < w → w ≤ 2 * x → IsGoodRewriteAt x at.Before (sext_of_trunc_narrower flags more m w k) }
    ensures sext_of_trunc_wider { (x : ℕ) (flags more : Flags) (m w k : ℕ) → 1 ≤ m → m < w → w < k → k ≤ 2 * x → IsGoodRewriteAt x at.Before (sext_of_trunc_wider flags more m w k) }
    ensures unmerge_of_merge { (x : ℕ) (flags more : Flags) (width further : ℕ) → (x ≡ 32) ⊎ (x ≡ 64) → 1 ≤ width → 1 ≤ further → further ≤ 15 → suc further * width ≤ 2 * x → IsGoodRewriteAt x at.Before (unmerge_of_merge flags more width (suc further)) }
    ensures trunc_of_merge_same { (x : ℕ) (flags more : Flags) (width : ℕ) → 1 ≤ width → width ≤ 2 * x → IsGoodRewriteAt x at.Before (trunc_of_merge op.Copy flags more width width) }
    ensures trunc_of_merge_narrower { (x : ℕ) (flags more : Flags) (width n : ℕ) → 1 ≤ n → n < width → width ≤ 2 * x → IsGoodRewriteAt x at.Before (trunc_of_merge op.GenericTruncate flags more width n) }
{}

/// Rules of the combiners.
pub fn combining_are_good()
    ensures mul_to_shl { (x : ℕ) (flags more : Flags) (n k : ℕ) → 1 ≤ n → n ≤ 2 * x → k < n → IsGoodRewriteAt x at.Before (mul_to_shl flags more n k) }
    ensures sub_to_add { (x : ℕ) (flags more : Flags) (n c : ℕ) → 1 ≤ n → n ≤ 2 * x → c < 2 ^ n → IsGoodRewriteAt x at.Before (sub_to_add flags more n c) }
    ensures udiv_to_lshr { (x : ℕ) (flags more : Flags) (n k : ℕ) → 1 ≤ n → n ≤ 2 * x → k < n → IsGoodRewriteAt x at.Before (udiv_to_lshr flags more n k) }
    ensures urem_to_mask { (x : ℕ) (flags more : Flags) (n k : ℕ) → 1 ≤ n → n ≤ 2 * x → k < n → IsGoodRewriteAt x at.Before (urem_to_mask flags more n k) }
    ensures add_zero { (x : ℕ) (flags more : Flags) (n : ℕ) → 1 ≤ n → n ≤ 2 * x → IsGoodRewriteAt x at.Before (right_identity op.GenericAdd flags more n 0) }
    ensures sub_zero { (x : ℕ) (flags more : Flags) (n : ℕ) → 1 ≤ n → n ≤ 2 * x → IsGoodRewriteAt x at.Before (right_identity op.GenericSubtract flags more n 0) }
    ensures or_zero { (x : ℕ) (flags more : Flags) (n : ℕ) → 1 ≤ n → n ≤ 2 * x → IsGoodRewriteAt x at.Before (right_identity op.GenericOr flags more n 0) }
    ensures xor_zero { (x : ℕ) (flags more : Flags) (n : ℕ) → 1 ≤ n → n ≤ 2 * x → IsGoodRewriteAt x at.Before (right_identity op.GenericXor flags more n 0) }
    ensures shl_zero { (x : ℕ) (flags more : Flags) (n : ℕ) → 1 ≤ n → n ≤ 2 * x → IsGoodRewriteAt x at.Before (right_identity op.GenericShiftLeft flags more n 0) }
    ensures lshr_zero { (x : ℕ) (flags more : Flags) (n : ℕ) → 1 ≤ n → n ≤ 2 * x → IsGoodRewriteAt x at.Before (right_identity op.GenericLogicalShiftRight flags more n 0) }
    ensures ashr_zero { (x : ℕ) (flags more : Flags) (n : ℕ) → 1 ≤ n → n ≤ 2 * x → IsGoodRewriteAt x at.Before (right_identity op.GenericArithmeticShiftRight flags more n 0) }
    ensures mul_one { (x : ℕ) (flags more : Flags) (n : ℕ) → 1 ≤ n → n ≤ 2 * x → IsGoodRewriteAt x at.Before (right_identity op.GenericMultiply flags more n 1) }
    ensures udiv_one { (x : ℕ) (flags more : Flags) (n : ℕ) → 1 ≤ n → n ≤ 2 * x → IsGoodRewriteAt x at.Before (right_identity op.GenericUnsignedDivide flags more n 1) }
    ensures sdiv_one { (x : ℕ) (flags more : Flags) (n : ℕ) → 2 ≤ n → n ≤ 2 * x → IsGoodRewriteAt x at.Before (right_identity op.GenericSignedDivide flags more n 1) }
    ensures pointer_identity { (x : ℕ) (flags more : Flags) → IsGoodRewriteAt x at.Before (pointer_identity flags more x) }
    ensures sub_same { (x : ℕ) (flags : Flags) (n : ℕ) → 1 ≤ n → n ≤ 2 * x → IsGoodRewriteAt x at.Before (same_to_zero op.GenericSubtract flags n) }
    ensures xor_same { (x : ℕ) (flags : Flags) (n : ℕ) → 1 ≤ n → n ≤ 2 * x → IsGoodRewriteAt x at.Before (same_to_zero op.GenericXor flags n) }
    ensures cut_anyext { (x : ℕ) (flags more : Flags) (n m : ℕ) → 1 ≤ n → n < m → m ≤ 2 * x → IsGoodRewriteAt x at.Before (cut_extension op.GenericAnyExtend flags more n m) }
    ensures cut_zext { (x : ℕ) (flags more : Flags) (n m : ℕ) → 1 ≤ n → n < m → m ≤ 2 * x → IsGoodRewriteAt x at.Before (cut_extension op.GenericZeroExtend flags more n m) }
    ensures cut_sext { (x : ℕ) (flags more : Flags) (n m : ℕ) → 1 ≤ n → n < m → m ≤ 2 * x → IsGoodRewriteAt x at.Before (cut_extension op.GenericSignExtend flags more n m) }
    ensures mul_zero { (x : ℕ) (flags more : Flags) (n : ℕ) → 1 ≤ n → n ≤ 2 * x → IsGoodRewriteAt x at.Before (binop_to_zero op.GenericMultiply flags more n) }
    ensures and_zero { (x : ℕ) (flags more : Flags) (n : ℕ) → 1 ≤ n → n ≤ 2 * x → IsGoodRewriteAt x at.Before (binop_to_zero op.GenericAnd flags more n) }
    ensures and_same { (x : ℕ) (flags : Flags) (n : ℕ) → 1 ≤ n → n ≤ 2 * x → IsGoodRewriteAt x at.Before (binop_same op.GenericAnd flags n) }
    ensures or_same { (x : ℕ) (flags : Flags) (n : ℕ) → 1 ≤ n → n ≤ 2 * x → IsGoodRewriteAt x at.Before (binop_same op.GenericOr flags n) }
    ensures select_same { (x : ℕ) (flags : Flags) (c : ℕ) (type : Llt) → is_any x type ≡ true → IsGoodRewriteAt x at.Before (select_same flags c type) }
    ensures select_constant { (x : ℕ) (flags more : Flags) (c value : ℕ) (type : Llt) → is_any x type ≡ true → IsGoodRewriteAt x at.Before (select_constant flags more c value type) }
    ensures icmp_and_one { (x : ℕ) (flags more other : Flags) (pred : Pred) (type : Llt) (n : ℕ) → 1 ≤ n → n ≤ 2 * x → IsGoodRewriteAt x at.Before (icmp_and_one flags more other pred type n) }
    ensures fold_trunc { (x : ℕ) (flags more : Flags) (m c n : ℕ) → 1 ≤ n → n ≤ 2 * x → IsGoodRewriteAt x at.Before (constant_fold_cast op.GenericTruncate flags more m c n (wrapped n c)) }
    ensures fold_zext { (x : ℕ) (flags more : Flags) (m c n : ℕ) → m < n → n ≤ 2 * x → c < 2 ^ m → IsGoodRewriteAt x at.Before (constant_fold_cast op.GenericZeroExtend flags more m c n c) }
    ensures fold_sext { (x : ℕ) (flags more : Flags) (m c n : ℕ) → 1 ≤ n → n ≤ 2 * x → IsGoodRewriteAt x at.Before (constant_fold_cast op.GenericSignExtend flags more m c n (sign_extended m n c)) }
    ensures fold_anyext { (x : ℕ) (flags more : Flags) (m c n : ℕ) → 1 ≤ m → m < n → n ≤ 2 * x → IsGoodRewriteAt x at.Before (constant_fold_cast op.GenericAnyExtend flags more m c n (sign_extended m n c)) }
    ensures constant_fold { (x : ℕ) (root : Opcode) (flags first second : Flags) (l a m b n value : ℕ) (gives : List ℕ → List Argument → Given) → 1 ≤ n → n ≤ 2 * x → value < 2 ^ n → computes root ≡ true → meaning_of flags root ≡ Generic gives → gives (n ∷ []) (Value l a ∷ Value m b ∷ []) ≡ one value → IsGoodRewriteAt x at.Before (constant_fold root flags first second l a m b n value) }
{}

/// Rules of the legaliser that widen. Where a division is made its root is one too.
pub fn widening_are_good()
    ensures widen_add { (x : ℕ) (flags : Flags) (n w : ℕ) → 1 ≤ n → n < w → w ≤ 2 * x → IsGoodRewriteAt x at.Before (widen_add flags n w) }
    ensures widen_lshr { (x : ℕ) (flags : Flags) (n w : ℕ) → 1 ≤ n → n < w → w ≤ 2 * x → IsGoodRewriteAt x at.Before (widen_lshr flags n w) }
    ensures widen_constant { (x : ℕ) (flags : Flags) (n w value : ℕ) → 1 ≤ n → n < w → w ≤ 2 * x → value < 2 ^ n → IsGoodRewriteAt x at.Before (widen_constant flags n w value) }
    ensures widen_sub { (x : ℕ) (flags : Flags) (n w : ℕ) → 1 ≤ n → n < w → w ≤ 2 * x → IsGoodRewriteAt x at.Before (widen_sub flags n w) }
    ensures widen_mul { (x : ℕ) (flags : Flags) (n w : ℕ) → 1 ≤ n → n < w → w ≤ x → IsGoodRewriteAt x at.Before (widen_mul flags n w) }
    ensures widen_and { (x : ℕ) (flags : Flags) (n w : ℕ) → 1 ≤ n → n < w → w ≤ 2 * x → IsGoodRewriteAt x at.Before (widen_and flags n w) }
    ensures widen_or { (x : ℕ) (flags : Flags) (n w : ℕ) → 1 ≤ n → n < w → w ≤ 2 * x → IsGoodRewriteAt x at.Before (widen_or flags n w) }
    ensures widen_xor { (x : ℕ) (flags : Flags) (n w : ℕ) → 1 ≤ n → n < w → w ≤ 2 * x → IsGoodRewriteAt x at.Before (widen_xor flags n w) }
    ensures widen_shl { (x : ℕ) (flags : Flags) (n w : ℕ) → 1 ≤ n → n < w → w ≤ 2 * x → IsGoodRewriteAt x at.Before (widen_shl flags n w) }
    ensures widen_ashr { (x : ℕ) (flags : Flags) (n w : ℕ) → 1 ≤ n → n < w → w ≤ 2 * x → IsGoodRewriteAt x at.Before (widen_ashr flags n w) }
    ensures widen_ctpop { (x : ℕ) (flags : Flags) (n w : ℕ) → 1 ≤ n → n < w → w ≤ 2 * x → IsGoodRewriteAt x at.Before (widen_ctpop flags n w) }
    ensures widen_sext_inreg { (x : ℕ) (flags : Flags) (n w k : ℕ) → 1 ≤ n → n < w → w ≤ 2 * x → k ≤ n → IsGoodRewriteAt x at.Before (widen_sext_inreg flags n w k) }
    ensures widen_select { (x : ℕ) (flags : Flags) (c n w : ℕ) → 1 ≤ n → n < w → w ≤ 2 * x → is_condition x (s c) ≡ true → IsGoodRewriteAt x at.Before (widen_select flags c n w) }
    ensures widen_condition { (x : ℕ) (flags : Flags) (type : Llt) → 2 ≤ x → is_any x type ≡ true → IsGoodRewriteAt x at.Before (widen_condition flags x type) }
    ensures widen_icmp_result { (x : ℕ) (flags : Flags) (pred : Pred) (type : Llt) → 2 ≤ x → is_any x type ≡ true → IsGoodRewriteAt x at.Before (widen_icmp_result flags pred type x) }
    ensures widen_icmp { (x : ℕ) (flags : Flags) (pred : Pred) (n w k : ℕ) → 1 ≤ n → n < w → w ≤ 2 * x → 1 ≤ k → is_condition x (s k) ≡ true → IsGoodRewriteAt x at.Before (widen_icmp flags pred n w k) }
    ensures widen_anyext { (x : ℕ) (flags : Flags) (m k w : ℕ) → 1 ≤ m → m < k → k < w → w ≤ 2 * x → IsGoodRewriteAt x at.Before (widen_cast op.GenericAnyExtend flags m k w) }
    ensures widen_zext { (x : ℕ) (flags : Flags) (m k w : ℕ) → 1 ≤ m → m < k → k < w → w ≤ 2 * x → IsGoodRewriteAt x at.Before (widen_cast op.GenericZeroExtend flags m k w) }
    ensures widen_sext { (x : ℕ) (flags : Flags) (m k w : ℕ) → 1 ≤ m → m < k → k < w → w ≤ 2 * x → IsGoodRewriteAt x at.Before (widen_cast op.GenericSignExtend flags m k w) }
    ensures widen_implicit_def { (x : ℕ) (flags : Flags) (n w : ℕ) → 1 ≤ n → n < w → w ≤ 2 * x → IsGoodRewriteAt x at.Before (widen_implicit_def flags n w) }
    ensures widen_sdiv { (x : ℕ) (flags : Flags) (n w : ℕ) → 1 ≤ n → n < w → w ≤ 2 * x → IsGoodRewriteAt x at.Before (widen_sdiv flags n w) }
    ensures widen_udiv { (x : ℕ) (flags : Flags) (n w : ℕ) → 1 ≤ n → n < w → w ≤ 2 * x → IsGoodRewriteAt x at.Before (widen_udiv flags n w) }
    ensures widen_urem { (x : ℕ) (flags : Flags) (n w : ℕ) → 1 ≤ n → n < w → w ≤ 2 * x → IsGoodRewriteAt x at.Before (widen_urem flags n w) }
    ensures widen_srem { (x : ℕ) (flags : Flags) (n w : ℕ) → 1 ≤ n → n < w → w ≤ 2 * x → IsGoodRewriteAt x at.Before (widen_srem flags n w) }
{}

/// Rules of the legaliser that make an operation of others.
pub fn lowering_are_good()
    ensures lower_uadde { (x : ℕ) (flags : Flags) (n : ℕ) → 2 ≤ n → n ≤ 2 * x → IsGoodRewriteAt x at.Before (lower_uadde flags n) }
    ensures lower_abs { (x : ℕ) (flags : Flags) (n : ℕ) → 1 ≤ n → n ≤ 2 * x → IsGoodRewriteAt x at.Before (lower_abs flags n) }
    ensures narrow_and { (x : ℕ) (flags : Flags) → (x ≡ 32) ⊎ (x ≡ 64) → IsGoodRewriteAt x at.Before (narrow_logic op.GenericAnd flags x) }
    ensures narrow_or { (x : ℕ) (flags : Flags) → (x ≡ 32) ⊎ (x ≡ 64) → IsGoodRewriteAt x at.Before (narrow_logic op.GenericOr flags x) }
    ensures narrow_xor { (x : ℕ) (flags : Flags) → (x ≡ 32) ⊎ (x ≡ 64) → IsGoodRewriteAt x at.Before (narrow_logic op.GenericXor flags x) }
    ensures lower_bswap_32 { (x : ℕ) (flags : Flags) → (x ≡ 32) ⊎ (x ≡ 64) → IsGoodRewriteAt x at.Before (lower_bswap_32 flags) }
    ensures lower_bswap_64 { (x : ℕ) (flags : Flags) → (x ≡ 32) ⊎ (x ≡ 64) → IsGoodRewriteAt x at.Before (lower_bswap_64 flags) }
    ensures lower_ctpop_32 { (x : ℕ) (flags : Flags) → (x ≡ 32) ⊎ (x ≡ 64) → IsGoodRewriteAt x at.Before (lower_ctpop_32 flags) }
    ensures lower_ctpop_64 { (flags : Flags) → IsGoodRewriteAt 64 at.Before (lower_ctpop_64 flags) }
    ensures lower_merge { (x : ℕ) (flags : Flags) (width further : ℕ) → (x ≡ 32) ⊎ (x ≡ 64) → 1 ≤ width → 1 ≤ further → further ≤ 15 → suc further * width ≤ 2 * x → IsGoodRewriteAt x at.Before (lower_merge flags width further) }
    ensures lower_uaddo { (x : ℕ) (flags : Flags) (n : ℕ) → 1 ≤ n → n ≤ 2 * x → IsGoodRewriteAt x at.Before (lower_uaddo flags n) }
    ensures lower_usubo { (x : ℕ) (flags : Flags) (n : ℕ) → 1 ≤ n → n ≤ 2 * x → IsGoodRewriteAt x at.Before (lower_usubo flags n) }
    ensures lower_usube { (x : ℕ) (flags : Flags) (n : ℕ) → 2 ≤ n → n ≤ 2 * x → IsGoodRewriteAt x at.Before (lower_usube flags n) }
    ensures lower_smin { (x : ℕ) (flags : Flags) (n : ℕ) → 1 ≤ x → 1 ≤ n → n ≤ 2 * x → IsGoodRewriteAt x at.Before (lower_better op.GenericSignedMinimum Slt flags x n) }
    ensures lower_smax { (x : ℕ) (flags : Flags) (n : ℕ) → 1 ≤ x → 1 ≤ n → n ≤ 2 * x → IsGoodRewriteAt x at.Before (lower_better op.GenericSignedMaximum Sgt flags x n) }
    ensures lower_umin { (x : ℕ) (flags : Flags) (n : ℕ) → 1 ≤ x → 1 ≤ n → n ≤ 2 * x → IsGoodRewriteAt x at.Before (lower_better op.GenericUnsignedMinimum Ult flags x n) }
    ensures lower_umax { (x : ℕ) (flags : Flags) (n : ℕ) → 1 ≤ x → 1 ≤ n → n ≤ 2 * x → IsGoodRewriteAt x at.Before (lower_better op.GenericUnsignedMaximum Ugt flags x n) }
    ensures lower_rotl { (x : ℕ) (flags : Flags) (n : ℕ) → is_rotatable x (s n) ≡ true → IsGoodRewriteAt x at.Before (lower_rotate op.GenericRotateLeft op.GenericFunnelShiftLeft flags n) }
    ensures lower_rotr { (x : ℕ) (flags : Flags) (n : ℕ) → is_rotatable x (s n) ≡ true → IsGoodRewriteAt x at.Before (lower_rotate op.GenericRotateRight op.GenericFunnelShiftRight flags n) }
    ensures lower_ctlz_zero_undef { (x : ℕ) (flags : Flags) (n : ℕ) → 1 ≤ n → n ≤ 2 * x → IsGoodRewriteAt x at.Before (lower_zero_undef op.GenericCountLeadingZerosNotOfZero op.GenericCountLeadingZeros flags n) }
    ensures lower_cttz_zero_undef { (x : ℕ) (flags : Flags) (n : ℕ) → 1 ≤ n → n ≤ 2 * x → IsGoodRewriteAt x at.Before (lower_zero_undef op.GenericCountTrailingZerosNotOfZero op.GenericCountTrailingZeros flags n) }
    ensures lower_sext_inreg { (x : ℕ) (flags : Flags) (k : ℕ) → 1 ≤ k → k ≤ x → IsGoodRewriteAt x at.Before (lower_sext_inreg flags x k) }
    ensures lower_unmerge { (x : ℕ) (flags : Flags) (width further : ℕ) → (x ≡ 32) ⊎ (x ≡ 64) → 1 ≤ width → 1 ≤ further → further ≤ 15 → suc further * width ≤ 2 * x → IsGoodRewriteAt x at.Before (lower_unmerge flags width further) }
    ensures narrow_add { (x : ℕ) (flags : Flags) → (x ≡ 32) ⊎ (x ≡ 64) → IsGoodRewriteAt x at.Before (narrow_add flags x) }
    ensures narrow_sub { (x : ℕ) (flags : Flags) → (x ≡ 32) ⊎ (x ≡ 64) → IsGoodRewriteAt x at.Before (narrow_sub flags x) }
    ensures narrow_select { (x : ℕ) (flags : Flags) (c : ℕ) → (x ≡ 32) ⊎ (x ≡ 64) → is_condition x (s c) ≡ true → IsGoodRewriteAt x at.Before (narrow_select flags c x) }
    ensures narrow_zext { (x : ℕ) (flags : Flags) → (x ≡ 32) ⊎ (x ≡ 64) → IsGoodRewriteAt x at.Before (narrow_zext flags x) }
    ensures narrow_anyext { (x : ℕ) (flags : Flags) → (x ≡ 32) ⊎ (x ≡ 64) → IsGoodRewriteAt x at.Before (narrow_anyext flags x) }
    ensures narrow_implicit_def { (x : ℕ) (flags : Flags) → (x ≡ 32) ⊎ (x ≡ 64) → IsGoodRewriteAt x at.Before (narrow_implicit_def flags x) }
    ensures narrow_constant { (x : ℕ) (flags : Flags) (value : ℕ) → (x ≡ 32) ⊎ (x ≡ 64) → value < 2 ^ (2 * x) → IsGoodRewriteAt x at.Before (narrow_constant flags x value) }
    ensures narrow_bswap { (x : ℕ) (flags : Flags) → (x ≡ 32) ⊎ (x ≡ 64) → IsGoodRewriteAt x at.Before (narrow_bswap flags 32) }
{}

/// Rows of the selector, with words of 32 bits on RV64 and copies that join types.
pub fn selecting_are_good()
    ensures select_icmp_ule { (x : ℕ) (flags : Flags) → (x ≡ 32) ⊎ (x ≡ 64) → IsGoodRewriteAt x at.Selecting (select_icmp_ule flags x) }
    ensures select_zext { (flags : Flags) → IsGoodRewriteAt 64 at.Selecting (select_zext flags) }
    ensures select_addi { (x : ℕ) (flags more : Flags) (i : ℤ) → (x ≡ 32) ⊎ (x ≡ 64) → is_immediate i ≡ true → IsGoodRewriteAt x at.Selecting (select_addi flags more x i) }
    ensures select_select { (x : ℕ) (flags : Flags) (type : Llt) → width_of x type ≡ x → IsGoodRewriteAt x at.Selecting (select_select flags x type) }
    ensures materialize_constant { (x : ℕ) (flags : Flags) (type : Llt) (value : ℕ) → (x ≡ 32) ⊎ (x ≡ 64) → width_of x type ≡ x → value < 2 ^ x → IsGoodRewriteAt x at.Selecting (materialize_constant flags x type value) }
    ensures select_add { (x : ℕ) (flags : Flags) → (x ≡ 32) ⊎ (x ≡ 64) → IsGoodRewriteAt x at.Selecting (select_two op.GenericAdd op.Add flags x) }
    ensures select_sub { (x : ℕ) (flags : Flags) → (x ≡ 32) ⊎ (x ≡ 64) → IsGoodRewriteAt x at.Selecting (select_two op.GenericSubtract op.Subtract flags x) }
    ensures select_mul { (x : ℕ) (flags : Flags) → (x ≡ 32) ⊎ (x ≡ 64) → IsGoodRewriteAt x at.Selecting (select_two op.GenericMultiply op.Multiply flags x) }
    ensures select_shl { (x : ℕ) (flags : Flags) → (x ≡ 32) ⊎ (x ≡ 64) → IsGoodRewriteAt x at.Selecting (select_two op.GenericShiftLeft op.ShiftLeftLogical flags x) }
    ensures select_lshr { (x : ℕ) (flags : Flags) → (x ≡ 32) ⊎ (x ≡ 64) → IsGoodRewriteAt x at.Selecting (select_two op.GenericLogicalShiftRight op.ShiftRightLogical flags x) }
    ensures select_ashr { (x : ℕ) (flags : Flags) → (x ≡ 32) ⊎ (x ≡ 64) → IsGoodRewriteAt x at.Selecting (select_two op.GenericArithmeticShiftRight op.ShiftRightArithmetic flags x) }
    ensures select_udiv { (x : ℕ) (flags : Flags) → (x ≡ 32) ⊎ (x ≡ 64) → IsGoodRewriteAt x at.Selecting (select_two op.GenericUnsignedDivide op.DivideUnsigned flags x) }
    ensures select_sdiv { (x : ℕ) (flags : Flags) → (x ≡ 32) ⊎ (x ≡ 64) → IsGoodRewriteAt x at.Selecting (select_two op.GenericSignedDivide op.Divide flags x) }
    ensures select_urem { (x : ℕ) (flags : Flags) → (x ≡ 32) ⊎ (x ≡ 64) → IsGoodRewriteAt x at.Selecting (select_two op.GenericUnsignedRemainder op.RemainderUnsigned flags x) }
    ensures select_srem { (x : ℕ) (flags : Flags) → (x ≡ 32) ⊎ (x ≡ 64) → IsGoodRewriteAt x at.Selecting (select_two op.GenericSignedRemainder op.Remainder flags x) }
    ensures select_and { (x : ℕ) (flags : Flags) → (x ≡ 32) ⊎ (x ≡ 64) → IsGoodRewriteAt x at.Selecting (select_two op.GenericAnd op.And flags x) }
    ensures select_or { (x : ℕ) (flags : Flags) → (x ≡ 32) ⊎ (x ≡ 64) → IsGoodRewriteAt x at.Selecting (select_two op.GenericOr op.Or flags x) }
    ensures select_xor { (x : ℕ) (flags : Flags) → (x ≡ 32) ⊎ (x ≡ 64) → IsGoodRewriteAt x at.Selecting (select_two op.GenericXor op.Xor flags x) }
    ensures select_umulh { (x : ℕ) (flags : Flags) → (x ≡ 32) ⊎ (x ≡ 64) → IsGoodRewriteAt x at.Selecting (select_two op.GenericUnsignedMultiplyHigh op.MultiplyHighUnsigned flags x) }
    ensures select_smulh { (x : ℕ) (flags : Flags) → (x ≡ 32) ⊎ (x ≡ 64) → IsGoodRewriteAt x at.Selecting (select_two op.GenericSignedMultiplyHigh op.MultiplyHigh flags x) }
    ensures select_ptr_add { (x : ℕ) (flags : Flags) → (x ≡ 32) ⊎ (x ≡ 64) → IsGoodRewriteAt x at.Selecting (select_ptr_add flags x) }
    ensures select_andi { (x : ℕ) (flags more : Flags) (i : ℤ) → (x ≡ 32) ⊎ (x ≡ 64) → is_immediate i ≡ true → IsGoodRewriteAt x at.Selecting (select_number op.GenericAnd op.AndImmediate flags more x i) }
    ensures select_xori { (x : ℕ) (flags more : Flags) (i : ℤ) → (x ≡ 32) ⊎ (x ≡ 64) → is_immediate i ≡ true → IsGoodRewriteAt x at.Selecting (select_number op.GenericXor op.XorImmediate flags more x i) }
    ensures select_ori { (x : ℕ) (flags more : Flags) (i : ℤ) → (x ≡ 32) ⊎ (x ≡ 64) → is_immediate i ≡ true → IsGoodRewriteAt x at.Selecting (select_number op.GenericOr op.OrImmediate flags more x i) }
    ensures select_shl_by { (x : ℕ) (flags more : Flags) (k : ℕ) → (x ≡ 32) ⊎ (x ≡ 64) → k < x → IsGoodRewriteAt x at.Selecting (select_shift op.GenericShiftLeft op.ShiftLeftLogicalImmediate flags more x k) }
    ensures select_lshr_by { (x : ℕ) (flags more : Flags) (k : ℕ) → (x ≡ 32) ⊎ (x ≡ 64) → k < x → IsGoodRewriteAt x at.Selecting (select_shift op.GenericLogicalShiftRight op.ShiftRightLogicalImmediate flags more x k) }
    ensures select_ashr_by { (x : ℕ) (flags more : Flags) (k : ℕ) → (x ≡ 32) ⊎ (x ≡ 64) → k < x → IsGoodRewriteAt x at.Selecting (select_shift op.GenericArithmeticShiftRight op.ShiftRightArithmeticImmediate flags more x k) }
    ensures select_icmp_ult { (x : ℕ) (flags : Flags) → (x ≡ 32) ⊎ (x ≡ 64) → IsGoodRewriteAt x at.Selecting (select_below Ult op.SetLessUnsigned flags x) }
    ensures select_icmp_slt { (x : ℕ) (flags : Flags) → (x ≡ 32) ⊎ (x ≡ 64) → IsGoodRewriteAt x at.Selecting (select_below Slt op.SetLess flags x) }
    ensures select_icmp_ugt { (x : ℕ) (flags : Flags) → (x ≡ 32) ⊎ (x ≡ 64) → IsGoodRewriteAt x at.Selecting (select_above Ugt op.SetLessUnsigned flags x) }
    ensures select_icmp_sgt { (x : ℕ) (flags : Flags) → (x ≡ 32) ⊎ (x ≡ 64) → IsGoodRewriteAt x at.Selecting (select_above Sgt op.SetLess flags x) }
    ensures select_icmp_uge { (x : ℕ) (flags : Flags) → (x ≡ 32) ⊎ (x ≡ 64) → IsGoodRewriteAt x at.Selecting (select_not_below Uge op.SetLessUnsigned flags x) }
    ensures select_icmp_sge { (x : ℕ) (flags : Flags) → (x ≡ 32) ⊎ (x ≡ 64) → IsGoodRewriteAt x at.Selecting (select_not_below Sge op.SetLess flags x) }
    ensures select_icmp_sle { (x : ℕ) (flags : Flags) → (x ≡ 32) ⊎ (x ≡ 64) → IsGoodRewriteAt x at.Selecting (select_not_above Sle op.SetLess flags x) }
    ensures select_icmp_eq { (x : ℕ) (flags : Flags) → (x ≡ 32) ⊎ (x ≡ 64) → IsGoodRewriteAt x at.Selecting (select_icmp_eq flags x) }
    ensures select_icmp_ne { (x : ℕ) (flags : Flags) → (x ≡ 32) ⊎ (x ≡ 64) → IsGoodRewriteAt x at.Selecting (select_icmp_ne flags x) }
    ensures select_eq_zero { (x : ℕ) (flags more : Flags) → (x ≡ 32) ⊎ (x ≡ 64) → IsGoodRewriteAt x at.Selecting (select_eq_zero flags more x) }
    ensures select_ne_zero { (x : ℕ) (flags more : Flags) → (x ≡ 32) ⊎ (x ≡ 64) → IsGoodRewriteAt x at.Selecting (select_ne_zero flags more x) }
    ensures select_sltiu { (x : ℕ) (flags more : Flags) (i : ℤ) → (x ≡ 32) ⊎ (x ≡ 64) → is_immediate i ≡ true → IsGoodRewriteAt x at.Selecting (select_below_number Ult op.SetLessImmediateUnsigned flags more x i) }
    ensures select_slti { (x : ℕ) (flags more : Flags) (i : ℤ) → (x ≡ 32) ⊎ (x ≡ 64) → is_immediate i ≡ true → IsGoodRewriteAt x at.Selecting (select_below_number Slt op.SetLessImmediate flags more x i) }
    ensures select_sext { (flags : Flags) → IsGoodRewriteAt 64 at.Selecting (select_sext flags) }
    ensures select_sext_inreg { (flags : Flags) → IsGoodRewriteAt 64 at.Selecting (select_sext_inreg flags) }
    ensures select_implicit_def { (x : ℕ) (flags : Flags) (type : Llt) → is_any x type ≡ true → IsGoodRewriteAt x at.Selecting (select_implicit_def flags type) }
    ensures select_add_half { (flags : Flags) → IsGoodRewriteAt 64 at.Selecting (select_two op.GenericAdd op.AddWord flags 32) }
    ensures select_sub_half { (flags : Flags) → IsGoodRewriteAt 64 at.Selecting (select_two op.GenericSubtract op.SubtractWord flags 32) }
    ensures select_mul_half { (flags : Flags) → IsGoodRewriteAt 64 at.Selecting (select_two op.GenericMultiply op.MultiplyWord flags 32) }
    ensures select_shl_half { (flags : Flags) → IsGoodRewriteAt 64 at.Selecting (select_two op.GenericShiftLeft op.ShiftLeftLogicalWord flags 32) }
    ensures select_lshr_half { (flags : Flags) → IsGoodRewriteAt 64 at.Selecting (select_two op.GenericLogicalShiftRight op.ShiftRightLogicalWord flags 32) }
    ensures select_ashr_half { (flags : Flags) → IsGoodRewriteAt 64 at.Selecting (select_two op.GenericArithmeticShiftRight op.ShiftRightArithmeticWord flags 32) }
    ensures select_udiv_half { (flags : Flags) → IsGoodRewriteAt 64 at.Selecting (select_two op.GenericUnsignedDivide op.DivideUnsignedWord flags 32) }
    ensures select_sdiv_half { (flags : Flags) → IsGoodRewriteAt 64 at.Selecting (select_two op.GenericSignedDivide op.DivideWord flags 32) }
    ensures select_urem_half { (flags : Flags) → IsGoodRewriteAt 64 at.Selecting (select_two op.GenericUnsignedRemainder op.RemainderUnsignedWord flags 32) }
    ensures select_srem_half { (flags : Flags) → IsGoodRewriteAt 64 at.Selecting (select_two op.GenericSignedRemainder op.RemainderWord flags 32) }
    ensures select_addiw { (flags more : Flags) (i : ℤ) → is_immediate i ≡ true → IsGoodRewriteAt 64 at.Selecting (select_number op.GenericAdd op.AddImmediateWord flags more 32 i) }
    ensures select_shl_half_by { (flags more : Flags) (k : ℕ) → k < 32 → IsGoodRewriteAt 64 at.Selecting (select_shift op.GenericShiftLeft op.ShiftLeftLogicalImmediateWord flags more 32 k) }
    ensures select_lshr_half_by { (flags more : Flags) (k : ℕ) → k < 32 → IsGoodRewriteAt 64 at.Selecting (select_shift op.GenericLogicalShiftRight op.ShiftRightLogicalImmediateWord flags more 32 k) }
    ensures select_ashr_half_by { (flags more : Flags) (k : ℕ) → k < 32 → IsGoodRewriteAt 64 at.Selecting (select_shift op.GenericArithmeticShiftRight op.ShiftRightArithmeticImmediateWord flags more 32 k) }
    ensures select_trunc { (x : ℕ) (flags : Flags) (m n : ℕ) → 1 ≤ n → n < m → m ≤ 2 * x → IsGoodRewriteAt x at.Selecting (select_copy op.GenericTruncate flags (s m) (s n)) }
    ensures select_anyext { (x : ℕ) (flags : Flags) (m n : ℕ) → 1 ≤ m → m < n → n ≤ 2 * x → IsGoodRewriteAt x at.Selecting (select_copy op.GenericAnyExtend flags (s m) (s n)) }
    ensures select_ptrtoint { (x : ℕ) (flags : Flags) → 1 ≤ x → IsGoodRewriteAt x at.Selecting (select_copy op.GenericPointerToInteger flags Pointer (s x)) }
    ensures select_inttoptr { (x : ℕ) (flags : Flags) → 1 ≤ x → IsGoodRewriteAt x at.Selecting (select_copy op.GenericIntegerToPointer flags (s x) Pointer) }
{}
