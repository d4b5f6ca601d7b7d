//! What is promised of rewrites.

ghost use Rattle.gi_llt.specs.Bits.{sign_extended, wrapped};
ghost use Rattle.gi_llt.specs.Llt.{width_of};
ghost use Rattle.gi_llt.specs.declared.Llt.TheVariants.{Pointer};
ghost use Rattle.gi_llt.specs.declared.Llt.{Llt};
ghost use Rattle.gi_meaning.specs.Argument.{Argument, Value};
ghost use Rattle.gi_meaning.specs.Given.{Given, one};
ghost use Rattle.gi_meaning.specs.Machine.{is_immediate};
ghost use Rattle.gi_meaning.specs.Meaning.{Generic, meaning_of};
ghost use Rattle.gi_meaning.specs.State.{World};
ghost use Rattle.gi_mir.specs.Data.{no_flags};
ghost use Rattle.gi_mir.specs.declared.opcode.Opcode.TheVariants as op;
ghost use Rattle.gi_mir.specs.declared.opcode.Opcode.{Opcode};
ghost use Rattle.gi_mir.specs.declared.operand.Flags.{Flags};
ghost use Rattle.gi_mir.specs.declared.operand.Pred.TheVariants.{Ugt, Uge, Ult, Sgt, Sge, Slt, Sle};
ghost use Rattle.gi_mir.specs.declared.operand.Pred.{Pred};
ghost use Rattle.gi_refine.specs.Values.{IsSound};
ghost use Rattle.gi_rule_values.specs.Artifacts.{anyext_of_trunc_narrower, anyext_of_trunc_same, anyext_of_trunc_wider, freeze_to_copy, sext_of_trunc_narrower, sext_of_trunc_same, sext_of_trunc_wider, trunc_of_trunc, unmerge_of_merge, zext_of_trunc_narrower, zext_of_trunc_same, zext_of_trunc_wider, trunc_of_merge};
ghost use Rattle.gi_rule_values.specs.Combining.{constant_fold, icmp_and_one, mul_to_shl, pointer_identity, select_constant, select_same, sub_to_add, udiv_to_lshr, urem_to_mask, right_identity, same_to_zero, cut_extension, binop_to_zero, binop_same, constant_fold_cast};
ghost use Rattle.gi_rule_values.specs.Data.{RewriteData};
ghost use Rattle.gi_rule_values.specs.Forms.{s};
ghost use Rattle.gi_rule_values.specs.Lowering.{lower_abs, lower_bswap_32, lower_bswap_64, lower_ctpop_32, lower_ctpop_64, lower_merge, lower_sext_inreg, lower_uadde, lower_uaddo, lower_unmerge, lower_usube, lower_usubo, narrow_add, narrow_anyext, narrow_bswap, narrow_constant, narrow_implicit_def, narrow_select, narrow_sub, narrow_zext, narrow_logic, lower_better, lower_rotate, lower_zero_undef};
ghost use Rattle.gi_rule_values.specs.OnValues.{on_values};
ghost use Rattle.gi_rule_values.specs.Running.{IsSoundByNumbers, IsSoundRewrite, ran};
ghost use Rattle.gi_rule_values.specs.Selecting.{materialize_constant, select_addi, select_eq_zero, select_icmp_eq, select_icmp_ne, select_icmp_ule, select_implicit_def, select_ne_zero, select_ptr_add, select_select, select_sext, select_sext_inreg, select_zext, select_above, select_below, select_below_number, select_copy, select_not_above, select_not_below, select_number, select_shift, select_two};
ghost use Rattle.gi_rule_values.specs.Widening.{widen_add, widen_and, widen_ashr, widen_condition, widen_constant, widen_ctpop, widen_icmp, widen_icmp_result, widen_implicit_def, widen_lshr, widen_mul, widen_or, widen_sdiv, widen_select, widen_sext_inreg, widen_shl, widen_srem, widen_sub, widen_udiv, widen_urem, widen_xor, widen_cast};
ghost use Rattle.std.specs.Prelude.{◌≡◌, [], ◌∷◌, ◌*◌, ◌<◌, ◌^◌, ◌≤◌, List, Some, ℕ, ℤ, true, negsuc, ◌⊎◌};

/// A rewrite that is sound by numbers is a sound rule on values, in the sense of gi_refine: whatever is made, the root may have
/// made, or it is undefined.
pub fn sound_by_numbers()
    ensures { (x : ℕ) (names : List (List ℕ)) (w : World) (rewrite : RewriteData) → IsSoundByNumbers x names w rewrite → IsSound x w (on_values x names w rewrite) }
{}

/// Rules of the legaliser for casts and parts.
pub fn artifacts_are_sound()
    ensures freeze_to_copy { (x : ℕ) (flags : Flags) (type : Llt) → IsSoundRewrite x (freeze_to_copy flags type) }
    ensures trunc_of_trunc { (x : ℕ) (flags more : Flags) (m w k : ℕ) → k ≤ m → IsSoundRewrite x (trunc_of_trunc flags more m w k) }
    ensures anyext_of_trunc_same { (x : ℕ) (flags more : Flags) (m k : ℕ) → m < k → IsSoundRewrite x (anyext_of_trunc_same flags more m k) }
    ensures anyext_of_trunc_narrower { (x : ℕ) (flags more : Flags) (m w k : ℕ) → m < k → k < w → IsSoundRewrite x (anyext_of_trunc_narrower flags more m w k) }
    ensures anyext_of_trunc_wider { (x : ℕ) (flags more : Flags) (m w k : ℕ) → m < w → w < k → IsSoundRewrite x (anyext_of_trunc_wider flags more m w k) }
    ensures zext_of_trunc_same { (x : ℕ) (flags more : Flags) (m k : ℕ) → m < k → IsSoundRewrite x (zext_of_trunc_same flags more m k) }
    ensures zext_of_trunc_narrower { (x : ℕ) (flags more : Flags) (m w k : ℕ) → m < k → k < w → IsSoundRewrite x (zext_of_trunc_narrower flags more m w k) }
    ensures zext_of_trunc_wider { (x : ℕ) (flags more : Flags) (m w k : ℕ) → m < w → w < k → IsSoundRewrite x (zext_of_trunc_wider flags more m w k) }
    ensures sext_of_trunc_same { (x : ℕ) (flags more : Flags) (m k : ℕ) → m < k → IsSoundRewrite x (sext_of_trunc_same flags more m k) }
    ensures sext_of_trunc_narrower { (x : ℕ) (flags more : Flags) (m w k : ℕ) → m < k → k < w → IsSoundRewrite x (sext_of_trunc_narrower flags more m w k) }
    ensures sext_of_trunc_wider { (x : ℕ) (flags more : Flags) (m w k : ℕ) → m < w → w < k → IsSoundRewrite x (sext_of_trunc_wider flags more m w k) }
    ensures unmerge_of_merge { (x : ℕ) (flags more : Flags) (width count : ℕ) → IsSoundRewrite x (unmerge_of_merge flags more width count) }
    ensures trunc_of_merge_same { (x : ℕ) (flags more : Flags) (width : ℕ) → IsSoundRewrite x (trunc_of_merge op.Copy flags more width width) }
    ensures trunc_of_merge_narrower { (x : ℕ) (flags more : Flags) (width n : ℕ) → n ≤ width → IsSoundRewrite x (trunc_of_merge op.GenericTruncate flags more width n) }
{}

/// Rules of the combiners.
pub fn combining_is_sound()
    ensures mul_to_shl { (x : ℕ) (flags more : Flags) (n k : ℕ) → k < n → IsSoundRewrite x (mul_to_shl flags more n k) }
    ensures sub_to_add { (x : ℕ) (flags more : Flags) (n c : ℕ) → c < 2 ^ n → IsSoundRewrite x (sub_to_add flags more n c) }
    ensures udiv_to_lshr { (x : ℕ) (flags more : Flags) (n k : ℕ) → k < n → IsSoundRewrite x (udiv_to_lshr flags more n k) }
    ensures urem_to_mask { (x : ℕ) (flags more : Flags) (n k : ℕ) → IsSoundRewrite x (urem_to_mask flags more n k) }
    ensures add_zero { (x : ℕ) (flags more : Flags) (n : ℕ) → IsSoundRewrite x (right_identity op.GenericAdd flags more n 0) }
    ensures sub_zero { (x : ℕ) (flags more : Flags) (n : ℕ) → IsSoundRewrite x (right_identity op.GenericSubtract flags more n 0) }
    ensures or_zero { (x : ℕ) (flags more : Flags) (n : ℕ) → IsSoundRewrite x (right_identity op.GenericOr flags more n 0) }
    ensures xor_zero { (x : ℕ) (flags more : Flags) (n : ℕ) → IsSoundRewrite x (right_identity op.GenericXor flags more n 0) }
    ensures shl_zero { (x : ℕ) (flags more : Flags) (n : ℕ) → 1 ≤ n → IsSoundRewrite x (right_identity op.GenericShiftLeft flags more n 0) }
    ensures lshr_zero { (x : ℕ) (flags more : Flags) (n : ℕ) → 1 ≤ n → IsSoundRewrite x (right_identity op.GenericLogicalShiftRight flags more n 0) }
    ensures ashr_zero { (x : ℕ) (flags more : Flags) (n : ℕ) → 1 ≤ n → IsSoundRewrite x (right_identity op.GenericArithmeticShiftRight flags more n 0) }
    ensures mul_one { (x : ℕ) (flags more : Flags) (n : ℕ) → IsSoundRewrite x (right_identity op.GenericMultiply flags more n 1) }
    ensures udiv_one { (x : ℕ) (flags more : Flags) (n : ℕ) → IsSoundRewrite x (right_identity op.GenericUnsignedDivide flags more n 1) }
    ensures sdiv_one { (x : ℕ) (flags more : Flags) (n : ℕ) → 2 ≤ n → IsSoundRewrite x (right_identity op.GenericSignedDivide flags more n 1) }
    ensures pointer_identity { (x : ℕ) (flags more : Flags) → IsSoundRewrite x (pointer_identity flags more x) }
    ensures sub_same { (x : ℕ) (flags : Flags) (n : ℕ) → IsSoundRewrite x (same_to_zero op.GenericSubtract flags n) }
    ensures xor_same { (x : ℕ) (flags : Flags) (n : ℕ) → IsSoundRewrite x (same_to_zero op.GenericXor flags n) }
    ensures cut_anyext { (x : ℕ) (flags more : Flags) (n m : ℕ) → n < m → IsSoundRewrite x (cut_extension op.GenericAnyExtend flags more n m) }
    ensures cut_zext { (x : ℕ) (flags more : Flags) (n m : ℕ) → n < m → IsSoundRewrite x (cut_extension op.GenericZeroExtend flags more n m) }
    ensures cut_sext { (x : ℕ) (flags more : Flags) (n m : ℕ) → 1 ≤ n → n < m → IsSoundRewrite x (cut_extension op.GenericSignExtend flags more n m) }
    ensures mul_zero { (x : ℕ) (flags more : Flags) (n : ℕ) → IsSoundRewrite x (binop_to_zero op.GenericMultiply flags more n) }
    ensures and_zero { (x : ℕ) (flags more : Flags) (n : ℕ) → IsSoundRewrite x (binop_to_zero op.GenericAnd flags more n) }
    ensures and_same { (x : ℕ) (flags : Flags) (n : ℕ) → IsSoundRewrite x (binop_same op.GenericAnd flags n) }
    ensures or_same { (x : ℕ) (flags : Flags) (n : ℕ) → IsSoundRewrite x (binop_same op.GenericOr flags n) }
    ensures select_same { (x : ℕ) (flags : Flags) (c : ℕ) (type : Llt) → IsSoundRewrite x (select_same flags c type) }
    ensures select_constant { (x : ℕ) (flags more : Flags) (c value : ℕ) (type : Llt) → IsSoundRewrite x (select_constant flags more c value type) }
    ensures icmp_and_one { (x : ℕ) (flags more other : Flags) (pred : Pred) (type : Llt) (n : ℕ) → IsSoundRewrite x (icmp_and_one flags more other pred type n) }
    ensures fold_trunc { (x : ℕ) (flags more : Flags) (m c n : ℕ) → IsSoundRewrite x (constant_fold_cast op.GenericTruncate flags more m c n (wrapped n c)) }
    ensures fold_zext { (x : ℕ) (flags more : Flags) (m c n : ℕ) → m < n → IsSoundRewrite x (constant_fold_cast op.GenericZeroExtend flags more m c n c) }
    ensures fold_sext { (x : ℕ) (flags more : Flags) (m c n : ℕ) → IsSoundRewrite x (constant_fold_cast op.GenericSignExtend flags more m c n (sign_extended m n c)) }
    ensures fold_anyext { (x : ℕ) (flags more : Flags) (m c n : ℕ) → 1 ≤ m → m < n → IsSoundRewrite x (constant_fold_cast op.GenericAnyExtend flags more m c n (sign_extended m n c)) }
    ensures constant_fold { (x : ℕ) (root : Opcode) (flags first second : Flags) (l a m b n value : ℕ) (gives : List ℕ → List Argument → Given) → meaning_of flags root ≡ Generic gives → gives (n ∷ []) (Value l a ∷ Value m b ∷ []) ≡ one value → IsSoundRewrite x (constant_fold root flags first second l a m b n value) }
{}

/// Rules of the legaliser that widen.
pub fn widening_is_sound()
    ensures widen_add { (x : ℕ) (flags : Flags) (n w : ℕ) → n < w → IsSoundRewrite x (widen_add flags n w) }
    ensures widen_lshr { (x : ℕ) (flags : Flags) (n w : ℕ) → n < w → IsSoundRewrite x (widen_lshr flags n w) }
    ensures widen_sdiv { (x : ℕ) (flags : Flags) (n w : ℕ) → 1 ≤ n → n < w → IsSoundRewrite x (widen_sdiv flags n w) }
    ensures widen_constant { (x : ℕ) (flags : Flags) (n w value : ℕ) → 1 ≤ n → n < w → value < 2 ^ n → IsSoundRewrite x (widen_constant flags n w value) }
    ensures widen_sub { (x : ℕ) (flags : Flags) (n w : ℕ) → n < w → IsSoundRewrite x (widen_sub flags n w) }
    ensures widen_mul { (x : ℕ) (flags : Flags) (n w : ℕ) → n < w → IsSoundRewrite x (widen_mul flags n w) }
    ensures widen_and { (x : ℕ) (flags : Flags) (n w : ℕ) → n < w → IsSoundRewrite x (widen_and flags n w) }
    ensures widen_or { (x : ℕ) (flags : Flags) (n w : ℕ) → n < w → IsSoundRewrite x (widen_or flags n w) }
    ensures widen_xor { (x : ℕ) (flags : Flags) (n w : ℕ) → n < w → IsSoundRewrite x (widen_xor flags n w) }
    ensures widen_shl { (x : ℕ) (flags : Flags) (n w : ℕ) → n < w → IsSoundRewrite x (widen_shl flags n w) }
    ensures widen_ashr { (x : ℕ) (flags : Flags) (n w : ℕ) → 1 ≤ n → n < w → IsSoundRewrite x (widen_ashr flags n w) }
    ensures widen_udiv { (x : ℕ) (flags : Flags) (n w : ℕ) → n < w → IsSoundRewrite x (widen_udiv flags n w) }
    ensures widen_urem { (x : ℕ) (flags : Flags) (n w : ℕ) → n < w → IsSoundRewrite x (widen_urem flags n w) }
    ensures widen_srem { (x : ℕ) (flags : Flags) (n w : ℕ) → 1 ≤ n → n < w → IsSoundRewrite x (widen_srem flags n w) }
    ensures widen_ctpop { (x : ℕ) (flags : Flags) (n w : ℕ) → n < w → IsSoundRewrite x (widen_ctpop flags n w) }
    ensures widen_sext_inreg { (x : ℕ) (flags : Flags) (n w k : ℕ) → k ≤ n → n < w → IsSoundRewrite x (widen_sext_inreg flags n w k) }
    ensures widen_select { (x : ℕ) (flags : Flags) (c n w : ℕ) → n < w → IsSoundRewrite x (widen_select flags c n w) }
    ensures widen_condition { (x : ℕ) (flags : Flags) (type : Llt) → IsSoundRewrite x (widen_condition flags x type) }
    ensures widen_icmp_result { (x : ℕ) (flags : Flags) (pred : Pred) (type : Llt) → IsSoundRewrite x (widen_icmp_result flags pred type x) }
    ensures widen_icmp { (x : ℕ) (flags : Flags) (pred : Pred) (n w k : ℕ) → 1 ≤ n → n < w → IsSoundRewrite x (widen_icmp flags pred n w k) }
    ensures widen_anyext { (x : ℕ) (flags : Flags) (m k w : ℕ) → m < k → k < w → IsSoundRewrite x (widen_cast op.GenericAnyExtend flags m k w) }
    ensures widen_zext { (x : ℕ) (flags : Flags) (m k w : ℕ) → m < k → k < w → IsSoundRewrite x (widen_cast op.GenericZeroExtend flags m k w) }
    ensures widen_sext { (x : ℕ) (flags : Flags) (m k w : ℕ) → m < k → k < w → IsSoundRewrite x (widen_cast op.GenericSignExtend flags m k w) }
    ensures widen_implicit_def { (x : ℕ) (flags : Flags) (n w : ℕ) → IsSoundRewrite x (widen_implicit_def flags n w) }
{}

/// Rules of the legaliser that make an operation of others.
pub fn lowering_is_sound()
    ensures lower_uadde { (x : ℕ) (flags : Flags) (n : ℕ) → 1 ≤ n → IsSoundRewrite x (lower_uadde flags n) }
    ensures lower_abs { (x : ℕ) (flags : Flags) (n : ℕ) → 1 ≤ n → IsSoundRewrite x (lower_abs flags n) }
    ensures narrow_and { (x : ℕ) (flags : Flags) → IsSoundRewrite x (narrow_logic op.GenericAnd flags x) }
    ensures narrow_or { (x : ℕ) (flags : Flags) → IsSoundRewrite x (narrow_logic op.GenericOr flags x) }
    ensures narrow_xor { (x : ℕ) (flags : Flags) → IsSoundRewrite x (narrow_logic op.GenericXor flags x) }
    ensures lower_bswap_32 { (x : ℕ) (flags : Flags) → IsSoundRewrite x (lower_bswap_32 flags) }
    ensures lower_bswap_64 { (x : ℕ) (flags : Flags) → IsSoundRewrite x (lower_bswap_64 flags) }
    ensures lower_ctpop_32 { (x : ℕ) (flags : Flags) → IsSoundRewrite x (lower_ctpop_32 flags) }
    ensures lower_ctpop_64 { (x : ℕ) (flags : Flags) → IsSoundRewrite x (lower_ctpop_64 flags) }
    ensures lower_merge { (x : ℕ) (flags : Flags) (width further : ℕ) → 1 ≤ width → IsSoundRewrite x (lower_merge flags width further) }
    ensures lower_uaddo { (x : ℕ) (flags : Flags) (n : ℕ) → IsSoundRewrite x (lower_uaddo flags n) }
    ensures lower_usubo { (x : ℕ) (flags : Flags) (n : ℕ) → IsSoundRewrite x (lower_usubo flags n) }
    ensures lower_usube { (x : ℕ) (flags : Flags) (n : ℕ) → 1 ≤ n → IsSoundRewrite x (lower_usube flags n) }
    ensures lower_smin { (x : ℕ) (flags : Flags) (n : ℕ) → IsSoundRewrite x (lower_better op.GenericSignedMinimum Slt flags x n) }
    ensures lower_smax { (x : ℕ) (flags : Flags) (n : ℕ) → IsSoundRewrite x (lower_better op.GenericSignedMaximum Sgt flags x n) }
    ensures lower_umin { (x : ℕ) (flags : Flags) (n : ℕ) → IsSoundRewrite x (lower_better op.GenericUnsignedMinimum Ult flags x n) }
    ensures lower_umax { (x : ℕ) (flags : Flags) (n : ℕ) → IsSoundRewrite x (lower_better op.GenericUnsignedMaximum Ugt flags x n) }
    ensures lower_rotl { (x : ℕ) (flags : Flags) (n : ℕ) → IsSoundRewrite x (lower_rotate op.GenericRotateLeft op.GenericFunnelShiftLeft flags n) }
    ensures lower_rotr { (x : ℕ) (flags : Flags) (n : ℕ) → IsSoundRewrite x (lower_rotate op.GenericRotateRight op.GenericFunnelShiftRight flags n) }
    ensures lower_ctlz_zero_undef { (x : ℕ) (flags : Flags) (n : ℕ) → IsSoundRewrite x (lower_zero_undef op.GenericCountLeadingZerosNotOfZero op.GenericCountLeadingZeros flags n) }
    ensures lower_cttz_zero_undef { (x : ℕ) (flags : Flags) (n : ℕ) → IsSoundRewrite x (lower_zero_undef op.GenericCountTrailingZerosNotOfZero op.GenericCountTrailingZeros flags n) }
    ensures lower_sext_inreg { (x : ℕ) (flags : Flags) (k : ℕ) → 1 ≤ k → k ≤ x → IsSoundRewrite x (lower_sext_inreg flags x k) }
    ensures lower_unmerge { (x : ℕ) (flags : Flags) (width further : ℕ) → 1 ≤ width → IsSoundRewrite x (lower_unmerge flags width further) }
    ensures narrow_add { (x : ℕ) (flags : Flags) → IsSoundRewrite x (narrow_add flags x) }
    ensures narrow_sub { (x : ℕ) (flags : Flags) → IsSoundRewrite x (narrow_sub flags x) }
    ensures narrow_select { (x : ℕ) (flags : Flags) (c : ℕ) → IsSoundRewrite x (narrow_select flags c x) }
    ensures narrow_zext { (x : ℕ) (flags : Flags) → 1 ≤ x → IsSoundRewrite x (narrow_zext flags x) }
    ensures narrow_anyext { (x : ℕ) (flags : Flags) → 1 ≤ x → IsSoundRewrite x (narrow_anyext flags x) }
    ensures narrow_implicit_def { (x : ℕ) (flags : Flags) → IsSoundRewrite x (narrow_implicit_def flags x) }
    ensures narrow_constant { (x : ℕ) (flags : Flags) (value : ℕ) → value < 2 ^ (2 * x) → IsSoundRewrite x (narrow_constant flags x value) }
    ensures narrow_bswap { (x : ℕ) (flags : Flags) → IsSoundRewrite x (narrow_bswap flags 32) }
{}

/// Rows of the selector.
pub fn selecting_is_sound()
    ensures select_icmp_ule { (x : ℕ) (flags : Flags) → 0 < x → IsSoundRewrite x (select_icmp_ule flags x) }
    ensures select_zext { (flags : Flags) → IsSoundRewrite 64 (select_zext flags) }
    ensures select_addi { (x : ℕ) (flags more : Flags) (i : ℤ) → is_immediate i ≡ true → IsSoundRewrite x (select_addi flags more x i) }
    ensures select_select { (x : ℕ) (flags : Flags) (type : Llt) → width_of x type ≡ x → IsSoundRewrite x (select_select flags x type) }
    ensures materialize_constant { (x : ℕ) (flags : Flags) (type : Llt) (value : ℕ) → (x ≡ 32) ⊎ (x ≡ 64) → width_of x type ≡ x → value < 2 ^ x → IsSoundRewrite x (materialize_constant flags x type value) }
    ensures select_add { (x : ℕ) (flags : Flags) → IsSoundRewrite x (select_two op.GenericAdd op.Add flags x) }
    ensures select_add_half { (flags : Flags) → IsSoundRewrite 64 (select_two op.GenericAdd op.AddWord flags 32) }
    ensures select_sub { (x : ℕ) (flags : Flags) → IsSoundRewrite x (select_two op.GenericSubtract op.Subtract flags x) }
    ensures select_sub_half { (flags : Flags) → IsSoundRewrite 64 (select_two op.GenericSubtract op.SubtractWord flags 32) }
    ensures select_mul { (x : ℕ) (flags : Flags) → IsSoundRewrite x (select_two op.GenericMultiply op.Multiply flags x) }
    ensures select_mul_half { (flags : Flags) → IsSoundRewrite 64 (select_two op.GenericMultiply op.MultiplyWord flags 32) }
    ensures select_shl { (x : ℕ) (flags : Flags) → IsSoundRewrite x (select_two op.GenericShiftLeft op.ShiftLeftLogical flags x) }
    ensures select_shl_half { (flags : Flags) → IsSoundRewrite 64 (select_two op.GenericShiftLeft op.ShiftLeftLogicalWord flags 32) }
    ensures select_lshr { (x : ℕ) (flags : Flags) → IsSoundRewrite x (select_two op.GenericLogicalShiftRight op.ShiftRightLogical flags x) }
    ensures select_lshr_half { (flags : Flags) → IsSoundRewrite 64 (select_two op.GenericLogicalShiftRight op.ShiftRightLogicalWord flags 32) }
    ensures select_ashr { (x : ℕ) (flags : Flags) → IsSoundRewrite x (select_two op.GenericArithmeticShiftRight op.ShiftRightArithmetic flags x) }
    ensures select_ashr_half { (flags : Flags) → IsSoundRewrite 64 (select_two op.GenericArithmeticShiftRight op.ShiftRightArithmeticWord flags 32) }
    ensures select_udiv { (x : ℕ) (flags : Flags) → IsSoundRewrite x (select_two op.GenericUnsignedDivide op.DivideUnsigned flags x) }
    ensures select_udiv_half { (flags : Flags) → IsSoundRewrite 64 (select_two op.GenericUnsignedDivide op.DivideUnsignedWord flags 32) }
    ensures select_sdiv { (x : ℕ) (flags : Flags) → IsSoundRewrite x (select_two op.GenericSignedDivide op.Divide flags x) }
    ensures select_sdiv_half { (flags : Flags) → IsSoundRewrite 64 (select_two op.GenericSignedDivide op.DivideWord flags 32) }
    ensures select_urem { (x : ℕ) (flags : Flags) → IsSoundRewrite x (select_two op.GenericUnsignedRemainder op.RemainderUnsigned flags x) }
    ensures select_urem_half { (flags : Flags) → IsSoundRewrite 64 (select_two op.GenericUnsignedRemainder op.RemainderUnsignedWord flags 32) }
    ensures select_srem { (x : ℕ) (flags : Flags) → IsSoundRewrite x (select_two op.GenericSignedRemainder op.Remainder flags x) }
    ensures select_srem_half { (flags : Flags) → IsSoundRewrite 64 (select_two op.GenericSignedRemainder op.RemainderWord flags 32) }
    ensures select_and { (x : ℕ) (flags : Flags) → IsSoundRewrite x (select_two op.GenericAnd op.And flags x) }
    ensures select_or { (x : ℕ) (flags : Flags) → IsSoundRewrite x (select_two op.GenericOr op.Or flags x) }
    ensures select_xor { (x : ℕ) (flags : Flags) → IsSoundRewrite x (select_two op.GenericXor op.Xor flags x) }
    ensures select_umulh { (x : ℕ) (flags : Flags) → IsSoundRewrite x (select_two op.GenericUnsignedMultiplyHigh op.MultiplyHighUnsigned flags x) }
    ensures select_smulh { (x : ℕ) (flags : Flags) → IsSoundRewrite x (select_two op.GenericSignedMultiplyHigh op.MultiplyHigh flags x) }
    ensures select_ptr_add { (x : ℕ) (flags : Flags) → IsSoundRewrite x (select_ptr_add flags x) }
    ensures select_andi { (x : ℕ) (flags more : Flags) (i : ℤ) → is_immediate i ≡ true → IsSoundRewrite x (select_number op.GenericAnd op.AndImmediate flags more x i) }
    ensures select_xori { (x : ℕ) (flags more : Flags) (i : ℤ) → is_immediate i ≡ true → IsSoundRewrite x (select_number op.GenericXor op.XorImmediate flags more x i) }
    ensures select_ori { (x : ℕ) (flags more : Flags) (i : ℤ) → is_immediate i ≡ true → IsSoundRewrite x (select_number op.GenericOr op.OrImmediate flags more x i) }
    ensures select_addiw { (flags more : Flags) (i : ℤ) → is_immediate i ≡ true → IsSoundRewrite 64 (select_number op.GenericAdd op.AddImmediateWord flags more 32 i) }
    ensures select_shl_by { (x : ℕ) (flags more : Flags) (k : ℕ) → k < x → IsSoundRewrite x (select_shift op.GenericShiftLeft op.ShiftLeftLogicalImmediate flags more x k) }
    ensures select_shl_half_by { (flags more : Flags) (k : ℕ) → k < 32 → IsSoundRewrite 64 (select_shift op.GenericShiftLeft op.ShiftLeftLogicalImmediateWord flags more 32 k) }
    ensures select_lshr_by { (x : ℕ) (flags more : Flags) (k : ℕ) → k < x → IsSoundRewrite x (select_shift op.GenericLogicalShiftRight op.ShiftRightLogicalImmediate flags more x k) }
    ensures select_lshr_half_by { (flags more : Flags) (k : ℕ) → k < 32 → IsSoundRewrite 64 (select_shift op.GenericLogicalShiftRight op.ShiftRightLogicalImmediateWord flags more 32 k) }
    ensures select_ashr_by { (x : ℕ) (flags more : Flags) (k : ℕ) → k < x → IsSoundRewrite x (select_shift op.GenericArithmeticShiftRight op.ShiftRightArithmeticImmediate flags more x k) }
    ensures select_ashr_half_by { (flags more : Flags) (k : ℕ) → k < 32 → IsSoundRewrite 64 (select_shift op.GenericArithmeticShiftRight op.ShiftRightArithmeticImmediateWord flags more 32 k) }
    ensures select_icmp_ult { (x : ℕ) (flags : Flags) → IsSoundRewrite x (select_below Ult op.SetLessUnsigned flags x) }
    ensures select_icmp_slt { (x : ℕ) (flags : Flags) → IsSoundRewrite x (select_below Slt op.SetLess flags x) }
    ensures select_icmp_ugt { (x : ℕ) (flags : Flags) → IsSoundRewrite x (select_above Ugt op.SetLessUnsigned flags x) }
    ensures select_icmp_sgt { (x : ℕ) (flags : Flags) → IsSoundRewrite x (select_above Sgt op.SetLess flags x) }
    ensures select_icmp_uge { (x : ℕ) (flags : Flags) → 0 < x → IsSoundRewrite x (select_not_below Uge op.SetLessUnsigned flags x) }
    ensures select_icmp_sge { (x : ℕ) (flags : Flags) → 0 < x → IsSoundRewrite x (select_not_below Sge op.SetLess flags x) }
    ensures select_icmp_sle { (x : ℕ) (flags : Flags) → 0 < x → IsSoundRewrite x (select_not_above Sle op.SetLess flags x) }
    ensures select_icmp_eq { (x : ℕ) (flags : Flags) → 0 < x → IsSoundRewrite x (select_icmp_eq flags x) }
    ensures select_icmp_ne { (x : ℕ) (flags : Flags) → IsSoundRewrite x (select_icmp_ne flags x) }
    ensures select_eq_zero { (x : ℕ) (flags more : Flags) → 0 < x → IsSoundRewrite x (select_eq_zero flags more x) }
    ensures select_ne_zero { (x : ℕ) (flags more : Flags) → IsSoundRewrite x (select_ne_zero flags more x) }
    ensures select_sltiu { (x : ℕ) (flags more : Flags) (i : ℤ) → is_immediate i ≡ true → IsSoundRewrite x (select_below_number Ult op.SetLessImmediateUnsigned flags more x i) }
    ensures select_slti { (x : ℕ) (flags more : Flags) (i : ℤ) → is_immediate i ≡ true → IsSoundRewrite x (select_below_number Slt op.SetLessImmediate flags more x i) }
    ensures select_trunc { (x : ℕ) (flags : Flags) (m n : ℕ) → n < m → IsSoundRewrite x (select_copy op.GenericTruncate flags (s m) (s n)) }
    ensures select_anyext { (x : ℕ) (flags : Flags) (m n : ℕ) → m < n → IsSoundRewrite x (select_copy op.GenericAnyExtend flags (s m) (s n)) }
    ensures select_ptrtoint { (x : ℕ) (flags : Flags) → IsSoundRewrite x (select_copy op.GenericPointerToInteger flags Pointer (s x)) }
    ensures select_inttoptr { (x : ℕ) (flags : Flags) → IsSoundRewrite x (select_copy op.GenericIntegerToPointer flags (s x) Pointer) }
    ensures select_sext { (flags : Flags) → IsSoundRewrite 64 (select_sext flags) }
    ensures select_sext_inreg { (flags : Flags) → IsSoundRewrite 64 (select_sext_inreg flags) }
    ensures select_implicit_def { (x : ℕ) (flags : Flags) (type : Llt) → IsSoundRewrite x (select_implicit_def flags type) }
{}

/// What is made, run on numbers, gives what the root gives there: with all free bits set.
pub fn artifacts_runs()
    ensures freeze_to_copy { ran 32 (freeze_to_copy no_flags (s 8)) (200 ∷ []) ≡ Some (200 ∷ []) }
    ensures trunc_of_trunc { ran 64 (trunc_of_trunc no_flags no_flags 24 64 8) (84281 ∷ 4295051577 ∷ []) ≡ Some (57 ∷ []) }
    ensures anyext_of_trunc_same { ran 64 (anyext_of_trunc_same no_flags no_flags 8 32) (57 ∷ 84281 ∷ []) ≡ Some (84281 ∷ []) }
    ensures anyext_of_trunc_narrower { ran 64 (anyext_of_trunc_narrower no_flags no_flags 8 64 32) (57 ∷ 4295051577 ∷ []) ≡ Some (84281 ∷ []) }
    ensures anyext_of_trunc_wider { ran 64 (anyext_of_trunc_wider no_flags no_flags 8 32 64) (57 ∷ 84281 ∷ []) ≡ Some (18446744069414668601 ∷ []) }
    ensures zext_of_trunc_same { ran 64 (zext_of_trunc_same no_flags no_flags 8 32) (57 ∷ 84281 ∷ []) ≡ Some (57 ∷ []) }
    ensures zext_of_trunc_narrower { ran 64 (zext_of_trunc_narrower no_flags no_flags 8 64 32) (57 ∷ 4295051577 ∷ []) ≡ Some (57 ∷ []) }
    ensures zext_of_trunc_wider { ran 64 (zext_of_trunc_wider no_flags no_flags 8 32 64) (57 ∷ 84281 ∷ []) ≡ Some (57 ∷ []) }
    ensures sext_of_trunc_same { ran 64 (sext_of_trunc_same no_flags no_flags 8 32) (200 ∷ 84424 ∷ []) ≡ Some (4294967240 ∷ []) }
    ensures sext_of_trunc_narrower { ran 64 (sext_of_trunc_narrower no_flags no_flags 8 64 32) (200 ∷ 4295051720 ∷ []) ≡ Some (4294967240 ∷ []) }
    ensures sext_of_trunc_wider { ran 64 (sext_of_trunc_wider no_flags no_flags 8 32 64) (200 ∷ 84424 ∷ []) ≡ Some (18446744073709551560 ∷ []) }
    ensures unmerge_of_merge { ran 32 (unmerge_of_merge no_flags no_flags 8 3) (197121 ∷ 1 ∷ 2 ∷ 3 ∷ []) ≡ Some (1 ∷ 2 ∷ 3 ∷ []) }
    ensures trunc_of_merge_same { ran 32 (trunc_of_merge op.Copy no_flags no_flags 16 16) (305419896 ∷ 22136 ∷ 4660 ∷ []) ≡ Some (22136 ∷ []) }
    ensures trunc_of_merge_narrower { ran 32 (trunc_of_merge op.GenericTruncate no_flags no_flags 16 8) (305419896 ∷ 22136 ∷ 4660 ∷ []) ≡ Some (120 ∷ []) }
{}

/// What is made, run on numbers, gives what the root gives there: with all free bits set.
pub fn combining_runs()
    ensures mul_to_shl { ran 32 (mul_to_shl no_flags no_flags 8 3) (45 ∷ 8 ∷ []) ≡ Some (104 ∷ []) }
    ensures sub_to_add { ran 32 (sub_to_add no_flags no_flags 8 5) (3 ∷ 5 ∷ []) ≡ Some (254 ∷ []) }
    ensures udiv_to_lshr { ran 32 (udiv_to_lshr no_flags no_flags 8 3) (205 ∷ 8 ∷ []) ≡ Some (25 ∷ []) }
    ensures urem_to_mask { ran 32 (urem_to_mask no_flags no_flags 8 3) (205 ∷ 8 ∷ []) ≡ Some (5 ∷ []) }
    ensures add_zero { ran 32 (right_identity op.GenericAdd no_flags no_flags 8 0) (200 ∷ 0 ∷ []) ≡ Some (200 ∷ []) }
    ensures sub_zero { ran 32 (right_identity op.GenericSubtract no_flags no_flags 8 0) (200 ∷ 0 ∷ []) ≡ Some (200 ∷ []) }
    ensures or_zero { ran 32 (right_identity op.GenericOr no_flags no_flags 8 0) (200 ∷ 0 ∷ []) ≡ Some (200 ∷ []) }
    ensures xor_zero { ran 32 (right_identity op.GenericXor no_flags no_flags 8 0) (200 ∷ 0 ∷ []) ≡ Some (200 ∷ []) }
    ensures shl_zero { ran 32 (right_identity op.GenericShiftLeft no_flags no_flags 8 0) (200 ∷ 0 ∷ []) ≡ Some (200 ∷ []) }
    ensures lshr_zero { ran 32 (right_identity op.GenericLogicalShiftRight no_flags no_flags 8 0) (200 ∷ 0 ∷ []) ≡ Some (200 ∷ []) }
    ensures ashr_zero { ran 32 (right_identity op.GenericArithmeticShiftRight no_flags no_flags 8 0) (200 ∷ 0 ∷ []) ≡ Some (200 ∷ []) }
    ensures mul_one { ran 32 (right_identity op.GenericMultiply no_flags no_flags 8 1) (200 ∷ 1 ∷ []) ≡ Some (200 ∷ []) }
    ensures udiv_one { ran 32 (right_identity op.GenericUnsignedDivide no_flags no_flags 8 1) (200 ∷ 1 ∷ []) ≡ Some (200 ∷ []) }
    ensures sdiv_one { ran 32 (right_identity op.GenericSignedDivide no_flags no_flags 8 1) (200 ∷ 1 ∷ []) ≡ Some (200 ∷ []) }
    ensures pointer_identity { ran 32 (pointer_identity no_flags no_flags 32) (4096 ∷ 0 ∷ []) ≡ Some (4096 ∷ []) }
    ensures sub_same { ran 32 (same_to_zero op.GenericSubtract no_flags 8) (200 ∷ []) ≡ Some (0 ∷ []) }
    ensures xor_same { ran 32 (same_to_zero op.GenericXor no_flags 8) (200 ∷ []) ≡ Some (0 ∷ []) }
    ensures cut_anyext { ran 32 (cut_extension op.GenericAnyExtend no_flags no_flags 8 32) (200 ∷ 4000000200 ∷ []) ≡ Some (200 ∷ []) }
    ensures cut_zext { ran 32 (cut_extension op.GenericZeroExtend no_flags no_flags 8 32) (200 ∷ 200 ∷ []) ≡ Some (200 ∷ []) }
    ensures cut_sext { ran 32 (cut_extension op.GenericSignExtend no_flags no_flags 8 32) (200 ∷ 4294967240 ∷ []) ≡ Some (200 ∷ []) }
    ensures mul_zero { ran 32 (binop_to_zero op.GenericMultiply no_flags no_flags 8) (200 ∷ 0 ∷ []) ≡ Some (0 ∷ []) }
    ensures and_zero { ran 32 (binop_to_zero op.GenericAnd no_flags no_flags 8) (200 ∷ 0 ∷ []) ≡ Some (0 ∷ []) }
    ensures and_same { ran 32 (binop_same op.GenericAnd no_flags 8) (200 ∷ []) ≡ Some (200 ∷ []) }
    ensures or_same { ran 32 (binop_same op.GenericOr no_flags 8) (200 ∷ []) ≡ Some (200 ∷ []) }
    ensures select_same { ran 32 (select_same no_flags 1 (s 8)) (1 ∷ 200 ∷ []) ≡ Some (200 ∷ []) }
    ensures select_constant { ran 32 (select_constant no_flags no_flags 1 0 (s 8)) (0 ∷ 200 ∷ 100 ∷ []) ≡ Some (100 ∷ []) }
    ensures select_constant_other { ran 32 (select_constant no_flags no_flags 1 1 (s 8)) (1 ∷ 200 ∷ 100 ∷ []) ≡ Some (200 ∷ []) }
    ensures icmp_and_one { ran 32 (icmp_and_one no_flags no_flags no_flags Ult (s 8) 32) (1 ∷ 1 ∷ 100 ∷ 200 ∷ []) ≡ Some (1 ∷ []) }
    ensures fold_trunc { ran 32 (constant_fold_cast op.GenericTruncate no_flags no_flags 16 968 8 200) (968 ∷ []) ≡ Some (200 ∷ []) }
    ensures fold_zext { ran 32 (constant_fold_cast op.GenericZeroExtend no_flags no_flags 8 200 16 200) (200 ∷ []) ≡ Some (200 ∷ []) }
    ensures fold_sext { ran 32 (constant_fold_cast op.GenericSignExtend no_flags no_flags 8 200 16 65480) (200 ∷ []) ≡ Some (65480 ∷ []) }
    ensures fold_anyext { ran 32 (constant_fold_cast op.GenericAnyExtend no_flags no_flags 8 200 16 65480) (200 ∷ []) ≡ Some (65480 ∷ []) }
    ensures constant_fold { ran 32 (constant_fold op.GenericAdd no_flags no_flags no_flags 8 200 8 100 8 44) (200 ∷ 100 ∷ []) ≡ Some (44 ∷ []) }
{}

/// What is made, run on numbers, gives what the root gives there: with all free bits set.
pub fn widening_runs()
    ensures widen_add { ran 32 (widen_add no_flags 8 32) (200 ∷ 100 ∷ []) ≡ Some (44 ∷ []) }
    ensures widen_lshr { ran 32 (widen_lshr no_flags 8 32) (200 ∷ 3 ∷ []) ≡ Some (25 ∷ []) }
    ensures widen_sdiv { ran 32 (widen_sdiv no_flags 8 32) (200 ∷ 3 ∷ []) ≡ Some (238 ∷ []) }
    ensures widen_constant { ran 32 (widen_constant no_flags 8 32 200) [] ≡ Some (200 ∷ []) }
    ensures widen_sub { ran 32 (widen_sub no_flags 8 32) (3 ∷ 5 ∷ []) ≡ Some (254 ∷ []) }
    ensures widen_mul { ran 32 (widen_mul no_flags 8 32) (45 ∷ 8 ∷ []) ≡ Some (104 ∷ []) }
    ensures widen_and { ran 32 (widen_and no_flags 8 32) (202 ∷ 108 ∷ []) ≡ Some (72 ∷ []) }
    ensures widen_or { ran 32 (widen_or no_flags 8 32) (202 ∷ 108 ∷ []) ≡ Some (238 ∷ []) }
    ensures widen_xor { ran 32 (widen_xor no_flags 8 32) (202 ∷ 108 ∷ []) ≡ Some (166 ∷ []) }
    ensures widen_shl { ran 32 (widen_shl no_flags 8 32) (200 ∷ 3 ∷ []) ≡ Some (64 ∷ []) }
    ensures widen_ashr { ran 32 (widen_ashr no_flags 8 32) (200 ∷ 3 ∷ []) ≡ Some (249 ∷ []) }
    ensures widen_udiv { ran 32 (widen_udiv no_flags 8 32) (200 ∷ 3 ∷ []) ≡ Some (66 ∷ []) }
    ensures widen_urem { ran 32 (widen_urem no_flags 8 32) (200 ∷ 3 ∷ []) ≡ Some (2 ∷ []) }
    ensures widen_srem { ran 32 (widen_srem no_flags 8 32) (200 ∷ 3 ∷ []) ≡ Some (254 ∷ []) }
    ensures widen_ctpop { ran 32 (widen_ctpop no_flags 8 32) (202 ∷ []) ≡ Some (4 ∷ []) }
    ensures widen_sext_inreg { ran 32 (widen_sext_inreg no_flags 16 32 8) (968 ∷ []) ≡ Some (65480 ∷ []) }
    ensures widen_select { ran 32 (widen_select no_flags 1 8 32) (1 ∷ 200 ∷ 100 ∷ []) ≡ Some (200 ∷ []) }
    ensures widen_condition { ran 32 (widen_condition no_flags 32 (s 8)) (0 ∷ 200 ∷ 100 ∷ []) ≡ Some (100 ∷ []) }
    ensures widen_icmp_result { ran 32 (widen_icmp_result no_flags Ult (s 8) 32) (100 ∷ 200 ∷ []) ≡ Some (1 ∷ []) }
    ensures widen_icmp { ran 32 (widen_icmp no_flags Slt 8 32 1) (200 ∷ 100 ∷ []) ≡ Some (1 ∷ []) }
    ensures widen_icmp_unsigned { ran 32 (widen_icmp no_flags Ult 8 32 1) (200 ∷ 100 ∷ []) ≡ Some (0 ∷ []) }
    ensures widen_anyext { ran 32 (widen_cast op.GenericAnyExtend no_flags 8 16 32) (200 ∷ []) ≡ Some (65480 ∷ []) }
    ensures widen_zext { ran 32 (widen_cast op.GenericZeroExtend no_flags 8 16 32) (200 ∷ []) ≡ Some (200 ∷ []) }
    ensures widen_sext { ran 32 (widen_cast op.GenericSignExtend no_flags 8 16 32) (200 ∷ []) ≡ Some (65480 ∷ []) }
    ensures widen_implicit_def { ran 32 (widen_implicit_def no_flags 8 32) [] ≡ Some (255 ∷ []) }
{}

/// What is made, run on numbers, gives what the root gives there: with all free bits set.
pub fn lowering_runs()
    ensures lower_uadde { ran 32 (lower_uadde no_flags 8) (255 ∷ 0 ∷ 1 ∷ []) ≡ Some (0 ∷ 1 ∷ []) }
    ensures lower_abs { ran 32 (lower_abs no_flags 8) (200 ∷ []) ≡ Some (56 ∷ []) }
    ensures lower_abs_least { ran 32 (lower_abs no_flags 8) (128 ∷ []) ≡ Some (128 ∷ []) }
    ensures narrow_and { ran 64 (narrow_logic op.GenericAnd no_flags 64) (319014718988379809496913694467282698410 ∷ 41206067869332392060018018868690682054 ∷ []) ≡ Some (21267647932558653966460912964485513346 ∷ []) }
    ensures narrow_or { ran 64 (narrow_logic op.GenericOr no_flags 64) (319014718988379809496913694467282698410 ∷ 41206067869332392060018018868690682054 ∷ []) ≡ Some (338953138925153547590470800371487867118 ∷ []) }
    ensures narrow_xor { ran 64 (narrow_logic op.GenericXor no_flags 64) (319014718988379809496913694467282698410 ∷ 41206067869332392060018018868690682054 ∷ []) ≡ Some (317685490992594893624009887407002353772 ∷ []) }
    ensures lower_bswap_32 { ran 32 (lower_bswap_32 no_flags) (305419896 ∷ []) ≡ Some (2018915346 ∷ []) }
    ensures lower_bswap_64 { ran 64 (lower_bswap_64 no_flags) (81985529216486895 ∷ []) ≡ Some (17279655951921914625 ∷ []) }
    ensures lower_ctpop_32 { ran 32 (lower_ctpop_32 no_flags) (4027519540 ∷ []) ≡ Some (13 ∷ []) }
    ensures lower_ctpop_32_all { ran 32 (lower_ctpop_32 no_flags) (4294967295 ∷ []) ≡ Some (32 ∷ []) }
    ensures lower_ctpop_64 { ran 64 (lower_ctpop_64 no_flags) (17298064712328483380 ∷ []) ≡ Some (26 ∷ []) }
    ensures lower_ctpop_64_all { ran 64 (lower_ctpop_64 no_flags) (18446744073709551615 ∷ []) ≡ Some (64 ∷ []) }
    ensures lower_merge { ran 64 (lower_merge no_flags 16 3) (1 ∷ 2 ∷ 3 ∷ 4 ∷ []) ≡ Some (1125912791875585 ∷ []) }
    ensures lower_uaddo { ran 32 (lower_uaddo no_flags 8) (200 ∷ 100 ∷ []) ≡ Some (44 ∷ 1 ∷ []) }
    ensures lower_usubo { ran 32 (lower_usubo no_flags 8) (3 ∷ 5 ∷ []) ≡ Some (254 ∷ 1 ∷ []) }
    ensures lower_usube { ran 32 (lower_usube no_flags 8) (5 ∷ 5 ∷ 1 ∷ []) ≡ Some (255 ∷ 1 ∷ []) }
    ensures lower_smin { ran 32 (lower_better op.GenericSignedMinimum Slt no_flags 32 8) (200 ∷ 100 ∷ []) ≡ Some (200 ∷ []) }
    ensures lower_smax { ran 32 (lower_better op.GenericSignedMaximum Sgt no_flags 32 8) (200 ∷ 100 ∷ []) ≡ Some (100 ∷ []) }
    ensures lower_umin { ran 32 (lower_better op.GenericUnsignedMinimum Ult no_flags 32 8) (200 ∷ 100 ∷ []) ≡ Some (100 ∷ []) }
    ensures lower_umax { ran 32 (lower_better op.GenericUnsignedMaximum Ugt no_flags 32 8) (200 ∷ 100 ∷ []) ≡ Some (200 ∷ []) }
    ensures lower_rotl { ran 32 (lower_rotate op.GenericRotateLeft op.GenericFunnelShiftLeft no_flags 8) (200 ∷ 3 ∷ []) ≡ Some (70 ∷ []) }
    ensures lower_rotr { ran 32 (lower_rotate op.GenericRotateRight op.GenericFunnelShiftRight no_flags 8) (200 ∷ 3 ∷ []) ≡ Some (25 ∷ []) }
    ensures lower_ctlz_zero_undef { ran 32 (lower_zero_undef op.GenericCountLeadingZerosNotOfZero op.GenericCountLeadingZeros no_flags 8) (40 ∷ []) ≡ Some (2 ∷ []) }
    ensures lower_cttz_zero_undef { ran 32 (lower_zero_undef op.GenericCountTrailingZerosNotOfZero op.GenericCountTrailingZeros no_flags 8) (40 ∷ []) ≡ Some (3 ∷ []) }
    ensures lower_sext_inreg { ran 32 (lower_sext_inreg no_flags 32 8) (968 ∷ []) ≡ Some (4294967240 ∷ []) }
    ensures lower_unmerge { ran 64 (lower_unmerge no_flags 16 3) (1125912791875585 ∷ []) ≡ Some (1 ∷ 2 ∷ 3 ∷ 4 ∷ []) }
    ensures narrow_add { ran 64 (narrow_add no_flags 64) (319014718988379809514207517036385403050 ∷ 41206067869332392062251804283866448070 ∷ []) ≡ Some (19938419936773738113084713888483639664 ∷ []) }
    ensures narrow_sub { ran 64 (narrow_sub no_flags 64) (41206067869332392062251804283866448070 ∷ 319014718988379809514207517036385403050 ∷ []) ≡ Some (62473715801891046011418894679249256476 ∷ []) }
    ensures narrow_select { ran 64 (narrow_select no_flags 1 64) (0 ∷ 319014718988379809514207517036385403050 ∷ 41206067869332392062251804283866448070 ∷ []) ≡ Some (41206067869332392062251804283866448070 ∷ []) }
    ensures narrow_zext { ran 32 (narrow_zext no_flags 32) (7 ∷ []) ≡ Some (7 ∷ []) }
    ensures narrow_anyext { ran 32 (narrow_anyext no_flags 32) (7 ∷ []) ≡ Some (18446744069414584327 ∷ []) }
    ensures narrow_implicit_def { ran 32 (narrow_implicit_def no_flags 32) [] ≡ Some (18446744073709551615 ∷ []) }
    ensures narrow_constant { ran 64 (narrow_constant no_flags 64 319014718988379809514207517036385403050) [] ≡ Some (319014718988379809514207517036385403050 ∷ []) }
    ensures narrow_bswap { ran 32 (narrow_bswap no_flags 32) (81985529216486895 ∷ []) ≡ Some (17279655951921914625 ∷ []) }
{}

/// What is made, run on numbers, gives what the root gives there: with all free bits set.
pub fn selecting_runs()
    ensures select_icmp_ule { ran 32 (select_icmp_ule no_flags 32) (7 ∷ 7 ∷ []) ≡ Some (1 ∷ []) }
    ensures select_zext { ran 64 (select_zext no_flags) (4000000000 ∷ []) ≡ Some (4000000000 ∷ []) }
    ensures select_addi { ran 32 (select_addi no_flags no_flags 32 (negsuc 4)) (3 ∷ 4294967291 ∷ []) ≡ Some (4294967294 ∷ []) }
    ensures select_select { ran 32 (select_select no_flags 32 (s 32)) (7 ∷ 5 ∷ 9 ∷ []) ≡ Some (5 ∷ []) }
    ensures select_select_other { ran 32 (select_select no_flags 32 Pointer) (0 ∷ 5 ∷ 9 ∷ []) ≡ Some (9 ∷ []) }
    ensures materialize_constant { ran 32 (materialize_constant no_flags 32 (s 32) 305419896) [] ≡ Some (305419896 ∷ []) }
    ensures materialize_constant_long { ran 64 (materialize_constant no_flags 64 (s 64) 18446744073404131720) [] ≡ Some (18446744073404131720 ∷ []) }
    ensures select_add { ran 32 (select_two op.GenericAdd op.Add no_flags 32) (4000000200 ∷ 3 ∷ []) ≡ Some (4000000203 ∷ []) }
    ensures select_add_half { ran 64 (select_two op.GenericAdd op.AddWord no_flags 32) (4000000200 ∷ 3 ∷ []) ≡ Some (4000000203 ∷ []) }
    ensures select_sub { ran 32 (select_two op.GenericSubtract op.Subtract no_flags 32) (4000000200 ∷ 3 ∷ []) ≡ Some (4000000197 ∷ []) }
    ensures select_sub_half { ran 64 (select_two op.GenericSubtract op.SubtractWord no_flags 32) (4000000200 ∷ 3 ∷ []) ≡ Some (4000000197 ∷ []) }
    ensures select_mul { ran 32 (select_two op.GenericMultiply op.Multiply no_flags 32) (4000000200 ∷ 3 ∷ []) ≡ Some (3410066008 ∷ []) }
    ensures select_mul_half { ran 64 (select_two op.GenericMultiply op.MultiplyWord no_flags 32) (4000000200 ∷ 3 ∷ []) ≡ Some (3410066008 ∷ []) }
    ensures select_shl { ran 32 (select_two op.GenericShiftLeft op.ShiftLeftLogical no_flags 32) (4000000200 ∷ 3 ∷ []) ≡ Some (1935230528 ∷ []) }
    ensures select_shl_half { ran 64 (select_two op.GenericShiftLeft op.ShiftLeftLogicalWord no_flags 32) (4000000200 ∷ 3 ∷ []) ≡ Some (1935230528 ∷ []) }
    ensures select_lshr { ran 32 (select_two op.GenericLogicalShiftRight op.ShiftRightLogical no_flags 32) (4000000200 ∷ 3 ∷ []) ≡ Some (500000025 ∷ []) }
    ensures select_lshr_half { ran 64 (select_two op.GenericLogicalShiftRight op.ShiftRightLogicalWord no_flags 32) (4000000200 ∷ 3 ∷ []) ≡ Some (500000025 ∷ []) }
    ensures select_ashr { ran 32 (select_two op.GenericArithmeticShiftRight op.ShiftRightArithmetic no_flags 32) (4000000200 ∷ 3 ∷ []) ≡ Some (4258096409 ∷ []) }
    ensures select_ashr_half { ran 64 (select_two op.GenericArithmeticShiftRight op.ShiftRightArithmeticWord no_flags 32) (4000000200 ∷ 3 ∷ []) ≡ Some (4258096409 ∷ []) }
    ensures select_udiv { ran 32 (select_two op.GenericUnsignedDivide op.DivideUnsigned no_flags 32) (4000000200 ∷ 3 ∷ []) ≡ Some (1333333400 ∷ []) }
    ensures select_udiv_half { ran 64 (select_two op.GenericUnsignedDivide op.DivideUnsignedWord no_flags 32) (4000000200 ∷ 3 ∷ []) ≡ Some (1333333400 ∷ []) }
    ensures select_sdiv { ran 32 (select_two op.GenericSignedDivide op.Divide no_flags 32) (4000000200 ∷ 3 ∷ []) ≡ Some (4196644931 ∷ []) }
    ensures select_sdiv_half { ran 64 (select_two op.GenericSignedDivide op.DivideWord no_flags 32) (4000000200 ∷ 3 ∷ []) ≡ Some (4196644931 ∷ []) }
    ensures select_urem { ran 32 (select_two op.GenericUnsignedRemainder op.RemainderUnsigned no_flags 32) (4000000200 ∷ 3 ∷ []) ≡ Some (0 ∷ []) }
    ensures select_urem_half { ran 64 (select_two op.GenericUnsignedRemainder op.RemainderUnsignedWord no_flags 32) (4000000200 ∷ 3 ∷ []) ≡ Some (0 ∷ []) }
    ensures select_srem { ran 32 (select_two op.GenericSignedRemainder op.Remainder no_flags 32) (4000000200 ∷ 3 ∷ []) ≡ Some (4294967295 ∷ []) }
    ensures select_srem_half { ran 64 (select_two op.GenericSignedRemainder op.RemainderWord no_flags 32) (4000000200 ∷ 3 ∷ []) ≡ Some (4294967295 ∷ []) }
    ensures select_and { ran 32 (select_two op.GenericAnd op.And no_flags 32) (4000000200 ∷ 3 ∷ []) ≡ Some (0 ∷ []) }
    ensures select_or { ran 32 (select_two op.GenericOr op.Or no_flags 32) (4000000200 ∷ 3 ∷ []) ≡ Some (4000000203 ∷ []) }
    ensures select_xor { ran 32 (select_two op.GenericXor op.Xor no_flags 32) (4000000200 ∷ 3 ∷ []) ≡ Some (4000000203 ∷ []) }
    ensures select_umulh { ran 32 (select_two op.GenericUnsignedMultiplyHigh op.MultiplyHighUnsigned no_flags 32) (4000000200 ∷ 3 ∷ []) ≡ Some (2 ∷ []) }
    ensures select_smulh { ran 32 (select_two op.GenericSignedMultiplyHigh op.MultiplyHigh no_flags 32) (4000000200 ∷ 3 ∷ []) ≡ Some (4294967295 ∷ []) }
    ensures select_ptr_add { ran 32 (select_ptr_add no_flags 32) (4000000200 ∷ 3 ∷ []) ≡ Some (4000000203 ∷ []) }
    ensures select_andi { ran 32 (select_number op.GenericAnd op.AndImmediate no_flags no_flags 32 (negsuc 6)) (4000000200 ∷ 4294967289 ∷ []) ≡ Some (4000000200 ∷ []) }
    ensures select_xori { ran 32 (select_number op.GenericXor op.XorImmediate no_flags no_flags 32 (negsuc 6)) (4000000200 ∷ 4294967289 ∷ []) ≡ Some (294967089 ∷ []) }
    ensures select_ori { ran 32 (select_number op.GenericOr op.OrImmediate no_flags no_flags 32 (negsuc 6)) (4000000200 ∷ 4294967289 ∷ []) ≡ Some (4294967289 ∷ []) }
    ensures select_addiw { ran 64 (select_number op.GenericAdd op.AddImmediateWord no_flags no_flags 32 (negsuc 6)) (4000000200 ∷ 4294967289 ∷ []) ≡ Some (4000000193 ∷ []) }
    ensures select_shl_by { ran 32 (select_shift op.GenericShiftLeft op.ShiftLeftLogicalImmediate no_flags no_flags 32 3) (4000000200 ∷ 3 ∷ []) ≡ Some (1935230528 ∷ []) }
    ensures select_shl_half_by { ran 64 (select_shift op.GenericShiftLeft op.ShiftLeftLogicalImmediateWord no_flags no_flags 32 3) (4000000200 ∷ 3 ∷ []) ≡ Some (1935230528 ∷ []) }
    ensures select_lshr_by { ran 32 (select_shift op.GenericLogicalShiftRight op.ShiftRightLogicalImmediate no_flags no_flags 32 3) (4000000200 ∷ 3 ∷ []) ≡ Some (500000025 ∷ []) }
    ensures select_lshr_half_by { ran 64 (select_shift op.GenericLogicalShiftRight op.ShiftRightLogicalImmediateWord no_flags no_flags 32 3) (4000000200 ∷ 3 ∷ []) ≡ Some (500000025 ∷ []) }
    ensures select_ashr_by { ran 32 (select_shift op.GenericArithmeticShiftRight op.ShiftRightArithmeticImmediate no_flags no_flags 32 3) (4000000200 ∷ 3 ∷ []) ≡ Some (4258096409 ∷ []) }
    ensures select_ashr_half_by { ran 64 (select_shift op.GenericArithmeticShiftRight op.ShiftRightArithmeticImmediateWord no_flags no_flags 32 3) (4000000200 ∷ 3 ∷ []) ≡ Some (4258096409 ∷ []) }
    ensures select_icmp_ult { ran 32 (select_below Ult op.SetLessUnsigned no_flags 32) (4294967289 ∷ 3 ∷ []) ≡ Some (0 ∷ []) }
    ensures select_icmp_slt { ran 32 (select_below Slt op.SetLess no_flags 32) (4294967289 ∷ 3 ∷ []) ≡ Some (1 ∷ []) }
    ensures select_icmp_ugt { ran 32 (select_above Ugt op.SetLessUnsigned no_flags 32) (4294967289 ∷ 3 ∷ []) ≡ Some (1 ∷ []) }
    ensures select_icmp_sgt { ran 32 (select_above Sgt op.SetLess no_flags 32) (4294967289 ∷ 3 ∷ []) ≡ Some (0 ∷ []) }
    ensures select_icmp_uge { ran 32 (select_not_below Uge op.SetLessUnsigned no_flags 32) (4294967289 ∷ 3 ∷ []) ≡ Some (1 ∷ []) }
    ensures select_icmp_sge { ran 32 (select_not_below Sge op.SetLess no_flags 32) (4294967289 ∷ 3 ∷ []) ≡ Some (0 ∷ []) }
    ensures select_icmp_sle { ran 32 (select_not_above Sle op.SetLess no_flags 32) (4294967289 ∷ 3 ∷ []) ≡ Some (1 ∷ []) }
    ensures select_icmp_eq { ran 32 (select_icmp_eq no_flags 32) (7 ∷ 7 ∷ []) ≡ Some (1 ∷ []) }
    ensures select_icmp_ne { ran 32 (select_icmp_ne no_flags 32) (7 ∷ 8 ∷ []) ≡ Some (1 ∷ []) }
    ensures select_eq_zero { ran 32 (select_eq_zero no_flags no_flags 32) (7 ∷ 0 ∷ []) ≡ Some (0 ∷ []) }
    ensures select_ne_zero { ran 32 (select_ne_zero no_flags no_flags 32) (7 ∷ 0 ∷ []) ≡ Some (1 ∷ []) }
    ensures select_sltiu { ran 32 (select_below_number Ult op.SetLessImmediateUnsigned no_flags no_flags 32 (negsuc 0)) (7 ∷ 4294967295 ∷ []) ≡ Some (1 ∷ []) }
    ensures select_slti { ran 32 (select_below_number Slt op.SetLessImmediate no_flags no_flags 32 (negsuc 0)) (7 ∷ 4294967295 ∷ []) ≡ Some (0 ∷ []) }
    ensures select_trunc { ran 64 (select_copy op.GenericTruncate no_flags (s 64) (s 32)) (4294967303 ∷ []) ≡ Some (7 ∷ []) }
    ensures select_anyext { ran 64 (select_copy op.GenericAnyExtend no_flags (s 32) (s 64)) (7 ∷ []) ≡ Some (18446744069414584327 ∷ []) }
    ensures select_ptrtoint { ran 32 (select_copy op.GenericPointerToInteger no_flags Pointer (s 32)) (4096 ∷ []) ≡ Some (4096 ∷ []) }
    ensures select_inttoptr { ran 32 (select_copy op.GenericIntegerToPointer no_flags (s 32) Pointer) (4096 ∷ []) ≡ Some (4096 ∷ []) }
    ensures select_sext { ran 64 (select_sext no_flags) (4294967289 ∷ []) ≡ Some (18446744073709551609 ∷ []) }
    ensures select_sext_inreg { ran 64 (select_sext_inreg no_flags) (8589934585 ∷ []) ≡ Some (18446744073709551609 ∷ []) }
    ensures select_implicit_def { ran 32 (select_implicit_def no_flags (s 32)) [] ≡ Some (4294967295 ∷ []) }
{}
