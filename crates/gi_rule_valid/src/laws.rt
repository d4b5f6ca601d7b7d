//! What is promised of functions in which rewrites are made.

ghost use Rattle.std.specs.Prelude.{◌*◌, ◌≡◌, false, nat_le, nat_lt, true, ℕ};
ghost use Rattle.gi_mir.specs.Data.{FunctionData};
ghost use Rattle.gi_mir.specs.Edit.{IsLive};
ghost use Rattle.gi_mir.specs.Ids.{AreOwnIds};
ghost use Rattle.gi_mir.specs.declared.opcode.Opcode.TheVariants as op;
ghost use Rattle.gi_mir.specs.declared.operand.Flags.{Flags};
ghost use Rattle.gi_change_valid.specs.Numbers.{HasHadAll};
ghost use Rattle.gi_valid.specs.Typing.{Phase, Selecting, Typed};
ghost use Rattle.gi_valid.specs.Valid.{IsValid};
ghost use Rattle.gi_rule_values.specs.Combining.{mul_to_shl, sub_to_add};
ghost use Rattle.gi_rule_values.specs.Forms.{s};
ghost use Rattle.gi_rule_values.specs.Lowering.{lower_uadde};
ghost use Rattle.gi_rule_values.specs.Selecting.{select_copy, select_icmp_ule};
ghost use Rattle.gi_rule_values.specs.Widening.{widen_add, widen_mul, widen_sdiv};
ghost use Rattle.gi_rule_valid.specs.Keeping.{gives_types, keeps};
ghost use Rattle.gi_rule_valid.specs.Using.{FitsAt, UseData, rewritten_at};

/// A rewrite that passes the tests of its own list keeps a valid function valid wherever it fits: whatever it makes, of any types
/// and with any number of results.
pub fn rewrite_keeps_valid()
    ensures { (x : ℕ) (phase : Phase) (f : FunctionData) (id : ℕ) (u : UseData) → gives_types phase ≡ true → keeps x phase u.rewrite ≡ true
        → IsValid x phase f → AreOwnIds f.blocks f.next_id → HasHadAll f → IsLive f id → FitsAt f id u
        → IsValid x phase (rewritten_at f id u) }
{}

/// These rewrites pass the tests, at types that their roots accept.
pub fn rewrites_keep()
    ensures mul_to_shl { (x : ℕ) (flags more : Flags) (n k : ℕ) → nat_le 1 n ≡ true → nat_le n (2 * x) ≡ true → keeps x Typed (mul_to_shl flags more n k) ≡ true }
    ensures sub_to_add { (x : ℕ) (flags more : Flags) (n c : ℕ) → nat_le 1 n ≡ true → nat_le n (2 * x) ≡ true → keeps x Typed (sub_to_add flags more n c) ≡ true }
    ensures widen_add { (x : ℕ) (flags : Flags) (n w : ℕ) → nat_le 1 n ≡ true → nat_lt n (2 * x) ≡ true → nat_le n (2 * x) ≡ true → nat_lt 1 w ≡ true → nat_le 1 w ≡ true → nat_le w (2 * x) ≡ true → nat_lt n w ≡ true → keeps x Typed (widen_add flags n w) ≡ true }
    ensures lower_uadde { (x : ℕ) (flags : Flags) (n : ℕ) → nat_lt 1 n ≡ true → nat_le 1 n ≡ true → nat_le n (2 * x) ≡ true → nat_le 1 (2 * x) ≡ true → keeps x Typed (lower_uadde flags n) ≡ true }
    ensures select_icmp_ule_32 { (flags : Flags) → keeps 32 Selecting (select_icmp_ule flags 32) ≡ true }
    ensures select_icmp_ule_64 { (flags : Flags) → keeps 64 Selecting (select_icmp_ule flags 64) ≡ true }
    ensures division { (flags : Flags) → keeps 32 Typed (widen_sdiv flags 8 32) ≡ true }
    ensures copy { (flags : Flags) → keeps 64 Selecting (select_copy op.GenericTruncate flags (s 64) (s 32)) ≡ true }
{}

/// A product may be widened up to a register, but no further, where it would be a call; and a copy joins two types only while
/// selection goes on.
pub fn rewrites_are_refused()
    ensures product { (flags : Flags) → keeps 32 Typed (widen_mul flags 8 32) ≡ true }
    ensures wide_product { (flags : Flags) → keeps 32 Typed (widen_mul flags 8 64) ≡ false }
    ensures copy { (flags : Flags) → keeps 64 Typed (select_copy op.GenericTruncate flags (s 64) (s 32)) ≡ false }
{}
