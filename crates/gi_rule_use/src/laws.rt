//! What is promised of rows that are made.

ghost use Rattle.std.specs.Prelude.{◌≡◌, true, ℕ};
ghost use Rattle.gi_llt.specs.declared.Llt.{Llt};
ghost use Rattle.gi_mir.specs.Formed.{is_constant_in_range};
ghost use Rattle.gi_mir.specs.declared.operand.Flags.{Flags};
ghost use Rattle.gi_rule_use.specs.Making.{makes_formed};
ghost use Rattle.gi_rule_values.specs.Artifacts.{freeze_to_copy, trunc_of_trunc};
ghost use Rattle.gi_rule_values.specs.Combining.{mul_to_shl};
ghost use Rattle.gi_rule_values.specs.Lowering.{lower_uadde};
ghost use Rattle.gi_rule_values.specs.Selecting.{select_icmp_ule, select_zext};
ghost use Rattle.gi_rule_values.specs.Widening.{widen_add};

/// What these rows make is formed, by computing: at any width, with any flags, and where a constant is one of its width.
pub fn rows_are_formed()
    ensures freeze_to_copy { (flags : Flags) (type : Llt) → makes_formed (freeze_to_copy flags type) ≡ true }
    ensures trunc_of_trunc { (flags more : Flags) (m w k : ℕ) → makes_formed (trunc_of_trunc flags more m w k) ≡ true }
    ensures mul_to_shl { (flags more : Flags) (n k : ℕ) → is_constant_in_range n k ≡ true → makes_formed (mul_to_shl flags more n k) ≡ true }
    ensures widen_add { (flags : Flags) (n w : ℕ) → makes_formed (widen_add flags n w) ≡ true }
    ensures lower_uadde { (flags : Flags) (n : ℕ) → makes_formed (lower_uadde flags n) ≡ true }
    ensures select_icmp_ule { (flags : Flags) (x : ℕ) → makes_formed (select_icmp_ule flags x) ≡ true }
    ensures select_zext { (flags : Flags) → makes_formed (select_zext flags) ≡ true }
{}
