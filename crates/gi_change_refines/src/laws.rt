//! What is promised of the widths, constants and numbers of a function.

ghost use Rattle.std.specs.Prelude.{◌≡◌, ◌⊎◌, List, [], true, ℕ};
ghost use Rattle.gi_mir.specs.Data.{FunctionData, reg_of};
ghost use Rattle.gi_mir.specs.Ids.{AreOwnIds};
ghost use Rattle.gi_meaning.specs.Runs.{setting_of};
ghost use Rattle.gi_change_valid.specs.Numbers.{HasHadAll};
ghost use Rattle.gi_valid.specs.Faults.{fault_at};
ghost use Rattle.gi_valid.specs.Typing.{Typed};
ghost use Rattle.gi_valid.specs.Valid.{IsInvalid, IsValid};
ghost use Rattle.gi_valid.specs.declared.invalid.Invalid.TheVariants.{TypeMismatch};
ghost use Rattle.gi_change_refines.specs.Numbered.{is_numbered};
ghost use Rattle.gi_change_refines.specs.Loads.{loads_byte, loads_too_much};
ghost use Rattle.gi_change_refines.specs.Sized.{FitsAnywhere, are_formed, are_sized};
ghost use Rattle.gi_change_refines.specs.Typed.{have_types};
ghost use Rattle.gi_change_refines.specs.Widths.{has_machine_words, values_keep};

/// In a function that passes a test of the widths of what each instruction writes and reads, which knows every opcode, values fit
/// their registers wherever runs come.
pub fn widely_tested_values_fit()
    ensures { (x : ℕ) (names : List (List ℕ)) (f : FunctionData) → (x ≡ 32) ⊎ (x ≡ 64) → values_keep (setting_of x names f) f ≡ true → FitsAnywhere x names f }
{}

/// In a valid function of formed instructions whose registers have types they do so, if its instructions of the machine have at most words,
/// where validity says nothing of their types.
pub fn valid_values_fit()
    ensures { (x : ℕ) (names : List (List ℕ)) (f : FunctionData) → (x ≡ 32) ⊎ (x ≡ 64)
        → IsValid x Typed f → are_formed f ≡ true → have_types f ≡ true → has_machine_words (setting_of x names f) f ≡ true
        → FitsAnywhere x names f }
{}

/// In a valid function of formed instructions whose registers have types, constants are in range and as wide as their
/// registers.
pub fn valid_constants_fit()
    ensures { (x : ℕ) (f : FunctionData)
        → (x ≡ 32) ⊎ (x ≡ 64)
        → IsValid x Typed f → are_formed f ≡ true → have_types f ≡ true
        → are_sized x f ≡ true }
{}

/// The numbers of a function are tested: each id has one instruction, and the function has had the registers that it mentions.
pub fn tested_numbers_hold()
    ensures own { (f : FunctionData) → is_numbered f ≡ true → AreOwnIds f.blocks f.next_id }
    ensures had { (f : FunctionData) → is_numbered f ≡ true → HasHadAll f }
{}

/// A load with zeros above, whose memory validity looks at: values fit in a function that loads a byte into a register of 32 bits, and
/// one that loads two bytes into a register of eight bits is invalid by this load alone, as its instructions are formed and its
/// registers have types.
pub fn loads_have_room()
    ensures fit { FitsAnywhere 32 [] loads_byte }
    ensures formed { are_formed loads_too_much ≡ true }
    ensures typed { have_types loads_too_much ≡ true }
    ensures invalid { IsInvalid 32 Typed loads_too_much (fault_at 8 (TypeMismatch (reg_of 1))) }
{}
