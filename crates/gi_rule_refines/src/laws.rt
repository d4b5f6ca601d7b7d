//! What is promised of functions in which sound rewrites are made.

ghost use Rattle.std.specs.Prelude.{◌≡◌, ◌⊎◌, List, true, ℕ};
ghost use Rattle.gi_mir.specs.Data.{FunctionData};
ghost use Rattle.gi_mir.specs.Edit.{IsLive};
ghost use Rattle.gi_mir.specs.Ids.{AreOwnIds};
ghost use Rattle.gi_meaning.specs.Runs.{setting_of};
ghost use Rattle.gi_refine.specs.Refinement.{RefinesUnchecked};
ghost use Rattle.gi_change_valid.specs.Numbers.{HasHadAll};
ghost use Rattle.gi_valid.specs.Typing.{Phase, Typed};
ghost use Rattle.gi_valid.specs.Valid.{IsValid};
ghost use Rattle.gi_change_refines.specs.Sized.{FitsAnywhere, are_formed};
ghost use Rattle.gi_change_refines.specs.Typed.{have_types};
ghost use Rattle.gi_change_refines.specs.Numbered.{is_numbered};
ghost use Rattle.gi_change_refines.specs.Widths.{has_machine_words};
ghost use Rattle.gi_rule_values.specs.Running.{IsSoundRewrite};
ghost use Rattle.gi_rule_valid.specs.Keeping.{gives_types, keeps};
ghost use Rattle.gi_rule_valid.specs.Using.{FitsAt, UseData, rewritten_at};
ghost use Rattle.gi_rule_refines.specs.Computing.{gives_all};
ghost use Rattle.gi_rule_refines.specs.Good.{AreMade, IsGood, IsMade, after_all};

/// A sound rewrite that passes the tests of its own list refines each valid function in which it fits, where values fit: however
/// many results its root has, and whatever registers it makes.
pub fn sound_rewrite_refines()
    ensures { (x : ℕ) (phase : Phase) (names : List (List ℕ)) (f : FunctionData) (id : ℕ) (u : UseData)
        → gives_types phase ≡ true → keeps x phase u.rewrite ≡ true → gives_all u.rewrite ≡ true → IsSoundRewrite x u.rewrite
        → IsValid x phase f → AreOwnIds f.blocks f.next_id → HasHadAll f → FitsAnywhere x names f → IsLive f id → FitsAt f id u
        → IsValid x phase (rewritten_at f id u) × RefinesUnchecked x names f (rewritten_at f id u) }
{}

/// A valid function of formed instructions whose registers have types is good, by tests alone.
pub fn valid_function_is_good()
    ensures { (x : ℕ) (names : List (List ℕ)) (f : FunctionData) → (x ≡ 32) ⊎ (x ≡ 64)
        → IsValid x Typed f → is_numbered f ≡ true → are_formed f ≡ true → have_types f ≡ true → has_machine_words (setting_of x names f) f ≡ true
        → IsGood x Typed names f }
{}

/// A good rewrite makes a good function that refines the one before.
pub fn good_rewrite_refines()
    ensures { (x : ℕ) (phase : Phase) (names : List (List ℕ)) (f : FunctionData) (id : ℕ) (u : UseData) → (x ≡ 32) ⊎ (x ≡ 64)
        → gives_types phase ≡ true → IsGood x phase names f → IsMade x phase f id u
        → IsGood x phase names (rewritten_at f id u) × RefinesUnchecked x names f (rewritten_at f id u) }
{}

/// So do any number of them, one after another.
pub fn good_rewrites_refine()
    ensures { (x : ℕ) (phase : Phase) (names : List (List ℕ)) (f : FunctionData) (us : List (ℕ × UseData)) → (x ≡ 32) ⊎ (x ≡ 64)
        → gives_types phase ≡ true → IsGood x phase names f → AreMade x phase f us
        → IsGood x phase names (after_all f us) × RefinesUnchecked x names f (after_all f us) }
{}
