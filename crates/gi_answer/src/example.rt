//! What is shown of an example: a function that adds its two arguments, read, selected and printed.

ghost use Rattle.std.specs.Prelude.{◌≡◌, true, false};
ghost use Rattle.gi_spelling.specs.AddExample.{generic_module, selected_module, stated_text, selected_text};
ghost use Rattle.gi_spelling.specs.Spelling.{Spells};
ghost use Rattle.gi_rules.specs.Legal.{legal_generics};
ghost use Rattle.gi_answer.specs.AddRuns.{before, after, ReturnsOne};
ghost use Rattle.gi_answer.specs.NormalForm.{has_generic};

/// The two texts of the example spell its two functions, and in every world that starts with the words
/// 4294967295 and 2 each returns 1 and does nothing else.
pub fn example_is_compiled()
    ensures read { Spells stated_text generic_module }
    ensures written { Spells selected_text selected_module }
    ensures before { ReturnsOne before }
    ensures after { ReturnsOne after }
{
    gi_spelling::laws::example_texts_spell();
}

/// The function of the example's second text has the key `legalized` and no generic instruction; that of the first has the
/// key and one, which is legal.
pub fn example_is_legalized()
    ensures spelled { Spells selected_text selected_module }
    ensures key { after.legalized ≡ true }
    ensures none { has_generic after.blocks ≡ false }
    ensures legal { legal_generics 32 after ≡ true }
    ensures key_before { before.legalized ≡ true }
    ensures one_before { has_generic before.blocks ≡ true }
    ensures legal_before { legal_generics 32 before ≡ true }
{
    gi_spelling::laws::example_texts_spell();
}
