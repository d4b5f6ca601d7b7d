//! What holds of the texts that are written, and of what is selected.

ghost use Rattle.std.specs.Prelude.{◌≡◌, ℕ, List, None, false};
ghost use Rattle.gi_mir.specs.Data.{FunctionData, ModuleData};
ghost use Rattle.gi_mir.specs.Numbering.{numbered_module};
ghost use Rattle.gi_spelling.specs.Documents.{wrong_in};
ghost use Rattle.gi_spelling.specs.Printed.{printed};
ghost use Rattle.gi_spelling.specs.Read.{IsReadModule};
ghost use Rattle.gi_spelling.specs.Same.{IsSameModule};
ghost use Rattle.gi_spelling.specs.Spelled.{IsSpelled};
ghost use Rattle.gi_spelling.specs.There.{NamesBlocksThatAreThere};
ghost use Rattle.gi_refine.specs.Refinement.{RefinesUnchecked};
ghost use Rattle.gi_valid.specs.Typing.{Phase};
ghost use Rattle.gi_valid.specs.Valid.{IsValid};
ghost use Rattle.gi_answer.specs.Answers.{IsOutput};
ghost use Rattle.gi_answer.specs.NormalForm.{IsNormalForm};
ghost use Rattle.gi_answer.specs.Promise.{IsLegalText};
ghost use Rattle.gi_answer.specs.Rows.{selection_rows};
ghost use Rattle.gi_answer.specs.Selectable.{IsSelectable};
ghost use Rattle.gi_answer.specs.Selection.{IsSelected, IsSelectedModule};
ghost use Rattle.gi_answer.specs.Unselected.{is_blank, unselected_in_function};

/// For words and an input there is one text: the written bytes are a function of them.
pub fn output_is_one()
    ensures { (words : List (List ℕ)) (read a b : List ℕ) → IsOutput words read a → IsOutput words read b → a ≡ b }
{}

/// Where the legaliser has run, what is written is legal: of each function with the key `legalized`, in whatever module the
/// text spells, each generic instruction is.
pub fn output_is_legal()
    ensures { (words : List (List ℕ)) (read written : List ℕ) → IsOutput words read written → IsLegalText words read written }
{}

/// What is selected from a module is printed in one way, whatever the ids are.
pub fn selected_text_is_one()
    ensures { (source a b : ModuleData) → IsSelectedModule source a → IsSelectedModule source b → printed (numbered_module a) ≡ printed (numbered_module b) }
{}

/// A valid function whose instructions all have one of the five shapes, in one block at most, can be selected.
pub fn valid_function_is_selectable()
    ensures { (x : ℕ) (phase : Phase) (f : FunctionData) → IsValid x phase f → is_blank f ≡ false → unselected_in_function f ≡ None → IsSelectable f }
{}

/// What is read of the text that is printed of a module, one that some text spells and that names no block that isn't
/// there, is that module with its registers numbered, but for what a text doesn't show; no line of the text is refused, and
/// what was read is printed with the same bytes.
pub fn printed_text_is_read_back()
    ensures taken { (m : ModuleData) → IsSpelled m → NamesBlocksThatAreThere m → wrong_in (printed (numbered_module m)) ≡ None }
    ensures same { (m n : ModuleData) → IsSpelled m → NamesBlocksThatAreThere m → IsReadModule (printed (numbered_module m)) n → IsSameModule (numbered_module m) n }
    ensures again { (m n : ModuleData) → IsSpelled m → NamesBlocksThatAreThere m → IsReadModule (printed (numbered_module m)) n → printed (numbered_module n) ≡ printed (numbered_module m) }
{}

/// A function that selection takes has a normal form.
pub fn normal_form_is_there()
    ensures { (f : FunctionData) → IsSelectable f → (normal : FunctionData) × IsNormalForm selection_rows f normal }
{}

/// On RV32 what is selected from a function refines it.
pub fn selected_function_refines()
    ensures { (names : List (List ℕ)) (f g : FunctionData) → IsSelectable f → IsSelected f g → RefinesUnchecked 32 names f g }
{}
