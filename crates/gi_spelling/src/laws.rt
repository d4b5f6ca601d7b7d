//! What is promised of texts and the modules that they spell.

ghost use Rattle.std.specs.Prelude.{◌≡◌, List, ℕ, [], ◌∷◌, true, None, Ok, Err, codes};
ghost use Rattle.gi_spelling.specs.Reading.{read_instr};
ghost use Rattle.gi_spelling.specs.Documents.{wrong_in};
ghost use Rattle.gi_spelling.specs.Read.{IsReadModule};
ghost use Rattle.gi_spelling.specs.Spelling.{AreWritten, Spells};
ghost use Rattle.gi_spelling.specs.Written.{WrittenData};
ghost use Rattle.gi_mir.specs.declared.opcode.Opcode.TheVariants.{GenericAdd};
ghost use Rattle.gi_spelling.specs.Items.{what_in};
ghost use Rattle.gi_spelling.specs.Kept.{kept};
ghost use Rattle.gi_spelling.specs.LineExample.{item, placed, copy_items, copy_written};
ghost use Rattle.gi_spelling.specs.Words.{word_of};
ghost use Rattle.gi_spelling.specs.declared.token.RegisterClass.TheVariants as class;
ghost use Rattle.gi_spelling.specs.declared.token.Word.TheVariants as word;
ghost use Rattle.gi_spelling.specs.declared.token.What.TheVariants as what;
ghost use Rattle.gi_spelling.specs.declared.written.Fault.TheVariants as fault;
ghost use Rattle.gi_spelling.specs.declared.token.Item.{Item};
ghost use Rattle.gi_spelling.specs.AddExample.{generic_module, selected_module, stated_text, selected_text};
ghost use Rattle.gi_mir.specs.Data.{ModuleData};
ghost use Rattle.gi_spelling.specs.Printable.{IsPrintableModule};
ghost use Rattle.gi_spelling.specs.Printed.{printed};

/// What is read of a line is what its tokens spell.
pub fn read_lines_are_written()
    ensures { (items : List Item) (written : WrittenData) → read_instr items ≡ Ok written → AreWritten items written }
{}

/// A line whose tokens spell something is read as that.
pub fn written_lines_are_read()
    ensures { (items : List Item) (written : WrittenData) → AreWritten items written → read_instr items ≡ Ok written }
{}

/// A text spells the module that it is read as.
pub fn read_text_spells()
    ensures { (text : List ℕ) (m : ModuleData) → IsReadModule text m → Spells text m }
{}

/// What spells a module isn't refused.
pub fn spelled_text_is_read()
    ensures { (text : List ℕ) (m : ModuleData) → Spells text m → wrong_in text ≡ None }
{}

/// What the definitions say of words and lines: a word is in its table, `killed` is passed over, and a line that isn't
/// spelled is refused at what is unknown or as a matter of syntax.
pub fn example_lines()
    ensures opcode { word_of (codes "G_ADD") ≡ word.Opcode GenericAdd }
    ensures no_opcode { word_of (codes "G_FOO") ≡ word.Unknown }
    ensures passed { kept what_in (item (what.Word word.Passed) ∷ item (what.Register 1) ∷ []) ≡ item (what.Register 1) ∷ [] }
    ensures copied { read_instr copy_items ≡ Ok copy_written }
    ensures unknown_type { read_instr (item (what.Register 0) ∷ item what.Open ∷ placed (what.Word word.Unknown) 3 5 ∷ item what.Close ∷ item what.Equals ∷ []) ≡ Err (fault.Unknown 3 5) }
    ensures no_equals { read_instr (item (what.Register 1) ∷ item (what.Word (word.Class class.Generic)) ∷ []) ≡ Err fault.Syntax }
{}

/// The printed text of a module spells that module.
pub fn printed_text_spells()
    ensures { (m : ModuleData) → IsPrintableModule m → Spells (printed m) m }
{}

/// The texts of an example, before and after the selection of instructions, spell its two modules.
pub fn example_texts_spell()
    ensures stated { Spells stated_text generic_module }
    ensures chosen { Spells selected_text selected_module }
{}
