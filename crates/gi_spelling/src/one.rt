//! What is promised of modules that one text spells, and of texts that are printed.

ghost use Rattle.std.specs.Prelude.{◌≡◌, List, ℕ};
ghost use Rattle.gi_mir.specs.Data.{FunctionData, ModuleData};
ghost use Rattle.gi_mir.specs.Numbering.{numbered, numbered_module};
ghost use Rattle.gi_spelling.specs.Printable.{IsPrintableModule};
ghost use Rattle.gi_spelling.specs.Printed.{printed};
ghost use Rattle.gi_spelling.specs.Same.{IsSameModule};
ghost use Rattle.gi_spelling.specs.Spelled.{IsSpelled};
ghost use Rattle.gi_spelling.specs.Spelling.{Spells};
ghost use Rattle.gi_spelling.specs.There.{NamesBlocksThatAreThere};

/// A text spells one module, up to what a text doesn't show.
pub fn spelled_module_is_one()
    ensures { (text : List ℕ) (m n : ModuleData) → Spells text m → Spells text n → IsSameModule m n }
{}

/// Modules that are the same are printed alike.
pub fn same_modules_print_alike()
    ensures { (m n : ModuleData) → IsSameModule m n → printed m ≡ printed n }
{}

/// Modules that are the same stay the same when the registers of their functions are numbered.
pub fn same_modules_are_numbered_alike()
    ensures { (m n : ModuleData) → IsSameModule m n → IsSameModule (numbered_module m) (numbered_module n) }
{}

/// Registers that are numbered keep their numbers when they are numbered again.
pub fn numbered_again()
    ensures { (f : FunctionData) → numbered (numbered f) ≡ numbered f }
{}

/// A module that is the same as a printable one is printable.
pub fn same_modules_are_printable()
    ensures { (m n : ModuleData) → IsSameModule m n → IsPrintableModule m → IsPrintableModule n }
{}

/// A printable module stays printable when the registers of its functions are numbered.
pub fn numbered_modules_are_printable()
    ensures { (m : ModuleData) → IsPrintableModule m → IsPrintableModule (numbered_module m) }
{}

/// What a text spells is printable where it names no block that isn't there.
pub fn spelled_modules_are_printable()
    ensures { (text : List ℕ) (m : ModuleData) → Spells text m → NamesBlocksThatAreThere m → IsPrintableModule m }
{}

/// What some text spells, up to the numbers of registers, is printable with its registers numbered where it names no
/// block that isn't there.
pub fn modules_of_texts_are_printable()
    ensures { (m : ModuleData) → IsSpelled m → NamesBlocksThatAreThere m → IsPrintableModule (numbered_module m) }
{}

/// What is the same as a module with its registers numbered is printed with the same bytes.
pub fn same_modules_print_again()
    ensures { (m n : ModuleData) → IsSameModule (numbered_module m) n → printed (numbered_module n) ≡ printed (numbered_module m) }
{}

/// The printed text of a printable module, whose registers it numbers by first appearance, spells no other module: what
/// is read of it is the same, and is printed with the same bytes.
pub fn printed_text_reads_back()
    ensures spelled { (m : ModuleData) → IsPrintableModule m → Spells (printed (numbered_module m)) (numbered_module m) }
    ensures same { (m n : ModuleData) → IsPrintableModule m → Spells (printed (numbered_module m)) n → IsSameModule (numbered_module m) n }
    ensures again { (m n : ModuleData) → IsPrintableModule m → Spells (printed (numbered_module m)) n → printed (numbered_module n) ≡ printed (numbered_module m) }
{}

/// The same holds of what some text spells up to the numbers of registers, where it names no block that isn't there.
pub fn modules_of_texts_read_back()
    ensures spelled { (m : ModuleData) → IsSpelled m → NamesBlocksThatAreThere m → Spells (printed (numbered_module m)) (numbered_module m) }
    ensures same { (m n : ModuleData) → IsSpelled m → NamesBlocksThatAreThere m → Spells (printed (numbered_module m)) n → IsSameModule (numbered_module m) n }
    ensures again { (m n : ModuleData) → IsSpelled m → NamesBlocksThatAreThere m → Spells (printed (numbered_module m)) n → printed (numbered_module n) ≡ printed (numbered_module m) }
{}

/// Printable modules that are printed alike are the same.
pub fn modules_printed_alike_are_the_same()
    ensures { (m n : ModuleData) → IsPrintableModule m → IsPrintableModule n → printed m ≡ printed n → IsSameModule m n }
{}
