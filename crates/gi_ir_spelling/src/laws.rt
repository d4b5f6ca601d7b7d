//! What is promised of lines of LLVM IR.

ghost use Rattle.std.specs.Prelude.{◌≡◌, true};
ghost use Rattle.std.specs.List.{list_all};
ghost use Rattle.gi_ir_spelling.specs.Examples.{examples, is_as_told};

/// Lines as they stand in texts are right, or wrong at the token that is told.
pub fn example_lines()
    ensures { list_all is_as_told examples ≡ true }
{}
