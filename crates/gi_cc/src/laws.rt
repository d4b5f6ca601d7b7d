//! What is promised of the convention beyond the call.

ghost use Rattle.std.specs.Prelude.{◌≡◌, true};
ghost use Rattle.std.specs.List.{list_all};
ghost use Rattle.gi_cc.specs.Examples.{examples, is_as_in_llvm};

/// Arguments have the registers that LLVM gives them.
pub fn registers_are_those_of_llvm()
    ensures { list_all is_as_in_llvm examples ≡ true }
{}
