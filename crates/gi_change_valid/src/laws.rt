//! What a rewriting keeps, fault by fault.

ghost use Rattle.std.specs.Prelude.{◌≡◌, [], ℕ};
ghost use Rattle.gi_mir.specs.Data.{FunctionData};
ghost use Rattle.gi_valid.specs.Faults.{double_definitions, phi_entries, physical_across, sites, terminator, told, type_mismatch, unknown_block, unknown_successors};
ghost use Rattle.gi_valid.specs.Typing.{Phase};
ghost use Rattle.gi_valid.specs.Valid.{IsValid};
ghost use Rattle.gi_change_valid.specs.Conditions.{AccountsForResults, ArePlain, DefinesAnew, KeepsTypes, MakesNoNewCall, ReadsOrigins};
ghost use Rattle.gi_change_valid.specs.Rewriting.{IsRewritten, Rewriting};

/// No register comes to be defined twice.
pub fn definitions_stay_single()
    ensures { (w : Rewriting) (f g : FunctionData) → IsRewritten w f g → DefinesAnew w f → double_definitions f ≡ [] → double_definitions g ≡ [] }
{}

/// Blocks that are named are there: by instructions, and as successors.
pub fn blocks_stay_there()
    ensures by_instructions { (w : Rewriting) (f g : FunctionData) → IsRewritten w f g → ArePlain w → told (unknown_block f) (sites f) ≡ [] → told (unknown_block g) (sites g) ≡ [] }
    ensures as_successors { (w : Rewriting) (f g : FunctionData) → IsRewritten w f g → unknown_successors f 1 f.blocks ≡ [] → unknown_successors g 1 g.blocks ≡ [] }
{}

/// Phis stand first in their blocks, with one entry for each predecessor.
pub fn phis_stay_first()
    ensures { (w : Rewriting) (f g : FunctionData) → IsRewritten w f g → ArePlain w → told (phi_entries f) (sites f) ≡ [] → told (phi_entries g) (sites g) ≡ [] }
{}

/// Terminators stand last in their blocks, and go to successors.
pub fn terminators_stay_last()
    ensures { (w : Rewriting) (f g : FunctionData) → IsRewritten w f g → ArePlain w → told (terminator f) (sites f) ≡ [] → told (terminator g) (sites g) ≡ [] }
{}

/// Types meet the rows of their instructions.
pub fn types_stay_met()
    ensures { (x : ℕ) (phase : Phase) (w : Rewriting) (f g : FunctionData) → IsRewritten w f g → DefinesAnew w f → AccountsForResults w f → KeepsTypes x phase w f g → double_definitions f ≡ []
        → told (type_mismatch x phase f) (sites f) ≡ [] → told (type_mismatch x phase g) (sites g) ≡ [] }
{}

/// No physical register comes to be used behind what may overwrite it.
pub fn physical_registers_stay()
    ensures { (x : ℕ) (phase : Phase) (w : Rewriting) (f g : FunctionData) → IsRewritten w f g → ArePlain w → DefinesAnew w f → AccountsForResults w f → KeepsTypes x phase w f g → MakesNoNewCall x phase w f g → double_definitions f ≡ []
        → told (physical_across x phase f) (sites f) ≡ [] → told (physical_across x phase g) (sites g) ≡ [] }
{}

/// A valid function stays valid: also each register that is read is available.
pub fn valid_function_stays_valid()
    ensures { (x : ℕ) (phase : Phase) (w : Rewriting) (f g : FunctionData) → IsRewritten w f g → ArePlain w → DefinesAnew w f → AccountsForResults w f → ReadsOrigins w f → KeepsTypes x phase w f g → MakesNoNewCall x phase w f g
        → IsValid x phase f → IsValid x phase g }
{}
