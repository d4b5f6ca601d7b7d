//! Laws about addresses.

ghost use Rattle.std.specs.Prelude.{◌≡◌, ◌⊎◌, ℕ, List};
ghost use Rattle.gi_mir.specs.declared.operand.Flags.{Flags};
ghost use Rattle.gi_meaning.specs.State.{World, IsWorld};
ghost use Rattle.gi_riscv.specs.Addresses.{IsReached, AddressIsMade};

/// `LUI` of the high part of a symbol's address and `ADDI` of its low part make the address, where they reach it;
/// and so they do for each global of a world.
pub fn address_is_made()
    ensures address { (flags : Flags) (x : ℕ) (name : List ℕ) (address : ℕ) → (x ≡ 32) ⊎ (x ≡ 64)
        → IsReached x address → AddressIsMade flags x name address }
    ensures global { (flags : Flags) (x : ℕ) (name : List ℕ) (world : World) → (x ≡ 32) ⊎ (x ≡ 64)
        → IsWorld x world → AddressIsMade flags x name (world.global name) }
{}
