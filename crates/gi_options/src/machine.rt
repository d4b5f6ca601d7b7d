//! The machines that code is made for.

ghost use Rattle.std.specs.Prelude.{◌≡◌, ◌⊎◌};
ghost use Rattle.gi_options.specs.Machine.{machine_of, width_of};

use gi_llt::Target;

/// RISC-V with registers of 32 or of 64 bits.
#[derive(Clone, Copy, Debug, PartialEq, Eq)]
pub enum Machine {
    Riscv32,
    Riscv64,
}

impl Machine {
    /// The machine of a triple, by how it begins.
    pub fn from_triple(triple: &[u8]) -> Option<Machine>
        ensures { result ≡ machine_of triple.now }
    {
        if triple.starts_with(b"riscv32") {
            Some(Machine::Riscv32)
        } else if triple.starts_with(b"riscv64") {
            Some(Machine::Riscv64)
        } else {
            None
        }
    }

    /// The machine as the target of code, without Zbb.
    pub fn target(self) -> Target
        ensures width { result.xlen ≡ width_of self }
        ensures known { (result.xlen ≡ 32) ⊎ (result.xlen ≡ 64) }
    {
        match self {
            Machine::Riscv32 => Target {
                xlen: 32,
                zbb: false,
            },
            Machine::Riscv64 => Target {
                xlen: 64,
                zbb: false,
            },
        }
    }
}
