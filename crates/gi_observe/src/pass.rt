//! The passes, in their order.

ghost use Rattle.std.specs.Prelude.{◌≡◌};
ghost use Rattle.gi_observe.specs.Passes.{word_of, place_of, pass_of, next_of};

/// A pass over a function.
#[derive(Clone, Copy, Debug, PartialEq, Eq)]
pub enum Pass {
    /// `irtranslator`
    IrTranslator,
    /// `riscv-prelegalizer-combiner`
    PreCombiner,
    /// `legalizer`
    Legalizer,
    /// `riscv-postlegalizer-combiner`
    PostCombiner,
    /// `regbankselect`
    RegBankSelect,
    /// `instruction-select`
    Select,
}

/// The passes in their order.
const PASSES: [Pass; 6] = [
    Pass::IrTranslator,
    Pass::PreCombiner,
    Pass::Legalizer,
    Pass::PostCombiner,
    Pass::RegBankSelect,
    Pass::Select,
];

impl Pass {
    /// The word of the pass, as LLVM names it.
    pub fn word(self) -> &'static str
        ensures { result.now ≡ word_of self }
    {
        match self {
            Pass::IrTranslator => "irtranslator",
            Pass::PreCombiner => "riscv-prelegalizer-combiner",
            Pass::Legalizer => "legalizer",
            Pass::PostCombiner => "riscv-postlegalizer-combiner",
            Pass::RegBankSelect => "regbankselect",
            Pass::Select => "instruction-select",
        }
    }

    /// The place of the pass in the order of passes.
    pub fn place(self) -> u8
        ensures { result ≡ place_of self }
    {
        self as u8
    }

    /// The pass with this word.
    pub fn from_word(text: &str) -> Option<Pass>
        ensures { result ≡ pass_of text.now }
    {
        PASSES.iter().copied().find(|pass| pass.word() == text)
    }

    /// The pass after this one, and the last one after the last.
    pub fn next(self) -> Pass
        ensures { result ≡ next_of self }
    {
        match self {
            Pass::IrTranslator => Pass::PreCombiner,
            Pass::PreCombiner => Pass::Legalizer,
            Pass::Legalizer => Pass::PostCombiner,
            Pass::PostCombiner => Pass::RegBankSelect,
            Pass::RegBankSelect => Pass::Select,
            Pass::Select => Pass::Select,
        }
    }
}
