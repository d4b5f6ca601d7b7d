//! Examples of sequences, and words at boundaries that plain programs of the instructions make again.

ghost use Rattle.std.specs.Prelude.{◌≡◌, ◌⊎◌};

use gi_llt::Target;
use gi_meaning::bits::has_bits;
use gi_meaning::gives::Gives;
use gi_meaning::words::{of_immediate, of_number, word_of_number};
use gi_mir::opcode::Opcode;
use gi_mir::operand::Flags;
use gi_riscv::{Sequence, Step, materialise};
use std::alloc::{AllocError, Global};

// A sequence as one line of text.
fn text_of(alloc: Global, sequence: Sequence) -> Result<String, AllocError> {
    let mut text = String::new(alloc);
    for step in sequence.steps.iter().take(usize::from(sequence.count)) {
        let word = match *step {
            Step::Lui(number) => format!(in alloc; "LUI {number} ")?,
            Step::Addi(number) => format!(in alloc; "ADDI {number} ")?,
            Step::Addiw(number) => format!(in alloc; "ADDIW {number} ")?,
            Step::Slli(amount) => format!(in alloc; "SLLI {amount} ")?,
        };
        text.push_str(word.as_str())?;
    }
    Ok(text)
}

// What the plain program of an instruction gives.
fn given(x: u16, word: u128, step: Step) -> Gives {
    if x != 32 && x != 64 || !has_bits(x, word) {
        return Gives::Undefined;
    }
    let none = Flags::default();
    match step {
        Step::Lui(number) => of_number(Opcode::LoadUpperImmediate, none, x, i128::from(number)),
        Step::Addi(number) => of_immediate(Opcode::AddImmediate, none, x, word, i128::from(number)),
        Step::Addiw(number) => {
            of_immediate(Opcode::AddImmediateWord, none, x, word, i128::from(number))
        }
        Step::Slli(amount) => {
            of_immediate(
                Opcode::ShiftLeftLogicalImmediate,
                none,
                x,
                word,
                i128::from(amount),
            )
        }
    }
}

// What a sequence makes of zero.
fn made(x: u16, sequence: Sequence) -> Option<u128> {
    let mut word = 0;
    for step in sequence.steps.iter().take(usize::from(sequence.count)) {
        match given(x, word, *step) {
            Gives::One(next) => word = next,
            _ => return None,
        }
    }
    Some(word)
}

#[test]
fn prints_sequences(rt: HostRuntime) -> Result<(), AllocError> {
    for (xlen, word, wanted) in [
        (32u16, 0u128, "ADDI 0 "),
        (32, 2047, "ADDI 2047 "),
        (32, 2048, "LUI 1 ADDI -2048 "),
        (32, 0x7fff_ffff, "LUI 524288 ADDI -1 "),
        (32, 0x8000_0000, "LUI 524288 "),
        (32, 0xffff_ffff, "ADDI -1 "),
        (64, 0x7fff_ffff, "LUI 524288 ADDIW -1 "),
        (64, 0x8000_0000, "ADDI 1 SLLI 31 "),
        (64, 0x1_0000_0000, "ADDI 1 SLLI 32 "),
        (64, 0x7fff_ffff_ffff_ffff, "ADDI -1 SLLI 63 ADDI -1 "),
        (64, 0x8000_0000_0000_0000, "ADDI -1 SLLI 63 "),
        (64, 0xffff_ffff_ffff_ffff, "ADDI -1 "),
        (
            64,
            1_311_768_467_463_790_320,
            "LUI 583 ADDIW -1875 SLLI 14 ADDI -947 SLLI 12 ADDI 1511 SLLI 13 ADDI -272 ",
        ),
    ] {
        assert!(rt; xlen == 32 || xlen == 64);
        assert!(rt; has_bits(xlen, word));
        let sequence = materialise(Target { xlen, zbb: false }, word);
        let text = text_of(rt.alloc(), sequence)?;
        assert_eq!(rt; text.as_str(), wanted, "{word} on {xlen}");
    }
    Ok(())
}

// Whether the sequence for a number makes its word.
fn is_made(xlen: u16, number: i128) -> bool
    requires { (xlen ≡ 32) ⊎ (xlen ≡ 64) }
{
    let word = word_of_number(xlen, number);
    made(xlen, materialise(Target { xlen, zbb: false }, word)) == Some(word)
}

// The first number near this one whose sequence doesn't make it.
fn not_made_near(xlen: u16, number: i128) -> Option<i128>
    requires { (xlen ≡ 32) ⊎ (xlen ≡ 64) }
{
    let distances: [i128; 11] = [-4096, -2049, -2048, -2047, -1, 0, 1, 2047, 2048, 2049, 4096];
    for distance in distances {
        let near = number.saturating_add(distance);
        if !is_made(xlen, near) {
            return Some(near);
        }
    }
    None
}

#[test]
fn makes_words_near_powers_of_two(rt: HostRuntime) {
    for k in 0..64u32 {
        let power = i128::from(1u64 << k);
        assert_eq!(rt; not_made_near(32, power), None, "from 2 ^ {k}");
        assert_eq!(rt; not_made_near(32, -power), None, "from -2 ^ {k}");
        assert_eq!(rt; not_made_near(64, power), None, "from 2 ^ {k}");
        assert_eq!(rt; not_made_near(64, -power), None, "from -2 ^ {k}");
    }
}

#[test]
fn makes_words_of_patterns(rt: HostRuntime) {
    for pattern in [
        0x5555_5555_5555_5555i128,
        0xaaaa_aaaa_aaaa_aaaa,
        0x0fff_0fff_0fff_0fff,
        0xf800_f800_f800_f800,
        0x7fff_f7ff_7fff_f7ff,
        0x8000_0800_8000_0800,
        0x1234_5678_9abc_def0,
        0xffff_ffff_0000_0000,
        0x0000_0001_ffff_f800,
        0x7ff8_0080_0800_8007,
    ] {
        assert_eq!(rt; not_made_near(32, pattern), None, "from {pattern}");
        assert_eq!(rt; not_made_near(64, pattern), None, "from {pattern}");
    }
}
