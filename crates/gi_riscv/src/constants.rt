//! Constants by instructions.

ghost use Rattle.std.specs.Prelude.{◌≡◌, ◌<◌, ◌≤◌, ◌+◌, ◌*◌, ◌^◌, ◌⊎◌, ◌∷◌, [], ◌++◌, take, nat_abs, IsTrue};
ghost use Rattle.gi_llt.specs.Bits.{signed};
ghost use Rattle.gi_meaning.specs.Machine as machine;
ghost use Rattle.gi_riscv.specs.Materialised.{materialised, low_part, high_part, fits_32, unless_zero, lower, upper_and_lower, without_low, zeros_of, steps_in};
ghost use Rattle.gi_riscv.specs.Steps.{Make};

use gi_llt::Target;

/// An instruction on the word before it; the first of a sequence is on zero.
#[derive(Clone, Copy, Debug, PartialEq, Eq)]
pub enum Step {
    /// `LUI`, which takes no word.
    Lui(u32),
    Addi(i16),
    /// RV64 alone has it.
    Addiw(i16),
    Slli(u8),
}

/// Steps, of which the first `count` count.
#[derive(Clone, Copy, Debug, PartialEq, Eq)]
pub struct Sequence {
    pub steps: [Step; 8],
    pub count: u8,
}

impl Sequence {
    // No steps.
    fn empty() -> Sequence
        ensures { result.count ≡ 0 }
    {
        Sequence {
            steps: [Step::Addi(0); 8],
            count: 0,
        }
    }

    // Adds a step at the end.
    fn push(&mut self, step: Step)
        requires room { self.old.count < 8 }
        ensures count { self.new.count ≡ self.old.count + 1 }
        ensures steps { take self.new.count self.new.steps ≡ take self.old.count self.old.steps ++ step ∷ [] }
    {
        self.steps[usize::from(self.count)] = step;
        self.count += 1;
    }
}

// The low 12 bits, read with a sign.
fn low_part(number: i64) -> i16
    ensures { result ≡ low_part number }
{
    let low = number.rem_euclid(4096) as i16;
    if low < 2048 { low } else { low - 4096 }
}

// The 20 bits above them of a number of 32 bits, one more where the low part is below 0.
fn high_part(number: i64) -> u32
    requires { IsTrue (fits_32 number) }
    ensures { result ≡ high_part number }
{
    ((number + 2048).rem_euclid(0x1_0000_0000) / 4096) as u32
}

// Whether the number is one of 12 bits with a sign.
fn is_immediate(number: i64) -> bool
    ensures { result ≡ machine.is_immediate number }
{
    -2048 <= number && number <= 2047
}

// Whether the number is one of 32 bits with a sign.
fn fits_32(number: i64) -> bool
    ensures { result ≡ fits_32 number }
{
    i64::from(i32::MIN) <= number && number <= i64::from(i32::MAX)
}

// The number without its low part.
fn without_low(number: i64) -> i64
    ensures { result ≡ signed 64 (without_low number) }
{
    number.wrapping_sub(i64::from(low_part(number)))
}

// How many zeros that ends with.
fn zeros_of(number: i64) -> u8
    ensures { result ≡ zeros_of number }
{
    without_low(number).trailing_zeros() as u8
}

// Adds the step that adds a low part, where there is something to add.
fn append_low(sequence: &mut Sequence, low: i16, step: Step)
    requires room { sequence.old.count < 8 }
    ensures steps { take sequence.new.count sequence.new.steps ≡ take sequence.old.count sequence.old.steps ++ unless_zero low step }
    ensures count { sequence.new.count ≤ sequence.old.count + 1 }
{
    if low != 0 {
        sequence.push(step);
    }
}

// The step that adds a low part to what `LUI` gives.
fn lower(target: Target, low: i16) -> Step
    ensures { result ≡ lower target.xlen low }
{
    if target.xlen == 32 {
        Step::Addi(low)
    } else {
        Step::Addiw(low)
    }
}

// Adds the steps of a number of 32 bits.
fn append_upper_and_lower(sequence: &mut Sequence, target: Target, number: i64)
    requires fits { IsTrue (fits_32 number) }
    requires room { sequence.old.count + 2 ≤ 8 }
    ensures steps { take sequence.new.count sequence.new.steps ≡ take sequence.old.count sequence.old.steps ++ upper_and_lower target.xlen number }
    ensures count { sequence.new.count ≤ sequence.old.count + 2 }
{
    let low = low_part(number);
    sequence.push(Step::Lui(high_part(number)));
    append_low(sequence, low, lower(target, low));
}

// Adds the steps of a number in at most so many rounds.
fn append(sequence: &mut Sequence, target: Target, rounds: u8, number: i64)
    requires room { sequence.old.count + 2 + 2 * rounds ≤ 8 }
    requires enough { nat_abs number ≤ 2 ^ (30 + 11 * rounds) }
    ensures steps { take sequence.new.count sequence.new.steps ≡ take sequence.old.count sequence.old.steps ++ steps_in rounds target.xlen number }
    ensures count { sequence.new.count ≤ sequence.old.count + 2 + 2 * rounds }
{
    if is_immediate(number) {
        return sequence.push(Step::Addi(number as i16));
    }
    if fits_32(number) {
        return append_upper_and_lower(sequence, target, number);
    }
    let low = low_part(number);
    let zeros = zeros_of(number);
    append(sequence, target, rounds - 1, without_low(number) >> zeros);
    sequence.push(Step::Slli(zeros));
    append_low(sequence, low, Step::Addi(low));
}

// The number that a word stands for.
fn number_of(target: Target, word: u128) -> i64
    requires xlen { (target.xlen ≡ 32) ⊎ (target.xlen ≡ 64) }
    requires fits { word < 2 ^ target.xlen }
    ensures number { result ≡ signed target.xlen word }
    ensures enough { nat_abs result ≤ 2 ^ 63 }
{
    if target.xlen == 32 {
        i64::from((word as u32).cast_signed())
    } else {
        (word as u64).cast_signed()
    }
}

/// The steps that make a word from zero.
pub fn materialise(target: Target, word: u128) -> Sequence
    requires xlen { (target.xlen ≡ 32) ⊎ (target.xlen ≡ 64) }
    requires fits { word < 2 ^ target.xlen }
    ensures count { result.count ≤ 8 }
    ensures steps { take result.count result.steps ≡ materialised target.xlen word }
    ensures made { Make target.xlen 0 (take result.count result.steps) word }
{
    let mut sequence = Sequence::empty();
    append(&mut sequence, target, 3, number_of(target, word));
    sequence
}
