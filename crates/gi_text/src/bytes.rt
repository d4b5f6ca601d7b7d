//! What a byte may begin, and how far runs of bytes reach.

ghost use Rattle.std.specs.Prelude.{◌≡◌, ◌==◌, ◌≤◌, length, position};
ghost use Rattle.gi_llt.specs.Tokens.{is_digit, is_hexadecimal_digit, is_word_start, is_word_byte, is_mark, start_of, run_of};
ghost use Rattle.gi_text.specs.Steps.{start_in};

/// What may begin with a byte.
#[derive(Clone, Copy, Debug, PartialEq, Eq)]
pub enum Begin {
    Blank,
    Comment,
    Word,
    Number,
    Minus,
    Register,
    Physical,
    Global,
    Routine,
    Quoted,
    Metadata,
    Mark,
    Nothing,
}

/// From `0` to `9`.
pub fn is_digit(byte: u8) -> bool
    ensures { result ≡ is_digit byte }
{
    48 <= byte && byte <= 57
}

/// A digit of a number behind `0x`.
pub fn is_hexadecimal_digit(byte: u8) -> bool
    ensures { result ≡ is_hexadecimal_digit byte }
{
    is_digit(byte) || 65 <= byte && byte <= 70 || 97 <= byte && byte <= 102
}

/// A letter or `_`.
fn is_word_start(byte: u8) -> bool
    ensures { result ≡ is_word_start byte }
{
    65 <= byte && byte <= 90 || 97 <= byte && byte <= 122 || byte == b'_'
}

/// A letter, a digit, `_`, `.`, `-` or `$`.
pub fn is_word_byte(byte: u8) -> bool
    ensures { result ≡ is_word_byte byte }
{
    is_word_start(byte) || is_digit(byte) || byte == b'.' || byte == b'-' || byte == b'$'
}

/// A byte that is a token by itself.
fn is_mark(byte: u8) -> bool
    ensures { result ≡ is_mark byte }
{
    b"()[]{}<>,=:*+-#.|".iter().any(|mark| byte == *mark)
}

/// What may begin with this byte.
pub fn begin_of(byte: u8) -> Begin
    ensures { start_in result ≡ start_of byte }
{
    if is_word_start(byte) {
        return Begin::Word;
    }
    if is_digit(byte) {
        return Begin::Number;
    }
    match byte {
        b' ' | b'\t' | b'\r' => Begin::Blank,
        b';' => Begin::Comment,
        b'-' => Begin::Minus,
        b'%' => Begin::Register,
        b'$' => Begin::Physical,
        b'@' => Begin::Global,
        b'&' => Begin::Routine,
        b'"' | b'\'' => Begin::Quoted,
        b'!' => Begin::Metadata,
        _ if is_mark(byte) => Begin::Mark,
        _ => Begin::Nothing,
    }
}

/// How many word bytes stand at the front.
pub fn word_length(bytes: &[u8]) -> usize
    ensures run { result ≡ length (run_of is_word_byte bytes.now) }
    ensures within { result ≤ length bytes.now }
{
    for (count, byte) in bytes.iter().enumerate() {
        if !is_word_byte(*byte) {
            return count;
        }
    }
    bytes.len()
}

/// How many digits stand at the front.
pub fn digit_length(bytes: &[u8]) -> usize
    ensures run { result ≡ length (run_of is_digit bytes.now) }
    ensures within { result ≤ length bytes.now }
{
    for (count, byte) in bytes.iter().enumerate() {
        if !is_digit(*byte) {
            return count;
        }
    }
    bytes.len()
}

/// How many hexadecimal digits stand at the front.
pub fn hexadecimal_length(bytes: &[u8]) -> usize
    ensures run { result ≡ length (run_of is_hexadecimal_digit bytes.now) }
    ensures within { result ≤ length bytes.now }
{
    for (count, byte) in bytes.iter().enumerate() {
        if !is_hexadecimal_digit(*byte) {
            return count;
        }
    }
    bytes.len()
}

/// The first place of a byte.
pub fn place_of(byte: u8, bytes: &[u8]) -> Option<usize>
    ensures { result ≡ position (λ other. other == byte) bytes.now }
{
    bytes.iter().position(|other| *other == byte)
}
