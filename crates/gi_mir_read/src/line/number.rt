//! The numbers of registers, blocks, stack objects and types.

ghost use Rattle.std.specs.Prelude.{◌≡◌, ◌+◌, ◌*◌, min};
ghost use Rattle.std.specs.List.{list_all};
ghost use Rattle.std.specs.Option.{option_copied};
ghost use Rattle.gi_llt.specs.Tokens.{is_digit, is_word_byte, run_of, past_run};
ghost use Rattle.gi_text.specs.Numbers.{digit_value, value_after};
ghost use Rattle.gi_spelling.specs.Words.{behind, is_plain, is_plain_signed, is_pointed_name, numeral, numeral_before_name};

use gi_text::{digit_length, digit_value, is_digit, is_word_byte};

/// Whether all bytes are digits.
pub(crate) fn are_digits(bytes: &[u8]) -> bool
    ensures { result ≡ list_all is_digit bytes.now }
{
    bytes.iter().all(|byte| is_digit(*byte))
}

/// Whether all bytes may stand in a word.
fn are_word_bytes(bytes: &[u8]) -> bool
    ensures { result ≡ list_all is_word_byte bytes.now }
{
    bytes.iter().all(|byte| is_word_byte(*byte))
}

/// One or more digits, the first of several no zero.
pub(crate) fn is_plain(bytes: &[u8]) -> bool
    ensures { result ≡ is_plain bytes.now }
{
    match bytes {
        [] => false,
        [digit] => is_digit(*digit),
        [first, rest @ ..] => is_digit(*first) && *first != b'0' && are_digits(rest),
    }
}

/// Plain digits, or a minus and plain digits that aren't zero.
pub(crate) fn is_plain_signed(bytes: &[u8]) -> bool
    ensures { result ≡ is_plain_signed bytes.now }
{
    match bytes {
        [] => false,
        [b'-', digits @ ..] => is_plain(digits) && digits != b"0".as_slice(),
        _ => is_plain(bytes),
    }
}

/// The value of digits, where one above the bound counts as the bound.
fn value_within(bound: u32, digits: &[u8]) -> u32
    ensures { result ≡ min (value_after 10 0 digits.now) bound }
{
    let mut value: u32 = 0;
    for digit in digits {
        value = extended(value, *digit, bound);
    }
    value
}

/// The value with one digit more, and the bound where it passes that.
fn extended(value: u32, digit: u8, bound: u32) -> u32
    ensures { result ≡ min (value * 10 + digit_value digit) bound }
{
    let longer = u64::from(value) * 10 + u64::from(digit_value(digit));
    longer.min(u64::from(bound)) as u32
}

/// The number that plain digits write, where one above the bound counts as the bound.
pub(crate) fn numeral(bound: u32, bytes: &[u8]) -> Option<u32>
    ensures { result ≡ numeral bound bytes.now }
{
    if is_plain(bytes) {
        Some(value_within(bound, bytes))
    } else {
        None
    }
}

/// What stands behind a prefix.
pub(crate) fn behind<'a>(prefix: &[u8], bytes: &'a [u8]) -> Option<&'a [u8]>
    ensures { option_copied result ≡ behind prefix.now bytes.now }
{
    bytes.strip_prefix(prefix)
}

/// The digits at the front.
fn digits(bytes: &[u8]) -> &[u8]
    ensures { result.now ≡ run_of is_digit bytes.now }
{
    let (digits, _) = bytes.split_at(digit_length(bytes));
    digits
}

/// What stands behind the digits at the front.
fn behind_digits(bytes: &[u8]) -> &[u8]
    ensures { result.now ≡ past_run is_digit bytes.now }
{
    let (_, rest) = bytes.split_at(digit_length(bytes));
    rest
}

/// A name behind a point: one or more word bytes.
fn is_pointed_name(bytes: &[u8]) -> bool
    ensures { result ≡ is_pointed_name bytes.now }
{
    match bytes {
        [] | [_] => false,
        [point, name @ ..] => *point == b'.' && are_word_bytes(name),
    }
}

/// Digits, and behind them nothing or a name.
pub(crate) fn numeral_before_name(bound: u32, bytes: &[u8]) -> Option<u32>
    ensures { result ≡ numeral_before_name bound bytes.now }
{
    if is_pointed_name(behind_digits(bytes)) {
        numeral(bound, digits(bytes))
    } else {
        numeral(bound, bytes)
    }
}
