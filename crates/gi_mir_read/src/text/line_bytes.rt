//! What a line is by its bytes.

ghost use Rattle.std.specs.Prelude.{◌≡◌, ◌==◌, ◌<◌, ◌≤◌, [], length, take, drop, bytes_eq, codes, not, position, IfSome, MatchOption, List, ℕ, ◌≢◌, ◌++◌};
ghost use Rattle.gi_llt.specs.Tokens.{is_blank, is_word_start, is_word_byte, past_run, run_of, tokens_of};
ghost use Rattle.gi_spelling.specs.Lines.{is_empty_line, is_dropped, without_comment, without_last_blanks, line_bytes, value_bytes, is_start, is_end, is_bar_behind_blanks, is_block_start, begins_at_column_one, key_of, behind_key, is_entry, behind_colon};

use gi_text::word_length;

/// A space, a tab or a carriage return.
fn is_blank(byte: u8) -> bool
    ensures { result ≡ is_blank byte }
{
    byte == b' ' || byte == b'\t' || byte == b'\r'
}

/// The place of the first byte that is no blank.
fn past_blanks_place(bytes: &[u8]) -> Option<usize>
    ensures place { result ≡ position (λ byte. not (is_blank byte)) bytes.now }
    ensures within { IfSome result (λ place. place < length bytes.now) }
{
    bytes.iter().position(|byte| !is_blank(*byte))
}

/// What stands behind the blanks at the front.
fn past_blanks(bytes: &[u8]) -> &[u8]
    ensures past { result.now ≡ past_run is_blank bytes.now }
    ensures within { length result.now ≤ length bytes.now }
{
    match past_blanks_place(bytes) {
        Some(place) => &bytes[place..],
        None => &[],
    }
}

/// Whether a line has no token.
fn is_empty_line(line: &[u8]) -> bool
    ensures { result ≡ is_empty_line (tokens_of line.now) }
{
    match past_blanks(line) {
        [] => true,
        [first, ..] => *first == b';',
    }
}

/// Whether a line is passed over.
pub(crate) fn is_dropped(line: &[u8]) -> bool
    ensures { result ≡ is_dropped line.now }
{
    match line {
        [b'#', ..] => true,
        _ => is_empty_line(line),
    }
}

/// Where a comment begins.
fn comment_place(line: &[u8]) -> Option<usize>
    ensures place { result ≡ position (λ byte. byte == 59) line.now }
    ensures within { IfSome result (λ place. place < length line.now) }
{
    line.iter().position(|byte| *byte == b';')
}

/// A line up to its comment.
fn without_comment(line: &[u8]) -> &[u8]
    ensures { result.now ≡ without_comment line.now }
{
    match comment_place(line) {
        Some(place) => &line[..place],
        None => line,
    }
}

/// The bytes before the blanks at the end.
fn without_last_blanks(bytes: &[u8]) -> &[u8]
    ensures { result.now ≡ without_last_blanks bytes.now }
{
    let mut end = bytes.len();
    while 0 < end && is_blank(bytes[end - 1]) {
        end -= 1;
    }
    &bytes[..end]
}

/// A line up to its comment, less the blanks at its end.
fn line_bytes(line: &[u8]) -> &[u8]
    ensures { result.now ≡ line_bytes line.now }
{
    without_last_blanks(without_comment(line))
}

/// A line up to its comment, less the blanks around it.
pub(crate) fn value_bytes(line: &[u8]) -> &[u8]
    ensures { result.now ≡ value_bytes line.now }
{
    past_blanks(line_bytes(line))
}

/// Whether a document begins with the line.
pub(crate) fn is_start(line: &[u8]) -> bool
    ensures { result ≡ is_start line.now }
{
    line_bytes(line) == b"---".as_slice()
}

/// Whether a document ends with the line.
pub(crate) fn is_end(line: &[u8]) -> bool
    ensures { result ≡ is_end line.now }
{
    line_bytes(line) == b"...".as_slice()
}

/// Whether blanks stand here, and a bar behind them.
fn is_bar_behind_blanks(bytes: &[u8]) -> bool
    ensures { result ≡ is_bar_behind_blanks bytes.now }
{
    match bytes {
        [] => false,
        [first, rest @ ..] => is_blank(*first) && past_blanks(rest) == b"|".as_slice(),
    }
}

/// What stands behind three dashes.
fn behind_dashes(bytes: &[u8]) -> Option<&[u8]>
    ensures { MatchOption result ((rest : List ℕ) → bytes.now ≢ codes "---" ++ rest) (λ rest. bytes.now ≡ codes "---" ++ rest.now) }
{
    bytes.strip_prefix(b"---".as_slice())
}

/// Whether an IR block begins with the line.
pub(crate) fn is_block_start(line: &[u8]) -> bool
    ensures { result ≡ is_block_start line.now }
{
    match behind_dashes(line_bytes(line)) {
        Some(rest) => is_bar_behind_blanks(rest),
        None => false,
    }
}

/// Whether a line stands under no key: it begins one, or it is wrong.
pub(crate) fn is_at_column_one(line: &[u8]) -> bool
    ensures { result ≡ begins_at_column_one line.now }
{
    match line {
        [] => false,
        [first, ..] => !is_blank(*first) && *first != b'-' || is_block_start(line),
    }
}

/// A letter or `_`.
fn is_word_start(byte: u8) -> bool
    ensures { result ≡ is_word_start byte }
{
    65 <= byte && byte <= 90 || 97 <= byte && byte <= 122 || byte == b'_'
}

/// How many bytes the key of a line has.
fn key_length(line: &[u8]) -> usize
    ensures run { result ≡ length (key_of line.now) }
    ensures key { take result line.now ≡ key_of line.now }
    ensures within { result ≤ length line.now }
{
    match line {
        [first, ..] if is_word_start(*first) => word_length(line),
        _ => 0,
    }
}

/// The key of a line.
pub(crate) fn key_of(line: &[u8]) -> &[u8]
    ensures { result.now ≡ key_of line.now }
{
    &line[..key_length(line)]
}

/// What stands behind the key and blanks.
fn behind_key(line: &[u8]) -> &[u8]
    ensures behind { result.now ≡ behind_key line.now }
    ensures within { length result.now ≤ length line.now }
{
    past_blanks(&line[key_length(line)..])
}

/// Whether the line is `key: value`.
pub(crate) fn is_entry(line: &[u8]) -> bool
    ensures { result ≡ is_entry line.now }
{
    key_length(line) != 0 && behind_key(line).first() == Some(&b':')
}

/// What stands behind the colon.
pub(crate) fn behind_colon(line: &[u8]) -> &[u8]
    ensures behind { result.now ≡ behind_colon line.now }
    ensures within { length result.now ≤ length line.now }
{
    match behind_key(line) {
        [] => &[],
        [_, rest @ ..] => rest,
    }
}
