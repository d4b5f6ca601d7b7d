//! The top call.

ghost use Rattle.std.specs.Prelude.{ℕ, List, Result, Ok, is_ok, ◌≡◌, ◌≢◌, ◌⊎◌, ◌≤◌, ◌<◌, ◌^◌, ◌-◌, ◌++◌, [], None, IsTrue, IfOk, OnOk, IfErr, IfSome, IsSome, IsErrOf, length, map, string_bytes, Some, codes};
ghost use Rattle.gi_io.specs.Faults.{Rose};
ghost use Rattle.gi_io.specs.Writing.{AppendsPrefix};
ghost use Rattle.gi_answer.specs.Answers.{limit, input_of, IsAnswer, RefusesWith};
ghost use Rattle.gi_top.specs.Appended.{AppendsOutput, AppendsPartOfOutput};
ghost use Rattle.gi_answer.specs.Promise.{IsCompiled, AppendsCompiled};
ghost use Rattle.gi_top.specs.Stop.{IsCause, UsageOf, UsageSaid, Says};
ghost use Rattle.std.specs.Option.{option_copied};
ghost use Rattle.gi_options.specs.Options.{OptionsData, options_of, fault_or, chosen, no_choice};

use crate::stop::{LIMIT, Stop, end_with, say};
use gi_answer::{Refused, answer};
use gi_io::{Input, Output, ReadError, read_all, write_all};
use gi_options::options::{Options, fault_with_last};
use std::alloc::Global;

/// All bytes of the input of this name.
fn read_input<'a, I: Input>(
    alloc: Global,
    name: Option<&str>,
    input: &mut I,
) -> Result<Vec<u8>, Stop<'a>>
    ensures bytes { IfOk result (λ bytes. IsTrue (I.tells input.old) → bytes.items ≡ I.stored input.old (option_copied name.entry)) }
    ensures within { IfOk result (λ bytes. length bytes.items ≤ limit) }
    ensures whole { OnOk result (IsTrue (I.tells input.old) → I.left input.new ≡ []) }
    ensures read_fault { IsErrOf result Stop.ReadFault → Rose (I.faults input.old) (I.faults input.new) }
    ensures usage { (found : Result OptionsData (List ℕ)) → IsTrue (is_ok found) → IfErr result (UsageOf found) }
    ensures cause { (options : OptionsData) → IfErr result (λ why. IsTrue (I.tells input.old) → IsCause options (I.stored input.old (option_copied name.entry)) why) }
{
    if input.open(name).is_err() {
        return Err(Stop::ReadFault);
    }
    match read_all(alloc, input, LIMIT) {
        Ok(bytes) => Ok(bytes),
        Err(ReadError::ReadFault) => Err(Stop::ReadFault),
        Err(ReadError::TooLong) => Err(Stop::TooLong),
        Err(ReadError::Memory) => Err(Stop::Memory),
    }
}

/// The text that is to be written, for options and the input that they name.
fn text_for<'a, I: Input>(
    alloc: Global,
    options: &Options<'_>,
    input: &mut I,
) -> Result<Vec<u8>, Stop<'a>>
    ensures compiled { IfOk result (λ text. IsTrue (I.tells input.old) → IsCompiled options.now (I.stored input.old options.now.input) text.items) }
    ensures output { IfOk result (λ text. IsTrue (I.tells input.old) → IsAnswer options.now (I.stored input.old options.now.input) text.items) }
    ensures usage { (found : Result OptionsData (List ℕ)) → IsTrue (is_ok found) → IfErr result (UsageOf found) }
    ensures whole { OnOk result (IsTrue (I.tells input.old) → I.left input.new ≡ []) }
    ensures read_fault { IsErrOf result Stop.ReadFault → Rose (I.faults input.old) (I.faults input.new) }
    ensures cause { IfErr result (λ why. IsTrue (I.tells input.old) → IsCause options.now (I.stored input.old options.now.input) why) }
{
    let bytes = match read_input(alloc, options.input, input) {
        Ok(bytes) => bytes,
        Err(why) => return Err(why),
    };
    match answer(alloc, options, bytes.as_slice()) {
        Ok(text) => Ok(text),
        Err(Refused::Message(message)) => Err(Stop::Refused(message)),
        Err(Refused::Memory) => Err(Stop::Memory),
    }
}

/// Writes a text to the output of this name, and answers 0, or 5 and a message after a fault.
pub fn write_text<O: Output, E: Output>(
    out: &mut O,
    err: &mut E,
    name: Option<&str>,
    text: &[u8],
) -> u8
    ensures place { result ≡ 0 → IsTrue (O.tells_place out.old) → option_copied name.entry ≡ O.place out.old }
    ensures status { (result ≡ 0) ⊎ (result ≡ 5) }
    ensures text { result ≡ 0 → IsTrue (O.tells out.old) → O.held out.new ≡ O.held out.old ++ text.now }
    ensures part { result ≡ 5 → IsTrue (O.tells out.old) → AppendsPrefix (O.held out.old) (O.held out.new) text.now }
    ensures silent { result ≡ 0 → err.new ≡ err.old }
    ensures write_fault { result ≡ 5 → Rose (O.faults out.old) (O.faults out.new) }
    ensures said { result ≡ 5 → IsTrue (E.tells err.old)
        → Says (codes "gisel: write fault") (E.faults err.old) (E.faults err.new) (E.held err.old) (E.held err.new) }
{
    if out.create(name).is_ok() && write_all(out, text).is_ok() {
        return 0;
    }
    say(err, b"gisel: write fault");
    5
}

/// Says which word is at fault where a word isn't UTF-8, and answers status 2, or 3 where the message
/// finds no memory. `words` are the words up to that one; the last of them, `last`, shows it with
/// U+FFFD for what isn't UTF-8.
pub fn refuse_word<E: Output>(alloc: Global, words: &[String], last: &str, err: &mut E) -> u8
    ensures status { (result ≡ 2) ⊎ (result ≡ 3) }
    ensures said { result ≡ 2 → IsTrue (E.tells err.old)
        → Says (codes "gisel: usage: " ++ fault_or (chosen no_choice (map string_bytes words.now)) last.now)
        (E.faults err.old) (E.faults err.new) (E.held err.old) (E.held err.new) }
    ensures no_memory_said { result ≡ 3 → IsTrue (E.tells err.old)
        → Says (codes "gisel: memory") (E.faults err.old) (E.faults err.new) (E.held err.old) (E.held err.new) }
{
    end_with(alloc, err, &Stop::Usage(fault_with_last(words, last)))
}

/// Reads a text, runs the passes that the words ask for and writes the text that they
/// leave. The answer is the status of the program:
///
/// | Status | Reason |
/// |---|---|
/// | 0 | done |
/// | 1 | the input is refused |
/// | 2 | the words |
/// | 3 | no memory |
/// | 4 | a read fault |
/// | 5 | a write fault |
///
/// On each status but 0 `err` gets a message of one line.
pub fn gisel<I: Input, O: Output, E: Output>(
    alloc: Global,
    words: &[String],
    input: &mut I,
    out: &mut O,
    err: &mut E,
) -> u8
    ensures compiled { result ≡ 0 → IsTrue (I.tells input.old) → IsTrue (O.tells out.old)
        → AppendsCompiled (map string_bytes words.now) (I.stored input.old (input_of (map string_bytes words.now))) (O.held out.old) (O.held out.new) }
    ensures output { result ≡ 0 → IsTrue (I.tells input.old) → IsTrue (O.tells out.old)
        → AppendsOutput (map string_bytes words.now) (I.stored input.old (input_of (map string_bytes words.now))) (O.held out.old) (O.held out.new) }
    ensures place { result ≡ 0 → IsTrue (O.tells_place out.old)
        → IfOk (options_of (map string_bytes words.now)) (λ options. options.output ≡ O.place out.old) }
    ensures whole { result ≡ 0 → IsTrue (I.tells input.old) → I.left input.new ≡ [] }
    ensures silent { result ≡ 0 → err.new ≡ err.old }

    // Status 1 comes of an input that is refused, and the message says why.
    ensures refused { result ≡ 1 → IsTrue (I.tells input.old)
        → RefusesWith (map string_bytes words.now) (I.stored input.old (input_of (map string_bytes words.now))) (λ message. IsTrue (E.tells err.old)
        → Says message (E.faults err.old) (E.faults err.new) (E.held err.old) (E.held err.new)) }
    ensures read_fault { result ≡ 4 → Rose (I.faults input.old) (I.faults input.new) }
    ensures write_fault { result ≡ 5 → Rose (O.faults out.old) (O.faults out.new) }
    ensures part { result ≡ 5 → IsTrue (I.tells input.old) → IsTrue (O.tells out.old)
        → AppendsPartOfOutput (map string_bytes words.now) (I.stored input.old (input_of (map string_bytes words.now))) (O.held out.old) (O.held out.new) }
    ensures untouched { result ≢ 0 → result ≢ 5 → IsTrue (O.tells out.old) → O.held out.new ≡ O.held out.old }
    ensures not_created { result ≢ 0 → result ≢ 5 → O.created out.new ≡ O.created out.old }

    // Status 2 comes only of words at fault, and such words give no other, but where memory runs out.
    ensures words { IfErr (options_of (map string_bytes words.now)) (λ word. (result ≡ 2) ⊎ (result ≡ 3)) }
    ensures usage { result ≡ 2 → UsageSaid (options_of (map string_bytes words.now)) (λ word. IsTrue (E.tells err.old)
        → Says (codes "gisel: usage: " ++ word) (E.faults err.old) (E.faults err.new) (E.held err.old) (E.held err.new)) }
    ensures read_fault_said { result ≡ 4 → IsTrue (E.tells err.old)
        → Says (codes "gisel: read fault") (E.faults err.old) (E.faults err.new) (E.held err.old) (E.held err.new) }
    ensures write_fault_said { result ≡ 5 → IsTrue (E.tells err.old)
        → Says (codes "gisel: write fault") (E.faults err.old) (E.faults err.new) (E.held err.old) (E.held err.new) }
    // There is no other status, and words that are right give none but 0, 1 or 3 where no call failed.
    ensures statuses { result ≤ 5 }
    ensures complete { IsTrue (is_ok (options_of (map string_bytes words.now)))
        → (Rose (I.faults input.old) (I.faults input.new) → ⊥) → (Rose (O.faults out.old) (O.faults out.new) → ⊥)
        → (result ≡ 0) ⊎ ((result ≡ 1) ⊎ (result ≡ 3)) }
    ensures no_memory_said { result ≡ 3 → IsTrue (E.tells err.old)
        → Says (codes "gisel: memory") (E.faults err.old) (E.faults err.new) (E.held err.old) (E.held err.new) }
{
    let options = match Options::from_words(words) {
        Ok(options) => options,
        Err(word) => return end_with(alloc, err, &Stop::Usage(word)),
    };
    match text_for(alloc, &options, input) {
        Ok(text) => write_text(out, err, options.output, text.as_slice()),
        Err(why) => end_with(alloc, err, &why),
    }
}
