//! The words of the command line.

ghost use Rattle.std.specs.Prelude.{◌≡◌, ◌≤◌, ◌<◌, ◌∷◌, Some, option_map, ◌++◌, IfOk, IfErr, Ok, Err, length, drop, map, string_bytes, IsTrue};
ghost use Rattle.std.specs.Option.{option_copied};
ghost use Rattle.gi_observe.specs.Passes.{pass_of};
ghost use Rattle.gi_options.specs.Machine.{machine_of};
ghost use Rattle.gi_options.specs.Options.{without_prefix, option_name, named, named_pass, setting_of, no_choice, is_set, takes_next, with_setting, setting_at, first_setting, chosen, options_in, file_name, is_before, options_of, fault_or};

use crate::machine::Machine;
use gi_observe::Pass;
use std::marker::Model;

/// What a word sets.
#[derive(Clone, Copy, Debug, PartialEq, Eq)]
pub enum Setting {
    /// `-mtriple=T`
    Triple(Machine),
    /// `-mattr=+m`
    Attributes,
    /// `-global-isel`
    GlobalIsel,
    /// `-start-after=P`
    Start(Pass),
    /// `-stop-after=P`
    Stop(Pass),
    /// `-o`, whose FILE is the next word
    Output,
    /// a word that is no option
    File,
}

/// What stands behind a prefix, if it stands there.
#[tactic(auto, using(crate::proofs::OptionLemmas::without_prefix_of, crate::proofs::OptionLemmas::without_prefix_none))]
fn without_prefix<'a>(prefix: &str, word: &'a str) -> Option<&'a str>
    ensures { option_copied result ≡ without_prefix prefix.now word.now }
{
    word.strip_prefix(prefix)
}

/// An option less its one or two dashes; `-` alone is none.
fn option_name(word: &str) -> Option<&str>
    ensures { option_copied result ≡ option_name word.now }
{
    if word == "-" {
        return None;
    }
    match without_prefix("--", word) {
        Some(name) => Some(name),
        None => without_prefix("-", word),
    }
}

/// The machine of a triple.
fn set_target(triple: &str) -> Option<Setting>
    ensures { result ≡ option_map (λ machine. Setting.Triple machine) (machine_of triple.now) }
{
    match Machine::from_triple(triple.as_bytes()) {
        Some(machine) => Some(Setting::Triple(machine)),
        None => None,
    }
}

/// The pass of a word behind which the run starts.
fn set_start(word: &str) -> Option<Setting>
    ensures { result ≡ option_map (λ pass. Setting.Start pass) (pass_of word.now) }
{
    match Pass::from_word(word) {
        Some(pass) => Some(Setting::Start(pass)),
        None => None,
    }
}

/// The pass of a word with which the run ends.
fn set_stop(word: &str) -> Option<Setting>
    ensures { result ≡ option_map (λ pass. Setting.Stop pass) (pass_of word.now) }
{
    match Pass::from_word(word) {
        Some(pass) => Some(Setting::Stop(pass)),
        None => None,
    }
}

/// What an option that names a pass sets.
fn named_pass(name: &str) -> Option<Setting>
    ensures { result ≡ named_pass name.now }
{
    match without_prefix("start-after=", name) {
        Some(word) => set_start(word),
        None => match without_prefix("stop-after=", name) {
            Some(word) => set_stop(word),
            None => None,
        },
    }
}

/// What an option of this name sets.
fn named(name: &str) -> Option<Setting>
    ensures { result ≡ named name.now }
{
    if name == "mattr=+m" {
        return Some(Setting::Attributes);
    }
    if name == "global-isel" {
        return Some(Setting::GlobalIsel);
    }
    if name == "o" {
        return Some(Setting::Output);
    }
    match without_prefix("mtriple=", name) {
        Some(triple) => set_target(triple),
        None => named_pass(name),
    }
}

/// What a word sets.
fn setting_of(word: &str) -> Option<Setting>
    ensures { result ≡ setting_of word.now }
{
    match option_name(word) {
        Some(name) => named(name),
        None => Some(Setting::File),
    }
}

/// What the words so far have set.
#[derive(Drop)]
struct Choice<'a> {
    target: Option<Machine>,
    attributes: bool,
    isel: bool,
    start: Option<Pass>,
    stop: Option<Pass>,
    stop_word: &'a str,
    input: Option<&'a str>,
    output: Option<&'a str>,
}

impl<'a> Model for Choice<'a> {
    ghost use Rattle.std.specs.Option.{option_copied};
    ghost use Rattle.gi_options.specs.Options.{Choice as ChoiceData};

    ghost Value = { ChoiceData };

    ghost view = { λ a. record { target = a.target; attributes = a.attributes; isel = a.isel; start = a.start; stop = a.stop; stop_word = a.stop_word.now; input = option_copied a.input; output = option_copied a.output } };
}

impl<'a> Choice<'a> {
    /// Nothing is set.
    fn new() -> Choice<'a>
        ensures { result ≡ no_choice }
    {
        Choice {
            target: None,
            attributes: false,
            isel: false,
            start: None,
            stop: None,
            stop_word: "",
            input: None,
            output: None,
        }
    }

    /// Whether a thing has been set.
    fn is_set(&self, setting: Setting) -> bool
        ensures { result ≡ is_set self.now setting }
    {
        match setting {
            Setting::Triple(_) => self.target.is_some(),
            Setting::Attributes => self.attributes,
            Setting::GlobalIsel => self.isel,
            Setting::Start(_) => self.start.is_some(),
            Setting::Stop(_) => self.stop.is_some(),
            Setting::Output => self.output.is_some(),
            Setting::File => self.input.is_some(),
        }
    }

    /// What a word sets that may set it.
    fn setting_at(&self, word: &str) -> Option<Setting>
        ensures { result ≡ setting_at self.now word.now }
    {
        match setting_of(word) {
            Some(setting) => {
                if self.is_set(setting) {
                    None
                } else {
                    Some(setting)
                }
            }
            None => None,
        }
    }

    /// Sets what a word sets, where the next word stands behind it.
    fn set(&mut self, setting: Setting, word: &'a str, next: &'a str)
        ensures { self.new ≡ with_setting self.old setting word.now next.now }
    {
        match setting {
            Setting::Triple(machine) => self.target = Some(machine),
            Setting::Attributes => self.attributes = true,
            Setting::GlobalIsel => self.isel = true,
            Setting::Start(pass) => self.start = Some(pass),
            Setting::Stop(pass) => {
                self.stop = Some(pass);
                self.stop_word = word;
            }
            Setting::Output => self.output = Some(next),
            Setting::File => self.input = Some(word),
        }
    }
}

/// Whether the next word belongs to this one.
fn takes_next(setting: Setting) -> bool
    ensures { result ≡ takes_next setting }
{
    match setting {
        Setting::Output => true,
        _ => false,
    }
}

/// What the words set, or the leftmost that is at fault.
fn chosen<'a>(words: &'a [String]) -> Result<Choice<'a>, &'a str>
    ensures ok { IfOk result (λ choice. chosen no_choice (map string_bytes words.now) ≡ Ok choice) }
    ensures fault { IfErr result (λ word. chosen no_choice (map string_bytes words.now) ≡ Err word.now) }
{
    let mut choice = Choice::new();
    let mut rest = words;
    loop {
        match rest {
            [] => return Ok(choice),
            [word, ..] => {
                let Some(setting) = choice.setting_at(word.as_str()) else {
                    return Err(word.as_str());
                };
                rest = set_first(&mut choice, setting, rest)?;
            }
        }
    }
}

/// The word at fault among words of which the last, shown here, isn't UTF-8: the leftmost.
pub fn fault_with_last<'a>(words: &'a [String], last: &'a str) -> &'a str
    ensures { result.now ≡ fault_or (chosen no_choice (map string_bytes words.now)) last.now }
{
    match chosen(words) {
        Ok(_) => last,
        Err(word) => word,
    }
}

/// Sets what the first word sets, and answers the words behind those that this takes.
fn set_first<'a>(
    choice: &mut Choice<'a>,
    setting: Setting,
    words: &'a [String],
) -> Result<&'a [String], &'a str>
    requires { first_setting choice.old (map string_bytes words.now) ≡ Some setting }
    ensures ok { IfOk result (λ rest. chosen choice.old (map string_bytes words.now) ≡ chosen choice.new (map string_bytes rest.now)) }
    ensures shorter { IfOk result (λ rest. length rest.now < length words.now) }
    ensures fault { IfErr result (λ word. chosen choice.old (map string_bytes words.now) ≡ Err word.now) }
{
    match words {
        [] => Err(""),
        [word, rest @ ..] => match rest {
            [] => {
                if takes_next(setting) {
                    return Err(word.as_str());
                }
                choice.set(setting, word.as_str(), "");
                Ok(rest)
            }
            [next, more @ ..] => {
                choice.set(setting, word.as_str(), next.as_str());
                if takes_next(setting) {
                    Ok(more)
                } else {
                    Ok(rest)
                }
            }
        },
    }
}

/// What the words ask for.
#[derive(Drop)]
pub struct Options<'a> {
    /// the machine, if a word sets it
    pub target: Option<Machine>,
    /// the pass behind which the run starts, if the input is Machine IR
    pub start: Option<Pass>,
    /// the last pass
    pub stop: Pass,
    /// the name of the input; standard input has none
    pub input: Option<&'a str>,
    /// the name of the output; standard output has none
    pub output: Option<&'a str>,
}

impl<'a> Model for Options<'a> {
    ghost use Rattle.std.specs.Option.{option_copied};
    ghost use Rattle.gi_options.specs.Options.{OptionsData};

    ghost Value = { OptionsData };

    ghost view = { λ a. record { target = a.target; start = a.start; stop = a.stop; input = option_copied a.input; output = option_copied a.output } };
}

/// The name of a file, unless it is that of the standard one.
fn file_name(name: Option<&str>) -> Option<&str>
    ensures { option_copied result ≡ file_name (option_copied name.entry) }
{
    match name {
        Some(name) => { if name == "-" { None } else { Some(name) } }
        None => None,
    }
}

/// Whether the run would end before it starts.
fn is_before(stop: Option<Pass>, start: Option<Pass>) -> bool
    ensures { result ≡ is_before stop start }
{
    match stop {
        Some(stop) => match start {
            Some(start) => stop.place() < start.place(),
            None => false,
        },
        None => false,
    }
}

impl<'a> Options<'a> {
    /// What the words ask for, or the word that is at fault.
    pub fn from_words(words: &'a [String]) -> Result<Options<'a>, &'a str>
        ensures ok { IfOk result (λ options. options_of (map string_bytes words.now) ≡ Ok options) }
        ensures fault { IfErr result (λ word. options_of (map string_bytes words.now) ≡ Err word.now) }
    {
        let choice = match chosen(words) {
            Ok(choice) => choice,
            Err(word) => return Err(word),
        };
        if is_before(choice.stop, choice.start) {
            return Err(choice.stop_word);
        }
        Ok(Options {
            target: choice.target,
            start: choice.start,
            stop: choice.stop.unwrap_or(Pass::Select),
            input: file_name(choice.input),
            output: file_name(choice.output),
        })
    }
}
