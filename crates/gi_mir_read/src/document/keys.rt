//! The keys of a document that count, by their words, and the first entry of each.

ghost use Rattle.std.specs.Prelude.{◌≡◌, ◌≢◌, ◌<◌, None, Some, codes, bytes_eq, length, if◌then◌else◌};
ghost use Rattle.gi_spelling.specs.Documents.{key_spelled};
ghost use Rattle.gi_spelling.specs.declared.written.Key.{Key};
ghost use Rattle.gi_mir_read.specs.Documents.Keyed.{first_of, place_of};

use crate::text::sections::Section;
use gi_spelling::written::Key;

/// The place of a key among those that count.
fn place_of(key: Key) -> usize
    ensures place { result ≡ place_of key }
    ensures within { result < 7 }
{
    match key {
        Key::Name => 0,
        Key::Legalized => 1,
        Key::Banked => 2,
        Key::Selected => 3,
        Key::Registers => 4,
        Key::Stack => 5,
        Key::Body => 6,
    }
}

/// The key of this word.
pub(crate) fn key_spelled(word: &[u8]) -> Option<Key>
    ensures { result ≡ key_spelled word.now }
{
    if word == b"name".as_slice() {
        Some(Key::Name)
    } else if word == b"legalized".as_slice() {
        Some(Key::Legalized)
    } else if word == b"regBankSelected".as_slice() {
        Some(Key::Banked)
    } else if word == b"selected".as_slice() {
        Some(Key::Selected)
    } else if word == b"registers".as_slice() {
        Some(Key::Registers)
    } else if word == b"stack".as_slice() {
        Some(Key::Stack)
    } else if word == b"body".as_slice() {
        Some(Key::Body)
    } else {
        None
    }
}

/// The first entry of each key, by the place of the key.
#[derive(Clone, Copy, Debug)]
pub(crate) struct Firsts<'a> {
    entries: [Option<Section<'a>>; 7],
}

impl<'a> Firsts<'a> {
    /// No entry so far.
    pub fn new() -> Firsts<'a>
        ensures none { (key : Key) → first_of result key ≡ None }
        ensures count { length result.entries ≡ 7 }
    {
        Firsts { entries: [None; 7] }
    }

    /// The first entry of a key.
    pub fn first(&self, key: Key) -> Option<Section<'a>>
        ensures { result ≡ first_of self.now key }
    {
        self.entries[place_of(key)]
    }

    /// Keeps the first entry of a key.
    pub fn keep(&mut self, key: Key, section: Section<'a>)
        requires { length self.old.entries ≡ 7 }
        ensures kept { first_of self.new key ≡ Some section.entry }
        ensures others { (other : Key) → place_of other ≢ place_of key → first_of self.new other ≡ first_of self.old other }
        ensures count { length self.new.entries ≡ 7 }
    {
        self.entries[place_of(key)] = Some(section);
    }
}
