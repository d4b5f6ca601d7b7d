//! The names of a module.

ghost use Rattle.std.specs.Prelude.{◌≡◌, ◌-◌, ◌^◌, ◌<◌, ℕ, List, [], ◌∷◌, ◌++◌, Some, None, length, string_bytes, bytes_eq, unwrap_or, OnOk, OnErr, IfOk};
ghost use Rattle.std.specs.BTreeMap.{get_by_text};
ghost use Rattle.std.specs.Map.{update};
ghost use Rattle.gi_mir.specs.Names.{texts_of, number_of, with_name, name_at, AreDistinct, AreFound};

use gi_llt::Memory;
use std::alloc::Global;
use std::collections::BTreeMap;
use std::marker::Model;

/// Names, numbered from 0 in the order in which they first appeared, and a map that finds their numbers.
#[derive(Drop)]
pub struct Names {
    list: Vec<String>,
    numbers: BTreeMap<String, u32>,
}

impl Model for Names {
    ghost use Rattle.std.specs.Prelude.{ℕ, ◌^◌, ◌<◌, List, length};
    ghost use Rattle.gi_mir.specs.Names.{texts_of, AreDistinct, AreFound};

    ghost Value = { List (List ℕ) };

    ghost view = { λ a. texts_of a.list.items };

    ghost invariant = { λ a. (length a.list.items < 2 ^ 32) × AreDistinct (texts_of a.list.items) × AreFound a.numbers (texts_of a.list.items) };
}

/// Puts a name at the end of the list.
fn push(list: &mut Vec<String>, name: String) -> Result<(), Memory>
    ensures ok { OnOk result (list.new.items ≡ list.old.items ++ name ∷ []) }
    ensures err { OnErr result (list.new.items ≡ list.old.items) }
{
    list.push(name).map_err(|_| Memory)
}

/// Puts the number of a name into the map.
fn note(numbers: &mut BTreeMap<String, u32>, name: String, number: u32) -> Result<(), Memory>
    ensures ok { OnOk result ((text : List ℕ) → get_by_text numbers.new text ≡ update bytes_eq (get_by_text numbers.old) (string_bytes name) (Some number) text) }
    ensures err { OnErr result (numbers.new.entries ≡ numbers.old.entries) }
{
    match numbers.insert(name, number) {
        Ok(_) => Ok(()),
        Err(_) => Err(Memory),
    }
}

/// Adds a name that isn't there, with a copy of its own in the map.
fn append(
    list: &mut Vec<String>,
    numbers: &mut BTreeMap<String, u32>,
    name: &str,
) -> Result<(), Memory>
    requires short { length list.old.items < 2 ^ 32 }
    requires found { AreFound numbers.old (texts_of list.old.items) }
    requires absent { number_of (texts_of list.old.items) name.now ≡ None }
    ensures ok { OnOk result (texts_of list.new.items ≡ texts_of list.old.items ++ name.now ∷ []) }
    ensures err { OnErr result (list.new.items ≡ list.old.items) }
    ensures found { AreFound numbers.new (texts_of list.new.items) }
{
    let number = list.len() as u32;
    let alloc = *list.allocator();
    let listed = String::from_str(alloc, name).map_err(|_| Memory)?;
    let key = String::from_str(alloc, name).map_err(|_| Memory)?;
    push(list, listed)?;
    match note(numbers, key, number) {
        Ok(()) => Ok(()),
        Err(Memory) => {
            let _ = list.pop();
            Err(Memory)
        }
    }
}

impl Names {
    /// No names.
    pub fn new(alloc: Global) -> Names
        ensures { result ≡ [] }
    {
        Names {
            list: Vec::new(alloc),
            numbers: BTreeMap::new(alloc),
        }
    }

    /// How many names there are.
    pub fn count(&self) -> u32
        ensures { result ≡ length self.now }
    {
        self.list.len() as u32
    }

    /// No two numbers have one name.
    pub fn are_distinct(&self)
        ensures { AreDistinct self.now }
    {
        let _list = &self.list;
    }

    /// The number of a name, which gets the next one if it has none.
    pub fn number(&mut self, name: &str) -> Result<u32, Memory>
        requires { length self.old < 2 ^ 32 - 1 }
        ensures ok { OnOk result (self.new ≡ with_name self.old name.now) }
        ensures number { IfOk result (λ number. number ≡ unwrap_or (number_of self.old name.now) (length self.old)) }
        ensures err { OnErr result (self.new ≡ self.old) }
    {
        match self.numbers.get(name).copied() {
            Some(number) => Ok(number),
            None => {
                let number = self.count();
                append(&mut self.list, &mut self.numbers, name)?;
                Ok(number)
            }
        }
    }

    /// The name with this number, and the empty text where none has it.
    pub fn name(&self, number: u32) -> &str
        ensures { result.now ≡ name_at self.now number }
    {
        match self.list.get(number as usize) {
            Some(name) => name.as_str(),
            None => "",
        }
    }
}
