//! Numbers in the order in which they come, and what stands under each where it comes first.

ghost use Rattle.std.specs.Prelude.{◌≡◌, ℕ, [], ◌∷◌, ◌++◌, length, nat_eq, position, IfOk, OnOk};
ghost use Rattle.std.specs.BTreeMap.{get};
ghost use Rattle.std.specs.Ordering.{nat_cmp};
ghost use Rattle.std.specs.Option.{option_or};
ghost use Rattle.gi_mir.specs.Data.{reg_of};
ghost use Rattle.gi_spelling.specs.Resolved.{class_in};
ghost use Rattle.gi_resolve.specs.Numbered.{last_of};

use gi_llt::Memory;
use gi_spelling::token::RegisterClass;
use std::alloc::Global;
use std::collections::BTreeMap;
use std::marker::Model;

/// Adds one more.
fn push<T: Copy>(list: &mut Vec<T>, x: T) -> Result<(), Memory>
    ensures { OnOk result (list.new.items ≡ list.old.items ++ x ∷ []) }
{
    match list.push(x) {
        Ok(_) => Ok(()),
        Err(_) => Err(Memory),
    }
}

/// Notes a value under a number, unless one stands there.
fn note_first<V: Copy>(firsts: &mut BTreeMap<u32, V>, number: u32, value: V) -> Result<(), Memory>
    ensures { OnOk result ((key : ℕ) → get nat_cmp firsts.new key ≡ option_or (get nat_cmp firsts.old key) (last_of number value key)) }
{
    if firsts.contains_key(&number) {
        return Ok(());
    }
    match firsts.insert(number, value) {
        Ok(_) => Ok(()),
        Err(_) => Err(Memory),
    }
}

/// How many numbers there are, as far as 32 bits hold that.
fn count(numbers: &[u32]) -> Result<u32, Memory>
    ensures { IfOk result (λ count. count ≡ length numbers.now) }
{
    match u32::try_from(numbers.len()) {
        Ok(count) => Ok(count),
        Err(_) => Err(Memory),
    }
}

/// Numbers in the order in which they came, and the place of each where it came first.
#[derive(Drop)]
pub struct Numbering {
    numbers: Vec<u32>,
    places: BTreeMap<u32, u32>,
}

impl Model for Numbering {
    ghost use Rattle.std.specs.Prelude.{ℕ, List};
    ghost use Rattle.gi_resolve.specs.Numbered.{IsNumbered};

    ghost Value = { List ℕ };

    ghost view = { λ a. a.numbers.items };

    ghost invariant = { λ a. IsNumbered a.places a.numbers.items };
}

impl Numbering {
    /// No numbers.
    pub fn new(alloc: Global) -> Numbering
        ensures { result ≡ [] }
    {
        Numbering {
            numbers: Vec::new(alloc),
            places: BTreeMap::new(alloc),
        }
    }

    /// How many numbers there are, as far as 32 bits hold that.
    pub fn count(&self) -> Result<u32, Memory>
        ensures { IfOk result (λ count. count ≡ length self.now) }
    {
        count(self.numbers.as_slice())
    }

    /// The place where a number came first.
    pub fn place(&self, number: u32) -> Option<u32>
        ensures { result ≡ position (nat_eq number) self.now }
    {
        self.places.get(&number).copied()
    }

    /// One number more.
    pub fn with(mut self, number: u32) -> Result<Numbering, Memory>
        ensures { IfOk result (λ more. more ≡ self ++ number ∷ []) }
    {
        let place = count(self.numbers.as_slice())?;
        note_first(&mut self.places, number, place)?;
        push(&mut self.numbers, number)?;
        Ok(self)
    }
}

/// The classes of registers in the order in which they came, and the class of each where it came first.
#[derive(Drop)]
pub struct Classes {
    classes: Vec<(u32, RegisterClass)>,
    firsts: BTreeMap<u32, RegisterClass>,
}

impl Model for Classes {
    ghost use Rattle.std.specs.Prelude.{ℕ, List};
    ghost use Rattle.gi_spelling.specs.declared.token.RegisterClass.{RegisterClass};
    ghost use Rattle.gi_resolve.specs.Numbered.{IsClassed};

    ghost Value = { List (ℕ × RegisterClass) };

    ghost view = { λ a. a.classes.items };

    ghost invariant = { λ a. IsClassed a.firsts a.classes.items };
}

impl Classes {
    /// No classes.
    pub fn new(alloc: Global) -> Classes
        ensures { result ≡ [] }
    {
        Classes {
            classes: Vec::new(alloc),
            firsts: BTreeMap::new(alloc),
        }
    }

    /// The class of a register.
    pub fn class(&self, number: u32) -> Option<RegisterClass>
        ensures { result ≡ class_in self.now (reg_of number) }
    {
        self.firsts.get(&number).copied()
    }

    /// One class more.
    pub fn with(mut self, number: u32, class: RegisterClass) -> Result<Classes, Memory>
        ensures { IfOk result (λ more. more ≡ self ++ (number, class) ∷ []) }
    {
        note_first(&mut self.firsts, number, class)?;
        push(&mut self.classes, (number, class))?;
        Ok(self)
    }
}
