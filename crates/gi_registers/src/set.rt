//! Virtual registers in the order in which they were added, each once.
//!
//! A register is looked for by place: its number names a page and a place on it. So no choice of numbers makes it slow,
//! as it can make a hash. A page is there where a register of it is, and is found in a tree, so that a high number costs
//! no more than a low one.

ghost use Rattle.std.specs.Prelude.{◌≡◌, ◌≢◌, ◌<◌, ◌≤◌, ◌^◌, ◌/◌, ◌%◌, ◌+◌, ℕ, [], Some, None, OnOk, OnErr, IfOk, length, nat_eq, position, get_or};
ghost use Rattle.gi_registers.specs.Pages.{number_at, AreAlike, IsBlank, IsPageWritten, IsWritten};
ghost use Rattle.gi_mir.specs.Numbering.{with_register};
ghost use Rattle.std.specs.BTreeMap.{get};
ghost use Rattle.std.specs.Ordering.{nat_cmp};

use gi_llt::Memory;
use gi_mir::operand::Reg;
use std::alloc::Global;
use std::collections::BTreeMap;
use std::marker::Model;

/// How many places a page has.
const PAGE: u32 = 256;

/// A page of the numbers that stand at 256 places.
#[derive(Drop)]
struct Page {
    places: Vec<usize>,
}

impl Model for Page {
    ghost use Rattle.std.specs.Prelude.{◌≡◌, List, ℕ, length};

    ghost Value = { List ℕ };

    ghost view = { λ a. a.places.items };

    ghost invariant = { λ a. length a.places.items ≡ 256 };
}

impl Page {
    /// A page where nothing is written.
    #[tactic(auto, using(crate::proofs::Paging::blank))]
    fn new(alloc: Global) -> Result<Page, Memory>
        ensures { IfOk result (λ page. IsBlank page) }
    {
        let places = vec![in alloc; 0; 256].map_err(|_| Memory)?;
        Ok(Page { places })
    }

    /// The number at this place.
    fn number_at(&self, at: usize) -> usize
        ensures { result ≡ get_or self.now at 0 }
    {
        match self.places.as_slice().get(at) {
            Some(place) => *place,
            None => 0,
        }
    }

    /// Writes a number down.
    #[tactic(auto, using(crate::proofs::Paging::page_written))]
    fn write(&mut self, at: usize, place: usize)
        requires { at < 256 }
        ensures { IsPageWritten self.old self.new at place }
    {
        self.places[at] = place;
    }
}

/// The number at a place.
fn number_at(pages: &BTreeMap<u32, Page>, n: u32) -> usize
    ensures { result ≡ number_at pages.now n }
{
    match pages.get(&(n / PAGE)) {
        Some(page) => page.number_at((n % PAGE) as usize),
        None => 0,
    }
}

/// Puts a page in on which a number is written down, where there was none.
#[tactic(auto, using(crate::proofs::Paging::put, crate::proofs::Paging::unwritten))]
fn put(alloc: Global, pages: &mut BTreeMap<u32, Page>, n: u32, place: usize) -> Result<(), Memory>
    requires { get nat_cmp pages.old (n / 256) ≡ None }
    ensures ok { OnOk result (IsWritten pages.old pages.new n place) }
    ensures err { OnErr result (AreAlike pages.old pages.new) }
{
    let mut page = Page::new(alloc)?;
    page.write((n % PAGE) as usize, place);
    match pages.insert(n / PAGE, page) {
        Ok(_) => Ok(()),
        Err(_) => Err(Memory),
    }
}

/// Writes a number down at a place.
#[tactic(auto, using(crate::proofs::Paging::written))]
fn write(alloc: Global, pages: &mut BTreeMap<u32, Page>, n: u32, place: usize) -> Result<(), Memory>
    ensures ok { OnOk result (IsWritten pages.old pages.new n place) }
    ensures err { OnErr result (AreAlike pages.old pages.new) }
{
    if let Some(page) = pages.get_mut(&(n / PAGE)) {
        page.write((n % PAGE) as usize, place);
        return Ok(());
    }
    put(alloc, pages, n, place)
}

/// Virtual registers in the order in which they were added, each once.
#[derive(Drop)]
pub struct RegisterSet {
    order: Vec<u32>,
    pages: BTreeMap<u32, Page>,
}

impl Model for RegisterSet {
    ghost use Rattle.std.specs.Prelude.{List, ℕ};
    ghost use Rattle.gi_registers.specs.Pages.{IsPaged};

    ghost Value = { List ℕ };

    ghost view = { λ a. a.order.items };

    ghost invariant = { λ a. IsPaged a.order.items a.pages };
}

impl RegisterSet {
    /// No register.
    #[tactic(auto, using(crate::proofs::Paging::none_paged))]
    pub fn new(alloc: Global) -> RegisterSet
        ensures { result ≡ [] }
    {
        RegisterSet {
            order: Vec::new(alloc),
            pages: BTreeMap::new(alloc),
        }
    }

    /// How many registers there are.
    pub fn len(&self) -> usize
        ensures count { result ≡ length self.now }
        ensures small { length self.now < 2 ^ 63 }
    {
        self.order.len()
    }

    /// The place of a register in the order.
    #[tactic(auto, using(crate::proofs::Paging::no_place, crate::proofs::Paging::a_place))]
    pub fn index_of(&self, reg: Reg) -> Option<usize>
        ensures { result ≡ position (nat_eq reg.0) self.now }
    {
        match number_at(&self.pages, reg.0) {
            0 => None,
            one_above => Some(one_above - 1),
        }
    }

    /// Adds a register behind the others, unless it is there, and answers its place.
    #[tactic(auto, using(crate::proofs::Paging::is_there, crate::proofs::Paging::is_added, crate::proofs::Paging::place_of_added, crate::proofs::Paging::paged_with))]
    pub fn insert(&mut self, reg: Reg) -> Result<usize, Memory>
        ensures ok { OnOk result (self.new ≡ with_register self.old reg.0) }
        ensures place { IfOk result (λ place. position (nat_eq reg.0) self.new ≡ Some place) }
        ensures err { OnErr result (self.new ≡ self.old) }
    {
        if let Some(place) = self.index_of(reg) {
            return Ok(place);
        }
        let place = self.order.len();
        self.order.reserve(1).map_err(|_| Memory)?;
        write(*self.order.allocator(), &mut self.pages, reg.0, place + 1)?;
        self.order.push(reg.0).map_err(|_| Memory)?;
        Ok(place)
    }
}
