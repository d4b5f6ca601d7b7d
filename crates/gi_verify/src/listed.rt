//! Lists of numbers in which a number is found at once.

ghost use Rattle.std.specs.Prelude.{◌≡◌, ◌∷◌, ◌++◌, ◌<◌, ◌==◌, ℕ, None, Some, [], false, length, get_or, OnErr, OnOk, if◌then◌else◌};
ghost use Rattle.std.specs.BTreeMap.{get};
ghost use Rattle.std.specs.Ordering.{nat_cmp};
ghost use Rattle.gi_meaning.specs.Runs.{is_among};
ghost use Rattle.gi_verify.specs.Sets.{place_of};

use gi_llt::Memory;
use std::alloc::Global;
use std::collections::BTreeMap;
use std::marker::Model;

/// Numbers in the order in which they came, none of them twice, and the place of each.
#[derive(Drop)]
pub(crate) struct Listed {
    order: Vec<u32>,
    places: BTreeMap<u32, usize>,
}

impl Model for Listed {
    ghost use Rattle.std.specs.Prelude.{ℕ, List};
    ghost use Rattle.gi_verify.specs.Sets.{HasPlaces};

    ghost Value = { List ℕ };

    ghost view = { λ a. a.order.items };

    ghost invariant = { λ a. HasPlaces a.places a.order.items };
}

/// Notes the place of a number.
fn note(places: &mut BTreeMap<u32, usize>, k: u32, place: usize) -> Result<(), Memory>
    ensures ok { OnOk result ((q : ℕ) → get nat_cmp places.new q ≡ (if k == q then Some place else get nat_cmp places.old q)) }
    ensures err { OnErr result ((q : ℕ) → get nat_cmp places.new q ≡ get nat_cmp places.old q) }
{
    match places.insert(k, place) {
        Ok(_) => Ok(()),
        Err(_) => Err(Memory),
    }
}

/// Forgets the place of a number.
fn forget(places: &mut BTreeMap<u32, usize>, k: u32)
    ensures { (q : ℕ) → get nat_cmp places.new q ≡ (if k == q then None else get nat_cmp places.old q) }
{
    let _ = places.remove(&k);
}

impl Listed {
    /// No numbers.
    pub(crate) fn new(alloc: Global) -> Listed
        ensures { result ≡ [] }
    {
        Listed {
            order: Vec::new(alloc),
            places: BTreeMap::new(alloc),
        }
    }

    /// The place of a number.
    pub(crate) fn place(&self, k: u32) -> Option<usize>
        ensures { result ≡ place_of self.now k }
    {
        self.places.get(&k).copied()
    }

    /// Whether a number is in the list.
    #[tactic(auto, using(crate::proofs::Listing::place_there))]
    pub(crate) fn has(&self, k: u32) -> bool
        ensures { result ≡ is_among k self.now }
    {
        self.place(k).is_some()
    }

    /// Puts a number that isn't in the list at its end.
    #[tactic(auto, using(crate::proofs::Listing::noted_same))]
    pub(crate) fn add(&mut self, k: u32) -> Result<(), Memory>
        requires { is_among k self.old ≡ false }
        ensures { OnOk result (self.new ≡ self.old ++ k ∷ []) }
    {
        let place = self.order.len();
        note(&mut self.places, k, place)?;
        match self.order.push(k) {
            Ok(()) => Ok(()),
            Err(_) => {
                forget(&mut self.places, k);
                Err(Memory)
            }
        }
    }

    /// How many numbers are in the list.
    pub(crate) fn len(&self) -> usize
        ensures { result ≡ length self.now }
    {
        self.order.len()
    }

    /// The number at a place.
    pub(crate) fn at(&self, i: usize) -> u32
        requires { i < length self.now }
        ensures { result ≡ get_or self.now i 0 }
    {
        self.order[i]
    }
}
