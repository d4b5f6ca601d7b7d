//! Pages of how often numbers were counted: of numbers that stand near each other.

ghost use Rattle.std.specs.Prelude.{◌≡◌, ℕ, ◌<◌, None, length, OnOk};
ghost use Rattle.gi_verify.specs.Counted.{IsPageWritten, times_at, times_on};

use crate::definitions::Times;
use gi_llt::Memory;
use std::alloc::Global;

/// How many numbers a page has at most.
pub(crate) const PAGE: u32 = 256;

/// How often each of the first numbers of a page was counted, where it was.
#[derive(Drop)]
pub(crate) struct Page {
    times: Vec<Option<Times>>,
}

/// Adds numbers that weren't counted until there is one at this place.
fn make_room(times: &mut Vec<Option<Times>>, at: usize) -> Result<(), Memory>
    ensures same { (k : ℕ) → times_at times.new.items k ≡ times_at times.old.items k }
    ensures there { OnOk result (at < length times.new.items) }
{
    while times.len() <= at {
        times.push(None).map_err(|_| Memory)?;
    }
    Ok(())
}

impl Page {
    /// A page of which no number was counted.
    pub(crate) fn new(alloc: Global) -> Page
        ensures { (k : ℕ) → times_on result k ≡ None }
    {
        Page {
            times: Vec::new(alloc),
        }
    }

    /// How often the number at a place was counted.
    pub(crate) fn at(&self, at: usize) -> Option<Times>
        ensures { result ≡ times_on self.now at }
    {
        match self.times.get(at) {
            Some(times) => *times,
            None => None,
        }
    }

    /// Sets how often the number at a place was counted.
    pub(crate) fn set(&mut self, at: usize, times: Times) -> Result<(), Memory>
        ensures { OnOk result (IsPageWritten self.old self.new at times) }
    {
        make_room(&mut self.times, at)?;
        self.times[at] = Some(times);
        Ok(())
    }
}
