//! Guesses for a round: which registers are computed from each, and where they are available at the start of blocks.
//! Nothing rests on them: they are looked at once they stand.

use crate::change::{Change, there_with};
use crate::listed::Listed;
use crate::operands::is_pure;
use crate::words::{ALL, WIDTH, both, either, one, word_at};
use gi_llt::Memory;
use gi_mir::block::Numbered;
use gi_mir::function::Function;
use gi_mir::instrs::Instrs;
use gi_mir::operand::Operand;
use std::alloc::Global;

/// So many words.
fn filled(alloc: Global, count: usize, word: u64) -> Result<Vec<u64>, Memory> {
    let mut words = Vec::new(alloc);
    for _ in 0..count {
        words.push(word).map_err(|_| Memory)?;
    }
    Ok(words)
}

/// Sets a word, where there is that place, and says whether it wasn't so before.
fn set_word(words: &mut Vec<u64>, place: usize, word: u64) -> bool {
    if place < words.len() && words[place] != word {
        words[place] = word;
        true
    } else {
        false
    }
}

/// The number at a place, and 0 where there is none.
fn number_at(list: &[usize], place: usize) -> usize {
    if place < list.len() { list[place] } else { 0 }
}

/// The place of a register that another one's definition uses, and the number of the next one.
#[derive(Clone, Copy)]
struct Link {
    source: usize,
    next: usize,
}

/// Of each register the number of the first of those that its pure definitions use (0 where there is none), and the places
/// of all registers in the order of their definitions.
#[derive(Drop)]
pub(crate) struct Sources {
    firsts: Vec<usize>,
    links: Vec<Link>,
    by_layout: Vec<usize>,
}

/// Puts a source of the register at a place in front of its others.
fn push_source(sources: &mut Sources, place: usize, source: usize) -> Result<(), Memory> {
    if place < sources.firsts.len() {
        let next = sources.firsts[place];
        sources
            .links
            .push(Link { source, next })
            .map_err(|_| Memory)?;
        sources.firsts[place] = sources.links.len();
    }
    Ok(())
}

/// Puts the registers that operands use in front of the sources of the register at a place.
fn push_sources(
    keys: &Listed,
    sources: &mut Sources,
    place: usize,
    operands: &[Operand],
) -> Result<(), Memory> {
    for operand in operands {
        if let Operand::Use(r) = *operand {
            if let Some(source) = keys.place(r.0) {
                push_source(sources, place, source)?;
            }
        }
    }
    Ok(())
}

/// Notes a register that an instruction defines, and its sources if it is pure.
fn push_definition(
    keys: &Listed,
    sources: &mut Sources,
    numbered: &Numbered,
    operand: Operand,
) -> Result<(), Memory> {
    if let Operand::Def(r, _) = operand {
        if let Some(place) = keys.place(r.0) {
            sources.by_layout.push(place).map_err(|_| Memory)?;
            if is_pure(&numbered.instr) {
                push_sources(keys, sources, place, numbered.instr.operands.as_slice())?;
            }
        }
    }
    Ok(())
}

/// The same of all definitions of a block.
fn push_definitions(
    keys: &Listed,
    sources: &mut Sources,
    instrs: Instrs<'_>,
) -> Result<(), Memory> {
    for numbered in instrs {
        for operand in numbered.instr.operands.as_slice() {
            push_definition(keys, sources, numbered, *operand)?;
        }
    }
    Ok(())
}

/// So many zeros.
fn zeros(alloc: Global, count: usize) -> Result<Vec<usize>, Memory> {
    let mut list = Vec::new(alloc);
    for _ in 0..count {
        list.push(0).map_err(|_| Memory)?;
    }
    Ok(list)
}

/// The sources of all registers.
pub(crate) fn sources_of(
    alloc: Global,
    function: &Function,
    keys: &Listed,
) -> Result<Sources, Memory> {
    let mut sources = Sources {
        firsts: zeros(alloc, keys.len())?,
        links: Vec::new(alloc),
        by_layout: Vec::new(alloc),
    };
    for b in 0..function.block_count() {
        push_definitions(keys, &mut sources, function.instrs(b))?;
    }
    Ok(sources)
}

/// Of each register those of a round that are computed from it, and places of which this changed and wasn't told on.
#[derive(Drop)]
struct Spread {
    words: Vec<u64>,
    changed: Vec<usize>,
}

/// The word of the one at a place, if a round is about it.
fn named(first: usize, place: usize) -> u64 {
    if first <= place && place - first < WIDTH {
        one(place - first)
    } else {
        0
    }
}

/// Tells the sources of a register that it is computed from them, and notes those that are new with this, if asked to.
fn tell_sources(
    sources: &Sources,
    spread: &mut Spread,
    first: usize,
    place: usize,
    is_noted: bool,
) -> Result<bool, Memory> {
    let word = either(word_at(spread.words.as_slice(), place), named(first, place));
    if word == 0 {
        return Ok(false);
    }
    let mut is_new = false;
    let mut number = number_at(sources.firsts.as_slice(), place);
    for _ in 0..sources.links.len() {
        if number == 0 || sources.links.len() < number {
            break;
        }
        let Link { source, next } = sources.links[number - 1];
        number = next;
        let grown = either(word_at(spread.words.as_slice(), source), word);
        if set_word(&mut spread.words, source, grown) {
            is_new = true;
            if is_noted {
                spread.changed.push(source).map_err(|_| Memory)?;
            }
        }
    }
    Ok(is_new)
}

/// Tells the sources of all registers, from the last definition to the first, and says whether something is new.
fn tell_backwards(sources: &Sources, spread: &mut Spread, first: usize) -> Result<bool, Memory> {
    let mut is_new = false;
    let count = sources.by_layout.len();
    for done in 0..count {
        let place = sources.by_layout[count - 1 - done];
        if tell_sources(sources, spread, first, place, false)? {
            is_new = true;
        }
    }
    Ok(is_new)
}

/// Tells the sources of all registers, from the first definition to the last, and notes what is new.
fn tell_forwards(sources: &Sources, spread: &mut Spread, first: usize) -> Result<(), Memory> {
    for k in 0..sources.by_layout.len() {
        let place = sources.by_layout[k];
        tell_sources(sources, spread, first, place, true)?;
    }
    Ok(())
}

/// Tells on what was noted, until nothing is new.
fn tell_all(sources: &Sources, spread: &mut Spread, first: usize) -> Result<(), Memory> {
    for _ in 0..u64::MAX {
        match spread.changed.pop() {
            Some(place) => {
                tell_sources(sources, spread, first, place, true)?;
            }
            None => break,
        }
    }
    Ok(())
}

/// Of each register those of a round that are computed from it.
pub(crate) fn origins_of(
    alloc: Global,
    sources: &Sources,
    count: usize,
    first: usize,
) -> Result<Vec<u64>, Memory> {
    let mut spread = Spread {
        words: filled(alloc, count, 0)?,
        changed: Vec::new(alloc),
    };
    if tell_backwards(sources, &mut spread, first)? {
        tell_forwards(sources, &mut spread, first)?;
        tell_all(sources, &mut spread, first)?;
    }
    Ok(spread.words)
}

/// Those that a reached block makes.
fn made_in_reach(reached: &[bool], changes: &[Change]) -> u64 {
    let mut made = 0;
    for a in 0..changes.len() {
        if a < reached.len() && reached[a] {
            made = either(made, changes[a].made);
        }
    }
    made
}

/// What may be available at the start of blocks, before what they lose is known.
fn first_starts(alloc: Global, reached: &[bool], changes: &[Change]) -> Result<Vec<u64>, Memory> {
    let apart = made_in_reach(reached, changes);
    let mut starts = Vec::new(alloc);
    for b in 0..changes.len() {
        let is_reached = b < reached.len() && reached[b];
        let word = if b == 0 {
            0
        } else if is_reached {
            ALL
        } else {
            apart
        };
        starts.push(word).map_err(|_| Memory)?;
    }
    Ok(starts)
}

/// Takes from the successors of a reached block what isn't available at its end, and notes those that lost something, in
/// the first turn only those that had theirs.
fn lose_behind(
    function: &Function,
    reached: &[bool],
    changes: &[Change],
    starts: &mut Spread,
    a: u32,
    is_again: bool,
) -> Result<(), Memory> {
    let place = a as usize;
    if a < function.block_count()
        && place < changes.len()
        && place < reached.len()
        && reached[place]
    {
        let end = there_with(changes[place], word_at(starts.words.as_slice(), place));
        for b in function.block(a).successors.as_slice() {
            let left = both(word_at(starts.words.as_slice(), *b as usize), end);
            if set_word(&mut starts.words, *b as usize, left) && (is_again || *b <= a) {
                starts.changed.push(*b as usize).map_err(|_| Memory)?;
            }
        }
    }
    Ok(())
}

/// Takes from all blocks what they lose.
fn lose_all(
    function: &Function,
    reached: &[bool],
    changes: &[Change],
    starts: &mut Spread,
) -> Result<(), Memory> {
    for a in 0..function.block_count() {
        lose_behind(function, reached, changes, starts, a, false)?;
    }
    for _ in 0..u64::MAX {
        match starts.changed.pop() {
            Some(b) => {
                if b < u32::MAX as usize {
                    lose_behind(function, reached, changes, starts, b as u32, true)?;
                }
            }
            None => break,
        }
    }
    Ok(())
}

/// The registers of a round that are available at the start of each block.
pub(crate) fn starts_of(
    alloc: Global,
    function: &Function,
    reached: &[bool],
    changes: &[Change],
) -> Result<Vec<u64>, Memory> {
    let mut starts = Spread {
        words: first_starts(alloc, reached, changes)?,
        changed: Vec::new(alloc),
    };
    lose_all(function, reached, changes, &mut starts)?;
    Ok(starts.words)
}
