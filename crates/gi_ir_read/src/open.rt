//! The places that are still to come.

ghost use Rattle.std.specs.Prelude.{◌≡◌, ◌∷◌, ◌++◌, Ok, reverse, OnOk, IfOk, IfErr};
ghost use Rattle.gi_ir_spelling.specs.Grammar.{is_free, slots_of};
ghost use Rattle.std.specs.List.{list_all};
ghost use Rattle.gi_ir_spelling.specs.Reading.{beginning, ended, followed, found_in, open_with, placed_at, step};
ghost use Rattle.gi_ir_read.specs.declared.stop.Stop.TheVariants.{Memory as NoMemory};
ghost use Rattle.gi_ir_read.specs.Stops.{IsStopOf, fixed_slots};

use crate::choose::{choose, is_free};
use crate::rows::{COMMA, LABEL, form_of};
use crate::stop::Stop;
use gi_ir_spelling::place::{Choice, Fault, Found, Placed, Row, Scalar, Slot, Types};
use gi_ir_spelling::token::{Item, Mark, What, Word};
use gi_llt::Memory;
use std::alloc::Global;
use std::marker::Model;

const ARRAY: &[Slot] = &[
    Slot::ElementCount,
    Slot::Keyword(Word::Times),
    Slot::Bare(Types::AllButVoid),
    Slot::Punctuation(Mark::CloseSquare),
];

const CONSTANT_ELEMENT: &[Slot] = &[
    Slot::Bare(Types::AllButVoid),
    COMMA,
    Slot::Bare(Types::Pointers),
    Slot::Base,
    Slot::ConstantIndices,
];

const ENTRY_OF_PHI: &[Slot] = &[
    Slot::Value,
    COMMA,
    Slot::BlockName,
    Slot::Punctuation(Mark::CloseSquare),
    Slot::Entries,
];

const CASE_OF_SWITCH: &[Slot] = &[Slot::Constant, COMMA, LABEL, Slot::BlockName, Slot::Cases];

const TWO_BLOCKS: &[Slot] = &[
    Slot::Value,
    COMMA,
    LABEL,
    Slot::BlockName,
    COMMA,
    LABEL,
    Slot::BlockName,
];

/// Puts a place before the others, which stand in the list from the last on.
fn push(slots: &mut Vec<Slot>, slot: Slot) -> Result<(), Memory>
    ensures { OnOk result (reverse slots.new.items ≡ slot ∷ reverse slots.old.items) }
{
    slots.push(slot).map_err(|_| Memory)
}

/// Puts places before the others.
fn push_all(slots: &mut Vec<Slot>, row: &[Slot]) -> Result<(), Memory>
    ensures { OnOk result (reverse slots.new.items ≡ row.now ++ reverse slots.old.items) }
{
    let mut left = row.len();
    while left > 0 {
        left -= 1;
        push(slots, row[left])?;
    }
    Ok(())
}

/// Puts a row of places before the others.
fn push_row(slots: &mut Vec<Slot>, row: Row) -> Result<(), Memory>
    ensures { OnOk result (reverse slots.new.items ≡ slots_of row ++ reverse slots.old.items) }
{
    match row {
        Row::Nothing => Ok(()),
        Row::Form(operation) => push_all(slots, form_of(operation)),
        Row::ElementFlags(flags) => push(slots, Slot::ConstantFlags(flags)),
        Row::OtherFlags(flags) => push(slots, Slot::Flags(flags)),
        Row::IndexOf(scalar) => push(slots, Slot::ConstantIndex(scalar)),
        _ => push_all(slots, fixed_row(row)),
    }
}

/// The places of a row that are always the same.
fn fixed_row(row: Row) -> &'static [Slot]
    ensures { result.now ≡ fixed_slots row }
{
    match row {
        Row::Assigned => &[Slot::Punctuation(Mark::Equals), Slot::Operation],
        Row::AddressSpaces => &[Slot::NoAddressSpace],
        Row::Array => ARRAY,
        Row::Struct => &[Slot::Fields],
        Row::RefusedType => &[Slot::Refused],
        Row::OtherFields => &[Slot::MoreFields],
        Row::NextField => &[Slot::Bare(Types::AllButVoid), Slot::MoreFields],
        Row::ConstantElement => CONSTANT_ELEMENT,
        Row::NextConstantIndex => &[Slot::ConstantIndexType, Slot::ConstantIndices],
        Row::AlignFollows => &[Slot::AlignWord],
        Row::AlignmentFollows => &[Slot::Alignment],
        Row::NextIndex => &[Slot::Typed(Types::Integers), Slot::Value, Slot::Indices],
        Row::EntryOfPhi => ENTRY_OF_PHI,
        Row::NextEntry => &[Slot::Entry],
        Row::CaseOfSwitch => CASE_OF_SWITCH,
        Row::BlockFollows => &[Slot::BlockName],
        Row::TwoBlocks => TWO_BLOCKS,
        Row::ReturnedValue => &[Slot::Value],
        _ => &[],
    }
}

/// Puts two rows of places before the others.
fn push_two(slots: &mut Vec<Slot>, first: Row, second: Row) -> Result<(), Memory>
    ensures { OnOk result (reverse slots.new.items ≡ slots_of first ++ slots_of second ++ reverse slots.old.items) }
{
    push_row(slots, second)?;
    push_row(slots, first)
}

/// The places that are still to come, of which the last in the list is the next, and the type of values there.
#[derive(Drop)]
pub(crate) struct Open {
    last: Scalar,
    slots: Vec<Slot>,
}

impl Model for Open {
    ghost use Rattle.std.specs.Prelude.{reverse};
    ghost use Rattle.gi_ir_spelling.specs.Reading.{Open as OpenData};

    ghost Value = { OpenData };

    ghost view = { λ a. record { last = a.last; slots = reverse a.slots.items } };
}

/// Takes places away up to the first that isn't passed, and says what that says of a token.
fn find_place(slots: &mut Vec<Slot>, last: Scalar, what: What) -> Found
    ensures { found_in last (reverse slots.old.items) what ≡ record { found = result; rest = reverse slots.new.items } }
{
    while let Some(slot) = slots.pop() {
        match choose(last, slot, what) {
            Choice::Pass => {}
            choice => return Found::Place(slot, choice),
        }
    }
    Found::End
}

/// Puts the places before the others that follow a token of which this is said.
fn follow(places: &mut Open, choice: Choice, item: Item) -> Result<(), Stop>
    ensures ok { OnOk result (followed choice places.old.last places.old.slots item ≡ Ok places.new) }
    ensures err { IfErr result (λ stop. IsStopOf (followed choice places.old.last places.old.slots item) stop) }
{
    match choice {
        Choice::Take(first, second) => {
            push_two(&mut places.slots, first, second).map_err(|_| Stop::Memory)
        }
        Choice::TakeType(scalar, first, second) => {
            places.last = scalar;
            push_two(&mut places.slots, first, second).map_err(|_| Stop::Memory)
        }
        Choice::Unknown => Err(Stop::Fault(Fault::Unknown(item.start, item.end))),
        Choice::Pass | Choice::Wrong => Err(Stop::Fault(Fault::Syntax)),
    }
}

/// Whether nothing need stand in these places.
fn are_free(slots: &[Slot]) -> bool
    ensures { result ≡ list_all is_free slots.now }
{
    slots.iter().all(|slot| is_free(*slot))
}

impl Open {
    /// The beginning of a line.
    pub(crate) fn begin(alloc: Global) -> Result<Open, Stop>
        ensures ok { IfOk result (λ open_. open_ ≡ beginning) }
        ensures err { IfErr result (λ stop. stop ≡ NoMemory) }
    {
        let mut slots = Vec::new(alloc);
        push(&mut slots, Slot::Begin).map_err(|_| Stop::Memory)?;
        Ok(Open {
            last: Scalar::Integer,
            slots,
        })
    }

    /// The first place that isn't passed.
    fn find(&mut self, what: What) -> Found
        ensures found { result ≡ (found_in self.old.last self.old.slots what).found }
        ensures rest { self.new ≡ open_with self.old.last (found_in self.old.last self.old.slots what).rest }
    {
        find_place(&mut self.slots, self.last, what)
    }

    /// Gives a token to the place that takes it.
    pub(crate) fn step(&mut self, item: Item) -> Result<Placed, Stop>
        ensures ok { IfOk result (λ placed. step self.old item ≡ Ok (record { placed = placed; behind = self.new })) }
        ensures err { IfErr result (λ stop. IsStopOf (step self.old item) stop) }
    {
        match self.find(item.what) {
            Found::End => Err(Stop::Fault(Fault::Syntax)),
            Found::Place(slot, choice) => {
                follow(self, choice, item)?;
                Ok(Placed { slot, item })
            }
        }
    }

    /// Whether the line may end here.
    #[tactic(auto, using(crate::proofs::Reversed::all_reversed))]
    pub(crate) fn may_end(&self) -> bool
        ensures { result ≡ list_all is_free self.now.slots }
    {
        are_free(self.slots.as_slice())
    }
}
