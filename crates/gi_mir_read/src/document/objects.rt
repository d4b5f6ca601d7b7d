//! The entries of `stack`, each of which may go on over lines.

ghost use Rattle.std.specs.Prelude.{◌≡◌, ℕ, ◌+◌, ◌-◌, ◌<◌, ◌≤◌, ◌^◌, ◌++◌, [], All, IfOk, IfSome, OnOk, fold, length};
ghost use Rattle.std.specs.List.{cons_option};
ghost use Rattle.gi_spelling.specs.Documents.{behind_line, ended_by, lower, next_by, object_at, object_by, object_wrong, object_wrongs, objects_from, stack_entries, whole_fields};
ghost use Rattle.gi_mir_read.specs.Documents.Depths.{depth_of};
ghost use Rattle.gi_mir_read.specs.Texts.Placed.{IsLineIn, line_at, lines_at};

use crate::document::entry::{front, has_all, is_at_end, steps};
use crate::document::values::items_of_line;
use crate::list::push;
use crate::text::lines::Line;
use crate::text::wrongs::Lowest;
use gi_llt::Memory;
use gi_mir::operand::StackObject;
use gi_spelling::written::{Entry, EntryKind, Fault, Fields, StackEntry};
use std::alloc::Global;

/// The bound of sizes and alignments.
const GREATEST: u128 = 1 << 63;

/// Where an entry stands behind a line, and none where the line can't continue it.
fn behind_line(
    alloc: Global,
    text: &[u8],
    entry: Entry,
    line: Line,
) -> Result<Option<Entry>, Memory>
    requires line { IsLineIn text.now line }
    requires short { length text.now < 2 ^ 32 - 1 }
    requires depth { depth_of entry.state + 2 ^ 64 < 2 ^ 128 }
    ensures value { IfOk result (λ found. found ≡ behind_line text.now entry (line_at text.now line)) }
    ensures depth { IfOk result (λ found. IfSome found (λ next. depth_of next.state ≤ depth_of entry.state + 2 ^ 64)) }
{
    match items_of_line(alloc, text, line)? {
        Some(items) => match steps(EntryKind::Object, entry, items.as_slice()) {
            Ok(next) => Ok(Some(next)),
            Err(_) => Ok(None),
        },
        None => Ok(None),
    }
}

/// The fields of an entry that has ended, if they are all there.
fn whole_fields(entry: Entry) -> Option<Fields>
    ensures { result ≡ whole_fields entry }
{
    if is_at_end(entry.state) && has_all(EntryKind::Object, entry.fields) {
        Some(entry.fields)
    } else {
        None
    }
}

/// The entry that ends with a line, if one does.
fn ended(line: u32, is_last: bool, entry: Option<Entry>) -> Option<StackEntry>
    ensures { result ≡ ended_by line is_last entry }
{
    match entry {
        Some(at) => {
            if is_at_end(at.state) || is_last {
                let fields = whole_fields(at);
                Some(StackEntry { line, fields })
            } else {
                None
            }
        }
        None => Some(StackEntry { line, fields: None }),
    }
}

/// Where the line behind goes on.
fn next(entry: Option<Entry>) -> Entry
    ensures value { result ≡ next_by entry }
    ensures depth { (most : ℕ) → IfSome entry (λ at. depth_of at.state ≤ most) → depth_of result.state ≤ most }
{
    match entry {
        Some(at) => { if is_at_end(at.state) { front() } else { at } }
        None => front(),
    }
}

/// Adds one more, if there is one.
fn append<T: Copy>(list: &mut Vec<T>, x: Option<T>) -> Result<(), Memory>
    ensures { OnOk result (list.new.items ≡ list.old.items ++ cons_option x []) }
{
    match x {
        Some(x) => push(list, x),
        None => Ok(()),
    }
}

/// The entries of lines.
fn stack_entries(alloc: Global, text: &[u8], lines: &[Line]) -> Result<Vec<StackEntry>, Memory>
    requires within { All (IsLineIn text.now) lines.now }
    requires short { length text.now < 2 ^ 32 - 1 }
    ensures { IfOk result (λ entries. entries.items ≡ stack_entries text.now (lines_at text.now lines.now)) }
{
    let mut entries = Vec::new(alloc);
    let mut entry = front();
    for (place, line) in lines.iter().enumerate() {
        let found = behind_line(alloc, text, entry, *line)?;
        append(
            &mut entries,
            ended(line.number, place + 1 == lines.len(), found),
        )?;
        entry = next(found);
    }
    Ok(entries)
}

/// The object of these fields, where it has this place.
fn object_by(place: usize, fields: Fields) -> Option<StackObject>
    ensures { result ≡ object_by place fields }
{
    let id = fields.id?;
    let size = fields.size?;
    let align = fields.alignment?;
    if id == place as u128 {
        Some(StackObject {
            size: size.min(GREATEST) as u64,
            align: align.min(GREATEST) as u64,
        })
    } else {
        None
    }
}

/// The object of an entry, where it has this place.
fn object_at(place: usize, entry: StackEntry) -> Option<StackObject>
    ensures { result ≡ object_at place entry }
{
    object_by(place, entry.fields?)
}

/// The objects of entries, in order.
fn objects_of(alloc: Global, entries: &[StackEntry]) -> Result<Vec<StackObject>, Memory>
    ensures { IfOk result (λ objects. objects.items ≡ objects_from 0 entries.now) }
{
    let mut objects = Vec::new(alloc);
    for (place, entry) in entries.iter().enumerate() {
        append(&mut objects, object_at(place, *entry))?;
    }
    Ok(objects)
}

/// The stack objects, in order.
pub(crate) fn objects(
    alloc: Global,
    text: &[u8],
    lines: &[Line],
) -> Result<Vec<StackObject>, Memory>
    requires within { All (IsLineIn text.now) lines.now }
    requires short { length text.now < 2 ^ 32 - 1 }
    ensures { IfOk result (λ objects. objects.items ≡ objects_from 0 (stack_entries text.now (lines_at text.now lines.now))) }
{
    let entries = stack_entries(alloc, text, lines)?;
    objects_of(alloc, entries.as_slice())
}

/// Notes an entry that is no object.
fn note_object(line: u32, object: Option<StackObject>, lowest: &mut Lowest)
    ensures { lowest.new ≡ fold lower lowest.old (object_wrong line object) }
{
    match object {
        Some(_) => {}
        None => lowest.note(line, Fault::Syntax),
    }
}

/// Notes each of these entries that is no object of its place.
fn note_entries(entries: &[StackEntry], lowest: &mut Lowest)
    ensures { lowest.new ≡ fold lower lowest.old (object_wrongs 0 entries.now) }
{
    for (place, entry) in entries.iter().enumerate() {
        note_object(entry.line, object_at(place, *entry), lowest);
    }
}

/// Notes each entry of lines that is no object of its place.
pub(crate) fn note_objects(
    alloc: Global,
    text: &[u8],
    lines: &[Line],
    lowest: &mut Lowest,
) -> Result<(), Memory>
    requires within { All (IsLineIn text.now) lines.now }
    requires short { length text.now < 2 ^ 32 - 1 }
    ensures { OnOk result (lowest.new ≡ fold lower lowest.old (object_wrongs 0 (stack_entries text.now (lines_at text.now lines.now)))) }
{
    let entries = stack_entries(alloc, text, lines)?;
    note_entries(entries.as_slice(), lowest);
    Ok(())
}
