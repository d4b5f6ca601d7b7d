//! A sink in memory, whose calls can be made to fail.

ghost use Rattle.std.specs.Prelude.{◌≡◌, ◌<◌, ◌≤◌, ◌++◌, [], length, take, is_err, true, false, IsTrue, IfOk, OnOk, OnErr, string_bytes};
ghost use Rattle.std.specs.Option.{option_copied, option_eq, option_map};
ghost use Rattle.std.specs.Str.{bytes_eq};
ghost use Rattle.gi_io.specs.Faults.{Rose};
ghost use Rattle.gi_io.specs.MemorySink.{create_fails, write_fails, taken_of, created_sink, sink_with, failed_sink};

use crate::Failed;
use crate::calls::count_call;
use crate::sinks::Output;
use gi_llt::Memory;
use std::alloc::Global;
use std::marker::Model;

/// Bytes in memory. Its calls are numbered from 1, and those in `fail` fail.
#[derive(Drop)]
pub struct MemOutput {
    place: Option<String>,
    piece: usize,
    room: usize,
    fail: Vec<u32>,
    calls: u32,
    faults: u64,
    held: Vec<u8>,
    created: bool,
}

impl Model for MemOutput {
    ghost use Rattle.std.specs.Prelude.{◌≤◌, vec_len, vec_capacity, string_bytes};
    ghost use Rattle.std.specs.Option.{option_map};
    ghost use Rattle.gi_io.specs.MemorySink.{MemorySink};

    ghost Value = { MemorySink };

    ghost view = { λ a. record {
      place = option_map (λ name. string_bytes name) a.place;
      piece = a.piece;
      room = a.room;
      fail = a.fail.items;
      calls = a.calls;
      faults = a.faults;
      held = a.held.items;
      created = a.created;
    } };

    ghost invariant = { λ a. (vec_len a.held ≤ a.room) × (a.room ≤ vec_capacity a.held) };
}

impl MemOutput {
    /// A sink that holds nothing and has the memory for so many bytes, of which a write takes at most a piece.
    pub fn new(
        alloc: Global,
        place: Option<String>,
        piece: usize,
        room: usize,
        fail: Vec<u32>,
    ) -> Result<MemOutput, Memory>
        ensures place { IfOk result (λ sink. sink.place ≡ option_map (λ name. string_bytes name) place) }
        ensures piece { IfOk result (λ sink. sink.piece ≡ piece) }
        ensures room { IfOk result (λ sink. sink.room ≡ room) }
        ensures fail { IfOk result (λ sink. sink.fail ≡ fail.items) }
        ensures no_calls { IfOk result (λ sink. sink.calls ≡ 0) }
        ensures no_faults { IfOk result (λ sink. sink.faults ≡ 0) }
        ensures empty { IfOk result (λ sink. sink.held ≡ []) }
        ensures not_created { IfOk result (λ sink. sink.created ≡ false) }
    {
        let Ok(held) = Vec::with_capacity(alloc, room) else {
            return Err(Memory);
        };
        Ok(MemOutput {
            place,
            piece,
            room,
            fail,
            calls: 0,
            faults: 0,
            held,
            created: false,
        })
    }

    /// What was written.
    pub fn bytes(&self) -> &[u8]
        ensures { result.now ≡ self.now.held }
    {
        self.held.as_slice()
    }
}

// The names are the same, or there are none.
fn is_same_name(place: &Option<String>, name: Option<&str>) -> bool
    ensures { result ≡ option_eq bytes_eq (option_map (λ own. string_bytes own) place.now) (option_copied name.entry) }
{
    match (place, name) {
        (None, None) => true,
        (Some(place), Some(name)) => place.as_str() == name,
        _ => false,
    }
}

impl Output for MemOutput {
    ghost faults = { λ s. s.faults };

    ghost tells = { λ _. true };

    ghost held = { λ s. s.held };

    ghost tells_place = { λ _. true };

    ghost place = { λ s. s.place };

    ghost created = { λ s. s.created };

    // Fails exactly at a number in `fail` and at another name than its own.
    fn create(&mut self, name: Option<&str>) -> Result<(), Failed>
        ensures fails { is_err result ≡ create_fails self.old (option_copied name.entry) }
        ensures made { OnOk result (self.new ≡ sink_with (created_sink self.old) self.old.held) }
        ensures counted { OnErr result (self.new ≡ failed_sink (created_sink self.old)) }

        // As `Output` says.
        ensures faults_never_fall { self.old.faults ≤ self.new.faults }
        ensures failed { OnErr result (Rose self.old.faults self.new.faults) }
        ensures at_place { OnOk result (option_copied name.entry ≡ self.old.place) }
    {
        self.created = true;
        let elsewhere = !is_same_name(&self.place, name);
        if count_call(
            &mut self.calls,
            &mut self.faults,
            self.fail.as_slice(),
            elsewhere,
        ) {
            return Err(Failed);
        }
        Ok(())
    }

    // Fails exactly at a number in `fail` and, where there are bytes to write, once `room` bytes are held.
    fn write(&mut self, bytes: &[u8]) -> Result<usize, Failed>
        ensures fails { is_err result ≡ write_fails self.old bytes.now }
        ensures least { IfOk result (λ n. n ≡ taken_of self.old bytes.now) }
        ensures appended { IfOk result (λ n. self.new ≡ sink_with self.old (self.old.held ++ take n bytes.now)) }
        ensures counted { OnErr result (self.new ≡ failed_sink self.old) }

        // As `Output` says.
        ensures faults_never_fall { self.old.faults ≤ self.new.faults }
        ensures failed { OnErr result (Rose self.old.faults self.new.faults) }
        ensures takes_some { IfOk result (λ n. 0 < length bytes.now → 0 < n) }
    {
        let full = !bytes.is_empty() && self.room <= self.held.len();
        if count_call(
            &mut self.calls,
            &mut self.faults,
            self.fail.as_slice(),
            full,
        ) {
            return Err(Failed);
        }
        let piece = self.piece.max(1).min(self.room - self.held.len());
        let count = bytes.len().min(piece);
        self.held.extend_from_slice(&bytes[..count]).unwrap();
        Ok(count)
    }
}
