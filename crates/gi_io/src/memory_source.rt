//! A source in memory, whose calls can be made to fail.

ghost use Rattle.std.specs.Prelude.{◌≡◌, ◌↔◌, ◌<◌, ◌≤◌, ◌+◌, ◌-◌, IsTrue, ◌||◌, ◌++◌, [], ◌∷◌, length, take, drop, min, not, true, is_err, Some, None, IfOk, IfSome, IfNone, OnOk, OnErr, if◌then◌else◌};
ghost use Rattle.std.specs.Option.{option_copied};
ghost use Rattle.gi_io.specs.Calls.{call_after, fault_after, is_made_to_fail};
ghost use Rattle.gi_io.specs.Faults.{Rose};
ghost use Rattle.gi_io.specs.Files.{bytes_under, files_of};
ghost use Rattle.gi_io.specs.MemorySource.{stored_in, open_fails, failed_source, source_with};
ghost use Rattle.gi_io.specs.Opened.{opened_bytes};

use crate::Failed;
use crate::calls::count_call;
use crate::sources::Input;
use std::marker::Model;

// What was opened last.
#[derive(Clone, Copy)]
enum Opened {
    Nothing,
    Standard,
    File(usize),
}

/// Files and standard input in memory. Its calls are numbered from 1, and those in `fail` fail.
#[derive(Drop)]
pub struct MemInput {
    files: Vec<(String, Vec<u8>)>,
    standard: Vec<u8>,
    fail: Vec<u32>,
    calls: u32,
    faults: u64,
    opened: Opened,
    taken: usize,
}

impl Model for MemInput {
    ghost use Rattle.std.specs.Prelude.{drop};
    ghost use Rattle.gi_io.specs.Files.{files_of};
    ghost use Rattle.gi_io.specs.MemorySource.{MemorySource};

    ghost Value = { MemorySource };

    ghost use Rattle.gi_io.specs.Opened.{opened_bytes};

    ghost view = { λ a. record {
      files = files_of a.files.items;
      standard = a.standard.items;
      fail = a.fail.items;
      calls = a.calls;
      faults = a.faults;
      left = drop a.taken (opened_bytes a.opened (files_of a.files.items) a.standard.items);
    } };
}

impl MemInput {
    /// Files by name, of which the first of a name counts, and standard input. No call has been made.
    pub fn new(files: Vec<(String, Vec<u8>)>, standard: Vec<u8>, fail: Vec<u32>) -> MemInput
        ensures files { result.files ≡ files_of files.items }
        ensures standard { result.standard ≡ standard.items }
        ensures fail { result.fail ≡ fail.items }
        ensures no_calls { result.calls ≡ 0 }
        ensures no_faults { result.faults ≡ 0 }
        ensures nothing_left { result.left ≡ [] }
    {
        MemInput {
            files,
            standard,
            fail,
            calls: 0,
            faults: 0,
            opened: Opened::Nothing,
            taken: 0,
        }
    }
}

// The place of the first file of the name.
fn find_file(files: &[(String, Vec<u8>)], name: &str) -> Option<usize>
    ensures found { IfSome result (λ k. bytes_under (files_of files.now) name.now ≡ Some (opened_bytes (Opened.File k) (files_of files.now) [])) }
    ensures none { IfNone result (bytes_under (files_of files.now) name.now ≡ None) }
{
    for (k, file) in files.iter().enumerate() {
        if file.0.as_str() == name {
            return Some(k);
        }
    }
    None
}

// All bytes of what is opened.
fn bytes_opened<'a>(opened: Opened, files: &'a [(String, Vec<u8>)], standard: &'a [u8]) -> &'a [u8]
    ensures { result.now ≡ opened_bytes opened (files_of files.now) standard.now }
{
    match opened {
        Opened::Nothing => &[],
        Opened::Standard => standard,
        Opened::File(k) => match files.get(k) {
            Some(file) => file.1.as_slice(),
            None => &[],
        },
    }
}

impl Input for MemInput {
    ghost faults = { λ s. s.faults };

    ghost tells = { λ _. true };

    ghost stored = { stored_in };

    ghost left = { λ s. s.left };

    // Fails exactly at a number in `fail` and where no file has the name.
    fn open(&mut self, name: Option<&str>) -> Result<(), Failed>
        ensures fails { is_err result ≡ open_fails self.old (option_copied name.entry) }
        ensures opened { OnOk result (self.new ≡ source_with self.old (stored_in self.old (option_copied name.entry))) }
        ensures counted { OnErr result (self.new ≡ failed_source self.old) }

        // As `Input` says.
        ensures faults_never_fall { self.old.faults ≤ self.new.faults }
        ensures failed { OnErr result (Rose self.old.faults self.new.faults) }
        ensures stored_stays { stored_in self.new ≡ stored_in self.old }
    {
        let found = match name {
            None => Some(Opened::Standard),
            Some(name) => find_file(self.files.as_slice(), name).map(Opened::File),
        };
        if count_call(
            &mut self.calls,
            &mut self.faults,
            self.fail.as_slice(),
            found.is_none(),
        ) {
            return Err(Failed);
        }
        if let Some(opened) = found {
            self.opened = opened;
            self.taken = 0;
        }
        Ok(())
    }

    // Fails exactly at a number in `fail`, and takes the lesser of the buffer's length and the bytes left.
    fn read(&mut self, buf: &mut [u8]) -> Result<usize, Failed>
        ensures fails { is_err result ≡ is_made_to_fail self.old.fail self.old.calls }
        ensures lesser { IfOk result (λ n. n ≡ min (length buf.old) (length self.old.left)) }
        ensures taken { IfOk result (λ n. self.new ≡ source_with self.old (drop n self.old.left)) }
        ensures filled { IfOk result (λ n. buf.new ≡ take n self.old.left ++ drop n buf.old) }
        ensures counted { OnErr result (self.new ≡ failed_source self.old) }
        ensures failed_leaves_buffer { OnErr result (buf.new ≡ buf.old) }

        // As `Input` says.
        ensures faults_never_fall { self.old.faults ≤ self.new.faults }
        ensures failed { OnErr result (Rose self.old.faults self.new.faults) }
        ensures stored_stays { stored_in self.new ≡ stored_in self.old }
        ensures front { IfOk result (λ n. self.old.left ≡ take n buf.new ++ self.new.left) }
        ensures beyond { IfOk result (λ n. drop n buf.new ≡ drop n buf.old) }
        ensures end { IfOk result (λ n. 0 < length buf.old → (n ≡ 0) ↔ (self.old.left ≡ [])) }
    {
        if count_call(
            &mut self.calls,
            &mut self.faults,
            self.fail.as_slice(),
            false,
        ) {
            return Err(Failed);
        }
        let bytes = bytes_opened(self.opened, self.files.as_slice(), self.standard.as_slice());
        let count = copy_left(bytes, self.taken, buf);
        self.taken += count;
        Ok(count)
    }
}

// Copies the bytes after those taken into the buffer, as many as fit.
fn copy_left(bytes: &[u8], taken: usize, buf: &mut [u8]) -> usize
    ensures lesser { result ≡ min (length buf.old) (length bytes.now - taken) }
    ensures filled { buf.new ≡ take result (drop taken bytes.now) ++ drop result buf.old }
    ensures front { drop taken bytes.now ≡ take result buf.new ++ drop (taken + result) bytes.now }
    ensures beyond { drop result buf.new ≡ drop result buf.old }
{
    if bytes.len() <= taken {
        return 0;
    }
    let left = &bytes[taken..];
    let count = left.len().min(buf.len());
    buf[..count].copy_from_slice(&left[..count]);
    count
}
