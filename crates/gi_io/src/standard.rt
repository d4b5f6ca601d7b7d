//! Files and standard streams: the trusted edge.
//!
//! Neither tells its bytes nor its place. A call that a signal interrupts is made again.

ghost use Rattle.std.specs.Prelude.{◌≡◌, ◌<◌, ◌≤◌, [], length, None, false, IfOk, OnOk, OnErr};

use crate::Failed;
use crate::sinks::Output;
use crate::sources::Input;
use std::io::{ErrorKind, Input as InputStream, Read, Write};
use std::marker::Model;
use std::rt::Files;
use std::{fs, io};

// What was opened last.
#[derive(Drop)]
enum Source<F: Drop, S: Drop> {
    Nothing,
    Stream(S),
    File(F),
}

/// Files by name, and standard input under no name.
#[derive(Drop)]
pub struct StdInput<R: Files + InputStream + Drop> {
    runtime: R,
    source: Source<R::File, R::Reader>,
    faults: u64,
}

impl<R: Files + InputStream + Drop> Model for StdInput<R> {
    ghost use Rattle.std.specs.Prelude.{ℕ};

    ghost Value = { ℕ };

    ghost view = { λ a. a.faults };
}

impl<R: Files + InputStream + Drop> StdInput<R> {
    /// A source over the runtime that has had no fault, and has nothing opened.
    pub fn new(runtime: R) -> Self
        ensures { result ≡ 0 }
    {
        StdInput {
            runtime,
            source: Source::Nothing,
            faults: 0,
        }
    }
}

// One read, made again where a signal interrupted it.
fn read_some<S: Read>(source: &mut S, buf: &mut [u8]) -> Result<usize, Failed>
    ensures { IfOk result (λ n. n ≤ length buf.old) }
{
    for _ in 0..u64::MAX {
        match source.read(buf) {
            Ok(count) => return Ok(count),
            Err(error) => {
                if error.kind() != ErrorKind::Interrupted {
                    return Err(Failed);
                }
            }
        }
    }
    Err(Failed)
}

// One write, made again where a signal interrupted it. A write that takes none of some bytes failed.
fn write_some<S: Write>(sink: &mut S, bytes: &[u8]) -> Result<usize, Failed>
    ensures fits { IfOk result (λ n. n ≤ length bytes.now) }
    ensures takes_some { IfOk result (λ n. 0 < length bytes.now → 0 < n) }
{
    for _ in 0..u64::MAX {
        match sink.write(bytes) {
            Ok(count) => {
                return if count == 0 && !bytes.is_empty() {
                    Err(Failed)
                } else {
                    Ok(count)
                };
            }
            Err(error) => {
                if error.kind() != ErrorKind::Interrupted {
                    return Err(Failed);
                }
            }
        }
    }
    Err(Failed)
}

impl<R: Files + InputStream + Drop> Input for StdInput<R> {
    ghost faults = { λ s. s };

    ghost tells = { λ _. false };

    ghost stored = { λ _ _. [] };

    ghost left = { λ _. [] };

    fn open(&mut self, name: Option<&str>) -> Result<(), Failed> {
        let source = match name {
            None => Source::Stream(self.runtime.reader()),
            Some(name) => match fs::open(&self.runtime, name) {
                Ok(file) => Source::File(file),
                Err(_) => {
                    self.faults = self.faults.saturating_add(1);
                    return Err(Failed);
                }
            },
        };
        self.source = source;
        Ok(())
    }

    fn read(&mut self, buf: &mut [u8]) -> Result<usize, Failed> {
        let count = match &mut self.source {
            Source::Nothing => Ok(0),
            Source::Stream(stream) => read_some(stream, buf),
            Source::File(file) => read_some(file, buf),
        };
        if count.is_err() {
            self.faults = self.faults.saturating_add(1);
        }
        count
    }
}

// What was created last.
#[derive(Drop)]
enum Sink<F: Drop> {
    Nothing,
    Stream,
    File(F),
}

/// A file by its name, and under no name a standard stream: `rt` for output, `rt.stderr()` for error.
#[derive(Drop)]
pub struct StdOutput<R: Files + Drop, P: Print + Drop> {
    files: R,
    stream: P,
    sink: Sink<R::File>,
    faults: u64,
    created: bool,
}

impl<R: Files + Drop, P: Print + Drop> Model for StdOutput<R, P> {
    ghost use Rattle.gi_io.specs.StandardSink.{StandardSink};

    ghost Value = { StandardSink };

    ghost view = { λ a. record { faults = a.faults; created = a.created } };
}

impl<R: Files + Drop, P: Print + Drop> StdOutput<R, P> {
    /// A sink over files and a stream that has had no fault, and on which `create` was not called.
    pub fn new(files: R, stream: P) -> Self
        ensures no_faults { result.faults ≡ 0 }
        ensures not_created { result.created ≡ false }
    {
        StdOutput {
            files,
            stream,
            sink: Sink::Nothing,
            faults: 0,
            created: false,
        }
    }
}

impl<R: Files + Drop, P: Print + Drop> Output for StdOutput<R, P> {
    ghost faults = { λ s. s.faults };

    ghost tells = { λ _. false };

    ghost held = { λ _. [] };

    ghost tells_place = { λ _. false };

    ghost place = { λ _. None };

    ghost created = { λ s. s.created };

    fn create(&mut self, name: Option<&str>) -> Result<(), Failed> {
        self.created = true;
        let sink = match name {
            None => Sink::Stream,
            Some(name) => match fs::create(&self.files, name) {
                Ok(file) => Sink::File(file),
                Err(_) => {
                    self.faults = self.faults.saturating_add(1);
                    return Err(Failed);
                }
            },
        };
        self.sink = sink;
        Ok(())
    }

    fn write(&mut self, bytes: &[u8]) -> Result<usize, Failed> {
        let count = match &mut self.sink {
            Sink::Nothing => Err(Failed),
            Sink::Stream => write_some(&mut io::writer(&self.stream), bytes),
            Sink::File(file) => write_some(file, bytes),
        };
        if count.is_err() {
            self.faults = self.faults.saturating_add(1);
        }
        count
    }
}
