//! Why the program stops without a text, and what it says then.

ghost use Rattle.std.specs.Prelude.{◌≡◌, ◌≢◌, ◌⊎◌, ◌++◌, ◌∷◌, [], IsTrue, IfOk, codes, string_bytes};
ghost use Rattle.gi_io.specs.Faults.{Rose};
ghost use Rattle.gi_top.specs.Stop.{message_of, status_of, Says};

use gi_io::{Output, write_all};
use gi_llt::Memory;
use std::alloc::Global;

/// Why the program stops before it writes a text.
#[derive(Drop)]
pub enum Stop<'a> {
    Usage(&'a str),
    ReadFault,
    TooLong,
    /// what is said of the input
    Refused(Vec<u8>),
    Memory,
}

impl Stop<'_> {
    /// The status that the program ends with.
    pub fn status(&self) -> u8
        ensures { result ≡ status_of self.now }
    {
        match self {
            Stop::Usage(_) => 2,
            Stop::ReadFault => 4,
            Stop::TooLong => 1,
            Stop::Refused(_) => 1,
            Stop::Memory => 3,
        }
    }

    /// What the program says, without the line feed.
    fn message(&self, alloc: Global) -> Result<Vec<u8>, Memory>
        ensures { IfOk result (λ message. message.items ≡ message_of self.now) }
    {
        let text = match self {
            Stop::Usage(word) => format!(in alloc; "gisel: usage: {word}"),
            Stop::ReadFault => String::from_str(alloc, "gisel: read fault"),
            Stop::TooLong => String::from_str(alloc, "gisel: input: limit 8388608"),
            Stop::Refused(message) => return copied(alloc, message.as_slice()),
            Stop::Memory => String::from_str(alloc, "gisel: memory"),
        };
        match text {
            Ok(text) => Ok(text.into_bytes()),
            Err(_) => Err(Memory),
        }
    }
}

/// The same bytes.
fn copied(alloc: Global, bytes: &[u8]) -> Result<Vec<u8>, Memory>
    ensures { IfOk result (λ copy. copy.items ≡ bytes.now) }
{
    match bytes.to_vec(alloc) {
        Ok(copy) => Ok(copy),
        Err(_) => Err(Memory),
    }
}

/// How many bytes of input are read at most.
pub const LIMIT: usize = 8_388_608;

/// Writes a message and a line feed. A fault changes nothing else.
pub fn say<E: Output>(err: &mut E, message: &[u8])
    ensures { IsTrue (E.tells err.old) → Says message.now (E.faults err.old) (E.faults err.new) (E.held err.old) (E.held err.new) }
{
    if err.create(None).is_ok() && write_all(err, message).is_ok() {
        let _ = write_all(err, b"\n");
    }
}

/// Says why the program stops, and answers its status. Where the message finds no memory it ends for want of it.
pub fn end_with<E: Output>(alloc: Global, err: &mut E, why: &Stop<'_>) -> u8
    ensures status { (result ≡ status_of why.now) ⊎ (result ≡ 3) }
    ensures said { result ≢ 3 → IsTrue (E.tells err.old) → Says (message_of why.now) (E.faults err.old) (E.faults err.new) (E.held err.old) (E.held err.new) }
    ensures no_memory { result ≡ 3 → IsTrue (E.tells err.old) → Says (codes "gisel: memory") (E.faults err.old) (E.faults err.new) (E.held err.old) (E.held err.new) }
{
    match why.message(alloc) {
        Ok(message) => {
            say(err, message.as_slice());
            why.status()
        }
        Err(_) => {
            say(err, b"gisel: memory");
            3
        }
    }
}
