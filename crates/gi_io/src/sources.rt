//! A source of bytes, and reading one to its end.

ghost use Rattle.std.specs.Prelude.{◌≡◌, ◌↔◌, ◌<◌, ◌≤◌, ℕ, ◌+◌, ◌-◌, ◌^◌, Bool, IsTrue, List, [], ◌++◌, length, take, drop, Option, IfOk, OnOk, OnErr, IsErrOf, vec_len};
ghost use Rattle.std.specs.Option.{option_copied};
ghost use Rattle.gi_io.specs.Faults.{Rose};

use crate::Failed;
use std::alloc::Global;

/// A source of bytes: files by name, and standard input under no name.
pub trait Input {
    // How many calls failed, at most 2^64 - 1.
    ghost faults: { Self → ℕ };

    // Whether the next two are told. Where this is false they mean nothing.
    ghost tells: { Self → Bool };

    // The bytes stored under a name, and under no name.
    ghost stored: { Self → Option (List ℕ) → List ℕ };

    // The bytes that the next reads take.
    ghost left: { Self → List ℕ };

    /// Goes to the start of a file, or of standard input.
    fn open(&mut self, name: Option<&str>) -> Result<(), Failed>
        ensures faults_never_fall { faults self.old ≤ faults self.new }
        ensures failed { OnErr result (Rose (faults self.old) (faults self.new)) }
        ensures tells_stays { tells self.new ≡ tells self.old }
        ensures stored_stays { stored self.new ≡ stored self.old }
        ensures opened { OnOk result (IsTrue (tells self.old) → left self.new ≡ stored self.old (option_copied name.entry)) }
        ensures failed_leaves { OnErr result (IsTrue (tells self.old) → left self.new ≡ left self.old) };

    /// Takes some of the bytes that are left into the front of a buffer, and answers how many.
    fn read(&mut self, buf: &mut [u8]) -> Result<usize, Failed>
        ensures faults_never_fall { faults self.old ≤ faults self.new }
        ensures failed { OnErr result (Rose (faults self.old) (faults self.new)) }
        ensures tells_stays { tells self.new ≡ tells self.old }
        ensures stored_stays { stored self.new ≡ stored self.old }
        ensures fits { IfOk result (λ n. n ≤ length buf.old) }
        ensures taken { IfOk result (λ n. IsTrue (tells self.old) → left self.old ≡ take n buf.new ++ left self.new) }
        ensures end { IfOk result (λ n. IsTrue (tells self.old) → 0 < length buf.old → (n ≡ 0) ↔ (left self.old ≡ [])) }
        ensures buffer_beyond { IfOk result (λ n. IsTrue (tells self.old) → drop n buf.new ≡ drop n buf.old) }
        ensures failed_leaves { OnErr result (IsTrue (tells self.old) → left self.new ≡ left self.old) }
        ensures failed_leaves_buffer { OnErr result (IsTrue (tells self.old) → buf.new ≡ buf.old) };
}

/// Why not all bytes were read.
#[derive(Clone, Copy, Debug, PartialEq, Eq)]
pub enum ReadError {
    ReadFault,
    TooLong,
    Memory,
}

// How much one read asks for at most.
const PIECE: usize = 4096;

/// All bytes that are left, unless there are more than the limit.
///
/// Of a source that has more, one byte more than the limit is read. After `ReadFault` and `Memory` some bytes
/// may have been read.
pub fn read_all<I: Input>(alloc: Global, input: &mut I, limit: usize) -> Result<Vec<u8>, ReadError>
    requires { limit < 2 ^ 32 - 1 }
    ensures faults_never_fall { I.faults input.old ≤ I.faults input.new }
    ensures read_fault { IsErrOf result ReadError.ReadFault → Rose (I.faults input.old) (I.faults input.new) }
    ensures tells_stays { I.tells input.new ≡ I.tells input.old }
    ensures stored_stays { I.stored input.new ≡ I.stored input.old }
    ensures within_limit { IfOk result (λ v. vec_len v ≤ limit) }
    ensures all { IfOk result (λ v. IsTrue (I.tells input.old) → v.items ≡ I.left input.old) }
    ensures at_end { OnOk result (IsTrue (I.tells input.old) → I.left input.new ≡ []) }
    ensures too_long { IsErrOf result ReadError.TooLong → IsTrue (I.tells input.old) → limit < length (I.left input.old) }
    ensures too_long_taken { IsErrOf result ReadError.TooLong
        → IsTrue (I.tells input.old)
        → I.left input.new ≡ drop (limit + 1) (I.left input.old) }
{
    let mut all = Vec::new(alloc);
    let mut buffer = [0u8; PIECE];
    while all.len() <= limit {
        let wanted = (limit + 1 - all.len()).min(PIECE);
        let Ok(count) = input.read(&mut buffer[..wanted]) else {
            return Err(ReadError::ReadFault);
        };
        if count == 0 {
            return Ok(all);
        }
        let Ok(()) = all.extend_from_slice(&buffer[..count]) else {
            return Err(ReadError::Memory);
        };
    }
    Err(ReadError::TooLong)
}
