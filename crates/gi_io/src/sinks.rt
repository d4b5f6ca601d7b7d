//! A sink of bytes, and writing all bytes to one.

ghost use Rattle.std.specs.Prelude.{◌≡◌, ◌<◌, ◌≤◌, ℕ, Bool, IsTrue, List, ◌++◌, length, take, Option, IfOk, OnOk, OnErr};
ghost use Rattle.std.specs.Option.{option_copied};
ghost use Rattle.gi_io.specs.Faults.{Rose};
ghost use Rattle.gi_io.specs.Writing.{AppendsPrefix};

use crate::Failed;

/// A sink of bytes, in one place: a file, or a standard stream, which has no name.
pub trait Output {
    // How many calls failed, at most 2^64 - 1.
    ghost faults: { Self → ℕ };

    // Whether the bytes are told. Where this is false `held` means nothing.
    ghost tells: { Self → Bool };

    // The bytes that it holds.
    ghost held: { Self → List ℕ };

    // Whether the place is told. Where this is false `place` means nothing.
    ghost tells_place: { Self → Bool };

    // The file's name, or none.
    ghost place: { Self → Option (List ℕ) };

    // Whether `create` was called on it.
    ghost created: { Self → Bool };

    /// Makes the file of the name, or takes the standard stream.
    fn create(&mut self, name: Option<&str>) -> Result<(), Failed>
        ensures faults_never_fall { faults self.old ≤ faults self.new }
        ensures failed { OnErr result (Rose (faults self.old) (faults self.new)) }
        ensures tells_stays { tells self.new ≡ tells self.old }
        ensures tells_place_stays { tells_place self.new ≡ tells_place self.old }
        ensures place_stays { place self.new ≡ place self.old }
        ensures held_stays { IsTrue (tells self.old) → held self.new ≡ held self.old }
        ensures is_created { IsTrue (created self.new) }
        ensures at_place { OnOk result (IsTrue (tells_place self.old) → option_copied name.entry ≡ place self.old) };

    /// Appends a prefix of the bytes, and answers how long it is.
    fn write(&mut self, bytes: &[u8]) -> Result<usize, Failed>
        ensures faults_never_fall { faults self.old ≤ faults self.new }
        ensures failed { OnErr result (Rose (faults self.old) (faults self.new)) }
        ensures tells_stays { tells self.new ≡ tells self.old }
        ensures tells_place_stays { tells_place self.new ≡ tells_place self.old }
        ensures place_stays { place self.new ≡ place self.old }
        ensures created_stays { created self.new ≡ created self.old }
        ensures fits { IfOk result (λ n. n ≤ length bytes.now) }
        ensures takes_some { IfOk result (λ n. 0 < length bytes.now → 0 < n) }
        ensures appended { IfOk result (λ n. IsTrue (tells self.old) → held self.new ≡ held self.old ++ take n bytes.now) }
        ensures failed_leaves { OnErr result (IsTrue (tells self.old) → held self.new ≡ held self.old) };
}

/// Appends all the bytes.
///
/// After `Failed` a prefix of them was appended.
pub fn write_all<O: Output>(out: &mut O, bytes: &[u8]) -> Result<(), Failed>
    ensures faults_never_fall { O.faults out.old ≤ O.faults out.new }
    ensures failed { OnErr result (Rose (O.faults out.old) (O.faults out.new)) }
    ensures tells_stays { O.tells out.new ≡ O.tells out.old }
    ensures tells_place_stays { O.tells_place out.new ≡ O.tells_place out.old }
    ensures place_stays { O.place out.new ≡ O.place out.old }
    ensures created_stays { O.created out.new ≡ O.created out.old }
    ensures whole { OnOk result (IsTrue (O.tells out.old) → O.held out.new ≡ O.held out.old ++ bytes.now) }
    ensures prefix { OnErr result (IsTrue (O.tells out.old) → AppendsPrefix (O.held out.old) (O.held out.new) bytes.now) }
{
    let mut done = 0;
    while done < bytes.len() {
        done += out.write(&bytes[done..])?;
    }
    Ok(())
}
