//! Calls that are numbered, and made to fail by their numbers.

ghost use Rattle.std.specs.Prelude.{◌≡◌, ◌≤◌, ◌||◌, IsTrue, if◌then◌else◌};
ghost use Rattle.gi_io.specs.Calls.{call_after, fault_after, is_made_to_fail};
ghost use Rattle.gi_io.specs.Faults.{Rose};

// Counts a call, and says whether it fails: where its number is made to fail, and where it fails anyhow.
pub(crate) fn count_call(
    calls: &mut u32,
    faults: &mut u64,
    fail: &[u32],
    fails_anyhow: bool,
) -> bool
    ensures fails { result ≡ is_made_to_fail fail.now calls.old || fails_anyhow }
    ensures calls { calls.new ≡ call_after calls.old }
    ensures faults { faults.new ≡ (if result then fault_after faults.old else faults.old) }
    ensures never_fall { faults.old ≤ faults.new }
    ensures rose { IsTrue result → Rose faults.old faults.new }
{
    *calls = calls.saturating_add(1);
    let fails = fail.contains(calls) || fails_anyhow;
    if fails {
        *faults = faults.saturating_add(1);
    }
    fails
}
