//! The top call over inputs and outputs in memory: where calls fail, and where files have names.

use gi_io::{MemInput, MemOutput};
use gi_top::{gisel, refuse_word, write_text};
use std::alloc::Global;
use std::test::Fail;

const SUM: &str =
    "---\nname: f\nlegalized: true\nregBankSelected: true\nbody: |\n  bb.0:\n    liveins: $x10, $x11\n\n    %0:gprb(s32) = COPY $x10\n    %1:gprb(s32) = COPY $x11\n    %2:gprb(s32) = G_ADD %0, %1\n    $x10 = COPY %2(s32)\n    PseudoRET implicit $x10\n";

const SELECTED: &str =
    "---\nname:            f\nlegalized:       true\nregBankSelected: true\nselected:        true\ntracksRegLiveness: true\nbody:             |\n  bb.0:\n    liveins: $x10, $x11\n\n    %0:gpr = COPY $x10\n    %1:gpr = COPY $x11\n    %2:gpr = ADD %0, %1\n    $x10 = COPY %2\n    PseudoRET implicit $x10\n...\n";

// What the program answers: its status, and what the outputs hold.
#[derive(Drop)]
struct Answered {
    status: u8,
    out: Vec<u8>,
    err: Vec<u8>,
}

fn words_of(alloc: Global, words: &[&str]) -> Result<Vec<String>, Fail> {
    let mut given = Vec::new(alloc);
    for word in words {
        given.push(String::from_str(alloc, word)?)?;
    }
    Ok(given)
}

// An output of this name, which takes ten bytes at a time, where the calls with these numbers fail.
fn sink(alloc: Global, name: Option<&str>, fails: &[u32]) -> Result<MemOutput, Fail> {
    let place = match name {
        Some(name) => Some(String::from_str(alloc, name)?),
        None => None,
    };
    match MemOutput::new(alloc, place, 10, 4096, fails.to_vec(alloc)?) {
        Ok(sink) => Ok(sink),
        Err(_) => Err(Fail::from("memory")),
    }
}

fn run(
    alloc: Global,
    words: &[&str],
    mut input: MemInput,
    name: Option<&str>,
    out_fails: &[u32],
) -> Result<Answered, Fail> {
    let words = words_of(alloc, words)?;
    let mut out = sink(alloc, name, out_fails)?;
    let mut err = sink(alloc, None, &[])?;
    let status = gisel(alloc, words.as_slice(), &mut input, &mut out, &mut err);
    Ok(Answered {
        status,
        out: out.bytes().to_vec(alloc)?,
        err: err.bytes().to_vec(alloc)?,
    })
}

#[test]
fn stops_at_faults(rt: HostRuntime) -> Result<(), Fail> {
    let alloc = rt.alloc();
    let words = ["-mtriple=riscv32", "-start-after=regbankselect"];
    for (input_fails, out_fails, status, out, err) in [
        (&[][..], &[][..], 0u8, SELECTED, ""),
        (&[1], &[], 4, "", "gisel: read fault\n"),
        (&[2], &[], 4, "", "gisel: read fault\n"),
        (&[], &[1], 5, "", "gisel: write fault\n"),
        (&[], &[3], 5, "---\nname: ", "gisel: write fault\n"),
    ] {
        let text = SUM.as_bytes().to_vec(alloc)?;
        let input = MemInput::new(Vec::new(alloc), text, input_fails.to_vec(alloc)?);
        let answered = run(alloc, &words, input, None, out_fails)?;
        assert_eq!(rt; answered.out.as_slice(), out.as_bytes());
        assert_eq!(rt; answered.err.as_slice(), err.as_bytes());
        assert_eq!(rt; answered.status, status);
    }
    Ok(())
}

#[test]
fn takes_files(rt: HostRuntime) -> Result<(), Fail> {
    let alloc = rt.alloc();
    let printed = "---\nname:            f\ntracksRegLiveness: true\nbody:             |\n...\n";
    let start = "-start-after=irtranslator";
    let stop = "--stop-after=irtranslator";
    for (words, place, status, out, err) in [
        (&[start, stop, "b.mir"][..], None, 0u8, printed, ""),
        (
            &["b.mir", start, stop, "-o", "a.mir"],
            Some("a.mir"),
            0,
            printed,
            "",
        ),
        (&[start, stop, "b.mir", "-o", "-"], None, 0, printed, ""),
        (
            &[start, stop, "b.mir", "-o", "a.mir"],
            None,
            5,
            "",
            "gisel: write fault\n",
        ),
        (&[start, stop, "c.mir"], None, 4, "", "gisel: read fault\n"),
        (&[start, stop, "-o"], None, 2, "", "gisel: usage: -o\n"),
    ] {
        let mut files = Vec::new(alloc);
        files.push((
            String::from_str(alloc, "b.mir")?,
            b"---\nname: f\nbody: |\n".to_vec(alloc)?,
        ))?;
        let input = MemInput::new(files, Vec::new(alloc), Vec::new(alloc));
        let answered = run(alloc, words, input, place, &[])?;
        assert_eq!(rt; answered.out.as_slice(), out.as_bytes());
        assert_eq!(rt; answered.err.as_slice(), err.as_bytes());
        assert_eq!(rt; answered.status, status);
    }
    Ok(())
}

// The last word isn't UTF-8, and is shown with U+FFFD.
#[test]
fn tells_a_word_that_is_no_text(rt: HostRuntime) -> Result<(), Fail> {
    let alloc = rt.alloc();
    for (words, said) in [
        (
            &["-global-isel", "\u{FFFD}.mir"][..],
            "gisel: usage: \u{FFFD}.mir\n",
        ),
        (&["-o", "\u{FFFD}"], "gisel: usage: \u{FFFD}\n"),
        (&["-x", "\u{FFFD}"], "gisel: usage: -x\n"),
    ] {
        let words = words_of(alloc, words)?;
        let mut err = sink(alloc, None, &[])?;
        let last = words.last().map_or("", |word| word.as_str());
        assert_eq!(rt; refuse_word(alloc, words.as_slice(), last, &mut err), 2);
        assert_eq!(rt; err.bytes(), said.as_bytes());
    }
    Ok(())
}

#[test]
fn writes_a_text(rt: HostRuntime) -> Result<(), Fail> {
    let alloc = rt.alloc();
    for (fails, status, held, said) in [
        (&[][..], 0u8, "a text of its own\n", ""),
        (&[3], 5, "a text of ", "gisel: write fault\n"),
    ] {
        let mut out = sink(alloc, None, fails)?;
        let mut err = sink(alloc, None, &[])?;
        assert_eq!(rt;
            write_text(&mut out, &mut err, None, b"a text of its own\n"),
            status
        );
        assert_eq!(rt; out.bytes(), held.as_bytes());
        assert_eq!(rt; err.bytes(), said.as_bytes());
    }
    Ok(())
}
