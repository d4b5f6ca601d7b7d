use gi_io::{
    Input, MemInput, MemOutput, Output, ReadError, StdInput, StdOutput, read_all, write_all,
};
use std::alloc::Global;
use std::test::Fail;

fn list(alloc: Global, numbers: &[u32]) -> Result<Vec<u32>, Fail> {
    Ok(numbers.to_vec(alloc)?)
}

fn source(alloc: Global, fail: &[u32]) -> Result<MemInput, Fail> {
    let mut files = Vec::new(alloc);
    for (name, text) in [("a", "first"), ("b", "beta"), ("a", "second")] {
        files.push((
            String::from_str(alloc, name)?,
            text.as_bytes().to_vec(alloc)?,
        ))?;
    }
    Ok(MemInput::new(files, b"standard".to_vec(alloc)?, list(alloc, fail)?))
}

// What a name reads as, where the calls with these numbers fail.
fn read_name(
    alloc: Global,
    name: Option<&str>,
    limit: u16,
    fail: &[u32],
) -> Result<Result<Vec<u8>, ReadError>, Fail> {
    let mut input = source(alloc, fail)?;
    if input.open(name).is_err() {
        return Ok(Err(ReadError::ReadFault));
    }
    Ok(read_all(alloc, &mut input, usize::from(limit)))
}

#[test]
fn reads_all_or_says_why_not(rt: HostRuntime) -> Result<(), Fail> {
    let alloc = rt.alloc();
    let no_call: &[u32] = &[];
    for (name, limit, fail, wanted) in [
        (None, 8u16, no_call, Ok("standard")),
        (Some("a"), 8, no_call, Ok("first")),
        (Some("b"), 4, no_call, Ok("beta")),
        (Some("b"), 3, no_call, Err(ReadError::TooLong)),
        (Some("c"), 8, no_call, Err(ReadError::ReadFault)),
        (None, 8, &[1][..], Err(ReadError::ReadFault)),
        (None, 8, &[2][..], Err(ReadError::ReadFault)),
        (None, 8, &[3][..], Err(ReadError::ReadFault)),
        (None, 8, &[4][..], Ok("standard")),
    ] {
        let read = read_name(alloc, name, limit, fail)?;
        match (read, wanted) {
            (Ok(bytes), Ok(text)) => assert_eq!(rt; bytes.as_slice(), text.as_bytes()),
            (Err(error), Err(reason)) => assert_eq!(rt; error, reason),
            _ => panic!(rt; "{name:?} up to {limit}"),
        }
    }
    Ok(())
}

#[test]
fn writes_all_in_pieces_or_a_prefix(rt: HostRuntime) -> Result<(), Fail> {
    let alloc = rt.alloc();
    for (piece, room, fail, written, whole) in [
        (3usize, 10usize, &[][..], "0123456789", true),
        (0, 12, &[][..], "0123456789", true),
        (3, 7, &[][..], "0123456", false),
        (3, 10, &[3][..], "012", false),
        (3, 10, &[1][..], "", false),
    ] {
        let place = Some(String::from_str(alloc, "out")?);
        let fail = list(alloc, fail)?;
        let Ok(mut out) = MemOutput::new(alloc, place, piece, room, fail) else {
            return Err(Fail::from("memory"));
        };
        let created = out.create(Some("out")).is_ok();
        let wrote = created && write_all(&mut out, b"0123456789").is_ok();
        assert_eq!(rt; wrote, whole, "{piece} of {room}");
        assert_eq!(rt; out.bytes(), written.as_bytes(), "{piece} of {room}");
        assert!(rt; out.create(None).is_err());
    }
    Ok(())
}

#[test]
fn reaches_files_and_streams(rt: HostRuntime) -> Result<(), Fail> {
    let alloc = rt.alloc();
    let name = "gi_io_test.txt";
    let mut out = StdOutput::new(&rt, rt.stderr());
    assert!(rt; out.create(Some("no/such/folder")).is_err());
    assert!(rt; out.create(Some(name)).is_ok());
    assert!(rt; write_all(&mut out, b"some bytes").is_ok());
    let mut input = StdInput::new(&rt);
    assert!(rt; input.open(Some("no/such/file")).is_err());
    assert!(rt; input.open(Some(name)).is_ok());
    let Ok(bytes) = read_all(alloc, &mut input, 100) else {
        return Err(Fail::from("read"));
    };
    assert_eq!(rt; bytes.as_slice(), b"some bytes".as_slice());
    assert!(rt; input.open(None).is_ok());
    assert!(rt; out.create(None).is_ok());
    std::fs::remove_file(&rt, name)?;
    Ok(())
}
