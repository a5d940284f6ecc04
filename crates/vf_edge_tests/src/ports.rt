//! Shelves and sinks in memory.

use std::alloc::{AllocError, Global};
use std::test::Fail;
use vf_base::Text;
use vf_ports::{MemShelf, MemSink, Shelf, ShelfRefusal, SinkFailed, SureShelf, SureSink, put_all};

fn text(alloc: Global, bytes: &[u8]) -> Result<Text, AllocError> {
    Ok(Text::new(Vec::from_slice(alloc, bytes)?))
}

// "a" has three bytes, "b" none, and the second entry of "a" does not count.
fn files(alloc: Global) -> Result<Vec<(Text, Text)>, AllocError> {
    let mut files = Vec::new(alloc);
    for (name, bytes) in [("a", "xyz"), ("b", ""), ("a", "no")] {
        files.push((
            text(alloc, name.as_bytes())?,
            text(alloc, bytes.as_bytes())?,
        ))?;
    }
    Ok(files)
}

// What a fetch answers, and what it leaves in a target that began with "-".
fn fetched<S: Shelf>(
    alloc: Global,
    shelf: &mut S,
    name: &str,
    max: u32,
) -> Result<(Result<(), ShelfRefusal>, Vec<u8>), AllocError> {
    let mut into = Vec::from_slice(alloc, b"-")?;
    let answer = shelf.fetch(name, u64::from(max), &mut into);
    Ok((answer, into))
}

#[test]
fn a_shelf_fails_where_it_is_told_to(rt: HostRuntime) -> Result<(), Fail> {
    let mut failing = Vec::new(rt.alloc());
    failing.push(2)?;
    let mut shelf = MemShelf::new(rt.alloc(), files(rt.alloc())?, failing);
    let failed = Err(ShelfRefusal::Failed);
    let too_long = Err(ShelfRefusal::TooLong { taken: 3 });
    for (name, max, want, left) in [
        ("a", 9, Ok(()), "-xyz"),
        ("a", 9, failed, "-"),
        ("a", 3, Ok(()), "-xyz"),
        ("a", 2, too_long, "-"),
        ("c", 9, failed, "-"),
        ("b", 0, Ok(()), "-"),
    ] {
        let (answer, into) = fetched(rt.alloc(), &mut shelf, name, max)?;
        assert_eq!(rt; answer, want, "at {name} {max}");
        assert_eq!(rt; into.as_slice(), left.as_bytes(), "at {name} {max}");
    }
    Ok(())
}

#[test]
fn a_sure_shelf_has_every_name(rt: HostRuntime) -> Result<(), Fail> {
    let mut shelf = SureShelf::new(files(rt.alloc())?);
    let too_long = Err(ShelfRefusal::TooLong { taken: 3 });
    for (name, max, want, left) in [
        ("a", 3, Ok(()), "-xyz"),
        ("a", 2, too_long, "-"),
        ("c", 0, Ok(()), "-"),
    ] {
        let (answer, into) = fetched(rt.alloc(), &mut shelf, name, max)?;
        assert_eq!(rt; answer, want, "at {name} {max}");
        assert_eq!(rt; into.as_slice(), left.as_bytes(), "at {name} {max}");
    }
    Ok(())
}

#[test]
fn a_sink_takes_what_it_has_room_for(rt: HostRuntime) -> Result<(), Fail> {
    // room, the most in one call, the call that fails, the answer, and what was written
    for (room, most, fails, want, written) in [
        (9usize, 9usize, 0u64, Ok(()), "abcd"),
        (9, 1, 0, Ok(()), "abcd"),
        (4, 3, 0, Ok(()), "abcd"),
        (9, 2, 2, Err(SinkFailed), "ab"),
        (9, 9, 1, Err(SinkFailed), ""),
        (3, 2, 0, Err(SinkFailed), "abc"),
        (0, 1, 0, Err(SinkFailed), ""),
    ] {
        let mut failing = Vec::new(rt.alloc());
        failing.push(fails)?;
        let mut sink = MemSink::new(rt.alloc(), room, most, failing)?;
        assert_eq!(rt;
            put_all(&mut sink, b"abcd"),
            want,
            "at {room} {most} {fails}"
        );
        assert_eq!(rt;
            sink.bytes(),
            written.as_bytes(),
            "at {room} {most} {fails}"
        );
    }
    Ok(())
}

#[test]
fn nothing_fails_at_no_bytes(rt: HostRuntime) -> Result<(), Fail> {
    let mut sink = MemSink::new(rt.alloc(), 0, 1, Vec::new(rt.alloc()))?;
    assert_eq!(rt; put_all(&mut sink, b""), Ok(()));
    let mut sure = SureSink::new();
    assert_eq!(rt; put_all(&mut sure, b"abcd"), Ok(()));
    Ok(())
}
