//! Files and outputs of the system, over readers and writers in memory and over one real file.

ghost use Rattle.std.specs.Prelude.{false, refl};

use std::alloc::{AllocError, Global};
use std::io::{self, ErrorKind, Read, Write};
use std::test::Fail;
use std::{env, fs, process};
use vf_adapters::{FileShelf, OutSink, Telling, read_within};
use vf_ports::{Shelf, ShelfRefusal, SinkFailed, put_all};

/// A reader that gives at most `most` bytes in a call, and fails in the call of this number, from 1.
#[derive(Drop)]
struct Pieces<'a> {
    left: &'a [u8],
    most: usize,
    calls: u32,
    fails: u32,
}

impl Read for Pieces<'_> {
    fn read(&mut self, buf: &mut [u8]) -> io::Result<usize> {
        self.calls = self.calls.saturating_add(1);
        if self.calls == self.fails {
            return Err(io::Error::from(ErrorKind::Other));
        }
        let all = self.left;
        let count = all.len().min(buf.len()).min(self.most);
        buf[..count].copy_from_slice(&all[..count]);
        self.left = &all[count..];
        Ok(count)
    }
}

/// Bytes that differ from their neighbours.
fn counted_bytes(alloc: Global, count: u32) -> Result<Vec<u8>, AllocError> {
    let mut bytes = Vec::new(alloc);
    for at in 0..count {
        bytes.push((at % 251) as u8)?;
    }
    Ok(bytes)
}

#[test]
fn a_reader_is_read_to_its_end(rt: HostRuntime) -> Result<(), Fail> {
    let bytes = counted_bytes(rt.alloc(), 10_000)?;
    // the most bytes of a call, the call that fails, the limit, the answer, and how many bytes were appended
    for (most, fails, max, want, appended) in [
        (10_000usize, 0u32, 10_000u64, Ok(()), 10_000usize),
        (1, 0, 10_000, Ok(()), 10_000),
        (4096, 0, 20_000, Ok(()), 10_000),
        (
            10_000,
            0,
            9_999,
            Err(ShelfRefusal::TooLong { taken: 10_000 }),
            8192,
        ),
        (
            1,
            0,
            9_999,
            Err(ShelfRefusal::TooLong { taken: 10_000 }),
            9_999,
        ),
        (1, 0, 0, Err(ShelfRefusal::TooLong { taken: 1 }), 0),
        (4000, 3, 10_000, Err(ShelfRefusal::Failed), 8000),
        (1, 10_001, 10_000, Err(ShelfRefusal::Failed), 10_000),
    ] {
        let mut reader = Pieces {
            left: &bytes,
            most,
            calls: 0,
            fails,
        };
        let mut into = Vec::from_slice(rt.alloc(), b"-")?;
        let answer = read_within(&mut reader, max, &mut into);
        assert_eq!(rt; answer, want, "at {most} {fails} {max}");
        assert_eq!(rt;
            into.len(),
            appended.saturating_add(1),
            "at {most} {fails} {max}"
        );
        assert!(rt; into[0] == b'-' && bytes.starts_with(&into[1..]));
    }
    Ok(())
}

/// A writer that takes at most `most` bytes in a call, and fails in the call of this number, from 1.
#[derive(Drop)]
struct Narrow {
    taken: Vec<u8>,
    most: usize,
    calls: u32,
    fails: u32,
}

impl Write for Narrow {
    fn write(&mut self, buf: &[u8]) -> io::Result<usize> {
        self.calls = self.calls.saturating_add(1);
        if self.calls == self.fails {
            return Err(io::Error::from(ErrorKind::Other));
        }
        let count = buf.len().min(self.most);
        self.taken.extend_from_slice(&buf[..count])?;
        Ok(count)
    }

    fn flush(&mut self) -> io::Result<()> {
        Ok(())
    }
}

impl Telling for Narrow {
    ghost tells = { false };

    ghost steady = { λ _. refl };
}

#[test]
fn a_writer_is_written_to_until_it_fails(rt: HostRuntime) -> Result<(), Fail> {
    // the most bytes of a call, the call that fails, the answer, and what was taken
    for (most, fails, want, taken) in [
        (9usize, 0u32, Ok(()), "abcd"),
        (1, 0, Ok(()), "abcd"),
        (0, 0, Err(SinkFailed), ""),
        (9, 1, Err(SinkFailed), ""),
        (1, 3, Err(SinkFailed), "ab"),
    ] {
        let mut writer = Narrow {
            taken: Vec::new(rt.alloc()),
            most,
            calls: 0,
            fails,
        };
        let answer = put_all(&mut OutSink::new(&mut writer), b"abcd");
        assert_eq!(rt; answer, want, "at {most} {fails}");
        assert_eq!(rt;
            writer.taken.as_slice(),
            taken.as_bytes(),
            "at {most} {fails}"
        );
    }
    Ok(())
}

// The path of a file that only this process uses.
fn path(rt: &HostRuntime) -> io::Result<String> {
    let id = process::id(rt.process());
    let directory = env::temp_dir(rt)?;
    Ok(format!(in rt.alloc(); "{}/vf_edge_tests_{id}", directory.display())?)
}

#[test]
fn a_real_file_is_fetched(rt: HostRuntime) -> Result<(), Fail> {
    let path = path(&rt)?;
    let bytes = counted_bytes(rt.alloc(), 10_000)?;
    fs::write(&rt, path.as_str(), bytes.as_slice())?;
    let mut shelf = FileShelf::new(&rt);
    let mut whole = Vec::new(rt.alloc());
    let fetched = shelf.fetch(path.as_str(), 10_000, &mut whole);
    let mut part = Vec::new(rt.alloc());
    let long = shelf.fetch(path.as_str(), 9_999, &mut part);
    fs::remove_file(&rt, path.as_str())?;
    let missing = shelf.fetch(path.as_str(), 10_000, &mut part);
    assert_eq!(rt; fetched, Ok(()));
    assert_eq!(rt; whole.as_slice(), bytes.as_slice());
    assert_eq!(rt; long, Err(ShelfRefusal::TooLong { taken: 10_000 }));
    assert_eq!(rt; missing, Err(ShelfRefusal::Failed));
    // a directory can be opened and not be read
    assert_eq!(rt;
        shelf.fetch("/", 10_000, &mut whole),
        Err(ShelfRefusal::Failed)
    );
    assert_eq!(rt; whole.len(), 10_000);
    Ok(())
}
