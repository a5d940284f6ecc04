//! The program, on words that it refuses or cannot have.

use std::alloc::{AllocError, Global};
use std::io::{self, ErrorKind};
use std::test::Fail;
use vf_program::program;

fn two_words(alloc: Global, design: &str, plan: &str) -> Result<Vec<String>, AllocError> {
    let mut words = Vec::new(alloc);
    words.push(String::from_str(alloc, design)?)?;
    words.push(String::from_str(alloc, plan)?)?;
    Ok(words)
}

#[test]
fn a_refusal_goes_to_the_error_output(rt: HostRuntime) -> Result<(), Fail> {
    // the words, the status, and the line
    for (words, status, line) in [
        (
            Ok(two_words(rt.alloc(), "/nowhere/d.v", "p.json")?),
            6u8,
            "vfarm: read: design failed\n",
        ),
        (Ok(Vec::new(rt.alloc())), 2, "vfarm: words: 3 Files\n"),
        (
            Err(io::Error::from(ErrorKind::InvalidData)),
            2,
            "vfarm: words: 1 Refused\n",
        ),
        (
            Err(io::Error::from(ErrorKind::OutOfMemory)),
            8,
            "vfarm: memory\n",
        ),
    ] {
        let mut out = Vec::new(rt.alloc());
        let mut err = Vec::new(rt.alloc());
        assert_eq!(rt;
            program(&rt, words, &mut out, &mut err),
            status,
            "at {line}"
        );
        assert_eq!(rt; out.as_slice(), "".as_bytes(), "at {line}");
        assert_eq!(rt; err.as_slice(), line.as_bytes(), "at {line}");
    }
    Ok(())
}
