//! Commands that the rows of vf_command_tests cannot show: pages of help, a file at its limit, and outputs that have no room or never fail.

ghost use Rattle.std.specs.Prelude.{◌≤◌};

use crate::outside::{Answered, calm, counted, echo, files, names, owned, text, told};
use std::alloc::Global;
use std::marker::Brand;
use std::sync::ledger::Blank;
use std::test::Fail;
use vf_base::{Memory, Text};
use vf_ports::{MemShelf, MemSink, SureShelf, SureSink};
use vf_words::help_page;

fn empty_design() -> &'static str {
    "module m; endmodule"
}

fn hi() -> &'static str {
    "{\"version\":1,\"nodes\":[{\"name\":\"t\",\"text\":\"hi\\n\",\"test\":true}]}"
}

#[test]
fn the_help_page_needs_no_files(rt: HostRuntime) -> Result<(), Fail> {
    let cases: [&[&str]; 2] = [&["--help", "--nothing"], &["-h"]];
    for words in cases {
        let mut outside = calm();
        outside.fetch_fails = 1;
        let told = told(rt.alloc(), words, Vec::new(rt.alloc()), outside)?;
        assert_eq!(rt; told.status, 0);
        assert_eq!(rt; told.out.bytes(), help_page());
        assert_eq!(rt; told.err.bytes(), "".as_bytes());
    }
    Ok(())
}

#[test]
fn a_design_above_its_limit_is_not_read(rt: HostRuntime) -> Result<(), Fail> {
    // At the limit the blanks are read, and are not a design.
    for (blanks, status, line) in [
        (1_048_576usize, 3u8, "vfarm: design: early 1 NotBuilt\n"),
        (1_048_577, 6, "vfarm: read: design too long 1048577\n"),
    ] {
        let mut design = Vec::with_capacity(rt.alloc(), blanks)?;
        design.resize(blanks, b' ')?;
        let mut files = Vec::new(rt.alloc());
        files.push((text(rt.alloc(), "d.v")?, Text::new(design)))?;
        let told = told(rt.alloc(), names(), files, calm())?;
        assert_eq!(rt; told.status, status);
        assert_eq!(rt; told.out.bytes(), "".as_bytes());
        assert_eq!(rt; told.err.bytes(), line.as_bytes());
    }
    Ok(())
}

// Runs the empty design with an `err` that has no room.
fn refused_in_silence(alloc: Global) -> Result<Answered, Memory> {
    let words = owned(alloc, names())?;
    let mut shelf = MemShelf::new(alloc, files(alloc, empty_design(), hi())?, Vec::new(alloc));
    let mut out = MemSink::new(alloc, 4096, 4096, Vec::new(alloc))?;
    let mut err = MemSink::new(alloc, 0, 4096, Vec::new(alloc))?;
    let blank = Blank::new(1);
    let status = counted::<MemShelf, MemSink, MemSink, Brand>(
        alloc, &words, &mut shelf, &mut out, &mut err, blank,
    );
    Ok(Answered { status, out, err })
}

#[test]
fn an_err_that_fails_changes_nothing(rt: HostRuntime) -> Result<(), Fail> {
    let told = refused_in_silence(rt.alloc())?;
    assert_eq!(rt; told.status, 3);
    assert_eq!(rt; told.out.bytes(), "".as_bytes());
    assert_eq!(rt; told.err.bytes(), "".as_bytes());
    Ok(())
}

// Runs the echo where nothing outside can fail.
fn surely(alloc: Global) -> Result<u8, Memory> {
    let words = owned(alloc, names())?;
    let mut shelf = SureShelf::new(files(alloc, echo(), hi())?);
    let mut out = SureSink::new();
    let mut err = SureSink::new();
    let blank = Blank::new(1);
    Ok(counted::<SureShelf, SureSink, SureSink, Brand>(
        alloc, &words, &mut shelf, &mut out, &mut err, blank,
    ))
}

#[test]
fn where_nothing_fails_the_report_is_whole(rt: HostRuntime) -> Result<(), Fail> {
    assert_eq!(rt; surely(rt.alloc())?, 0);
    Ok(())
}
