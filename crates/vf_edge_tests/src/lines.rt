//! Lines of a report.

ghost use Rattle.std.specs.Prelude.{◌≡◌, IfOk};

use std::alloc::{AllocError, Global};
use std::test::Fail;
use vf_base::{Ending, Outcome, Text};
use vf_report::{Summary, summary_line, test_line};

fn done(alloc: Global, ending: Ending, bytes: &[u8], turns: u64) -> Result<Outcome, AllocError>
    ensures { IfOk result (λ outcome. outcome ≡ Outcome.Done ending bytes.now turns) }
{
    Ok(Outcome::Done {
        ending,
        text: Text::new(Vec::from_slice(alloc, bytes)?),
        turns,
    })
}

#[test]
fn writes_runs_that_ended(rt: HostRuntime) -> Result<(), Fail> {
    let alloc = rt.alloc();
    for (ending, bytes, turns, line) in [
        (
            Ending::Finish(0),
            "hi\n",
            20,
            "test t finish:0 turns 20 bytes 3 out 68690a expect none\n",
        ),
        (
            Ending::Finish(0),
            "",
            4,
            "test t finish:0 turns 4 bytes 0 out - expect none\n",
        ),
        (
            Ending::Stop(1),
            "J",
            2,
            "test t stop:1 turns 2 bytes 1 out 4a expect none\n",
        ),
        (
            Ending::Drained,
            "0 x 1\n",
            3,
            "test t drained turns 3 bytes 6 out 30207820310a expect none\n",
        ),
        (
            Ending::Turns,
            "hi\n",
            19,
            "test t turns turns 19 bytes 3 out 68690a expect none\n",
        ),
        (
            Ending::Output,
            "hi",
            14,
            "test t output turns 14 bytes 2 out 6869 expect none\n",
        ),
        (
            Ending::Events,
            "x",
            5,
            "test t events turns 5 bytes 1 out 78 expect none\n",
        ),
        (
            Ending::Time,
            "",
            5,
            "test t time turns 5 bytes 0 out - expect none\n",
        ),
    ] {
        let outcome = done(alloc, ending, bytes.as_bytes(), turns)?;
        let written = test_line(alloc, b"t", None, Some(&outcome))?;
        assert_eq!(rt; written.as_slice(), line.as_bytes());
    }
    Ok(())
}

#[test]
fn compares_with_the_expectation(rt: HostRuntime) -> Result<(), Fail> {
    let alloc = rt.alloc();
    let outcome = done(alloc, Ending::Finish(0), b"hi\n", 20)?;
    for (expected, line) in [
        (
            "hi\n",
            "test t finish:0 turns 20 bytes 3 out 68690a expect met\n",
        ),
        (
            "hx\n",
            "test t finish:0 turns 20 bytes 3 out 68690a expect differs:3:1\n",
        ),
        (
            "hi",
            "test t finish:0 turns 20 bytes 3 out 68690a expect differs:2:2\n",
        ),
        (
            "hi\nho\n",
            "test t finish:0 turns 20 bytes 3 out 68690a expect differs:6:3\n",
        ),
        (
            "",
            "test t finish:0 turns 20 bytes 3 out 68690a expect differs:0:0\n",
        ),
    ] {
        let written = test_line(alloc, b"t", Some(expected.as_bytes()), Some(&outcome))?;
        assert_eq!(rt; written.as_slice(), line.as_bytes());
    }
    Ok(())
}

#[test]
fn writes_refusals(rt: HostRuntime) -> Result<(), Fail> {
    let alloc = rt.alloc();
    let pages = test_line(alloc, b"two", None, Some(&Outcome::Pages(4)))?;
    assert_eq!(rt; pages.as_slice(), b"test two pages 4\n".as_slice());
    let memory = test_line(alloc, b"two", Some(b"x"), None)?;
    assert_eq!(rt; memory.as_slice(), b"test two memory\n".as_slice());
    Ok(())
}

#[test]
fn sums_four_tests(rt: HostRuntime) -> Result<(), Fail> {
    let alloc = rt.alloc();
    let outcome = done(alloc, Ending::Finish(0), b"hi\n", 20)?;
    let mut summary = Summary::new();
    summary.add(Some(b"hi\n"), Some(&outcome));
    summary.add(Some(b"hx\n"), Some(&outcome));
    summary.add(Some(b"hi\n"), Some(&Outcome::Pages(4)));
    summary.add(None, None);
    let line = summary_line(alloc, &summary)?;
    let expected = "tests 4 completed 2 met 1 failed 1 pages 1 memory 1 turns 40\n";
    assert_eq!(rt; line.as_slice(), expected.as_bytes());
    assert_eq!(rt; summary.failed, 1);
    Ok(())
}

#[test]
fn sums_a_test_without_an_expectation(rt: HostRuntime) -> Result<(), Fail> {
    let alloc = rt.alloc();
    let outcome = done(alloc, Ending::Finish(0), b"hi\n", 20)?;
    let mut summary = Summary::new();
    summary.add(None, Some(&outcome));
    let line = summary_line(alloc, &summary)?;
    let expected = "tests 1 completed 1 met 0 failed 0 pages 0 memory 0 turns 20\n";
    assert_eq!(rt; line.as_slice(), expected.as_bytes());
    Ok(())
}
