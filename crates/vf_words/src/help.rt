//! The texts that `--help` and `--version` ask for.

ghost use Rattle.std.specs.Prelude.{◌≡◌};
ghost use Rattle.vf_words.specs.Pages.{help_text, version_text};

/// The help page.
pub const HELP_PAGE: &str = "\
vfarm runs a tree of Verilog tests and simulates each shared beginning once.

Usage: vfarm [OPTION]... DESIGN PLAN

DESIGN is a file of Verilog, PLAN a file of JSON that lists the tests. Options
and files stand in any order, each option at most once.

Options:
  --mode MODE     what to do, one of the modes below (default run)
  --workers N     workers that run tests side by side, 1 to 16 (default 1)
  --pages N       most pages of 64 words that are held at a time, and that a
                  test may touch, 1 to 1048576 (default 65536)
  --turns N       limit on turns of a test that has none of its own,
                  1 to 4294967296 (default 1000000)
  --output N      limit on bytes written of a test that has none of its own,
                  0 to 262144 (default 65536)
  --slots N       event slots of the design, 1 to 16384 (default 1024)
  --top NAME      name of the top module
  --evict ORDER   checkpoint that is given back first where pages are wanted:
                  oldest, deepest or widest (default oldest)
  --journal       writes the journal after the report, in mode run
  --test NAME     the test of mode solo, and of no other mode
  --number N      number of the design that the program makes itself,
                  0 to 4294967295 (default 0)
  -h, --help      this page, as the first word
  -V, --version   the version, as the first word

Modes:
  run             runs every test, and writes a line for each and a summary
  check           reads the design and the plan, and writes their sizes
  solo            runs the test of --test alone, from time zero

Status:
  0  every test completed, and every expectation is met
  1  the output of a test differs from its expectation
  2  the words of the command line are refused
  3  the design is refused
  4  the plan is refused, or has no test of that name
  5  a test touches more pages than --pages
  6  a file could not be read, or is too long
  7  the output could not be written
  8  out of memory

Example:
  vfarm --journal --turns 50000 counter.v tests.json
";

/// The line of the version.
pub const VERSION_LINE: &str = "vfarm 0.1.0\n";

/// The help page (docs/FORMATS.md, "Command words"): lines of at most 80 columns.
#[tactic(auto, unfolding(crate::specs::Pages::help_text))]
pub fn help_page() -> &'static [u8]
    ensures { result.now ≡ help_text }
{
    HELP_PAGE.as_bytes()
}

/// The program's name and version, on one line.
#[tactic(auto, unfolding(crate::specs::Pages::version_text))]
pub fn version_line() -> &'static [u8]
    ensures { result.now ≡ version_text }
{
    VERSION_LINE.as_bytes()
}
