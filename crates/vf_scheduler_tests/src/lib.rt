//! Runs of the scheduler's definition, turn by turn, on small designs whose tables were worked out apart from it: the words at
//! time zero, and for each turn the words that it changes, the bytes that it writes and its mark. Each is the contract of a
//! function that does nothing, and the checker computes both sides. `cases` has single rules, with values found by hand.
#![tactic(auto)]

ghost use Rattle.vf_scheduler_tests.specs.Swap.{SwapRuns};
ghost use Rattle.vf_scheduler_tests.specs.Mon.{MonRuns};
ghost use Rattle.vf_scheduler_tests.specs.Res.{ResRuns};
ghost use Rattle.vf_scheduler_tests.specs.Flood.{FloodRuns};
ghost use Rattle.vf_scheduler_tests.specs.Bench.{BenchRuns};
ghost use Rattle.vf_scheduler_tests.specs.Wide.{WideRuns};
ghost use Rattle.vf_scheduler_tests.specs.Mix.{MixRuns};
ghost use Rattle.vf_scheduler_tests.specs.Cases.{CasesAre};
ghost use Rattle.vf_scheduler_tests.specs.Formed.{FormedAsSaid};
ghost use Rattle.vf_scheduler_tests.specs.Watching.{TablesAre};

/// Nonblocking assignments, a delay of 0 and a delay.
pub fn swap()
    ensures { SwapRuns }
{}

/// `$monitor`.
pub fn mon()
    ensures { MonRuns }
{}

/// Resolution of nets with two drivers.
pub fn res()
    ensures { ResRuns }
{}

/// Too few event slots.
pub fn flood()
    ensures { FloodRuns }
{}

/// Edges, reads of the stimulus, and ports.
pub fn bench()
    ensures { BenchRuns }
{}

/// Memories, parts, values above 64 bits, and `$strobe`.
pub fn wide()
    ensures { WideRuns }
{}

/// Loops of `repeat`, cases, `wait`, reads past the end, checkpoints, far delays and `$stop`.
pub fn mix()
    ensures { MixRuns }
{}

/// Which designs are well formed.
pub fn formed()
    ensures { FormedAsSaid }
{}

/// Single rules: delays, rounds, descriptors, edges, cases, parts and the future.
pub fn cases()
    ensures { CasesAre }
{}

/// Who waits for each signal, who drives each net, and where the words stand.
pub fn watching()
    ensures { TablesAre }
{}
