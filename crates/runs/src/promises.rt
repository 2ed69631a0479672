// What is promised of every list of events with any fates. Each function has a theorem for its contract, and does nothing else.
ghost use Rattle.runs.specs.Promises.{FallLeaves, RunLasts, RunPromises, RunRecovers};
ghost use Rattle.runs.specs.Rising.{RunRises};

// After every list of events from the start, with kills and power cuts anywhere, all is as promised.
pub fn promises_stand()
    ensures { RunPromises }
{}

// Nothing that was promised, heard, said or sent is ever taken back.
pub fn lasts_stands()
    ensures { RunLasts }
{}

// Wherever a step is cut short, its file is that of the last whole step, or of this one.
pub fn fall_leaves_stands()
    ensures { FallLeaves }
{}

// A boat that begins again is as its file says.
pub fn recovers_stands()
    ensures { RunRecovers }
{}

// Wherever the stations have fallen, a level that the programs of the list allow can rise.
pub fn rising_stands()
    ensures { RunRises }
{}
