// What is promised of every list of events. Each function has a theorem for its contract, and does nothing else.
ghost use Rattle.world.specs.Promises.{RunLasts, RunPromises};
ghost use Rattle.world.specs.Rising.{RunRises};

// Nothing that was sent is ever taken away.
pub fn lasts_stands()
    ensures { RunLasts }
{}

// After every list of events from the start all is as promised.
pub fn promises_stand()
    ensures { RunPromises }
{}

// After every list of events from the start, a level that the programs of the list allow can rise.
pub fn rising_stands()
    ensures { RunRises }
{}
