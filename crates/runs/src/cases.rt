// Worked cases, as one table.
ghost use Rattle.runs.specs.Cases.{CasesHold};

// Every row of the table of worked cases holds.
pub fn cases_stand()
    ensures { CasesHold }
{}
