// What a boat's journal has that takes no place in memory.
ghost use Rattle.std.specs.Prelude.{◌≤◌};

use levels::numbers::{Level, Program};
use levels::rules::reads;
use records::Record;

// The floor, the level and the numbers used: of each the highest.
#[derive(Clone, Copy)]
pub struct Survey {
    pub floor: Program,
    pub level: Level,
    pub used: u32,
    ghost begun: { 1 ≤ floor.0 },
    ghost levelled: { 1 ≤ level.0 },
}

impl Survey {
    ghost use Rattle.std.specs.Prelude.{◌≡◌};
    ghost use Rattle.records.specs.Records.{written};
    ghost use Rattle.boats.specs.Openings.{found, surveyed, noting};
    ghost use Rattle.stations.specs.Steps.{filed};
    ghost use Rattle.stations.specs.Journals as journals;

    // Does a boat that runs a program read a record?
    fn is_read(program: Program, record: Record) -> bool
        ensures { result ≡ journals.boat_reads program.0 (written «record») }
    {
        match record {
            Record::Word { word, .. } => reads(program, word.form()),
            Record::Listed { .. } => false,
            Record::Floor(_) | Record::Allowed(_) | Record::Used(_) => true,
        }
    }

    // Does it read every record of a journal?
    pub fn reads_all(program: Program, journal: &[Record]) -> bool
        ensures { result ≡ journals.every (journals.boat_reads program.0) (filed journal.now) }
    {
        journal
            .iter()
            .all(|record| Survey::is_read(program, *record))
    }

    // One record more.
    fn note(&mut self, record: Record)
        ensures { found self.new ≡ noting (written «record») (found self.old) }
    {
        match record {
            Record::Floor(floor) => self.floor = self.floor.max(floor),
            Record::Allowed(level) => self.level = self.level.max(level),
            Record::Used(used) => self.used = self.used.max(used),
            Record::Word { .. } | Record::Listed { .. } => {}
        }
    }

    // Looks through a journal.
    pub fn look_through(journal: &[Record]) -> Survey
        ensures { found result ≡ surveyed (filed journal.now) }
    {
        let mut survey = Survey {
            floor: Program(1),
            level: Level(1),
            used: 0,
        };
        for record in journal {
            survey.note(*record);
        }
        survey
    }
}
