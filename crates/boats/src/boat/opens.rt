// A boat's program begins: it reads its journal.
ghost use Rattle.levels.specs.Verdicts.{Tries};
ghost use Rattle.logbooks.specs.Logs as logs;
ghost use Rattle.records.specs.Records.{written};
ghost use Rattle.boats.specs.Openings.{replaying, Rebuilt, Opens};
ghost use Rattle.stations.specs.Steps.{filed};

use super::{Boat, Memory};
use crate::survey::Survey;
use levels::numbers::{BoatId, Program};
use levels::refusals::Refusal;
use levels::standing::Standing;
use logbooks::log::Logbook;
use records::Record;
use stations::step::Step;
use std::alloc::Global;

// One record more: of a word's record the log takes the word.
fn replay(log: &mut Logbook, record: Record) -> Result<(), Refusal>
    ensures { Tries (replaying (logs.log log.old) (written «record»)) result (logs.log log.old) (logs.log log.new) }
{
    match record {
        Record::Word { from, number, word } => log.restore(from, number, word),
        _ => Ok(()),
    }
}

// The words of a journal. The harbour has such a loop too: one for both would be given its step as a closure, whose contract is longer than the loop.
fn rebuild(heap: Global, journal: &[Record]) -> Result<Logbook, Refusal>
    ensures { Rebuilt (filed journal.now) result }
{
    let mut log = Logbook::new(heap);
    for record in journal {
        replay(&mut log, *record)?;
    }
    Ok(log)
}

impl Boat {
    // Opens a journal, the oldest record first. A record that the program does not read is refused, then a floor above the program, then more ships than there is place for. A floor above 1 is told.
    pub fn open(
        heap: Global,
        number: BoatId,
        program: Program,
        journal: &[Record],
    ) -> Result<(Boat, Step), Refusal>
        ensures { Opens number.0 program.0 (filed journal.now) result }
    {
        if number == BoatId::HARBOUR {
            return Err(Refusal::Invalid);
        }
        if !Survey::reads_all(program, journal) {
            return Err(Refusal::Malformed);
        }
        let found = Survey::look_through(journal);
        if program < found.floor {
            return Err(Refusal::BelowFloor);
        }
        let standing = Standing {
            program,
            floor: found.floor,
            level: found.level,
        };
        let memory = Memory {
            standing,
            answered: false,
            used: found.used,
            log: rebuild(heap, journal)?,
        };
        let boat = Boat { number, memory };
        let step = boat.tick();
        Ok((boat, step))
    }
}
