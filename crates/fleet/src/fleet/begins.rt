// A new fleet.
ghost use Rattle.fleet.specs.Fleets.{Begins};

use super::{Berth, Fleet, Vessel};
use ledger::book::Ledger;
use levels::refusals::Refusal;
use levels::standing::Standing;
use logbooks::log::Logbook;
use std::alloc::Global;

// How many boats a rehearsal takes.
const MOST: usize = 8;

impl Fleet {
    // So many boats, 1 to 8, at their start.
    pub fn new(heap: Global, boats: usize) -> Result<Fleet, Refusal>
        ensures { Begins boats result }
    {
        if !(1..=MOST).contains(&boats) {
            return Err(Refusal::Invalid);
        }
        let mut berths = Vec::new(heap);
        // a loop whose number nobody needs, since each boat may find no memory
        for _ in 0..boats {
            let vessel = Vessel {
                standing: Standing::first(),
                answered: false,
                used: 0,
            };
            berths.push(Berth {
                vessel,
                log: Logbook::new(heap),
            })?;
        }
        Ok(Fleet {
            harbour: Ledger::new(heap),
            boats: berths,
            words: Vec::new(heap),
            notices: Vec::new(heap),
        })
    }
}
