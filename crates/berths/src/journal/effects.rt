// What is done to a file, and what a fall leaves of it.
ghost use Rattle.std.specs.Prelude.{◌≡◌, ◌≤◌, Ok, OnOk};
ghost use Rattle.levels.specs.Verdicts.{Tries};
ghost use Rattle.records.specs.Records.{written};
ghost use Rattle.stations.specs.Deeds.{option};
ghost use Rattle.stations.specs.Steps.{filed};
ghost use Rattle.runs.specs.Disks.{blank, after};
ghost use Rattle.runs.specs.Disks as disks;
ghost use Rattle.synced.specs.Parts.{room};
ghost use Rattle.berths.specs.Disks.{disk};

use super::Journal;
use crate::course::Course;
use levels::refusals::Refusal;
use records::Record;
use runs::events::Fate;
use std::alloc::Global;
use synced::Synced;

impl Journal {
    // An empty file.
    pub fn new(heap: Global) -> Journal
        ensures { disk result ≡ blank }
    {
        Journal {
            records: Synced::new(heap),
        }
    }

    // All records, the oldest first.
    pub fn file(&self) -> &[Record]
        ensures { filed result.now ≡ disks.file (disk self.now) }
    {
        self.records.items()
    }

    // Room for one record more.
    pub(crate) fn reserve(&mut self) -> Result<(), Refusal>
        ensures same { Tries (Ok (disk self.old)) result (disk self.old) (disk self.new) }
        ensures room { OnOk result (1 ≤ room self.new.records) }
    {
        self.records.reserve(1)?;
        Ok(())
    }

    // A step, as far as it comes: the record is written, all is synced, the power is cut.
    pub(crate) fn perform(&mut self, course: Course, record: Option<Record>)
        requires { 1 ≤ room self.old.records }
        ensures { disk self.new ≡ after course.fate course.syncs (option written «record») (disk self.old) }
    {
        let effects = course.writes();
        if effects >= 1
            && let Some(record) = record
        {
            self.records.push_reserved(record);
        }
        if effects >= 2 {
            self.records.sync();
        }
        if let Fate::Cut { left, .. } = course.fate {
            self.records.cut(left);
        }
    }
}
