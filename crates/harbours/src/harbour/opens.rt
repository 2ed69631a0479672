// The harbour's program begins: it reads its journal.
ghost use Rattle.std.specs.Prelude.{◌≡◌, true};
ghost use Rattle.ledger.specs.Ledgers.{book};
ghost use Rattle.levels.specs.Verdicts.{Tries};
ghost use Rattle.records.specs.Records.{written};
ghost use Rattle.stations.specs.Journals as journals;
ghost use Rattle.harbours.specs.Openings.{enlisting, Reenlisted, Begins};
ghost use Rattle.stations.specs.Steps.{filed};

use super::Harbour;
use ledger::book::Ledger;
use levels::numbers::BoatId;
use levels::refusals::Refusal;
use records::Record;
use std::alloc::Global;

// Is a record one of the harbour's?
fn is_harbours(record: Record) -> bool
    ensures { result ≡ journals.harbour_reads (written «record») }
{
    match record {
        Record::Listed { boat, .. } => boat != BoatId::HARBOUR,
        Record::Allowed(_) => true,
        _ => false,
    }
}

// Are all records the harbour's?
fn all_harbours(journal: &[Record]) -> bool
    ensures { result ≡ journals.every journals.harbour_reads (filed journal.now) }
{
    journal.iter().all(|record| is_harbours(*record))
}

// One record more.
fn enlist(ledger: &mut Ledger, record: Record) -> Result<(), Refusal>
    ensures { Tries (enlisting (book ledger.old) (written «record»)) result (book ledger.old) (book ledger.new) }
{
    match record {
        Record::Listed { boat, floor } => ledger.restore(boat, floor),
        Record::Allowed(level) => {
            ledger.restore_level(level);
            Ok(())
        }
        _ => Ok(()),
    }
}

// The list and the level of a journal whose records are all the harbour's. Boats have such a loop too: one for both would be given its step as a closure, whose contract is longer than the loop.
fn enlist_all(heap: Global, journal: &[Record]) -> Result<Ledger, Refusal>
    requires { journals.every journals.harbour_reads (filed journal.now) ≡ true }
    ensures { Reenlisted (filed journal.now) result }
{
    let mut ledger = Ledger::new(heap);
    for record in journal {
        enlist(&mut ledger, *record)?;
    }
    Ok(ledger)
}

impl Harbour {
    // Opens a journal, the oldest record first. A record that is none of the harbour's is refused, then more boats than there is place for.
    pub fn open(heap: Global, journal: &[Record]) -> Result<Harbour, Refusal>
        ensures { Begins (filed journal.now) result }
    {
        if !all_harbours(journal) {
            return Err(Refusal::Malformed);
        }
        let ledger = enlist_all(heap, journal)?;
        Ok(Harbour { ledger })
    }
}
