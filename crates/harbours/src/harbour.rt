// The harbour as a program that runs.
use ledger::book::Ledger;

mod calls;
mod opens;

// It knows its ledger.
#[derive(Drop)]
pub struct Harbour {
    ledger: Ledger,
}
