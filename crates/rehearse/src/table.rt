// The table of the boats.
use fleet::fleet::{Berth, Fleet};
use forms::sent::Sent;
use levels::numbers::{BoatId, FormNumber};
use levels::programs::program3;
use levels::rules::reads;
use levels::standing::Standing;
use std::alloc::{AllocError, Global};
use std::fmt;

// Is a form on the air: was a word ever sent in it?
fn on_air(words: &[Sent], form: FormNumber) -> bool {
    words.iter().any(|word| word.spoken.form() == form)
}

// Is there a boat that keeps a word in a form?
fn in_a_file(boats: &[Berth], form: FormNumber) -> bool {
    boats.iter().any(|berth| berth.log.keeps(form))
}

// The forms that are on the air or kept by some boat, of those that any program writes.
fn forms_in_use(heap: Global, fleet: &Fleet) -> Result<Vec<FormNumber>, AllocError> {
    (1..=program3::GREATEST_FORM)
        .map(FormNumber)
        .filter(|form| on_air(fleet.words(), *form) || in_a_file(fleet.boats(), *form))
        .collect(heap)
}

// Does the boat that a word is for read it now?
fn can_be_read(fleet: &Fleet, word: Sent) -> bool {
    fleet.boat(word.to).is_some_and(|berth| reads(
        berth.vessel.standing.program,
        word.spoken.form(),
    ))
}

// Can every word that was ever sent be read now?
fn all_can_be_read(fleet: &Fleet) -> bool {
    fleet.words().iter().all(|word| can_be_read(fleet, *word))
}

// A truth as it is printed.
fn yes_no(truth: bool) -> &'static str {
    if truth { "yes" } else { "no" }
}

// The boats of a rehearsal, and the forms in use.
#[derive(Drop)]
pub struct Table<'a> {
    fleet: &'a Fleet,
    forms: Vec<FormNumber>,
}

impl<'a> Table<'a> {
    // The table of a rehearsal as it stands.
    pub(crate) fn new(heap: Global, fleet: &'a Fleet) -> Result<Table<'a>, AllocError> {
        Ok(Table {
            fleet,
            forms: forms_in_use(heap, fleet)?,
        })
    }

    // Has the harbour heard the floor of a boat?
    fn is_told(&self, boat: BoatId, standing: Standing) -> bool {
        self.fleet
            .harbour()
            .floor_of(boat)
            .is_some_and(|heard| standing.floor <= heard)
    }

    // The names of the columns.
    fn heading<W: fmt::Write>(&self, f: &mut fmt::Formatter<W>) -> fmt::Result {
        f.write_str("boat  program  floor  level  told")?;
        for form in &self.forms {
            write!(f, "  form {form}")?;
        }
        f.write_str("\n")
    }

    // The line of a boat.
    fn row<W: fmt::Write>(
        &self,
        boat: BoatId,
        standing: Standing,
        f: &mut fmt::Formatter<W>,
    ) -> fmt::Result {
        let Standing {
            program,
            floor,
            level,
        } = standing;
        let told = yes_no(self.is_told(boat, standing));
        write!(f, "{boat:>4}{program:>9}{floor:>7}{level:>7}{told:>6}")?;
        for form in &self.forms {
            let read = yes_no(reads(program, *form));
            write!(f, "{read:>8}")?;
        }
        f.write_str("\n")
    }

    // The last line: what was said, how much was sent, and whether all of it can be read.
    fn footing<W: fmt::Write>(&self, f: &mut fmt::Formatter<W>) -> fmt::Result {
        let said = self.fleet.harbour().said();
        let words = self.fleet.words().len();
        let notices = self.fleet.notices().len();
        let verdict = if all_can_be_read(self.fleet) {
            "every word can be read"
        } else {
            "NOT EVERY WORD CAN BE READ"
        };
        writeln!(
            f,
            "said {said}, {words} words, {notices} notices, {verdict}"
        )
    }
}

impl fmt::Display for Table<'_> {
    fn fmt<W: fmt::Write>(&self, f: &mut fmt::Formatter<W>) -> fmt::Result {
        self.heading(f)?;
        for (boat, berth) in (1..=u16::MAX).zip(self.fleet.boats()) {
            self.row(BoatId(boat), berth.vessel.standing, f)?;
        }
        self.footing(f)
    }
}
