// What a station does in one step.
ghost use Rattle.std.specs.Prelude.{◌≡◌, List, map};
ghost use Rattle.messages.specs.Messages.{Letter, letter};
ghost use Rattle.records.specs.Records.{written};
ghost use Rattle.stations.specs.Deeds.{Deed, option};
ghost use Rattle.stations.specs.Steps.{deed_of, call_of};
ghost use Rattle.runs.specs.Disks as disks;

use crate::course::Course;
use messages::Message;
use records::Record;
use stations::step::{Call, Step};

// It writes a record or none, and says something.
pub(crate) trait Doing: Drop {
    type Said;

    ghost means: { Self → Deed };

    ghost letters: { Self.Said → List Letter };

    fn record(&self) -> Option<Record>
        ensures { option written result ≡ (means self.now).records };

    // What is said of it, as far as it comes.
    fn said(self, course: Course) -> Self::Said
        ensures { letters result ≡ disks.told course.fate course.syncs (means self).letters };
}

impl Doing for Step {
    type Said = Option<Message>;

    ghost means = { deed_of };

    ghost letters = { option letter };

    fn record(&self) -> Option<Record> {
        self.record
    }

    fn said(self, course: Course) -> Option<Message> {
        course.told(self.messages)
    }
}

impl Doing for Call {
    type Said = Vec<Message>;

    ghost means = { call_of };

    ghost letters = { λ v. map letter v.items };

    fn record(&self) -> Option<Record> {
        self.record
    }

    fn said(self, course: Course) -> Vec<Message> {
        course.cut_short(self.messages)
    }
}
