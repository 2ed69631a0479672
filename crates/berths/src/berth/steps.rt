// What a station does on its file.
ghost use Rattle.std.specs.Fn.{FnOnceReturnsAt, FnOnceReturnsAtMut};
ghost use Rattle.berths.specs.Berths.{Acts, Begins};

use super::Berth;
use crate::course::Course;
use crate::doing::Doing;
use levels::refusals::Refusal;
use records::Record;
use runs::events::Fate;

impl<S: Drop> Berth<S> {
    // Its program, if it runs, takes a step, and comes as far with it as its fate lets it.
    pub(crate) fn act<D: Doing, E: From<Refusal>, F: FnOnce(&mut S) -> Result<D, E>>(
        &mut self,
        fate: Fate,
        step: F,
    ) -> Result<D::Said, E>
        requires { F.IsAlwaysCallable step }
        ensures { Acts (FnOnceReturnsAtMut F.FnOnce step) E.from_gives D.means D.letters fate self.old.station result self.old self.new }
    {
        let Some(station) = &mut self.station else {
            return Err(E::from(Refusal::Invalid));
        };
        self.journal.reserve()?;
        let deed = step(station)?;
        let written = deed.record();
        let course = Course {
            fate,
            syncs: written.is_some(),
        };
        self.journal.perform(course, written);
        if !course.lives() {
            self.station = None;
        }
        Ok(deed.said(course))
    }

    // A program begins over its file; what ran ends.
    pub(crate) fn begin<D: Doing, F: FnOnce(&[Record]) -> Result<(S, D), Refusal>>(
        &mut self,
        fate: Fate,
        start: F,
    ) -> Result<D::Said, Refusal>
        requires { F.IsAlwaysCallable start }
        ensures { Begins (FnOnceReturnsAt F.FnOnce start) D.means D.letters fate result self.old self.new }
    {
        self.journal.reserve()?;
        let (station, deed) = start(self.journal.file())?;
        let course = Course { fate, syncs: true };
        self.journal.perform(course, deed.record());
        self.station = course.lives().then_some(station);
        Ok(deed.said(course))
    }
}
