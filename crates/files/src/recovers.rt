// What is recovered of a step and of an opening after any fall. A format is named by its type alone: what is promised is promised for every format of that type.
ghost use Rattle.std.specs.Prelude.{◌≡◌};
ghost use Rattle.files.specs.Plans.{Performs, step_plan, opening_plan};
ghost use Rattle.files.specs.Disks.{held, DiskDid};
ghost use Rattle.files.specs.Comebacks.{ComesBack, OpensAgain, Extends, Restores, FallsTorn, StepsTorn, OpensTorn};

use crate::disk::Disk;
use crate::format::Format;
use crate::outside::Lost;
use crate::steps::{Opening, Step};

impl Step<'_> {
    // A step that writes records of a format, on a disk whose file is whole records: wherever it stops and whatever falls, the records that were synced are recovered, and the new ones too if a message was sent.
    pub fn play_records<F: Format>(&self, disk: &mut Disk) -> Result<(), Lost>
        ensures done { Performs DiskDid (step_plan self.now) result disk.old disk.new }
        ensures ok { Extends result (held disk.old) self.now.bytes.now (held disk.new) }
        ensures torn { (format : F) → StepsTorn (F.Format.known format) (held disk.old) self.now.bytes.now (held disk.new) }
        ensures recovered { (format : F) → ComesBack (F.Format.begins format) (F.Format.known format) (held disk.old) self.now.bytes.now (held disk.new) }
    {
        self.play(disk)
    }
}

impl Opening<'_> {
    // An opening of a file that a fall left: wherever it stops and whatever falls then, what was synced is recovered, and all that was recovered before if a message was sent.
    pub fn open_records<F: Format>(&self, disk: &mut Disk) -> Result<(), Lost>
        ensures done { Performs DiskDid (opening_plan self.now) result disk.old disk.new }
        ensures ok { (format : F) → Restores (F.Format.begins format) result (held disk.old) self.now.whole_len (held disk.new) }
        ensures torn { (format : F) → OpensTorn (F.Format.begins format) (F.Format.known format) (held disk.old) self.now.whole_len (held disk.new) }
        ensures recovered { (format : F) → OpensAgain (F.Format.begins format) (F.Format.known format) (held disk.old) self.now.whole_len (held disk.new) }
    {
        self.open_disk(disk)
    }
}

// A fall leaves of a file of records, the last of which may be cut off, such a file, and takes nothing that was synced.
pub fn falls_stand<F: Format>()
    ensures { (format : F) → FallsTorn (F.Format.known format) }
{}
