// Steps and openings on a simulated disk, and what is left of them after any fall.
ghost use Rattle.std.specs.Prelude.{◌≡◌, map, OnOk};
ghost use Rattle.files.specs.Plans.{Performs, step_plan, opening_plan};
ghost use Rattle.files.specs.Disks.{held, DiskDid};
ghost use Rattle.files.specs.Holdings.{Ran};
ghost use Rattle.files.specs.Falls.{Finished, Settled, Stepped, Opened};

use crate::disk::Disk;
use crate::outside::Lost;
use crate::steps::{Opening, Step};

impl Step<'_> {
    // A step on a disk, whatever its budget and whatever was not synced before.
    pub fn play(&self, disk: &mut Disk) -> Result<(), Lost>
        ensures done { Performs DiskDid (step_plan self.now) result disk.old disk.new }
        ensures ran { Ran (step_plan self.now) result (held disk.old) (held disk.new) }
        ensures ok { OnOk result (Finished (held disk.old) self.now.bytes.now (map (λ m. m.items) self.now.messages.now) (held disk.new)) }
        ensures falls { Stepped (held disk.old) self.now.bytes.now (map (λ m. m.items) self.now.messages.now) (held disk.new) }
    {
        self.perform(disk)
    }
}

impl Opening<'_> {
    // An opening of a disk's file.
    pub fn open_disk(&self, disk: &mut Disk) -> Result<(), Lost>
        ensures done { Performs DiskDid (opening_plan self.now) result disk.old disk.new }
        ensures ran { Ran (opening_plan self.now) result (held disk.old) (held disk.new) }
        ensures ok { OnOk result (Settled (held disk.old) self.now.whole_len (map (λ m. m.items) self.now.messages.now) (held disk.new)) }
        ensures falls { Opened (held disk.old) self.now.whole_len (map (λ m. m.items) self.now.messages.now) (held disk.new) }
    {
        self.reopen(disk)
    }
}
