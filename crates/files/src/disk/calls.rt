// What is asked of a simulated disk, and how it falls.
ghost use Rattle.std.specs.Prelude.{◌≡◌, true, false, map, MatchResult};
ghost use Rattle.files.specs.Holdings.{runs, lowered, empty, file, ended, cut_to, limited};
ghost use Rattle.files.specs.Disks.{held, DiskDid};

use super::Disk;
use crate::outside::{Lost, Outside};
use std::alloc::Global;
use synced::Synced;

impl Disk {
    // An empty file, nothing sent, and no limit.
    pub fn new(heap: Global) -> Disk
        ensures { held result ≡ empty }
    {
        Disk {
            heap,
            bytes: Synced::new(heap),
            sent: Vec::new(heap),
            budget: None,
        }
    }

    // The whole file, what is not synced too.
    pub fn file(&self) -> &[u8]
        ensures { result.now ≡ file (held self.now) }
    {
        self.bytes.items()
    }

    // What is safe of it.
    pub fn synced(&self) -> &[u8]
        ensures { result.now ≡ (held self.now).synced }
    {
        self.bytes.safe()
    }

    // Every message ever sent, in order.
    pub fn sent(&self) -> &[Vec<u8>]
        ensures { map (λ m. m.items) result.now ≡ (held self.now).sent }
    {
        self.sent.as_slice()
    }

    // The machine will stop after so many effects.
    pub fn limit(&mut self, effects: u32)
        ensures { held self.new ≡ limited effects (held self.old) }
    {
        self.budget = Some(effects);
    }

    // The program ends: the file stays, synced or not as it is.
    pub fn end(&mut self)
        ensures { held self.new ≡ ended (held self.old) }
    {
        self.budget = None;
    }

    // The power is cut: all that was synced stays, and the first `left` bytes of the rest, which are still not synced.
    pub fn cut(&mut self, left: usize)
        ensures { held self.new ≡ cut_to left (held self.old) }
    {
        self.end();
        self.bytes.cut(left);
    }

    // The budget after one more effect, where one can still be done.
    fn spent(&self) -> Result<Option<u32>, Lost>
        ensures { MatchResult result (λ left. (runs self.now.budget ≡ true) × (left ≡ lowered self.now.budget)) (λ _. runs self.now.budget ≡ false) }
    {
        self.budget
            .map(|left| left.checked_sub(1).ok_or(Lost))
            .transpose()
    }
}

impl Outside for Disk {
    ghost did = { DiskDid };

    fn append(&mut self, bytes: &[u8]) -> Result<(), Lost> {
        let budget = self.spent()?;
        self.bytes.extend_from_slice(bytes)?;
        self.budget = budget;
        Ok(())
    }

    fn sync(&mut self) -> Result<(), Lost> {
        self.budget = self.spent()?;
        self.bytes.sync();
        Ok(())
    }

    fn send(&mut self, bytes: &[u8]) -> Result<(), Lost> {
        let budget = self.spent()?;
        let mut message = Vec::new(self.heap);
        message.extend_from_slice(bytes)?;
        self.sent.push(message)?;
        self.budget = budget;
        Ok(())
    }

    fn cut_back(&mut self, len: usize) -> Result<(), Lost> {
        let kept = len.checked_sub(self.synced().len()).ok_or(Lost)?;
        self.budget = self.spent()?;
        self.bytes.cut(kept);
        Ok(())
    }
}
