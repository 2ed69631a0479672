// A simulated disk and the air.
use std::alloc::Global;
use synced::Synced;

pub mod calls;

// The file, of which what is synced is safe from a power cut; every message ever sent; and how many effects can still be done, where there is a limit.
// Contracts see a disk as `held` of it, and not through a `Model`: which effects may fail (`DiskDid`) is said of how much room its vectors have, which `Held` has no word for.
#[derive(Drop)]
pub struct Disk {
    heap: Global,
    bytes: Synced<u8>,
    sent: Vec<Vec<u8>>,
    budget: Option<u32>,
}
