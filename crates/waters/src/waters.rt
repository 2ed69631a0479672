// The harbour, the boats, and all that was ever sent.
ghost use Rattle.std.specs.Prelude.{◌≡◌, true};
ghost use Rattle.waters.specs.Numbers.{numbered};

use berths::port::Port;
use berths::vessel::Vessel;
use forms::sent::Sent;
use messages::Message;
use std::alloc::Global;

mod orders;

// Boat number i stands at place i - 1. What was sent is never taken away, the oldest first.
#[derive(Drop)]
pub struct Waters {
    heap: Global,
    pub vessels: Vec<Vessel>,
    pub port: Port,
    pub words: Vec<Sent>,
    pub notices: Vec<Message>,
    ghost numbers: { numbered 1 vessels.items ≡ true },
}
