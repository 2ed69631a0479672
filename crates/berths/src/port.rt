// The harbour with its file.
use crate::berth::Berth;
use harbours::harbour::Harbour;

mod calls;

// Its file with what it knows while it runs.
#[derive(Drop)]
pub struct Port {
    pub berth: Berth<Harbour>,
}
