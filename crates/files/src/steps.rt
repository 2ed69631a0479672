// The effects of a step and of an opening, in their order, over any outside.
ghost use Rattle.std.specs.Prelude.{◌≡◌};
ghost use Rattle.files.specs.Plans.{Performs, sends, committing, step_plan, opening_plan};

use crate::outside::{Lost, Outside};

// A step: the bytes of its record, none where there is no record, and its messages.
#[derive(Clone, Copy, Debug)]
pub struct Step<'a> {
    pub bytes: &'a [u8],
    pub messages: &'a [Vec<u8>],
}

// An opening of a file: how many bytes its whole part has, and the messages that follow.
#[derive(Clone, Copy, Debug)]
pub struct Opening<'a> {
    pub whole_len: usize,
    pub messages: &'a [Vec<u8>],
}

// Bytes are appended and synced.
pub fn commit<O: Outside>(outside: &mut O, bytes: &[u8]) -> Result<(), Lost>
    ensures { Performs O.Outside.did (committing bytes.now) result outside.old outside.new }
{
    outside.append(bytes)?;
    outside.sync()
}

// Each message is sent, in order, up to the first that fails.
pub fn send_each<O: Outside>(outside: &mut O, messages: &[Vec<u8>]) -> Result<(), Lost>
    ensures { Performs O.Outside.did (sends messages.now) result outside.old outside.new }
{
    for message in messages {
        outside.send(message.as_slice())?;
    }
    Ok(())
}

impl Step<'_> {
    // Its record is on the file and synced before any of its messages is sent. Where there is no record, the messages are only sent.
    pub fn perform<O: Outside>(&self, outside: &mut O) -> Result<(), Lost>
        ensures { Performs O.Outside.did (step_plan self.now) result outside.old outside.new }
    {
        if !self.bytes.is_empty() {
            commit(outside, self.bytes)?;
        }
        send_each(outside, self.messages)
    }
}

impl Opening<'_> {
    // The file is cut back to its whole part and always synced before anything is sent.
    pub fn reopen<O: Outside>(&self, outside: &mut O) -> Result<(), Lost>
        ensures { Performs O.Outside.did (opening_plan self.now) result outside.old outside.new }
    {
        outside.cut_back(self.whole_len)?;
        outside.sync()?;
        send_each(outside, self.messages)
    }
}
