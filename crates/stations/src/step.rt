// What a station does in one step.
use messages::Message;
use records::Record;

// The record that it appends, if any, and what it sends once that is synced: a message or none.
#[derive(Clone, Copy, Default, Drop)]
pub struct Step<M = Option<Message>> {
    pub record: Option<Record>,
    pub messages: M,
}

// The same with a message to each boat of a list.
pub type Call = Step<Vec<Message>>;
