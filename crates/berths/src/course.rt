// How far a step comes.
ghost use Rattle.std.specs.Prelude.{◌≡◌, map};
ghost use Rattle.messages.specs.Messages.{letter};
ghost use Rattle.stations.specs.Deeds.{option};
ghost use Rattle.runs.specs.Disks as disks;
ghost use Rattle.berths.specs.Disks.{sent, wrote};

use messages::Message;
use runs::events::Fate;

// A step's fate, and whether the step syncs.
#[derive(Clone, Copy)]
pub(crate) struct Course {
    pub(crate) fate: Fate,
    pub(crate) syncs: bool,
}

impl Course {
    // Does the program run on?
    pub(crate) fn lives(self) -> bool
        ensures { result ≡ disks.lives self.fate }
    {
        matches!(self.fate, Fate::Whole)
    }

    // How many of its effects on a file are reached: the append, and then the sync.
    pub(crate) fn writes(self) -> usize
        ensures { result ≡ wrote self.fate self.syncs }
    {
        if !self.syncs {
            return 0;
        }
        match self.fate {
            Fate::Whole => 2,
            Fate::Killed { effects } | Fate::Cut { effects, .. } => effects,
        }
    }

    // How many of so many messages are sent.
    fn sends(self, messages: usize) -> usize
        ensures { result ≡ sent self.fate self.syncs messages }
    {
        match self.fate {
            Fate::Whole => messages,
            Fate::Killed { effects } | Fate::Cut { effects, .. } => {
                let reach = if self.syncs {
                    effects.saturating_sub(2)
                } else {
                    effects
                };
                reach.min(messages)
            }
        }
    }

    // The message of a step, if it is sent.
    pub(crate) fn told(self, message: Option<Message>) -> Option<Message>
        ensures { option letter result ≡ disks.told self.fate self.syncs (option letter message) }
    {
        message.filter(|_| self.sends(1) == 1)
    }

    // The messages of a step that are sent.
    pub(crate) fn cut_short(self, mut messages: Vec<Message>) -> Vec<Message>
        ensures { map letter result.items ≡ disks.told self.fate self.syncs (map letter messages.items) }
    {
        messages.truncate(self.sends(messages.len()));
        messages
    }
}
