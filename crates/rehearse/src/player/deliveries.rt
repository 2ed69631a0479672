// The messages that a step sends, and what becomes of them.
use super::{Fate, Player};
use crate::answers::{Answer, Output, Text};
use script::steps::Message;
use std::io;
use std::io::Write;
use world::messages::Notice;

impl Player {
    // The first message that has no fate yet, and what it says. No step sends both words and notices.
    fn next_sent(&self) -> Option<(Message, Text)> {
        let words = self.words.told();
        if let Some(word) = self.fleet().words().get(words) {
            return Some((Message::Word(words as u64 + 1), Text::Word(*word)));
        }
        let notices = self.notices.told();
        let notice = self.fleet().notices().get(notices)?;
        Some((Message::Notice(notices as u64 + 1), Text::Notice(*notice)))
    }

    // Gives the next message of a sort its fate.
    fn note(&mut self, message: Message, fate: Fate) -> io::Result<()> {
        match message {
            Message::Word(_) => self.words.note(fate)?,
            Message::Notice(_) => self.notices.note(fate)?,
        }
        Ok(())
    }

    // The fate of the next message: the one that waits, or it comes. One for which there is no memory waits on, and the message comes.
    fn next_fate(&mut self, message: Message) -> io::Result<Fate> {
        if let Some(fate) = self.ahead.front().copied()
            && self.note(message, fate).is_ok()
        {
            let _ = self.ahead.pop_front();
            return Ok(fate);
        }
        self.note(message, Fate::Comes)?;
        Ok(Fate::Comes)
    }

    // Brings the next message, unless another fate waits for it.
    fn deliver(&mut self, message: Message) -> io::Result<Answer> {
        match self.next_fate(message)? {
            Fate::Comes => Ok(self.play(message.coming()).into()),
            Fate::Lost => Ok(Answer::Lost),
            Fate::Late => Ok(Answer::Late),
        }
    }

    // Takes a message that a rise sent. All have come already but what the boats said last, that they have the level: that comes now, and sends nothing.
    fn brought(&mut self, message: Message, text: Text) -> io::Result<Answer> {
        self.note(message, Fate::Comes)?;
        match text {
            Text::Notice(Notice::Taken { .. }) => Ok(self.play(message.coming()).into()),
            _ => Ok(Answer::Done),
        }
    }

    // Does something with each message that has no fate yet, the oldest first, and with what is sent by that in its turn, and prints what came of it.
    fn tell<F>(&mut self, act: F, out: &mut Output) -> io::Result<()>
    where
        F: Fn(&mut Player, Message, Text) -> io::Result<Answer> + Drop,
        requires { F.IsAlwaysCallable act }
    {
        // A message may send others, so there is no measure that falls: the turns are counted. The pair is taken apart in a line of its own, since the pattern of a `let..else` does not take it.
        for _ in 0..u64::MAX {
            let Some(sent) = self.next_sent() else {
                break;
            };
            let (message, text) = sent;
            let answer = act(self, message, text)?;
            writeln!(out, "  {message} {text}: {answer}")?;
        }
        Ok(())
    }

    // Brings all that was sent.
    pub(super) fn settle(&mut self, out: &mut Output) -> io::Result<()> {
        self.tell(|player, message, _| player.deliver(message), out)
    }

    // Prints what a rise has sent.
    pub(super) fn show_brought(&mut self, out: &mut Output) -> io::Result<()> {
        self.tell(Player::brought, out)
    }
}
