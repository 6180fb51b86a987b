// How replies and answers are written.
ghost use Rattle.std.specs.Prelude.{Some};
ghost use Rattle.frames.specs.Texts.{answer_text, reply_text};

use crate::calls::{Answer, Reply};
use refusal::refusals::Refusal;
use std::fmt;

impl fmt::Display for Reply {
    ghost output = { λ r. Some (reply_text r) };

    fn fmt<W: fmt::Write>(&self, f: &mut fmt::Formatter<W>) -> fmt::Result {
        match self {
            Reply::Accepted => write!(f, "ok"),
            Reply::Word(word) => write!(f, "word {word}"),
            Reply::Depth(frames) => write!(f, "depth {frames}"),
            Reply::Spare(frames) => write!(f, "spare {frames}"),
        }
    }
}

// An answer to be printed: a reply, or the refusal.
#[derive(Clone, Copy)]
pub struct Shown(pub Answer);

impl fmt::Display for Shown {
    ghost output = { λ a. Some (answer_text a.0) };

    fn fmt<W: fmt::Write>(&self, f: &mut fmt::Formatter<W>) -> fmt::Result {
        match self.0 {
            Ok(reply) => write!(f, "{reply}"),
            Err(fault) => {
                let refusal = Refusal::from(fault);
                write!(f, "{refusal}")
            }
        }
    }
}
