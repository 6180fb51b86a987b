// The lines of a text, one after another, each with its number.
ghost use Rattle.std.specs.Prelude.{◌≡◌, ◌+◌, ◌^◌, ◌<◌, length};

use crate::lines::split_line;

// The lines still to come, and the number of the first of them.
#[derive(Drop)]
pub struct Lines<'a> {
    rest: &'a [u8],
    number: u64,
    // A text has no more lines than bytes, so no number is too large.
    ghost fits: { number + length rest.now < 2 ^ 64 },
}

impl<'a> Lines<'a> {
    ghost use Rattle.trace.specs.Lines.{lines};
    ghost use Rattle.trace.specs.Numbered.{lines_left, next_number};

    pub fn new(text: &'a [u8], first: u32) -> Lines<'a>
        ensures gives_every_line { lines_left result ≡ lines text.now }
        ensures counts_from_the_first { next_number result ≡ first }
    {
        Lines {
            rest: text,
            number: u64::from(first),
        }
    }
}

impl<'a> Iterator for Lines<'a> {
    ghost use Rattle.std.specs.Iterator.{item_count};
    ghost use Rattle.trace.specs.Numbered.{lines_left, GivesLine};

    type Item = (u64, &'a [u8]);

    ghost next_gives = { GivesLine };

    ghost remaining = { item_count lines_left };

    #[tactic(auto, using(crate::proofs::LineLaws::lines_are, crate::proofs::LineLaws::after_shorter))]
    fn next(&mut self) -> Option<(u64, &'a [u8])> {
        if self.rest.is_empty() {
            return None;
        }
        let (line, rest) = split_line(self.rest);
        let number = self.number;
        *self = Lines {
            rest,
            number: number + 1,
        };
        Some((number, line))
    }
}
