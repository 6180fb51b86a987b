// A refusal as every layer reports it.
ghost use Rattle.refusal.specs.Texts.{refusal_text};
ghost use Rattle.std.specs.Prelude.{Some};

use crate::layers::Layer;
use std::fmt;

// Its number in the list of refusals, the layer that refused, and the place.
#[derive(Clone, Copy)]
pub struct Refusal {
    pub number: u8,
    pub layer: Layer,
    pub place: u64,
}

impl fmt::Display for Refusal {
    ghost output = { λ r. Some (refusal_text r) };

    fn fmt<W: fmt::Write>(&self, f: &mut fmt::Formatter<W>) -> fmt::Result {
        let Refusal {
            number,
            layer,
            place,
        } = *self;
        write!(f, "refused {number} {layer} at {place}")
    }
}
