// The layers of the machine.
ghost use Rattle.refusal.specs.Texts.{layer_name};
ghost use Rattle.std.specs.Prelude.{Some};

use std::fmt;

#[derive(Clone, Copy)]
pub enum Layer {
    File,
    Setup,
    Store,
    Records,
    Machine,
}

impl fmt::Display for Layer {
    ghost output = { λ l. Some (layer_name l) };

    fn fmt<W: fmt::Write>(&self, f: &mut fmt::Formatter<W>) -> fmt::Result {
        let name = match self {
            Layer::File => "File",
            Layer::Setup => "Setup",
            Layer::Store => "Store",
            Layer::Records => "Records",
            Layer::Machine => "Machine",
        };
        write!(f, "{name}")
    }
}
