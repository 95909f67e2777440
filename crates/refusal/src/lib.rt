// What every refusal names: the layer that refused, its number in the table of refusals, and a
// place.
#![tactic(auto)]

ghost use Rattle.std.specs.Prelude.{Some};
ghost use Rattle.refusal.specs.Text.{layer_text, place_text, refusal_text};

use std::fmt;

/// The libraries that refuse, from the bottom up.
#[derive(Clone, Copy, PartialEq, Eq, Debug)]
pub enum Layer {
    Kind,
    Network,
    House,
}

/// Where a refusal happened. A refusal that has no place of its own names 0.
#[derive(Clone, Copy, PartialEq, Eq, Debug)]
pub enum Place {
    Zero,
    /// a place in the list of waiting messages
    Waiting(usize),
    /// one board's record of one block
    Entry { board: usize, block: usize },
}

/// A line of the table of refusals. Each layer's fault converts into its line by `From`.
#[derive(Clone, Copy, PartialEq, Eq, Debug)]
pub struct Refusal {
    pub layer: Layer,
    /// as in the table that users look up, with its gaps; in code the case of a fault says which
    /// refusal it is
    pub number: u8,
    pub place: Place,
}

impl fmt::Display for Layer {
    ghost output = { λ x. Some (layer_text x) };

    fn fmt<W: fmt::Write>(&self, f: &mut fmt::Formatter<W>) -> fmt::Result {
        f.write_str(match self {
            Layer::Kind => "kind",
            Layer::Network => "network",
            Layer::House => "house",
        })
    }
}

impl fmt::Display for Place {
    ghost output = { λ x. Some (place_text x) };

    fn fmt<W: fmt::Write>(&self, f: &mut fmt::Formatter<W>) -> fmt::Result {
        match self {
            Place::Zero => f.write_str("0"),
            Place::Waiting(at) => write!(f, "{at}"),
            Place::Entry { board, block } => write!(f, "board {board}, block {block}"),
        }
    }
}

impl fmt::Display for Refusal {
    ghost output = { λ x. Some (refusal_text x) };

    fn fmt<W: fmt::Write>(&self, f: &mut fmt::Formatter<W>) -> fmt::Result {
        write!(
            f,
            "layer {}, number {}, place {}",
            self.layer, self.number, self.place
        )
    }
}
