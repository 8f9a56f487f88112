// What is said of an order from elsewhere that does not fit.
use std::fmt;

// The first kind that the order tears, and the first grave by its place that lies between two graves of the kind without having it.
#[derive(Clone, Copy, PartialEq, Eq, Debug, Drop)]
pub struct Torn {
    pub kind: usize,
    pub grave: u8,
}

impl fmt::Display for Torn {
    ghost use Rattle.std.specs.Prelude.{Some};
    ghost use Rattle.tables.specs.Texts.{torn_text};

    ghost output = { λ t. Some (torn_text t) };

    fn fmt<W: fmt::Write>(&self, f: &mut fmt::Formatter<W>) -> fmt::Result {
        let Torn { kind, grave } = self;
        write!(f, "torn {kind} at {grave}")
    }
}
