// What is said of a ring from elsewhere that is no ground.
use std::fmt;

// The first pair that does not clash with the next.
#[derive(Clone, Copy, PartialEq, Eq, Debug, Drop)]
pub struct NoClash {
    pub pair: usize,
}

impl fmt::Display for NoClash {
    ghost use Rattle.std.specs.Prelude.{Some};
    ghost use Rattle.grounds.specs.Texts.{no_clash_text};

    ghost output = { λ n. Some (no_clash_text n) };

    fn fmt<W: fmt::Write>(&self, f: &mut fmt::Formatter<W>) -> fmt::Result {
        let pair = self.pair;
        write!(f, "no clash at {pair}")
    }
}
