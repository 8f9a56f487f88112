// Some cells of a tree, in a value of their own.
ghost use Rattle.std.specs.Prelude.{◌≡◌, ◌<◌, ◌≤◌, ◌==◌, [], ◌∷◌, ◌++◌, length, reverse};

// The first so many of these cells: no more than 64, since a tree has no more branches. Those behind them are no part of it.
#[derive(Clone, Copy)]
pub struct Bunch {
    pub cells: [u8; 64],
    pub many: usize,
    ghost few: { many ≤ 64 },
}

impl Bunch {
    ghost use Rattle.changes.specs.Bunches.{listed};

    // No cells.
    pub(crate) fn new() -> Bunch
        ensures { listed result ≡ [] }
    {
        Bunch {
            cells: [0; 64],
            many: 0,
        }
    }

    // How many cells there are.
    pub(crate) fn len(&self) -> usize
        ensures { result ≡ length (listed self.now) }
    {
        self.many
    }

    // Whether there is none.
    pub(crate) fn is_empty(&self) -> bool
        ensures { result ≡ (length (listed self.now) == 0) }
    {
        self.many == 0
    }

    // The cells.
    pub(crate) fn as_slice(&self) -> &[u8]
        ensures { result.now ≡ listed self.now }
    {
        &self.cells[..self.many]
    }

    // One cell more, behind the others.
    pub(crate) fn push(&mut self, cell: u8)
        requires { length (listed self.old) < 64 }
        ensures { listed self.new ≡ listed self.old ++ cell ∷ [] }
    {
        self.cells[self.many] = cell;
        self.many += 1;
    }

    // The cells turned round.
    pub(crate) fn turned(&self) -> Bunch
        ensures { listed result ≡ reverse (listed self.now) }
    {
        let mut cells = self.cells;
        cells[..self.many].reverse();
        Bunch {
            cells,
            many: self.many,
        }
    }
}
