// The rows of a tree, and what stands in their cells.
ghost use Rattle.std.specs.Prelude.{◌≡◌, ◌<◌, slice_set};
ghost use Rattle.trees.specs.Cells.{shortest};
ghost use Rattle.trees.specs.Rows.{seen_rows, lent_rows, SameSlices};
ghost use Rattle.trees.specs.Sorts.{code_of, Decodes};

// The four rows of a tree, to be read together.
#[derive(Clone, Copy)]
pub struct View<'a> {
    pub parents: &'a [u8],
    pub sorts: &'a [u8],
    pub places: &'a [u8],
    pub sets: &'a [u64],
}

// The four rows of a tree, to be written together.
#[derive(Drop)]
pub struct Rows<'a> {
    pub parents: &'a mut [u8],
    pub sorts: &'a mut [u8],
    pub places: &'a mut [u8],
    pub sets: &'a mut [u64],
}

// What a cell stands for: a grave, branches in any order, or branches in a row.
#[derive(Clone, Copy, PartialEq, Eq, Debug, Drop)]
pub enum Sort {
    Grave,
    Any,
    Row,
}

// A number that stands for no sort.
#[derive(Clone, Copy, PartialEq, Eq, Debug, Drop)]
pub struct NoSort(pub u8);

// What a cell of a tree holds in its four rows.
#[derive(Clone, Copy)]
pub struct Cell {
    pub parent: u8,
    pub sort: Sort,
    pub place: u8,
    pub graves: u64,
}

// The number that stands for the sort in a cell.
impl From<Sort> for u8 {
    ghost from_gives = { λ s r. r ≡ code_of s };

    fn from(sort: Sort) -> u8 {
        sort as u8
    }
}

// The sort that a cell's number stands for.
impl TryFrom<u8> for Sort {
    type Error = NoSort;

    ghost try_from_gives = { Decodes };

    fn try_from(code: u8) -> Result<Sort, NoSort> {
        match code {
            0 => Ok(Sort::Grave),
            1 => Ok(Sort::Any),
            2 => Ok(Sort::Row),
            _ => Err(NoSort(code)),
        }
    }
}

impl View<'_> {
    // For how many cells there is room: for as many as the shortest of the rows has.
    pub fn room(self) -> usize
        ensures { result ≡ shortest (seen_rows self.entry) }
    {
        self.parents
            .len()
            .min(self.sorts.len())
            .min(self.places.len().min(self.sets.len()))
    }
}

impl Rows<'_> {
    // The rows, to be read.
    pub fn view(&self) -> View<'_>
        ensures { seen_rows result ≡ lent_rows self.now }
    {
        View {
            parents: self.parents,
            sorts: self.sorts,
            places: self.places,
            sets: self.sets,
        }
    }

    // For how many cells there is room.
    pub fn room(&self) -> usize
        ensures { result ≡ shortest (lent_rows self.now) }
    {
        self.view().room()
    }

    // Writes a cell.
    pub fn put(&mut self, i: usize, cell: Cell)
        requires { i < shortest (lent_rows self.old) }
        ensures parents_after { self.new.parents.now ≡ slice_set self.old.parents.now i cell.parent }
        ensures sorts_after { self.new.sorts.now ≡ slice_set self.old.sorts.now i (code_of cell.sort) }
        ensures places_after { self.new.places.now ≡ slice_set self.old.places.now i cell.place }
        ensures sets_after { self.new.sets.now ≡ slice_set self.old.sets.now i cell.graves }
        ensures same { SameSlices self.old self.new }
    {
        self.parents[i] = cell.parent;
        self.sorts[i] = cell.sort.into();
        self.places[i] = cell.place;
        self.sets[i] = cell.graves;
    }
}
