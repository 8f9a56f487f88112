// Trees of up to seven graves as they are printed, read back. Each grave is one digit.
use crate::sets::{Graves, are_together, union_of};
use anyhow::{Context, bail, ensure};
use std::alloc::Global;

// A tree by what it asks of an order.
#[derive(Drop)]
pub struct Drawn {
    // the graves from left to right
    pub front: Vec<u8>,
    // for each place with branches, the graves below it
    places: Vec<Graves>,
    // for each row, the graves below each of its branches
    rows: Vec<Vec<Graves>>,
}

// Whether the branches come in the written order or in the reverse of it.
fn is_in_row(order: &[u8], branches: &[Graves]) -> bool {
    let places = branches.iter().map(|branch| branch.first_place(order));
    let turned = branches
        .iter()
        .rev()
        .map(|branch| branch.first_place(order));
    places.is_sorted() || turned.is_sorted()
}

impl Drawn {
    // Whether the tree allows the order.
    fn allows(&self, order: &[u8]) -> bool {
        are_together(order, self.places.as_slice())
            && self.rows.iter().all(|row| is_in_row(order, row.as_slice()))
    }

    // Whether the tree allows just those of the orders in which each kind stands together.
    pub fn allows_just(&self, orders: &[Vec<u8>], kinds: &[Graves]) -> bool {
        orders.iter().all(|order| {
            let order = order.as_slice();
            self.allows(order) == are_together(order, kinds)
        })
    }
}

// Branches in any order stand in braces, branches in a row in brackets.
#[derive(Clone, Copy, PartialEq, Eq, Drop)]
enum Sort {
    AnyOrder,
    Row,
}

// A bracket that is open, and how many branches are done before it.
#[derive(Clone, Copy, Drop)]
struct Open {
    sort: Sort,
    before: usize,
}

// How far a text is read.
#[derive(Drop)]
struct Reader {
    graves: u8,
    tree: Drawn,
    open: Vec<Open>,
    // the graves below each branch that is done and in no bracket that is closed
    done: Vec<Graves>,
    // whether a branch has to come next
    due: bool,
}

impl Reader {
    // An opening bracket.
    fn begin(&mut self, sort: Sort) -> anyhow::Result<()> {
        let before = self.done.len();
        self.open.push(Open { sort, before })?;
        Ok(())
    }

    // A grave that is there, for the first time.
    fn grave(&mut self, grave: u8) -> anyhow::Result<()> {
        ensure!(
            grave < self.graves && !self.tree.front.contains(&grave),
            "a grave that is not there, or twice"
        );
        self.tree.front.push(grave)?;
        self.done.push(Graves::only(grave))?;
        self.due = false;
        Ok(())
    }

    // The closing bracket of the branches that are done since the last open one.
    fn end(&mut self, sort: Sort) -> anyhow::Result<()> {
        let open = self.open.pop().context("a bracket that was not opened")?;
        ensure!(
            open.sort == sort && open.before <= self.done.len(),
            "a bracket that ends another"
        );
        let branches = self.done.split_off(open.before)?;
        let set = union_of(branches.as_slice());
        self.done.push(set)?;
        self.tree.places.push(set)?;
        self.keep(sort, branches)
    }

    // Keeps the branches of a row; two branches or more belong in braces, three or more in brackets.
    fn keep(&mut self, sort: Sort, branches: Vec<Graves>) -> anyhow::Result<()> {
        match sort {
            Sort::AnyOrder if branches.len() >= 2 => Ok(()),
            Sort::Row if branches.len() >= 3 => {
                self.tree.rows.push(branches)?;
                Ok(())
            }
            _ => bail!("a bracket with too few branches"),
        }
    }

    // One byte more.
    fn take(&mut self, byte: u8) -> anyhow::Result<()> {
        match byte {
            b'0'..=b'9' if self.due => self.grave(byte - b'0'),
            b'{' if self.due => self.begin(Sort::AnyOrder),
            b'[' if self.due => self.begin(Sort::Row),
            b'}' if !self.due => self.end(Sort::AnyOrder),
            b']' if !self.due => self.end(Sort::Row),
            b' ' if !self.due && !self.open.is_empty() => {
                self.due = true;
                Ok(())
            }
            _ => bail!("a byte out of place"),
        }
    }
}

// The tree of so many graves that the line stands for.
pub fn read_tree(heap: Global, line: &[u8], graves: u8) -> anyhow::Result<Drawn> {
    let tree = Drawn {
        front: Vec::new(heap),
        places: Vec::new(heap),
        rows: Vec::new(heap),
    };
    let mut reader = Reader {
        graves,
        tree,
        open: Vec::new(heap),
        done: Vec::new(heap),
        due: true,
    };
    for byte in line {
        reader.take(*byte)?;
    }
    ensure!(
        !reader.due && reader.open.is_empty() && reader.tree.front.len() == graves as usize,
        "a tree that is cut short"
    );
    Ok(reader.tree)
}
