// Cases of trees, kind after kind, against all orders, one by one of up to seven graves.
use crate::sets::{Graves, are_together};
use crate::tallying::{all_orders, kinds_of};
use anyhow::bail;
use seriation::building::build;
use seriation::built::Built;
use std::alloc::{AllocError, Global};
use std::fmt;
use tables::orders::verify_order;
use trees::allowed::allows;
use trees::rows::{Rows, View};

// What is seen of a table and of the orders that fit.
#[derive(Clone, Copy, Drop)]
enum Seen {
    // the tree allows just the orders that fit, which are so many
    Orders(usize),
    // no order fits, as was found at this kind
    NoOrder(usize),
    Differs,
    Refused,
}

impl fmt::Display for Seen {
    fn fmt<W: fmt::Write>(&self, f: &mut fmt::Formatter<W>) -> fmt::Result {
        match *self {
            Seen::Orders(found) => write!(f, "{found}"),
            Seen::NoOrder(kind) => write!(f, "none {kind}"),
            Seen::Differs => write!(f, "differs"),
            Seen::Refused => write!(f, "refused"),
        }
    }
}

// Whether the order fits, by the tally and by the checker of orders; nothing if these differ.
fn fits(file: &[u8], kinds: &[Graves], order: &[u8]) -> Option<bool> {
    let fits = are_together(order, kinds);
    let checked = verify_order(file, order) == Ok(None);
    (fits == checked).then_some(fits)
}

// The tree in the rows, and all orders.
fn compare(view: View, count: usize, file: &[u8], kinds: &[Graves], orders: &[Vec<u8>]) -> Seen {
    let found = orders.iter().try_fold(0, |found: usize, order| {
        let fits = fits(file, kinds, order.as_slice())?;
        let agrees = allows(view, count, order.as_slice()) == Some(fits);
        agrees.then_some(found.saturating_add(usize::from(fits)))
    });
    match found {
        Some(found) => Seen::Orders(found),
        None => Seen::Differs,
    }
}

// Whether no order fits.
fn none_fits(file: &[u8], kinds: &[Graves], orders: &[Vec<u8>]) -> bool {
    orders
        .iter()
        .all(|order| fits(file, kinds, order.as_slice()) == Some(false))
}

// What is seen of a table.
fn look(file: &[u8], kinds: &[Graves], orders: &[Vec<u8>]) -> Seen {
    let mut rows = Rows {
        parents: &mut [0; 13],
        sorts: &mut [0; 13],
        places: &mut [0; 13],
        sets: &mut [0; 13],
    };
    match build(file, &mut rows, &mut [0; 128]) {
        Ok(Built::Tree { count, .. }) => compare(rows.view(), count, file, kinds, orders),
        Ok(Built::NoOrder { kind }) if none_fits(file, kinds, orders) => Seen::NoOrder(kind),
        Ok(Built::NoOrder { .. }) => Seen::Differs,
        Err(_) => Seen::Refused,
    }
}

// The file with only its first kinds. (Two programs have it: a library's function would need a contract and a test for it.)
fn first_kinds(heap: Global, file: &[u8], kinds: u8) -> Result<Vec<u8>, AllocError> {
    let mut front = file.to_vec(heap)?;
    front.truncate(2 + 8 * kinds as usize);
    if let [_, number, ..] = front.as_mut_slice() {
        *number = kinds;
    }
    Ok(front)
}

// For each number of first kinds how many orders fit, or `none K`.
pub fn print_kinds(rt: &HostRuntime, file: &[u8]) -> anyhow::Result<()> {
    let [graves, kinds, ..] = file else {
        bail!("a file that is no table");
    };
    let orders = all_orders(rt.alloc(), *graves)?;
    for j in 0..=*kinds {
        if j > 0 {
            print!(rt; " ")?;
        }
        let front = first_kinds(rt.alloc(), file, j)?;
        let kinds = kinds_of(rt.alloc(), front.as_slice())?;
        let seen = look(front.as_slice(), kinds.as_slice(), orders.as_slice());
        print!(rt; "{seen}")?;
    }
    println!(rt; "")?;
    Ok(())
}
