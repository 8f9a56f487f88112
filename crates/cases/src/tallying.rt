// What the orders that fit a table of up to seven graves have in common, apart from the library.
use crate::sets::{Graves, are_together};
use anyhow::ensure;
use itertools::Itertools;
use std::alloc::{AllocError, Global};

// The kinds of a table of up to eight graves.
pub fn kinds_of(heap: Global, file: &[u8]) -> Result<Vec<Graves>, AllocError> {
    let (words, _) = file.get(2..).unwrap_or(&[]).as_chunks::<8>();
    words.iter().map(|word| Graves(word[0])).collect(heap)
}

// All orders of so many graves, the rising one first.
pub fn all_orders(heap: Global, graves: u8) -> anyhow::Result<Vec<Vec<u8>>> {
    ensure!(graves <= 7, "more graves than are gone through");
    let orders = (0..graves).permutations(heap, graves as usize)?;
    Ok(orders.try_collect(heap)?)
}

// What the orders that fit have in common.
#[derive(Drop)]
pub struct Found {
    // how many they are
    pub orders: usize,
    // at b and a the graves c such that b lies between a and c in each of them
    between: [[Graves; 7]; 7],
}

impl Found {
    // The graves c such that b lies between a and c in each order.
    pub fn ends(&self, b: u8, a: u8) -> Graves {
        if a < 7 && b < 7 {
            self.between[b as usize][a as usize]
        } else {
            Graves::NONE
        }
    }

    // Of the graves c for b keeps those that lie on the other side of b than a, for each a.
    fn narrow_at(&mut self, b: u8, before: Graves, behind: Graves) {
        let Some(row) = self.between.get_mut(b as usize) else {
            return;
        };
        for (a, ends) in (0..7).zip(row.iter_mut()) {
            let others = if before.has(a) {
                behind
            } else if behind.has(a) {
                before
            } else {
                Graves::NONE
            };
            *ends = *ends & others;
        }
    }

    // Keeps what is so in this order too.
    fn narrow(&mut self, order: &[u8]) {
        for (p, b) in order.iter().enumerate() {
            let before = Graves::of(&order[..p]);
            let behind = Graves::of(&order[p + 1..]);
            self.narrow_at(*b, before, behind);
        }
    }
}

// What those of the orders have in common in which each kind stands together.
pub fn tally(orders: &[Vec<u8>], kinds: &[Graves]) -> Found {
    let mut found = Found {
        orders: 0,
        between: [[Graves(127); 7]; 7],
    };
    for order in orders
        .iter()
        .filter(|order| are_together(order.as_slice(), kinds))
    {
        found.orders = found.orders.saturating_add(1);
        found.narrow(order.as_slice());
    }
    found
}
