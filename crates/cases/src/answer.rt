// Cases of what is printed for a table of up to seven graves, against all orders, one by one.
use crate::drawn::{Drawn, read_tree};
use crate::nearest::{Near, all_near};
use crate::rings::read_ring;
use crate::tallying::{Found, all_orders, kinds_of, tally};
use crate::writing::print_printed;
use answers::printed::Ending;
use answers::seriating::seriate_text;
use answers::verifying::ring_text;
use anyhow::{Context, ensure};
use std::alloc::{AllocError, Global};

// The lines that are expected behind the tree.
fn lines_of(heap: Global, orders: usize, all: &[Near]) -> Result<String, AllocError> {
    let mut out = format!(in heap; "orders {orders}\n")?;
    for near in all {
        writeln!(out, "{near}")?;
    }
    Ok(out)
}

// What of it does not depend on how the tree is arranged: the number of orders, and the graves that have a line.
fn summary_of(heap: Global, orders: usize, all: &[Near]) -> Result<String, AllocError> {
    let mut out = format!(in heap; "orders {orders} certain")?;
    for near in all {
        write!(out, " {}", near.b)?;
    }
    Ok(out)
}

// The summary of a text with a tree, if all that stands behind the tree is as it should be.
fn tree_summary(heap: Global, found: &Found, tree: &Drawn, rest: &str) -> anyhow::Result<String> {
    let all = all_near(heap, found, tree.front.as_slice())?;
    let expected = lines_of(heap, found.orders, all.as_slice())?;
    ensure!(expected.as_str() == rest, "other lines behind the tree");
    Ok(summary_of(heap, found.orders, all.as_slice())?)
}

// The summary of a text without an order, if all of the text is as it should be and the checker takes the ring.
fn ring_summary(heap: Global, file: &[u8], text: &str) -> anyhow::Result<String> {
    let line = text
        .strip_prefix("no order\n")
        .context("an order where none fits")?;
    let ring = read_ring(heap, line)?;
    let checked = ring_text(heap, file, ring.as_slice())?;
    ensure!(
        checked.text.as_str() == "ground\n",
        "a ring that is no ground"
    );
    Ok(String::from_str(heap, "no order")?)
}

// The summary of the text for a table that is taken, if all of it is as it should be.
fn summary(heap: Global, file: &[u8], text: &str) -> anyhow::Result<String> {
    let graves = file.first().copied().unwrap_or(0);
    let orders = all_orders(heap, graves)?;
    let kinds = kinds_of(heap, file)?;
    let found = tally(orders.as_slice(), kinds.as_slice());
    if found.orders == 0 {
        return ring_summary(heap, file, text);
    }
    let (line, rest) = text.split_once('\n').context("a text of no line")?;
    let tree = read_tree(heap, line.as_bytes(), graves)?;
    ensure!(
        tree.allows_just(orders.as_slice(), kinds.as_slice()),
        "a tree of other orders"
    );
    tree_summary(heap, &found, &tree, rest)
}

// The summary, `differs` if anything is wrong with the text, or the refusal.
pub fn print_answer(rt: &HostRuntime, file: &[u8]) -> anyhow::Result<()> {
    let printed = seriate_text(rt.alloc(), file)?;
    if matches!(printed.ending, Ending::TurnedAway) {
        return print_printed(rt, printed);
    }
    match summary(rt.alloc(), file, printed.text.as_str()) {
        Ok(summary) => println!(rt; "{summary}")?,
        Err(what) => println!(rt; "differs: {what}")?,
    }
    Ok(())
}

// The second line of the text.
pub fn print_count(rt: &HostRuntime, file: &[u8]) -> anyhow::Result<()> {
    let printed = seriate_text(rt.alloc(), file)?;
    let line = printed.text.as_str().lines().nth(1).unwrap_or("");
    println!(rt; "{line}")?;
    Ok(())
}

// The whole text.
pub fn print_text(rt: &HostRuntime, file: &[u8]) -> anyhow::Result<()> {
    let printed = seriate_text(rt.alloc(), file)?;
    print_printed(rt, printed)
}
