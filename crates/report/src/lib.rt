// The answers of the programs as text.
#![tactic(auto)]

ghost use Rattle.std.specs.Prelude.{◌≡◌, ℕ, ◌++◌, List, Some, IfOk, string_bytes, OnOk};
ghost use Rattle.finds.specs.Finds.{Finds};
ghost use Rattle.finds.specs.Trees.{Tree};
ghost use Rattle.certain.specs.Shown.{ShownBy};
ghost use Rattle.report.specs.Answer.{line_feed, orders_line, pair_text, ring_answer, refusal_answer, verdict_answer, order_verdict_answer, ring_verdict_answer};
ghost use Rattle.report.specs.Tells.{Tells, Lines};

use certain::near::nearest;
use certain::neighbours::Neighbours;
use certain::number::orders;
use grounds::verdict::NoClash;
use std::alloc::{AllocError, Global};
use std::fmt::Display;
use tables::refusal::Refusal;
use tables::verdict::Torn;
use text::text;
use trees::whole::WholeTree;

// The answer with the tree, for so many graves, or want of memory.
pub fn tree_text(heap: Global, tree: WholeTree, graves: u8) -> Result<String, AllocError>
    ensures { IfOk result (λ s. (f : Finds) (t : Tree) → ShownBy tree.entry f t → f.graves ≡ graves → Tells f t (string_bytes s)) }
{
    let mut out = text(heap, tree)?;
    out.push_str("\n")?;
    write_orders(orders(tree), &mut out)?;
    write_nearest(tree, graves, &mut out)?;
    Ok(out)
}

// The same for the graves of the tree.
pub fn whole_tree_text(heap: Global, tree: WholeTree) -> Result<String, AllocError>
    ensures { IfOk result (λ s. (f : Finds) (t : Tree) → ShownBy tree.entry f t → Tells f t (string_bytes s)) }
{
    tree_text(heap, tree, tree.root().size() as u8)
}

// Writes the line on the number of orders.
fn write_orders(number: Option<u64>, out: &mut String) -> Result<(), AllocError>
    ensures { OnOk result (string_bytes out.new ≡ string_bytes out.old ++ orders_line number) }
{
    match number {
        Some(n) => writeln!(out, "orders {n}"),
        None => writeln!(out, "orders many"),
    }
}

// Writes the lines on the graves below this number: one on each that has two nearest.
fn write_nearest(tree: WholeTree, graves: u8, out: &mut String) -> Result<(), AllocError>
    ensures { OnOk result (Lines tree.entry graves (string_bytes out.old) (string_bytes out.new)) }
{
    // b is the grave itself.
    for b in 0..graves {
        if let Some(Neighbours { before, behind }) = nearest(tree, b) {
            writeln!(out, "{b} between {before} and {behind}")?;
        }
    }
    Ok(())
}

// The answer where no order fits, with the ring, two bytes for each pair, or want of memory. A byte left over stands for nothing.
pub fn ring_text(heap: Global, ring: &[u8]) -> Result<String, AllocError>
    ensures { IfOk result (λ s. string_bytes s ≡ ring_answer ring.now) }
{
    let mut out = String::from_str(heap, "no order\n")?;
    let (pairs, _) = ring.as_chunks::<2>();
    for (k, [a, b]) in pairs.iter().enumerate() {
        write_pair(k, *a, *b, &mut out)?;
    }
    out.push_str("\n")?;
    Ok(out)
}

// Writes the pair of this number, with a space before it unless it is the first.
fn write_pair(k: usize, a: u8, b: u8, out: &mut String) -> Result<(), AllocError>
    ensures { OnOk result (string_bytes out.new ≡ string_bytes out.old ++ pair_text k a b) }
{
    if k == 0 {
        write!(out, "{a}-{b}")
    } else {
        write!(out, " {a}-{b}")
    }
}

// The text of a refusal, or want of memory.
pub fn refusal_text(heap: Global, refusal: Refusal) -> Result<String, AllocError>
    ensures { IfOk result (λ s. string_bytes s ≡ refusal_answer refusal) }
{
    format!(in heap; "{refusal}\n")
}

// The text of what is amiss, or, where nothing is, this line; or want of memory.
fn verdict_text<T: Display + Drop>(
    heap: Global,
    line: &str,
    verdict: Option<T>,
) -> Result<String, AllocError>
    ensures { (word : List ℕ) (text : T → List ℕ) → line.now ≡ word ++ line_feed → ((v : T) → T.output v ≡ Some (text v)) → IfOk result (λ s. string_bytes s ≡ verdict_answer word text verdict) }
{
    match verdict {
        None => String::from_str(heap, line),
        Some(what) => format!(in heap; "{what}\n"),
    }
}

// The text of what is said of an order from elsewhere, or want of memory.
pub fn order_verdict_text(heap: Global, verdict: Option<Torn>) -> Result<String, AllocError>
    ensures { IfOk result (λ s. string_bytes s ≡ order_verdict_answer verdict) }
{
    verdict_text(heap, "fits\n", verdict)
}

// The text of what is said of a ring from elsewhere, or want of memory.
pub fn ring_verdict_text(heap: Global, verdict: Option<NoClash>) -> Result<String, AllocError>
    ensures { IfOk result (λ s. string_bytes s ≡ ring_verdict_answer verdict) }
{
    verdict_text(heap, "ground\n", verdict)
}
