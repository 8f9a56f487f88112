// Trees as text.
#![tactic(auto)]

ghost use Rattle.std.specs.Prelude.{◌≡◌, ◌<◌, ◌++◌, IfOk, decimal, string_bytes, OnOk};
ghost use Rattle.finds.specs.Trees.{Tree};
ghost use Rattle.trees.specs.Cells.{Holds, Sound};
ghost use Rattle.trees.specs.Rows.{seen};
ghost use Rattle.trees.specs.Subtrees.{Is};
ghost use Rattle.text.specs.Show.{show};
ghost use Rattle.text.specs.Worked.{WorkedTexts};

use std::alloc::{AllocError, Global};
use trees::rows::Sort;
use trees::subtree::Subtree;
use trees::whole::WholeTree;

// The text of the tree, or want of memory.
pub fn text(heap: Global, tree: WholeTree) -> Result<String, AllocError>
    ensures { IfOk result (λ s. (t : Tree) → Holds (seen tree.entry.rows) tree.entry.count t → Sound t → string_bytes s ≡ show t) }
{
    let mut out = String::new(heap);
    write_part(tree.root(), &mut out)?;
    Ok(out)
}

// Writes the part behind what is written.
fn write_part(part: Subtree, out: &mut String) -> Result<(), AllocError>
    ensures { OnOk result ((t : Tree) → Is part.entry t → Sound t → string_bytes out.new ≡ string_bytes out.old ++ show t) }
{
    let (open, close) = match part.sort() {
        Sort::Grave => return write_grave(part.graves().trailing_zeros() as u8, out),
        Sort::Any => ('{', '}'),
        Sort::Row => ('[', ']'),
    };
    out.push(open)?;
    for (k, branch) in part.branches().enumerate() {
        if k > 0 {
            out.push(' ')?;
        }
        write_part(branch, out)?;
    }
    out.push(close)
}

// Writes the number of a grave, which has one digit or two. (By `write!` the text of a tree takes twice the time.)
fn write_grave(grave: u8, out: &mut String) -> Result<(), AllocError>
    requires { grave < 100 }
    ensures { OnOk result (string_bytes out.new ≡ string_bytes out.old ++ decimal grave) }
{
    if grave < 10 {
        return out.push((b'0' + grave) as char);
    }
    out.push((b'0' + grave / 10) as char)?;
    out.push((b'0' + grave % 10) as char)
}

// The definition at work: two trees and their texts.
pub fn worked_texts()
    ensures { WorkedTexts }
{}
