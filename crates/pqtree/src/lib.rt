// The change of a tree for one kind more, and the theorems about it.
// Each function only carries a theorem in its contract: the definitions are in specs/, the proofs in proofs/.
#![tactic(auto)]

ghost use Rattle.pqtree.specs.Theorems.{StepExact, KindByKind, TreeOrNone};

// From a tree of exactly the orders that fit, the change for one kind more makes the tree of exactly those that fit with this kind, or finds that none does.
pub fn step_exact()
    ensures { StepExact }
{}

// Kind after kind: what has grown after the first kinds of a list stands for these kinds.
pub fn kind_by_kind()
    ensures { KindByKind }
{}

// Of each table with a grave there is a tree of exactly the orders that fit, or no order fits.
pub fn tree_or_none()
    ensures { TreeOrNone }
{}
