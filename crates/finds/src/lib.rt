// The laws of fitting orders that follow from the definitions alone.
// Each function only carries a theorem in its contract: the definitions are in specs/, the proofs in proofs/.
#![tactic(auto)]

ghost use Rattle.finds.specs.Laws.{GroundLaw, JustOne, OneKindMore, TurnedFits, AnySequence};
ghost use Rattle.finds.specs.Worked.{WorkedTables};

// A ground shows that no order fits.
pub fn ground_law()
    ensures { GroundLaw }
{}

// Of two clashing pairs an order that fits makes just one so.
pub fn just_one()
    ensures { JustOne }
{}

// With one kind more those orders fit that fitted before and do not tear it.
pub fn one_kind_more()
    ensures { OneKindMore }
{}

// An order turned round fits too.
pub fn turned_fits()
    ensures { TurnedFits }
{}

// The kinds may come in any sequence: the same orders fit.
pub fn any_sequence()
    ensures { AnySequence }
{}

// Three worked tables: the first has the tree {0 1 2}, and of the other two no order fits.
pub fn worked_tables()
    ensures { WorkedTables }
{}
