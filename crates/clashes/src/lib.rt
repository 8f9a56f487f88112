// Where no order fits there is a ground, and a ground can be had as a ring of clashing pairs.
// Each function only carries a theorem in its contract: the definitions are in specs/, the proofs in proofs/.
#![tactic(auto)]

ghost use Rattle.clashes.specs.Theorems.{ColoursOrGround, OrderOf, OrderOrGround, NoneOrGround, RingOf, RingShort, ClosesGround};

// The pairs can be coloured, or there is a ground.
pub fn colours_or_ground()
    ensures { ColoursOrGround }
{}

// Where the pairs are coloured, some order fits.
pub fn order_of()
    ensures { OrderOf }
{}

// Some order fits, or there is a ground.
pub fn order_or_ground()
    ensures { OrderOrGround }
{}

// Where no order fits there is a ground.
pub fn none_or_ground()
    ensures { NoneOrGround }
{}

// A ground can be cut to a ring, and a ring is a ground.
pub fn ring_of()
    ensures { RingOf }
{}

// A ring has no more pairs than there are pairs of different graves.
pub fn ring_short()
    ensures { RingShort }
{}

// An odd number of pairs that close are a ground, also if some stand more than once.
pub fn closes_ground()
    ensures { ClosesGround }
{}
