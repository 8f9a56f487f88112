// Tables of finds: the reader of their files, and the checker of an order from elsewhere.
#![tactic(auto)]

pub mod kinds;
pub mod orders;
pub mod reading;
pub mod refusal;
pub mod room;
pub mod sets;
pub mod stored;
pub mod verdict;

ghost use Rattle.tables.specs.Reading.{OneAnswer};

// No file has two answers: one refusal at most turns it away, and none if it is taken.
pub fn one_answer()
    ensures { OneAnswer }
{}
