// The tree of a table's file.
ghost use Rattle.seriation.specs.Building.{BuiltFrom};
ghost use Rattle.trees.specs.Rows.{lent_rows, SameSlices};

use crate::built::Built;
use crate::growth::grow;
use tables::reading::read;
use tables::refusal::Refusal;
use tables::room::Room;
use tables::sets::kind_sets;
use trees::rows::Rows;

// The tree of all orders that fit the table of the file, built up kind after kind in the rows; or that no order fits, with the kind at which this was found; or the first refusal that applies.
pub fn build(file: &[u8], rows: &mut Rows, kinds: &mut [u64]) -> Result<Built, Refusal>
    ensures built { BuiltFrom file.now (lent_rows rows.old) (lent_rows rows.new) kinds.old kinds.new result }
    ensures same { SameSlices rows.old rows.new }
{
    // No search follows, so its memory is never too short.
    let room = Room {
        branches: rows.room(),
        kinds: kinds.len(),
        colours: usize::MAX,
        rings: usize::MAX,
    };
    let table = read(file, Some(room))?;
    let count = kind_sets(table, kinds);
    Ok(grow(table.graves, &kinds[..count], rows))
}
