// Cases of the reader of tables.
use tables::reading::read;
use tables::room::Room;
use tables::stored::Table;

// The sizes of the memory that is lent.
pub fn room_of(branches: &str, kinds: &str, colours: &str, rings: &str) -> anyhow::Result<Room> {
    Ok(Room {
        branches: branches.parse()?,
        kinds: kinds.parse()?,
        colours: colours.parse()?,
        rings: rings.parse()?,
    })
}

// How many graves and kinds the table of the file has, or the refusal.
pub fn print_table(rt: &HostRuntime, file: &[u8], lent: Option<Room>) -> anyhow::Result<()> {
    match read(file, lent) {
        Ok(Table { graves, kinds }) => println!(rt; "taken {graves} {}", kinds.len() / 8)?,
        Err(refusal) => println!(rt; "{refusal}")?,
    }
    Ok(())
}
