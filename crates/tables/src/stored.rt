// A table of finds as it stands in its file.

// A table that was taken: the number of its graves, and the part of its file behind the first two bytes, eight bytes for each kind.
#[derive(Clone, Copy, Drop)]
pub struct Table<'a> {
    pub graves: u8,
    pub kinds: &'a [u8],
}
