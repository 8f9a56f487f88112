// A table of finds as sets.
ghost use Rattle.std.specs.Prelude.{◌≤◌};

// The number of graves, and for each kind the graves in which it lay, in the bits of a number.
#[derive(Clone, Copy, Drop)]
pub struct Sets<'a> {
    pub graves: u8,
    pub kinds: &'a [u64],
    pub ghost some: { 1 ≤ graves },
    pub ghost few: { graves ≤ 64 },
}
