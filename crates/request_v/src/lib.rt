// Document 02, T-10: what a request asks of one vicinity tag. Nothing is done here: a request is read, with the tag and its locks, into one value.
#![tactic(auto)]

pub mod within;

ghost use Rattle.std.specs.Prelude.{◌≡◌};
ghost use Rattle.request_v.specs.Flags.{flags_of};

// Ready and Selected hold the round of an inventory with 16 slots: how many EOFs are left until the tag's own slot begins, 0 outside a round.
#[derive(Clone, Copy)]
pub enum StateV {
    Off,
    Ready(u8),
    Quiet,
    Selected(u8),
}

// supports: it has an AFI. blocks: 1 to 256, of size bytes each, 1 to 32. The memory and its locks are lent at each call.
#[derive(Clone, Copy)]
pub struct Tag {
    pub uid: [u8; 8],
    pub dsfid: u8,
    pub supports: bool,
    pub afi: u8,
    pub blocks: u16,
    pub size: u8,
    pub state: StateV,
}

// The flags of a request, by their bits: b3, b4, b5 (Select flag; in an inventory AFI flag), b6 (Address flag; in an inventory 1 slot), b7, b8.
#[derive(Clone, Copy)]
pub struct Flags {
    pub inventory: bool,
    pub extended: bool,
    pub fifth: bool,
    pub sixth: bool,
    pub option: bool,
    pub eighth: bool,
}

// What a request makes a tag do.
#[derive(Clone, Copy)]
pub enum Deed {
    // silent, unchanged
    Nothing,
    // silent, and quiet
    Quiets,
    // silent, and no longer selected: another tag was
    Drops,
    // the answer to an inventory, at once
    Tells,
    // .. after so many EOFs
    Waits(u8),
    // an error code
    Fails(u8),
    Reads {
        first: usize,
        count: usize,
        status: bool,
    },
    // the sent bytes begin at byte `from` of the row
    Writes {
        first: usize,
        count: usize,
        from: usize,
    },
    Locks(usize),
    Selects,
    Resets,
}

// Kept: docs/PROMISES.md promises `request_v::flags_of` by this name.
pub fn flags_of(x: u8) -> Flags
    ensures { result ≡ flags_of x }
{
    Flags {
        inventory: x / 4 % 2 == 1,
        extended: x / 8 % 2 == 1,
        fifth: x / 16 % 2 == 1,
        sixth: x / 32 % 2 == 1,
        option: x / 64 % 2 == 1,
        eighth: x / 128 % 2 == 1,
    }
}
