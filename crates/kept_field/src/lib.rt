// A row of cards kept in lent bytes, and what a sweep over them leaves.
#![tactic(auto)]

pub mod within;

ghost use Rattle.std.specs.Prelude.{◌≡◌, ◌<◌};
ghost use Rattle.kept_field.specs.KeptField.{start_in, swept_tail};

use sweep::Start;

// What a sweep begins with: the reader that lent bytes say, and the tick of the log's first record.
pub fn start_of(state: &[u8], tick: u32) -> Start
    ensures { result ≡ start_in state.now tick }
{
    Start {
        reader: kept_reader::select::selection_of(state),
        tick,
    }
}

// What a sweep leaves behind the reader in its state: the event 3, the bytes of log written and the frames sent.
fn swept_tail(logged: usize, frames: usize) -> [u8; 17]
    ensures value { result ≡ swept_tail logged frames }
    ensures logged_bound { (logged < 18446744073709551616) × (frames < 18446744073709551616) }
{
    let a = kept::word(logged);
    let b = kept::word(frames);
    [
        3, a[0], a[1], a[2], a[3], a[4], a[5], a[6], a[7], b[0], b[1], b[2], b[3], b[4], b[5],
        b[6], b[7],
    ]
}
