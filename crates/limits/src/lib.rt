// The core's limits, each once, in code and in definitions (specs/Limits.antt). `all` holds the two together.
#![tactic(auto)]

ghost use Rattle.std.specs.Prelude.{◌≡◌, [], ◌∷◌};
ghost use Rattle.limits.specs.Limits.{most_cards, log_room, list_room, most_frames, most_bytes, row_room, frame_room, answer_room, message_max};

// Document 01, "When the core declines", with T-06's limit: a field of more cards is 6.
pub const MOST_CARDS: usize = 32;

// Document 01, "The log", with T-09's room: what a sweep asks for, in bytes. A UID takes 11 bytes of the list.
pub const LOG_ROOM: usize = 40960;

pub const LIST_ROOM: usize = 11 * MOST_CARDS;

// No sweep over so many cards sends more frames: the sum of document 01, each card with three levels and parting from every later one.
pub const MOST_FRAMES: usize = 1 + 8 * MOST_CARDS + MOST_CARDS * (MOST_CARDS - 1) / 2;

// Document 01, "Frames on the air": a standard frame has up to 256 bytes, each with its parity bit.
pub const MOST_BYTES: usize = 256;

pub const ROW_ROOM: usize = 9 * MOST_BYTES;

// The longest frame of a selection, SELECT, and the longest answer of a card to one, a level's five bytes.
pub const FRAME_ROOM: usize = 81;

pub const ANSWER_ROOM: usize = 45;

// Document 01, "RATS, ATS and blocks": "A message has 0 to 4,096 bytes".
pub const MESSAGE_MAX: usize = 4096;

// Each of them, in the order above.
pub fn all() -> [usize; 9]
    ensures { result ≡ most_cards ∷ log_room ∷ list_room ∷ most_frames ∷ most_bytes ∷ row_room ∷ frame_room ∷ answer_room ∷ message_max ∷ [] }
{
    [
        MOST_CARDS,
        LOG_ROOM,
        LIST_ROOM,
        MOST_FRAMES,
        MOST_BYTES,
        ROW_ROOM,
        FRAME_ROOM,
        ANSWER_ROOM,
        MESSAGE_MAX,
    ]
}
