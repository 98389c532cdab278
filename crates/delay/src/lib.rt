// T-09, "the judge of delay": how far the answer of a card was from due, in carrier periods. The reader's last pause ended at one tick, the card's
// answer began at another.
#![tactic(auto)]

ghost use Rattle.std.specs.Prelude.{◌≡◌, ◌<◌, pos, ◌-ℤ◌};
ghost use Rattle.delay.specs.Delay.{grid, point, nearest, fixed, due};
ghost use Rattle.delay.specs.Kind.{kind_of, after_one};
ghost use Rattle.delay.specs.Calls.{judged_says, judge_says, number_of};

mod frames;

// The frame that the card answered. Each of the first four has one due delay.
#[derive(Clone, Copy, Debug, PartialEq, Eq)]
pub enum Kind {
    Reqa,
    Wupa,
    Anticollision,
    Select,
    Other,
}

// 14: why it cannot be told how far an answer was from due. The delay, taken modulo 2^32, was 2^31 carrier periods or more.
#[derive(Clone, Copy, Debug, PartialEq, Eq)]
pub struct TooLong;

// Where the points at which an answer may begin stand within each 128 carrier periods: by the last data bit sent.
fn grid(one: bool) -> u32
    ensures { result ≡ grid one }
{
    if one { 84 } else { 20 }
}

// The nearest point, "with n at least 9, ties to the smaller n".
fn nearest(one: bool, delay: u32) -> u32
    requires { delay < 2147483648 }
    ensures { result ≡ point one (nearest one delay) }
{
    let g = grid(one);
    if delay < 1152 + g {
        1152 + g
    } else {
        (delay - g + 63) / 128 * 128 + g
    }
}

// "1236 carrier periods if the last data bit sent was 1, else 1172".
fn fixed(one: bool) -> u32
    ensures { result ≡ fixed one }
{
    if one { 1236 } else { 1172 }
}

// The delay that was due. Where it is not fixed it is the nearest point to the one measured.
fn due(kind: Kind, one: bool, delay: u32) -> u32
    requires { delay < 2147483648 }
    ensures { result ≡ due kind one delay }
{
    match kind {
        Kind::Reqa | Kind::Wupa | Kind::Anticollision | Kind::Select => fixed(one),
        Kind::Other => nearest(one, delay),
    }
}

// Measured less due.
fn difference(delay: u32, due: u32) -> i64
    ensures { result ≡ pos delay -ℤ pos due }
{
    delay as i64 - due as i64
}

// Judges an answer that began at tick `heard` to a frame of this kind whose last pause ended at tick `sent`; `one`: its last data bit was a 1.
// The result is in carrier periods, "early below zero and late above it".
pub fn judge(kind: Kind, one: bool, sent: u32, heard: u32) -> Result<i64, TooLong>
    ensures { judged_says result ≡ judge_says kind one sent heard }
{
    let delay = std::num::wrapping_sub_u32(heard, sent);
    if 2147483648 <= delay {
        return Err(TooLong);
    }
    Ok(difference(delay, due(kind, one, delay)))
}

// .. to the reader's frame `row`, one byte for each air bit. Its kind and its last data bit are found in the row.
pub fn judge_row(row: &[u8], sent: u32, heard: u32) -> Result<i64, TooLong>
    ensures { judged_says result ≡ judge_says (kind_of row.now) (after_one row.now) sent heard }
{
    judge(frames::kind_of(row), frames::after_one(row), sent, heard)
}

// The number of a refusal; 0 where there is none.
pub fn number(j: Result<i64, TooLong>) -> u8
    ensures { result ≡ number_of j }
{
    match j {
        Ok(_) => 0,
        Err(TooLong) => 14,
    }
}
