// The judge of delay (T-09) for C.
ghost use Rattle.std.specs.Prelude.{◌≡◌};
ghost use Rattle.delay.specs.Kind.{kind_of, after_one};
ghost use Rattle.delay.specs.Calls.{judged_says, judge_says};
ghost use Rattle.lacrivosum.specs.Delays.{delay_number};

use delay::TooLong;

// The difference; or the least number of 64 bits, which no difference is.
fn off_number(j: Result<i64, TooLong>) -> i64
    ensures { result ≡ delay_number (judged_says j) }
{
    match j {
        Ok(z) => z,
        Err(TooLong) => i64::MIN,
    }
}

// How far a card's answer, which began at tick heard, was from due after the reader's frame row, whose last pause ended at tick sent: in carrier
// periods, early below zero. 14, told by the least number: the delay is 2^31 carrier periods or more.
#[unsafe(no_mangle)]
pub extern "C" fn lac_delay(row: &[u8], sent: u32, heard: u32) -> i64
    ensures { result ≡ delay_number (judge_says (kind_of row.now) (after_one row.now) sent heard) }
{
    off_number(delay::judge_row(row, sent, heard))
}
