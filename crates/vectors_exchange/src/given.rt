// What is handed to an exchange, made from the numbers and words of a line.
use bench_lines::number_to;
use bench_talk::LineError;
use std::alloc::Global;

// The message and the answer, the rounds, and both message buffers.
#[derive(Drop)]
pub struct Given {
    pub message: Vec<u8>,
    pub answer: Vec<u8>,
    pub rounds: usize,
    pub down: Vec<u8>,
    pub up: Vec<u8>,
}

// The most elements of a word of losses.
const MOST: usize = 2718;

// What becomes of the reader's frames, what the card's host does, what becomes of the card's frames, and what is heard in place of a damaged one.
#[derive(Drop)]
pub struct Losses {
    pub downs: Vec<u8>,
    pub hosts: Vec<u8>,
    pub ups: Vec<u8>,
    pub noise: Vec<u8>,
}

impl Given {
    // `MLEN MSEED ALEN ASEED ROUNDS DOWN UP`. Messages that are too long for the core reach it all the same.
    pub fn read(alloc: Global, words: &[&[u8]]) -> Result<Self, LineError> {
        let [message, message_seed, answer, answer_seed, rounds, down, up] = words else {
            return Err(LineError::NotUnderstood);
        };
        Ok(Given {
            message: filled(alloc, message, message_seed)?,
            answer: filled(alloc, answer, answer_seed)?,
            rounds: number_to(rounds, 5000)?,
            down: buffer(alloc, down)?,
            up: buffer(alloc, up)?,
        })
    }
}

impl Losses {
    // `DOWNS HOSTS UPS NOISE`. In DOWNS and UPS `0` is a frame that arrives, `1` one that is lost, `x` one that is damaged; NOISE is a row. In HOSTS
    // the card's host answers with `00`, waits with `FF`, and else asks for WTX with that value.
    pub fn read(
        alloc: Global,
        downs: &[u8],
        hosts: &[u8],
        ups: &[u8],
        noise: &[u8],
    ) -> Result<Self, LineError> {
        Ok(Losses {
            downs: bench_lines::bits(alloc, downs, MOST)?,
            hosts: bench_lines::bytes(alloc, hosts, MOST)?,
            ups: bench_lines::bits(alloc, ups, MOST)?,
            noise: bench_lines::bits(alloc, noise, MOST)?,
        })
    }
}

// So many bytes: byte k is the low byte of the seed and 7 k.
fn filled(alloc: Global, length: &[u8], seed: &[u8]) -> Result<Vec<u8>, LineError> {
    let length = number_to(length, 5000)?;
    let seed = number_to(seed, 99999)?;
    let bytes = (0..length)
        .map(|k| ((seed % 256 + 7 * (k % 256)) % 256) as u8)
        .collect(alloc)?;
    Ok(bytes)
}

// A message buffer of so many bytes, filled with EE.
fn buffer(alloc: Global, length: &[u8]) -> Result<Vec<u8>, LineError> {
    let n = number_to(length, 4096)?;
    Ok(vec![in alloc; 0xEE; n]?)
}
