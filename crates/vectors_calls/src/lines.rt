// The lines, `NAME [A [B [C [WORD]]]]`: the ends are set, or a call is tried.
use crate::answers::lent;
use crate::ends::{Ends, MOST_MESSAGE};
use crate::sweeps::Off;
use crate::{frames, readers, sweeps};
use bench_talk::{LineError, Program};
use std::alloc::Global;

// The bytes of the UIDs that are woken.
const UID: [u8; 11] = [1, 2, 3, 4, 5, 6, 7, 8, 9, 10, 11];

impl Program for Ends {
    fn answer(&mut self, alloc: Global, words: &[&[u8]]) -> Result<String, LineError> {
        let (a, b, c) = (number(words, 1), number(words, 2), number(words, 3));
        match words {
            // `new`, `selected`, `open I J`, `talk M N ROUNDS`
            [b"new", ..] => *self = Ends::new(),
            [b"selected", ..] => *self = Ends::selected(),
            [b"open", ..] => *self = Ends::opened(low_byte(a), low_byte(b)),
            [b"talk", ..] => self.talk(alloc, a, b, c)?,
            _ => return self.call(alloc, words, a, b, c),
        }
        Ok(format!(in alloc; "ok")?)
    }
}

impl Ends {
    // The lines that try a call. The numbers are those behind the name, and the first is mostly the room.
    fn call(
        &self,
        alloc: Global,
        words: &[&[u8]],
        a: usize,
        b: usize,
        c: usize,
    ) -> Result<String, LineError> {
        let word = words.get(4).copied().unwrap_or(b"");
        match words {
            // `write ROOM BYTES`, `write_crc ROOM BYTES`, `write_short ROOM`, `read ROOM`, `read_crc ROOM`, `air_row ROOM`
            [b"write", ..] => frames::write(alloc, a, b, frame::write),
            [b"write_crc", ..] => frames::write(alloc, a, b, frame::write_crc),
            [b"write_short", ..] => frames::write_short(alloc, a),
            [b"read", ..] => frames::read(alloc, a, frame::read),
            [b"read_crc", ..] => frames::read(alloc, a, frame::read_crc),
            [b"air_row", ..] => frames::air_row(alloc, a),
            // `reader_select ROOM SENT`, `reader_start_sweep ROOM SENT`, `reader_hear ROOM SENT`, `reader_wake ROOM SENT BYTES`
            [b"reader_select", ..] => readers::turn(alloc, a, b, reader::select),
            [b"reader_start_sweep", ..] => readers::turn(alloc, a, b, reader::start_sweep),
            [b"reader_hear", ..] => {
                readers::turn(alloc, a, b, |r, out| reader::hear(r, &readers::ATQA, out))
            }
            [b"reader_wake", ..] => {
                readers::turn(
                    alloc,
                    a,
                    b,
                    |r, out| reader::wake(r, bench::front(&UID, c), out),
                )
            }
            // `sweep LOG LIST N OFF`, `sweep_row LOG LIST N OFF`, `wake_field BYTES FIRST N OFF`: the UID has so many bytes, FIRST and then 2, 3, 4 ..
            [b"sweep", ..] => sweeps::swept(alloc, a, b, c, Off::try_from(word)?, sweep::sweep),
            [b"sweep_row", ..] => {
                let sweep = sweep_row::within::sweep_by_row;
                sweeps::swept(alloc, a, b, c, Off::try_from(word)?, sweep)
            }
            [b"wake_field", ..] => {
                let mut uid = UID;
                uid[0] = low_byte(b);
                sweeps::woken(alloc, bench::front(&uid, a), c, Off::try_from(word)?)
            }
            // `take ROOM LENT BUFFER HEX`, `reply ROOM BYTES`, `ask ROOM VALUE`. HEX is a frame without its CRC_A, `-` is silence. The lent message has
            // LENT bytes, the message buffer BUFFER.
            [b"take", ..] => {
                let frame = frame_of(alloc, word)?;
                let message = lent(alloc, 5, b, MOST_MESSAGE)?;
                let mut buffer = lent(alloc, 0, c, MOST_MESSAGE)?;
                self.card_turn(alloc, a, |card, out| {
                    card_link::whole::take(
                        card,
                        frame.as_slice(),
                        message.as_slice(),
                        buffer.as_mut_slice(),
                        out,
                    )
                })
            }
            [b"reply", ..] => {
                let message = lent(alloc, 5, b, MOST_MESSAGE)?;
                self.card_turn(alloc, a, |card, out| {
                    card_link::whole::reply(card, message.as_slice(), out)
                })
            }
            [b"ask", ..] => self.card_turn(alloc, a, |card, out| {
                card_link::whole::ask(card, low_byte(b), out)
            }),
            // `hear ROOM LENT BUFFER HEX`, `select ROOM`, `start_sweep ROOM`, `rats ROOM INDEX`, `send ROOM BYTES`, `deselect ROOM`, `wake ROOM BYTES`: the
            // UID has so many bytes
            [b"hear", ..] => {
                let frame = frame_of(alloc, word)?;
                let message = lent(alloc, 5, b, MOST_MESSAGE)?;
                let mut buffer = lent(alloc, 0, c, MOST_MESSAGE)?;
                self.reader_turn(alloc, a, |reader, out| {
                    reader_link::whole::hear(
                        reader,
                        frame.as_slice(),
                        message.as_slice(),
                        buffer.as_mut_slice(),
                        out,
                    )
                })
            }
            [b"select", ..] => self.reader_turn(alloc, a, reader_link::whole::select),
            [b"start_sweep", ..] => self.reader_turn(alloc, a, reader_link::whole::start_sweep),
            [b"rats", ..] => self.reader_turn(alloc, a, |reader, out| {
                reader_link::whole::rats(reader, low_byte(b), out)
            }),
            [b"send", ..] => {
                let message = lent(alloc, 5, b, MOST_MESSAGE)?;
                self.reader_turn(alloc, a, |reader, out| {
                    reader_link::whole::send(reader, message.as_slice(), out)
                })
            }
            [b"deselect", ..] => self.reader_turn(alloc, a, reader_link::whole::deselect),
            [b"wake", ..] => self.reader_turn(alloc, a, |reader, out| {
                reader_link::whole::wake(reader, bench::front(&UID, b), out)
            }),
            _ => Err(LineError::NotUnderstood),
        }
    }
}

// The k-th word as a number, 0 where it is left out. What is no number of up to five digits is more than any memory here holds.
fn number(words: &[&[u8]], k: usize) -> usize {
    match words.get(k) {
        Some(word) => bench_values::read_number::<5>(word).unwrap_or(100_000),
        None => 0,
    }
}

fn low_byte(n: usize) -> u8 {
    (n % 256) as u8
}

// The row of a word's bytes with CRC_A, and no row for `-`. What is no word of up to 254 bytes stands for 254 zeros.
fn frame_of(alloc: Global, word: &[u8]) -> Result<Vec<u8>, LineError> {
    let bytes = match bench_lines::bytes(alloc, word, 254) {
        Err(LineError::NotUnderstood) => vec![in alloc; 0; 254]?,
        read => read?,
    };
    if bytes.is_empty() {
        return Ok(bytes);
    }
    let mut row = vec![in alloc; 0; limits::ROW_ROOM]?;
    let n = frame::write_crc(bytes.as_slice(), row.as_mut_slice()).unwrap_or(0);
    row.truncate(n);
    Ok(row)
}
