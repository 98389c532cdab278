// The reader that is played, and its lines.
use crate::said::Said;
use bench_lines::{number_to, row_line, small_number, uid_word};
use bench_talk::{LineError, Program};
use limits::{MESSAGE_MAX, ROW_ROOM};
use memory::{Memory, Path};
use reader_link::{LinkAnswer, LinkReader, LinkTurn, whole};
use std::alloc::{AllocError, Global};

// The bits of the longest row that a line gives: fewer than 8,192 bytes, and CRC_A.
const LONGEST_ROW: usize = 9 * 8194;

// The reader; the path of a sweep that remembers (T-14), while one is under way; the buffer for answers, and how much of it is lent; and the host's
// message. A line holds fewer than 8,192 bytes: a message that is too long for the core reaches it all the same.
// Kept: room is no length of the buffer: what was joined behind a smaller room is there again in a larger one, and programs print the same.
#[derive(Drop)]
pub struct Played {
    reader: LinkReader,
    path: Option<Path>,
    answer: Vec<u8>,
    room: usize,
    message: Vec<u8>,
}

impl Played {
    pub fn new(alloc: Global) -> Result<Self, AllocError> {
        Ok(Played {
            reader: whole::new_reader(),
            path: None,
            answer: vec![in alloc; 0; MESSAGE_MAX]?,
            room: MESSAGE_MAX,
            message: Vec::new(alloc),
        })
    }

    // `new`: a new reader in the place of the one before
    fn renew(&mut self, alloc: Global) -> Result<String, LineError> {
        self.reader = whole::new_reader();
        self.path = None;
        Ok(format!(in alloc; "new")?)
    }

    // `room N`, 0 to 4096
    fn room(&mut self, alloc: Global, size: &[u8]) -> Result<String, LineError> {
        self.room = number_to(size, MESSAGE_MAX)?;
        Ok(format!(in alloc; "room {}", self.room)?)
    }

    // A call of the whole reader.
    fn call<F: FnOnce(LinkReader, &mut [u8]) -> LinkTurn>(
        &mut self,
        alloc: Global,
        call: F,
    ) -> Result<String, LineError>
        requires { F.IsAlwaysCallable call }
    {
        let mut sent = [0; ROW_ROOM];
        let turn = call(self.reader, &mut sent);
        self.turned(alloc, turn, &sent)
    }

    // `send HEX`: the host's message, kept until the next one. One that is refused is not kept: the one before it stays.
    fn send(&mut self, alloc: Global, message: &[u8]) -> Result<String, LineError> {
        let message = bench_lines::bytes(alloc, message, 8192)?;
        let mut sent = [0; ROW_ROOM];
        let turn = whole::send(self.reader, message.as_slice(), &mut sent);
        if whole::bits_of(turn.answer) > 0 {
            self.message = message;
        }
        self.turned(alloc, turn, &sent)
    }

    // `remember`: the reader's part of a sweep that remembers.
    fn remember(&mut self, alloc: Global) -> Result<String, LineError> {
        let mut sent = [0; ROW_ROOM];
        let memory = memory::start_sweep(self.reader.reader, &mut sent);
        let turn = self.selecting(memory);
        if whole::bits_of(turn.answer) > 0 {
            self.path = Some(memory.path);
        }
        self.turned(alloc, turn, &sent)
    }

    // The reader hears a row, the empty one for silence.
    fn hear(&mut self, alloc: Global, row: &[u8]) -> Result<String, LineError> {
        let mut sent = [0; ROW_ROOM];
        let room = self.room.min(self.answer.len());
        let turn = match self.path {
            Some(path) => {
                let memory = memory::hear(self.reader.reader, path, row, &mut sent);
                self.path = Some(memory.path);
                self.selecting(memory)
            }
            None => whole::hear(
                self.reader,
                row,
                self.message.as_slice(),
                &mut self.answer[..room],
                &mut sent,
            ),
        };
        self.turned(alloc, turn, &sent)
    }

    // The turn of a sweep that remembers, as one of the whole reader: the link stays as it is.
    fn selecting(&self, memory: Memory) -> LinkTurn {
        LinkTurn {
            reader: LinkReader {
                reader: memory.turn.reader,
                ..self.reader
            },
            answer: LinkAnswer::Selection(memory.turn.answer),
        }
    }

    // What comes of a call or a row: the bits that the reader sends stand at the front of `sent`.
    fn turned(&mut self, alloc: Global, turn: LinkTurn, sent: &[u8]) -> Result<String, LineError> {
        self.reader = turn.reader;
        let said = Said {
            turn,
            sent,
            answer: self.answer.as_slice(),
        };
        Ok(format!(in alloc; "{said}")?)
    }
}

impl Program for Played {
    fn answer(&mut self, alloc: Global, words: &[&[u8]]) -> Result<String, LineError> {
        match words {
            [b"new"] => self.renew(alloc),
            [b"room", size] => self.room(alloc, size),
            [b"select"] => self.call(alloc, whole::select),
            [b"sweep"] => self.call(alloc, whole::start_sweep),
            [b"remember"] => self.remember(alloc),
            [b"wake", uid] => {
                let uid = uid_word(alloc, uid)?;
                self.call(
                    alloc,
                    |reader, sent| whole::wake(reader, uid.as_slice(), sent),
                )
            }
            [b"rats", index] => {
                let index = small_number(index)?;
                self.call(alloc, |reader, sent| whole::rats(reader, index, sent))
            }
            [b"send", message] => self.send(alloc, message),
            [b"deselect"] => self.call(alloc, whole::deselect),
            [b"silence"] => self.hear(alloc, &[]),
            [name, value] => {
                let row = row_line(alloc, name, value, LONGEST_ROW)?;
                self.hear(alloc, row.as_slice())
            }
            _ => Err(LineError::NotUnderstood),
        }
    }
}
