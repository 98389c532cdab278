// The ends on which the calls are tried. No call changes them.
use crate::answers::{lent, sent};
use bench_talk::LineError;
use card::{Card, CardState};
use card_link::{CardTurn, LinkCard};
use limits::ROW_ROOM;
use reader_link::{LinkReader, LinkTurn};
use std::alloc::{AllocError, Global};
use uid::{Uid, UidSize};

#[derive(Drop)]
pub struct Ends {
    pub reader: LinkReader,
    pub card: LinkCard,
}

// The most bytes of a message, and of a message buffer.
pub const MOST_MESSAGE: usize = 5000;

impl Ends {
    // A new reader, and a card that has power.
    pub fn new() -> Self {
        Ends {
            reader: reader_link::whole::new_reader(),
            card: card(8),
        }
    }

    // The reader has selected the card.
    pub fn selected() -> Self {
        Ends::after(bench_ends::selected(card(8)))
    }

    // They have opened with the reader's size index and the card's.
    pub fn opened(own: u8, index: u8) -> Self {
        Ends::after(bench_ends::opened(card(index), own))
    }

    fn after(ends: bench_ends::Ends) -> Self {
        Ends {
            reader: ends.reader,
            card: ends.card,
        }
    }

    // They go on for so many rounds of an exchange. The bytes of both messages are 5.
    pub fn talk(
        &mut self,
        alloc: Global,
        message: usize,
        answer: usize,
        rounds: usize,
    ) -> Result<(), AllocError> {
        let message = lent(alloc, 5, message, MOST_MESSAGE)?;
        let answer = lent(alloc, 5, answer, MOST_MESSAGE)?;
        let mut down = vec![in alloc; 0; MOST_MESSAGE]?;
        let mut up = vec![in alloc; 0; MOST_MESSAGE]?;
        let outcome = exchange::exchange(
            self.reader,
            self.card,
            message.as_slice(),
            b"",
            answer.as_slice(),
            rounds,
            down.as_mut_slice(),
            up.as_mut_slice(),
        );
        self.reader = outcome.reader;
        self.card = outcome.card;
        Ok(())
    }

    // A call of the whole card, with so much room for its row.
    // Kept: what Rattle asks of a function that takes a closure.
    pub fn card_turn<C: FnOnce(LinkCard, &mut [u8]) -> CardTurn>(
        &self,
        alloc: Global,
        room: usize,
        call: C,
    ) -> Result<String, LineError>
        requires { C.IsAlwaysCallable call }
    {
        let mut row = lent(alloc, 0, room, ROW_ROOM)?;
        let turn = call(self.card, row.as_mut_slice());
        let refusal = bench_ends::refused_in(turn.told);
        sent(alloc, refusal, bench::front(row.as_slice(), turn.bits))
    }

    // .. of the whole reader
    pub fn reader_turn<C: FnOnce(LinkReader, &mut [u8]) -> LinkTurn>(
        &self,
        alloc: Global,
        room: usize,
        call: C,
    ) -> Result<String, LineError>
        requires { C.IsAlwaysCallable call }
    {
        let mut row = lent(alloc, 0, room, ROW_ROOM)?;
        let turn = call(self.reader, row.as_mut_slice());
        let refusal = bench_ends::refusal_in(turn.answer);
        let bits = reader_link::whole::bits_of(turn.answer);
        sent(alloc, refusal, bench::front(row.as_slice(), bits))
    }
}

// A card that has power. Where there is none with this size index, one of four zeros that speaks no blocks.
fn card(index: u8) -> LinkCard {
    match card_link::whole::new_card(&[1, 2, 3, 4], true, index) {
        Ok(card) => card_link::whole::power_on(card),
        Err(_) => LinkCard {
            card: Card {
                uid: Uid {
                    size: UidSize::Single,
                    bytes: [0; 10],
                },
                blocks: false,
                index: 0,
                state: CardState::Idle,
            },
            link: card_blocks::open(0, 0),
        },
    }
}
