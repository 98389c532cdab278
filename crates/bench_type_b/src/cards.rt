// A card's words.
use crate::words::{byte, exact};
use bench_talk::LineError;
use card_b::{CardB, StateB};

// `PUPI [STATE [AFI [MARKERS [DATA [INFO]]]]]`
pub fn card(pupi: &[u8], others: &[&[u8]]) -> Result<CardB, LineError> {
    if others.len() > 5 {
        return Err(LineError::NotUnderstood);
    }
    Ok(CardB {
        pupi: exact(pupi)?,
        state: match others.first().copied() {
            None | Some(b"idle") => StateB::Idle,
            Some(b"halt") => StateB::Halt,
            Some(b"off") => StateB::Off,
            Some(_) => return Err(LineError::NotUnderstood),
        },
        afi: match others.get(1) {
            None => 0x00,
            Some(afi) => byte(afi)?,
        },
        markers: match others.get(2).copied() {
            None | Some(b"yes") => true,
            Some(b"no") => false,
            Some(_) => return Err(LineError::NotUnderstood),
        },
        application: match others.get(3) {
            None => [0; 4],
            Some(data) => exact(data)?,
        },
        protocol: match others.get(4) {
            None => [0x00, 0x81, 0x81],
            Some(info) => exact(info)?,
        },
    })
}
