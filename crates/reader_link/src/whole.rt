// The whole reader, every phase: selection by the rules of crate reader, then RATS, then blocks. Rows in, rows out.
ghost use Rattle.std.specs.Prelude.{◌≡◌, true, false, cond, [], ◌≤◌, length};
ghost use Rattle.limits.specs.Limits.{row_room};
ghost use Rattle.rows.specs.Rows.{overlay};
ghost use Rattle.frame.specs.Calls.{good_bytes};
ghost use Rattle.selection.specs.Heard.{read_ats};
ghost use Rattle.reader.specs.Reader.{hear};
ghost use Rattle.block.specs.Block.{behind};
ghost use Rattle.block.specs.Row.{heard_row};
ghost use Rattle.reader_blocks.specs.ReaderFrames.{reader_hears, reader_out, reader_block};
ghost use Rattle.reader_link.specs.ReaderCalls.{new_reader, bits_of, bits_by, called, declined_by, selecting, linked, linking, after_ats, awaits_block, frame_due, hears_in, hear_call, is_new_in, start_call, wake_call, is_selected, b6, rats_due, rats_call, between, send_in, send_call, deselect_in, deselect_call};
ghost use Rattle.reader_link.specs.ReaderSays.{link_turn_says, start_says, wake_says, rats_says, send_says, deselect_says, hear_says};

use crate::{Link, LinkAnswer, LinkReader, LinkTurn};
use block::Told;
use reader::{Answer, Phase, Reader, Turn};
use reader_blocks::{ReaderLink, ReaderPhase, ReaderStep};
use refusal::Refusal;

// A reader that has sent no frame.
pub fn new_reader() -> LinkReader
    ensures { result ≡ new_reader }
{
    LinkReader {
        reader: reader::new_reader(),
        link: Link::NoLink,
    }
}

// How many air bits of the next frame stand at the front of the lent row; none: no frame.
pub fn bits_of(a: LinkAnswer) -> usize
    ensures { result ≡ bits_by a }
{
    match a {
        LinkAnswer::Selection(s) => selection_bits(s),
        LinkAnswer::Opens(_) => 0,
        LinkAnswer::Blocks(n, _) => n,
    }
}

fn selection_bits(a: Answer) -> usize
    ensures { result ≡ bits_of a }
{
    match a {
        Answer::Sends(n) | Answer::Finds(n) => n,
        _ => 0,
    }
}

// Declined before anything is looked at: while it selects, a reader says so as crate reader has it.
fn declined_by(link: Link, e: Refusal) -> LinkAnswer
    ensures { result ≡ declined_by link e }
{
    match link {
        Link::NoLink => LinkAnswer::Selection(Answer::Declines(e)),
        Link::RatsSent(_) | Link::Linked(_) => LinkAnswer::Blocks(0, Told::Refused(e)),
    }
}

// .. and nothing changes.
fn declines(x: LinkReader, e: Refusal) -> LinkTurn
    ensures { result ≡ (called x (declined_by x.link e) [] []).turn }
{
    LinkTurn {
        reader: x,
        answer: declined_by(x.link, e),
    }
}

// A turn of a selection handed back, and its frame at the front of the lent row.
fn select_turn(t: Turn, out: &mut [u8]) -> LinkTurn
    requires { row_room ≤ length out.old }
    ensures value { result ≡ (selecting t []).turn }
    ensures out_after { out.new ≡ overlay out.old 0 (selecting t []).sent }
{
    reader::within::put_sent(t, out);
    LinkTurn {
        reader: LinkReader {
            reader: t.reader,
            link: Link::NoLink,
        },
        answer: LinkAnswer::Selection(t.answer),
    }
}

// A reader that has stopped or finished.
fn over(p: Phase) -> LinkReader
    ensures { result ≡ record { reader = Rattle.reader.specs.Reader.blank p false; link = Link.NoLink } }
{
    LinkReader {
        reader: reader::within::blank(p, false),
        link: Link::NoLink,
    }
}

// The reader by its link's phase.
fn linked(r: Reader, l: ReaderLink) -> LinkReader
    ensures { result ≡ linked r l.phase l }
{
    match l.phase {
        ReaderPhase::Finished => over(Phase::Finished),
        ReaderPhase::Stopped => over(Phase::Stopped),
        _ => LinkReader {
            reader: r,
            link: Link::Linked(l),
        },
    }
}

// A step of the link handed back, and its block at the front of the lent row.
fn finish(r: Reader, step: ReaderStep, message: &[u8], out: &mut [u8]) -> LinkTurn
    requires { row_room ≤ length out.old }
    ensures value { result ≡ (linking r (reader_out step message.now [] 0 [])).turn }
    ensures out_after { out.new ≡ overlay out.old 0 (linking r (reader_out step message.now [] 0 [])).sent }
{
    let bits = block::within::put_block(reader_blocks::sent(step, message), out);
    LinkTurn {
        reader: linked(r, step.link),
        answer: LinkAnswer::Blocks(bits, step.told),
    }
}

// What a reader does with a row.
fn hear_row(l: ReaderLink, row: &[u8], message: &[u8], buffer: &mut [u8]) -> ReaderStep
    ensures value { result ≡ reader_hears l (good_bytes (heard_row l.own row.now)) (length buffer.old) (length message.now) }
    ensures buffer_after { buffer.new ≡ cond result.joins (overlay buffer.old l.joined (behind (good_bytes (heard_row l.own row.now)))) buffer.old }
{
    let mut bytes = [0u8; 256];
    let n = block::within::read_row(l.own, row, &mut bytes);
    reader_blocks::hears(l, &bytes[..n], message, buffer)
}

// A row while a block or DESELECT's answer is awaited.
fn hear_block(
    r: Reader,
    l: ReaderLink,
    row: &[u8],
    message: &[u8],
    buffer: &mut [u8],
    out: &mut [u8],
) -> LinkTurn
    requires { row_room ≤ length out.old }
    ensures value { result ≡ (linking r (reader_block l (heard_row l.own row.now) message.now buffer.old)).turn }
    ensures buffer_after { buffer.new ≡ (linking r (reader_block l (heard_row l.own row.now) message.now buffer.old)).buffer }
    ensures out_after { out.new ≡ overlay out.old 0 (linking r (reader_block l (heard_row l.own row.now) message.now buffer.old)).sent }
{
    let step = hear_row(l, row, message, buffer);
    finish(r, step, message, out)
}

// .. while ATS is awaited: it opens the link at number 0, and all else stops the reader.
fn hear_ats(r: Reader, own: u8, row: &[u8]) -> LinkTurn
    ensures { result ≡ (after_ats r own (read_ats own row.now) []).turn }
{
    match selection::ats::read_ats(own, row) {
        Ok(i) => LinkTurn {
            reader: LinkReader {
                reader: r,
                link: Link::Linked(reader_blocks::open(own, i, false)),
            },
            answer: LinkAnswer::Opens(i),
        },
        Err(e) => LinkTurn {
            reader: over(Phase::Stopped),
            answer: LinkAnswer::Blocks(0, Told::Refused(e)),
        },
    }
}

// .. while it selects.
fn hear_selecting(r: Reader, row: &[u8], out: &mut [u8]) -> LinkTurn
    requires { row_room ≤ length out.old }
    ensures value { result ≡ (selecting (hear r row.now) []).turn }
    ensures out_after { out.new ≡ overlay out.old 0 (selecting (hear r row.now) []).sent }
{
    select_turn(reader::within::hear_rules(r, row), out)
}

// A row that is due, by how far the reader is.
fn hear_due(
    x: LinkReader,
    row: &[u8],
    message: &[u8],
    buffer: &mut [u8],
    out: &mut [u8],
) -> LinkTurn
    requires { row_room ≤ length out.old }
    ensures value { result ≡ (hears_in x.link x.reader row.now message.now buffer.old).turn }
    ensures buffer_after { buffer.new ≡ (hears_in x.link x.reader row.now message.now buffer.old).buffer }
    ensures out_after { out.new ≡ overlay out.old 0 (hears_in x.link x.reader row.now message.now buffer.old).sent }
{
    match x.link {
        Link::NoLink => hear_selecting(x.reader, row, out),
        Link::RatsSent(own) => hear_ats(x.reader, own, row),
        Link::Linked(l) => hear_block(x.reader, l, row, message, buffer, out),
    }
}

fn awaits_block(phase: ReaderPhase) -> bool
    ensures { result ≡ awaits_block phase }
{
    matches!(phase, ReaderPhase::Talking(_) | ReaderPhase::Leaving)
}

// Is a row due?
fn frame_due(x: LinkReader) -> bool
    ensures { result ≡ frame_due x.link x.reader }
{
    match x.link {
        Link::NoLink => reader::is_awaiting(x.reader.phase),
        Link::RatsSent(_) => true,
        Link::Linked(l) => awaits_block(l.phase),
    }
}

// The reader hears a row, any row of any length, with its host's message and an answer buffer lent. Its next frame stands at the front of the
// lent row, which has room for the longest frame. 11: no frame is due.
// Kept: three rows are lent beside the heard one, as C lends them (`lac_reader_hear`), and each clause speaks of one of them by its name.
pub fn hear(
    x: LinkReader,
    row: &[u8],
    message: &[u8],
    buffer: &mut [u8],
    out: &mut [u8],
) -> LinkTurn
    ensures value { result ≡ (hear_call x row.now message.now buffer.old (length out.old)).turn }
    ensures buffer_after { buffer.new ≡ (hear_call x row.now message.now buffer.old (length out.old)).buffer }
    ensures out_after { out.new ≡ overlay out.old 0 (hear_call x row.now message.now buffer.old (length out.old)).sent }
    ensures result_value { link_turn_says result ≡ hear_says x row.now message.now buffer.old (length out.old) }
{
    if let Err(e) = block::within::tested(frame_due(x), out.len()) {
        return declines(x, e);
    }
    hear_due(x, row, message, buffer, out)
}

fn is_new(x: LinkReader) -> bool
    ensures { result ≡ is_new_in x.link x.reader }
{
    matches!(x.link, Link::NoLink) && reader::within::is_new(x.reader.phase)
}

// Kept: it is a bit of the frame that is sent or heard, or a field of the reader, as the definitions have it, and picks no step.
fn start(sweeps: bool, x: LinkReader, out: &mut [u8]) -> LinkTurn
    ensures value { result ≡ (start_call sweeps x (length out.old)).turn }
    ensures out_after { out.new ≡ overlay out.old 0 (start_call sweeps x (length out.old)).sent }
    ensures result_value { link_turn_says result ≡ start_says x (length out.old) }
{
    if let Err(e) = block::within::tested(is_new(x), out.len()) {
        return declines(x, e);
    }
    let t = reader::within::sends(reader::within::blank(Phase::ReqaSent, sweeps));
    select_turn(t, out)
}

// Begins the selection of one card. 11: the reader is not new.
pub fn select(x: LinkReader, out: &mut [u8]) -> LinkTurn
    ensures value { result ≡ (start_call false x (length out.old)).turn }
    ensures out_after { out.new ≡ overlay out.old 0 (start_call false x (length out.old)).sent }
    ensures result_value { link_turn_says result ≡ start_says x (length out.old) }
{
    start(false, x, out)
}

// Begins the reader's part of a sweep. 11: the reader is not new.
pub fn start_sweep(x: LinkReader, out: &mut [u8]) -> LinkTurn
    ensures value { result ≡ (start_call true x (length out.old)).turn }
    ensures out_after { out.new ≡ overlay out.old 0 (start_call true x (length out.old)).sent }
    ensures result_value { link_turn_says result ≡ start_says x (length out.old) }
{
    start(true, x, out)
}

// T-03: begins the selection of the one card with this UID, by WUPA and SELECT. 11: the reader is not new; 6: the bytes are no valid UID.
pub fn wake(x: LinkReader, bytes: &[u8], out: &mut [u8]) -> LinkTurn
    ensures value { result ≡ (wake_call x bytes.now (length out.old)).turn }
    ensures out_after { out.new ≡ overlay out.old 0 (wake_call x bytes.now (length out.old)).sent }
    ensures result_value { link_turn_says result ≡ wake_says x bytes.now (length out.old) }
{
    if let Err(e) = block::within::tested(is_new(x), out.len()) {
        return declines(x, e);
    }
    select_turn(reader::known::wake_turn(x.reader, bytes), out)
}

fn is_selected(p: Phase) -> bool
    ensures { result ≡ is_selected p }
{
    matches!(p, Phase::Selected)
}

// Is the reader selected, and does the card speak blocks?
fn selects_blocks(r: Reader) -> bool
    ensures { result ≡ rats_due Link.NoLink r }
{
    is_selected(r.phase) && r.sak / 32 % 2 == 1
}

fn rats_due(x: LinkReader) -> bool
    ensures { result ≡ rats_due x.link x.reader }
{
    matches!(x.link, Link::NoLink) && selects_blocks(x.reader)
}

// Sends RATS with the reader's own size index. 11: no card is selected, or it speaks no blocks; 6: the index is over 8.
pub fn rats(x: LinkReader, index: u8, out: &mut [u8]) -> LinkTurn
    ensures value { result ≡ (rats_call x index (length out.old)).turn }
    ensures out_after { out.new ≡ overlay out.old 0 (rats_call x index (length out.old)).sent }
    ensures result_value { link_turn_says result ≡ rats_says x index (length out.old) }
{
    if let Err(e) = block::within::tested(rats_due(x), out.len()) {
        return declines(x, e);
    }
    if index > 8 {
        return declines(x, Refusal::Argument);
    }
    rows::within::put(out, 0, &selection::within::rats(index));
    LinkTurn {
        reader: LinkReader {
            link: Link::RatsSent(index),
            ..x
        },
        answer: LinkAnswer::Blocks(36, Told::Quiet),
    }
}

// Is the reader linked and between messages?
fn is_between(link: Link) -> bool
    ensures { result ≡ between link }
{
    match link {
        Link::Linked(l) => reader_blocks::is_open(l.phase),
        _ => false,
    }
}

fn send_due(x: LinkReader, message: &[u8], out: &mut [u8]) -> LinkTurn
    requires { row_room ≤ length out.old }
    ensures value { result ≡ (send_in x.link x message.now).turn }
    ensures out_after { out.new ≡ overlay out.old 0 (send_in x.link x message.now).sent }
{
    match x.link {
        Link::Linked(l) => finish(
            x.reader,
            reader_blocks::starts(l, message.len()),
            message,
            out,
        ),
        _ => declines(x, Refusal::NotDue),
    }
}

// Sends a message's first block. 11: the reader is not between messages; 10: the message is over 4,096 bytes.
pub fn send(x: LinkReader, message: &[u8], out: &mut [u8]) -> LinkTurn
    ensures value { result ≡ (send_call x message.now (length out.old)).turn }
    ensures out_after { out.new ≡ overlay out.old 0 (send_call x message.now (length out.old)).sent }
    ensures result_value { link_turn_says result ≡ send_says x message.now (length out.old) }
{
    if let Err(e) = block::within::tested(is_between(x.link), out.len()) {
        return declines(x, e);
    }
    send_due(x, message, out)
}

fn deselect_due(x: LinkReader, out: &mut [u8]) -> LinkTurn
    requires { row_room ≤ length out.old }
    ensures value { result ≡ (deselect_in x.link x).turn }
    ensures out_after { out.new ≡ overlay out.old 0 (deselect_in x.link x).sent }
{
    match x.link {
        Link::Linked(l) => finish(x.reader, reader_blocks::parts(l), &[], out),
        _ => declines(x, Refusal::NotDue),
    }
}

// Sends DESELECT. 11: the reader is not between messages.
pub fn deselect(x: LinkReader, out: &mut [u8]) -> LinkTurn
    ensures value { result ≡ (deselect_call x (length out.old)).turn }
    ensures out_after { out.new ≡ overlay out.old 0 (deselect_call x (length out.old)).sent }
    ensures result_value { link_turn_says result ≡ deselect_says x (length out.old) }
{
    if let Err(e) = block::within::tested(is_between(x.link), out.len()) {
        return declines(x, e);
    }
    deselect_due(x, out)
}
