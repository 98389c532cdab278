// CRC_A and CRC_B. Document 01, "Frames on the air": CRC_A has "polynomial x^16+x^12+x^5+1, start 6363, least significant bit first, not
// inverted, low byte sent first". T-05: CRC_B has "start FFFF, inverted". T-08: "byte by byte from a table of 256 numbers", "Use the table for
// CRC_B too".
//
// `one` is the table of one byte's bits, `two` that of two bytes' bits, `over` that of eight bytes' bits by half bytes of the register. What reads
// them borrows them: a function that names a constant array writes all of it to the stack as it begins, so each table is named in one function,
// without a loop or a branch, and its rule is shown there. Eight bytes are taken from a register of 0, so that they do not wait for those before
// them; the last table brings the register over them.
#![tactic(auto)]

ghost use Rattle.std.specs.Prelude.{◌≡◌, get_or};
ghost use Rattle.crc.specs.Crc.{shifts, crc_byte, crc_from, crc_a, crc_bytes, crc_good};
ghost use Rattle.crc.specs.CrcOf.{crc_of, sent_of, good_of, crc_b, crc_bytes_b, crc_good_b};
ghost use Rattle.crc.specs.Table.{table, half_table};

mod tables;

// CRC_A: "start 6363", "not inverted".
const START_A: u16 = 0x6363;

const END_A: u16 = 0;

// CRC_B: "start FFFF, inverted".
const START_B: u16 = 0xFFFF;

const END_B: u16 = 0xFFFF;

// What a table has for a byte.
fn entry(t: &[u16; 256], b: u8) -> u16
    ensures { result ≡ get_or t.now b 0 }
{
    t[b as usize]
}

// The first table, by which bytes are taken one at a time.
#[derive(Clone, Copy)]
struct ByBytes<'a> {
    one: &'a [u16; 256],
    ghost one_byte: { one.now ≡ table 8 },
}

impl<'a> ByBytes<'a> {
    // The register after one byte more.
    fn crc_byte(self, c: u16, b: u8) -> u16
        ensures { result ≡ crc_byte c b }
    {
        let x = c ^ (b as u16);
        entry(self.one, (x % 256) as u8) ^ (x / 256)
    }

    // .. after bytes.
    fn crc(self, start: u16, bytes: &[u8]) -> u16
        ensures { result ≡ crc_from start bytes.now }
    {
        let mut c = start;
        for b in bytes {
            c = self.crc_byte(c, *b);
        }
        c
    }
}

// All tables, by which bytes are taken two and eight at a time.
#[derive(Clone, Copy)]
struct ByTables<'a> {
    by_bytes: ByBytes<'a>,
    two: &'a [u16; 256],
    over: &'a [u16; 64],
    ghost two_bytes: { two.now ≡ table 16 },
    ghost over_eight: { over.now ≡ half_table 64 },
}

impl<'a> ByTables<'a> {
    // The register after two bytes more.
    fn crc_pair(self, c: u16, a: u8, b: u8) -> u16
        ensures { result ≡ crc_byte (crc_byte c a) b }
    {
        let x = c ^ ((a as u16) + (b as u16) * 256);
        entry(self.two, (x % 256) as u8) ^ entry(self.by_bytes.one, (x / 256) as u8)
    }

    // .. after bytes, two at a time.
    fn by_pairs(self, start: u16, bytes: &[u8]) -> u16
        ensures { result ≡ crc_from start bytes.now }
    {
        let mut c = start;
        let mut left = bytes;
        while let [a, b, rest @ ..] = left {
            c = self.crc_pair(c, *a, *b);
            left = rest;
        }
        self.by_bytes.crc(c, left)
    }

    // .. after eight bytes of zeros.
    fn over_eight(self, c: u16) -> u16
        ensures { result ≡ shifts 64 c }
    {
        let low = self.over[(c % 16) as usize] ^ self.over[(16 + c / 16 % 16) as usize];
        low ^ self.over[(32 + c / 256 % 16) as usize] ^ self.over[(48 + c / 4096) as usize]
    }

    // .. after bytes, eight at a time.
    fn crc(self, start: u16, bytes: &[u8]) -> u16
        ensures { result ≡ crc_from start bytes.now }
    {
        let mut c = start;
        let mut left = bytes;
        while let Some((eight, rest)) = left.split_first_chunk::<8>() {
            c = self.over_eight(c) ^ self.by_pairs(0, eight);
            left = rest;
        }
        self.by_pairs(c, left)
    }
}

// The register after bytes, with all tables at hand.
fn by_all(by_bytes: ByBytes<'_>, start: u16, bytes: &[u8]) -> u16
    ensures { result ≡ crc_from start bytes.now }
{
    let tables = ByTables {
        by_bytes,
        two: &tables::TWO_BYTES,
        over: &tables::OVER_EIGHT,
    };
    tables.crc(start, bytes)
}

// .. after bytes. Below sixteen the first table does: there are no two eights that could go side by side.
fn by_tables(by_bytes: ByBytes<'_>, start: u16, bytes: &[u8]) -> u16
    ensures { result ≡ crc_from start bytes.now }
{
    if bytes.len() < 16 {
        by_bytes.crc(start, bytes)
    } else {
        by_all(by_bytes, start, bytes)
    }
}

// The CRC of bytes, by its start value and by what the register is turned by at the end.
fn crc_of(start: u16, end: u16, bytes: &[u8]) -> u16
    ensures { result ≡ crc_of start end bytes.now }
{
    let by_bytes = ByBytes {
        one: &tables::ONE_BYTE,
    };
    by_tables(by_bytes, start, bytes) ^ end
}

// .. as it is sent, low byte first.
fn sent_of(start: u16, end: u16, bytes: &[u8]) -> [u8; 2]
    ensures { result ≡ sent_of start end bytes.now }
{
    crc_of(start, end, bytes).to_le_bytes()
}

// Are the last two bytes the CRC of those before? Fewer than two bytes have none.
fn is_good_of(start: u16, end: u16, bytes: &[u8]) -> bool
    ensures { result ≡ good_of start end bytes.now }
{
    match bytes.split_last_chunk::<2>() {
        Some((message, crc)) => rows::is_same(crc, &sent_of(start, end, message)),
        None => false,
    }
}

// Kept: docs/PROMISES.md names the three of CRC_A and the three of CRC_B. They are one function each, at two start values and ends.
// CRC_A of bytes.
pub fn crc_a(bytes: &[u8]) -> u16
    ensures { result ≡ crc_a bytes.now }
{
    crc_of(START_A, END_A, bytes)
}

// CRC_A of bytes as it is sent, low byte first.
pub fn crc_bytes(bytes: &[u8]) -> [u8; 2]
    ensures { result ≡ crc_bytes bytes.now }
{
    sent_of(START_A, END_A, bytes)
}

// Are the last two bytes the CRC_A of those before? Fewer than two bytes have none.
pub fn is_good(bytes: &[u8]) -> bool
    ensures { result ≡ crc_good bytes.now }
{
    is_good_of(START_A, END_A, bytes)
}

// CRC_B of bytes.
pub fn crc_b(bytes: &[u8]) -> u16
    ensures { result ≡ crc_b bytes.now }
{
    crc_of(START_B, END_B, bytes)
}

// CRC_B of bytes as it is sent, low byte first.
pub fn crc_bytes_b(bytes: &[u8]) -> [u8; 2]
    ensures { result ≡ crc_bytes_b bytes.now }
{
    sent_of(START_B, END_B, bytes)
}

// Are the last two bytes the CRC_B of those before? Fewer than two bytes have none.
pub fn is_good_b(bytes: &[u8]) -> bool
    ensures { result ≡ crc_good_b bytes.now }
{
    is_good_of(START_B, END_B, bytes)
}
