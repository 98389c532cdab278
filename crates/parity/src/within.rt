// Functions that only crates of this repository call: each has a condition, and its callers' proofs show that they meet it.
ghost use Rattle.std.specs.Prelude.{◌≡◌, true, ◌+◌, ◌*◌, ◌≤◌, ◌<◌, length, take, drop};
ghost use Rattle.rows.specs.Rows.{clean};
ghost use Rattle.parity.specs.Bits.{unbits, wide};

// The number of at most eight bits, none of them collided.
pub fn number_of(bits: &[u8]) -> u8
    requires { (length bits.now ≤ 8) × (clean bits.now ≡ true) }
    ensures { result ≡ unbits bits.now }
{
    let mut v: u8 = 0;
    for bit in bits.iter().rev() {
        v = 2 * v + *bit;
    }
    v
}

// Four elements as one number, the first its lowest byte.
fn four(a: u8, b: u8, c: u8, d: u8) -> u64
    ensures value { result ≡ a + 256 * b + 65536 * c + 16777216 * d }
    ensures upper_bound { result < 4294967296 }
{
    (a as u64) + 256 * (b as u64) + 65536 * (c as u64) + 16777216 * (d as u64)
}

// The eight elements at index at as one number, the first its lowest byte: a machine reads them at once.
fn wide_at(row: &[u8], at: usize) -> u64
    requires { at + 8 ≤ length row.now }
    ensures { result ≡ wide (take 8 (drop at row.now)) }
{
    let low = four(row[at], row[at + 1], row[at + 2], row[at + 3]);
    let high = four(row[at + 4], row[at + 5], row[at + 6], row[at + 7]);
    low + 4294967296 * high
}

// The byte whose eight bits stand at index at, none of them collided. In the wide number bit k stands in byte k, 7 * k places above its own.
// The sums bring it down by 7, by 14 and by 28 places; no two bits meet on the way, and below 256 each stands once, at its place.
pub fn byte_at(row: &[u8], at: usize) -> u8
    requires { (at + 8 ≤ length row.now) × (clean (take 8 (drop at row.now)) ≡ true) }
    ensures { result ≡ unbits (take 8 (drop at row.now)) }
{
    let x = wide_at(row, at);
    let y = x + x / 128;
    let z = y + y / 16384;
    let w = z + z / 268435456;
    (w % 256) as u8
}
