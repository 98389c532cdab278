// The 45 bits of a level as they were sent and heard: its data bits, the first of them that collided, and the bytes of those known.
ghost use Rattle.std.specs.Prelude.{◌≡◌, true};
ghost use Rattle.rows.specs.Rows.{clean, next, fill};
ghost use Rattle.frame.specs.Frame.{data_of, bytes_of};
ghost use Rattle.selection.specs.Level.{first_collided};

// The 40 data bits, parity left out.
pub fn data_bits(w: [u8; 45]) -> [u8; 40]
    ensures { result ≡ data_of 5 w }
{
    let mut d = [0u8; 40];
    for (i, bit) in d.iter_mut().enumerate() {
        *bit = w[i + i / 8];
    }
    d
}

// The position of the first collided bit, or the number of bits where none collided.
pub fn first_collided(h: &[u8]) -> usize
    ensures { result ≡ first_collided h.now }
{
    for (i, &b) in h.iter().enumerate() {
        if b > 1 {
            return i;
        }
    }
    h.len()
}

// The bits before the first collided one, at p, and then a 1; zeros behind. All of them where none collided.
pub fn known_bits(d: [u8; 40], p: usize) -> [u8; 40]
    requires { p ≡ first_collided d }
    ensures { result ≡ fill 40 (next d) }
{
    let mut e = [0u8; 40];
    rows::within::put(&mut e, 0, &d[..p]);
    if p < 40 {
        e[p] = 1;
    }
    e
}

// The five bytes of 40 bits, none of them collided.
pub fn five_bytes(e: [u8; 40]) -> [u8; 5]
    requires { clean e ≡ true }
    ensures { result ≡ bytes_of 5 e }
{
    let mut five = [0u8; 5];
    for (i, byte) in five.iter_mut().enumerate() {
        *byte = parity::within::byte_at(&e, 8 * i);
    }
    five
}
