// Functions that only crates of this repository call: each has a condition, and its callers' proofs show that they meet it.
ghost use Rattle.std.specs.Prelude.{◌≡◌, ◌≤◌, length};
ghost use Rattle.rows.specs.Rows.{overlay};
ghost use Rattle.uid.specs.Uid.{byte_count, uid_bytes};
ghost use Rattle.kept.specs.Kept.{uid_room};

use uid::Uid;

// Writes a UID's own bytes to the front of a lent row that has room for the longest, and gives how many they are.
pub fn put_uid(u: Uid, out: &mut [u8]) -> usize
    requires { uid_room ≤ length out.old }
    ensures value { result ≡ byte_count u.size }
    ensures out_after { out.new ≡ overlay out.old 0 (uid_bytes u) }
{
    let n = uid::byte_count(u.size);
    rows::within::put(out, 0, &u.bytes[..n]);
    n
}
