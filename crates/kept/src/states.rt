// A row of states, one of 64 bytes behind the other, each with a value at its front. What a value is, and how it is read, the caller says: cards of
// Type A (crate kept_field), cards of Type B (crate kept_slots).
ghost use Rattle.std.specs.Prelude.{◌≡◌, ℕ, ◌*◌, ◌≤◌, List, length};
ghost use Rattle.limits.specs.Limits.{most_cards};
ghost use Rattle.kept.specs.Kept.{state_size};
ghost use Rattle.kept.specs.States.{array_of};

use limits::MOST_CARDS;

// The first n values of a row as an array: as many as it holds, each read from its place and the bytes from its state on, then `none`.
pub fn read<T: Copy, F: Fn(usize, &[u8]) -> T>(
    n: usize,
    none: T,
    b: &[u8],
    value: F,
) -> [T; MOST_CARDS]
    requires room { state_size * n ≤ length b.now }
    requires callable { F.IsAlwaysCallable value }
    ensures { (f : ℕ → List ℕ → T) → ((i : ℕ) (s : _) (x : T) → F.post value i s x → x ≡ f i s.now) → result ≡ array_of f none most_cards n b.now }
{
    let mut values = [none; MOST_CARDS];
    for i in 0..crate::few(n) {
        values[i] = value(i, &b[crate::STATE_SIZE * i..]);
    }
    values
}
