// The parts that the public functions are made of.
ghost use Rattle.std.specs.Prelude.{◌≡◌, ◌≤◌, length, drop, get_or};
ghost use Rattle.bench.specs.Words.{Skipped, Stopped, after_gap, after_run};

// The first byte; 0 where there is none.
pub fn first(text: &[u8]) -> u8
    ensures { result ≡ get_or text.now 0 0 }
{
    text.first().copied().unwrap_or(0)
}

// The index of the first byte that is no space, at from or behind it, or the end.
pub fn skip(text: &[u8], from: usize) -> usize
    requires { from ≤ length text.now }
    ensures { Skipped text.now from result }
{
    for i in from..text.len() {
        if text[i] != 32 {
            return i;
        }
    }
    text.len()
}

// The index of the first space at from or behind it, or the end.
pub fn stop(text: &[u8], from: usize) -> usize
    requires { from ≤ length text.now }
    ensures { Stopped text.now from result }
{
    for i in from..text.len() {
        if text[i] == 32 {
            return i;
        }
    }
    text.len()
}

// The index behind the first word at from or behind it.
pub fn after_word(text: &[u8], from: usize) -> usize
    requires { from ≤ length text.now }
    ensures upper_bound { result ≤ length text.now }
    ensures text_value { drop result text.now ≡ after_run (after_gap (drop from text.now)) }
{
    stop(text, skip(text, from))
}
