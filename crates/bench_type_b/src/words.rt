// Words with their bounds, and those that may be left out.
use bench_talk::LineError;

// Just N bytes.
pub fn exact<const N: usize>(word: &[u8]) -> Result<[u8; N], LineError> {
    let mut bytes = [0u8; N];
    match bench_values::read_hex(word, &mut bytes) {
        Ok(n) if n == N => Ok(bytes),
        _ => Err(LineError::NotUnderstood),
    }
}

// A byte of two digits, as an AFI is.
pub fn byte(word: &[u8]) -> Result<u8, LineError> {
    let [byte] = exact::<1>(word)?;
    Ok(byte)
}

// `[AFI]`
pub fn afi(words: &[&[u8]]) -> Result<u8, LineError> {
    match words {
        [] => Ok(0x00),
        [afi] => byte(afi),
        _ => Err(LineError::NotUnderstood),
    }
}
