// Uppercase hexadecimal digits: a line of them read as bytes, and bytes written as digits.
ghost use Rattle.std.specs.Prelude.{◌≡◌, ◌+◌, ◌*◌, ◌≤◌, ◌<◌, IfSome, length, take};
ghost use Rattle.words.specs.Splice.{splice};
ghost use Rattle.frames.specs.Digits.{digit_value, digit_of, byte_digits, digits_of};
ghost use Rattle.frames.specs.Lines.{decoded};
ghost use Rattle.std.specs.Option.{option_map};

// No line of more digits is a frame.
const MAX_DIGITS: usize = 4000;

// The bytes of the longest frame.
pub const MAX_BYTES: usize = 2000;

// The value of a digit; none for another character. The library's `to_digit` takes lowercase digits too.
fn digit_value(c: u8) -> Option<u8>
    ensures value { result ≡ digit_value c }
    ensures few { IfSome result (λ value. value < 16) }
{
    match c {
        b'0'..=b'9' => Some(c - b'0'),
        b'A'..=b'F' => Some(c - b'A' + 10),
        _ => None,
    }
}

// The digit of a value.
fn digit_of(value: u8) -> u8
    requires { value < 16 }
    ensures { result ≡ digit_of value }
{
    match value {
        0..=9 => b'0' + value,
        _ => b'A' + (value - 10),
    }
}

// Reads a line's bytes to the start of a list. Returns how many there are; none of a line that is too long, or has an odd digit or another
// character.
pub fn decode(line: &[u8], bytes: &mut [u8]) -> Option<usize>
    requires { 2000 ≤ length bytes.old }
    ensures bytes { option_map (λ n. take n bytes.new) result ≡ decoded line.now }
    ensures few { IfSome result (λ n. n ≤ 2000) }
{
    if line.len() > MAX_DIGITS {
        return None;
    }
    let (pairs, odd) = line.as_chunks::<2>();
    for (i, [high, low]) in pairs.iter().enumerate() {
        bytes[i] = digit_value(*high)? * 16 + digit_value(*low)?;
    }
    if odd.is_empty() {
        Some(pairs.len())
    } else {
        None
    }
}

// Writes the two digits of a byte from place `at` on.
pub fn put_byte(out: &mut [u8], at: usize, byte: u8)
    requires { at + 2 ≤ length out.old }
    ensures { out.new ≡ splice out.old at (byte_digits byte) }
{
    words::put(out, at, [digit_of(byte / 16), digit_of(byte % 16)]);
}

// Writes the digits of all bytes from place `at` on. Returns the place behind them.
pub fn put_digits(out: &mut [u8], at: usize, bytes: &[u8]) -> usize
    requires { at + 2 * length bytes.now ≤ length out.old }
    ensures end { result ≡ at + 2 * length bytes.now }
    ensures digits { out.new ≡ splice out.old at (digits_of bytes.now) }
{
    for (i, byte) in bytes.iter().enumerate() {
        put_byte(out, at + 2 * i, *byte);
    }
    at + 2 * bytes.len()
}
