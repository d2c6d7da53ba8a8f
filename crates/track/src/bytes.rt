// Numbers of a few bytes, read and written; the names of chunks.
ghost use Rattle.std.specs.Prelude.{◌≡◌, ◌+◌, ◌≤◌, ◌<◌, length};
ghost use Rattle.words.specs.Splice.{splice};
ghost use Rattle.midi.specs.Numbers as N;
ghost use Rattle.midi.specs.Numbers.{word16_bytes, word32_bytes};

// MThd, MTrk: the names of chunks.
pub const MTHD: u32 = 1297377380;

pub const MTRK: u32 = 1297379947;

// Writes a number as two bytes, high byte first, from place `at` on.
pub fn put_word16(out: &mut [u8], at: usize, n: u32)
    requires { (n < 65536) × (at + 2 ≤ length out.old) }
    ensures { out.new ≡ splice out.old at (word16_bytes n) }
{
    words::put(out, at, (n as u16).to_be_bytes());
}

// Writes a number as four bytes, high byte first, from place `at` on.
pub fn put_word32(out: &mut [u8], at: usize, n: u32)
    requires { at + 4 ≤ length out.old }
    ensures { out.new ≡ splice out.old at (word32_bytes n) }
{
    words::put(out, at, n.to_be_bytes());
}

// The number of two bytes at a position, high byte first.
pub fn word16(s: &[u8], at: usize) -> u32
    requires { at + 2 ≤ length s.now }
    ensures { (result ≡ N.word16 s.now at) × (result < 65536) }
{
    u32::from(u16::from_be_bytes([s[at], s[at + 1]]))
}

// The number of four bytes.
pub fn word32(s: &[u8], at: usize) -> u32
    requires { at + 4 ≤ length s.now }
    ensures { result ≡ N.word32 s.now at }
{
    u32::from_be_bytes([s[at], s[at + 1], s[at + 2], s[at + 3]])
}
