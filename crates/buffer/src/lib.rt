// Writers into a lent buffer. Each writes at a place, answers the next place, and promises by `Wrote` what the buffer holds then. And the reader of the two-byte
// numbers that they write.
#![tactic(auto)]

ghost use Rattle.std.specs.Prelude.{◌≡◌, ◌+◌, ◌-◌, ◌<◌, ◌≤◌, [], ◌∷◌, length, take, drop};
ghost use Rattle.calculus.specs.Bytes.{two_byte_values, two_bytes, word};
ghost use Rattle.buffer.specs.Written.{Wrote};

// The two-byte number at `at`, the lower byte first.
pub fn word_at(s: &[u8], at: usize) -> usize
    requires { at + 2 ≤ length s.now }
    ensures { (result ≡ word s.now at) × (result < two_byte_values) }
{
    usize::from(u16::from_le_bytes([s[at], s[at + 1]]))
}

// Writes one byte.
pub fn put_byte(out: &mut [u8], at: usize, byte: u8) -> usize
    requires { at < length out.old }
    ensures { Wrote out.old at (byte ∷ []) out.new result }
{
    out[at] = byte;
    at + 1
}

// Writes n in two bytes, the lower first.
pub fn put_u16(out: &mut [u8], at: usize, n: usize) -> usize
    requires { (at + 2 ≤ length out.old) × (n < two_byte_values) }
    ensures { Wrote out.old at (two_bytes n) out.new result }
{
    put_bytes(out, at, &(n as u16).to_le_bytes())
}

// Writes all of src, byte by byte: the machine moves several at once, and the library's copy would call a function of the C library for each few bytes.
pub fn put_bytes(out: &mut [u8], at: usize, src: &[u8]) -> usize
    requires { at + length src.now ≤ length out.old }
    ensures { Wrote out.old at src.now out.new result }
{
    for i in 0..src.len() {
        out[at + i] = src[i];
    }
    at + src.len()
}

// Writes the part of src from `from` to `to`.
pub fn put_part(out: &mut [u8], at: usize, src: &[u8], from: usize, to: usize) -> usize
    requires { (from ≤ to) × ((to ≤ length src.now) × (at + (to - from) ≤ length out.old)) }
    ensures { Wrote out.old at (take (to - from) (drop from src.now)) out.new result }
{
    put_bytes(out, at, &src[from..to])
}
