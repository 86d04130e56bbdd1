// Little-endian fields of 2 and 4 bytes in a slice of bytes, and slices of words.
#![tactic(auto)]

ghost use Rattle.std.specs.Prelude.{◌≡◌, ◌+◌, ◌<◌, ◌≤◌, length, replicate};
ghost use Rattle.std.proofs.lemmas.List.Edits.{sets};
ghost use Rattle.model.specs.Bytes.{u16, u32, put16 as bytes16, put32 as bytes32};

pub mod pair;

// The 2-byte field that begins at byte i.
pub fn u16_at(s: &[u8], i: usize) -> u16
    requires { i + 1 < length s.now }
    ensures { result ≡ u16 s.now i }
{
    u16::from(s[i]) + 256 * u16::from(s[i + 1])
}

// The 4-byte field that begins at byte i. It is two of 2 bytes; one function for both sizes would be a loop over bytes.
pub fn u32_at(s: &[u8], i: usize) -> u32
    requires { i + 3 < length s.now }
    ensures { result ≡ u32 s.now i }
{
    u32::from(u16_at(s, i)) + 65536 * u32::from(u16_at(s, i + 2))
}

// Every word of s becomes value. The slice's own `fill` takes longer: route searches on small maps take up to a fifth more with it.
pub fn fill(s: &mut [u32], value: u32)
    ensures { s.new ≡ replicate (length s.old) value }
{
    for word in s {
        *word = value;
    }
}

// Writes the low 16 bits of x as the 2-byte field that begins at byte i.
pub fn put16(s: &mut [u8], i: usize, x: u32)
    requires { i + 1 < length s.old }
    ensures { s.new ≡ sets s.old i (bytes16 x) }
{
    s[i] = (x % 256) as u8;
    s[i + 1] = (x / 256 % 256) as u8;
}

// Writes a number as the 4-byte field that begins at byte i.
pub fn put32(s: &mut [u8], i: usize, x: u32)
    requires { i + 3 < length s.old }
    ensures { s.new ≡ sets s.old i (bytes32 x) }
{
    put16(s, i, x);
    put16(s, i + 2, x / 65536);
}

// Writes bytes one after another, the first at byte i. By a loop: `copy_from_slice` would ask whoever links an archive for memcpy and memmove.
pub fn put_bytes(s: &mut [u8], i: usize, bytes: &[u8])
    requires { i + length bytes.now ≤ length s.old }
    ensures { s.new ≡ sets s.old i bytes.now }
{
    for (k, byte) in bytes.iter().enumerate() {
        s[i + k] = *byte;
    }
}
