// Sections: what the bytes that start with one hold there, and what is behind it.
ghost use Rattle.std.specs.Prelude.{◌≡◌, true, false, ◌≤◌, ◌<◌, ◌^◌, length, get_or, drop, MatchOption};
ghost use Rattle.coding.specs.Bytes.{number};
ghost use Rattle.coding.specs.Seen.{bits_in};
ghost use Rattle.coding.specs.Sections.{bytes_at, after_bytes, bits_at, after_bits, starts_bytes, starts_bits};

use crate::bits;
use crate::bits::Bits;

// The count that `s` starts with, and what is behind it.
fn counted(s: &[u8]) -> Option<(usize, &[u8])>
    ensures { MatchOption result (length s.now < 4) (λ p. (4 ≤ length s.now) × (p.0 ≡ number s.now) × (p.0 < 2 ^ 32) × (p.1.now ≡ drop 4 s.now)) }
{
    let (count, body) = s.split_first_chunk::<4>()?;
    Some((u32::from_le_bytes(*count) as usize, body))
}

// The section of bytes that `s` starts with, and what is behind it.
pub fn bytes(s: &[u8]) -> Option<(&[u8], &[u8])>
    ensures { MatchOption result (starts_bytes s.now ≡ false) (λ p. (starts_bytes s.now ≡ true) × (p.0.now ≡ bytes_at s.now) × (p.1.now ≡ after_bytes s.now)) }
{
    let (count, body) = counted(s)?;
    body.split_at_checked(count)
}

// Byte i of a section; beyond the end, 0.
pub fn byte(s: &[u8], i: usize) -> u32
    ensures { (result ≡ get_or s.now i 0) × (result < 256) }
{
    s.get(i).copied().unwrap_or(0) as u32
}

// The section of bytes that `f` has from `at` on, and what is behind it; beyond the end there is none.
pub fn bytes_from(f: &[u8], at: usize) -> Option<(&[u8], &[u8])>
    ensures { MatchOption result (starts_bytes (drop at f.now) ≡ false) (λ p. (starts_bytes (drop at f.now) ≡ true) × (p.0.now ≡ bytes_at (drop at f.now)) × (p.1.now ≡ after_bytes (drop at f.now))) }
{
    bytes(f.get(at..)?)
}

// The section of bits that `s` starts with, and what is behind it.
pub fn bits(s: &[u8]) -> Option<(Bits<'_>, &[u8])>
    ensures { MatchOption result (starts_bits s.now ≡ false) (λ p. (starts_bits s.now ≡ true) × (bits_in p.0 ≡ bits_at s.now) × (p.1.now ≡ after_bits s.now)) }
{
    let (count, body) = counted(s)?;
    let (_, rest) = body.split_at_checked(count.div_ceil(8))?;
    if bits::clear_behind(body, count) {
        return Some((Bits::new(body, count), rest));
    }
    None
}

// The section of bits that `f` has from `at` on, and what is behind it; beyond the end there is none.
pub fn bits_from(f: &[u8], at: usize) -> Option<(Bits<'_>, &[u8])>
    ensures { MatchOption result (starts_bits (drop at f.now) ≡ false) (λ p. (starts_bits (drop at f.now) ≡ true) × (bits_in p.0 ≡ bits_at (drop at f.now)) × (p.1.now ≡ after_bits (drop at f.now))) }
{
    bits(f.get(at..)?)
}
