// Reads, a store and a comparison of bytes that are total: no index to prove.
//
// Past a slice's end a byte is 0, a part has as much as there is, and a store changes nothing.
#![tactic(auto)]

ghost use Rattle.std.specs.Prelude.{◌≡◌, ◌+◌, ◌*◌, ◌<◌, get_or, set};
ghost use Rattle.meaning.specs.Base.{Fault, when, half as half_of, word as word_of, part as part_of, same_text};

use meaning::{Outcome, Refusal, refuse_with_if};

// The byte at i.
pub fn byte(s: &[u8], i: usize) -> u8
    ensures { result ≡ get_or s.now i 0 }
{
    s.get(i).copied().unwrap_or(0)
}

// Two bytes as a number, the lower first.
fn joined(low: u8, high: u8) -> usize
    ensures { (result ≡ low + 256 * high) × (result < 65536) }
{
    usize::from(u16::from_le_bytes([low, high]))
}

// The u16 at i. Each branch tells that i + 1 is a number: a read by slice patterns loses that.
pub fn half(s: &[u8], i: usize) -> usize
    ensures { (result ≡ half_of s.now i) × (result < 65536) }
{
    if s.len() < 2 {
        return usize::from(byte(s, i));
    }
    if i < s.len() - 1 {
        return joined(s[i], s[i + 1]);
    }
    usize::from(byte(s, i))
}

// Two halves as a number, the lower first.
pub fn joined_halves(low: usize, high: usize) -> u32
    requires { (low < 65536) × (high < 65536) }
    ensures { (result ≡ low + 65536 * high) × (result < 4294967296) }
{
    (low + 65536 * high) as u32
}

// The four bytes at i.
pub fn word(s: &[u8], i: usize) -> u32
    ensures { (result ≡ word_of s.now i) × (result < 4294967296) }
{
    if s.len() <= i {
        return 0;
    }
    let next = i + 1;
    if s.len() <= next {
        return joined_halves(half(s, i), 0);
    }
    joined_halves(half(s, i), half(s, next + 1))
}

// Writes v at i.
pub fn put(s: &mut [u8], i: usize, v: u8)
    ensures { s.new ≡ set s.old i v }
{
    if i < s.len() {
        s[i] = v;
    }
}

// The n bytes from `at` on.
pub fn part(s: &[u8], at: usize, n: usize) -> &[u8]
    ensures { result.now ≡ part_of s.now at n }
{
    let from = at.min(s.len());
    let end = from + n.min(s.len() - from);
    &s[from..end]
}

// Whether two texts have the same bytes.
pub fn same(a: &[u8], b: &[u8]) -> bool
    ensures { result ≡ same_text a.now b.now }
{
    a == b
}

// A fault where `bad` holds, for whoever has its number and not the refusal's name.
#[tactic(auto, using(meaning::proofs::Refused::number_back))]
pub fn fault_if(bad: bool, number: u16, place: usize, second: usize) -> Outcome
    requires { (place < 65536) × (second < 65536) }
    ensures { result ≡ when bad (Fault number place second) }
{
    refuse_with_if(bad, Refusal::from(number), place, second)
}
