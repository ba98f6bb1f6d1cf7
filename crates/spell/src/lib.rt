// How leaves are spelled, and whether two are spelled alike: what an equality compares.
//
// Total over any bytes. A number is spelled into a buffer of 14 bytes, from its end.
#![tactic(auto)]

ghost use Rattle.std.specs.Prelude.{◌≡◌, ◌<◌, ◌≤◌, ◌-◌, ℕ, List, [], ◌∷◌, ◌++◌, length, take, drop, replicate};
ghost use Rattle.std.specs.Fn.{FnOnceReturnsAt};
ghost use Rattle.meaning.specs.Base.{same_text};
ghost use Rattle.meaning.specs.Spell.{digit, digits, letter, spelled_int, spelled_hex};
ghost use Rattle.spell.specs.Whole.{at_is, bytes_are};
ghost use Rattle.spell.specs.Leaves.{spelled_leaf, leaf_of_value};

use meaning::Value;
use std::marker::Model;

// A leaf as it was read: one of the three values, a text in the book, a text in the table, an int, a hex.
#[derive(Clone, Copy)]
pub enum Leaf {
    Three(u8),
    Note(usize, usize),
    Text(usize, usize),
    Int(i32),
    Hex(u32),
}

// The digit for a number below 16.
fn digit_of(d: u32) -> u8
    requires { d < 16 }
    ensures { result ≡ digit d }
{
    if d < 10 {
        b'0' + d as u8
    } else {
        b'a' + (d - 10) as u8
    }
}

// A number's spelling: the bytes from `at` on. What is put in front of it stands there; before that each byte is 0.
#[derive(Clone, Copy)]
pub struct Spelling {
    bytes: [u8; 14],
    at: usize,
}

impl Model for Spelling {
    ghost Value = { List ℕ };

    ghost view = { λ s. drop s.at s.bytes };

    ghost inverse = { λ l. record { bytes = replicate (14 - length l) 0 ++ l; at = 14 - length l } };

    ghost inverse_ok = { λ s h i. record {
      bytes = bytes_are s.bytes s.at h.0 h.1 h.2 i;
      at = at_is s.bytes s.at h.0 h.1 i;
    } };

    ghost invariant = { λ s. (s.at ≤ 14) × (length s.bytes ≡ 14) × (take s.at s.bytes ≡ replicate s.at 0) };
}

impl Spelling {
    // Nothing yet.
    fn empty() -> Spelling
        ensures { result ≡ [] }
    {
        Spelling {
            bytes: [0; 14],
            at: 14,
        }
    }

    // Puts a byte in front.
    fn push_front(&mut self, byte: u8)
        requires { length self.old < 14 }
        ensures { self.new ≡ byte ∷ self.old }
    {
        self.at -= 1;
        self.bytes[self.at] = byte;
    }

    // The digits of v in this base: 12 at most.
    #[tactic(auto, using(crate::proofs::Laws::last_digit, crate::proofs::Laws::next_digit, crate::proofs::Laws::no_digits))]
    fn digits<const BASE: u32>(v: u32) -> Spelling
        requires { (1 < BASE) × (BASE ≤ 16) }
        ensures text { result ≡ digits BASE 12 v [] }
        ensures short { length result ≤ 12 }
    {
        let mut spelling = Spelling::empty();
        let mut n = v;
        for _ in 0..12u32 {
            spelling.push_front(digit_of(n % BASE));
            if n < BASE {
                return spelling;
            }
            n /= BASE;
        }
        spelling
    }

    // 0x and the digits of v.
    fn hex(v: u32) -> Spelling
        ensures { result ≡ spelled_hex v }
    {
        let mut spelling = Spelling::digits::<16>(v);
        spelling.push_front(b'x');
        spelling.push_front(b'0');
        spelling
    }

    // The digits of v, behind a minus sign if it is below zero.
    fn int(v: i32) -> Spelling
        ensures { result ≡ spelled_int v }
    {
        let mut spelling = Spelling::digits::<10>(v.unsigned_abs());
        if v < 0 {
            spelling.push_front(b'-');
        }
        spelling
    }

    // The bytes spelled.
    pub fn text(&self) -> &[u8]
        ensures { result.now ≡ self.now }
    {
        &self.bytes[self.at..]
    }
}

// The decimal digits of v: 12 at most.
pub fn decimal(v: u32) -> Spelling
    ensures text { result ≡ digits 10 12 v [] }
    ensures short { length result ≤ 12 }
{
    Spelling::digits::<10>(v)
}

// Whether a and b are spelled alike.
pub fn same_spelling(m: &[u8], t: &[u8], a: Leaf, b: Leaf) -> bool
    ensures { result ≡ same_text (spelled_leaf m.now t.now a) (spelled_leaf m.now t.now b) }
{
    with_text(m, t, a, |x| with_text(m, t, b, |y| raw::same(x, y)))
}

// What f makes of the leaf's spelling.
fn with_text<R, F: FnOnce(&[u8]) -> R>(m: &[u8], t: &[u8], leaf: Leaf, f: F) -> R
    requires { F.IsAlwaysCallable f }
    ensures { FnOnceReturnsAt F.FnOnce f (spelled_leaf m.now t.now leaf) result }
{
    match leaf {
        Leaf::Three(v) => f(&[letter_of(v)]),
        Leaf::Note(at, n) => f(raw::part(m, at, n)),
        Leaf::Text(at, n) => f(raw::part(t, at, n)),
        Leaf::Int(v) => f(Spelling::int(v).text()),
        Leaf::Hex(v) => f(Spelling::hex(v).text()),
    }
}

// n, m or y.
pub fn letter_of(v: u8) -> u8
    ensures { result ≡ letter v }
{
    match v {
        0 => b'n',
        1 => b'm',
        _ => b'y',
    }
}

// An entry's value as a leaf.
impl From<Value> for Leaf {
    ghost from_gives = { λ value leaf. leaf ≡ leaf_of_value value };

    fn from(value: Value) -> Leaf {
        match value {
            Value::Three(v) => Leaf::Three(v),
            Value::Text(at, n) => Leaf::Text(at, n),
            Value::Int(z) => Leaf::Int(z),
            Value::Hex(h) => Leaf::Hex(h),
        }
    }
}
