// The configuration table: is it readable, and what stands at a symbol.
//
// Total over any bytes. Answers 5 and 6 come from `fault`; `entry` is an entry as that reads it, found or refused; `value` is
// what stands at a symbol, n where nothing does.
#![tactic(auto)]

ghost use Rattle.std.specs.Prelude.{◌≡◌, ◌<◌, ◌^◌, IfSome, IfNone};
ghost use Rattle.entries.specs.Numbers.{number_of, ReadsKind};
ghost use Rattle.meaning.specs.Table.{entries as entries_of, kind_of, length_of, start_of, body_due, length_fits, byte_fits, entry_ok};
ghost use Rattle.meaning.specs.Table.{contents_fault, entry_at, bodies_fault, table_fault, signed_of, read_of, entry_of, value_of};

use meaning::{Outcome, Refusal, Value, refuse_if, turns};
use tri::Tri;

// An entry's kind, each by the number that a table has for it.
#[derive(Clone, Copy, PartialEq, Eq)]
enum Kind {
    Three = 0,
    Text = 1,
    Int = 2,
    Hex = 3,
}

// A byte that no kind has for its number.
#[derive(Clone, Copy, PartialEq, Eq)]
struct Unknown(u8);

impl TryFrom<u8> for Kind {
    type Error = Unknown;

    ghost try_from_gives = { ReadsKind };

    fn try_from(byte: u8) -> Result<Self, Unknown> {
        match byte {
            0 => Ok(Kind::Three),
            1 => Ok(Kind::Text),
            2 => Ok(Kind::Int),
            3 => Ok(Kind::Hex),
            _ => Err(Unknown(byte)),
        }
    }
}

// How many entries a table says it has.
pub fn entries(t: &[u8]) -> usize
    ensures { (result ≡ entries_of t.now) × (result < 65536) }
{
    raw::half(t, 2)
}

// An entry's kind; none where its byte is above the last kind's number.
fn kind_of(t: &[u8], s: usize) -> Option<Kind>
    requires { s < 2 ^ 32 }
    ensures some { IfSome result (λ kind. number_of kind ≡ kind_of t.now s) }
    ensures none { IfNone result (3 < kind_of t.now s) }
{
    Kind::try_from(raw::byte(t, 4 + 4 * s)).ok()
}

// How long an entry's body is.
fn length(t: &[u8], s: usize) -> usize
    requires { s < 2 ^ 32 }
    ensures { (result ≡ length_of t.now s) × (result < 256) }
{
    usize::from(raw::byte(t, 4 + 4 * s + 1))
}

// Where an entry's body starts.
fn start(t: &[u8], s: usize) -> usize
    requires { s < 2 ^ 32 }
    ensures { (result ≡ start_of t.now s) × (result < 65536) }
{
    raw::half(t, 4 + 4 * s + 2)
}

// Where the body of entry s must start, of n: behind the one before it.
#[tactic(auto, unfolding(meaning::specs::Table::body_due))]
fn body_due(t: &[u8], n: usize, s: usize) -> usize
    requires { (n < 2 ^ 32) × (s < 2 ^ 32) }
    ensures { result ≡ body_due t.now n s }
{
    if s == 0 {
        return 4 + 4 * n;
    }
    start(t, s - 1) + length(t, s - 1)
}

// Whether a body of a kind may be l bytes long.
#[tactic(auto, unfolding(meaning::specs::Table::length_fits, meaning::specs::Base::pick))]
fn length_fits(kind: Kind, l: usize) -> bool
    ensures { result ≡ length_fits (number_of kind) l }
{
    match kind {
        Kind::Three => l == 1,
        Kind::Text => l <= 64,
        Kind::Int | Kind::Hex => l == 4,
    }
}

// Whether a body of a kind may begin with byte b.
fn byte_fits(kind: Kind, b: u8) -> bool
    ensures { result ≡ byte_fits (number_of kind) b }
{
    (kind != Kind::Three) | (b <= 2)
}

// Whether entry s, of n, is well formed.
#[tactic(auto, unfolding(meaning::specs::Table::entry_ok, meaning::specs::Table::length_fits, meaning::specs::Base::pick))]
fn entry_ok(t: &[u8], n: usize, s: usize) -> bool
    requires { (n < 2 ^ 32) × (s < 2 ^ 32) }
    ensures { result ≡ entry_ok t.now n s }
{
    let Some(kind) = kind_of(t, s) else {
        return false;
    };
    let l = length(t, s);
    let at = start(t, s);
    length_fits(kind, l)
        & (at == body_due(t, n, s))
        & (at + l <= t.len())
        & byte_fits(kind, raw::byte(t, at))
}

// A word as a signed number in two's complement.
pub fn signed(u: u32) -> i32
    ensures { result ≡ signed_of u }
{
    if u < 2147483648 {
        u as i32
    } else {
        !((4294967295 - u) as i32)
    }
}

// What stands at symbol s.
#[tactic(auto, unfolding(meaning::specs::Table::read_of, meaning::specs::Base::pick))]
pub fn value(t: &[u8], s: usize) -> Value
    requires { s < 2 ^ 32 }
    ensures { result ≡ read_of t.now s }
{
    if entries(t) <= s {
        return Value::Three(0);
    }
    let at = start(t, s);
    match kind_of(t, s) {
        Some(Kind::Three) => Value::Three(Tri::from(raw::byte(t, at)).v),
        Some(Kind::Text) => Value::Text(at, length(t, s)),
        Some(Kind::Int) => Value::Int(signed(raw::word(t, at))),
        Some(Kind::Hex) => Value::Hex(raw::word(t, at)),
        None => Value::Three(0),
    }
}

// The entry of symbol s, of n: none where it is refused.
#[tactic(auto, unfolding(meaning::specs::Table::entry_of, meaning::specs::Base::pick))]
pub fn entry(t: &[u8], n: usize, s: usize) -> Option<Value>
    requires { (n < 2 ^ 32) × (s < 2 ^ 32) }
    ensures { result ≡ entry_of t.now n s }
{
    entry_ok(t, n, s).then_some(value(t, s))
}

// A symbol's value as one of the three: n where it is of another kind.
#[tactic(auto, unfolding(meaning::specs::Table::value_of, meaning::specs::Table::content_of, meaning::specs::Table::read_of, meaning::specs::Base::pick))]
pub fn three(t: &[u8], s: usize) -> Tri
    requires { s < 2 ^ 32 }
    ensures { result.v ≡ value_of t.now s }
{
    if entries(t) <= s {
        return Tri::N;
    }
    match kind_of(t, s) {
        Some(Kind::Three) => Tri::from(raw::byte(t, start(t, s))),
        _ => Tri::N,
    }
}

// 5: short, a wrong total or count, or the contents cut.
#[tactic(auto, unfolding(meaning::specs::Table::contents_fault, meaning::specs::Base::when))]
fn contents_fault(t: &[u8], n: usize) -> Outcome
    requires { n < 2 ^ 32 }
    ensures { result ≡ contents_fault t.now n }
{
    let l = t.len();
    let bad = (l < 4) | (raw::half(t, 0) != l) | (entries(t) != n) | (l < 4 + 4 * n);
    refuse_if(bad, Refusal::Contents, 0)
}

// 6 at symbol s, if its entry is refused.
#[tactic(auto, unfolding(meaning::specs::Table::entry_at, meaning::specs::Table::entry_of, meaning::specs::Base::when, meaning::specs::Base::pick))]
fn entry_at(t: &[u8], n: usize, s: usize) -> Outcome
    requires { (n < 65536) × (s < 65536) }
    ensures { result ≡ entry_at t.now n s }
{
    refuse_if(entry(t, n, s).is_none(), Refusal::Entry, s)
}

// 5, last: the bodies end before the total.
#[tactic(auto, unfolding(meaning::specs::Table::bodies_fault, meaning::specs::Base::when))]
fn bodies_fault(t: &[u8], n: usize) -> Outcome
    requires { n < 2 ^ 32 }
    ensures { result ≡ bodies_fault t.now n }
{
    let bad = body_due(t, n, n) != t.len();
    refuse_if(bad, Refusal::Contents, 0)
}

// The first fault of a table for n symbols: 5 and 6.
#[tactic(auto, unfolding(meaning::specs::Table::table_fault, meaning::specs::Base::or_else))]
pub fn fault(t: &[u8], n: usize) -> Outcome
    requires { n < 65536 }
    ensures { result ≡ table_fault t.now n }
{
    contents_fault(t, n)?;
    turns::first_fault(n, |s| entry_at(t, n, s))?;
    bodies_fault(t, n)
}
