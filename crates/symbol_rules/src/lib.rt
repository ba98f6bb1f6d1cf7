// Rules 10 to 14 at one symbol.
//
// Total over any bytes: the node work has the nodes' values, and the caller knows a symbol's Default and Lower. A symbol's number is below 2^16.
#![tactic(auto)]

ghost use Rattle.std.specs.Prelude.{◌≡◌, ◌<◌, ◌≤◌, ℕ, List};
ghost use Rattle.meaning.specs.Base.{Clean, Fault};
ghost use Rattle.meaning.specs.Base.{when, first_below};
ghost use Rattle.meaning.specs.Table.{content_in, content_of, value_of, a_text};
ghost use Rattle.meaning.specs.Values.{prompt_value};
ghost use Rattle.meaning.specs.Book.{ranges as ranges_of, type_of};
ghost use Rattle.meaning.specs.Rules.{type_fits, same_content, within, broken13_content, three_tests, test10, test14};
ghost use Rattle.spell.specs.Leaves.{leaf_content};
ghost use Rattle.symbol_rules.specs.Ranges.{FirstOff};

use fields::SymbolType;
use meaning::{Outcome, Refusal, Value, refuse_if, refuse_with_if, turns};
use spell::Leaf;
use tri::Tri;
use values::Valued;

// Whether symbol s takes the value v of table t: m is no boolean's, and an int or a hex may be the empty string.
#[tactic(auto, using(crate::proofs::Laws::no_type))]
fn type_fits(m: &[u8], t: &[u8], s: usize, v: Value) -> bool
    requires { s < 65536 }
    ensures { result ≡ type_fits (type_of m.now s) (content_in t.now v) }
{
    let Some(kind) = fields::symbol_type(m, s) else {
        return false;
    };
    match v {
        Value::Three(x) => match kind {
            SymbolType::Boolean => x != 1,
            SymbolType::Tristate => true,
            _ => false,
        },
        Value::Text(at, n) => match kind {
            SymbolType::Text => true,
            SymbolType::Int | SymbolType::Hex => raw::part(t, at, n).is_empty(),
            _ => false,
        },
        Value::Int(_) => kind == SymbolType::Int,
        Value::Hex(_) => kind == SymbolType::Hex,
    }
}

// 10 at s, if its entry does not fit its type.
#[tactic(auto, unfolding(meaning::specs::Rules::test10, meaning::specs::Table::content_of))]
pub fn type_fault(m: &[u8], t: &[u8], s: usize) -> Outcome
    requires { s < 65536 }
    ensures { result ≡ test10 m.now t.now s }
{
    let bad = !type_fits(m, t, s, entries::value(t, s));
    refuse_if(bad, Refusal::Typed, s)
}

// 11, 12 and 13 in turn, of a boolean or tristate symbol with this value, prompt, Default and Lower.
#[tactic(auto, using(tri::proofs::Order::below, tri::proofs::Order::up_to), unfolding(meaning::specs::Rules::three_tests, meaning::specs::Base::or_else, meaning::specs::Base::when))]
fn three_tests(s: usize, v: Tri, p: Tri, d: Tri, low: Tri) -> Outcome
    requires { s < 65536 }
    ensures { result ≡ three_tests s v.v p.v d.v low.v }
{
    refuse_if(v < low, Refusal::Lower, s)?;
    refuse_if((Tri::N < p) & (low <= p) & (p < v), Refusal::Upper, s)?;
    refuse_if((p == Tri::N) & (v != d.or(low)), Refusal::Default, s)
}

// 11, 12 or 13 at s, a boolean or tristate symbol, by its Default and Lower.
pub fn three_by(x: &Valued, s: usize, d: Tri, low: Tri) -> Outcome
    requires { s < 65536 }
    ensures { result ≡ three_tests s (value_of x.now.table.now s) (prompt_value x.now.model.now x.now.work.now s) d.v low.v }
{
    let v = entries::three(x.table, s);
    let p = x.node(fields::prompt_of(x.model, s));
    three_tests(s, v, p, d, low)
}

// Whether leaf b is the text.
fn same_text(text: &[u8], x: &Valued, b: Leaf) -> bool
    ensures { result ≡ same_content (a_text text.now) (leaf_content x.now.model.now x.now.table.now b) }
{
    match b {
        Leaf::Note(at, n) => raw::same(text, raw::part(x.model, at, n)),
        Leaf::Text(at, n) => raw::same(text, raw::part(x.table, at, n)),
        _ => false,
    }
}

// Whether two leaves are of one kind and content.
fn same_content(x: &Valued, a: Leaf, b: Leaf) -> bool
    ensures { result ≡ same_content (leaf_content x.now.model.now x.now.table.now a) (leaf_content x.now.model.now x.now.table.now b) }
{
    match (a, b) {
        (Leaf::Three(v), Leaf::Three(w)) => v == w,
        (Leaf::Int(z), Leaf::Int(w)) => z == w,
        (Leaf::Hex(g), Leaf::Hex(h)) => g == h,
        (Leaf::Note(at, n), _) => same_text(raw::part(x.model, at, n), x, b),
        (Leaf::Text(at, n), _) => same_text(raw::part(x.table, at, n), x, b),
        _ => false,
    }
}

// 13 at s, a string, int or hex symbol, by its Default.
#[tactic(auto, unfolding(meaning::specs::Table::content_of, meaning::specs::Values::prompt_value))]
pub fn other_by(x: &Valued, s: usize, d: Leaf) -> Outcome
    requires { s < 65536 }
    ensures { result ≡ when (broken13_content (content_of x.now.table.now s) (prompt_value x.now.model.now x.now.work.now s) (leaf_content x.now.model.now x.now.table.now d)) (Fault 13 s 65535) }
{
    let v = Leaf::from(entries::value(x.table, s));
    let p = x.node(fields::prompt_of(x.model, s));
    let bad = (p == Tri::N) & !same_content(x, v, d);
    refuse_if(bad, Refusal::Default, s)
}

// Whether v lies from low to high: three ints, or three hexes, whatever book and table they stand in.
fn within(low: Leaf, high: Leaf, v: Leaf) -> bool
    ensures { (m t : List ℕ) → result ≡ within (leaf_content m t low) (leaf_content m t high) (leaf_content m t v) }
{
    match (low, v, high) {
        (Leaf::Int(a), Leaf::Int(z), Leaf::Int(b)) => (a <= z) & (z <= b),
        (Leaf::Hex(a), Leaf::Hex(h), Leaf::Hex(b)) => (a <= h) & (h <= b),
        _ => false,
    }
}

// 14 at s, if range r is on it and broken.
fn range_at(x: &Valued, s: usize, r: usize) -> Outcome
    requires { (s < 65536) × (r < 65536) }
    ensures { result ≡ test14 x.now.model.now x.now.table.now x.now.work.now s r }
{
    if fields::range_symbol(x.model, r) != s {
        return Ok(());
    }
    let v = Leaf::from(entries::value(x.table, s));
    let condition = x.node(fields::range_condition(x.model, r));
    let low = x.leaf(fields::low_of(x.model, r));
    let high = x.leaf(fields::high_of(x.model, r));
    let bad = (Tri::N < condition) & !within(low, high, v);
    refuse_with_if(bad, Refusal::Range, s, r)
}

// 14 at s: the first range on it that is broken.
#[tactic(auto, unfolding(meaning::specs::Base::first_below))]
pub fn ranges_fault(x: &Valued, s: usize) -> Outcome
    requires { s < 65536 }
    ensures { result ≡ first_below (test14 x.now.model.now x.now.table.now x.now.work.now s) (ranges_of x.now.model.now) }
{
    turns::first_fault(fields::ranges(x.model), |r| range_at(x, s, r))
}

// The first symbol that has a broken range, if one has.
pub fn first_off(x: &Valued) -> Option<usize>
    ensures { FirstOff x.now.model.now x.now.table.now x.now.work.now (ranges_of x.now.model.now) result }
{
    let mut first = None;
    for r in 0..fields::ranges(x.model) {
        let s = fields::range_symbol(x.model, r);
        let earlier = first.is_none_or(|off| s < off);
        if earlier && range_at(x, s, r).is_err() {
            first = Some(s);
        }
    }
    first
}
