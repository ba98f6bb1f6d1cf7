// Rules 11 to 14 for all symbols, by blocks of 96.
//
// Total over any bytes: the node work has the nodes' values. For each block one pass over the selects works out Lower of its symbols, one
// over the defaults finds the first of each that applies. One pass over the ranges finds the first symbol that breaks one.
#![tactic(auto)]

ghost use Rattle.std.specs.Prelude.{◌≡◌, [], ◌+◌, ◌-◌, ◌<◌, ◌≤◌, SomeIff, ltb};
ghost use Rattle.tri.specs.Three.{or_of};
ghost use Rattle.meaning.specs.Base.{Clean};
ghost use Rattle.meaning.specs.Base.{pick, first_below};
ghost use Rattle.meaning.specs.Book.{symbols as symbols_of, default_value};
ghost use Rattle.meaning.specs.Table.{a_text};
ghost use Rattle.meaning.specs.Values.{val, leaf_of, given as given_of, condition_value, lower_of};
ghost use Rattle.meaning.specs.Rules.{symbol_fault};
ghost use Rattle.spell.specs.Leaves.{leaf_content};
ghost use Rattle.blocks.specs.Rows.{first_default, chosen, own_fault};

use meaning::Outcome;
use spell::Leaf;
use tri::Tri;
use values::Valued;

// How many symbols a block has at most.
const BLOCK: usize = 96;

// Where s stands among the symbols of the block from base on, if it is one of them. One comparison tells, where `checked_sub` and a filter
// take two, and a fair book's check 5% more instructions.
fn place(s: usize, base: usize) -> Option<usize>
    requires { (s < 65536) × (base < 65536) }
    ensures { SomeIff result ((base ≤ s) × (s - base < 96)) (s - base) }
{
    let i = s.wrapping_sub(base);
    (i < BLOCK).then_some(i)
}

// Lower so far of a symbol, with select k added, which is on it.
fn raised(x: &Valued, k: usize, low: u8) -> u8
    requires { k < 65536 }
    ensures { result ≡ or_of low (given_of x.now.model.now x.now.table.now x.now.work.now k) }
{
    let old = Tri { v: low };
    old.or(x.given(k)).v
}

// The first default so far of a symbol, from the last default on, covered by d, which is on it, if that applies.
#[tactic(auto, using(tri::proofs::Order::below))]
fn covered(x: &Valued, d: usize, later: u16) -> u16
    requires { d < 65535 }
    ensures { result ≡ pick (ltb 0 (condition_value x.now.model.now x.now.work.now d)) (d + 1) later }
{
    if Tri::N < x.node(fields::default_condition(x.model, d)) {
        return (d + 1) as u16;
    }
    later
}

// Default of a boolean or tristate symbol, by its first default that applies.
fn default_three(x: &Valued, first: u16) -> Tri
    ensures { result.v ≡ chosen (λ d. val x.now.work.now (default_value x.now.model.now d)) 0 first }
{
    match usize::from(first).checked_sub(1) {
        Some(d) => x.node(fields::default_value(x.model, d)),
        None => Tri::N,
    }
}

// Default of a string, int or hex symbol, by its first default that applies.
#[tactic(auto, unfolding(meaning::specs::Base::part))]
fn default_leaf(x: &Valued, first: u16) -> Leaf
    ensures { leaf_content x.now.model.now x.now.table.now result ≡ chosen (λ d. leaf_of x.now.model.now x.now.table.now (default_value x.now.model.now d)) (a_text []) first }
{
    match usize::from(first).checked_sub(1) {
        Some(d) => x.leaf(fields::default_value(x.model, d)),
        None => Leaf::Note(0, 0),
    }
}

// 11, 12 and 13 of s by its type, its Lower and its first default that applies.
fn own_fault(x: &Valued, s: usize, low: u8, first: u16) -> Outcome
    requires { (s < 65536) × (low ≡ lower_of x.now.model.now x.now.table.now x.now.work.now s) × (first ≡ first_default x.now.model.now x.now.work.now s) }
    ensures { result ≡ own_fault x.now.model.now x.now.table.now x.now.work.now s }
{
    if fields::is_three(x.model, s) {
        return symbol_rules::three_by(x, s, default_three(x, first), Tri { v: low });
    }
    symbol_rules::other_by(x, s, default_leaf(x, first))
}

// 11, 12 and 13 of the symbols below end, where those below base keep them and at most a block is left. The two passes go over other records,
// in other directions, into rooms of other types: one function for both would take three closures, and be no plainer.
fn block_fault(x: &Valued, base: usize, end: usize) -> Outcome
    requires { (base ≤ end) × (end ≤ base + 96) × (end < 65536) × (first_below (own_fault x.now.model.now x.now.table.now x.now.work.now) base ≡ Clean) }
    ensures { result ≡ first_below (own_fault x.now.model.now x.now.table.now x.now.work.now) end }
{
    let m = x.model;
    let mut low = [0u8; BLOCK];
    let selects = fields::selects(m);
    let selects_at = fields::start(m, 4);
    for k in 0..selects {
        if let Some(i) = place(fields::target_from(m, selects_at, k), base) {
            low[i] = raised(x, k, low[i]);
        }
    }
    // One more than the number of the first default, 0 for none: as options these would take 192 bytes more of the stack, of which a table check
    // has 936 now and 1,023 at most.
    let mut first = [0u16; BLOCK];
    let defaults = fields::defaults(m);
    let defaults_at = fields::start(m, 3);
    for d in (0..defaults).rev() {
        if let Some(i) = place(fields::default_symbol_from(m, defaults_at, d), base) {
            first[i] = covered(x, d, first[i]);
        }
    }
    for s in base..end {
        let i = s - base;
        own_fault(x, s, low[i], first[i])?;
    }
    Ok(())
}

// 11, 12 and 13 of the symbols below n, block by block.
fn own_faults(x: &Valued, n: usize) -> Outcome
    requires { n < 65536 }
    ensures { result ≡ first_below (own_fault x.now.model.now x.now.table.now x.now.work.now) n }
{
    for base in (0..n).step_by(BLOCK) {
        block_fault(x, base, n.min(base + BLOCK))?;
    }
    Ok(())
}

// 11 to 14, symbol by symbol: none behind the first that breaks a range is looked at.
pub fn fault(x: &Valued) -> Outcome
    ensures { result ≡ first_below (symbol_fault x.now.model.now x.now.table.now x.now.work.now) (symbols_of x.now.model.now) }
{
    let n = fields::symbols(x.model);
    match symbol_rules::first_off(x) {
        Some(off) if off < n => {
            own_faults(x, off + 1)?;
            symbol_rules::ranges_fault(x, off)
        }
        _ => own_faults(x, n),
    }
}
