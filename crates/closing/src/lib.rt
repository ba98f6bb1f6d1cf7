// The closing of a clearance's leaf: its rule is broken, or for mark 20 the select not unmet, under every independent pick.
//
// Total over any book and any sets; `closed_on` is what the walk calls, and whoever else has the sets of a path.
#![tactic(auto)]

ghost use Rattle.std.specs.Prelude.{◌≡◌, ◌<◌, ℕ, Bool, leb};
ghost use Rattle.meaning.specs.Book.{member_count, member_of};
ghost use Rattle.meaning.specs.Rules.{at_least};
ghost use Rattle.meaning.specs.Sets.{every, sat, node_sets};
ghost use Rattle.meaning.specs.Clearance.{closed11, closed12, closed13, closed15, closed17, closed18, closed20, closed as closed_of, closed_on};
ghost use Rattle.sets.specs.Work.{blank_of};
ghost use Rattle.sets.specs.Paths.{Stays, all_sets};
ghost use Rattle.closing.specs.Marks.{ReadsMark};
ghost use Rattle.closing.specs.Picks.{Tells, TellsPick, Bounds};

use fields::Unknown;
use meaning::turns;
use sets::{Path, Set};

// What a clearance's leaf says of its place, each by the number that a finding has for it: a rule that is broken, or a select that is met.
#[derive(Clone, Copy, PartialEq, Eq)]
pub enum Mark {
    Lower = 11,
    Upper = 12,
    Default = 13,
    One = 15,
    Mandatory = 17,
    Modules = 18,
    Met = 20,
}

impl TryFrom<u8> for Mark {
    type Error = Unknown;

    ghost try_from_gives = { ReadsMark };

    fn try_from(byte: u8) -> Result<Self, Unknown> {
        match byte {
            11 => Ok(Mark::Lower),
            12 => Ok(Mark::Upper),
            13 => Ok(Mark::Default),
            15 => Ok(Mark::One),
            17 => Ok(Mark::Mandatory),
            18 => Ok(Mark::Modules),
            20 => Ok(Mark::Met),
            _ => Err(Unknown(byte)),
        }
    }
}

// Whether a test holds under every pick of a value from a set: left by label at the first where it does not.
fn every<F: Fn(u8) -> bool>(set: Set, holds: F) -> bool
    requires { F.IsAlwaysCallable holds }
    ensures { (p : ℕ → Bool) → Tells (F.post holds) p → result ≡ every set.bits p }
{
    let mut all = true;
    'values: for v in 0u8..3 {
        if set.has(v) {
            if !holds(v) {
                all = false;
                break 'values;
            }
        }
    }
    all
}

// Whether a test holds under every pick of four values, each from a set of its own, left by label at the first where it does not. What a rule
// does not read is picked from {n}.
fn every_pick<F: Fn(u8, u8, u8, u8) -> bool>(a: Set, b: Set, c: Set, e: Set, holds: F) -> bool
    requires { F.IsAlwaysCallable holds }
    ensures { (t : ℕ → ℕ → ℕ → ℕ → Bool) → TellsPick (F.post holds) t → result ≡ every a.bits (λ v. every b.bits (λ p. every c.bits (λ d. every e.bits (t v p d)))) }
{
    let mut all = true;
    'picks: for v in 0u8..3 {
        if a.has(v) {
            for p in 0u8..3 {
                if b.has(p) {
                    for d in 0u8..3 {
                        if c.has(d) {
                            for l in 0u8..3 {
                                if e.has(l) {
                                    if !holds(v, p, d, l) {
                                        all = false;
                                        break 'picks;
                                    }
                                }
                            }
                        }
                    }
                }
            }
        }
    }
    all
}

// How many members of choice c are at least k, each by one bound of what it may be.
fn at_least<F: Fn(Set) -> u8>(m: &[u8], ys: &[u8], c: usize, k: u8, bound: F) -> usize
    requires choice { c < 65536 }
    requires callable { F.IsAlwaysCallable bound }
    ensures { (g : ℕ → ℕ) → Bounds (F.post bound) g → result ≡ at_least (λ j. g (sat ys.now (member_of m.now c j))) (member_count m.now c) k }
{
    turns::count(
        fields::member_count(m, c),
        |j|
            requires { (c < 65536) × (j < 65536) × F.IsAlwaysCallable bound }
            ensures { (g : ℕ → ℕ) → Bounds (F.post bound) g → result ≡ leb k (g (sat ys.entry.now (member_of m.entry.now c j))) }
        { k <= bound(sets::at(ys, choice_rules::member(m, c, j))) },
    )
}

// 11 at s.
fn lower_closed(path: &mut Path, s: usize) -> bool
    requires { s < 65536 }
    ensures closed { result ≡ closed11 path.old.m.now 0 path.old.ys.now (all_sets path.old) s }
    ensures stays { Stays path.old path.new }
{
    let low = path.lower(s);
    let value = sets::at(path.ys, s);
    every_pick(value, Set::N, Set::N, low, |v, _, _, l| v < l)
}

// 12 at s.
fn upper_closed(path: &mut Path, s: usize) -> bool
    requires { s < 65536 }
    ensures closed { result ≡ closed12 path.old.m.now 0 path.old.ys.now (all_sets path.old) s }
    ensures stays { Stays path.old path.new }
{
    let m = path.m;
    let prompt = path.node(fields::prompt_of(m, s));
    let low = path.lower(s);
    let value = sets::at(path.ys, s);
    every_pick(
        value,
        prompt,
        Set::N,
        low,
        |v, p, _, l| (0 < p) & (l <= p) & (p < v),
    )
}

// 13 at s.
fn default_closed(path: &mut Path, s: usize) -> bool
    requires { s < 65536 }
    ensures closed { result ≡ closed13 path.old.m.now 0 path.old.ys.now (all_sets path.old) s }
    ensures stays { Stays path.old path.new }
{
    let m = path.m;
    let prompt = path.node(fields::prompt_of(m, s));
    let default = path.default_of(s);
    let low = path.lower(s);
    let value = sets::at(path.ys, s);
    every_pick(
        value,
        prompt,
        default,
        low,
        |v, p, d, l| (p == 0) & (v != d.max(l)),
    )
}

// 15 at c.
fn one_closed(path: &mut Path, c: usize) -> bool
    requires { c < 65536 }
    ensures closed { result ≡ closed15 path.old.m.now 0 path.old.ys.now (all_sets path.old) c }
    ensures stays { Stays path.old path.new }
{
    let m = path.m;
    let prompt = path.node(fields::choice_prompt(m, c));
    let some = at_least(m, path.ys, c, 1, Set::least);
    let yes = at_least(m, path.ys, c, 2, Set::least);
    every(prompt, |p| (0 < p) & (2 <= some) & (1 <= yes))
}

// 17 at c.
fn mandatory_closed(path: &mut Path, c: usize) -> bool
    requires { c < 65536 }
    ensures closed { result ≡ closed17 path.old.m.now 0 path.old.ys.now (all_sets path.old) c }
    ensures stays { Stays path.old path.new }
{
    let m = path.m;
    let prompt = path.node(fields::choice_prompt(m, c));
    let mandatory = fields::mandatory_of(m, c);
    let some = at_least(m, path.ys, c, 1, Set::most);
    every(prompt, |p| (0 < p) & (mandatory == 1) & (some == 0))
}

// 18 at s.
fn modules_closed(m: &[u8], ys: &[u8], s: usize) -> bool
    ensures { result ≡ closed18 m.now 0 ys.now (node_sets m.now ys.now) s }
{
    let symbol = fields::modules(m);
    let modules = sets::at(ys, symbol);
    let value = sets::at(ys, s);
    let all = every_pick(
        modules,
        Set::N,
        Set::N,
        value,
        |o, _, _, v| (o == 0) & (v == 1),
    );
    (symbol != 65535) & all
}

// Mark 20: select q is not unmet.
fn met(path: &mut Path, q: usize) -> bool
    requires { q < 65536 }
    ensures closed { result ≡ closed20 path.old.m.now q path.old.ys.now (all_sets path.old) }
    ensures stays { Stays path.old path.new }
{
    let m = path.m;
    let condition = path.node(fields::condition_of(m, q));
    let depend = path.node(fields::depend_of(m, fields::target_of(m, q)));
    let selector = sets::at(path.ys, fields::selector_of(m, q));
    every_pick(
        selector,
        condition,
        depend,
        Set::N,
        |a, c, d, _| a.min(c) <= d,
    )
}

// Whether a leaf is closed, in a finding about select q.
#[tactic(auto, unfolding(meaning::specs::Clearance::closed, meaning::specs::Clearance::closed11, meaning::specs::Clearance::closed12, meaning::specs::Clearance::closed13, meaning::specs::Clearance::closed15, meaning::specs::Clearance::closed17, meaning::specs::Clearance::closed18))]
fn closed(path: &mut Path, q: usize, rule: u8, place: usize) -> bool
    requires { (q < 65536) × (place < 65536) }
    ensures closed { result ≡ closed_of path.old.m.now q path.old.ys.now (all_sets path.old) rule place }
    ensures stays { Stays path.old path.new }
{
    match Mark::try_from(rule) {
        Ok(Mark::Lower) => lower_closed(path, place),
        Ok(Mark::Upper) => upper_closed(path, place),
        Ok(Mark::Default) => default_closed(path, place),
        Ok(Mark::One) => one_closed(path, place),
        Ok(Mark::Mandatory) => mandatory_closed(path, place),
        Ok(Mark::Modules) => modules_closed(path.m, path.ys, place),
        Ok(Mark::Met) => met(path, q),
        Err(_) => false,
    }
}

// Whether a leaf is closed on the path where the symbols' sets are ys. The node work is blank, before and after.
pub fn closed_on(m: &[u8], q: usize, ys: &[u8], w: &mut [u8], rule: u8, place: usize) -> bool
    requires { (q < 65536) × (place < 65536) × (w.old ≡ blank_of m.now) }
    ensures { (result ≡ closed_on m.now q ys.now rule place) × (w.new ≡ w.old) }
{
    let mut path = Path { m, ys, w: &mut *w };
    let all = closed(&mut path, q, rule, place);
    sets::settle(w);
    all
}
