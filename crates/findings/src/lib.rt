// The finding check: the head, then a witness through the table check's own code, or a clearance walked node by node.
//
// Any bytes in, one outcome out, and both rooms afterwards as document 01 owes them.
#![tactic(auto)]

ghost use Rattle.std.specs.Prelude.{◌≡◌, true, ◌<◌, ◌≤◌, length, replicate, Ok};
ghost use Rattle.meaning.specs.Book.{symbols as symbols_of, nodes as nodes_of};
ghost use Rattle.meaning.specs.Rules.{unmet_in};
ghost use Rattle.meaning.specs.Sets.{full_sets};
ghost use Rattle.meaning.specs.Clearance.{leaf_stands, leaf_head, split_head, head_of};
ghost use Rattle.meaning.specs.Findings.{head_fault, witness_fault, walk_fault, clearance_fault, body_fault};
ghost use Rattle.sets.specs.Work.{blank_of};
ghost use Rattle.findings.specs.Walks.{walked, splits_at};
ghost use Rattle.findings.specs.Found.{Found};

use meaning::{Head, Outcome, Refusal, Stop, Walked, refuse, refuse_if};
use sets::Set;
use values::Valued;

// 21: the finding's length, its select, its kind, its zero.
#[tactic(auto, unfolding(meaning::specs::Findings::head_fault, meaning::specs::Findings::select_of, meaning::specs::Findings::finding_kind, meaning::specs::Base::when))]
fn head_fault(m: &[u8], f: &[u8]) -> Outcome
    ensures { result ≡ head_fault m.now f.now }
{
    let n = f.len();
    let select = raw::half(f, 0) < fields::selects(m);
    let bad = (n < 4) | (65535 < n) | !select | (1 < raw::byte(f, 2)) | (raw::byte(f, 3) != 0);
    refuse_if(bad, Refusal::Head, 0)
}

// Whether a leaf's rule may stand at its place, in a finding about select q. By number: by `closing::Mark` a choice that is all on the path costs
// 4.2% more instructions.
#[tactic(auto, unfolding(meaning::specs::Clearance::leaf_stands, meaning::specs::Base::pick))]
fn leaf_stands(m: &[u8], q: usize, rule: u8, place: usize) -> bool
    requires { place < 65536 }
    ensures { result ≡ leaf_stands m.now q rule place }
{
    if rule == 20 {
        return place == q;
    }
    if (rule == 15) | (rule == 17) {
        return place < fields::choices(m);
    }
    let rules = (rule == 11) | (rule == 12) | (rule == 13) | (rule == 18);
    rules & (place < fields::symbols(m)) & fields::is_three(m, place)
}

// A leaf, if its rule may stand there.
#[tactic(auto, unfolding(meaning::specs::Clearance::leaf_head, meaning::specs::Base::pick))]
fn leaf_head(m: &[u8], q: usize, rule: u8, place: u16, next: u16) -> Option<Head>
    ensures { result ≡ leaf_head m.now q rule place next }
{
    leaf_stands(m, q, rule, usize::from(place)).then_some(Head::Leaf(rule, place, next))
}

// A split on symbol s, if its set is still all that its type allows: by the bits that the definition names.
#[tactic(auto, unfolding(meaning::specs::Clearance::split_head, meaning::specs::Base::pick))]
fn split_head(set: u8, s: u16, next: u16) -> Option<Head>
    ensures { result ≡ split_head set s next }
{
    match set {
        5 => Some(Head::Two(s, next)),
        7 => Some(Head::Three(s, next)),
        _ => None,
    }
}

// What stands at an offset of the finding.
#[tactic(auto, unfolding(meaning::specs::Clearance::head_of, meaning::specs::Base::pick))]
fn head_at(m: &[u8], q: usize, f: &[u8], ys: &[u8], at: u16) -> Option<Head>
    requires { length f.now < 65536 }
    ensures { result ≡ head_of m.now q f.now ys.now at }
{
    let from = usize::from(at);
    let mark = raw::byte(f, from);
    if mark == 1 && from + 4 <= f.len() {
        let place = raw::half(f, from + 2) as u16;
        return leaf_head(m, q, raw::byte(f, from + 1), place, at + 4);
    }
    if mark == 0 && from + 3 <= f.len() {
        let s = raw::half(f, from + 1);
        return split_head(sets::at(ys, s).bits, s as u16, at + 3);
    }
    None
}

// What stands at an offset, walked as if no split were allowed any more. The slices that a walk hands on unread are behind one
// reference more: that keeps its frames small.
fn leaf(m: &&[u8], f: &&[u8], at: u16, ys: &mut [u8], w: &mut [u8]) -> Walked
    requires { (length f.now.now < 65536) × (w.old ≡ blank_of m.now.now) }
    ensures { (result ≡ walked m.now.now f.now.now 0 (Ok at) ys.old) × (ys.new ≡ ys.old) × (w.new ≡ w.old) }
{
    let q = raw::half(*f, 0);
    let Some(head) = head_at(*m, q, *f, ys, at) else {
        return Err(Stop::Malformed(at));
    };
    match head {
        Head::Leaf(rule, place, next) => {
            if closing::closed_on(*m, q, ys, w, rule, usize::from(place)) {
                Ok(next)
            } else {
                Err(Stop::Open(at))
            }
        }
        _ => Err(Stop::Malformed(at)),
    }
}

// Whether a split stands at an offset.
#[tactic(auto, unfolding(crate::specs::Walks::splits_at))]
fn splits(f: &[u8], ys: &[u8], at: u16) -> bool
    ensures { result ≡ splits_at f.now ys.now at }
{
    let from = usize::from(at);
    let set = sets::at(ys, raw::half(f, from + 1)).bits;
    (raw::byte(f, from) == 0) & (from + 3 <= f.len()) & ((set == 5) | (set == 7))
}

// Walks on from where the walk stands, with so many splits still allowed on the path. A walk that stopped stays there.
#[cycle(branch_split)]
fn branch(m: &&[u8], f: &&[u8], left: usize, from: Walked, ys: &mut [u8], w: &mut [u8]) -> Walked
    requires { (length f.now.now < 65536) × (w.old ≡ blank_of m.now.now) }
    ensures { (result ≡ walked m.now.now f.now.now left from ys.old) × (ys.new ≡ ys.old) × (w.new ≡ w.old) }
{
    let at = from?;
    if (0 < left) & splits(*f, ys, at) {
        return split(m, f, left, at, ys, w);
    }
    leaf(m, f, at, ys, w)
}

// Walks the split that stands at an offset: its branches in order, each with one value. The symbol's set ends as it began.
#[cycle(branch_split)]
fn split(m: &&[u8], f: &&[u8], left: usize, at: u16, ys: &mut [u8], w: &mut [u8]) -> Walked
    requires { (0 < left) × (splits_at f.now.now ys.old at ≡ true) × (length f.now.now < 65536) × (w.old ≡ blank_of m.now.now) }
    ensures { (result ≡ walked m.now.now f.now.now left (Ok at) ys.old) × (ys.new ≡ ys.old) × (w.new ≡ w.old) }
{
    let s = raw::half(*f, usize::from(at) + 1);
    let all = sets::at(ys, s);
    let mut reached = Ok(at + 3);
    for v in 0u8..3 {
        if all.has(v) {
            raw::put(ys, s, Set::only(v).bits);
            reached = branch(m, f, left - 1, reached, ys, w);
        }
    }
    raw::put(ys, s, all.bits);
    reached
}

// Writes the set of all that its type allows for each symbol.
fn fill_sets(m: &[u8], ys: &mut [u8])
    requires { length ys.old ≡ symbols_of m.now }
    ensures { ys.new ≡ full_sets m.now }
{
    for s in 0..fields::symbols(m) {
        ys[s] = Set::full(fields::type_of(m, s)).bits;
    }
}

// Walks the whole tree, from where the head ends.
fn tree(m: &[u8], f: &[u8], ys: &mut [u8], w: &mut [u8]) -> Walked
    requires { (length f.now < 65536) × (w.old ≡ blank_of m.now) }
    ensures { (result ≡ walked m.now f.now 64 (Ok 4) ys.old) × (ys.new ≡ ys.old) × (w.new ≡ w.old) }
{
    let split_there = splits(f, ys, 4);
    if split_there {
        return split(&m, &f, 64, 4, ys, w);
    }
    leaf(&m, &f, 4, ys, w)
}

// Where a walk ended, as an outcome.
#[tactic(auto, unfolding(meaning::specs::Base::when))]
fn walk_fault(f: &[u8], end: Walked) -> Outcome
    ensures { result ≡ walk_fault f.now end }
{
    match end {
        Ok(at) => refuse_if(usize::from(at) != f.len(), Refusal::Tree, usize::from(at)),
        Err(Stop::Malformed(at)) => refuse(Refusal::Tree, usize::from(at)),
        Err(Stop::Open(at)) => refuse(Refusal::Leaf, usize::from(at)),
    }
}

// 22 and 23: a clearance, over rooms of one byte a node and a symbol. A call of its own, so that a witness needs none of its stack.
#[inline(never)]
fn clearance_fault(m: &[u8], f: &[u8], w: &mut [u8], ys: &mut [u8]) -> Outcome
    requires { (length f.now < 65536) × (length w.old ≡ nodes_of m.now) × (length ys.old ≡ symbols_of m.now) }
    ensures { (result ≡ clearance_fault m.now f.now) × (length w.new ≡ nodes_of m.now) × (length ys.new ≡ symbols_of m.now) }
{
    sets::blank(m, w);
    fill_sets(m, ys);
    let end = tree(m, f, ys, w);
    walk_fault(f, end)
}

// Whether select k is unmet, where the node work has the nodes' values.
#[tactic(auto, unfolding(meaning::specs::Rules::unmet_in, meaning::specs::Values::depend_value))]
fn unmet(x: &Valued, k: usize) -> bool
    requires { k < 65536 }
    ensures { result ≡ unmet_in x.now.model.now x.now.table.now x.now.work.now k }
{
    let m = x.model;
    x.node(fields::depend_of(m, fields::target_of(m, k))) < x.given(k)
}

// 5, 6, 10 to 18 and 24: a witness, over a node work of one byte a node.
fn witness_fault(m: &[u8], f: &[u8], w: &mut [u8]) -> Outcome
    requires { (4 ≤ length f.now) × (length w.old ≡ nodes_of m.now) }
    ensures { (result ≡ witness_fault m.now f.now) × (length w.new ≡ nodes_of m.now) }
{
    let table = &f[4..];
    entries::fault(table, fields::symbols(m))?;
    values::fill(m, table, w);
    let x = Valued {
        model: m,
        table,
        work: w,
    };
    rules::fault(&x)?;
    let select = raw::half(f, 0);
    refuse_if(!unmet(&x, select), Refusal::Met, select)
}

// What a finding's body is judged to be, by its kind.
fn body_fault(m: &[u8], f: &[u8], w: &mut [u8], ys: &mut [u8]) -> Outcome
    requires { (4 ≤ length f.now) × (length f.now < 65536) × (length w.old ≡ nodes_of m.now) × (length ys.old ≡ symbols_of m.now) }
    ensures { (result ≡ body_fault m.now f.now) × (length w.new ≡ nodes_of m.now) × (length ys.new ≡ symbols_of m.now) }
{
    if raw::byte(f, 2) == 0 {
        return witness_fault(m, f, w);
    }
    clearance_fault(m, f, w, ys)
}

// The body of a finding, over rooms of one byte a node and a symbol; both are zero afterwards. On its own, it keeps `check`'s frame small
// while the book is looked at.
#[inline(never)]
fn body(m: &[u8], f: &[u8], w: &mut [u8], ys: &mut [u8]) -> Outcome
    requires { (4 ≤ length f.now) × (length f.now < 65536) × (length w.old ≡ nodes_of m.now) × (length ys.old ≡ symbols_of m.now) }
    ensures { (result ≡ body_fault m.now f.now) × (w.new ≡ replicate (nodes_of m.now) 0) × (ys.new ≡ replicate (symbols_of m.now) 0) }
{
    let outcome = body_fault(m, f, w, ys);
    let nodes = w.len();
    sets::clear(w, nodes);
    let symbols = ys.len();
    sets::clear(ys, symbols);
    outcome
}

// The finding check: 0 to 8, 10 to 18 and 21 to 24. Refused up to 8 both rooms stay, else their first bytes are zero.
pub fn check(model: &[u8], finding: &[u8], nodework: &mut [u8], symbolwork: &mut [u8]) -> Outcome
    ensures { Found model.now finding.now nodework.old symbolwork.old result nodework.new symbolwork.new }
{
    book::fault(model)?;
    head_fault(model, finding)?;
    let nodes = fields::nodes(model);
    if nodework.len() < nodes {
        return refuse(Refusal::NodeRoom, nodes);
    }
    let symbols = fields::symbols(model);
    if symbolwork.len() < symbols {
        return refuse(Refusal::SymbolRoom, symbols);
    }
    body(
        model,
        finding,
        &mut nodework[0..nodes],
        &mut symbolwork[0..symbols],
    )
}
