// Sets of the three values, and what each node, Lower and Default may be on a path of a clearance.
//
// `Set` is a byte. A `Path` lends the symbols' sets and the node work, which keeps the set of a node once it is worked out, so that
// only what is read is worked out, and that once.
#![tactic(auto)]

ghost use Rattle.std.specs.Prelude.{◌≡◌, ◌||◌, true, false, ℕ, ◌+◌, ◌<◌, ◌≤◌, ◌^◌, leb, length, get_or, eqb, IfSome, IfNone};
ghost use Rattle.tri.specs.Three.{tri_of, and_of, or_of};
ghost use Rattle.meaning.specs.Base.{pick};
ghost use Rattle.meaning.specs.Book.{nodes as nodes_of, type_of, op_of, default_value};
ghost use Rattle.meaning.specs.Sets.{has as has_of, set_of, only as only_of, full as full_of, with_one, join as join_of, pairs as pairs_of};
ghost use Rattle.meaning.specs.Sets.{least as least_of, most as most_of, sat, leaf_set, is_free, equal_at, equal_set, not_set};
ghost use Rattle.meaning.specs.Sets.{lower_set, default_set};
ghost use Rattle.meaning.specs.Findings.{zeroed};
ghost use Rattle.sets.specs.Work.{Makes, combined, SideOf, Lone, by_letter, equality_of, among, fixed, blank_at, blank_of, lasting, kept_at, Known, WorkedOut};
ghost use Rattle.sets.specs.Single.{known_single};

use fields::{Op, SymbolType};
use tri::Tri;

// How deep a node's operands are followed before all nodes are worked out in order instead.
const DEPTH: usize = 8;

// A set of the three values, as a byte: 1 for n, 2 for m, 4 for y, added up. Its other bits may be anything.
#[derive(Clone, Copy)]
pub struct Set {
    pub bits: u8,
}

impl Set {
    pub const NONE: Set = Set { bits: 0 };

    pub const N: Set = Set { bits: 1 };

    pub const M: Set = Set { bits: 2 };

    pub const Y: Set = Set { bits: 4 };

    // What may be n or y.
    pub const EITHER: Set = Set { bits: 5 };

    // The set of those of n, m and y that are told.
    #[tactic(auto, unfolding(meaning::specs::Sets::set_of))]
    fn of(n: bool, m: bool, y: bool) -> Set
        ensures { (result.bits ≡ set_of n m y) × (result.bits < 8) }
    {
        Set {
            bits: bit(n, 1) + bit(m, 2) + bit(y, 4),
        }
    }

    // One value alone.
    #[tactic(auto, unfolding(meaning::specs::Sets::only))]
    pub fn only(v: u8) -> Set
        ensures { result.bits ≡ only_of v }
    {
        match v {
            0 => Set::N,
            1 => Set::M,
            _ => Set::Y,
        }
    }

    // All that a type allows, by its number: n alone for any but a boolean and a tristate.
    #[tactic(auto, unfolding(meaning::specs::Sets::full))]
    pub fn full(kind: u8) -> Set
        ensures { result.bits ≡ full_of kind }
    {
        match SymbolType::try_from(kind) {
            Ok(SymbolType::Boolean) => Set { bits: 5 },
            Ok(SymbolType::Tristate) => Set { bits: 7 },
            _ => Set { bits: 1 },
        }
    }

    // Whether a set has a value.
    #[tactic(auto, unfolding(meaning::specs::Sets::has))]
    pub fn has(self, v: u8) -> bool
        ensures { result ≡ has_of self.bits v }
    {
        match v {
            0 => self.bits % 2 == 1,
            1 => self.bits / 2 % 2 == 1,
            2 => self.bits / 4 % 2 == 1,
            _ => false,
        }
    }

    // A set's smallest value.
    #[tactic(auto, unfolding(meaning::specs::Sets::least))]
    pub fn least(self) -> u8
        ensures { result ≡ least_of self.bits }
    {
        if self.has(0) {
            0
        } else if self.has(1) {
            1
        } else {
            2
        }
    }

    // A set's largest value.
    #[tactic(auto, unfolding(meaning::specs::Sets::most))]
    pub fn most(self) -> u8
        ensures { result ≡ most_of self.bits }
    {
        if self.has(2) {
            2
        } else if self.has(1) {
            1
        } else {
            0
        }
    }

    // A set with one value more.
    #[tactic(auto, unfolding(meaning::specs::Sets::with_one))]
    fn with(self, v: u8) -> Set
        ensures { (result.bits ≡ with_one self.bits v) × (result.bits < 8) }
    {
        Set::of(
            self.has(0) | (v == 0),
            self.has(1) | (v == 1),
            self.has(2) | (v == 2),
        )
    }

    // The values of either set.
    #[tactic(auto, unfolding(meaning::specs::Sets::join))]
    fn join(self, other: Set) -> Set
        ensures { (result.bits ≡ join_of self.bits other.bits) × (result.bits < 8) }
    {
        Set::of(
            self.has(0) | other.has(0),
            self.has(1) | other.has(1),
            self.has(2) | other.has(2),
        )
    }

    // What f makes of every pair of a value of this set and one of the other.
    fn pairs<F: Fn(Tri, Tri) -> Tri>(self, other: Set, f: F) -> Set
        requires { F.IsAlwaysCallable f }
        ensures { ((g : ℕ → ℕ → ℕ) → Makes (F.post f) g → result.bits ≡ pairs_of g self.bits other.bits) × (result.bits < 8) }
    {
        let mut out = Set::NONE;
        for x in 0u8..3 {
            if self.has(x) {
                for y in 0u8..3 {
                    if other.has(y) {
                        let made = f(Tri { v: x }, Tri { v: y });
                        out = out.with(made.v);
                    }
                }
            }
        }
        out
    }

    // Not, of each value.
    #[tactic(auto, unfolding(meaning::specs::Sets::not_set))]
    fn opposite(self) -> Set
        ensures { (result.bits ≡ not_set self.bits) × (result.bits < 8) }
    {
        self.pairs(Set::N, |x, _| x.not())
    }

    // The smaller, of each pair.
    fn both(self, other: Set) -> Set
        ensures { (result.bits ≡ pairs_of and_of self.bits other.bits) × (result.bits < 8) }
    {
        self.pairs(other, Tri::and)
    }

    // The larger, of each pair.
    fn either(self, other: Set) -> Set
        ensures { (result.bits ≡ pairs_of or_of self.bits other.bits) × (result.bits < 8) }
    {
        self.pairs(other, Tri::or)
    }
}

// x where told, else nothing. A product with `u8::from(told)` costs an eighth more where defaults are on a leaf's place.
fn bit(told: bool, x: u8) -> u8
    ensures { (result ≡ pick told x 0) × (result ≤ x) }
{
    if told { x } else { 0 }
}

// The set of symbol i; {n} past the end.
pub fn at(ys: &[u8], i: usize) -> Set
    ensures { result.bits ≡ sat ys.now i }
{
    ys.get(i).map_or(Set::N, |&bits| Set { bits })
}

// Not, and, or of two sets by a node's op, by number as in `equality`. Not reads the first alone.
fn combined(op: u8, l: Set, r: Set) -> Set
    ensures { (result.bits ≡ combined op l.bits r.bits) × (result.bits < 8) }
{
    match op {
        5 => l.opposite(),
        6 => l.both(r),
        _ => l.either(r),
    }
}

// The set of a constant.
fn constant(left: usize) -> Set
    ensures { result.bits ≡ only_of (tri_of left) }
{
    Set::only(left.min(2) as u8)
}

// The set of a leaf of this op and left field: a constant's value, a symbol's set, {n} for a text or a number.
fn set_of_leaf(ys: &[u8], op: u8, left: usize) -> Set
    ensures { result.bits ≡ pick (eqb op 0) (only_of (tri_of left)) (pick (eqb op 1) (sat ys.now left) 1) }
{
    match Op::try_from(op) {
        Ok(Op::Constant) => constant(left),
        Ok(Op::Symbol) => at(ys, left),
        _ => Set::N,
    }
}

// The set of leaf i.
#[tactic(auto, unfolding(meaning::specs::Sets::leaf_set))]
fn leaf_set(m: &[u8], ys: &[u8], i: usize) -> Set
    requires { i < 2 ^ 32 }
    ensures { result.bits ≡ leaf_set m.now ys.now i }
{
    set_of_leaf(ys, fields::op_of(m, i), fields::left_of(m, i))
}

// Whether a node is a leaf that names a symbol.
fn is_symbol(m: &[u8], i: usize) -> bool
    requires { i < 2 ^ 32 }
    ensures { result ≡ eqb (op_of m.now i) 1 }
{
    fields::node_op(m, i) == Some(Op::Symbol)
}

// Whether leaf i is a string, int or hex symbol.
#[tactic(auto, unfolding(meaning::specs::Sets::is_free))]
fn is_free(m: &[u8], i: usize) -> bool
    requires { i < 2 ^ 32 }
    ensures { result ≡ is_free m.now i }
{
    is_symbol(m, i) & !fields::is_three(m, fields::left_of(m, i))
}

// What an equality asks of a leaf: it is a string, int or hex symbol, has one of the values of a set, or is a text or a number.
#[derive(Clone, Copy)]
enum Side {
    Free,
    Three(Set),
    Plain,
}

// What an equality asks of leaf i.
#[tactic(auto, unfolding(meaning::specs::Sets::is_free, meaning::specs::Sets::leaf_set))]
fn side_of(m: &[u8], ys: &[u8], i: usize) -> Side
    requires { i < 2 ^ 32 }
    ensures { SideOf m.now ys.now i result }
{
    let left = fields::left_of(m, i);
    match fields::node_op(m, i) {
        Some(Op::Constant) => Side::Three(constant(left)),
        Some(Op::Symbol) if fields::is_three(m, left) => Side::Three(at(ys, left)),
        Some(Op::Symbol) => Side::Free,
        _ => Side::Plain,
    }
}

// The one byte of leaf i, if it is a text of one: no letter spells another text, or a number. What is no leaf is n.
#[tactic(auto, using(crate::proofs::Equal::lone_number, crate::proofs::Equal::lone_no_leaf, crate::proofs::Equal::lone_text, crate::proofs::Equal::lone_texts))]
fn lone(m: &[u8], i: usize) -> Option<u8>
    requires { (i < 2 ^ 32) × (leb (op_of m.now i) 1 ≡ false) }
    ensures { Lone m.now i result }
{
    match fields::node_op(m, i) {
        Some(Op::Text) => {
            let at = fields::text_start(m) + fields::left_of(m, i);
            let text = raw::part(m, at, fields::right_of(m, i));
            if text.len() == 1 { Some(text[0]) } else { None }
        }
        Some(Op::Int | Op::Hex) => None,
        _ => Some(spell::letter_of(0)),
    }
}

// y where the letter that spells x is this byte, else n.
fn by_letter(lone: Option<u8>, x: Tri) -> Tri
    ensures { result.v ≡ by_letter lone x.v }
{
    match lone {
        Some(b) if b == spell::letter_of(x.v) => Tri::Y,
        _ => Tri::N,
    }
}

// The set of an equality of two texts or numbers.
fn plain_set(m: &[u8], i: usize, j: usize) -> Set
    requires { (i < 2 ^ 32) × (j < 2 ^ 32) × (leb (op_of m.now i) 1 ≡ false) × (leb (op_of m.now j) 1 ≡ false) }
    ensures { (result.bits ≡ pairs_of (equal_at m.now i j) 1 1) × (result.bits < 8) }
{
    let none = raw::part(m, 0, 0);
    if spell::same_spelling(m, none, values::leaf(m, none, i), values::leaf(m, none, j)) {
        Set::Y
    } else {
        Set::N
    }
}

// The set of an equality of leaf i, whose set is a, with leaf j.
fn three_set(m: &[u8], ys: &[u8], a: Set, i: usize, j: usize) -> Set
    requires { (j < 2 ^ 32) × (is_free m.now i ≡ false) × (a.bits ≡ leaf_set m.now ys.now i) × (leb (op_of m.now i) 1 ≡ true) }
    ensures { (result.bits ≡ equal_set m.now ys.now i j) × (result.bits < 8) }
{
    match side_of(m, ys, j) {
        Side::Free => Set::EITHER,
        Side::Three(b) => a.pairs(b, |x, y| by_letter(Some(spell::letter_of(y.v)), x)),
        Side::Plain => {
            let letter = lone(m, j);
            a.pairs(Set::N, |x, _| by_letter(letter, x))
        }
    }
}

// The set of an equality of leaf i, a text or a number, with leaf j.
fn other_set(m: &[u8], ys: &[u8], i: usize, j: usize) -> Set
    requires { (i < 2 ^ 32) × (j < 2 ^ 32) × (is_free m.now i ≡ false) × (1 ≡ leaf_set m.now ys.now i) × (leb (op_of m.now i) 1 ≡ false) }
    ensures { (result.bits ≡ equal_set m.now ys.now i j) × (result.bits < 8) }
{
    match side_of(m, ys, j) {
        Side::Free => Set::EITHER,
        Side::Three(b) => {
            let letter = lone(m, i);
            b.pairs(Set::N, |x, _| by_letter(letter, x))
        }
        Side::Plain => plain_set(m, i, j),
    }
}

// The set of an equality of leaves i and j: either, where one is a string, int or hex symbol.
fn equal_set(m: &[u8], ys: &[u8], i: usize, j: usize) -> Set
    requires { (i < 2 ^ 32) × (j < 2 ^ 32) }
    ensures { (result.bits ≡ equal_set m.now ys.now i j) × (result.bits < 8) }
{
    match side_of(m, ys, i) {
        Side::Free => Set::EITHER,
        Side::Three(a) => three_set(m, ys, a, i, j),
        Side::Plain => other_set(m, ys, i, j),
    }
}

// The set of an equality of leaves i and j, or of what is unlike, by a node's op. By number, here and in its callers: they ask an op's place in the
// order, and a second look at the op costs nodes that nothing reads 2.4% more instructions.
fn equality(m: &[u8], ys: &[u8], op: u8, i: usize, j: usize) -> Set
    requires { (i < 2 ^ 32) × (j < 2 ^ 32) }
    ensures { (result.bits ≡ equality_of m.now ys.now op i j) × (result.bits < 8) }
{
    match op {
        8 => equal_set(m, ys, i, j),
        9 => equal_set(m, ys, i, j).opposite(),
        _ => Set::N,
    }
}

// Whether an equality of leaves i and j is the same on every path.
fn is_fixed(m: &[u8], i: usize, j: usize) -> bool
    requires { (i < 2 ^ 32) × (j < 2 ^ 32) }
    ensures { result ≡ fixed m.now i j }
{
    let symbol = is_symbol(m, i) | is_symbol(m, j);
    is_free(m, i) | is_free(m, j) | !symbol
}

// What stands at node i before a leaf is looked at: its set where that is the same on every path.
fn blank_at(m: &[u8], i: usize) -> u8
    requires { i < 2 ^ 32 }
    ensures { result ≡ blank_at m.now i }
{
    let op = fields::op_of(m, i);
    if op < 8 {
        return 0;
    }
    let left = fields::left_of(m, i);
    let right = fields::right_of(m, i);
    if is_fixed(m, left, right) {
        let set = equality(m, raw::part(m, 0, 0), op, left, right);
        return 128 + 16 * set.bits;
    }
    0
}

// Writes what stands in the node work before a leaf is looked at.
pub fn blank(m: &[u8], w: &mut [u8])
    requires { length w.old ≡ nodes_of m.now }
    ensures { w.new ≡ blank_of m.now }
{
    for (i, x) in w.iter_mut().enumerate() {
        *x = blank_at(m, i);
    }
}

// A byte of the node work once a leaf is done with.
fn kept(x: u8) -> u8
    ensures { result ≡ lasting x }
{
    x / 16 * 16
}

// Takes back what was worked out for one leaf alone.
pub fn settle(w: &mut [u8])
    ensures { (length w.new ≡ length w.old) × ((i : ℕ) → i < length w.old → get_or w.new i 0 ≡ lasting (get_or w.old i 0)) }
{
    for x in w {
        *x = kept(*x);
    }
}

// Writes zero over the first n bytes.
#[tactic(auto, unfolding(meaning::specs::Findings::zeroed))]
pub fn clear(w: &mut [u8], n: usize)
    requires { n ≤ length w.old }
    ensures { w.new ≡ zeroed n w.old }
{
    w[..n].fill(0);
}

// A path of a clearance: the book, the symbols' sets, and the node work, each of whose bytes is blank or keeps its node's set.
#[derive(Drop)]
pub struct Path<'a> {
    pub m: &'a [u8],
    pub ys: &'a [u8],
    pub w: &'a mut [u8],
    pub ghost known: { Known m.now ys.now w.now } by { known_single m.now ys.now w.now },
}

impl<'a> Path<'a> {
    ghost use Rattle.sets.specs.Paths.{Stays, all_sets, set_at};

    // The set of node i, if it is worked out.
    fn known(&self, i: usize) -> Option<Set>
        ensures told { IfSome result (λ set. set.bits ≡ set_at self.now i) }
        ensures kept { IfSome result (λ _. get_or self.now.w.now i 0 ≡ 0 → ⊥) }
        ensures untold { IfNone result (get_or self.now.w.now i 0 ≡ 0) }
    {
        match raw::byte(self.w, i) {
            0 => None,
            x => Some(Set {
                bits: (x / 16 + x % 8) % 8,
            }),
        }
    }

    // Keeps the set of node i. One past 7, as a byte of `ys` may be, is not kept.
    fn keep(&mut self, i: usize, set: Set)
        requires node { i < nodes_of self.old.m.now }
        requires blank { blank_at self.old.m.now i ≡ 0 }
        requires due { set.bits ≡ set_at self.old i }
        ensures stays { Stays self.old self.new }
        ensures kept { self.new.w.now ≡ kept_at self.old.w.now i set.bits }
    {
        if set.bits < 8 {
            self.w[i] = 8 + set.bits;
        }
    }

    // The set of operand k of node i, where every node before i but leaves is worked out.
    fn operand_at(&self, i: usize, k: usize) -> Set
        requires { (k < 2 ^ 32) × (i ≤ nodes_of self.now.m.now) × WorkedOut self.now.m.now self.now.w.now i }
        ensures { result.bits ≡ among self.now.m.now self.now.ys.now i k }
    {
        if i <= k {
            return Set::N;
        }
        match self.known(k) {
            Some(set) => set,
            None => leaf_set(self.m, self.ys, k),
        }
    }

    // The set of node i, where every node before it but leaves is worked out.
    #[tactic(auto, using(crate::proofs::Nodes::settled, crate::proofs::Nodes::node_none), unfolding(meaning::specs::Sets::node_set))]
    fn from_before(&self, i: usize) -> Set
        requires { (i < nodes_of self.now.m.now) × (nodes_of self.now.m.now < 65536) × WorkedOut self.now.m.now self.now.w.now i }
        ensures set { result.bits ≡ among self.now.m.now self.now.ys.now (i + 1) i }
        ensures small { 4 < op_of self.now.m.now i → result.bits < 8 }
    {
        let node = fields::node_at(self.m, i);
        if node.op <= 4 {
            return set_of_leaf(self.ys, node.op, node.left);
        }
        match Op::try_from(node.op) {
            Ok(Op::Not) => self.operand_at(i, node.left).opposite(),
            Ok(Op::And) => self
                .operand_at(i, node.left)
                .both(self.operand_at(i, node.right)),
            Ok(Op::Or) => self
                .operand_at(i, node.left)
                .either(self.operand_at(i, node.right)),
            Ok(Op::Equal) => equal_set(self.m, self.ys, node.left, node.right),
            Ok(Op::Unequal) => equal_set(self.m, self.ys, node.left, node.right).opposite(),
            _ => Set::N,
        }
    }

    // Works out node i, if it is not worked out yet.
    fn work_out(&mut self, i: usize)
        requires { (i < nodes_of self.old.m.now) × (nodes_of self.old.m.now < 65536) × WorkedOut self.old.m.now self.old.w.now i }
        ensures stays { Stays self.old self.new }
        ensures out { WorkedOut self.old.m.now self.new.w.now (i + 1) }
    {
        // By the byte, which each node has: `known` asks whether there is one too, a tenth of the work where trees are deep.
        if self.w[i] != 0 {
            return;
        }
        let set = self.from_before(i);
        self.keep(i, set);
    }

    // Works out every node, in order. Apart from `node_among`, whose frames stand eight deep: within it a clearance takes 328 bytes of stack more.
    #[inline(never)]
    fn all(&mut self)
        ensures stays { Stays self.old self.new }
        ensures out { WorkedOut self.old.m.now self.new.w.now (nodes_of self.old.m.now) }
    {
        let n = fields::nodes(self.m);
        for i in 0..n {
            self.work_out(i);
        }
    }

    // The set of node i among the first n. Where operands go deeper than `depth`, all nodes are worked out in order: so each once a leaf.
    fn node_among(&mut self, n: usize, i: usize, depth: usize) -> Set
        requires { (i < 2 ^ 32) × (n ≤ nodes_of self.old.m.now) }
        ensures set { result.bits ≡ among self.old.m.now self.old.ys.now n i }
        ensures stays { Stays self.old self.new }
    {
        if n <= i {
            return Set::N;
        }
        if let Some(set) = self.known(i) {
            return set;
        }
        let op = fields::op_of(self.m, i);
        if op <= 4 {
            let set = leaf_set(self.m, self.ys, i);
            self.keep(i, set);
            return set;
        }
        let left = fields::left_of(self.m, i);
        let right = fields::right_of(self.m, i);
        if 7 < op {
            let set = equality(self.m, self.ys, op, left, right);
            self.keep(i, set);
            return set;
        }
        if depth == 0 {
            self.all();
            return self.known(i).unwrap_or(Set::N);
        }
        let l = self.node_among(i, left, depth - 1);
        let r = self.node_among(i, right, depth - 1);
        let set = combined(op, l, r);
        self.keep(i, set);
        set
    }

    // The set of node i.
    pub fn node(&mut self, i: usize) -> Set
        requires { i < 2 ^ 32 }
        ensures set { result.bits ≡ set_at self.old i }
        ensures stays { Stays self.old self.new }
    {
        if let Some(set) = self.known(i) {
            return set;
        }
        let n = fields::nodes(self.m);
        self.node_among(n, i, DEPTH)
    }

    // Lower's set of symbol s: the larger, of each pair of what was so far and of what the next select on s may give.
    #[tactic(auto, unfolding(meaning::specs::Base::fold, meaning::specs::Sets::lower_set, meaning::specs::Sets::lower_set_step, meaning::specs::Sets::given_set))]
    pub fn lower(&mut self, s: usize) -> Set
        ensures set { result.bits ≡ lower_set self.old.m.now self.old.ys.now (all_sets self.old) s }
        ensures stays { Stays self.old self.new }
    {
        let (m, ys) = (self.m, self.ys);
        let n = fields::selects(m);
        let selects = fields::start(m, 4);
        let mut low = Set::N;
        for k in 0..n {
            if fields::target_from(m, selects, k) == s {
                let condition = self.node(fields::condition_of(m, k));
                let selector = at(ys, fields::selector_of(m, k));
                low = low.either(selector.both(condition));
            }
        }
        low
    }

    // What default d may give, where its condition's set is at hand: nothing where that is never above n.
    fn gives(&mut self, condition: Set, d: usize) -> Set
        requires { d < 2 ^ 32 }
        ensures set { result.bits ≡ pick (has_of condition.bits 1 || has_of condition.bits 2) (set_at self.old (default_value self.old.m.now d)) 0 }
        ensures stays { Stays self.old self.new }
    {
        if condition.has(1) | condition.has(2) {
            let m = self.m;
            return self.node(fields::default_value(m, d));
        }
        Set::NONE
    }

    // Default's set of symbol s: what each default on it may give, up to the first whose condition is never n.
    pub fn default_of(&mut self, s: usize) -> Set
        ensures set { result.bits ≡ default_set self.old.m.now (all_sets self.old) s }
        ensures stays { Stays self.old self.new }
    {
        let m = self.m;
        let n = fields::defaults(m);
        let defaults = fields::start(m, 3);
        let mut set = Set::NONE;
        for d in 0..n {
            if fields::default_symbol_from(m, defaults, d) == s {
                let condition = self.node(fields::default_condition(m, d));
                set = set.join(self.gives(condition, d));
                if !condition.has(0) {
                    return set;
                }
            }
        }
        set.join(Set::N)
    }
}
