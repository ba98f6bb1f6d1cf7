// What the nodes and the selects of a book come to in a table.
//
// Total over any bytes. `fill` writes each node's value into the node work, and `at` reads it there; `given` has what a select
// gives its target by those values, `leaf` what a leaf stands for.
#![tactic(auto)]

ghost use Rattle.std.specs.Prelude.{◌≡◌, ◌++◌, ◌<◌, ◌≤◌, ◌^◌, length, drop};
ghost use Rattle.tri.specs.Three.{tri_of};
ghost use Rattle.meaning.specs.Book.{nodes as nodes_of};
ghost use Rattle.meaning.specs.Values.{val, number_of, leaf_of, leaf_value, equal_value, node_value, node_values, given as given_of};
ghost use Rattle.spell.specs.Leaves.{leaf_content};

use fields::Op;
use spell::Leaf;
use tri::Tri;

// The value worked out for node i; n past the end.
pub fn at(vs: &[u8], i: usize) -> Tri
    ensures { result.v ≡ val vs.now i }
{
    Tri {
        v: raw::byte(vs, i),
    }
}

// The 32 bits of a number node.
fn number(m: &[u8], i: usize) -> u32
    requires { i < 2 ^ 32 }
    ensures { (result ≡ number_of m.now i) × (result < 4294967296) }
{
    raw::joined_halves(fields::left_of(m, i), fields::right_of(m, i))
}

// The value of a constant.
fn constant(left: usize) -> u8
    ensures { result ≡ tri_of left }
{
    left.min(2) as u8
}

// What leaf i stands for in table t. By number: by `Op` a table of ranges costs 1.2% more instructions.
#[tactic(auto, using(crate::proofs::Laws::as_leaf), unfolding(meaning::specs::Values::leaf_of, meaning::specs::Table::content_of))]
pub fn leaf(m: &[u8], t: &[u8], i: usize) -> Leaf
    requires { i < 2 ^ 32 }
    ensures { leaf_content m.now t.now result ≡ leaf_of m.now t.now i }
{
    let op = fields::op_of(m, i);
    let left = fields::left_of(m, i);
    match op {
        0 => Leaf::Three(constant(left)),
        1 => Leaf::from(entries::value(t, left)),
        2 => Leaf::Note(fields::text_start(m) + left, fields::right_of(m, i)),
        3 => Leaf::Int(entries::signed(number(m, i))),
        4 => Leaf::Hex(number(m, i)),
        _ => Leaf::Three(0),
    }
}

// A leaf's value: n for a text, a number, and a symbol of another kind. By the op, as in `leaf`: what `leaf` hands back would do, and costs a fair
// book's check 4% more instructions.
#[tactic(auto, using(crate::proofs::Laws::others), unfolding(meaning::specs::Values::leaf_of, meaning::specs::Table::value_of))]
fn leaf_value(m: &[u8], t: &[u8], i: usize) -> Tri
    requires { i < 2 ^ 32 }
    ensures { result.v ≡ leaf_value m.now t.now i }
{
    let left = fields::left_of(m, i);
    match fields::node_op(m, i) {
        Some(Op::Constant) => Tri { v: constant(left) },
        Some(Op::Symbol) => entries::three(t, left),
        _ => Tri::N,
    }
}

// y where the leaves i and j are spelled alike, else n.
#[tactic(auto, unfolding(meaning::specs::Values::equal_value))]
fn equal(m: &[u8], t: &[u8], i: usize, j: usize) -> Tri
    requires { (i < 2 ^ 32) × (j < 2 ^ 32) }
    ensures { result.v ≡ equal_value m.now t.now i j }
{
    if spell::same_spelling(m, t, leaf(m, t, i), leaf(m, t, j)) {
        Tri::Y
    } else {
        Tri::N
    }
}

// The value of node i, from the values `done` of those before it.
#[tactic(auto, unfolding(meaning::specs::Values::node_value, meaning::specs::Values::leaf_of))]
fn node_value(m: &[u8], t: &[u8], done: &[u8], i: usize) -> Tri
    requires { i < 2 ^ 32 }
    ensures { result.v ≡ node_value m.now t.now done.now i }
{
    let node = fields::node_at(m, i);
    match Op::try_from(node.op) {
        Ok(Op::Not) => at(done, node.left).not(),
        Ok(Op::And) => at(done, node.left).and(at(done, node.right)),
        Ok(Op::Or) => at(done, node.left).or(at(done, node.right)),
        Ok(Op::Equal) => equal(m, t, node.left, node.right),
        Ok(Op::Unequal) => equal(m, t, node.left, node.right).not(),
        _ => leaf_value(m, t, i),
    }
}

// Writes each node's value, from those before it.
#[tactic(auto, using(meaning::proofs::Folds::build_none, meaning::proofs::Folds::build_more), unfolding(meaning::specs::Values::node_values))]
pub fn fill(m: &[u8], t: &[u8], work: &mut [u8])
    requires { nodes_of m.now ≤ length work.old }
    ensures { work.new ≡ node_values m.now t.now ++ drop (nodes_of m.now) work.old }
{
    // By index: a node is worked out of the bytes in front of its own.
    for i in 0..fields::nodes(m) {
        work[i] = node_value(m, t, &work[..i], i).v;
    }
}

// What select k gives its target: the smaller of selector and condition.
pub fn given(m: &[u8], t: &[u8], vs: &[u8], k: usize) -> Tri
    requires { k < 2 ^ 32 }
    ensures { result.v ≡ given_of m.now t.now vs.now k }
{
    entries::three(t, fields::selector_of(m, k)).and(at(vs, fields::condition_of(m, k)))
}

// A model book, a table of it, and the node work: what the rules read. Lent as a whole, it is one word where the three are six.
#[derive(Clone, Copy)]
pub struct Valued<'a> {
    pub model: &'a [u8],
    pub table: &'a [u8],
    pub work: &'a [u8],
}

impl Valued<'_> {
    // The value worked out for node i; n past the end.
    pub fn node(&self, i: usize) -> Tri
        ensures { result.v ≡ val self.now.work.now i }
    {
        at(self.work, i)
    }

    // What leaf i stands for.
    pub fn leaf(&self, i: usize) -> Leaf
        requires { i < 2 ^ 32 }
        ensures { leaf_content self.now.model.now self.now.table.now result ≡ leaf_of self.now.model.now self.now.table.now i }
    {
        leaf(self.model, self.table, i)
    }

    // What select k gives its target: the smaller of selector and condition.
    pub fn given(&self, k: usize) -> Tri
        requires { k < 2 ^ 32 }
        ensures { result.v ≡ given_of self.now.model.now self.now.table.now self.now.work.now k }
    {
        given(self.model, self.table, self.work, k)
    }
}
