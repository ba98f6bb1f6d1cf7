// The records of the model book: is each well formed, by itself and beside those before it.
//
// Total over any bytes. Each test is document 01's, by its definition; a record's number is below 2^32.
#![tactic(auto)]

ghost use Rattle.std.specs.Prelude.{◌≡◌, ◌+◌, ◌<◌, ◌^◌, ◌&&◌, not, leb, ltb};
ghost use Rattle.std.specs.List.{list_all};
ghost use Rattle.meaning.specs.Book.{symbols as symbols_of, nodes as nodes_of, type_of, prompt_of, depend_of, choice_kind, member_symbol};
ghost use Rattle.meaning.specs.Book.{is_digit, is_name_byte, name_ok, leaf_fits, node_fits};
ghost use Rattle.meaning.specs.Book.{node_ok, default_ok, select_ok, bound_ok, range_ok, member_due, choice_ok, record_ok};

// A to Z, 0 to 9, or the underscore.
fn is_name_byte(b: u8) -> bool
    ensures { result ≡ is_name_byte b }
{
    b.is_ascii_uppercase() | b.is_ascii_digit() | (b == b'_')
}

// Whether each byte of a name may stand in one, and not all of them are digits. No `all`: it stops at the first that fails, is no vector code, and
// costs a book of long names 1.7 to 2.4 times the instructions.
fn spelled_well(name: &[u8]) -> bool
    ensures { result ≡ (list_all is_name_byte name.now && not (list_all is_digit name.now)) }
{
    let mut good = true;
    let mut digits = true;
    for b in name {
        good &= is_name_byte(*b);
        digits &= b.is_ascii_digit();
    }
    good & !digits
}

// Whether a symbol's name may stand, whatever the others' are.
fn name_ok(m: &[u8], s: usize) -> bool
    requires { s < 2 ^ 32 }
    ensures { result ≡ name_ok m.now s }
{
    let n = usize::from(fields::name_length(m, s));
    let name = raw::part(m, fields::name_start(m, s), n);
    let end = fields::name_offset(m, s) + n;
    (1 <= n) & (n <= 64) & (end <= fields::texts(m)) & (name.len() == n) & spelled_well(name)
}

// A symbol, whatever the names before it are.
pub fn symbol_fits(m: &[u8], s: usize) -> bool
    requires { s < 2 ^ 32 }
    ensures { result ≡ (leb (type_of m.now s) 4 && name_ok m.now s && ltb (prompt_of m.now s) (nodes_of m.now) && ltb (depend_of m.now s) (nodes_of m.now)) }
{
    let nodes = fields::nodes(m);
    (fields::type_of(m, s) <= 4)
        & name_ok(m, s)
        & (fields::prompt_of(m, s) < nodes)
        & (fields::depend_of(m, s) < nodes)
}

// A leaf's fields, by its op. By number, here and in `node_fits`: by `fields::Op` a table of a chain or of trees costs 2.4% more instructions.
#[tactic(auto, unfolding(meaning::specs::Book::leaf_fits))]
fn leaf_fits(m: &[u8], op: u8, left: usize, right: usize) -> bool
    requires { (left < 65536) × (right < 65536) }
    ensures { result ≡ leaf_fits m.now op left right }
{
    match op {
        0 => (left <= 2) & (right == 0),
        1 => (left < fields::symbols(m)) & (right == 0),
        2 => (right <= 64) & (left + right <= fields::texts(m)),
        _ => true,
    }
}

// The fields of node i, by its op: a leaf; not; and, or; equal, not equal. Any other op is refused.
#[tactic(auto, unfolding(meaning::specs::Book::node_fits))]
fn node_fits(m: &[u8], i: usize, op: u8, left: usize, right: usize) -> bool
    requires { (left < 65536) × (right < 65536) }
    ensures { result ≡ node_fits m.now i op left right }
{
    match op {
        0..=4 => leaf_fits(m, op, left, right),
        5 => (left < i) & (right == 0),
        6..=7 => (left < i) & (right < i),
        8..=9 => (left < i) & (right < i) & fields::is_leaf(m, left) & fields::is_leaf(m, right),
        _ => false,
    }
}

// A node.
#[tactic(auto, unfolding(meaning::specs::Book::node_ok))]
fn node_ok(m: &[u8], i: usize) -> bool
    requires { i < 2 ^ 32 }
    ensures { result ≡ node_ok m.now i }
{
    let node = fields::node_at(m, i);
    (node.zero == 0) & node_fits(m, i, node.op, node.left, node.right)
}

// A default: a string's, int's or hex's is a leaf.
#[tactic(auto, unfolding(meaning::specs::Book::default_ok))]
fn default_ok(m: &[u8], d: usize) -> bool
    requires { d < 2 ^ 32 }
    ensures { result ≡ default_ok m.now d }
{
    let s = fields::default_symbol(m, d);
    let value = fields::default_value(m, d);
    let nodes = fields::nodes(m);
    (s < fields::symbols(m))
        & (value < nodes)
        & (fields::default_condition(m, d) < nodes)
        & (fields::is_three(m, s) | fields::is_leaf(m, value))
}

// A select: it joins boolean or tristate symbols.
#[tactic(auto, unfolding(meaning::specs::Book::select_ok))]
fn select_ok(m: &[u8], k: usize) -> bool
    requires { k < 2 ^ 32 }
    ensures { result ≡ select_ok m.now k }
{
    let selector = fields::selector_of(m, k);
    let target = fields::target_of(m, k);
    let symbols = fields::symbols(m);
    (selector < symbols)
        & (target < symbols)
        & (fields::condition_of(m, k) < fields::nodes(m))
        & fields::is_three(m, selector)
        & fields::is_three(m, target)
}

// A range's bound of type y: a constant or a symbol of it. By number, since a constant's op is its type's number; by `fields::SymbolType` a book of
// ranges costs 14% more instructions.
#[tactic(auto, unfolding(meaning::specs::Book::bound_ok))]
fn bound_ok(m: &[u8], y: u8, i: usize) -> bool
    requires { i < 2 ^ 32 }
    ensures { result ≡ bound_ok m.now y i }
{
    let op = fields::op_of(m, i);
    let named = (op == 1) & (fields::type_of(m, fields::left_of(m, i)) == y);
    (i < fields::nodes(m)) & ((op == y) | named)
}

// A range: it is on an int or a hex.
#[tactic(auto, unfolding(meaning::specs::Book::range_ok))]
fn range_ok(m: &[u8], r: usize) -> bool
    requires { r < 2 ^ 32 }
    ensures { result ≡ range_ok m.now r }
{
    let s = fields::range_symbol(m, r);
    let y = fields::type_of(m, s);
    (s < fields::symbols(m))
        & ((y == 3) | (y == 4))
        & bound_ok(m, y, fields::low_of(m, r))
        & bound_ok(m, y, fields::high_of(m, r))
        & (fields::range_condition(m, r) < fields::nodes(m))
}

// Where a choice's members must begin: where those of the choice before it end.
pub fn member_due(m: &[u8], c: usize) -> usize
    requires { c < 2 ^ 32 }
    ensures { (result ≡ member_due m.now c) × (result < 131072) }
{
    match c.checked_sub(1) {
        Some(former) => fields::first_member(m, former) + fields::member_count(m, former),
        None => 0,
    }
}

// A choice: it takes its members in turn.
#[tactic(auto, unfolding(meaning::specs::Book::choice_ok))]
fn choice_ok(m: &[u8], c: usize) -> bool
    requires { c < 2 ^ 32 }
    ensures { result ≡ choice_ok m.now c }
{
    let first = fields::first_member(m, c);
    let end = first + fields::member_count(m, c);
    (fields::choice_kind(m, c) <= 1)
        & (fields::mandatory_of(m, c) <= 1)
        & (fields::choice_prompt(m, c) < fields::nodes(m))
        & (first == member_due(m, c))
        & (end <= fields::members(m))
}

// Member record i, of choice c, whatever the records before it are: it is of the choice's type.
pub fn member_fits(m: &[u8], c: usize, i: usize) -> bool
    requires { (c < 2 ^ 32) × (i < 2 ^ 32) }
    ensures { result ≡ (ltb (member_symbol m.now i) (symbols_of m.now) && leb (type_of m.now (member_symbol m.now i)) (choice_kind m.now c)) }
{
    let s = fields::member_symbol(m, i);
    (s < fields::symbols(m)) & (fields::type_of(m, s) <= fields::choice_kind(m, c))
}

// Record i of section k, which is another than the symbols'. By number: its caller counts the sections, and so do the definitions.
#[tactic(auto, unfolding(meaning::specs::Book::record_ok))]
pub fn record_ok(m: &[u8], k: usize, i: usize) -> bool
    requires { (k ≡ 1 → ⊥) × (i < 2 ^ 32) }
    ensures { result ≡ record_ok m.now k i }
{
    match k {
        2 => node_ok(m, i),
        3 => default_ok(m, i),
        4 => select_ok(m, i),
        5 => range_ok(m, i),
        6 => choice_ok(m, i),
        _ => true,
    }
}
