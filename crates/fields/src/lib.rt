// The fields of the model book, each by its name: what stands in the contents, and in the records of each section.
//
// Total over any bytes; offsets and widths stand here and nowhere else. A record's number is below 2^32, so that no sum can
// overflow: every number that a book holds is below 2^16.
#![tactic(auto)]

ghost use Rattle.std.specs.Prelude.{◌≡◌, ◌<◌, ◌^◌, length, IfSome, IfNone};
ghost use Rattle.fields.specs.Numbers.{number_of_op, number_of_type, ReadsOp, ReadsType};
ghost use Rattle.meaning.specs.Book.{start as start_of, count as count_of, width as width_of, byte_in, half_in};
ghost use Rattle.meaning.specs.Book.{total as total_of, modules_of, text_start, name_start, spelled_name, three_type, is_leaf};
ghost use Rattle.meaning.specs.Book.{symbols as symbols_of, nodes as nodes_of, defaults as defaults_of, selects as selects_of, ranges as ranges_of, choices as choices_of, members as members_of, texts as texts_of};
ghost use Rattle.meaning.specs.Book.{type_of, name_length, name_offset, prompt_of, depend_of, op_of, zero_of, left_of, right_of, default_symbol, default_value, default_condition, selector_of, target_of, condition_of, range_symbol, low_of, high_of, range_condition, choice_kind, mandatory_of, choice_prompt, first_member, member_count, member_symbol};

// What a node is, each by the number that a book has for it: up to Hex a leaf.
#[derive(Clone, Copy, PartialEq, Eq)]
pub enum Op {
    Constant = 0,
    Symbol = 1,
    Text = 2,
    Int = 3,
    Hex = 4,
    Not = 5,
    And = 6,
    Or = 7,
    Equal = 8,
    Unequal = 9,
}

// A symbol's type, each by the number that a book has for it.
#[derive(Clone, Copy, PartialEq, Eq)]
pub enum SymbolType {
    Boolean = 0,
    Tristate = 1,
    Text = 2,
    Int = 3,
    Hex = 4,
}

// A byte that stands for none of the values that are asked for.
#[derive(Clone, Copy, PartialEq, Eq)]
pub struct Unknown(pub u8);

impl TryFrom<u8> for Op {
    type Error = Unknown;

    ghost try_from_gives = { ReadsOp };

    fn try_from(byte: u8) -> Result<Self, Unknown> {
        match byte {
            0 => Ok(Op::Constant),
            1 => Ok(Op::Symbol),
            2 => Ok(Op::Text),
            3 => Ok(Op::Int),
            4 => Ok(Op::Hex),
            5 => Ok(Op::Not),
            6 => Ok(Op::And),
            7 => Ok(Op::Or),
            8 => Ok(Op::Equal),
            9 => Ok(Op::Unequal),
            _ => Err(Unknown(byte)),
        }
    }
}

impl TryFrom<u8> for SymbolType {
    type Error = Unknown;

    ghost try_from_gives = { ReadsType };

    fn try_from(byte: u8) -> Result<Self, Unknown> {
        match byte {
            0 => Ok(SymbolType::Boolean),
            1 => Ok(SymbolType::Tristate),
            2 => Ok(SymbolType::Text),
            3 => Ok(SymbolType::Int),
            4 => Ok(SymbolType::Hex),
            _ => Err(Unknown(byte)),
        }
    }
}

const WIDTHS: [usize; 9] = [0, 8, 6, 6, 6, 8, 8, 2, 1];

// The total length that a book says it has.
pub fn total(m: &[u8]) -> usize
    ensures { (result ≡ total_of m.now) × (result < 65536) }
{
    raw::half(m, 0)
}

// What the book has for its modules symbol.
pub fn modules(m: &[u8]) -> usize
    ensures { (result ≡ modules_of m.now) × (result < 65536) }
{
    raw::half(m, 2)
}

// Where section k says it starts.
pub fn start(m: &[u8], k: usize) -> usize
    requires { k < 16 }
    ensures { (result ≡ start_of m.now k) × (result < 65536) }
{
    raw::half(m, 4 * k)
}

// How many records section k says it has.
pub fn count(m: &[u8], k: usize) -> usize
    requires { k < 16 }
    ensures { (result ≡ count_of m.now k) × (result < 65536) }
{
    raw::half(m, 4 * k + 2)
}

// Byte f of record i of section k, whose records take w bytes.
fn byte_in(m: &[u8], k: usize, w: usize, i: usize, f: usize) -> u8
    requires { (k < 16) × (i < 2 ^ 32) × (w < 9) × (f < 8) × (w ≡ width_of k) }
    ensures { result ≡ byte_in m.now k i f }
{
    raw::byte(m, start(m, k) + i * w + f)
}

// The u16 at byte f of record i of section k, whose records take w bytes.
fn half_in(m: &[u8], k: usize, w: usize, i: usize, f: usize) -> usize
    requires { (k < 16) × (i < 2 ^ 32) × (w < 9) × (f < 8) × (w ≡ width_of k) }
    ensures { (result ≡ half_in m.now k i f) × (result < 65536) }
{
    raw::half(m, start(m, k) + i * w + f)
}

// How many symbols there are.
pub fn symbols(m: &[u8]) -> usize
    ensures { (result ≡ symbols_of m.now) × (result < 65536) }
{
    count(m, 1)
}

// How many nodes there are.
pub fn nodes(m: &[u8]) -> usize
    ensures { (result ≡ nodes_of m.now) × (result < 65536) }
{
    count(m, 2)
}

// How many defaults there are.
pub fn defaults(m: &[u8]) -> usize
    ensures { (result ≡ defaults_of m.now) × (result < 65536) }
{
    count(m, 3)
}

// How many selects there are.
pub fn selects(m: &[u8]) -> usize
    ensures { (result ≡ selects_of m.now) × (result < 65536) }
{
    count(m, 4)
}

// How many ranges there are.
pub fn ranges(m: &[u8]) -> usize
    ensures { (result ≡ ranges_of m.now) × (result < 65536) }
{
    count(m, 5)
}

// How many choices there are.
pub fn choices(m: &[u8]) -> usize
    ensures { (result ≡ choices_of m.now) × (result < 65536) }
{
    count(m, 6)
}

// How many members there are.
pub fn members(m: &[u8]) -> usize
    ensures { (result ≡ members_of m.now) × (result < 65536) }
{
    count(m, 7)
}

// How many bytes of text there are.
pub fn texts(m: &[u8]) -> usize
    ensures { (result ≡ texts_of m.now) × (result < 65536) }
{
    count(m, 8)
}

// Where the texts stand.
pub fn text_start(m: &[u8]) -> usize
    ensures { (result ≡ text_start m.now) × (result < 65536) }
{
    start(m, 8)
}

// A symbol's type: 0 boolean, 1 tristate, 2 string, 3 int, 4 hex.
pub fn type_of(m: &[u8], i: usize) -> u8
    requires { i < 2 ^ 32 }
    ensures { result ≡ type_of m.now i }
{
    byte_in(m, 1, 8, i, 0)
}

// A symbol's type; none where its byte is above the last type's number.
pub fn symbol_type(m: &[u8], i: usize) -> Option<SymbolType>
    requires { i < 2 ^ 32 }
    ensures some { IfSome result (λ kind. number_of_type kind ≡ type_of m.now i) }
    ensures none { IfNone result (4 < type_of m.now i) }
{
    SymbolType::try_from(type_of(m, i)).ok()
}

// How long a symbol's name is.
pub fn name_length(m: &[u8], i: usize) -> u8
    requires { i < 2 ^ 32 }
    ensures { result ≡ name_length m.now i }
{
    name_length_from(m, start(m, 1), i)
}

// Where a symbol's name stands in the texts.
pub fn name_offset(m: &[u8], i: usize) -> usize
    requires { i < 2 ^ 32 }
    ensures { (result ≡ name_offset m.now i) × (result < 65536) }
{
    name_offset_from(m, start(m, 1), i)
}

// How long a symbol's name is, where the symbols' start is at hand.
fn name_length_from(m: &[u8], symbols: usize, i: usize) -> u8
    requires { (symbols ≡ start_of m.now 1) × (symbols < 65536) × (i < 2 ^ 32) }
    ensures { result ≡ name_length m.now i }
{
    raw::byte(m, symbols + i * 8 + 1)
}

// Where a symbol's name stands in the texts, where the symbols' start is at hand.
fn name_offset_from(m: &[u8], symbols: usize, i: usize) -> usize
    requires { (symbols ≡ start_of m.now 1) × (symbols < 65536) × (i < 2 ^ 32) }
    ensures { (result ≡ name_offset m.now i) × (result < 65536) }
{
    raw::half(m, symbols + i * 8 + 2)
}

// A symbol's prompt node.
pub fn prompt_of(m: &[u8], i: usize) -> usize
    requires { i < 2 ^ 32 }
    ensures { (result ≡ prompt_of m.now i) × (result < 65536) }
{
    half_in(m, 1, 8, i, 4)
}

// A symbol's dependency node.
pub fn depend_of(m: &[u8], i: usize) -> usize
    requires { i < 2 ^ 32 }
    ensures { (result ≡ depend_of m.now i) × (result < 65536) }
{
    half_in(m, 1, 8, i, 6)
}

// A node's op, as its number.
pub fn op_of(m: &[u8], i: usize) -> u8
    requires { i < 2 ^ 32 }
    ensures { result ≡ op_of m.now i }
{
    byte_in(m, 2, 6, i, 0)
}

// A node's op; none where its byte is above the last op's number.
pub fn node_op(m: &[u8], i: usize) -> Option<Op>
    requires { i < 2 ^ 32 }
    ensures some { IfSome result (λ op. number_of_op op ≡ op_of m.now i) }
    ensures none { IfNone result (9 < op_of m.now i) }
{
    Op::try_from(op_of(m, i)).ok()
}

// A node's byte that must be zero.
pub fn zero_of(m: &[u8], i: usize) -> u8
    requires { i < 2 ^ 32 }
    ensures { result ≡ zero_of m.now i }
{
    byte_in(m, 2, 6, i, 1)
}

// A node's left field.
pub fn left_of(m: &[u8], i: usize) -> usize
    requires { i < 2 ^ 32 }
    ensures { (result ≡ left_of m.now i) × (result < 65536) }
{
    half_in(m, 2, 6, i, 2)
}

// A node's right field.
pub fn right_of(m: &[u8], i: usize) -> usize
    requires { i < 2 ^ 32 }
    ensures { (result ≡ right_of m.now i) × (result < 65536) }
{
    half_in(m, 2, 6, i, 4)
}

// A node's record. The op is its byte: what a record may hold is asked of numbers that are no op too.
#[derive(Clone, Copy)]
pub struct Node {
    pub op: u8,
    pub zero: u8,
    pub left: usize,
    pub right: usize,
}

// A node's record that the book ends in or before, field by field.
#[cold]
#[inline(never)]
fn cut_node(m: &[u8], i: usize) -> Node
    requires { i < 2 ^ 32 }
    ensures { (result.op ≡ op_of m.now i) × (result.zero ≡ zero_of m.now i) × (result.left ≡ left_of m.now i) × (result.left < 65536) × (result.right ≡ right_of m.now i) × (result.right < 65536) }
{
    Node {
        op: op_of(m, i),
        zero: zero_of(m, i),
        left: left_of(m, i),
        right: right_of(m, i),
    }
}

// A node's record, for whoever reads most of it: whether it stands in the book is asked once, and not at each field.
#[inline]
pub fn node_at(m: &[u8], i: usize) -> Node
    requires { i < 2 ^ 32 }
    ensures { (result.op ≡ op_of m.now i) × (result.zero ≡ zero_of m.now i) × (result.left ≡ left_of m.now i) × (result.left < 65536) × (result.right ≡ right_of m.now i) × (result.right < 65536) }
{
    let at = start(m, 2) + i * 6;
    if m.len() < at + 6 {
        return cut_node(m, i);
    }
    Node {
        op: m[at],
        zero: m[at + 1],
        left: raw::half(m, at + 2),
        right: raw::half(m, at + 4),
    }
}

// The symbol that a default is on.
pub fn default_symbol(m: &[u8], i: usize) -> usize
    requires { i < 2 ^ 32 }
    ensures { (result ≡ default_symbol m.now i) × (result < 65536) }
{
    default_symbol_from(m, start(m, 3), i)
}

// The symbol that a default is on, where the defaults' start is at hand.
pub fn default_symbol_from(m: &[u8], defaults: usize, i: usize) -> usize
    requires { (defaults ≡ start_of m.now 3) × (defaults < 65536) × (i < 2 ^ 32) }
    ensures { (result ≡ default_symbol m.now i) × (result < 65536) }
{
    raw::half(m, defaults + i * 6)
}

// A default's value node.
pub fn default_value(m: &[u8], i: usize) -> usize
    requires { i < 2 ^ 32 }
    ensures { (result ≡ default_value m.now i) × (result < 65536) }
{
    half_in(m, 3, 6, i, 2)
}

// A default's condition node.
pub fn default_condition(m: &[u8], i: usize) -> usize
    requires { i < 2 ^ 32 }
    ensures { (result ≡ default_condition m.now i) × (result < 65536) }
{
    half_in(m, 3, 6, i, 4)
}

// A select's selector.
pub fn selector_of(m: &[u8], i: usize) -> usize
    requires { i < 2 ^ 32 }
    ensures { (result ≡ selector_of m.now i) × (result < 65536) }
{
    half_in(m, 4, 6, i, 0)
}

// A select's target.
pub fn target_of(m: &[u8], i: usize) -> usize
    requires { i < 2 ^ 32 }
    ensures { (result ≡ target_of m.now i) × (result < 65536) }
{
    target_from(m, start(m, 4), i)
}

// A select's target, where the selects' start is at hand.
pub fn target_from(m: &[u8], selects: usize, k: usize) -> usize
    requires { (selects ≡ start_of m.now 4) × (selects < 65536) × (k < 2 ^ 32) }
    ensures { (result ≡ target_of m.now k) × (result < 65536) }
{
    raw::half(m, selects + k * 6 + 2)
}

// A select's condition node.
pub fn condition_of(m: &[u8], i: usize) -> usize
    requires { i < 2 ^ 32 }
    ensures { (result ≡ condition_of m.now i) × (result < 65536) }
{
    half_in(m, 4, 6, i, 4)
}

// The symbol that a range is on.
pub fn range_symbol(m: &[u8], i: usize) -> usize
    requires { i < 2 ^ 32 }
    ensures { (result ≡ range_symbol m.now i) × (result < 65536) }
{
    half_in(m, 5, 8, i, 0)
}

// A range's low node.
pub fn low_of(m: &[u8], i: usize) -> usize
    requires { i < 2 ^ 32 }
    ensures { (result ≡ low_of m.now i) × (result < 65536) }
{
    half_in(m, 5, 8, i, 2)
}

// A range's high node.
pub fn high_of(m: &[u8], i: usize) -> usize
    requires { i < 2 ^ 32 }
    ensures { (result ≡ high_of m.now i) × (result < 65536) }
{
    half_in(m, 5, 8, i, 4)
}

// A range's condition node.
pub fn range_condition(m: &[u8], i: usize) -> usize
    requires { i < 2 ^ 32 }
    ensures { (result ≡ range_condition m.now i) × (result < 65536) }
{
    half_in(m, 5, 8, i, 6)
}

// A choice's kind: 0 boolean, 1 tristate.
pub fn choice_kind(m: &[u8], i: usize) -> u8
    requires { i < 2 ^ 32 }
    ensures { result ≡ choice_kind m.now i }
{
    byte_in(m, 6, 8, i, 0)
}

// Whether a choice is mandatory: 0 or 1.
pub fn mandatory_of(m: &[u8], i: usize) -> u8
    requires { i < 2 ^ 32 }
    ensures { result ≡ mandatory_of m.now i }
{
    byte_in(m, 6, 8, i, 1)
}

// A choice's prompt node.
pub fn choice_prompt(m: &[u8], i: usize) -> usize
    requires { i < 2 ^ 32 }
    ensures { (result ≡ choice_prompt m.now i) × (result < 65536) }
{
    half_in(m, 6, 8, i, 2)
}

// A choice's first member.
pub fn first_member(m: &[u8], i: usize) -> usize
    requires { i < 2 ^ 32 }
    ensures { (result ≡ first_member m.now i) × (result < 65536) }
{
    half_in(m, 6, 8, i, 4)
}

// How many members a choice has.
pub fn member_count(m: &[u8], i: usize) -> usize
    requires { i < 2 ^ 32 }
    ensures { (result ≡ member_count m.now i) × (result < 65536) }
{
    half_in(m, 6, 8, i, 6)
}

// The symbol of a member record.
pub fn member_symbol(m: &[u8], i: usize) -> usize
    requires { i < 2 ^ 32 }
    ensures { (result ≡ member_symbol m.now i) × (result < 65536) }
{
    member_symbol_from(m, start(m, 7), i)
}

// The symbol of a member record, where the members' start is at hand.
pub fn member_symbol_from(m: &[u8], members: usize, i: usize) -> usize
    requires { (members ≡ start_of m.now 7) × (members < 65536) × (i < 2 ^ 32) }
    ensures { (result ≡ member_symbol m.now i) × (result < 65536) }
{
    raw::half(m, members + i * 2)
}

// How many bytes a record of section k takes.
pub fn width(k: usize) -> usize
    requires { k < 9 }
    ensures { (result ≡ width_of k) × (result < 9) }
{
    WIDTHS[k]
}

// Whether a symbol is boolean or tristate.
pub fn is_three(m: &[u8], s: usize) -> bool
    requires { s < 2 ^ 32 }
    ensures { result ≡ three_type m.now s }
{
    type_of(m, s) <= 1
}

// Whether a node is a leaf.
pub fn is_leaf(m: &[u8], i: usize) -> bool
    requires { i < 2 ^ 32 }
    ensures { result ≡ is_leaf m.now i }
{
    op_of(m, i) <= 4
}

// Where a symbol's name stands in the book.
pub fn name_start(m: &[u8], s: usize) -> usize
    requires { s < 2 ^ 32 }
    ensures { (result ≡ name_start m.now s) × (result < 131072) }
{
    text_start(m) + name_offset(m, s)
}

// The part of the book that spells a symbol's name.
pub fn spelled_name(m: &[u8], s: usize) -> &[u8]
    requires { s < 2 ^ 32 }
    ensures { result.now ≡ spelled_name m.now s }
{
    name_from(m, start(m, 1), text_start(m), s)
}

// The same, where the symbols' start and the texts' are at hand.
pub fn name_from(m: &[u8], symbols: usize, texts: usize, s: usize) -> &[u8]
    requires { (symbols ≡ start_of m.now 1) × (symbols < 65536) × (texts ≡ text_start m.now) × (texts < 65536) × (s < 2 ^ 32) }
    ensures { (result.now ≡ spelled_name m.now s) × (length result.now < 256) }
{
    let n = usize::from(name_length_from(m, symbols, s));
    raw::part(m, texts + name_offset_from(m, symbols, s), n)
}
