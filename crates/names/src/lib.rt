// The symbol records in order, each name against all before it, by blocks of 224.
//
// Total over any bytes. The names of a block are linked by a key, each looked up among those before it; then each name before the block
// is looked up. Names are compared only where their links are the same. A block in which many are is linked again, by other keys.
#![tactic(auto)]

ghost use Rattle.std.specs.Prelude.{◌≡◌, true, false, ℕ, min, ◌+◌, ◌/◌, ◌%◌, ◌^◌, ◌<◌, ◌≤◌, length, eqb, get_or, set, replicate, IfOk, IfErr, MatchOption};
ghost use Rattle.meaning.specs.Base.{Clean};
ghost use Rattle.meaning.specs.Base.{word, first_below};
ghost use Rattle.meaning.specs.Book.{start as start_of, text_start, spelled_name, new_name, record_at, section_fault};
ghost use Rattle.names.specs.Keys.{mix, few as few_of, key_of, name_key, link_of, first_mark, second_mark, bit_at, Marked, Linked, Headed, AllMarked, Different, NotAmong, NewUpTo};

use meaning::{Outcome, Refusal, refuse_with, refuse_with_if, turns};

// How many names a block has at most.
const BLOCK: usize = 224;

// How many tries a block has, and how many names a limited one may compare with one: each is limited but the last.
const TRIES: usize = 8;

const MOST: usize = 10;

// What a key is kept below while it is made, and its last factor, which spreads it.
const MODULUS: usize = 4294967296;

const LAST_FACTOR: usize = 1640532007;

// Where a key has its link, and its two marks.
const LINK: usize = 1073741824;

const FIRST_MARK: usize = 67108864;

const SECOND_MARK: usize = 32768;

// How many links there are, and how many marks.
const LINKS: usize = 128;

const MARKS: usize = 2048;

// The refusal of a try that would have to compare or look up more names than it may.
#[derive(Clone, Copy)]
struct Busy;

// Four bytes as a number.
#[tactic(auto, unfolding(meaning::specs::Base::word, meaning::specs::Base::half))]
fn four(s: &[u8], i: usize) -> usize
    requires { i + 4 ≤ length s.now }
    ensures { (result ≡ word s.now i) × (result < 4294967296) }
{
    u32::from_le_bytes([s[i], s[i + 1], s[i + 2], s[i + 3]]) as usize
}

// A key so far, and eight bytes more: each four of a name go in with a power of the factor of their own.
fn mixed(sum: usize, factor: usize, low: usize, high: usize) -> usize
    requires { (sum < 4294967296) × (factor < 2147483648) × (low < 4294967296) × (high < 4294967296) }
    ensures { (result ≡ mix factor sum low high) × (result < 4294967296) }
{
    ((sum * factor + low) % MODULUS * factor + high) % MODULUS
}

// Up to three bytes as a number.
#[tactic(auto, unfolding(crate::specs::Keys::few))]
fn few(s: &[u8]) -> usize
    ensures { (result ≡ few_of s.now) × (result < 16777216) }
{
    let Some(last) = s.last() else {
        return 0;
    };
    usize::from(s[0]) + 256 * usize::from(s[s.len() / 2]) + 65536 * usize::from(*last)
}

// A name's key.
fn key(name: &[u8], factor: usize) -> usize
    requires { (length name.now < 256) × (factor < 2147483648) }
    ensures { result ≡ key_of factor name.now }
{
    let n = name.len();
    if n < 4 {
        return mixed(n, factor, few(name), 0) * LAST_FACTOR;
    }
    if n < 8 {
        return mixed(n, factor, four(name, 0), four(name, n - 4)) * LAST_FACTOR;
    }
    let mut sum = n;
    for eight in name.chunks_exact(8) {
        sum = mixed(sum, factor, four(eight, 0), four(eight, 4));
    }
    mixed(sum, factor, four(name, n - 8), four(name, n - 4)) * LAST_FACTOR
}

// The part of a key that counts in units, below SIZE.
fn part<const UNIT: usize, const SIZE: usize>(key: usize) -> usize
    requires { (0 < UNIT) × (0 < SIZE) }
    ensures { (result ≡ key / UNIT % SIZE) × (result < SIZE) }
{
    key / UNIT % SIZE
}

// What the keys of try c are made with.
fn factor_of(c: usize) -> usize
    requires { c < 8 }
    ensures { result < 2147483648 }
{
    1000000007 + 100000006 * c
}

// A set of marks, each a bit.
#[derive(Drop)]
struct Marks {
    bytes: [u8; 256],
}

impl Marks {
    // Whether mark h is set.
    fn has(&self, h: usize) -> bool
        requires { h < 2048 }
        ensures { result ≡ eqb (bit_at (get_or self.now.bytes (h / 8) 0) (h % 8)) 1 }
    {
        (self.bytes[h / 8] >> (h % 8)) % 2 == 1
    }

    // Sets mark h too.
    fn add(&mut self, h: usize)
        requires { h < 2048 }
        ensures { Marked self.new.bytes h × ((q : ℕ) → Marked self.old.bytes q → Marked self.new.bytes q) }
    {
        self.bytes[h / 8] |= 1u8 << (h % 8);
    }
}

// The book, where its symbols and its texts start, and the first symbol of a block.
#[derive(Clone, Copy)]
struct Block<'a> {
    m: &'a [u8],
    symbols: usize,
    texts: usize,
    base: usize,
    ghost symbols_start: { (symbols ≡ start_of m.now 1) × (symbols < 65536) },
    ghost texts_start: { (texts ≡ text_start m.now) × (texts < 65536) },
    ghost early: { base < 65536 },
}

impl<'a> Block<'a> {
    // The block from symbol base on.
    fn new(m: &'a [u8], base: usize) -> Self
        requires { base < 65536 }
        ensures { (result.m.now ≡ m.now) × (result.base ≡ base) }
    {
        Block {
            m,
            symbols: fields::start(m, 1),
            texts: fields::text_start(m),
            base,
        }
    }

    // The name of symbol s, of the block or not.
    fn name(&self, s: usize) -> &'a [u8]
        requires { s < 2 ^ 32 }
        ensures { (result.now ≡ spelled_name self.now.m.now s) × (length result.now < 256) }
    {
        fields::name_from(self.m, self.symbols, self.texts, s)
    }
}

// The rooms in which the names of a block are linked, and their marks.
#[derive(Drop)]
struct Rooms {
    heads: [u8; LINKS],
    marks: Marks,
    nexts: [u8; BLOCK],
    ghost sizes: { (length heads ≡ 128) × (length nexts ≡ 224) },
}

impl Rooms {
    // Rooms with no name in them.
    fn new() -> Self
        ensures { result.heads ≡ replicate 128 0 }
    {
        Rooms {
            heads: [0; LINKS],
            marks: Marks { bytes: [0; 256] },
            nexts: [0; BLOCK],
        }
    }

    // Writes name k down, by its key: which name of its link comes next, and its marks.
    fn add(&mut self, k: usize, key: usize)
        requires { k < 224 }
        ensures heads { self.new.heads ≡ self.old.heads }
        ensures nexts { self.new.nexts ≡ set self.old.nexts k (get_or self.old.heads (link_of key) 0) }
        ensures marked { Marked self.new.marks.bytes (first_mark key) × Marked self.new.marks.bytes (second_mark key) }
        ensures keeps { (h : ℕ) → Marked self.old.marks.bytes h → Marked self.new.marks.bytes h }
    {
        self.nexts[k] = self.heads[part::<LINK, LINKS>(key)];
        self.marks.add(part::<FIRST_MARK, MARKS>(key));
        self.marks.add(part::<SECOND_MARK, MARKS>(key));
    }

    // Has the link of this key start at name k.
    fn head(&mut self, k: usize, key: usize)
        requires { k < 224 }
        ensures heads { self.new.heads ≡ set self.old.heads (link_of key) (k + 1) }
        ensures others { (self.new.nexts ≡ self.old.nexts) × (self.new.marks ≡ self.old.marks) }
    {
        self.heads[part::<LINK, LINKS>(key)] = (k + 1) as u8;
    }
}

// The first `count` names of a block, all different, as they stand in the rooms: each is linked to the one before it of its link, and has both its marks.
#[derive(Clone, Copy)]
struct Links<'a> {
    block: Block<'a>,
    factor: usize,
    count: usize,
    rooms: &'a Rooms,
    ghost small: { factor < 2147483648 },
    ghost few: { count ≤ 224 },
    ghost headed: { Headed factor block.m.now block.base rooms.now.heads count },
    ghost linked: { Linked factor block.m.now block.base rooms.now.nexts count },
    ghost marked: { AllMarked factor block.m.now block.base rooms.now.marks.bytes count },
    ghost different: { Different block.m.now block.base count },
}

impl<'a> Links<'a> {
    // Links the n names of the block up to the first that is one of those before it.
    fn new(
        block: Block<'a>,
        n: usize,
        factor: usize,
        limited: bool,
        rooms: &'a mut Rooms,
    ) -> Result<Self, Busy>
        requires { (n ≤ 224) × (factor < 2147483648) × (rooms.old.heads ≡ replicate 128 0) }
        ensures stopped { IfOk result (λ r. (r.block ≡ block.entry) × (r.count ≤ n) × (r.count < n → new_name block.entry.m.now (block.entry.base + r.count) ≡ false)) }
        ensures busy { IfErr result (λ _. limited ≡ true) }
    {
        for k in 0..n {
            let name = block.name(block.base + k);
            let x = key(name, factor);
            rooms.add(k, x);
            let links = Links {
                block,
                factor,
                count: k,
                rooms: &*rooms,
            };
            if links.find(name, x, limited)?.is_some() {
                return Ok(Links {
                    block,
                    factor,
                    count: k,
                    rooms: &*rooms,
                });
            }
            rooms.head(k, x);
        }
        Ok(Links {
            block,
            factor,
            count: n,
            rooms: &*rooms,
        })
    }

    // Whether a key may be that of a linked name: both its marks are set.
    fn may_have(&self, key: usize) -> bool
        ensures { result ≡ false → Marked self.now.rooms.now.marks.bytes (first_mark key) × Marked self.now.rooms.now.marks.bytes (second_mark key) → ⊥ }
    {
        let marks = &self.rooms.marks;
        marks.has(part::<FIRST_MARK, MARKS>(key)) & marks.has(part::<SECOND_MARK, MARKS>(key))
    }

    // Which linked name is `name`, whose key this is, if any is; Busy if more had to be compared than a limited try may. Inlined, since a frame
    // of its own is over the bar of stack.
    #[inline(always)]
    fn find(&self, name: &[u8], key: usize, limited: bool) -> Result<Option<usize>, Busy>
        requires { key ≡ key_of self.now.factor name.now }
        ensures found { IfOk result (λ o. MatchOption o (NotAmong self.now.block.m.now self.now.block.base name.now self.now.count) (λ j. (j < self.now.count) × (name.now ≡ spelled_name self.now.block.m.now (self.now.block.base + j)))) }
        ensures busy { IfErr result (λ _. limited ≡ true) }
    {
        let mut c = usize::from(self.rooms.heads[part::<LINK, LINKS>(key)]);
        let mut compared: usize = 0;
        while let Some(j) = c.checked_sub(1) {
            if limited && compared == MOST {
                return Err(Busy);
            }
            if raw::same(name, self.block.name(self.block.base + j)) {
                return Ok(Some(j));
            }
            c = usize::from(self.rooms.nexts[j]);
            compared += 1;
        }
        Ok(None)
    }

    // How many of the linked names, from the first on, are new: no name before the block is one. A limited try may look up a quarter of
    // those and some more.
    fn new_ones(&self, limited: bool) -> Result<usize, Busy>
        ensures new { IfOk result (λ r. (r ≤ self.now.count) × NewUpTo self.now.block.m.now self.now.block.base r × (r < self.now.count → new_name self.now.block.m.now (self.now.block.base + r) ≡ false)) }
        ensures busy { IfErr result (λ _. limited ≡ true) }
    {
        let base = self.block.base;
        let mut new = self.count;
        let mut looked_up: usize = 0;
        for e in 0..base {
            let name = self.block.name(e);
            let x = key(name, self.factor);
            if self.may_have(x) {
                looked_up += 1;
                if limited && base < 4 * looked_up.saturating_sub(64) {
                    return Err(Busy);
                }
                if let Some(j) = self.find(name, x, false)? {
                    new = new.min(j);
                }
            }
        }
        Ok(new)
    }
}

// How many of the n names of the block, from the first on, are new, up to the first that is not.
fn fresh(m: &[u8], base: usize, n: usize, factor: usize, limited: bool) -> Result<usize, Busy>
    requires { (base < 65536) × (n ≤ 224) × (factor < 2147483648) }
    ensures new { IfOk result (λ r. (r ≤ n) × NewUpTo m.now base r × (r < n → new_name m.now (base + r) ≡ false)) }
    ensures busy { IfErr result (λ _. limited ≡ true) }
{
    let mut rooms = Rooms::new();
    let links = Links::new(Block::new(m, base), n, factor, limited, &mut rooms)?;
    links.new_ones(limited)
}

// How many of the n names from base on are new, up to the first that is not. The last try, which is not limited, has the answer.
fn first_old(m: &[u8], base: usize, n: usize) -> usize
    requires { (base < 65536) × (n ≤ 224) }
    ensures { (result ≤ n) × ((s : ℕ) → base ≤ s → s < base + result → new_name m.now s ≡ true) × (result < n → new_name m.now (base + result) ≡ false) }
{
    for c in 0..TRIES {
        if let Ok(new) = fresh(m, base, n, factor_of(c), c + 1 < TRIES) {
            return new;
        }
    }
    unreachable!()
}

// 3 at symbol s, if it is malformed, where its name is new.
fn symbol_at(m: &[u8], s: usize) -> Outcome
    requires { (s < 65536) × (new_name m.now s ≡ true) }
    ensures { result ≡ record_at m.now 1 s }
{
    refuse_with_if(!records::symbol_fits(m, s), Refusal::Record, 1, s)
}

// 3: the first malformed symbol below end, where there is none below base and the names from base on are new.
fn block_fault(m: &[u8], base: usize, end: usize) -> Outcome
    requires { (base ≤ end) × (end < 65536) × (first_below (record_at m.now 1) base ≡ Clean) × ((s : ℕ) → base ≤ s → s < end → new_name m.now s ≡ true) }
    ensures { result ≡ first_below (record_at m.now 1) end }
{
    turns::first_fault_from(base, end, |s| symbol_at(m, s))
}

// Where the block from base on ends.
fn end_of(base: usize, n: usize) -> usize
    requires { (base < n) × (n < 65536) }
    ensures { result ≡ min n (base + 224) }
{
    n.min(base + BLOCK)
}

// 3: the first malformed symbol.
pub fn fault(m: &[u8]) -> Outcome
    ensures { result ≡ section_fault m.now 1 }
{
    let n = fields::symbols(m);
    for base in (0..n).step_by(BLOCK) {
        let end = end_of(base, n);
        let old = base + first_old(m, base, end - base);
        block_fault(m, base, old)?;
        if old < end {
            return refuse_with(Refusal::Record, 1, old);
        }
    }
    Ok(())
}
