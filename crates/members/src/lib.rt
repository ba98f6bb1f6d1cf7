// The first old member record, one whose symbol stands in an earlier one, by blocks of 256 symbols.
//
// Total over any bytes. One pass over the member records marks the symbols of a block that were met; each next one goes up to the
// first record found so far.
#![tactic(auto)]

ghost use Rattle.std.specs.Prelude.{◌≡◌, ◌+◌, ◌-◌, ◌<◌, ◌≤◌, SomeIff};
ghost use Rattle.std.specs.Option.{unwrap_or};
ghost use Rattle.members.specs.Old.{FirstOldIn, FirstOld};

// How many symbols a block has at most.
const BLOCK: usize = 256;

// Where s stands among the width symbols from base on, if it is one of them.
fn place(s: usize, base: usize, width: usize) -> Option<usize>
    ensures { SomeIff result ((base ≤ s) × (s - base < width)) (s - base) }
{
    s.checked_sub(base).filter(|k| *k < width)
}

// The first of the first n member records that meets one of the width symbols from base on a second time, if one does.
fn first_old_in(m: &[u8], n: usize, base: usize, width: usize) -> Option<usize>
    requires { (n < 65536) × (width ≤ 256) }
    ensures { FirstOldIn m.now base (base + width) n (unwrap_or result n) }
{
    let members = fields::start(m, 7);
    let mut met = [false; BLOCK];
    for i in 0..n {
        if let Some(k) = place(fields::member_symbol_from(m, members, i), base, width) {
            if met[k] {
                return Some(i);
            }
            met[k] = true;
        }
    }
    None
}

// The first member record on a symbol of the book that stands in an earlier one; the number of member records if there is none.
pub fn first_old(m: &[u8]) -> usize
    ensures { FirstOld m.now result }
{
    let symbols = fields::symbols(m);
    let mut old = fields::members(m);
    for base in (0..symbols).step_by(BLOCK) {
        let width = BLOCK.min(symbols - base);
        old = first_old_in(m, old, base, width).unwrap_or(old);
    }
    old
}
