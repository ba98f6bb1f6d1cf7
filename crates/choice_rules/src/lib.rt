// Rules 15 to 17 at one choice, and rule 18 at one symbol.
//
// Total over any bytes: the node work has the nodes' values. A choice's number is below 2^16.
#![tactic(auto)]

ghost use Rattle.std.specs.Prelude.{◌≡◌, ◌<◌, eqb};
ghost use Rattle.meaning.specs.Base.{first_where};
ghost use Rattle.meaning.specs.Book.{member_of, member_count};
ghost use Rattle.meaning.specs.Rules.{member_value, at_least, ms_of, other_of};
ghost use Rattle.meaning.specs.Rules.{test15, test16, test17, choice_fault, test18};

use meaning::{Outcome, Refusal, refuse_if, refuse_with, turns};
use tri::Tri;
use values::Valued;

// The symbol that is choice c's member j.
pub fn member(m: &[u8], c: usize, j: usize) -> usize
    requires { (c < 65536) × (j < 131072) }
    ensures { (result ≡ member_of m.now c j) × (result < 65536) }
{
    fields::member_symbol(m, fields::first_member(m, c) + j)
}

// The value of choice c's member j.
fn member_value(x: &Valued, c: usize, j: usize) -> Tri
    requires { (c < 65536) × (j < 131072) }
    ensures { result.v ≡ member_value x.now.model.now x.now.table.now c j }
{
    entries::three(x.table, member(x.model, c, j))
}

// How many members of choice c are at least v.
#[tactic(auto, using(tri::proofs::Order::up_to), unfolding(meaning::specs::Rules::at_least))]
fn at_least(x: &Valued, c: usize, v: Tri) -> usize
    requires { c < 65536 }
    ensures { result ≡ at_least (member_value x.now.model.now x.now.table.now c) (member_count x.now.model.now c) v.v }
{
    turns::count(
        fields::member_count(x.model, c),
        |j| v <= member_value(x, c, j),
    )
}

// How many members of choice c are m.
#[tactic(auto, unfolding(meaning::specs::Rules::ms_of))]
fn ms(x: &Valued, c: usize) -> usize
    requires { c < 65536 }
    ensures { result ≡ ms_of x.now.model.now x.now.table.now c }
{
    turns::count(
        fields::member_count(x.model, c),
        |j| member_value(x, c, j) == Tri::M,
    )
}

// The first member of choice c whose value is v, or the member count.
fn first_that_is(x: &Valued, c: usize, v: Tri) -> usize
    requires { c < 65536 }
    ensures { (result ≡ first_where (λ j. eqb (member_value x.now.model.now x.now.table.now c j) v.v) (member_count x.now.model.now c)) × (result < 65536) }
{
    turns::first(
        fields::member_count(x.model, c),
        |j| member_value(x, c, j) == v,
    )
}

// The first member of choice c above n, other than the first that is y.
#[tactic(auto, unfolding(meaning::specs::Rules::other_of, meaning::specs::Rules::first_yes))]
fn other(x: &Valued, c: usize) -> usize
    requires { c < 65536 }
    ensures { (result ≡ other_of x.now.model.now x.now.table.now c) × (result < 65536) }
{
    let y = first_that_is(x, c, Tri::Y);
    turns::first(
        fields::member_count(x.model, c),
        |j| (Tri::N < member_value(x, c, j)) & (j != y),
    )
}

// 15 at c: a member is y, another above n.
#[tactic(auto, using(tri::proofs::Order::below), unfolding(meaning::specs::Rules::test15, meaning::specs::Rules::some_of, meaning::specs::Rules::ys_of, meaning::specs::Base::when))]
fn one_fault(x: &Valued, c: usize) -> Outcome
    requires { c < 65536 }
    ensures { result ≡ test15 x.now.model.now x.now.table.now x.now.work.now c }
{
    let p = x.node(fields::choice_prompt(x.model, c));
    let some = at_least(x, c, Tri::M);
    let ys = at_least(x, c, Tri::Y);
    if (Tri::N < p) & (2 <= some) & (1 <= ys) {
        return refuse_with(Refusal::One, c, member(x.model, c, other(x, c)));
    }
    Ok(())
}

// 16 at c: it is boolean, and a member is m.
#[tactic(auto, using(tri::proofs::Order::below), unfolding(meaning::specs::Rules::test16, meaning::specs::Rules::first_module, meaning::specs::Base::when))]
fn kind_fault(x: &Valued, c: usize) -> Outcome
    requires { c < 65536 }
    ensures { result ≡ test16 x.now.model.now x.now.table.now x.now.work.now c }
{
    let p = x.node(fields::choice_prompt(x.model, c));
    if (Tri::N < p) & (fields::choice_kind(x.model, c) == 0) & (1 <= ms(x, c)) {
        let module = member(x.model, c, first_that_is(x, c, Tri::M));
        return refuse_with(Refusal::Kind, c, module);
    }
    Ok(())
}

// 17 at c: it is mandatory, and no member is above n.
#[tactic(auto, using(tri::proofs::Order::below), unfolding(meaning::specs::Rules::test17, meaning::specs::Rules::some_of))]
fn mandatory_fault(x: &Valued, c: usize) -> Outcome
    requires { c < 65536 }
    ensures { result ≡ test17 x.now.model.now x.now.table.now x.now.work.now c }
{
    let p = x.node(fields::choice_prompt(x.model, c));
    let some = at_least(x, c, Tri::M);
    let bad = (Tri::N < p) & (fields::mandatory_of(x.model, c) == 1) & (some == 0);
    refuse_if(bad, Refusal::Mandatory, c)
}

// 15 to 17 at c.
#[tactic(auto, unfolding(meaning::specs::Rules::choice_fault, meaning::specs::Base::or_else))]
pub fn choice_fault(x: &Valued, c: usize) -> Outcome
    requires { c < 65536 }
    ensures { result ≡ choice_fault x.now.model.now x.now.table.now x.now.work.now c }
{
    one_fault(x, c)?;
    kind_fault(x, c)?;
    mandatory_fault(x, c)
}

// 18 at s: it is m, and the modules symbol n.
#[tactic(auto, unfolding(meaning::specs::Rules::test18))]
pub fn modules_fault(m: &[u8], t: &[u8], s: usize) -> Outcome
    requires { s < 65536 }
    ensures { result ≡ test18 m.now t.now s }
{
    let modules = fields::modules(m);
    let off = entries::three(t, modules);
    let v = entries::three(t, s);
    let bad = (modules != 65535) & (off == Tri::N) & (v == Tri::M);
    refuse_if(bad, Refusal::Modules, s)
}
