// The model book: is it well formed, and what is a symbol's name.
//
// Total over any bytes. `fault` has answers 1 to 4, the first fault in document 01's order with both its places; `name` hands
// back the part of the book that spells a symbol's name.
#![tactic(auto)]

ghost use Rattle.std.specs.Prelude.{◌≡◌, ◌+◌, ◌<◌, ◌≤◌};
ghost use Rattle.meaning.specs.Base.{first_below};
ghost use Rattle.meaning.specs.Book.{due as due_of, length_fault, chain_at, end_fault, chain_fault, record_at, section_fault};
ghost use Rattle.meaning.specs.Book.{section_after, unused_fault, member_at, choice_members_fault, members_fault, records_fault};
ghost use Rattle.meaning.specs.Book.{modules_fault, book_fault, name_of, members as members_of, first_member, member_count};
ghost use Rattle.members.specs.Old.{FirstOld};
ghost use Rattle.book.specs.Turns.{InTurn};

use fields::SymbolType;
use meaning::{Outcome, Refusal, refuse_if, refuse_with_if, turns};

// 1: too short, or unlike its total.
#[tactic(auto, unfolding(meaning::specs::Book::length_fault, meaning::specs::Base::when))]
fn length_fault(m: &[u8]) -> Outcome
    ensures { result ≡ length_fault m.now }
{
    let n = m.len();
    let bad = (n < 36) | (n != fields::total(m));
    refuse_if(bad, Refusal::Length, 0)
}

// Where section k must start, of those from 1 to 9: behind the one before it.
fn due(m: &[u8], k: usize) -> usize
    requires { (0 < k) × (k < 10) }
    ensures { result ≡ due_of m.now k }
{
    if k == 1 {
        return 36;
    }
    let former = k - 1;
    fields::start(m, former) + fields::count(m, former) * fields::width(former)
}

// 2 at section k + 1, if it is not where the chain puts it.
#[tactic(auto, unfolding(meaning::specs::Book::chain_at, meaning::specs::Base::when))]
fn chain_at(m: &[u8], k: usize) -> Outcome
    requires { k < 8 }
    ensures { result ≡ chain_at m.now k }
{
    let section = k + 1;
    let bad = fields::start(m, section) != due(m, section);
    refuse_if(bad, Refusal::Section, section)
}

// 2 at section 8, if the last section does not end at the total.
#[tactic(auto, unfolding(meaning::specs::Book::end_fault, meaning::specs::Base::when))]
fn end_fault(m: &[u8]) -> Outcome
    ensures { result ≡ end_fault m.now }
{
    let bad = due(m, 9) != fields::total(m);
    refuse_if(bad, Refusal::Section, 8)
}

// 2: the first section out of place.
#[tactic(auto, unfolding(meaning::specs::Book::chain_fault, meaning::specs::Base::or_else))]
fn chain_fault(m: &[u8]) -> Outcome
    ensures { result ≡ chain_fault m.now }
{
    turns::first_fault(8, |k| chain_at(m, k))?;
    end_fault(m)
}

// 3 at record i of section k, another than the symbols', if it is malformed.
#[tactic(auto, unfolding(meaning::specs::Book::record_at, meaning::specs::Base::when))]
fn record_at(m: &[u8], k: usize, i: usize) -> Outcome
    requires { (k < 16) × (k ≡ 1 → ⊥) × (i < 65536) }
    ensures { result ≡ record_at m.now k i }
{
    let bad = !records::record_ok(m, k, i);
    refuse_with_if(bad, Refusal::Record, k, i)
}

// 3: the first malformed record of section k.
#[tactic(auto, unfolding(meaning::specs::Book::section_fault))]
fn section_fault(m: &[u8], k: usize) -> Outcome
    requires { k < 16 }
    ensures { result ≡ section_fault m.now k }
{
    if k == 1 {
        return names::fault(m);
    }
    turns::first_fault(fields::count(m, k), |i| record_at(m, k, i))
}

// 3 behind the last choice, if the choices do not use all members.
#[tactic(auto, unfolding(meaning::specs::Book::unused_fault, meaning::specs::Base::when))]
fn unused_fault(m: &[u8]) -> Outcome
    ensures { result ≡ unused_fault m.now }
{
    let n = fields::choices(m);
    let bad = records::member_due(m, n) != fields::members(m);
    refuse_with_if(bad, Refusal::Record, 6, n)
}

// 3 at choice c's member j, if it is malformed. It stands no later than `old`, the first member record whose symbol is in an earlier one.
#[tactic(auto, unfolding(meaning::specs::Book::member_at, meaning::specs::Base::when))]
fn member_at(m: &[u8], c: usize, j: usize, old: usize) -> Outcome
    requires { (c < 65536) × (first_member m.now c + j < members_of m.now) × (members_of m.now < 65536) × FirstOld m.now old × (first_member m.now c + j ≤ old) }
    ensures { result ≡ member_at m.now c j }
{
    let i = fields::first_member(m, c) + j;
    let good = records::member_fits(m, c, i) & (i != old);
    refuse_with_if(!good, Refusal::Record, 7, i)
}

// 3: the first malformed member of choice c. Its members start no later than `old`.
#[tactic(auto, unfolding(meaning::specs::Book::choice_members_fault))]
fn choice_members_fault(m: &[u8], c: usize, old: usize) -> Outcome
    requires { (c < 65536) × (first_member m.now c + member_count m.now c ≤ members_of m.now) × (members_of m.now < 65536) × FirstOld m.now old × (first_member m.now c ≤ old) }
    ensures { result ≡ choice_members_fault m.now c }
{
    for j in 0..fields::member_count(m, c) {
        member_at(m, c, j, old)?;
    }
    Ok(())
}

// 3: the first malformed member, where the choices take the members in turn.
#[tactic(auto, unfolding(meaning::specs::Book::members_fault))]
fn members_fault(m: &[u8]) -> Outcome
    requires { InTurn m.now }
    ensures { result ≡ members_fault m.now }
{
    let old = members::first_old(m);
    for c in 0..fields::choices(m) {
        choice_members_fault(m, c, old)?;
    }
    Ok(())
}

// 3: the first malformed record of sections 1 to 6.
#[tactic(auto, unfolding(meaning::specs::Book::section_after))]
fn sections_fault(m: &[u8]) -> Outcome
    ensures { result ≡ first_below (section_after m.now) 6 }
{
    turns::first_fault(6, |k| section_fault(m, k + 1))
}

// 3: the first malformed record.
#[tactic(auto, unfolding(meaning::specs::Book::records_fault, meaning::specs::Base::or_else))]
fn records_fault(m: &[u8]) -> Outcome
    ensures { result ≡ records_fault m.now }
{
    sections_fault(m)?;
    unused_fault(m)?;
    members_fault(m)
}

// 4: the modules symbol is no boolean symbol. 65535 stands for none in the book itself.
#[tactic(auto, unfolding(meaning::specs::Book::modules_fault, meaning::specs::Base::when))]
fn modules_fault(m: &[u8]) -> Outcome
    ensures { result ≡ modules_fault m.now }
{
    let s = fields::modules(m);
    let boolean = (s < fields::symbols(m))
        & (fields::symbol_type(m, s) == Some(SymbolType::Boolean));
    let bad = (s != 65535) & !boolean;
    refuse_if(bad, Refusal::ModulesSymbol, s)
}

// The first fault of a book: 1 to 4.
#[tactic(auto, unfolding(meaning::specs::Book::book_fault, meaning::specs::Base::or_else))]
pub fn fault(m: &[u8]) -> Outcome
    ensures { result ≡ book_fault m.now }
{
    length_fault(m)?;
    chain_fault(m)?;
    records_fault(m)?;
    modules_fault(m)
}

// The name of a symbol, as the part of the book that spells it: empty for a number that is no symbol's, and for a bad book.
#[tactic(auto, unfolding(meaning::specs::Book::name_of))]
pub fn name(model: &[u8], index: usize) -> &[u8]
    ensures { result.now ≡ name_of model.now index }
{
    if fault(model).is_err() {
        return &[];
    }
    if fields::symbols(model) <= index {
        return &[];
    }
    fields::spelled_name(model, index)
}
