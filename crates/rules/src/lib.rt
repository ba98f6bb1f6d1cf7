// The rules in order, and the table check.
//
// `check` is the table check: any bytes in, one outcome out, and the node work afterwards as document 01 owes it. `check_in` is what
// it does after the book, for many tables of one book.
#![tactic(auto)]

ghost use Rattle.std.specs.Prelude.{◌≡◌};
ghost use Rattle.meaning.specs.Base.{first_below};
ghost use Rattle.meaning.specs.Book.{symbols as symbols_of, choices as choices_of};
ghost use Rattle.meaning.specs.Rules.{test10, choice_fault, test18, rules_fault};
ghost use Rattle.rules.specs.Checked.{Checked, CheckedIn};

use meaning::{Outcome, Refusal, refuse, turns};
use values::Valued;

// 10: the first entry that does not fit its symbol's type.
fn types_fault(m: &[u8], t: &[u8]) -> Outcome
    ensures { result ≡ first_below (test10 m.now t.now) (symbols_of m.now) }
{
    turns::first_fault(fields::symbols(m), |s| symbol_rules::type_fault(m, t, s))
}

// 15 to 17, choice by choice. A call of its own, so that the rules before it need none of its stack.
#[inline(never)]
fn choices_fault(x: &Valued) -> Outcome
    ensures { result ≡ first_below (choice_fault x.now.model.now x.now.table.now x.now.work.now) (choices_of x.now.model.now) }
{
    turns::first_fault(
        fields::choices(x.model),
        |c| choice_rules::choice_fault(x, c),
    )
}

// 18: the first symbol that is m without modules.
fn modules_fault(m: &[u8], t: &[u8]) -> Outcome
    ensures { result ≡ first_below (test18 m.now t.now) (symbols_of m.now) }
{
    turns::first_fault(fields::symbols(m), |s| choice_rules::modules_fault(m, t, s))
}

// The first broken rule, where the node work has the nodes' values.
#[tactic(auto, unfolding(meaning::specs::Rules::rules_fault, meaning::specs::Base::or_else))]
pub fn fault(x: &Valued) -> Outcome
    ensures { result ≡ rules_fault x.now.model.now x.now.table.now x.now.work.now }
{
    types_fault(x.model, x.table)?;
    blocks::fault(x)?;
    choices_fault(x)?;
    modules_fault(x.model, x.table)
}

// What the table check does after the book: 0, 5 to 7 and 10 to 18. Refused at 5 to 7 the node work stays, else it has each node's
// value in front.
#[tactic(auto, using(crate::proofs::Laws::in_front), unfolding(meaning::specs::Rules::verdict_in, meaning::specs::Rules::refusal_in, meaning::specs::Rules::node_room_fault, meaning::specs::Rules::rule_fault, meaning::specs::Rules::node_work_in, meaning::specs::Base::when, meaning::specs::Base::or_else))]
pub fn check_in(model: &[u8], table: &[u8], work: &mut [u8]) -> Outcome
    ensures { CheckedIn model.now table.now work.old result work.new }
{
    entries::fault(table, fields::symbols(model))?;
    let n = fields::nodes(model);
    if work.len() < n {
        return refuse(Refusal::NodeRoom, n);
    }
    values::fill(model, table, work);
    fault(&Valued {
        model,
        table,
        work: &work[0..n],
    })
}

// The table check: 0 to 7 and 10 to 18. Refused at 1 to 7 the node work stays, else it has each node's value in front.
#[tactic(auto, unfolding(meaning::specs::Rules::verdict, meaning::specs::Rules::node_work, meaning::specs::Base::or_else))]
pub fn check(model: &[u8], table: &[u8], work: &mut [u8]) -> Outcome
    ensures { Checked model.now table.now work.old result work.new }
{
    book::fault(model)?;
    check_in(model, table, work)
}
