// The C interface: every exported function, and nothing else. include/plaitcrumb.h is its manual.
//
// No heap, no globals; any bytes in, a plain integer out, and every lent byte stated.
#![tactic(auto)]

ghost use Rattle.std.specs.Prelude.{◌≡◌, length};
ghost use Rattle.meaning.specs.Base.{answer_of, packed};
ghost use Rattle.meaning.specs.Book.{book_fault, name_place, name_place_in};
ghost use Rattle.meaning.specs.Rules.{verdict_in, node_work_in, verdict, node_work};
ghost use Rattle.meaning.specs.Findings.{finding_outcome, finding_node_work, finding_symbol_work};

use meaning::{Answer, Outcome};

// An outcome's three numbers in one: answer x 2^32 + place x 2^16 + second.
fn pack(outcome: Outcome) -> u64
    ensures { result ≡ packed (answer_of outcome) }
{
    u64::from(Answer::from(outcome))
}

// The table check.
#[unsafe(no_mangle)]
pub extern "C" fn plaitcrumb_check_table(model: &[u8], table: &[u8], work: &mut [u8]) -> u64
    ensures { (result ≡ packed (answer_of (verdict model.now table.now (length work.old)))) × (work.new ≡ node_work model.now table.now work.old) }
{
    pack(rules::check(model, table, work))
}

// The book's own check: for many tables of one book, once.
#[unsafe(no_mangle)]
pub extern "C" fn plaitcrumb_check_book(model: &[u8]) -> u64
    ensures { result ≡ packed (answer_of (book_fault model.now)) }
{
    pack(book::fault(model))
}

// What the table check does after the book.
#[unsafe(no_mangle)]
pub extern "C" fn plaitcrumb_check_table_in(model: &[u8], table: &[u8], work: &mut [u8]) -> u64
    ensures { (result ≡ packed (answer_of (verdict_in model.now table.now (length work.old)))) × (work.new ≡ node_work_in model.now table.now work.old) }
{
    pack(rules::check_in(model, table, work))
}

// The finding check.
#[unsafe(no_mangle)]
pub extern "C" fn plaitcrumb_check_finding(
    model: &[u8],
    finding: &[u8],
    nodework: &mut [u8],
    symbolwork: &mut [u8],
) -> u64
    ensures { (result ≡ packed (answer_of (finding_outcome model.now finding.now (length nodework.old) (length symbolwork.old)))) × (nodework.new ≡ finding_node_work model.now finding.now nodework.old symbolwork.old) × (symbolwork.new ≡ finding_symbol_work model.now finding.now nodework.old symbolwork.old) }
{
    pack(findings::check(model, finding, nodework, symbolwork))
}

// The name of a symbol, as start x 2^32 + length in the model; length 0 for a number that is no symbol's, and for a bad model.
#[unsafe(no_mangle)]
pub extern "C" fn plaitcrumb_name(model: &[u8], index: usize) -> u64
    ensures { result ≡ name_place model.now index }
{
    if book::fault(model).is_err() {
        return 0;
    }
    if fields::symbols(model) <= index {
        return 0;
    }
    let start = fields::name_start(model, index);
    let length = usize::from(fields::name_length(model, index));
    4294967296 * (start as u64) + (length as u64)
}

// The name of a symbol without a look at the book: the same in a good one, and a part of the bytes whatever they are.
#[unsafe(no_mangle)]
pub extern "C" fn plaitcrumb_name_in(model: &[u8], index: usize) -> u64
    ensures { result ≡ name_place_in model.now index }
{
    if fields::symbols(model) <= index {
        return 0;
    }
    let name = fields::spelled_name(model, index);
    if name.len() == 0 {
        return 0;
    }
    4294967296 * (fields::name_start(model, index) as u64) + (name.len() as u64)
}
