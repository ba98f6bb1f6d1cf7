// The program's line, from its whole input: the split, the check, and the line's text.
//
// The caller lends 65,535 bytes of node work, which is a byte for every node that a book can count, and room for the line.
#![tactic(auto)]

ghost use Rattle.std.specs.Prelude.{◌≡◌, ◌+◌, ◌<◌, ◌≤◌, ◌∷◌, [], ◌++◌, length, drop};
ghost use Rattle.meaning.specs.Book.{name_of};
ghost use Rattle.meaning.specs.Program.{model_length, offender, or_dash, decimal};
ghost use Rattle.line.specs.Written.{Pushed, Lined};
ghost use Rattle.line.specs.Numbers.{three_numbers};

use meaning::{Answer, Outcome, Refusal};

// How many bytes of the input are the model's, if there are as many.
fn model_length(input: &[u8]) -> usize
    ensures { result ≡ model_length input.now }
{
    if input.len() < 2 {
        return input.len();
    }
    raw::half(input, 0)
}

// The bytes from `at` on.
fn rest(s: &[u8], at: usize) -> &[u8]
    ensures { result.now ≡ drop at s.now }
{
    &s[at.min(s.len())..]
}

// The symbol that an outcome names: at the place or at the second place, by what is refused. 65535 for none, as in the definitions of `offender` and
// of the name that it is handed on to.
#[tactic(auto, using(crate::proofs::Laws::no_offender))]
fn offender_of(outcome: &Outcome) -> usize
    ensures { result ≡ offender outcome.now }
{
    let Err(fault) = outcome else {
        return 65535;
    };
    let answer = fault.answer();
    match fault.refusal() {
        Refusal::Typed
        | Refusal::Lower
        | Refusal::Upper
        | Refusal::Default
        | Refusal::Range
        | Refusal::Modules => usize::from(answer.place),
        Refusal::One | Refusal::Kind => usize::from(answer.second),
        _ => 65535,
    }
}

// A symbol's name, which a byte counts.
fn name_of(model: &[u8], index: usize) -> &[u8]
    ensures { (result.now ≡ name_of model.now index) × (length result.now < 256) }
{
    book::name(model, index)
}

// A text in lent bytes: the first len of the room.
#[derive(Drop)]
struct Text<'a> {
    room: &'a mut [u8],
    len: usize,
}

impl Text<'_> {
    // Writes s behind what stands there.
    fn push(&mut self, s: &[u8])
        requires { self.old.len + length s.now ≤ length self.old.room.now }
        ensures { Pushed s.now self.old self.new }
    {
        let end = self.len + s.len();
        self.room[self.len..end].copy_from_slice(s);
        self.len = end;
    }

    // Writes v in decimal and a space.
    fn number(&mut self, v: u16)
        requires { self.old.len + 13 ≤ length self.old.room.now }
        ensures { Pushed (decimal v ++ (32 ∷ [])) self.old self.new × (self.new.len ≤ self.old.len + 13) }
    {
        self.push(spell::decimal(u32::from(v)).text());
        self.push(b" ");
    }

    // Writes the three numbers, a space behind each.
    fn numbers(&mut self, a: Answer)
        requires { self.old.len + 39 ≤ length self.old.room.now }
        ensures { Pushed (three_numbers a) self.old self.new × (self.new.len ≤ self.old.len + 39) }
    {
        self.number(a.number);
        self.number(a.place);
        self.number(a.second);
    }

    // Writes a name, or a dash for none, and a newline.
    fn ending(&mut self, name: &[u8])
        requires { self.old.len + length name.now + 2 ≤ length self.old.room.now }
        ensures { Pushed (or_dash name.now ++ (10 ∷ [])) self.old self.new }
    {
        if name.is_empty() {
            self.push(b"-");
        } else {
            self.push(name);
        }
        self.push(b"\n");
    }
}

// The program's line for a whole input, at the front of out; its length is handed back.
pub fn line(input: &[u8], work: &mut [u8], out: &mut [u8]) -> usize
    requires { (length work.old ≡ 65535) × (300 ≤ length out.old) }
    ensures { Lined input.now work.old out.old result work.new out.new }
{
    let m = model_length(input);
    let model = raw::part(input, 0, m);
    let outcome = rules::check(model, rest(input, m), work);
    let name = name_of(model, offender_of(&outcome));
    let mut text = Text {
        room: &mut *out,
        len: 0,
    };
    text.numbers(Answer::from(outcome));
    text.ending(name);
    text.len
}
