// Document 01's terms: the types that its answers use. What they mean stands in `specs`, in the paper's own order.
//
// Everything above this crate is proved against those definitions; all that runs here makes an outcome, and its three numbers.
#![tactic(auto)]

ghost use Rattle.std.specs.Prelude.{◌≡◌, ◌<◌, Some};
ghost use Rattle.meaning.specs.declared.Answer.{Answer};
ghost use Rattle.meaning.specs.Base.{Fault as fault_of, when, answer_of, packed};
ghost use Rattle.meaning.specs.Numbers.{refusal_number, refusal_of, printed};

use std::fmt;
use std::marker::Model;

pub mod turns;

// The three numbers that a caller gets.
#[derive(Clone, Copy)]
pub struct Answer {
    pub number: u16,
    pub place: u16,
    pub second: u16,
}

// What is refused, each by document 01's number, and any other number as it is.
#[derive(Clone, Copy, PartialEq, Eq)]
pub enum Refusal {
    Length,
    Section,
    Record,
    ModulesSymbol,
    Contents,
    Entry,
    NodeRoom,
    SymbolRoom,
    Typed,
    Lower,
    Upper,
    Default,
    Range,
    One,
    Kind,
    Mandatory,
    Modules,
    Head,
    Tree,
    Leaf,
    Met,
    Other(u16),
}

impl Refusal {
    // The number that it is answered with.
    pub fn number(self) -> u16
        ensures { result ≡ refusal_number self }
    {
        match self {
            Refusal::Length => 1,
            Refusal::Section => 2,
            Refusal::Record => 3,
            Refusal::ModulesSymbol => 4,
            Refusal::Contents => 5,
            Refusal::Entry => 6,
            Refusal::NodeRoom => 7,
            Refusal::SymbolRoom => 8,
            Refusal::Typed => 10,
            Refusal::Lower => 11,
            Refusal::Upper => 12,
            Refusal::Default => 13,
            Refusal::Range => 14,
            Refusal::One => 15,
            Refusal::Kind => 16,
            Refusal::Mandatory => 17,
            Refusal::Modules => 18,
            Refusal::Head => 21,
            Refusal::Tree => 22,
            Refusal::Leaf => 23,
            Refusal::Met => 24,
            Refusal::Other(number) => number,
        }
    }
}

// What a number refuses.
impl From<u16> for Refusal {
    ghost from_gives = { λ n r. r ≡ refusal_of n };

    #[tactic(auto, unfolding(crate::specs::Numbers::refusal_of))]
    fn from(number: u16) -> Refusal {
        match number {
            1 => Refusal::Length,
            2 => Refusal::Section,
            3 => Refusal::Record,
            4 => Refusal::ModulesSymbol,
            5 => Refusal::Contents,
            6 => Refusal::Entry,
            7 => Refusal::NodeRoom,
            8 => Refusal::SymbolRoom,
            10 => Refusal::Typed,
            11 => Refusal::Lower,
            12 => Refusal::Upper,
            13 => Refusal::Default,
            14 => Refusal::Range,
            15 => Refusal::One,
            16 => Refusal::Kind,
            17 => Refusal::Mandatory,
            18 => Refusal::Modules,
            21 => Refusal::Head,
            22 => Refusal::Tree,
            23 => Refusal::Leaf,
            24 => Refusal::Met,
            _ => Refusal::Other(number),
        }
    }
}

// The first fault that a check finds: what is refused, at which place and second place. In clauses it is its three numbers.
#[derive(Clone, Copy)]
pub struct Fault {
    number: u16,
    place: u16,
    second: u16,
}

impl Model for Fault {
    ghost Value = { Answer };

    ghost view = { λ f. record { number = f.number; place = f.place; second = f.second } };

    ghost inverse = { λ a. record { number = a.number; place = a.place; second = a.second } };
}

// What a check finds: nothing, or the first fault.
pub type Outcome = Result<(), Fault>;

impl Fault {
    // Its three numbers.
    pub fn answer(&self) -> Answer
        ensures { result ≡ self.now }
    {
        Answer {
            number: self.number,
            place: self.place,
            second: self.second,
        }
    }

    // What is refused.
    #[tactic(auto, using(crate::proofs::Refused::number_back))]
    pub fn refusal(&self) -> Refusal
        ensures named { result ≡ refusal_of self.now.number }
        ensures number { refusal_number result ≡ self.now.number }
    {
        Refusal::from(self.number)
    }
}

// A fault at a place, with none second.
pub fn refuse(refusal: Refusal, place: usize) -> Outcome
    requires { place < 65536 }
    ensures { result ≡ fault_of (refusal_number refusal) place 65535 }
{
    refuse_with(refusal, place, 65535)
}

// A fault at a place and a second place.
pub fn refuse_with(refusal: Refusal, place: usize, second: usize) -> Outcome
    requires { (place < 65536) × (second < 65536) }
    ensures { result ≡ fault_of (refusal_number refusal) place second }
{
    Err(Fault {
        number: refusal.number(),
        place: place as u16,
        second: second as u16,
    })
}

// A fault where `bad` holds, at a place and with none second.
pub fn refuse_if(bad: bool, refusal: Refusal, place: usize) -> Outcome
    requires { place < 65536 }
    ensures { result ≡ when bad (fault_of (refusal_number refusal) place 65535) }
{
    refuse_with_if(bad, refusal, place, 65535)
}

// A fault where `bad` holds, at a place and a second place.
#[tactic(auto, unfolding(crate::specs::Base::when))]
pub fn refuse_with_if(bad: bool, refusal: Refusal, place: usize, second: usize) -> Outcome
    requires { (place < 65536) × (second < 65536) }
    ensures { result ≡ when bad (fault_of (refusal_number refusal) place second) }
{
    if bad {
        return refuse_with(refusal, place, second);
    }
    Ok(())
}

// The three numbers that an outcome is answered with.
impl From<Outcome> for Answer {
    ghost from_gives = { λ o a. a ≡ answer_of o };

    fn from(outcome: Outcome) -> Answer {
        match outcome {
            Ok(()) => Answer {
                number: 0,
                place: 65535,
                second: 65535,
            },
            Err(fault) => fault.answer(),
        }
    }
}

// An answer's three numbers with a space between.
impl fmt::Display for Answer {
    ghost output = { λ a. Some (printed a) };

    fn fmt<W: fmt::Write>(&self, f: &mut fmt::Formatter<W>) -> fmt::Result {
        write!(f, "{} {} {}", self.number, self.place, self.second)
    }
}

// An answer's three numbers in one, as an exported check returns them.
impl From<Answer> for u64 {
    ghost from_gives = { λ a n. n ≡ packed a };

    fn from(answer: Answer) -> u64 {
        (u64::from(answer.number) << 32)
            + (u64::from(answer.place) << 16)
            + u64::from(answer.second)
    }
}

// A value as a table holds it: one of the three, a string by offset and length in the table, a signed int, a hex.
#[derive(Clone, Copy)]
pub enum Value {
    Three(u8),
    Text(usize, usize),
    Int(i32),
    Hex(u32),
}

// Why the walk of a clearance's tree stopped at an offset: a malformed node stands there, or an unclosed one.
#[derive(Clone, Copy)]
pub enum Stop {
    Malformed(u16),
    Open(u16),
}

// Where a walk of a clearance's tree stands: at the offset where it goes on, or stopped.
pub type Walked = Result<u16, Stop>;

// What may stand at an offset of a clearance: a leaf by rule and place, a split on a symbol into two branches or three, each
// with the offset behind it.
#[derive(Clone, Copy)]
pub enum Head {
    Leaf(u8, u16, u16),
    Two(u16, u16),
    Three(u16, u16),
}
