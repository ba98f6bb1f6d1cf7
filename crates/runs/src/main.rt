// Runs each case of standard input and writes a line for each: the case's name, then what the checks answer. What it must
// write, the file 'stdout', the second program made.
//
// A case is seven u32, little-endian: kind (0 table check, 1 finding check, 2 name), then the lengths of name, model, second, node work and
// symbol work, and the index asked for; then those bytes.
#![tactic(auto)]

ghost use Rattle.std.specs.Prelude.{◌≤◌};

use meaning::{Answer, Outcome};
use std::io;
use std::io::{Read, Write};

// Longer than any book, table or finding.
const ROOM: usize = 131072;

// Each byte as two hex digits.
fn bytes<W: Write>(to: &mut W, s: &[u8]) -> io::Result<()> {
    for x in s {
        write!(to, "{x:02x}")?;
    }
    Ok(())
}

// The three numbers that an outcome is answered with, a space behind each.
fn numbers<W: Write>(to: &mut W, outcome: Outcome) -> io::Result<()> {
    write!(to, "{} ", Answer::from(outcome))
}

// The answer of the table check, and the node work afterwards.
fn table_case<W: Write>(to: &mut W, model: &[u8], table: &[u8], work: &mut [u8]) -> io::Result<()> {
    numbers(to, rules::check(model, table, work))?;
    bytes(to, work)?;
    to.write_all(b"/")
}

// The answer of the finding check, and both rooms afterwards.
fn finding_case<W: Write>(
    to: &mut W,
    model: &[u8],
    finding: &[u8],
    work: &mut [u8],
    marks: &mut [u8],
) -> io::Result<()> {
    numbers(to, findings::check(model, finding, work, marks))?;
    bytes(to, work)?;
    to.write_all(b"/")?;
    bytes(to, marks)
}

// What a case asks for.
#[derive(Clone, Copy)]
enum Asked {
    Table,
    Finding,
    Name,
}

// The number that stands in a case: any above 1 asks for a name.
impl From<u32> for Asked {
    fn from(kind: u32) -> Asked {
        match kind {
            0 => Asked::Table,
            1 => Asked::Finding,
            _ => Asked::Name,
        }
    }
}

// What a case of this kind answers. Its bytes are handed on one by one: of a struct that lends them, a read of one while another is lent gets no
// proof yet.
fn run_case<W: Write>(
    to: &mut W,
    asked: Asked,
    index: usize,
    model: &[u8],
    second: &[u8],
    work: &mut [u8],
    marks: &mut [u8],
) -> io::Result<()> {
    match asked {
        Asked::Table => table_case(to, model, second, work),
        Asked::Finding => finding_case(to, model, second, work, marks),
        Asked::Name => bytes(to, book::name(model, index)),
    }
}

// Reads the bytes of one case and runs it.
fn case_of<R: Read, W: Write>(
    from: &mut R,
    to: &mut W,
    asked: Asked,
    index: usize,
    name: &mut [u8],
    model: &mut [u8],
    second: &mut [u8],
    work: &mut [u8],
    marks: &mut [u8],
) -> io::Result<()> {
    reading::read_full(from, name)?;
    reading::read_full(from, model)?;
    reading::read_full(from, second)?;
    reading::read_full(from, work)?;
    reading::read_full(from, marks)?;
    to.write_all(name)?;
    to.write_all(b" ")?;
    run_case(to, asked, index, model, second, work, marks)?;
    to.write_all(b"\n")
}

// A length of the head, as far as there is room for it.
fn size(head: &[u8], i: usize) -> usize
    ensures { result ≤ 131072 }
{
    ROOM.min(raw::word(head, i) as usize)
}

// Reads one case, runs it, and answers whether there was one. Each buffer is lent once.
fn one_case<R: Read, W: Write>(from: &mut R, to: &mut W) -> io::Result<bool> {
    let mut head = [0u8; 28];
    let got = reading::read_full(from, &mut head)?;
    if got < 28 {
        return Ok(false);
    }
    let asked = Asked::from(raw::word(&head, 0));
    let n = size(&head, 4);
    let m = size(&head, 8);
    let t = size(&head, 12);
    let w = size(&head, 16);
    let z = size(&head, 20);
    let index = raw::word(&head, 24) as usize;
    let mut name = reading::room::<ROOM>();
    let mut model = reading::room::<ROOM>();
    let mut second = reading::room::<ROOM>();
    let mut work = reading::room::<ROOM>();
    let mut marks = reading::room::<ROOM>();
    case_of(
        from,
        to,
        asked,
        index,
        &mut name[0..n],
        &mut model[0..m],
        &mut second[0..t],
        &mut work[0..w],
        &mut marks[0..z],
    )?;
    Ok(true)
}

// Runs a million cases at most.
fn main(rt: HostRuntime) -> io::Result<()> {
    let mut from = rt.reader();
    let mut to = io::writer(&rt);
    for _ in 0..1000000 {
        if !one_case(&mut from, &mut to)? {
            break;
        }
    }
    Ok(())
}
