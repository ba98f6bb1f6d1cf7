// The program: a model and a table on standard input, one line on standard output.
#![tactic(auto)]

ghost use Rattle.std.specs.Prelude.{take, IfSome, OnOk};
ghost use Rattle.std.specs.Io.KnownBytes.{Appends};
ghost use Rattle.meaning.specs.Program.{line_of};

use std::io;
use std::io::{Read, Write};

// Writes an input's line.
fn report<W: Write>(input: &[u8], to: &mut W) -> io::Result<()>
    ensures { OnOk result (Appends (W.contents to.old) (W.contents to.new) (line_of input.now)) }
{
    // A byte for every node that a book can count, and room for the longest line.
    let mut work = reading::room::<65535>();
    let mut out = reading::room::<300>();
    let n = line::line(input, &mut work, &mut out);
    to.write_all(&out[0..n])
}

// Reads the input whole and writes its line.
fn answer<R: Read, W: Write>(from: &mut R, to: &mut W) -> io::Result<()>
    ensures { OnOk result (IfSome (R.remaining from.old) (λ xs. Appends (W.contents to.old) (W.contents to.new) (line_of (take 131072 xs)))) }
{
    // 65,535 bytes of model and 65,537 of table: a table of more than 65,535 bytes is refused whatever follows, so what does not
    // fit the room changes no answer.
    let mut input = reading::room::<131072>();
    let n = reading::read_full(from, &mut input)?;
    report(&input[..n], to)
}

fn main(rt: HostRuntime) -> io::Result<()> {
    answer(&mut rt.reader(), &mut io::writer(&rt))
}
