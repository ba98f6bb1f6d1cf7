// Rooms of a fixed size, and reading into one until it is full or the input ends.
#![tactic(auto)]

ghost use Rattle.std.specs.Prelude.{◌≡◌, ℕ, ◌+◌, ◌<◌, ◌≤◌, length, take, drop, replicate, IfOk};
ghost use Rattle.std.specs.Io.{ReadsAtMost};
ghost use Rattle.std.specs.Io.KnownBytes.{Consumes, IsAtEnd};

use std::io;
use std::io::Read;

// A room of N bytes, each zero.
pub fn room<const N: usize>() -> [u8; N]
    ensures zero { result ≡ replicate N 0 }
    ensures long { N ≡ length result }
{
    [0; N]
}

// One read, into what is left of the room.
fn read_on<R: Read>(from: &mut R, room: &mut [u8], got: usize) -> io::Result<usize>
    requires { got ≤ length room.old }
    ensures room { length room.new ≡ length room.old }
    ensures fits { IfOk result (λ n. got + n ≤ length room.new) }
    ensures front { take got room.new ≡ take got room.old }
    ensures bytes { IfOk result (λ n. Consumes (R.remaining from.old) (R.remaining from.new) (take n (drop got room.new))) }
    ensures end { IfOk result (λ n. n ≡ 0 → got < length room.new → IsAtEnd (R.remaining from.new)) }
{
    from.read(&mut room[got..])
}

// Reads until the room is full or the input ends, and answers how many bytes came.
pub fn read_full<R: Read>(from: &mut R, room: &mut [u8]) -> io::Result<usize>
    ensures bound { ReadsAtMost result room.new }
    ensures bytes { IfOk result (λ n. Consumes (R.remaining from.old) (R.remaining from.new) (take n room.new)) }
    ensures end { IfOk result (λ n. n < length room.new → IsAtEnd (R.remaining from.new)) }
{
    let mut got = 0;
    while got < room.len() {
        let n = read_on(from, room, got)?;
        if n == 0 {
            break;
        }
        got += n;
    }
    Ok(got)
}
