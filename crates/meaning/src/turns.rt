// The numbers below n in turn, each looked at by a test that the caller gives.
#![tactic(auto)]

ghost use Rattle.std.specs.Prelude.{◌≡◌, ◌≤◌, ◌<◌, ℕ, Bool};
ghost use Rattle.meaning.specs.Base.{Outcome as Found, Clean, first_below, first_where, count_below};

use crate::Outcome;

// The first fault of those at the numbers below n. A number is looked at only where those before it have none.
pub fn first_fault<F: Fn(usize) -> Outcome>(n: usize, fault_at: F) -> Outcome
    requires { (i : ℕ) → i < n → ((j : ℕ) → j < i → F.post fault_at j Clean) → F.pre fault_at i }
    ensures { (t : ℕ → Found) → ((i : ℕ) (r : Found) → i < n → F.post fault_at i r → r ≡ t i) → result ≡ first_below t n }
{
    first_fault_from(0, n, fault_at)
}

// The same from a number on, where those before it have none.
pub fn first_fault_from<F: Fn(usize) -> Outcome>(from: usize, n: usize, fault_at: F) -> Outcome
    requires ordered { from ≤ n }
    requires callable { (i : ℕ) → from ≤ i → i < n → ((j : ℕ) → from ≤ j → j < i → F.post fault_at j Clean) → F.pre fault_at i }
    ensures { (t : ℕ → Found) → first_below t from ≡ Clean → ((i : ℕ) (r : Found) → from ≤ i → i < n → F.post fault_at i r → r ≡ t i) → result ≡ first_below t n }
{
    for i in from..n {
        fault_at(i)?;
    }
    Ok(())
}

// The first number below n that passes the test, n if none does.
pub fn first<F: Fn(usize) -> bool>(n: usize, holds: F) -> usize
    requires { (i : ℕ) → i < n → F.pre holds i }
    ensures least { (p : ℕ → Bool) → ((i : ℕ) (r : Bool) → i < n → F.post holds i r → r ≡ p i) → result ≡ first_where p n }
    ensures within { result ≤ n }
{
    for i in 0..n {
        if holds(i) {
            return i;
        }
    }
    n
}

// How many numbers below n pass the test.
pub fn count<F: Fn(usize) -> bool>(n: usize, holds: F) -> usize
    requires { (i : ℕ) → i < n → F.pre holds i }
    ensures number { (p : ℕ → Bool) → ((i : ℕ) (r : Bool) → i < n → F.post holds i r → r ≡ p i) → result ≡ count_below p n }
    ensures within { result ≤ n }
{
    let mut found = 0;
    for i in 0..n {
        found += usize::from(holds(i));
    }
    found
}
