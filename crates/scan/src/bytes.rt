// One byte, and runs of bytes of a class.
ghost use Rattle.std.specs.Prelude.{◌≡◌, ◌+◌, ◌≤◌, length};
ghost use Rattle.message.specs.Class.{class_in, is_start, at_least, is_name, is_space};
ghost use Rattle.message.specs.Reading.{is, has, one, ends, up_to, blanks, equals_at, opened_at, is_quote, said};
ghost use Rattle.scan.specs.Answers.{HasIs, OneIs, EndsIs};

use crate::refused;
use message::{Reason, Refusal};

// The classes of message/specs/Class: numbers and no enum, since a contract holds of every table, whatever its entries are. A byte begins a name, or is white space, by having just that class; it may stand in a name, is plain, or is
// text, by having that class or a higher one.
pub const NAME_START: u8 = 5;

pub const NAME: u8 = 4;

pub const SPACE: u8 = 3;

pub const PLAIN: u8 = 2;

pub const TEXT: u8 = 1;

// The class that a table gives to a byte.
pub fn class(table: &[u8; 256], b: u8) -> u8
    ensures { result ≡ class_in table.now b }
{
    table[b as usize]
}

// A byte that passes the test stands at the place. As `one` and `ends` it asks that the test may be called, so the three are for this crate alone: a
// public function asks for nothing.
pub(crate) fn has<P: Fn(u8) -> bool>(s: &[u8], at: usize, test: P) -> bool
    requires { P.IsAlwaysCallable test }
    ensures { HasIs (P.post test) s.now at result }
{
    s.get(at).copied().is_some_and(test)
}

// Reads one byte that passes the test.
pub(crate) fn one<P: Fn(u8) -> bool>(s: &[u8], at: usize, test: P) -> Result<usize, Refusal>
    requires { P.IsAlwaysCallable test }
    ensures { OneIs (P.post test) s.now at (said result) }
{
    if has(s, at, test) {
        Ok(at + 1)
    } else {
        refused(Reason::NotWellFormed, at)
    }
}

// The place behind the bytes that pass the test from a place on.
pub(crate) fn ends<P: Fn(u8) -> bool>(s: &[u8], at: usize, test: P) -> usize
    requires { P.IsAlwaysCallable test }
    ensures { EndsIs (P.post test) s.now at result }
{
    let mut i = at;
    while has(s, i, &test) {
        i += 1;
    }
    i
}

// The byte b stands at the place.
pub fn is_at(s: &[u8], at: usize, b: u8) -> bool
    ensures { result ≡ has (is b) s.now at }
{
    has(s, at, |x| x == b)
}

// A byte that begins a name stands at the place.
pub fn start_at(s: &[u8], table: &[u8; 256], at: usize) -> bool
    ensures { result ≡ has (is_start (class_in table.now)) s.now at }
{
    has(s, at, |b| class(table, b) == NAME_START)
}

// A byte of a class of at least `least` stands at the place.
pub fn least_at(s: &[u8], table: &[u8; 256], at: usize, least: u8) -> bool
    ensures { result ≡ has (at_least (class_in table.now) least) s.now at }
{
    has(s, at, |b| least <= class(table, b))
}

// White space stands at the place.
pub fn space_at(s: &[u8], table: &[u8; 256], at: usize) -> bool
    ensures { result ≡ has (is_space (class_in table.now)) s.now at }
{
    has(s, at, |b| class(table, b) == SPACE)
}

// Reads the byte b.
pub fn byte(s: &[u8], at: usize, b: u8) -> Result<usize, Refusal>
    ensures { said result ≡ one (is b) s.now at }
{
    one(s, at, |x| x == b)
}

// Reads a byte that begins a name.
pub fn start(s: &[u8], table: &[u8; 256], at: usize) -> Result<usize, Refusal>
    ensures { said result ≡ one (is_start (class_in table.now)) s.now at }
{
    one(s, at, |b| class(table, b) == NAME_START)
}

// Reads one byte of white space.
pub fn space(s: &[u8], table: &[u8; 256], at: usize) -> Result<usize, Refusal>
    ensures { said result ≡ one (is_space (class_in table.now)) s.now at }
{
    one(s, at, |b| class(table, b) == SPACE)
}

// Reads a quotation mark of either kind.
pub fn quote(s: &[u8], at: usize) -> Result<usize, Refusal>
    ensures { said result ≡ one is_quote s.now at }
{
    one(s, at, |b| b == b'"' || b == b'\'')
}

// How many bytes of a class of at least `least` stand from a place on, of the four that are there. They are written out for speed: none
// counts, or asks whether one is left.
#[tactic(auto, unfolding(message::specs::Reading::up_to, message::specs::Reading::has))]
fn few(s: &[u8], table: &[u8; 256], at: usize, least: u8) -> usize
    requires { at + 4 ≤ length s.now }
    ensures { result ≡ up_to 4 (at_least (class_in table.now) least) s.now at }
{
    if class(table, s[at]) < least {
        return 0;
    }
    if class(table, s[at + 1]) < least {
        return 1;
    }
    if class(table, s[at + 2]) < least {
        return 2;
    }
    if class(table, s[at + 3]) < least {
        return 3;
    }
    4
}

// The place behind the bytes of a class of at least `least` from a place on: by fours, as long as four are left, since most of the time goes into runs.
#[tactic(auto, using(message::proofs::Laws::up_some, message::proofs::Laws::up_in, message::proofs::Laws::up_all))]
pub fn run_end(s: &[u8], table: &[u8; 256], at: usize, least: u8) -> usize
    ensures { result ≡ ends (at_least (class_in table.now) least) s.now at }
{
    let no_four = s.len().saturating_sub(3);
    let mut i = at;
    while i < no_four {
        let n = few(s, table, i, least);
        i += n;
        if n != 4 {
            return i;
        }
    }
    ends(s, i, |b| least <= class(table, b))
}

// The place behind the name bytes from a place on.
pub fn name_end(s: &[u8], table: &[u8; 256], at: usize) -> usize
    ensures { result ≡ ends (is_name (class_in table.now)) s.now at }
{
    run_end(s, table, at, NAME)
}

// The place behind the white space from a place on.
pub fn blanks(s: &[u8], table: &[u8; 256], at: usize) -> usize
    ensures { result ≡ blanks (class_in table.now) s.now at }
{
    ends(s, at, |b| class(table, b) == SPACE)
}

// Reads `=` with white space around it or none.
#[tactic(auto, unfolding(message::specs::Reading::equals_at))]
pub fn equals(s: &[u8], table: &[u8; 256], at: usize) -> Result<usize, Refusal>
    ensures { said result ≡ equals_at (class_in table.now) s.now at }
{
    let next = byte(s, blanks(s, table, at), b'=')?;
    Ok(blanks(s, table, next))
}

// Reads `=` and a quotation mark.
#[tactic(auto, unfolding(message::specs::Reading::opened_at))]
pub fn opened(s: &[u8], table: &[u8; 256], at: usize) -> Result<usize, Refusal>
    ensures { said result ≡ opened_at (class_in table.now) s.now at }
{
    let mark = equals(s, table, at)?;
    quote(s, mark)
}
