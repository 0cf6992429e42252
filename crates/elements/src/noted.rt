// What is held on to of the elements inside another, and the parts of the message that are their names.
ghost use Rattle.std.specs.Prelude.{◌≡◌, ◌<◌};
ghost use Rattle.laws.specs.Bytes.{same_bytes};
ghost use Rattle.message.specs.Elements.{part as part_of};
ghost use Rattle.elements.specs.Held.{type_mark};
ghost use Rattle.elements.specs.Seen.{noted as noted_of};

use crate::{Inside, Seen};
use scan::Name;

// The bytes from b to e, as many of them as the message has.
#[tactic(auto, using(crate::proofs::Compared::part_lent))]
pub(crate) fn part(s: &[u8], b: usize, e: usize) -> &[u8]
    ensures { result.now ≡ part_of s.now b e }
{
    let to = e.min(s.len());
    &s[b.min(to)..to]
}

// The bytes from b to e are those of the word.
#[tactic(auto, using(crate::proofs::Compared::same_compared))]
pub fn called(s: &[u8], b: usize, e: usize, word: &[u8]) -> bool
    ensures { result ≡ same_bytes (part_of s.now b e) word.now }
{
    part(s, b, e) == word
}

// The elements inside, and one more behind them.
pub(crate) fn note(inside: Inside, child: Seen) -> Inside
    requires { inside.children < 18446744073709551615 }
    ensures { result ≡ noted_of inside child }
{
    let children = inside.children + 1;
    let typed = if inside.typed == 0 {
        child.mark
    } else {
        inside.typed
    };
    if inside.children == 0 {
        return Inside {
            children,
            first: child.begin,
            typed,
            nested: child.inside.typed,
        };
    }
    Inside {
        children,
        typed,
        ..inside
    }
}

// The element whose name stands from `begin`: its place again if it is an AdvisoryType.
pub(crate) fn mark(s: &[u8], begin: usize, name: Name) -> usize
    ensures { result ≡ type_mark s.now begin name }
{
    if called(s, name.local, name.end, b"AdvisoryType") {
        begin
    } else {
        0
    }
}
