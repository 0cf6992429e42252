// End tags, which repeat the start tag's name.
ghost use Rattle.std.specs.Prelude.{◌≡◌, ◌+◌, ◌≤◌, ◌<◌, length};
ghost use Rattle.laws.specs.Bytes.{same_at};
ghost use Rattle.message.specs.Class.{class_in, is_name};
ghost use Rattle.message.specs.Reading.{is_whole, word_at, ends, said};
ghost use Rattle.message.specs.Limits.{link_limits};
ghost use Rattle.message.specs.Elements.{part as part_of, end_part_at, end_name_at, end_tag_at};
ghost use Rattle.elements.specs.Held.{same_up_to, NameStands, named, tag_ends_at};

use crate::{MOST_PART, noted};
use message::{Reason, Refusal};
use scan::{Name, bytes, refused};

// The first place from `at` on where the word is not repeated, or the place behind it.
#[tactic(auto, using(crate::proofs::Repeats::upto_more, crate::proofs::Repeats::upto_none, message::proofs::Laws::has_lt))]
fn repeated(s: &[u8], word: &[u8], at: usize) -> usize
    ensures { result ≡ same_up_to word.now s.now at }
{
    let mut i = at;
    for &byte in word {
        if !bytes::is_at(s, i, byte) {
            return i;
        }
        i += 1;
    }
    i
}

// Reads again, at `at`, the part of a name that stands from b to e.
#[tactic(auto, using(crate::proofs::Repeats::upto_from, crate::proofs::Repeats::again_is, message::proofs::Laws::ends_from))]
fn part(s: &[u8], table: &[u8; 256], b: usize, e: usize, at: usize) -> Result<usize, Refusal>
    requires b_lt_e { b < e }
    requires e_in_bounds { e ≤ length s.now }
    requires e_ends_name { e ≡ ends (is_name (class_in table.now)) s.now b }
    ensures { said result ≡ end_part_at (class_in table.now) s.now link_limits (part_of s.now b e) at }
{
    let i = repeated(s, noted::part(s, b, e), at);
    if i == at {
        return refused(Reason::NotWellFormed, at);
    }
    if bytes::name_end(s, table, i) - at > MOST_PART {
        return refused(Reason::NameTooLong, at);
    }
    if i - at < e - b {
        return refused(Reason::NotWellFormed, i);
    }
    Ok(i)
}

// Reads again the name that stands from b on.
#[tactic(auto, unfolding(message::specs::Elements::end_name_at))]
fn name(s: &[u8], table: &[u8; 256], b: usize, first: Name, at: usize) -> Result<usize, Refusal>
    requires { NameStands (class_in table.now) s.now b (named first) }
    ensures { said result ≡ end_name_at (class_in table.now) s.now link_limits b (named first) at }
{
    if first.local == b {
        return part(s, table, b, first.end, at);
    }
    let i = part(s, table, b, first.local - 1, at)?;
    let j = bytes::byte(s, i, b':')?;
    part(s, table, first.local, first.end, j)
}

// Whether the n bytes from b on stand at `at` too, one by one. With `starts_with` of slices in place of this function and the next two, messages with text
// alone were read 4 to 8 % slower. `framing::standing` has the first two of them for its boundary: laws, which both stand on, has no code.
fn few_stand(s: &[u8], b: usize, at: usize, n: usize) -> bool
    requires { (b + n ≤ length s.now) × (at + n ≤ length s.now) }
    ensures { result ≡ same_at n s.now b s.now at }
{
    for i in 0..n {
        if s[at + i] != s[b + i] {
            return false;
        }
    }
    true
}

// The same of eight bytes, which are one comparison to the compiler.
fn eight_stand(s: &[u8], b: usize, at: usize) -> bool
    requires { (b + 8 ≤ length s.now) × (at + 8 ≤ length s.now) }
    ensures { result ≡ same_at 8 s.now b s.now at }
{
    let mut same = true;
    for i in 0..8 {
        same &= s[at + i] == s[b + i];
    }
    same
}

// The same of eight bytes or more, by eights. The last eight may begin before those ahead of them end.
fn many_stand(s: &[u8], b: usize, at: usize, n: usize) -> bool
    requires { (8 ≤ n) × (b + n ≤ length s.now) × (at + n ≤ length s.now) }
    ensures { result ≡ same_at n s.now b s.now at }
{
    let last = n - 8;
    let mut k = 0;
    while k < last {
        if !eight_stand(s, b + k, at + k) {
            return false;
        }
        k += 8;
    }
    eight_stand(s, b + last, at + last)
}

// The bytes from b to e stand at `at` too.
fn repeats(s: &[u8], b: usize, e: usize, at: usize) -> bool
    requires b_le_e { b ≤ e }
    requires e_in_bounds { e ≤ length s.now }
    ensures { result ≡ is_whole (word_at (part_of s.now b e) s.now at) }
{
    let n = e - b;
    if s.len() < at {
        return n == 0;
    }
    if s.len() - at < n {
        return false;
    }
    if n < 8 {
        return few_stand(s, b, at, n);
    }
    many_stand(s, b, at, n)
}

// The `>` of a tag stands at the place, and the table that is lent does not read on behind it.
pub(crate) fn ends_at(s: &[u8], table: &[u8; 256], at: usize) -> bool
    ensures { result ≡ tag_ends_at (class_in table.now) s.now at }
{
    bytes::is_at(s, at, b'>') && bytes::class(table, b'>') < bytes::SPACE
}

// Reads an end tag after its `</`. Most repeat the name, which stands from b on, and then have their `>` at once.
#[tactic(auto, using(crate::proofs::EndTags::again_within, crate::proofs::EndTags::tag_again), unfolding(message::specs::Elements::end_tag_at))]
pub(crate) fn end_tag(
    s: &[u8],
    table: &[u8; 256],
    b: usize,
    first: Name,
    at: usize,
) -> Result<usize, Refusal>
    requires { NameStands (class_in table.now) s.now b (named first) }
    ensures { said result ≡ end_tag_at (class_in table.now) s.now link_limits b (named first) at }
{
    if repeats(s, b, first.end, at) && ends_at(s, table, at + (first.end - b)) {
        return Ok(at + (first.end - b) + 1);
    }
    let i = name(s, table, b, first, at)?;
    bytes::byte(s, bytes::blanks(s, table, i), b'>')
}
