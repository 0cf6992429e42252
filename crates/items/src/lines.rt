// The lines of the listing.
ghost use Rattle.std.specs.Prelude.{◌≡◌, ◌≤◌, length};
ghost use Rattle.texts.specs.Fields.{space, field, put_in};
ghost use Rattle.message.specs.Words.{kind_name};
ghost use Rattle.items.specs.Texts.{most_line};
ghost use Rattle.items.specs.Lines.{header_line, stop_line, end_line, counted, item_line, message_line, too_long_line};

use message::Kind;
use texts::{LINE_END, SPACE};

// No line is longer.
const MOST_LINE: usize = 128;

pub(crate) type Line = texts::Line<MOST_LINE>;

pub(crate) fn header() -> Line
    ensures { result ≡ header_line }
{
    let mut line = Line::new();
    line.put(b"item bytes kind refusal place", LINE_END);
    line
}

pub(crate) fn stop() -> Line
    ensures { result ≡ stop_line }
{
    let mut line = Line::new();
    line.put(b"stop", SPACE);
    line.put_number(1, LINE_END);
    line
}

pub(crate) fn end(waiting: u32) -> Line
    ensures { result ≡ end_line waiting }
{
    let mut line = Line::new();
    line.put(b"end", SPACE);
    line.put_number(u64::from(waiting), LINE_END);
    line
}

fn name(kind: Kind) -> &'static [u8]
    ensures named { result.now ≡ kind_name kind }
    ensures within { length result.now ≤ 19 }
{
    match kind {
        Kind::SessionOpenRequest => b"SessionOpenRequest",
        Kind::SessionOpenResponse => b"SessionOpenResponse",
        Kind::SessionOk => b"SessionOk",
        Kind::Ok => b"Ok",
        Kind::Advisory => b"Advisory",
        Kind::Request => b"Request",
        Kind::Response => b"Response",
    }
}

// How many bytes an item has, where they are counted.
fn put_count(line: &mut Line, bytes: Option<usize>)
    ensures written { line.new ≡ put_in most_line line.old (field (counted bytes) space) }
    ensures within { length (counted bytes) ≤ 20 }
{
    match bytes {
        Some(count) => line.put_number(count as u64, SPACE),
        None => line.put(b"-", SPACE),
    }
}

// The line of an item: its number, its bytes, its kind, and its refusal and place, which are 0 and 0 where there is none.
fn item(line: &mut Line, number: u64, bytes: Option<usize>, kind: &[u8], refusal: u32, place: usize)
    requires { length kind.now ≤ 19 }
    ensures { line.new ≡ item_line number (counted bytes) kind.now refusal place }
{
    line.clear();
    line.put_number(number, SPACE);
    put_count(line, bytes);
    line.put(kind, SPACE);
    line.put_number(u64::from(refusal), SPACE);
    line.put_number(place as u64, LINE_END);
}

#[tactic(auto, unfolding(crate::specs::Lines::too_long_line))]
pub(crate) fn too_long(line: &mut Line, number: u64)
    ensures { line.new ≡ too_long_line number }
{
    item(line, number, None, b"-", 8, 0);
}

// A message, by what the reader says of it.
pub(crate) fn message(line: &mut Line, number: u64, message: &[u8])
    ensures { line.new ≡ message_line number message.now }
{
    let bytes = Some(message.len());
    match reader::read(message) {
        Ok(read) => item(line, number, bytes, name(read.kind), 0, 0),
        Err(refusal) => item(
            line,
            number,
            bytes,
            b"-",
            u32::from(refusal.reason),
            refusal.place,
        ),
    }
}
