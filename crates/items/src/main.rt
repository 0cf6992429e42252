// The listing program (document 01, "The listing"): reads a boundary and a stream from standard input, and writes a line for each item.
// specs/Listing.antt says what is written for a whole input. What a call of the framing gives to print, and where the boundary ends, are
// proved here; reading and writing have no contract. A listing that a failed read or write cuts off gets no last line, so that it does not
// look whole.
#![tactic(auto)]

mod lines;
mod start;
mod turns;

ghost use Rattle.std.specs.Prelude.{◌≤◌, length, IfOk};

use lines::Line;
use start::MOST_START;
use std::io::{self, ErrorKind, Read, Write};
use turns::Held;

// A listing behind its header: where it goes, its boundary, the store of the framing, what is held, and the line that each turn writes anew.
#[derive(Drop)]
struct Listing<'a, W> {
    output: &'a mut W,
    boundary: &'a [u8],
    store: &'a mut [u8; 65536],
    held: Held,
    line: Line,
}

impl<'a, W: Write> Listing<'a, W> {
    // One turn on what is left of a piece: how many of its bytes were taken. No run comes to the number at which it stops.
    fn next(&mut self, piece: &[u8]) -> io::Result<usize>
        ensures { IfOk result (λ taken. taken ≤ length piece.now) }
    {
        if self.held.number == u64::MAX {
            return Err(io::Error::from(ErrorKind::Other));
        }
        let turn = turns::next(self.boundary, self.store, piece, self.held, &mut self.line);
        self.held = turn.held;
        self.output.write_all(self.line.as_bytes())?;
        Ok(turn.taken)
    }

    // Lists the items that end in a piece. Each turn takes a byte or more, so that no piece uses up its turns.
    fn piece(&mut self, piece: &[u8]) -> io::Result<()> {
        let mut rest = piece;
        for _ in 0..piece.len() {
            if rest.is_empty() {
                break;
            }
            rest = &rest[self.next(rest)?..];
        }
        Ok(())
    }

    // Reads to the end of the input. A loop has to end, and nothing says that the input does: so the turns are counted, up to a number that
    // no run comes to.
    fn rest<R: Read>(&mut self, input: &mut R) -> io::Result<()> {
        let mut piece = [0u8; 4096];
        for _ in 0..u64::MAX {
            let length = input.read(&mut piece)?;
            if length == 0 {
                return Ok(());
            }
            self.piece(&piece[..length])?;
        }
        Err(io::Error::from(ErrorKind::Other))
    }
}

// Reads until `first` is full, the input ends or a read fails, and answers how much came; `read_exact` would not tell that.
fn read_start<R: Read>(input: &mut R, first: &mut [u8]) -> (usize, io::Result<()>)
    ensures { result.0 ≤ length first.new }
{
    let mut done = 0;
    while done < first.len() {
        match input.read(&mut first[done..]) {
            Ok(0) => return (done, Ok(())),
            Ok(n) => done += n,
            Err(failure) => return (done, Err(failure)),
        }
    }
    (done, Ok(()))
}

// Lists an input that begins with these bytes: its first 17, or all if they are fewer, or those before a read that failed.
fn list<R: Read, W: Write>(
    input: &mut R,
    output: &mut W,
    first: &[u8],
    begun: io::Result<()>,
) -> io::Result<()> {
    let end = start::boundary_end(first);
    if start::refused_end(end) {
        // Where a read failed, an LF that is not there may be among the bytes that did not come.
        if end != 0 {
            begun?;
        }
        return output.write_all(lines::stop().as_bytes());
    }
    let mut listing = Listing {
        output,
        boundary: &first[..end],
        store: &mut [0u8; 65536],
        held: turns::fresh(),
        line: Line::new(),
    };
    listing.piece(&first[end + 1..])?;
    begun?;
    listing.rest(input)?;
    let waiting = listing.held.cut.gathered;
    output.write_all(lines::end(waiting).as_bytes())
}

fn run<R: Read, W: Write>(input: &mut R, output: &mut W) -> io::Result<()> {
    output.write_all(lines::header().as_bytes())?;
    let mut first = [0u8; MOST_START];
    let (length, begun) = read_start(input, &mut first);
    list(input, output, &first[..length], begun)
}

// The exit status is always 0: what failed shows by the last line, which is not there.
fn main(rt: HostRuntime) {
    let _ = run(&mut rt.stdin(), &mut rt.stdout());
}
