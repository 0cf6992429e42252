// A turn of the program: one call of the framing, and the line that it gives to print.
ghost use Rattle.std.specs.Prelude.{◌≡◌, ◌≤◌, ◌<◌, length};
ghost use Rattle.framing.specs.Cutting.{item_length, store_after, link_limit};
ghost use Rattle.items.specs.Lines.{line_after, number_after};
ghost use Rattle.items.specs.Turns.{fresh_held, line_of_turn, turn_of};

use crate::lines::{self, Line};
use framing::Item;

// What is held between the calls: what the framing holds, and the number of the next line.
#[derive(Clone, Copy)]
pub(crate) struct Held {
    pub(crate) cut: framing::Held,
    pub(crate) number: u64,
}

// What a turn answers: the bytes of the piece that were taken, and what is held.
#[derive(Clone, Copy)]
pub(crate) struct Turn {
    pub(crate) taken: usize,
    pub(crate) held: Held,
}

pub(crate) fn fresh() -> Held
    ensures { result ≡ fresh_held }
{
    Held {
        cut: framing::Held::NOTHING,
        number: 1,
    }
}

// The line of what a call completed, which is empty where there is none.
#[tactic(auto, unfolding(crate::specs::Lines::line_after))]
fn item_line(line: &mut Line, number: u64, item: Item, store: &[u8])
    requires { item_length item ≤ length store.now }
    ensures { line.new ≡ line_after number item store.now }
{
    match item {
        Item::NotYet | Item::Empty => line.clear(),
        Item::Message(length) => lines::message(line, number, &store[..length as usize]),
        Item::TooLong => lines::too_long(line, number),
    }
}

// The number of the line after that.
fn next_number(number: u64, item: Item) -> u64
    requires { number < 18446744073709551615 }
    ensures { result ≡ number_after number item }
{
    match item {
        Item::NotYet | Item::Empty => number,
        Item::Message(_) | Item::TooLong => number + 1,
    }
}

// Cuts the piece, up to the end of one item, and writes its line. A call that the framing refuses takes nothing; the program makes none.
pub(crate) fn next(
    boundary: &[u8],
    store: &mut [u8; 65536],
    piece: &[u8],
    held: Held,
    line: &mut Line,
) -> Turn
    requires { held.number < 18446744073709551615 }
    ensures within { result.taken ≤ length piece.now }
    ensures turned { result ≡ turn_of boundary.now store.old piece.now held }
    ensures written { line.new ≡ line_of_turn boundary.now store.old piece.now held }
    ensures stored { store.new ≡ store_after link_limit boundary.now store.old piece.now held.cut.gathered held.cut.matched }
{
    let Ok(said) = framing::gather(boundary, store, piece, held.cut) else {
        line.clear();
        return Turn { taken: 0, held };
    };
    item_line(line, held.number, said.item, store);
    Turn {
        taken: said.taken,
        held: Held {
            cut: said.held,
            number: next_number(held.number, said.item),
        },
    }
}
