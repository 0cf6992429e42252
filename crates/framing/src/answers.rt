// What a call answers once the piece is cut: the refusal, the count and the item. No byte is looked at here.
ghost use Rattle.std.specs.Prelude.{◌≡◌, None, ◌+◌, ◌≤◌, IfSome};
ghost use Rattle.framing.specs.Cutting.{refusal_of, refusal_said, taken_said, count_after, item_of, answered};

use crate::{Cut, Held, Item, MOST_BOUNDARY, MOST_COUNT, Refusal, Taken};

// Whether a call is refused: `size` and `room` are the lengths of the boundary and the store.
#[tactic(auto, unfolding(crate::specs::Cutting::refusal_of))]
pub(crate) fn accepted(limit: u32, size: usize, room: usize, held: Held) -> Result<(), Refusal>
    ensures { refusal_said result ≡ refusal_of limit size room held.gathered held.matched }
{
    if size < 1 || MOST_BOUNDARY < size {
        return Err(Refusal::BoundaryLength);
    }
    if room < limit as usize + MOST_BOUNDARY {
        return Err(Refusal::StoreTooShort);
    }
    if size <= held.matched as usize || held.gathered < held.matched {
        return Err(Refusal::HeldNumbers);
    }
    Ok(())
}

// The count after `taken` more bytes.
fn count(gathered: u32, taken: usize) -> u32
    ensures { result ≡ count_after gathered taken }
{
    (gathered as usize)
        .saturating_add(taken)
        .min(MOST_COUNT as usize) as u32
}

// The item of `count` gathered bytes, of which the last `size` are the boundary.
#[tactic(auto, unfolding(crate::specs::Cutting::item_of))]
fn completed(limit: u32, size: u32, count: u32) -> Item
    requires { size ≤ count }
    ensures { result ≡ item_of limit size count }
{
    let length = count - size;
    if count == size {
        Item::Empty
    } else if length <= limit {
        Item::Message(length)
    } else {
        Item::TooLong
    }
}

// The answer to a cut of a piece, where `gathered` bytes were gathered before it.
#[tactic(auto, unfolding(crate::specs::Cutting::answered))]
pub(crate) fn of_cut(limit: u32, size: usize, gathered: u32, cut: Cut) -> Taken
    requires boundary_fits { size ≤ 16 }
    requires match_fits { IfSome cut.matched (λ matched. matched ≤ 16) }
    requires end_behind_boundary { cut.matched ≡ None → size ≤ gathered + cut.taken }
    ensures { taken_said result ≡ answered limit size gathered cut }
{
    let taken = cut.taken;
    let gathered = count(gathered, taken);
    match cut.matched {
        None => Taken {
            taken,
            item: completed(limit, size as u32, gathered),
            held: Held::NOTHING,
        },
        Some(matched) => Taken {
            taken,
            item: Item::NotYet,
            held: Held {
                gathered,
                matched: matched as u32,
            },
        },
    }
}
