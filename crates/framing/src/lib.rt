// Cutting a stream of bytes into items that end with a boundary (document 01, "Cutting the stream").
// specs/Cutting.antt says what a call answers and leaves in the store, specs/Stream.antt what that makes of a whole stream.
#![tactic(auto)]

mod answers;
mod cutting;
mod matching;
mod standing;
mod store;

ghost use Rattle.std.specs.Prelude.{◌≡◌};
ghost use Rattle.framing.specs.Cutting.{link_limit, refusal_number, item_number, item_length, answer_of, said, store_after};

// The longest message of the link, the longest boundary, and the largest count. A message and its boundary fill at most
// LINK_LIMIT + MOST_BOUNDARY bytes of the store.
pub const LINK_LIMIT: u32 = 65520;

const MOST_BOUNDARY: usize = 16;

const MOST_COUNT: u32 = 4294967295;

// Why a call is refused.
#[derive(Clone, Copy, PartialEq, Eq)]
pub enum Refusal {
    // The boundary has no byte, or more than MOST_BOUNDARY.
    BoundaryLength,
    // The store has no room for LINK_LIMIT + MOST_BOUNDARY bytes.
    StoreTooShort,
    // No call hands such numbers back: the match is as long as the boundary, or longer than the count.
    HeldNumbers,
}

impl From<Refusal> for u32 {
    ghost from_gives = { λ refusal number. number ≡ refusal_number refusal };

    // Document 01's number of the refusal.
    fn from(refusal: Refusal) -> u32 {
        match refusal {
            Refusal::BoundaryLength => 1,
            Refusal::StoreTooShort => 2,
            Refusal::HeldNumbers => 26,
        }
    }
}

// What a call completed.
#[derive(Clone, Copy)]
pub enum Item {
    // The piece was used up first.
    NotYet,
    // No byte stands before the boundary.
    Empty,
    // A message of so many bytes, which are the first of the store.
    Message(u32),
    // More bytes than a message may have.
    TooLong,
}

impl From<Item> for u32 {
    ghost from_gives = { λ item number. number ≡ item_number item };

    // The item's number: 8 is document 01's refusal, the others are those of INTERFACES.
    fn from(item: Item) -> u32 {
        match item {
            Item::NotYet => 0,
            Item::Empty => 1,
            Item::Message(_) => 2,
            Item::TooLong => 8,
        }
    }
}

impl Item {
    // The length of a message, and 0 of anything else.
    pub fn length(self) -> u32
        ensures { result ≡ item_length self }
    {
        match self {
            Item::Message(length) => length,
            _ => 0,
        }
    }
}

// The numbers to hold from one call to the next, as the call before answered them: how many bytes are gathered, and how many of them are the boundary's first.
#[derive(Clone, Copy)]
pub struct Held {
    pub gathered: u32,
    pub matched: u32,
}

impl Held {
    // At first, and behind each item.
    pub const NOTHING: Held = Held {
        gathered: 0,
        matched: 0,
    };
}

// What a call that is not refused answers.
#[derive(Clone, Copy)]
pub struct Taken {
    // How many bytes of the piece were taken.
    pub taken: usize,
    pub item: Item,
    pub held: Held,
}

// How a piece is cut: how many of its bytes are taken, and how much of the boundary is matched after them, which is nothing where an item ends with them.
#[derive(Clone, Copy)]
pub(crate) struct Cut {
    pub(crate) taken: usize,
    pub(crate) matched: Option<usize>,
}

// Takes bytes of `piece` until one item is complete or the piece is used up. `held` is `Held::NOTHING` at first, and then what the call before answered.
pub fn gather(boundary: &[u8], store: &mut [u8], piece: &[u8], held: Held) -> Result<Taken, Refusal>
    ensures answer { said held result ≡ answer_of link_limit boundary.now store.old piece.now held.gathered held.matched }
    ensures store { store.new ≡ store_after link_limit boundary.now store.old piece.now held.gathered held.matched }
{
    gather_within(LINK_LIMIT, boundary, store, piece, held)
}

// The same for a message of at most `limit` bytes.
#[tactic(auto, unfolding(crate::specs::Cutting::answer_of, crate::specs::Cutting::store_after))]
fn gather_within(
    limit: u32,
    boundary: &[u8],
    store: &mut [u8],
    piece: &[u8],
    held: Held,
) -> Result<Taken, Refusal>
    ensures answer { said held result ≡ answer_of limit boundary.now store.old piece.now held.gathered held.matched }
    ensures store { store.new ≡ store_after limit boundary.now store.old piece.now held.gathered held.matched }
{
    let size = boundary.len();
    answers::accepted(limit, size, store.len(), held)?;
    let cut = cutting::cut_piece(boundary, piece, held.matched as usize);
    let kept = store::kept(limit, size, held.gathered, cut.taken);
    store::lay(store, held.gathered as usize, piece, kept);
    Ok(answers::of_cut(limit, size, held.gathered, cut))
}
