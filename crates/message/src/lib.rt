// What a message is: the types of an answer, which the reader gives and everybody else takes. `specs/` has the definitions of document 01's "The restricted
// XML" and "The seven messages", and `proofs/` the laws about them.
#![tactic(auto)]

ghost use Rattle.message.specs.Messages.{kind_number};
ghost use Rattle.message.specs.Reading.{reason_number};
ghost use Rattle.message.specs.Values.{status_number, advice_number};
ghost use Rattle.std.specs.Prelude.{◌≡◌};

#[derive(Clone, Copy, PartialEq, Eq)]
pub enum Kind {
    SessionOpenRequest,
    SessionOpenResponse,
    SessionOk,
    Ok,
    Advisory,
    Request,
    Response,
}

// The number for C; so are those of a status and an advice.
impl From<Kind> for u32 {
    ghost from_gives = { λ kind number. number ≡ kind_number kind };

    fn from(kind: Kind) -> u32 {
        match kind {
            Kind::SessionOpenRequest => 1,
            Kind::SessionOpenResponse => 2,
            Kind::SessionOk => 3,
            Kind::Ok => 4,
            Kind::Advisory => 5,
            Kind::Request => 6,
            Kind::Response => 7,
        }
    }
}

#[derive(Clone, Copy, PartialEq, Eq)]
pub enum Status {
    Ok,
    RedundantSession,
    Other,
}

impl From<Status> for u32 {
    ghost from_gives = { λ status number. number ≡ status_number status };

    fn from(status: Status) -> u32 {
        match status {
            Status::Ok => 1,
            Status::RedundantSession => 2,
            Status::Other => 0,
        }
    }
}

#[derive(Clone, Copy, PartialEq, Eq)]
pub enum Advice {
    UnreadableMessage,
    Other,
}

impl From<Advice> for u32 {
    ghost from_gives = { λ advice number. number ≡ advice_number advice };

    fn from(advice: Advice) -> u32 {
        match advice {
            Advice::UnreadableMessage => 1,
            Advice::Other => 0,
        }
    }
}

// A value: whether it is there, where it stands in the message, and what it means. A value that is not there, or that the kind does not have, is 0 and 0.
// `there` stands beside the rest, and no Option around it: `Session::heard` takes any message, also one in which a value that is not there means something.
#[derive(Clone, Copy, PartialEq, Eq)]
pub struct Value<M> {
    pub there: bool,
    pub place: usize,
    pub length: usize,
    pub meaning: M,
}

// What a number means is the number that it names, if any.
#[derive(Clone, Copy, PartialEq, Eq)]
pub struct Message {
    pub kind: Kind,
    pub status: Value<Status>,
    pub id: Value<Option<u32>>,
    pub in_response_to: Value<Option<u32>>,
    pub in_relation_to: Value<Option<u32>>,
    pub advisory_type: Value<Advice>,
}

// Why a message is refused.
#[derive(Clone, Copy, PartialEq, Eq)]
pub enum Reason {
    TooLong,
    NotWellFormed,
    TooDeep,
    TooManyAttributes,
    LeftOut,
    NoneOfTheSeven,
    NameTooLong,
}

// Document 01's number of the refusal.
impl From<Reason> for u32 {
    ghost from_gives = { λ reason number. number ≡ reason_number reason };

    fn from(reason: Reason) -> u32 {
        match reason {
            Reason::TooLong => 8,
            Reason::NotWellFormed => 9,
            Reason::TooDeep => 10,
            Reason::TooManyAttributes => 11,
            Reason::LeftOut => 12,
            Reason::NoneOfTheSeven => 13,
            Reason::NameTooLong => 14,
        }
    }
}

// The reason, and the place in the message at which it is seen.
#[derive(Clone, Copy, PartialEq, Eq)]
pub struct Refusal {
    pub reason: Reason,
    pub place: usize,
}
