// The seven messages: what each needs, and its values.
ghost use Rattle.std.specs.Prelude.{◌≡◌, ◌-◌, ◌<◌, true, false, length as length_of};
ghost use Rattle.message.specs.Class.{class_in, class_of};
ghost use Rattle.message.specs.Reading.{said};
ghost use Rattle.message.specs.Limits.{link_limits};
ghost use Rattle.message.specs.Messages.{found, found_in, needed, no_number, no_status, no_type, attribute_called, number_value, message, message_at};
ghost use Rattle.elements.specs.Held.{span_said};
ghost use Rattle.reader.specs.Roots.{needed_said, name_called, only_called, name_end, kind_named, Tells, TellsType, advice_seen};
ghost use Rattle.message.specs.declared.Kind.TheVariants.{SessionOpenResponse, SessionOk, Ok, Advisory, Request, Response};

use crate::kinds;
use elements::attributes::Span;
use elements::{Inside, LEVELS, MOST_PART, Seen, attributes, content, document, noted};
use message::{Advice, Kind, Message, Reason, Refusal, Status, Value};
use scan::{bytes, names, refused};
use values::meaning;

// Looks for the first attribute of a start tag that is called `word`, from behind the tag's name on.
fn attribute(s: &[u8], table: &[u8; 256], at: usize, word: &[u8]) -> Result<Span, Refusal>
    ensures { span_said result ≡ attribute_called (class_in table.now) link_limits s.now (length_of s.now) word.now at }
{
    let mut i = at;
    loop {
        let p = bytes::blanks(s, table, i);
        let name = names::name(s, table, p, MOST_PART)?;
        let value = attributes::quoted(s, table, name.end)?;
        if noted::called(s, p, name.end, word) {
            return Ok(value);
        }
        i = value.to + 1;
    }
}

// The same of an attribute without which the message is none of the seven.
fn needed(s: &[u8], table: &[u8; 256], at: usize, word: &[u8]) -> Result<Span, Refusal>
    ensures { needed_said result ≡ needed (found_in (attribute_called (class_in table.now) link_limits s.now (length_of s.now) word.now at)) }
{
    attribute(s, table, at, word).or(refused(Reason::NoneOfTheSeven, 0))
}

// A value that is not there, or that the kind does not have.
fn absent<M>(meaning: M) -> Value<M>
    ensures { result ≡ record { there = false; place = 0; length = 0; meaning = meaning } }
{
    Value {
        there: false,
        place: 0,
        length: 0,
        meaning,
    }
}

// A value that is there, with what it means.
fn present<M>(value: Span, meaning: M) -> Value<M>
    ensures { result ≡ record { there = true; place = value.from; length = value.to - value.from; meaning = meaning } }
{
    Value {
        there: true,
        place: value.from,
        length: value.to.saturating_sub(value.from),
        meaning,
    }
}

fn number_value(s: &[u8], table: &[u8; 256], value: Span) -> Value<Option<u32>>
    ensures { result ≡ number_value (class_in table.now) s.now (found value.from value.to) }
{
    present(value, meaning::number(s, table, value.from, value.to))
}

fn number_if_there(s: &[u8], table: &[u8; 256], at: usize, word: &[u8]) -> Value<Option<u32>>
    ensures { result ≡ number_value (class_in table.now) s.now (found_in (attribute_called (class_in table.now) link_limits s.now (length_of s.now) word.now at)) }
{
    attribute(s, table, at, word).map_or(absent(None), |value| number_value(s, table, value))
}

// What the content of an AdvisoryType means: an element in it makes it other.
fn type_advice(s: &[u8], table: &[u8; 256], element: Seen) -> Advice
    ensures { result ≡ advice_seen (class_in table.now) s.now element }
{
    if element.inside.children == 0 {
        return meaning::advice(s, table, element.from, element.to);
    }
    Advice::Other
}

// The type, which stands in the content of the AdvisoryType whose name begins at `begin`.
fn type_value(s: &[u8], table: &[u8; 256], begin: usize) -> Value<Advice>
    requires { 0 < begin }
    ensures { TellsType (class_in table.now) s.now begin result }
{
    // It stands at level 3, so two of the levels are used up.
    let Ok(element) = content::element(s, table, begin - 1, LEVELS - 2) else {
        return absent(Advice::Other);
    };
    let value = Span {
        from: element.from,
        to: element.to,
    };
    present(value, type_advice(s, table, element))
}

// The name of an element that has been read already, from where it begins: the place behind it if the part after any colon is `word`.
fn named(s: &[u8], table: &[u8; 256], begin: usize, word: &[u8]) -> Result<usize, Refusal>
    ensures { said result ≡ name_called (class_in table.now) s.now word.now begin }
{
    match names::name(s, table, begin, MOST_PART) {
        Ok(name) if noted::called(s, name.local, name.end, word) => Ok(name.end),
        _ => refused(Reason::NoneOfTheSeven, 0),
    }
}

// The only child element, if it is called `word`: the place behind its name.
fn only_child(s: &[u8], table: &[u8; 256], inside: Inside, word: &[u8]) -> Result<usize, Refusal>
    ensures { said result ≡ only_called (class_in table.now) s.now word.now inside }
{
    if inside.children == 1 {
        return named(s, table, inside.first, word);
    }
    refused(Reason::NoneOfTheSeven, 0)
}

// The place behind the root's name, which begins at `begin`.
fn name_end(s: &[u8], table: &[u8; 256], begin: usize) -> usize
    ensures { result ≡ name_end (class_in table.now) s.now begin }
{
    names::name(s, table, begin, MOST_PART).map_or(0, |name| name.end)
}

// A message of a kind, with no value.
fn bare(kind: Kind) -> Message
    ensures { result ≡ message kind no_status no_number no_number no_number no_type }
{
    Message {
        kind,
        status: absent(Status::Other),
        id: absent(None),
        in_response_to: absent(None),
        in_relation_to: absent(None),
        advisory_type: absent(Advice::Other),
    }
}

fn session_open_response(s: &[u8], table: &[u8; 256], root: Seen) -> Result<Message, Refusal>
    ensures { Tells (class_in table.now) s.now root SessionOpenResponse result }
{
    let value = needed(s, table, name_end(s, table, root.begin), b"status")?;
    Ok(Message {
        status: present(value, meaning::status(s, table, value.from, value.to)),
        ..bare(Kind::SessionOpenResponse)
    })
}

// This and the next differ in a word and in the field that the value goes to, which no parameter can name.
fn session_ok(s: &[u8], table: &[u8; 256], root: Seen) -> Result<Message, Refusal>
    ensures { Tells (class_in table.now) s.now root SessionOk result }
{
    let value = needed(s, table, name_end(s, table, root.begin), b"ID")?;
    Ok(Message {
        id: number_value(s, table, value),
        ..bare(Kind::SessionOk)
    })
}

fn ok(s: &[u8], table: &[u8; 256], root: Seen) -> Result<Message, Refusal>
    ensures { Tells (class_in table.now) s.now root Ok result }
{
    let value = needed(s, table, name_end(s, table, root.begin), b"inResponseTo")?;
    Ok(Message {
        in_response_to: number_value(s, table, value),
        ..bare(Kind::Ok)
    })
}

fn advisory(s: &[u8], table: &[u8; 256], root: Seen) -> Result<Message, Refusal>
    ensures { Tells (class_in table.now) s.now root Advisory result }
{
    let e = only_child(s, table, root.inside, b"Advisory")?;
    let typed = root.inside.nested;
    if typed == 0 {
        return refused(Reason::NoneOfTheSeven, 0);
    }
    Ok(Message {
        in_relation_to: number_if_there(s, table, e, b"inRelationTo"),
        advisory_type: type_value(s, table, typed),
        ..bare(Kind::Advisory)
    })
}

fn request(s: &[u8], table: &[u8; 256], root: Seen) -> Result<Message, Refusal>
    ensures { Tells (class_in table.now) s.now root Request result }
{
    let e = only_child(s, table, root.inside, b"QueryRequest")?;
    let value = needed(s, table, e, b"ID")?;
    Ok(Message {
        id: number_value(s, table, value),
        ..bare(Kind::Request)
    })
}

fn response(s: &[u8], table: &[u8; 256], root: Seen) -> Result<Message, Refusal>
    ensures { Tells (class_in table.now) s.now root Response result }
{
    let e = only_child(s, table, root.inside, b"QueryResponse")?;
    Ok(Message {
        in_response_to: number_if_there(s, table, e, b"inResponseTo"),
        ..bare(Kind::Response)
    })
}

// The message of the root's kind.
fn of_kind(s: &[u8], table: &[u8; 256], root: Seen, kind: Kind) -> Result<Message, Refusal>
    ensures { Tells (class_in table.now) s.now root kind result }
{
    match kind {
        Kind::SessionOpenRequest => Ok(bare(kind)),
        Kind::SessionOpenResponse => session_open_response(s, table, root),
        Kind::SessionOk => session_ok(s, table, root),
        Kind::Ok => ok(s, table, root),
        Kind::Advisory => advisory(s, table, root),
        Kind::Request => request(s, table, root),
        Kind::Response => response(s, table, root),
    }
}

// The kind of the root, whose name begins at `begin`.
fn root_kind(s: &[u8], table: &[u8; 256], begin: usize) -> Result<Kind, Refusal>
    ensures { said result ≡ kind_named (class_in table.now) s.now begin }
{
    let name = names::name(s, table, begin, MOST_PART).or(refused(Reason::NoneOfTheSeven, 0))?;
    match kinds::kind(s, name.local, name.end) {
        Some(kind) => Ok(kind),
        None => refused(Reason::NoneOfTheSeven, 0),
    }
}

// Reads a message with any table of classes.
#[tactic(auto, unfolding(message::specs::Messages::message_at))]
fn message_with(s: &[u8], table: &[u8; 256], at: usize) -> Result<Message, Refusal>
    ensures { said result ≡ message_at (class_in table.now) link_limits s.now at }
{
    let root = document::document(s, table, at)?;
    let kind = root_kind(s, table, root.begin)?;
    of_kind(s, table, root, kind)
}

// Reads a message from a place on, with the table of classes made once.
pub(crate) fn message(s: &[u8], at: usize) -> Result<Message, Refusal>
    ensures { said result ≡ message_at class_of link_limits s.now at }
{
    let table = scan::table();
    message_with(s, &table, at)
}
