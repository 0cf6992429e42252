// A line of a script, and what it stands for.
ghost use Rattle.std.specs.Prelude.{◌≡◌};
ghost use Rattle.conduct.specs.Lists.{all};
ghost use Rattle.replay.specs.Script.{behind, is_word, ticks_of, is_digit, is_decimal, figure_of, figure_behind, numbered_of, worded_of, line_of};

use conduct::{Call, Conduct, Pushed};

// One of the things that a session is made with.
#[derive(Clone, Copy)]
pub(crate) enum Setting {
    Interval(u32),
    Conduct(Conduct),
    Resends(u32),
}

// What a line stands for.
#[derive(Clone, Copy)]
pub(crate) enum Line {
    // An empty one.
    Nothing,
    Set(Setting),
    Ticks(u32),
    Other(Call),
    // A message: its bytes are those behind the word and its space.
    Message,
    Last(u32),
    Bad,
}

#[tactic(auto, using(crate::proofs::Words::equal_words))]
fn is_word(line: &[u8], word: &[u8]) -> bool
    ensures { result ≡ is_word word.now line.now }
{
    line == word
}

// The number behind a word that ends with a space.
fn behind(line: &[u8], word: &[u8]) -> Option<u32>
    ensures { result ≡ behind word.now line.now }
{
    if !texts::begins(line, word) {
        return None;
    }
    texts::number(line, word.len())
}

// So many ticks, if they are 1 to 1,000,000.
fn ticks(count: u32) -> Line
    ensures { result ≡ ticks_of count }
{
    if 1 <= count && count <= 1000000 {
        Line::Ticks(count)
    } else {
        Line::Bad
    }
}

// Whether a text is a number of any size, in decimal without leading zeros.
fn is_decimal(text: &[u8]) -> bool
    ensures { result ≡ is_decimal text.now }
{
    let Some(first) = text.first() else {
        return false;
    };
    (*first != b'0' || text.len() == 1) && all_digits(text)
}

fn all_digits(text: &[u8]) -> bool
    ensures { result ≡ all is_digit text.now }
{
    text.iter().all(|byte| byte.is_ascii_digit())
}

// The figure of a setting. A number that is too long for 32 bits is one too: the making refuses it.
fn figure(text: &[u8]) -> Option<u32>
    ensures { result ≡ figure_of text.now }
{
    texts::number(text, 0).or_else(|| is_decimal(text).then_some(u32::MAX))
}

// The figure behind a word that ends with a space.
#[tactic(auto, using(crate::proofs::Words::begins_long))]
fn figure_behind(line: &[u8], word: &[u8]) -> Option<u32>
    ensures { result ≡ figure_behind word.now line.now }
{
    if texts::begins(line, word) {
        return figure(&line[word.len()..]);
    }
    None
}

// A line that has a word and a number.
#[tactic(auto, unfolding(crate::specs::Script::numbered_of))]
fn numbered(line: &[u8]) -> Line
    ensures { result ≡ numbered_of line.now }
{
    if let Some(interval) = figure_behind(line, b"interval ") {
        return Line::Set(Setting::Interval(interval));
    }
    if let Some(resends) = figure_behind(line, b"resends ") {
        return Line::Set(Setting::Resends(resends));
    }
    if let Some(count) = behind(line, b"tick ") {
        return ticks(count);
    }
    if let Some(push) = behind(line, b"push ") {
        return Line::Other(Call::Push(Pushed::Response, push));
    }
    if let Some(advise) = behind(line, b"advise ") {
        return Line::Other(Call::Push(Pushed::Advisory, advise));
    }
    if let Some(refusal) = behind(line, b"unreadable ") {
        return Line::Other(Call::Unreadable(refusal));
    }
    behind(line, b"last ").map_or(Line::Bad, Line::Last)
}

// A setting that is words alone, or a word with a number.
#[tactic(auto, unfolding(crate::specs::Script::worded_of))]
fn worded(line: &[u8]) -> Line
    ensures { result ≡ worded_of line.now }
{
    if is_word(line, b"conduct new") {
        return Line::Set(Setting::Conduct(Conduct::New));
    }
    if is_word(line, b"conduct old") {
        return Line::Set(Setting::Conduct(Conduct::Old));
    }
    numbered(line)
}

#[tactic(auto, unfolding(crate::specs::Script::line_of))]
pub(crate) fn line_of(line: &[u8]) -> Line
    ensures { result ≡ line_of line.now }
{
    if line.is_empty() {
        return Line::Nothing;
    }
    if is_word(line, b"tick") {
        return Line::Ticks(1);
    }
    if is_word(line, b"connected") {
        return Line::Other(Call::Connected);
    }
    if is_word(line, b"lost") {
        return Line::Other(Call::Lost);
    }
    if is_word(line, b"stop") {
        return Line::Other(Call::Stop);
    }
    if texts::begins(line, b"message ") {
        return Line::Message;
    }
    worded(line)
}
