// The table of open pushes.
ghost use Rattle.std.specs.Prelude.{◌≡◌, ◌≤◌, drop};
ghost use Rattle.conduct.specs.Lists.{all};
ghost use Rattle.conduct.specs.Sound.{sound_push};
ghost use Rattle.session.specs.Rows.{rows_of, is_blank};

use crate::Table;
use conduct::{Push, Pushed, Terms};
use rules::pushes;

pub(crate) const MOST: usize = 32;

// A row behind the count.
const BLANK: Push = Push {
    what: Pushed::Response,
    number: 0,
    handle: 0,
    sent: 0,
    age: 0,
};

pub(crate) const EMPTY: Table = Table {
    rows: [BLANK; 32],
    count: 0,
};

// Under the definition's name.
fn is_blank(p: Push) -> bool
    ensures { result ≡ is_blank p }
{
    p == BLANK
}

pub(crate) fn all_sound(terms: Terms, rows: &[Push]) -> bool
    ensures { result ≡ all (sound_push terms) rows.now }
{
    rows.iter().all(|p| pushes::is_sound(terms, *p))
}

impl Table {
    #[tactic(auto, unfolding(crate::specs::Rows::rows_of))]
    pub(crate) fn open_rows(&self) -> &[Push]
        requires { self.now.count ≤ 32 }
        ensures { result.now ≡ rows_of self.now }
    {
        &self.rows[..self.count]
    }

    // Whether every row from the count on is blank.
    pub(crate) fn is_blank_after(&self) -> bool
        requires { self.now.count ≤ 32 }
        ensures { result ≡ all is_blank (drop self.now.count self.now.rows) }
    {
        self.rows[self.count..].iter().all(|p| is_blank(*p))
    }
}
