// Where the lines go.
ghost use Rattle.std.specs.Prelude.{◌≡◌, IsTrue};

use crate::lines::Line;
use std::io::Write;

// A writer, the line that goes there next, and whether a write failed; nobody asks why. After that there is nothing more to say: no later
// write leaves a gap, and no last line follows. One line is kept for all that is printed, since a new one costs a pass over all its room.
#[derive(Drop)]
pub(crate) struct Output<W> {
    to: W,
    pub(crate) line: Line,
    failed: bool,
}

impl<W: Write> Output<W> {
    pub(crate) fn new(to: W) -> Output<W> {
        Output {
            to,
            line: Line::new(),
            failed: false,
        }
    }

    pub(crate) fn failed(&self) -> bool
        ensures { result ≡ self.now.failed }
    {
        self.failed
    }

    pub(crate) fn write(&mut self)
        ensures stays_failed { IsTrue self.old.failed → IsTrue self.new.failed }
    {
        self.failed = self.failed || self.to.write_all(self.line.as_bytes()).is_err();
    }
}
