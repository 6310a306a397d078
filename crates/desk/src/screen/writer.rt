//! Another writer for a screen, and a terminal of which nothing is known.

ghost use Rattle.std.specs.Prelude.{◌≡◌};
ghost use Rattle.desk.specs.{None};

use super::Screen;
use std::mem::replace;

impl<W> Screen<W> {
    /// Puts another writer in the place of this one, and gives this one back. What the terminal shows stays known.
    pub fn replace_writer(&mut self, writer: W) -> W
        ensures writer { result ≡ self.old.writer }
        ensures rest { self.new ≡ record self.old { writer = writer } }
    {
        replace(&mut self.writer, writer)
    }

    /// Forgets what the terminal shows, as after bytes that didn't reach it. The next `doupdate` clears it.
    pub fn invalidate(&mut self)
        ensures { self.new ≡ record self.old { painter = record self.old.painter { last = None } } }
    {
        self.painter.invalidate();
    }
}
