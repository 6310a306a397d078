//! Streams that a named file can take the place of.

ghost use Rattle.std.specs.Prelude.{◌≡◌};
ghost use Rattle.curspan.specs.{ℕ, List, Option, IfErr, IfOk, text_of, OpenFault, IsUnread, IsUnwritten, Seen, SourceSeen};

use commands::OpenFault;
use desk::{Sink, Source};

/// A source that can be put on a file.
pub trait FileSource: Source {
    // What is seen of it once it is on the file of a name.
    ghost opens: { Self → List ℕ → SourceSeen → Type 0 };

    // Why the file of a name can't be opened.
    ghost unopened: { Self → List ℕ → OpenFault → Type 0 };

    /// Goes on with the file of that name, from its start. Where that can't be opened, all stays as it was.
    fn open(&mut self, name: &str) -> Result<(), OpenFault>
        ensures opened { IfOk result (λ _. opens self.old name.now (Self.seen self.new)) }
        ensures unread { IfOk result (λ _. IsUnread (Self.seen self.new)) }
        ensures refused { IfErr result (λ fault. unopened self.old name.now fault) }
        ensures kept { IfErr result (λ _. Self.seen self.new ≡ Self.seen self.old) };
}

/// A sink that can be put on a file.
pub trait FileSink: Sink {
    // What is seen of it once it is on the new file of a name.
    ghost creates: { Self → List ℕ → Seen → Type 0 };

    // Why a file of a name can't be made, where one of another name is read, or standard input.
    ghost uncreated: { Self → List ℕ → Option (List ℕ) → OpenFault → Type 0 };

    /// Goes on with a file of that name, made anew, unless it is the one that is read. Where that can't be made, all
    /// stays as it was.
    fn create(&mut self, name: &str, read: Option<&str>) -> Result<(), OpenFault>
        ensures created { IfOk result (λ _. creates self.old name.now (Self.seen self.new)) }
        ensures unwritten { IfOk result (λ _. IsUnwritten (Self.seen self.new)) }
        ensures refused { IfErr result (λ fault. uncreated self.old name.now (text_of read.entry) fault) }
        ensures kept { IfErr result (λ _. Self.seen self.new ≡ Self.seen self.old) };
}
