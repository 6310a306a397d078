//! Streams that a signal interrupts.

use std::io;
use std::io::{ErrorKind, Read, Write};
use streams::Patient;
use test_streams::{Halting, Interrupted, Pieces};

/// Whether three reads of two bytes answer that, and leave these in their room.
fn gives<R: Read>(mut reader: R, answers: [Result<usize, ErrorKind>; 3], left: &[u8]) -> bool
where
    R: Drop,
{
    let mut room = [b'.'; 2];
    for answer in answers {
        if reader.read(&mut room).map_err(|error| error.kind()) != answer {
            return false;
        }
    }
    room.as_slice() == left
}

/// Three bytes, and then the end or a fault, where two of three reads are interrupted.
fn interrupted(fails: bool) -> Interrupted<Pieces<'static>> {
    Interrupted {
        stream: Pieces {
            bytes: b"abc",
            step: 2,
            fails,
        },
        calls: 0,
    }
}

/// The same, read with patience.
fn patient(fails: bool) -> Patient<Interrupted<Pieces<'static>>> {
    Patient {
        stream: interrupted(fails),
    }
}

#[test]
fn interrupted_reads_are_made_again(rt: HostRuntime) {
    assert!(rt; gives(patient(false), [Ok(2), Ok(1), Ok(0)], b"cb"));
    let failed = Err(ErrorKind::Other);
    assert!(rt; gives(patient(true), [Ok(2), Ok(1), failed], b"cb"));
    let interruption = Err(ErrorKind::Interrupted);
    assert!(rt;
        gives(
            interrupted(false),
            [interruption, interruption, Ok(2)],
            b"ab"
        )
    );
}

/// Whether two writes are six where two of three are interrupted, the writer takes these bytes, and the second answers
/// that.
fn takes(writer: Halting, bytes: &[u8], second: Result<usize, ErrorKind>) -> bool {
    let mut patient = Patient {
        stream: Interrupted {
            stream: writer,
            calls: 0,
        },
    };
    let _ = patient.write(b"abc");
    let answer = patient.write(b"xyz").map_err(|error| error.kind());
    let Interrupted { stream, calls } = &patient.stream;
    *calls == 6 && stream.taken.as_slice() == bytes && answer == second
}

#[test]
fn interrupted_writes_are_made_again(rt: HostRuntime) {
    assert!(rt; takes(Halting::in_pieces(rt.alloc(), 2, false), b"abxy", Ok(2)));
    let failed = Err(ErrorKind::Other);
    assert!(rt; takes(Halting::until(rt.alloc(), 3, true), b"abc", failed));
}
