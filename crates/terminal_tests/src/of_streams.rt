//! Pieces that are sent and read, also where the stream takes few bytes, stops or fails.

use std::alloc::Global;
use streams::{Counted, CountedReader, Discard, Sink, Source, WriteFault, send};
use test_streams::{Halting, Pieces};

/// Whether the sends of two pieces answer that, and the writer takes these bytes of them.
fn sends(writer: Halting, answers: [Result<u32, WriteFault>; 2], bytes: &[u8]) -> bool {
    let mut sink = Counted::new(writer);
    let sent = [send(&mut sink, 5, b"abc"), send(&mut sink, 0, b"xyz")];
    sent == answers && sink.get_ref().taken.as_slice() == bytes
}

#[test]
fn pieces_are_sent_whole(rt: HostRuntime) {
    for step in [100, 1] {
        let writer = Halting::in_pieces(rt.alloc(), step, false);
        assert!(rt; sends(writer, [Ok(8), Ok(3)], b"abcxyz"), "by {step} bytes");
    }
}

#[test]
fn pieces_are_sent_until_a_fault_and_again(rt: HostRuntime) {
    for fails in [true, false] {
        let writer = Halting::until(rt.alloc(), 2, fails);
        let fault = Err(WriteFault { sent: 7 });
        assert!(rt; sends(writer, [fault, Ok(3)], b"abxyz"), "fails: {fails}");
    }
}

/// What is answered where nothing is sent, and where a piece is sent to a borrowed sink and to one that keeps nothing.
fn send_to_others(mut sink: &mut Counted<Halting>) -> [Result<u32, WriteFault>; 3] {
    [
        send(sink, 10, b""),
        send(&mut sink, 2, b"c"),
        send(&mut Discard::new(), 7, b"abc"),
    ]
}

#[test]
fn pieces_are_sent_to_borrowed_sinks_and_to_none(rt: HostRuntime) {
    let mut sink = Counted::new(Halting::in_pieces(rt.alloc(), 100, false));
    assert!(rt; send_to_others(&mut sink) == [Ok(10), Ok(3), Ok(10)]);
    assert!(rt; sink.get_ref().taken.len() == 1);
}

/// Whether flushes of a sink fail, also where it is borrowed.
fn flushes_fail(alloc: Global, is_stuck: bool) -> [bool; 2] {
    let mut sink = Counted::new(Halting::in_pieces(alloc, 100, is_stuck));
    [sink.flush().is_err(), Sink::flush(&mut &mut sink).is_err()]
}

#[test]
fn a_flush_fails_where_the_writer_is_stuck(rt: HostRuntime) {
    let answers = [
        flushes_fail(rt.alloc(), true),
        flushes_fail(rt.alloc(), false),
    ];
    assert_eq!(rt; answers, [[true; 2], [false; 2]]);
}

/// Whether four reads of two bytes give so many bytes each, where they don't fail, and leave these in their room.
fn gives(mut source: CountedReader<Pieces<'_>>, counts: [Option<usize>; 4], left: &[u8]) -> bool {
    let mut room = [b'.'; 2];
    for count in counts {
        if source.read(&mut room).ok() != count {
            return false;
        }
    }
    room.as_slice() == left
}

/// The bytes abc, in pieces.
fn pieces(step: usize, fails: bool) -> CountedReader<Pieces<'static>> {
    let bytes = b"abc";
    CountedReader::new(Pieces { bytes, step, fails })
}

#[test]
fn pieces_are_read_until_the_end_or_a_fault(rt: HostRuntime) {
    assert!(rt;
        gives(
            pieces(600, false),
            [Some(2), Some(1), Some(0), Some(0)],
            b"cb"
        )
    );
    assert!(rt; gives(pieces(1, true), [Some(1), Some(1), Some(1), None], b"c."));
}
