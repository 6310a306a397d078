//! A list of calls that are all made, whatever becomes of the writes.

ghost use Rattle.std.specs.Prelude.{◌≡◌, ◌+◌, ◌-◌, ◌<◌, ◌^◌};
ghost use Rattle.desk.specs.{IsSound, is_doupdate, world, cut_of};

use crate::screen::{Fault, Screen, cells_of};
use calls::Calls;
use streams::{Sink, WriteFault};
use world::{Call, Refresh, Reply};

/// How the calls of a list ended, once all were made.
#[derive(Clone, Copy, PartialEq, Eq, Debug)]
pub struct RunAllEnd {
    /// How many calls were accepted.
    pub done: usize,
    /// How many calls were refused.
    pub refused: usize,
    /// How many calls of `doupdate` had a write or a flush that failed.
    pub failed: usize,
    /// How many cells the calls of `update_panels` read.
    pub composed: u128,
    /// The fault of the last `doupdate`, if it had one: what the terminal shows is unknown then.
    pub fault: Option<WriteFault>,
}

impl<W: Sink> Screen<W> {
    ghost use Rattle.desk.specs.States.{KeepsSize};
    ghost use Rattle.desk.specs.Histories.{HistoryEnds, HistoryShows, RunsAll};

    /// Makes all calls in order. It goes on after a refusal, and where a write or a flush fails: the next `doupdate`
    /// clears the terminal then. So each `doupdate` that succeeds shows the whole virtual screen, whatever failed
    /// before.
    pub fn run_all(&mut self, calls: &[Call<'_>]) -> RunAllEnd
        ensures history { HistoryEnds W.seen W.name self.old calls.now result self.new }
        ensures shown { HistoryShows W.seen self.old self.new calls.now result.fault }
        ensures same { W.name self.new.writer ≡ W.name self.old.writer }
        ensures sound { IsSound (world self.new.desk) }
        ensures size { KeepsSize self.old.desk self.new.desk }
    {
        // What a screen keeps is known where its desk is read: here before the calls, and below after them.
        let _ = &self.desk;
        let end = self.make_all(calls);
        let _ = &self.desk;
        end
    }

    fn make_all(&mut self, calls: &[Call<'_>]) -> RunAllEnd
        ensures run { RunsAll W.seen W.name self.old calls.now result self.new }
        ensures same { W.name self.new.writer ≡ W.name self.old.writer }
    {
        let mut end = RunAllEnd {
            done: 0,
            refused: 0,
            failed: 0,
            composed: 0,
            fault: None,
        };
        for call in calls {
            let made = self.call(call);
            end.count(call, made);
        }
        end
    }
}

impl RunAllEnd {
    ghost use Rattle.desk.specs.steps.Counting.{counted};

    /// Counts a call that ended so.
    fn count(&mut self, call: &Call<'_>, made: Result<Reply, Fault>)
        requires calls { self.old.done + self.old.refused + self.old.failed < 2 ^ 64 - 1 }
        requires cells { self.old.composed < 2 ^ 128 - 2 ^ 32 }
        ensures counted { self.new ≡ counted self.old call.now made }
        ensures cells { self.new.composed < self.old.composed + 2 ^ 32 }
    {
        if is_doupdate(call) {
            self.fault = fault_of(&made);
        }
        match made {
            Ok(reply) => {
                self.done += 1;
                self.composed += u128::from(cells_of(reply));
            }
            Err(Fault::Refused(_)) => self.refused += 1,
            Err(Fault::Write(_)) => self.failed += 1,
        }
    }
}

fn is_doupdate(call: &Call<'_>) -> bool
    ensures { result ≡ is_doupdate call.now }
{
    matches!(*call, Call::Refresh(Refresh::Doupdate))
}

/// The fault of a call whose text was cut short.
fn fault_of(made: &Result<Reply, Fault>) -> Option<WriteFault>
    ensures { result ≡ cut_of made.now }
{
    match made {
        Err(Fault::Write(fault)) => Some(*fault),
        _ => None,
    }
}
