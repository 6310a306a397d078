//! Runs scripts.

ghost use Rattle.std.specs.Prelude.{◌≡◌, ◌≤◌, ◌||◌};
ghost use Rattle.desk.specs.{Ok, Some, length, is_some, false, end_failed, met_end, parse_line, entry_of, IsSound, CallMade, call_end, count_after, world, LineEnds, LogCloses, RunsLines, ScriptEnds};
ghost use Rattle.desk.specs.{log_failed, read_failed, write_fault, KeepsSize};

use crate::screen::{Fault, Screen};
use calls::Calls;
use cell::Refusal;
use script::{
    Arguments, LONGEST_LINE, LineEnd, Lines, ScriptEnd, ScriptFault, TextFault, Word, log_answer,
    read_line,
};
use streams::{Sink, Source, WriteFault};
use world::{Call, Reply};

impl<W: Sink> Screen<W> {
    /// Makes a call, and answers what the log says of it.
    #[inline(always)]
    fn answer(&mut self, call: &Call<'_>) -> Result<Result<Reply, Refusal>, WriteFault>
        ensures { CallMade W.seen W.name self.old call.now (call_end result) self.new }
    {
        match self.call(call) {
            Ok(reply) => Ok(Ok(reply)),
            Err(Fault::Refused(refusal)) => Ok(Err(refusal)),
            Err(Fault::Write(fault)) => Err(fault),
        }
    }

    /// Makes the call of a line and logs it.
    #[inline(always)]
    fn run_line<L: Sink>(
        &mut self,
        number: u64,
        line: &[u8],
        taken: &mut Arguments,
        log: &mut L,
    ) -> ScriptEnd
        requires { length line.now ≤ LONGEST_LINE }
        ensures line { LineEnds W.seen self.old self.new number (parse_line line.now) (L.seen log.old) (L.seen log.new) result }
        ensures writer { (W.seen self.new.writer).failures ≡ count_after (is_some (write_fault result.fault)) (W.seen self.old.writer).failures }
        ensures same { W.name self.new.writer ≡ W.name self.old.writer }
        ensures reads { read_failed result.fault ≡ false }
    {
        let word = match read_line(line, taken) {
            Ok(Some(word)) => word,
            Ok(None) => return script_end(false, None),
            Err(fault) => {
                let line = number;
                return script_end(false, Some(ScriptFault::Text { line, fault }));
            }
        };
        self.run_word(number, word, taken, log)
    }

    /// Makes the call of a word with its arguments, and logs it.
    #[inline(always)]
    fn run_word<L: Sink>(
        &mut self,
        number: u64,
        word: Word,
        arguments: &Arguments,
        log: &mut L,
    ) -> ScriptEnd
        ensures line { LineEnds W.seen self.old self.new number (Ok (Some ((entry_of word).call arguments.now))) (L.seen log.old) (L.seen log.new) result }
        ensures writer { (W.seen self.new.writer).failures ≡ count_after (is_some (write_fault result.fault)) (W.seen self.old.writer).failures }
        ensures same { W.name self.new.writer ≡ W.name self.old.writer }
        ensures reads { read_failed result.fault ≡ false }
    {
        match self.answer(&word.call(arguments)) {
            Ok(answer) => {
                let refused = answer.is_err();
                match log_answer(log, number, answer) {
                    Ok(()) => script_end(refused, None),
                    Err(_) => script_end(refused, Some(ScriptFault::Log)),
                }
            }
            Err(fault) => {
                let line = number;
                script_end(false, Some(ScriptFault::Write { line, fault }))
            }
        }
    }

    /// Makes the calls of the script's lines in order.
    fn run_lines<R: Source, L: Sink>(&mut self, input: &mut R, log: &mut L) -> ScriptEnd
        ensures lines { RunsLines W.seen self.old self.new (R.seen input.old) (R.seen input.new) (L.seen log.old) (L.seen log.new) result }
        ensures reading { (R.seen input.new).failures ≡ count_after (read_failed result.fault) (R.seen input.old).failures }
        ensures writer { (W.seen self.new.writer).failures ≡ count_after (is_some (write_fault result.fault)) (W.seen self.old.writer).failures }
        ensures same { W.name self.new.writer ≡ W.name self.old.writer }
    {
        let mut lines = Lines::new();
        let mut taken = Arguments::new();
        let mut number = 1u64;
        let mut refused = false;
        loop {
            let line_end = match lines.next_line(input) {
                Some(line_end) => line_end,
                None => {
                    let fault = TextFault::LineTooLong;
                    let line = number;
                    return script_end(refused, Some(ScriptFault::Text { line, fault }));
                }
            };
            if end_failed(line_end) {
                return script_end(refused, Some(ScriptFault::Reading));
            }
            let end = self.run_line(number, lines.line(), &mut taken, log);
            refused = either(refused, end.refused);
            if is_last(line_end, end) {
                return script_end(refused, end.fault);
            }
            number = number.saturating_add(1);
        }
    }

    /// Makes the calls of the script's lines in order, up to the first fault, and logs each that answers something or
    /// is refused. It flushes the log once, unless it failed before.
    pub fn run_script<R: Source, L: Sink>(&mut self, input: &mut R, log: &mut L) -> ScriptEnd
        ensures script { ScriptEnds W.seen self.old self.new (R.seen input.old) (R.seen input.new) (L.seen log.old) (L.seen log.new) result }
        ensures reading { (R.seen input.new).failures ≡ count_after (read_failed result.fault) (R.seen input.old).failures }
        ensures writer { (W.seen self.new.writer).failures ≡ count_after (is_some (write_fault result.fault)) (W.seen self.old.writer).failures }
        ensures same { W.name self.new.writer ≡ W.name self.old.writer }
        ensures sound { IsSound (world self.new.desk) }
        ensures size { KeepsSize self.old.desk self.new.desk }
    {
        // What a screen keeps is known where its desk is read: here before the calls, and below after them.
        let _ = &self.desk;
        let end = self.run_lines(input, log);
        let _ = &self.desk;
        close_log(log, end)
    }
}

/// Flushes the log, unless a write of it failed.
fn close_log<L: Sink>(log: &mut L, end: ScriptEnd) -> ScriptEnd
    ensures closes { LogCloses end.fault (L.seen log.old) (L.seen log.new) result.fault }
    ensures refused { result.refused ≡ end.refused }
    ensures reading { read_failed result.fault ≡ read_failed end.fault }
    ensures writer { write_fault result.fault ≡ write_fault end.fault }
{
    if log_failed(end) {
        return end;
    }
    match log.flush() {
        Ok(()) => end,
        Err(_) if end.fault.is_none() => script_end(end.refused, Some(ScriptFault::Log)),
        Err(_) => end,
    }
}

fn end_failed(end: LineEnd) -> bool
    ensures { result ≡ end_failed end }
{
    matches!(end, LineEnd::ReadFailed)
}

/// Whether no line is run after one that ends so.
fn is_last(line_end: LineEnd, end: ScriptEnd) -> bool
    ensures { result ≡ (met_end line_end || is_some end.fault) }
{
    matches!(line_end, LineEnd::ScriptEnd) || end.fault.is_some()
}

fn log_failed(end: ScriptEnd) -> bool
    ensures { result ≡ log_failed end.fault }
{
    matches!(end.fault, Some(ScriptFault::Log))
}

fn script_end(refused: bool, fault: Option<ScriptFault>) -> ScriptEnd
    ensures { result ≡ record { refused = refused; fault = fault } }
{
    ScriptEnd { refused, fault }
}

fn either(a: bool, b: bool) -> bool
    ensures { result ≡ (a || b) }
{
    a || b
}
