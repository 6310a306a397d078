//! Does what the command line asks for, over any reader and writers.

ghost use Rattle.std.specs.Prelude.{◌≡◌, ◌<◌, ◌⊎◌};
ghost use Rattle.curspan.specs.{IfOk, MatchResult, None, Some, map, RefusedBy, no_rendition, IsSize, sizes_of, text_of, printed_picture, HasSize, PaintsScreen, Does, IsCreated, IsOpened, IsUnopened};
ghost use Rattle.curspan.specs.{Paints, Runs, RunsBy, Serves, ServesInvocation, LacksMemory, Need, WritingEnds, outputs, world, first_painter, nothing_seen, first_world};
ghost use Rattle.curspan.specs.{new_refusal, world_after, Call, Refresh};

use crate::opening::{FileSink, FileSource};
use cell::Rendition;
use checks::check_script;
use commands::{
    Closable, Invocation, Job, Kind, Need, Request, Variables, complain, job, log_fault,
    log_unopened, no_memory, print, show_stream, status_of, usage,
};
use desk::{Call, Calls, Desk, Refusal, Screen, ScriptEnd, Sink, Source, VirtualScreen};
use std::alloc::Global;
use std::convert::AsStr;
use streams::Discard;

/// A blank screen of the job's size. What it sends is discarded.
fn blank_screen(alloc: Global, job: Job) -> Result<Screen<Discard>, Refusal>
    requires { IsSize job.lines × IsSize job.cols }
    ensures world { IfOk result (λ screen. world screen.desk ≡ first_world job.lines job.cols) }
    ensures painter { IfOk result (λ screen. screen.painter ≡ first_painter job.lines job.cols) }
    ensures writer { IfOk result (λ screen. ⟦<Discard as Sink>⟧.seen screen.writer ≡ nothing_seen) }
    ensures refused { RefusedBy (new_refusal job.lines job.cols) result }
{
    Screen::new(alloc, job.lines, job.cols, Discard::new())
}

/// Runs a script on a screen, and writes to the log what the calls answer, unless it is to be quiet, and the fault that
/// ended the script.
fn run_script<W: Closable, R: Source, L: Sink>(
    is_quiet: bool,
    screen: &mut Screen<W>,
    input: &mut R,
    log: &mut L,
) -> ScriptEnd
    ensures ran { RunsBy is_quiet W.seen W.closed screen.old screen.new (R.seen input.old) (R.seen input.new) (L.seen log.old) (L.seen log.new) result }
    ensures log { result.fault ≡ None → (L.seen log.new).failures ≡ (L.seen log.old).failures }
    ensures same { W.name screen.new.writer ≡ W.name screen.old.writer }
{
    let end = if is_quiet {
        let mut answers = Discard::new();
        screen.run_script(input, &mut answers)
    } else {
        screen.run_script(input, log)
    };
    log_fault(screen.writer(), log, end.fault);
    end
}

/// Runs a script on a screen of the job's size over the output, and answers the status.
fn run<'a, R: Source, O: Closable, L: Sink>(
    alloc: Global,
    is_quiet: bool,
    job: Job,
    input: &mut R,
    out: &'a mut O,
    log: &mut L,
) -> u8
    requires { IsSize job.lines × IsSize job.cols }
    ensures ran { (LacksMemory Need.Screen (outputs (O.seen out.old) (O.closed out.old) (L.seen log.old)) (outputs (O.seen out.new) (O.closed out.new) (L.seen log.new)) result ×
        (R.seen input.new ≡ R.seen input.old))
        ⊎ Runs ⟦<&'a mut O as Sink>⟧.seen ⟦<&'a mut O as Closable>⟧.closed is_quiet job (R.seen input.old) (R.seen input.new) (outputs (O.seen out.old) (O.closed out.old) (L.seen log.old))
        (outputs (O.seen out.new) (O.closed out.new) (L.seen log.new)) result }
    ensures log { result < 2 → (L.seen log.new).failures ≡ (L.seen log.old).failures }
{
    let mut screen = match blank_screen(alloc, job) {
        Ok(screen) => screen.with_writer(out),
        Err(_) => return no_memory(log, Need::Screen),
    };
    let end = run_script(is_quiet, &mut screen, input, log);
    // Taken apart, so that the proof knows the output again: it has what the screen sent.
    screen.into_writer();
    status_of(end)
}

/// Takes the picture of a screen into its virtual screen.
fn take_picture<W: Sink>(screen: &mut Screen<W>)
    ensures { world screen.new.desk ≡ world_after (world screen.old.desk) (Call.Refresh Refresh.UpdatePanels) }
{
    screen.update_panels();
}

/// Prints the virtual screen of a desk and flushes, and answers whether all of it went out.
fn print_desk<O: Sink>(out: &mut O, desk: &Desk) -> bool
    ensures { WritingEnds result (O.seen out.old) (O.seen out.new) (printed_picture desk.now.virtual.picture (Some desk.now.virtual.cursor) no_rendition) }
{
    let (lines, _) = desk.size();
    let cursor = Some(desk.wanted_cursor());
    print(out, desk.virtual_screen(), lines, cursor, Rendition::NONE)
}

/// Goes on with the file that is named, if one is. Where it can't be opened, the log says so, and the status is
/// answered.
fn open_script<R: FileSource, L: Sink>(
    name: Option<&str>,
    input: &mut R,
    log: &mut L,
) -> Result<(), u8>
    ensures { MatchResult result
        (λ _. (log.new ≡ log.old) × IsOpened (R.opens input.old) (text_of name.entry) (R.seen input.old) (R.seen input.new))
        (λ status. (R.seen input.new ≡ R.seen input.old) × IsUnopened (R.unopened input.old) (text_of name.entry) (L.seen log.old) (L.seen log.new) status) }
{
    let Some(name) = name else {
        return Ok(());
    };
    match input.open(name) {
        Ok(()) => Ok(()),
        Err(fault) => Err(log_unopened(log, name, fault)),
    }
}

/// Goes on with the log that is named, if one is. Where it can't be made, or is the file that is read, the log that is
/// there says so, and the status is answered.
fn open_log<L: FileSink>(name: Option<&str>, read: Option<&str>, log: &mut L) -> Result<(), u8>
    ensures { MatchResult result
        (λ _. IsCreated (L.creates log.old) (text_of name.entry) (L.seen log.old) (L.seen log.new))
        (λ status. IsUnopened (λ log_name. L.uncreated log.old log_name (text_of read.entry)) (text_of name.entry) (L.seen log.old) (L.seen log.new) status) }
{
    let Some(name) = name else {
        return Ok(());
    };
    match log.create(name, read) {
        Ok(()) => Ok(()),
        Err(fault) => Err(log_unopened(log, name, fault)),
    }
}

/// What the program reads and writes, and the memory that it takes.
#[derive(Drop)]
pub struct Streams<R, O, L> {
    pub alloc: Global,
    pub input: R,
    pub out: O,
    pub log: L,
}

impl<R: Source, O: Closable, L: Sink> Streams<R, O, L> {
    /// Runs a script on a screen, prints the picture that it leaves, and answers the status.
    fn paint_screen(&mut self, is_quiet: bool, screen: &mut Screen<Discard>) -> u8
        ensures painted { PaintsScreen ⟦<Discard as Sink>⟧.seen ⟦<Discard as Closable>⟧.closed is_quiet screen.old (R.seen self.old.input) (R.seen self.new.input)
            (outputs (O.seen self.old.out) (O.closed self.old.out) (L.seen self.old.log)) (outputs (O.seen self.new.out) (O.closed self.new.out) (L.seen self.new.log)) result }
        ensures log { result < 2 → (L.seen self.new.log).failures ≡ (L.seen self.old.log).failures }
    {
        let end = run_script(is_quiet, screen, &mut self.input, &mut self.log);
        if end.fault.is_some() {
            return status_of(end);
        }
        take_picture(screen);
        if print_desk(&mut self.out, screen.desk()) {
            status_of(end)
        } else {
            complain(&mut self.out, &mut self.log)
        }
    }

    /// Runs a script on a screen of the job's size, prints the picture that it leaves, and answers the status.
    fn paint(&mut self, is_quiet: bool, job: Job) -> u8
        requires { IsSize job.lines × IsSize job.cols }
        ensures painted { (LacksMemory Need.Screen (outputs (O.seen self.old.out) (O.closed self.old.out) (L.seen self.old.log)) (outputs (O.seen self.new.out) (O.closed self.new.out) (L.seen self.new.log)) result ×
            (R.seen self.new.input ≡ R.seen self.old.input))
            ⊎ Paints ⟦<Discard as Sink>⟧.seen ⟦<Discard as Closable>⟧.closed is_quiet job (R.seen self.old.input) (R.seen self.new.input) (outputs (O.seen self.old.out) (O.closed self.old.out) (L.seen self.old.log))
            (outputs (O.seen self.new.out) (O.closed self.new.out) (L.seen self.new.log)) result }
        ensures log { result < 2 → (L.seen self.new.log).failures ≡ (L.seen self.old.log).failures }
    {
        let mut screen = match blank_screen(self.alloc, job) {
            Ok(screen) => screen,
            Err(_) => return no_memory(&mut self.log, Need::Screen),
        };
        let status = self.paint_screen(is_quiet, &mut screen);
        // Taken apart, since no clause says what a drop would do.
        let _ = screen.into_writer();
        status
    }

    /// Does what is asked for, and answers the status.
    fn perform<'a>(&'a mut self, is_quiet: bool, request: Request) -> u8
        requires { HasSize request }
        ensures done { Does ⟦<&'a mut O as Sink>⟧.seen ⟦<&'a mut O as Closable>⟧.closed ⟦<Discard as Sink>⟧.seen ⟦<Discard as Closable>⟧.closed is_quiet request (R.seen self.old.input) (R.seen self.new.input)
            (outputs (O.seen self.old.out) (O.closed self.old.out) (L.seen self.old.log)) (outputs (O.seen self.new.out) (O.closed self.new.out) (L.seen self.new.log)) result }
        ensures log { result < 2 → (L.seen self.new.log).failures ≡ (L.seen self.old.log).failures }
    {
        match request {
            Request::Check => check_script(&mut self.input, &mut self.out, &mut self.log),
            Request::Job(job) => match job.kind {
                Kind::Run => run(
                    self.alloc,
                    is_quiet,
                    job,
                    &mut self.input,
                    &mut self.out,
                    &mut self.log,
                ),
                Kind::Paint => self.paint(is_quiet, job),
                Kind::Show => show_stream(
                    self.alloc,
                    job,
                    &mut self.input,
                    &mut self.out,
                    &mut self.log,
                ),
            },
        }
    }
}

impl<R: FileSource, O: Closable, L: FileSink> Streams<R, O, L> {
    /// Opens the log that is named, reads the script, does with it what is asked for, and answers the status.
    fn perform_on_files<'a>(&'a mut self, invocation: &Invocation<'_>) -> u8
        requires { HasSize invocation.now.request }
        ensures { ServesInvocation ⟦<&'a mut O as Sink>⟧.seen ⟦<&'a mut O as Closable>⟧.closed ⟦<Discard as Sink>⟧.seen ⟦<Discard as Closable>⟧.closed (R.opens self.old.input) (R.unopened self.old.input) (L.creates self.old.log) (L.uncreated self.old.log) invocation.now
            (R.seen self.old.input) (R.seen self.new.input)
            (outputs (O.seen self.old.out) (O.closed self.old.out) (L.seen self.old.log)) (outputs (O.seen self.new.out) (O.closed self.new.out) (L.seen self.new.log)) result }
    {
        match open_log(invocation.log, invocation.script, &mut self.log) {
            Ok(()) => match open_script(invocation.script, &mut self.input, &mut self.log) {
                Ok(()) => self.perform(invocation.is_quiet, invocation.request),
                Err(status) => status,
            },
            Err(status) => status,
        }
    }

    /// Does what the words ask for, and answers the status. Where they are refused, nothing is read, and help is on the
    /// output, with status 0, or a usage fault on the log, with status 2. Else the log and the script that are named
    /// are opened, in that order; where one can't be, the log says so, nothing is read or drawn, and the status is 3,
    /// or 4 for want of memory. Else the status is that of how the script ended, 3 where its picture can't be written,
    /// or 4 where there is no memory. The first word is the program's name. A status below 2 means that no write or
    /// flush of the log failed.
    pub fn serve<'a, S: AsStr>(&'a mut self, words: &[S], variables: &Variables<'_>) -> u8
        ensures served { Serves ⟦<&'a mut O as Sink>⟧.seen ⟦<&'a mut O as Closable>⟧.closed ⟦<Discard as Sink>⟧.seen ⟦<Discard as Closable>⟧.closed (R.opens self.old.input) (R.unopened self.old.input) (L.creates self.old.log) (L.uncreated self.old.log)
            (sizes_of variables.now) (map S.text words.now) (R.seen self.old.input) (R.seen self.new.input)
            (outputs (O.seen self.old.out) (O.closed self.old.out) (L.seen self.old.log)) (outputs (O.seen self.new.out) (O.closed self.new.out) (L.seen self.new.log)) result }
    {
        match job(self.alloc, words, variables) {
            Ok(invocation) => self.perform_on_files(&invocation),
            Err(error) => usage(self.alloc, &error, &mut self.out, &mut self.log),
        }
    }
}
