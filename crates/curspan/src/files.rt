//! The script and the log of the program: standard streams, or files of the system.

ghost use Rattle.std.specs.Prelude.{◌≡◌, ◌-◌, ◌^◌};
ghost use Rattle.curspan.specs.{IfOk, None, error_kind, IsUnread, fault_of_kind, at_place};

use crate::opening::{FileSink, FileSource};
use commands::OpenFault;
use desk::{Counted, CountedReader, Sink, Source};
use std::fs::{File, Metadata, OpenOptions};
use std::io::{BufReader, ErrorKind, Read, Write};
use std::os::unix::fs::MetadataExt;
use std::{fs, io};
use streams::Patient;

/// How many bytes are read at once.
const READ_AT_ONCE: usize = 4096;

/// A file that was named. Beside it folders are open: where a standard stream is closed, one of them has its number,
/// and not the file, so that reads and writes of that stream still fail.
#[derive(Drop)]
struct Named<F> {
    file: F,
    folders: [Option<File>; 3],
}

/// A folder, unless it can't be opened.
fn folder(rt: &HostRuntime) -> Option<File> {
    File::open(rt, "/").ok()
}

/// As many folders as there are standard streams. They are opened before a file is.
fn folders(rt: &HostRuntime) -> [Option<File>; 3] {
    [folder(rt), folder(rt), folder(rt)]
}

/// A standard stream, or the file that took its place.
#[derive(Drop)]
enum Place<S, F> {
    Standard(S),
    File(Named<F>),
}

impl<S: Read, F: Read> Read for Place<S, F> {
    ghost remaining = { at_place S.remaining F.remaining };

    fn read(&mut self, buffer: &mut [u8]) -> io::Result<usize> {
        match self {
            Place::Standard(stream) => stream.read(buffer),
            Place::File(named) => named.file.read(buffer),
        }
    }
}

impl<S: Write, F: Write> Write for Place<S, F> {
    ghost contents = { at_place S.contents F.contents };

    fn write(&mut self, piece: &[u8]) -> io::Result<usize> {
        match self {
            Place::Standard(stream) => stream.write(piece),
            Place::File(named) => named.file.write(piece),
        }
    }

    fn flush(&mut self) -> io::Result<()> {
        match self {
            Place::Standard(stream) => stream.flush(),
            Place::File(named) => named.file.flush(),
        }
    }
}

/// Why a file of the system can't be opened.
fn open_fault(error: io::Error) -> OpenFault
    ensures { result ≡ fault_of_kind (error_kind error) }
{
    match error.kind() {
        ErrorKind::NotFound => OpenFault::Missing,
        ErrorKind::PermissionDenied => OpenFault::Denied,
        ErrorKind::IsADirectory => OpenFault::Folder,
        ErrorKind::NotADirectory => OpenFault::InFile,
        ErrorKind::OutOfMemory => OpenFault::NoMemory,
        _ => OpenFault::Refused,
    }
}

/// Opens a file to be read, which is no folder.
fn open_to_read(rt: &HostRuntime, name: &str) -> io::Result<File> {
    let file = File::open(rt, name)?;
    if file.metadata()?.is_dir() {
        return Err(io::Error::from(ErrorKind::IsADirectory));
    }
    Ok(file)
}

/// Why no file of that name can be opened to be written. To the system each name that ends with a slash is a folder's,
/// so it is asked what has that name.
fn create_fault(rt: &HostRuntime, name: &str, error: io::Error) -> OpenFault {
    match fs::metadata(rt, name) {
        Err(of_name) if error.kind() == ErrorKind::IsADirectory => open_fault(of_name),
        _ => open_fault(error),
    }
}

/// Whether a file is the one that is read: that of a name, or else standard input.
fn is_read(rt: &HostRuntime, read: Option<&str>, file: &Metadata) -> bool {
    match fs::metadata(rt, read.unwrap_or("/dev/stdin")) {
        Ok(other) => other.dev() == file.dev() && other.ino() == file.ino(),
        Err(_) => false,
    }
}

/// Opens a file to be written, and empties it once it is known that it isn't the one that is read.
fn create_file(rt: &HostRuntime, name: &str, read: Option<&str>) -> Result<File, OpenFault> {
    let opened = OpenOptions::new().write(true).create(true).open(rt, name);
    let file = opened.map_err(|error| create_fault(rt, name, error))?;
    let is = file.metadata().map_err(open_fault)?;
    // A device or a pipe keeps nothing that could be lost.
    if is.is_file() {
        if is_read(rt, read, &is) {
            return Err(OpenFault::IsRead);
        }
        file.set_len(0).map_err(open_fault)?;
    }
    Ok(file)
}

/// The script or the stream that the program reads.
#[derive(Drop)]
pub struct Script<'a, S> {
    rt: &'a HostRuntime,
    reader: CountedReader<BufReader<Patient<Place<S, File>>>>,
}

impl<'a, S: Read + Drop> Script<'a, S> {
    /// A script on a standard stream. An error says that there is no memory for its buffer.
    pub fn new(rt: &'a HostRuntime, stream: S) -> io::Result<Script<'a, S>>
        ensures { IfOk result (λ script. IsUnread (⟦<Script<'a, S> as Source>⟧.seen script)) }
    {
        let reader = reader_of(rt, Place::Standard(stream))?;
        Ok(Script { rt, reader })
    }
}

/// A reader with a buffer.
fn reader_of<S: Read + Drop>(
    rt: &HostRuntime,
    place: Place<S, File>,
) -> io::Result<CountedReader<BufReader<Patient<Place<S, File>>>>>
    ensures unread { IfOk result (λ reader. IsUnread (⟦<CountedReader<BufReader<Patient<Place<S, File>>>> as Source>⟧.seen reader)) }
    ensures reads { IfOk result (λ reader. (⟦<CountedReader<BufReader<Patient<Place<S, File>>>> as Source>⟧.seen reader).reads_left ≡ 2 ^ 64 - 1) }
{
    let place = Patient { stream: place };
    Ok(CountedReader::new(BufReader::with_capacity(rt.alloc(), READ_AT_ONCE, place)?))
}

impl<S: Read + Drop> Source for Script<'_, S> {
    ghost seen = { λ s. ⟦<CountedReader<BufReader<Patient<Place<S, File>>>> as Source>⟧.seen s.reader };

    fn read(&mut self, buffer: &mut [u8]) -> io::Result<usize> {
        self.reader.read(buffer)
    }
}

impl<S: Read + Drop> FileSource for Script<'_, S> {
    // nothing is known of what a file holds
    ghost opens = { λ s name seen. seen.reads_left ≡ 2 ^ 64 - 1 };

    // nothing is known of what the system refuses
    ghost unopened = { λ s name fault. Unit {0} };

    fn open(&mut self, name: &str) -> Result<(), OpenFault> {
        let folders = folders(self.rt);
        let file = open_to_read(self.rt, name).map_err(open_fault)?;
        let named = Named { file, folders };
        self.reader = reader_of(self.rt, Place::File(named)).map_err(open_fault)?;
        Ok(())
    }
}

/// The log of the program.
#[derive(Drop)]
pub struct Log<'a, S> {
    rt: &'a HostRuntime,
    writer: Counted<Patient<Place<S, File>>>,
}

impl<'a, S: Write + Drop> Log<'a, S> {
    /// A log on a standard stream.
    pub fn new(rt: &'a HostRuntime, stream: S) -> Log<'a, S>
        ensures failures { (⟦<Log<'a, S> as Sink>⟧.seen result).failures ≡ 0 }
        ensures flushes { (⟦<Log<'a, S> as Sink>⟧.seen result).flushes ≡ 0 }
    {
        Log {
            rt,
            writer: Counted::new(Patient {
                stream: Place::Standard(stream),
            }),
        }
    }
}

impl<S: Write + Drop> Sink for Log<'_, S> {
    ghost seen = { λ s. ⟦<Counted<Patient<Place<S, File>>> as Sink>⟧.seen s.writer };

    fn write(&mut self, piece: &[u8]) -> io::Result<usize> {
        self.writer.write(piece)
    }

    fn flush(&mut self) -> io::Result<()> {
        self.writer.flush()
    }
}

impl<S: Write + Drop> FileSink for Log<'_, S> {
    // nothing is known of what a file holds
    ghost creates = { λ s name seen. seen.taken ≡ None };

    // nothing is known of what the system refuses
    ghost uncreated = { λ s name read fault. Unit {0} };

    fn create(&mut self, name: &str, read: Option<&str>) -> Result<(), OpenFault> {
        let folders = folders(self.rt);
        let file = create_file(self.rt, name, read)?;
        let named = Named { file, folders };
        self.writer = Counted::new(Patient {
            stream: Place::File(named),
        });
        Ok(())
    }
}
