// What the programs ask of the system: what a reader gives, up to a limit; the words of the command line; a file by its name; the message that a program is given;
// text put into a lent buffer; and what failed, said in the system's words.
#![tactic(auto)]

ghost use Rattle.std.specs.Prelude.{◌≡◌, ◌≤◌, length, take, vec_len, IfOk, IfSome};
ghost use Rattle.std.specs.Str.{IsUtf8};
ghost use Rattle.std.specs.Fn.{FnOnceReturnsAtMut};
ghost use Rattle.system.specs.Counts.{IsPrefixLen};
ghost use Rattle.system.specs.Texts.{IsPutBy};

use std::alloc::{AllocError, Global};
use std::env::{Env, FillError};
use std::fs::{File, Files};
use std::io::{Cursor, Read, Write};
use std::{io, str};

// The system's numbers for a word that is not there, and for one that does not fit.
const EINVAL: i32 = 22;

const ENAMETOOLONG: i32 = 36;

// How many bytes are asked of a reader at first, and then at a time.
const SHORT: usize = 4096;

const CHUNK: usize = 65_536;

// The longest word of the command line that is taken: no path is longer.
pub const LONGEST_WORD: usize = 4096;

// The most that the programs read of a message. One byte more than a message may have shows that there are more.
pub const MESSAGE_ROOM: usize = 65_537;

// Zeros in place. A contract that gives no more than how many: a proof that sees them would compute them.
pub fn buffer<const N: usize>() -> [u8; N]
    ensures { N ≡ length result }
{
    [0; N]
}

// Reads until the buffer is full, the input ends or a read fails; how many bytes stand at the buffer's start then. On an empty buffer it makes no call.
pub fn read_full<R: Read>(reader: &mut R, buf: &mut [u8]) -> usize
    ensures { IsPrefixLen result buf.new }
{
    let mut done = 0;
    while done < buf.len() {
        match reader.read(&mut buf[done..]) {
            Ok(0) | Err(_) => break,
            Ok(n) => done += n,
        }
    }
    done
}

// So many zeros, as large as a stack may not be. Its contract, too, gives no more than how many.
pub fn zeros(alloc: Global, n: usize) -> Result<Vec<u8>, AllocError>
    ensures { IfOk result (λ v. vec_len v ≡ n) }
{
    vec![in alloc; 0; n]
}

// What a reader gives, up to so many bytes: all until the input ends or a read fails. (`read_to_end` would keep what came before a failed read
// too, but no clause says so.) Most files are short: the zeros that a long one is read into would take longer than to read it.
pub fn read_up_to<R: Read>(
    alloc: Global,
    reader: &mut R,
    most: usize,
) -> Result<Vec<u8>, AllocError>
    ensures { IfOk result (λ v. vec_len v ≤ most) }
{
    let mut short = buffer::<SHORT>();
    let room = SHORT.min(most);
    let n = read_full(reader, &mut short[..room]);
    let bytes = Vec::from_slice(alloc, &short[..n])?;
    if n < room {
        return Ok(bytes);
    }
    read_on(reader, bytes, most)
}

// The same behind what was read.
fn read_on<R: Read>(reader: &mut R, front: Vec<u8>, most: usize) -> Result<Vec<u8>, AllocError>
    requires { vec_len front ≤ most }
    ensures { IfOk result (λ v. vec_len v ≤ most) }
{
    let mut bytes = front;
    let mut chunk = buffer::<CHUNK>();
    while bytes.len() < most {
        let room = CHUNK.min(most - bytes.len());
        let n = read_full(reader, &mut chunk[..room]);
        bytes.extend_from_slice(&chunk[..n])?;
        if n < room {
            break;
        }
    }
    Ok(bytes)
}

// How long the text is that `put` puts at the start of a lent buffer, where it answers the text's end; no more than the buffer holds.
#[tactic(auto, using(std::proofs::lemmas::List::take_min))]
pub fn put_text<F: FnOnce(&mut [u8]) -> usize>(room: &mut [u8], put: F) -> usize
    requires { F.IsAlwaysCallable put }
    ensures room { IsPrefixLen result room.new }
    ensures text { IsPutBy (FnOnceReturnsAtMut F.FnOnce put) (length room.old) (take result room.new) }
{
    let end = put(room);
    end.min(room.len())
}

// The same at the start of so many zeros of its own.
pub fn text<F: FnOnce(&mut [u8]) -> usize>(
    alloc: Global,
    room: usize,
    put: F,
) -> Result<Vec<u8>, AllocError>
    requires { F.IsAlwaysCallable put }
    ensures room { IfOk result (λ v. vec_len v ≤ room) }
    ensures text { IfOk result (λ v. IsPutBy (FnOnceReturnsAtMut F.FnOnce put) room v.items) }
{
    let mut out = zeros(alloc, room)?;
    let end = put(&mut out);
    out.truncate(end);
    Ok(out)
}

// That text, written.
pub fn print_text<F: FnOnce(&mut [u8]) -> usize>(
    alloc: Global,
    out: &impl Print,
    room: usize,
    put: F,
) -> io::Result<()>
    requires { F.IsAlwaysCallable put }
{
    let bytes = text(alloc, room, put)?;
    out.write_all(&bytes)
}

// How many words the command line has, the program's name among them; no more than `most`.
pub fn argument_count(env: &impl Env, most: usize) -> usize
    ensures { result ≤ most }
{
    let mut none = [0u8; 1];
    for i in 0..most {
        match env.arg(i, &mut none) {
            Err(FillError::NotPresent) => return i,
            _ => {}
        }
    }
    most
}

// Word i of the command line, whole, at the buffer's start, and its length.
pub fn argument(env: &impl Env, i: usize, buf: &mut [u8]) -> io::Result<usize>
    ensures { IfOk result (λ n. IsPrefixLen n buf.new) }
{
    match env.arg(i, buf) {
        Ok(n) => Ok(n),
        Err(FillError::NotPresent) => Err(io::Error::from_raw_os_error(EINVAL)),
        Err(FillError::TooLong) => Err(io::Error::from_raw_os_error(ENAMETOOLONG)),
    }
}

// Word i of the command line, whole.
pub fn word(alloc: Global, env: &impl Env, i: usize) -> io::Result<Vec<u8>>
    ensures { IfOk result (λ v. vec_len v ≤ 4096) }
{
    let mut bytes = buffer::<LONGEST_WORD>();
    let n = argument(env, i, &mut bytes)?;
    Ok(Vec::from_slice(alloc, &bytes[..n])?)
}

// Where a program's message stands: on standard input, or in the file of its only argument. (An Option in the Option of `find_source` would say neither.)
#[derive(Clone, Copy)]
pub enum Source<'a> {
    Input,
    File(&'a [u8]),
}

// A program: its name, the system that it works with, and where it says what fails. It takes nothing from the heap.
#[derive(Clone, Copy)]
pub struct Program<'a, R, E> {
    pub name: &'a str,
    pub rt: &'a R,
    pub err: &'a E,
}

impl<R: Env + Files + Print, E: Print> Program<'_, R, E> {
    // What a program takes, in a line.
    pub fn usage(&self) -> io::Result<()> {
        let err = self.err;
        let name = self.name;
        println!(err; "{name}: FILE, or the message on standard input")
    }

    // The source that the command line names; a file's name is put at the start of `path`. None where it has more than one argument, or one that can't be
    // told, which is said.
    pub fn find_source<'a>(&self, path: &'a mut [u8]) -> io::Result<Option<Source<'a>>> {
        match argument_count(self.rt, 3) {
            0 | 1 => Ok(Some(Source::Input)),
            2 => match argument(self.rt, 1, path) {
                Ok(n) => Ok(Some(Source::File(&path[..n]))),
                Err(e) => {
                    self.fail_at("argument", &e)?;
                    Ok(None)
                }
            },
            _ => {
                self.usage()?;
                Ok(None)
            }
        }
    }

    // How many bytes of the message that stands in a source were read, up to the room's end. None where its file can't be opened, which is said.
    pub fn message(
        &self,
        input: &mut impl Read,
        source: Source<'_>,
        room: &mut [u8],
    ) -> io::Result<Option<usize>>
        ensures { IfOk result (λ m. IfSome m (λ n. IsPrefixLen n room.new)) }
    {
        match source {
            Source::Input => Ok(Some(read_full(input, room))),
            Source::File(path) => match open(self.rt, path) {
                Ok(mut file) => Ok(Some(read_full(&mut file, room))),
                Err(e) => {
                    fail(self.err, path, &e)?;
                    Ok(None)
                }
            },
        }
    }

    // The same of the message that the program is given. None where there is none, which is said.
    pub fn given_message(&self, input: &mut impl Read, room: &mut [u8]) -> io::Result<Option<usize>>
        ensures { IfOk result (λ m. IfSome m (λ n. IsPrefixLen n room.new)) }
    {
        let mut path = buffer::<LONGEST_WORD>();
        match self.find_source(&mut path)? {
            Some(source) => self.message(input, source, room),
            None => Ok(None),
        }
    }

    // Writes to standard output; whether it was written. A failure is said.
    pub fn put_out(&self, bytes: &[u8]) -> io::Result<bool> {
        match self.rt.write_all(bytes) {
            Ok(()) => Ok(true),
            Err(e) => {
                self.fail_at("standard output", &e)?;
                Ok(false)
            }
        }
    }

    // What failed, behind the program's name.
    pub fn fail_at(&self, place: &str, error: &io::Error) -> io::Result<()> {
        self.err.print(self.name)?;
        self.err.print(": ")?;
        fail(self.err, place.as_bytes(), error)
    }
}

// Opens a file for reading. A name has to be UTF-8.
pub fn open<R: Files>(files: &R, path: &[u8]) -> io::Result<R::File>
    ensures { IfOk result (λ _. IsUtf8 path.now) }
{
    match str::from_utf8(path) {
        Ok(name) => File::open(files, name),
        Err(_) => Err(io::Error::from(io::ErrorKind::InvalidFilename)),
    }
}

// What failed, and why: a line `WHAT: No such file or directory`. An error of the system's is told without its number.
pub fn fail(err: &impl Print, what: &[u8], error: &io::Error) -> io::Result<()> {
    let mut text = Cursor::new([0u8; 256]);
    write!(text, "{error}")?;
    let room = text.into_inner();
    let words = words(&room);
    err.write_all(what)?;
    println!(err; ": {words}")
}

// The text before the zeros behind it, and before the system's number.
fn words(text: &[u8]) -> &str {
    match str::from_utf8(text) {
        Ok(all) => before(before(all, "\0"), " (os error "),
        Err(_) => "",
    }
}

fn before<'a>(text: &'a str, mark: &str) -> &'a str {
    match text.split_once(mark) {
        Some((front, _)) => front,
        None => text,
    }
}
