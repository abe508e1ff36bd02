// What the programs ask of the system: their words, files by names of bytes, input to its end, and what is said where a call fails.
#![tactic(auto)]

ghost use Rattle.std.specs.Prelude.{◌≡◌, ◌≤◌, IsErrAnd, MatchResult, OnOk, length};
ghost use Rattle.std.specs.Io.{ReadsAtMost};
ghost use Rattle.program.specs.Names.{IsText, SaysNoText};

use std::env::{Env, FillError};
use std::fs::{File, OpenOptions};
use std::io::{Error, Read};
use std::{fmt, fs, io};

// The system's numbers for a word that is missing, for a name that is too long, and for one that is not UTF-8, as std has every path.
const NO_WORD: i32 = 22;

const TOO_LONG: i32 = 36;

const NO_TEXT: i32 = 84;

// Word i of those that the program was called with, its own name being word 0, at the start of the room: its bytes.
pub fn arg(rt: &HostRuntime, i: usize, room: &mut [u8]) -> io::Result<usize>
    ensures { ReadsAtMost result room.new }
{
    match rt.arg(i, room) {
        Ok(end) => Ok(end),
        Err(FillError::TooLong) => Err(Error::from_raw_os_error(TOO_LONG)),
        Err(FillError::NotPresent) => Err(Error::from_raw_os_error(NO_WORD)),
    }
}

fn has_arg(rt: &HostRuntime, i: usize) -> bool {
    let mut room = [0u8; 1];
    !matches!(rt.arg(i, &mut room), Err(FillError::NotPresent))
}

// How many words the program was called with, its own name among them.
pub fn arg_count(rt: &HostRuntime) -> usize {
    for i in 0..usize::MAX {
        if !has_arg(rt, i) {
            return i;
        }
    }
    usize::MAX
}

fn path(name: &[u8]) -> io::Result<&str>
    ensures { MatchResult result (λ path. (path.now ≡ name.now) × IsText name.now)
        (λ error. ¬ (IsText name.now) × SaysNoText error) }
{
    std::str::from_utf8(name).map_err(|_| Error::from_raw_os_error(NO_TEXT))
}

pub fn open_read(rt: &HostRuntime, name: &[u8]) -> io::Result<File>
    ensures text { OnOk result (IsText name.now) }
    ensures no_text { ¬ (IsText name.now) → IsErrAnd result SaysNoText }
{
    File::open(rt, path(name)?)
}

// A new file, for writing; it fails where the name is taken.
pub fn create(rt: &HostRuntime, name: &[u8]) -> io::Result<File>
    ensures text { OnOk result (IsText name.now) }
    ensures no_text { ¬ (IsText name.now) → IsErrAnd result SaysNoText }
{
    OpenOptions::new()
        .write(true)
        .create_new(true)
        .open(rt, path(name)?)
}

pub fn rename(rt: &HostRuntime, from: &[u8], to: &[u8]) -> io::Result<()>
    ensures from_text { OnOk result (IsText from.now) }
    ensures to_text { OnOk result (IsText to.now) }
    ensures from_no_text { ¬ (IsText from.now) → IsErrAnd result SaysNoText }
    ensures to_no_text { ¬ (IsText to.now) → IsErrAnd result SaysNoText }
{
    fs::rename(rt, path(from)?, path(to)?)
}

// Removes a file, where that can be done.
pub fn unlink(rt: &HostRuntime, name: &[u8]) {
    if let Ok(path) = path(name) {
        let _ = fs::remove_file(rt, path);
    }
}

// Reads until the room is full, the input ends or a read fails; the bytes that came. No `for` fits: a step is as long as what a read answers.
pub fn read_full<R: Read>(input: &mut R, room: &mut [u8]) -> usize
    ensures { result ≤ length room.new }
{
    let mut done: usize = 0;
    while done < room.len() {
        let more = input.read(&mut room[done..]).unwrap_or(0);
        if more == 0 {
            return done;
        }
        done += more;
    }
    done
}

// Bytes to standard error. Where that fails, there is nowhere to say so.
pub fn say(rt: &HostRuntime, bytes: &[u8]) {
    let _ = rt.stderr().write_all(bytes);
}

// The words of an error to standard error: std writes the error's number behind them, in pieces of its own.
#[derive(Drop)]
struct Words<'a>(&'a HostRuntime);

impl fmt::Write for Words<'_> {
    fn write_str(&mut self, s: &str) -> fmt::Result {
        if s.starts_with(" (os error") {
            return Err(fmt::Error);
        }
        say(self.0, s.as_bytes());
        Ok(())
    }
}

// A line to standard error: what failed, as the caller names it, and why.
pub fn fail(rt: &HostRuntime, what: &[u8], error: Error) {
    say(rt, what);
    say(rt, b": ");
    let _ = fmt::Write::write_fmt(&mut Words(rt), format_args!("{error}"));
    say(rt, b"\n");
}
