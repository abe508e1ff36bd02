// Lists a recording: the file that the argument names, or standard input. A line a field as it comes, with memory for one field and
// its words; what a field is, and the text of its line, are the library's.
#![tactic(auto)]

ghost use Rattle.std.specs.Prelude.{◌<◌, ◌≤◌, length};
ghost use Rattle.row.specs.Promises.{most_words};

use listing::LINE_BYTES;
use recording::{Found, Line};
use row::MOST_WORDS;
use std::io;
use std::io::Read;

// The longest field with its front.
const FIELD_BYTES: usize = 65538;

// Room for a name as long as any.
const NAME_BYTES: usize = 4096;

// What ends a listing before its last line.
#[derive(Drop)]
enum Failure {
    Reading(io::Error),
    Writing(io::Error),
}

// What writes a line answers a bare error.
impl From<io::Error> for Failure {
    fn from(error: io::Error) -> Failure {
        Failure::Writing(error)
    }
}

// The first `end` bytes of the room that a line was put into, in one write. A pipe takes so few bytes whole or not at all, so that the
// lines of several programs never mix in one.
fn write_text(rt: &HostRuntime, room: &[u8], end: usize) -> io::Result<()>
    requires end_nonzero { 0 < end }
    requires end_in_bounds { end ≤ length room.now }
{
    rt.write_all(&room[..end])
}

fn write_first(rt: &HostRuntime) -> io::Result<()> {
    let mut text = [0u8; LINE_BYTES];
    let end = listing::put_first(&mut text);
    write_text(rt, &text, end)
}

fn write_line(rt: &HostRuntime, line: Line) -> io::Result<()> {
    let mut text = [0u8; LINE_BYTES];
    let end = listing::put_line(line, &mut text);
    write_text(rt, &text, end)
}

fn write_last(rt: &HostRuntime, cut: bool, fields: u64) -> io::Result<()> {
    let mut text = [0u8; LINE_BYTES];
    let end = listing::put_last(cut, fields, &mut text);
    write_text(rt, &text, end)
}

// Reads a field's front, and then as many bytes as it says; the bytes that came.
fn read_field<R: Read>(input: &mut R, field: &mut [u8; FIELD_BYTES]) -> usize
    ensures { result ≤ length field.new }
{
    let front = recording::FRONT;
    let got = program::read_full(input, &mut field[..front]);
    if got < front {
        return got;
    }
    let length = recording::body_length([field[0], field[1], field[2]]) as usize;
    let end = front + length;
    let more = program::read_full(input, &mut field[front..end]);
    front + more
}

// Why reading failed, if it did, where it stopped short: at its end a file gives no byte more.
fn why_stopped<R: Read>(input: &mut R) -> Option<io::Error> {
    let mut one = [0u8; 1];
    input.read(&mut one).err()
}

// The last line, with the number of complete fields, where reading did not fail.
fn finish<R: Read>(rt: &HostRuntime, input: &mut R, cut: bool, fields: u64) -> Result<(), Failure> {
    if let Some(error) = why_stopped(input) {
        return Err(Failure::Reading(error));
    }
    write_last(rt, cut, fields)?;
    Ok(())
}

// A proved loop has to end, and nothing says that a recording does: so it goes to a number of fields that none has.
fn list_fields<R: Read>(
    rt: &HostRuntime,
    input: &mut R,
    field: &mut [u8; FIELD_BYTES],
    room: &mut [u16],
) -> Result<(), Failure>
    requires most_words_in_bounds { most_words ≤ length room.old }
{
    for seen in 0..u64::MAX {
        let got = read_field(input, field);
        match recording::next_field(&field[..got], 0) {
            Found::Whole(tag, start, length) => {
                let end = start + length;
                let line = recording::line_of(seen, tag, &field[start..end], room);
                // The number that is printed is that of this field.
                prove!(line.seq == seen + 1);
                write_line(rt, line)?;
            }
            Found::Cut => return finish(rt, input, true, seen),
            Found::End => return finish(rt, input, false, seen),
        }
    }
    Ok(())
}

fn list_all<R: Read>(rt: &HostRuntime, input: &mut R) -> Result<(), Failure> {
    let mut field = [0u8; FIELD_BYTES];
    let mut room = [0u16; MOST_WORDS];
    write_first(rt)?;
    list_fields(rt, input, &mut field, &mut room)
}

// Lists what the name says; where that fails, standard error says why.
fn list<R: Read>(rt: &HostRuntime, input: &mut R, name: &[u8]) {
    match list_all(rt, input) {
        Ok(()) => (),
        Err(Failure::Reading(error)) => program::fail(rt, name, error),
        Err(Failure::Writing(error)) => program::fail(rt, b"standard output", error),
    }
}

fn list_file(rt: &HostRuntime, name: &[u8]) {
    match program::open_read(rt, name) {
        Ok(mut file) => list(rt, &mut file, name),
        Err(error) => program::fail(rt, name, error),
    }
}

fn list_input(rt: &HostRuntime) {
    list(rt, &mut rt.stdin(), b"standard input");
}

fn say_usage(rt: &HostRuntime) {
    program::say(
        rt,
        b"usage: list [RECORDING]: none, or -, is standard input\n",
    );
}

// A dash alone is standard input, and what begins with one is an option: there are none.
fn list_named(rt: &HostRuntime, name: &[u8]) {
    match name {
        b"-" => list_input(rt),
        [b'-', ..] => say_usage(rt),
        _ => list_file(rt, name),
    }
}

fn list_word(rt: &HostRuntime) {
    let mut name = [0u8; NAME_BYTES];
    match program::arg(rt, 1, &mut name) {
        Ok(length) => list_named(rt, &name[..length]),
        Err(error) => program::fail(rt, b"the name of the recording", error),
    }
}

fn main(rt: HostRuntime) {
    match program::arg_count(&rt) {
        0 | 1 => list_input(&rt),
        2 => list_word(&rt),
        _ => say_usage(&rt),
    }
}
