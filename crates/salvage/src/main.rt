// Salvages the blocks of an input without boundaries: `salvage IN OUT`. OUT gets a recording of them, whole or not at all, and standard
// output a report of every block and of every span skipped. What is found, and the text of the report, are the library's.
#![tactic(auto)]

ghost use Rattle.std.specs.Prelude.{◌≡◌, ◌⊎◌, ◌++◌, ◌*◌, ◌<◌, ◌≤◌, IfOk, IfSome, length, take};
ghost use Rattle.ground.specs.Refusals.{number_in};
ghost use Rattle.row.specs.Promises.{most_words};
ghost use Rattle.salvaging.specs.Answers.{bytes_for, numbers_for};
ghost use Rattle.text.specs.Texts.{bytes_of};

use ground::Refusal;
use report::LINE_BYTES;
use row::MOST_WORDS;
use salvaging::{ENTRY_NUMBERS, Salvaged};
use std::fs::File;
use std::io;
use std::io::{Read, Write};

// The most bytes of an input; whether it has more is known by one more.
const MOST_BYTES: usize = 65000;

const READ_BYTES: usize = 65001;

// At most 23 blocks are in it, each with a front of 3 bytes in the recording and a span before it in the report, and one behind the last.
const RECORDING_BYTES: usize = 65069;

const REPORT_NUMBERS: usize = 141;

// A name as long as any.
const NAME_BYTES: usize = 4096;

// Such a name, and `.part` behind it.
const PART_BYTES: usize = 4101;

// The names that the program was called with, and that of the new file: OUT's, and `.part` behind it.
#[derive(Clone, Copy)]
struct Names<'a> {
    input: &'a [u8],
    part: &'a [u8],
    out: &'a [u8],
}

// What ends a salvage: a call that failed, by what it was for, or an input that grew. A new file that has not the whole recording is still
// open in it.
#[derive(Drop)]
enum Failure {
    Input(io::Error),
    Grown,
    Part(io::Error),
    Unfilled(File, io::Error),
    Out(io::Error),
    Output(io::Error),
}

// What writes a line answers a bare error.
impl From<io::Error> for Failure {
    fn from(error: io::Error) -> Failure {
        Failure::Output(error)
    }
}

// The first `end` bytes of the room that a line was put into, in one write.
fn write_text(rt: &HostRuntime, room: &[u8], end: usize) -> io::Result<()>
    requires end_nonzero { 0 < end }
    requires end_in_bounds { end ≤ length room.now }
{
    rt.write_all(&room[..end])
}

fn write_first(rt: &HostRuntime) -> io::Result<()> {
    let mut text = [0u8; LINE_BYTES];
    let end = report::put_first(&mut text);
    write_text(rt, &text, end)
}

fn write_entry(rt: &HostRuntime, start: usize, bytes: usize, found: usize) -> io::Result<()> {
    let mut text = [0u8; LINE_BYTES];
    let end = report::put_entry(start, bytes, found, &mut text);
    write_text(rt, &text, end)
}

fn write_last(rt: &HostRuntime, blocks: usize) -> io::Result<()> {
    let mut text = [0u8; LINE_BYTES];
    let end = report::put_last(blocks, &mut text);
    write_text(rt, &text, end)
}

// The report of entries, whole ones: three numbers each.
fn write_report(rt: &HostRuntime, report: &[usize], blocks: usize) -> io::Result<()> {
    write_first(rt)?;
    let (entries, _) = report.as_chunks::<ENTRY_NUMBERS>();
    for &[start, bytes, found] in entries {
        write_entry(rt, start, bytes, found)?;
    }
    write_last(rt, blocks)
}

// The name of the new file: OUT's, and `.part` behind it. Where it ends.
fn part_name(out: &[u8], name: &mut [u8]) -> usize
    requires out_len_bound { length out.now ≤ 4096 }
    requires name_len { length name.old ≡ 4101 }
    ensures upper_bound { result ≤ 4101 }
    ensures name_after { take result name.new ≡ out.now ++ bytes_of ".part" }
{
    let end = text::put_part(out, name, 0);
    text::put_part(b".part", name, end)
}

// All of the recording, as far as the disk.
fn write_through(file: &mut File, recording: &[u8]) -> io::Result<()> {
    file.write_all(recording)?;
    file.sync_all()
}

// All of the recording in the new file, which is closed behind it; std says nothing of that.
fn fill(mut file: File, recording: &[u8]) -> Result<(), Failure> {
    match write_through(&mut file, recording) {
        Ok(()) => Ok(()),
        Err(error) => Err(Failure::Unfilled(file, error)),
    }
}

// The recording in a new file beside OUT, which then takes its name. Where anything fails, OUT is as it was.
fn save(rt: &HostRuntime, recording: &[u8], names: Names) -> Result<(), Failure> {
    let file = program::create(rt, names.part).map_err(|error| Failure::Part(error))?;
    fill(file, recording)?;
    program::rename(rt, names.part, names.out).map_err(|error| Failure::Out(error))
}

// The recording, and then the report: nothing is printed of what was not written.
fn deliver(
    rt: &HostRuntime,
    salvaged: Salvaged,
    recording: &[u8],
    report: &[usize],
    names: Names,
) -> Result<(), Failure>
    requires bytes_in_bounds { salvaged.bytes ≤ length recording.now }
    requires entries_in_bounds { salvaged.entries * 3 ≤ length report.now }
{
    let numbers = salvaged.entries * ENTRY_NUMBERS;
    save(rt, &recording[..salvaged.bytes], names)?;
    write_report(rt, &report[..numbers], salvaged.blocks)?;
    Ok(())
}

// The library's salvage in rooms that suffice: there is a block or there is none, and no third outcome.
fn salvage_in(
    input: &[u8],
    recording: &mut [u8],
    report: &mut [usize],
    scratch: &mut [u16],
) -> Result<Salvaged, Refusal>
    requires input_len_bound { length input.now ≤ 65000 }
    requires bytes_for_in_bounds { bytes_for 65000 ≤ length recording.old }
    requires numbers_for_in_bounds { numbers_for 65000 ≤ length report.old }
    requires most_words_in_bounds { most_words ≤ length scratch.old }
    ensures fact { (number_in result ≡ 0) ⊎ (number_in result ≡ 18) }
    ensures bytes_in_bounds { IfOk result (λ salvaged. salvaged.bytes ≤ length recording.new) }
    ensures entries_in_bounds { IfOk result (λ salvaged. salvaged.entries * 3 ≤ length report.new) }
{
    salvaging::salvage(input, recording, report, scratch)
}

fn salvage_bytes(rt: &HostRuntime, input: &[u8], names: Names) -> Result<(), Failure>
    requires { length input.now ≤ 65000 }
{
    let mut recording = [0u8; RECORDING_BYTES];
    let mut report = [0usize; REPORT_NUMBERS];
    let mut scratch = [0u16; MOST_WORDS];
    match salvage_in(input, &mut recording, &mut report, &mut scratch) {
        Ok(salvaged) => deliver(rt, salvaged, &recording, &report, names),
        Err(_) => Ok(rt.write_all(b"no block\n")?),
    }
}

// Reading stopped because there is no more. A failure looks the same from outside: one read more tells.
fn see_end<R: Read>(input: &mut R) -> Result<(), Failure> {
    let mut one = [0u8; 1];
    match input.read(&mut one) {
        Ok(0) => Ok(()),
        Ok(_) => Err(Failure::Grown),
        Err(error) => Err(Failure::Input(error)),
    }
}

fn salvage_from<R: Read>(rt: &HostRuntime, file: &mut R, names: Names) -> Result<(), Failure> {
    let mut input = [0u8; READ_BYTES];
    let got = program::read_full(file, &mut input);
    if MOST_BYTES < got {
        rt.write_all(b"too long\n")?;
        return Ok(());
    }
    see_end(file)?;
    salvage_bytes(rt, &input[..got], names)
}

// Standard error says why a salvage failed. Where a new file was made that could not take OUT's name, it is removed behind that.
fn say_failure(rt: &HostRuntime, names: Names, failure: Failure) {
    match failure {
        Failure::Input(error) => program::fail(rt, names.input, error),
        Failure::Grown => program::say(rt, b"the input grew while it was read\n"),
        Failure::Part(error) => program::fail(rt, names.part, error),
        Failure::Unfilled(file, error) => {
            program::fail(rt, names.part, error);
            drop(file);
            program::unlink(rt, names.part);
        }
        Failure::Out(error) => {
            program::fail(rt, names.out, error);
            program::unlink(rt, names.part);
        }
        Failure::Output(error) => program::fail(rt, b"standard output", error),
    }
}

// Salvages; where that fails, standard error says why, and the input is closed behind that.
fn salvage_file(rt: &HostRuntime, names: Names) {
    match program::open_read(rt, names.input) {
        Ok(mut file) => {
            if let Err(failure) = salvage_from(rt, &mut file, names) {
                say_failure(rt, names, failure);
            }
        }
        Err(error) => say_failure(rt, names, Failure::Input(error)),
    }
}

fn salvage(rt: &HostRuntime, input: &[u8], out: &[u8])
    requires { length out.now ≤ 4096 }
{
    let mut room = [0u8; PART_BYTES];
    let end = part_name(out, &mut room);
    let part = &room[..end];
    salvage_file(rt, Names { input, part, out });
}

// Word i, one of the two names, in the room; where it has not the whole, standard error says why.
fn name_in(rt: &HostRuntime, i: usize, what: &[u8], room: &mut [u8; NAME_BYTES]) -> Option<usize>
    ensures { IfSome result (λ end. end ≤ 4096) }
{
    match program::arg(rt, i, room) {
        Ok(end) => Some(end),
        Err(error) => {
            program::fail(rt, what, error);
            None
        }
    }
}

fn main(rt: HostRuntime) {
    if program::arg_count(&rt) != 3 {
        program::say(&rt, b"usage: salvage IN OUT\n");
        return;
    }
    let mut name = [0u8; NAME_BYTES];
    let Some(length) = name_in(&rt, 1, b"the name of the input", &mut name) else {
        return;
    };
    let mut out = [0u8; NAME_BYTES];
    let Some(out_length) = name_in(&rt, 2, b"the name of the recording", &mut out) else {
        return;
    };
    salvage(&rt, &name[..length], &out[..out_length]);
}
