// Reads framed cases from standard input and prints, for each, what every searcher and every question answers. tests/ makes the cases and
// knows the answers; specs/Head.antt of the crate `framed` says what a frame is.
#![tactic(auto)]

mod asked;
mod case;
mod judged;
mod lines;
mod searched;

ghost use Rattle.std.specs.Prelude.{◌≡◌, length};
ghost use Rattle.std.specs.Io.{ReadsAtMost};

use case::Case;
use page::Page;
use std::io;
use std::io::{Read, Write};

// A frame's points and readings are at most so many.
const MOST_POINTS: usize = 300;

const MOST_READINGS: usize = 1000001;

// Room for the lines of one case.
const PAGE: usize = 65536;

// Reads one frame and prints its case. False at the end of the input, and where a frame is cut short or too large.
fn one_case<R: Read, W: Write>(
    reader: &mut R,
    writer: &mut W,
    points: &mut [u8],
    recording: &mut [u8],
) -> io::Result<bool> {
    let mut bytes = [0u8; 18];
    let got = calls::read_all(reader, &mut bytes)?;
    if got == 0 {
        return Ok(false);
    }
    let head = framed::head_of(&bytes[..got]);
    let m = read_start(reader, points, head.m)?;
    let n = read_start(reader, recording, head.n)?;
    // whether all that the head says came
    if got < bytes.len() || m < head.m || n < head.n {
        writer.write_all(b"frame cut short, or too large\n")?;
        return Ok(false);
    }
    let case = Case {
        head,
        points: &points[..m],
        recording: &recording[..n],
    };
    print_case(writer, &case)?;
    Ok(true)
}

// Prints the lines of one case.
fn print_case<W: Write>(writer: &mut W, case: &Case) -> io::Result<()> {
    let mut bytes = [0u8; PAGE];
    let mut page = Page::new(&mut bytes);
    searched::searches(&mut page, case);
    asked::questions(&mut page, case);
    judged::windows(&mut page, case);
    writer.write_all(page.written())
}

// Reads n bytes to the start of a buffer, if it has that many, and answers how many came.
fn read_start<R: Read>(reader: &mut R, buf: &mut [u8], n: usize) -> io::Result<usize>
    ensures { ReadsAtMost result buf.new }
{
    if buf.len() < n {
        return Ok(0);
    }
    calls::read_all(reader, &mut buf[..n])
}

// A proved loop has to end, and nothing says that the input does. So it counts, to a number that no run comes to.
fn all_cases<R: Read, W: Write>(
    reader: &mut R,
    writer: &mut W,
    points: &mut [u8],
    recording: &mut [u8],
) -> io::Result<()> {
    for _ in 0..u64::MAX {
        if !one_case(reader, writer, points, recording)? {
            break;
        }
    }
    Ok(())
}

// Room for the longest recording. Its contract gives only the length, which lending the array needs.
fn no_readings() -> [u8; MOST_READINGS]
    ensures { 1000001 ≡ length result }
{
    [0; MOST_READINGS]
}

fn main(rt: HostRuntime) -> io::Result<()> {
    let mut points = [0u8; MOST_POINTS];
    let mut recording = no_readings();
    all_cases(
        &mut rt.stdin(),
        &mut rt.stdout(),
        &mut points,
        &mut recording,
    )
}
