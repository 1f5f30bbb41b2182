// Lists the table image on standard input: a line for each start of the timetable that is rebuilt from it, with task, job, start and end,
// then a last line with the number of starts; or one line with the refusal (`lines::list`). A read or a write that fails is told on standard
// error; after a read that failed nothing is listed.
#![tactic(auto)]

ghost use Rattle.standard.specs.Calls.{Holds};

use lines::ROOM;
use standard::Streams;
use std::io;
use std::io::{Read, Write};
use text::LONGEST_INPUT;

// Reads standard input until it ends or the buffer is full.
fn read_input<R: Read, W, E>(streams: &mut Streams<R, W, E>, input: &mut [u8]) -> io::Result<usize>
    ensures { Holds 0 result input.new }
{
    let mut at: usize = 0;
    while at < input.len() {
        let held = streams.read_behind(input, at)?;
        if held == at {
            break;
        }
        at = held;
    }
    Ok(at)
}

// The listing of what was read.
fn write_listing<R, W: Write, E: Write>(streams: &mut Streams<R, W, E>, input: &[u8]) {
    let mut text = [0u8; ROOM];
    let n = lines::list(input, &mut text);
    if let Err(unfinished) = streams.write_text(&text[..n]) {
        streams.fail(b"listing: standard output", &unfinished.error);
    }
}

fn main(rt: HostRuntime) {
    let mut streams = Streams::new(rt.stdin(), rt.stdout(), rt.stderr());
    let mut input = [0u8; LONGEST_INPUT + 1];
    match read_input(&mut streams, &mut input) {
        Ok(n) => write_listing(&mut streams, &input[..n]),
        Err(error) => streams.fail(b"listing: standard input", &error),
    }
}
