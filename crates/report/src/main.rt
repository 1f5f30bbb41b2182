// Reports on the line of table images on standard input, in constant memory: the figures of each, one a line, image after image; or a line with the refusal,
// which ends the report (`reporting::turn`). A read or a write that fails is told on standard error and ends it; what was written before stays.
#![tactic(auto)]

ghost use Rattle.std.specs.Prelude.{◌+◌, ◌≤◌, ◌<◌, length};
ghost use Rattle.reporting.specs.Report.{most_images};
ghost use Rattle.reporting.specs.Turns.{room};
ghost use Rattle.report.specs.Stands.{Stands, CanRead, Reads, Passes, Drives};

use reporting::{ROOM, TurnAnswer};
use standard::{Streams, Unfinished};
use std::io;
use std::io::{Read, Write};
use text::LONGEST_INPUT;

// Where the report stands: the bytes that are held lie in the buffer from `begin` to `end`; whether more can come; how many images there were.
#[derive(Clone, Copy)]
struct Stand {
    begin: usize,
    end: usize,
    more: bool,
    images: u32,
}

// What breaks a report off: a read or a write that failed.
#[derive(Clone, Copy)]
enum Failure {
    Input(io::Error),
    Output(io::Error),
}

impl From<io::Error> for Failure {
    fn from(error: io::Error) -> Failure {
        Failure::Input(error)
    }
}

impl From<Unfinished> for Failure {
    fn from(unfinished: Unfinished) -> Failure {
        Failure::Output(unfinished.error)
    }
}

// One read behind the bytes that are held, which are moved to the front of the buffer. Where no more are held then, the input has ended.
fn read_more<R: Read, W, E>(
    streams: &mut Streams<R, W, E>,
    buffer: &mut [u8],
    s: Stand,
) -> Result<Stand, Failure>
    requires { CanRead s buffer.old }
    ensures { Reads s buffer.old result buffer.new }
{
    let held = s.end - s.begin;
    buffer.copy_within(s.begin..s.end, 0);
    let end = streams.read_behind(buffer, held)?;
    Ok(Stand {
        begin: 0,
        end,
        more: held < end,
        images: s.images,
    })
}

// An image's lines, and the bytes behind it.
fn go_on<R, W: Write, E>(
    streams: &mut Streams<R, W, E>,
    text: &[u8],
    s: Stand,
    used: usize,
) -> Result<Stand, Failure>
    requires inside { s.begin + used ≤ s.end }
    requires few { s.images < most_images }
    ensures { Passes s used result }
{
    streams.write_text(text)?;
    Ok(Stand {
        begin: s.begin + used,
        images: s.images + 1,
        ..s
    })
}

// A turn over the bytes that are held. Where the report has ended, it stands nowhere.
fn step<R: Read, W: Write, E>(
    streams: &mut Streams<R, W, E>,
    buffer: &mut [u8],
    text: &mut [u8],
    s: Stand,
) -> Result<Option<Stand>, Failure>
    requires stands { Stands s buffer.old }
    requires room { room ≤ length text.old }
    ensures { Drives s buffer.old result buffer.new }
{
    match reporting::turn(&buffer[s.begin..s.end], s.more, s.images, text) {
        TurnAnswer::Waits => {
            let next = read_more(streams, buffer, s)?;
            Ok(Some(next))
        }
        TurnAnswer::GoesOn(told) => {
            let next = go_on(streams, &text[..told.text], s, told.used)?;
            Ok(Some(next))
        }
        TurnAnswer::Stops(many) => {
            streams.write_text(&text[..many])?;
            Ok(None)
        }
    }
}

// Turn after turn, to the end of the report.
fn report<R: Read, W: Write, E>(streams: &mut Streams<R, W, E>) -> Result<(), Failure> {
    let mut buffer = [0u8; LONGEST_INPUT + 1];
    let mut text = [0u8; ROOM];
    let mut s = Stand {
        begin: 0,
        end: 0,
        more: true,
        images: 0,
    };
    while let Some(next) = step(streams, &mut buffer, &mut text, s)? {
        s = next;
    }
    Ok(())
}

fn main(rt: HostRuntime) {
    let mut streams = Streams::new(rt.stdin(), rt.stdout(), rt.stderr());
    match report(&mut streams) {
        Ok(()) => {}
        Err(Failure::Input(error)) => streams.fail(b"report: standard input", &error),
        Err(Failure::Output(error)) => streams.fail(b"report: standard output", &error),
    }
}
