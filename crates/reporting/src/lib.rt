// Reporting: what one turn of the report over a line of images comes to, over the bytes that are held.
#![tactic(auto)]

ghost use Rattle.std.specs.Prelude.{[], ◌*◌, ◌≤◌, length};
ghost use Rattle.text.specs.Puts.{AtFront};
ghost use Rattle.reporting.specs.Report.{figure_lines, image_turn, turn};
ghost use Rattle.reporting.specs.Turns.{longest_line, room, Leaves, RefusedSo, Turned};

use rules::Located;
use text::{LONGEST_INPUT, Page};

// What is told of an image: the length of its lines, and its bytes.
#[derive(Clone, Copy)]
pub struct Told {
    pub text: usize,
    pub used: usize,
}

// What a turn comes to: more bytes are needed, and can come; an image's lines; or the last lines of the report, so many bytes.
#[derive(Clone, Copy)]
pub enum TurnAnswer {
    Waits,
    GoesOn(Told),
    Stops(usize),
}

// The most images of a line, and the most figures of an image.
pub const MOST_IMAGES: u32 = 10000;

const MOST_FIGURES: usize = 8212;

// Room for the lines of every image.
pub const ROOM: usize = MOST_FIGURES * 21;

// No bytes at all: framing needs a first record.
const NO_BYTES: Located = Located {
    number: 1,
    place: 0,
    offset: 0,
};

// One figure a line, at the front of an output.
fn put_figures(figures: &[i64], out: &mut [u8]) -> usize
    requires { length figures.now * longest_line ≤ length out.old }
    ensures { AtFront (figure_lines figures.now) out.old result out.new }
{
    let mut page = Page::new(out);
    for z in figures {
        page.signed(*z, b'\n');
    }
    page.len()
}

// Where no bytes are held.
fn none_held(more: bool, images: u32, out: &mut [u8]) -> TurnAnswer
    requires { room ≤ length out.old }
    ensures { Leaves (turn [] more images) out.old result out.new }
{
    if more {
        return TurnAnswer::Waits;
    }
    if images == 0 {
        return TurnAnswer::Stops(text::put_refused(out, NO_BYTES));
    }
    TurnAnswer::Stops(0)
}

// An image that is refused: 1 is told only where no byte more can come, and is 20 where framing needs a byte beyond the first LONGEST_INPUT.
fn refused(r: Located, more: bool, beyond: bool, out: &mut [u8]) -> TurnAnswer
    requires { room ≤ length out.old }
    ensures { RefusedSo more beyond r out.old result out.new }
{
    if r.number != 1 {
        return TurnAnswer::Stops(text::put_refused(out, r));
    }
    if beyond {
        return TurnAnswer::Stops(text::put_too_long(out));
    }
    if more {
        return TurnAnswer::Waits;
    }
    TurnAnswer::Stops(text::put_refused(out, r))
}

// The image at the front of at most LONGEST_INPUT bytes.
fn of_image(bytes: &[u8], more: bool, beyond: bool, out: &mut [u8]) -> TurnAnswer
    requires { room ≤ length out.old }
    ensures { Leaves (image_turn more beyond bytes.now) out.old result out.new }
{
    let mut figures = [0i64; MOST_FIGURES];
    match figures::measure(bytes, &mut figures) {
        Err(r) => refused(r, more, beyond, out),
        Ok(a) => {
            let many = a.figures;
            let text = put_figures(&figures[..many], out);
            TurnAnswer::GoesOn(Told { text, used: a.used })
        }
    }
}

// A turn over the bytes that are held, from an image's begin on: whether more can come, and how many images there were before. Its text is put at the front
// of an output that has room for every image's; one that has not keeps its bytes, and an end with no text is answered.
// Of a longer line the first LONGEST_INPUT + 1 bytes give the same as all of it.
pub fn turn(held: &[u8], more: bool, images: u32, out: &mut [u8]) -> TurnAnswer
    ensures { Turned held.now more images out.old result out.new }
{
    if out.len() < ROOM {
        return TurnAnswer::Stops(0);
    }
    if held.is_empty() {
        return none_held(more, images, out);
    }
    if images == MOST_IMAGES {
        return TurnAnswer::Stops(text::put_too_long(out));
    }
    let many = LONGEST_INPUT.min(held.len());
    of_image(&held[..many], more, LONGEST_INPUT < held.len(), out)
}
