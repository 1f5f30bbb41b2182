// Lines: the text of a timetable's listing, and what the program writes for its whole input.
#![tactic(auto)]

ghost use Rattle.std.specs.Prelude.{◌≡◌, ◌≤◌, length};
ghost use Rattle.rules.specs.Marks as book_marks;
ghost use Rattle.images.specs.Bodies.{part_of, head_of};
ghost use Rattle.text.specs.Puts.{AtFront};
ghost use Rattle.text.specs.Pages.{Fits, Puts};
ghost use Rattle.lines.specs.Text.{line, ok_line, listing};
ghost use Rattle.rebuilding.specs.Rebuilt.{longest_image};
ghost use Rattle.lines.specs.Lists.{CanList, Lists, room, Listed};

use images::{END_SIZE, ENTRY_SIZE, Head};
use rebuilding::LONGEST;
use rules::Entry;
use text::{LONGEST_INPUT, Page};

// The line of a start: task, job, start, end.
#[tactic(auto, using(crate::proofs::TextLengths::line_parts))]
fn put_line(page: &mut Page, task: u32, job: u32, start: u32, end: u32)
    requires { Fits (line task job start end) page.old }
    ensures { Puts (line task job start end) page.old page.new }
{
    page.number(task as u64, b' ');
    page.number(job as u64, b' ');
    page.number(start as u64, b' ');
    page.number(end as u64, b'\n');
}

// The last line: the number of starts.
#[tactic(auto, using(crate::proofs::TextLengths::ok_parts))]
fn put_ok(page: &mut Page, starts: usize)
    requires { Fits (ok_line starts) page.old }
    ensures { Puts (ok_line starts) page.old page.new }
{
    page.bytes(b"ok ");
    page.number(starts as u64, b'\n');
}

// The number of tasks that an image's TS tells.
fn tasks_in(image: &[u8]) -> u32
    requires { book_marks.size book_marks.TS ≤ length image.now }
    ensures { result ≡ (head_of (part_of image.now 2 (book_marks.body_length book_marks.TS))).n }
{
    images::read::<Head>(image, 0).n
}

// The listing of the valid timetable whose image is given, at the front of an output: SL records in turn, up to EN.
fn list_timetable(image: &[u8], out: &mut [u8]) -> usize
    requires { CanList image.now out.old }
    ensures { Lists image.now out.old result out.new }
{
    let n = tasks_in(image) as usize;
    let s = framing::read_set(image, n);
    let mut jobs = [0u32; 16];
    let first = images::head_length(n);
    let starts = (image.len() - END_SIZE - first) / ENTRY_SIZE;
    let mut page = Page::new(out);
    for j in 0..starts {
        let e = images::read::<Entry>(image, first + j * ENTRY_SIZE);
        let i = e.task as usize;
        let t = s.tasks[i];
        put_line(&mut page, e.task, jobs[i], e.start, e.start + t.time);
        jobs[i] += 1;
    }
    put_ok(&mut page, starts);
    page.len()
}

// Room for every listing.
pub const ROOM: usize = 4096 * 20 + 8;

// The listing of any bytes as a table image, by way of the timetable image that is rebuilt from it.
fn list_rebuilt(image: &[u8], rebuilt: &mut [u8], out: &mut [u8]) -> usize
    requires long { length rebuilt.old ≡ longest_image }
    requires room { room ≤ length out.old }
    ensures { AtFront (listing image.now) out.old result out.new }
{
    match rebuilding::rebuild(image, rebuilt) {
        Err(r) => text::put_refused(out, r),
        Ok(len) => list_timetable(&rebuilt[..len], out),
    }
}

// What the program writes for an input, at the front of an output that has room for every listing; nothing, and 0, where it has not.
// Of an input that is too long the first LONGEST_INPUT + 1 bytes give the same as all of it.
pub fn list(input: &[u8], out: &mut [u8]) -> usize
    ensures { Listed input.now out.old result out.new }
{
    if out.len() < ROOM {
        return 0;
    }
    if input.len() > LONGEST_INPUT {
        return text::put_too_long(out);
    }
    let mut rebuilt = [0u8; LONGEST];
    list_rebuilt(input, &mut rebuilt, out)
}
