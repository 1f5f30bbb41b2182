// The intake: fragments of a table image collected at the front of a lent buffer, and judged there at a closing call.
#![tactic(auto)]

ghost use Rattle.std.specs.Prelude.{◌≡◌, ◌≤◌, ◌++◌, length, take, drop};
ghost use Rattle.rules.specs.Intake as book;

use rules::{Intake, Located, TOO_LONG};

// Begins: open, with no bytes taken. A buffer keeps what it has.
pub fn begin() -> Intake
    ensures { result ≡ book.begun }
{
    Intake::Open(0)
}

// The intake before a buffer of so many bytes: a count above them shuts it.
fn within(k: Intake, room: usize) -> Intake
    ensures { result ≡ book.within k room }
{
    match k {
        Intake::Open(count) if count <= room => Intake::Open(count),
        _ => Intake::Shut,
    }
}

// Copies bytes to the front of a part that has room for them.
fn copy(from: &[u8], to: &mut [u8])
    requires { length from.now ≤ length to.old }
    ensures { to.new ≡ take (length from.now) from.now ++ drop (length from.now) to.old }
{
    for i in 0..from.len() {
        to[i] = from[i];
    }
}

// Takes a fragment behind the bytes that are held. What it answers is the intake afterwards, shut where the fragment is refused, with 20.
pub fn take(k: Intake, buffer: &mut [u8], fragment: &[u8]) -> Intake
    ensures { book.Takes k buffer.old fragment.now result buffer.new }
{
    let Intake::Open(count) = within(k, buffer.len()) else {
        return Intake::Shut;
    };
    if buffer.len() - count < fragment.len() {
        return Intake::Shut;
    }
    copy(fragment, &mut buffer[count..]);
    Intake::Open(count + fragment.len())
}

// Closes: judges the bytes that are held, and answers the length of an image that is accepted. The intake is shut afterwards.
pub fn close(k: Intake, buffer: &[u8]) -> Result<usize, Located>
    ensures { result ≡ book.close k buffer.now }
{
    let Intake::Open(count) = within(k, buffer.len()) else {
        return Err(TOO_LONG);
    };
    tables::check(&buffer[..count]).map(|()| count)
}

// Closes: judges the bytes that are held and rebuilds their timetable into an output. The intake is shut afterwards.
pub fn rebuild(k: Intake, buffer: &[u8], out: &mut [u8]) -> Result<usize, Located>
    ensures { book.ClosesRebuilding k buffer.now out.old result out.new }
{
    let Intake::Open(count) = within(k, buffer.len()) else {
        return Err(TOO_LONG);
    };
    rebuilding::rebuild(&buffer[..count], out)
}
