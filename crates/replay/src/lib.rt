// Starts, one behind the other: replay through a cycle, for accepting and for rebuilding, and the dispatcher's one start. All of them come to the
// next start in one place, so that the compiler puts it in line. No heap and no table of jobs; memory beside the arguments is a few rows of 16.
#![tactic(auto)]

ghost use Rattle.std.specs.Prelude.{◌≡◌, ◌+◌, get_or};
ghost use Rattle.rules.specs.Tasks.{Set};
ghost use Rattle.sets.specs.Kept.{times_in, periods_in};
ghost use Rattle.decision.specs.Fits.{releases_in, Stands};
ghost use Rattle.decision.specs.Next.{FindsNext};
ghost use Rattle.replay.specs.Runs.{wasted_after, stepped, CanStep, PutsOn, run_from, Ran, CanRun, CanReplay, cycle_of};

use decision::{Found, Front, LAST_OFFSET, Standing, Stuck};
use images::ENTRY_SIZE;
use rules::{Entry, Offsets};
use sets::Kept;

// The least offset of a record that had no effect, after a start from a task's offset to the one behind it: its own record, if that is where the
// offset was, had none where no lower-numbered task was waiting.
#[tactic(auto, unfolding(crate::specs::Runs::wasted_after))]
fn wasted_after(wasted: u32, offset: u32, f: Found) -> u32
    ensures { result ≡ wasted_after wasted offset f.inversion f.inverts }
{
    if f.inversion == offset || f.inverts {
        return wasted;
    }
    wasted.min(offset)
}

// A start put into the output as an entry at a place, where that is inside; and the place behind it.
fn put_start(out: &mut [u8], place: usize, f: Found) -> usize
    ensures { PutsOn out.old place out.new result f }
{
    if out.len() <= place {
        return place;
    }
    let entry = Entry {
        task: f.task,
        start: f.start,
    };
    writing::put(out, place, entry);
    place + ENTRY_SIZE
}

// Where replay stands behind a start: its task's next job is the one behind it, from its own offset on. And how far replay has come then: the processor is free when
// the start's job ends, and idle records are looked for behind those it used.
fn step(kept: &Kept, at: &mut Standing, f: Found) -> Front
    requires { CanStep kept.now at.old f }
    ensures rows { at.new ≡ stepped at.old f
        (get_or (releases_in at.old) f.task 0 + get_or (periods_in kept.now) f.task 0) }
    ensures front { result ≡ record { free = f.start + get_or (times_in kept.now) f.task 0; idle = f.idle } }
{
    let i = f.task as usize;
    at.next[i] += 1;
    at.release[i] += kept.periods[i];
    at.offsets[i] = f.inversion;
    Front {
        free: f.start + kept.times[i],
        idle: f.idle,
    }
}

// What a run of starts came to: how many it found, the least offset of a PV record that had no effect, and the last answer, a start or what stopped
// it.
#[derive(Clone, Copy)]
pub struct Run {
    pub made: usize,
    pub wasted: u32,
    pub last: Result<Found, Stuck>,
}

// So many starts, and one at least, from where replay stands, up to the first that is not found. Each is put into the output as an entry, one behind the
// other, where it fits.
fn starts(
    image: &[u8],
    judged: bool,
    kept: &Kept,
    at: &mut Standing,
    from: Front,
    wanted: usize,
    out: &mut [u8],
) -> Run
    requires { (ts : Set) × CanRun ts image.now judged kept.now at.old from wanted }
    ensures { (ts : Set) → CanRun ts image.now judged kept.now at.old from wanted →
        Ran (run_from ts image.now at.old from wanted) out.old result out.new }
{
    let mut front = from;
    let mut wasted = LAST_OFFSET;
    let mut place: usize = 0;
    let mut made: usize = 0;
    loop {
        let last = decision::next_start(image, judged, kept, at, front);
        let Ok(f) = last else {
            return Run { made, wasted, last };
        };
        place = put_start(out, place, f);
        wasted = wasted_after(wasted, at.offsets[f.task as usize], f);
        made += 1;
        if wanted <= made {
            return Run { made, wasted, last };
        }
        front = step(kept, at, f);
    }
}

// The next start, for records that nobody has judged.
pub fn one_start(image: &[u8], kept: &Kept, at: &mut Standing, front: Front) -> Result<Found, Stuck>
    requires { (ts : Set) × Stands ts kept.now at.old front }
    ensures { FindsNext image.now kept.now at.old front result }
{
    starts(image, false, kept, at, front, 1, &mut []).last
}

// Replay through one cycle, as many starts as it has jobs, of an image whose records were judged. The entries are put into the output, one behind the
// other, where they fit.
pub fn cycle(image: &[u8], kept: &Kept, first: Offsets, out: &mut [u8]) -> Run
    requires { (ts : Set) × CanReplay ts image.now kept.now first }
    ensures { (ts : Set) → CanReplay ts image.now kept.now first →
        Ran (cycle_of ts image.now kept.now first) out.old result out.new }
{
    let next = [0u32; 16];
    let release = kept.first;
    let offsets = first.inversions;
    let mut begin = Standing {
        next,
        release,
        offsets,
    };
    let front = Front {
        free: 0,
        idle: first.idle,
    };
    let all = kept.all_jobs as usize;
    starts(image, true, kept, &mut begin, front, all, out)
}
