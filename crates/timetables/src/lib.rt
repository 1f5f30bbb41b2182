// Timetable images: one walk over the entries that judges them and, where asked, counts their irregularities; and plain checking. No heap; memory
// beside the arguments is a few arrays of 16.
#![tactic(auto)]

ghost use Rattle.std.specs.Prelude.{◌≡◌, ◌+◌, ◌*◌, ◌<◌, ◌≤◌, length, take, nat_lt};
ghost use Rattle.rules.specs.Tasks.{Set, largest_number};
ghost use Rattle.rules.specs.Marks.{SL as entry-mark, size, head_length_of};
ghost use Rattle.rules.specs.Operations.{check_timetable};
ghost use Rattle.sets.specs.Kept.{Keeps};
ghost use Rattle.timetables.specs.Walks as walks;
ghost use Rattle.timetables.specs.Judged.{EntriesStand, Walked, told_of, JudgedAs};
ghost use Rattle.timetables.specs.Instants.{least_of, instant_of, some_by};

use images::{ENTRY_SIZE, Kind, Mark};
use rules::{Entry, LARGEST, Located, TaskSet};
use sets::Kept;

// The number of the first rule that a start of a task's next job breaks, 12 to 15 in that order. A release from the end of the cycle on says that no job is
// left. One test sees both a start before its release, where the difference wraps, and a late one.
fn start_breaks(h: u32, slack: u32, release: u32, free: u32, start: u32) -> Option<u32>
    requires { h + slack ≤ largest_number }
    ensures { result ≡ walks.start_breaks h slack release free start }
{
    if h <= release {
        return Some(12);
    }
    if start < free {
        if start < release {
            return Some(13);
        }
        return Some(14);
    }
    if slack < start.wrapping_sub(release) {
        if start < release {
            return Some(13);
        }
        return Some(15);
    }
    None
}

// The number of the first rule that an entry breaks, 11 to 15.
fn entry_breaks(kept: &Kept, release: &[u32; 16], free: u32, e: Entry) -> Option<u32>
    requires { (ts : Set) × Keeps ts kept.now }
    ensures { result ≡ walks.entry_breaks kept.now release.now free e }
{
    if kept.tasks <= e.task {
        return Some(11);
    }
    let i = e.task as usize;
    start_breaks(kept.hyperperiod, kept.slack[i], release[i], free, e.start)
}

// An instant that no release comes to: there is no next job.
const NEVER: u32 = LARGEST;

// The instant from which a job is waiting for the processor: the larger of the free instant and the least release among jobs not yet started.
pub fn instant(n: usize, release: &[u32; 16], free: u32) -> u32
    requires few { n ≤ 16 }
    requires slots { length release.now ≡ 16 }
    ensures { result ≡ instant_of n release.now free }
{
    sets::later(free, sets::least(n, NEVER, release))
}

// Is one of n jobs released before an instant?
fn some_earlier(n: usize, release: &[u32; 16], start: u32) -> bool
    requires few { n ≤ 16 }
    requires slots { length release.now ≡ 16 }
    ensures { result ≡ nat_lt (least_of (take n release.now)) start }
{
    for r in &release[..n] {
        if *r < start {
            return true;
        }
    }
    false
}

// Is the processor idle before a start of task i though a job waits for it? The start's own job, if it was released before, is such a job.
pub fn idles_before(n: usize, release: &[u32; 16], i: usize, free: u32, start: u32) -> bool
    requires a_task { i < n }
    requires few { n ≤ 16 }
    requires slots { length release.now ≡ 16 }
    ensures { result ≡ nat_lt (instant_of n release.now free) start }
{
    if start <= free {
        return false;
    }
    if release[i] < start {
        return true;
    }
    some_earlier(n, release, start)
}

// Does a task below i have a job released at or before an instant and not started?
pub fn lower_waits(release: &[u32; 16], i: usize, start: u32) -> bool
    requires few { i ≤ 16 }
    requires slots { length release.now ≡ 16 }
    ensures { result ≡ some_by start (take i release.now) }
{
    for r in &release[..i] {
        if *r <= start {
            return true;
        }
    }
    false
}

// How many forced idles a timetable has, how many inversions, and how many of them are each task's.
#[derive(Clone, Copy)]
pub struct Counts {
    pub idles: usize,
    pub inversions: usize,
    pub each: [usize; 16],
}

// What stops a walk over the entries: one that breaks a rule, with the rule's number; or, where no whole SL record stands, the first task with a job missing,
// or nothing.
#[derive(Clone, Copy)]
pub enum Stop {
    Broken(u32),
    Missing(usize),
    Complete,
}

// A walk over the entries: what stops it, how many entries are before it and, where they were asked for, their irregularities.
#[derive(Clone, Copy)]
pub struct Walk {
    pub stop: Stop,
    pub entries: usize,
    pub counts: Counts,
}

// The walk over the entries of a timetable.
fn walk_entries(image: &[u8], kept: &Kept, count: bool) -> Walk
    requires { (ts : Set) × EntriesStand ts image.now kept.now 0 }
    ensures { (ts : Set) → EntriesStand ts image.now kept.now 0 → Walked ts image.now count result }
{
    let n = kept.tasks as usize;
    let mut release = kept.first;
    let mut free: u32 = 0;
    let mut counts = Counts {
        idles: 0,
        inversions: 0,
        each: [0usize; 16],
    };
    let mut at = images::head_length(n);
    let mut entries: usize = 0;
    'entries: loop {
        if !images::stands(image, at, Mark::SL) {
            let stop = match sets::missing(n, kept.hyperperiod, &release) {
                Some(task) => Stop::Missing(task),
                None => Stop::Complete,
            };
            break 'entries Walk {
                stop,
                entries,
                counts,
            };
        }
        let e = images::read::<Entry>(image, at);
        if let Some(number) = entry_breaks(kept, &release, free, e) {
            let stop = Stop::Broken(number);
            break 'entries Walk {
                stop,
                entries,
                counts,
            };
        }
        let i = e.task as usize;
        if count {
            if idles_before(n, &release, i, free, e.start) {
                counts.idles += 1;
            }
            if lower_waits(&release, i, e.start) {
                counts.inversions += 1;
                counts.each[i] += 1;
            }
        }
        release[i] += kept.periods[i];
        free = e.start + kept.times[i];
        at += ENTRY_SIZE;
        entries += 1;
    }
}

// A timetable image that is not refused: the set, how many entries there are, and what was counted of them where that was asked for.
#[derive(Clone, Copy)]
pub struct Timetable {
    pub set: TaskSet,
    pub listed: usize,
    pub counts: Counts,
}

// What a walk over all entries of a framed image comes to: the rule that it broke, a job that is missing, or the timetable.
fn told(set: TaskSet, w: Walk) -> Result<Timetable, Located>
    requires { head_length_of set.n + w.entries * size entry-mark < 18446744073709551616 }
    ensures { result ≡ told_of set w }
{
    let n = set.n as usize;
    match w.stop {
        Stop::Broken(number) => Err(Located {
            number,
            place: images::head_count(n) + w.entries,
            offset: images::head_length(n) + w.entries * ENTRY_SIZE,
        }),
        Stop::Missing(task) => Err(Located {
            number: 16,
            place: task,
            offset: 0,
        }),
        Stop::Complete => Ok(Timetable {
            set,
            listed: w.entries,
            counts: w.counts,
        }),
    }
}

// A timetable image judged: TS and the tasks framed, the set, the entries in one walk, and framing gone on with from where that stops. What framing
// refuses comes before what the set or an entry is refused for.
pub fn judge(image: &[u8], count: bool, kept: &mut Kept) -> Result<Timetable, Located>
    ensures { JudgedAs image.now count result kept.new }
{
    let kind = Kind::Timetable.number();
    let p = framing::frame_tasks(image, kind)?;
    let set = framing::read_set(image, p.tasks);
    if let Err(fault) = sets::judge_set(set, kept) {
        framing::frame_from(image, kind, true, p)?;
        return Err(framing::set_refused(fault));
    }
    let w = walk_entries(image, kept, count);
    let behind = framing::past(p, Mark::SL, w.entries, w.entries, 0);
    framing::frame_from(image, kind, true, behind)?;
    told(set, w)
}

// Plain checking of a timetable image.
pub fn check(image: &[u8]) -> Result<(), Located>
    ensures { result ≡ check_timetable image.now }
{
    let mut kept = Kept::unfilled([0u32; 16]);
    judge(image, false, &mut kept)?;
    Ok(())
}
