// The figures of an axis: the table image at the front is judged and its entries rebuilt; a walk through them adds up busy ticks, forced idle and each
// task's lateness, and the capacities follow from the set. No heap; memory beside the arguments is room for the longest timetable image and a few arrays
// of 16.
#![tactic(auto)]

ghost use Rattle.std.specs.Prelude.{◌≡◌, List, ◌<◌, pos, ◌-ℤ◌};
ghost use Rattle.rules.specs.declared.Entry as book_entry;
ghost use Rattle.rules.specs.Tasks.{Set};
ghost use Rattle.rules.specs.Axis.{Measures};
ghost use Rattle.sets.specs.Kept.{all_jobs_in, Keeps};
ghost use Rattle.timetables.specs.Judged.{entries_behind, EntriesValid};
ghost use Rattle.rebuilding.specs.Rebuilt.{TimetableBehind};
ghost use Rattle.figures.specs.Times.{worsened, TimesTold, CanPutTimes, times_put};
ghost use Rattle.figures.specs.Figures.{CanPutFigures, figures_put, MeasuresImage};

use images::ENTRY_SIZE;
use rebuilding::LONGEST;
use rules::{Axis, Entry, Located, Offsets, TOO_LONG};
use sets::Kept;

// The lateness of a job by its start and the latest start that keeps its deadline.
fn lateness(start: u32, latest: u32) -> i64
    ensures { result ≡ pos start -ℤ pos latest }
{
    i64::from(start) - i64::from(latest)
}

// A job of task i with its start and the latest one that keeps its deadline: its lateness is the task's worst where it is a first job's, or larger than the
// worst so far.
fn worsen(worst: &mut [i64; 16], i: usize, first: bool, start: u32, latest: u32)
    requires { i < 16 }
    ensures { worst.new ≡ worsened worst.old i first (pos start -ℤ pos latest) }
{
    let late = lateness(start, latest);
    if first || worst[i] < late {
        worst[i] = late;
    }
}

// What a walk through a timetable's entries comes to: busy ticks, forced idle, and the lateness of each task's worst job.
#[derive(Clone, Copy)]
pub struct Times {
    pub busy: u32,
    pub forced: u32,
    pub worst: [i64; 16],
}

// The walk. A task whose next release is still its first has had no job.
fn walk(image: &[u8], kept: &Kept) -> Times
    requires { (ts : Set) × EntriesValid ts image.now kept.now (all_jobs_in kept.now) }
    ensures { (ts : Set) → EntriesValid ts image.now kept.now (all_jobs_in kept.now) →
        TimesTold ts (entries_behind image.now ts (all_jobs_in kept.now)) result }
{
    let n = kept.tasks as usize;
    let all = kept.all_jobs as usize;
    let mut release = kept.first;
    let mut worst = [0i64; 16];
    let mut busy: u32 = 0;
    let mut forced: u32 = 0;
    let mut free: u32 = 0;
    let mut at = images::head_length(n);
    for _entry in 0..all {
        let e = images::read::<Entry>(image, at);
        let i = e.task as usize;
        let first = release[i] == kept.first[i];
        worsen(&mut worst, i, first, e.start, release[i] + kept.slack[i]);
        forced += e.start - timetables::instant(n, &release, free);
        release[i] += kept.periods[i];
        free = e.start + kept.times[i];
        busy += free - e.start;
        at += ENTRY_SIZE;
    }
    Times {
        busy,
        forced,
        worst,
    }
}

// The first figures at the front of an output: busy ticks, forced idle, other idle, and the lateness of each task.
fn put_times(kept: &Kept, t: Times, out: &mut [i64])
    requires { CanPutTimes kept.now t out.old }
    ensures { out.new ≡ times_put kept.now t out.old }
{
    let n = kept.tasks as usize;
    for i in 0..n {
        out[3 + i] = t.worst[i];
    }
    out[0] = i64::from(t.busy);
    out[1] = i64::from(t.forced);
    out[2] = i64::from(kept.hyperperiod - t.busy - t.forced);
}

// The figures of an accepted image at the front of an output with room for them, so many of which are capacities.
fn put_figures(image: &[u8], kept: &Kept, first: Offsets, many: usize, out: &mut [i64])
    requires { (ts : Set) × CanPutFigures ts image.now kept.now first many out.old }
    ensures { (ts : Set) (τ : List book_entry.Entry) → Keeps ts kept.now → TimetableBehind image.now ts first τ →
        out.new ≡ figures_put ts τ out.old }
{
    let mut entries = [0u8; LONGEST];
    rebuilding::put_entries(image, kept, first, &mut entries);
    put_times(kept, walk(&entries, kept), out);
    let from = kept.tasks as usize + 3;
    spare::fill(kept, many, &mut out[from..]);
}

// The figures of a whole image, and nothing else changed.
fn measure_image(image: &[u8], out: &mut [i64]) -> Result<Axis, Located>
    ensures { MeasuresImage image.now out.old result out.new }
{
    let mut kept = Kept::unfilled([0u32; 16]);
    let t = tables::judge(image, &mut kept)?;
    let many = spare::count(&kept);
    let figures = kept.tasks as usize + 3 + many;
    if out.len() < figures {
        return Err(TOO_LONG);
    }
    put_figures(image, &kept, t.first, many, out);
    Ok(Axis {
        figures,
        used: image.len(),
    })
}

// The figures of the image at the front, and nothing else changed.
pub fn measure(images: &[u8], out: &mut [i64]) -> Result<Axis, Located>
    ensures { Measures images.now out.old result out.new }
{
    let l = framing::frame(images, false)?;
    measure_image(&images[..l.ended], out)
}
