// Deriving: the tables of a timetable image, counted by the walk that judges it and written in a second one. No heap; memory beside the arguments is a
// few arrays of 16.
#![tactic(auto)]

ghost use Rattle.std.specs.Prelude.{◌≡◌, true, ◌+◌, ◌≤◌, ◌<◌, length, get_or};
ghost use Rattle.rules.specs.Tasks.{Set};
ghost use Rattle.rules.specs.Marks.{ID, PV, size};
ghost use Rattle.rules.specs.Operations.{Derives};
ghost use Rattle.timetables.specs.Instants.{idles_before, inverts};
ghost use Rattle.derivation.specs.Putting.{FewCounted, PartsBegin, IdlePut, InversionPut, tables_put, tables_behind, CanPut};

use images::{END_SIZE, ENTRY_SIZE, End, IDLE_SIZE, INVERSION_SIZE, Kind};
use rules::{Entry, Idle, Inversion, Located, TOO_LONG};
use sets::Kept;
use timetables::Counts;

// The byte offset of each task's first PV record, behind the set and the idles.
fn first_offsets(n: u32, c: Counts) -> [usize; 16]
    requires { FewCounted n c }
    ensures { PartsBegin n c result }
{
    let many = n as usize;
    let mut offsets = [0usize; 16];
    let mut at = images::head_length(many) + c.idles * IDLE_SIZE;
    for i in 0..many {
        offsets[i] = at;
        at += c.each[i] * INVERSION_SIZE;
    }
    offsets
}

// The forced idle before an entry's start, where there is one, put at a place; and the place behind it.
fn put_idle(
    out: &mut [u8],
    place: usize,
    n: usize,
    release: &[u32; 16],
    free: u32,
    e: Entry,
) -> usize
    requires a_task { e.task < n }
    requires few { n ≤ 16 }
    requires slots { length release.now ≡ 16 }
    requires room { idles_before n release.now free e ≡ true → place + size ID ≤ length out.old }
    ensures { IdlePut n release.now free e out.old place out.new result }
{
    if !timetables::idles_before(n, release, e.task as usize, free, e.start) {
        return place;
    }
    let now = timetables::instant(n, release, free);
    writing::put(
        out,
        place,
        Idle {
            start: now,
            length: e.start - now,
        },
    );
    place + IDLE_SIZE
}

// The inversion of an entry, where it is one, put at a place; and the place behind it.
fn put_inversion(out: &mut [u8], place: usize, release: &[u32; 16], job: u32, e: Entry) -> usize
    requires a_task { e.task < 16 }
    requires slots { length release.now ≡ 16 }
    requires released { get_or release.now e.task 0 ≤ e.start }
    requires room { inverts release.now e ≡ true → place + size PV ≤ length out.old }
    ensures { InversionPut release.now job e out.old place out.new result }
{
    let i = e.task as usize;
    if !timetables::lower_waits(release, i, e.start) {
        return place;
    }
    writing::put(
        out,
        place,
        Inversion {
            task: e.task,
            job,
            delay: e.start - release[i],
        },
    );
    place + INVERSION_SIZE
}

// The ID records one behind the other, and each PV record at its own task's place.
fn put_irregularities(image: &[u8], kept: &Kept, listed: usize, c: Counts, out: &mut [u8])
    requires { (ts : Set) × CanPut ts image.now kept.now listed c out.old }
    ensures { (ts : Set) → CanPut ts image.now kept.now listed c out.old →
        out.new ≡ tables_put out.old ts (tables_behind image.now ts listed) }
{
    let n = kept.tasks as usize;
    let mut release = kept.first;
    let mut next = [0u32; 16];
    let mut free: u32 = 0;
    let mut idle_at = images::head_length(n);
    let mut offsets = first_offsets(kept.tasks, c);
    let mut at = images::head_length(n);
    for _entry in 0..listed {
        let e = images::read::<Entry>(image, at);
        let i = e.task as usize;
        idle_at = put_idle(out, idle_at, n, &release, free, e);
        offsets[i] = put_inversion(out, offsets[i], &release, next[i], e);
        next[i] += 1;
        release[i] += kept.periods[i];
        free = e.start + kept.times[i];
        at += ENTRY_SIZE;
    }
}

// Deriving: the table image of a timetable image at the front of the output, and nothing else changed.
pub fn derive(image: &[u8], out: &mut [u8]) -> Result<usize, Located>
    ensures { Derives image.now out.old result out.new }
{
    let mut kept = Kept::unfilled([0u32; 16]);
    let t = timetables::judge(image, true, &mut kept)?;
    let n = t.set.n as usize;
    let c = t.counts;
    let end = images::head_length(n) + c.idles * IDLE_SIZE + c.inversions * INVERSION_SIZE;
    let length = end + END_SIZE;
    if out.len() < length {
        return Err(TOO_LONG);
    }
    writing::put_set(out, Kind::Tables.number(), t.set);
    put_irregularities(image, &kept, t.listed, c, out);
    let before = images::head_count(n) + c.idles + c.inversions;
    writing::put(
        out,
        end,
        End {
            before: before as u32,
        },
    );
    Ok(length)
}
