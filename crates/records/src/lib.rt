// The records of a table image: their own rules, 17 in their turn, and the offsets as at a cycle's start.
#![tactic(auto)]

ghost use Rattle.std.specs.Prelude.{◌≡◌, ℕ, ◌+◌, ◌≤◌, length};
ghost use Rattle.rules.specs.Tasks as book;
ghost use Rattle.rules.specs.Marks as book_marks;
ghost use Rattle.rules.specs.Irregularities as book_pairs;
ghost use Rattle.rules.specs.Judging as book_judging;
ghost use Rattle.rules.specs.Offsets as book_offsets;
ghost use Rattle.sets.specs.Kept.{tasks_in, hyperperiod_in, Keeps, Filled};
ghost use Rattle.records.specs.Tables.{idle_in, inversion_in, tables_at, HasOffsets};
ghost use Rattle.records.specs.Told.{CanJudge, IdlesTold, InversionsTold, RecordsTold};

use images::{IDLE_SIZE, INVERSION_SIZE, head_count, head_length};
use rules::{Idle, Inversion, Located, Offsets};
use sets::Kept;

// An ID's own rule: length at least 1, start + length < H.
pub fn idle_keeps(h: u32, r: Idle) -> bool
    ensures { result ≡ book_judging.idle_in_range h r }
{
    if r.length < 1 {
        return false;
    }
    if h <= r.start {
        return false;
    }
    r.length < h - r.start
}

// A PV's own rule: task below n, job below H/T, delay at most D − C.
pub fn inversion_keeps(kept: &Kept, r: Inversion) -> bool
    requires { tasks_in kept.now ≤ 16 }
    ensures { (ts : book.Set) → Keeps ts kept.now →
        result ≡ book_judging.inversion_in_range ts (hyperperiod_in kept.now) r }
{
    let n = kept.tasks as usize;
    let i = r.task as usize;
    if n <= i {
        return false;
    }
    if kept.jobs[i] <= r.job {
        return false;
    }
    r.delay <= kept.slack[i]
}

// The ID record at a byte offset.
pub fn idle_at(image: &[u8], at: usize) -> Idle
    requires { at + book_marks.size book_marks.ID ≤ length image.now }
    ensures { result ≡ idle_in image.now at }
{
    images::read::<Idle>(image, at)
}

// The PV record at a byte offset.
pub fn inversion_at(image: &[u8], at: usize) -> Inversion
    requires { at + book_marks.size book_marks.PV ≤ length image.now }
    ensures { result ≡ inversion_in image.now at }
{
    images::read::<Inversion>(image, at)
}

// The refusal of a record that breaks its own rule, by its index and the byte at which it begins.
fn broken(place: usize, offset: usize) -> Located
    ensures { result ≡ record { number = 17; place = place; offset = offset } }
{
    Located {
        number: 17,
        place,
        offset,
    }
}

// ID records in turn: each is in its range and starts above the end of the one before; the first that does not is refused.
fn judge_idles(image: &[u8], kept: &Kept, idles: usize) -> Result<(), Located>
    requires { (inversions : ℕ) × CanJudge image.now kept.now idles inversions }
    ensures { IdlesTold image.now kept.now idles result }
{
    let n = kept.tasks as usize;
    let h = kept.hyperperiod;
    let first = head_count(n);
    let mut at = head_length(n);
    let mut from: u32 = 0;
    for j in 0..idles {
        let r = idle_at(image, at);
        if r.start < from || !idle_keeps(h, r) {
            return Err(broken(first + j, at));
        }
        from = r.start + r.length + 1;
        at += IDLE_SIZE;
    }
    Ok(())
}

// Is a pair (task, job) at or below another?
fn at_most(i: u32, k: u32, j: u32, l: u32) -> bool
    ensures { result ≡ book_pairs.at_most i k j l }
{
    if i == j {
        return k <= l;
    }
    i < j
}

// PV records in turn: each is in its range, and its pair (task, job) is above that of the one before; the first that is not is refused.
fn judge_inversions(
    image: &[u8],
    kept: &Kept,
    idles: usize,
    inversions: usize,
) -> Result<(), Located>
    requires { CanJudge image.now kept.now idles inversions }
    ensures { InversionsTold image.now kept.now idles inversions result }
{
    let n = kept.tasks as usize;
    let first = head_count(n) + idles;
    let mut at = head_length(n) + idles * IDLE_SIZE;
    let mut task: u32 = 0;
    let mut job: u32 = 0;
    for j in 0..inversions {
        let r = inversion_at(image, at);
        if !at_most(task, job, r.task, r.job) || !inversion_keeps(kept, r) {
            return Err(broken(first + j, at));
        }
        task = r.task;
        job = r.job + 1;
        at += INVERSION_SIZE;
    }
    Ok(())
}

// 17: ID records, then PV records.
pub fn judge_records(
    image: &[u8],
    kept: &Kept,
    idles: usize,
    inversions: usize,
) -> Result<(), Located>
    requires { CanJudge image.now kept.now idles inversions }
    ensures { RecordsTold image.now kept.now idles inversions result }
{
    judge_idles(image, kept, idles)?;
    judge_inversions(image, kept, idles, inversions)
}

// The same offset in the slots from one task to below another.
fn fill(offsets: &mut [u32; 16], from: usize, to: usize, at: u32)
    requires onwards { from ≤ to }
    requires few { to ≤ 16 }
    requires slots { length offsets.old ≡ 16 }
    ensures { Filled offsets.old (λ (i : ℕ). at) from to offsets.new }
{
    for i in from..to {
        offsets[i] = at;
    }
}

// Offsets as at a cycle's start: the first record behind the tasks, and for each task the first PV of its number or a higher one, else EN.
pub fn first_offsets(image: &[u8], n: usize, idles: usize, inversions: usize) -> Offsets
    requires { HasOffsets image.now n idles inversions }
    ensures { (ts : book.Set) → length ts.tasks ≡ n →
        result ≡ book_offsets.first_offsets ts (tables_at image.now n idles inversions) }
{
    let begin = head_length(n) + idles * IDLE_SIZE;
    let mut offsets = [0u32; 16];
    let mut filled: usize = 0;
    for j in 0..inversions {
        let at = begin + j * INVERSION_SIZE;
        let r = inversion_at(image, at);
        let to = r.task as usize + 1;
        if filled < to {
            fill(&mut offsets, filled, to, at as u32);
            filled = to;
        }
    }
    let end = begin + inversions * INVERSION_SIZE;
    fill(&mut offsets, filled, n, end as u32);
    Offsets {
        idle: head_length(n) as u32,
        inversions: offsets,
    }
}
