// Framing: record by record, left from inside with the first refusal; and the set of an image whose tasks are framed.
#![tactic(auto)]

ghost use Rattle.std.specs.Prelude.{◌≡◌, ℕ, ◌≤◌, length};
ghost use Rattle.rules.specs.Marks as book_marks;
ghost use Rattle.rules.specs.Framing as book_framing;
ghost use Rattle.images.specs.Table.{mark_of};
ghost use Rattle.framing.specs.Allowed.{kind_at, allowed_at};
ghost use Rattle.framing.specs.Frames.{refusal_at, Placed, Whole, Follows, Steps, Room, behind_run, Reached, RunOf, TowardsTasks, TasksPassed, TasksFramed};
ghost use Rattle.framing.specs.Frames.{frame_as, frame_answer};
ghost use Rattle.framing.specs.SetRead.{set_read, set_located};

use images::{Class, END_SIZE, End, HEAD_SIZE, Head, Kind, Mark, NamesMark, TASK_SIZE, stands};
use rules::{Layout, Located, NO_TASK, Place, Refusal, Task, TaskSet};

// Does an image of a kind have a mark? Every kind but that of timetables has the marks of tables.
fn in_kind(kind: u32, mark: Mark) -> bool
    ensures { result ≡ kind_at kind (mark_of mark) }
{
    let row = mark.row();
    if kind == Kind::Timetable.number() {
        return row.timetable;
    }
    row.tables
}

// May a mark stand in an image of a kind where no rank below the least may?
fn allowed(kind: u32, least: usize, mark: Mark) -> bool
    ensures { result ≡ allowed_at kind least (mark_of mark) }
{
    if !in_kind(kind, mark) {
        return false;
    }
    let rank = mark.row().rank;
    if least < 2 {
        return rank == least;
    }
    least <= rank
}

// What a record that is not refused comes to: framing goes on behind it, or has come to EN.
#[derive(Clone, Copy)]
pub enum Step {
    GoesOn(Place),
    Ended(Layout),
}

// A refusal of the record at a place.
fn refusal_at(number: u32, s: Place) -> Located
    ensures { result ≡ refusal_at number s }
{
    Located {
        number,
        place: s.index,
        offset: s.offset,
    }
}

// The place where so many TK records are due. Where none is, a later mark may stand.
fn tasks_due(index: usize, offset: usize, due: usize, n: usize) -> Place
    ensures { result ≡ book_framing.tasks_due index offset due n }
{
    Place {
        index,
        offset,
        rank: if due == 0 { 2 } else { 1 },
        due,
        tasks: n,
        listed: 0,
        inversions: 0,
    }
}

// TS: 3, 4 and 5, then n tasks are due.
fn after_head(image: &[u8], kind: u32, s: Place) -> Result<Step, Located>
    requires { Whole image.now s book_marks.TS }
    ensures { Follows kind image.now s book_marks.TS result }
{
    let h = images::read::<Head>(image, s.offset);
    if h.edition != 1 {
        return Err(refusal_at(3, s));
    }
    if h.kind != kind {
        return Err(refusal_at(4, s));
    }
    if h.n < 1 || 16 < h.n {
        return Err(refusal_at(5, s));
    }
    let n = h.n as usize;
    Ok(Step::GoesOn(tasks_due(s.index + 1, s.offset + HEAD_SIZE, n, n)))
}

// The place behind a TK: one task fewer is due.
fn after_task(s: Place) -> Place
    requires { Room s book_marks.TK 1 }
    ensures { result ≡ book_framing.after_task book_marks.TK s }
{
    let due = if s.due == 0 { 0 } else { s.due - 1 };
    tasks_due(s.index + 1, s.offset + TASK_SIZE, due, s.tasks)
}

// Past so many records with one mark between the tasks and EN, with what is counted then.
pub fn past<M: NamesMark>(
    s: Place,
    mark: M,
    count: usize,
    listed: usize,
    inversions: usize,
) -> Place
    requires { Room s (M.named mark) count }
    ensures { result ≡ behind_run (M.named mark) s count listed inversions }
{
    if count == 0 {
        return s;
    }
    let row = mark.mark().row();
    Place {
        index: s.index + count,
        offset: s.offset + count * row.size,
        rank: if row.once { row.rank + 1 } else { row.rank },
        due: s.due,
        tasks: s.tasks,
        listed,
        inversions,
    }
}

// EN: 10 where its number is not that of the records before it.
fn after_end(image: &[u8], s: Place) -> Result<Step, Located>
    requires { Whole image.now s book_marks.EN }
    ensures { (kind : ℕ) → Follows kind image.now s book_marks.EN result }
{
    let number = images::read::<End>(image, s.offset).before as usize;
    if number != s.index {
        return Err(refusal_at(10, s));
    }
    Ok(Step::Ended(Layout {
        tasks: s.tasks,
        listed: s.listed,
        inversions: s.inversions,
        ended: s.offset + END_SIZE,
    }))
}

// A whole record, by the class of its mark.
fn after(image: &[u8], kind: u32, s: Place, mark: Mark) -> Result<Step, Located>
    requires { Whole image.now s (mark_of mark) }
    ensures { Follows kind image.now s (mark_of mark) result }
{
    match mark.row().class {
        Class::Head => after_head(image, kind, s),
        Class::Task => Ok(Step::GoesOn(after_task(s))),
        Class::Option => Ok(Step::GoesOn(past(s, mark, 1, s.listed, s.inversions))),
        Class::Listed => Ok(Step::GoesOn(past(s, mark, 1, s.listed + 1, s.inversions))),
        Class::Inversion => Ok(Step::GoesOn(past(s, mark, 1, s.listed, s.inversions + 1))),
        Class::End => after_end(image, s),
    }
}

// One record: fewer than two bytes left, mark, cut body, then the record's own tests.
fn step_at(image: &[u8], kind: u32, s: Place) -> Result<Step, Located>
    requires { Placed image.now s }
    ensures { Steps kind image.now s result }
{
    let at = s.offset;
    let left = image.len() - at;
    if left < 2 {
        return Err(refusal_at(1, s));
    }
    let Some(mark) = Mark::find(image[at], image[at + 1]) else {
        return Err(refusal_at(2, s));
    };
    if !allowed(kind, s.rank, mark) {
        return Err(refusal_at(2, s));
    }
    if left < mark.size() {
        return Err(refusal_at(1, s));
    }
    after(image, kind, s, mark)
}

// How many whole records with a mark stand one behind the other from a place on, counted up to a bound.
fn run(image: &[u8], from: usize, mark: Mark, most: usize) -> usize
    requires { from ≤ length image.now }
    ensures { RunOf image.now from (mark_of mark) most result }
{
    let size = mark.size();
    let mut at = from;
    for count in 0..most {
        if !stands(image, at, mark) {
            return count;
        }
        at += size;
    }
    most
}

// Past the TK records that stand here and are due.
fn past_tasks(image: &[u8], s: Place) -> Place
    requires placed { Placed image.now s }
    requires towards { TowardsTasks image.now s }
    ensures { (kind : ℕ) → Reached kind image.now s → TasksPassed kind image.now s result }
{
    let count = run(image, s.offset, Mark::TK, s.due);
    if count == 0 {
        return s;
    }
    tasks_due(
        s.index + count,
        s.offset + count * TASK_SIZE,
        s.due - count,
        s.tasks,
    )
}

// Framing of TS and the tasks: the place behind them.
pub fn frame_tasks(image: &[u8], kind: u32) -> Result<Place, Located>
    ensures { TasksFramed kind image.now result }
{
    let mut s = Place {
        index: 0,
        offset: 0,
        rank: 0,
        due: 0,
        tasks: 0,
        listed: 0,
        inversions: 0,
    };
    'records: while s.rank < 2 {
        match step_at(image, kind, s)? {
            Step::GoesOn(t) => s = past_tasks(image, t),
            Step::Ended(_) => return Err(refusal_at(2, s)),
        }
    }
    Ok(s)
}

// Framing from a place that it comes to: record by record, left from inside with the first refusal or at EN, behind which nothing may follow where the
// image is whole.
pub fn frame_from(image: &[u8], kind: u32, whole: bool, place: Place) -> Result<Layout, Located>
    requires { Reached kind image.now place }
    ensures { result ≡ frame_answer image.now (frame_as whole kind image.now) }
{
    let mut s = place;
    'records: loop {
        match step_at(image, kind, s) {
            Ok(Step::GoesOn(t)) => s = t,
            Ok(Step::Ended(l)) => {
                if whole && l.ended < image.len() {
                    return Err(refusal_at(10, s));
                }
                return Ok(l);
            }
            Err(r) => return Err(r),
        }
    }
}

// Framing of an image of tables, a whole one or the one at the front: its runs of ID and PV records at once.
pub fn frame(image: &[u8], whole: bool) -> Result<Layout, Located>
    ensures { result ≡ frame_answer image.now (frame_as whole 2 image.now) }
{
    let kind = Kind::Tables.number();
    let s = frame_tasks(image, kind)?;
    let idles = run(image, s.offset, Mark::ID, image.len());
    let t = past(s, Mark::ID, idles, s.listed + idles, s.inversions);
    let inversions = run(image, t.offset, Mark::PV, image.len());
    let behind = past(t, Mark::PV, inversions, t.listed, t.inversions + inversions);
    frame_from(image, kind, whole, behind)
}

// A set's refusal located in the image that the set is read from: its place is the index of TS or of a task's TK.
pub fn set_refused(r: Refusal) -> Located
    requires { r.place ≤ 16 }
    ensures { result ≡ set_located r }
{
    let offset = if r.place == 0 {
        0
    } else {
        HEAD_SIZE + (r.place - 1) * TASK_SIZE
    };
    Located {
        number: r.number,
        place: r.place,
        offset,
    }
}

// The set of an image whose tasks are framed: its n tasks in the first n slots, the others zero.
pub fn read_set(image: &[u8], n: usize) -> TaskSet
    requires few { n ≤ 16 }
    requires inside { book_marks.head_length_of n ≤ length image.now }
    ensures { result ≡ set_read n image.now }
{
    let mut tasks = [NO_TASK; 16];
    let mut at = HEAD_SIZE;
    for i in 0..n {
        tasks[i] = images::read::<Task>(image, at);
        at += TASK_SIZE;
    }
    TaskSet { n: n as u32, tasks }
}
