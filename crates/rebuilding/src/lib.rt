// Rebuilding: the timetable image of a table image. The image is accepted first; a second replay writes the entries.
#![tactic(auto)]

ghost use Rattle.std.specs.Prelude.{◌≡◌, List};
ghost use Rattle.rules.specs.Tasks.{Set};
ghost use Rattle.rules.specs.declared.Entry as book_entry;
ghost use Rattle.rules.specs.Operations.{Rebuilds};
ghost use Rattle.sets.specs.Kept.{tasks_in, Keeps};
ghost use Rattle.rebuilding.specs.Rebuilt.{TimetableBehind, entries_put, CanPut};

use images::{END_SIZE, ENTRY_SIZE, End, HEAD_SIZE, Kind, TASK_SIZE, head_count, head_length};
use rules::{Located, Offsets, TOO_LONG};
use sets::Kept;

// The bytes of the longest timetable image: TS, 16 tasks, 4,096 entries, EN.
pub const LONGEST: usize = HEAD_SIZE + 16 * TASK_SIZE + 4096 * ENTRY_SIZE + END_SIZE;

// The entries of the rebuilt timetable, one behind the other behind the tasks.
pub fn put_entries(image: &[u8], kept: &Kept, first: Offsets, out: &mut [u8])
    requires { (ts : Set) × CanPut ts image.now kept.now first out.old }
    ensures { (ts : Set) (τ : List book_entry.Entry) → Keeps ts kept.now → TimetableBehind image.now ts first τ →
        out.new ≡ entries_put out.old (tasks_in kept.now) τ }
{
    let from = head_length(kept.tasks as usize);
    replay::cycle(image, kept, first, &mut out[from..]);
}

// Rebuilding: the timetable image of a table image at the front of the output, and nothing else changed.
pub fn rebuild(image: &[u8], out: &mut [u8]) -> Result<usize, Located>
    ensures { Rebuilds image.now out.old result out.new }
{
    let mut kept = Kept::unfilled([0u32; 16]);
    let t = tables::judge(image, &mut kept)?;
    let n = t.set.n as usize;
    let starts = kept.all_jobs as usize;
    let end = head_length(n) + starts * ENTRY_SIZE;
    let length = end + END_SIZE;
    if out.len() < length {
        return Err(TOO_LONG);
    }
    writing::put_set(out, Kind::Timetable.number(), t.set);
    put_entries(image, &kept, t.first, out);
    let before = (head_count(n) + starts) as u32;
    writing::put(out, end, End { before });
    Ok(length)
}
