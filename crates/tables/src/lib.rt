// Table images: framing, the set, records in turn, then replay and comparison in one pass through a cycle; and plain checking.
#![tactic(auto)]

ghost use Rattle.std.specs.Prelude.{◌≡◌};
ghost use Rattle.rules.specs.Tasks.{Set};
ghost use Rattle.rules.specs.Operations.{check_tables};
ghost use Rattle.tables.specs.Replayed.{Ended, unused_at, CanCompare};
ghost use Rattle.tables.specs.Judged.{SetStands, JudgedAs};

use decision::LAST_OFFSET;
use images::{IDLE_SIZE, INVERSION_SIZE};
use rules::{Layout, Located, Offsets, TaskSet};
use sets::Kept;

// 19 at the first ID record that is left, else at the first PV record that had no effect, with so many records before them all.
#[tactic(auto, unfolding(crate::specs::Replayed::unused_at))]
fn unused(before: usize, idles: usize, first: u32, idle: u32, wasted: u32) -> Result<(), Located>
    requires { Ended before idles first idle wasted }
    ensures { result ≡ unused_at before idles first idle wasted }
{
    let from = first as usize;
    let inversions = from + idles * IDLE_SIZE;
    if (idle as usize) < inversions {
        return Err(Located {
            number: 19,
            place: before + (idle as usize - from) / IDLE_SIZE,
            offset: idle as usize,
        });
    }
    if wasted < LAST_OFFSET {
        let behind = (wasted as usize - inversions) as u32;
        return Err(Located {
            number: 19,
            place: before + idles + (behind / INVERSION_SIZE as u32) as usize,
            offset: wasted as usize,
        });
    }
    Ok(())
}

// Replay through one cycle, refused with 18 at a start that would be late; then 19.
fn replay_fault(image: &[u8], kept: &Kept, idles: usize, first: Offsets) -> Result<(), Located>
    requires { (ts : Set) × CanCompare ts image.now kept.now idles first }
    ensures { result ≡ check_tables image.now }
{
    let before = images::head_count(kept.tasks as usize);
    let run = replay::cycle(image, kept, first, &mut []);
    let Ok(f) = run.last else {
        return Err(Located {
            number: 18,
            place: run.made,
            offset: 0,
        });
    };
    unused(before, idles, first.idle, f.idle, run.wasted)
}

// What an accepted table image holds: its set, and the offsets as at a cycle's start.
#[derive(Clone, Copy)]
pub struct Tables {
    pub set: TaskSet,
    pub first: Offsets,
}

// 17, 18 and 19 of a framed image with a good set.
fn judge_records(image: &[u8], set: TaskSet, kept: &Kept, l: Layout) -> Result<Tables, Located>
    requires { SetStands image.now set kept.now l }
    ensures { JudgedAs image.now result kept.now }
{
    records::judge_records(image, kept, l.listed, l.inversions)?;
    let n = set.n as usize;
    let first = records::first_offsets(image, n, l.listed, l.inversions);
    replay_fault(image, kept, l.listed, first)?;
    Ok(Tables { set, first })
}

// A table image judged. What is kept of its set is filled in where it is good.
pub fn judge(image: &[u8], kept: &mut Kept) -> Result<Tables, Located>
    ensures { JudgedAs image.now result kept.new }
{
    let l = framing::frame(image, true)?;
    let set = framing::read_set(image, l.tasks);
    sets::judge_set(set, kept).map_err(framing::set_refused)?;
    judge_records(image, set, kept, l)
}

// Plain checking of a table image.
#[tactic(auto, using(crate::proofs::ImagesJudged::refusal_answered, crate::proofs::ImagesJudged::acceptance_answered))]
pub fn check(image: &[u8]) -> Result<(), Located>
    ensures { result ≡ check_tables image.now }
{
    let mut kept = Kept::unfilled([0u32; 16]);
    judge(image, &mut kept)?;
    Ok(())
}
