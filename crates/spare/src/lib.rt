// Spare capacities: the intervals of a cycle walked backwards, and their capacities left in order of time in a lent array. No heap; memory beside the
// arguments is an array of 16.
#![tactic(auto)]

ghost use Rattle.std.specs.Prelude.{◌≡◌, ◌++◌, ◌-◌, ◌^◌, ◌≤◌, ◌<◌, length, drop};
ghost use Rattle.std.specs.Int.Signed.{mag};
ghost use Rattle.rules.specs.Tasks.{Set};
ghost use Rattle.rules.specs.Intervals as book;
ghost use Rattle.sets.specs.Kept.{tasks_in, hyperperiod_in, Keeps};
ghost use Rattle.spare.specs.Walking.{relative_in, LastDeadlines, last_of, Taken, Walks, SteppedBack, CanFill};

use sets::Kept;

// The relative deadline of task i.
fn relative_deadline(kept: &Kept, i: usize) -> u32
    requires a_set { (ts : Set) × Keeps ts kept.now }
    requires a_task { i < tasks_in kept.now }
    ensures { result ≡ relative_in kept.now i }
{
    kept.slack[i] + kept.times[i]
}

// The deadline of each task's last job of the cycle, in its slot.
fn last_deadlines(kept: &Kept) -> [u32; 16]
    requires { (ts : Set) × Keeps ts kept.now }
    ensures { LastDeadlines kept.now (tasks_in kept.now) result }
{
    let n = kept.tasks as usize;
    let h = kept.hyperperiod;
    let mut dues = [0u32; 16];
    for i in 0..n {
        dues[i] = h - kept.periods[i] + kept.first[i] + relative_deadline(kept, i);
    }
    dues
}

// The last deadline in the first n slots.
fn latest(n: usize, dues: &[u32; 16]) -> u32
    requires { n ≤ 16 }
    ensures { result ≡ last_of n dues.now }
{
    let mut last: u32 = 0;
    for due in &dues[..n] {
        last = last.max(*due);
    }
    last
}

// The deadline a period before another, 0 where that is a task's first.
fn a_period_before(due: u32, period: u32) -> u32
    ensures { result ≡ due - period }
{
    due.saturating_sub(period)
}

// Of the jobs due at an instant: their declared times together, and the longest of their relative deadlines.
#[derive(Clone, Copy)]
struct Due {
    work: u32,
    longest: u32,
}

// Takes the jobs due at an instant: the slots that hold it go back by a period.
fn take_due(kept: &Kept, dues: &mut [u32; 16], e: u32) -> Due
    requires a_set { (ts : Set) × Keeps ts kept.now }
    requires slots { length dues.old ≡ 16 }
    ensures { Taken kept.now dues.old e (tasks_in kept.now) result dues.new }
{
    let n = kept.tasks as usize;
    let mut work: u32 = 0;
    let mut longest: u32 = 0;
    for i in 0..n {
        if dues[i] == e {
            work += kept.times[i];
            longest = longest.max(relative_deadline(kept, i));
            dues[i] = a_period_before(e, kept.periods[i]);
        }
    }
    Due { work, longest }
}

// Where the walk stands: the last deadline not yet taken, and the begin of the interval taken last.
#[derive(Clone, Copy)]
struct Walk {
    end: u32,
    behind: u32,
}

// The declared times of the jobs in an interval, and where the walk stands before it.
#[derive(Clone, Copy)]
struct Step {
    work: u32,
    walk: Walk,
}

// The walk at the end of the cycle.
fn begin(kept: &Kept, dues: &[u32; 16]) -> Walk
    requires { tasks_in kept.now ≤ 16 }
    ensures { result ≡ record { end = last_of (tasks_in kept.now) dues.now; behind = hyperperiod_in kept.now } }
{
    let n = kept.tasks as usize;
    let h = kept.hyperperiod;
    let end = latest(n, dues);
    Walk { end, behind: h }
}

// A step back: over the stretch without jobs, where there is one, else over the interval that ends at the last deadline.
fn previous(kept: &Kept, dues: &mut [u32; 16], w: Walk) -> Step
    requires walks { (ts : Set) × Walks ts kept.now dues.old w }
    requires more { 0 < w.behind }
    ensures { (ts : Set) → Walks ts kept.now dues.old w →
        SteppedBack ts kept.now w result dues.new }
{
    if w.end < w.behind {
        let before = Walk {
            end: w.end,
            behind: w.end,
        };
        return Step {
            work: 0,
            walk: before,
        };
    }
    let due = take_due(kept, dues, w.end);
    let end = latest(kept.tasks as usize, dues);
    let before = Walk {
        end,
        behind: end.max(w.end - due.longest),
    };
    Step {
        work: due.work,
        walk: before,
    }
}

// How many intervals the cycle has.
pub fn count(kept: &Kept) -> usize
    requires { (ts : Set) × Keeps ts kept.now }
    ensures { (ts : Set) → Keeps ts kept.now → result ≡ length (book.spare ts (hyperperiod_in kept.now)) }
{
    let mut dues = last_deadlines(kept);
    let mut w = begin(kept, &dues);
    let mut many: usize = 0;
    while 0 < w.behind {
        w = previous(kept, &mut dues, w).walk;
        many += 1;
    }
    many
}

// What an interval takes from the one before it: its capacity where that is negative.
fn borrowed(next: i64) -> i64
    ensures { result ≡ book.borrowed next }
{
    next.min(0)
}

// An interval's capacity: its length minus declared times, plus what the next one borrows.
fn capacity(begin: u32, end: u32, work: u32, next: i64) -> i64
    requires forwards { begin ≤ end }
    requires small { mag next ≤ 2 ^ 62 }
    ensures { result ≡ book.capacity (record { begin = begin; end = end; work = work }) next }
{
    i64::from(end - begin) - i64::from(work) + borrowed(next)
}

// The capacities at the front of an output, in order of time: worked out and stored from the last interval to the first.
pub fn fill(kept: &Kept, many: usize, out: &mut [i64])
    requires { (ts : Set) × CanFill ts kept.now many out.old }
    ensures { (ts : Set) → Keeps ts kept.now →
        out.new ≡ book.spare ts (hyperperiod_in kept.now) ++ drop many out.old }
{
    let mut dues = last_deadlines(kept);
    let mut w = begin(kept, &dues);
    let mut next: i64 = 0;
    let mut at = many;
    while 0 < w.behind {
        let p = previous(kept, &mut dues, w);
        next = capacity(p.walk.behind, w.behind, p.work, next);
        at -= 1;
        out[at] = next;
        w = p.walk;
    }
}
