// The dispatcher: beginning and going on, with the state as the numbers that it lies in memory as, by value, and in place. For any bytes, any state and any
// reported end. Every start, the first one, one in a cycle and one as a cycle begins, is looked for and stored in one place.
#![tactic(auto)]

ghost use Rattle.std.specs.Prelude.{◌≡◌, ◌+◌, ◌*◌, ◌≤◌, ◌<◌, length, Err};
ghost use Rattle.rules.specs.Refusals.{refusal, of_no_image};
ghost use Rattle.rules.specs.Dispatcher as book;
ghost use Rattle.numbers.specs.Numbers.{number_at, state_from};
ghost use Rattle.sets.specs.Kept.{tasks_in};
ghost use Rattle.dispatcher.specs.Stored.{fresh_state, in_next_cycle, with_start, start_from, TurnStored};
ghost use Rattle.dispatcher.specs.Tested.{last_and_in_time, running_task, AllStarted};
ghost use Rattle.dispatcher.specs.Turns.{Begun, GoneOn, BegunInPlace, GoneOnInPlace, BegunNumbers, GoneOnNumbers};
ghost use Rattle.dispatcher.specs.States.{WithGoodSet, CanMeasure, Measured, CanGoOn, CanStart};

use decision::{Found, Front, Standing};
use numbers::{
    CYCLE, FIRST_IDLE, FIRST_INVERSIONS, IDLE, INVERSIONS, JOB, NEXT, NUMBERS, START, TASK,
    TASK_NUMBERS,
};
use rules::{Dispatcher, LARGEST, Located, Offsets, Running, Start, Task, TaskSet, Turn};
use sets::Kept;

// The last cycle.
const LAST_CYCLE: u32 = LARGEST;

// Are all numbers of a state 0? A state with a task is seen at once not to be stopped.
fn is_stopped(numbers: &[u32]) -> bool
    requires { length numbers.now ≡ book.number_count }
    ensures { result ≡ book.is_stopped (state_from numbers.now) }
{
    for i in 0..NUMBERS as u32 {
        if numbers[i as usize] != 0 {
            return false;
        }
    }
    true
}

// A refusal of going on: it names no record.
fn refusal(number: u32) -> Located
    ensures { result ≡ of_no_image (refusal number 0) }
{
    Located {
        number,
        place: 0,
        offset: 0,
    }
}

// A refusal that stops: all numbers of the state are 0 then.
fn stop(numbers: &mut [u32; NUMBERS], r: Located) -> Result<Start, Located>
    ensures { TurnStored (book.refused r book.stopped) result numbers.new }
{
    *numbers = [0u32; NUMBERS];
    Err(r)
}

// The absolute time of an instant in a cycle of h ticks.
fn absolute(cycle: u32, h: u32, at: u32) -> u64
    ensures { result ≡ cycle * h + at }
{
    u64::from(cycle) * u64::from(h) + u64::from(at)
}

// Stores the start of a task's next job.
fn store_start(numbers: &mut [u32; NUMBERS], f: Found)
    requires slot { f.task < 16 }
    requires next { number_at numbers.old (book.next_position + f.task) < book.last_cycle }
    requires long { length numbers.old ≡ book.number_count }
    ensures state { state_from numbers.new ≡ with_start (state_from numbers.old) f }
    ensures long { length numbers.new ≡ book.number_count }
{
    let i = f.task as usize;
    let job = numbers[NEXT + i];
    numbers[NEXT + i] = job + 1;
    numbers[TASK] = f.task;
    numbers[JOB] = job;
    numbers[START] = f.start;
    numbers[IDLE] = f.idle;
    numbers[INVERSIONS + i] = f.inversion;
}

// The next start in the state's cycle, from a free instant, and the state with it; 25 where there is none.
fn start_next(
    image: &[u8],
    numbers: &mut [u32; NUMBERS],
    kept: &Kept,
    release: &[u32; 16],
    free: u32,
) -> Result<Start, Located>
    requires { CanStart numbers.old kept.now release.now free }
    ensures { TurnStored (start_from image.now (state_from numbers.old) free) result numbers.new }
{
    let front = Front {
        free,
        idle: numbers[IDLE],
    };
    let next = numbers::numbers_from(numbers, NEXT);
    let release = numbers::numbers_from(release, 0);
    let offsets = numbers::numbers_from(numbers, INVERSIONS);
    let mut at = Standing {
        next,
        release,
        offsets,
    };
    let Ok(f) = replay::one_start(image, kept, &mut at, front) else {
        return stop(numbers, refusal(25));
    };
    store_start(numbers, f);
    let cycle = numbers[CYCLE];
    Ok(Start {
        task: f.task,
        job: numbers[JOB],
        cycle,
        time: absolute(cycle, kept.hyperperiod, f.start),
    })
}

// Begins the next cycle: next jobs 0 and offsets as at a cycle's start, of the n tasks; slots from n up stay.
fn begin_again(numbers: &mut [u32; NUMBERS], n: usize)
    requires few { n ≤ 16 }
    requires another { number_at numbers.old book.cycle_position < book.last_cycle }
    requires long { length numbers.old ≡ book.number_count }
    ensures state { state_from numbers.new ≡ in_next_cycle (state_from numbers.old) n }
    ensures long { length numbers.new ≡ book.number_count }
{
    numbers[CYCLE] += 1;
    numbers[IDLE] = numbers[FIRST_IDLE];
    for i in 0..n {
        numbers[NEXT + i] = 0;
        numbers[INVERSIONS + i] = numbers[FIRST_INVERSIONS + i];
    }
}

// Have all jobs of the cycle started: is no next release before its end?
fn all_started(kept: &Kept, release: &[u32; 16]) -> bool
    requires { tasks_in kept.now ≤ 16 }
    ensures { AllStarted kept.now release.now result }
{
    let n = kept.tasks as usize;
    sets::missing(n, kept.hyperperiod, release).is_none()
}

// The next job of this cycle, from a free instant, or, when all have started, the first of the next; 24 behind the last cycle.
fn next_turn(
    image: &[u8],
    numbers: &mut [u32; NUMBERS],
    kept: &Kept,
    release: &[u32; 16],
    free: u32,
) -> Result<Start, Located>
    requires { CanGoOn numbers.old kept.now release.now free }
    ensures { TurnStored (book.next_turn image.now (state_from numbers.old)) result numbers.new }
{
    let (release, from) = if all_started(kept, release) {
        if LAST_CYCLE <= numbers[CYCLE] {
            return Err(refusal(24));
        }
        begin_again(numbers, kept.tasks as usize);
        (&kept.first, 0)
    } else {
        (release, free)
    };
    start_next(image, numbers, kept, release, from)
}

// Is a job of a task the last one started, with the task's next job number; released when it started, and in time?
fn last_and_in_time(t: Task, next: u32, r: Running) -> bool
    ensures { result ≡ last_and_in_time t next r }
{
    u64::from(next) == u64::from(r.job) + 1
        && sets::release(t, r.job) <= u64::from(r.start)
        && u64::from(r.start) + u64::from(t.time) <= sets::due(t, r.job)
}

// The running job's task; none where it is not below n, or the job is not its last one started, or was not released when it started, or not in time.
fn running_task(numbers: &[u32; NUMBERS]) -> Option<Task>
    requires few { (state_from numbers.now).set.n ≤ 16 }
    ensures { result ≡ running_task (state_from numbers.now) }
{
    let running = Running {
        task: numbers[TASK],
        job: numbers[JOB],
        start: numbers[START],
    };
    if numbers[0] <= running.task {
        return None;
    }
    let i = running.task as usize;
    let t = numbers::task_from(numbers, 1 + TASK_NUMBERS * i);
    last_and_in_time(t, numbers[NEXT + i], running).then_some(t)
}

// The release of each task's next job. False where a next job number is above its task's jobs; then the releases are left as they came to be.
fn measured(numbers: &[u32; NUMBERS], kept: &Kept, release: &mut [u32; 16]) -> bool
    requires { CanMeasure numbers.now kept.now release.old }
    ensures { Measured numbers.now kept.now result release.new }
{
    for k in 0..kept.tasks {
        let i = k as usize;
        let next = numbers[NEXT + i];
        if kept.jobs[i] < next {
            return false;
        }
        release[i] = kept.first[i] + next * kept.periods[i];
    }
    true
}

// Going on with a state that is not stopped and whose set is good.
fn go_on_good(
    image: &[u8],
    numbers: &mut [u32; NUMBERS],
    kept: &Kept,
    end: u64,
) -> Result<Start, Located>
    requires { WithGoodSet numbers.old kept.now }
    ensures { GoneOnNumbers image.now numbers.old end result numbers.new }
{
    let mut release = numbers::numbers_from(numbers, NEXT);
    if !measured(numbers, kept, &mut release) {
        return stop(numbers, refusal(25));
    }
    let Some(t) = running_task(numbers) else {
        return stop(numbers, refusal(25));
    };
    let start = numbers[START];
    let began = absolute(numbers[CYCLE], kept.hyperperiod, start);
    if end < began {
        return Err(refusal(21));
    }
    if u64::from(t.time) < end - began {
        return stop(numbers, refusal(22));
    }
    next_turn(image, numbers, kept, &release, start + t.time)
}

// Going on with a state's numbers, in the order 23, 25 for the state, 21, 22, 24, 25 for bytes. Those are stored that change. Rows that are to be filled begin
// as copies of one that is at hand: a drive's processor copies a few numbers in fewer instructions than a call takes that clears them.
pub fn go_on_numbers(image: &[u8], numbers: &mut [u32; NUMBERS], end: u64) -> Result<Start, Located>
    ensures { GoneOnNumbers image.now numbers.old end result numbers.new }
{
    if is_stopped(numbers) {
        return Err(refusal(23));
    }
    let row = numbers::numbers_from(numbers, NEXT);
    let mut kept = Kept::unfilled(row);
    if sets::judge_kept(numbers[0], numbers, 1, &mut kept).is_err() {
        return stop(numbers, refusal(25));
    }
    go_on_good(image, numbers, &kept, end)
}

// Going on, with the state handed in and back by value.
pub fn go_on(image: &[u8], d: Dispatcher, end: u64) -> Turn
    ensures { GoneOn image.now d end result }
{
    let mut numbers = numbers::numbers_of(d);
    let answer = go_on_numbers(image, &mut numbers, end);
    let state = numbers::state_from(&numbers);
    Turn { answer, state }
}

// The state from which the first start of a set is made.
fn fresh(set: TaskSet, first: Offsets) -> Dispatcher
    ensures { result ≡ fresh_state set first }
{
    let running = Running {
        task: 0,
        job: 0,
        start: 0,
    };
    Dispatcher {
        set,
        next: [0u32; 16],
        cycle: 0,
        running,
        now: first,
        first,
    }
}

// Beginning, into numbers: full acceptance, then the first start; a refused beginning leaves the stopped state.
pub fn begin_numbers(image: &[u8], numbers: &mut [u32; NUMBERS]) -> Result<Start, Located>
    ensures { BegunNumbers image.now result numbers.new }
{
    let mut kept = Kept::unfilled([0u32; 16]);
    let t = match tables::judge(image, &mut kept) {
        Ok(t) => t,
        Err(r) => return stop(numbers, r),
    };
    *numbers = numbers::numbers_of(fresh(t.set, t.first));
    start_next(image, numbers, &kept, &kept.first, 0)
}

// Beginning, with the state handed back by value.
pub fn begin(image: &[u8]) -> Turn
    ensures { Begun image.now result }
{
    let mut numbers = [0u32; NUMBERS];
    let answer = begin_numbers(image, &mut numbers);
    let state = numbers::state_from(&numbers);
    Turn { answer, state }
}

// Going on in place: the state behind the reference becomes the one that going on hands back.
pub fn go_on_in_place(image: &[u8], d: &mut Dispatcher, end: u64) -> Result<Start, Located>
    ensures { GoneOnInPlace image.now d.old end result d.new }
{
    let turn = go_on(image, *d, end);
    *d = turn.state;
    turn.answer
}

// Beginning in place: the state behind the reference becomes the one that beginning hands back, whatever it was.
pub fn begin_in_place(image: &[u8], d: &mut Dispatcher) -> Result<Start, Located>
    ensures { BegunInPlace image.now result d.new }
{
    let begun = begin(image);
    *d = begun.state;
    begun.answer
}
