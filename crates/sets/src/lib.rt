// Task sets judged: 5 to 9 in document 01's order, with the places that the set's records would have, and the rows that are kept of a good one. And what a
// good set is asked for: jobs of a task, releases and deadlines; with scans of the slots of its tasks. Exact for any 32-bit numbers: no sum or product wraps.
#![tactic(auto)]

ghost use Rattle.std.specs.Prelude.{◌≡◌, ◌+◌, max, ◌≤◌, length, take, nat_lt};
ghost use Rattle.std.specs.List.{position};
ghost use Rattle.rules.specs.Tasks as book;
ghost use Rattle.numbers.specs.Numbers.{tasks_from, set_from};
ghost use Rattle.sets.specs.Sets.{IsGreatestDivisor, MultipleTold, fault_answer, HasCycle, TicksTold, CycleTold, limited};
ghost use Rattle.sets.specs.Kept.{Keeps, JudgedKept};
ghost use Rattle.sets.specs.Scans.{least_of};

use numbers::TASK_NUMBERS;
use rules::{Figures, Refusal, Task, TaskSet};

// What is kept of a good set: how many tasks it has, its hyperperiod and the jobs of all tasks a cycle; and of each task, in its slot, the jobs a cycle, D − C,
// C, T and the release of its first job, which is O.
#[derive(Clone, Copy)]
pub struct Kept {
    pub tasks: u32,
    pub hyperperiod: u32,
    pub all_jobs: u32,
    pub jobs: [u32; 16],
    pub slack: [u32; 16],
    pub times: [u32; 16],
    pub periods: [u32; 16],
    pub first: [u32; 16],
}

impl Kept {
    // Of no set yet: numbers at hand stand in each row.
    pub fn unfilled(row: [u32; 16]) -> Kept
        ensures { result ≡ record { tasks = 0; hyperperiod = 0; all_jobs = 0; jobs = row; slack = row; times = row; periods = row; first = row } }
    {
        Kept {
            tasks: 0,
            hyperperiod: 0,
            all_jobs: 0,
            jobs: row,
            slack: row,
            times: row,
            periods: row,
            first: row,
        }
    }
}

// The instant at which job k of a task is released.
pub fn release(t: Task, k: u32) -> u64
    ensures { result ≡ book.release t k }
{
    u64::from(t.offset) + u64::from(k) * u64::from(t.period)
}

// The instant at which job k of a task is due.
pub fn due(t: Task, k: u32) -> u64
    ensures { result ≡ book.due t k }
{
    release(t, k) + u64::from(t.deadline)
}

// The jobs of a task in a cycle of h ticks.
pub fn jobs(h: u32, t: Task) -> u32
    ensures { result ≡ book.jobs h t }
{
    if t.period == 0 {
        return 0;
    }
    h / t.period
}

// A task's own rule.
fn keeps_its_rule(t: Task) -> bool
    ensures { result ≡ book.keeps_its_rule t }
{
    1 <= t.time
        && t.time <= t.deadline
        && t.deadline <= t.period
        && t.offset <= t.period - t.deadline
}

// The first n tasks judged one after the other, each by 6 and then by 7.
fn judge_tasks(n: usize, numbers: &[u32], at: usize) -> Result<(), Refusal>
    requires few { n ≤ 16 }
    requires inside { at + 64 ≤ length numbers.now }
    ensures { result ≡ fault_answer (book.tasks_fault 1 0 (tasks_from n numbers.now at)) }
{
    let mut before: u32 = 0;
    for i in 0..n {
        let t = numbers::task_from(numbers, at + TASK_NUMBERS * i);
        if !keeps_its_rule(t) {
            return Err(Refusal {
                number: 6,
                place: i + 1,
            });
        }
        if t.period < before {
            return Err(Refusal {
                number: 7,
                place: i + 1,
            });
        }
        before = t.period;
    }
    Ok(())
}

// The greatest common divisor of two numbers, by remainders.
fn common_divisor(t: u32, h: u32) -> u32
    ensures { IsGreatestDivisor t h result }
{
    let mut a = t;
    let mut b = h;
    while 0 < b {
        let r = a % b;
        a = b;
        b = r;
    }
    a
}

// The least common multiple of two numbers, where it is up to the limit.
fn common_multiple(t: u32, h: u32) -> Option<u32>
    requires period { 1 ≤ t }
    requires ticks { 1 ≤ h }
    requires short { h ≤ 65535 }
    ensures { MultipleTold t h result }
{
    if 65535 < t {
        return None;
    }
    let r = h % t;
    if r == 0 {
        return Some(h);
    }
    let m = t / common_divisor(t, r) * h;
    if 65535 < m {
        return None;
    }
    Some(m)
}

// The ticks of a cycle of the first n tasks, where 6, 7 and 8 pass them. One walk, from the last task to the first; a period is looked at once for tasks of it
// that stand together.
fn ticks(n: u32, numbers: &[u32], at: usize) -> Option<u32>
    requires some { 1 ≤ n }
    requires few { n ≤ 16 }
    requires inside { at + 64 ≤ length numbers.now }
    ensures { TicksTold (set_from n numbers.now at) result }
{
    let others = n - 1;
    let last = numbers::task_from(numbers, at + TASK_NUMBERS * (others as usize));
    if 65535 < last.period || !keeps_its_rule(last) {
        return None;
    }
    let mut after = last.period;
    let mut h = last.period;
    for i in (0..others).rev() {
        let t = numbers::task_from(numbers, at + TASK_NUMBERS * (i as usize));
        if !keeps_its_rule(t) {
            return None;
        }
        if t.period != after {
            if after < t.period {
                return None;
            }
            h = common_multiple(t.period, h)?;
            after = t.period;
        }
    }
    Some(h)
}

// The jobs of the first n tasks together, in a cycle of h ticks; divided once for tasks of one period that stand together.
fn all_jobs(h: u32, n: usize, numbers: &[u32], at: usize) -> u32
    requires few { n ≤ 16 }
    requires short { h ≤ 65535 }
    requires inside { at + 64 ≤ length numbers.now }
    ensures { result ≡ book.sum_of_jobs h (tasks_from n numbers.now at) }
{
    let mut sum: u32 = 0;
    let mut after: u32 = 0;
    let mut many: u32 = 0;
    for i in (0..n).rev() {
        let t = numbers::task_from(numbers, at + TASK_NUMBERS * i);
        if t.period != after {
            many = jobs(h, t);
            after = t.period;
        }
        sum += many;
    }
    sum
}

// The hyperperiod of the set that the 64 numbers from a place on are, or the first refusal of 5 to 8.
fn judge_cycle(n: u32, numbers: &[u32], at: usize) -> Result<u32, Refusal>
    requires { at + 64 ≤ length numbers.now }
    ensures { CycleTold (set_from n numbers.now at) result }
{
    if n < 1 || 16 < n {
        return Err(Refusal {
            number: 5,
            place: 0,
        });
    }
    if let Some(h) = ticks(n, numbers, at) {
        return Ok(h);
    }
    judge_tasks(n as usize, numbers, at)?;
    Err(Refusal {
        number: 8,
        place: 0,
    })
}

// The answer to a set that 5 to 8 pass, by its hyperperiod and its jobs a cycle: 9 where these are above the limit.
fn limited(h: u32, jobs: u32) -> Result<Figures, Refusal>
    ensures { result ≡ limited h jobs }
{
    if 4096 < jobs {
        return Err(Refusal {
            number: 9,
            place: 0,
        });
    }
    Ok(Figures {
        hyperperiod: h,
        jobs,
    })
}

// The set that the 64 numbers from a place on are, judged: its hyperperiod and its jobs a cycle, or the first refusal of 5 to 9.
pub fn judge_numbers(n: u32, numbers: &[u32], at: usize) -> Result<Figures, Refusal>
    requires { at + 64 ≤ length numbers.now }
    ensures { result ≡ book.judge_set (set_from n numbers.now at) }
{
    let h = judge_cycle(n, numbers, at)?;
    limited(h, all_jobs(h, n as usize, numbers, at))
}

// Fills what is kept of a set of n tasks with a cycle of h ticks, and answers the jobs of all its tasks; divided once for tasks of one period that stand
// together.
fn keep(h: u32, n: usize, numbers: &[u32], at: usize, kept: &mut Kept) -> u32
    requires cycle { HasCycle (set_from n numbers.now at) h }
    requires inside { at + 64 ≤ length numbers.now }
    ensures jobs { result ≡ book.sum_of_jobs h (tasks_from n numbers.now at) }
    ensures filled { book.GoodSet (book.memory_set (set_from n numbers.now at)) h →
        Keeps (book.memory_set (set_from n numbers.now at)) kept.new }
{
    let mut all: u32 = 0;
    let mut after: u32 = 0;
    let mut many: u32 = 0;
    for k in (0..n as u32).rev() {
        let i = k as usize;
        let t = numbers::task_from(numbers, at + TASK_NUMBERS * i);
        if t.period != after {
            many = jobs(h, t);
            after = t.period;
        }
        kept.jobs[i] = many;
        kept.slack[i] = t.deadline - t.time;
        kept.times[i] = t.time;
        kept.periods[i] = t.period;
        kept.first[i] = t.offset;
        all += many;
    }
    kept.tasks = n as u32;
    kept.hyperperiod = h;
    kept.all_jobs = all;
    all
}

// The set that the 64 numbers from a place on are, judged as by judge_numbers; where it is good, what is kept of it is filled.
pub fn judge_kept(n: u32, numbers: &[u32], at: usize, kept: &mut Kept) -> Result<Figures, Refusal>
    requires inside { at + 64 ≤ length numbers.now }
    ensures { JudgedKept (set_from n numbers.now at) result kept.new }
{
    let h = judge_cycle(n, numbers, at)?;
    limited(h, keep(h, n as usize, numbers, at, kept))
}

// A set in memory judged; where it is good, what is kept of it is filled.
pub fn judge_set(s: TaskSet, kept: &mut Kept) -> Result<Figures, Refusal>
    ensures { JudgedKept s result kept.new }
{
    let mut numbers = [0u32; 64];
    numbers::put_tasks(&mut numbers, 0, s);
    judge_kept(s.n, &numbers, 0, kept)
}

// The lowest of n tasks whose next release is before the end of the cycle.
pub fn missing(n: usize, h: u32, release: &[u32; 16]) -> Option<usize>
    requires { n ≤ 16 }
    ensures { result ≡ position (λ r. nat_lt r h) (take n release.now) }
{
    for (i, r) in release[..n].iter().enumerate() {
        if *r < h {
            return Some(i);
        }
    }
    None
}

// The least of n numbers and a bound.
pub fn least(n: usize, bound: u32, numbers: &[u32; 16]) -> u32
    requires { n ≤ 16 }
    ensures { result ≡ least_of n bound numbers.now }
{
    let mut least = bound;
    for i in 0..n as u32 {
        least = least.min(numbers[i as usize]);
    }
    least
}

// The later of two instants.
pub fn later(a: u32, b: u32) -> u32
    ensures { result ≡ max a b }
{
    a.max(b)
}
