// Numbers in memory: a set's and a dispatcher's state's. What they stand for, and how they are stored.
#![tactic(auto)]

ghost use Rattle.std.specs.Prelude.{◌≡◌, [], ◌∷◌, ◌+◌, ◌≤◌, length};
ghost use Rattle.std.proofs.lemmas.List.Edits.{sets};
ghost use Rattle.rules.specs.Dispatcher as book;
ghost use Rattle.numbers.specs.Numbers.{task_from, set_from, numbers_from, offsets_from, state_from};

use rules::{Dispatcher, NO_TASK, Offsets, Running, Task, TaskSet};

// A set is n and so many numbers for each of sixteen tasks. A state begins with its set; behind it, one part behind the other, stand the next job numbers,
// the cycle, the running job, and the offsets, those as they stand and those as at a cycle's start.
pub const TASK_NUMBERS: usize = 4;

pub const SET_NUMBERS: usize = 1 + TASK_NUMBERS * 16;

pub const NEXT: usize = SET_NUMBERS;

pub const CYCLE: usize = NEXT + 16;

pub const TASK: usize = CYCLE + 1;

pub const JOB: usize = TASK + 1;

pub const START: usize = JOB + 1;

pub const IDLE: usize = START + 1;

pub const INVERSIONS: usize = IDLE + 1;

pub const FIRST_IDLE: usize = INVERSIONS + 16;

pub const FIRST_INVERSIONS: usize = FIRST_IDLE + 1;

pub const NUMBERS: usize = FIRST_INVERSIONS + 16;

// The task in the four numbers from a place on: O, C, T, D.
pub fn task_from(numbers: &[u32], at: usize) -> Task
    requires { at + 4 ≤ length numbers.now }
    ensures { result ≡ task_from numbers.now at }
{
    Task {
        offset: numbers[at],
        time: numbers[at + 1],
        period: numbers[at + 2],
        deadline: numbers[at + 3],
    }
}

// The set that the 64 numbers from a place on are.
fn set_from(n: u32, numbers: &[u32], at: usize) -> TaskSet
    requires { at + 64 ≤ length numbers.now }
    ensures { result ≡ set_from n numbers.now at }
{
    let mut tasks = [NO_TASK; 16];
    for (i, task) in tasks.iter_mut().enumerate() {
        *task = task_from(numbers, at + TASK_NUMBERS * i);
    }
    TaskSet { n, tasks }
}

// The sixteen numbers from a place on.
pub fn numbers_from(numbers: &[u32], at: usize) -> [u32; 16]
    requires { at + 16 ≤ length numbers.now }
    ensures { result ≡ numbers_from numbers.now at }
{
    let mut slots = [0u32; 16];
    for (k, slot) in slots.iter_mut().enumerate() {
        *slot = numbers[at + k];
    }
    slots
}

// The offsets that the seventeen numbers from a place on are.
fn offsets_from(numbers: &[u32], at: usize) -> Offsets
    requires { at + 17 ≤ length numbers.now }
    ensures { result ≡ offsets_from numbers.now at }
{
    let idle = numbers[at];
    let inversions = numbers_from(numbers, at + 1);
    Offsets { idle, inversions }
}

// The dispatcher's state that its numbers are.
pub fn state_from(numbers: &[u32; NUMBERS]) -> Dispatcher
    ensures { result ≡ state_from numbers.now }
{
    let running = Running {
        task: numbers[TASK],
        job: numbers[JOB],
        start: numbers[START],
    };
    let cycle = numbers[CYCLE];
    let set = set_from(numbers[0], numbers, 1);
    let next = numbers_from(numbers, NEXT);
    let now = offsets_from(numbers, IDLE);
    let first = offsets_from(numbers, FIRST_IDLE);
    Dispatcher {
        set,
        next,
        cycle,
        running,
        now,
        first,
    }
}

// Stores a task's numbers from a place on.
fn put_task(numbers: &mut [u32], at: usize, t: Task)
    requires { at + 4 ≤ length numbers.old }
    ensures { numbers.new ≡ sets numbers.old at (book.task_numbers (t ∷ [])) }
{
    numbers[at] = t.offset;
    numbers[at + 1] = t.time;
    numbers[at + 2] = t.period;
    numbers[at + 3] = t.deadline;
}

// Stores the numbers of a set's sixteen tasks from a place on.
pub fn put_tasks(numbers: &mut [u32], at: usize, s: TaskSet)
    requires { at + 64 ≤ length numbers.old }
    ensures { numbers.new ≡ sets numbers.old at (book.task_numbers s.tasks) }
{
    for (k, t) in s.tasks.iter().enumerate() {
        put_task(numbers, at + TASK_NUMBERS * k, *t);
    }
}

// Stores sixteen numbers from a place on.
fn put_numbers(numbers: &mut [u32; NUMBERS], at: usize, slots: [u32; 16])
    requires { at + 16 ≤ book.number_count }
    ensures { numbers.new ≡ sets numbers.old at slots }
{
    for (j, number) in slots.iter().enumerate() {
        numbers[at + j] = *number;
    }
}

// All numbers of the dispatcher's state, in their order: the state that they are is the same.
pub fn numbers_of(d: Dispatcher) -> [u32; NUMBERS]
    ensures numbers { result ≡ book.numbers d }
    ensures state { state_from result ≡ d }
{
    let mut numbers = [0u32; NUMBERS];
    let set = d.set;
    numbers[0] = set.n;
    put_tasks(&mut numbers, 1, set);
    let next = d.next;
    put_numbers(&mut numbers, NEXT, next);
    numbers[CYCLE] = d.cycle;
    numbers[TASK] = d.running.task;
    numbers[JOB] = d.running.job;
    numbers[START] = d.running.start;
    let now = d.now;
    numbers[IDLE] = now.idle;
    let inversions = now.inversions;
    put_numbers(&mut numbers, INVERSIONS, inversions);
    let first = d.first;
    numbers[FIRST_IDLE] = first.idle;
    let firsts = first.inversions;
    put_numbers(&mut numbers, FIRST_INVERSIONS, firsts);
    numbers
}
