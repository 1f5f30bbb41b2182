#![tactic(auto)]
// The types of the project: what document 01 speaks of, as the crates above pass it on. The rule book over them is in specs/.

// The largest number of 32 bits.
pub const LARGEST: u32 = 4294967295;

// A task: offset O, declared time C, period T, relative deadline D.
#[repr(C)]
#[derive(Clone, Copy)]
pub struct Task {
    pub offset: u32,
    pub time: u32,
    pub period: u32,
    pub deadline: u32,
}

// What stands in a slot without a task.
pub const NO_TASK: Task = Task {
    offset: 0,
    time: 0,
    period: 0,
    deadline: 0,
};

// A set of n tasks, in the first n slots.
#[repr(C)]
#[derive(Clone, Copy)]
pub struct TaskSet {
    pub n: u32,
    pub tasks: [Task; 16],
}

// The set beside a refusal: it has no task.
pub const NO_SET: TaskSet = TaskSet {
    n: 0,
    tasks: [NO_TASK; 16],
};

// An entry of a timetable.
#[derive(Clone, Copy)]
pub struct Entry {
    pub task: u32,
    pub start: u32,
}

// A forced idle, as an ID record holds it.
#[derive(Clone, Copy)]
pub struct Idle {
    pub start: u32,
    pub length: u32,
}

// An inversion, as a PV record holds it.
#[derive(Clone, Copy)]
pub struct Inversion {
    pub task: u32,
    pub job: u32,
    pub delay: u32,
}

// A refusal: its number and its place.
#[derive(Clone, Copy)]
pub struct Refusal {
    pub number: u32,
    pub place: usize,
}

// The refusal of an image, located in its bytes: its number, its place, and the byte offset of the record that the place names, 0 where it names none. Plain
// checking answers Result<(), Located>; deriving and rebuilding Result<usize, Located>, the length of what now fills the front of the output.
#[derive(Clone, Copy)]
pub struct Located {
    pub number: u32,
    pub place: usize,
    pub offset: usize,
}

// Number 0 stands for no refusal.
pub const NO_REFUSAL: Located = Located {
    number: 0,
    place: 0,
    offset: 0,
};

// A result or an input that is too long: it names no record.
pub const TOO_LONG: Located = Located {
    number: 20,
    place: 0,
    offset: 0,
};

// Where framing stands before a record: the record's index and byte offset, the least rank that it may have, TK records still due, and how many TK, SL or
// ID, and PV records there are so far.
#[derive(Clone, Copy)]
pub struct Place {
    pub index: usize,
    pub offset: usize,
    pub rank: usize,
    pub due: usize,
    pub tasks: usize,
    pub listed: usize,
    pub inversions: usize,
}

// What framing answers: how many TK records, SL or ID records, and PV records an image has, and the byte after EN.
#[derive(Clone, Copy)]
pub struct Layout {
    pub tasks: usize,
    pub listed: usize,
    pub inversions: usize,
    pub ended: usize,
}

// What a good set comes to: its hyperperiod and its jobs a cycle. Judging a set answers Result<Figures, Refusal>.
#[derive(Clone, Copy)]
pub struct Figures {
    pub hyperperiod: u32,
    pub jobs: u32,
}

// What is told of an axis: how many figures it has, and how many bytes its image. Measuring the image at the front answers Result<Axis, Located>.
#[derive(Clone, Copy)]
pub struct Axis {
    pub figures: usize,
    pub used: usize,
}

// An intake of fragments: shut, or open with so many bytes taken.
#[derive(Clone, Copy)]
pub enum Intake {
    Shut,
    Open(usize),
}

// A job that starts now: its cycle and absolute time. Beginning and going on answer Result<Start, Located>.
#[derive(Clone, Copy)]
pub struct Start {
    pub task: u32,
    pub job: u32,
    pub cycle: u32,
    pub time: u64,
}

// Byte offsets into the image: of the ID to be used next and, for each task, of its next PV.
#[repr(C)]
#[derive(Clone, Copy)]
pub struct Offsets {
    pub idle: u32,
    pub inversions: [u32; 16],
}

// The job that runs, with its start in the cycle.
#[repr(C)]
#[derive(Clone, Copy)]
pub struct Running {
    pub task: u32,
    pub job: u32,
    pub start: u32,
}

// The dispatcher's state, 119 numbers: the set, next job numbers, the cycle, the running job, offsets now and as at a cycle's start.
#[repr(C)]
#[derive(Clone, Copy)]
pub struct Dispatcher {
    pub set: TaskSet,
    pub next: [u32; 16],
    pub cycle: u32,
    pub running: Running,
    pub now: Offsets,
    pub first: Offsets,
}

// What a call of the dispatcher hands back: the answer, and the state beside it.
#[derive(Clone, Copy)]
pub struct Turn {
    pub answer: Result<Start, Located>,
    pub state: Dispatcher,
}
