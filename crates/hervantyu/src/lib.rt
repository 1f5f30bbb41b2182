// The C face: the names of include/hervantyu.h, over the proved crates. Each function returns the refusal's number, 0 where there is none, and stores its
// place, and for an image the record's byte offset behind it, where they are lent; on a refusal nothing else that was lent changes, but for the dispatcher's
// state and the intake's.
#![tactic(auto)]

ghost use Rattle.std.specs.Prelude.{◌≡◌, List, ℕ};
ghost use Rattle.rules.specs.Refusals.{tells_refusal, answer_tells};
ghost use Rattle.rules.specs.declared.Intake.TheVariants as book_intake;
ghost use Rattle.rules.specs.Intake.{intake_from, intake_numbers};
ghost use Rattle.hervantyu.specs.Lent.{location_of, SetJudged, AnswerTold, TimetableChecked, TablesChecked, MakeTold, Derived, Rebuilt};
ghost use Rattle.hervantyu.specs.Lent.{AxisTold, Figured};
ghost use Rattle.hervantyu.specs.Lent.{IntakeBegun, FragmentTaken, IntakeClosed, IntakeRebuilt, StartTold, Begun, GoneOn};

use numbers::NUMBERS;
use rules::{Axis, Intake, Located, Start, TOO_LONG};

#[unsafe(no_mangle)]
pub extern "C" fn hv_judge_set(
    n: u32,
    tasks: &[u32; 64],
    place: &mut u64,
    hyperperiod: &mut u32,
    jobs: &mut u32,
) -> u32
    ensures { SetJudged n tasks.now hyperperiod.old jobs.old result place.new hyperperiod.new jobs.new }
{
    match sets::judge_numbers(n, tasks, 0) {
        Ok(f) => {
            *place = 0;
            *hyperperiod = f.hyperperiod;
            *jobs = f.jobs;
            0
        }
        Err(r) => {
            *place = r.place as u64;
            r.number
        }
    }
}

// The place and the byte offset of a refusal.
fn located(r: Located) -> [u64; 2]
    ensures { result ≡ location_of (tells_refusal r) }
{
    [r.place as u64, r.offset as u64]
}

// The place and the byte offset of what an operation on an image refused, 0 and 0 where it refused nothing.
fn location_in<T: Copy>(answer: Result<T, Located>) -> [u64; 2]
    ensures { (values : T → List ℕ) → result ≡ location_of (answer_tells values answer) }
{
    match answer {
        Ok(_) => [0u64; 2],
        Err(r) => located(r),
    }
}

// The number of what it refused, 0 where it refused nothing.
fn number_in<T: Copy>(answer: Result<T, Located>) -> u32
    ensures { (values : T → List ℕ) → result ≡ (answer_tells values answer).number }
{
    match answer {
        Ok(_) => 0,
        Err(r) => r.number,
    }
}

// What it answered, told through the location.
fn told<T: Copy>(answer: Result<T, Located>, location: &mut [u64; 2]) -> u32
    ensures { (values : T → List ℕ) → AnswerTold values answer result location.new }
{
    *location = location_in(answer);
    number_in(answer)
}

#[unsafe(no_mangle)]
pub extern "C" fn hv_check_timetable(image: &[u8], location: &mut [u64; 2]) -> u32
    ensures { TimetableChecked image.now result location.new }
{
    told(timetables::check(image), location)
}

#[unsafe(no_mangle)]
pub extern "C" fn hv_check_tables(image: &[u8], location: &mut [u64; 2]) -> u32
    ensures { TablesChecked image.now result location.new }
{
    told(tables::check(image), location)
}

// What deriving or rebuilding answered, told through the location and the length.
fn told_make(answer: Result<usize, Located>, location: &mut [u64; 2], length: &mut u64) -> u32
    ensures { MakeTold answer length.old result location.new length.new }
{
    let number = told(answer, location);
    if let Ok(n) = answer {
        *length = n as u64;
    }
    number
}

#[unsafe(no_mangle)]
pub extern "C" fn hv_derive(
    image: &[u8],
    out: &mut [u8],
    location: &mut [u64; 2],
    length: &mut u64,
) -> u32
    ensures { Derived image.now out.old length.old result location.new length.new out.new }
{
    told_make(derivation::derive(image, out), location, length)
}

#[unsafe(no_mangle)]
pub extern "C" fn hv_rebuild(
    image: &[u8],
    out: &mut [u8],
    location: &mut [u64; 2],
    length: &mut u64,
) -> u32
    ensures { Rebuilt image.now out.old length.old result location.new length.new out.new }
{
    told_make(rebuilding::rebuild(image, out), location, length)
}

// The intake that two numbers are.
fn intake_from(numbers: &[u64; 2]) -> Intake
    ensures { result ≡ intake_from numbers.now }
{
    if numbers[0] == 1 {
        return Intake::Open(numbers[1] as usize);
    }
    Intake::Shut
}

// The two numbers that an intake is.
fn intake_numbers(k: Intake) -> [u64; 2]
    ensures { result ≡ intake_numbers k }
{
    match k {
        Intake::Shut => [0u64; 2],
        Intake::Open(count) => [1, count as u64],
    }
}

// Shuts an intake's two numbers. What it answers is the intake that they were.
fn shut(k: &mut [u64; 2]) -> Intake
    ensures before { result ≡ intake_from k.old }
    ensures after { k.new ≡ intake_numbers book_intake.Shut }
{
    let before = intake_from(k);
    *k = intake_numbers(Intake::Shut);
    before
}

#[unsafe(no_mangle)]
pub extern "C" fn hv_intake_begin(k: &mut [u64; 2])
    ensures { IntakeBegun k.new }
{
    *k = intake_numbers(intake::begin());
}

#[unsafe(no_mangle)]
pub extern "C" fn hv_intake_take(k: &mut [u64; 2], buffer: &mut [u8], fragment: &[u8]) -> u32
    ensures { FragmentTaken k.old buffer.old fragment.now result k.new buffer.new }
{
    let after = intake::take(intake_from(k), buffer, fragment);
    *k = intake_numbers(after);
    match after {
        Intake::Shut => TOO_LONG.number,
        Intake::Open(_) => 0,
    }
}

#[unsafe(no_mangle)]
pub extern "C" fn hv_intake_close(
    k: &mut [u64; 2],
    buffer: &[u8],
    location: &mut [u64; 2],
    length: &mut u64,
) -> u32
    ensures { IntakeClosed k.old buffer.now length.old result location.new length.new k.new }
{
    told_make(intake::close(shut(k), buffer), location, length)
}

#[unsafe(no_mangle)]
pub extern "C" fn hv_intake_rebuild(
    k: &mut [u64; 2],
    buffer: &[u8],
    out: &mut [u8],
    location: &mut [u64; 2],
    length: &mut u64,
) -> u32
    ensures { IntakeRebuilt k.old buffer.now out.old length.old result location.new length.new out.new k.new }
{
    told_make(intake::rebuild(shut(k), buffer, out), location, length)
}

// What measuring answered, told through the location, the count of figures and the bytes used.
fn told_axis(
    answer: Result<Axis, Located>,
    location: &mut [u64; 2],
    count: &mut u64,
    used: &mut u64,
) -> u32
    ensures { AxisTold answer count.old used.old result location.new count.new used.new }
{
    let number = told(answer, location);
    if let Ok(a) = answer {
        *count = a.figures as u64;
        *used = a.used as u64;
    }
    number
}

#[unsafe(no_mangle)]
pub extern "C" fn hv_figures(
    images: &[u8],
    numbers: &mut [i64],
    location: &mut [u64; 2],
    count: &mut u64,
    used: &mut u64,
) -> u32
    ensures { Figured images.now numbers.old count.old used.old result location.new count.new used.new numbers.new }
{
    told_axis(figures::measure(images, numbers), location, count, used)
}

// What beginning or going on answered, told through the start.
fn told_start(answer: Result<Start, Located>, start: &mut [u64; 4]) -> u32
    ensures { StartTold answer start.old result start.new }
{
    if let Ok(s) = answer {
        *start = [
            u64::from(s.task),
            u64::from(s.job),
            u64::from(s.cycle),
            s.time,
        ];
    }
    number_in(answer)
}

#[unsafe(no_mangle)]
pub extern "C" fn hv_begin(
    d: &mut [u32; NUMBERS],
    image: &[u8],
    start: &mut [u64; 4],
    location: &mut [u64; 2],
) -> u32
    ensures { Begun image.now start.old result location.new start.new d.new }
{
    let begun = dispatcher::begin_numbers(image, d);
    *location = location_in(begun);
    told_start(begun, start)
}

#[unsafe(no_mangle)]
pub extern "C" fn hv_go_on(
    d: &mut [u32; NUMBERS],
    image: &[u8],
    end: u64,
    start: &mut [u64; 4],
) -> u32
    ensures { GoneOn image.now d.old end start.old result start.new d.new }
{
    told_start(dispatcher::go_on_numbers(image, d, end), start)
}
