// The next start: document 01's decision rule at byte offsets, for replay and for the dispatcher alike. Records are read by the table of marks and
// the body readers that framing has.
#![tactic(auto)]

ghost use Rattle.std.specs.Prelude.{◌≡◌, true, ℕ, ◌+◌, min, ◌≤◌, ◌<◌, length};
ghost use Rattle.std.specs.Int.Count.{count_trailing_zeros};
ghost use Rattle.rules.specs.Tasks.{Set};
ghost use Rattle.rules.specs.Marks as book_marks;
ghost use Rattle.rules.specs.Offsets.{last_offset, lent, readable, tasks_readable, own_delay};
ghost use Rattle.images.specs.Table.{mark_of};
ghost use Rattle.sets.specs.declared.Kept.{Kept};
ghost use Rattle.sets.specs.Kept.{tasks_in, hyperperiod_in, Keeps};
ghost use Rattle.decision.specs.Fits.{Stands};
ghost use Rattle.decision.specs.Shown.{whole_at, shown_case, read_case, delay_case, has_delay};
ghost use Rattle.decision.specs.Waiting.{mask_of, come_by, set_bit, clear_bit};
ghost use Rattle.decision.specs.declared.Stuck.TheVariants as stuck;
ghost use Rattle.decision.specs.Next.{IdlesRead, AllRead, numbered, next_from, FindsNext, past_if, Choosing, IsChosen, StartsAt, Idling, IdledTo};

use images::{IDLE_SIZE, INVERSION_SIZE, Mark, ROWS};
use records::{idle_at, idle_keeps, inversion_at, inversion_keeps};
use rules::{Idle, Inversion, LARGEST};
use sets::Kept;

// Where replay stands: in the slot of each task the number of its next job, that job's release and the task's offset.
#[derive(Clone, Copy)]
pub struct Standing {
    pub next: [u32; 16],
    pub release: [u32; 16],
    pub offsets: [u32; 16],
}

// How far replay has come: the instant from which the processor is free, and the ID offset.
#[derive(Clone, Copy)]
pub struct Front {
    pub free: u32,
    pub idle: u32,
}

// The last offset: every record ends at or before this byte, so none begins there.
pub const LAST_OFFSET: u32 = LARGEST;

// The byte at or before which a record must end: the end of the image, or the largest offset.
fn readable_to(image: &[u8]) -> u32
    ensures { result ≡ min (length image.now) last_offset }
{
    if image.len() < (LAST_OFFSET as usize) {
        return image.len() as u32;
    }
    LAST_OFFSET
}

// Does a whole record with a mark stand at an offset?
fn whole(image: &[u8], o: u32, mark: Mark) -> bool
    ensures { result ≡ whole_at image.now o (mark_of mark) }
{
    let to = readable_to(image);
    let size = mark.size() as u32;
    if to < size || to - size < o {
        return false;
    }
    images::marked(image, o as usize, mark)
}

// Nothing that may stand at an offset stands there.
#[derive(Clone, Copy)]
pub struct Unreadable;

// The idle record that an ID offset which can be read shows. There stands an ID, PV or EN, and the first byte tells an ID from the others.
fn idle_judged(image: &[u8], o: u32) -> Option<Idle>
    requires { (ts : Set) × (readable ((lent image.now ts).idle_shown o) ≡ true) }
    ensures { (ts : Set) → readable ((lent image.now ts).idle_shown o) ≡ true →
        Ok result ≡ shown_case ((lent image.now ts).idle_shown o) }
{
    let at = o as usize;
    if image[at] != ROWS[Mark::ID as usize].first {
        return None;
    }
    Some(idle_at(image, at))
}

// The idle record that the ID offset shows. At the ID offset stands a whole ID, PV or EN; a record outside its own range is unreadable. Where the image's
// records were judged and the offset stands among them, it can be read, and the first byte tells.
fn idle_shown(image: &[u8], judged: bool, kept: &Kept, o: u32) -> Result<Option<Idle>, Unreadable>
    requires few { tasks_in kept.now ≤ 16 }
    requires read { judged ≡ true → ((ts : Set) × Keeps ts kept.now × (readable ((lent image.now ts).idle_shown o) ≡ true)) }
    ensures { (ts : Set) → Keeps ts kept.now → result ≡ shown_case ((lent image.now ts).idle_shown o) }
{
    if judged {
        return Ok(idle_judged(image, o));
    }
    let at = o as usize;
    if whole(image, o, Mark::ID) {
        let r = idle_at(image, at);
        if idle_keeps(kept.hyperperiod, r) {
            return Ok(Some(r));
        }
        return Err(Unreadable);
    }
    if whole(image, o, Mark::PV) {
        let r = inversion_at(image, at);
        if inversion_keeps(kept, r) {
            return Ok(None);
        }
        return Err(Unreadable);
    }
    if whole(image, o, Mark::EN) {
        return Ok(None);
    }
    Err(Unreadable)
}

// The inversion record that a task's offset shows. There stands a whole PV or EN.
fn inversion_shown(image: &[u8], kept: &Kept, offset: u32) -> Result<Option<Inversion>, Unreadable>
    requires { tasks_in kept.now ≤ 16 }
    ensures { (ts : Set) → Keeps ts kept.now →
        result ≡ shown_case ((lent image.now ts).inversion_shown offset) }
{
    let at = offset as usize;
    if whole(image, offset, Mark::PV) {
        let r = inversion_at(image, at);
        if inversion_keeps(kept, r) {
            return Ok(Some(r));
        }
        return Err(Unreadable);
    }
    if whole(image, offset, Mark::EN) {
        return Ok(None);
    }
    Err(Unreadable)
}

// All tasks' offsets can be read. They are the same at every decision on the way to one start: idling moves the ID offset alone. Where the image's
// records were judged and the offsets stand among them, they can be.
fn read_tasks(
    image: &[u8],
    judged: bool,
    kept: &Kept,
    offsets: &[u32; 16],
) -> Result<(), Unreadable>
    requires few { tasks_in kept.now ≤ 16 }
    requires read { judged ≡ true → ((ts : Set) × Keeps ts kept.now
        × (tasks_readable (lent image.now ts) (tasks_in kept.now) offsets.now ≡ true)) }
    ensures { (ts : Set) → Keeps ts kept.now →
        result ≡ read_case (tasks_readable (lent image.now ts) (tasks_in kept.now) offsets.now) }
{
    if judged {
        return Ok(());
    }
    for i in 0..kept.tasks {
        inversion_shown(image, kept, offsets[i as usize])?;
    }
    Ok(())
}

// Waiting tasks are one bit each: a release sets it.
fn with_released(mask: u16, i: u32) -> u16
    requires { i < 16 }
    ensures { result ≡ set_bit mask i }
{
    mask | (1u16 << i)
}

// A start clears it.
fn without_started(mask: u16, i: u32) -> u16
    requires { i < 16 }
    ensures { result ≡ clear_bit mask i }
{
    mask & !(1u16 << i)
}

// The lowest bit that is set is cleared.
fn without_lowest(mask: u16) -> u16
    requires { 1 ≤ mask }
    ensures { result ≡ clear_bit mask (count_trailing_zeros 16 mask) }
{
    mask & (mask - 1)
}

// The lowest bit that is set, 16 where none is.
fn lowest(mask: u16) -> u32
    ensures { result ≡ count_trailing_zeros 16 mask }
{
    u16::trailing_zeros(mask)
}

// The tasks of n that wait at an instant.
fn waiting(n: usize, release: &[u32; 16], t: u32) -> u16
    requires { n ≤ 16 }
    ensures { result ≡ mask_of n (come_by release.now t) }
{
    let mut mask: u16 = 0;
    for i in (0..n as u32).rev() {
        mask = mask * 2;
        if release[i as usize] <= t {
            mask = with_released(mask, 0);
        }
    }
    mask
}

// The delay that an offset which can be read shows for a job of a task, if it shows a record of that job. There stands a PV or EN, and their first bytes
// differ.
fn own_delay(image: &[u8], offset: u32, task: u32, job: u32) -> Option<u32>
    requires { (ts : Set) × (readable ((lent image.now ts).inversion_shown offset) ≡ true) }
    ensures { (ts : Set) → readable ((lent image.now ts).inversion_shown offset) ≡ true →
        result ≡ delay_case (own_delay ((lent image.now ts).inversion_shown offset) task job) }
{
    let at = offset as usize;
    if image[at] != ROWS[Mark::PV as usize].first {
        return None;
    }
    let r = inversion_at(image, at);
    if r.task != task {
        return None;
    }
    if r.job != job {
        return None;
    }
    Some(r.delay)
}

// Does an offset which can be read show the record of a job of a task, with this delay?
fn shows_delay(image: &[u8], offset: u32, task: u32, job: u32, delay: u32) -> bool
    requires { (ts : Set) × (readable ((lent image.now ts).inversion_shown offset) ≡ true) }
    ensures { (ts : Set) → readable ((lent image.now ts).inversion_shown offset) ≡ true →
        result ≡ has_delay (own_delay ((lent image.now ts).inversion_shown offset) task job) delay }
{
    let at = offset as usize;
    if image[at] != ROWS[Mark::PV as usize].first {
        return false;
    }
    let r = inversion_at(image, at);
    if r.delay != delay {
        return false;
    }
    if r.task != task {
        return false;
    }
    r.job == job
}

// A task, 16 for none, and whether its offset shows its next job's record.
#[derive(Clone, Copy)]
pub struct Chosen {
    pub task: u32,
    pub own: bool,
}

// Rules (2) and (3): the lowest task with a record for this instant, else the lowest waiting one. A task with such a record waits.
fn chosen_task(image: &[u8], at: &Standing, mask: u16, t: u32) -> Chosen
    requires { (ts : Set) × (kept : Kept) × Choosing ts image.now kept at.now t mask }
    ensures { (ts : Set) (kept : Kept) → Choosing ts image.now kept at.now t mask →
        IsChosen ts image.now kept at.now t mask result }
{
    let next = &at.next;
    let release = &at.release;
    let offsets = &at.offsets;
    if mask == 0 {
        return Chosen {
            task: 16,
            own: false,
        };
    }
    let mut left = mask;
    'tasks: while left != 0 {
        let task = lowest(left);
        let j = task as usize;
        if shows_delay(image, offsets[j], task, next[j], t - release[j]) {
            return Chosen { task, own: true };
        }
        left = without_lowest(left);
    }
    let first = lowest(mask);
    let i = first as usize;
    let own = own_delay(image, offsets[i], first, next[i]).is_some();
    Chosen { task: first, own }
}

// A start, with what it used: the ID offset and the task's own offset behind it, and whether a lower-numbered task was waiting.
#[derive(Clone, Copy)]
pub struct Found {
    pub task: u32,
    pub start: u32,
    pub idle: u32,
    pub inversion: u32,
    pub inverts: bool,
}

// What stops it: no job starts in time, or an offset cannot be read.
#[derive(Clone, Copy)]
pub enum Stuck {
    NoStart,
    Unreadable,
}

impl From<Unreadable> for Stuck {
    ghost from_gives = { λ _ e. e ≡ stuck.Unreadable };

    fn from(_offset: Unreadable) -> Stuck {
        Stuck::Unreadable
    }
}

// The task's own offset behind a start: past its record, where its offset shows it.
fn own_offset(own: bool, offset: u32) -> u32
    requires { own ≡ true → offset + book_marks.size book_marks.PV ≤ last_offset }
    ensures { result ≡ past_if own offset }
{
    if own {
        return offset + (INVERSION_SIZE as u32);
    }
    offset
}

// Where idling ends: the instant at which no idle record is used, and the ID offset there.
#[derive(Clone, Copy)]
pub struct Idled {
    pub start: u32,
    pub idle: u32,
}

// What starts where idling ends; a start that would end late is refused. A start clears its task's bit, and is an inversion unless all that still wait have
// higher numbers.
fn start_at(image: &[u8], kept: &Kept, at: &Standing, idled: Idled) -> Result<Found, Stuck>
    requires { (ts : Set) × (f : ℕ) × StartsAt ts image.now kept.now at.now f idled }
    ensures { (ts : Set) (f : ℕ) → StartsAt ts image.now kept.now at.now f idled →
        numbered result ≡ next_from ts image.now at.now f idled.idle }
{
    let n = kept.tasks as usize;
    let slack = &kept.slack;
    let release = &at.release;
    let offsets = &at.offsets;
    let t = idled.start;
    if kept.hyperperiod <= t {
        return Err(Stuck::NoStart);
    }
    let mask = waiting(n, release, t);
    let c = chosen_task(image, at, mask, t);
    let task = c.task;
    let i = task as usize;
    if n <= i {
        return Err(Stuck::NoStart);
    }
    if slack[i] < t - release[i] {
        return Err(Stuck::NoStart);
    }
    let left = without_started(mask, task);
    let inverts = lowest(left) <= task;
    let inversion = own_offset(c.own, offsets[i]);
    Ok(Found {
        task,
        start: t,
        idle: idled.idle,
        inversion,
        inverts,
    })
}

// Past the idle records that are used, one at each decision, from the free instant, the least release and the ID offset.
fn past_idles(
    image: &[u8],
    judged: bool,
    kept: &Kept,
    at: &Standing,
    front: Front,
) -> Result<Idled, Unreadable>
    requires by_end { front.free ≤ hyperperiod_in kept.now }
    requires idling { (ts : Set) × Idling ts image.now kept.now at.now × (judged ≡ true → IdlesRead (lent image.now ts) front.idle) }
    ensures { (ts : Set) → Idling ts image.now kept.now at.now →
        IdledTo ts image.now kept.now at.now front result }
{
    let n = kept.tasks as usize;
    let first = sets::least(n, kept.hyperperiod, &at.release);
    let mut from = front.free;
    let mut o = front.idle;
    'decisions: loop {
        let t = sets::later(from, first);
        match idle_shown(image, judged, kept, o)? {
            Some(r) if r.start == t => {
                from = t + r.length;
                o += IDLE_SIZE as u32;
            }
            _ => {
                break 'decisions Ok(Idled { start: t, idle: o });
            }
        }
    }
}

// The next start, from what is kept of the set and where replay stands. The release of a task's next job is H or later where no job is left. Where the
// image's records were judged and all offsets stand among them, these are not tested again.
pub fn next_start(
    image: &[u8],
    judged: bool,
    kept: &Kept,
    at: &Standing,
    front: Front,
) -> Result<Found, Stuck>
    requires { (ts : Set) × Stands ts kept.now at.now front
        × (judged ≡ true → AllRead image.now ts kept.now at.now front.idle) }
    ensures { FindsNext image.now kept.now at.now front result }
{
    read_tasks(image, judged, kept, &at.offsets)?;
    let idled = past_idles(image, judged, kept, at, front)?;
    start_at(image, kept, at, idled)
}
