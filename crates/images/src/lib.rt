// Images: the one table of marks, and the reader of each body.
#![tactic(auto)]

ghost use Rattle.std.specs.Prelude.{◌≡◌, ℕ, ◌+◌, ◌*◌, ◌≤◌, ◌<◌, eqb, List, length};
ghost use Rattle.fields.specs.Body.{body as book_body};
ghost use Rattle.rules.specs.Marks as book_marks;
ghost use Rattle.rules.specs.Image as book;
ghost use Rattle.images.specs.declared.Mark.{Mark as CodeMark};
ghost use Rattle.images.specs.declared.Mark.TheVariants as mark_case;
ghost use Rattle.images.specs.Table.{mark_of, mark_at, found_mark, kind_number, code_row, pair_of, stands_at};
ghost use Rattle.images.specs.Bodies.{part_of, head_of, of_head, task_of, entry_of, idle_of, inversion_of, end_of, of_end};

use rules::{Entry, Idle, Inversion, Task};

// What a record is to framing: TS, a task, a record of the head that may be missing, an SL or ID, an inversion, EN.
#[derive(Clone, Copy)]
pub enum Class {
    Head,
    Task,
    Option,
    Listed,
    Inversion,
    End,
}

// A mark's two bytes, the length of its body and of the whole record, the kinds of image that have it, its rank, which never falls in an image, its class,
// and whether its record stands at most once.
#[derive(Clone, Copy)]
pub struct Row {
    pub first: u8,
    pub second: u8,
    pub body: usize,
    pub size: usize,
    pub timetable: bool,
    pub tables: bool,
    pub rank: usize,
    pub class: Class,
    pub once: bool,
}

// The marks of records: the head, a task, an entry, an idle, an inversion, the end.
#[derive(Clone, Copy)]
pub enum Mark {
    TS,
    TK,
    SL,
    ID,
    PV,
    EN,
}

// The kinds of image.
#[derive(Clone, Copy)]
pub enum Kind {
    Timetable,
    Tables,
}

impl Kind {
    // A kind's number in an image.
    pub fn number(self) -> u32
        ensures { result ≡ kind_number self }
    {
        match self {
            Kind::Timetable => 1,
            Kind::Tables => 2,
        }
    }
}

// The table: a row for each mark, in the order of the marks.
pub const ROWS: [Row; 6] = [
    Row {
        first: 0x54,
        second: 0x53,
        body: 3,
        size: 5,
        timetable: true,
        tables: true,
        rank: 0,
        class: Class::Head,
        once: true,
    },
    Row {
        first: 0x54,
        second: 0x4B,
        body: 16,
        size: 18,
        timetable: true,
        tables: true,
        rank: 1,
        class: Class::Task,
        once: false,
    },
    Row {
        first: 0x53,
        second: 0x4C,
        body: 5,
        size: 7,
        timetable: true,
        tables: false,
        rank: 6,
        class: Class::Listed,
        once: false,
    },
    Row {
        first: 0x49,
        second: 0x44,
        body: 6,
        size: 8,
        timetable: false,
        tables: true,
        rank: 6,
        class: Class::Listed,
        once: false,
    },
    Row {
        first: 0x50,
        second: 0x56,
        body: 7,
        size: 9,
        timetable: false,
        tables: true,
        rank: 7,
        class: Class::Inversion,
        once: false,
    },
    Row {
        first: 0x45,
        second: 0x4E,
        body: 4,
        size: 6,
        timetable: true,
        tables: true,
        rank: 8,
        class: Class::End,
        once: true,
    },
];

// The bytes of a whole record of each mark, mark included.
pub const HEAD_SIZE: usize = ROWS[Mark::TS as usize].size;

pub const TASK_SIZE: usize = ROWS[Mark::TK as usize].size;

pub const ENTRY_SIZE: usize = ROWS[Mark::SL as usize].size;

pub const IDLE_SIZE: usize = ROWS[Mark::ID as usize].size;

pub const INVERSION_SIZE: usize = ROWS[Mark::PV as usize].size;

pub const END_SIZE: usize = ROWS[Mark::EN as usize].size;

// Two bytes as one number, so that a mark is told by one comparison.
fn pair(a: u8, b: u8) -> u32
    ensures { result ≡ a + b * 256 }
{
    u32::from(a) + u32::from(b) * 256
}

impl Mark {
    // A mark's row of the table.
    pub fn row(self) -> Row
        ensures { result ≡ code_row (mark_of self) }
    {
        match self {
            Mark::TS => ROWS[Mark::TS as usize],
            Mark::TK => ROWS[Mark::TK as usize],
            Mark::SL => ROWS[Mark::SL as usize],
            Mark::ID => ROWS[Mark::ID as usize],
            Mark::PV => ROWS[Mark::PV as usize],
            Mark::EN => ROWS[Mark::EN as usize],
        }
    }

    // The length of a mark's body.
    pub fn body(self) -> usize
        ensures { result ≡ book_marks.body_length (mark_of self) }
    {
        self.row().body
    }

    // The bytes of a whole record, mark included.
    pub fn size(self) -> usize
        ensures { result ≡ book_marks.size (mark_of self) }
    {
        self.row().size
    }

    // Are two bytes, as one number, this mark?
    fn is(self, bytes: u32) -> bool
        ensures { result ≡ eqb bytes (pair_of (mark_of self)) }
    {
        let row = self.row();
        bytes == pair(row.first, row.second)
    }

    // The mark that two bytes are, if they are one.
    pub fn find(a: u8, b: u8) -> Option<Mark>
        ensures { found_mark result ≡ book_marks.mark_in book_marks.marks a b }
    {
        let bytes = pair(a, b);
        if Mark::TS.is(bytes) {
            return Some(Mark::TS);
        }
        if Mark::TK.is(bytes) {
            return Some(Mark::TK);
        }
        if Mark::SL.is(bytes) {
            return Some(Mark::SL);
        }
        if Mark::ID.is(bytes) {
            return Some(Mark::ID);
        }
        if Mark::PV.is(bytes) {
            return Some(Mark::PV);
        }
        if Mark::EN.is(bytes) {
            return Some(Mark::EN);
        }
        None
    }
}

// What names a mark: itself, or its place in the table, EN's behind it.
pub trait NamesMark: Copy {
    ghost named: { Self → book_marks.Mark };

    fn mark(self) -> Mark
        ensures { mark_of result ≡ named self };
}

impl NamesMark for Mark {
    ghost named = { mark_of };

    fn mark(self) -> Mark {
        self
    }
}

impl NamesMark for usize {
    ghost named = { mark_at };

    fn mark(self) -> Mark {
        match self {
            0 => Mark::TS,
            1 => Mark::TK,
            2 => Mark::SL,
            3 => Mark::ID,
            4 => Mark::PV,
            _ => Mark::EN,
        }
    }
}

// How many records the head of an image of n tasks has: TS and n TK.
pub fn head_count(n: usize) -> usize
    requires { n < 4294967296 }
    ensures { result ≡ book_marks.head_count_of n }
{
    n + 1
}

// How many bytes they are.
pub fn head_length(n: usize) -> usize
    requires { n < 4294967296 }
    ensures { result ≡ book_marks.head_length_of n }
{
    HEAD_SIZE + n * TASK_SIZE
}

// Does a record with a mark stand at a place from which on there are bytes enough for one?
pub fn marked<M: NamesMark>(image: &[u8], at: usize, mark: M) -> bool
    requires { at + book_marks.size (M.named mark) ≤ length image.now }
    ensures { result ≡ stands_at image.now at (M.named mark) }
{
    mark.mark().is(pair(image[at], image[at + 1]))
}

// Does a whole record with a mark stand at a place?
pub fn stands<M: NamesMark>(image: &[u8], at: usize, mark: M) -> bool
    requires { at ≤ length image.now }
    ensures { result ≡ stands_at image.now at (M.named mark) }
{
    let mark = mark.mark();
    if image.len() - at < mark.size() {
        return false;
    }
    marked(image, at, mark)
}

// The part of the image that begins at a place and has a length.
pub fn part(image: &[u8], at: usize, len: usize) -> &[u8]
    requires { at + len ≤ length image.now }
    ensures { result.now ≡ part_of image.now at len }
{
    let end = at + len;
    &image[at..end]
}

// What a record with one mark says.
pub trait Record: Copy {
    const MARK: Mark;

    ghost MARK: { CodeMark };

    // The record whose body is given, and the values of a record's fields.
    ghost of_body: { List ℕ → Self };

    ghost values: { Self → List ℕ };

    fn from_body(body: &[u8]) -> Self
        ensures { result ≡ of_body body.now };

    fn to_body(self, body: &mut [u8])
        requires { length body.old ≡ book_marks.body_length (mark_of MARK) }
        ensures { body.new ≡ book_body (book_marks.row (mark_of MARK)).widths (values self) };
}

// The record at a byte offset where it stands whole.
pub fn read<R: Record>(image: &[u8], at: usize) -> R
    requires { at + book_marks.size (mark_of R.MARK) ≤ length image.now }
    ensures { result ≡ R.of_body (part_of image.now (at + 2) (book_marks.body_length (mark_of R.MARK))) }
{
    R::from_body(part(image, at + 2, R::MARK.body()))
}

// TS: edition, kind, n.
#[derive(Clone, Copy)]
pub struct Head {
    pub edition: u32,
    pub kind: u32,
    pub n: u32,
}

impl Record for Head {
    const MARK: Mark = Mark::TS;

    ghost MARK = { mark_case.TS };

    ghost of_body = { head_of };

    ghost values = { of_head };

    fn from_body(body: &[u8]) -> Head {
        Head {
            edition: fields::read::<u8>(body, 0),
            kind: fields::read::<u8>(body, 1),
            n: fields::read::<u8>(body, 2),
        }
    }

    fn to_body(self, body: &mut [u8]) {
        fields::store::<u8>(body, 0, self.edition);
        fields::store::<u8>(body, 1, self.kind);
        fields::store::<u8>(body, 2, self.n);
    }
}

// TK: O, C, T, D.
impl Record for Task {
    const MARK: Mark = Mark::TK;

    ghost MARK = { mark_case.TK };

    ghost of_body = { task_of };

    ghost values = { book.of_task };

    fn from_body(body: &[u8]) -> Task {
        Task {
            offset: fields::read::<u32>(body, 0),
            time: fields::read::<u32>(body, 4),
            period: fields::read::<u32>(body, 8),
            deadline: fields::read::<u32>(body, 12),
        }
    }

    fn to_body(self, body: &mut [u8]) {
        fields::store::<u32>(body, 0, self.offset);
        fields::store::<u32>(body, 4, self.time);
        fields::store::<u32>(body, 8, self.period);
        fields::store::<u32>(body, 12, self.deadline);
    }
}

// SL: task, start.
impl Record for Entry {
    const MARK: Mark = Mark::SL;

    ghost MARK = { mark_case.SL };

    ghost of_body = { entry_of };

    ghost values = { book.of_entry };

    fn from_body(body: &[u8]) -> Entry {
        Entry {
            task: fields::read::<u8>(body, 0),
            start: fields::read::<u32>(body, 1),
        }
    }

    fn to_body(self, body: &mut [u8]) {
        fields::store::<u8>(body, 0, self.task);
        fields::store::<u32>(body, 1, self.start);
    }
}

// ID: start, length.
impl Record for Idle {
    const MARK: Mark = Mark::ID;

    ghost MARK = { mark_case.ID };

    ghost of_body = { idle_of };

    ghost values = { book.of_idle };

    fn from_body(body: &[u8]) -> Idle {
        Idle {
            start: fields::read::<u32>(body, 0),
            length: fields::read::<u16>(body, 4),
        }
    }

    fn to_body(self, body: &mut [u8]) {
        fields::store::<u32>(body, 0, self.start);
        fields::store::<u16>(body, 4, self.length);
    }
}

// PV: task, job, delay.
impl Record for Inversion {
    const MARK: Mark = Mark::PV;

    ghost MARK = { mark_case.PV };

    ghost of_body = { inversion_of };

    ghost values = { book.of_inversion };

    fn from_body(body: &[u8]) -> Inversion {
        Inversion {
            task: fields::read::<u8>(body, 0),
            job: fields::read::<u16>(body, 1),
            delay: fields::read::<u32>(body, 3),
        }
    }

    fn to_body(self, body: &mut [u8]) {
        fields::store::<u8>(body, 0, self.task);
        fields::store::<u16>(body, 1, self.job);
        fields::store::<u32>(body, 3, self.delay);
    }
}

// EN: the number of records before it.
#[derive(Clone, Copy)]
pub struct End {
    pub before: u32,
}

impl Record for End {
    const MARK: Mark = Mark::EN;

    ghost MARK = { mark_case.EN };

    ghost of_body = { end_of };

    ghost values = { of_end };

    fn from_body(body: &[u8]) -> End {
        End {
            before: fields::read::<u32>(body, 0),
        }
    }

    fn to_body(self, body: &mut [u8]) {
        fields::store::<u32>(body, 0, self.before);
    }
}
