// Writing: a record of an image at a place of a lent output. A record that does not fit there whole changes nothing.
#![tactic(auto)]

ghost use Rattle.std.specs.Prelude.{◌≡◌, ◌≤◌, length};
ghost use Rattle.rules.specs.Tasks as book_tasks;
ghost use Rattle.rules.specs.Marks as book_marks;
ghost use Rattle.rules.specs.Image as book;
ghost use Rattle.images.specs.Table.{mark_of};
ghost use Rattle.writing.specs.Writing.{put_at, record_put};

use images::{HEAD_SIZE, Head, Record, TASK_SIZE};
use rules::TaskSet;

// A record at a place; nothing where it does not fit.
pub fn put<R: Record>(out: &mut [u8], at: usize, record: R)
    ensures { out.new ≡ record_put out.old at (book.record_of (mark_of R.MARK) (R.values «record»)) }
{
    let row = R::MARK.row();
    if row.size <= out.len().saturating_sub(at) {
        out[at] = row.first;
        out[at + 1] = row.second;
        record.to_body(&mut out[at + 2..at + row.size]);
    }
}

// TS and the tasks at the front of the output.
pub fn put_set(out: &mut [u8], kind: u32, s: TaskSet)
    requires few { s.n ≤ 16 }
    requires inside { book_marks.head_length_of s.n ≤ length out.old }
    ensures { out.new ≡ put_at out.old 0 (book.image (book.head_records kind (book_tasks.memory_set s))) }
{
    let head = Head {
        edition: 1,
        kind,
        n: s.n,
    };
    put(out, 0, head);
    let mut at = HEAD_SIZE;
    for task in &s.tasks[..s.n as usize] {
        put(out, at, *task);
        at += TASK_SIZE;
    }
}
