// Standard input, output and error: a read behind the bytes that are held, the writing of a whole text, and a line for a call that failed. A call that was
// interrupted is made again; a proved loop has to end, so that is counted, up to a number that no run uses up.
#![tactic(auto)]

ghost use Rattle.std.specs.Prelude.{◌≡◌, ◌≤◌, ◌<◌, length, IfErr, MatchResult};
ghost use Rattle.standard.specs.Calls.{made_of, AsErrno, Moves, ReadFrom, ReadBehind};
ghost use Rattle.standard.specs.Known.{Gives, Comes, Takes, Written};

use std::io;
use std::io::{ErrorKind, Read, Write};

// A program's streams, and the error of the last call that failed: before the first the system's number 0, as errno has it.
#[derive(Drop)]
pub struct Streams<R, W, E> {
    input: R,
    output: W,
    errors: E,
    error: io::Error,
}

impl<R, W, E> Streams<R, W, E> {
    pub fn new(input: R, output: W, errors: E) -> Streams<R, W, E>
        ensures input { result.input ≡ input }
        ensures output { result.output ≡ output }
        ensures errors { result.errors ≡ errors }
    {
        Streams {
            input,
            output,
            errors,
            error: io::Error::from_raw_os_error(0),
        }
    }
}

// What a call came to, or nothing where it was interrupted and is to be made again. The error of one that failed is kept, interrupted or not.
fn unless_interrupted(got: io::Result<usize>, last: &mut io::Error) -> Option<io::Result<usize>>
    ensures made { result ≡ made_of got }
    ensures errno { AsErrno got result }
    ensures last { MatchResult got (λ _. last.new ≡ last.old) (λ error. last.new ≡ error) }
{
    if let Err(error) = got {
        *last = error;
        if error.kind() == ErrorKind::Interrupted {
            return None;
        }
    }
    Some(got)
}

impl<R: Read, W, E> Streams<R, W, E> {
    // A read of standard input, to a place of the buffer and behind it.
    fn read_from(&mut self, input: &mut [u8], at: usize) -> io::Result<usize>
        requires { at ≤ length input.old }
        ensures read { ReadFrom at input.old result input.new }
        ensures known { Gives at result input.new (R.remaining self.old.input) (R.remaining self.new.input) }
        ensures output { self.new.output ≡ self.old.output }
        ensures errors { self.new.errors ≡ self.old.errors }
    {
        for _ in 0..u64::MAX {
            let got = self.input.read(&mut input[at..]);
            if let Some(got) = unless_interrupted(got, &mut self.error) {
                return got;
            }
        }
        Err(self.error)
    }

    // Reads standard input behind so many bytes that are held, and answers how many are held then: no more where it has ended, or where the buffer is full.
    pub fn read_behind(&mut self, input: &mut [u8], held: usize) -> io::Result<usize>
        requires { held ≤ length input.old }
        ensures read { ReadBehind held input.old result input.new }
        ensures known { Comes held result input.new (R.remaining self.old.input) (R.remaining self.new.input) }
        ensures output { self.new.output ≡ self.old.output }
        ensures errors { self.new.errors ≡ self.old.errors }
    {
        let n = self.read_from(input, held)?;
        Ok(held + n)
    }
}

// A text of which only so many bytes were taken: by the error of the write that failed, or where one took nothing by that of the last call that failed.
#[derive(Clone, Copy)]
pub struct Unfinished {
    pub taken: usize,
    pub error: io::Error,
}

impl<R, W: Write, E> Streams<R, W, E> {
    // A write to standard output, of a text from a place on.
    fn write_from(&mut self, text: &[u8], at: usize) -> io::Result<usize>
        requires { at ≤ length text.now }
        ensures written { Moves at result text.now }
        ensures known { Takes at result text.now (W.contents self.old.output) (W.contents self.new.output) }
        ensures last { IfErr result (λ error. error ≡ self.new.error) }
        ensures input { self.new.input ≡ self.old.input }
        ensures errors { self.new.errors ≡ self.old.errors }
    {
        for _ in 0..u64::MAX {
            let got = self.output.write(&text[at..]);
            if let Some(got) = unless_interrupted(got, &mut self.error) {
                return got;
            }
        }
        Err(self.error)
    }

    // Writes a text to standard output.
    pub fn write_text(&mut self, text: &[u8]) -> Result<(), Unfinished>
        ensures inside { IfErr result (λ r. r.taken < length text.now) }
        ensures known { Written text.now result (W.contents self.old.output) (W.contents self.new.output) }
        ensures last { IfErr result (λ r. r.error ≡ self.new.error) }
        ensures input { self.new.input ≡ self.old.input }
        ensures errors { self.new.errors ≡ self.old.errors }
    {
        let mut at: usize = 0;
        while at < text.len() {
            match self.write_from(text, at) {
                Ok(0) => {
                    return Err(Unfinished {
                        taken: at,
                        error: self.error,
                    });
                }
                Ok(n) => at += n,
                Err(error) => return Err(Unfinished { taken: at, error }),
            }
        }
        Ok(())
    }
}

// The most bytes of an error's text, with its number behind it.
const LONGEST_ERROR: usize = 320;

// Where the number that std writes behind the text of one of the system's errors begins, as in " (os error 9)".
fn before_number(text: &[u8]) -> usize
    ensures { result ≤ length text.now }
{
    match text.iter().rposition(|byte| *byte == b'(') {
        Some(at) => at.saturating_sub(1),
        None => text.len(),
    }
}

// The text of an error at the front of a buffer, without such a number.
fn put_error(error: &io::Error, text: &mut [u8; LONGEST_ERROR]) -> usize
    ensures { result ≤ 320 }
{
    let mut room = &mut text[..];
    let _ = write!(room, "{error}");
    let many = LONGEST_ERROR.saturating_sub(room.len());
    if error.raw_os_error().is_none() {
        return many;
    }
    before_number(&text[..many])
}

impl<R, W, E: Write> Streams<R, W, E> {
    // Writes a line to standard error: what failed, as the caller names it, a colon and the text of the error.
    pub fn fail(&mut self, what: &[u8], error: &io::Error)
        ensures input { self.new.input ≡ self.old.input }
        ensures output { self.new.output ≡ self.old.output }
    {
        let mut text = [0u8; LONGEST_ERROR];
        let n = put_error(error, &mut text);
        let _ = self.errors.write_all(what);
        let _ = self.errors.write_all(b": ");
        let _ = self.errors.write_all(&text[..n]);
        let _ = self.errors.write_all(b"\n");
    }
}

#[cfg(test)]
mod tests {
    use super::*;

    // A stream that moves a byte a call, but for the calls that fail, by their errno.
    #[derive(Drop)]
    struct Failing {
        errors: [i32; 4],
        calls: usize,
    }

    impl Failing {
        fn call(&mut self) -> io::Result<()> {
            let call = self.calls;
            if call >= 4 {
                return Ok(());
            }
            self.calls = call + 1;
            let error = self.errors[call];
            if error == 0 {
                return Ok(());
            }
            Err(io::Error::from_raw_os_error(error))
        }
    }

    impl Read for Failing {
        fn read(&mut self, buf: &mut [u8]) -> io::Result<usize> {
            self.call()?;
            if buf.is_empty() {
                return Ok(0);
            }
            buf[0] = b'x';
            Ok(1)
        }
    }

    impl Write for Failing {
        fn write(&mut self, buf: &[u8]) -> io::Result<usize> {
            self.call()?;
            Ok(buf.len().min(1))
        }

        fn flush(&mut self) -> io::Result<()> {
            Ok(())
        }
    }

    // A stream that takes nothing, but for the calls that fail, by their errno.
    #[derive(Drop)]
    struct Full {
        calls: Failing,
    }

    impl Write for Full {
        fn write(&mut self, _buf: &[u8]) -> io::Result<usize> {
            self.calls.call()?;
            Ok(0)
        }

        fn flush(&mut self) -> io::Result<()> {
            Ok(())
        }
    }

    const EINTR: i32 = 4;

    const EISDIR: i32 = 21;

    const ENOSPC: i32 = 28;

    // A read that was interrupted is made again; one that failed is told.
    #[test]
    fn reads(rt: HostRuntime) {
        let input = Failing {
            errors: [EINTR, EINTR, 0, EISDIR],
            calls: 0,
        };
        let mut streams = Streams::new(input, rt.stdout(), Vec::new(rt.alloc()));
        let mut bytes = [b'a'; 3];
        match streams.read_behind(&mut bytes, 1) {
            Ok(n) => assert_eq!(rt; n, 2),
            Err(_) => assert!(rt; false),
        }
        assert!(rt; bytes == [b'a', b'x', b'a']);
        match streams.read_behind(&mut bytes, 2) {
            Ok(_) => assert!(rt; false),
            Err(error) => streams.fail(b"test: input", &error),
        }
        assert!(rt; streams.errors.as_slice() == b"test: input: Is a directory\n".as_slice());
    }

    // And so with a write, behind which the number of the bytes that were taken is answered.
    #[test]
    fn writes(rt: HostRuntime) {
        let output = Failing {
            errors: [0, EINTR, 0, ENOSPC],
            calls: 0,
        };
        let mut streams = Streams::new(rt.stdin(), output, Vec::new(rt.alloc()));
        match streams.write_text(b"abc") {
            Ok(()) => assert!(rt; false),
            Err(unfinished) => {
                assert_eq!(rt; unfinished.taken, 2);
                streams.fail(b"test: output", &unfinished.error);
            }
        }
        assert!(rt; streams.write_text(b"abc").is_ok());
        assert!(rt;
            streams.errors.as_slice() == b"test: output: No space left on device\n".as_slice()
        );
    }

    // Writes a text, and tells where not all of it was taken.
    fn write_or_tell<R, W: Write, E: Write>(streams: &mut Streams<R, W, E>) {
        if let Err(unfinished) = streams.write_text(b"abc") {
            streams.fail(b"test: output", &unfinished.error);
        }
    }

    // A write that takes nothing is told by the error of the last call that failed, a read or a write, be it long before; before the first by number 0.
    #[test]
    fn takes_nothing(rt: HostRuntime) {
        let input = Failing {
            errors: [EINTR, 0, EISDIR, 0],
            calls: 0,
        };
        let output = Full {
            calls: Failing {
                errors: [0, 0, 0, EINTR],
                calls: 0,
            },
        };
        let mut streams = Streams::new(input, output, Vec::new(rt.alloc()));
        let mut bytes = [b'a'; 3];
        write_or_tell(&mut streams);
        assert!(rt; streams.read_behind(&mut bytes, 0).is_ok());
        write_or_tell(&mut streams);
        assert!(rt; streams.read_behind(&mut bytes, 0).is_err());
        write_or_tell(&mut streams);
        write_or_tell(&mut streams);
        assert!(rt;
            streams.errors.as_slice()
                == b"test: output: Success\n\
                test: output: Interrupted system call\n\
                test: output: Is a directory\n\
                test: output: Interrupted system call\n"
                    .as_slice()
        );
    }
}
