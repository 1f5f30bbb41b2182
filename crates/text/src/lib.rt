// Text: bytes, numbers and refusals as the programs write them, put one behind the other in a lent output.
#![tactic(auto)]

ghost use Rattle.std.specs.Prelude.{◌≡◌, ◌≤◌, [], ◌∷◌, length};
ghost use Rattle.text.specs.Text.{number_then, signed_then, refused_text, too_long};
ghost use Rattle.text.specs.Puts.{AtFront};
ghost use Rattle.text.specs.Pages.{Opened, Fits, Puts};

use rules::{Located, TOO_LONG};

// A lent output, and the place behind what was put there.
#[derive(Drop)]
pub struct Page<'a> {
    out: &'a mut [u8],
    at: usize,
}

impl<'a> Page<'a> {
    // From the front of an output on.
    pub fn new(out: &'a mut [u8]) -> Page<'a>
        ensures { Opened out.entry result }
    {
        Page { out, at: 0 }
    }

    // How many bytes were put.
    pub fn len(&self) -> usize
        ensures { result ≡ self.now.at }
    {
        self.at
    }

    // A byte.
    fn byte(&mut self, x: u8)
        requires { Fits (x ∷ []) self.old }
        ensures { Puts (x ∷ []) self.old self.new }
    {
        self.out[self.at] = x;
        self.at += 1;
    }

    pub fn bytes(&mut self, bytes: &[u8])
        requires { Fits bytes.now self.old }
        ensures { Puts bytes.now self.old self.new }
    {
        let end = self.at + bytes.len();
        self.out[self.at..end].copy_from_slice(bytes);
        self.at = end;
    }

    // A number in decimal, and the character behind it.
    pub fn number(&mut self, n: u64, behind: u8)
        requires { Fits (number_then n behind) self.old }
        ensures { Puts (number_then n behind) self.old self.new }
    {
        let mut text = [0u8; 20];
        let many = io::decimal(n, &mut text);
        self.bytes(&text[..many]);
        self.byte(behind);
    }

    // A signed number in decimal, and the character behind it.
    pub fn signed(&mut self, z: i64, behind: u8)
        requires { Fits (signed_then z behind) self.old }
        ensures { Puts (signed_then z behind) self.old self.new }
    {
        if z < 0 {
            self.byte(b'-');
        }
        self.number(z.unsigned_abs(), behind);
    }

    // The line of a refusal: its number, its place and its byte offset.
    #[tactic(auto, using(crate::proofs::Lengths::refused_parts))]
    fn refused(&mut self, r: Located)
        requires { Fits (refused_text r) self.old }
        ensures { Puts (refused_text r) self.old self.new }
    {
        self.bytes(b"refused ");
        self.number(r.number as u64, b' ');
        self.number(r.place as u64, b' ');
        self.number(r.offset as u64, b'\n');
    }
}

// The line of a refusal at the front of an output.
pub fn put_refused(out: &mut [u8], r: Located) -> usize
    requires { length (refused_text r) ≤ length out.old }
    ensures { AtFront (refused_text r) out.old result out.new }
{
    let mut page = Page::new(out);
    page.refused(r);
    page.len()
}

// The most bytes of an input, or of an image among others, that are judged.
pub const LONGEST_INPUT: usize = 65536;

// The line for one that is too long, at the front of an output.
pub fn put_too_long(out: &mut [u8]) -> usize
    requires { length (refused_text too_long) ≤ length out.old }
    ensures { AtFront (refused_text too_long) out.old result out.new }
{
    put_refused(out, TOO_LONG)
}
