// Big-endian fields of 1, 2 and 4 bytes: read and stored at a place of a slice. A field that does not stand whole in the slice reads as 0, and
// storing it changes nothing. The facts are proved once over the width.
#![tactic(auto)]

ghost use Rattle.std.specs.Prelude.{◌≡◌, ℕ, ◌+◌, ◌≤◌, length};
ghost use Rattle.fields.specs.Number.{field_at, stored_at};

// A number of a field's width: u8, u16 or u32.
pub trait Field {
    // How many bytes a field has.
    const WIDTH: usize;

    ghost WIDTH: { ℕ };

    // The number in the bytes at a place, where they stand whole.
    fn load(bytes: &[u8], at: usize) -> u32
        requires { at + WIDTH ≤ length bytes.now }
        ensures { result ≡ field_at WIDTH bytes.now at };

    // Stores a number's lowest bytes at a place, where they stand whole.
    fn save(out: &mut [u8], at: usize, x: u32)
        requires { at + WIDTH ≤ length out.old }
        ensures { out.new ≡ stored_at WIDTH out.old at x };
}

impl Field for u8 {
    const WIDTH: usize = 1;

    ghost WIDTH = { 1 };

    fn load(bytes: &[u8], at: usize) -> u32 {
        u32::from(bytes[at])
    }

    fn save(out: &mut [u8], at: usize, x: u32) {
        out[at] = (x % 256) as u8;
    }
}

impl Field for u16 {
    const WIDTH: usize = 2;

    ghost WIDTH = { 2 };

    fn load(bytes: &[u8], at: usize) -> u32 {
        u32::from(u16::from_be_bytes([bytes[at], bytes[at + 1]]))
    }

    fn save(out: &mut [u8], at: usize, x: u32) {
        let [high, low] = ((x % 65536) as u16).to_be_bytes();
        out[at] = high;
        out[at + 1] = low;
    }
}

impl Field for u32 {
    const WIDTH: usize = 4;

    ghost WIDTH = { 4 };

    fn load(bytes: &[u8], at: usize) -> u32 {
        u32::from_be_bytes([bytes[at], bytes[at + 1], bytes[at + 2], bytes[at + 3]])
    }

    fn save(out: &mut [u8], at: usize, x: u32) {
        let [first, second, third, fourth] = x.to_be_bytes();
        out[at] = first;
        out[at + 1] = second;
        out[at + 2] = third;
        out[at + 3] = fourth;
    }
}

// The number in the field at a place.
pub fn read<F: Field>(bytes: &[u8], at: usize) -> u32
    ensures { result ≡ field_at F.WIDTH bytes.now at }
{
    if at <= bytes.len() && F::WIDTH <= bytes.len() - at {
        F::load(bytes, at)
    } else {
        0
    }
}

// Stores a number's lowest bytes in the field at a place.
pub fn store<F: Field>(out: &mut [u8], at: usize, x: u32)
    ensures { out.new ≡ stored_at F.WIDTH out.old at x }
{
    if at <= out.len() && F::WIDTH <= out.len() - at {
        F::save(out, at, x);
    }
}
