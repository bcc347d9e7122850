// Runs written to an output whole, or not at all where they don't fit.
ghost use Rattle.std.specs.Prelude.{◌≡◌, ◌+◌, ◌-◌, ◌<◌, ◌≤◌, length};
ghost use Rattle.bits.specs.Bits.{num, field};
ghost use Rattle.bits.specs.Runs.{bytes_of, bytes_for, put, store};
ghost use Rattle.steps.specs.Steps.{Lies};

use outputs::records::fits;

// The bytes s to d from byte at, where they fit.
pub fn copy_run(d: &mut [u8], at: usize, s: &[u8])
    requires { (at + length s.now ≤ length d.old) × (length s.now < 4294967296) }
    ensures { d.new ≡ put d.old at s.now }
{
    let bits = 8 * (s.len() as u64);
    bits::copy::copy_field(s, 0, &mut d[at..], bits);
}

// A payload: bits from..end of bytes.
pub fn store_payload(d: &mut [u8], at: u32, bytes: &[u8], from: u64, end: u64)
    requires { Lies bytes.now «from» end }
    ensures { d.new
        ≡ store d.old at (bytes_of (bytes_for (end - «from»)) (field (num bytes.now) «from» (end - «from»))) }
{
    let width = end - from;
    let size = ((width + 7) / 8) as usize;
    if !fits(d.len(), at, size) {
        return;
    }
    let i = at as usize;
    bits::copy::copy_field(bytes, from, &mut d[i..], width);
}
