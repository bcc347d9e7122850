// Records in lent buffers: each is written whole, or not at all where it does not fit.
ghost use Rattle.std.specs.Prelude.{◌≡◌, ◌+◌, ◌*◌, ◌<◌, ◌^◌};
ghost use Rattle.bits.specs.Runs.{store};

// Record number k, of those that take N numbers each.
pub fn store_record<T: Copy, const N: usize>(d: &mut [T], k: u64, run: [T; N])
    requires { N * (k + 1) < 2 ^ 64 }
    ensures { d.new ≡ store d.old (N * k) run }
{
    let start = N * (k as usize);
    if start + N <= d.len() {
        for j in 0..N {
            d[start + j] = run[j];
        }
    }
}
