// The part of some bytes that a field touches.
ghost use Rattle.std.specs.Prelude.{◌≡◌, ℕ, ◌+◌, ◌-◌, ◌*◌, ◌/◌, ◌%◌, ◌≤◌, length, take, drop};
ghost use Rattle.steps.specs.Steps.{Lies};
ghost use Rattle.steps.specs.Views.{inner};

// The bytes that the bits from..end touch: the first of them is bit from % 8 of these.
pub fn touched<'a>(bytes: &'a [u8], from: u64, end: u64) -> &'a [u8]
    requires { Lies bytes.now «from» end }
    ensures cut { result.now ≡ take ((end + 7) / 8 - «from» / 8) (drop («from» / 8) bytes.now) }
    ensures room { «from» % 8 + (end - «from») ≤ 8 * length result.now }
    ensures same { (base : ℕ) → inner result.now (base + («from» - «from» % 8)) («from» % 8) («from» % 8 + (end - «from»))
        ≡ inner bytes.now base «from» end }
{
    let a = (from / 8) as usize;
    let z = ((end + 7) / 8) as usize;
    &bytes[a..z]
}
