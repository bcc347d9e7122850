// The seven counters by name, the padded numbers, and the verdict in words.
use crate::say;
use array::{ArrayDecodeStats, Verdict};
use std::io;

fn say_counters(out: &impl Print, c: ArrayDecodeStats) -> io::Result<()> {
    say::named(out, "elements_decoded", c.elements_decoded)?;
    say::named(out, "fields_emitted", c.fields_emitted)?;
    say::named(out, "truncations", c.truncations)?;
    say::named(out, "errors", c.errors)?;
    say::named(out, "unconsumed_nested_bits", c.unconsumed_nested_bits)?;
    say::named(out, "unconsumed_root_bits", c.unconsumed_root_bits)?;
    say::named(out, "implicit_terminations", c.implicit_terminations)
}

// Why a walk is partial, if that counter says so.
fn because(out: &impl Print, name: &str, count: u64, why: &str) -> io::Result<()> {
    if count == 0 {
        return Ok(());
    }
    print!(out; "; {name} {count}: {why}")
}

fn say_partial(out: &impl Print, c: ArrayDecodeStats) -> io::Result<()> {
    print!(out; "verdict: partial")?;
    because(
        out,
        "truncations",
        c.truncations,
        "more stands there than is allowed, and the rest was not taken apart",
    )?;
    because(
        out,
        "errors",
        c.errors,
        "a number that can't be read, an index that isn't below the count, or a payload or window that passes the end; the rest of that array, or that pair, is lost",
    )?;
    because(
        out,
        "unconsumed_nested_bits",
        c.unconsumed_nested_bits,
        "these bits inside payloads were not read",
    )?;
    because(
        out,
        "unconsumed_root_bits",
        c.unconsumed_root_bits,
        "these bits behind the array's end were not read",
    )?;
    because(
        out,
        "implicit_terminations",
        c.implicit_terminations,
        "the window ends before the closing zero, and what came after is lost",
    )?;
    out.println("")
}

// The end of a walk's output.
pub fn report(
    out: &impl Print,
    c: ArrayDecodeStats,
    judged: Verdict,
    padded: u32,
) -> io::Result<()> {
    out.println("")?;
    say_counters(out, c)?;
    say::named(out, "padded numbers", u64::from(padded))?;
    match judged {
        Verdict::Clean => {
            out.println("verdict: clean; the window was read to its end and nothing is missing")
        }
        Verdict::Partial => say_partial(out, c),
        Verdict::Empty => out.println("verdict: empty; nothing was sent"),
    }
}
