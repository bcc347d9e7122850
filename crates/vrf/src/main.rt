// Reads one window of bits out of a file and prints what it holds: `vrf walk KIND FILE [BITS]` an array, `vrf fastarray MODE
// FILE [BITS]` a fast-array body, `vrf movement SCALE WIDTH FILE [BITS]` a movement record. `vrf schema` prints the levels.
//
// The window is the first BITS bits of the file, without BITS all of it; of an empty file that is no bits. Walks print a line for
// each leaf, the seven counters and the verdict. The exit status is always 0: what went wrong is said in words, on standard error,
// and then there is no verdict.
#![tactic(auto)]

mod args;
mod fast;
mod file;
mod movement;
mod walk;

use args::{Asked, Job};
use std::env::Env;
use std::io;
use std::rt::Files;
use tell::levels;
use words::{Gathered, error};

fn usage(err: &impl Print) {
    error::say(err, "usage: vrf walk KIND FILE [BITS]\n");
    error::say(err, "       vrf fastarray absent|present FILE [BITS]\n");
    error::say(err, "       vrf movement SCALE WIDTH FILE [BITS]\n");
    error::say(err, "       vrf schema\n");
    error::say(
        err,
        "KIND is none, exact, objects or a level's name, which vrf schema prints; absent or present is the checksum\n",
    );
    error::say(
        err,
        "flag of each item; SCALE is 1, 10 or 100 and WIDTH 8 or 16. The window is the first BITS bits of the file,\n",
    );
    error::say(
        err,
        "without BITS all of it; of an empty file that is no bits. Padded numbers stand in more bytes than they need:\n",
    );
    error::say(
        err,
        "this box's recorder build writes long forms, and nothing is damaged. A leaf's start is the bit of the\n",
    );
    error::say(
        err,
        "window at which its payload stands, counted from the window's first bit, which is 0, however deep the leaf is.\n",
    );
}

fn run(out: &impl Print, err: &impl Print, job: Job, bytes: &[u8], bits: u32) -> io::Result<()> {
    match job {
        Job::Array(walk, root) => walk::array(out, err, walk, root, bytes, bits),
        Job::FastArray(mode) => fast::body(out, err, mode, bytes, bits),
        Job::Movement(scale, width) => movement::record(out, err, scale, width, bytes, bits),
    }
}

// The window that the command line names.
fn window<R: Env + Files>(rt: &R, out: &impl Print, err: &impl Print, job: Job) -> io::Result<()> {
    let at = args::file_place(job);
    let Some(given) = args::count_at(rt, at + 1) else {
        usage(err);
        return Ok(());
    };
    let mut room = [0u8; file::ROOM];
    match file::fetch(rt, err, at, &mut room) {
        Some(bytes) => {
            let bits = args::window_bits(given, bytes.len());
            run(out, err, job, bytes, bits)
        }
        None => Ok(()),
    }
}

fn answer<R: Env + Files>(rt: &R, out: &impl Print, err: &impl Print) -> io::Result<()> {
    match args::command(rt) {
        Some(Asked::Schema) => levels::list(out),
        Some(Asked::Window(job)) => window(rt, out, err, job),
        None => {
            usage(err);
            Ok(())
        }
    }
}

fn main(rt: HostRuntime) {
    let out = Gathered(rt.stdout());
    let err = rt.stderr();
    if let Err(why) = answer(&rt, &out, &err) {
        words::end_output(&err, why);
    }
}
