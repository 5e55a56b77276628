// Judges each file that the arguments name, one line each. A file that cannot be read has no line.
#![tactic(auto)]

use edition::Edition;
use std::env::Env;
use std::fs::File;
use std::str;

// Judges the file that argument i names. The answer is whether there is such an argument.
fn one(rt: HostRuntime, i: usize) -> bool {
    let mut path = [0u8; 4096];
    let Ok(length) = rt.arg(i, &mut path) else {
        return false;
    };
    judge(rt, &path[..length]);
    true
}

// Judges the file of a path.
fn judge(rt: HostRuntime, path: &[u8]) {
    let mut err = rt.stderr();
    let Ok(text) = str::from_utf8(path) else {
        let _ = input::not_read(&mut err);
        return;
    };
    let Ok(mut file) = File::open(&rt, text) else {
        let _ = input::not_read(&mut err);
        return;
    };
    report::check(Edition::One, &mut file, &mut rt.stdout(), &mut err);
}

fn main(rt: HostRuntime) {
    for i in 1..100 {
        if !one(rt, i) {
            return;
        }
    }
}
