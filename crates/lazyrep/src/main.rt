//! The program `lazyrep`: makes the real objects and hands them to the top call.
#![tactic(auto)]

mod top;

use lr_outside::{Reading, Writing};
use std::alloc::Global;
use std::env;
use std::process::ExitCode;
use std::rt::Env;
use top::lazyrep_top;

fn main(rt: HostRuntime) -> ExitCode {
    let words = words_of(&rt, rt.alloc());
    let mut input = Reading::new(rt.stdin());
    let mut out = Writing::new(rt.stdout());
    let mut err = Writing::new(rt.stderr());
    let status = lazyrep_top(rt.alloc(), words.as_slice(), &mut input, &mut out, &mut err);
    ExitCode::from(status.code)
}

// The program's words. Words that can't be had as text are none.
fn words_of(rt: &(impl Env + AllocGlobal), alloc: Global) -> Vec<String> {
    let Ok(args) = env::args(rt) else {
        return Vec::new(alloc);
    };
    match args.collect(alloc) {
        Ok(words) => words,
        Err(_) => Vec::new(alloc),
    }
}
