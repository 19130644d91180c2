//! The program `draw`: makes the real objects and hands them to the top call.
#![tactic(auto)]

mod acts;
mod arrows;
mod bars;
mod command;
mod escapes;
mod fields;
mod history;
mod kinds;
mod lanes;
mod legend;
mod lines;
mod marks;
mod picture;
mod printing;
mod reading;
mod sends;
mod steps;
mod top;

use lr_outside::{Reading, Writing};
use std::alloc::Global;
use std::env;
use std::process::ExitCode;
use std::rt::Env;
use top::draw_top;

fn main(rt: HostRuntime) -> ExitCode {
    let words = words_of(&rt, rt.alloc());
    let mut input = Reading::new(rt.stdin());
    let mut out = Writing::new(rt.stdout());
    let mut err = Writing::new(rt.stderr());
    let status = draw_top(rt.alloc(), words.as_slice(), &mut input, &mut out, &mut err);
    ExitCode::from(status.code)
}

// The program's words. Words that can't be had as text are none.
fn words_of(rt: &(impl Env + AllocGlobal), alloc: Global) -> Vec<String> {
    let Ok(args) = env::args(rt) else {
        return Vec::new(alloc);
    };
    match args.collect(alloc) {
        Ok(words) => words,
        Err(_) => Vec::new(alloc),
    }
}
