//! Prints headers, outcomes and a history, whose lines stand in `stdout` as they were worked by hand.
#![tactic(auto)]

mod outcomes;
mod steps;

use lr_base::Text;
use lr_outside::{Writing, write_whole};
use std::process::ExitCode;

fn main(rt: HostRuntime) -> ExitCode {
    let mut out = Text::new(rt.alloc());
    let Ok(()) = steps::put_all(rt.alloc(), &mut out) else {
        return ExitCode::FAILURE;
    };
    match write_whole(&mut Writing::new(rt.stdout()), out.as_slice()) {
        Ok(()) => ExitCode::SUCCESS,
        Err(_failed) => ExitCode::FAILURE,
    }
}
