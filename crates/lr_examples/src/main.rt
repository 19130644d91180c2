//! Runs each script that standard input names, and says whether its history is the one in the file beside it.
#![tactic(auto)]

ghost use Rattle.std.specs.Prelude.{◌≡◌, ◌≢◌, codes};

use lr_base::Rows;
use lr_outside::{MemSink, MemSource};
use lr_sim::{SimEnd, sim_command};
use std::alloc::Global;
use std::{fs, io};

fn main(rt: HostRuntime) -> io::Result<()> {
    let alloc = rt.alloc();
    for name in rt.lines(alloc) {
        let name = name?;
        let script = fs::read_to_string(&rt, name.as_str())?;
        let want = fs::read_to_string(&rt, format!(in alloc; "{name}.stdout")?.as_str())?;
        let verdict = match history_of(alloc, script.as_bytes()) {
            Ok(history) => verdict(history.bytes(), want.as_bytes()),
            Err(_) => "no history",
        };
        println!(rt; "{name}: {verdict}")?;
    }
    Ok(())
}

// What is printed of a history, by the one that it should be.
fn verdict(history: &[u8], want: &[u8]) -> &'static str
    ensures same { history.now ≡ want.now → result.now ≡ codes "as wanted" }
    ensures other { history.now ≢ want.now → result.now ≡ codes "differs" }
{
    if history == want {
        "as wanted"
    } else {
        "differs"
    }
}

// The sink that the script's history was written to.
fn history_of(alloc: Global, script: &[u8]) -> Result<MemSink, SimEnd> {
    let Ok(bytes) = Rows::from_slice(alloc, script) else {
        return Err(SimEnd::NoMemory);
    };
    let mut input = MemSource::new(bytes, Rows::new(alloc));
    let mut out = MemSink::new(alloc, Rows::new(alloc));
    match sim_command(alloc, &mut input, &mut out) {
        SimEnd::Ok => Ok(out),
        end => Err(end),
    }
}
