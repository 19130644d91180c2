//! The command `sim`: reads a script to its end, runs it, and writes its history.
ghost use Rattle.std.specs.Prelude.{ℕ, List, [], ◌≡◌, ◌++◌, OnOk};
ghost use Rattle.lr_base.specs.Events.{FitsRun};
ghost use Rattle.lr_graph.specs.Made.{made_step};
ghost use Rattle.lr_graph.specs.Runs.{stepped};
ghost use Rattle.lr_outside.specs.Faults.{faults_after};
ghost use Rattle.lr_outside.specs.Seen.{sink_change, source_change, SourceChange};
ghost use Rattle.lr_report.specs.Printed.{step_text};
ghost use Rattle.lr_script.specs.Script.{HasHeader, IsNamed, IsScript};
ghost use Rattle.lr_script.specs.Texts.{event_text};
ghost use Rattle.lr_sim.specs.Ends.{EndMeans, HasReadInput, IsComplete};
ghost use Rattle.lr_sim.specs.Headline.{HasBegun, HasPrinted};
ghost use Rattle.lr_sim.specs.Parts.{EndMeansOf, faults_run, HasMoved, IsFault};
ghost use Rattle.lr_world.specs.Worlds.{run_of, setup_of};

use lr_base::lr_service::Service;
use lr_base::{Event, MOST_SCRIPT_BYTES, NoMemory, Text};
use lr_graph::{a_made_history_goes_on, what_is_made_is_legal};
use lr_outside::{Failed, ReadEnd, Sink, Source, read_up_to, write_whole};
use lr_report::{render_header, render_printed_step};
use lr_script::{
    Cause, Header, Name, ScriptFault, read_header, read_script, split_event_line,
    what_is_refused_means_nothing,
};
use lr_world::Run;
use std::alloc::Global;
use std::mem;
use svc_claims::Claims;
use svc_mail::Mail;
use svc_tally::Tally;

// One byte more than a script may have.
const MOST_INPUT: usize = MOST_SCRIPT_BYTES + 1;

// How much text is gathered before it is written.
const PIECE: usize = 8192;

/// How a simulation ended.
#[derive(Clone, Copy, PartialEq, Eq)]
pub enum SimEnd {
    /// The history was written.
    Ok,
    /// The input is no script: its first bad line, and what is wrong with it.
    Script { line: u64, cause: Cause },
    /// Reading failed.
    ReadFault,
    /// Writing failed.
    WriteFault,
    NoMemory,
}

/// Reads a script to its end, runs it, and writes its history.
pub fn sim_command<R: Source, W: Sink>(alloc: Global, input: &mut R, out: &mut W) -> SimEnd
    ensures meant { EndMeans (source_change R.seen input.old input.new) (sink_change W.seen out.old out.new) result }
    ensures complete { IsComplete
        (source_change R.seen input.old input.new) (sink_change W.seen out.old out.new) result }
{
    let bytes = match read_up_to(alloc, input, MOST_INPUT) {
        Ok(bytes) => bytes,
        Err(ReadEnd::Failed) => return SimEnd::ReadFault,
        Err(ReadEnd::NoMemory) => return SimEnd::NoMemory,
    };
    simulate(alloc, bytes.as_slice(), out)
}

// Runs the script that the bytes are, whatever they were read from.
fn simulate<W: Sink>(alloc: Global, bytes: &[u8], out: &mut W) -> SimEnd
    ensures { (source : SourceChange) → HasReadInput source bytes.now
        → EndMeans source (sink_change W.seen out.old out.new) result }
{
    what_is_refused_means_nothing::<Tally>();
    what_is_refused_means_nothing::<Mail>();
    what_is_refused_means_nothing::<Claims>();
    match read_header(bytes) {
        Ok(header) => match header.service {
            Name::Tally => simulate_script::<Tally, W>(alloc, &header, bytes, out),
            Name::Mail => simulate_script::<Mail, W>(alloc, &header, bytes, out),
            Name::Claims => simulate_script::<Claims, W>(alloc, &header, bytes, out),
        },
        Err(fault) => refused(fault),
    }
}

fn refused(fault: ScriptFault) -> SimEnd
    ensures { IsFault fault result }
{
    match fault {
        ScriptFault::Line { line, cause } => SimEnd::Script { line, cause },
        ScriptFault::NoMemory => SimEnd::NoMemory,
    }
}

// Runs the script that the bytes are, for the service that its header names.
fn simulate_script<S: Service, W: Sink>(
    alloc: Global,
    header: &Header,
    bytes: &[u8],
    out: &mut W,
) -> SimEnd
    requires header { HasHeader header.now bytes.now }
    requires named { IsNamed S.NUMBER bytes.now }
    ensures { EndMeansOf S.meaning header.now bytes.now (sink_change W.seen out.old out.new) result }
{
    what_is_refused_means_nothing::<S>();
    match read_script::<S>(alloc, bytes) {
        Ok(events) => match write_history::<S, W>(alloc, header, bytes, events.as_slice(), out) {
            Ok(()) => SimEnd::Ok,
            Err(RunFault::Write) => SimEnd::WriteFault,
            Err(RunFault::NoMemory) => SimEnd::NoMemory,
        },
        Err(bad) => refused(bad),
    }
}

// Why a history was not written whole.
#[derive(Clone, Copy, PartialEq, Eq)]
enum RunFault {
    Write,
    NoMemory,
}

impl From<NoMemory> for RunFault {
    ghost use Rattle.std.specs.Prelude.{◌≡◌};
    ghost use Rattle.lr_sim.specs.declared.command.RunFault.TheVariants.{NoMemory as NoMemoryLeft};

    ghost from_gives = { λ _ fault. fault ≡ NoMemoryLeft };

    fn from(_no_memory: NoMemory) -> RunFault {
        RunFault::NoMemory
    }
}

impl From<Failed> for RunFault {
    ghost use Rattle.std.specs.Prelude.{◌≡◌};
    ghost use Rattle.lr_sim.specs.declared.command.RunFault.TheVariants.{Write};

    ghost from_gives = { λ _ fault. fault ≡ Write };

    fn from(_failed: Failed) -> RunFault {
        RunFault::Write
    }
}

// Runs the events of a script's bytes one after another, and writes the history in pieces of some kilobytes. What an
// event was written as is copied from the bytes.
fn write_history<S: Service, W: Sink>(
    alloc: Global,
    header: &Header,
    bytes: &[u8],
    events: &[Event<S::Op>],
    out: &mut W,
) -> Result<(), RunFault>
    requires { IsScript S.meaning header.now events.now bytes.now }
    ensures whole { OnOk result
        (HasPrinted S.meaning header.now events.now (W.seen out.old).held (W.seen out.new).held []) }
    ensures part { HasBegun S.meaning header.now events.now (W.seen out.old).held (W.seen out.new).held }
    ensures counted { (W.seen out.new).faults ≡ faults_run (W.seen out.old).faults result }
{
    a_made_history_goes_on::<S>();
    what_is_made_is_legal::<S>();
    let mut run = Run::<S>::new(alloc, header.config)?;
    let mut text = Text::new(alloc);
    render_header(header, &mut text)?;
    let mut lines = &bytes[text.len()..];
    let mut number = 0;
    for event in events {
        let (line, later) = split_event_line::<S>(lines);
        number += 1;
        make_step(&mut run, number, event, line, &mut text)?;
        write_full(&mut text, out)?;
        lines = later;
    }
    write_whole(out, text.as_slice())?;
    // The process ends soon, so what the run has needn't be given back.
    mem::forget(run);
    Ok(())
}

// Makes the event of this number, and adds the lines of its step. Its own line has been printed.
fn make_step<S: Service>(
    run: &mut Run<S>,
    number: u64,
    event: &Event<S::Op>,
    line: &[u8],
    text: &mut Text,
) -> Result<(), NoMemory>
    requires fits { FitsRun S.meaning (setup_of run.old) event.now }
    requires line { line.now ≡ event_text S.meaning event.now }
    ensures setup { setup_of run.new ≡ setup_of run.old }
    ensures made { OnOk result (run_of run.new ≡ (stepped S.meaning (run_of run.old) event.now).run) }
    ensures text { OnOk result (text.new ≡ text.old ++ step_text S.meaning (setup_of run.old) number
        (made_step S.meaning (run_of run.old) event.now)) }
{
    run.step(event)?;
    render_printed_step(run.config(), number, line, run.lines(), text)
}

// Writes the gathered text, if it is enough for a piece.
fn write_full<W: Sink>(text: &mut Text, out: &mut W) -> Result<(), Failed>
    ensures moved { OnOk result (HasMoved (W.seen out.old).held (W.seen out.new).held text.old text.new) }
    ensures part { (left : List ℕ) × HasMoved (W.seen out.old).held (W.seen out.new).held text.old left }
    ensures counted { (W.seen out.new).faults ≡ faults_after (W.seen out.old).faults result }
{
    if text.len() >= PIECE {
        write_whole(out, text.as_slice())?;
        text.clear();
    }
    Ok(())
}
