//! The lines of a header and of a step.
ghost use Rattle.std.specs.Prelude.{◌≡◌, ◌++◌, OnOk, codes};
ghost use Rattle.std.specs.Fmt.{decimal};
ghost use Rattle.std.specs.List.{flat_map};
ghost use Rattle.lr_report.specs.Printed.{lines_of_step, outcome_line, step_text};
ghost use Rattle.lr_script.specs.Script.{line_of};
ghost use Rattle.lr_script.specs.Texts.{header_text, service_text, config_text};

use crate::outcome_lines::put_line;
use lr_base::lr_service::Service;
use lr_base::{Config, NoMemory, Outcome, Step, Text, put_number};
use lr_script::{Header, Name, print_event};

/// Adds the header's line behind `out`. Where there is no memory, part of it may stand there.
pub fn render_header(header: &Header, out: &mut Text) -> Result<(), NoMemory>
    ensures { OnOk result (out.new ≡ out.old ++ line_of (header_text header.now)) }
{
    let Header { service, config } = *header;
    out.extend(b"lazyrep 1 ")?;
    put_service(service, out)?;
    out.extend(b" ")?;
    put_config(config, out)?;
    out.extend(b"\n")
}

fn put_service(service: Name, out: &mut Text) -> Result<(), NoMemory>
    ensures { OnOk result (out.new ≡ out.old ++ service_text service) }
{
    match service {
        Name::Tally => out.extend(b"tally"),
        Name::Mail => out.extend(b"mail"),
        Name::Claims => out.extend(b"claims"),
    }
}

fn put_config(config: Config, out: &mut Text) -> Result<(), NoMemory>
    ensures { OnOk result (out.new ≡ out.old ++ config_text config) }
{
    put_number(config.replicas as u64, out)?;
    out.extend(b" ")?;
    put_number(config.clients as u64, out)?;
    out.extend(b" ")?;
    put_number(config.delta, out)
}

/// Adds the line of the event of the step of this number behind `out`, and the lines of what it did. Where there is no
/// memory, part of them may stand there.
pub fn render_step<S: Service>(
    config: Config,
    number: u64,
    step: &Step<S::Op>,
    out: &mut Text,
) -> Result<(), NoMemory>
    ensures { OnOk result (out.new ≡ out.old ++ step_text S.meaning config number step.now) }
{
    put_step_number(number, out)?;
    print_event::<S>(&step.event, out)?;
    put_step_end(config.replicas, step.outcomes.as_slice(), out)
}

/// Adds the same behind `out` as `render_step`, from the text of the event, where that is at hand already.
pub fn render_printed_step(
    config: Config,
    number: u64,
    text: &[u8],
    outcomes: &[Outcome],
    out: &mut Text,
) -> Result<(), NoMemory>
    ensures { OnOk result (out.new ≡ out.old ++ lines_of_step config number text.now outcomes.now) }
{
    put_step_number(number, out)?;
    out.extend(text)?;
    put_step_end(config.replicas, outcomes, out)
}

// Adds what stands before the event's text in its line.
fn put_step_number(number: u64, out: &mut Text) -> Result<(), NoMemory>
    ensures { OnOk result (out.new ≡ out.old ++ (decimal number ++ codes ": ")) }
{
    put_number(number, out)?;
    out.extend(b": ")
}

// Ends the event's line, and adds those of what it did.
fn put_step_end(replicas: u8, outcomes: &[Outcome], out: &mut Text) -> Result<(), NoMemory>
    ensures { OnOk result (out.new ≡ out.old
        ++ (codes "\n" ++ flat_map (outcome_line replicas) outcomes.now)) }
{
    out.extend(b"\n")?;
    put_outcomes(replicas, outcomes, out)
}

fn put_outcomes(replicas: u8, outcomes: &[Outcome], out: &mut Text) -> Result<(), NoMemory>
    ensures { OnOk result (out.new ≡ out.old ++ flat_map (outcome_line replicas) outcomes.now) }
{
    for outcome in outcomes {
        put_line(replicas, outcome, out)?;
    }
    Ok(())
}
