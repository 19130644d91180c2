//! A replica's state as one line.
ghost use Rattle.std.specs.Prelude.{◌≡◌, ◌++◌, ◌<◌, codes, length, drop, OnOk};
ghost use Rattle.std.specs.Fmt.{decimal};
ghost use Rattle.std.specs.List.{flat_map};
ghost use Rattle.lr_base.specs.Stamps.{part};
ghost use Rattle.lr_report.specs.Printed.{clock_fields, call_fields, joined_by, log_fields};

use crate::names::put_list;
use lr_base::{NoMemory, Stamp, StateLine, Text, put_number};

// Adds the state behind `out`, without what stands around it in its line.
pub fn put_state(replicas: u8, line: &StateLine, out: &mut Text) -> Result<(), NoMemory>
    ensures { OnOk result (out.new ≡ out.old
        ++ (clock_fields line.now ++ (log_fields replicas line.now ++ call_fields line.now))) }
{
    put_clock_fields(line, out)?;
    put_log_fields(replicas, line, out)?;
    put_call_fields(replicas, line, out)
}

fn put_clock_fields(line: &StateLine, out: &mut Text) -> Result<(), NoMemory>
    ensures { OnOk result (out.new ≡ out.old ++ clock_fields line.now) }
{
    out.extend(b"state r")?;
    put_number(line.replica as u64, out)?;
    out.extend(b" view ")?;
    put_number(line.view, out)?;
    out.extend(b" clock ")?;
    put_number(line.clock, out)
}

fn put_log_fields(replicas: u8, line: &StateLine, out: &mut Text) -> Result<(), NoMemory>
    ensures { OnOk result (out.new ≡ out.old ++ log_fields replicas line.now) }
{
    out.extend(b" received ")?;
    put_stamp(&line.received, out)?;
    out.extend(b" log ")?;
    put_list(replicas, line.log.as_slice(), out)?;
    out.extend(b" acks ")?;
    put_list(replicas, line.acks.as_slice(), out)
}

fn put_call_fields(replicas: u8, line: &StateLine, out: &mut Text) -> Result<(), NoMemory>
    ensures { OnOk result (out.new ≡ out.old ++ call_fields line.now) }
{
    out.extend(b" calls ")?;
    put_list(replicas, line.calls.as_slice(), out)?;
    out.extend(b" held ")?;
    put_list(replicas, line.held.as_slice(), out)?;
    out.extend(b" frozen ")?;
    put_list(replicas, line.marks.as_slice(), out)
}

// Adds the stamp's parts behind `out`, with a dot between each two.
fn put_stamp(stamp: &Stamp, out: &mut Text) -> Result<(), NoMemory>
    ensures { OnOk result (out.new ≡ out.old ++ joined_by (codes ".") decimal stamp.now) }
{
    if stamp.parts() == 0 {
        return out.extend(b"-");
    }
    put_number(stamp.part(0), out)?;
    put_later_parts(stamp, out)
}

fn put_later_parts(stamp: &Stamp, out: &mut Text) -> Result<(), NoMemory>
    requires { 0 < length stamp.now }
    ensures { OnOk result (out.new ≡ out.old
        ++ flat_map (λ number. codes "." ++ decimal number) (drop 1 stamp.now)) }
{
    for place in 1..stamp.parts() {
        put_next_part(stamp.part(place), out)?;
    }
    Ok(())
}

fn put_next_part(number: u64, out: &mut Text) -> Result<(), NoMemory>
    ensures { OnOk result (out.new ≡ out.old ++ (codes "." ++ decimal number)) }
{
    out.extend(b".")?;
    put_number(number, out)
}
