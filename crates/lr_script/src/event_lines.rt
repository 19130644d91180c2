//! The lines of events, read and printed.
ghost use Rattle.std.specs.Prelude.{◌≡◌, ◌≢◌, true, ◌++◌, ◌<◌, codes, IfOk, IfErr, OnOk, IfSome, IsNone};
ghost use Rattle.std.specs.Fmt.{decimal};
ghost use Rattle.lr_base.specs.declared.names.Config.{Config};
ghost use Rattle.lr_script.specs.Fields.{spaces, IsCallFields, IsPair, IsTriple};
ghost use Rattle.lr_script.specs.Faults.{IsBecause, IsBadEvent, AreNoSending};
ghost use Rattle.lr_script.specs.Faults.{IsBadCall, IsBadSending, IsBadDeliver, IsBadTick, IsBadGossip, IsBadShow};
ghost use Rattle.lr_script.specs.Script.{Fits, IsNoCalled, is_called};
ghost use Rattle.lr_script.specs.declared.refusals.Cause.{Cause};
ghost use Rattle.lr_script.specs.Texts.{event_text, sending_text};

use crate::Cause;
use crate::fields::{EventWord, is_one_field, split_field, word_of};
use lr_base::lr_service::{Kind, OpFault, Service};
use lr_base::{Config, Event, NoMemory, Text, put_number, read_number};
use std::alloc::Global;

// Why a line was not read as an event.
#[derive(Drop)]
pub enum EventFault {
    Bad(Cause),
    NoMemory,
}

// The fields of a call's line behind its word.
struct CallFields<'a> {
    client: &'a [u8],
    replica: &'a [u8],
    reading: &'a [u8],
    op: &'a [u8],
}

// The front end that sends, the replica that it sends to, and the clock's reading.
struct Sending {
    client: u32,
    replica: u8,
    reading: u64,
}

// The event that a line is.
pub fn read_event<S: Service>(
    alloc: Global,
    config: Config,
    text: &[u8],
) -> Result<Event<S::Op>, EventFault>
    ensures fits { IfOk result (Fits S.meaning config) }
    ensures text { IfOk result (λ event. text.now ≡ event_text S.meaning event) }
    ensures err { IfErr result (IsBecause (IsBadEvent S.meaning config text.now)) }
{
    let (word, fields) = split_field(text);
    let Some(word) = word_of(word) else {
        return Err(EventFault::Bad(Cause::Event));
    };
    let Some(fields) = fields else {
        return Err(EventFault::Bad(Cause::Fields));
    };
    match word {
        EventWord::Call => read_call::<S>(alloc, config, fields),
        EventWord::Resend => read_resend::<S>(config, fields),
        EventWord::Ack => read_ack::<S>(config, fields),
        EventWord::Deliver => read_deliver::<S>(fields),
        EventWord::Tick => read_tick::<S>(config, fields),
        EventWord::Gossip => read_gossip::<S>(config, fields),
        EventWord::Show => read_show::<S>(config, fields),
    }
}

fn call_fields(fields: &[u8]) -> Option<CallFields<'_>>
    ensures some { IfSome result (λ it. IsCallFields fields.now it.client.now it.replica.now it.reading.now it.op.now) }
    ensures none { IsNone result → spaces fields.now < 3 }
{
    let (client, fields) = split_field(fields);
    let (replica, fields) = split_field(fields?);
    let (reading, op) = split_field(fields?);
    let op = op?;
    Some(CallFields {
        client,
        replica,
        reading,
        op,
    })
}

fn read_call<S: Service>(
    alloc: Global,
    config: Config,
    fields: &[u8],
) -> Result<Event<S::Op>, EventFault>
    ensures fits { IfOk result (Fits S.meaning config) }
    ensures text { IfOk result (λ event. codes "call " ++ fields.now ≡ event_text S.meaning event) }
    ensures err { IfErr result (IsBecause (IsBadCall S.meaning config fields.now)) }
{
    let Some(fields) = call_fields(fields) else {
        return Err(EventFault::Bad(Cause::Fields));
    };
    let CallFields {
        client,
        replica,
        reading,
        op,
    } = fields;
    let Sending {
        client,
        replica,
        reading,
    } = sending_of(config, client, replica, reading)?;
    let op = called_op::<S>(alloc, op)?;
    Ok(Event::Call {
        client,
        replica,
        reading,
        op,
    })
}

// The client, the replica and the reading that are written so.
fn sending_of(
    config: Config,
    client: &[u8],
    replica: &[u8],
    reading: &[u8],
) -> Result<Sending, EventFault>
    ensures known { IfOk result (λ it. (it.client < config.clients) × (it.replica < config.replicas)) }
    ensures client { IfOk result (λ it. client.now ≡ decimal it.client) }
    ensures replica { IfOk result (λ it. replica.now ≡ decimal it.replica) }
    ensures reading { IfOk result (λ it. reading.now ≡ decimal it.reading) }
    ensures err { IfErr result (IsBecause (AreNoSending config client.now replica.now reading.now)) }
{
    let Some(client) = read_number(client) else {
        return Err(EventFault::Bad(Cause::Number));
    };
    let Some(replica) = read_number(replica) else {
        return Err(EventFault::Bad(Cause::Number));
    };
    let Some(reading) = read_number(reading) else {
        return Err(EventFault::Bad(Cause::Number));
    };
    if config.clients as u64 <= client {
        return Err(EventFault::Bad(Cause::Range));
    }
    if config.replicas as u64 <= replica {
        return Err(EventFault::Bad(Cause::Range));
    }
    Ok(Sending {
        client: client as u32,
        replica: replica as u8,
        reading,
    })
}

// The operation that is written so, if its kind has rules.
fn called_op<S: Service>(alloc: Global, text: &[u8]) -> Result<S::Op, EventFault>
    ensures called { IfOk result (λ op. is_called S.meaning op ≡ true) }
    ensures text { IfOk result (λ op. S.meaning.text op ≡ text.now) }
    ensures err { IfErr result (IsBecause (λ cause. (cause ≡ Cause.Op) × IsNoCalled S.meaning text.now)) }
{
    match S::read_op(alloc, text) {
        Ok(op) => match S::kind(&op) {
            Kind::Query | Kind::Causal => Ok(op),
            Kind::Forced | Kind::Immediate => Err(EventFault::Bad(Cause::Op)),
        },
        Err(OpFault::NotAnOp) => Err(EventFault::Bad(Cause::Op)),
        Err(OpFault::NoMemory) => Err(EventFault::NoMemory),
    }
}

// The three fields that these are, if they are three.
fn triple_of(fields: &[u8]) -> Option<(&[u8], &[u8], &[u8])>
    ensures some { IfSome result (λ it. IsTriple fields.now it.0.now it.1.now it.2.now) }
    ensures none { IsNone result → spaces fields.now ≢ 2 }
{
    let (client, rest) = split_field(fields);
    let (replica, reading) = pair_of(rest?)?;
    Some((client, replica, reading))
}

// The front end, the replica and the reading that stand behind the word of a resend or an acknowledgement.
fn read_sending(config: Config, fields: &[u8]) -> Result<Sending, EventFault>
    ensures known { IfOk result (λ it. (it.client < config.clients) × (it.replica < config.replicas)) }
    ensures text { IfOk result (λ it. fields.now ≡ sending_text it.client it.replica it.reading) }
    ensures err { IfErr result (IsBecause (IsBadSending config fields.now)) }
{
    let Some((client, replica, reading)) = triple_of(fields) else {
        return Err(EventFault::Bad(Cause::Fields));
    };
    sending_of(config, client, replica, reading)
}

fn read_resend<S: Service>(config: Config, fields: &[u8]) -> Result<Event<S::Op>, EventFault>
    ensures fits { IfOk result (Fits S.meaning config) }
    ensures text { IfOk result (λ event. codes "resend " ++ fields.now ≡ event_text S.meaning event) }
    ensures err { IfErr result (IsBecause (IsBadSending config fields.now)) }
{
    let Sending {
        client,
        replica,
        reading,
    } = read_sending(config, fields)?;
    Ok(Event::Resend {
        client,
        replica,
        reading,
    })
}

fn read_ack<S: Service>(config: Config, fields: &[u8]) -> Result<Event<S::Op>, EventFault>
    ensures fits { IfOk result (Fits S.meaning config) }
    ensures text { IfOk result (λ event. codes "ack " ++ fields.now ≡ event_text S.meaning event) }
    ensures err { IfErr result (IsBecause (IsBadSending config fields.now)) }
{
    let Sending {
        client,
        replica,
        reading,
    } = read_sending(config, fields)?;
    Ok(Event::Ack {
        client,
        replica,
        reading,
    })
}

fn read_deliver<S: Service>(fields: &[u8]) -> Result<Event<S::Op>, EventFault>
    ensures fits { (config : Config) → IfOk result (Fits S.meaning config) }
    ensures text { IfOk result (λ event. codes "deliver " ++ fields.now ≡ event_text S.meaning event) }
    ensures err { IfErr result (IsBecause (IsBadDeliver fields.now)) }
{
    if !is_one_field(fields) {
        return Err(EventFault::Bad(Cause::Fields));
    }
    let Some(message) = read_number(fields) else {
        return Err(EventFault::Bad(Cause::Number));
    };
    Ok(Event::Deliver { message })
}

// The two fields that these are, if they are two.
fn pair_of(fields: &[u8]) -> Option<(&[u8], &[u8])>
    ensures some { IfSome result (λ it. IsPair fields.now it.0.now it.1.now) }
    ensures none { IsNone result → spaces fields.now ≢ 1 }
{
    let (first, rest) = split_field(fields);
    let second = rest?;
    if !is_one_field(second) {
        return None;
    }
    Some((first, second))
}

fn read_tick<S: Service>(config: Config, fields: &[u8]) -> Result<Event<S::Op>, EventFault>
    ensures fits { IfOk result (Fits S.meaning config) }
    ensures text { IfOk result (λ event. codes "tick " ++ fields.now ≡ event_text S.meaning event) }
    ensures err { IfErr result (IsBecause (IsBadTick config fields.now)) }
{
    let Some((place, reading)) = pair_of(fields) else {
        return Err(EventFault::Bad(Cause::Fields));
    };
    let Some(place) = read_number(place) else {
        return Err(EventFault::Bad(Cause::Number));
    };
    let Some(reading) = read_number(reading) else {
        return Err(EventFault::Bad(Cause::Number));
    };
    if config.replicas as u64 <= place {
        return Err(EventFault::Bad(Cause::Range));
    }
    Ok(Event::Tick {
        replica: place as u8,
        reading,
    })
}

fn read_gossip<S: Service>(config: Config, fields: &[u8]) -> Result<Event<S::Op>, EventFault>
    ensures fits { IfOk result (Fits S.meaning config) }
    ensures text { IfOk result (λ event. codes "gossip " ++ fields.now ≡ event_text S.meaning event) }
    ensures err { IfErr result (IsBecause (IsBadGossip config fields.now)) }
{
    let Some((from, to)) = pair_of(fields) else {
        return Err(EventFault::Bad(Cause::Fields));
    };
    let Some(from) = read_number(from) else {
        return Err(EventFault::Bad(Cause::Number));
    };
    let Some(to) = read_number(to) else {
        return Err(EventFault::Bad(Cause::Number));
    };
    if config.replicas as u64 <= from {
        return Err(EventFault::Bad(Cause::Range));
    }
    if config.replicas as u64 <= to {
        return Err(EventFault::Bad(Cause::Range));
    }
    if from == to {
        return Err(EventFault::Bad(Cause::Range));
    }
    Ok(Event::Gossip {
        from: from as u8,
        to: to as u8,
    })
}

fn read_show<S: Service>(config: Config, fields: &[u8]) -> Result<Event<S::Op>, EventFault>
    ensures fits { IfOk result (Fits S.meaning config) }
    ensures text { IfOk result (λ event. codes "show " ++ fields.now ≡ event_text S.meaning event) }
    ensures err { IfErr result (IsBecause (IsBadShow config fields.now)) }
{
    if !is_one_field(fields) {
        return Err(EventFault::Bad(Cause::Fields));
    }
    let Some(replica) = read_number(fields) else {
        return Err(EventFault::Bad(Cause::Number));
    };
    if config.replicas as u64 <= replica {
        return Err(EventFault::Bad(Cause::Range));
    }
    Ok(Event::Show {
        replica: replica as u8,
    })
}

/// Adds the event's line behind `out`, without its LF. Where there was no memory, a part of the line may be there.
pub fn print_event<S: Service>(event: &Event<S::Op>, out: &mut Text) -> Result<(), NoMemory>
    ensures { OnOk result (out.new ≡ out.old ++ event_text S.meaning event.now) }
{
    match event {
        Event::Call {
            client,
            replica,
            reading,
            op,
        } => {
            put_sending(b"call ", *client, *replica, *reading, out)?;
            out.extend(b" ")?;
            S::print_op(op, out)
        }
        Event::Resend {
            client,
            replica,
            reading,
        } => put_sending(b"resend ", *client, *replica, *reading, out),
        Event::Ack {
            client,
            replica,
            reading,
        } => put_sending(b"ack ", *client, *replica, *reading, out),
        Event::Deliver { message } => {
            out.extend(b"deliver ")?;
            put_number(*message, out)
        }
        Event::Tick { replica, reading } => put_pair(b"tick ", *replica as u64, *reading, out),
        Event::Gossip { from, to } => put_pair(b"gossip ", *from as u64, *to as u64, out),
        Event::Show { replica } => {
            out.extend(b"show ")?;
            put_number(*replica as u64, out)
        }
    }
}

// A word, and behind it two numbers with one space between them.
fn put_pair(word: &[u8], first: u64, second: u64, out: &mut Text) -> Result<(), NoMemory>
    ensures { OnOk result (out.new ≡ out.old ++ (word.now ++ (decimal first ++ (codes " " ++ decimal second)))) }
{
    out.extend(word)?;
    put_number(first, out)?;
    out.extend(b" ")?;
    put_number(second, out)
}

// A word, and behind it a client, a replica and a reading, with one space between them.
fn put_sending(
    word: &[u8],
    client: u32,
    replica: u8,
    reading: u64,
    out: &mut Text,
) -> Result<(), NoMemory>
    ensures { OnOk result (out.new ≡ out.old ++ (word.now ++ sending_text client replica reading)) }
{
    out.extend(word)?;
    put_number(client as u64, out)?;
    out.extend(b" ")?;
    put_number(replica as u64, out)?;
    out.extend(b" ")?;
    put_number(reading, out)
}
