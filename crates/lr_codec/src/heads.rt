//! What stable bytes begin with: the replica, its views and its stamps.
ghost use Rattle.std.specs.Prelude.{◌≡◌, ◌+◌, ◌≤◌, ◌<◌, ◌==◌, IfOk, nat_le};
ghost use Rattle.lr_base.specs.Bytes.{Reads};
ghost use Rattle.lr_base.specs.Formats.{number_of, only_where};
ghost use Rattle.lr_base.specs.Limits.{most_parts};
ghost use Rattle.lr_base.specs.declared.bytes.BadWhat.TheVariants as bad;
ghost use Rattle.lr_codec.specs.Parts.{byte_where, number_where};
ghost use Rattle.lr_codec.specs.States.{flag_format, head_format, is_count_of, is_replica_of, magic, may_be_open};
ghost use Rattle.lr_codec.specs.States.{replica_format, stamps_format, views_format};

use crate::parts::{part_field, stamp_field};
use lr_base::lr_service::Service;
use lr_base::{
    BadWhat, FieldFault, MOST_REPLICAS, Rows, Stamp, byte_field, fault_at, number_field,
    short_field,
};

/// Whose bytes are read: anyone's, or those of one replica of so many.
pub(crate) type Whose = Option<(u8, u8)>;

/// How many replicas there are, and which of them it is.
#[derive(Clone, Copy)]
pub(crate) struct Head {
    pub(crate) replicas: u8,
    pub(crate) me: u8,
}

/// The clock, the view, the view of the order log, and whether it is open.
#[derive(Clone, Copy)]
pub(crate) struct Views {
    pub(crate) clock: u64,
    pub(crate) view: u64,
    pub(crate) log_view: u64,
    pub(crate) opened: bool,
}

/// The stamps that a replica keeps of itself, and the greatest number that it told for a freeze.
#[derive(Drop)]
pub(crate) struct Stamps {
    pub(crate) rep_ts: Stamp,
    pub(crate) val_ts: Stamp,
    pub(crate) order_ts: Stamp,
    pub(crate) imm_ts: Stamp,
    pub(crate) top: u64,
}

/// The number that the first four bytes are.
pub(crate) const MAGIC: u32 = 0x4c5a_5231;

/// What stands before the lists.
#[derive(Drop)]
pub(crate) struct Front {
    pub(crate) head: Head,
    pub(crate) views: Views,
    pub(crate) stamps: Stamps,
    pub(crate) table: Rows<Stamp>,
}

// The first four bytes.
fn magic_field(bytes: &[u8]) -> Result<(u32, &[u8]), FieldFault>
    ensures { Reads ((only_where (λ number. number == magic) bad.Magic (number_of 4)).field bytes.now) result }
{
    let (number, rest) = short_field(bytes)?;
    if number != MAGIC {
        return Err(fault_at(bytes, BadWhat::Magic));
    }
    Ok((number, rest))
}

// A byte that is this number.
fn known_field(known: u8, bytes: &[u8]) -> Result<(u8, &[u8]), FieldFault>
    ensures { Reads ((byte_where (λ number. number == known)).field bytes.now) result }
{
    let (number, rest) = byte_field(bytes)?;
    if number != known {
        return Err(fault_at(bytes, BadWhat::Range));
    }
    Ok((number, rest))
}

// Whether so many replicas are wanted.
fn is_count_of(whose: Whose, replicas: u8) -> bool
    ensures { result ≡ is_count_of whose replicas }
{
    match whose {
        Some((own, _)) => replicas == own,
        None => true,
    }
}

// Whether the bytes of this replica are wanted.
fn is_replica_of(whose: Whose, me: u8) -> bool
    ensures { result ≡ is_replica_of whose me }
{
    match whose {
        Some((_, own)) => me == own,
        None => true,
    }
}

// How many replicas there are, and which of them it is.
fn replica_field(whose: Whose, bytes: &[u8]) -> Result<(Head, &[u8]), FieldFault>
    ensures reads { Reads ((replica_format whose).field bytes.now) result }
    ensures some { IfOk result (λ parts. 1 ≤ parts.0.replicas) }
    ensures few { IfOk result (λ parts. parts.0.replicas + 1 ≤ most_parts) }
{
    let (replicas, rest) = byte_field(bytes)?;
    if replicas < 1 || replicas > MOST_REPLICAS || !is_count_of(whose, replicas) {
        return Err(fault_at(bytes, BadWhat::Range));
    }
    let (me, end) = byte_field(rest)?;
    if me >= replicas || !is_replica_of(whose, me) {
        return Err(fault_at(rest, BadWhat::Range));
    }
    Ok((Head { replicas, me }, end))
}

// What the bytes begin with.
pub(crate) fn head_field<S: Service>(
    whose: Whose,
    bytes: &[u8],
) -> Result<(Head, &[u8]), FieldFault>
    ensures reads { Reads ((head_format S.NUMBER whose).field bytes.now) result }
    ensures some { IfOk result (λ parts. 1 ≤ parts.0.replicas) }
    ensures few { IfOk result (λ parts. parts.0.replicas + 1 ≤ most_parts) }
{
    let (_magic, rest) = magic_field(bytes)?;
    let (_service, rest) = known_field(S::NUMBER, rest)?;
    replica_field(whose, rest)
}

// A byte 0, or 1 where it may be.
fn flag_field(may: bool, bytes: &[u8]) -> Result<(bool, &[u8]), FieldFault>
    ensures { Reads ((flag_format may).field bytes.now) result }
{
    let (flag, rest) = byte_field(bytes)?;
    if flag == 0 || (flag == 1 && may) {
        return Ok((flag == 1, rest));
    }
    Err(fault_at(bytes, BadWhat::Range))
}

// A view that isn't above this one.
fn log_view_field(view: u64, bytes: &[u8]) -> Result<(u64, &[u8]), FieldFault>
    ensures { Reads ((number_where (λ log_view. nat_le log_view view)).field bytes.now) result }
{
    let (log_view, rest) = number_field(bytes)?;
    if log_view > view {
        return Err(fault_at(bytes, BadWhat::Range));
    }
    Ok((log_view, rest))
}

// Whether a replica may have opened the view of its log.
fn may_be_open(head: Head, view: u64, log_view: u64) -> bool
    requires { 0 < head.replicas }
    ensures { result ≡ may_be_open head view log_view }
{
    log_view == view && u64::from(head.me) == view % u64::from(head.replicas)
}

// The clock and the views.
pub(crate) fn views_field(head: Head, bytes: &[u8]) -> Result<(Views, &[u8]), FieldFault>
    requires { 0 < head.replicas }
    ensures { Reads ((views_format head).field bytes.now) result }
{
    let (clock, rest) = number_field(bytes)?;
    let (view, rest) = part_field(rest)?;
    let (log_view, rest) = log_view_field(view, rest)?;
    let (opened, end) = flag_field(may_be_open(head, view, log_view), rest)?;
    let views = Views {
        clock,
        view,
        log_view,
        opened,
    };
    Ok((views, end))
}

// The stamps.
pub(crate) fn stamps_field(parts: u8, bytes: &[u8]) -> Result<(Stamps, &[u8]), FieldFault>
    requires { parts ≤ most_parts }
    ensures { Reads ((stamps_format parts).field bytes.now) result }
{
    let (rep_ts, rest) = stamp_field(parts, bytes)?;
    let (val_ts, rest) = stamp_field(parts, rest)?;
    let (order_ts, rest) = stamp_field(parts, rest)?;
    let (imm_ts, rest) = stamp_field(parts, rest)?;
    let (top, end) = part_field(rest)?;
    let stamps = Stamps {
        rep_ts,
        val_ts,
        order_ts,
        imm_ts,
        top,
    };
    Ok((stamps, end))
}
