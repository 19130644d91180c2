//! Whole states, read.
ghost use Rattle.std.specs.Prelude.{◌≡◌, ◌+◌, ◌≤◌, IfOk};
ghost use Rattle.lr_base.specs.Bytes.{Reads};
ghost use Rattle.lr_base.specs.Limits.{most_parts};
ghost use Rattle.lr_codec.specs.States.{front_format, lists_format, state_format, state_with};

use crate::frozen::{Frozen, frozen_field, may_freeze};
use crate::heads::{Front, Whose, head_field, stamps_field, views_field};
use crate::item_rows::received_of;
use crate::lists::{calls_field, log_field, marks_field, order_field, table_field};
use crate::parts::value_field;
use crate::state::StableState;
use lr_base::lr_service::Service;
use lr_base::{Cid, Entry, FieldFault, Known, LogAck, LogUpdate, Rows, Stamp};
use std::alloc::Global;

/// The lists between the table and the value.
#[derive(Drop)]
pub(crate) struct Lists<O> {
    pub(crate) updates: Rows<LogUpdate<O>>,
    pub(crate) acks: Rows<LogAck>,
    pub(crate) calls: Rows<(Cid, Known)>,
    pub(crate) base: u64,
    pub(crate) entries: Rows<Entry<O>>,
    pub(crate) frozen: Frozen<O>,
    pub(crate) marks: Rows<(u64, u64)>,
}

// What stands before the lists.
fn front_field<S: Service>(
    alloc: Global,
    whose: Whose,
    bytes: &[u8],
) -> Result<(Front, &[u8]), FieldFault>
    ensures reads { Reads ((front_format S.NUMBER whose).field bytes.now) result }
    ensures few { IfOk result (λ parts. parts.0.head.replicas + 1 ≤ most_parts) }
{
    let (head, rest) = head_field::<S>(whose, bytes)?;
    let (views, rest) = views_field(head, rest)?;
    let (stamps, rest) = stamps_field(head.replicas + 1, rest)?;
    let (table, end) = table_field(alloc, head.replicas, rest)?;
    let front = Front {
        head,
        views,
        stamps,
        table,
    };
    Ok((front, end))
}

// The lists of a replica that received so much.
fn lists_field<'a, S: Service>(
    alloc: Global,
    replicas: u8,
    rep_ts: &Stamp,
    opened: bool,
    bytes: &'a [u8],
) -> Result<(Lists<S::Op>, &'a [u8]), FieldFault>
    requires { replicas + 1 ≤ most_parts }
    ensures { Reads ((lists_format S.meaning replicas rep_ts.now opened).field bytes.now) result }
{
    let (log, rest) = log_field::<S>(alloc, replicas, rep_ts, bytes)?;
    let (calls, rest) = calls_field(alloc, replicas, rest)?;
    let (order, rest) = order_field::<S>(alloc, replicas + 1, rest)?;
    let may = may_freeze(opened, received_of(rep_ts, replicas), &order);
    let (frozen, rest) = frozen_field::<S>(alloc, replicas + 1, may, &order, rest)?;
    let (marks, end) = marks_field(alloc, rest)?;
    let (updates, acks) = log;
    let (base, entries) = order;
    let lists = Lists {
        updates,
        acks,
        calls,
        base,
        entries,
        frozen,
        marks,
    };
    Ok((lists, end))
}

// A state of these parts.
fn state_with<S: Service>(front: Front, lists: Lists<S::Op>, value: S) -> StableState<S>
    ensures { result ≡ state_with front lists value }
{
    let stamps = front.stamps;
    StableState {
        replicas: front.head.replicas,
        me: front.head.me,
        clock: front.views.clock,
        view: front.views.view,
        log_view: front.views.log_view,
        opened: front.views.opened,
        rep_ts: stamps.rep_ts,
        val_ts: stamps.val_ts,
        order_ts: stamps.order_ts,
        imm_ts: stamps.imm_ts,
        top: stamps.top,
        table: front.table,
        updates: lists.updates,
        acks: lists.acks,
        calls: lists.calls,
        base: lists.base,
        entries: lists.entries,
        frozen: lists.frozen,
        marks: lists.marks,
        value,
    }
}

/// The state that the bytes begin with.
pub(crate) fn state_field<S: Service>(
    alloc: Global,
    whose: Whose,
    bytes: &[u8],
) -> Result<(StableState<S>, &[u8]), FieldFault>
    ensures { Reads ((state_format S.meaning S.encoding S.NUMBER whose).field bytes.now) result }
{
    let (front, rest) = front_field::<S>(alloc, whose, bytes)?;
    let replicas = front.head.replicas;
    let opened = front.views.opened;
    let (lists, rest) = lists_field::<S>(alloc, replicas, &front.stamps.rep_ts, opened, rest)?;
    let (value, end) = value_field::<S>(alloc, rest)?;
    Ok((state_with(front, lists, value), end))
}
