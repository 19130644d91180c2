//! Whole states, written.
ghost use Rattle.std.specs.Prelude.{◌≡◌, ◌≤◌, ◌++◌, [], ◌&&◌, true, length, None, Some, OnOk};
ghost use Rattle.std.specs.List.{list_all};
ghost use Rattle.lr_base.specs.Limits.{order_room};
ghost use Rattle.lr_base.specs.Formats.{listed};
ghost use Rattle.lr_codec.specs.Ranges.{is_own, is_own_entry, is_own_frozen, is_own_update};
ghost use Rattle.lr_codec.specs.Lists.{calls_format, entry_count_format, entry_format, log_format};
ghost use Rattle.lr_codec.specs.Lists.{marks_format, order_format};
ghost use Rattle.lr_codec.specs.States.{flag_format, frozen_call_format, frozen_format, front_format, front_of};
ghost use Rattle.lr_codec.specs.States.{head_format, lists_format, lists_of, numbered_format};
ghost use Rattle.lr_codec.specs.States.{replica_format, stamps_format, stamps_of, state_format, views_format};

use crate::frozen::Frozen;
use crate::heads::{Head, MAGIC, Views};
use crate::readers::{CallRows, EntryRows, MarkRows, StampRows};
use crate::state::StableState;
use crate::writing::{put_cid, put_op, put_stamp, put_value};
use crate::writing_log::put_items;
use crate::writing_rows::put_rows;
use lr_base::lr_service::Service;
use lr_base::{
    Call, Cid, Entry, Known, LogAck, LogUpdate, NoMemory, Text, put_byte_field, put_count_field,
    put_number_field, put_short_field,
};
use std::marker::PhantomData;

// Adds what the bytes begin with behind `out`.
fn put_head<S: Service>(head: Head, out: &mut Text) -> Result<(), NoMemory>
    ensures { OnOk result (out.new ≡ out.old ++ (head_format S.NUMBER None).written head) }
{
    put_short_field(MAGIC, out)?;
    put_byte_field(S::NUMBER, out)?;
    put_replica(head, out)
}

// Adds the count of replicas and the replica's number behind `out`.
fn put_replica(head: Head, out: &mut Text) -> Result<(), NoMemory>
    ensures { OnOk result (out.new ≡ out.old ++ (replica_format None).written head) }
{
    put_byte_field(head.replicas, out)?;
    put_byte_field(head.me, out)
}

// Adds a byte 1 or 0 behind `out`.
fn put_flag(flag: bool, out: &mut Text) -> Result<(), NoMemory>
    ensures { OnOk result (out.new ≡ out.old ++ (flag_format true).written flag) }
{
    if flag {
        put_byte_field(1, out)
    } else {
        put_byte_field(0, out)
    }
}

// Adds the clock and the views behind `out`. They are written alike of each configuration and replica.
fn put_views(views: Views, out: &mut Text) -> Result<(), NoMemory>
    ensures { OnOk result (out.new
        ≡ out.old ++ (views_format (record { replicas = 1; me = 0 })).written views) }
{
    put_number_field(views.clock, out)?;
    put_number_field(views.view, out)?;
    put_number_field(views.log_view, out)?;
    put_flag(views.opened, out)
}

// Adds the stamps behind `out`.
fn put_stamps<S: Service>(state: &StableState<S>, out: &mut Text) -> Result<(), NoMemory>
    ensures { OnOk result (out.new ≡ out.old ++ (stamps_format 0).written (stamps_of state.now)) }
{
    put_stamp(&state.rep_ts, out)?;
    put_stamp(&state.val_ts, out)?;
    put_stamp(&state.order_ts, out)?;
    put_stamp(&state.imm_ts, out)?;
    put_number_field(state.top, out)
}

// Adds what stands before the lists behind `out`.
fn put_front<S: Service>(state: &StableState<S>, out: &mut Text) -> Result<(), NoMemory>
    ensures { OnOk result (out.new ≡ out.old ++ (front_format S.NUMBER None).written (front_of state.now)) }
{
    let head = Head {
        replicas: state.replicas,
        me: state.me,
    };
    let views = Views {
        clock: state.clock,
        view: state.view,
        log_view: state.log_view,
        opened: state.opened,
    };
    put_head::<S>(head, out)?;
    put_views(views, out)?;
    put_stamps(state, out)?;
    put_rows(&StampRows { parts: 0 }, state.table.as_slice(), out)
}

// Adds the log behind `out`.
fn put_log<S: Service>(
    updates: &[LogUpdate<S::Op>],
    acks: &[LogAck],
    out: &mut Text,
) -> Result<(), NoMemory>
    ensures ok { OnOk result (out.new
        ≡ out.old ++ (log_format S.meaning 0 []).written (updates.now, acks.now)) }
    ensures real { OnOk result (list_all (is_own_update S.meaning) updates.now ≡ true) }
{
    put_count_field(updates.len() as u64 + acks.len() as u64, out)?;
    put_items::<S>(updates, acks, out)
}

// Adds the table of executed calls behind `out`.
fn put_calls(calls: &[(Cid, Known)], out: &mut Text) -> Result<(), NoMemory>
    ensures { OnOk result (out.new ≡ out.old ++ (calls_format 0).written calls.now) }
{
    put_count_field(calls.len() as u64, out)?;
    put_rows(&CallRows { replicas: 0 }, calls, out)
}

// Adds the order log behind `out`.
fn put_order<S: Service>(
    base: u64,
    entries: &[Entry<S::Op>],
    out: &mut Text,
) -> Result<(), NoMemory>
    requires { length entries.now ≤ order_room }
    ensures ok { OnOk result (out.new
        ≡ out.old ++ (order_format S.meaning 0).written (base, entries.now)) }
    ensures real { OnOk result (list_all (is_own_entry S.meaning) entries.now ≡ true) }
{
    put_number_field(base, out)?;
    put_entries::<S>(entries, out)
}

// Adds the count of the entries behind `out`, and these.
fn put_entries<S: Service>(entries: &[Entry<S::Op>], out: &mut Text) -> Result<(), NoMemory>
    requires { length entries.now ≤ order_room }
    ensures ok { OnOk result (out.new
        ≡ out.old ++ (listed (entry_count_format 0) (λ last. entry_format S.meaning 0)).written entries.now) }
    ensures real { OnOk result (list_all (is_own_entry S.meaning) entries.now ≡ true) }
{
    put_short_field(entries.len() as u32, out)?;
    let writer = EntryRows::<S> {
        alloc: out.allocator(),
        parts: 0,
        service: PhantomData,
    };
    put_rows(&writer, entries, out)
}

// Adds the call that is frozen behind `out`.
fn put_call<S: Service>(call: &Call<S::Op>, out: &mut Text) -> Result<(), NoMemory>
    ensures ok { OnOk result (out.new ≡ out.old ++ (frozen_call_format S.meaning 0 []).written call.now) }
    ensures real { OnOk result (S.meaning.is_op call.now.op ≡ true) }
{
    put_cid(call.cid, out)?;
    put_stamp(&call.prev, out)?;
    put_op::<S>(&call.op, out)
}

// Adds the number and the call behind `out`.
fn put_numbered<S: Service>(numbered: &(u64, Call<S::Op>), out: &mut Text) -> Result<(), NoMemory>
    ensures ok { OnOk result (out.new
        ≡ out.old ++ (numbered_format S.meaning 0 (0, [])).written numbered.now) }
    ensures real { OnOk result (S.meaning.is_op numbered.now.1.op ≡ true) }
{
    put_number_field(numbered.0, out)?;
    put_call::<S>(&numbered.1, out)
}

// Adds a byte 1, the number and the call behind `out`.
fn put_some<S: Service>(numbered: &(u64, Call<S::Op>), out: &mut Text) -> Result<(), NoMemory>
    ensures ok { OnOk result (out.new
        ≡ out.old ++ (frozen_format S.meaning 0 true 0 (0, [])).written (Some numbered.now)) }
    ensures real { OnOk result (S.meaning.is_op numbered.now.1.op ≡ true) }
{
    put_byte_field(1, out)?;
    put_numbered::<S>(numbered, out)
}

// Adds the call being frozen behind `out`, or that there is none.
fn put_frozen<S: Service>(frozen: &Frozen<S::Op>, out: &mut Text) -> Result<(), NoMemory>
    ensures ok { OnOk result (out.new
        ≡ out.old ++ (frozen_format S.meaning 0 true 0 (0, [])).written frozen.now) }
    ensures real { OnOk result (is_own_frozen S.meaning frozen.now ≡ true) }
{
    match frozen {
        None => put_byte_field(0, out),
        Some(numbered) => put_some::<S>(numbered, out),
    }
}

// Adds freeze marks behind `out`.
fn put_marks(marks: &[(u64, u64)], out: &mut Text) -> Result<(), NoMemory>
    ensures { OnOk result (out.new ≡ out.old ++ marks_format.written marks.now) }
{
    put_count_field(marks.len() as u64, out)?;
    put_rows(&MarkRows, marks, out)
}

// Adds the lists behind `out`.
fn put_lists<S: Service>(state: &StableState<S>, out: &mut Text) -> Result<(), NoMemory>
    requires { length state.now.entries ≤ order_room }
    ensures ok { OnOk result (out.new
        ≡ out.old ++ (lists_format S.meaning 0 [] true).written (lists_of state.now)) }
    ensures real { OnOk result ((list_all (is_own_update S.meaning) state.now.updates
        && (list_all (is_own_entry S.meaning) state.now.entries && is_own_frozen S.meaning state.now.frozen)) ≡ true) }
{
    put_log::<S>(state.updates.as_slice(), state.acks.as_slice(), out)?;
    put_calls(state.calls.as_slice(), out)?;
    put_order::<S>(state.base, state.entries.as_slice(), out)?;
    put_frozen::<S>(&state.frozen, out)?;
    put_marks(state.marks.as_slice(), out)
}

/// Adds the bytes of a state behind `out`.
pub(crate) fn put_state<S: Service>(state: &StableState<S>, out: &mut Text) -> Result<(), NoMemory>
    requires { length state.now.entries ≤ order_room }
    ensures ok { OnOk result (out.new
        ≡ out.old ++ (state_format S.meaning S.encoding S.NUMBER None).written state.now) }
    ensures real { OnOk result (is_own S.meaning S.encoding state.now ≡ true) }
{
    put_front(state, out)?;
    put_lists(state, out)?;
    put_value(&state.value, out)
}
