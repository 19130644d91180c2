//! The elements of the other lists of stable bytes, read.
ghost use Rattle.std.specs.Prelude.{◌≡◌, ◌+◌, ◌≤◌, nat_le};
ghost use Rattle.lr_base.specs.Bytes.{Reads};
ghost use Rattle.lr_base.specs.Formats.{both, keyed};
ghost use Rattle.lr_base.specs.Lasts.{last_of};
ghost use Rattle.lr_base.specs.Limits.{most_parts};
ghost use Rattle.lr_codec.specs.Lists.{entry_format, is_next_cid, known_format};
ghost use Rattle.lr_codec.specs.Parts.{byte_where, cid_format, part_format, stamp_format};

use crate::parts::{Wanted, cid_field, item_number_field, op_field, part_field, stamp_field};
use crate::rows::ReadRow;
use lr_base::lr_service::{Kind, Service};
use lr_base::{BadWhat, Call, Cid, Entry, FieldFault, Known, Spot, Stamp, byte_field, fault_at};
use std::alloc::Global;
use std::marker::PhantomData;

/// What reads the stamps of the table.
#[derive(Drop)]
pub(crate) struct StampRows {
    pub(crate) parts: u8,

    ghost few: { parts ≤ most_parts },
}

impl ReadRow for StampRows {
    type Row = Stamp;

    ghost format = { λ it last. stamp_format it.parts };

    fn row_field<'a>(
        &self,
        _before: &[Stamp],
        bytes: &'a [u8],
    ) -> Result<(Stamp, &'a [u8]), FieldFault> {
        stamp_field(self.parts, bytes)
    }
}

/// What reads the executed calls.
#[derive(Drop)]
pub(crate) struct CallRows {
    pub(crate) replicas: u8,

    ghost few: { replicas + 1 ≤ most_parts },
}

impl ReadRow for CallRows {
    type Row = (Cid, Known);

    ghost format = { λ it last. keyed (is_next_cid last) cid_format (λ cid. known_format it.replicas) };

    fn row_field<'a>(
        &self,
        before: &[(Cid, Known)],
        bytes: &'a [u8],
    ) -> Result<((Cid, Known), &'a [u8]), FieldFault> {
        let (cid, rest) = cid_field(bytes)?;
        if !is_next_cid(before, cid) {
            return Err(fault_at(bytes, BadWhat::Order));
        }
        let (known, end) = known_field(self.replicas, rest)?;
        Ok(((cid, known), end))
    }
}

// Whether the call stands behind the last of these, if there is one.
fn is_next_cid(before: &[(Cid, Known)], cid: Cid) -> bool
    ensures { result ≡ is_next_cid (last_of before.now) cid }
{
    match before.last() {
        Some((last, _)) => *last < cid,
        None => true,
    }
}

// What is known of a call.
fn known_field(replicas: u8, bytes: &[u8]) -> Result<(Known, &[u8]), FieldFault>
    requires { replicas + 1 ≤ most_parts }
    ensures { Reads ((known_format replicas).field bytes.now) result }
{
    let (place, rest) = call_place_field(replicas, bytes)?;
    let (number, rest) = item_number_field(rest)?;
    let (stamp, end) = stamp_field(replicas + 1, rest)?;
    let spot = Spot { place, number };
    Ok((Known { spot, stamp }, end))
}

// The place of a call's update.
fn call_place_field(replicas: u8, bytes: &[u8]) -> Result<(u8, &[u8]), FieldFault>
    ensures { Reads ((byte_where (λ place. nat_le place replicas)).field bytes.now) result }
{
    let (place, rest) = byte_field(bytes)?;
    if place > replicas {
        return Err(fault_at(bytes, BadWhat::Range));
    }
    Ok((place, rest))
}

/// What reads the entries of an order log.
#[derive(Drop)]
pub(crate) struct EntryRows<S: Service> {
    pub(crate) alloc: Global,
    pub(crate) parts: u8,
    pub(crate) service: PhantomData<S>,

    ghost few: { parts ≤ most_parts },
}

impl<S: Service> ReadRow for EntryRows<S> {
    type Row = Entry<S::Op>;

    ghost format = { λ it last. entry_format S.meaning it.parts };

    fn row_field<'a>(
        &self,
        _before: &[Entry<S::Op>],
        bytes: &'a [u8],
    ) -> Result<(Entry<S::Op>, &'a [u8]), FieldFault> {
        let (birth, rest) = part_field(bytes)?;
        let (cid, rest) = cid_field(rest)?;
        let (prev, rest) = stamp_field(self.parts, rest)?;
        let (extra, rest) = stamp_field(self.parts, rest)?;
        let (op, end) = op_field::<S>(self.alloc, Wanted::Update, rest)?;
        let immediate = S::kind(&op) == Kind::Immediate;
        let call = Call { cid, prev, op };
        let entry = Entry {
            birth,
            call,
            immediate,
            extra,
        };
        Ok((entry, end))
    }
}

/// What reads freeze marks.
#[derive(Drop)]
pub(crate) struct MarkRows;

impl ReadRow for MarkRows {
    type Row = (u64, u64);

    ghost format = { λ it last. both part_format part_format };

    fn row_field<'a>(
        &self,
        _before: &[(u64, u64)],
        bytes: &'a [u8],
    ) -> Result<((u64, u64), &'a [u8]), FieldFault> {
        let (view, rest) = part_field(bytes)?;
        let (number, end) = part_field(rest)?;
        Ok(((view, number), end))
    }
}
