//! The items of a log, read.
ghost use Rattle.std.specs.Prelude.{◌≡◌, ◌+◌, ◌≤◌, ◌<◌, length};
ghost use mathlib.Core.Logic.{inl, inr};
ghost use Rattle.lr_base.specs.Bytes.{Found, Reads, and_then};
ghost use Rattle.lr_base.specs.Formats.{both, number_format};
ghost use Rattle.lr_base.specs.Lasts.{last_of};
ghost use Rattle.lr_base.specs.Limits.{most_parts};
ghost use Rattle.lr_base.specs.Stamps.{part};
ghost use Rattle.lr_codec.specs.Parts.{is_update, op_format, stamp_format};
ghost use Rattle.lr_codec.specs.Lists.{is_next_spot, item_format, item_with};
ghost use Rattle.lr_codec.specs.Lists.{place_format, received_format, spot_format, tag_format};

use crate::items::Item;
use crate::parts::{Wanted, cid_field, op_field, stamp_field};
use crate::rows::ReadRow;
use lr_base::lr_service::Service;
use lr_base::{
    BadWhat, Cid, FieldFault, LogAck, LogUpdate, Spot, Stamp, byte_field, fault_at, number_field,
};
use std::alloc::Global;
use std::marker::PhantomData;

// The tag of an item.
fn tag_field(bytes: &[u8]) -> Result<(u8, &[u8]), FieldFault>
    ensures { Reads (tag_format.field bytes.now) result }
{
    let (tag, rest) = byte_field(bytes)?;
    if tag != 1 && tag != 2 {
        return Err(fault_at(bytes, BadWhat::Range));
    }
    Ok((tag, rest))
}

// The place of an item with this tag.
fn place_field(replicas: u8, tag: u8, bytes: &[u8]) -> Result<(u8, &[u8]), FieldFault>
    ensures { Reads ((place_format replicas tag).field bytes.now) result }
{
    let (place, rest) = byte_field(bytes)?;
    if place < replicas || (tag == 1 && place == replicas) {
        return Ok((place, rest));
    }
    Err(fault_at(bytes, BadWhat::Range))
}

// A number that was received of this place.
fn received_field<'a>(
    rep_ts: &Stamp,
    place: u8,
    bytes: &'a [u8],
) -> Result<(u64, &'a [u8]), FieldFault>
    ensures { Reads ((received_format rep_ts.now place).field bytes.now) result }
{
    let (number, rest) = number_field(bytes)?;
    if number < 1 || number > received_of(rep_ts, place) {
        return Err(fault_at(bytes, BadWhat::Range));
    }
    Ok((number, rest))
}

// How many items of a place were received: none of one that there isn't.
pub(crate) fn received_of(rep_ts: &Stamp, place: u8) -> u64
    ensures { result ≡ part rep_ts.now place }
{
    if place < rep_ts.parts() {
        rep_ts.part(place)
    } else {
        0
    }
}

// The spot of an item with this tag.
fn spot_field<'a>(
    replicas: u8,
    rep_ts: &Stamp,
    tag: u8,
    bytes: &'a [u8],
) -> Result<(Spot, &'a [u8]), FieldFault>
    ensures { Reads ((spot_format replicas rep_ts.now tag).field bytes.now) result }
{
    let (place, rest) = place_field(replicas, tag, bytes)?;
    let (number, end) = received_field(rep_ts, place, rest)?;
    Ok((Spot { place, number }, end))
}

/// What reads the items of a log.
#[derive(Drop)]
pub(crate) struct ItemRows<S: Service> {
    pub(crate) alloc: Global,
    pub(crate) replicas: u8,
    pub(crate) rep_ts: Stamp,
    pub(crate) service: PhantomData<S>,

    ghost few: { replicas + 1 ≤ most_parts },
}

impl<S: Service> ReadRow for ItemRows<S> {
    type Row = Item<S::Op>;

    ghost format = { λ it last. item_format S.meaning it.replicas it.rep_ts last };

    fn row_field<'a>(
        &self,
        before: &[Item<S::Op>],
        bytes: &'a [u8],
    ) -> Result<(Item<S::Op>, &'a [u8]), FieldFault> {
        let (tag, rest) = tag_field(bytes)?;
        let (spot, rest) = spot_field(self.replicas, &self.rep_ts, tag, rest)?;
        if !is_next_spot(before, spot) {
            return Err(fault_at(bytes, BadWhat::Order));
        }
        let (cid, rest) = cid_field(rest)?;
        if tag == 1 {
            update_field::<S>(self.alloc, self.replicas, spot, cid, rest)
        } else {
            ack_field(spot, cid, rest)
        }
    }
}

// Whether the spot stands behind that of the last of these items, if there is one.
fn is_next_spot<O>(before: &[Item<O>], spot: Spot) -> bool
    ensures { result ≡ is_next_spot (last_of before.now) spot }
{
    match before.last() {
        Some(last) => last.spot() < spot,
        None => true,
    }
}

// The rest of an update.
fn update_field<S: Service>(
    alloc: Global,
    replicas: u8,
    spot: Spot,
    cid: Cid,
    bytes: &[u8],
) -> Result<(Item<S::Op>, &[u8]), FieldFault>
    requires { replicas + 1 ≤ most_parts }
    ensures { Reads (and_then
        ((both (stamp_format (replicas + 1)) (op_format S.meaning is_update)).field bytes.now)
        (λ update rest. Found (item_with spot cid (inl update)) rest)) result }
{
    let (prev, rest) = stamp_field(replicas + 1, bytes)?;
    let (op, end) = op_field::<S>(alloc, Wanted::Update, rest)?;
    let update = LogUpdate {
        spot,
        cid,
        prev,
        op,
    };
    Ok((Item::Update(update), end))
}

// The rest of an acknowledgement.
fn ack_field<O>(spot: Spot, cid: Cid, bytes: &[u8]) -> Result<(Item<O>, &[u8]), FieldFault>
    ensures { Reads (and_then (number_format.field bytes.now) (λ time rest. Found (item_with spot cid (inr time)) rest))
        result }
{
    let (time, rest) = number_field(bytes)?;
    Ok((Item::Ack(LogAck { spot, cid, time }), rest))
}
