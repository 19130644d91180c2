//! What a replica has to keep.
use lr_base::lr_service::Service;
use lr_base::{Call, Cid, Entry, Known, LogAck, LogUpdate, Rows, Stamp};

/// What a replica has to keep, so that it can go on from it.
#[derive(Drop)]
pub struct StableState<S: Service> {
    /// How many replicas there are.
    pub replicas: u8,
    /// Which of them this one is.
    pub me: u8,
    pub clock: u64,
    pub view: u64,
    /// The view whose order log it has.
    pub log_view: u64,
    /// Whether it leads this view, and has opened it.
    pub opened: bool,
    /// How many items it received of each place.
    pub rep_ts: Stamp,
    /// The updates that are applied.
    pub val_ts: Stamp,
    pub order_ts: Stamp,
    pub imm_ts: Stamp,
    pub top: u64,
    /// What the other replicas were heard to have received, in ascending order of these.
    pub table: Rows<Stamp>,
    /// In the order of places and then numbers.
    pub updates: Rows<LogUpdate<S::Op>>,
    pub acks: Rows<LogAck>,
    /// In ascending order of calls.
    pub calls: Rows<(Cid, Known)>,
    /// How many entries were dropped from the front of the order log.
    pub base: u64,
    pub entries: Rows<Entry<S::Op>>,
    /// The call being frozen, and its number.
    pub frozen: Option<(u64, Call<S::Op>)>,
    /// Freeze marks: views and numbers.
    pub marks: Rows<(u64, u64)>,
    pub value: S,
}
