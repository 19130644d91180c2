//! How a replica's state is made: at the start, of its parts, and as a copy.
ghost use Rattle.std.specs.Prelude.{◌≡◌, IfOk};

use crate::causal::Causal;
use lr_base::lr_service::{Operation, Service};
use lr_base::{Call, Config, NoMemory, Stamp};
use lr_calls::CallTable;
use lr_log::{Log, Table};
use lr_value::Value;
use std::alloc::Global;

impl<S: Service> Causal<S> {
    ghost use Rattle.std.specs.Prelude.{◌≡◌, ◌+◌, ◌<◌, IfOk};
    ghost use Rattle.lr_base.specs.Config.{IsValid};
    ghost use Rattle.lr_base.specs.Rules.{first_state};
    ghost use Rattle.lr_causal.specs.Parts.{FitsTogether, made_of};
    ghost use Rattle.lr_causal.specs.State.{config_of, me_of, state_of};

    /// A replica at which nothing has happened.
    pub fn new(alloc: Global, config: Config, me: u8) -> Result<Self, NoMemory>
        requires valid { IsValid config }
        requires own_place { me < config.replicas }
        ensures state { let first = first_state S.meaning config.replicas (config.replicas + 1) in
            IfOk result (λ made. state_of made ≡ first) }
        ensures config { IfOk result (λ made. config_of made ≡ config) }
        ensures me { IfOk result (λ made. me_of made ≡ me) }
    {
        let parts = config.replicas + 1;
        let value = Value::new(alloc, parts)?;
        Ok(Causal {
            config,
            me,
            clock: 0,
            log: Log::new(alloc),
            value,
            calls: CallTable::new(alloc),
            table: Table::new(config, me),
            order_ts: Stamp::zero(parts),
            imm_ts: Stamp::zero(parts),
            top: 0,
            held: Vec::new(alloc),
            all_wait: true,
            at_rest: true,
        })
    }

    /// A replica of what was kept of it, with no held query. It takes no memory. What is ready, or of no use any more,
    /// is looked for when it is settled next.
    pub fn from_parts(
        config: Config,
        me: u8,
        clock: u64,
        table: Table,
        log: Log<S::Op>,
        value: Value<S>,
        calls: CallTable,
        order_ts: Stamp,
        imm_ts: Stamp,
        top: u64,
    ) -> Self
        requires { let state = made_of clock table log value calls order_ts imm_ts top in
            FitsTogether S.Op.kind_of config me table.me value.memory state }
        ensures state { state_of result ≡ made_of clock table log value calls order_ts imm_ts top }
        ensures config { config_of result ≡ config }
        ensures me { me_of result ≡ me }
    {
        let held = Vec::new(log.allocator());
        table.keeps();
        Causal {
            config,
            me,
            clock,
            log,
            value,
            calls,
            table,
            order_ts,
            imm_ts,
            top,
            held,
            all_wait: true,
            at_rest: false,
        }
    }

    /// A replica equal to this one.
    pub fn copy(&self) -> Result<Self, NoMemory>
        ensures state { IfOk result (λ copied. state_of copied ≡ state_of self.now) }
        ensures config { IfOk result (λ copied. config_of copied ≡ config_of self.now) }
        ensures me { IfOk result (λ copied. me_of copied ≡ me_of self.now) }
    {
        let log = self.log.copy()?;
        let value = self.value.copy()?;
        let calls = self.calls.copy()?;
        let held = copy_held(self.held.as_slice(), self.log.allocator())?;
        Ok(Causal {
            config: self.config,
            me: self.me,
            clock: self.clock,
            log,
            value,
            calls,
            table: self.table.copy(),
            order_ts: self.order_ts.copy(),
            imm_ts: self.imm_ts.copy(),
            top: self.top,
            held,
            all_wait: self.all_wait,
            at_rest: self.at_rest,
        })
    }
}

fn copy_held<O: Operation>(held: &[Call<O>], alloc: Global) -> Result<Vec<Call<O>>, NoMemory>
    ensures { IfOk result (λ copied. copied.items ≡ held.now) }
{
    let mut copied = Vec::new(alloc);
    for call in held {
        copied.push(call.copy()?)?;
    }
    Ok(copied)
}
