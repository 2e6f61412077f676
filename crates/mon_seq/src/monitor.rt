//! The sequential monitor.

ghost use Rattle.std.specs.Prelude.{◌≡◌, ◌<◌, ◌^◌, ◌-◌, false, length, IfOk};
ghost use Rattle.mon_model.specs.State.{start};
ghost use Rattle.mon_types.specs.Replies.{is_concurrent};
ghost use Rattle.mon_model.specs.Step.{reply_of};
ghost use Rattle.mon_model.specs.Tries.{tries, tried_set};
ghost use Rattle.mon_seq.specs.Begun.{begun_in};
ghost use Rattle.mon_seq.specs.Sequential.{then_call, then_skip};
ghost use Rattle.mon_seq.specs.UpTo.{IsFrontTo};
ghost use Rattle.std.specs.Bool.{Decides};
ghost use Rattle.mon_facts.specs.Tables.{AreTables, AreDated};
ghost use Rattle.mon_facts.specs.Facts.{SetsAreOwned, OwnersAreThere, BlockedAreOlder, EmptyAreBlank, InitializedAreRooted, ThreadsAreCounted, InsideAreRunning, RunningAreInside, InsideAreAlone, RunningAreInitialized, LoadedArePlaced, FactsHold};

use crate::begun::Begun;
use crate::state::MonitorState;
use crate::tables::Tables;
use mon_types::{Call, Config, Enclave, Items, Mode, ObjectId, Region, Reply, Thread, Tried};
use std::alloc::{AllocError, Global};
use std::marker::Model;

/// The state of the monitor, and how many tickets were spent. Where a call is made in one step, `begun` is
/// where it is begun, so that no call makes room for the records that it holds.
#[derive(Debug, Drop)]
pub struct Monitor {
    state: MonitorState,
    ticket: u32,
    begun: Begun,
}

impl Model for Monitor {
    ghost use Rattle.mon_seq.specs.Sequential.{Sequential};
    ghost use Rattle.mon_facts.specs.Tables.{AreTables, AreDated};
    ghost use Rattle.mon_facts.specs.Facts.{FactsHold};

    ghost Value = { Sequential };

    ghost view = { λ m. record { state = m.state; ticket = m.ticket } };

    ghost invariant = { λ m. AreTables m.state × AreDated m.ticket m.state × FactsHold m.state };
}

impl Monitor {
    /// The monitor of such a machine at its start: every region is the OS's, every slot is empty, no
    /// core has flushed, every core runs for the OS, and nothing is loaded. It takes all memory that
    /// calls will need.
    pub fn new(alloc: Global, config: Config) -> Result<Monitor, AllocError>
        ensures { IfOk result (λ m. m ≡ record { state = start config; ticket = 0 }) }
    {
        Ok(Monitor {
            state: MonitorState::new(alloc, config)?,
            ticket: 0,
            begun: Begun::new(),
        })
    }

    /// One call by a core of the machine, at the next ticket: begun and finished. `digest` is that of the
    /// page that a load_page reads, and is not used by other calls.
    #[tactic(auto, using(mon_model::specs::EveryReply::never_met, mon_model::specs::EveryStep::after_shape))]
    pub fn call(&mut self, core: u8, call: &Call, digest: &[u8; 32]) -> Reply
        requires core { core < self.old.state.shape.cores }
        requires ticket { self.old.ticket < 2 ^ 32 - 1 }
        ensures reply { result ≡ reply_of self.old.state core call.now }
        ensures after { self.new ≡ then_call self.old core call.now digest.now }
        ensures never_concurrent { is_concurrent result ≡ false }
        ensures machine { self.new.state.shape ≡ self.old.state.shape }
    {
        let ticket = self.ticket + 1;
        self.ticket = ticket;
        self.state.begin(core, call, &mut self.begun);
        let reply = self.begun.reply;
        self.state
            .finish(core, call, digest, ticket, &mut self.begun);
        reply
    }

    /// Begins a call by a core of the machine: what it answers, what it tries, and the records of that. The
    /// monitor stays as it is. What a load_page reads need be known only where it answers Ok.
    #[tactic(auto, using(mon_model::specs::EveryReply::never_met))]
    pub fn begin(&self, core: u8, call: &Call, begun: &mut Begun)
        requires { core < self.now.state.shape.cores }
        ensures begun { begun.new ≡ begun_in self.now.state core call.now }
        ensures never_concurrent { is_concurrent begun.new.reply ≡ false }
    {
        self.state.begin(core, call, begun);
    }

    /// Finishes a call that was begun in the present state, at the next ticket. `digest` is that of the page
    /// that a load_page reads, and is not used by other calls, nor where the call is refused.
    #[tactic(auto, using(mon_model::specs::EveryStep::after_shape))]
    pub fn finish(&mut self, core: u8, call: &Call, digest: &[u8; 32], begun: &mut Begun)
        requires core { core < self.old.state.shape.cores }
        requires ticket { self.old.ticket < 2 ^ 32 - 1 }
        requires begun { begun.old ≡ begun_in self.old.state core call.now }
        ensures after { self.new ≡ then_call self.old core call.now digest.now }
        ensures machine { self.new.state.shape ≡ self.old.state.shape }
    {
        let ticket = self.ticket + 1;
        self.ticket = ticket;
        self.state.finish(core, call, digest, ticket, begun);
    }

    /// The objects that such a call would try in the present state; none where it would be refused
    /// before any object is tried.
    pub fn tries(&self, core: u8, call: &Call) -> Tried
        requires { core < self.now.state.shape.cores }
        ensures { result ≡ tried_set (tries self.now.state core call.now) }
    {
        self.state.tries(core, call)
    }

    /// Whether the objects that such a call would try in the present state, up to this lock, which is one of
    /// them, are those in these sets.
    pub fn tries_up_to(&self, core: u8, call: &Call, lock: ObjectId, tried: &Tried) -> bool
        requires { core < self.now.state.shape.cores }
        ensures { Decides result (IsFrontTo lock (tries self.now.state core call.now) tried.now) }
    {
        self.state.tries_up_to(core, call, lock, tried)
    }

    /// Spends the next ticket, and changes nothing else.
    pub fn skip(&mut self)
        requires { self.old.ticket < 2 ^ 32 - 1 }
        ensures { self.new ≡ then_skip self.old }
    {
        self.ticket += 1;
    }

    /// Each region, by its number.
    pub fn regions(&self) -> &[Region]
        ensures list { result.now ≡ self.now.state.regions }
        ensures count { length result.now ≡ self.now.state.shape.regions }
    {
        &self.state.regions
    }

    /// Each enclave slot, by its number.
    pub fn enclaves(&self) -> &[Enclave]
        ensures list { result.now ≡ self.now.state.enclaves }
        ensures count { length result.now ≡ 8 }
    {
        &self.state.enclaves
    }

    /// Each thread slot, by its number.
    pub fn threads(&self) -> &[Thread]
        ensures list { result.now ≡ self.now.state.threads }
        ensures count { length result.now ≡ 16 }
    {
        &self.state.threads
    }

    /// The ticket of each core's last flush.
    pub fn flushed(&self) -> &[u32]
        ensures list { result.now ≡ self.now.state.flushed }
        ensures count { length result.now ≡ self.now.state.shape.cores }
    {
        &self.state.flushed
    }

    /// For whom each core runs.
    pub fn modes(&self) -> &[Mode]
        ensures list { result.now ≡ self.now.state.modes }
        ensures count { length result.now ≡ self.now.state.shape.cores }
    {
        &self.state.modes
    }

    /// What the monitor keeps, whatever calls were made. It does nothing: who calls it may cite these
    /// facts of the state.
    pub fn facts(&self)
        ensures sets { SetsAreOwned self.now.state }
        ensures owners { OwnersAreThere self.now.state }
        ensures blocked { BlockedAreOlder self.now.state }
        ensures blank { EmptyAreBlank self.now.state }
        ensures roots { InitializedAreRooted self.now.state }
        ensures counts { ThreadsAreCounted self.now.state }
        ensures inside { InsideAreRunning self.now.state }
        ensures running { RunningAreInside self.now.state }
        ensures alone { InsideAreAlone self.now.state }
        ensures initialized { RunningAreInitialized self.now.state }
        ensures placed { LoadedArePlaced self.now.state }
    {
        // A look at a field is what lets a proof know what holds of each value of this type.
        let _ = &self.state;
    }

    /// The tables. Takes no memory.
    pub fn into_tables(self) -> Tables
        ensures regions { result.regions ≡ self.state.regions }
        ensures enclaves { result.enclaves ≡ self.state.enclaves }
        ensures threads { result.threads ≡ self.state.threads }
        ensures flushed { result.flushed ≡ self.state.flushed }
        ensures modes { result.modes ≡ self.state.modes }
        ensures sound { AreTables self.state }
        ensures dated { AreDated self.ticket self.state }
        ensures facts { FactsHold self.state }
    {
        let MonitorState {
            config: _,
            regions,
            enclaves,
            threads,
            flushed,
            modes,
            loaded: _,
        } = self.state;
        Tables {
            regions: Items::from_vec(regions),
            enclaves: Items::from_vec(enclaves),
            threads: Items::from_vec(threads),
            flushed: Items::from_vec(flushed),
            modes: Items::from_vec(modes),
        }
    }
}
