//! One call on the tables, in two steps.

ghost use Rattle.std.specs.Prelude.{◌≡◌, ◌<◌, ◌&&◌, [], length, true, false, None};
ghost use Rattle.mon_types.specs.Replies.{is_done};
ghost use Rattle.mon_model.specs.State.{mode_of};
ghost use Rattle.mon_model.specs.Early.{early};
ghost use Rattle.mon_model.specs.InRange.{IsInRange};
ghost use Rattle.mon_model.specs.Step.{reply_of, after};
ghost use Rattle.mon_model.specs.Tries.{tries, tried_set};
ghost use Rattle.mon_facts.specs.Tables.{AreTables};
ghost use Rattle.mon_enclaves.specs.LoadReply.{is_load, reads_ptes};
ghost use Rattle.lock_plan.specs.Records.{nothing_held, records_of};
ghost use Rattle.mon_calls.specs.Decided.{ArePathWords};
ghost use Rattle.mon_seq.specs.Begun.{begun_in};

use crate::begun::{Begun, nothing_tried};
use crate::state::MonitorState;
use crate::words::{words_of_leaf, words_of_table};
use arrayvec::ArrayVec;
use lock_plan::{Held, refuse_early};
use mon_calls::{apply, decide};
use mon_enclaves::{is_load, ptes_fit};
use mon_types::{Call, Mode, Reply, Tried};

/// Whether a call goes on to the ptes on its path that is not refused early, where this is its reply by the
/// records alone.
fn goes_on(call: &Call, by_records: &Reply) -> bool
    ensures { result ≡ (is_load call.now && is_done by_records.now) }
{
    is_load(call) && by_records.is_ok()
}

impl MonitorState {
    /// For whom a core runs.
    pub fn mode(&self, core: u8) -> Mode
        requires { core < length self.now.modes }
        ensures { result ≡ mode_of self.now core }
    {
        self.modes[usize::from(core)]
    }

    /// All words of page tables that a call reads, from the items that were loaded.
    fn ptes_of(&self, call: &Call) -> ArrayVec<u64, 3>
        requires tables { AreTables self.now }
        requires arguments { IsInRange self.now.shape call.now }
        ensures { ArePathWords self.now call.now result.items }
    {
        match *call {
            Call::LoadTable { e, va, level, .. } => {
                words_of_table(self.loaded[e as usize].as_slice(), va, level as u8)
            }
            Call::LoadPage { e, va, .. } | Call::Reserve { e, va, .. } => {
                words_of_leaf(self.loaded[e as usize].as_slice(), va)
            }
            _ => ArrayVec::new(),
        }
    }

    /// What is known of a call by a core of the machine before anything changes.
    pub fn begin(&self, core: u8, call: &Call, begun: &mut Begun)
        requires tables { AreTables self.now }
        requires core { core < self.now.shape.cores }
        ensures { begun.new ≡ begun_in self.now core call.now }
    {
        let mode = self.mode(core);
        begun.tried = nothing_tried();
        begun.held.clear();
        match refuse_early(&self.config, mode, call) {
            Some(refusal) => {
                begun.reads_ptes = false;
                begun.reply = refusal;
            }
            None => self.begin_held(core, mode, call, begun),
        }
    }

    /// The same of a call that is not refused early, where nothing is tried yet.
    fn begin_held(&self, core: u8, mode: Mode, call: &Call, begun: &mut Begun)
        requires tables { AreTables self.now }
        requires core { core < self.now.shape.cores }
        requires mode { mode ≡ mode_of self.now core }
        requires early { early self.now.shape mode call.now ≡ None }
        requires none_tried { begun.old.tried ≡ tried_set [] }
        requires none_held { begun.old.held ≡ nothing_held }
        ensures { begun.new ≡ begun_in self.now core call.now }
    {
        self.gather(core, mode, call, &mut begun.tried, &mut begun.held);
        let by_records = decide(&self.config, core, mode, call, &begun.held, &[]);
        begun.reads_ptes = goes_on(call, &by_records);
        begun.reply = self.reply_by_ptes(core, call, by_records, begun.reads_ptes);
    }

    /// What a call answers that is not refused early: where it goes on to the ptes on its path they decide,
    /// else the records have.
    fn reply_by_ptes(&self, core: u8, call: &Call, by_records: Reply, goes_on: bool) -> Reply
        requires tables { AreTables self.now }
        requires arguments { IsInRange self.now.shape call.now }
        requires ptes { goes_on ≡ reads_ptes self.now core call.now }
        requires records { goes_on ≡ false → by_records ≡ reply_of self.now core call.now }
        ensures { result ≡ reply_of self.now core call.now }
    {
        if goes_on {
            let ptes = self.ptes_of(call);
            Reply::done_if(ptes_fit(&self.config, call, &ptes))
        } else {
            by_records
        }
    }

    /// The objects that a call by a core of the machine would try.
    pub fn tries(&self, core: u8, call: &Call) -> Tried
        requires tables { AreTables self.now }
        requires core { core < self.now.shape.cores }
        ensures { result ≡ tried_set (tries self.now core call.now) }
    {
        let mode = self.mode(core);
        let mut tried = nothing_tried();
        if refuse_early(&self.config, mode, call).is_none() {
            let mut held = Held::new();
            self.gather(core, mode, call, &mut tried, &mut held);
        }
        tried
    }

    /// What a call that was begun on these tables makes of them, at this ticket.
    pub fn finish(
        &mut self,
        core: u8,
        call: &Call,
        digest: &[u8; 32],
        ticket: u32,
        begun: &mut Begun,
    )
        requires tables { AreTables self.old }
        requires core { core < self.old.shape.cores }
        requires begun { begun.old ≡ begun_in self.old core call.now }
        ensures { self.new ≡ after self.old core call.now digest.now ticket }
    {
        if begun.reply.is_ok() {
            self.carry_out(core, call, digest, ticket, &mut begun.held);
        }
    }

    /// The same of a call that answers Ok.
    fn carry_out(&mut self, core: u8, call: &Call, digest: &[u8; 32], ticket: u32, held: &mut Held)
        requires tables { AreTables self.old }
        requires core { core < self.old.shape.cores }
        requires done { is_done (reply_of self.old core call.now) ≡ true }
        requires held { held.old ≡ records_of self.old (tries self.old core call.now) }
        ensures { self.new ≡ after self.old core call.now digest.now ticket }
    {
        let mode = self.mode(core);
        apply(&self.config, core, mode, call, digest, ticket, held);
        self.put_back(held);
        self.change_items(call);
        self.change_mode(core, call);
    }
}
