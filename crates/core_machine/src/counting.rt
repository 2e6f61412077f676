//! What the moves of calls add to the counts of a core, and when too little is left of a budget.

ghost use Rattle.std.specs.Prelude.{◌≡◌, ◌<◌, ◌≤◌, length};
ghost use Rattle.mon_types.specs.Budgets.{event_budget, answer_budget};
ghost use Rattle.mon_model.specs.OnCore.{mode_by};
ghost use Rattle.core_context.specs.Budgets.{is_spent_by};
ghost use Rattle.protocol.specs.Views.{word_in};
ghost use Rattle.core_machine.specs.Own.{EntersSlot, DrawsInSlots, mode_with, counted, limited};

use crate::own::Own;
use mon_types::{ANSWER_BUDGET, Call, EVENT_BUDGET, LINE_ANSWERS, LINE_EVENTS, Mode};
use protocol::{Action, Draft, Outcome};

/// For whom a core runs after a call that is Ok.
fn mode_by(call: &Call, mode: Mode) -> Mode
    requires { EntersSlot call.now }
    ensures { result ≡ mode_by call.now mode }
{
    match *call {
        Call::Enter { e, t } => Mode::Inside {
            enclave: e as u8,
            thread: t as u8,
        },
        Call::Exit | Call::Aex { .. } => Mode::Os,
        _ => mode,
    }
}

/// For whom a core runs after a Draw of this draft.
fn mode_with(draft: &Draft, mode: Mode) -> Mode
    requires { DrawsInSlots (Action.Draw draft.now) }
    ensures { result ≡ mode_with (Action.Draw draft.now) mode }
{
    if draft.reply.is_ok() {
        mode_by(&draft.call, mode)
    } else {
        mode
    }
}

/// How many words an outcome gives.
fn words_in(outcome: &Outcome) -> u32
    ensures { result ≡ length (word_in outcome.now) }
{
    match outcome {
        Outcome::Word(_) => 1,
        _ => 0,
    }
}

impl Own {
    /// Counts what a move of a call logs, and the words that it is given.
    pub fn count(&mut self, action: &Action, outcome: &Outcome)
        requires slot { DrawsInSlots action.now }
        requires events { self.old.counts.events < event_budget }
        requires answers { self.old.counts.answers ≤ answer_budget }
        requires serial { self.old.serial ≤ self.old.counts.events }
        ensures { self.new ≡ counted self.old action.now outcome.now }
    {
        match action {
            Action::Draw { draft } => {
                self.mode = mode_with(draft, self.mode);
                self.serial += 1;
                self.counts.events += 1;
            }
            Action::Load { .. } => self.counts.answers += words_in(outcome),
            _ => {}
        }
    }

    /// Whether too little is left of a budget for one more line.
    pub fn is_spent(&self) -> bool
        requires events { self.now.counts.events ≤ event_budget }
        requires answers { self.now.counts.answers ≤ answer_budget }
        ensures { result ≡ is_spent_by self.now.counts.events self.now.counts.answers }
    {
        EVENT_BUDGET - self.counts.events < LINE_EVENTS
            || ANSWER_BUDGET - (self.counts.answers as usize) < LINE_ANSWERS
    }

    /// A Limit is logged.
    pub fn limit(&mut self)
        requires { self.old.counts.events < event_budget }
        ensures { self.new ≡ limited self.old }
    {
        self.counts.events += 1;
    }
}
