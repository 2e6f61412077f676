//! What a move adds to the log and to the answers of its core.

ghost use Rattle.std.specs.Prelude.{◌≡◌, ◌+◌, ◌≤◌, ℕ, ◌++◌, length, Some};
ghost use Rattle.std.specs.Option.{option_to_list};
ghost use Rattle.mon_model.specs.OnCore.{clears};
ghost use Rattle.hist.specs.Touched.{touched_by, is_touched};
ghost use Rattle.protocol.specs.declared.action.Action.TheVariants as actions;
ghost use Rattle.protocol.specs.declared.action.Move.TheVariants as moves;
ghost use Rattle.protocol.specs.CallTree.{number_in};
ghost use Rattle.protocol.specs.Moves.{outcome_of, action_outcome};
ghost use Rattle.protocol.specs.Views.{entry_of, touch_in, logged_by, logged, word_in, word_again, answered_by, answered};

use core_access::since_in_word;
use hist::{Entry, Event, Log};
use mon_types::Call;
use protocol::{Action, Draft, Move, Outcome};

/// Whether Ok of the call clears the touches of its core.
fn clears(call: &Call) -> bool
    ensures { result ≡ clears call.now }
{
    matches!(
        call,
        Call::Flush | Call::Enter { .. } | Call::Exit | Call::Aex { .. } | Call::SetSatp { .. }
    )
}

/// Whether a period of a region is touched after one more event.
fn touched_by(region: u8, since: u32, before: bool, event: &Event) -> bool
    ensures { result ≡ touched_by region since before event.now }
{
    match event {
        Event::Entry(entry) => {
            if entry.reply.is_ok() && clears(&entry.call) {
                false
            } else {
                before
            }
        }
        Event::Touch {
            region: other,
            since: began,
        } => (*other == region && *began == since) || before,
        Event::Stop { .. } => before,
    }
}

/// Whether a period of a region is touched after these events.
fn is_touched(region: u8, since: u32, events: &[Event]) -> bool
    ensures { result ≡ is_touched region since events.now }
{
    let mut touched = false;
    for event in events {
        touched = touched_by(region, since, touched, event);
    }
    touched
}

/// The touch that a look is, at a region that was owned by the owner since this ticket, if he owns it.
#[tactic(auto, unfolding(protocol::specs::Views::touch_in))]
fn touch_in(region: u8, since: Option<u32>, events: &[Event]) -> Option<Event>
    ensures { option_to_list result ≡ touch_in region since events.now }
{
    match since {
        Some(since) if !is_touched(region, since, events) => Some(Event::Touch { region, since }),
        _ => None,
    }
}

/// The entry that a Draw makes of a draft.
fn entry_of(core: u8, draft: &Draft, ticket: u32) -> Entry
    ensures { result ≡ entry_of core draft.now ticket }
{
    Entry {
        ticket,
        core,
        serial: draft.serial,
        call: draft.call,
        page: draft.page,
        reply: draft.reply,
        tried: draft.tried,
    }
}

/// What a move of a call logs: a Draw its entry.
#[tactic(auto, unfolding(protocol::specs::Views::logged_by, protocol::specs::Moves::action_outcome))]
fn event_by(core: u8, action: &Action, outcome: &Outcome) -> Option<Event>
    requires { (word : ℕ) × (outcome.now ≡ action_outcome action.now word) }
    ensures { option_to_list result ≡ logged_by core action.now outcome.now }
{
    match action {
        Action::Draw { draft } => match outcome {
            Outcome::Ticket(ticket) => Some(Event::Entry(entry_of(core, draft, *ticket))),
            _ => unreachable!(),
        },
        _ => None,
    }
}

/// What a move logs.
#[tactic(auto, unfolding(protocol::specs::Views::logged, protocol::specs::Moves::outcome_of))]
pub fn event_of(core: u8, events: &[Event], action: &Move, outcome: &Outcome) -> Option<Event>
    requires { (word : ℕ) × (outcome.now ≡ outcome_of action.now word) }
    ensures { option_to_list result ≡ logged core events.now action.now outcome.now }
{
    match action {
        Move::InCall(action) => event_by(core, action, outcome),
        Move::Look { region, owner } => match outcome {
            Outcome::Word(word) => touch_in(*region, since_in_word(*owner, *word), events),
            _ => unreachable!(),
        },
        Move::Load { .. } | Move::Store { .. } | Move::Swap { .. } => None,
        Move::Stop { line, why } => Some(Event::Stop {
            line: *line,
            why: *why,
        }),
    }
}

/// The word that an outcome gives.
#[tactic(auto, unfolding(protocol::specs::Views::word_in))]
fn word_in(outcome: &Outcome) -> Option<u64>
    ensures { option_to_list result ≡ word_in outcome.now }
{
    match outcome {
        Outcome::Word(word) => Some(*word),
        _ => None,
    }
}

/// The word that a refused swap has found.
#[tactic(auto, unfolding(protocol::specs::Views::word_again))]
fn word_again(outcome: &Outcome) -> Option<u64>
    ensures { option_to_list result ≡ word_again outcome.now }
{
    match outcome {
        Outcome::Again { found, .. } => Some(*found),
        _ => None,
    }
}

/// The word that a move of a call gives its core.
#[tactic(auto, unfolding(protocol::specs::Views::answered_by))]
fn answer_by(action: &Action, outcome: &Outcome) -> Option<u64>
    ensures { option_to_list result ≡ answered_by action.now outcome.now }
{
    match action {
        Action::Load { .. } => word_in(outcome),
        _ => None,
    }
}

/// The word that a move gives its core.
#[tactic(auto, unfolding(protocol::specs::Views::answered))]
pub fn answer_of(action: &Move, outcome: &Outcome) -> Option<u64>
    ensures { option_to_list result ≡ answered action.now outcome.now }
{
    match action {
        Move::InCall(action) => answer_by(action, outcome),
        Move::Look { .. } | Move::Load { .. } => word_in(outcome),
        Move::Swap { .. } => word_again(outcome),
        Move::Store { .. } | Move::Stop { .. } => None,
    }
}

/// Logs an event, if there is one.
pub fn log_event(log: &mut Log, event: Option<Event>)
    requires { length (option_to_list event) ≤ log.old.spare }
    ensures events { log.new.events ≡ log.old.events ++ option_to_list event }
    ensures room { length log.new.events + log.new.spare ≡ length log.old.events + log.old.spare }
{
    match event {
        Some(event) => log.add(event),
        None => {}
    }
}
