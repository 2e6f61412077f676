//! One monitor call.

ghost use Rattle.std.specs.Prelude.{◌≡◌, ◌+◌, ◌^◌, ◌<◌, ◌≤◌, ◌++◌, map, length, true, false, None, if◌then◌else◌};
ghost use Rattle.core_context.specs.declared.after.After.TheVariants as afters;
ghost use Rattle.mon_calls.specs.OnCore.{IsChange};
ghost use Rattle.mon_types.specs.Shape.{page_total};
ghost use Rattle.mon_model.specs.InRange.{IsInRange};
ghost use Rattle.hist.specs.History.{digest_of};
ghost use Rattle.dram_map.specs.Addresses.{word_total};
ghost use Rattle.dram_map.specs.Words.{word_at};
ghost use Rattle.mon_types.specs.Budgets.{event_budget, answer_budget};
ghost use Rattle.solo.specs.Bounds.{call_answers};
ghost use Rattle.mon_types.specs.Sizes.{page_words};
ghost use Rattle.core_context.specs.Origins.{leaving_of, told, contexts_by};
ghost use Rattle.solo.specs.Calls.{source_words, page_input, pte_put, stored, called, guest_called, exited};

use crate::answers::Answers;
use crate::one_core::OneCore;
use crate::ptes::{page_number, places_read};
use core_context::{After, Contexts, Leaving, Origin};
use dram_map::Memory;
use hist::{Entry, Event, PageInput};
use mon_calls::core_change;
use mon_measure::page_digest;
use mon_seq::Begun;
use mon_types::{Call, Config, Reply};
use sv39_pte::{leaf_pte, pointer_pte};

/// The digest that a call other than load_page is given.
const NO_DIGEST: [u8; 32] = [0; 32];

/// How the call leaves an enclave, if it leaves one.
fn leaving_of(origin: Origin, call: &Call) -> Leaving
    ensures { result ≡ leaving_of origin call.now }
{
    match *call {
        Call::Aex { saved } => Leaving::Aex {
            cause: saved[32],
            value: origin.exit_value(),
        },
        _ => Leaving::Exit,
    }
}

/// What a call that was begun does to the core: a refused one nothing.
fn change_of(call: &Call, begun: &Begun, done: bool) -> After
    ensures done { done ≡ true → IsChange call.now begun.now.held result }
    ensures refused { done ≡ false → result ≡ afters.Nothing }
{
    if done {
        core_change(call, &begun.held)
    } else {
        After::Nothing
    }
}

/// Tells guest code what its call did to the core, and the reply. Who else calls is told nothing.
fn tell(contexts: &mut Contexts, origin: Origin, change: &After, reply: &Reply)
    ensures { contexts.new ≡ told origin change.now reply.now contexts.old }
{
    match origin {
        Origin::Guest => contexts.answer(change, reply),
        Origin::Line | Origin::Machine { .. } => {}
    }
}

/// Takes in what a call did to the core, and tells the reply.
fn change_contexts(
    contexts: &mut Contexts,
    origin: Origin,
    call: &Call,
    change: &After,
    reply: &Reply,
)
    ensures { contexts.new ≡ contexts_by origin call.now change.now reply.now contexts.old }
{
    contexts.change(change, leaving_of(origin, call));
    tell(contexts, origin, change, reply);
}

/// What a call tells of the page that it reads, the words of which come after so many answers: a load_page
/// that answers Ok. Other calls read no page, and a refused one none whose digest matters.
fn input_of(
    config: &Config,
    memory: &Memory,
    call: &Call,
    done: bool,
    at: usize,
) -> Option<PageInput>
    requires size { length memory.now ≡ word_total config.now }
    requires pages { page_total config.now < 65536 }
    requires range { done ≡ true → IsInRange config.now call.now }
    requires few { at < 2 ^ 32 }
    ensures { result ≡ (if done then page_input memory.now call.now at else None) }
{
    match *call {
        Call::LoadPage { src, .. } if done => Some(PageInput {
            digest: page_digest(memory.page(page_number(config, src))),
            at: at as u32,
        }),
        _ => None,
    }
}

/// The digest of the page that is read, zeros where none is.
fn digest_in(input: &Option<PageInput>) -> [u8; 32]
    ensures { result ≡ digest_of input.now }
{
    match input {
        None => NO_DIGEST,
        Some(page) => page.digest,
    }
}

/// Gives the words at these places as answers.
fn give_ptes(answers: &mut Answers, memory: &Memory, places: &[u64])
    requires { length answers.old + length places.now ≤ answer_budget }
    ensures { answers.new ≡ answers.old ++ map (word_at memory.now) places.now }
{
    for place in places {
        answers.push(memory.word(*place));
    }
}

/// Gives the words of the page that a load_page copies.
fn give_source(answers: &mut Answers, config: &Config, memory: &Memory, call: &Call)
    requires size { length memory.now ≡ word_total config.now }
    requires pages { page_total config.now < 65536 }
    requires range { IsInRange config.now call.now }
    requires room { length answers.old + page_words ≤ answer_budget }
    ensures { answers.new ≡ answers.old ++ source_words memory.now call.now }
{
    if let Call::LoadPage { src, .. } = *call {
        answers.extend(memory.page(page_number(config, src)));
    }
}

/// Stores a pte at the last of these places.
fn put_pte(memory: &mut Memory, places: &[u64], pte: u64)
    ensures { memory.new ≡ pte_put memory.old places.now pte }
{
    memory.put(places.last().copied(), pte);
}

/// Stores what a call that answers Ok stores, where it read the ptes at these places.
fn store(config: &Config, memory: &mut Memory, call: &Call, places: &[u64])
    requires size { length memory.old ≡ word_total config.now }
    requires pages { page_total config.now < 65536 }
    requires range { IsInRange config.now call.now }
    ensures stored { memory.new ≡ stored config.now call.now places.now memory.old }
    ensures size { length memory.new ≡ word_total config.now }
{
    match *call {
        Call::Free { r } => memory.clear_region(config, r),
        Call::LoadTable { page, .. } => put_pte(
            memory,
            places,
            pointer_pte(page_number(config, page)),
        ),
        Call::LoadPage {
            page,
            src,
            perms,
            ..
        } => {
            memory.copy_page(page_number(config, src), page_number(config, page));
            put_pte(memory, places, leaf_pte(page_number(config, page), perms));
        }
        Call::Reserve { page, perms, .. } => {
            put_pte(memory, places, leaf_pte(page_number(config, page), perms));
        }
        _ => {}
    }
}

impl OneCore {
    /// Makes a call, and logs it.
    pub fn make(&mut self, origin: Origin, call: &Call)
        requires events { length self.old.log < event_budget }
        requires answers { length self.old.answers + call_answers ≤ answer_budget }
        ensures core { self.new ≡ called origin self.old call.now }
        ensures answers { length self.new.answers ≤ length self.old.answers + call_answers }
        ensures events { length self.new.log ≡ length self.old.log + 1 }
    {
        self.monitor.begin(0, call, &mut self.begun);
        let places = places_read(&self.config, &self.memory, call, &self.begun);
        let reply = self.begun.reply;
        let done = reply.is_ok();
        let at = self.answers.len() + places.len();
        let input = input_of(&self.config, &self.memory, call, done, at);
        let change = change_of(call, &self.begun, done);
        self.log.add(Event::Entry(Entry {
            ticket: self.made + 1,
            core: 0,
            serial: self.made,
            call: *call,
            page: input,
            reply,
            tried: self.begun.tried,
        }));
        self.monitor
            .finish(0, call, &digest_in(&input), &mut self.begun);
        self.made += 1;
        change_contexts(&mut self.contexts, origin, call, &change, &reply);
        give_ptes(&mut self.answers, &self.memory, &places);
        if done {
            give_source(&mut self.answers, &self.config, &self.memory, call);
            store(&self.config, &mut self.memory, call, &places);
            self.guest.take_in(origin, call);
        }
    }

    /// Makes the call that the registers of guest code ask for.
    pub fn call_of_guest(&mut self)
        requires events { length self.old.log < event_budget }
        requires answers { length self.old.answers + call_answers ≤ answer_budget }
        ensures core { self.new ≡ guest_called self.old }
        ensures answers { length self.new.answers ≤ length self.old.answers + call_answers }
        ensures events { length self.new.log ≡ length self.old.log + 1 }
    {
        let call = self.contexts.current.asked_call();
        self.make(Origin::Guest, &call);
    }

    /// Leaves the enclave with this cause and value.
    pub fn exit(&mut self, cause: u64, value: u64)
        requires events { length self.old.log < event_budget }
        requires answers { length self.old.answers + call_answers ≤ answer_budget }
        ensures core { self.new ≡ exited self.old cause value }
        ensures answers { length self.new.answers ≤ length self.old.answers + call_answers }
        ensures events { length self.new.log ≡ length self.old.log + 1 }
    {
        let saved = self.contexts.current.save(cause);
        self.make(Origin::Machine { value }, &Call::Aex { saved });
    }
}
