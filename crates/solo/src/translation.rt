//! From a virtual address to a page of DRAM, or to the cause of a fault.

ghost use Rattle.std.specs.Prelude.{◌≡◌, ◌+◌, ◌<◌, ◌≤◌, length};
ghost use Rattle.mon_types.specs.Budgets.{event_budget, answer_budget};
ghost use Rattle.core_access.specs.Routes.{HasRoot};
ghost use Rattle.solo.specs.Bounds.{access_answers, access_events};
ghost use Rattle.sv39_walk.specs.Walking.{bare};
ghost use Rattle.solo.specs.Translation.{arrived, descended, walked, translated_by, space_in, route_now, translated, accessed};

use crate::one_core::OneCore;
use core_access::{Paging, Route, Space, access_fault, page_fault, place_in};
use dram_map::{page_of, page_of_frame};
use mon_types::{Enclave, Mode, Owner, PAGE_BYTES};
use sv39_pte::Access;
use sv39_walk::{Walk, WalkState};

/// The end of a translation that Bare makes: the address is the physical one, with all permissions.
fn bare(va: u64) -> WalkState
    ensures { result ≡ bare va }
{
    WalkState::Found {
        page: va / PAGE_BYTES,
        load: true,
        store: true,
        fetch: true,
    }
}

impl OneCore {
    /// Ends a translation: looks at the region of the page that is addressed, and fills the translation into
    /// the cache.
    fn arrive(
        &mut self,
        permitted: Owner,
        va: u64,
        access: Access,
        state: WalkState,
    ) -> Result<u16, u64>
        requires answers { length self.old.answers < answer_budget }
        requires events { length self.old.log < event_budget }
        ensures core { self.new ≡ (arrived self.old permitted va access state).core }
        ensures page { result ≡ (arrived self.old permitted va access state).page }
        ensures answers { length self.new.answers ≤ length self.old.answers + 1 }
        ensures events { length self.new.log ≤ length self.old.log + 1 }
    {
        match state {
            WalkState::Found {
                page: frame,
                load,
                store,
                fetch,
            } => {
                let Some(page) = page_of_frame(&self.config, frame) else {
                    return Err(access_fault(access));
                };
                if !self.look(permitted, page) {
                    return Err(access_fault(access));
                }
                self.guest
                    .cache
                    .fill(va / PAGE_BYTES, page, load, store, fetch);
                Ok(page)
            }
            WalkState::Wish { .. } | WalkState::PageFault => Err(page_fault(access)),
        }
    }

    /// Goes down one level of a walk, if it is not over: looks at the region in which the next page-table
    /// entry lies, and loads the entry.
    fn descend(&mut self, permitted: Owner, access: Access, mut walk: Walk) -> Result<Walk, u64>
        requires answers { length self.old.answers + 2 ≤ answer_budget }
        requires events { length self.old.log < event_budget }
        ensures core { self.new ≡ (descended self.old permitted access walk).core }
        ensures walk { result ≡ (descended self.old permitted access walk).walk }
        ensures answers { length self.new.answers ≤ length self.old.answers + 2 }
        ensures events { length self.new.log ≤ length self.old.log + 1 }
    {
        let WalkState::Wish { address } = walk.state() else {
            return Ok(walk);
        };
        let Some(page) = page_of(&self.config, address) else {
            return Err(access_fault(access));
        };
        if !self.look(permitted, page) {
            return Err(access_fault(access));
        }
        walk.answer(self.read(place_in(page, address)));
        Ok(walk)
    }

    /// A walk of three levels, and then the page itself.
    fn walk(&mut self, permitted: Owner, va: u64, access: Access, walk: Walk) -> Result<u16, u64>
        requires answers { length self.old.answers + access_answers ≤ answer_budget }
        requires events { length self.old.log + access_events ≤ event_budget }
        ensures core { self.new ≡ (walked self.old permitted va access walk).core }
        ensures page { result ≡ (walked self.old permitted va access walk).page }
        ensures answers { length self.new.answers ≤ length self.old.answers + access_answers }
        ensures events { length self.new.log ≤ length self.old.log + access_events }
    {
        let walk = self.descend(permitted, access, walk)?;
        let walk = self.descend(permitted, access, walk)?;
        let walk = self.descend(permitted, access, walk)?;
        self.arrive(permitted, va, access, walk.state())
    }

    /// Translates an address so, for regions of the permitted owner.
    fn translate_by(
        &mut self,
        permitted: Owner,
        va: u64,
        access: Access,
        paging: Paging,
    ) -> Result<u16, u64>
        requires root { HasRoot paging }
        requires answers { length self.old.answers + access_answers ≤ answer_budget }
        requires events { length self.old.log + access_events ≤ event_budget }
        ensures core { self.new ≡ (translated_by self.old permitted va access paging).core }
        ensures page { result ≡ (translated_by self.old permitted va access paging).page }
        ensures answers { length self.new.answers ≤ length self.old.answers + access_answers }
        ensures events { length self.new.log ≤ length self.old.log + access_events }
    {
        match paging {
            Paging::Bare => self.arrive(permitted, va, access, bare(va)),
            Paging::Sv39 { root } => {
                let walk = Walk::begin(root, va, access, self.mode());
                self.walk(permitted, va, access, walk)
            }
        }
    }

    /// The addresses and the root of the enclave that the core is inside; for the OS there are none.
    fn space(&self, mode: Mode) -> Space
        ensures { result ≡ space_in self.now.state mode }
    {
        match mode {
            Mode::Os => Space::of(&Enclave::empty()),
            Mode::Inside { enclave, .. } => {
                let slots = self.monitor.enclaves();
                let record = slots.get(usize::from(enclave)).copied();
                Space::of(&record.unwrap_or(Enclave::empty()))
            }
        }
    }

    /// Who translates an address now.
    fn route(&self, va: u64) -> Route
        ensures route { result ≡ route_now self.now va }
        ensures root { HasRoot result.paging }
    {
        let mode = self.mode();
        Route::of(mode, &self.space(mode), self.guest.satp, va)
    }

    /// Translates an address without the cache.
    fn translate(&mut self, va: u64, access: Access) -> Result<u16, u64>
        requires answers { length self.old.answers + access_answers ≤ answer_budget }
        requires events { length self.old.log + access_events ≤ event_budget }
        ensures core { self.new ≡ (translated self.old va access).core }
        ensures page { result ≡ (translated self.old va access).page }
        ensures answers { length self.new.answers ≤ length self.old.answers + access_answers }
        ensures events { length self.new.log ≤ length self.old.log + access_events }
    {
        let route = self.route(va);
        self.translate_by(route.owner, va, access, route.paging)
    }

    /// The page of DRAM that an access reaches: by the cache where it holds the virtual page with permission
    /// for the access, and else by a translation. The error is the cause of a fault.
    pub fn access(&mut self, va: u64, access: Access) -> Result<u16, u64>
        requires answers { length self.old.answers + access_answers ≤ answer_budget }
        requires events { length self.old.log + access_events ≤ event_budget }
        ensures core { self.new ≡ (accessed self.old va access).core }
        ensures page { result ≡ (accessed self.old va access).page }
        ensures answers { length self.new.answers ≤ length self.old.answers + access_answers }
        ensures events { length self.new.log ≤ length self.old.log + access_events }
    {
        match self.guest.cache.look(va / PAGE_BYTES, access) {
            Some(page) => Ok(page),
            None => self.translate(va, access),
        }
    }
}
