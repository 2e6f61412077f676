//! The lines of the monitor's tables.

ghost use Rattle.std.specs.Prelude.{◌≡◌, ◌≤◌, ◌+◌, ◌++◌, length};
ghost use Rattle.mon_types.specs.declared.region.Region.TheVariants as regions;
ghost use Rattle.mon_types.specs.declared.enclave.Mailbox.TheVariants as mailboxes;
ghost use Rattle.mon_types.specs.declared.thread.ThreadState.TheVariants as states;
ghost use Rattle.mon_types.specs.declared.thread.Mode.TheVariants as modes;
ghost use Rattle.report.specs.Tables.{region_line, mailbox_head, mailbox_line, stage_text, enclave_head, enclave_line, state_line, core_line};

use crate::objects::{add_measure, add_owner};
use mon_types::{Enclave, Mailbox, Mode, Owner, Region, Stage, ThreadState};
use text_out::{LINE, Line};

#[tactic(auto, unfolding(crate::specs::Tables::region_line))]
fn line_of_free(r: usize) -> Line
    ensures { result ≡ region_line r regions.Free }
{
    let mut line = Line::new();
    line.text("region ");
    line.number(r as u64);
    line.text(" free\n");
    line
}

#[tactic(auto, unfolding(crate::specs::Tables::region_line))]
fn line_of_owned(r: usize, owner: Owner, since: u32) -> Line
    ensures { result ≡ region_line r (regions.Owned owner since) }
{
    let mut line = Line::new();
    line.text("region ");
    line.number(r as u64);
    line.text(" owned ");
    add_owner(&mut line, owner);
    line.text(" since ");
    line.number(u64::from(since));
    line.text("\n");
    line
}

#[tactic(auto, unfolding(crate::specs::Tables::region_line))]
fn line_of_blocked(r: usize, owner: Owner, since: u32, at: u32) -> Line
    ensures { result ≡ region_line r (regions.Blocked owner since at) }
{
    let mut line = Line::new();
    line.text("region ");
    line.number(r as u64);
    line.text(" blocked ");
    add_owner(&mut line, owner);
    line.text(" since ");
    line.number(u64::from(since));
    line.text(" at ");
    line.number(u64::from(at));
    line.text("\n");
    line
}

#[tactic(auto, unfolding(crate::specs::Tables::region_line))]
fn line_of_offered(r: usize, to: u8, at: u32) -> Line
    ensures { result ≡ region_line r (regions.Offered to at) }
{
    let mut line = Line::new();
    line.text("region ");
    line.number(r as u64);
    line.text(" offered e");
    line.number(u64::from(to));
    line.text(" at ");
    line.number(u64::from(at));
    line.text("\n");
    line
}

/// The line of a region.
pub fn line_of_region(r: usize, region: &Region) -> Line
    ensures { result ≡ region_line r region.now }
{
    match *region {
        Region::Free => line_of_free(r),
        Region::Owned { owner, since } => line_of_owned(r, owner, since),
        Region::Blocked { owner, since, at } => line_of_blocked(r, owner, since, at),
        Region::Offered { to, at } => line_of_offered(r, to, at),
    }
}

/// The beginning of a mailbox's line: the enclave slot and the mailbox's number.
#[tactic(auto, unfolding(crate::specs::Tables::mailbox_head))]
fn head_of_mailbox(e: usize, m: u64) -> Line
    ensures text { result ≡ mailbox_head e m }
    ensures len { length result ≤ 60 }
{
    let mut line = Line::new();
    line.text("mailbox ");
    line.number(e as u64);
    line.spaced(m);
    line
}

#[tactic(auto, unfolding(crate::specs::Tables::mailbox_line))]
fn line_of_closed(e: usize, m: u64) -> Line
    ensures { result ≡ mailbox_line e m mailboxes.Closed }
{
    let mut line = head_of_mailbox(e, m);
    line.text(" closed\n");
    line
}

#[tactic(auto, unfolding(crate::specs::Tables::mailbox_line))]
fn line_of_expecting(e: usize, m: u64, from: u8) -> Line
    ensures { result ≡ mailbox_line e m (mailboxes.Expecting from) }
{
    let mut line = head_of_mailbox(e, m);
    line.text(" expecting ");
    line.number(u64::from(from));
    line.text("\n");
    line
}

#[tactic(auto, unfolding(crate::specs::Tables::mailbox_line))]
fn line_of_full(e: usize, m: u64, from: u8, words: &[u64; 4], measure: &[u64; 4]) -> Line
    ensures { result ≡ mailbox_line e m (mailboxes.Full from words.now measure.now) }
{
    let mut line = head_of_mailbox(e, m);
    line.text(" full ");
    line.number(u64::from(from));
    line.all_spaced(words);
    line.text(" ");
    add_measure(&mut line, measure);
    line.text("\n");
    line
}

/// The line of mailbox m of an enclave slot.
pub fn line_of_mailbox(e: usize, m: u64, mailbox: &Mailbox) -> Line
    ensures { result ≡ mailbox_line e m mailbox.now }
{
    match *mailbox {
        Mailbox::Closed => line_of_closed(e, m),
        Mailbox::Expecting { from } => line_of_expecting(e, m, from),
        Mailbox::Full {
            from,
            words,
            measure,
        } => line_of_full(e, m, from, &words, &measure),
    }
}

/// Adds a stage after a space.
#[tactic(auto, unfolding(crate::specs::Tables::stage_text))]
fn add_stage(line: &mut Line, stage: Stage)
    requires { length line.old + 12 ≤ LINE }
    ensures text { line.new ≡ line.old ++ stage_text stage }
    ensures len { length line.new ≤ length line.old + 12 }
{
    match stage {
        Stage::Empty => {}
        Stage::Loading => line.text(" loading"),
        Stage::Initialized => line.text(" initialized"),
    }
}

/// The beginning of an enclave's line: the slot, its stage and its range.
#[tactic(auto, unfolding(crate::specs::Tables::enclave_head))]
fn head_of_enclave(e: usize, enclave: &Enclave) -> Line
    ensures text { result ≡ enclave_head e enclave.now }
    ensures len { length result ≤ 120 }
{
    let mut line = Line::new();
    line.text("enclave ");
    line.number(e as u64);
    add_stage(&mut line, enclave.stage);
    line.text(" base ");
    line.number(enclave.base);
    line.text(" size ");
    line.number(enclave.size);
    line
}

/// The line of an enclave.
#[tactic(auto, unfolding(crate::specs::Tables::enclave_line))]
pub fn line_of_enclave(e: usize, enclave: &Enclave) -> Line
    ensures { result ≡ enclave_line e enclave.now }
{
    let mut line = head_of_enclave(e, enclave);
    line.text(" threads ");
    line.number(u64::from(enclave.threads));
    line.text(" measure ");
    add_measure(&mut line, &enclave.measure);
    line.text("\n");
    line
}

#[tactic(auto, unfolding(crate::specs::Tables::state_line))]
fn line_of_ready(t: usize, enclave: u8, saved_at: u32) -> Line
    ensures { result ≡ state_line t (states.Ready enclave) saved_at }
{
    let mut line = Line::new();
    line.text("thread ");
    line.number(t as u64);
    line.text(" ready e");
    line.number(u64::from(enclave));
    line.text(" saved ");
    line.number(u64::from(saved_at));
    line.text("\n");
    line
}

#[tactic(auto, unfolding(crate::specs::Tables::state_line))]
fn line_of_running(t: usize, enclave: u8, saved_at: u32) -> Line
    ensures { result ≡ state_line t (states.Running enclave) saved_at }
{
    let mut line = Line::new();
    line.text("thread ");
    line.number(t as u64);
    line.text(" running e");
    line.number(u64::from(enclave));
    line.text(" saved ");
    line.number(u64::from(saved_at));
    line.text("\n");
    line
}

/// The line of a thread slot, with no bytes where the slot is empty.
#[tactic(auto, unfolding(crate::specs::Tables::state_line))]
pub fn line_of_thread(t: usize, state: ThreadState, saved_at: u32) -> Line
    ensures { result ≡ state_line t state saved_at }
{
    match state {
        ThreadState::Empty => Line::new(),
        ThreadState::Ready { enclave } => line_of_ready(t, enclave, saved_at),
        ThreadState::Running { enclave } => line_of_running(t, enclave, saved_at),
    }
}

#[tactic(auto, unfolding(crate::specs::Tables::core_line))]
fn line_of_os_core(c: usize, flushed: u32) -> Line
    ensures { result ≡ core_line c modes.Os flushed }
{
    let mut line = Line::new();
    line.text("core ");
    line.number(c as u64);
    line.text(" os flushed ");
    line.number(u64::from(flushed));
    line.text("\n");
    line
}

#[tactic(auto, unfolding(crate::specs::Tables::core_line))]
fn line_of_inside_core(c: usize, enclave: u8, thread: u8, flushed: u32) -> Line
    ensures { result ≡ core_line c (modes.Inside enclave thread) flushed }
{
    let mut line = Line::new();
    line.text("core ");
    line.number(c as u64);
    line.text(" in e");
    line.number(u64::from(enclave));
    line.text(" t");
    line.number(u64::from(thread));
    line.text(" flushed ");
    line.number(u64::from(flushed));
    line.text("\n");
    line
}

/// The line of a core.
pub fn line_of_core(c: usize, mode: Mode, flushed: u32) -> Line
    ensures { result ≡ core_line c mode flushed }
{
    match mode {
        Mode::Os => line_of_os_core(c, flushed),
        Mode::Inside { enclave, thread } => line_of_inside_core(c, enclave, thread, flushed),
    }
}
