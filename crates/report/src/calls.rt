//! The line of a call.

ghost use Rattle.std.specs.Prelude.{◌≡◌, ◌≤◌, ◌+◌, ◌*◌, ◌∷◌, ◌++◌, length, is_some};
ghost use Rattle.mon_types.specs.Calls.{call_name, call_args};
ghost use Rattle.hist.specs.Legal.{has_its_page};
ghost use Rattle.hist.specs.Printing.{HasFewWords, IsPrintable};
ghost use Rattle.text_out.specs.Texts.{all_spaced};
ghost use Rattle.report.specs.Calls.{call_head, call_line, page_text, reply_text, ok_text, concurrent_text};

use crate::objects::{add_object, add_tried};
use hist::Entry;
use mon_types::{Call, ObjectId, Reply};
use text_out::{LINE, Line};

/// The beginning of the line: the ticket, the core and the serial.
#[tactic(auto, unfolding(crate::specs::Calls::call_head))]
fn head_of(entry: &Entry) -> Line
    ensures text { result ≡ call_head entry.now }
    ensures len { length result ≤ 100 }
{
    let mut line = Line::new();
    line.text("call ");
    line.number(u64::from(entry.ticket));
    line.text(" core ");
    line.number(u64::from(entry.core));
    line.text(" serial ");
    line.number(u64::from(entry.serial));
    line.text(" ");
    line
}

/// Adds the arguments of a call, each after a space.
fn add_args(line: &mut Line, call: &Call)
    requires { length line.old + 700 ≤ LINE }
    ensures text { line.new ≡ line.old ++ all_spaced (call_args call.now) }
    ensures len { length line.new ≤ length line.old + 700 }
{
    match *call {
        Call::Block { r } => line.all_spaced(&[r]),
        Call::Free { r } => line.all_spaced(&[r]),
        Call::Assign { r, to } => line.all_spaced(&[r, to]),
        Call::Flush => {}
        Call::RegionInfo { r } => line.all_spaced(&[r]),
        Call::Create { e, base, size } => line.all_spaced(&[e, base, size]),
        Call::LoadTable { e, va, level, page } => line.all_spaced(&[e, va, level, page]),
        Call::LoadPage {
            e,
            va,
            page,
            src,
            perms,
        } => line.all_spaced(&[e, va, page, src, perms]),
        Call::LoadThread { e, t, entry, sp } => line.all_spaced(&[e, t, entry, sp]),
        Call::Init { e } => line.all_spaced(&[e]),
        Call::DeleteThread { e, t } => line.all_spaced(&[e, t]),
        Call::Delete { e } => line.all_spaced(&[e]),
        Call::Enter { e, t } => line.all_spaced(&[e, t]),
        Call::Exit => {}
        Call::Aex { saved } => add_saved(line, &saved),
        Call::Restore => {}
        Call::Accept { m, from } => line.all_spaced(&[m, from]),
        Call::Send {
            to,
            m,
            w0,
            w1,
            w2,
            w3,
        } => line.all_spaced(&[to, m, w0, w1, w2, w3]),
        Call::Read { m } => line.all_spaced(&[m]),
        Call::EnclaveInfo { e } => line.all_spaced(&[e]),
        Call::SetSatp { v } => line.all_spaced(&[v]),
        Call::AcceptRegion { r } => line.all_spaced(&[r]),
        Call::Reserve { e, va, page, perms } => line.all_spaced(&[e, va, page, perms]),
        Call::Unknown { number, args } => add_unknown(line, number, &args),
    }
}

/// Adds what an exit of the machine saves, each word after a space.
fn add_saved(line: &mut Line, saved: &[u64; 33])
    requires { length line.old + 700 ≤ LINE }
    ensures text { line.new ≡ line.old ++ all_spaced saved.now }
    ensures len { length line.new ≤ length line.old + 700 }
{
    line.all_spaced(saved);
}

/// Adds the number and the arguments of a call of no known number, each after a space.
fn add_unknown(line: &mut Line, number: u64, args: &[u64; 6])
    requires { length line.old + 700 ≤ LINE }
    ensures text { line.new ≡ line.old ++ all_spaced (number ∷ args.now) }
    ensures len { length line.new ≤ length line.old + 700 }
{
    line.spaced(number);
    line.all_spaced(args);
}

/// Adds the digest of the page that a load_page read.
#[tactic(auto, unfolding(crate::specs::Calls::page_text))]
fn add_page(line: &mut Line, entry: &Entry)
    requires page { is_some entry.now.page ≡ has_its_page entry.now }
    requires room { length line.old + 70 ≤ LINE }
    ensures text { line.new ≡ line.old ++ page_text entry.now }
    ensures len { length line.new ≤ length line.old + 70 }
{
    if let Some(page) = entry.page {
        line.text(" page ");
        line.hex(&page.digest);
    }
}

/// Adds the name and the arguments of a call, and the page that it read.
fn add_call(line: &mut Line, entry: &Entry)
    requires page { is_some entry.now.page ≡ has_its_page entry.now }
    requires room { length line.old + 783 ≤ LINE }
    ensures text { line.new ≡ line.old ++ call_name entry.now.call ++ all_spaced (call_args entry.now.call) ++ page_text entry.now }
    ensures len { length line.new ≤ length line.old + 783 }
{
    line.text(entry.call.name());
    add_args(line, &entry.call);
    add_page(line, entry);
}

/// Adds the reply Ok with its words.
#[tactic(auto, unfolding(crate::specs::Calls::ok_text))]
fn add_done(line: &mut Line, count: u8, words: &[u64; 8])
    requires few { count ≤ 8 }
    requires room { length line.old + 200 ≤ LINE }
    ensures text { line.new ≡ line.old ++ ok_text count words.now }
    ensures len { length line.new ≤ length line.old + 200 }
{
    line.text("ok");
    line.all_spaced(&words[..usize::from(count)]);
}

/// Adds the reply that a lock was held.
#[tactic(auto, unfolding(crate::specs::Calls::concurrent_text))]
fn add_concurrent(line: &mut Line, lock: ObjectId, holder: u8, serial: u32)
    requires { length line.old + 200 ≤ LINE }
    ensures text { line.new ≡ line.old ++ concurrent_text lock holder serial }
    ensures len { length line.new ≤ length line.old + 200 }
{
    line.text("concurrent ");
    add_object(line, lock);
    line.spaced(u64::from(holder));
    line.spaced(u64::from(serial));
}

/// Adds a reply.
#[tactic(auto, unfolding(crate::specs::Calls::reply_text))]
fn add_reply(line: &mut Line, reply: &Reply)
    requires few { HasFewWords reply.now }
    requires room { length line.old + 200 ≤ LINE }
    ensures text { line.new ≡ line.old ++ reply_text reply.now }
    ensures len { length line.new ≤ length line.old + 200 }
{
    match *reply {
        Reply::Ok { count, words } => add_done(line, count, &words),
        Reply::InvalidValue => line.text("invalid_value"),
        Reply::InvalidState => line.text("invalid_state"),
        Reply::AccessDenied => line.text("access_denied"),
        Reply::ConcurrentCall {
            lock,
            holder,
            serial,
        } => add_concurrent(line, lock, holder, serial),
        Reply::NotFlushed => line.text("not_flushed"),
        Reply::Unsupported => line.text("unsupported"),
    }
}

/// The line of a call.
#[tactic(auto, unfolding(crate::specs::Calls::call_line))]
pub fn line_of_call(entry: &Entry) -> Line
    requires { IsPrintable entry.now }
    ensures { result ≡ call_line entry.now }
{
    let mut line = head_of(entry);
    add_call(&mut line, entry);
    line.text(" = ");
    add_reply(&mut line, &entry.reply);
    line.text(" tried");
    add_tried(&mut line, &entry.tried);
    line.text("\n");
    line
}
