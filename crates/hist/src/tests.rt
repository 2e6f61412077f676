//! Logs written out by hand.

ghost use Rattle.std.specs.Prelude.{◌≡◌, ◌≤◌, None, length, IfOk};
ghost use Rattle.hist.specs.declared.event.Event.TheVariants as events;
ghost use Rattle.mon_types.specs.declared.call.Call.{Call};
ghost use Rattle.hist.specs.Logged.{events_of};
ghost use Rattle.hist.specs.History.{history};
ghost use Rattle.hist.specs.Merging.{CanMerge};
ghost use Rattle.hist.specs.Period.{NameOwners};

use crate::{Entry, Event, Log, Merge, Period, period_of};
use mon_types::{Call, Owner, Reply, Tried};
use std::alloc::{AllocError, Global};
use std::test::Fail;

const DONE: Reply = Reply::Ok {
    count: 0,
    words: [0; 8],
};

/// A call, as far as a merge and a period tell calls apart. It tried these enclave slots and regions, as
/// sets of bits.
fn call(ticket: u32, call: Call, reply: Reply, enclaves: u8, regions: u64) -> Event
    ensures { result ≡ events.Entry (record { ticket = ticket; core = 0; serial = 0; call = call; page = None; reply = reply; tried = record { enclaves = enclaves; threads = 0; regions = regions; cells = 0 } }) }
{
    Event::Entry(Entry {
        ticket,
        core: 0,
        serial: 0,
        call,
        page: None,
        reply,
        tried: Tried {
            enclaves,
            threads: 0,
            regions,
            cells: 0,
        },
    })
}

/// A flush that answered Ok.
fn flush(ticket: u32) -> Event
    ensures { result ≡ events.Entry (record { ticket = ticket; core = 0; serial = 0; call = Call.Flush; page = None; reply = DONE; tried = record { enclaves = 0; threads = 0; regions = 0; cells = 0 } }) }
{
    call(ticket, Call::Flush, DONE, 0, 0)
}

/// The log with these events.
fn log_of(alloc: Global, events: &[Event]) -> Result<Log, AllocError>
    requires { length events.now ≤ 16 }
    ensures { IfOk result (λ log. log.events ≡ events.now) }
{
    let mut log = Log::new(alloc, 16)?;
    for event in events {
        log.add(*event);
    }
    Ok(log)
}

#[test]
fn three_logs_by_ticket(rt: HostRuntime) -> Result<(), Fail> {
    let touch = Event::Touch {
        region: 1,
        since: 0,
    };
    let logs = [
        log_of(rt.alloc(), &[touch, flush(2), touch, flush(5), touch])?,
        log_of(rt.alloc(), &[touch, touch])?,
        log_of(rt.alloc(), &[flush(1), flush(3), flush(4)])?,
    ];
    let mut tickets = Vec::new(rt.alloc());
    for entry in Merge::new(&logs) {
        tickets.push(entry.ticket)?;
    }
    assert_eq!(rt; tickets.as_slice(), [1, 2, 3, 4, 5].as_slice());
    Ok(())
}

/// Region 3 is blocked at 3 and freed at 5. Enclave 0 is created at 6, gets region 3 at 7 and runs from
/// 8 on; region 5 is offered to it at 9 and accepted at 10. It is deleted at 11, and region 5 is freed.
fn made(alloc: Global) -> Result<[Log; 2], AllocError>
    ensures can { IfOk result (λ logs. CanMerge (events_of logs)) }
    ensures owners { IfOk result (λ logs. NameOwners (history (events_of logs))) }
{
    let refused = Reply::InvalidState;
    let zero = log_of(
        alloc,
        &[
            call(1, Call::Block { r: 3 }, refused, 0, 8),
            call(3, Call::Block { r: 3 }, DONE, 0, 8),
            call(
                6,
                Call::Create {
                    e: 0,
                    base: 0,
                    size: 4096,
                },
                DONE,
                1,
                0,
            ),
            call(7, Call::Assign { r: 3, to: 0 }, DONE, 1, 8),
            call(9, Call::Assign { r: 5, to: 0 }, DONE, 1, 32),
            call(11, Call::Delete { e: 0 }, DONE, 1, 40),
        ],
    )?;
    let one = log_of(
        alloc,
        &[
            call(2, Call::Block { r: 4 }, DONE, 0, 16),
            call(4, Call::Free { r: 4 }, DONE, 0, 16),
            call(5, Call::Free { r: 3 }, DONE, 0, 8),
            call(8, Call::Init { e: 0 }, DONE, 1, 0),
            call(10, Call::AcceptRegion { r: 5 }, DONE, 1, 32),
            call(12, Call::Free { r: 5 }, DONE, 0, 32),
        ],
    )?;
    Ok([zero, one])
}

fn period(
    region: u8,
    owner: Owner,
    since: u32,
    blocked: Option<u32>,
    freed: Option<u32>,
) -> Period {
    Period {
        region,
        owner,
        since,
        blocked,
        freed,
    }
}

#[test]
fn periods_of_a_history(rt: HostRuntime) -> Result<(), Fail> {
    let logs = made(rt.alloc())?;
    let enclave = Owner::Enclave(0);
    assert_eq!(rt;
        period_of(&logs, 3, 0),
        Some(period(3, Owner::Os, 0, Some(3), Some(5)))
    );
    assert_eq!(rt;
        period_of(&logs, 3, 7),
        Some(period(3, enclave, 7, Some(11), None))
    );
    assert_eq!(rt; period_of(&logs, 5, 9), None, "an offer");
    assert_eq!(rt;
        period_of(&logs, 5, 10),
        Some(period(5, enclave, 10, Some(11), Some(12)))
    );
    assert_eq!(rt; period_of(&logs, 3, 10), None, "another region's");
    assert_eq!(rt;
        period_of(&logs, 63, 0),
        Some(period(63, Owner::Os, 0, None, None))
    );
    Ok(())
}
