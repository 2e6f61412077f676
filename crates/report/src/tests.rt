//! The lines of a report and two whole reports, written out by hand.

ghost use Rattle.std.specs.Prelude.{◌≡◌, ◌≤◌, length, [], ◌∷◌, None, IfOk};
ghost use Rattle.hist.specs.declared.event.Event.TheVariants as events;
ghost use Rattle.hist.specs.Logged.{events_of};
ghost use Rattle.hist.specs.Merging.{CanMerge};
ghost use Rattle.hist.specs.Printing.{ArePrintable};
ghost use Rattle.report.specs.Report.{HasAllCores};

use crate::calls::line_of_call;
use crate::events::{line_of_event, line_of_log};
use crate::print::Print;
use crate::report;
use crate::tables::{line_of_core, line_of_region, line_of_thread};
use hist::{Entry, Event, Finished, Log, PageInput, Why};
use mon_types::{
    Call, Config, Enclave, Items, Mailbox, Mode, OS_WORD, ObjectId, Owner, Region, Reply, Stage,
    Thread, ThreadState, Tried,
};
use sm_ports::{Failed, VecSink};
use std::alloc::{AllocError, Global};
use std::process::Abort;
use std::test::Fail;

const NONE: Tried = Tried {
    enclaves: 0,
    threads: 0,
    regions: 0,
    cells: 0,
};

/// The call with ticket 7, of core 1 with serial 3.
fn entry(call: Call, reply: Reply, tried: Tried) -> Entry
    ensures { result ≡ record { ticket = 7; core = 1; serial = 3; call = call; page = None; reply = reply; tried = tried } }
{
    Entry {
        ticket: 7,
        core: 1,
        serial: 3,
        call,
        page: None,
        reply,
        tried,
    }
}

#[test]
fn call_lines(rt: HostRuntime) {
    let tried = Tried {
        enclaves: 0b1000_0001,
        threads: 0x8000,
        regions: 0x8000_0000_0000_0001,
        cells: 0x8001,
    };
    let words = [2, 4, 9, 8, 0, 0, 0, 0];
    let told = entry(
        Call::RegionInfo { r: 5 },
        Reply::Ok { count: 3, words },
        tried,
    );
    assert_eq!(rt;
        line_of_call(&told).as_slice(),
        b"call 7 core 1 serial 3 region_info 5 = ok 2 4 9 tried e0 e7 t15 r0 r63 c0 c15\n".as_slice()
    );
    let held = Reply::ConcurrentCall {
        lock: ObjectId::Thread(12),
        holder: 15,
        serial: 16383,
    };
    let unknown = Call::Unknown {
        number: 24,
        args: [1, 2, 3, 4, 5, 18446744073709551615],
    };
    assert_eq!(rt;
        line_of_call(&entry(unknown, held, NONE)).as_slice(),
        b"call 7 core 1 serial 3 ecall 24 1 2 3 4 5 18446744073709551615 = concurrent t12 15 16383 tried\n".as_slice()
    );
}

#[test]
fn an_exit_has_its_words(rt: HostRuntime) {
    let mut saved = [7; 33];
    saved[0] = 65536;
    saved[1] = 1;
    saved[31] = 31;
    saved[32] = 9223372036854775813;
    assert_eq!(rt;
        line_of_call(&entry(Call::Aex { saved }, Reply::AccessDenied, NONE)).as_slice(),
        b"call 7 core 1 serial 3 aex 65536 1 7 7 7 7 7 7 7 7 7 7 7 7 7 7 7 7 7 7 7 7 7 7 7 7 7 7 7 7 7 31 9223372036854775813 = access_denied tried\n".as_slice()
    );
}

/// Checks the line of a flush that is refused.
fn check_refused_flush(rt: &impl Abort, reply: Reply, want: &str) {
    assert!(rt; !matches!(reply, Reply::Ok { .. }));
    assert_eq!(rt;
        line_of_call(&entry(Call::Flush, reply, NONE)).as_slice(),
        want.as_bytes()
    );
}

#[test]
fn refused_calls(rt: HostRuntime) {
    let load = Call::LoadPage {
        e: 0,
        va: 65536,
        page: 5,
        src: 1,
        perms: 5,
    };
    assert_eq!(rt;
        line_of_call(&entry(load, Reply::InvalidState, NONE)).as_slice(),
        b"call 7 core 1 serial 3 load_page 0 65536 5 1 5 = invalid_state tried\n".as_slice()
    );
    for (reply, want) in [
        (
            Reply::InvalidValue,
            "call 7 core 1 serial 3 flush = invalid_value tried\n",
        ),
        (
            Reply::NotFlushed,
            "call 7 core 1 serial 3 flush = not_flushed tried\n",
        ),
        (
            Reply::Unsupported,
            "call 7 core 1 serial 3 flush = unsupported tried\n",
        ),
    ] {
        check_refused_flush(&rt, reply, want);
    }
}

#[test]
fn a_loaded_page_has_its_digest(rt: HostRuntime) {
    let mut digest = [0xa5; 32];
    digest[0] = 0x0f;
    digest[31] = 0xf0;
    let loaded = Entry {
        ticket: 4294967295,
        core: 0,
        serial: 0,
        call: Call::LoadPage {
            e: 0,
            va: 65536,
            page: 5,
            src: 1,
            perms: 5,
        },
        page: Some(PageInput { digest, at: 9 }),
        reply: Reply::Ok {
            count: 0,
            words: [0; 8],
        },
        tried: NONE,
    };
    assert_eq!(rt;
        line_of_call(&loaded).as_slice(),
        b"call 4294967295 core 0 serial 0 load_page 0 65536 5 1 5 page 0fa5a5a5a5a5a5a5a5a5a5a5a5a5a5a5a5a5a5a5a5a5a5a5a5a5a5a5a5a5a5f0 = ok tried\n".as_slice()
    );
}

/// Checks the line of an event.
fn check_event(rt: &impl Abort, event: &Event, want: &str) {
    assert_eq!(rt; line_of_event(event).as_slice(), want.as_bytes());
}

#[test]
fn event_lines(rt: HostRuntime) {
    assert_eq!(rt; line_of_log(15).as_slice(), b"log 15\n".as_slice());
    let call = entry(Call::Flush, Reply::Unsupported, NONE);
    let touch = Event::Touch {
        region: 10,
        since: 0,
    };
    let trap = Event::Stop {
        line: 2,
        why: Why::Trap {
            cause: 13,
            value: 2151686144,
        },
    };
    let limit = Event::Stop {
        line: 3,
        why: Why::Limit,
    };
    for (event, want) in [
        (Event::Entry(call), "entry 7\n"),
        (touch, "touch 10 0\n"),
        (trap, "trap 2 13 2151686144\n"),
        (limit, "limit 3\n"),
    ] {
        check_event(&rt, &event, want);
    }
}

/// Checks the line of region 12.
fn check_region(rt: &impl Abort, region: &Region, want: &str) {
    assert_eq!(rt; line_of_region(12, region).as_slice(), want.as_bytes());
}

/// Checks the line of thread 15, which was saved at ticket 22.
fn check_thread(rt: &impl Abort, state: ThreadState, want: &str) {
    assert_eq!(rt; line_of_thread(15, state, 22).as_slice(), want.as_bytes());
}

#[test]
fn table_lines(rt: HostRuntime) {
    let owned = Region::Owned {
        owner: Owner::Os,
        since: 0,
    };
    let blocked = Region::Blocked {
        owner: Owner::Enclave(0),
        since: 24,
        at: 25,
    };
    for (region, want) in [
        (Region::Free, "region 12 free\n"),
        (owned, "region 12 owned os since 0\n"),
        (blocked, "region 12 blocked e0 since 24 at 25\n"),
        (
            Region::Offered { to: 7, at: 24 },
            "region 12 offered e7 at 24\n",
        ),
    ] {
        check_region(&rt, &region, want);
    }
    for (state, want) in [
        (ThreadState::Empty, ""),
        (
            ThreadState::Ready { enclave: 0 },
            "thread 15 ready e0 saved 22\n",
        ),
        (
            ThreadState::Running { enclave: 7 },
            "thread 15 running e7 saved 22\n",
        ),
    ] {
        check_thread(&rt, state, want);
    }
    let inside = Mode::Inside {
        enclave: 2,
        thread: 12,
    };
    assert_eq!(rt;
        line_of_core(3, Mode::Os, 9).as_slice(),
        b"core 3 os flushed 9\n".as_slice()
    );
    assert_eq!(rt;
        line_of_core(0, inside, 0).as_slice(),
        b"core 0 in e2 t12 flushed 0\n".as_slice()
    );
}

#[test]
fn enclave_lines(rt: HostRuntime) -> Result<(), Fail> {
    let alloc = rt.alloc();
    let mut out = VecSink::new(alloc, 1000, Vec::new(alloc))?;
    let mut enclave = Enclave::empty();
    enclave.print(0, &mut out).expect(&rt, "no line");
    assert_eq!(rt; out.as_slice(), b"".as_slice());
    enclave.stage = Stage::Initialized;
    enclave.base = 65536;
    enclave.size = 16384;
    enclave.threads = 2;
    enclave.measure = [0x0706050403020100, 0, 0xff, 0xf000000000000000];
    enclave.mail[1] = Mailbox::Full {
        from: 3,
        words: [7, 8, 9, 10],
        measure: [1, 2, 3, 4],
    };
    enclave.print(5, &mut out).expect(&rt, "three lines");
    assert_eq!(rt;
        out.as_slice(),
        b"enclave 5 initialized base 65536 size 16384 threads 2 measure 00010203040506070000000000000000ff0000000000000000000000000000f0\nmailbox 5 0 closed\nmailbox 5 1 full 3 7 8 9 10 0100000000000000020000000000000003000000000000000400000000000000\n".as_slice()
    );
    let mut out = VecSink::new(alloc, 1000, Vec::new(alloc))?;
    enclave.stage = Stage::Loading;
    enclave.measure = [0; 4];
    enclave.mail = [Mailbox::Expecting { from: 4 }, Mailbox::Closed];
    enclave.print(7, &mut out).expect(&rt, "three lines");
    assert_eq!(rt;
        out.as_slice(),
        b"enclave 7 loading base 65536 size 16384 threads 2 measure 0000000000000000000000000000000000000000000000000000000000000000\nmailbox 7 0 expecting 4\nmailbox 7 1 closed\n".as_slice()
    );
    Ok(())
}

/// The set of tried objects with these regions and cells.
fn tried(regions: u64, cells: u16) -> Tried
    ensures { result ≡ record { enclaves = 0; threads = 0; regions = regions; cells = cells } }
{
    Tried {
        enclaves: 0,
        threads: 0,
        regions,
        cells,
    }
}

/// A call that read no page, in its core's log.
fn made(ticket: u32, core: u8, serial: u32, call: Call, reply: Reply, tried: Tried) -> Event
    ensures { result ≡ events.Entry record { ticket = ticket; core = core; serial = serial; call = call; page = None; reply = reply; tried = tried } }
{
    Event::Entry(Entry {
        ticket,
        core,
        serial,
        call,
        page: None,
        reply,
        tried,
    })
}

const DONE: Reply = Reply::Ok {
    count: 0,
    words: [0; 8],
};

/// What a run of the plain machine leaves in which no core entered an enclave.
fn left(
    alloc: Global,
    logs: Items<Log>,
    regions: Vec<Region>,
    flushed: Items<u32>,
) -> Result<Finished, AllocError>
    requires some { 1 ≤ length logs }
    requires most { length logs ≤ 16 }
    requires flushed { length flushed ≡ length logs }
    ensures cores { IfOk result HasAllCores }
    ensures logs { IfOk result (λ f. f.logs ≡ logs) }
{
    let cores = logs.len();
    Ok(Finished {
        config: Config::plain(cores as u8),
        logs,
        answers: Items::new(alloc),
        regions: Items::from_vec(regions),
        enclaves: Items::from_vec(vec![in alloc; Enclave::empty(); 8]?),
        threads: Items::from_vec(vec![in alloc; Thread::empty(); 16]?),
        flushed,
        modes: Items::from_vec(vec![in alloc; Mode::Os; cores]?),
        words: Items::new(alloc),
    })
}

/// `block 3`, `free 3`, `flush`, `free 3` and `assign 3 os`.
fn first_log(alloc: Global) -> Result<Log, AllocError>
    ensures printable { IfOk result (λ log. ArePrintable (events_of (log ∷ []))) }
    ensures merge { IfOk result (λ log. CanMerge (events_of (log ∷ []))) }
{
    let free = Call::Free { r: 3 };
    let assign = Call::Assign { r: 3, to: OS_WORD };
    let mut log = Log::new(alloc, 5)?;
    log.add(made(1, 0, 0, Call::Block { r: 3 }, DONE, tried(8, 0)));
    log.add(made(2, 0, 1, free, Reply::NotFlushed, tried(8, 1)));
    log.add(made(3, 0, 2, Call::Flush, DONE, tried(0, 1)));
    log.add(made(4, 0, 3, free, DONE, tried(8, 1)));
    log.add(made(5, 0, 4, assign, DONE, tried(8, 0)));
    Ok(log)
}

/// The plain machine with one core after these calls.
fn first_path(alloc: Global) -> Result<Finished, AllocError>
    ensures cores { IfOk result HasAllCores }
    ensures printable { IfOk result (λ f. ArePrintable (events_of f.logs)) }
    ensures merge { IfOk result (λ f. CanMerge (events_of f.logs)) }
{
    let mut logs = Items::new(alloc);
    logs.push(first_log(alloc)?)?;
    let mut flushed = Items::new(alloc);
    flushed.push(3)?;
    let owner = Owner::Os;
    let mut regions = vec![in alloc; Region::Owned { owner, since: 0 }; 8]?;
    regions[3] = Region::Owned { owner, since: 5 };
    left(alloc, logs, regions, flushed)
}

const FIRST_REPORT: &str = "sanctum report 1
machine cores 1 regions 8 pages 1 shift 0
call 1 core 0 serial 0 block 3 = ok tried r3
call 2 core 0 serial 1 free 3 = not_flushed tried r3 c0
call 3 core 0 serial 2 flush = ok tried c0
call 4 core 0 serial 3 free 3 = ok tried r3 c0
call 5 core 0 serial 4 assign 3 18446744073709551615 = ok tried r3
log 0
entry 1
entry 2
entry 3
entry 4
entry 5
region 0 owned os since 0
region 1 owned os since 0
region 2 owned os since 0
region 3 owned os since 5
region 4 owned os since 0
region 5 owned os since 0
region 6 owned os since 0
region 7 owned os since 0
core 0 os flushed 3
end
";

#[test]
fn a_report_goes_out_line_by_line(rt: HostRuntime) -> Result<(), Fail> {
    let alloc = rt.alloc();
    let finished = first_path(alloc)?;
    let mut out = VecSink::new(alloc, FIRST_REPORT.len(), Vec::new(alloc))?;
    assert_eq!(rt; report(&finished, &mut out), Ok(()));
    assert_eq!(rt; out.as_slice(), FIRST_REPORT.as_bytes());
    for k in 0..23 {
        let mut out = VecSink::new(alloc, FIRST_REPORT.len(), vec![in alloc; k]?)?;
        assert_eq!(rt; report(&finished, &mut out), Err(Failed));
        let lines = out.as_slice().iter().filter(|byte| **byte == b'\n').count();
        assert_eq!(rt; lines, k as usize);
        assert!(rt; FIRST_REPORT.as_bytes().starts_with(out.as_slice()));
    }
    let mut out = VecSink::new(alloc, FIRST_REPORT.len(), vec![in alloc; 23]?)?;
    assert_eq!(rt; report(&finished, &mut out), Ok(()));
    Ok(())
}

/// `block 3`, `flush` and `free 3` of core 0; `block 4`, a step into region 0, `flush` and `assign 4 os`
/// of core 1.
fn two_logs(alloc: Global) -> Result<Items<Log>, AllocError>
    ensures cores { IfOk result (λ logs. length logs ≡ 2) }
    ensures printable { IfOk result (λ logs. ArePrintable (events_of logs)) }
    ensures merge { IfOk result (λ logs. CanMerge (events_of logs)) }
{
    let mut zero = Log::new(alloc, 3)?;
    zero.add(made(1, 0, 0, Call::Block { r: 3 }, DONE, tried(8, 0)));
    zero.add(made(4, 0, 1, Call::Flush, DONE, tried(0, 1)));
    zero.add(made(5, 0, 2, Call::Free { r: 3 }, DONE, tried(8, 3)));
    let touch = Event::Touch {
        region: 0,
        since: 0,
    };
    let assign = Call::Assign { r: 4, to: OS_WORD };
    let mut one = Log::new(alloc, 4)?;
    one.add(made(2, 1, 0, Call::Block { r: 4 }, DONE, tried(16, 0)));
    one.add(touch);
    one.add(made(3, 1, 1, Call::Flush, DONE, tried(0, 2)));
    one.add(made(6, 1, 2, assign, Reply::InvalidState, tried(16, 0)));
    let mut logs = Items::new(alloc);
    logs.push(zero)?;
    logs.push(one)?;
    Ok(logs)
}

/// The plain machine with two cores after these calls.
fn two_cores(alloc: Global) -> Result<Finished, AllocError>
    ensures cores { IfOk result HasAllCores }
    ensures printable { IfOk result (λ f. ArePrintable (events_of f.logs)) }
    ensures merge { IfOk result (λ f. CanMerge (events_of f.logs)) }
{
    let logs = two_logs(alloc)?;
    let mut flushed = Items::new(alloc);
    flushed.push(4)?;
    flushed.push(3)?;
    let owner = Owner::Os;
    let mut regions = vec![in alloc; Region::Owned { owner, since: 0 }; 8]?;
    regions[3] = Region::Free;
    regions[4] = Region::Blocked {
        owner,
        since: 0,
        at: 2,
    };
    left(alloc, logs, regions, flushed)
}

const TWO_CORES: &str = "sanctum report 1
machine cores 2 regions 8 pages 1 shift 0
call 1 core 0 serial 0 block 3 = ok tried r3
call 2 core 1 serial 0 block 4 = ok tried r4
call 3 core 1 serial 1 flush = ok tried c1
call 4 core 0 serial 1 flush = ok tried c0
call 5 core 0 serial 2 free 3 = ok tried r3 c0 c1
call 6 core 1 serial 2 assign 4 18446744073709551615 = invalid_state tried r4
log 0
entry 1
entry 4
entry 5
log 1
entry 2
touch 0 0
entry 3
entry 6
region 0 owned os since 0
region 1 owned os since 0
region 2 owned os since 0
region 3 free
region 4 blocked os since 0 at 2
region 5 owned os since 0
region 6 owned os since 0
region 7 owned os since 0
core 0 os flushed 4
core 1 os flushed 3
end
";

#[test]
fn the_calls_of_two_cores_by_ticket(rt: HostRuntime) -> Result<(), Fail> {
    let alloc = rt.alloc();
    let finished = two_cores(alloc)?;
    let mut out = VecSink::new(alloc, TWO_CORES.len(), Vec::new(alloc))?;
    assert_eq!(rt; report(&finished, &mut out), Ok(()));
    assert_eq!(rt; out.as_slice(), TWO_CORES.as_bytes());
    Ok(())
}
