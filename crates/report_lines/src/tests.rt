//! Lines as they stand in a report, and lines that fail their form.

use crate::{EventLine, next_line, read_call, read_event, read_machine};
use hist::Why;
use mon_types::{Call, Config, ObjectId, Reply};
use std::test::Fail;

#[test]
fn a_call_is_read_from_its_line(rt: HostRuntime) -> Result<(), Fail> {
    let line = b"call 2 core 0 serial 1 free 3 = not_flushed tried r3 c0\n".as_slice();
    let entry = read_call(&Config::plain(1), line).expect(&rt, "a call");
    assert_eq!(rt; entry.ticket, 2);
    assert_eq!(rt; entry.core, 0);
    assert_eq!(rt; entry.serial, 1);
    assert_eq!(rt; entry.call, Call::Free { r: 3 });
    assert_eq!(rt; entry.reply, Reply::NotFlushed);
    assert_eq!(rt; entry.tried.regions, 8);
    assert_eq!(rt; entry.tried.cells, 1);
    assert_eq!(rt; entry.tried.enclaves, 0);
    assert!(rt; entry.page.is_none());
    Ok(())
}

#[test]
fn words_of_a_reply_are_read(rt: HostRuntime) -> Result<(), Fail> {
    let config = Config::plain(2);
    let met = b"call 1 core 1 serial 0 block 3 = concurrent r3 0 7 tried r3\n".as_slice();
    let entry = read_call(&config, met).expect(&rt, "a call");
    let lock = ObjectId::Region(3);
    let reply = Reply::ConcurrentCall {
        lock,
        holder: 0,
        serial: 7,
    };
    assert_eq!(rt; entry.reply, reply);
    let told = b"call 9 core 0 serial 4 region_info 3 = ok 1 18446744073709551615 0 0 tried r3\n";
    let entry = read_call(&config, told.as_slice()).expect(&rt, "a call");
    assert_eq!(rt; entry.reply, Reply::ok_with_four(1, u64::MAX, 0, 0));
    Ok(())
}

#[test]
fn lines_out_of_form_are_no_calls(rt: HostRuntime) -> Result<(), Fail> {
    let config = Config::plain(2);
    for line in [
        b"call 02 core 0 serial 1 flush = ok tried c0\n".as_slice(),
        b"call 2 core 2 serial 1 flush = ok tried c0\n",
        b"call 2  core 0 serial 1 flush = ok tried c0\n",
        b"call 2 core 0 serial 1 flush = ok tried c0",
        b"call 2 core 0 serial 1 flush = ok tried c0\r\n",
        b"call 4294967296 core 0 serial 1 flush = ok tried c0\n",
        b"call 2 core 0 serial 1 flush 0 = ok tried c0\n",
        b"call 2 core 0 serial 1 block = ok tried r3\n",
        b"call 2 core 0 serial 1 free 3 = not_flushed tried c0 r3\n",
        b"call 2 core 0 serial 1 free 3 = not_flushed tried r3 r3\n",
        b"call 2 core 0 serial 1 flush = ok tried c2\n",
        b"call 2 core 0 serial 1 ecall 4 0 0 0 0 0 0 = unsupported tried\n",
        b"call 2 core 0 serial 1 load_page 0 65536 5 1 5 = ok tried e0 r1\n",
        b"call 2 core 0 serial 1 flush = ok 1 2 3 4 5 6 7 8 9 tried c0\n",
        b"call 2 core 0 serial 1 block 3 = concurrent r3 2 0 tried r3\n",
        b"",
    ] {
        assert!(rt; read_call(&config, line).is_none());
    }
    let unknown = b"call 2 core 0 serial 1 ecall 24 0 0 0 0 0 0 = unsupported tried\n".as_slice();
    assert!(rt; read_call(&config, unknown).is_some());
    Ok(())
}

#[test]
fn events_and_machines_are_read(rt: HostRuntime) -> Result<(), Fail> {
    let config = read_machine(b"machine cores 1 regions 8 pages 1 shift 0\n".as_slice());
    let config = config.expect(&rt, "a machine");
    assert_eq!(rt; config, Config::plain(1));
    let entry = read_event(&config, b"entry 7\n".as_slice());
    assert_eq!(rt; entry, Some(EventLine::Entry { ticket: 7 }));
    let touch = read_event(&config, b"touch 7 0\n".as_slice());
    assert_eq!(rt;
        touch,
        Some(EventLine::Touch {
            region: 7,
            since: 0
        })
    );
    let why = Why::Trap {
        cause: 13,
        value: 4096,
    };
    let trap = read_event(&config, b"trap 2 13 4096\n".as_slice());
    assert_eq!(rt; trap, Some(EventLine::Stop { line: 2, why }));
    assert!(rt; read_event(&config, b"touch 8 0\n".as_slice()).is_none());
    assert!(rt; read_event(&config, b"limit 07\n".as_slice()).is_none());
    assert!(rt; read_machine(b"machine cores 17 regions 8 pages 1 shift 0\n".as_slice()).is_none());
    let (line, rest) = next_line(b"log 0\nend".as_slice());
    assert_eq!(rt; line, b"log 0\n".as_slice());
    let (last, rest) = next_line(rest);
    assert_eq!(rt; last, b"end".as_slice());
    assert!(rt; rest.is_empty());
    Ok(())
}
