//! Texts that are assembled, the fault of each that is not, and instructions that are printed.

use crate::{AsmError, LIMIT, assemble, print};
use rv_decode::decode;
use std::alloc::{AllocError, Global};
use std::process::Abort;
use std::test::Fail;

/// What is wrong with a text; the empty text where nothing is.
fn fault(alloc: Global, text: &[u8], limit: u32) -> Result<String, AllocError> {
    match assemble(alloc, text, limit) {
        Ok(_) => Ok(String::new(alloc)),
        Err(AsmError::Fault(fault)) => format!(in alloc; "{fault}"),
        Err(AsmError::Memory) => String::from_str(alloc, "no memory"),
    }
}

/// Checks what is wrong with a text of which four words are wanted at most; the empty text where nothing is.
fn check_fault(rt: &impl Abort, alloc: Global, text: &[u8], want: &str) -> Result<(), Fail> {
    assert_eq!(rt; fault(alloc, text, 4)?.as_str(), want);
    Ok(())
}

/// Checks that a text is assembled to this one word.
fn check_word(rt: &impl Abort, alloc: Global, text: &[u8], word: u32) {
    let words = assemble(alloc, text, 1).expect(rt, "a word");
    assert_eq!(rt; words.as_slice(), [word].as_slice());
}

/// Checks how the instruction of a word is printed.
fn check_print(rt: &impl Abort, word: u32, text: &str) {
    let inst = decode(word).expect(rt, "an instruction");
    assert_eq!(rt; print(&inst).as_str(), text);
}

/// Row `pack-three`, its words.
#[test]
fn three_instructions(rt: HostRuntime) -> Result<(), Fail> {
    let alloc = rt.alloc();
    let text = b"addi x17, x0, 4\r\n\n \tecall # call\nebreak";
    let words = assemble(alloc, text, 3).expect(&rt, "words");
    assert_eq!(rt;
        words.as_slice(),
        [0x00400893, 0x00000073, 0x00100073].as_slice()
    );
    Ok(())
}

#[test]
fn each_form(rt: HostRuntime) -> Result<(), Fail> {
    let alloc = rt.alloc();
    for (text, word) in [
        (b"lui x5, 0xfffff".as_slice(), 0xfffff2b7),
        (b"auipc x1,0", 0x00000097),
        (b"jal x0, -4", 0xffdff06f),
        (b"jalr x1, 3(x2)", 0x003100e7),
        (b"a: beq x0, x0, a", 0x00000063),
        (b"ld x5, 0(x12)", 0x00063283),
        (b"sd x6, -8(x2)", 0xfe613c23),
        (b"addi x5 , x5 ,1", 0x00128293),
        (b"slliw x1, x1, 1", 0x0010909b),
        (b"slli x1, x1, 33", 0x02109093),
        (b"sub x3, x1, x2", 0x402081b3),
        (b"mul x3, x1, x2", 0x022081b3),
        (b"amoadd.d x5, x6, (x7)", 0x0063b2af),
        (b"amoswap.w.aqrl x5, x6, (x7)", 0x0e63a2af),
        (b"fence x0, x0, 255", 0x0ff0000f),
        (b"sfence.vma x0, x0", 0x12000073),
        (b".word 4294967295", 0xffffffff),
    ] {
        check_word(&rt, alloc, text, word);
    }
    Ok(())
}

#[test]
fn labels_and_data(rt: HostRuntime) -> Result<(), Fail> {
    let alloc = rt.alloc();
    let text =
        b"beq x0, x0, end\n.at 0x10\n_x1:.dword 0x123456789abcdef0\nend: # here\n\tjal x0, _x1\nx5:";
    let words = assemble(alloc, text, 7).expect(&rt, "words");
    assert_eq!(rt;
        words.as_slice(),
        [0x00000c63, 0, 0, 0, 0x9abcdef0, 0x12345678, 0xff9ff06f].as_slice()
    );
    Ok(())
}

/// Row `double-label`, the fault of `pack-three`, and each kind in each of its places.
#[test]
fn the_first_fault_is_named(rt: HostRuntime) -> Result<(), Fail> {
    let alloc = rt.alloc();
    for (text, want) in [
        (
            b"addi x17, x0, 4\necal\nebreak".as_slice(),
            "asm line 2 unknown word",
        ),
        (b"a: beq x0, x0, a\na: ecall", "asm line 2 double label"),
        (b"a: ecall\na: foo x1 \x80", "asm line 2 double label"),
        (b"ecall # \x80", "asm line 1 unknown word"),
        (b"add: ecall", "asm line 1 unknown word"),
        (b"a : ecall", "asm line 1 unknown word"),
        (b"1a: ecall", "asm line 1 unknown word"),
        (b"amoadd.d.rlaq x1, x1, (x1)", "asm line 1 unknown word"),
        (b"ecall x1", "asm line 1 bad operand"),
        (b"add x1, x2", "asm line 1 bad operand"),
        (b"add x1, x2, x3,", "asm line 1 bad operand"),
        (b"add x1, x2, x32", "asm line 1 bad operand"),
        (b"add x1,\tx2, x3", "asm line 1 bad operand"),
        (b"add x1, x02, x3", "asm line 1 bad operand"),
        (b"ld x1, 0 (x2)", "asm line 1 bad operand"),
        (b"ld x1, 5000(y2)", "asm line 1 bad operand"),
        (b"jal x0, add", "asm line 1 bad operand"),
        (b"ld x1, 2048(x2)", "asm line 1 out of range"),
        (b"lui x1, -1", "asm line 1 out of range"),
        (b"slliw x1, x1, 32", "asm line 1 out of range"),
        (b"beq x0, x0, 3", "asm line 1 out of range"),
        (b"beq x0, x0, 4096", "asm line 1 out of range"),
        (
            b"addi x1, x1, 0xffffffffffffffffffffffffff",
            "asm line 1 out of range",
        ),
        (b".dword 18446744073709551616", "asm line 1 out of range"),
        (b".word -1", "asm line 1 out of range"),
        (b"ecall\n.at 0", "asm line 2 out of range"),
        (b".at 6", "asm line 1 out of range"),
        (
            b".at 1000000000000000000000000000002",
            "asm line 1 out of range",
        ),
        (b"beq x0, x0, b", "asm line 1 unknown label"),
        (b".at 16\necall", "asm line 2 too long"),
        (b".at 20", "asm line 1 too long"),
        (
            b".at 1000000000000000000000000000000",
            "asm line 1 too long",
        ),
        (b".at 12\n.dword 1", "asm line 2 too long"),
    ] {
        check_fault(&rt, alloc, text, want)?;
    }
    Ok(())
}

#[test]
fn the_limit_is_a_text(rt: HostRuntime) -> Result<(), Fail> {
    let alloc = rt.alloc();
    let mut text = vec![in alloc; b' '; LIMIT]?;
    assert_eq!(rt; fault(alloc, &text, 0)?.as_str(), "");
    text.push(b'\n')?;
    assert_eq!(rt; fault(alloc, &text, 0)?.as_str(), "asm line 0 too long");
    Ok(())
}

#[test]
fn each_form_is_printed(rt: HostRuntime) -> Result<(), Fail> {
    for (word, text) in [
        (0xfffff2b7, "lui x5, 1048575"),
        (0xffdff06f, "jal x0, -4"),
        (0x003100e7, "jalr x1, 3(x2)"),
        (0x7ff0ffe3, "bgeu x1, x31, 4094"),
        (0x00063283, "ld x5, 0(x12)"),
        (0xfe613c23, "sd x6, -8(x2)"),
        (0x80028293, "addi x5, x5, -2048"),
        (0x402081b3, "sub x3, x1, x2"),
        (0x022081b3, "mul x3, x1, x2"),
        (0x0063b2af, "amoadd.d x5, x6, (x7)"),
        (0x0e63a2af, "amoswap.w.aqrl x5, x6, (x7)"),
        (0x0ff0000f, "fence x0, x0, 255"),
        (0x00000073, "ecall"),
        (0x00100073, "ebreak"),
        (0x12208073, "sfence.vma x1, x2"),
    ] {
        check_print(&rt, word, text);
    }
    Ok(())
}
