//! Every row of the instruction table at the edges of its operands: the least and the greatest
//! immediate, shifts by 0, 31, 32 and 63, and x0 as the register that is written.

use crate::tests::run;
use std::test::Fail;

/// Each line, with its word behind it. The words are those that another assembler makes of the same
/// lines; those of `fence` are put together by hand, from the fields of format I.
const EDGES: &str = "\
lui x0, 0                    # 00000037
lui x31, 1048575             # ffffffb7
auipc x0, 524288             # 80000017
auipc x31, 524287            # 7fffff97
jal x0, -1048576             # 8000006f
jal x31, 1048574             # 7fffffef
jalr x0, -2048(x31)          # 800f8067
jalr x31, 2047(x0)           # 7ff00fe7
beq x0, x31, -4096           # 81f00063
bne x31, x0, 4094            # 7e0f9fe3
blt x0, x31, -4096           # 81f04063
bge x31, x0, 4094            # 7e0fdfe3
bltu x0, x31, -4096          # 81f06063
bgeu x31, x0, 4094           # 7e0fffe3
lb x0, -2048(x31)            # 800f8003
lh x31, 2047(x0)             # 7ff01f83
lw x0, -2048(x31)            # 800fa003
ld x31, 2047(x0)             # 7ff03f83
lbu x0, -2048(x31)           # 800fc003
lhu x31, 2047(x0)            # 7ff05f83
lwu x0, -2048(x31)           # 800fe003
sb x0, -2048(x31)            # 800f8023
sh x31, 2047(x0)             # 7ff01fa3
sw x0, -2048(x31)            # 800fa023
sd x31, 2047(x0)             # 7ff03fa3
addi x0, x31, -2048          # 800f8013
addi x31, x0, 2047           # 7ff00f93
slti x0, x31, -2048          # 800fa013
slti x31, x0, 2047           # 7ff02f93
sltiu x0, x31, -2048         # 800fb013
sltiu x31, x0, 2047          # 7ff03f93
xori x0, x31, -2048          # 800fc013
xori x31, x0, 2047           # 7ff04f93
ori x0, x31, -2048           # 800fe013
ori x31, x0, 2047            # 7ff06f93
andi x0, x31, -2048          # 800ff013
andi x31, x0, 2047           # 7ff07f93
addiw x0, x31, -2048         # 800f801b
addiw x31, x0, 2047          # 7ff00f9b
slli x0, x31, 0              # 000f9013
slli x0, x31, 31             # 01ff9013
slli x0, x31, 32             # 020f9013
slli x0, x31, 63             # 03ff9013
srli x0, x31, 0              # 000fd013
srli x0, x31, 31             # 01ffd013
srli x0, x31, 32             # 020fd013
srli x0, x31, 63             # 03ffd013
srai x0, x31, 0              # 400fd013
srai x0, x31, 31             # 41ffd013
srai x0, x31, 32             # 420fd013
srai x0, x31, 63             # 43ffd013
slliw x0, x31, 0             # 000f901b
slliw x0, x31, 31            # 01ff901b
srliw x0, x31, 0             # 000fd01b
srliw x0, x31, 31            # 01ffd01b
sraiw x0, x31, 0             # 400fd01b
sraiw x0, x31, 31            # 41ffd01b
add x0, x31, x1              # 001f8033
sub x0, x31, x1              # 401f8033
sll x0, x31, x1              # 001f9033
slt x0, x31, x1              # 001fa033
sltu x0, x31, x1             # 001fb033
xor x0, x31, x1              # 001fc033
srl x0, x31, x1              # 001fd033
sra x0, x31, x1              # 401fd033
or x0, x31, x1               # 001fe033
and x0, x31, x1              # 001ff033
addw x0, x31, x1             # 001f803b
subw x0, x31, x1             # 401f803b
sllw x0, x31, x1             # 001f903b
srlw x0, x31, x1             # 001fd03b
sraw x0, x31, x1             # 401fd03b
mul x0, x31, x1              # 021f8033
mulh x0, x31, x1             # 021f9033
mulhsu x0, x31, x1           # 021fa033
mulhu x0, x31, x1            # 021fb033
div x0, x31, x1              # 021fc033
divu x0, x31, x1             # 021fd033
rem x0, x31, x1              # 021fe033
remu x0, x31, x1             # 021ff033
mulw x0, x31, x1             # 021f803b
divw x0, x31, x1             # 021fc03b
divuw x0, x31, x1            # 021fd03b
remw x0, x31, x1             # 021fe03b
remuw x0, x31, x1            # 021ff03b
amoswap.w x0, x31, (x1)      # 09f0a02f
amoswap.d.aqrl x31, x0, (x1) # 0e00bfaf
amoadd.w.aq x0, x31, (x1)    # 05f0a02f
amoadd.d.rl x31, x0, (x1)    # 0200bfaf
amoxor.w.rl x0, x31, (x1)    # 23f0a02f
amoxor.d.aq x31, x0, (x1)    # 2400bfaf
amoand.w.aqrl x0, x31, (x1)  # 67f0a02f
amoand.d x31, x0, (x1)       # 6000bfaf
amoor.w x0, x31, (x1)        # 41f0a02f
amoor.d.aqrl x31, x0, (x1)   # 4600bfaf
amomin.w.aq x0, x31, (x1)    # 85f0a02f
amomin.d.rl x31, x0, (x1)    # 8200bfaf
amomax.w.rl x0, x31, (x1)    # a3f0a02f
amomax.d.aq x31, x0, (x1)    # a400bfaf
amominu.w.aqrl x0, x31, (x1) # c7f0a02f
amominu.d x31, x0, (x1)      # c000bfaf
amomaxu.w x0, x31, (x1)      # e1f0a02f
amomaxu.d.aqrl x31, x0, (x1) # e600bfaf
sfence.vma x0, x31           # 13f00073
ecall                        # 00000073
ebreak                       # 00100073
fence x0, x31, -2048         # 800f800f
fence x31, x0, 2047          # 7ff00f8f
";

/// The words, each with its lowest byte first.
const WORDS: &str = "\
37000000b7ffffff1700008097ffff7f6f000080efffff7f67800f80e70ff07f6300f081e39f0f7e6340f081e3df0f7e\
6360f081e3ff0f7e03800f80831ff07f03a00f80833ff07f03c00f80835ff07f03e00f8023800f80a31ff07f23a00f80\
a33ff07f13800f80930ff07f13a00f80932ff07f13b00f80933ff07f13c00f80934ff07f13e00f80936ff07f13f00f80\
937ff07f1b800f809b0ff07f13900f001390ff0113900f021390ff0313d00f0013d0ff0113d00f0213d0ff0313d00f40\
13d0ff4113d00f4213d0ff431b900f001b90ff011bd00f001bd0ff011bd00f401bd0ff4133801f0033801f4033901f00\
33a01f0033b01f0033c01f0033d01f0033d01f4033e01f0033f01f003b801f003b801f403b901f003bd01f003bd01f40\
33801f0233901f0233a01f0233b01f0233c01f0233d01f0233e01f0233f01f023b801f023bc01f023bd01f023be01f02\
3bf01f022fa0f009afbf000e2fa0f005afbf00022fa0f023afbf00242fa0f067afbf00602fa0f041afbf00462fa0f085\
afbf00822fa0f0a3afbf00a42fa0f0c7afbf00c02fa0f0e1afbf00e67300f01373000000730010000f800f808f0ff07f";

#[test]
fn every_row_at_its_edges(rt: HostRuntime) -> Result<(), Fail> {
    let alloc = rt.alloc();
    let words = ["pack", "S", "1", "8", "1", "0"];
    let (status, out) = run(&rt, alloc, &words, EDGES.as_bytes(), &[])?;
    assert_eq!(rt; status.code(), 0);
    // The words stand behind the head, the one start and the segment's head, 48 bytes in all.
    let text = hex::encode(alloc, out.as_slice())?;
    assert!(rt; text.as_str().ends_with(WORDS));
    assert_eq!(rt; text.as_str().len(), 96 + WORDS.len());
    Ok(())
}
