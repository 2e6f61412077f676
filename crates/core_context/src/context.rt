//! The pc and the registers of a core.

ghost use Rattle.std.specs.Prelude.{◌≡◌};
ghost use Rattle.core_context.specs.Registers.{begun, entered, returned, with_register, saved_context, restored_context};

use mon_types::Start;

/// The pc and the registers x0 to x31 of a core. x0 is 0.
#[derive(Clone, Copy, Debug, PartialEq, Eq)]
pub struct Context {
    pub pc: u64,
    pub regs: [u64; 32],
}

impl Context {
    /// A core at its start: x2 is its stack pointer, and x10 the core's number.
    pub fn begin(core: u8, start: &Start) -> Context
        ensures { result ≡ begun core start.now }
    {
        let mut regs = [0; 32];
        regs[2] = start.sp;
        regs[10] = u64::from(core);
        Context { pc: start.pc, regs }
    }

    /// A thread that is entered: at its entry, x2 is its stack pointer, and x10 is 1 where something is saved.
    pub fn enter(entry: u64, sp: u64, saved: bool) -> Context
        ensures { result ≡ entered entry sp saved }
    {
        let mut regs = [0; 32];
        regs[2] = sp;
        regs[10] = if saved { 1 } else { 0 };
        Context { pc: entry, regs }
    }

    /// The OS's pc and registers as they are given back: x10 is 0, x11 how the enclave was left (0 by exit, 1 by
    /// aex), x12 and x13 the cause and the value of an aex.
    pub fn give_back(&self, how: u64, cause: u64, value: u64) -> Context
        ensures { result ≡ returned self.now how cause value }
    {
        let mut regs = self.regs;
        regs[10] = 0;
        regs[11] = how;
        regs[12] = cause;
        regs[13] = value;
        Context { pc: self.pc, regs }
    }

    /// Sets a register, if there is one of this number; x0 is never changed.
    pub fn set(&mut self, x: u8, value: u64)
        ensures { self.new ≡ with_register self.old x value }
    {
        let x = usize::from(x);
        if x != 0 && x < self.regs.len() {
            self.regs[x] = value;
        }
    }

    /// The words that an aex saves: the pc, x1 to x31 and the cause.
    pub fn save(&self, cause: u64) -> [u64; 33]
        ensures { result ≡ saved_context self.now cause }
    {
        let mut saved = [cause; 33];
        saved[..32].copy_from_slice(&self.regs);
        saved[0] = self.pc;
        saved
    }

    /// The pc and x1 to x31 as they were saved.
    pub fn restore(saved: &[u64; 33]) -> Context
        ensures { result ≡ restored_context saved.now }
    {
        let mut regs = [0; 32];
        regs.copy_from_slice(&saved[..32]);
        regs[0] = 0;
        Context { pc: saved[0], regs }
    }
}
