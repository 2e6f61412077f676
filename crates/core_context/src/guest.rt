//! The registers of a monitor call that a guest makes by ECALL.

ghost use Rattle.std.specs.Prelude.{◌≡◌, ◌≤◌, length, take};
ghost use Rattle.core_context.specs.GuestCalls.{asked_call, advanced, reply_words, with_words, replied, answered};

use crate::after::After;
use crate::context::Context;
use crate::contexts::Contexts;
use mon_types::{Call, Reply};

impl Context {
    /// The call that a guest asks for: its number is in x17, its arguments are in x10 to x15.
    pub fn asked_call(&self) -> Call
        ensures { result ≡ asked_call self.now }
    {
        let x = &self.regs;
        Call::of_registers(x[17], [x[10], x[11], x[12], x[13], x[14], x[15]])
    }

    /// Goes on to the next instruction, 4 bytes on.
    pub fn advance(&mut self)
        ensures { self.new ≡ advanced self.old }
    {
        self.pc = self.pc.wrapping_add(4);
    }

    /// Takes in the reply to a guest's call that changed no context: its code in x10, its words in the registers
    /// from x11 on. The pc goes past the ECALL.
    pub fn reply(&mut self, reply: &Reply)
        ensures { self.new ≡ replied self.old reply.now }
    {
        put_reply(&mut self.regs, reply);
        self.advance();
    }
}

impl Contexts {
    /// Takes in the reply to a guest's call, after `change` has taken in what the call does to the core. Where that
    /// is no change of context, the core gets the reply. With Ok of enter, the OS will go on past its ECALL.
    pub fn answer(&mut self, after: &After, reply: &Reply)
        ensures { self.new ≡ answered self.old after.now reply.now }
    {
        match after {
            After::Nothing | After::Cleared => self.current.reply(reply),
            After::Entered { .. } => self.os.advance(),
            After::Left | After::Restored { .. } => {}
        }
    }
}

/// Puts words into x11 and the registers above it.
fn put_words(regs: &mut [u64; 32], words: &[u64])
    requires { length words.now ≤ 21 }
    ensures { regs.new ≡ with_words regs.old 11 words.now }
{
    for (i, word) in words.iter().enumerate() {
        regs[11 + i] = *word;
    }
}

/// Puts so many of the words of Ok into x11 and the registers above it.
fn put_first_words(regs: &mut [u64; 32], count: u8, words: &[u64; 8])
    ensures { regs.new ≡ with_words regs.old 11 (take count words.now) }
{
    let count = usize::from(count).min(words.len());
    put_words(regs, &words[..count]);
}

/// Puts a reply into x10 and the registers above it.
fn put_reply(regs: &mut [u64; 32], reply: &Reply)
    ensures { regs.new ≡ with_words regs.old 10 (reply_words reply.now) }
{
    match reply {
        Reply::Ok { count, words } => {
            regs[10] = 0;
            put_first_words(regs, *count, words);
        }
        Reply::InvalidValue => regs[10] = 1,
        Reply::InvalidState => regs[10] = 2,
        Reply::AccessDenied => regs[10] = 3,
        Reply::ConcurrentCall {
            lock,
            holder,
            serial,
        } => {
            regs[10] = 4;
            regs[11] = lock.number();
            regs[12] = u64::from(*holder);
            regs[13] = u64::from(*serial);
        }
        Reply::NotFlushed => regs[10] = 5,
        Reply::Unsupported => regs[10] = 6,
    }
}
