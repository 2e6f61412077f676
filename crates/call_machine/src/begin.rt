//! The begin of a call.

ghost use Rattle.std.specs.Prelude.{◌≡◌, [], ◌+◌, ◌<◌, ◌^◌, length};
ghost use Rattle.std.specs.List.{AllByRecursion};
ghost use Rattle.protocol.specs.CallTree.{call_tree};
ghost use Rattle.mon_types.specs.Sizes.{page_words};
ghost use Rattle.call_machine.specs.Meaning.{issuer, so_far};
ghost use Rattle.call_machine.specs.Count.{most_locks, most_words, most_decided};
ghost use Rattle.call_machine.specs.Stands.{IsFresh, IsAt};
ghost use Rattle.mon_records.specs.Ranges.{IsCall};

use crate::phase::Phase;
use crate::work::Work;
use lock_plan::refuse_early;
use mon_types::Call;

/// A number of 64 bits.
fn word(word: u64) -> u64
    ensures { result ≡ word }
{
    word
}

/// Each of these numbers has 64 bits, as those of its type have: for laws that ask it.
pub fn words(words: &[u64])
    ensures { AllByRecursion (λ w. w < 2 ^ 64) words.now }
{
    let mut at = 0;
    while at < words.len() {
        let _word = word(words[at]);
        at += 1;
    }
}

/// Each of so many numbers is a word.
fn array_words<const N: usize>(array: &[u64; N])
    ensures words { AllByRecursion (λ w. w < 2 ^ 64) array.now }
    ensures all { length array.now ≡ N }
{
    words(array);
}

/// The numbers of a call have 64 bits, and it has all of them: for laws that ask it.
pub fn has_words(call: &Call)
    ensures { IsCall call.now }
{
    match *call {
        Call::Block { r } => words(&[r]),
        Call::Free { r } => words(&[r]),
        Call::Assign { r, to } => words(&[r, to]),
        Call::Flush => (),
        Call::RegionInfo { r } => words(&[r]),
        Call::Create { e, base, size } => words(&[e, base, size]),
        Call::LoadTable { e, va, level, page } => words(&[e, va, level, page]),
        Call::LoadPage {
            e,
            va,
            page,
            src,
            perms,
        } => words(&[e, va, page, src, perms]),
        Call::LoadThread { e, t, entry, sp } => words(&[e, t, entry, sp]),
        Call::Init { e } => words(&[e]),
        Call::DeleteThread { e, t } => words(&[e, t]),
        Call::Delete { e } => words(&[e]),
        Call::Enter { e, t } => words(&[e, t]),
        Call::Exit => (),
        Call::Aex { saved } => array_words(&saved),
        Call::Restore => (),
        Call::Accept { m, from } => words(&[m, from]),
        Call::Send {
            to,
            m,
            w0,
            w1,
            w2,
            w3,
        } => words(&[to, m, w0, w1, w2, w3]),
        Call::Read { m } => words(&[m]),
        Call::EnclaveInfo { e } => words(&[e]),
        Call::SetSatp { v } => words(&[v]),
        Call::AcceptRegion { r } => words(&[r]),
        Call::Reserve { e, va, page, perms } => words(&[e, va, page, perms]),
        Call::Unknown { number, args } => {
            words(&[number]);
            array_words(&args);
        }
    }
}

impl Work {
    /// The first move: a refusal's Draw, or the first lock, or the Draw of a call that tries no object.
    pub(crate) fn start(&mut self)
        requires { IsFresh self.old }
        ensures at { IsAt self.old self.new self.old.ends (call_tree self.old.config (issuer self.old) self.old.call) (most_locks self.old.call + most_words self.old.call + most_decided self.old.config self.old.call) }
        ensures found { so_far self.new ≡ [] }
    {
        match refuse_early(&self.config, self.mode, &self.call) {
            Some(reply) => {
                self.reply = reply;
                self.phase = Phase::Refuses;
            }
            None => self.go_on(),
        }
    }
}
