//! Which calls of a depot or a sink in memory are made to fail.

ghost use Rattle.std.specs.Prelude.{◌≡◌};
ghost use Rattle.sm_ports.specs.Causes.{one_more};
ghost use Rattle.sm_ports.specs.Failures.{is_listed_call, is_listed, before_calls, after_call};

/// The numbers of the calls that are made to fail, and the number of the next call. The first call has
/// the number 0.
#[derive(Drop)]
pub(crate) struct Failures {
    listed: Vec<u32>,
    next: u64,
}

impl Failures {
    /// Before the first call.
    pub(crate) fn new(listed: Vec<u32>) -> Failures
        ensures { result ≡ before_calls listed }
    {
        Failures { listed, next: 0 }
    }

    /// Counts a call, and answers whether it is made to fail.
    pub(crate) fn call(&mut self) -> bool
        ensures listed { result ≡ is_listed self.old }
        ensures counted { self.new ≡ after_call self.old }
    {
        let fails = is_among(&self.listed, self.next);
        self.next = raised(self.next);
        fails
    }
}

/// Whether a call's number is listed.
fn is_among(listed: &[u32], call: u64) -> bool
    ensures { result ≡ is_listed_call listed.now call }
{
    listed.iter().any(|&number| u64::from(number) == call)
}

/// One more than a count, which stands still at the end of its type.
pub(crate) fn raised(count: u64) -> u64
    ensures { result ≡ one_more count }
{
    count.saturating_add(1)
}
