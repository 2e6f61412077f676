//! What an outcome tells.

ghost use Rattle.std.specs.Prelude.{◌≡◌, ℕ};
ghost use Rattle.protocol.specs.CallTree.{number_in};

use protocol::Outcome;

/// The word, or the ticket, of an outcome; 0 for others.
pub fn word_of(outcome: &Outcome) -> u64
    ensures { result ≡ number_in outcome.now }
{
    match *outcome {
        Outcome::Word(word) => word,
        Outcome::Ticket(ticket) => u64::from(ticket),
        Outcome::Again { found, .. } => found,
        Outcome::Taken | Outcome::HeldBy { .. } | Outcome::Done => 0,
    }
}

/// The ticket of the outcome of a Draw.
pub fn ticket_of(outcome: &Outcome) -> u32
    requires { (ticket : ℕ) × (outcome.now ≡ Outcome.Ticket ticket) }
    ensures { result ≡ number_in outcome.now }
{
    match *outcome {
        Outcome::Ticket(ticket) => ticket,
        _ => unreachable!(),
    }
}
