//! The calls on mailboxes.

ghost use Rattle.std.specs.Prelude.{◌≡◌};
ghost use Rattle.mon_types.specs.declared.enclave.Mailbox.TheVariants as boxes;
ghost use Rattle.mon_types.specs.declared.call.Call.TheVariants as calls;
ghost use Rattle.protocol.specs.Alone.{begin, by_enclave, all_moves};
ghost use Rattle.protocol_runs.specs.EnclaveRuns.{running, with_e3};
ghost use Rattle.protocol_runs.specs.MailRuns.{with_box, beside, full, accept_ok, accept_again, accept_refused, send_ok, send_refused, read_ok, read_refused};

/// An accept writes the mailbox's first word, where that is to differ.
pub fn accept_moves()
    ensures ok { all_moves (with_e3 running) by_enclave (calls.Accept 1 5) ≡ accept_ok }
    ensures again { all_moves (with_e3 (with_box (boxes.Expecting 5))) by_enclave (calls.Accept 1 5) ≡ accept_again }
    ensures refused { all_moves begin by_enclave (calls.Accept 2 5) ≡ accept_refused }
{}

/// A send tries the lower slot first, and writes the message with the sender's measurement.
pub fn send_moves()
    ensures ok { all_moves (beside (boxes.Expecting 3)) by_enclave (calls.Send 5 1 1 2 3 4) ≡ send_ok }
    ensures refused { all_moves (beside (boxes.Expecting 4)) by_enclave (calls.Send 5 1 1 2 3 4) ≡ send_refused }
{}

/// A read closes the mailbox.
pub fn read_moves()
    ensures ok { all_moves (with_e3 (with_box full)) by_enclave (calls.Read 1) ≡ read_ok }
    ensures refused { all_moves (with_e3 running) by_enclave (calls.Read 1) ≡ read_refused }
{}
