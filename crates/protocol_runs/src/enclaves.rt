//! The calls on enclaves that load nothing, and set_satp.

ghost use Rattle.std.specs.Prelude.{◌≡◌, ◌*◌, ◌^◌, []};
ghost use Rattle.mon_types.specs.declared.call.Call.TheVariants as calls;
ghost use Rattle.protocol.specs.Alone.{begin, by_os, all_moves, first_moves};
ghost use Rattle.protocol_runs.specs.EnclaveRuns.{with_e3, loading_with, running, deletable, create_ok, create_refused, init_ok, init_refused, delete_ok, delete_refused, enclave_info_ok, enclave_info_refused, good_satp, set_satp_ok, set_satp_refused};

/// A create, up to the words of the measurement.
pub fn create_moves()
    ensures ok { first_moves 34 begin [] by_os (calls.Create 3 4096 8192) ≡ create_ok }
    ensures refused { all_moves (with_e3 running) by_os (calls.Create 3 4096 8192) ≡ create_refused }
{}

/// An init, up to the words of the measurement.
pub fn init_moves()
    ensures ok { first_moves 32 (with_e3 (loading_with 1)) [] by_os (calls.Init 3) ≡ init_ok }
    ensures refused { all_moves (with_e3 (loading_with 0)) by_os (calls.Init 3) ≡ init_refused }
{}

/// A delete writes the own-word of each of its regions before it draws.
pub fn delete_moves()
    ensures ok { all_moves deletable by_os (calls.Delete 3) ≡ delete_ok }
    ensures refused { all_moves (with_e3 running) by_os (calls.Delete 3) ≡ delete_refused }
{}

/// An enclave_info writes nothing.
pub fn enclave_info_moves()
    ensures ok { all_moves (with_e3 running) by_os (calls.EnclaveInfo 3) ≡ enclave_info_ok }
    ensures refused { all_moves begin by_os (calls.EnclaveInfo 8) ≡ enclave_info_refused }
{}

/// A set_satp draws alone.
pub fn set_satp_moves()
    ensures ok { all_moves begin by_os (calls.SetSatp good_satp) ≡ set_satp_ok }
    ensures refused { all_moves begin by_os (calls.SetSatp (9 * 2 ^ 60)) ≡ set_satp_refused }
{}
