//! What the calls answer that the enclave's record alone decides.

ghost use Rattle.std.specs.Prelude.{◌≡◌};
ghost use Rattle.mon_types.specs.Replies.{done};
ghost use Rattle.mon_model.specs.EnclaveCalls.{create_reply, init_reply, delete_reply, enclave_info_reply};

use mon_types::{Enclave, Reply, Stage};

/// create: InvalidState where the slot is not Empty.
pub fn decide_create(enclave: &Enclave) -> Reply
    ensures { result ≡ create_reply enclave.now }
{
    Reply::done_if(enclave.stage == Stage::Empty)
}

/// init: InvalidState where the enclave is not Loading, or has no root or no thread.
pub fn decide_init(enclave: &Enclave) -> Reply
    ensures { result ≡ init_reply enclave.now }
{
    Reply::done_if(
        enclave.stage == Stage::Loading && enclave.root.is_some() && enclave.threads != 0,
    )
}

/// delete: InvalidState where the slot is Empty, or threads of the enclave are left.
pub fn decide_delete(enclave: &Enclave) -> Reply
    ensures { result ≡ delete_reply enclave.now }
{
    Reply::done_if(enclave.stage != Stage::Empty && enclave.threads == 0)
}

/// enclave_info, which has no refusal here. The words are the stage (0 Empty, 1 Loading, 2
/// Initialized), base and size in bytes, the region set, and the four words of the measurement.
pub fn decide_enclave_info(enclave: &Enclave) -> Reply
    ensures { result ≡ enclave_info_reply enclave.now }
{
    let [m0, m1, m2, m3] = enclave.measure;
    let stage = enclave.stage.code();
    Reply::ok_with_eight([
        stage,
        enclave.base,
        enclave.size,
        enclave.regions,
        m0,
        m1,
        m2,
        m3,
    ])
}

/// set_satp, which has no refusal here.
pub fn decide_satp() -> Reply
    ensures { result ≡ done }
{
    Reply::done()
}
