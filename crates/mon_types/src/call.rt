//! The monitor calls.

ghost use Rattle.std.specs.Prelude.{◌≡◌, ◌≤◌, length};
ghost use Rattle.mon_types.specs.Calls.{call_number, call_name, call_of_registers};

/// A monitor call with its arguments, each a word of 64 bits.
///
/// The numbers of the calls are this project's own, from 1 (`Block`) to 23 (`Reserve`) in the order
/// below. Arguments are named as follows: `r` a region, `e` an enclave slot, `t` a thread slot, `m` a
/// mailbox, `va` a virtual address in bytes, `page` and `src` page numbers of DRAM.
#[derive(Clone, Copy, Debug, PartialEq, Eq)]
pub enum Call {
    Block {
        r: u64,
    },
    Free {
        r: u64,
    },
    /// `to` is an enclave slot, or `OS_WORD` for the OS.
    Assign {
        r: u64,
        to: u64,
    },
    Flush,
    RegionInfo {
        r: u64,
    },
    Create {
        e: u64,
        base: u64,
        size: u64,
    },
    LoadTable {
        e: u64,
        va: u64,
        level: u64,
        page: u64,
    },
    /// In `perms` bit 0 is R, bit 1 W, bit 2 X.
    LoadPage {
        e: u64,
        va: u64,
        page: u64,
        src: u64,
        perms: u64,
    },
    LoadThread {
        e: u64,
        t: u64,
        entry: u64,
        sp: u64,
    },
    Init {
        e: u64,
    },
    DeleteThread {
        e: u64,
        t: u64,
    },
    Delete {
        e: u64,
    },
    Enter {
        e: u64,
        t: u64,
    },
    Exit,
    /// An exit that the machine makes: the pc, the registers x1 to x31 and the cause.
    Aex {
        saved: [u64; 33],
    },
    Restore,
    Accept {
        m: u64,
        from: u64,
    },
    Send {
        to: u64,
        m: u64,
        w0: u64,
        w1: u64,
        w2: u64,
        w3: u64,
    },
    Read {
        m: u64,
    },
    EnclaveInfo {
        e: u64,
    },
    SetSatp {
        v: u64,
    },
    AcceptRegion {
        r: u64,
    },
    Reserve {
        e: u64,
        va: u64,
        page: u64,
        perms: u64,
    },
    /// A call of a number that stands for no call; it is always refused as unsupported.
    Unknown {
        number: u64,
        args: [u64; 6],
    },
}

impl Call {
    /// The call that a guest asks for: its number and its six argument words. Words for which the call
    /// has no use are dropped. 0, 15, which the machine alone makes, and numbers above 23 are `Unknown`.
    #[tactic(auto, unfolding(crate::specs::Calls::call_of))]
    pub fn of_registers(number: u64, args: [u64; 6]) -> Call
        ensures call { result ≡ call_of_registers number args }
        ensures number { call_number result ≡ number }
    {
        let [a, b, c, d, e, f] = args;
        match number {
            1 => Call::Block { r: a },
            2 => Call::Free { r: a },
            3 => Call::Assign { r: a, to: b },
            4 => Call::Flush,
            5 => Call::RegionInfo { r: a },
            6 => Call::Create {
                e: a,
                base: b,
                size: c,
            },
            7 => Call::LoadTable {
                e: a,
                va: b,
                level: c,
                page: d,
            },
            8 => Call::LoadPage {
                e: a,
                va: b,
                page: c,
                src: d,
                perms: e,
            },
            9 => Call::LoadThread {
                e: a,
                t: b,
                entry: c,
                sp: d,
            },
            10 => Call::Init { e: a },
            11 => Call::DeleteThread { e: a, t: b },
            12 => Call::Delete { e: a },
            13 => Call::Enter { e: a, t: b },
            14 => Call::Exit,
            16 => Call::Restore,
            17 => Call::Accept { m: a, from: b },
            18 => Call::Send {
                to: a,
                m: b,
                w0: c,
                w1: d,
                w2: e,
                w3: f,
            },
            19 => Call::Read { m: a },
            20 => Call::EnclaveInfo { e: a },
            21 => Call::SetSatp { v: a },
            22 => Call::AcceptRegion { r: a },
            23 => Call::Reserve {
                e: a,
                va: b,
                page: c,
                perms: d,
            },
            _ => Call::Unknown { number, args },
        }
    }

    /// The number of the call.
    pub fn number(&self) -> u64
        ensures { result ≡ call_number self.now }
    {
        match self {
            Call::Block { .. } => 1,
            Call::Free { .. } => 2,
            Call::Assign { .. } => 3,
            Call::Flush => 4,
            Call::RegionInfo { .. } => 5,
            Call::Create { .. } => 6,
            Call::LoadTable { .. } => 7,
            Call::LoadPage { .. } => 8,
            Call::LoadThread { .. } => 9,
            Call::Init { .. } => 10,
            Call::DeleteThread { .. } => 11,
            Call::Delete { .. } => 12,
            Call::Enter { .. } => 13,
            Call::Exit => 14,
            Call::Aex { .. } => 15,
            Call::Restore => 16,
            Call::Accept { .. } => 17,
            Call::Send { .. } => 18,
            Call::Read { .. } => 19,
            Call::EnclaveInfo { .. } => 20,
            Call::SetSatp { .. } => 21,
            Call::AcceptRegion { .. } => 22,
            Call::Reserve { .. } => 23,
            Call::Unknown { number, .. } => *number,
        }
    }

    /// The name of the call, as scripts and reports write it.
    #[tactic(auto, unfolding(crate::specs::Calls::call_name))]
    pub fn name(&self) -> &'static str
        ensures name { result.now ≡ call_name self.now }
        ensures short { length result.now ≤ 13 }
    {
        match self {
            Call::Block { .. } => "block",
            Call::Free { .. } => "free",
            Call::Assign { .. } => "assign",
            Call::Flush => "flush",
            Call::RegionInfo { .. } => "region_info",
            Call::Create { .. } => "create",
            Call::LoadTable { .. } => "load_table",
            Call::LoadPage { .. } => "load_page",
            Call::LoadThread { .. } => "load_thread",
            Call::Init { .. } => "init",
            Call::DeleteThread { .. } => "delete_thread",
            Call::Delete { .. } => "delete",
            Call::Enter { .. } => "enter",
            Call::Exit => "exit",
            Call::Aex { .. } => "aex",
            Call::Restore => "restore",
            Call::Accept { .. } => "accept",
            Call::Send { .. } => "send",
            Call::Read { .. } => "read",
            Call::EnclaveInfo { .. } => "enclave_info",
            Call::SetSatp { .. } => "set_satp",
            Call::AcceptRegion { .. } => "accept_region",
            Call::Reserve { .. } => "reserve",
            Call::Unknown { .. } => "ecall",
        }
    }
}
