//! Exits that are pending.

/// Why an enclave is left by the machine: the cause that is saved, and its value.
#[derive(Clone, Copy, Debug, PartialEq, Eq)]
pub struct Exit {
    pub cause: u64,
    pub value: u64,
}
