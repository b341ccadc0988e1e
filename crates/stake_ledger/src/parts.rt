//! What an account has, part by part.

/// Units of stake that are free, active, on their way out, and held as deposits.
#[derive(Clone, Copy)]
pub struct Parts {
    pub free: u64,
    pub active: u64,
    pub unlocking: u64,
    pub held: u64,
}

/// What a call on a row did: the amount that moved, and what the account had before and has now.
#[derive(Clone, Copy)]
pub struct Done {
    pub amount: u64,
    pub before: Parts,
    pub after: Parts,
}

/// What a slash takes of an account's active units and of its chunks, and whether anything is
/// bonded then.
#[derive(Clone, Copy)]
pub struct Cut {
    pub active: u64,
    pub unlocking: u64,
    pub bonded: bool,
}
