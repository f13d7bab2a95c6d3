// The bounds of the ledger, each in one place; `specs/Limits.antt` has them for the rules.

pub const JOBS: usize = 256;

pub const RECORDS: usize = 64;

// how many records a job may list as read, and how many as written
pub const MOST_LISTED: usize = 8;

pub const MOST_VERSIONS: usize = 32;

pub const MOST_OFFICES: usize = 8;
