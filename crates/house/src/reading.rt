// What a read tells.

pub use ledger::reading::Reading;
