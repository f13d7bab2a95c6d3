// What every run of the ledger's rules keeps. This crate has no code that runs: each function stands for the theorem in its contract.
// The theorems are proved by an abstract machine without messages and refusals, whose moves the ledger's steps are.
#![tactic(auto)]

ghost use Rattle.protocol.specs.Laws.{OtherRowsStay, MessagesFit, RecordsHaveRoom, AnswersHaveRoom, AnswersInSeries, FirstCollectable};

// A step changes its own job's row and no other.
pub fn other_rows_stay()
    ensures { OtherRowsStay }
{}

// No message waits that does not fit its job's state.
pub fn messages_fit()
    ensures { MessagesFit }
{}

// No installation meets a record that has all its versions.
pub fn records_have_room()
    ensures { RecordsHaveRoom }
{}

// No answer meets a full list of answers.
pub fn answers_have_room()
    ensures { AnswersHaveRoom }
{}

// The answered jobs read and installed as if they had run one after another, in the order of their answers.
pub fn answers_in_series()
    ensures { AnswersInSeries }
{}

// With no inspection open and no message waiting, the first decided of the accepted, unanswered jobs can be collected.
pub fn first_collectable()
    ensures { FirstCollectable }
{}
