// The law of the house: `perform` has it in its contract. The functions in this file do not run: each stands for the theorem in its contract.
#![tactic(auto)]

ghost use Rattle.history.specs.Layout.{coding};
ghost use Rattle.law.specs.Law.{TheLaw, NeverLacking, LedgerReached};
ghost use Rattle.law.specs.Examples.{Alike, Unlike, Crossing};
ghost use Rattle.law.specs.Figures.{Figures};
ghost use Rattle.law.specs.Performing.{RowsArchived};

use values::amount::Amount;
use values::value::Value;

pub mod perform;

// Archives agree exactly if the logs do, each read is explained by the jobs answered before it, and the first of the line can be collected.
pub fn law_stands<V: Value>()
    ensures { TheLaw (coding V.Value) }
{}

// No call of a run finds that the shelf lacks a place.
pub fn shelf_never_lacks<V: Value>()
    ensures { NeverLacking (coding V.Value) }
{}

// The ledger of a run keeps what every run of the ledger's own calls keeps.
pub fn ledger_reached<V: Value>()
    ensures { LedgerReached (coding V.Value) }
{}

// In a house that calls have led to, the archive that the code writes, which goes by the rows, is that of the answered jobs.
pub fn rows_archived<V: Value>()
    ensures { RowsArchived (coding V.Value) }
{}

// Two runs of the same jobs in different orders have one archive.
#[tactic(auto, unfolding(history::specs::Layout::leaves, history::specs::Layout::archive_bytes))]
pub fn alike_runs()
    ensures { Alike }
{}

// The order of two jobs that share a written record shows in the archive.
pub fn unlike_runs()
    ensures { Unlike }
{}

// Two inspections that see two amendments in no common order hold both back.
pub fn crossing_inspections()
    ensures { Crossing }
{}

// Worked cases of the rules, each by computation.
#[tactic(auto, unfolding(history::specs::Layout::leaves, history::specs::Layout::archive_bytes))]
pub fn figures_stand()
    ensures { Figures ⟦<Amount as Value>⟧ }
{}
