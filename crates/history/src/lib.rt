// Histories of answered jobs, and their archives. This crate has no code that runs: each function stands for the theorem in its contract.
#![tactic(auto)]

ghost use Rattle.history.specs.Layout.{coding};
ghost use Rattle.history.specs.Laws.{Lawful, ArchivesAgree, ArchiveSized, AllArchived};
ghost use Rattle.history.specs.Examples.{Examples};

use values::value::Value;

// Every kind of value is encoded to bytes of one width, and different values to different bytes.
pub fn values_lawful<V: Value>()
    ensures { Lawful (coding V.Value) }
{}

// Two serial histories have one archive exactly if they have the same outlines and the same order of conflicting jobs.
pub fn archives_agree<V: Value>()
    ensures { ArchivesAgree (coding V.Value) }
{}

// The size of an archive, from the lengths of its leaves' lists.
pub fn archive_sized<V: Value>()
    ensures { ArchiveSized (coding V.Value) }
{}

// The archive of a serial history has one frame for each leaf.
pub fn all_archived<V: Value>()
    ensures { AllArchived V }
{}

// Small histories whose archives are equal, and others whose archives differ.
#[tactic(auto, unfolding(crate::specs::Layout::leaves, crate::specs::Layout::archive_bytes))]
pub fn examples_stand()
    ensures { Examples }
{}
