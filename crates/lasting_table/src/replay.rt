//! A table while a store's records are read into it.

ghost use Rattle.std.specs.Prelude.{◌≡◌, true, OnOk, OnErr};
ghost use Rattle.journal_records.specs.declared.record.Record.TheVariants as records;
ghost use Rattle.journal_records.specs.LastingPart.{empty_lasting};
ghost use Rattle.journal_records.specs.States as states;
ghost use Rattle.journal_records.specs.States.{after_in, met_in, AtStart};
ghost use Rattle.lasting_table.specs.Replays.{phase_of, state_in};
ghost use Rattle.lasting_table.specs.TableView.{lasting_in};

use crate::lasting::LastingTable;
use crate::part::Part;
use crate::widths::{change_widths, grant_widths, key_widths};
use grants::GrantRow;
use journal_records::{Change, KeyRecord, Record};
use std::alloc::Global;
use std::marker::Model;
use tags::{NUMBERS_END, NoMemory};

/// How far a reading has come.
#[derive(Clone, Copy)]
pub enum Stage {
    /// No record stands before.
    AtStart,
    /// Rows of a snapshot alone stand before.
    AmongRows,
    /// A change stands before.
    AmongChanges,
}

/// A table while a store's records are put into it, one behind the other: rows of a snapshot, and changes behind them.
/// It is seen as what they leave.
#[derive(Drop)]
pub struct TableReplay {
    part: Part,
    stage: Stage,
}

impl Model for TableReplay {
    ghost use Rattle.lasting_table.specs.Parts.{part_of};
    ghost use Rattle.lasting_table.specs.Replays.{IsReplay, ReplayView};

    ghost Value = { ReplayView };

    ghost view = { λ replay. record { part = part_of replay.part; stage = replay.stage } };

    ghost invariant = { λ replay. IsReplay (part_of replay.part) replay.stage };
}

/// Whether no record stands before.
fn is_at_start(stage: Stage) -> bool
    ensures { result ≡ states.is_at_start (phase_of stage) }
{
    match stage {
        Stage::AtStart => true,
        Stage::AmongRows | Stage::AmongChanges => false,
    }
}

/// Whether no change stands before.
fn takes_rows(stage: Stage) -> bool
    ensures { result ≡ states.takes_rows (phase_of stage) }
{
    match stage {
        Stage::AtStart | Stage::AmongRows => true,
        Stage::AmongChanges => false,
    }
}

/// Whether the next key or the next grant may take a number, or it is the end of all numbers.
fn is_next_number(number: u64) -> bool
    ensures { result ≡ states.is_next_number number }
{
    1 <= number && number <= NUMBERS_END
}

impl TableReplay {
    /// No record is put yet. It takes no memory.
    pub fn new(alloc: Global) -> TableReplay
        ensures { state_in result ≡ record { part = empty_lasting; phase = AtStart } }
    {
        TableReplay {
            part: Part::empty(alloc),
            stage: Stage::AtStart,
        }
    }

    /// Whether the need of a record is met behind those that were put.
    pub fn meets(&self, it: &Record) -> bool
        ensures { result ≡ met_in (state_in self.now) it.now }
    {
        match it {
            Record::Change { change } => self.part.meets(change),
            Record::Next { key, grant } => {
                is_at_start(self.stage) && (is_next_number(*key) && is_next_number(*grant))
            }
            Record::Held { key } => takes_rows(self.stage) && self.part.may_hold(key),
            Record::HeldGrant { row } => takes_rows(self.stage) && self.part.may_hold_grant(row),
        }
    }

    /// Makes a change.
    fn make(&mut self, change: Change) -> Result<(), NoMemory>
        requires { met_in (state_in self.old) (records.Change change) ≡ true }
        ensures ok { OnOk result (state_in self.new ≡ after_in (state_in self.old) (records.Change change)) }
        ensures err { OnErr result (state_in self.new ≡ state_in self.old) }
    {
        self.part.reserve(&change)?;
        change_widths(&change);
        self.part.make(change);
        self.stage = Stage::AmongChanges;
        Ok(())
    }

    /// Takes the next numbers.
    fn begin(&mut self, key: u64, grant: u64)
        requires { met_in (state_in self.old) (records.Next key grant) ≡ true }
        ensures { state_in self.new ≡ after_in (state_in self.old) (records.Next key grant) }
    {
        self.part.begin(key, grant);
        self.stage = Stage::AmongRows;
    }

    /// Holds a key.
    fn hold(&mut self, key: KeyRecord) -> Result<(), NoMemory>
        requires { met_in (state_in self.old) (records.Held key) ≡ true }
        ensures ok { OnOk result (state_in self.new ≡ after_in (state_in self.old) (records.Held key)) }
        ensures err { OnErr result (state_in self.new ≡ state_in self.old) }
    {
        self.part.reserve_key()?;
        key_widths(&key);
        self.part.hold(key);
        self.stage = Stage::AmongRows;
        Ok(())
    }

    /// Holds a grant.
    fn hold_grant(&mut self, row: GrantRow) -> Result<(), NoMemory>
        requires { met_in (state_in self.old) (records.HeldGrant row) ≡ true }
        ensures ok { OnOk result (state_in self.new ≡ after_in (state_in self.old) (records.HeldGrant row)) }
        ensures err { OnErr result (state_in self.new ≡ state_in self.old) }
    {
        self.part.reserve_grant()?;
        grant_widths(&row);
        self.part.hold_grant(row);
        self.stage = Stage::AmongRows;
        Ok(())
    }

    /// Puts a record behind the others, whose need is met. Where memory is wanting, what was put before stands.
    pub fn put(&mut self, it: Record) -> Result<(), NoMemory>
        requires { met_in (state_in self.old) it ≡ true }
        ensures ok { OnOk result (state_in self.new ≡ after_in (state_in self.old) it) }
        ensures err { OnErr result (state_in self.new ≡ state_in self.old) }
    {
        match it {
            Record::Change { change } => self.make(change),
            Record::Next { key, grant } => {
                self.begin(key, grant);
                Ok(())
            }
            Record::Held { key } => self.hold(key),
            Record::HeldGrant { row } => self.hold_grant(row),
        }
    }

    /// The table that the records leave.
    pub fn into_table(self) -> LastingTable
        ensures { lasting_in result ≡ (state_in self).part }
    {
        let TableReplay { part, stage: _ } = self;
        LastingTable::of(part)
    }
}
