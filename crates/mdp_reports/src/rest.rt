//! What is left to take of what a report tells.

ghost use Rattle.std.specs.Prelude.{◌≡◌, ◌∷◌, [], length, IfNone, MatchOption};
ghost use Rattle.std.specs.List.{AllByRecursion};
ghost use Rattle.mdp_reports.specs.Contents.{slot_first, told_line};
ghost use Rattle.mdp_reports.specs.Flat.{told_of_rows, IsRowIn};

use crate::places::{Line, ToldAt};
use std::marker::Model;

/// What is left to take of what a report tells, lent from it and seen as the list of what is told.
#[derive(Drop)]
pub struct Rest<'a> {
    bytes: &'a [u8],
    rows: &'a [ToldAt],
}

impl<'a> Model for Rest<'a> {
    ghost use Rattle.std.specs.Prelude.{List, length};
    ghost use Rattle.std.specs.List.{AllByRecursion};
    ghost use Rattle.mdp_desks.specs.Reports.{Told};
    ghost use Rattle.mdp_reports.specs.Flat.{told_of_rows, IsRowIn};
    ghost use Rattle.mdp_reports.specs.ReportCode.{all_told_code};

    ghost Value = { List Told };

    ghost coded = { all_told_code };

    ghost view = { λ r. told_of_rows r.bytes.now r.rows.now };

    ghost invariant = { λ r. AllByRecursion (IsRowIn (length r.bytes.now)) r.rows.now };
}

impl<'a> Rest<'a> {
    /// Makes the rest of a report that tells nothing.
    pub fn none() -> Rest<'a>
        ensures { result ≡ [] }
    {
        Rest {
            bytes: &[],
            rows: &[],
        }
    }

    /// Makes the rest of these rows, whose lines stand among these bytes.
    pub(crate) fn of(bytes: &'a [u8], rows: &'a [ToldAt]) -> Rest<'a>
        requires { AllByRecursion (IsRowIn (length bytes.now)) rows.now }
        ensures { result ≡ told_of_rows bytes.now rows.now }
    {
        Rest { bytes, rows }
    }

    /// Returns the slot of the security that is taken next, if one is left.
    pub fn slot(&self) -> Option<u16>
        ensures { result ≡ slot_first self.now }
    {
        match self.rows.first() {
            Some(row) => Some(row.slot),
            None => None,
        }
    }

    /// Takes what is told of the next security, if one is left.
    pub fn take(&mut self) -> Option<Line<'a>>
        ensures next { MatchOption result (self.old ≡ [])
            (λ line. self.old ≡ told_line line ∷ self.new) }
        ensures stays { IfNone result (self.new ≡ self.old) }
    {
        match self.rows.split_first() {
            Some((row, rest)) => {
                let line = Line {
                    slot: row.slot,
                    lines: &self.bytes[row.from..row.to],
                    best: row.best,
                    top: row.top,
                };
                self.rows = rest;
                Some(line)
            }
            None => None,
        }
    }
}
