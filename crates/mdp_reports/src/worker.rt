//! A worker: the books of its own securities, and their slots among all listed ones.

ghost use Rattle.std.specs.Prelude.{◌≡◌, ◌≢◌, ◌++◌, ◌≤◌, ◌<◌, All, AllPairs, length, map, IfOk, OnOk};
ghost use Rattle.mdp_templates.specs.Instrument.{HasDepth};
ghost use Rattle.mdp_desks.specs.Desks.{desk_at_start};
ghost use Rattle.mdp_desks.specs.Shares.{is_kept_by, own_part, own_slots};
ghost use Rattle.mdp_reports.specs.Reporting.{desks_after_move, reports_of_move};
ghost use Rattle.mdp_arbiter.specs.OwnedMoves.{move_of};

use crate::reporting::report_move;
use crate::reports::Reports;
use mdp_arbiter::OwnedMove;
use mdp_desks::Desks;
use mdp_templates::{Instrument, Memory};
use std::alloc::Allocator;
use std::marker::Model;

/// A worker with the books of its own securities alone, seen as the slots of these among all listed ones, from 0, and
/// their desks.
#[derive(Drop)]
pub struct Worker<A: Allocator> {
    slots: Vec<u16, A>,
    desks: Desks<A>,
}

impl<A: Allocator> Model for Worker<A> {
    ghost use Rattle.std.specs.Prelude.{◌≡◌, length};
    ghost use Rattle.mdp_reports.specs.Worker.{View, view_code};

    ghost Value = { View };

    ghost coded = { view_code };

    ghost view = { λ w. record { slots = w.slots.items; desks = w.desks } };

    ghost invariant = { λ w. length w.slots.items ≡ length w.desks };
}

// Returns whether a slot is one of worker `number` of `count`.
fn is_own(count: u16, number: u16, slot: u16) -> bool
    requires { 0 < count }
    ensures { result ≡ is_kept_by count number slot }
{
    slot % count == number
}

// A worker's own securities, and their slots.
#[derive(Drop)]
struct Own<A: Allocator> {
    slots: Vec<u16, A>,
    securities: Vec<Instrument, A>,
}

// Gives this worker's own securities.
fn own_part<A: Allocator + Copy>(
    alloc: A,
    listed: &[Instrument],
    count: u16,
    number: u16,
) -> Result<Own<A>, Memory>
    requires some { 0 < count }
    requires few { length listed.now ≤ 65536 }
    ensures slots { IfOk result (λ own. own.slots.items
        ≡ own_slots (is_kept_by count number) 0 listed.now) }
    ensures securities { IfOk result (λ own. own.securities.items
        ≡ own_part (is_kept_by count number) 0 listed.now) }
{
    let mut slots = Vec::new(alloc);
    let mut securities = Vec::new(alloc);
    for slot in 0..listed.len() {
        if is_own(count, number, slot as u16) {
            slots.push(slot as u16)?;
            securities.push(listed[slot].copy())?;
        }
    }
    Ok(Own { slots, securities })
}

impl<A: Allocator + Copy> Worker<A> {
    /// Makes worker `number` of `count` before any packet: its own are the listed securities whose slots are `number`
    /// modulo `count`. The ids of all differ, and their depths are of their kind.
    ///
    /// # Errors
    ///
    /// Memory ran out.
    pub fn new(
        alloc: A,
        listed: &[Instrument],
        count: u16,
        number: u16,
    ) -> Result<Worker<A>, Memory>
        requires differ { AllPairs (λ earlier later. earlier.id ≢ later.id) listed.now }
        requires depths { All HasDepth listed.now }
        requires few { length listed.now ≤ 65536 }
        requires some { 0 < count }
        ensures { IfOk result (λ worker. worker ≡ record {
          slots = own_slots (is_kept_by count number) 0 listed.now;
          desks = map desk_at_start (own_part (is_kept_by count number) 0 listed.now);
        }) }
    {
        let own = own_part(alloc, listed, count, number)?;
        let desks = Desks::new(alloc, &own.securities)?;
        Ok(Worker {
            slots: own.slots,
            desks,
        })
    }

    /// Appends its reports of a move, one for each event end and each jump, and makes it.
    ///
    /// # Errors
    ///
    /// Memory ran out. Then neither the worker nor the reports are of more use.
    pub fn report_move(
        &mut self,
        owned_move: &OwnedMove<A>,
        out: &mut Reports<A>,
    ) -> Result<(), Memory>
        ensures worker { OnOk result (self.new
            ≡ record self.old {
              desks = desks_after_move self.old.slots
                  (move_of owned_move.now) self.old.desks;
            }) }
        ensures reports { OnOk result (out.new ≡ out.old
            ++ reports_of_move self.old.slots (move_of owned_move.now) self.old.desks) }
    {
        report_move(&mut self.desks, &self.slots, owned_move, out)?;
        Ok(())
    }
}
