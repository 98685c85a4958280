//! Queues between threads: what is taken of each sender is what it sent, item for item, in order. And a board, whose
//! readers never wait: what one read shows is so after one front of the published steps, which never falls.
//!
//! An [`Intake`] leads from three senders to one receiver, and a [`Lane`] from one sender to one receiver. A contract
//! sees an end as the queue that it belongs to and the list of what it put or took. While threads run, each knows the
//! lists of its own ends alone. Once the ends of a queue are in one place again, `settle` takes them in and gives what
//! the lists have to do with one another. Between the senders of an intake no order is promised.
//!
//! A call that waits may not return, and its contract holds where it does. A call of the channel below that hands
//! back is tried again: a put whose receiver is gone does not return, and no more does a take whose senders are gone
//! and whose queue is empty. So keep every end of a queue until it is settled.
//!
//! A [`Board`] leads from one [`Publisher`] to several readers. A contract sees the publisher as the list of steps that
//! it has published, and a [`Reader`] as the longest front of them that it has read or was told of. Neither `read` nor
//! `learn` takes memory or a handle to wait by.
#![tactic(auto)]

mod board;
mod ends;
mod history;
mod intake;
mod lane;
mod laws;
mod publisher;
mod reader;
mod retry;
mod row;
mod rule;
mod sheet;
mod shown;
mod step;
mod told;
mod update;

pub use board::Board;
pub use ends::Ends;
pub use intake::{Intake, IntakeReceiver, IntakeSender};
pub use lane::{Lane, LaneReceiver, LaneSender};
pub use laws::{rows_are_the_last_given, steps_change_rows};
pub use publisher::Publisher;
pub use reader::Reader;
pub use row::Row;
pub use step::Step;
pub use told::Told;
