//! A box taken apart into its address and its allocator, and put together again, for what owns a value on the heap by
//! its address alone.
#![tactic(auto)]

mod loose_box;

pub use loose_box::LooseBox;
