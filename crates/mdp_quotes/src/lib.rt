//! Consolidated quotes of a book: each price once, direct and implied sizes added up. No function here takes
//! memory.
#![tactic(auto)]

mod best;
mod consolidated;
mod laws;
mod live;
mod merged;
#[cfg(test)]
mod tests;
mod top;
mod total;
mod verdict;

pub use best::Best;
pub use consolidated::Consolidated;
pub use laws::{consolidation_is_computed, one_consolidation};
pub use live::Live;
pub use merged::{MergePlace, are_in_order, merge_place_of, merged_top};
pub use top::TopOfBook;
pub use total::{Total, Way};
pub use verdict::{Verdict, audit};
