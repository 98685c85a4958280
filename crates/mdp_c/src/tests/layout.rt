//! How many bytes C has for each struct: those of its fields, with no gap.

use crate::became::Became;
use crate::books::{Best, BookFault};
use crate::handle::Handle;
use crate::levels::Level;
use crate::options::Options;
use crate::state::State;
use mdp_session::Listed;

#[test]
fn structs_have_no_gaps(rt: HostRuntime) {
    assert_eq!(rt; size_of::<Handle>(), 8);
    assert_eq!(rt; size_of::<Options>(), 8 + 4 * 4);
    assert_eq!(rt; size_of::<Listed>(), 3 * 4 + 2 + 20 + 2);
    assert_eq!(rt; size_of::<Became>(), 4 * 4 + 8 * 8);
    assert_eq!(rt; size_of::<Level>(), 2 * 8);
    assert_eq!(rt; size_of::<Best>(), 2 * 16 + 4 * 4);
    assert_eq!(rt; size_of::<BookFault>(), 8 + 4 * 4);
    assert_eq!(rt; size_of::<State>(), 4 * 8 + 2 * 4);
}
