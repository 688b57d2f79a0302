//! Sets of up to 256 members. A set is four words, which its contracts do not show: they tell which members
//! it has.
#![tactic(auto)]

mod part;
mod set;

pub use part::Part;
pub use set::MemberSet;
