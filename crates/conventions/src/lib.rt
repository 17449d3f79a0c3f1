//! Business day conventions: from the day that a bond's terms give to the day on which money moves.

#![tactic(auto)]

mod adjusted;
mod adjuster;
mod convention;
mod following;
mod modified_following;
mod preceding;
mod turning;
mod turns;
mod unadjusted;

pub use adjusted::Adjusted;
pub use adjuster::Adjuster;
pub use convention::Convention;
pub use following::Following;
pub use modified_following::ModifiedFollowing;
pub use preceding::Preceding;
pub use unadjusted::Unadjusted;
