// PAGE STEPS: a page found, added or made writable, in a store and a pool that are lent inside a call.
#![tactic(auto)]

mod address;
mod settling;
mod spots;
mod work;

pub use address::PageAddress;
pub use settling::{frame_at, next_frame, release, settle, take_frame};
pub use work::Work;
