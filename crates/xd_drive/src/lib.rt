//! How a session is run: the hub, which starts workers, tells them what to do, kills them and gives news of them; a hub
//! over lists; and the loop that runs a session over a hub and prints its report.
#![tactic(auto)]

mod copies;
mod hub;
mod laws;
mod listed_hub;
mod news;
mod perform;
mod printing;
mod running;
mod written;

pub use hub::Hub;
pub use laws::{ids_law, names_law};
pub use listed_hub::ListedHub;
pub use running::{DrivenRun, drive};
pub use written::Written;
