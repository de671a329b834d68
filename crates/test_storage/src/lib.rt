//! Players of rows on disks, journals, migrations and the life of a member. The head of each module
//! says what its rows are.
#![tactic(auto)]

mod disks;
mod files;
mod lives;
mod migrations;
mod values;

pub use disks::Disks;
pub use files::File;
pub use lives::Life;
pub use migrations::Migration;
