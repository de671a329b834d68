//! The commands over files: settings, journals, scripts, charts and pages.
#![tactic(auto)]

mod apart;
mod chance;
mod cluster;
mod doors;
mod epoch_files;
mod files;
mod forgotten;
mod newest;
mod page_files;
mod presence;
mod rows;
mod shapes;
mod unsynced;
mod words;

pub use apart::own_links;
pub use chance::{Measuring, measure_rounds};
pub use cluster::{NewCluster, new_cluster};
pub use commands::{Choice, PagePaths};
pub use doors::{Door, foreign_words, own_door};
pub use epoch_files::{
    Span, epoch_header, epoch_path, epochs_in, is_missing, lock_folder, look_into, make_journal,
    refuse_forgotten_in,
};
pub use files::{
    Purpose, Source, audit_file, check_file, dump_file, failure_for, first_error_in, hear_input,
    init_file, migrate_file, open_good_disk, read_settings, simulate_file,
};
pub use forgotten::{put_aside, refuse_forgotten};
pub use newest::note_newest;
pub use page_files::{Page, write_page};
pub use shapes::{AuditWords, Audited, SimulateWords, audited_of, simulate};
pub use unsynced::remove_old_mark;
pub use words::{hear_end, number_words, size_of};
