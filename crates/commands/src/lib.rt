//! The commands of the program, over any disk, reader and writer.
#![tactic(auto)]

mod asked;
mod check;
mod client;
mod closing;
mod damage;
mod dump;
mod fault;
mod forever;
mod init;
mod migrate;
mod objects;
mod old_damage;
mod owners;
mod patience;
mod quoting;
mod replies;
mod shown;
mod simulate;
mod stages;
mod survey;
mod text_lines;
mod transcript;

pub use asked::{asked_words, key_words};
pub use check::{check_journal, print_check, print_settings};
pub use client::{
    ask_line, await_line, decision_of, decision_reply, exchange, is_undecided, links_line,
    propose_line, ready_status, state_line, status_line, talk, tell, tell_object, tell_object_of,
    tell_of,
};
pub use closing::{Closing, Told, epochs_line, fetch_epochs, least_closed, tell_epochs, told_of};
pub use damage::{bytes_at, fault_place};
pub use dump::{dump_count, dump_count_object, dump_lines, dump_objects};
pub use fault::{DumpFault, InitFault, MigrationFault, SimulateFault, TalkFault};
pub use forever::{Tried, try_script};
pub use init::init_disk;
pub use migrate::migrate_disks;
pub use old_damage::old_fault_place;
pub use owners::{long_owner, other_owner, owner};
pub use patience::milliseconds;
pub use playing::Template;
pub use quoting::{Quoted, Visible, has_hidden};
pub use report::Choice;
pub use shown::{PagePaths, ScriptPages, Shelf, SimulationEnd, show_simulation};
pub use simulate::{Simulation, print, print_verdicts, simulate_text, takes_output};
pub use survey::{
    Next, Word, later_word, next_of, remarks, tell_decision, transcript_bit, word_of,
};
pub use text_lines::{
    count_lines, line_at, line_in_table, line_of_byte, line_of_key, line_of_name, lines_in,
    text_fault,
};
pub use transcript::{fetch_transcript, transcript_line};
