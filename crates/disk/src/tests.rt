//! Files of a test's own that fail. The disk in memory is played by rows.

mod faulty;
