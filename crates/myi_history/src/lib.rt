//! What scripts of sessions do to a table, and what they print: definitions and their laws, and the
//! lines of answers.
//!
//! Several sessions run a script on one table under its table locks, in rounds (`myi_locks`). An
//! `Opening` is how a script begins: the definitions of the table, the lines of the script, the
//! state of the table, and the setting of concurrent inserts. From it alone follow the rounds and
//! the changes that the table accepts, the history. A read prints the rows of the table after the
//! first so many changes of the history, and how many they were; within its bounds that number is
//! free, since sessions run side by side, and so are the counters that a `stats` prints. So the
//! text of a script is a function of its opening, of the numbers of its reads and of those
//! counters.
//!
//! - `specs/Lines`: the steps of a script's lines, and what lines that may run meet.
//! - `specs/Reads`: the rows that a read finds.
//! - `specs/Answers`: what a statement answers, and the line that is printed of it.
//! - `specs/History`: rounds and history.
//! - `specs/Text`: the text of a script (`shell_text`).
//! - `specs/Bounds`: which numbers its reads may be given (`AreWithin`).
//! - `specs/Appending`: inserts at the end, and the rows that stand before them.
//! - `specs/RoundTexts`: texts of lines, and their order.
//! - `specs/OneThread`: the numbers of a run on one thread, and what the laws say of rounds.
//! - `specs/SideBySide`: the numbers of a round whose sessions go side by side.
//! - `specs/Running`: a run that has come so far, and what stands behind it.
//!
//! `script_steps` makes the steps of a script for `Locks::new`, `AnswerTexts` appends the lines of
//! answers, and `RoundTexts` holds what a round said and writes it in order of line. The laws are
//! the contracts of the functions in `laws`, and those of runs that have come so far in `running`.
#![tactic(auto)]

mod answers;
mod laws;
mod lines;
mod round_texts;
mod running;

pub use answers::{AnswerTexts, StepAnswer};
pub use laws::{
    appended_rows_stand_behind, histories_are_replayed, lines_are_answered_once,
    numbers_are_forced, numbers_can_be_given, ranges_find_matching_rows, ranges_find_merged_rows,
    refused_changes_leave, rounds_are_whole, rounds_follow_the_history, scripts_may_run,
    texts_come_in_any_order, texts_stand_in_line_order,
};
pub use lines::script_steps;
pub use round_texts::RoundTexts;
pub use running::{
    rounds_go_on_in_turn, rounds_go_on_side_by_side, runs_begin, runs_end, runs_go_on,
    runs_that_stop, sessions_go_beside_inserts, tables_are_read,
};
