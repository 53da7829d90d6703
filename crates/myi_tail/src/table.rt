//! The table that the appender and the readers share: what each seat knows (`View`), the rule that holds
//! of it at each moment (`TailRule`), and a type for each kind of step, which says what the step tells.
//! The rule and the steps are in `specs/Rule` and `specs/Plays`; none of these types has a value.
use atomic_table::{Join, Play, Seat, Split, Table, TableRule};
use std::alloc::Global;
use std::collections::LinkedList;

/// What a seat at the table knows.
pub enum View {
    /// The appender: how many cells there are, the words that it stored, how many are published, and
    /// what each reader knew whose seat was joined to this one.
    Appends(u64, LinkedList<u64>, u64, LinkedList<LinkedList<u64>>),
    /// A reader: how many cells there are, the count that it loaded last, and the words that it loaded.
    Reads(u64, u64, LinkedList<u64>),
    /// A reader whose seat was joined to the appender's.
    Spent,
}

pub struct TailRule;

impl TableRule<u8, View, u64> for TailRule {
    ghost use Rattle.myi_tail.specs.Rule.{Kept};
    ghost use Rattle.myi_tail.specs.Plays.{opening};

    ghost holds = { λ _ s. Kept record { cells = s.words; views = s.views } };

    ghost first = { opening };
}

pub struct StoreWord;

impl Play<u8, View> for StoreWord {
    ghost use Rattle.myi_tail.specs.Plays.{WordStored};

    ghost then = { WordStored };
}

pub struct StoreCount;

impl Play<u8, View> for StoreCount {
    ghost use Rattle.myi_tail.specs.Plays.{CountStored};

    ghost then = { CountStored };
}

pub struct LoadCount;

impl Play<u8, View> for LoadCount {
    ghost use Rattle.myi_tail.specs.Plays.{CountLoaded};

    ghost then = { CountLoaded };
}

pub struct LoadWord;

impl Play<u8, View> for LoadWord {
    ghost use Rattle.myi_tail.specs.Plays.{WordLoaded};

    ghost then = { WordLoaded };
}

pub struct LookAtCount;

impl Play<u8, View> for LookAtCount {
    ghost use Rattle.myi_tail.specs.Plays.{CountLookedAt};

    ghost then = { CountLookedAt };
}

pub struct SplitReader;

impl Split<View> for SplitReader {
    ghost use Rattle.myi_tail.specs.Plays.{new_reader};

    ghost left = { λ v. v };

    ghost right = { new_reader };
}

pub struct JoinReader;

impl Join<View> for JoinReader {
    ghost use Rattle.myi_tail.specs.Plays.{with_joined};
    ghost use Rattle.myi_tail.specs.declared.table.View.TheVariants.{Spent};

    ghost both = { with_joined };

    ghost spent = { Spent };
}

/// The cells: the count, and then the words.
pub type Cells = Table<u8, View, u64, TailRule, Global>;

/// The token with which the appender or a reader makes its steps.
pub type TailSeat = Seat<u8, View>;
