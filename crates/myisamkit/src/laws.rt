//! Laws over the words of a command line. Each is the contract of a function that does nothing, so that it
//! is proved with the crate.
ghost use Rattle.std.specs.Prelude.{◌≡◌, ℕ, List};
ghost use Rattle.myisamkit.specs.declared.options.Options.{Options};
ghost use Rattle.myisamkit.specs.declared.shell_options.ShellOptions.{ShellOptions};
ghost use Rattle.myisamkit.specs.Words.{plan, chk, create, dump, make, shell, usage};
ghost use Rattle.myisamkit.specs.Asked.{AreChk, AreCreate, AreDump, AreMake, AreShell, AreRefused};

/// Words that are accepted have the command, exactly its options, and its tables in their order.
pub fn accepted_words_are_a_command()
    ensures { (words : List (List ℕ)) (o : Options) (tables : List (List ℕ))
        → plan words ≡ chk o tables → AreChk words o tables }
{}

/// The words of a creation have the command, no option, one table and one file.
pub fn creating_words_are_a_command()
    ensures { (words : List (List ℕ)) (table file : List ℕ) → plan words ≡ create table file
        → AreCreate words table file }
{}

/// The words of a dump have the command, no option, and one table.
pub fn dumping_words_are_a_command()
    ensures { (words : List (List ℕ)) (table : List ℕ) → plan words ≡ dump table
        → AreDump words table }
{}

/// The words of a making have the command, no option, two numbers and one table.
pub fn making_words_are_a_command()
    ensures { (words : List (List ℕ)) (count seed : ℕ) (table : List ℕ)
        → plan words ≡ make count seed table → AreMake words count seed table }
{}

/// The words of a script have the command, exactly its options, one table and one file.
pub fn shell_words_are_a_command()
    ensures { (words : List (List ℕ)) (o : ShellOptions) (table script : List ℕ)
        → plan words ≡ shell o table script → AreShell words o table script }
{}

/// Words are refused exactly where they have one of these reasons: no command that is known; behind
/// `chk`, when they are spelled out, no name, or one out of form, an option that is not known or whose
/// value is missing or no number of a key, two modes, or another option twice, but the silent one;
/// behind `create` an option, or other than two names in form; behind `dump` an option, or other than
/// one name in form; behind `make` an option, or other than a number from 1 to 100,000, one below 2^64
/// and one name in form; behind `shell`, when they are spelled out, other than two names in form, or an
/// option that is not known, whose value is missing or out of its range, or that stands twice.
pub fn refused_words_have_a_reason()
    ensures reason { (words : List (List ℕ)) → plan words ≡ usage → AreRefused words }
    ensures refused { (words : List (List ℕ)) → AreRefused words → plan words ≡ usage }
{}
