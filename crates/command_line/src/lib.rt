// Which command the words of the tool's command line ask for.
#![tactic(auto)]

ghost use Rattle.std.specs.Prelude.{◌≡◌};
ghost use Rattle.command_line.specs.Words.{asks, file_command_of, command_of, names_defaults, wanted_of};

// What a command line can ask for.
#[derive(Clone, Copy, Debug, PartialEq, Eq)]
pub enum Command {
    Check,
    Show,
    Lookup,
    Runs,
    Weave,
    Prune,
    Compare,
    CompareId,
    CompareFrom,
    Prefixes,
    Usage,
}

// Where the words for the old and the new default of a comparison stand, counted from the tool's own name.
#[derive(Clone, Copy, Debug, PartialEq, Eq)]
pub struct Defaults {
    pub old: usize,
    pub new: usize,
}

// What a command line asks for: the command, and the defaults of a comparison where it names them.
#[derive(Clone, Copy, Debug, PartialEq, Eq)]
pub struct Wanted {
    pub command: Command,
    pub defaults: Option<Defaults>,
}

// Whether the first word is this name and there are so many words in all, the program's own name among them.
#[tactic(auto, using(crate::proofs::WordLaws::same_pointwise), unfolding(crate::specs::Words::asks))]
fn is(word: &[u8], words: usize, name: &[u8], wanted: usize) -> bool
    ensures { result ≡ asks word.now words name.now wanted }
{
    words == wanted && word == name
}

// The command on image files that a command line without defaults asks for: its first word, and how many words there are with the tool's
// own name. No `match` on the word's bytes: its proof has a goal for each byte at which the words part.
#[tactic(auto, unfolding(crate::specs::Words::file_command_of))]
fn file_command_of(word: &[u8], words: usize) -> Command
    ensures { result ≡ file_command_of word.now words }
{
    if is(word, words, b"check", 3) {
        return Command::Check;
    }
    if is(word, words, b"show", 3) {
        return Command::Show;
    }
    if is(word, words, b"lookup", 5) {
        return Command::Lookup;
    }
    if is(word, words, b"runs", 4) {
        return Command::Runs;
    }
    if is(word, words, b"weave", 4) {
        return Command::Weave;
    }
    if is(word, words, b"prune", 4) {
        return Command::Prune;
    }
    if is(word, words, b"compare", 4) {
        return Command::Compare;
    }
    if is(word, words, b"compare", 5) {
        return Command::CompareId;
    }
    if is(word, words, b"compare", 6) {
        return Command::CompareFrom;
    }
    Command::Usage
}

// The same with the command that takes no file.
#[tactic(auto, unfolding(crate::specs::Words::command_of))]
fn command_of(word: &[u8], words: usize) -> Command
    ensures { result ≡ command_of word.now words }
{
    if is(word, words, b"prefixes", 5) {
        return Command::Prefixes;
    }
    file_command_of(word, words)
}

// Whether a comparison ends in its defaults: the last word but two is their name. There are words for two files before it, so none of
// these is taken for it.
#[tactic(auto, using(crate::proofs::WordLaws::same_pointwise), unfolding(crate::specs::Words::names_defaults))]
fn names_defaults(word: &[u8], last_but_two: &[u8], words: usize) -> bool
    ensures { result ≡ names_defaults word.now last_but_two.now words }
{
    words >= 7 && word == b"compare".as_slice() && last_but_two == b"defaults".as_slice()
}

// What a command line asks for: its first word, its last word but two, and how many words there are with the tool's own name.
#[tactic(auto, unfolding(crate::specs::Words::wanted_of))]
pub fn asked(word: &[u8], last_but_two: &[u8], words: usize) -> Wanted
    ensures { result ≡ wanted_of word.now last_but_two.now words }
{
    if names_defaults(word, last_but_two, words) {
        return Wanted {
            command: command_of(word, words - 3),
            defaults: Some(Defaults {
                old: words - 2,
                new: words - 1,
            }),
        };
    }
    Wanted {
        command: command_of(word, words),
        defaults: None,
    }
}
