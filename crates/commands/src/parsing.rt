// From words to a command.
ghost use Rattle.std.specs.Prelude.{◌≡◌};
ghost use Rattle.commands.specs.Words.{word_of};
ghost use Rattle.commands.specs.Commands.{choice_in, page_words, export_words, command_of};

use crate::types::{Command, Word};
use digits::words::{is_number, number_of};
use falls::types::ShortMonth;

// What a word of the command line is.
pub fn word_of(w: &[u8]) -> Word
    ensures { result ≡ word_of w.now }
{
    if is_number(w) {
        return Word::Number(number_of(w));
    }
    if w == b"skip".as_slice() {
        Word::Skip
    } else if w == b"last".as_slice() {
        Word::Last
    } else {
        Word::Other
    }
}

impl Word {
    // The short-month choice that it names.
    fn choice(self) -> Option<ShortMonth>
        ensures { result ≡ choice_in self }
    {
        match self {
            Word::Skip => Some(ShortMonth::Skip),
            Word::Last => Some(ShortMonth::Last),
            Word::Number(_) | Word::Other => None,
        }
    }
}

fn page_words(a: Word, b: Word) -> Command
    ensures { result ≡ page_words a b }
{
    let Word::Number(day) = a else {
        return Command::Unknown;
    };
    let Some(choice) = b.choice() else {
        return Command::Unknown;
    };
    Command::Page(day, choice)
}

fn export_words(a: Word, b: Word, c: Word) -> Command
    ensures { result ≡ export_words a b c }
{
    let Word::Number(first) = a else {
        return Command::Unknown;
    };
    let Word::Number(count) = b else {
        return Command::Unknown;
    };
    let Some(choice) = c.choice() else {
        return Command::Unknown;
    };
    Command::Export(first, count, choice)
}

// What n words ask for, of which the first three are handed over.
// Kept: number and words, no slice of words, as the definition `command_of` and the clause take them.
pub fn command_of(n: usize, a: Word, b: Word, c: Word) -> Command
    ensures { result ≡ command_of n a b c }
{
    match n {
        2 => page_words(a, b),
        3 => export_words(a, b, c),
        _ => Command::Unknown,
    }
}
