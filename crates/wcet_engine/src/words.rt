//! The forms of the command words.

ghost use Rattle.std.specs.Prelude.{◌≡◌};
ghost use Rattle.std.specs.Option.{option_map};
ghost use Rattle.wcet_engine.specs.Words.{command_of, form_of, words_of};

/// What the words ask for.
#[derive(Clone, Copy, Debug, PartialEq, Eq)]
pub enum Command {
    /// `analyse`: the analysis of a file.
    Analyse,
    /// `bound`: its bound and certificate.
    Bound,
}

/// A command with the names of its files.
#[derive(Clone, Copy, Debug)]
pub struct Form<'a> {
    pub command: Command,
    /// The name of the ELF file.
    pub elf: &'a str,
    /// The name of the profile's file.
    pub config: Option<&'a str>,
}

ghost use Rattle.wcet_engine.specs.Given.{given_form};

/// The command that a word names, byte for byte.
fn command_of(word: &str) -> Option<Command>
    ensures { result ≡ command_of word.now }
{
    match word {
        "analyse" => Some(Command::Analyse),
        "bound" => Some(Command::Bound),
        _ => None,
    }
}

/// The form of the words: `analyse ELF`, `analyse ELF CONFIG`, `bound ELF` or `bound ELF CONFIG`.
///
/// A file name is any text. All other lists of words have no form.
pub fn form_of(words: &[String]) -> Option<Form<'_>>
    ensures { option_map given_form result ≡ form_of (words_of words.now) }
{
    let (word, elf, config) = match words {
        [word, elf] => (word, elf, None),
        [word, elf, config] => (word, elf, Some(config.as_str())),
        _ => return None,
    };
    let command = command_of(word.as_str())?;
    Some(Form {
        command,
        elf: elf.as_str(),
        config,
    })
}
