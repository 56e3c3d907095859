// The commands, and which one the words say.
ghost use Rattle.std.specs.Prelude.{◌≡◌, [], ◌∷◌, None, MatchOption, map as list_map, string_bytes};
ghost use Rattle.seq_cli.specs.Commands.{is_name, form_of_one, form_of_two, form_of, command_of};

/// A command with its names.
#[derive(Clone, Copy)]
pub enum Command<'a> {
    /// `run MACHINE SCHEDULE`
    Run { machine: &'a str, schedule: &'a str },
    /// `asm SOURCE IMAGE`
    Assemble { source: &'a str, image: &'a str },
    /// `list IMAGE`
    List { image: &'a str },
}

fn is_name(word: &str) -> bool
    ensures { result ≡ is_name word.now }
{
    match word.as_bytes() {
        [] => false,
        [first, ..] => *first != b'-',
    }
}

fn command_of_one<'a>(word: &str, name: &'a str) -> Option<Command<'a>>
    ensures { MatchOption result (form_of_one word.now name.now ≡ None)
        (λ command. form_of_one word.now name.now ≡ Some (command_of command)) }
{
    if word == "list" {
        Some(Command::List { image: name })
    } else {
        None
    }
}

fn command_of_two<'a>(word: &str, first: &'a str, second: &'a str) -> Option<Command<'a>>
    ensures { MatchOption result (form_of_two word.now first.now second.now ≡ None)
        (λ command. form_of_two word.now first.now second.now ≡ Some (command_of command)) }
{
    if word == "run" {
        Some(Command::Run {
            machine: first,
            schedule: second,
        })
    } else if word == "asm" {
        Some(Command::Assemble {
            source: first,
            image: second,
        })
    } else {
        None
    }
}

/// The command that the words say.
pub fn read_form(words: &[String]) -> Option<Command<'_>>
    ensures { MatchOption result (form_of (list_map string_bytes words.now) ≡ None)
        (λ command. form_of (list_map string_bytes words.now) ≡ Some (command_of command)) }
{
    match words {
        [word, name] if is_name(name.as_str()) => command_of_one(word.as_str(), name.as_str()),
        [word, first, second] if is_name(first.as_str()) && is_name(second.as_str()) => {
            command_of_two(word.as_str(), first.as_str(), second.as_str())
        }
        _ => None,
    }
}
