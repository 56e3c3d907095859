// The forms of lines, by their first words.
ghost use Rattle.std.specs.Prelude.{◌≡◌};
ghost use Rattle.seq_schedule.specs.Forms.{form_named, failure_named, is_built, is_taken};

/// A form of line.
#[derive(Clone, Copy)]
pub enum Form {
    Turn,
    Turns,
    Round,
    Finish,
    Input,
    Close,
    Fail,
    Repair,
    Upset,
    Hangup,
}

/// Which lines are taken: those that the machine runs yet, or all.
#[derive(Clone, Copy)]
pub enum Gate {
    Built,
    Open,
}

/// The form whose lines begin with a word.
pub fn form_named(word: &[u8]) -> Option<Form>
    ensures { result ≡ form_named word.now }
{
    if word == b"turn".as_slice() {
        Some(Form::Turn)
    } else if word == b"turns".as_slice() {
        Some(Form::Turns)
    } else if word == b"round".as_slice() {
        Some(Form::Round)
    } else if word == b"finish".as_slice() {
        Some(Form::Finish)
    } else if word == b"input".as_slice() {
        Some(Form::Input)
    } else if word == b"close".as_slice() {
        Some(Form::Close)
    } else {
        failure_named(word)
    }
}

fn failure_named(word: &[u8]) -> Option<Form>
    ensures { result ≡ failure_named word.now }
{
    if word == b"fail".as_slice() {
        Some(Form::Fail)
    } else if word == b"repair".as_slice() {
        Some(Form::Repair)
    } else if word == b"upset".as_slice() {
        Some(Form::Upset)
    } else if word == b"hangup".as_slice() {
        Some(Form::Hangup)
    } else {
        None
    }
}

/// Whether the machine runs what lines of this form say: all but hangups.
fn is_built(form: Form) -> bool
    ensures { result ≡ is_built form }
{
    match form {
        Form::Turn => true,
        Form::Turns => true,
        Form::Round => true,
        Form::Finish => true,
        Form::Input => true,
        Form::Close => true,
        Form::Fail => true,
        Form::Repair => true,
        Form::Upset => true,
        Form::Hangup => false,
    }
}

/// Whether lines of this form are taken.
pub fn is_taken(gate: Gate, form: Form) -> bool
    ensures { result ≡ is_taken gate form }
{
    match gate {
        Gate::Built => is_built(form),
        Gate::Open => true,
    }
}
