ghost use Rattle.std.specs.Prelude.{◌≡◌};
ghost use Rattle.mt_read.specs.Line.{keys_of};
ghost use Rattle.mt_read.specs.Table.{change_layout, entry_layout, layout_of};
ghost use Rattle.mt_read.specs.Words.{change_word_of, entry_word_of, may_send, own_word_of, word_of};
ghost use Rattle.mt_read.specs.declared.origin.Origin.TheVariants.{Line, Entry};
ghost use Rattle.mt_read.specs.declared.request.Sender.TheVariants.{Replay, Plain};

use crate::request::Sender;

/// The word of a change of the picture that is asked for by itself.
#[derive(Clone, Copy)]
pub(crate) enum Change {
    Plan,
    External,
    Drop,
    Report,
    Tick,
    Renew,
    Clear,
    Tentative,
    Withdraw,
    Commit,
}

/// The word of a line.
#[derive(Clone, Copy)]
pub(crate) enum Word {
    Fix,
    TypeLine,
    Area,
    Rule,
    Begin,
    Take,
    Areas,
    Change(Change),
    Probe,
    Accept,
    Advise,
    Hello,
    List,
    Check,
    Due,
    Flight,
    History,
    Settle,
    Bye,
}

/// The word of an entry.
#[derive(Clone, Copy)]
pub(crate) enum EntryWord {
    Change(Change),
    /// `accept`, which in an entry says what was accepted.
    Accepted,
}

/// Which lines may give a command.
#[derive(Clone, Copy)]
pub(crate) enum Group {
    /// Those of a script alone.
    Script,
    /// Those of a script and of the feed.
    Feed,
    /// Those of a script and of a position.
    Position,
    /// All.
    Any,
}

// The command, no change by itself, that a text is the word of.
#[tactic(auto, unfolding(crate::specs::Words::own_word_of))]
fn own_word_of(text: &str) -> Option<Word>
    ensures { result ≡ own_word_of text.now }
{
    match text {
        "fix" => Some(Word::Fix),
        "type" => Some(Word::TypeLine),
        "area" => Some(Word::Area),
        "rule" => Some(Word::Rule),
        "begin" => Some(Word::Begin),
        "take" => Some(Word::Take),
        "areas" => Some(Word::Areas),
        "probe" => Some(Word::Probe),
        "accept" => Some(Word::Accept),
        "advise" => Some(Word::Advise),
        "hello" => Some(Word::Hello),
        "list" => Some(Word::List),
        "check" => Some(Word::Check),
        "due" => Some(Word::Due),
        "flight" => Some(Word::Flight),
        "history" => Some(Word::History),
        "settle" => Some(Word::Settle),
        "bye" => Some(Word::Bye),
        _ => None,
    }
}

// The change that a text is the word of.
#[tactic(auto, unfolding(crate::specs::Words::change_word_of))]
fn change_word_of(text: &str) -> Option<Change>
    ensures { result ≡ change_word_of text.now }
{
    match text {
        "plan" => Some(Change::Plan),
        "external" => Some(Change::External),
        "drop" => Some(Change::Drop),
        "report" => Some(Change::Report),
        "tick" => Some(Change::Tick),
        "renew" => Some(Change::Renew),
        "clear" => Some(Change::Clear),
        "tentative" => Some(Change::Tentative),
        "withdraw" => Some(Change::Withdraw),
        "commit" => Some(Change::Commit),
        _ => None,
    }
}

/// The command of a line that a text is the word of.
#[tactic(auto, unfolding(crate::specs::Words::word_of))]
pub(crate) fn word_of(text: &str) -> Option<Word>
    ensures { result ≡ word_of text.now }
{
    match own_word_of(text) {
        Some(word) => Some(word),
        None => Some(Word::Change(change_word_of(text)?)),
    }
}

/// The command of an entry that a text is the word of.
#[tactic(auto, unfolding(crate::specs::Words::entry_word_of))]
pub(crate) fn entry_word_of(text: &str) -> Option<EntryWord>
    ensures { result ≡ entry_word_of text.now }
{
    if text == "accept" {
        return Some(EntryWord::Accepted);
    }
    Some(EntryWord::Change(change_word_of(text)?))
}

fn group_of_change(change: Change) -> Group
    ensures { result ≡ (change_layout change).group }
{
    match change {
        Change::Plan
        | Change::External
        | Change::Drop
        | Change::Report
        | Change::Tick
        | Change::Renew => Group::Feed,
        Change::Clear | Change::Tentative | Change::Withdraw | Change::Commit => Group::Position,
    }
}

fn group_of(word: Word) -> Group
    ensures { result ≡ (layout_of word).group }
{
    match word {
        Word::Fix | Word::TypeLine | Word::Area | Word::Rule => Group::Script,
        Word::Begin | Word::Take | Word::Areas => Group::Script,
        Word::Change(change) => group_of_change(change),
        Word::Probe | Word::Accept | Word::Advise => Group::Position,
        Word::Hello
        | Word::List
        | Word::Check
        | Word::Due
        | Word::Flight
        | Word::History
        | Word::Settle
        | Word::Bye => Group::Any,
    }
}

/// Whether a line of the sender may give the command.
pub(crate) fn is_allowed(sender: Sender, word: Word) -> bool
    ensures { result ≡ may_send sender word }
{
    match (sender, group_of(word)) {
        (Sender::Replay, _) => true,
        (Sender::Feed, Group::Feed | Group::Any) => true,
        (Sender::Position, Group::Position | Group::Any) => true,
        (Sender::Plain, Group::Any) => true,
        _ => false,
    }
}

/// The keys of the command's line, with a space after each.
pub(crate) fn keys_of(sender: Sender, word: Word) -> &'static str
    ensures { result.now ≡ keys_of (Line sender) (layout_of word).fields }
{
    match sender {
        Sender::Replay => script_keys(word),
        Sender::Feed | Sender::Position | Sender::Plain => session_keys(word),
    }
}

/// The keys of an entry, with a space after each.
pub(crate) fn entry_keys(word: EntryWord) -> &'static str
    ensures { result.now ≡ keys_of Entry (entry_layout word).fields }
{
    match word {
        EntryWord::Change(change) => change_keys(change),
        EntryWord::Accepted => "do call level direct eff v who ",
    }
}

// The keys of a change, with who asks for it.
fn change_keys(change: Change) -> &'static str
    ensures { result.now ≡ keys_of (Line Replay) (change_layout change).fields }
{
    match change {
        Change::Plan => "do call type route at from level rvsm who ",
        Change::External => "do call from to x y z vx vy vz r gr w gw rvsm who ",
        Change::Drop | Change::Renew | Change::Commit => "do call who ",
        Change::Report => "do call at x y z who ",
        Change::Tick => "do now who ",
        Change::Clear | Change::Tentative => "do call level direct eff who ",
        Change::Withdraw => "do call force who ",
    }
}

fn script_keys(word: Word) -> &'static str
    ensures { result.now ≡ keys_of (Line Replay) (layout_of word).fields }
{
    match word {
        Word::Begin
        | Word::List
        | Word::Check
        | Word::Due
        | Word::Settle
        | Word::Bye
        | Word::Take
        | Word::Areas => "do who ",
        Word::Fix => "do name x y who ",
        Word::TypeLine => "do name bands who ",
        Word::Area => "do name corners bottom top from to who ",
        Word::Rule => "do sh sv r0 gh rmax w0 gv wmax tc ta tv flights history sv2 who ",
        Word::Change(change) => change_keys(change),
        Word::Flight => "do call sec who ",
        Word::History => "do from to who ",
        Word::Hello => "do role who ",
        Word::Probe => "do call level direct eff who ",
        Word::Accept => "do probe who ",
        Word::Advise => "do call who ",
    }
}

// The keys of a change, without who asks for it.
fn session_change_keys(change: Change) -> &'static str
    ensures { result.now ≡ keys_of (Line Plain) (change_layout change).fields }
{
    match change {
        Change::Plan => "do call type route at from level rvsm ",
        Change::External => "do call from to x y z vx vy vz r gr w gw rvsm ",
        Change::Drop | Change::Renew | Change::Commit => "do call ",
        Change::Report => "do call at x y z ",
        Change::Tick => "do now ",
        Change::Clear | Change::Tentative => "do call level direct eff ",
        Change::Withdraw => "do call force ",
    }
}

fn session_keys(word: Word) -> &'static str
    ensures { result.now ≡ keys_of (Line Plain) (layout_of word).fields }
{
    match word {
        Word::Begin
        | Word::List
        | Word::Check
        | Word::Due
        | Word::Settle
        | Word::Bye
        | Word::Take
        | Word::Areas => "do ",
        Word::Fix => "do name x y ",
        Word::TypeLine => "do name bands ",
        Word::Area => "do name corners bottom top from to ",
        Word::Rule => "do sh sv r0 gh rmax w0 gv wmax tc ta tv flights history sv2 ",
        Word::Change(change) => session_change_keys(change),
        Word::Flight => "do call sec ",
        Word::History => "do from to ",
        Word::Hello => "do role ",
        Word::Probe => "do call level direct eff ",
        Word::Accept => "do probe ",
        Word::Advise => "do call ",
    }
}
