//! Options among the words.
ghost use Rattle.std.specs.Prelude.{◌≡◌, ◌<◌, ◌≤◌, drop, length, true, false, MatchOption, None};
ghost use Rattle.mt_args.specs.Task.{before, has_sign, parted, options_of};

use mt_base::Words;

/// An option, as it is spelled in one word or in two.
pub struct CommandOption<'a> {
    /// Its name, with the dashes.
    pub name: &'a str,
    /// Its value.
    pub value: &'a str,
    /// The place of the word after it.
    pub next: usize,
}

/// The option at a place of the words, from 0; none where its value is missing.
pub fn option_at(words: &Words, at: usize) -> Option<CommandOption<'_>>
    requires { at < length words.now }
    ensures { MatchOption result (options_of (drop at words.now) ≡ None)
        (λ s. (at < s.next) × (s.next ≤ length words.now) × (options_of (drop at words.now)
        ≡ before (record { name = s.name.now; value = s.value.now }) (options_of (drop s.next words.now)))) }
{
    let count = words.count();
    let word = words.word(at);
    if let Some((name, value)) = parts(word) {
        return Some(CommandOption {
            name,
            value,
            next: at + 1,
        });
    }
    if count - at < 2 {
        return None;
    }
    Some(CommandOption {
        name: word,
        value: words.word(at + 1),
        next: at + 2,
    })
}

// What stands before the first sign = of a word and after it.
fn parts(word: &str) -> Option<(&str, &str)>
    ensures { MatchOption result (has_sign word.now ≡ false)
        (λ p. (has_sign word.now ≡ true) × (parted word.now ≡ record { name = p.0.now; value = p.1.now })) }
{
    word.split_once('=')
}
