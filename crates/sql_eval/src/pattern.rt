ghost use Rattle.std.specs.Prelude.{◌≡◌, ◌<◌, ◌≤◌, ◌∷◌, [], length, MatchOption};
ghost use Rattle.std.specs.Str.{chars};
ghost use Rattle.sql_eval.specs.Like.{is_like, stands_for};
ghost use Rattle.sql_eval.specs.Run.{IsRun, IsShorter};

use crate::run::Run;

/// Whether a text is like a pattern, in which `%` stands for any run of characters and `_` for one character.
pub fn like(text: &str, pattern: &str) -> bool
    ensures exact { result ≡ is_like text.now pattern.now }
{
    let mut left = text;
    let mut wanted = pattern;
    let mut anywhere = false;
    loop {
        match run(left, wanted) {
            Run::Whole => return true,
            Run::Star { text, pattern } => {
                left = text;
                wanted = pattern;
                anywhere = true;
            }
            Run::Mismatch => match first_of(left) {
                Some((_, behind)) if anywhere => left = behind,
                _ => return false,
            },
        }
    }
}

// The pattern up to its first `%`, or to its end, at the front of the text.
fn run<'a>(text: &'a str, pattern: &'a str) -> Run<'a>
    ensures exact { IsRun (chars pattern.now) (chars text.now) result }
    ensures shorter { IsShorter pattern.now text.now result }
{
    let mut left = text;
    let mut wanted = pattern;
    while let Some((stands, rest)) = first_of(wanted) {
        if stands == '%' {
            return Run::Star {
                text: left,
                pattern: rest,
            };
        }
        match first_of(left) {
            Some((c, behind)) if stands_for(stands, c) => {
                left = behind;
                wanted = rest;
            }
            _ => return Run::Mismatch,
        }
    }
    match first_of(left) {
        None => Run::Whole,
        Some(_) => Run::Mismatch,
    }
}

// Whether a character of a pattern, other than `%`, stands for one of a text.
fn stands_for(wanted: char, c: char) -> bool
    ensures exact { result ≡ stands_for wanted c }
{
    wanted == '_' || wanted == c
}

// The first character of a text, and what is left behind it.
fn first_of(text: &str) -> Option<(char, &str)>
    ensures exact { MatchOption result (chars text.now ≡ []) (λ x. chars text.now ≡ x.0 ∷ chars x.1.now) }
    ensures shorter { MatchOption result (length text.now ≡ 0) (λ x. length x.1.now < length text.now) }
{
    let mut chars = text.chars();
    let first = chars.next()?;
    Some((first, chars.as_str()))
}
