//! Laws on the reading functions, whatever they read.

ghost use Rattle.std.specs.Prelude.{List, ℕ};
ghost use Rattle.lf_lex.specs.Laws.{TakesTokens, ReadsAlike};
ghost use Rattle.lf_lex.specs.Reading.{keyword, end_name, passed_token, passed_to_end, passed_to_word, to_semicolon, to_end, to_word};

/// Skipping takes each token that it skips, so skipping ends.
pub fn passing_takes_tokens()
    ensures to_semicolon { TakesTokens passed_token }
    ensures to_end { (due : List ℕ) → TakesTokens (passed_to_end due) }
    ensures to_word { (due : List ℕ) → TakesTokens (passed_to_word due) }
{}

/// White space, comments and the tokens that follow do not affect what the reading functions read.
pub fn words_read_alike()
    ensures keyword { (due : List ℕ) → ReadsAlike (keyword due) }
    ensures end_name { (due : List ℕ) → ReadsAlike (end_name due) }
    ensures to_semicolon { ReadsAlike to_semicolon }
    ensures to_end { (due : List ℕ) → ReadsAlike (to_end due) }
    ensures to_word { (due : List ℕ) → ReadsAlike (to_word due) }
{}
