ghost use Rattle.std.specs.Prelude.{◌<◌, ◌≤◌, length, slice_range, All, ◌≡◌, ◌↔◌, ℕ, List, Some};
ghost use Rattle.sql_tokens.specs.Forms.{IsToken, between, doubled};
ghost use Rattle.sql_tokens.specs.Tokens.{AreTokens, Stands};
ghost use Rattle.sql_tokens.specs.Scan.{tokens_of};
ghost use Rattle.sql_tokens.specs.Values.{quoted_name, text_value};
ghost use Rattle.sql_tokens.specs.declared.token.Token.{Token};
ghost use Rattle.sql_tokens.specs.declared.token_sort.TokenSort.{TokenSort};

/// Law: the tokens that are found in a text are its tokens, and where none are found it has no list of them.
pub fn the_tokens_are_those_found()
    ensures law { (text : List ℕ) (tokens : List Token) → (tokens_of text ≡ Some tokens) ↔ AreTokens text tokens }
{}

/// Law: a text has at most one list of tokens.
pub fn a_text_has_one_list_of_tokens()
    ensures law { (text : List ℕ) (a b : List Token) → AreTokens text a → AreTokens text b → a ≡ b }
{}

/// Law: each token of a text stands in it.
pub fn each_token_stands()
    ensures law { (text : List ℕ) (tokens : List Token) → tokens_of text ≡ Some tokens → All (Stands text) tokens }
{}

/// Law: a token is the longest from its place on: what begins there and ends behind it is a token of no sort.
pub fn no_longer_token_stands()
    ensures law { (text : List ℕ) (token : Token) (sort : TokenSort) (to : ℕ) → Stands text token → token.to < to → to ≤ length text → IsToken sort (slice_range text token.from to) → ⊥ }
{}

/// Law: a value is what is written between quotes, with the quotes in it doubled, and a name what is written there as it is.
pub fn a_value_is_written_between_quotes()
    ensures value { (value : List ℕ) → text_value (between 39 (doubled value)) ≡ value }
    ensures name { (name : List ℕ) → quoted_name (between 34 name) ≡ name }
{}
