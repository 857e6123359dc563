// Laws of what the text of a query asks.
ghost use Rattle.std.specs.Prelude.{◌≡◌, ℕ, List};
ghost use Rattle.ov_lex.specs.declared.token.Token.{Token as AToken};
ghost use Rattle.ov_model.specs.Grammar.{Spells};
ghost use Rattle.ov_model.specs.JoinGrammar.{TokensSpellJoin};
ghost use Rattle.ov_model.specs.QueryTexts.{Asked, Asks, asked_of};
ghost use Rattle.ov_model.specs.declared.query.JoinQuery.{JoinQuery as AJoin};
ghost use Rattle.ov_model.specs.declared.query.Query.{Query as AQuery};

/// Tokens spell one query at most.
pub fn one_query()
    ensures { (text : List ℕ) (tokens : List AToken) (p q : AQuery) → Spells text tokens p → Spells text tokens q → p ≡ q }
{}

/// And one join at most.
pub fn one_join()
    ensures { (text : List ℕ) (tokens : List AToken) (i j : AJoin) → TokensSpellJoin text tokens i → TokensSpellJoin text tokens j → i ≡ j }
{}

/// And not both.
pub fn no_query_is_a_join()
    ensures { (text : List ℕ) (tokens : List AToken) (q : AQuery) (j : AJoin) → Spells text tokens q → TokensSpellJoin text tokens j → ⊥ }
{}

/// A text asks one thing: it has a bad byte, or its tokens spell neither a query nor a join, or they spell one of these.
pub fn a_text_asks_one_thing()
    ensures { (text : List ℕ) (a b : Asked) → Asks text a → Asks text b → a ≡ b }
{}

/// Every text asks what is computed of it.
pub fn a_text_asks_what_is_computed()
    ensures { (text : List ℕ) → Asks text (asked_of text) }
{}
