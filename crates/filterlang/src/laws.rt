//! Laws of the language's definitions. No code relies on them: each is a function that does nothing
//! and whose contract is the law.

ghost use Rattle.std.specs.Prelude.{◌≡◌, ◌≤◌, ◌⊎◌, ℕ, List, Some, true, length};
ghost use Rattle.std.specs.List.{AllByRecursion};
ghost use Rattle.filterlang.specs.declared.token.Kind.{Kind};
ghost use Rattle.filterlang.specs.declared.token.Token.{Token};
ghost use Rattle.filterlang.specs.declared.lexer.Cause.{Cause};
ghost use Rattle.filterlang.specs.Words.{words, signs, stands, stands_whole, standing, whole_word};
ghost use Rattle.filterlang.specs.Tokens.{Lexes, Stuck};
ghost use Rattle.filter_tree.specs.Trees.{Tree};
ghost use Rattle.filterlang.specs.Grammar.{Reads};

/// A text has one list of tokens at most.
pub fn one_list_of_tokens()
    ensures { (text : List ℕ) (xs ys : List Token) → Lexes text 0 xs → Lexes text 0 ys → xs ≡ ys }
{}

/// A text is stuck at one place at most, for one cause.
pub fn one_failing_place()
    ensures { (text : List ℕ) (c d : Cause) (p q : ℕ) →
        Stuck text 0 c p → Stuck text 0 d q → (c ≡ d) × (p ≡ q) }
{}

/// A text that has tokens is not stuck.
pub fn never_both()
    ensures { (text : List ℕ) (xs : List Token) (c : Cause) (p : ℕ) → Lexes text 0 xs → Stuck text 0 c p → ⊥ }
{}

/// Each text has its tokens or is stuck.
pub fn one_or_the_other()
    ensures { (text : List ℕ) →
        ((xs : List Token) × Lexes text 0 xs) ⊎ ((c : Cause) × (p : ℕ) × Stuck text 0 c p) }
{}

/// No sign that a text begins with is longer than the one that is read there.
pub fn longest_sign()
    ensures { (text : List ℕ) (kind : Kind) (n : ℕ) → standing signs text ≡ Some (kind, n) →
        AllByRecursion (λ sign. stands text sign.0 ≡ true → length sign.0 ≤ n) signs }
{}

/// No word that a text begins with, and that no letter or digit follows, is longer than the one
/// that is read there.
pub fn longest_word()
    ensures { (text : List ℕ) (kind : Kind) (n : ℕ) → whole_word words text ≡ Some (kind, n) →
        AllByRecursion (λ word. stands_whole text word.0 ≡ true → length word.0 ≤ n) words }
{}

/// Tokens read as one tree at most.
pub fn one_tree()
    ensures { (tokens : List Kind) (t u : Tree) → Reads tokens t → Reads tokens u → t ≡ u }
{}
