//! The tokens of a line, one after another.

ghost use Rattle.std.specs.Prelude.{◌≡◌, ◌≤◌, ◌==◌, not, if◌then◌else◌, Some, false, drop, length};
ghost use Rattle.std.specs.Prelude.{codes, IfErr};
ghost use Rattle.std.specs.List.{prefix_len};
ghost use Rattle.dg_lex.specs.Lexemes as lexemes;
ghost use Rattle.dg_lex.specs.declared.token.TokenKind.TheVariants as kind;
ghost use Rattle.dg_decl.specs.Readers as readers;
ghost use Rattle.dg_decl.specs.ExpressionForms as forms;
ghost use Rattle.dg_decl.specs.Forms as items;
ghost use Rattle.dg_reader.specs.Gives.{GivesBy};
ghost use Rattle.dg_reader.specs.declared.fault.FormFault.TheVariants as fault;

use crate::fault::FormFault;
use dg_lex::{Token, TokenKind, spelling};
use std::marker::Model;

/// The tokens of a line that are still to be read. It borrows the line and its tokens.
#[derive(Drop)]
pub struct Lexemes<'a> {
    line: &'a [u8],
    tokens: &'a [Token],
}

impl<'a> Model for Lexemes<'a> {
    ghost use Rattle.std.specs.Prelude.{List};
    ghost use Rattle.dg_lex.specs.Lexemes.{Lexeme, lexemes};

    ghost Value = { List Lexeme };

    ghost view = { λ ls. lexemes ls.line.now ls.tokens.now };
}

fn is_spelled(line: &[u8], token: &Token, kind: TokenKind, spelled: &[u8]) -> bool
    ensures exact { result ≡ readers.is_spelled kind spelled.now (lexemes.lexeme_of line.now
        token.now) }
{
    token.kind == kind && spelling(line, token) == spelled
}

fn tokens_behind(tokens: &[Token], count: usize) -> &[Token]
    requires { count ≤ length tokens.now }
    ensures exact { result.now ≡ drop count tokens.now }
{
    &tokens[count..]
}

/// How many `(` stand in front, one behind another.
fn opens(line: &[u8], tokens: &[Token]) -> usize
    ensures exact { result ≡ prefix_len (readers.is_spelled kind.Sign (codes "("))
        (lexemes.lexemes line.now tokens.now) }
{
    let mut rest = tokens;
    let mut count = 0;
    while let [token, more @ ..] = rest {
        if !is_spelled(line, token, TokenKind::Sign, b"(") {
            return count;
        }
        count += 1;
        rest = more;
    }
    count
}

/// Whether what stands in parentheses goes on behind a token.
fn is_inside(line: &[u8], token: &Token, inside: bool) -> bool
    ensures exact { result ≡ (if inside then not (readers.is_spelled kind.Sign (codes ")")
        (lexemes.lexeme_of line.now token.now)) else readers.is_spelled kind.Sign (codes "(")
        (lexemes.lexeme_of line.now token.now)) }
{
    if inside {
        !is_spelled(line, token, TokenKind::Sign, b")")
    } else {
        is_spelled(line, token, TokenKind::Sign, b"(")
    }
}

fn form_word<'a>(line: &'a [u8], tokens: &[Token]) -> &'a [u8]
    ensures exact { result.now ≡ items.form_word false (lexemes.lexemes line.now tokens.now) }
{
    let mut rest = tokens;
    let mut inside = false;
    while let [token, more @ ..] = rest {
        if !inside && token.kind == TokenKind::Name {
            return spelling(line, token);
        }
        let skipped = !inside && token.kind == TokenKind::AtName;
        let goes_on = is_inside(line, token, inside);
        if !inside && !skipped && !goes_on {
            return &line[..0];
        }
        inside = goes_on;
        rest = more;
    }
    &line[..0]
}

impl<'a> Lexemes<'a> {
    pub fn new(line: &'a [u8], tokens: &'a [Token]) -> Lexemes<'a>
        ensures exact { result ≡ lexemes.lexemes line.now tokens.now }
    {
        Lexemes { line, tokens }
    }

    /// Whether a token of this kind and spelling comes next.
    #[tactic(auto, unfolding(dg_decl::specs::Readers::comes))]
    pub fn comes(&self, kind: TokenKind, spelled: &[u8]) -> bool
        ensures exact { result ≡ readers.comes kind spelled.now self.now }
    {
        match self.tokens {
            [] => false,
            [token, ..] => is_spelled(self.line, token, kind, spelled),
        }
    }

    /// Whether a token of this kind comes next.
    #[tactic(auto, unfolding(dg_decl::specs::Readers::comes_kind))]
    pub fn comes_kind(&self, kind: TokenKind) -> bool
        ensures exact { result ≡ readers.comes_kind kind self.now }
    {
        match self.tokens {
            [] => false,
            [token, ..] => token.kind == kind,
        }
    }

    /// Whether such a name comes next, and `(` behind it.
    #[tactic(auto, unfolding(dg_decl::specs::ExpressionForms::comes_call, dg_decl::specs::Readers::comes))]
    pub fn comes_call(&self, name: &[u8]) -> bool
        ensures exact { result ≡ forms.comes_call name.now self.now }
    {
        match self.tokens {
            [first, second, ..] => {
                is_spelled(self.line, first, TokenKind::Name, name)
                    && is_spelled(self.line, second, TokenKind::Sign, b"(")
            }
            _ => false,
        }
    }

    /// How many `(` come next, one behind another.
    pub fn opens(&self) -> usize
        ensures exact { result ≡ prefix_len (readers.is_spelled kind.Sign (codes "(")) self.now }
    {
        opens(self.line, self.tokens)
    }

    /// The word that tells the form of a line: the first name behind at-names and what stands in
    /// parentheses, or no bytes where there is none.
    pub fn form_word(&self) -> &'a [u8]
        ensures exact { result.now ≡ items.form_word false self.now }
    {
        form_word(self.line, self.tokens)
    }

    /// Whether no token is left.
    pub fn is_empty(&self) -> bool
        ensures exact { result ≡ (length self.now == 0) }
    {
        self.tokens.is_empty()
    }

    /// Takes so many tokens.
    pub fn skip_many(&mut self, count: usize)
        requires { count ≤ length self.old }
        ensures exact { self.new ≡ drop count self.old }
    {
        self.tokens = tokens_behind(self.tokens, count);
    }

    /// Takes the next token, which has this kind and spelling.
    #[tactic(auto, unfolding(dg_decl::specs::Readers::taken))]
    pub fn take(&mut self, kind: TokenKind, spelled: &[u8]) -> Result<(), FormFault>
        ensures exact { GivesBy (λ _. tt) (readers.taken kind spelled.now self.old) result
            self.new }
        ensures cause { IfErr result (λ e. e ≡ fault.NoForm) }
    {
        if !self.comes(kind, spelled) {
            return Err(FormFault::NoForm);
        }
        self.skip();
        Ok(())
    }

    /// Takes the next token if it has this kind and spelling, and says whether it has.
    #[tactic(auto, unfolding(dg_decl::specs::Readers::eaten))]
    pub fn eat(&mut self, kind: TokenKind, spelled: &[u8]) -> bool
        ensures exact { readers.eaten kind spelled.now self.old ≡ Some (result, self.new) }
    {
        let found = self.comes(kind, spelled);
        if found {
            self.skip();
        }
        found
    }

    /// Takes the next token, which has this kind, and gives its bytes.
    #[tactic(auto, unfolding(dg_decl::specs::Readers::spelled))]
    pub fn spelled(&mut self, kind: TokenKind) -> Result<&'a [u8], FormFault>
        ensures exact { GivesBy (λ z. z.now) (readers.spelled kind self.old) result self.new }
        ensures cause { IfErr result (λ e. e ≡ fault.NoForm) }
    {
        match self.tokens {
            [token, rest @ ..] if token.kind == kind => {
                self.tokens = rest;
                Ok(spelling(self.line, token))
            }
            _ => Err(FormFault::NoForm),
        }
    }

    /// Ok where no token is left.
    #[tactic(auto, unfolding(dg_decl::specs::Readers::at_end))]
    pub fn end(&self) -> Result<(), FormFault>
        ensures exact { GivesBy (λ _. tt) (readers.at_end self.now) result self.now }
        ensures cause { IfErr result (λ e. e ≡ fault.NoForm) }
    {
        if self.tokens.is_empty() {
            Ok(())
        } else {
            Err(FormFault::NoForm)
        }
    }

    fn skip(&mut self)
        ensures exact { self.new ≡ drop 1 self.old }
    {
        if let [_, rest @ ..] = self.tokens {
            self.tokens = rest;
        }
    }
}
