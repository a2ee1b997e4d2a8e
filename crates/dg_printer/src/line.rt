//! A text to which tokens are appended, each with the space before it.

ghost use Rattle.std.specs.Prelude.{◌≡◌, ◌++◌, ◌∷◌, [], false, OnOk};
ghost use Rattle.dg_decl.specs.Canonical.{keyword_tokens};
ghost use Rattle.dg_decl.specs.Written.{integer_token, text_token};
ghost use Rattle.dg_printer.specs.Output as spec;
ghost use Rattle.dg_printer.specs.declared.line.After.TheVariants as after;

use dg_types::{Name, NoMemory, Text, push_quoted};
use itoa::Buffer;
use std::alloc::Global;
use std::marker::Model;

/// What stands before the next token, as far as the space between them depends on it.
#[derive(Clone, Copy)]
pub enum After {
    /// The start of a line, or its indent.
    Start,
    /// A comma.
    Comma,
    /// `(`, `[` or `.`.
    Opening,
    /// Another token.
    Other,
}

/// The text so far, and what the next token stands behind.
#[derive(Drop)]
pub struct Line {
    text: Vec<u8>,
    after: After,
}

impl Model for Line {
    ghost use Rattle.dg_printer.specs.Output.{Output};

    ghost Value = { Output };

    ghost view = { λ l. record { text = l.text.items; after = l.after } };
}

fn after_of(spelling: &[u8]) -> After
    ensures exact { result ≡ spec.after_of spelling.now }
{
    match spelling {
        b"," => After::Comma,
        b"(" | b"[" | b"." => After::Opening,
        _ => After::Other,
    }
}

fn is_spaced(spelling: &[u8]) -> bool
    ensures exact { result ≡ spec.is_spaced spelling.now }
{
    !matches!(
        spelling,
        b")" | b"]" | b"," | b"." | b"!" | b"?" | b"(" | b"["
    )
}

fn wants_space(after: After, next: &[u8]) -> bool
    ensures exact { result ≡ spec.wants_space after next.now }
{
    match after {
        After::Start | After::Opening => false,
        After::Comma => true,
        After::Other => is_spaced(next),
    }
}

impl Line {
    /// No text.
    pub fn new(alloc: Global) -> Line
        ensures exact { result ≡ record { text = []; after = after.Start } }
    {
        Line {
            text: Vec::new(alloc),
            after: After::Start,
        }
    }

    /// Gives the text.
    pub fn into_text(self) -> Vec<u8>
        ensures exact { result.items ≡ self.text }
    {
        let Line { text, after: _ } = self;
        text
    }

    /// Begins a line with these bytes.
    pub fn begin(&mut self, indent: &[u8]) -> Result<(), NoMemory>
        ensures exact { OnOk result (self.new ≡ record {
          text = self.old.text ++ indent.now;
          after = after.Start;
        }) }
    {
        self.text.extend_from_slice(indent)?;
        self.after = After::Start;
        Ok(())
    }

    /// Ends the line.
    pub fn end(&mut self) -> Result<(), NoMemory>
        ensures exact { OnOk result (self.new.text ≡ self.old.text ++ (10 ∷ [])) }
    {
        self.text.push(b'\n')?;
        Ok(())
    }

    /// Appends a token of this spelling. `close`: it stands right behind the one before it,
    /// whichever that is.
    #[tactic(auto, unfolding(crate::specs::Output::with_token))]
    pub fn push_token(&mut self, close: bool, spelling: &[u8]) -> Result<(), NoMemory>
        ensures exact { OnOk result (self.new ≡ spec.with_token self.old close spelling.now) }
    {
        if !close && wants_space(self.after, spelling) {
            self.text.push(b' ')?;
        }
        self.text.extend_from_slice(spelling)?;
        self.after = after_of(spelling);
        Ok(())
    }

    /// Appends a name, a reserved word or a sign.
    pub fn push(&mut self, spelling: &[u8]) -> Result<(), NoMemory>
        ensures exact { OnOk result (self.new ≡ spec.with_token self.old false spelling.now) }
    {
        self.push_token(false, spelling)
    }

    /// Appends the space before a token that begins with none of the signs that may have none.
    #[tactic(auto, unfolding(crate::specs::Output::with_token))]
    fn push_space(&mut self) -> Result<(), NoMemory>
        ensures exact { OnOk result (self.new ≡ record {
          text = self.old.text ++ spec.space_where (spec.wants_space self.old.after []);
          after = self.old.after;
        }) }
    {
        if wants_space(self.after, b"") {
            self.text.push(b' ')?;
        }
        Ok(())
    }

    /// Appends `@` and a name.
    #[tactic(auto, unfolding(crate::specs::Output::with_token))]
    pub fn push_at(&mut self, name: &[u8]) -> Result<(), NoMemory>
        ensures exact { OnOk result (self.new ≡ spec.with_scope self.old name.now) }
    {
        self.push_space()?;
        self.text.push(b'@')?;
        self.text.extend_from_slice(name)?;
        self.after = After::Other;
        Ok(())
    }

    /// Appends a text in quotes.
    #[tactic(auto, unfolding(crate::specs::Output::with_token, dg_types::specs::Texts::quoted, dg_lex::specs::Lexemes::quoted))]
    pub fn push_text(&mut self, text: &Text) -> Result<(), NoMemory>
        ensures exact { OnOk result (self.new
            ≡ spec.with_token self.old false (text_token text.now).spelling) }
    {
        self.push_space()?;
        push_quoted(&mut self.text, text.as_slice())?;
        self.after = After::Other;
        Ok(())
    }

    /// Appends an integer in decimal.
    pub fn push_integer(&mut self, n: i64) -> Result<(), NoMemory>
        ensures exact { OnOk result (self.new
            ≡ spec.with_token self.old false (integer_token n).spelling) }
    {
        let mut buffer = Buffer::new();
        self.push(buffer.format(n).as_bytes())
    }

    /// Appends the name of a type's constructor and `<`. `close`: the name stands right behind the
    /// token before it.
    pub fn push_constructor(&mut self, close: bool, name: &[u8]) -> Result<(), NoMemory>
        ensures exact { OnOk result (self.new ≡ spec.with_constructor self.old close name.now) }
    {
        self.push_token(close, name)?;
        self.push_token(true, b"<")
    }

    /// Appends a keyword and a name.
    pub fn push_keyword(&mut self, word: &[u8], name: &Name) -> Result<(), NoMemory>
        ensures exact { OnOk result (self.new
            ≡ spec.spelled self.old (keyword_tokens word.now name.now)) }
    {
        self.push(word)?;
        self.push(name.as_slice())
    }
}
