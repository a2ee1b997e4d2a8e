//! How far a token reaches.

ghost use Rattle.std.specs.Prelude.{◌≡◌, ◌<◌, ◌≤◌, length, false};
ghost use Rattle.std.specs.List.{prefix_len};
ghost use Rattle.dg_lex.specs.Bytes as bytes;
ghost use Rattle.dg_lex.specs.Tokens as spec;

/// Whether a name may go on with this byte.
pub fn is_word_byte(b: u8) -> bool
    ensures exact { result ≡ bytes.is_word_byte b }
{
    b.is_ascii_alphanumeric() || b == b'_'
}

/// How many letters, digits and `_` stand at the front.
fn run(z: &[u8]) -> usize
    ensures exact { result ≡ prefix_len bytes.is_word_byte z.now }
    ensures bound { result ≤ length z.now }
{
    let mut end = 0;
    while end < z.len() && is_word_byte(z[end]) {
        end += 1;
    }
    end
}

/// The bytes up to and with the closing quote, or all where none closes.
fn quoted_len(z: &[u8]) -> usize
    ensures exact { result ≡ spec.quoted_len false z.now }
    ensures bound { result ≤ length z.now }
{
    let mut end = 0;
    let mut escaped = false;
    while end < z.len() {
        let b = z[end];
        end += 1;
        if !escaped && b == b'"' {
            return end;
        }
        escaped = !escaped && b == b'\\';
    }
    end
}

/// How many bytes the token at the front takes, where one begins there.
#[tactic(auto, unfolding(crate::specs::Tokens::extent))]
pub fn extent(z: &[u8]) -> usize
    ensures exact { result ≡ spec.extent z.now }
    ensures bound { result ≤ length z.now }
    ensures some { 0 < length z.now → 0 < result }
{
    let [b, rest @ ..] = z else {
        return 0;
    };
    if is_word_byte(*b) || *b == b'@' || *b == b'-' {
        1 + run(rest)
    } else if *b == b'"' {
        1 + quoted_len(rest)
    } else if *b == b'=' && rest.first() == Some(&b'=') {
        2
    } else {
        1
    }
}
