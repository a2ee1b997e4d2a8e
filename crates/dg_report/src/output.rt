//! A text to which a reply is appended, and the objects that appeared before its end.

ghost use Rattle.std.specs.Prelude.{◌≡◌, ◌<◌, ◌≤◌, ◌^◌, ◌++◌, ◌∷◌, [], None, not, is_some, suc, true, decimal, length, IfOk, IfSome, OnErr, OnOk};
ghost use Rattle.std.specs.Fmt.{signed_decimal};
ghost use Rattle.dg_eval.specs.Report.{seen_at};
ghost use Rattle.dg_lex.specs.Bytes.{Bytes};
ghost use Rattle.dg_lex.specs.Lexemes.{quoted};
ghost use Rattle.dg_report.specs.Output as spec;
ghost use Rattle.dg_types.specs.Texts.{map_key_text};

use crate::numbers::Numbers;
use crate::packed::Packed;
use dg_types::{MapKeyVal, NoMemory, push_map_key_text, push_quoted};
use dg_value::Place;
use indexmap::IndexSet;
use itoa::Buffer;
use std::alloc::Global;
use std::marker::Model;

/// How many bytes of the value of a reply are written.
const MOST_BYTES: usize = 65_536;

/// A text, the objects that appeared before its end, and which of them appeared before the line of
/// which it is a part.
#[derive(Drop)]
pub(crate) struct Output {
    text: Vec<u8>,
    places: IndexSet<Packed>,
    /// How many objects appeared before the line.
    before: usize,
    /// To how many bytes the text comes at most, where it doesn't take all.
    limit: Option<usize>,
}

impl Model for Output {
    ghost use Rattle.std.specs.Prelude.{◌≤◌, length, take};
    ghost use Rattle.dg_report.specs.Output as output;

    ghost Value = { output.Output };

    ghost view = { λ o. record {
      text = o.text.items;
      seen = o.places.keys;
      before = take o.before o.places.keys;
      limit = o.limit;
    } };

    ghost invariant = { λ o. o.before ≤ length o.places.keys };
}

/// Adds an object that isn't among the others.
fn add_new(ident: Packed, places: &mut IndexSet<Packed>) -> Result<(), NoMemory>
    requires new { not (is_some (seen_at ident places.old.keys)) ≡ true }
    ensures exact { OnOk result (places.new.keys ≡ places.old.keys ++ ident ∷ []) }
    ensures kept { OnErr result (places.new.keys ≡ places.old.keys) }
{
    places.insert(ident)?;
    Ok(())
}

/// Takes away what goes beyond a limit behind the first so many bytes.
fn keep_within(limit: Option<usize>, start: usize, text: &mut Vec<u8>)
    ensures exact { (front t : Bytes) → start ≡ length front → text.old.items ≡ front ++ t
        → text.new.items ≡ spec.taken limit front t }
{
    if let Some(limit) = limit {
        text.truncate(limit.max(start));
    }
}

impl Output {
    /// No text, behind the objects that appeared.
    pub(crate) fn behind(alloc: Global, numbers: Numbers) -> Output
        ensures exact { result
            ≡ record { text = []; seen = numbers; before = numbers; limit = None } }
    {
        let Numbers { places } = numbers;
        let before = places.len();
        Output {
            text: Vec::new(alloc),
            places,
            before,
            limit: None,
        }
    }

    /// The text, and the objects that appeared.
    pub(crate) fn into_parts(self) -> (Vec<u8>, Numbers)
        ensures exact { (result.0.items ≡ self.text) × (result.1 ≡ self.seen) }
    {
        let Output {
            text,
            places,
            before: _,
            limit: _,
        } = self;
        (text, Numbers { places })
    }

    /// The objects that appeared before the line.
    pub(crate) fn into_numbers(self) -> Numbers
        ensures exact { result ≡ self.before }
    {
        let Output {
            text: _,
            mut places,
            before,
            limit: _,
        } = self;
        places.truncate(before);
        Numbers { places }
    }

    /// Appends these bytes.
    pub(crate) fn push(&mut self, bytes: &[u8]) -> Result<(), NoMemory>
        ensures exact { OnOk result (self.new ≡ spec.with_text self.old bytes.now) }
        ensures kept { self.new.before ≡ self.old.before }
    {
        let start = self.text.len();
        self.text.extend_from_slice(bytes)?;
        keep_within(self.limit, start, &mut self.text);
        Ok(())
    }

    /// Appends a text in quotes.
    pub(crate) fn push_quoted(&mut self, text: &[u8]) -> Result<(), NoMemory>
        ensures exact { OnOk result (self.new ≡ spec.with_text self.old (quoted text.now)) }
        ensures kept { self.new.before ≡ self.old.before }
    {
        let start = self.text.len();
        push_quoted(&mut self.text, text)?;
        keep_within(self.limit, start, &mut self.text);
        Ok(())
    }

    /// Appends the key of an entry of a map.
    pub(crate) fn push_key(&mut self, key: &MapKeyVal) -> Result<(), NoMemory>
        ensures exact { OnOk result (self.new ≡ spec.with_text self.old (map_key_text key.now)) }
        ensures kept { self.new.before ≡ self.old.before }
    {
        let start = self.text.len();
        push_map_key_text(&mut self.text, key)?;
        keep_within(self.limit, start, &mut self.text);
        Ok(())
    }

    /// Appends an integer in decimal.
    pub(crate) fn push_integer(&mut self, n: i64) -> Result<(), NoMemory>
        ensures exact { OnOk result (self.new ≡ spec.with_text self.old (signed_decimal n)) }
        ensures kept { self.new.before ≡ self.old.before }
    {
        let mut buffer = Buffer::new();
        self.push(buffer.format(n).as_bytes())
    }

    /// Appends a number in decimal.
    pub(crate) fn push_decimal(&mut self, n: usize) -> Result<(), NoMemory>
        ensures exact { OnOk result (self.new ≡ spec.with_text self.old (decimal n)) }
        ensures kept { self.new.before ≡ self.old.before }
    {
        let mut buffer = Buffer::new();
        self.push(buffer.format(n).as_bytes())
    }

    /// Appends a comma, unless the member behind it is the first.
    pub(crate) fn push_comma(&mut self, index: usize) -> Result<(), NoMemory>
        ensures exact { OnOk result (self.new ≡ spec.with_comma index self.old) }
        ensures kept { self.new.before ≡ self.old.before }
    {
        if index == 0 {
            return Ok(());
        }
        self.push(b",")
    }

    /// The place of an object among those that appeared.
    fn place_of(&self, ident: &Packed) -> Option<usize>
        ensures exact { result ≡ seen_at ident.now self.now.seen }
        ensures bound { IfSome result (λ place. place < 2 ^ 63) }
    {
        let count = self.places.len();
        self.places.get_index_of(ident)
    }

    /// Notes an object that didn't appear before, and gives its number.
    fn note(&mut self, ident: Packed) -> Result<usize, NoMemory>
        requires new { spec.is_new self.old ident ≡ true }
        ensures exact { OnOk result (self.new ≡ spec.noted self.old ident) }
        ensures number { IfOk result (λ number. number ≡ suc (length self.old.seen)) }
        ensures kept { self.new.before ≡ self.old.before }
    {
        add_new(ident, &mut self.places)?;
        Ok(self.places.len())
    }

    /// Appends the number of an object, and tells whether the object is new. One that is new gets
    /// the next number.
    #[tactic(auto, unfolding(crate::specs::Output::with_number))]
    fn push_packed(&mut self, ident: Packed) -> Result<bool, NoMemory>
        ensures exact { OnOk result (self.new ≡ spec.with_number self.old ident) }
        ensures is_new { IfOk result (λ new. new ≡ spec.is_new self.old ident) }
        ensures kept { self.new.before ≡ self.old.before }
    {
        match self.place_of(&ident) {
            Some(place) => {
                self.push_decimal(place + 1)?;
                Ok(false)
            }
            None => {
                let number = self.note(ident)?;
                self.push_decimal(number)?;
                Ok(true)
            }
        }
    }

    /// Appends the number of an object, and tells whether the object is new. One that is new gets
    /// the next number.
    pub(crate) fn push_number(&mut self, ident: &Place) -> Result<bool, NoMemory>
        ensures exact { OnOk result (self.new ≡ spec.with_number self.old ident.now) }
        ensures is_new { IfOk result (λ new. new ≡ spec.is_new self.old ident.now) }
        ensures kept { self.new.before ≡ self.old.before }
    {
        let packed = Packed::of(ident)?;
        self.push_packed(packed)
    }

    /// From here on takes only as many bytes as tell whether the value that follows is too long,
    /// and gives where it begins.
    pub(crate) fn begin_value(&mut self) -> usize
        ensures exact { self.new ≡ spec.limited self.old }
        ensures start { result ≡ length self.old.text }
    {
        let start = self.text.len();
        self.limit = Some(start + MOST_BYTES + 1);
        start
    }

    /// Cuts what stands behind the first so many bytes, where it is too long, and takes all again.
    #[tactic(auto, unfolding(crate::specs::Output::with_cut))]
    pub(crate) fn cut_behind(&mut self, start: usize) -> Result<(), NoMemory>
        requires within { start ≤ length self.old.text }
        ensures exact { OnOk result (self.new ≡ spec.with_cut start self.old) }
        ensures kept { self.new.before ≡ self.old.before }
    {
        self.limit = None;
        if self.text.len() - start > MOST_BYTES {
            self.text.truncate(start + MOST_BYTES);
            self.text.extend_from_slice(b"..")?;
        }
        Ok(())
    }
}
