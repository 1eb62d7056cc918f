//! The deserializer, and its reads of single events.

ghost use Rattle.std.specs.Prelude.{◌≡◌, ◌≤◌, ◌≤ℤ◌, pos, negsuc, IfOk, IfSome, Err};
ghost use Rattle.yaml_read.specs.declared.error.DeError.TheVariants.{Unsupported};
ghost use Rattle.yaml_read.specs.Source as spec;
ghost use Rattle.yaml_read.specs.Scalar as scalar;
ghost use Rattle.yaml_read.specs.Collections as collections;
ghost use Rattle.yaml_read.specs.Whole as whole;
ghost use Rattle.yaml_read.specs.Answers.{source_of, ReadGives, IsRefusal, ReadTakes};

use crate::error::DeError;
use std::alloc::Global;
use warg_values::Text;
use yaml_small::{Event, Marker, Parser, Style};

/// Reads typed values from the events of one YAML document.
///
/// After a refusal the events taken so far stay taken, and no others.
#[derive(Debug, Drop)]
pub struct YamlDeserializer<'de> {
    parser: Parser<'de>,
    left: u64,
    /// The place of the event that was taken last.
    last: Marker,
}

impl<'de> YamlDeserializer<'de> {
    /// A deserializer of a text, behind the starts of the stream and of its document.
    ///
    /// `Scan` where no document of a carried form begins; no other refusal but `Memory`.
    #[tactic(auto, unfolding(crate::specs::Whole::opened_at))]
    pub fn from_str(alloc: Global, text: &'de str) -> Result<Self, DeError>
        ensures { ReadGives source_of result (spec.why (whole.opened_at text.now)) }
    {
        let mut de = YamlDeserializer {
            parser: Parser::new(alloc, text),
            left: u64::MAX,
            last: Marker::START,
        };
        let _ = de.pull(alloc)?;
        let (event, _) = de.front(alloc)?;
        if is_document_start(&event) {
            let _ = de.pull(alloc)?;
        }
        Ok(de)
    }

    /// Takes the ends of the document and of the stream: the text was read to its end.
    ///
    /// Another event is `NotEnded`, and `Scan` says that no document of a carried form goes on.
    #[tactic(auto, unfolding(crate::specs::Whole::closed_at))]
    pub fn finish(&mut self, alloc: Global) -> Result<(), DeError>
        ensures { ReadTakes (λ read. (read, source_of self.new)) (source_of self.new) result
            (whole.closed_at (source_of self.old)) }
    {
        let (event, _) = self.front(alloc)?;
        if is_document_end(&event) {
            let _ = self.pull(alloc)?;
        }
        self.stream_end(alloc)
    }

    /// Takes the end of the stream.
    #[tactic(auto, unfolding(crate::specs::Whole::stream_end_at))]
    fn stream_end(&mut self, alloc: Global) -> Result<(), DeError>
        ensures { ReadTakes (λ read. (read, source_of self.new)) (source_of self.new) result
            (whole.stream_end_at (source_of self.old)) }
    {
        let (event, mark) = self.front(alloc)?;
        if !is_stream_end(&event) {
            return Err(DeError::NotEnded(mark));
        }
        let _ = self.pull(alloc)?;
        Ok(())
    }

    /// Takes the next event.
    #[tactic(auto, unfolding(crate::specs::Source::pull))]
    pub(crate) fn pull(&mut self, alloc: Global) -> Result<(Event, Marker), DeError>
        ensures { ReadTakes (λ emitted. (emitted.0, source_of self.new)) (source_of self.new) result
            (spec.pull (source_of self.old)) }
    {
        if self.left == 0 {
            return Err(DeError::Memory);
        }
        let emitted = self.parser.next_token(alloc)?;
        self.left -= 1;
        self.last = emitted.1;
        Ok(emitted)
    }

    /// The next event, which stays.
    #[tactic(auto, unfolding(crate::specs::Source::pull, crate::specs::Source::front))]
    pub(crate) fn front(&self, alloc: Global) -> Result<(Event, Marker), DeError>
        ensures { ReadTakes (λ emitted. emitted.0) (source_of self.now) result (spec.front (source_of self.now)) }
    {
        if self.left == 0 {
            return Err(DeError::Memory);
        }
        let emitted = self.parser.peek(alloc)?;
        Ok(emitted)
    }

    /// The place of the event that was taken last; after a refused read, of the last that it took.
    pub fn place(&self) -> Marker {
        self.last
    }

    /// How many events may still be taken.
    pub(crate) fn left(&self) -> u64
        ensures { result ≡ (source_of self.now).left }
    {
        self.left
    }

    /// The text of a plain scalar.
    #[tactic(auto, unfolding(crate::specs::Scalar::plain_at, crate::specs::Source::taken))]
    fn plain(&mut self, alloc: Global, expected: &str) -> Result<(Text, Marker), DeError>
        ensures { ReadTakes (λ read. (read.0, source_of self.new)) (source_of self.new) result
            (scalar.plain_at (source_of self.old)) }
    {
        let (event, mark) = self.pull(alloc)?;
        match event {
            Event::Scalar(text, Style::Plain) => Ok((text, mark)),
            event => Err(wrong_event(alloc, expected, event, mark)),
        }
    }

    /// The plain scalar `true` or `false`.
    ///
    /// Another text is `UnexpectedScalar`, another event or style `UnexpectedEvent`.
    pub fn read_bool(&mut self, alloc: Global) -> Result<bool, DeError>
        ensures { ReadTakes (λ read. (read, source_of self.new)) (source_of self.new) result
            (scalar.bool_at (source_of self.old)) }
    {
        let (text, mark) = self.plain(alloc, "a plain scalar")?;
        match text.as_str() {
            "true" => Ok(true),
            "false" => Ok(false),
            _ => Err(wrong_scalar(alloc, "`true` or `false`", text, mark)),
        }
    }

    /// A plain scalar of one byte, which is a character of ASCII.
    ///
    /// Another text is `UnexpectedScalar`, another event or style `UnexpectedEvent`.
    pub fn read_char(&mut self, alloc: Global) -> Result<char, DeError>
        ensures { ReadTakes (λ read. (read, source_of self.new)) (source_of self.new) result
            (scalar.char_at (source_of self.old)) }
    {
        let (text, mark) = self.plain(alloc, "a plain scalar")?;
        let bytes = text.as_str().as_bytes();
        if bytes.len() == 1 {
            Ok(char::from(bytes[0]))
        } else {
            Err(wrong_scalar(alloc, "one character of ASCII", text, mark))
        }
    }

    /// A plain scalar that is a number up to a limit: digits behind an optional plus.
    fn unsigned(&mut self, alloc: Global, most: u64) -> Result<u64, DeError>
        ensures read { ReadTakes (λ read. (read, source_of self.new)) (source_of self.new) result
            (scalar.unsigned_at most (source_of self.old)) }
        ensures within { IfOk result (λ read. read ≤ most) }
    {
        let (text, _) = self.plain(alloc, "a plain number")?;
        match unsigned_number(text.as_str(), most) {
            Some(number) => Ok(number),
            None => Err(DeError::ParseNumber(text)),
        }
    }

    /// A plain scalar that is a number within limits: digits behind an optional sign.
    fn signed(&mut self, alloc: Global, least: i64, most: i64) -> Result<i64, DeError>
        ensures read { ReadTakes (λ read. (read, source_of self.new)) (source_of self.new) result
            (scalar.signed_at least most (source_of self.old)) }
        ensures above { IfOk result (λ read. least ≤ℤ read) }
        ensures within { IfOk result (λ read. read ≤ℤ most) }
    {
        let (text, _) = self.plain(alloc, "a plain number")?;
        match signed_number(text.as_str(), least, most) {
            Some(number) => Ok(number),
            None => Err(DeError::ParseNumber(text)),
        }
    }

    /// A plain scalar that is a number from 0 up to `u8::MAX`: digits behind an optional plus.
    ///
    /// Another text is `ParseNumber`, another event or style `UnexpectedEvent`.
    pub fn read_u8(&mut self, alloc: Global) -> Result<u8, DeError>
        ensures { ReadTakes (λ read. (read, source_of self.new)) (source_of self.new) result
            (scalar.unsigned_at 255 (source_of self.old)) }
    {
        Ok(self.unsigned(alloc, u64::from(u8::MAX))? as u8)
    }

    /// A plain scalar that is a number from 0 up to `u16::MAX`: digits behind an optional plus.
    ///
    /// Another text is `ParseNumber`, another event or style `UnexpectedEvent`.
    pub fn read_u16(&mut self, alloc: Global) -> Result<u16, DeError>
        ensures { ReadTakes (λ read. (read, source_of self.new)) (source_of self.new) result
            (scalar.unsigned_at 65535 (source_of self.old)) }
    {
        Ok(self.unsigned(alloc, u64::from(u16::MAX))? as u16)
    }

    /// A plain scalar that is a number from 0 up to `u32::MAX`: digits behind an optional plus.
    ///
    /// Another text is `ParseNumber`, another event or style `UnexpectedEvent`.
    pub fn read_u32(&mut self, alloc: Global) -> Result<u32, DeError>
        ensures { ReadTakes (λ read. (read, source_of self.new)) (source_of self.new) result
            (scalar.unsigned_at 4294967295 (source_of self.old)) }
    {
        Ok(self.unsigned(alloc, u64::from(u32::MAX))? as u32)
    }

    /// A plain scalar that is a number from 0 up to `u64::MAX`: digits behind an optional plus.
    ///
    /// Another text is `ParseNumber`, another event or style `UnexpectedEvent`.
    pub fn read_u64(&mut self, alloc: Global) -> Result<u64, DeError>
        ensures { ReadTakes (λ read. (read, source_of self.new)) (source_of self.new) result
            (scalar.unsigned_at 18446744073709551615 (source_of self.old)) }
    {
        self.unsigned(alloc, u64::MAX)
    }

    /// A plain scalar that is a number from `i8::MIN` to `i8::MAX`: digits behind an optional sign.
    ///
    /// Another text is `ParseNumber`, another event or style `UnexpectedEvent`.
    pub fn read_i8(&mut self, alloc: Global) -> Result<i8, DeError>
        ensures { ReadTakes (λ read. (read, source_of self.new)) (source_of self.new) result
            (scalar.signed_at (negsuc 127) (pos 127) (source_of self.old)) }
    {
        Ok(self.signed(alloc, i64::from(i8::MIN), i64::from(i8::MAX))? as i8)
    }

    /// A plain scalar that is a number from `i16::MIN` to `i16::MAX`: digits behind an optional sign.
    ///
    /// Another text is `ParseNumber`, another event or style `UnexpectedEvent`.
    pub fn read_i16(&mut self, alloc: Global) -> Result<i16, DeError>
        ensures { ReadTakes (λ read. (read, source_of self.new)) (source_of self.new) result
            (scalar.signed_at (negsuc 32767) (pos 32767) (source_of self.old)) }
    {
        Ok(self.signed(alloc, i64::from(i16::MIN), i64::from(i16::MAX))? as i16)
    }

    /// A plain scalar that is a number from `i32::MIN` to `i32::MAX`: digits behind an optional sign.
    ///
    /// Another text is `ParseNumber`, another event or style `UnexpectedEvent`.
    pub fn read_i32(&mut self, alloc: Global) -> Result<i32, DeError>
        ensures { ReadTakes (λ read. (read, source_of self.new)) (source_of self.new) result
            (scalar.signed_at (negsuc 2147483647) (pos 2147483647) (source_of self.old)) }
    {
        Ok(self.signed(alloc, i64::from(i32::MIN), i64::from(i32::MAX))? as i32)
    }

    /// A plain scalar that is a number from `i64::MIN` to `i64::MAX`: digits behind an optional sign.
    ///
    /// Another text is `ParseNumber`, another event or style `UnexpectedEvent`.
    pub fn read_i64(&mut self, alloc: Global) -> Result<i64, DeError>
        ensures { ReadTakes (λ read. (read, source_of self.new)) (source_of self.new) result
            (scalar.signed_at (negsuc 9223372036854775807) (pos 9223372036854775807) (source_of self.old)) }
    {
        self.signed(alloc, i64::MIN, i64::MAX)
    }

    /// A scalar's text, in any style, and its place.
    ///
    /// Another event is `UnexpectedEvent`.
    #[tactic(auto, unfolding(crate::specs::Scalar::any_at, crate::specs::Source::taken))]
    pub fn read_scalar(&mut self, alloc: Global) -> Result<(Text, Marker), DeError>
        ensures { ReadTakes (λ read. (read.0, source_of self.new)) (source_of self.new) result
            (scalar.any_at (source_of self.old)) }
    {
        let (event, mark) = self.pull(alloc)?;
        match event {
            Event::Scalar(text, _) => Ok((text, mark)),
            event => Err(wrong_event(alloc, "a scalar", event, mark)),
        }
    }

    /// A scalar's text, in any style.
    ///
    /// Another event is `UnexpectedEvent`.
    pub fn read_text(&mut self, alloc: Global) -> Result<Text, DeError>
        ensures { ReadTakes (λ read. (read, source_of self.new)) (source_of self.new) result
            (scalar.any_at (source_of self.old)) }
    {
        let (text, _) = self.read_scalar(alloc)?;
        Ok(text)
    }

    /// Nothing: `null` or `~` in any style, or the end of an empty document.
    #[tactic(auto, unfolding(crate::specs::Source::taken))]
    pub fn read_unit(&mut self, alloc: Global) -> Result<(), DeError>
        ensures { ReadTakes (λ read. (read, source_of self.new)) (source_of self.new) result
            (scalar.unit_at (source_of self.old)) }
    {
        let (event, mark) = self.pull(alloc)?;
        match event {
            Event::Scalar(text, _) if is_null(text.as_str()) => Ok(()),
            Event::Scalar(text, _) => Err(wrong_scalar(alloc, "`null` or `~`", text, mark)),
            Event::StreamEnd => Ok(()),
            event => Err(wrong_event(alloc, "`null` or `~`", event, mark)),
        }
    }

    /// A text is never lent: always `Unsupported`. It takes no event and no memory.
    pub fn read_str(&mut self) -> Result<&'de str, DeError>
        ensures unsupported { result ≡ Err Unsupported }
        ensures same { source_of self.new ≡ source_of self.old }
    {
        Err(DeError::Unsupported)
    }

    /// Bytes are never lent: always `Unsupported`. It takes no event and no memory.
    pub fn read_bytes(&mut self) -> Result<&'de [u8], DeError>
        ensures unsupported { result ≡ Err Unsupported }
        ensures same { source_of self.new ≡ source_of self.old }
    {
        Err(DeError::Unsupported)
    }

    /// Bytes are no value of YAML here: always `Unsupported`. It takes no event and no memory.
    pub fn read_byte_buf(&mut self) -> Result<Vec<u8>, DeError>
        ensures unsupported { result ≡ Err Unsupported }
        ensures same { source_of self.new ≡ source_of self.old }
    {
        Err(DeError::Unsupported)
    }
}

/// Whether an event is the document's start.
fn is_document_start(event: &Event) -> bool
    ensures { result ≡ whole.is_document_start event.now }
{
    match event {
        Event::DocumentStart => true,
        _ => false,
    }
}

/// Whether an event is the document's end.
fn is_document_end(event: &Event) -> bool
    ensures { result ≡ whole.is_document_end event.now }
{
    match event {
        Event::DocumentEnd => true,
        _ => false,
    }
}

/// Whether an event is the stream's end.
pub fn is_stream_end(event: &Event) -> bool
    ensures { result ≡ collections.is_stream_end event.now }
{
    match event {
        Event::StreamEnd => true,
        _ => false,
    }
}

/// The number up to a limit that digits write behind an optional plus.
fn unsigned_number(text: &str, most: u64) -> Option<u64>
    ensures number { result ≡ scalar.unsigned_number most text.now }
    ensures within { IfSome result (λ number. number ≤ most) }
{
    match text.parse::<u64>() {
        Ok(number) if number <= most => Some(number),
        _ => None,
    }
}

/// The number within limits that digits write behind an optional sign.
fn signed_number(text: &str, least: i64, most: i64) -> Option<i64>
    ensures number { result ≡ scalar.signed_number least most text.now }
    ensures above { IfSome result (λ number. least ≤ℤ number) }
    ensures within { IfSome result (λ number. number ≤ℤ most) }
{
    match text.parse::<i64>() {
        Ok(number) if least <= number && number <= most => Some(number),
        _ => None,
    }
}

/// Whether a text is `null` or `~`.
pub fn is_null(text: &str) -> bool
    ensures { result ≡ scalar.is_null text.now }
{
    text == "null" || text == "~"
}

/// The error at an event that a read does not take.
pub fn wrong_event(alloc: Global, expected: &str, event: Event, mark: Marker) -> DeError
    ensures { IsRefusal result (spec.WrongEvent event) }
{
    match Text::copy_of(alloc, expected) {
        Ok(expected) => DeError::UnexpectedEvent(expected, event, mark),
        Err(error) => DeError::from(error),
    }
}

/// The error at a scalar whose text a read does not take.
pub fn wrong_scalar(alloc: Global, expected: &str, text: Text, mark: Marker) -> DeError
    ensures { IsRefusal result (spec.WrongScalar text) }
{
    match Text::copy_of(alloc, expected) {
        Ok(expected) => DeError::UnexpectedScalar(expected, text, mark),
        Err(error) => DeError::from(error),
    }
}
