//! Where the bytes of a text are in its fields.

ghost use Rattle.std.specs.Prelude.{◌≡◌};
ghost use Rattle.cvss_csv.specs.Fields.{after_unquoted, is_end, next};
ghost use Rattle.cvss_csv.specs.Records.{is_quoted};

/// The byte around a quoted field.
pub(crate) const QUOTE: u8 = b'"';

/// The byte between two fields.
pub(crate) const COMMA: u8 = b',';

/// The byte that ends a record outside quotes.
pub(crate) const LINE_FEED: u8 = b'\n';

/// Where a byte is in a field of a text.
#[derive(Clone, Copy, Drop)]
pub(crate) enum State {
    /// It is the first byte of a field.
    Start,
    /// It is outside quotes, and not the first.
    Plain,
    /// It is between the quotes of a field.
    Quoted,
    /// It follows a quote between these, which closes the field unless this byte is a quote too.
    Closing,
}

impl State {
    /// The state after this byte.
    #[inline(always)]
    pub(crate) fn next(self, byte: u8) -> State
        ensures { result ≡ next self byte }
    {
        match (self, byte) {
            (State::Start | State::Closing, QUOTE) => State::Quoted,
            (State::Quoted, QUOTE) => State::Closing,
            (State::Quoted, _) => State::Quoted,
            _ => State::after_unquoted(byte),
        }
    }

    /// The state after a byte that is outside quotes and is no quote.
    #[inline(always)]
    pub(crate) fn after_unquoted(byte: u8) -> State
        ensures { result ≡ after_unquoted byte }
    {
        match byte {
            COMMA | b'\n' => State::Start,
            _ => State::Plain,
        }
    }

    /// Whether a delimiter ends its piece in this state: this byte.
    #[inline(always)]
    pub(crate) fn is_end(self, delimiter: u8, byte: u8) -> bool
        ensures { result ≡ is_end delimiter self byte }
    {
        !self.is_quoted() && byte == delimiter
    }

    /// Whether a quoted field is not closed here.
    #[inline(always)]
    pub(crate) fn is_quoted(self) -> bool
        ensures { result ≡ is_quoted self }
    {
        matches!(self, State::Quoted)
    }
}
