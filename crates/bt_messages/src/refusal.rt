//! Why a request is refused.

/// Why a request is refused. Each has one code (`google.rpc.Code`) and one text.
#[derive(Clone, Copy, Debug, PartialEq, Eq)]
pub enum Refusal {
    /// The line is not UTF-8, is no JSON text (RFC 8259), or nests more than 127 deep.
    NotJson,
    /// The line is no object of `method`, a string, and `request`, an object, null or absent.
    BadEnvelope,
    /// The API has no method of the name in `method`.
    UnknownMethod,
    /// The method is one of the API, and is not served yet.
    NotBuilt,
    /// The name of the table, or of the instance that is to have it, is outside its grammar.
    BadName,
    /// There is no table of the name that the request gives.
    TableNotFound,
    /// CreateTable was asked for a table that is there already.
    TableExists,
    /// The row key is empty, or has more than 4,096 bytes.
    BadRowKey,
    /// The request has no entries.
    NoEntries,
    /// The request has no mutations.
    NoMutations,
    /// The request has more than 100,000 mutations.
    TooManyMutations,
    /// A mutation has none of the members that say what it does, such as `setCell`.
    MutationWithoutKind,
    /// A mutation names a family that the table does not have.
    FamilyNotFound,
    /// A column qualifier has more than 16,384 bytes.
    QualifierTooLong,
    /// A timestamp is neither -1 nor a whole number of milliseconds from 0 on.
    BadTimestamp,
    /// A value has more than 4,194,304 bytes.
    ValueTooLarge,
    /// The start or the end of a range of times is negative.
    BadTimeRange,
    /// The request has no rules (`google.bigtable.v2.ReadModifyWriteRowRequest.rules`).
    NoRules,
    /// The request has more than 100,000 rules.
    TooManyRules,
    /// A rule has neither `appendValue` nor `incrementAmount`.
    RuleWithoutKind,
    /// A value that a rule increments does not have eight bytes.
    NotEightBytes,
    /// A sum that a rule asks for is outside -2^63 to 2^63 - 1.
    IncrementOutOfRange,
    /// The name of a family to be made is not of 1 to 64 of the characters `-_.a-zA-Z0-9`.
    BadFamilyName,
    /// A collection rule has a number below 1, an age below a millisecond, a list without rules, a rule
    /// without kind, more than 32 rules, or more than 8 levels.
    BadGcRule,
    /// Changes are to be kept for a change stream for less than one day, or for more than seven.
    BadRetention,
    /// A page token was given; there is only one page.
    BadPageToken,
    /// The request has no modifications.
    NoModifications,
    /// A modification has none of `create`, `update` and `drop`.
    ModificationWithoutKind,
    /// A flag that can only be true was given as false.
    FlagNotTrue,
    /// A family is to be made that is there already.
    FamilyExists,
    /// The update mask is not the change stream's, which alone can be updated.
    BadUpdateMask,
    /// The request names no rows to be dropped.
    NoTarget,
    /// The filter is more than 20 deep.
    FilterTooDeep,
    /// The filter has more than 1,024 nodes.
    TooManyFilters,
    /// The patterns, bounds, family names and labels of the filter have more than 20,480 bytes.
    FilterTooLarge,
    /// The filter has more than 16 patterns that are not plain.
    TooManyPatterns,
    /// A sink stands below a condition.
    SinkUnderCondition,
    /// A label is not 1 to 15 characters of `[a-z0-9\-]`.
    BadLabel,
    /// Two parts of a chain of filters have a label in them.
    TwoLabels,
    /// A filter's number of cells is negative.
    NegativeCount,
    /// The limit of rows to be read is negative.
    NegativeRowsLimit,
    /// A filter's text is no pattern, or is one of family names and has a `:`.
    BadPattern,
    /// A filter's pattern is larger than those that are built.
    PatternTooLarge,
    /// The table would have more than 100 families.
    TooManyFamilies,
    /// The service would have more than 1,000 tables.
    TooManyTables,
    /// The change takes more than 1,073,741,824 bytes in the log, or no sequence is left for it.
    ChangeTooLarge,
    /// An allocation was refused while the request was handled.
    OutOfMemory,
    /// A call on the disk failed while the request was handled.
    DiskFailed,
    /// The line is longer than the service takes, and the rest of the connection is not read.
    LineTooLong,
    /// The connection is longer than the service takes; its whole lines were answered.
    ConnectionTooLong,
    /// The connection ended within this line, which was not executed.
    LineNotEnded,
}

// The line of a refusal with that code and text.
macro_rules! refused {
    ($code:literal, $text:literal) => {
        concat!("{\"status\":{\"code\":", $code, ",\"message\":\"", $text, "\"}}\n").as_bytes()
    };
}

impl Refusal {
    ghost use Rattle.std.specs.Prelude.{◌≡◌, true};
    ghost use Rattle.bt_messages.specs.Refusals.{is_about_rows, refusal_code, refusal_line, refusal_text};

    /// The one line of a refused request, with its line feed. It takes no memory.
    #[tactic(auto, using(crate::proofs::LineTexts::line_from), unfolding(crate::proofs::LineTexts::digits_on_literals))]
    pub fn line(self) -> &'static [u8]
        ensures { result.now ≡ refusal_line self }
    {
        match self {
            Refusal::NotJson => refused!(3, "not json"),
            Refusal::BadEnvelope => refused!(3, "bad envelope"),
            Refusal::UnknownMethod => refused!(12, "unknown method"),
            Refusal::NotBuilt => refused!(12, "not built"),
            Refusal::BadName => refused!(3, "bad name"),
            Refusal::TableNotFound => refused!(5, "table not found"),
            Refusal::TableExists => refused!(6, "table exists"),
            Refusal::BadFamilyName => refused!(3, "bad family name"),
            Refusal::BadGcRule => refused!(3, "bad gc rule"),
            Refusal::BadRetention => refused!(3, "bad retention"),
            Refusal::BadPageToken => refused!(3, "bad page token"),
            Refusal::NoModifications => refused!(3, "no modifications"),
            Refusal::ModificationWithoutKind => refused!(3, "modification without kind"),
            Refusal::FlagNotTrue => refused!(3, "flag not true"),
            Refusal::FamilyExists => refused!(6, "family exists"),
            Refusal::BadUpdateMask => refused!(3, "bad update mask"),
            Refusal::NoTarget => refused!(3, "no target"),
            Refusal::TooManyFamilies => refused!(9, "too many families"),
            Refusal::TooManyTables => refused!(9, "too many tables"),
            Refusal::ChangeTooLarge => refused!(9, "change too large"),
            Refusal::OutOfMemory => refused!(8, "out of memory"),
            Refusal::DiskFailed => refused!(14, "disk failed"),
            Refusal::LineTooLong => refused!(3, "line too long"),
            Refusal::ConnectionTooLong => refused!(3, "connection too long"),
            Refusal::LineNotEnded => refused!(3, "line not ended"),
            _ => self.line_about_rows(),
        }
    }

    #[tactic(auto, using(crate::proofs::LineTexts::line_from), unfolding(crate::proofs::LineTexts::digits_on_literals))]
    fn line_about_rows(self) -> &'static [u8]
        requires { is_about_rows self ≡ true }
        ensures { result.now ≡ refusal_line self }
    {
        match self {
            Refusal::BadRowKey => refused!(3, "bad row key"),
            Refusal::NoEntries => refused!(3, "no entries"),
            Refusal::NoMutations => refused!(3, "no mutations"),
            Refusal::TooManyMutations => refused!(3, "too many mutations"),
            Refusal::MutationWithoutKind => refused!(3, "mutation without kind"),
            Refusal::FamilyNotFound => refused!(5, "family not found"),
            Refusal::QualifierTooLong => refused!(3, "qualifier too long"),
            Refusal::BadTimestamp => refused!(3, "bad timestamp"),
            Refusal::ValueTooLarge => refused!(3, "value too large"),
            Refusal::BadTimeRange => refused!(3, "bad time range"),
            Refusal::NoRules => refused!(3, "no rules"),
            Refusal::TooManyRules => refused!(3, "too many rules"),
            Refusal::RuleWithoutKind => refused!(3, "rule without kind"),
            Refusal::NotEightBytes => refused!(9, "not eight bytes"),
            Refusal::IncrementOutOfRange => refused!(9, "increment out of range"),
            Refusal::FilterTooDeep => refused!(3, "filter too deep"),
            Refusal::TooManyFilters => refused!(3, "too many filters"),
            Refusal::FilterTooLarge => refused!(3, "filter too large"),
            Refusal::TooManyPatterns => refused!(3, "too many patterns"),
            Refusal::SinkUnderCondition => refused!(3, "sink under condition"),
            Refusal::BadLabel => refused!(3, "bad label"),
            Refusal::TwoLabels => refused!(3, "two labels in a chain"),
            Refusal::NegativeCount => refused!(3, "negative count"),
            Refusal::NegativeRowsLimit => refused!(3, "negative rowsLimit"),
            Refusal::BadPattern => refused!(3, "bad pattern"),
            Refusal::PatternTooLarge => refused!(3, "pattern too large"),
            _ => unreachable!(),
        }
    }

    /// Its code (`google.rpc.Code`).
    pub fn code(self) -> u8
        ensures { result ≡ refusal_code self }
    {
        match self {
            Refusal::TableNotFound | Refusal::FamilyNotFound => 5,
            Refusal::TableExists | Refusal::FamilyExists => 6,
            Refusal::OutOfMemory => 8,
            Refusal::NotEightBytes
            | Refusal::IncrementOutOfRange
            | Refusal::TooManyFamilies
            | Refusal::TooManyTables
            | Refusal::ChangeTooLarge => 9,
            Refusal::UnknownMethod | Refusal::NotBuilt => 12,
            Refusal::DiskFailed => 14,
            _ => 3,
        }
    }

    /// Its text.
    pub fn text(self) -> &'static str
        ensures { result.now ≡ refusal_text self }
    {
        match self {
            Refusal::NotJson => "not json",
            Refusal::BadEnvelope => "bad envelope",
            Refusal::UnknownMethod => "unknown method",
            Refusal::NotBuilt => "not built",
            Refusal::BadName => "bad name",
            Refusal::TableNotFound => "table not found",
            Refusal::TableExists => "table exists",
            Refusal::BadFamilyName => "bad family name",
            Refusal::BadGcRule => "bad gc rule",
            Refusal::BadRetention => "bad retention",
            Refusal::BadPageToken => "bad page token",
            Refusal::NoModifications => "no modifications",
            Refusal::ModificationWithoutKind => "modification without kind",
            Refusal::FlagNotTrue => "flag not true",
            Refusal::FamilyExists => "family exists",
            Refusal::BadUpdateMask => "bad update mask",
            Refusal::NoTarget => "no target",
            Refusal::TooManyFamilies => "too many families",
            Refusal::TooManyTables => "too many tables",
            Refusal::ChangeTooLarge => "change too large",
            Refusal::OutOfMemory => "out of memory",
            Refusal::DiskFailed => "disk failed",
            Refusal::LineTooLong => "line too long",
            Refusal::ConnectionTooLong => "connection too long",
            Refusal::LineNotEnded => "line not ended",
            _ => self.text_about_rows(),
        }
    }

    fn text_about_rows(self) -> &'static str
        requires { is_about_rows self ≡ true }
        ensures { result.now ≡ refusal_text self }
    {
        match self {
            Refusal::BadRowKey => "bad row key",
            Refusal::NoEntries => "no entries",
            Refusal::NoMutations => "no mutations",
            Refusal::TooManyMutations => "too many mutations",
            Refusal::MutationWithoutKind => "mutation without kind",
            Refusal::FamilyNotFound => "family not found",
            Refusal::QualifierTooLong => "qualifier too long",
            Refusal::BadTimestamp => "bad timestamp",
            Refusal::ValueTooLarge => "value too large",
            Refusal::BadTimeRange => "bad time range",
            Refusal::NoRules => "no rules",
            Refusal::TooManyRules => "too many rules",
            Refusal::RuleWithoutKind => "rule without kind",
            Refusal::NotEightBytes => "not eight bytes",
            Refusal::IncrementOutOfRange => "increment out of range",
            Refusal::FilterTooDeep => "filter too deep",
            Refusal::TooManyFilters => "too many filters",
            Refusal::FilterTooLarge => "filter too large",
            Refusal::TooManyPatterns => "too many patterns",
            Refusal::SinkUnderCondition => "sink under condition",
            Refusal::BadLabel => "bad label",
            Refusal::TwoLabels => "two labels in a chain",
            Refusal::NegativeCount => "negative count",
            Refusal::NegativeRowsLimit => "negative rowsLimit",
            Refusal::BadPattern => "bad pattern",
            Refusal::PatternTooLarge => "pattern too large",
            _ => unreachable!(),
        }
    }
}
