ghost use Rattle.std.specs.Prelude.{◌≡◌};
ghost use Rattle.model_lex.specs.believed.Codes.{diag_code, diag_text};

/// Why a model file is refused: a line, counted from 1, and the reason.
#[derive(Debug, Drop, Clone, Copy, PartialEq, Eq)]
pub struct Diag {
    /// The line of the fault.
    pub line: u32,
    /// The reason.
    pub code: DiagCode,
}

/// The reasons for which a model file is refused (this project's codes). Those from `M1` to `M18`
/// are of its lines, parameters and groups, those from `C1` to `C14` of its constraints.
#[derive(Debug, Drop, Clone, Copy, PartialEq, Eq)]
pub enum DiagCode {
    /// `M1`: not UTF-8.
    NotText,
    /// `M2`: parameter after a group.
    LateParameter,
    /// `M3`: no colon.
    NoColon,
    /// `M4`: empty parameter name.
    EmptyParameterName,
    /// `M5`: parameter name not allowed.
    BadParameterName,
    /// `M6`: repeated parameter name.
    RepeatedParameter,
    /// `M7`: empty value name.
    EmptyValueName,
    /// `M8`: value name not allowed.
    BadValueName,
    /// `M9`: weight out of range.
    BadWeight,
    /// `M10`: unknown parameter in angle brackets.
    UnknownReference,
    /// `M11`: braces missing.
    GroupNotClosed,
    /// `M12`: unknown parameter in a group.
    UnknownMember,
    /// `M13`: repeated parameter in a group.
    RepeatedMember,
    /// `M14`: group order out of range.
    BadGroupOrder,
    /// `M15`: text after a group.
    TextAfterGroup,
    /// `M16`: relation without a strength.
    RelationNoOrder,
    /// `M17`: no parameters.
    NoParameters,
    /// `M18`: order above the number of parameters.
    OrderTooLarge,
    /// `C1`: character not allowed here.
    StrayCharacter,
    /// `C2`: name not closed.
    NameNotClosed,
    /// `C3`: text not closed.
    TextNotClosed,
    /// `C4`: not a number.
    BadNumber,
    /// `C5`: number too wide.
    NumberTooWide,
    /// `C6`: unknown word.
    UnknownWord,
    /// `C7`: predicate expected.
    PredicateExpected,
    /// `C8`: relation expected.
    RelationExpected,
    /// `C9`: value expected.
    OperandExpected,
    /// `C10`: mark or keyword expected.
    MarkExpected,
    /// `C11`: nested too deeply.
    TooDeep,
    /// `C12`: unknown parameter.
    UnknownParameter,
    /// `C13`: types differ.
    TypeMismatch,
    /// `C14`: LIKE needs a text parameter.
    LikeNeedsText,
}

impl DiagCode {
    /// The code, as `M1` or `C14`. Takes no memory.
    pub fn code(&self) -> &'static str
        ensures { result.now ≡ diag_code self.now }
    {
        match self {
            DiagCode::NotText => "M1",
            DiagCode::LateParameter => "M2",
            DiagCode::NoColon => "M3",
            DiagCode::EmptyParameterName => "M4",
            DiagCode::BadParameterName => "M5",
            DiagCode::RepeatedParameter => "M6",
            DiagCode::EmptyValueName => "M7",
            DiagCode::BadValueName => "M8",
            DiagCode::BadWeight => "M9",
            DiagCode::UnknownReference => "M10",
            DiagCode::GroupNotClosed => "M11",
            DiagCode::UnknownMember => "M12",
            DiagCode::RepeatedMember => "M13",
            DiagCode::BadGroupOrder => "M14",
            DiagCode::TextAfterGroup => "M15",
            DiagCode::RelationNoOrder => "M16",
            DiagCode::NoParameters => "M17",
            DiagCode::OrderTooLarge => "M18",
            DiagCode::StrayCharacter => "C1",
            DiagCode::NameNotClosed => "C2",
            DiagCode::TextNotClosed => "C3",
            DiagCode::BadNumber => "C4",
            DiagCode::NumberTooWide => "C5",
            DiagCode::UnknownWord => "C6",
            DiagCode::PredicateExpected => "C7",
            DiagCode::RelationExpected => "C8",
            DiagCode::OperandExpected => "C9",
            DiagCode::MarkExpected => "C10",
            DiagCode::TooDeep => "C11",
            DiagCode::UnknownParameter => "C12",
            DiagCode::TypeMismatch => "C13",
            DiagCode::LikeNeedsText => "C14",
        }
    }

    /// What is wrong, in a few words. Takes no memory.
    pub fn text(&self) -> &'static str
        ensures { result.now ≡ diag_text self.now }
    {
        match self {
            DiagCode::NotText => "not UTF-8",
            DiagCode::LateParameter => "parameter after a group",
            DiagCode::NoColon => "no colon",
            DiagCode::EmptyParameterName => "empty parameter name",
            DiagCode::BadParameterName => "parameter name not allowed",
            DiagCode::RepeatedParameter => "repeated parameter name",
            DiagCode::EmptyValueName => "empty value name",
            DiagCode::BadValueName => "value name not allowed",
            DiagCode::BadWeight => "weight out of range",
            DiagCode::UnknownReference => "unknown parameter in angle brackets",
            DiagCode::GroupNotClosed => "braces missing",
            DiagCode::UnknownMember => "unknown parameter in a group",
            DiagCode::RepeatedMember => "repeated parameter in a group",
            DiagCode::BadGroupOrder => "group order out of range",
            DiagCode::TextAfterGroup => "text after a group",
            DiagCode::RelationNoOrder => "relation without a strength",
            DiagCode::NoParameters => "no parameters",
            DiagCode::OrderTooLarge => "order above the number of parameters",
            DiagCode::StrayCharacter => "character not allowed here",
            DiagCode::NameNotClosed => "name not closed",
            DiagCode::TextNotClosed => "text not closed",
            DiagCode::BadNumber => "not a number",
            DiagCode::NumberTooWide => "number too wide",
            DiagCode::UnknownWord => "unknown word",
            DiagCode::PredicateExpected => "predicate expected",
            DiagCode::RelationExpected => "relation expected",
            DiagCode::OperandExpected => "value expected",
            DiagCode::MarkExpected => "mark or keyword expected",
            DiagCode::TooDeep => "nested too deeply",
            DiagCode::UnknownParameter => "unknown parameter",
            DiagCode::TypeMismatch => "types differ",
            DiagCode::LikeNeedsText => "LIKE needs a text parameter",
        }
    }
}
