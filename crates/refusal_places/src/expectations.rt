ghost use Rattle.std.specs.Prelude.{◌≡◌, true};
ghost use Rattle.refusal_places.specs.Told.{is_clean};

use model_lex::DiagCode;

/// What could have stood where a model file is refused by a code, in words that follow "expected".
/// Takes no memory.
pub fn expected(code: DiagCode) -> &'static str
    ensures { is_clean result.now ≡ true }
{
    match code {
        DiagCode::NotText => "text in UTF-8",
        DiagCode::LateParameter => "a group or a constraint, since parameters stand before groups",
        DiagCode::NoColon => "a colon behind the name of a parameter",
        DiagCode::EmptyParameterName => "the name of a parameter before the colon",
        DiagCode::BadParameterName => {
            "the name of a parameter without control characters and byte-order marks"
        }
        DiagCode::RepeatedParameter => "the name of a parameter that no earlier one has",
        DiagCode::EmptyValueName => "the name of a value",
        DiagCode::BadValueName => {
            "the name of a value without control characters, byte-order marks and a second mark of invalid values"
        }
        DiagCode::BadWeight => "a weight from 1 to 4294967295",
        DiagCode::UnknownReference => "the name of an earlier parameter between \"<\" and \">\"",
        DiagCode::GroupNotClosed => "parameters between \"{\" and \"}\"",
        DiagCode::UnknownMember => "the name of a parameter",
        DiagCode::RepeatedMember => "a parameter that isn't in the group yet",
        DiagCode::BadGroupOrder => "an order from 1 to the number of parameters in the group",
        DiagCode::TextAfterGroup => "the end of the line, or \"@\" and an order behind a sub-model",
        DiagCode::RelationNoOrder => "a strength in digits behind \"@\"",
        DiagCode::NoParameters => "a line that declares a parameter",
        DiagCode::OrderTooLarge => "as many parameters as are to be combined",
        DiagCode::StrayCharacter => {
            "a name in brackets, a text in quotes, a number, a keyword, a comparison or one of \"(){},;\""
        }
        DiagCode::NameNotClosed => "\"]\" at the end of the name",
        DiagCode::TextNotClosed => "a quote at the end of the text",
        DiagCode::BadNumber => "a number",
        DiagCode::NumberTooWide => "a number with fewer digits",
        DiagCode::UnknownWord => {
            "IF, THEN, ELSE, AND, OR, NOT, IN, LIKE, ISNEGATIVE, ISPOSITIVE or a text in quotes"
        }
        DiagCode::PredicateExpected => {
            "a condition (a parameter in brackets, NOT, ISNEGATIVE, ISPOSITIVE or \"(\")"
        }
        DiagCode::RelationExpected => "a comparison (=, <>, <, <=, >, >=, IN or LIKE)",
        DiagCode::OperandExpected => "a text in quotes, a number or a parameter in brackets",
        DiagCode::MarkExpected => {
            "THEN, ELSE, AND, OR, \";\", \")\", or \"{\", \",\" and \"}\" of a list"
        }
        DiagCode::TooDeep => "at most 64 of \"(\" and NOT inside one another",
        DiagCode::UnknownParameter => "the name of a parameter",
        DiagCode::TypeMismatch => "what is of the parameter's type",
        DiagCode::LikeNeedsText => "a parameter whose values are texts",
    }
}
