ghost use Rattle.constraint_ast.specs.Laws.{GrammarHasOneReading, LinesHaveOneReading, RuleTextIsOneLine, RuleTextOpens, RuleTextReadsBack};

/// Each list of tokens either spells one list of constraints, or is refused at one place with one
/// code, with room for any number of open `(` and NOTs.
pub fn grammar_has_one_reading()
    ensures { GrammarHasOneReading }
{}

/// Constraint lines either spell one list of constraints, or are refused at one line with one code.
pub fn lines_have_one_reading()
    ensures { LinesHaveOneReading }
{}

/// The line of a constraint of a model file, read as the only constraint line, spells that constraint
/// again: the same tree but for its lines (this project's rule).
pub fn rule_text_reads_back()
    ensures { RuleTextReadsBack }
{}

/// The line of a constraint of a model file is one line of a file: it holds no line feed, and no
/// carriage return at its end, which reading would leave out (this project's rule).
pub fn rule_text_is_one_line()
    ensures { RuleTextIsOneLine }
{}

/// The line of a constraint of a model file opens the constraints of a file: as its first line, it is
/// a constraint line (this project's rule).
pub fn rule_text_opens()
    ensures { RuleTextOpens }
{}
