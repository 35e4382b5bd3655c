//! What is proved of the definitions together. A function here does nothing: its contract is a law
//! that holds of every model, and is proved with the crate.

ghost use Rattle.definitions.specs.Laws.{AcceptedAreCertified, CompletionsAreRows, ExtendableContains, GrowthCovers, ProofsHaveOneText, ProofsReadBack, RefutedAreUnserved};
ghost use Rattle.definitions.specs.Laws.{ReportsAreRead, ReportsReadBack, ServableAreExtendable, SlicesServe, SuitesAreRead, SuitesCover, SuitesHaveFewRows};
ghost use Rattle.definitions.specs.SuiteLaws.{SuiteProofsAreAccepted, SuiteProofsAreOfModels, SuiteProofsList, SuiteProofsReadBack, SuiteProofsRefute, SuitesServeOrRefute};

/// A report holds its rows: the text that is written of any number of rows of a sound model has
/// these rows in their order, and no note (this project's rule).
pub fn reports_read_back()
    ensures { ReportsReadBack }
{}

/// A report is read as a suite: where its rows are at most 2^20, the reading of its text as a row file
/// in the mode of suites isn't refused, and gives these rows in their order, numbered by line from 2,
/// without a note (this project's rule).
pub fn reports_are_read()
    ensures { ReportsAreRead }
{}

/// Reading a suite gives the rows that its bytes hold: where the reading of a row file as a suite
/// finds no fault, its rows are those of the file's lines, in their order (this project's rule).
pub fn suites_are_read()
    ensures { SuitesAreRead }
{}

/// The completions of a partial row are the rows that contain it and give each parameter one of its
/// listed values, and no others (this project's rule).
pub fn completions_are_rows()
    ensures { CompletionsAreRows }
{}

/// What an extendable partial row contains is extendable: a row that meets every constraint and
/// contains the one contains the other (this project's rule).
pub fn extendable_contains()
    ensures { ExtendableContains }
{}

/// No row serves a tuple of a proof: if each token list of a proof is a tree that refutes its tuple
/// after the tuples before it, no row serves any of these tuples, whichever format the proof has
/// (this project's rule).
pub fn refuted_are_unserved()
    ensures { RefutedAreUnserved }
{}

/// An accepted report covers what can be covered: if the verdict on a report's rows and a proof's
/// bytes accepts them, every row is valid, and each demanded tuple is served by one of the rows, or
/// is listed in the proof, and then no row serves it (this project's rule).
pub fn accepted_are_certified()
    ensures { AcceptedAreCertified }
{}

/// Rows serve by slices: a row serves a tuple with at most one negative value exactly if it has values
/// of the tuple's slice, contains the tuple, and meets every constraint (this project's rule).
pub fn slices_serve()
    ensures { SlicesServe }
{}

/// What can be served is extendable: some row serves a tuple with at most one negative value exactly
/// if the tuple is extendable in its slice (this project's rule).
pub fn servable_are_extendable()
    ensures { ServableAreExtendable }
{}

/// Growth covers what can be covered: every row of a suite is valid, and no two are the same; a
/// demanded tuple is omitted, and then once, exactly if no row of the model serves it, and else a row
/// of the suite serves it; each kept seed is in a row; and there are no more rows than demanded tuples
/// outside the omission list and kept seeds (Lei and others 2007 for growth; the law is this
/// project's).
pub fn growth_covers()
    ensures { GrowthCovers }
{}

/// Reading the text of a proof gives the proof: its format and its omissions, where their tuples and
/// trees are of a sound model. So different proofs have different texts (this project's rule).
pub fn proofs_read_back()
    ensures { ProofsReadBack }
{}

/// A proof has one text: bytes that are read as a proof are its text, and its omissions are of the
/// model and the format (this project's rule).
pub fn proofs_have_one_text()
    ensures { ProofsHaveOneText }
{}

/// The suite of growth covers: every row is valid, and every demanded tuple is served by one of the
/// rows, or no row of the model serves it (Lei and others 2007).
pub fn suites_cover()
    ensures { SuitesCover }
{}

/// The suite of growth is small: no two rows are the same, and there are no more of them than demanded
/// tuples that some row of the model serves and kept seeds (this project's rule).
pub fn suites_have_few_rows()
    ensures { SuitesHaveFewRows }
{}

/// The proof of a suite refutes: each token list of it refutes its tuple after the tuples before it
/// (this project's rule).
pub fn suite_proofs_refute()
    ensures { SuiteProofsRefute }
{}

/// The proof of a suite is of its model: neither a tuple nor a tree of it is empty, parameters rise, and
/// parameters, values and tokens are of the model and the format (this project's rule).
pub fn suite_proofs_are_of_models()
    ensures { SuiteProofsAreOfModels }
{}

/// The proof of a suite is read back: its bytes are read as its format and its omissions (this
/// project's rule).
pub fn suite_proofs_read_back()
    ensures { SuiteProofsReadBack }
{}

/// The proof of a suite lists what can't be served: its bytes are read as a proof that lists the
/// demanded tuples which no row serves, each once and no others, and whose token lists each refute
/// their tuple after the tuples before it (this project's rule).
pub fn suite_proofs_list()
    ensures { SuiteProofsList }
{}

/// A suite and its proof leave nothing open: each demanded tuple is served by a row of the suite, or no
/// row of the model serves it, and the proof refutes it (this project's rule).
pub fn suites_serve_or_refute()
    ensures { SuitesServeOrRefute }
{}

/// A suite is accepted with its proof: the verdict on its rows, on lines of any numbers, and on the
/// bytes of its proof accepts them, with the numbers of rows and of omissions (this project's rule).
pub fn suite_proofs_are_accepted()
    ensures { SuiteProofsAreAccepted }
{}
