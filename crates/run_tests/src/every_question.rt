//! Runs that answer every question, also where a question costs more than ten thousand nodes of plain search. The
//! rows are those of another program; that the tuples which no row serves are the omitted ones was found by brute force.

use std::alloc::{AllocError, Global};
use std::thread::Threads;
use test_runs::{Ended, Given, on_model, run};
use value_text::NoMemory;

// Twenty parameters that a constraint names, and of which each row but one is valid: plain search tries their
// values before those of the parameters behind them.
const BETWEEN: &str =
    "B: 0, 1\nC: 0, 1\nD: 0, 1\nE: 0, 1\nF: 0, 1\nG: 0, 1\nH: 0, 1\nI: 0, 1\nJ: 0, 1\nK: 0, 1\nL: 0, 1\n\
    M: 0, 1\nN: 0, 1\nO: 0, 1\nP: 0, 1\nQ: 0, 1\nR: 0, 1\nS: 0, 1\nT: 0, 1\nU: 0, 1\n";

const NOT_ALL: &str =
    "[B] = 0 OR [C] = 0 OR [D] = 0 OR [E] = 0 OR [F] = 0 OR [G] = 0 OR [H] = 0 OR [I] = 0 OR [J] = 0 OR \
    [K] = 0 OR [L] = 0 OR [M] = 0 OR [N] = 0 OR [O] = 0 OR [P] = 0 OR [Q] = 0 OR [R] = 0 OR [S] = 0 OR \
    [T] = 0 OR [U] = 0;\n";

// Two parameters that go with no row where A has its first value.
const TWIN: &str = "Y: 1, 2\nZ: 1, 2\nIF [A] = 1 THEN [Y] = [Z];\nIF [A] = 1 THEN [Y] <> [Z];\n";

// Two that go with none.
const NO_ROW: &str = "Y: 1, 2\nZ: 1, 2\n[Y] = [Z];\n[Y] <> [Z];\n";

// The proof with TWIN, without the trees: no pair with the first value of A is served.
const FIRST_OF_A: &str =
    "pict-proof 1\nomit 0=0 1=0\nomit 0=0 1=1\nomit 0=0 2=0\nomit 0=0 2=1\nomit 0=0 3=0\nomit 0=0 3=1\n\
    omit 0=0 4=0\nomit 0=0 4=1\nomit 0=0 5=0\nomit 0=0 5=1\nomit 0=0 6=0\nomit 0=0 6=1\nomit 0=0 7=0\n\
    omit 0=0 7=1\nomit 0=0 8=0\nomit 0=0 8=1\nomit 0=0 9=0\nomit 0=0 9=1\nomit 0=0 10=0\nomit 0=0 10=1\n\
    omit 0=0 11=0\nomit 0=0 11=1\nomit 0=0 12=0\nomit 0=0 12=1\nomit 0=0 13=0\nomit 0=0 13=1\n\
    omit 0=0 14=0\nomit 0=0 14=1\nomit 0=0 15=0\nomit 0=0 15=1\nomit 0=0 16=0\nomit 0=0 16=1\n\
    omit 0=0 17=0\nomit 0=0 17=1\nomit 0=0 18=0\nomit 0=0 18=1\nomit 0=0 19=0\nomit 0=0 19=1\n\
    omit 0=0 20=0\nomit 0=0 20=1\nomit 0=0 21=0\nomit 0=0 21=1\nomit 0=0 22=0\nomit 0=0 22=1\n";

// Four rows, of which two are invalid, and one that is incomplete.
const SUITE: &[u8] = b"A\tB\tC\tD\tE\tF\tG\tH\tI\tJ\tK\tL\tM\tN\tO\tP\tQ\tR\tS\tT\tU\tY\tZ\n\
    2\t0\t0\t0\t0\t0\t0\t0\t0\t0\t0\t0\t0\t0\t0\t0\t0\t0\t0\t0\t0\t1\t1\n\
    2\t1\t1\t1\t1\t1\t1\t1\t1\t1\t1\t1\t1\t1\t1\t1\t1\t1\t1\t1\t0\t2\t1\n\
    1\t0\t1\t0\t1\t0\t1\t0\t1\t0\t1\t0\t1\t0\t1\t0\t1\t0\t1\t0\t1\t1\t1\n\
    2\t1\t1\t1\t1\t1\t1\t1\t1\t1\t1\t1\t1\t1\t1\t1\t1\t1\t1\t1\t1\t1\t2\n2\t1\n";

// A run that answers every question.
struct Worked<'a> {
    // The words behind the program's name, without the budget.
    words: &'a [&'a str],
    // The lines of the model before BETWEEN, and those behind it but for NOT_ALL.
    first: &'a str,
    last: &'a str,
    // The row file t.
    rows: &'a [u8],
    // What standard output and standard error get.
    written: &'a str,
    told: &'a str,
    // The proof file without the trees; nothing where none is asked for.
    omitted: &'a str,
    // What standard error gets within a budget of ten thousand nodes.
    spent: &'a str,
}

const WORKED: &[Worked<'static>] = &[
    // With the first value of A the last two parameters have to be equal and not equal.
    Worked {
        words: &["m", "/proof:p"],
        first: "A: 1, 2\n",
        last: TWIN,
        rows: b"",
        written: "A\tB\tC\tD\tE\tF\tG\tH\tI\tJ\tK\tL\tM\tN\tO\tP\tQ\tR\tS\tT\tU\tY\tZ\n\
        2\t0\t0\t0\t0\t0\t0\t0\t0\t0\t0\t0\t0\t0\t0\t0\t0\t0\t0\t0\t0\t1\t1\n\
        2\t1\t1\t1\t1\t1\t1\t1\t1\t1\t1\t1\t1\t1\t1\t1\t1\t1\t1\t1\t0\t2\t2\n\
        2\t0\t1\t0\t1\t0\t1\t0\t1\t0\t1\t0\t1\t0\t1\t0\t1\t0\t1\t0\t1\t2\t1\n\
        2\t1\t0\t0\t0\t1\t0\t1\t0\t1\t0\t1\t0\t1\t0\t1\t0\t1\t0\t1\t1\t1\t2\n\
        2\t0\t0\t1\t0\t0\t1\t1\t0\t0\t1\t1\t0\t0\t1\t1\t0\t0\t1\t1\t1\t1\t1\n\
        2\t0\t0\t1\t1\t1\t0\t0\t1\t1\t0\t0\t1\t1\t0\t0\t1\t1\t0\t0\t0\t2\t2\n\
        2\t1\t1\t0\t0\t0\t0\t0\t0\t0\t0\t0\t1\t1\t1\t1\t0\t0\t0\t0\t0\t2\t2\n\
        2\t1\t1\t0\t0\t0\t0\t0\t1\t1\t1\t1\t0\t0\t0\t0\t1\t1\t1\t1\t0\t1\t1\n\
        2\t0\t0\t0\t1\t1\t1\t1\t0\t0\t0\t0\t0\t0\t0\t0\t0\t0\t0\t0\t0\t1\t1\n\
        2\t0\t0\t0\t0\t0\t0\t0\t0\t0\t0\t0\t0\t0\t0\t0\t1\t1\t1\t1\t0\t2\t2\n\
        2\t0\t0\t0\t0\t0\t0\t0\t1\t1\t1\t1\t1\t1\t0\t0\t0\t0\t0\t0\t0\t1\t1\n",
        told: "",
        omitted: FIRST_OF_A,
        spent: "error: search budget 10000 spent on 0=0 1=0\n",
    },
    // With the first value of A three parameters of two values have to differ.
    Worked {
        words: &["m", "/proofformat:2", "/proof:p"],
        first: "A: 1, 2, 3\n",
        last: "X: 1, 2\nY: 1, 2\nZ: 1, 2\nIF [A] < 3 THEN [X] <> [Y];\nIF [A] <> 2 THEN [Y] <> [Z];\n\
        IF [A] = 1 THEN [X] <> [Z];\nIF [B] = 1 THEN [A] > 1;\n",
        rows: b"",
        written: "A\tB\tC\tD\tE\tF\tG\tH\tI\tJ\tK\tL\tM\tN\tO\tP\tQ\tR\tS\tT\tU\tX\tY\tZ\n\
        2\t0\t0\t0\t0\t0\t0\t0\t0\t0\t0\t0\t0\t0\t0\t0\t0\t0\t0\t0\t0\t1\t2\t1\n\
        2\t1\t1\t1\t1\t1\t1\t1\t1\t1\t1\t1\t1\t1\t1\t1\t1\t1\t1\t1\t0\t2\t1\t2\n\
        3\t0\t1\t0\t1\t0\t1\t0\t1\t0\t1\t0\t1\t0\t1\t0\t1\t0\t1\t0\t1\t2\t1\t2\n\
        3\t1\t0\t1\t0\t1\t0\t1\t0\t1\t0\t1\t0\t1\t0\t1\t0\t1\t0\t1\t1\t1\t2\t1\n\
        2\t0\t0\t1\t1\t0\t0\t1\t1\t0\t0\t1\t1\t0\t0\t1\t1\t0\t0\t1\t1\t2\t1\t1\n\
        3\t1\t1\t0\t0\t0\t0\t0\t0\t1\t1\t0\t0\t1\t1\t0\t0\t1\t1\t0\t0\t1\t1\t2\n\
        3\t0\t0\t0\t0\t1\t1\t0\t0\t0\t0\t1\t1\t1\t1\t0\t0\t0\t0\t1\t0\t2\t2\t1\n\
        2\t0\t0\t0\t0\t1\t1\t1\t1\t1\t1\t0\t0\t0\t0\t1\t1\t1\t1\t0\t0\t1\t2\t2\n\
        2\t1\t1\t1\t1\t0\t0\t0\t0\t0\t0\t0\t0\t0\t0\t0\t0\t0\t0\t0\t0\t1\t2\t2\n\
        2\t0\t1\t0\t0\t0\t0\t0\t0\t0\t0\t0\t0\t0\t0\t1\t1\t1\t1\t1\t0\t2\t1\t1\n\
        2\t0\t0\t0\t0\t0\t0\t1\t1\t1\t1\t1\t1\t0\t0\t0\t0\t0\t0\t0\t0\t1\t2\t1\n",
        told: "",
        omitted: "pict-proof 2\nomit 0=0 1=0\nomit 0=0 1=1\nomit 0=0 2=0\nomit 0=0 2=1\nomit 0=0 3=0\nomit 0=0 3=1\n\
        omit 0=0 4=0\nomit 0=0 4=1\nomit 0=0 5=0\nomit 0=0 5=1\nomit 0=0 6=0\nomit 0=0 6=1\nomit 0=0 7=0\n\
        omit 0=0 7=1\nomit 0=0 8=0\nomit 0=0 8=1\nomit 0=0 9=0\nomit 0=0 9=1\nomit 0=0 10=0\nomit 0=0 10=1\n\
        omit 0=0 11=0\nomit 0=0 11=1\nomit 0=0 12=0\nomit 0=0 12=1\nomit 0=0 13=0\nomit 0=0 13=1\nomit 0=0 14=0\n\
        omit 0=0 14=1\nomit 0=0 15=0\nomit 0=0 15=1\nomit 0=0 16=0\nomit 0=0 16=1\nomit 0=0 17=0\nomit 0=0 17=1\n\
        omit 0=0 18=0\nomit 0=0 18=1\nomit 0=0 19=0\nomit 0=0 19=1\nomit 0=0 20=0\nomit 0=0 20=1\nomit 0=0 21=0\n\
        omit 0=0 21=1\nomit 0=0 22=0\nomit 0=0 22=1\nomit 0=0 23=0\nomit 0=0 23=1\n",
        spent: "error: search budget 10000 spent on 0=0 1=0\n",
    },
    // The first value of A stands beside the negative value of Y alone; that of A stands in no row.
    Worked {
        words: &["m", "/proof:p"],
        first: "A: 1, 2, ~3\n",
        last: "Y: 1, 2, ~3\nZ: 1, 2, ~3\nIF [A] = 1 AND ISPOSITIVE([Y]) THEN [Y] = [Z];\nIF [A] <> 2 THEN [Y] <> [Z];\n\
        IF [A] = 3 THEN [Y] = [Z];\n",
        rows: b"",
        written: "A\tB\tC\tD\tE\tF\tG\tH\tI\tJ\tK\tL\tM\tN\tO\tP\tQ\tR\tS\tT\tU\tY\tZ\n\
        2\t0\t0\t0\t0\t0\t0\t0\t0\t0\t0\t0\t0\t0\t0\t0\t0\t0\t0\t0\t0\t1\t1\n\
        2\t1\t1\t1\t1\t1\t1\t1\t1\t1\t1\t1\t1\t1\t1\t1\t1\t1\t1\t1\t0\t2\t2\n\
        2\t0\t1\t0\t1\t0\t1\t0\t1\t0\t1\t0\t1\t0\t1\t0\t1\t0\t1\t0\t1\t2\t1\n\
        2\t1\t0\t0\t0\t1\t0\t1\t0\t1\t0\t1\t0\t1\t0\t1\t0\t1\t0\t1\t1\t1\t2\n\
        2\t0\t0\t1\t0\t0\t1\t1\t0\t0\t1\t1\t0\t0\t1\t1\t0\t0\t1\t1\t1\t1\t1\n\
        2\t0\t0\t1\t1\t1\t0\t0\t1\t1\t0\t0\t1\t1\t0\t0\t1\t1\t0\t0\t0\t2\t2\n\
        2\t1\t1\t0\t0\t0\t0\t0\t0\t0\t0\t0\t1\t1\t1\t1\t0\t0\t0\t0\t0\t2\t2\n\
        2\t1\t1\t0\t0\t0\t0\t0\t1\t1\t1\t1\t0\t0\t0\t0\t1\t1\t1\t1\t0\t1\t1\n\
        2\t0\t0\t0\t1\t1\t1\t1\t0\t0\t0\t0\t0\t0\t0\t0\t0\t0\t0\t0\t0\t1\t1\n\
        2\t0\t0\t0\t0\t0\t0\t0\t0\t0\t0\t0\t0\t0\t0\t0\t1\t1\t1\t1\t0\t2\t2\n\
        2\t0\t0\t0\t0\t0\t0\t0\t1\t1\t1\t1\t1\t1\t0\t0\t0\t0\t0\t0\t0\t1\t1\n\
        1\t0\t0\t0\t0\t0\t0\t0\t0\t0\t0\t0\t0\t0\t0\t0\t0\t0\t0\t0\t0\t~3\t1\n\
        2\t1\t1\t1\t1\t1\t1\t1\t1\t1\t1\t1\t1\t1\t1\t1\t1\t1\t1\t1\t0\t~3\t2\n\
        1\t0\t0\t0\t0\t0\t0\t0\t0\t0\t0\t0\t0\t0\t0\t0\t0\t0\t0\t0\t1\t~3\t1\n\
        2\t0\t0\t0\t0\t0\t0\t0\t0\t0\t0\t0\t0\t0\t0\t0\t0\t0\t0\t0\t0\t1\t~3\n\
        2\t1\t1\t1\t1\t1\t1\t1\t1\t1\t1\t1\t1\t1\t1\t1\t1\t1\t1\t1\t0\t2\t~3\n\
        2\t0\t0\t0\t0\t0\t0\t0\t0\t0\t0\t0\t0\t0\t0\t0\t0\t0\t0\t0\t1\t1\t~3\n",
        told: "",
        omitted: "pict-proof 1\nomit 0=0 1=0\nomit 0=0 1=1\nomit 0=0 2=0\nomit 0=0 2=1\nomit 0=0 3=0\nomit 0=0 3=1\n\
        omit 0=0 4=0\nomit 0=0 4=1\nomit 0=0 5=0\nomit 0=0 5=1\nomit 0=0 6=0\nomit 0=0 6=1\nomit 0=0 7=0\n\
        omit 0=0 7=1\nomit 0=0 8=0\nomit 0=0 8=1\nomit 0=0 9=0\nomit 0=0 9=1\nomit 0=0 10=0\nomit 0=0 10=1\n\
        omit 0=0 11=0\nomit 0=0 11=1\nomit 0=0 12=0\nomit 0=0 12=1\nomit 0=0 13=0\nomit 0=0 13=1\nomit 0=0 14=0\n\
        omit 0=0 14=1\nomit 0=0 15=0\nomit 0=0 15=1\nomit 0=0 16=0\nomit 0=0 16=1\nomit 0=0 17=0\nomit 0=0 17=1\n\
        omit 0=0 18=0\nomit 0=0 18=1\nomit 0=0 19=0\nomit 0=0 19=1\nomit 0=0 20=0\nomit 0=0 20=1\nomit 0=0 21=0\n\
        omit 0=0 21=1\nomit 0=0 22=0\nomit 0=0 22=1\nomit 0=2 1=0\nomit 0=2 1=1\nomit 0=2 2=0\nomit 0=2 2=1\n\
        omit 0=2 3=0\nomit 0=2 3=1\nomit 0=2 4=0\nomit 0=2 4=1\nomit 0=2 5=0\nomit 0=2 5=1\nomit 0=2 6=0\n\
        omit 0=2 6=1\nomit 0=2 7=0\nomit 0=2 7=1\nomit 0=2 8=0\nomit 0=2 8=1\nomit 0=2 9=0\nomit 0=2 9=1\n\
        omit 0=2 10=0\nomit 0=2 10=1\nomit 0=2 11=0\nomit 0=2 11=1\nomit 0=2 12=0\nomit 0=2 12=1\nomit 0=2 13=0\n\
        omit 0=2 13=1\nomit 0=2 14=0\nomit 0=2 14=1\nomit 0=2 15=0\nomit 0=2 15=1\nomit 0=2 16=0\nomit 0=2 16=1\n\
        omit 0=2 17=0\nomit 0=2 17=1\nomit 0=2 18=0\nomit 0=2 18=1\nomit 0=2 19=0\nomit 0=2 19=1\nomit 0=2 20=0\n\
        omit 0=2 20=1\nomit 0=2 21=0\nomit 0=2 21=1\nomit 0=2 22=0\nomit 0=2 22=1\nomit 0=0 22=2\n",
        spent: "error: search budget 10000 spent on 0=0 1=0\n",
    },
    // One of the seed rows goes with no row.
    Worked {
        words: &["m", "/e:t", "/proof:p"],
        first: "A: 1, 2\n",
        last: TWIN,
        rows: b"Z\tA\tU\tB\n2\t\t1\t1\n1\t1\t0\t0\n\t2\t\t0\n",
        written: "A\tB\tC\tD\tE\tF\tG\tH\tI\tJ\tK\tL\tM\tN\tO\tP\tQ\tR\tS\tT\tU\tY\tZ\n\
        2\t1\t0\t0\t0\t0\t0\t0\t0\t0\t0\t0\t0\t0\t0\t0\t0\t0\t0\t0\t1\t1\t2\n\
        2\t0\t1\t1\t1\t1\t1\t1\t1\t1\t1\t1\t1\t1\t1\t1\t1\t1\t1\t1\t0\t2\t1\n\
        2\t0\t0\t0\t1\t0\t1\t0\t1\t0\t1\t0\t1\t0\t1\t0\t1\t0\t1\t0\t0\t1\t1\n\
        2\t1\t1\t0\t0\t1\t0\t1\t0\t1\t0\t1\t0\t1\t0\t1\t0\t1\t0\t1\t0\t2\t2\n\
        2\t1\t0\t1\t0\t0\t1\t1\t0\t0\t1\t1\t0\t0\t1\t1\t0\t0\t1\t1\t1\t2\t1\n\
        2\t0\t0\t1\t0\t1\t0\t0\t1\t1\t0\t0\t1\t1\t0\t0\t1\t1\t0\t0\t1\t1\t2\n\
        2\t1\t1\t0\t1\t0\t0\t0\t0\t0\t0\t0\t1\t1\t1\t1\t0\t0\t0\t0\t1\t2\t1\n\
        2\t0\t1\t0\t1\t0\t0\t0\t0\t1\t1\t1\t0\t0\t0\t0\t1\t1\t1\t1\t0\t1\t2\n\
        2\t1\t0\t0\t0\t1\t1\t1\t1\t0\t0\t0\t0\t0\t0\t0\t0\t0\t0\t0\t0\t1\t1\n\
        2\t0\t0\t0\t0\t0\t1\t0\t0\t0\t0\t0\t0\t0\t1\t0\t0\t1\t1\t1\t0\t2\t2\n\
        2\t1\t0\t0\t0\t0\t0\t0\t0\t1\t1\t1\t0\t0\t0\t1\t1\t0\t0\t0\t0\t1\t1\n",
        told: "warning: row file line 3: V4 no valid row serves this row\n",
        omitted: FIRST_OF_A,
        spent: "error: search budget 10000 spent on 0=0 1=0\n",
    },
    // A sub-model and a relation.
    Worked {
        words: &["m", "/o:1", "/workers:7", "/proof:p"],
        first: "A: 1, 2\n",
        last: "Y: 1, 2\nZ: 1, 2\n{ A, Y, Z } @ 2\n@ 3 { A, B, U }\nIF [A] = 1 THEN [Y] = [Z];\n\
        IF [A] = 1 THEN [Y] <> [Z];\n",
        rows: b"",
        written: "A\tB\tC\tD\tE\tF\tG\tH\tI\tJ\tK\tL\tM\tN\tO\tP\tQ\tR\tS\tT\tU\tY\tZ\n\
        2\t0\t0\t0\t0\t0\t0\t0\t0\t0\t0\t0\t0\t0\t0\t0\t0\t0\t0\t0\t0\t1\t1\n\
        2\t1\t1\t1\t1\t1\t1\t1\t1\t1\t1\t1\t1\t1\t1\t1\t1\t1\t1\t1\t0\t2\t2\n\
        2\t0\t0\t0\t0\t0\t0\t0\t0\t0\t0\t0\t0\t0\t0\t0\t0\t0\t0\t0\t1\t1\t2\n\
        2\t1\t0\t0\t0\t0\t0\t0\t0\t0\t0\t0\t0\t0\t0\t0\t0\t0\t0\t0\t1\t2\t1\n",
        told: "",
        omitted: "pict-proof 1\nomit 0=0 1=0 20=0\nomit 0=0 1=0 20=1\nomit 0=0 1=1 20=0\nomit 0=0 1=1 20=1\nomit 0=0 21=0\n\
        omit 0=0 21=1\nomit 0=0 22=0\nomit 0=0 22=1\n",
        spent: "error: search budget 10000 spent on 1=0\n",
    },
    // Other orders of the values, by words of PCG and by weights.
    Worked {
        words: &["m", "/r:7", "/proof:p"],
        first: "A: 1, 2 (3), 3\n",
        last: "Y: 1, 2 (5)\nZ: 1 (2), 2, 3\nIF [A] = 1 THEN [Y] = [Z];\nIF [A] = 1 THEN [Y] <> [Z];\n",
        rows: b"",
        written: "A\tB\tC\tD\tE\tF\tG\tH\tI\tJ\tK\tL\tM\tN\tO\tP\tQ\tR\tS\tT\tU\tY\tZ\n\
        2\t1\t0\t0\t0\t0\t0\t0\t1\t0\t0\t1\t0\t0\t0\t1\t0\t0\t0\t1\t0\t2\t1\n\
        2\t0\t1\t1\t1\t1\t1\t1\t0\t1\t1\t0\t1\t1\t1\t0\t1\t1\t1\t0\t1\t1\t2\n\
        2\t1\t1\t0\t1\t0\t1\t0\t0\t0\t1\t1\t1\t0\t1\t1\t1\t0\t1\t1\t1\t2\t3\n\
        3\t0\t0\t1\t0\t1\t0\t1\t1\t1\t0\t0\t0\t1\t0\t0\t0\t1\t0\t0\t0\t1\t1\n\
        3\t1\t0\t0\t1\t0\t0\t1\t0\t0\t0\t0\t1\t0\t0\t0\t1\t0\t0\t0\t1\t2\t2\n\
        3\t0\t0\t0\t0\t1\t1\t0\t1\t1\t1\t1\t0\t1\t1\t1\t0\t1\t1\t1\t0\t1\t3\n\
        3\t1\t1\t1\t0\t0\t0\t0\t0\t1\t1\t1\t0\t0\t0\t0\t1\t1\t1\t1\t0\t2\t1\n\
        2\t0\t1\t1\t0\t0\t0\t1\t1\t0\t0\t1\t1\t1\t1\t1\t0\t0\t0\t0\t1\t1\t3\n\
        2\t1\t0\t0\t0\t1\t0\t0\t1\t0\t0\t1\t0\t0\t0\t1\t0\t0\t1\t1\t0\t1\t2\n\
        2\t0\t0\t0\t1\t1\t1\t0\t1\t0\t0\t0\t0\t0\t0\t1\t0\t1\t0\t1\t1\t2\t1\n\
        2\t1\t0\t0\t1\t0\t0\t0\t0\t1\t1\t0\t0\t1\t0\t0\t0\t0\t0\t0\t0\t2\t3\n\
        2\t1\t0\t0\t0\t0\t0\t1\t1\t0\t0\t1\t1\t0\t1\t1\t1\t0\t0\t1\t0\t2\t1\n",
        told: "",
        omitted: "pict-proof 1\nomit 0=0 22=0\nomit 0=0 22=1\nomit 0=0 22=2\nomit 0=0 1=0\nomit 0=0 1=1\nomit 0=0 2=0\n\
        omit 0=0 2=1\nomit 0=0 3=0\nomit 0=0 3=1\nomit 0=0 4=0\nomit 0=0 4=1\nomit 0=0 5=0\nomit 0=0 5=1\n\
        omit 0=0 6=0\nomit 0=0 6=1\nomit 0=0 7=0\nomit 0=0 7=1\nomit 0=0 8=0\nomit 0=0 8=1\nomit 0=0 9=0\n\
        omit 0=0 9=1\nomit 0=0 10=0\nomit 0=0 10=1\nomit 0=0 11=0\nomit 0=0 11=1\nomit 0=0 12=0\nomit 0=0 12=1\n\
        omit 0=0 13=0\nomit 0=0 13=1\nomit 0=0 14=0\nomit 0=0 14=1\nomit 0=0 15=0\nomit 0=0 15=1\nomit 0=0 16=0\n\
        omit 0=0 16=1\nomit 0=0 17=0\nomit 0=0 17=1\nomit 0=0 18=0\nomit 0=0 18=1\nomit 0=0 19=0\nomit 0=0 19=1\n\
        omit 0=0 20=0\nomit 0=0 20=1\nomit 0=0 21=0\nomit 0=0 21=1\n",
        spent: "error: search budget 10000 spent on 0=0 1=0\n",
    },
    // No row at all.
    Worked {
        words: &["m", "/o:1", "/proof:p"],
        first: "A: 1, 2\n",
        last: NO_ROW,
        rows: b"",
        written: "A\tB\tC\tD\tE\tF\tG\tH\tI\tJ\tK\tL\tM\tN\tO\tP\tQ\tR\tS\tT\tU\tY\tZ\n",
        told: "",
        omitted: "pict-proof 1\nomit 0=0\nomit 0=1\nomit 1=0\nomit 1=1\nomit 2=0\nomit 2=1\nomit 3=0\nomit 3=1\nomit 4=0\n\
        omit 4=1\nomit 5=0\nomit 5=1\nomit 6=0\nomit 6=1\nomit 7=0\nomit 7=1\nomit 8=0\nomit 8=1\nomit 9=0\n\
        omit 9=1\nomit 10=0\nomit 10=1\nomit 11=0\nomit 11=1\nomit 12=0\nomit 12=1\nomit 13=0\nomit 13=1\n\
        omit 14=0\nomit 14=1\nomit 15=0\nomit 15=1\nomit 16=0\nomit 16=1\nomit 17=0\nomit 17=1\nomit 18=0\n\
        omit 18=1\nomit 19=0\nomit 19=1\nomit 20=0\nomit 20=1\nomit 21=0\nomit 21=1\nomit 22=0\nomit 22=1\n",
        spent: "error: search budget 10000 spent on 0=0\n",
    },
    // Statistics in place of rows.
    Worked {
        words: &["m", "/o:1", "/s", "/proof:p"],
        first: "A: 1, 2\n",
        last: TWIN,
        rows: b"",
        written: "Demanded sets: 23\nDemanded tuples: 46\nOmitted tuples: 1\nKept seeds: 0\nGenerated tests: 3\n",
        told: "",
        omitted: "pict-proof 1\nomit 0=0\n",
        spent: "error: search budget 10000 spent on 0=0\n",
    },
    // Figures of a suite, also where there is no row.
    Worked {
        words: &["m", "/measure:t"],
        first: "A: 1, 2\n",
        last: TWIN,
        rows: SUITE,
        written: "Tests: 2\nIncomplete tests: 1\nInvalid tests: 2\nDemanded sets: 253\nDemanded tuples: 1012\n\
        Covered tuples: 503 of 968\nComplete sets: 20 of 253\nSets at 75 percent: 20 of 253\n\
        Sets at 50 percent: 252 of 253\nSets at 25 percent: 253 of 253\n",
        told: "",
        omitted: "",
        spent: "error: search budget 10000 spent on 0=0 1=0\n",
    },
    Worked {
        words: &["m", "/o:1", "/measure:t"],
        first: "A: 1, 2\n",
        last: NO_ROW,
        rows: SUITE,
        written: "Tests: 0\nIncomplete tests: 1\nInvalid tests: 4\nDemanded sets: 23\nDemanded tuples: 46\n\
        Covered tuples: 0 of 0\nComplete sets: 23 of 23\nSets at 75 percent: 23 of 23\n\
        Sets at 50 percent: 23 of 23\nSets at 25 percent: 23 of 23\n",
        told: "",
        omitted: "",
        spent: "error: search budget 10000 spent on 0=0\n",
    },
];

// The model of a run.
fn model_of(alloc: Global, worked: &Worked) -> Result<String, AllocError> {
    format!(in alloc; "{}{}{}{}", worked.first, BETWEEN, worked.last, NOT_ALL)
}

// Whether the lines of two texts are equal up to the colon.
fn begin_alike(first: &str, second: &str) -> bool {
    if first.lines().count() != second.lines().count() {
        return false;
    }
    for (line, other) in first.lines().zip(second.lines()) {
        if line.split(" : ").next() != other.split(" : ").next() {
            return false;
        }
    }
    true
}

/// Whether two proofs are equal but for the trees, which may be left out.
pub fn omit_alike(first: &[u8], second: &[u8]) -> bool {
    match (str::from_utf8(first), str::from_utf8(second)) {
        (Ok(first), Ok(second)) => begin_alike(first, second),
        _ => false,
    }
}

/// What a run left in the proof file; nothing where it left none.
pub fn proof_of(ended: &Ended) -> &[u8] {
    ended.files.held("p").unwrap_or(b"")
}

// These words and one more.
fn words_with<'a>(
    alloc: Global,
    words: &'a [&'a str],
    more: &'a str,
) -> Result<Vec<&'a str>, AllocError> {
    let mut all = Vec::new(alloc);
    for word in words {
        all.push(*word)?;
    }
    all.push(more)?;
    Ok(all)
}

/// What a run with one more word leaves.
///
/// # Errors
///
/// `NoMemory` as from `run`, and where the words could not be had.
pub fn run_with<R: Threads + Sync>(
    rt: &R,
    alloc: Global,
    given: &Given,
    more: &str,
) -> Result<Ended, NoMemory> {
    let all = words_with(alloc, given.words, more)?;
    let words = all.as_slice();
    run(rt, alloc, &Given { words, ..*given })
}

// Whether a run ends with status 2 within its budget, and without one as it is to.
fn answers_on<R: Threads + Sync>(
    rt: &R,
    alloc: Global,
    worked: &Worked,
    given: &Given,
) -> Result<bool, NoMemory> {
    let spent = run_with(rt, alloc, given, "/budget:10000")?;
    let ended = run_with(rt, alloc, given, "/budget:max")?;
    Ok(
        spent.is(2, "", worked.spent)
            && ended.is(0, worked.written, worked.told)
            && omit_alike(proof_of(&ended), worked.omitted.as_bytes()),
    )
}

// The same on its files.
fn answers<R: Threads + Sync>(rt: &R, alloc: Global, worked: &Worked) -> Result<bool, NoMemory> {
    let model = model_of(alloc, worked)?;
    let given = Given {
        rows: Some(("t", worked.rows)),
        ..on_model(worked.words, model.as_bytes())
    };
    answers_on(rt, alloc, worked, &given)
}

#[test]
fn answers_what_costs_too_much(rt: HostRuntime) {
    for worked in WORKED {
        assert!(rt;
            answers(&rt, rt.alloc(), worked) == Ok(true),
            "{:?}",
            worked.words
        );
    }
}
