//! What `import` tells where it writes no model file. Nothing here takes memory, and a fault of the sink changes nothing.
use crate::cause::ImportCause;
use crate::found::{Found, put_words};
use crate::place::found_in;
use crate::source_line::{bad_place, line_at, put_source};
use acts_front::ActsCode;
use itoa::Buffer;
use jeldroft_args::Import;
use outside_io::{Sink, WriteAnswer, put_pieces};

/// What is wrong with a line, or what could stand there, where no place in it is known.
fn explanation(code: ActsCode) -> &'static str {
    match code {
        ActsCode::A1 => "expected a tab or a character from the space to \"~\"",
        ActsCode::A2 => {
            "expected one of the headers [System], [Parameter], [Relation] and [Constraint], in this order"
        }
        ActsCode::A3 => {
            "expected a parameter, as \"Name (enum): red, green\", of the type int, enum or boolean"
        }
        ActsCode::A4 =>
            "a parameter of this name, or a value of the parameter, was declared before",
        ActsCode::A5 => "expected a relation, as \"Name: (First, Second, 2)\"",
        ActsCode::A6 => "a member of the relation is no parameter, or stands twice",
        ActsCode::A7 => "the strength of the relation is not from 1 to the number of its members",
        ActsCode::A8 => "no line declares a parameter",
        ActsCode::A9 => {
            "expected a constraint, as \"Size > 1 => Kind != 2\", with at most 64 \"(\" and \"!\" inside one another"
        }
        ActsCode::A10 => "a parameter of the constraint is not declared",
        ActsCode::A11 => "different types are compared, or a parameter that is not int is ordered",
    }
}

/// Writes the number of a line, and the column of a place in it, from 0, if one is known.
fn put_place<E: Sink>(number: u32, at: Option<usize>, diag: &mut E) -> WriteAnswer {
    let mut of_number = Buffer::new();
    let mut of_column = Buffer::new();
    let written = put_pieces(diag, &[":", of_number.format(number)]);
    match at {
        Some(at) => put_pieces(diag, &[":", of_column.format(at.saturating_add(1))]),
        None => written,
    }
}

/// A digit of a number in hexadecimal form.
fn hex_digit(value: u8) -> u8 {
    if value < 10 {
        b'0'.saturating_add(value)
    } else {
        b'a'.saturating_add(value.saturating_sub(10))
    }
}

/// Writes which byte a line may not have.
fn put_byte<E: Sink>(byte: u8, diag: &mut E) -> WriteAnswer {
    let _ = put_pieces(diag, &[", found the byte 0x"]);
    diag.put(&[hex_digit(byte / 16), hex_digit(byte % 16)])
}

/// Writes the place of the byte that a line may not have, and which it is.
fn put_bad_byte<E: Sink>(line: &[u8], number: u32, diag: &mut E) -> WriteAnswer {
    let at = bad_place(line);
    let _ = put_place(number, Some(at), diag);
    let written = put_pieces(diag, &[": error: ", explanation(ActsCode::A1)]);
    match line.get(at) {
        Some(byte) => put_byte(*byte, diag),
        None => written,
    }
}

/// Writes the place where a line is refused, if it is known, and what was found there.
fn put_finding<E: Sink>(
    found: &Option<Found<'_>>,
    number: u32,
    code: ActsCode,
    diag: &mut E,
) -> WriteAnswer {
    match found {
        Some(found) => {
            let _ = put_place(number, Some(found.part.at), diag);
            let _ = put_pieces(diag, &[": error: "]);
            put_words(found, diag)
        }
        None => {
            let _ = put_place(number, None, diag);
            put_pieces(diag, &[": error: ", explanation(code)])
        }
    }
}

/// Writes that the file of this name declares no parameter.
fn put_no_parameter<E: Sink>(name: &str, diag: &mut E) -> WriteAnswer {
    let _ = put_pieces(diag, &[name]);
    put_pieces(diag, &[": error: ", explanation(ActsCode::A8), " [A8]\n"])
}

/// Writes where a line of the file is refused and why, and under it the line.
fn put_refusal<E: Sink>(
    args: &Import,
    bytes: &[u8],
    number: u32,
    code: ActsCode,
    diag: &mut E,
) -> WriteAnswer {
    if code == ActsCode::A8 {
        return put_no_parameter(args.file.as_str(), diag);
    }
    let line = line_at(bytes, number);
    let _ = put_pieces(diag, &[args.file.as_str()]);
    if code == ActsCode::A1 {
        let _ = put_bad_byte(line, number, diag);
    } else {
        let found = found_in(bytes, line, number, code, !args.case_sensitive);
        let _ = put_finding(&found, number, code, diag);
    }
    let _ = put_pieces(diag, &[" [", code.code(), "]\n"]);
    put_source(line, diag)
}

/// Writes that the model file could not be written.
fn put_unwritten<E: Sink>(args: &Import, diag: &mut E) -> WriteAnswer {
    match &args.output {
        Some(name) => put_pieces(diag, &[name.as_str(), ": error: cannot write the file\n"]),
        None => put_pieces(
            diag,
            &["jeldroft: error: cannot write to standard output\n"],
        ),
    }
}

/// Writes the lines that say why there is no model file.
pub(crate) fn tell<E: Sink>(cause: ImportCause, args: &Import, bytes: &[u8], diag: &mut E) {
    let name = args.file.as_str();
    let _ = match cause {
        ImportCause::OutOfMemory => put_pieces(diag, &["jeldroft: error: out of memory\n"]),
        ImportCause::CannotRead => put_pieces(diag, &[name, ": error: cannot read the file\n"]),
        ImportCause::TooLong => {
            put_pieces(
                diag,
                &[name, ": error: the file has more than 4194304 bytes\n"],
            )
        }
        ImportCause::BadLine(line, code) => put_refusal(args, bytes, line, code, diag),
        ImportCause::CannotWrite => put_unwritten(args, diag),
    };
}
