//! The texts of tables. (RFC 4180, RFC 8259 and GitHub Flavored Markdown; which cells are in quotes and which characters
//! are escaped are this project's rules.)

use crate::tables::{ASCII, EMPTY, MIXED, NARROW, Table, UNNAMED, written};
use row_forms::RowForm;
use std::test::Fail;

const TEXTS: &[(RowForm, Table, &str)] = &[
    (
        RowForm::Csv,
        MIXED,
        "\"\u{feff}First\",\"b,c\"\r\n\"say \"\"hi\"\"\",\" x\"\r\n,\r\nä€😀,\u{feff}y\r\n\"l\nm\",x y\r\n\"c\rd\",\"z\t\"\r\n\u{1},null\r\n",
    ),
    (RowForm::Csv, NARROW, "A\r\n\"\"\r\n\"\"\r\nx\r\n"),
    (RowForm::Csv, UNNAMED, "\"\"\r\n\u{feff}\r\n"),
    (
        RowForm::Csv,
        ASCII,
        "P,\" !\"\"#$%&'()*+,-./0123456789:;<=>?@ABCDEFGHIJKLMNOPQRSTUVWXYZ[\\]^_`abcdefghijklmnopqrstuvwxyz{|}~\"\r\n\" !\"\"#$%&'()*+,-./0123456789:;<=>?@ABCDEFGHIJKLMNOPQRSTUVWXYZ[\\]^_`abcdefghijklmnopqrstuvwxyz{|}~\",x\r\n",
    ),
    (RowForm::Csv, EMPTY, "A,B\r\n"),
    (
        RowForm::Json,
        MIXED,
        "[\n{\"\u{feff}First\":\"say \\\"hi\\\"\",\"b,c\":\" x\"},\n{\"\u{feff}First\":null,\"b,c\":\"\"},\n{\"\u{feff}First\":\"ä€😀\",\"b,c\":\"\u{feff}y\"},\n{\"\u{feff}First\":\"l\\nm\",\"b,c\":\"x y\"},\n{\"\u{feff}First\":\"c\\rd\",\"b,c\":\"z\\t\"},\n{\"\u{feff}First\":\"\\u0001\",\"b,c\":\"null\"}\n]\n",
    ),
    (
        RowForm::Json,
        NARROW,
        "[\n{\"A\":\"\"},\n{\"A\":null},\n{\"A\":\"x\"}\n]\n",
    ),
    (RowForm::Json, UNNAMED, "[\n{\"\":\"\u{feff}\"}\n]\n"),
    (
        RowForm::Json,
        ASCII,
        "[\n{\"P\":\" !\\\"#$%&'()*+,-./0123456789:;<=>?@ABCDEFGHIJKLMNOPQRSTUVWXYZ[\\\\]^_`abcdefghijklmnopqrstuvwxyz{|}~\",\" !\\\"#$%&'()*+,-./0123456789:;<=>?@ABCDEFGHIJKLMNOPQRSTUVWXYZ[\\\\]^_`abcdefghijklmnopqrstuvwxyz{|}~\":\"x\"}\n]\n",
    ),
    (RowForm::Json, EMPTY, "[\n]\n"),
    (
        RowForm::Markdown,
        MIXED,
        "| \u{feff}First | b\\,c |\n| --- | --- |\n| say \\\"hi\\\" |  x |\n|  |  |\n| ä€😀 | \u{feff}y |\n| l\nm | x y |\n| c\rd | z\t |\n| \u{1} | null |\n",
    ),
    (
        RowForm::Markdown,
        NARROW,
        "| A |\n| --- |\n|  |\n|  |\n| x |\n",
    ),
    (RowForm::Markdown, UNNAMED, "|  |\n| --- |\n| \u{feff} |\n"),
    (
        RowForm::Markdown,
        ASCII,
        "| P |  \\!\\\"\\#\\$\\%\\&\\'\\(\\)\\*\\+\\,\\-\\.\\/0123456789\\:\\;\\<\\=\\>\\?\\@ABCDEFGHIJKLMNOPQRSTUVWXYZ\\[\\\\\\]\\^\\_\\`abcdefghijklmnopqrstuvwxyz\\{\\|\\}\\~ |\n| --- | --- |\n|  \\!\\\"\\#\\$\\%\\&\\'\\(\\)\\*\\+\\,\\-\\.\\/0123456789\\:\\;\\<\\=\\>\\?\\@ABCDEFGHIJKLMNOPQRSTUVWXYZ\\[\\\\\\]\\^\\_\\`abcdefghijklmnopqrstuvwxyz\\{\\|\\}\\~ | x |\n",
    ),
    (RowForm::Markdown, EMPTY, "| A | B |\n| --- | --- |\n"),
    (RowForm::Tsv, NARROW, "A\n\n\nx\n"),
    (RowForm::Tsv, EMPTY, "A\tB\n"),
];

#[test]
fn a_table_has_one_text_in_each_form(rt: HostRuntime) -> Result<(), Fail> {
    for (form, table, text) in TEXTS {
        let found = written(rt.alloc(), *form, *table)?;
        assert!(rt; found.as_slice() == text.as_bytes(), "{text}");
    }
    Ok(())
}
