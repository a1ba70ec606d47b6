use std::fmt;

/// What is wrong in a row of the list of jobs: its header line, its number of columns, too many rows, or a column.
#[derive(Clone, Copy, Debug, PartialEq, Eq)]
pub enum Column {
    Header,
    Shape,
    TooMany,
    Job,
    Card,
    Kvn,
    Tar,
    Script,
}

impl fmt::Display for Column {
    ghost use Rattle.std.specs.Prelude.{Some};
    ghost use Rattle.plan_reader.specs.Words.{column_word};

    ghost output = { λ column. Some (column_word column) };

    fn fmt<W: fmt::Write>(&self, f: &mut fmt::Formatter<W>) -> fmt::Result {
        match self {
            Column::Header => f.write_str("header"),
            Column::Shape => f.write_str("shape"),
            Column::TooMany => f.write_str("toomany"),
            Column::Job => f.write_str("job"),
            Column::Card => f.write_str("card"),
            Column::Kvn => f.write_str("kvn"),
            Column::Tar => f.write_str("tar"),
            Column::Script => f.write_str("script"),
        }
    }
}
