ghost use Rattle.std.specs.Prelude.{Some};

use std::fmt;

/// A table of the plan.
#[derive(Clone, Copy, Debug, PartialEq, Eq)]
pub enum Table {
    Top,
    Card,
    Keyset,
}

/// What is wrong in a table of the plan: its text as a whole, an unknown name, too many entries, or a field.
#[derive(Clone, Copy, Debug, PartialEq, Eq)]
pub enum Field {
    Text,
    Unknown,
    TooMany,
    Campaign,
    Number,
    Buffer,
    Rfm,
    Ram,
    CardOf,
    Kvn,
    Kic,
    Kid,
    Cipher,
    Mode,
    Base,
    Wide,
    Put,
}

impl fmt::Display for Table {
    ghost use Rattle.std.specs.Prelude.{Some};
    ghost use Rattle.plan_reader.specs.Words.{table_word};

    ghost output = { λ table. Some (table_word table) };

    fn fmt<W: fmt::Write>(&self, f: &mut fmt::Formatter<W>) -> fmt::Result {
        match self {
            Table::Top => f.write_str("top"),
            Table::Card => f.write_str("card"),
            Table::Keyset => f.write_str("keyset"),
        }
    }
}

impl fmt::Display for Field {
    ghost use Rattle.std.specs.Prelude.{Some};
    ghost use Rattle.plan_reader.specs.Words.{field_word};

    ghost output = { λ field. Some (field_word field) };

    fn fmt<W: fmt::Write>(&self, f: &mut fmt::Formatter<W>) -> fmt::Result {
        match self {
            Field::Text => f.write_str("text"),
            Field::Unknown => f.write_str("unknown"),
            Field::TooMany => f.write_str("toomany"),
            Field::Campaign => f.write_str("campaign"),
            Field::Number => f.write_str("number"),
            Field::Buffer => f.write_str("buffer"),
            Field::Rfm => f.write_str("rfm"),
            Field::Ram => f.write_str("ram"),
            Field::CardOf => f.write_str("cardof"),
            Field::Kvn => f.write_str("kvn"),
            Field::Kic => f.write_str("kic"),
            Field::Kid => f.write_str("kid"),
            Field::Cipher => f.write_str("cipher"),
            Field::Mode => f.write_str("mode"),
            Field::Base => f.write_str("base"),
            Field::Wide => f.write_str("wide"),
            Field::Put => f.write_str("put"),
        }
    }
}
