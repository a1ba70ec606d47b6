//! The commands by their first word.

ghost use Rattle.std.specs.Prelude.{◌≡◌};
ghost use Rattle.command_words.specs.Words.{kind_of};

/// A command, without what its options say.
#[derive(Clone, Copy, Debug, PartialEq, Eq)]
pub(crate) enum Kind {
    Format,
    Reserve,
    Send,
    Report,
    Close,
    Cards,
    Packet,
}

/// The command that a first word names.
pub(crate) fn kind_of(name: &str) -> Option<Kind>
    ensures { result ≡ kind_of name.now }
{
    match name {
        "format" => Some(Kind::Format),
        "reserve" => Some(Kind::Reserve),
        "send" => Some(Kind::Send),
        "report" => Some(Kind::Report),
        "close" => Some(Kind::Close),
        "cards" => Some(Kind::Cards),
        "packet" => Some(Kind::Packet),
        _ => None,
    }
}
