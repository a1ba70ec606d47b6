use super::*;
use ota_core::{CardId, Counter, Mode, Tar};
use std::alloc::{AllocError, Global};
use std::test::Fail;

const KIC: [u8; 16] = [0, 1, 2, 3, 4, 5, 6, 7, 8, 9, 10, 11, 12, 13, 14, 15];

const KID: [u8; 16] = [
    0x2b, 0x7e, 0x15, 0x16, 0x28, 0xae, 0xd2, 0xa6, 0xab, 0xf7, 0x15, 0x88, 0x09, 0xcf, 0x4f, 0x3c,
];

/// Two cards and three keysets with every field.
const FULL: &str = "\
campaign = 4294967295
[[card]]
number = 8902
buffer = 4096
rfm = \"B00020\"
ram = \"b00021\"
wide = true
[[card]]
number = 8901
[[keyset]]
card = 8901
kvn = 15
kic = \"000102030405060708090a0b0c0d0e0f\"
kid = \"000102030405060708090a0b0c0d0e0f1011121314151617\"
cipher = false
mode = \"next\"
base = \"00000000fF\"
put = false
[[keyset]]
card = 8902
kvn = 1
kic = \"000102030405060708090a0b0c0d0e0f101112131415161718191a1b1c1d1e1f\"
kid = \"2b7e151628aed2a6abf7158809cf4f3c\"
put = true
[[keyset]]
card = 8901
kvn = 1
kic = \"000102030405060708090a0b0c0d0e0f\"
kid = \"ffffffffffffffffffffffffffffffff\"
";

fn is_refused(alloc: Global, text: &[u8], table: Table, row: u32, field: Field) -> bool {
    match read_plan(alloc, text) {
        Ok(_) => false,
        Err(err) => err == PlanErr::Refused(table, row, field),
    }
}

/// A plan with these lines in its first card and these in its second keyset.
fn with_lines(alloc: Global, card: &str, keyset: &str) -> Result<String, AllocError> {
    format!(in alloc;
        "campaign = 7
[[card]]
number = 8900
[[card]]
{card}
[[keyset]]
card = 8900
kvn = 1
kic = \"000102030405060708090a0b0c0d0e0f\"
kid = \"2b7e151628aed2a6abf7158809cf4f3c\"
[[keyset]]
{keyset}
"
    )
}

const CARD: &str = "number = 8901";

const KEYSET: &str =
    "card = 8901\nkvn = 1\nkic = \"000102030405060708090a0b0c0d0e0f\"\nkid = \"000102030405060708090a0b0c0d0e0f\"";

#[test]
fn each_field_of_a_plan_is_read(rt: HostRuntime) -> Result<(), Fail> {
    let plan = match read_plan(rt.alloc(), FULL.as_bytes()) {
        Ok(plan) => plan,
        Err(_) => return Err(Fail::from("no plan")),
    };
    assert_eq!(rt; plan.campaign, 4_294_967_295);
    let cards = plan.cards.as_slice();
    assert_eq!(rt; cards.len(), 2);
    assert_eq!(rt; cards[0].card, CardId(8902));
    assert_eq!(rt; cards[0].buffer, 4096);
    assert_eq!(rt; cards[0].rfm, Tar([0xb0, 0x00, 0x20]));
    assert_eq!(rt; cards[0].ram, Tar([0xb0, 0x00, 0x21]));
    assert!(rt; cards[0].wide);
    assert_eq!(rt; cards[0].keysets.as_slice().len(), 0);
    assert_eq!(rt; cards[1].card, CardId(8901));
    assert_eq!(rt; cards[1].buffer, 1024);
    assert_eq!(rt; cards[1].rfm, Tar([0xb0, 0x00, 0x10]));
    assert_eq!(rt; cards[1].ram, Tar([0x00, 0x00, 0x00]));
    assert!(rt; !cards[1].wide);
    let keysets = cards[1].keysets.as_slice();
    assert_eq!(rt; keysets.len(), 2);
    assert_eq!(rt; keysets[0].0, 15);
    assert_eq!(rt; keysets[0].1.base, Counter(255));
    assert_eq!(rt; keysets[0].1.mode, Mode::Next);
    assert!(rt; !keysets[0].1.ciphered);
    assert!(rt; keysets[0].1.kic.as_slice() == KIC.as_slice());
    assert_eq!(rt; keysets[0].1.kid.as_slice().len(), 24);
    assert_eq!(rt; keysets[1].0, 1);
    assert_eq!(rt; keysets[1].1.base, Counter(0));
    assert_eq!(rt; keysets[1].1.mode, Mode::Higher);
    assert!(rt; keysets[1].1.ciphered);
    let later = plan.later.as_slice();
    assert_eq!(rt; later.len(), 1);
    let id = later[0].0;
    assert_eq!(rt; id.card, CardId(8902));
    assert_eq!(rt; id.kvn, 1);
    assert_eq!(rt; later[0].1.kic.as_slice().len(), 32);
    assert!(rt; later[0].1.kid.as_slice() == KID.as_slice());
    Ok(())
}

#[test]
fn other_forms_of_a_plan_are_read(rt: HostRuntime) -> Result<(), Fail> {
    let alloc = rt.alloc();
    for text in [
        "campaign = 0",
        "campaign = 0\ncard = []\nkeyset = []\n",
        "\u{feff}campaign = 0\r\n",
        "campaign = 0\r\n\r\n[[card]]\r\nnumber = 1 # a card\r\n",
        "'campaign' = 0\n\"card\" = [{ \"number\" = 1, 'rfm' = \"\"\"000000\"\"\", ram = '''b00010''' }]\n",
        "# a comment\n\"campaign\" = 0x1F\n",
        "campaign = 1_000\ncard = [{ number = 0 }, { number = 999999999999999999 }]",
        "campaign = 1\n[[card]]\nnumber = 1\nbuffer = 1\nrfm = '000000'\nram = 'FFFFFF'\n",
    ] {
        assert!(rt; read_plan(alloc, text.as_bytes()).is_ok(), "at {text}");
    }
    for keyset in [
        "card = 8900\nkvn = 15\nkic = \"000102030405060708090a0b0c0d0e0f\"\nkid = \"000102030405060708090a0b0c0d0e0f\"",
        "card = 8901\nkvn = 1\nkic = \"000102030405060708090A0B0C0D0E0F\"\nkid = \"000102030405060708090a0b0c0d0e0f\"\nbase = \"fFfFfFfFfF\"",
        "card = 8901\nkvn = 1\nkic = \"000102030405060708090a0b0c0d0e0f\"\nkid = \"000102030405060708090a0b0c0d0e0f\"\nput = true\nbase = \"0000000000\"",
    ] {
        let text = with_lines(alloc, CARD, keyset)?;
        assert!(rt; read_plan(alloc, text.as_bytes()).is_ok(), "at {keyset}");
    }
    Ok(())
}

#[test]
fn each_refusal_of_the_top(rt: HostRuntime) -> Result<(), Fail> {
    let alloc = rt.alloc();
    for text in [
        "campaign",
        "campaign = 1\ncampaign = 1\n",
        "campaign = 9223372036854775808",
        "[[card]]\nnumber = 1\n[card]\n",
        "campaign = 1\rcard = []\n",
        "campaign = 1\n\u{feff}card = []\n",
    ] {
        assert!(rt;
            is_refused(alloc, text.as_bytes(), Table::Top, 0, Field::Text),
            "at {text}"
        );
    }
    assert!(rt; is_refused(alloc, b"campaign = 1 # \xff", Table::Top, 0, Field::Text));
    assert!(rt; is_refused(alloc, b"\x80", Table::Top, 0, Field::Text));
    assert!(rt; is_refused(alloc, b"\xff\xfec\x00", Table::Top, 0, Field::Text));
    assert!(rt;
        is_refused(
            alloc,
            b"campaign = 1\n[[card]]\nrfm = \"\xc0\x80\"",
            Table::Top,
            0,
            Field::Text
        )
    );
    assert!(rt;
        is_refused(
            alloc,
            b"campaign = 1 # \xed\xa0\x80",
            Table::Top,
            0,
            Field::Text
        )
    );
    for text in [
        "campaigns = 1\n",
        "campaign = -1\nkeysets = []\n",
        "card = 1\nx.y = 1\n",
    ] {
        assert!(rt;
            is_refused(alloc, text.as_bytes(), Table::Top, 0, Field::Unknown),
            "at {text}"
        );
    }
    for text in [
        "",
        "\u{feff}",
        "\r\n# nothing\n",
        "card = 1",
        "campaign = -1",
        "campaign = 4294967296",
        "campaign = \"1\"",
        "campaign = 1.0",
        "campaign = [1]\ncard = 1",
    ] {
        assert!(rt;
            is_refused(alloc, text.as_bytes(), Table::Top, 0, Field::Campaign),
            "at {text}"
        );
    }
    for text in [
        "campaign = 1\ncard = 1",
        "campaign = 1\n[card]\nnumber = 1\n",
        "campaign = 1\ncard = [{ number = 1 }, 2]\nkeyset = 1\n",
    ] {
        assert!(rt;
            is_refused(alloc, text.as_bytes(), Table::Card, 0, Field::Text),
            "at {text}"
        );
    }
    for text in [
        "campaign = 1\nkeyset = \"\"",
        "campaign = 1\n[keyset]\n",
        "campaign = 1\nkeyset = [[]]\n",
    ] {
        assert!(rt;
            is_refused(alloc, text.as_bytes(), Table::Keyset, 0, Field::Text),
            "at {text}"
        );
    }
    Ok(())
}

#[test]
fn each_refusal_of_a_card(rt: HostRuntime) -> Result<(), Fail> {
    let alloc = rt.alloc();
    for (card, field) in [
        ("number = 8901\nname = 1", Field::Unknown),
        ("Number = 8901", Field::Unknown),
        ("buffer = 0", Field::Number),
        ("number = -1", Field::Number),
        ("number = 1000000000000000000", Field::Number),
        ("number = \"8901\"", Field::Number),
        ("number = 8900\nbuffer = 0", Field::Number),
        ("number = 8901\nbuffer = 0\nrfm = 1", Field::Buffer),
        ("number = 8901\nbuffer = 4097", Field::Buffer),
        ("number = 8901\nbuffer = true", Field::Buffer),
        ("number = 8901\nrfm = \"b0001\"\nram = 1", Field::Rfm),
        ("number = 8901\nrfm = \"b000100\"", Field::Rfm),
        ("number = 8901\nrfm = \"g00010\"", Field::Rfm),
        ("number = 8901\nrfm = 0xb00010", Field::Rfm),
        ("number = 8901\nram = \"\"\nwide = 1", Field::Ram),
        ("number = 8901\nram = \"B00010\"", Field::Ram),
        ("number = 8901\nrfm = \"000000\"", Field::Ram),
        ("number = 8901\nwide = \"true\"", Field::Wide),
        ("number = 8901\nwide = 0", Field::Wide),
    ] {
        let text = with_lines(alloc, card, "kvn = 0")?;
        assert!(rt;
            is_refused(alloc, text.as_bytes(), Table::Card, 2, field),
            "at {card}"
        );
    }
    Ok(())
}

#[test]
fn each_refusal_of_a_keyset(rt: HostRuntime) -> Result<(), Fail> {
    let alloc = rt.alloc();
    let kic = "kic = \"000102030405060708090a0b0c0d0e0f\"";
    let kid = "kid = \"000102030405060708090a0b0c0d0e0f\"";
    for (keyset, field) in [
        ("card = 8901\nkvn = 1\nkiv = 1", Field::Unknown),
        ("kvn = 0", Field::CardOf),
        ("card = 8902\nkvn = 0", Field::CardOf),
        ("card = -1", Field::CardOf),
        ("card = \"8901\"", Field::CardOf),
        ("card = 8901\nkic = 1", Field::Kvn),
        ("card = 8901\nkvn = 0", Field::Kvn),
        ("card = 8901\nkvn = 16", Field::Kvn),
        ("card = 8900\nkvn = 1", Field::Kvn),
        ("card = 8901\nkvn = 1\nkid = 1", Field::Kic),
        ("card = 8901\nkvn = 1\nkic = \"00\"", Field::Kic),
        (
            "card = 8901\nkvn = 1\nkic = \"000102030405060708090a0b0c0d0e0g\"",
            Field::Kic,
        ),
    ] {
        let text = with_lines(alloc, CARD, keyset)?;
        assert!(rt;
            is_refused(alloc, text.as_bytes(), Table::Keyset, 2, field),
            "at {keyset}"
        );
    }
    for (rest, field) in [
        ("", Field::Kid),
        ("kid = \"000102030405060708090a0b0c0d0e0f0\"", Field::Kid),
        (
            "kid = \"2B7E151628aed2a6abf7158809cf4f3c\"\ncipher = 1",
            Field::Kid,
        ),
    ] {
        let keyset = format!(in alloc; "card = 8901\nkvn = 1\n{kic}\n{rest}")?;
        let text = with_lines(alloc, CARD, keyset.as_str())?;
        assert!(rt;
            is_refused(alloc, text.as_bytes(), Table::Keyset, 2, field),
            "at {rest}"
        );
    }
    for (rest, field) in [
        ("cipher = \"true\"\nmode = 1", Field::Cipher),
        ("mode = \"Higher\"\nbase = 1", Field::Mode),
        ("mode = \"\"", Field::Mode),
        ("mode = true", Field::Mode),
        ("base = \"000000000\"\nput = 1", Field::Base),
        ("base = \"00000000000\"", Field::Base),
        ("base = \"000000000g\"", Field::Base),
        ("base = 0", Field::Base),
        ("put = 1", Field::Put),
        ("put = true\nbase = \"0000000001\"", Field::Put),
    ] {
        let keyset = format!(in alloc; "card = 8901\nkvn = 1\n{kic}\n{kid}\n{rest}")?;
        let text = with_lines(alloc, CARD, keyset.as_str())?;
        assert!(rt;
            is_refused(alloc, text.as_bytes(), Table::Keyset, 2, field),
            "at {rest}"
        );
    }
    Ok(())
}

#[test]
fn first_of_several_faults_is_answered(rt: HostRuntime) -> Result<(), Fail> {
    let alloc = rt.alloc();
    for (text, table, row, field) in [
        (
            "x = 1\ncampaign = -1\ncard = 1\n",
            Table::Top,
            0,
            Field::Unknown,
        ),
        ("campaign = -1\ncard = 1\n", Table::Top, 0, Field::Campaign),
        (
            "campaign = 1\nkeyset = 1\ncard = [{ number = 1, x = 1 }]\n",
            Table::Card,
            1,
            Field::Unknown,
        ),
        (
            "campaign = 1\ncard = [{ number = 1, wide = 0 }, { x = 1 }]\n",
            Table::Card,
            1,
            Field::Wide,
        ),
        (
            "campaign = 1\ncard = [{ number = 1 }, { number = 2, ram = 1 }]\nkeyset = [1]\n",
            Table::Card,
            2,
            Field::Ram,
        ),
        (
            "campaign = 1\ncard = [{ number = 1 }]\nkeyset = [{ card = 1 }, { x = 1 }]\n",
            Table::Keyset,
            1,
            Field::Kvn,
        ),
        (
            "campaign = 1\nkeyset = [{ card = 1, x = 1 }]\n",
            Table::Keyset,
            1,
            Field::Unknown,
        ),
        (
            "campaign = 1\nkeyset = [{ card = 1 }]\n",
            Table::Keyset,
            1,
            Field::CardOf,
        ),
    ] {
        assert!(rt;
            is_refused(alloc, text.as_bytes(), table, row, field),
            "at {text}"
        );
    }
    Ok(())
}

#[test]
fn key_of_another_card_is_refused(rt: HostRuntime) -> Result<(), Fail> {
    let text = "campaign = 7
[[card]]
number = 8901
[[card]]
number = 8902
[[keyset]]
card = 8901
kvn = 1
kic = \"000102030405060708090a0b0c0d0e0f\"
kid = \"2b7e151628aed2a6abf7158809cf4f3c\"
[[keyset]]
card = 8902
kvn = 1
kic = \"000102030405060708090a0b0c0d0e0f\"
kid = \"2b7e151628aed2a6abf7158809cf4f3c\"
";
    assert!(rt; is_refused(rt.alloc(), text.as_bytes(), Table::Keyset, 2, Field::Kid));
    Ok(())
}

/// A plan of so many cards, and of so many keysets on one card.
fn many(alloc: Global, cards: u32, keysets: u32) -> Result<String, AllocError> {
    let mut text = String::from_str(alloc, "campaign = 7\n")?;
    for card in 0..cards {
        let entry = format!(in alloc; "[[card]]\nnumber = {card}\n")?;
        text.push_str(entry.as_str())?;
    }
    for keyset in 0..keysets {
        let entry = format!(in alloc; "[[keyset]]\ncard = {keyset}\n")?;
        text.push_str(entry.as_str())?;
    }
    Ok(text)
}

#[test]
fn limits_of_a_plan(rt: HostRuntime) -> Result<(), Fail> {
    let alloc = rt.alloc();
    let text = many(alloc, 10_000, 0)?;
    match read_plan(alloc, text.as_bytes()) {
        Ok(plan) => assert_eq!(rt; plan.cards.as_slice().len(), 10_000),
        Err(_) => return Err(Fail::from("no plan")),
    }
    let text = many(alloc, 10_001, 20_001)?;
    assert!(rt; is_refused(alloc, text.as_bytes(), Table::Card, 0, Field::TooMany));
    let text = many(alloc, 1, 20_001)?;
    assert!(rt; is_refused(alloc, text.as_bytes(), Table::Keyset, 0, Field::TooMany));
    let text = many(alloc, 1, 20_000)?;
    assert!(rt; is_refused(alloc, text.as_bytes(), Table::Keyset, 1, Field::Kvn));
    Ok(())
}
